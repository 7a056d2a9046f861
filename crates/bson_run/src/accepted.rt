//! A text that is freed once it was accepted, before its output is written.
ghost use Rattle.std.specs.Prelude.{◌≡◌, IfOk, IfErr, IsUtf8};
ghost use Rattle.bson_convert.specs.Convert.{IsRejectedIn};
ghost use Rattle.bson_convert.specs.InOrder.{ConvertsBy};
ghost use Rattle.bson_run.specs.Accepted.{HasOutput, IsAcceptedText, IsUtf8Accepted, Outputs};

use bson_convert::conversion_attempt::{Attempt, try_text};
use bson_convert::convert::{convert_whole, end_line};
use bson_convert::error::Error;
use bson_convert::mode::Mode;
use bson_model::options::Options;
use std::alloc::Global;

/// The output of an accepted text, or a normalized text to write: the text itself is no longer needed.
///
/// ```
/// let options = Options::default();
/// let bytes = br#"{"a": 7, "b": 8, "a": 9}"#.as_slice();
/// if let Ok(accepted) = Accepted::of(alloc, options, Mode::Relaxed, bytes) {
///     if let Ok(output) = accepted.output(alloc, options) {
///         rt.print(str::from_utf8(&output)?)?; // {"a":9,"b":8}
///     }
/// }
/// ```
#[derive(Drop)]
pub enum Accepted {
    /// The output.
    Output(Vec<u8>),
    /// A text to be written in the place of the one that was accepted: its output in the mode is that
    /// of the text.
    Normalized(Mode, String),
}

impl Accepted {
    /// Reads bytes in the mode, as [`convert_text`](bson_convert::convert::convert_text) does. A caller who
    /// needs rejected bytes need not keep them in memory next to the output.
    ///
    /// Bytes that cannot be written as they are read are checked for a fault at once. The check
    /// needs one more walk over their tokens.
    ///
    /// # Errors
    ///
    /// - `NotJson`: the bytes are not UTF-8, or `serde_json` reads no tree from them.
    /// - `NotExtendedJson`: the tree has no meaning. It has the tree's first fault.
    /// - `OutOfMemory`: an allocation failed.
    pub fn of(alloc: Global, options: Options, mode: Mode, bytes: &[u8]) -> Result<Accepted, Error>
        ensures ok { IfOk result (HasOutput options (ConvertsBy options.key_order options mode bytes.now)) }
        ensures utf8 { IfOk result IsUtf8Accepted }
        ensures fault { IfErr result (λ fault. IsRejectedIn options fault bytes.now) }
    {
        match try_text(alloc, options, mode, bytes)? {
            Attempt::Written(text) => Ok(Accepted::Output(end_line(text)?)),
            Attempt::Normalized(text) => Ok(Accepted::Normalized(mode, text)),
        }
    }

    /// Returns the output.
    ///
    /// # Errors
    ///
    /// - `OutOfMemory`: an allocation failed. No other error is possible with the options with
    ///   which the bytes were accepted.
    pub fn output(self, alloc: Global, options: Options) -> Result<Vec<u8>, Error>
        ensures ok { IfOk result (λ output. Outputs options self output.items) }
        ensures utf8 { IsUtf8Accepted self → IfOk result (λ output. IsUtf8 output.items) }
        ensures fault { IsAcceptedText options self → IfErr result (λ fault. fault ≡ Error.OutOfMemory) }
    {
        match self {
            Accepted::Output(output) => Ok(output),
            Accepted::Normalized(mode, text) => {
                convert_whole(alloc, options, mode, text.into_bytes())
            }
        }
    }
}
