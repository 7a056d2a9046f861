//! Texts that are only checked.
ghost use Rattle.std.specs.Prelude.{◌≡◌, IfErr, OnOk};
ghost use Rattle.serde_json.specs.Data.{Data};
ghost use Rattle.bson_model.specs.Means.{MeansIn};
ghost use Rattle.bson_model.specs.TextMeaning.{IsTextOf};
ghost use Rattle.bson_model.specs.Value as model;
ghost use Rattle.bson_convert.specs.Convert.{IsAccepted, IsRejectedIn};

use crate::conversion_attempt::error_of_tree;
use crate::error::Error;
use bson_model::options::Options;
use bson_text::discard_writer::check_text;
use bson_text::first_fault::first_fault_in;
use bson_text::traversal_error::TraversalError;
use json::Scratch;
use std::alloc::Global;

/// Checks that the bytes are a text that has a meaning. Nothing is written.
///
/// # Errors
///
/// - `NotJson`: the bytes are not UTF-8, or `serde_json` reads no tree from them.
/// - `NotExtendedJson`: the tree has no meaning. It has the tree's first fault.
/// - `OutOfMemory`: an allocation failed.
///
/// ```
/// let text = br#"{"n": 1.5}"#;
/// println!(rt; "{}", check(alloc, Options::mongodb(), text).is_ok())?; // true
/// println!(rt; "{}", check(alloc, Options::default(), text).is_ok())?; // false
/// ```
pub fn check(alloc: Global, options: Options, bytes: &[u8]) -> Result<(), Error>
    ensures ok { OnOk result (IsAccepted options bytes.now) }
    ensures accepts { (tree : Data) (value : model.Value) → IsTextOf bytes.now tree
        → MeansIn options.doubles tree value → IfErr result (λ fault. fault ≡ Error.OutOfMemory) }
    ensures fault { IfErr result (λ fault. IsRejectedIn options fault bytes.now) }
{
    check_line(alloc, options, bytes, &mut Scratch::new(alloc))
}

/// Checks the bytes as [`check`] does, with memory that serves one text after another.
///
/// # Errors
///
/// The errors of [`check`].
pub fn check_line(
    alloc: Global,
    options: Options,
    bytes: &[u8],
    scratch: &mut Scratch,
) -> Result<(), Error>
    ensures ok { OnOk result (IsAccepted options bytes.now) }
    ensures accepts { (tree : Data) (value : model.Value) → IsTextOf bytes.now tree
        → MeansIn options.doubles tree value → IfErr result (λ fault. fault ≡ Error.OutOfMemory) }
    ensures fault { IfErr result (λ fault. IsRejectedIn options fault bytes.now) }
{
    let Ok(text) = simdutf8::compat::from_utf8(bytes) else {
        return Err(Error::NotJson);
    };
    check_tokens(alloc, options, text, scratch)
}

/// Checks a string: it is traversed as it is. If the traversal stops, the normalized string has the
/// fault, if there is one.
pub(crate) fn check_tokens(
    alloc: Global,
    options: Options,
    text: &str,
    scratch: &mut Scratch,
) -> Result<(), Error>
    ensures ok { OnOk result (IsAccepted options text.now) }
    ensures fault { IfErr result (λ fault. IsRejectedIn options fault text.now) }
{
    match check_text(alloc, options.doubles, text, scratch) {
        Ok(()) => return Ok(()),
        Err(TraversalError::OutOfMemory) => return Err(Error::OutOfMemory),
        Err(_) => {}
    }
    match first_fault_in(alloc, options.doubles, text) {
        Ok(None) => Ok(()),
        Ok(Some(place)) => Err(Error::NotExtendedJson(place)),
        Err(error) => Err(error_of_tree(error)),
    }
}
