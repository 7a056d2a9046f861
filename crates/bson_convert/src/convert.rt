//! One text to another, in either order of keys: from bytes to bytes.
ghost use Rattle.std.specs.Prelude.{◌≡◌, ◌++◌, IfOk, IfErr, IsUtf8, ℕ, List};
ghost use Rattle.serde_json.specs.Data.{Data};
ghost use Rattle.bson_model.specs.Means.{Means, MeansIn};
ghost use Rattle.bson_model.specs.Value as model;
ghost use Rattle.bson_convert.specs.Attempts.{IsAttemptResult, IsUtf8Attempt};
ghost use Rattle.bson_convert.specs.Convert.{Converts, IsConvertedText, IsFixedPoint, IsRejected, IsRejectedIn, newline};
ghost use Rattle.bson_convert.specs.InOrder.{ConvertsBy, IsFixedPointBy};
ghost use Rattle.bson_model.specs.declared.options.Options.{Options};
ghost use Rattle.bson_model.specs.TextMeaning.{IsTextOf};

use crate::conversion_attempt::{Attempt, read_normalized, try_line, try_text};
use crate::error::Error;
use crate::mode::Mode;
use bson_model::options::Options;
use json::Scratch;
use std::alloc::Global;

/// Returns the text of the one value that the bytes mean, as the mode says, and a newline.
///
/// The bytes must be UTF-8 and as a whole one JSON text, nested at most 127 deep. Its tree must
/// have a meaning in MongoDB Extended JSON v2.
///
/// The output is UTF-8. In a form it is accepted again, and its own output is the same bytes,
/// unless it nests deeper than 127. An output can nest deeper than its input.
///
/// # Errors
///
/// - `NotJson`: the bytes are not UTF-8, or `serde_json` reads no tree from them.
/// - `NotExtendedJson`: the tree has no meaning. It has the tree's first fault.
/// - `OutOfMemory`: an allocation failed.
///
/// ```
/// if let Ok(line) = convert(alloc, Mode::Relaxed, br#"{"$numberLong": "5"}"#) {
///     rt.print(str::from_utf8(&line)?)?; // 5
/// }
/// ```
pub fn convert(alloc: Global, mode: Mode, bytes: &[u8]) -> Result<Vec<u8>, Error>
    ensures ok { IfOk result (λ output. Converts mode bytes.now output.items) }
    ensures utf8 { IfOk result (λ output. IsUtf8 output.items) }
    ensures again { IfOk result (λ output. IsFixedPoint mode output.items) }
    ensures unique { IfOk result
        (λ output. (other_output : List ℕ) → Converts mode bytes.now other_output → other_output ≡ output.items) }
    ensures accepts { (tree : Data) (value : model.Value) → IsTextOf bytes.now tree → Means tree value
        → IfErr result (λ fault. fault ≡ Error.OutOfMemory) }
    ensures fault { IfErr result (λ fault. IsRejected fault bytes.now) }
{
    convert_text(alloc, Options::default(), mode, bytes)
}

/// Returns the text of [`convert`] with options.
///
/// With `KeyOrder::AsGiven` each document has its keys in the order of the text, at every depth. If a
/// key is duplicated, its last value wins, at its first position. Apart from the order of keys the
/// texts are equal.
///
/// # Errors
///
/// The errors of [`convert`].
///
/// ```
/// let text = br#"{"find": "orders", "batchSize": {"$numberInt": "10"}}"#;
/// if let Ok(line) = convert_text(alloc, Options::mongodb(), Mode::Relaxed, text) {
///     rt.print(str::from_utf8(&line)?)?; // {"find":"orders","batchSize":10}
/// }
/// ```
pub fn convert_text(
    alloc: Global,
    options: Options,
    mode: Mode,
    bytes: &[u8],
) -> Result<Vec<u8>, Error>
    ensures ok { IfOk result (λ output. ConvertsBy options.key_order options mode bytes.now output.items) }
    ensures utf8 { IfOk result (λ output. IsUtf8 output.items) }
    ensures again { IfOk result (λ output. IsFixedPointBy options.key_order options mode output.items) }
    ensures unique { IfOk result (λ output. (other_output : List ℕ) → ConvertsBy options.key_order options mode bytes.now other_output
        → other_output ≡ output.items) }
    ensures accepts { (tree : Data) (value : model.Value) → IsTextOf bytes.now tree
        → MeansIn options.doubles tree value → IfErr result (λ fault. fault ≡ Error.OutOfMemory) }
    ensures fault { IfErr result (λ fault. IsRejectedIn options fault bytes.now) }
{
    convert_line(alloc, options, mode, bytes, &mut Scratch::new(alloc))
}

/// Converts the bytes as [`convert_text`] does, with memory that serves one text after another.
///
/// # Errors
///
/// The errors of [`convert_text`].
pub fn convert_line(
    alloc: Global,
    options: Options,
    mode: Mode,
    bytes: &[u8],
    scratch: &mut Scratch,
) -> Result<Vec<u8>, Error>
    ensures ok { IfOk result (λ output. ConvertsBy options.key_order options mode bytes.now output.items) }
    ensures utf8 { IfOk result (λ output. IsUtf8 output.items) }
    ensures again { IfOk result (λ output. IsFixedPointBy options.key_order options mode output.items) }
    ensures unique { IfOk result (λ output. (other_output : List ℕ) → ConvertsBy options.key_order options mode bytes.now other_output
        → other_output ≡ output.items) }
    ensures accepts { (tree : Data) (value : model.Value) → IsTextOf bytes.now tree
        → MeansIn options.doubles tree value → IfErr result (λ fault. fault ≡ Error.OutOfMemory) }
    ensures fault { IfErr result (λ fault. IsRejectedIn options fault bytes.now) }
{
    let text = line_text(alloc, options, mode, bytes, scratch)?;
    end_line(text)
}

/// Returns the text of [`convert_text`], and frees the bytes once they are read or normalized. Then
/// they need no memory in addition to the output of the normalized text.
///
/// # Errors
///
/// The errors of [`convert`].
pub fn convert_whole(
    alloc: Global,
    options: Options,
    mode: Mode,
    bytes: Vec<u8>,
) -> Result<Vec<u8>, Error>
    ensures ok { IfOk result (λ output. ConvertsBy options.key_order options mode bytes.items output.items) }
    ensures utf8 { IfOk result (λ output. IsUtf8 output.items) }
    ensures again { IfOk result (λ output. IsFixedPointBy options.key_order options mode output.items) }
    ensures accepts { (tree : Data) (value : model.Value) → IsTextOf bytes.items tree
        → MeansIn options.doubles tree value → IfErr result (λ fault. fault ≡ Error.OutOfMemory) }
    ensures fault { IfErr result (λ fault. IsRejectedIn options fault bytes.items) }
{
    let attempt = try_text(alloc, options, mode, &bytes)?;
    drop(bytes);
    let text = finish_attempt(alloc, options, mode, attempt)?;
    end_line(text)
}

/// Returns the text of [`convert_text`] without the newline.
///
/// # Errors
///
/// The errors of [`convert`].
///
/// ```
/// let bytes = br#"[{"$numberLong": "5"}]"#;
/// if let Ok(text) = converted_text(alloc, Options::default(), Mode::Relaxed, bytes) {
///     println!(rt; "{}", str::from_utf8(&text)?)?; // [5]
/// }
/// ```
pub fn converted_text(
    alloc: Global,
    options: Options,
    mode: Mode,
    bytes: &[u8],
) -> Result<Vec<u8>, Error>
    ensures ok { IfOk result (λ text. IsConvertedText options.key_order options mode bytes.now text.items) }
    ensures utf8 { IfOk result (λ text. IsUtf8 text.items) }
    ensures accepts { (tree : Data) (value : model.Value) → IsTextOf bytes.now tree
        → MeansIn options.doubles tree value → IfErr result (λ fault. fault ≡ Error.OutOfMemory) }
    ensures fault { IfErr result (λ fault. IsRejectedIn options fault bytes.now) }
{
    line_text(alloc, options, mode, bytes, &mut Scratch::new(alloc))
}

/// [`converted_text`] with the memory of a run.
pub(crate) fn line_text(
    alloc: Global,
    options: Options,
    mode: Mode,
    bytes: &[u8],
    scratch: &mut Scratch,
) -> Result<Vec<u8>, Error>
    ensures ok { IfOk result (λ text. IsConvertedText options.key_order options mode bytes.now text.items) }
    ensures utf8 { IfOk result (λ text. IsUtf8 text.items) }
    ensures accepts { (tree : Data) (value : model.Value) → IsTextOf bytes.now tree
        → MeansIn options.doubles tree value → IfErr result (λ fault. fault ≡ Error.OutOfMemory) }
    ensures fault { IfErr result (λ fault. IsRejectedIn options fault bytes.now) }
{
    let attempt = try_line(alloc, options, mode, bytes, scratch)?;
    finish_attempt(alloc, options, mode, attempt)
}

// Returns the text that was already written, or writes the text of the normalized input.
fn finish_attempt(
    alloc: Global,
    options: Options,
    mode: Mode,
    attempt: Attempt,
) -> Result<Vec<u8>, Error>
    ensures ok { (bytes : List ℕ) → IsAttemptResult options mode bytes attempt
        → IfOk result (λ text. IsConvertedText options.key_order options mode bytes text.items) }
    ensures utf8 { IsUtf8Attempt attempt → IfOk result (λ text. IsUtf8 text.items) }
    ensures fault { (bytes : List ℕ) → IsAttemptResult options mode bytes attempt
        → IfErr result (λ fault. IsRejectedIn options fault bytes) }
{
    match attempt {
        Attempt::Written(text) => Ok(text),
        Attempt::Normalized(normalized) => read_normalized(
            alloc,
            options,
            mode,
            normalized.as_str(),
        ),
    }
}

/// Appends a newline to the bytes.
///
/// # Errors
///
/// - `OutOfMemory`: an allocation failed.
pub fn end_line(mut line: Vec<u8>) -> Result<Vec<u8>, Error>
    ensures ok { IfOk result (λ ended. ended.items ≡ line.items ++ newline) }
    ensures utf8 { IsUtf8 line.items → IfOk result (λ ended. IsUtf8 ended.items) }
    ensures fault { IfErr result (λ fault. fault ≡ Error.OutOfMemory) }
{
    match line.push(b'\n') {
        Ok(()) => Ok(line),
        Err(_) => Err(Error::OutOfMemory),
    }
}
