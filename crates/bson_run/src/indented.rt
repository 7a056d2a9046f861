//! One text to another over several lines: from bytes to bytes.
ghost use Rattle.std.specs.Prelude.{◌≡◌, IfOk, IfErr, IsUtf8, string_bytes};
ghost use Rattle.serde_json.specs.Data.{Data};
ghost use Rattle.bson_model.specs.Means.{MeansIn};
ghost use Rattle.bson_model.specs.Value as model;
ghost use Rattle.bson.specs.TextMeaning.{IsTextOf};
ghost use Rattle.bson_convert.specs.Convert.{IsConvertedText, IsRejectedIn};
ghost use Rattle.bson_run.specs.Indent.{mode_of, ConvertsIndented, IsFixedPointIndented, IsIndentedOutput};

use crate::indent::indent_text;
use bson::extjson::{Form, Options};
use bson_convert::convert::{converted_text, end_line};
use bson_convert::error::Error;
use bson_convert::mode::Mode;
use std::alloc::Global;

/// Returns the text of [`convert_text`](bson_convert::convert::convert_text) in a form, over several lines.
/// The form says whether the text is relaxed, and the options say which layout its scalars have.
/// [`indent_text`](crate::indent::indent_text) indents it with `spaces` for each bracket. The text and
/// the indented text are in memory together.
///
/// # Errors
///
/// The errors of `convert_text`, for the same bytes.
///
/// ```
/// let text = br#"{"b": {"$numberLong": "5"}, "a": []}"#;
/// let indented_text = convert_indented(alloc, Options::mongodb(), Form::Relaxed, 2, text);
/// if let Ok(indented_text) = indented_text {
///     rt.print(str::from_utf8(&indented_text)?)?;
///     // {
///     //   "b": 5,
///     //   "a": []
///     // }
/// }
/// ```
pub fn convert_indented(
    alloc: Global,
    options: Options,
    form: Form,
    spaces: usize,
    bytes: &[u8],
) -> Result<Vec<u8>, Error>
    ensures ok { IfOk result (λ output. ConvertsIndented options.key_order options form spaces bytes.now output.items) }
    ensures utf8 { IfOk result (λ output. IsUtf8 output.items) }
    ensures again { IfOk result (λ output. IsFixedPointIndented options.key_order options form spaces output.items) }
    ensures accepts { (tree : Data) (value : model.Value) → IsTextOf bytes.now tree
        → MeansIn options.doubles tree value → IfErr result (λ fault. fault ≡ Error.OutOfMemory) }
    ensures fault { IfErr result (λ fault. IsRejectedIn options fault bytes.now) }
{
    let text = text_in_mode(alloc, options, mode_of(form), bytes)?;
    indented_output(alloc, spaces, &text)
}

// The mode that writes the form.
fn mode_of(form: Form) -> Mode
    ensures { result ≡ mode_of form }
{
    match form {
        Form::Canonical => Mode::Canonical,
        Form::Relaxed => Mode::Relaxed,
        Form::MongoDbCanonical => Mode::Canonical,
        Form::MongoDbRelaxed => Mode::Relaxed,
    }
}

// The text in the mode of the value that the bytes mean.
fn text_in_mode(alloc: Global, options: Options, mode: Mode, bytes: &[u8]) -> Result<String, Error>
    ensures ok { IfOk result (λ text. IsConvertedText options.key_order options mode bytes.now (string_bytes text)) }
    ensures accepts { (tree : Data) (value : model.Value) → IsTextOf bytes.now tree
        → MeansIn options.doubles tree value → IfErr result (λ fault. fault ≡ Error.OutOfMemory) }
    ensures fault { IfErr result (λ fault. IsRejectedIn options fault bytes.now) }
{
    Ok(into_string(converted_text(alloc, options, mode, bytes)?))
}

// The text as a string.
fn into_string(text: Vec<u8>) -> String
    requires { IsUtf8 text.items }
    ensures { string_bytes result ≡ text.items }
{
    match String::from_utf8(text) {
        Ok(text) => text,
        Err(_) => unreachable!(),
    }
}

// The layout of the text, and a newline.
fn indented_output(alloc: Global, spaces: usize, text: &str) -> Result<Vec<u8>, Error>
    ensures ok { IfOk result (λ output. IsIndentedOutput spaces text.now output.items) }
    ensures utf8 { IfOk result (λ output. IsUtf8 output.items) }
    ensures fault { IfErr result (λ fault. fault ≡ Error.OutOfMemory) }
{
    match indent_text(alloc, spaces, text) {
        Ok(indented_text) => end_line(indented_text),
        Err(_) => Err(Error::OutOfMemory),
    }
}
