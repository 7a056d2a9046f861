//! From text to text, token by token.
ghost use Rattle.std.specs.Prelude.{◌≡◌, IfOk, IfErr, IsUtf8, ⊤};
ghost use Rattle.bson_model.specs.declared.options.KeyOrder.TheVariants.{Ascending, AsGiven};
ghost use Rattle.bson_text.specs.OutputTexts.{IsFilteredText, IsShownText};
ghost use Rattle.bson_text.specs.RejectedText.{IsRejectedText, SortsKeys};
ghost use Rattle.bson_scalar.specs.Forms.{form_in};
ghost use Rattle.bson_scalar.specs.declared.form.Doubles.TheVariants.{Finite};

use crate::display_writer::DisplayWriter;
use crate::sorted_writer::SortedWriter;
use crate::text_writer::TextWriter;
use crate::traversal::write_text;
use crate::traversal_error::TraversalError;
use bson_model::options::{KeyOrder, Options};
use bson_scalar::form::{Doubles, Form};
use json::Scratch;
use std::alloc::Global;

/// Writes the compact text of the value that the text denotes in the form, with the keys of each
/// document in the key order and the layout of the options, at every depth. It is written as the text is read,
/// with no value in memory. With ascending keys the last value of a duplicate key wins.
///
/// # Errors
///
/// - `OutOfMemory`: an allocation failed.
/// - `DuplicateKey`: keys are written as given, and an object has two equal keys. The text that
///   [`normalize_text`](bson_tokens::normalize::normalize_text) returns has none, and means the same.
/// - `GaveUp`: an object begins with `$scope`, or the mode is `Finite` and a double has no text. It is
///   also the error if keys are sorted, do not ascend, and need more memory for it than some nine
///   times the text: not in the text that `normalize_text` returns.
/// - `Syntax`: the text is not JSON of at most 127 levels, or a number is out of range.
/// - `Fault`: the text does not mean a value.
pub fn filter_text(
    alloc: Global,
    options: Options,
    form: Form,
    text: &str,
    scratch: &mut Scratch,
) -> Result<Vec<u8>, TraversalError>
    ensures ok { IfOk result (λ written. IsFilteredText options.key_order options.doubles (form_in options.layout form) text.now written.items) }
    ensures utf8 { IfOk result (λ written. IsUtf8 written.items) }
    ensures accepts { IfErr result
        (IsRejectedText options.doubles (options.doubles ≡ Finite) (SortsKeys options.key_order) text.now) }
{
    let form = options.layout.form(form);
    match options.key_order {
        KeyOrder::Ascending => sort_text(alloc, options.doubles, form, text, scratch),
        KeyOrder::AsGiven => order_text(alloc, options.doubles, form, text, scratch),
    }
}

/// Writes the text that shows the value that the text denotes, as [`filter_text`] writes its compact
/// text.
///
/// # Errors
///
/// The errors of [`filter_text`].
pub fn show_text(
    alloc: Global,
    options: Options,
    text: &str,
    scratch: &mut Scratch,
) -> Result<Vec<u8>, TraversalError>
    ensures ok { IfOk result (λ written. IsShownText options.key_order options.doubles text.now written.items) }
    ensures utf8 { IfOk result (λ written. IsUtf8 written.items) }
    ensures accepts { IfErr result (IsRejectedText options.doubles ⊥ ⊤ text.now) }
{
    let writer = DisplayWriter::new(alloc, options.key_order, output_capacity(text), text.len())?;
    let finished_writer = write_text(alloc, options.doubles, text, scratch, writer)?;
    Ok(finished_writer.text)
}

// Writes the compact text with the keys as given.
fn order_text(
    alloc: Global,
    doubles: Doubles,
    form: Form,
    text: &str,
    scratch: &mut Scratch,
) -> Result<Vec<u8>, TraversalError>
    ensures ok { IfOk result (λ written. IsFilteredText AsGiven doubles form text.now written.items) }
    ensures utf8 { IfOk result (λ written. IsUtf8 written.items) }
    ensures accepts { IfErr result (IsRejectedText doubles (doubles ≡ Finite) (SortsKeys AsGiven) text.now) }
{
    let writer = TextWriter::new(alloc, doubles, form, output_capacity(text))?;
    let finished_writer = write_text(alloc, doubles, text, scratch, writer)?;
    Ok(finished_writer.json_writer.into_inner())
}

// Writes the compact text with the keys in ascending order of bytes.
fn sort_text(
    alloc: Global,
    doubles: Doubles,
    form: Form,
    text: &str,
    scratch: &mut Scratch,
) -> Result<Vec<u8>, TraversalError>
    ensures ok { IfOk result (λ written. IsFilteredText Ascending doubles form text.now written.items) }
    ensures utf8 { IfOk result (λ written. IsUtf8 written.items) }
    ensures accepts { IfErr result (IsRejectedText doubles (doubles ≡ Finite) (SortsKeys Ascending) text.now) }
{
    let writer = SortedWriter::new(alloc, doubles, form, output_capacity(text), text.len())?;
    let finished_writer = write_text(alloc, doubles, text, scratch, writer)?;
    Ok(finished_writer.text)
}

// The length of the input. It is 0 for a long input, so that the reader's scratch gets the block that
// the previous scratch freed.
fn output_capacity(text: &str) -> usize {
    if text.len() < 1 << 20 { text.len() } else { 0 }
}
