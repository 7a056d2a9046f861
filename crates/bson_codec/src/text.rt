//! The text of a document's bytes, written as they are read.
ghost use Rattle.std.specs.Prelude.{◌≡◌, true, IfOk, IfErr, IsUtf8, string_bytes};
ghost use Rattle.bson_bytes.specs.ReadDocuments.{IsReadAsDocument};
ghost use Rattle.bson_bytes.specs.Reading.{reads_bytes};
ghost use Rattle.bson_bytes.specs.Source.{ReadsAllTo};
ghost use Rattle.bson_codec.specs.ReadErrors.{IsReadFault};
ghost use Rattle.bson_codec.specs.DocumentText.{IsDocumentTextOf};
ghost use Rattle.bson_codec.specs.declared.de.Error.TheVariants as errors;
ghost use Rattle.bson_model.specs.Displayed.{display_text};
ghost use Rattle.bson_model.specs.Normal.{writable_in};
ghost use Rattle.bson_model.specs.Value.{Pairs, document};
ghost use Rattle.bson_model.specs.ValueTexts.{IsTextInOrder, IsTextWithDoubles};

use crate::de::{Error, add_offset, from_slice};
use crate::writer_sink::write_document;
use bson::Bson;
use bson::extjson::{Doubles, Form, KeyOrder, Options, WriteError};
use bson_bytes::stop::Stop;
use bson_scalar::form::Layout;
use bson_text::display_writer::DisplayWriter;
use bson_text::sorted_writer::SortedWriter;
use bson_text::text_writer::TextWriter;
use std::alloc::Global;

/// Reads all of the bytes as a document (BSON 1.1), and returns its compact text in the form (MongoDB
/// Extended JSON v2). Each document has its keys in their own order, and finite doubles are written.
///
/// The text is written while the bytes are read. No value is made in memory, unless some document may
/// have a duplicate key. If a key is duplicated, its last value wins, at its first position.
///
/// # Errors
///
/// - `Error::Malformed` has the first fault of the bytes and its offset.
/// - `Error::OutOfMemory`: an allocation failed.
///
/// ```
/// let bytes = b"\x0c\0\0\0\x10n\0\x05\0\0\0\0";
/// println!(rt; "{}", decode_text(alloc, Form::Relaxed, bytes, DEPTH)?)?; // {"n":5}
/// ```
pub fn decode_text(alloc: Global, form: Form, bytes: &[u8], depth: usize) -> Result<String, Error>
    // The bytes are a document, and this is its text.
    ensures ok { IfOk result (λ text. IsDocumentTextOf form depth bytes.now (string_bytes text)) }
    // The bytes of a document are refused only if memory runs out.
    ensures only { (pairs : Pairs) → IsReadAsDocument depth bytes.now pairs
        → IfErr result (λ error. error ≡ errors.OutOfMemory) }
    // Which fault it is, and where.
    ensures fault { IfErr result (λ error. IsReadFault error bytes.now (reads_bytes depth bytes.now)) }
{
    match ordered_text(alloc, Doubles::Finite, form, bytes, depth) {
        Ok(text) => Ok(into_string(text)),
        Err(Stop::Fault(fault)) => Err(add_offset(Stop::Fault(fault), bytes)),
        Err(_) => decode_by_value(alloc, form, bytes, depth),
    }
}

fn into_string(text: Vec<u8>) -> String
    requires { IsUtf8 text.items }
    ensures { string_bytes result ≡ text.items }
{
    let Ok(text) = String::from_utf8(text) else {
        unreachable!();
    };
    text
}

// Decodes the bytes through a document in memory. The form has its layout, which `Layout::Specified`
// leaves as it is.
fn decode_by_value(alloc: Global, form: Form, bytes: &[u8], depth: usize) -> Result<String, Error>
    ensures ok { IfOk result (λ text. IsDocumentTextOf form depth bytes.now (string_bytes text)) }
    ensures only { (pairs : Pairs) → IsReadAsDocument depth bytes.now pairs
        → IfErr result (λ error. error ≡ errors.OutOfMemory) }
    ensures fault { IfErr result (λ error. IsReadFault error bytes.now (reads_bytes depth bytes.now)) }
{
    let options = Options {
        doubles: Doubles::Finite,
        key_order: KeyOrder::AsGiven,
        layout: Layout::Specified,
    };
    let document = from_slice(alloc, bytes, depth)?;
    match Bson::Document(document).into_text(alloc, options, form) {
        Ok(text) => Ok(text),
        Err(WriteError::OutOfMemory) => Err(Error::OutOfMemory),
        Err(WriteError::FiniteDouble) => unreachable!(),
    }
}

// Returns the compact text of the document that the bytes are, its keys in their own order.
pub(crate) fn ordered_text(
    alloc: Global,
    doubles: Doubles,
    form: Form,
    bytes: &[u8],
    depth: usize,
) -> Result<Vec<u8>, Stop>
    ensures { ReadsAllTo (λ stop. Unit {0})
        (λ pairs text. (IsTextInOrder doubles form (document pairs) text.items
        × (writable_in doubles (document pairs) ≡ true)) × IsUtf8 text.items) result
        (reads_bytes depth bytes.now) }
{
    let writer = TextWriter::new(alloc, doubles, form, text_capacity(bytes))?;
    let finished_writer = write_document(alloc, bytes, depth, writer)?;
    Ok(finished_writer.json_writer.into_inner())
}

// The same with each document's keys in ascending order.
pub(crate) fn sorted_text(
    alloc: Global,
    doubles: Doubles,
    form: Form,
    bytes: &[u8],
    depth: usize,
) -> Result<Vec<u8>, Stop>
    ensures { ReadsAllTo (λ stop. Unit {0})
        (λ pairs text. (IsTextWithDoubles doubles form (document pairs) text.items
        × (writable_in doubles (document pairs) ≡ true)) × IsUtf8 text.items) result
        (reads_bytes depth bytes.now) }
{
    let writer = SortedWriter::new(alloc, doubles, form, text_capacity(bytes), bytes.len())?;
    let finished_writer = write_document(alloc, bytes, depth, writer)?;
    Ok(finished_writer.text)
}

// Returns the output of `Display` for the document that the bytes are.
pub(crate) fn shown_text(alloc: Global, bytes: &[u8], depth: usize) -> Result<Vec<u8>, Stop>
    ensures { ReadsAllTo (λ stop. Unit {0})
        (λ pairs text. (text.items ≡ display_text (document pairs)) × IsUtf8 text.items) result
        (reads_bytes depth bytes.now) }
{
    let writer = DisplayWriter::new(alloc, KeyOrder::AsGiven, text_capacity(bytes), bytes.len())?;
    let finished_writer = write_document(alloc, bytes, depth, writer)?;
    Ok(finished_writer.text)
}

// Returns a capacity for the text of a document with numbers and short strings.
fn text_capacity(bytes: &[u8]) -> usize {
    match bytes.len().checked_mul(2) {
        Some(doubled_length) => doubled_length,
        None => bytes.len(),
    }
}
