//! Decodes the BSON bytes of a document to text.
ghost use Rattle.std.specs.Prelude.{◌≡◌, ◌⊎◌, ◌↔◌, ◌<◌, IfOk, IfErr, IsUtf8, true};
ghost use Rattle.bson.specs.View.{document_view};
ghost use Rattle.bson_bytes.specs.ReadDocuments.{IsReadAsDocumentIn};
ghost use Rattle.bson_model.specs.Displayed.{display_text};
ghost use Rattle.bson_model.specs.Normal.{writable_in};
ghost use Rattle.bson_model.specs.Value as model;
ghost use Rattle.bson_model.specs.Value.{Pairs};
ghost use Rattle.vbson.specs.Convert.{duplicate_keys_of, options_of_call};
ghost use Rattle.vbson.specs.Documents.{Decodes, DocumentHasNoText, IsDecoded, IsOneDocument, IsTextOfDocument, IsDecodeFailure};
ghost use Rattle.vbson.specs.Documents.{PairsHaveNoTextIn, depth};
ghost use Rattle.vbson.specs.Options.{AreNotForDecoding};

use crate::convert::mode_of;
use crate::options::{CallOptions, are_not_for_decoding, duplicate_keys_of, options_of};
use crate::status;
use crate::streaming::{decode_streaming, streaming_form};
use crate::text::{Text, append_nul, text_before_nul};
use bson::extjson::{Form, Options, WriteError};
use bson::{Bson, Document};
use bson_codec::de::{DEPTH, DuplicateKeys, Error, ReadOptions, from_bytes};
use bson_convert::mode::Mode;
use std::alloc::Global;

/// Decodes the bytes of one document to its text in a mode, with the modes and the options of
/// `vbson_convert_nonnull`. Bytes are not Extended JSON v1, so that option has no meaning here and is
/// rejected. The caller frees the block of the text with `free`.
#[unsafe(no_mangle)]
pub extern "C" fn vbson_decode_nonnull(
    alloc: Global,
    mode: u32,
    options: &CallOptions,
    bytes: &[u8],
    out: &mut Text<'static>,
) -> u32
    ensures success { result ≡ 0 → IsDecoded options.now mode bytes.now out.new }
    ensures accepts { (pairs : Pairs) → IsReadAsDocumentIn (duplicate_keys_of options.now) depth bytes.now pairs
        → writable_in (options_of_call options.now).doubles (model.document pairs) ≡ true → 1 < result → result ≡ 5 }

    // When each other status comes, and that nothing is left then.
    ensures invalid_argument { result ≡ 1 ↔ (2 < mode) ⊎ AreNotForDecoding options.now }
    ensures no_document { result ≡ 10 → IsOneDocument (duplicate_keys_of options.now) bytes.now → ⊥ }
    ensures no_text { result ≡ 7 → DocumentHasNoText options.now mode bytes.now }
    ensures possible_statuses { (result ≡ 0) ⊎ (result ≡ 1) ⊎ (result ≡ 5) ⊎ (result ≡ 7) ⊎ (result ≡ 10) }
    ensures unchanged { 0 < result → out.new ≡ out.old }
{
    if are_not_for_decoding(*options) {
        return status::INVALID_ARGUMENT;
    }
    let Some(mode) = mode_of(mode) else {
        return status::INVALID_ARGUMENT;
    };
    let keys = duplicate_keys_of(*options);
    let text = match decode_document(alloc, keys, options_of(*options), mode, bytes) {
        Ok(text) => text,
        Err(status) => return status,
    };
    let Ok(text) = append_nul(text) else {
        return status::OUT_OF_MEMORY;
    };
    *out = text_before_nul(text);
    status::OK
}

// The text in the mode of the document that the bytes are; or the status. If the text needs
// a document in memory, or duplicate keys are rejected, the document is read first.
fn decode_document(
    alloc: Global,
    keys: DuplicateKeys,
    options: Options,
    mode: Mode,
    bytes: &[u8],
) -> Result<Vec<u8>, u32>
    ensures ok { IfOk result (λ text. Decodes keys options mode bytes.now text.items × IsUtf8 text.items) }
    ensures error_status { IfErr result (λ status. IsDecodeFailure keys options mode status bytes.now) }
{
    match streaming_form(keys, options, mode) {
        Some(form) => decode_streaming(alloc, options.layout.form(form), bytes),
        None => {
            let read_options = ReadOptions {
                depth: DEPTH,
                duplicate_keys: keys,
            };
            match from_bytes(alloc, read_options, bytes) {
                Ok(document) => write_document(alloc, options, mode, document),
                Err(Error::Malformed { .. }) => Err(status::NOT_A_DOCUMENT),
                Err(Error::OutOfMemory) => Err(status::OUT_OF_MEMORY),
            }
        }
    }
}

// The text of the document in the mode; or the status.
fn write_document(
    alloc: Global,
    options: Options,
    mode: Mode,
    document: Document,
) -> Result<Vec<u8>, u32>
    ensures ok { IfOk result (λ text. IsTextOfDocument options mode (document_view document) text.items × IsUtf8 text.items) }
    ensures error_status { IfErr result
        (λ status. (status ≡ 5) ⊎ ((status ≡ 7) × PairsHaveNoTextIn options mode (document_view document))) }
{
    let form = match mode {
        Mode::Canonical => Form::Canonical,
        Mode::Relaxed => Form::Relaxed,
        Mode::Show => return show_document(alloc, &document),
    };
    match Bson::Document(document).into_text(alloc, options, form) {
        Ok(text) => Ok(text.into_bytes()),
        Err(WriteError::FiniteDouble) => Err(status::NOT_REPRESENTABLE),
        Err(WriteError::OutOfMemory) => Err(status::OUT_OF_MEMORY),
    }
}

// The text that shows the document.
fn show_document(alloc: Global, document: &Document) -> Result<Vec<u8>, u32>
    ensures ok { IfOk result (λ text. IsUtf8 text.items
        × (text.items ≡ display_text (model.document (document_view document.now)))) }
    ensures error_status { IfErr result (λ status. status ≡ 5) }
{
    match format!(in alloc; "{document}") {
        Ok(text) => Ok(text.into_bytes()),
        Err(_) => Err(status::OUT_OF_MEMORY),
    }
}
