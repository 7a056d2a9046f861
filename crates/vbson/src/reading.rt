//! The value that options read from a text, or from the bytes of a document.
ghost use Rattle.std.specs.Prelude.{◌≡◌, IfOk, IfErr};
ghost use Rattle.bson.specs.View.{bson_view};
ghost use Rattle.bson_model.specs.Value.{Value};
ghost use Rattle.bson_run.specs.Preprocessed.{IsPreprocessedAs, preprocessed_of};
ghost use Rattle.vbson.specs.Convert.{preprocessing_of};
ghost use Rattle.vbson.specs.Reading.{IsDocumentUnder, IsPreprocessingFailure, IsTextReadFailure};
ghost use Rattle.vbson.specs.Reading.{IsDocumentReadFailure, MeansUnder};

use crate::convert::status_of;
use crate::options::{CallOptions, duplicate_keys_of, options_of, preprocessing_of};
use crate::status;
use bson::Bson;
use bson::extjson::{KeyOrder, Options};
use bson_codec::de;
use bson_codec::de::{DEPTH, ReadOptions, from_bytes};
use bson_run::encode::error_of;
use bson_run::preprocessed::preprocess_text;
use bson_tokens::laws::one_duplicate_path;
use std::alloc::Global;

/// Returns the text that the options read instead of a text, or `None` if they read the text itself.
///
/// # Errors
///
/// - `NOT_EXTENDED_JSON`: the options reject a duplicate key of the text.
/// - `OUT_OF_MEMORY`: an allocation failed.
pub fn preprocess(alloc: Global, options: CallOptions, text: &[u8]) -> Result<Option<String>, u32>
    ensures ok { IfOk result
        (λ new_text. IsPreprocessedAs (preprocessing_of options) text.now (preprocessed_of text.now new_text)) }
    ensures rejected { IfErr result (λ status. IsPreprocessingFailure options status text.now) }
{
    // A law: a text with a duplicate key does not have unique keys.
    one_duplicate_path();
    match preprocess_text(alloc, preprocessing_of(options), text) {
        Ok(new_text) => Ok(new_text),
        Err(fault) if fault.is_out_of_memory() => Err(status::OUT_OF_MEMORY),
        Err(_) => Err(status::NOT_EXTENDED_JSON),
    }
}

/// Returns the text that is read: the new one if there is one, or else the text itself.
pub fn text_to_read<'a>(new_text: &'a Option<String>, text: &'a [u8]) -> &'a [u8]
    ensures { result.now ≡ preprocessed_of text.now new_text.now }
{
    match new_text {
        Some(new_text) => new_text.as_bytes(),
        None => text,
    }
}

/// Returns the value of a text.
///
/// # Errors
///
/// Returns the status of the first fault of the text.
///
/// - `NOT_JSON`: the text that is read is not one JSON text.
/// - `BAD_OBJECT_ID`: the first fault is an invalid object id.
/// - `NOT_EXTENDED_JSON`: the text has another first fault, or preprocessing rejects it.
/// - `OUT_OF_MEMORY`: an allocation failed.
pub fn value_of_text(alloc: Global, options: CallOptions, text: &[u8]) -> Result<Bson, u32>
    ensures ok { IfOk result (λ value. MeansUnder options text.now (bson_view value)) }
    ensures unique_value { (value : Value) → MeansUnder options text.now value
        → IfOk result (λ read_value. value ≡ bson_view read_value) }
    ensures accepts { (value : Value) → MeansUnder options text.now value → IfErr result (λ status. status ≡ 5) }
    ensures rejected { IfErr result (λ status. IsTextReadFailure options status text.now) }
{
    let new_text = match preprocess(alloc, options, text) {
        Ok(new_text) => new_text,
        Err(status) => return Err(status),
    };
    let conversion_options = options_of(options);
    let ascending_options = Options {
        key_order: KeyOrder::Ascending,
        ..conversion_options
    };
    match Bson::from_text(alloc, ascending_options, text_to_read(&new_text, text)) {
        Ok(value) => Ok(value),
        Err(error) => Err(status_of(error_of(error))),
    }
}

/// Returns the document that bytes are, as a value.
///
/// # Errors
///
/// - `NOT_A_DOCUMENT`: the bytes are not a document, or have a duplicate key that the options reject.
/// - `OUT_OF_MEMORY`: an allocation failed.
pub fn value_of_document(alloc: Global, options: CallOptions, bytes: &[u8]) -> Result<Bson, u32>
    ensures ok { IfOk result (λ value. IsDocumentUnder options bytes.now (bson_view value)) }
    ensures unique_value { (value : Value) → IsDocumentUnder options bytes.now value
        → IfOk result (λ read_value. value ≡ bson_view read_value) }
    ensures rejected { IfErr result (λ status. IsDocumentReadFailure options status bytes.now) }
{
    let read_options = ReadOptions {
        depth: DEPTH,
        duplicate_keys: duplicate_keys_of(options),
    };
    match from_bytes(alloc, read_options, bytes) {
        Ok(document) => Ok(Bson::Document(document)),
        Err(de::Error::Malformed { .. }) => Err(status::NOT_A_DOCUMENT),
        Err(de::Error::OutOfMemory) => Err(status::OUT_OF_MEMORY),
    }
}
