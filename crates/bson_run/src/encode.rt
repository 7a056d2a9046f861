//! One text to the bytes of its document (BSON 1.1, bsonspec.org).
ghost use Rattle.std.specs.Prelude.{◌≡◌, IfOk, IfErr, IfSome, ℕ, List};
ghost use Rattle.bson_model.specs.Value.{Pairs, document};
ghost use Rattle.bson.specs.View.{bson_view};
ghost use Rattle.bson.specs.TextMeaning.{IsTextFaultIn, TextMeansInKeyOrder};
ghost use Rattle.bson.specs.declared.extjson.text_error.TextError.{TextError};
ghost use Rattle.bson_convert.specs.Convert.{IsRejectedIn};
ghost use Rattle.bson_model.specs.declared.options.Options.{Options};
ghost use Rattle.bson_codec.specs.Canonical.{FitsDocument};
ghost use Rattle.bson_codec.specs.WriteErrors.{IsWriteErrorFor};
ghost use Rattle.bson_codec.specs.Unwritten.TheVariants as errors;
ghost use Rattle.bson_run.specs.Encode.{Encodes, IsWriteErrorOf, IsBytesOf, IsEncodeErrorBy, IsEncodeErrorFor};

use bson::Bson;
use bson::extjson::Options;
use bson::extjson::de::TextError;
use bson_codec::pack::pack_text;
use bson_codec::{ser, to_vec};
use bson_convert::encode_error::NoBytes;
use bson_convert::error::Error;
use bson_text::traversal_error::TraversalError;
use json::Scratch;
use std::alloc::Global;

/// Returns the canonical bytes of the document that the text means, its keys in the order that the
/// options name, at every depth.
///
/// With `KeyOrder::AsGiven` it is the order of the text. If a key is duplicated, its last value wins,
/// at its first position.
///
/// # Errors
///
/// - `NotJson`: the bytes are not UTF-8, or `serde_json` reads no tree from them.
/// - `NotExtendedJson`: the tree has no meaning. It has the tree's first fault.
/// - `NoBytes`: the text means another value than a document, or a part of the document has no
///   bytes. It is that of the first of these parts, in the order of writing.
/// - `OutOfMemory`: an allocation failed.
///
/// ```
/// if let Ok(bytes) = encode(alloc, Options::mongodb(), br#"{"n": 5, "a": 2}"#) {
///     let document = from_slice(alloc, &bytes, DEPTH)?;
///     println!(rt; "{document}")?; // { "n": 5, "a": 2 }
/// }
/// ```
pub fn encode(alloc: Global, options: Options, bytes: &[u8]) -> Result<Vec<u8>, Error>
    ensures ok { IfOk result (λ output. Encodes options.key_order options bytes.now output.items) }
    ensures unique { IfOk result
        (λ output. (other_bytes : List ℕ) → Encodes options.key_order options bytes.now other_bytes
        → other_bytes ≡ output.items) }
    ensures accepts { (pairs : Pairs) → TextMeansInKeyOrder options.key_order options.doubles bytes.now (document pairs)
        → FitsDocument pairs → IfErr result (λ fault. fault ≡ Error.OutOfMemory) }
    ensures fault { IfErr result (λ fault. IsEncodeErrorBy options.key_order options fault bytes.now) }
{
    encode_line(alloc, options, bytes, &mut Scratch::new(alloc))
}

/// [`encode`] with the memory of a run.
pub(crate) fn encode_line(
    alloc: Global,
    options: Options,
    bytes: &[u8],
    scratch: &mut Scratch,
) -> Result<Vec<u8>, Error>
    ensures ok { IfOk result (λ output. Encodes options.key_order options bytes.now output.items) }
    ensures unique { IfOk result
        (λ output. (other_bytes : List ℕ) → Encodes options.key_order options bytes.now other_bytes
        → other_bytes ≡ output.items) }
    ensures accepts { (pairs : Pairs) → TextMeansInKeyOrder options.key_order options.doubles bytes.now (document pairs)
        → FitsDocument pairs → IfErr result (λ fault. fault ≡ Error.OutOfMemory) }
    ensures fault { IfErr result (λ fault. IsEncodeErrorBy options.key_order options fault bytes.now) }
{
    match pack_document(alloc, options, bytes, scratch)? {
        Some(document) => Ok(document),
        None => encode_whole(alloc, options, bytes),
    }
}

// The bytes that are written as the text is read; none if the text is to be read whole.
fn pack_document(
    alloc: Global,
    options: Options,
    bytes: &[u8],
    scratch: &mut Scratch,
) -> Result<Option<Vec<u8>>, Error>
    ensures ok { IfOk result
        (λ optional_bytes. IfSome optional_bytes (λ output. Encodes options.key_order options bytes.now output.items)) }
    ensures fault { IfErr result (λ fault. fault ≡ Error.OutOfMemory) }
{
    let Ok(text) = simdutf8::compat::from_utf8(bytes) else {
        return Ok(None);
    };
    match pack_text(alloc, options, text, scratch) {
        Ok(document) => Ok(Some(document)),
        Err(TraversalError::OutOfMemory) => Err(Error::OutOfMemory),
        Err(_) => Ok(None),
    }
}

// The bytes of the value, which is read whole.
fn encode_whole(alloc: Global, options: Options, bytes: &[u8]) -> Result<Vec<u8>, Error>
    ensures ok { IfOk result (λ output. Encodes options.key_order options bytes.now output.items) }
    ensures accepts { (pairs : Pairs) → TextMeansInKeyOrder options.key_order options.doubles bytes.now (document pairs)
        → FitsDocument pairs → IfErr result (λ fault. fault ≡ Error.OutOfMemory) }
    ensures fault { IfErr result (λ fault. IsEncodeErrorBy options.key_order options fault bytes.now) }
{
    match Bson::from_text(alloc, options, bytes) {
        Ok(value) => bytes_of(alloc, value),
        Err(error) => Err(error_of(error)),
    }
}

// The canonical bytes of the document that the value is.
fn bytes_of(alloc: Global, value: Bson) -> Result<Vec<u8>, Error>
    ensures ok { IfOk result (λ output. IsBytesOf (λ model_value. model_value ≡ bson_view value) output.items) }
    ensures only { (pairs : Pairs) → bson_view value ≡ document pairs → FitsDocument pairs
        → IfErr result (λ fault. fault ≡ Error.OutOfMemory) }
    ensures fault { IfErr result (λ fault. IsEncodeErrorFor (λ model_value. model_value ≡ bson_view value) fault) }
{
    let Bson::Document(document) = value else {
        return Err(Error::NoBytes(NoBytes::NoDocument));
    };
    match to_vec(alloc, &document) {
        Ok(bytes) => Ok(bytes),
        Err(error) => Err(error_of_write_error(error)),
    }
}

// The fault of a document that has no bytes.
fn error_of_write_error(error: ser::Error) -> Error
    ensures cause { (pairs : Pairs) → IsWriteErrorFor error pairs → IsWriteErrorOf result pairs }
    ensures memory { error ≡ errors.OutOfMemory → result ≡ Error.OutOfMemory }
    ensures only { result ≡ Error.OutOfMemory → error ≡ errors.OutOfMemory }
{
    match error {
        ser::Error::Key => Error::NoBytes(NoBytes::ZeroInKey),
        ser::Error::Regex => Error::NoBytes(NoBytes::ZeroInRegex),
        ser::Error::Size => Error::NoBytes(NoBytes::TooLong),
        ser::Error::OutOfMemory => Error::OutOfMemory,
    }
}

/// Returns the error of a conversion whose text was not read.
pub fn error_of(error: TextError) -> Error
    ensures cause { (options : Options) (bytes : List ℕ) → IsTextFaultIn options.doubles bytes error
        → IsRejectedIn options result bytes }
    ensures memory { error ≡ TextError.OutOfMemory → result ≡ Error.OutOfMemory }
{
    match error {
        TextError::NotJson => Error::NotJson,
        TextError::NotExtendedJson(place) => Error::NotExtendedJson(place),
        TextError::OutOfMemory => Error::OutOfMemory,
    }
}
