//! Encodes the document that a text denotes as BSON bytes.
ghost use Rattle.std.specs.Prelude.{◌≡◌, ◌⊎◌, ◌↔◌, ◌<◌, ◌≤◌, IfOk, IfErr};
ghost use Rattle.bson_codec.specs.Canonical.{FitsDocument, too_long, nul_in_key, nul_in_regex};
ghost use Rattle.bson_model.specs.Value.{Pairs};
ghost use Rattle.vbson.specs.Documents.{EncodesUnder, IsDocumentTextUnder, IsEncoded};
ghost use Rattle.vbson.specs.Documents.{IsUnencodableText, TextIsNotDocumentUnder};
ghost use Rattle.vbson.specs.Options.{AreInvalid};
ghost use Rattle.vbson.specs.Reading.{HasBadObjectIdUnder, IsInvalidUnder, IsNotJsonUnder, IsTextEncodeFailure};

use crate::convert::status_of;
use crate::options::{CallOptions, are_invalid, options_of};
use crate::reading::{preprocess, text_to_read};
use crate::status;
use crate::text::{Text, append_nul, text_before_nul};
use bson_run::encode::encode;
use std::alloc::Global;

/// Encodes the document that a text of Extended JSON denotes as canonical bytes, with the options of
/// `vbson_convert_nonnull`. The layout changes nothing in bytes. The bytes are followed by a NUL. The
/// caller frees their block with `free`.
#[unsafe(no_mangle)]
pub extern "C" fn vbson_encode_nonnull(
    alloc: Global,
    options: &CallOptions,
    text: &[u8],
    out: &mut Text<'static>,
) -> u32
    ensures success { result ≡ 0 → IsEncoded options.now text.now out.new }
    ensures accepts { (pairs : Pairs) → IsDocumentTextUnder options.now pairs text.now → FitsDocument pairs
        → 1 < result → result ≡ 5 }

    // When each other status comes, and that nothing is left then.
    ensures invalid_argument { result ≡ 1 ↔ AreInvalid options.now }
    ensures not_json { result ≡ 2 → IsNotJsonUnder options.now text.now }
    ensures bad_object_id { result ≡ 3 → HasBadObjectIdUnder options.now text.now }
    ensures not_extended_json { result ≡ 4 → IsInvalidUnder options.now text.now }
    ensures no_document { result ≡ 10 → TextIsNotDocumentUnder options.now text.now }
    ensures key_has_zero { result ≡ 11 → IsUnencodableText options.now nul_in_key text.now }
    ensures regex_has_zero { result ≡ 12 → IsUnencodableText options.now nul_in_regex text.now }
    ensures too_long { result ≡ 13 → IsUnencodableText options.now too_long text.now }
    ensures possible_statuses { (result ≤ 5) ⊎ ((10 ≤ result) × (result ≤ 13)) }
    ensures unchanged { 0 < result → out.new ≡ out.old }
{
    if are_invalid(*options) {
        return status::INVALID_ARGUMENT;
    }
    let bytes = match encode_under(alloc, *options, text) {
        Ok(bytes) => bytes,
        Err(status) => return status,
    };
    let Ok(bytes) = append_nul(bytes) else {
        return status::OUT_OF_MEMORY;
    };
    *out = text_before_nul(bytes);
    status::OK
}

// The bytes of the document that the text means under the options; or the status.
fn encode_under(alloc: Global, options: CallOptions, text: &[u8]) -> Result<Vec<u8>, u32>
    ensures ok { IfOk result (λ bytes. EncodesUnder options text.now bytes.items) }
    ensures accepts { (pairs : Pairs) → IsDocumentTextUnder options pairs text.now → FitsDocument pairs
        → IfErr result (λ status. status ≡ 5) }
    ensures error_status { IfErr result (λ status. IsTextEncodeFailure options status text.now) }
{
    let new_text = match preprocess(alloc, options, text) {
        Ok(new_text) => new_text,
        Err(status) => return Err(status),
    };
    match encode(alloc, options_of(options), text_to_read(&new_text, text)) {
        Ok(bytes) => Ok(bytes),
        Err(fault) => Err(status_of(fault)),
    }
}
