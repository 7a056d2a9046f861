//! Values that are compared and hashed.
ghost use Rattle.std.specs.Prelude.{◌≡◌, ◌⊎◌, ◌↔◌, ◌<◌, ◌≤◌, true, false};
ghost use Rattle.bson.specs.View.{bson_view};
ghost use Rattle.bson_model.specs.Same.{same};
ghost use Rattle.bson_model.specs.Value.{Value};
ghost use Rattle.vbson.specs.Options.{AreNotForReading};
ghost use Rattle.vbson.specs.Reading.{HasBadObjectIdUnder, IsInvalidUnder, IsDocumentUnder, IsNotDocumentUnder};
ghost use Rattle.vbson.specs.Reading.{IsNotJsonUnder, MeansUnder};
ghost use Rattle.vbson.specs.Comparison.{InputsCompareAs, IsHashOf, RejectsEither, hash_of, comparison_status};

use crate::options::{CallOptions, are_not_for_reading};
use crate::reading::{value_of_document, value_of_text};
use crate::status;
use bson::Bson;
use std::alloc::Global;
use std::hash::{DefaultHasher, Hash, Hasher};

/// Compares the values of two texts. Returns `OK` if they are the same: of the same kind, arrays
/// element by element, and documents with the same keys and the same values under each, in any
/// order. Returns `DIFFERENT` if they are not.
///
/// The first text is read first: its fault is returned if both have one. The options may request
/// finite doubles, that duplicate keys are rejected, and Extended JSON v1. An order of keys and a layout
/// are rejected.
#[unsafe(no_mangle)]
pub extern "C" fn vbson_same_nonnull(
    alloc: Global,
    options: &CallOptions,
    left_input: &[u8],
    right_input: &[u8],
) -> u32
    ensures same { result ≡ 0 → InputsCompareAs (MeansUnder options.now) left_input.now right_input.now true }
    ensures different { result ≡ 9 → InputsCompareAs (MeansUnder options.now) left_input.now right_input.now false }
    ensures accepts { (left_value right_value : Value) → MeansUnder options.now left_input.now left_value
        → MeansUnder options.now right_input.now right_value
        → (result ≡ comparison_status (same left_value right_value)) ⊎ (result ≡ 1) ⊎ (result ≡ 5) }

    // When each other status comes.
    ensures invalid_argument { result ≡ 1 ↔ AreNotForReading options.now }
    ensures not_json { result ≡ 2
        → RejectsEither (MeansUnder options.now) (IsNotJsonUnder options.now) left_input.now right_input.now }
    ensures bad_object_id { result ≡ 3
        → RejectsEither (MeansUnder options.now) (HasBadObjectIdUnder options.now) left_input.now right_input.now }
    ensures not_extended_json { result ≡ 4
        → RejectsEither (MeansUnder options.now) (IsInvalidUnder options.now) left_input.now right_input.now }
    ensures possible_statuses { (result ≤ 5) ⊎ (result ≡ 9) }
{
    if are_not_for_reading(*options) {
        return status::INVALID_ARGUMENT;
    }
    let left_bson = match value_of_text(alloc, *options, left_input) {
        Ok(value) => value,
        Err(status) => return status,
    };
    match value_of_text(alloc, *options, right_input) {
        Ok(right_bson) => compare_values(&left_bson, &right_bson),
        Err(status) => status,
    }
}

/// Computes the hash of the value of a text. Texts that `vbson_same_nonnull` finds the same have one
/// hash: the value's words in SipHash-1-3 with both keys 0. Whoever chooses the texts can choose
/// many of one hash.
#[unsafe(no_mangle)]
pub extern "C" fn vbson_hash_nonnull(
    alloc: Global,
    options: &CallOptions,
    text: &[u8],
    out: &mut u64,
) -> u32
    ensures success { result ≡ 0 → IsHashOf (MeansUnder options.now) text.now out.new }
    ensures accepts { (read_value : Value) → MeansUnder options.now text.now read_value
        → ((result ≡ 0) × (out.new ≡ hash_of read_value)) ⊎ (result ≡ 1) ⊎ (result ≡ 5) }

    // When each other status comes, and that nothing is written then.
    ensures invalid_argument { result ≡ 1 ↔ AreNotForReading options.now }
    ensures not_json { result ≡ 2 → IsNotJsonUnder options.now text.now }
    ensures bad_object_id { result ≡ 3 → HasBadObjectIdUnder options.now text.now }
    ensures not_extended_json { result ≡ 4 → IsInvalidUnder options.now text.now }
    ensures possible_statuses { result ≤ 5 }
    ensures unchanged { 0 < result → out.new ≡ out.old }
{
    if are_not_for_reading(*options) {
        return status::INVALID_ARGUMENT;
    }
    match value_of_text(alloc, *options, text) {
        Ok(value) => {
            *out = hash_of(&value);
            status::OK
        }
        Err(status) => status,
    }
}

/// Compares two documents by their bytes, as `vbson_same_nonnull` compares the values of texts. A
/// finite double needs no option; only `duplicate_keys` changes what is accepted.
#[unsafe(no_mangle)]
pub extern "C" fn vbson_same_documents_nonnull(
    alloc: Global,
    options: &CallOptions,
    left_input: &[u8],
    right_input: &[u8],
) -> u32
    ensures same { result ≡ 0 → InputsCompareAs (IsDocumentUnder options.now) left_input.now right_input.now true }
    ensures different { result ≡ 9
        → InputsCompareAs (IsDocumentUnder options.now) left_input.now right_input.now false }
    ensures accepts { (left_value right_value : Value) → IsDocumentUnder options.now left_input.now left_value
        → IsDocumentUnder options.now right_input.now right_value
        → (result ≡ comparison_status (same left_value right_value)) ⊎ (result ≡ 1) ⊎ (result ≡ 5) }

    // When each other status comes.
    ensures invalid_argument { result ≡ 1 ↔ AreNotForReading options.now }
    ensures no_document { result ≡ 10
        → RejectsEither (IsDocumentUnder options.now) (IsNotDocumentUnder options.now) left_input.now right_input.now }
    ensures possible_statuses { (result ≤ 1) ⊎ (result ≡ 5) ⊎ (result ≡ 9) ⊎ (result ≡ 10) }
{
    if are_not_for_reading(*options) {
        return status::INVALID_ARGUMENT;
    }
    let left_bson = match value_of_document(alloc, *options, left_input) {
        Ok(document) => document,
        Err(status) => return status,
    };
    match value_of_document(alloc, *options, right_input) {
        Ok(right_bson) => compare_values(&left_bson, &right_bson),
        Err(status) => status,
    }
}

/// Computes the hash of a document by its bytes: the hash that `vbson_hash_nonnull` returns for a
/// text of the same value. The options are those of `vbson_same_documents_nonnull`.
#[unsafe(no_mangle)]
pub extern "C" fn vbson_hash_document_nonnull(
    alloc: Global,
    options: &CallOptions,
    bytes: &[u8],
    out: &mut u64,
) -> u32
    ensures success { result ≡ 0 → IsHashOf (IsDocumentUnder options.now) bytes.now out.new }
    ensures accepts { (read_value : Value) → IsDocumentUnder options.now bytes.now read_value
        → ((result ≡ 0) × (out.new ≡ hash_of read_value)) ⊎ (result ≡ 1) ⊎ (result ≡ 5) }

    // When each other status comes, and that nothing is written then.
    ensures invalid_argument { result ≡ 1 ↔ AreNotForReading options.now }
    ensures no_document { result ≡ 10 → IsNotDocumentUnder options.now bytes.now }
    ensures possible_statuses { (result ≤ 1) ⊎ (result ≡ 5) ⊎ (result ≡ 10) }
    ensures unchanged { 0 < result → out.new ≡ out.old }
{
    if are_not_for_reading(*options) {
        return status::INVALID_ARGUMENT;
    }
    match value_of_document(alloc, *options, bytes) {
        Ok(document) => {
            *out = hash_of(&document);
            status::OK
        }
        Err(status) => status,
    }
}

// Returns the status for whether two values are the same.
fn compare_values(left_bson: &Bson, right_bson: &Bson) -> u32
    ensures { result ≡ comparison_status (same (bson_view left_bson.now) (bson_view right_bson.now)) }
{
    if left_bson == right_bson {
        status::OK
    } else {
        status::DIFFERENT
    }
}

fn hash_of(value: &Bson) -> u64
    ensures hash { result ≡ hash_of (bson_view value.now) }
    ensures equal_values_hash_alike { (equal_value : Value) → same (bson_view value.now) equal_value ≡ true
        → hash_of equal_value ≡ result }
{
    let mut hasher = DefaultHasher::new();
    value.hash(&mut hasher);
    hasher.finish()
}
