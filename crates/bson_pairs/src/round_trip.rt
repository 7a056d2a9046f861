//! Proves that encoding and decoding undo each other, from the public contracts of `bson`,
//! `bson_codec` and `bson_run` alone.
ghost use Rattle.std.specs.Prelude.{◌≡◌, IfOk, IfErr, string_bytes};
ghost use Rattle.bson.specs.Doubles.TheVariants.{Finite};
ghost use Rattle.bson.specs.Form.TheVariants.{Canonical};
ghost use Rattle.bson.specs.Texts.{IsTextInOrder};
ghost use Rattle.bson.specs.Value.{Pairs, document};
ghost use Rattle.bson_codec.specs.Canonical.{FitsDocument};
ghost use Rattle.bson_codec.specs.ReadDocuments.{IsCanonical, IsReadAsDocument};
ghost use Rattle.bson_pairs.specs.RoundTrip.{RoundTrips, IsAllocationFailure, NestsAtMost, round_trip_options};

use bson::Bson;
use bson::extjson::{Form, Options, WriteError};
use bson_codec::{de, from_slice};
use bson_convert::error::Error;
use bson_run::encode::encode;
use bson_scalar::form::Layout;
use std::alloc::Global;

/// Why a conversion and its inverse fail.
#[derive(Debug, Drop)]
pub enum RoundTripError {
    /// The text has no bytes.
    NoBytes(Error),
    /// The bytes are not a document.
    NoDocument(de::Error),
    /// The document has no text.
    NoText(WriteError),
}

// Finite doubles are accepted, keys are as given, and the layout is the specified one.
fn options() -> Options
    ensures { result ≡ round_trip_options }
{
    Options {
        layout: Layout::Specified,
        ..Options::mongodb()
    }
}

/// Returns the text of the document that the bytes encode: canonical, its keys in their own order.
pub fn decode_bytes(alloc: Global, bytes: &[u8], depth: usize) -> Result<String, RoundTripError>
    // It is the text of the one document that the bytes are in the grammar.
    ensures ok { (pairs : Pairs) → IsReadAsDocument depth bytes.now pairs
        → IfOk result (λ text. IsTextInOrder Finite Canonical (document pairs) (string_bytes text)) }
    // If the bytes are a document, only an allocation can fail.
    ensures only { (pairs : Pairs) → IsReadAsDocument depth bytes.now pairs
        → IfErr result (λ error. IsAllocationFailure error) }
{
    let document = match from_slice(alloc, bytes, depth) {
        Ok(document) => document,
        Err(error) => return Err(RoundTripError::NoDocument(error)),
    };
    match Bson::Document(document).into_text(alloc, options(), Form::Canonical) {
        Ok(text) => Ok(text),
        Err(error) => Err(RoundTripError::NoText(error)),
    }
}

/// Converts a text to bytes, and those to a text.
pub fn round_trip_text(alloc: Global, text: &str, depth: usize) -> Result<String, RoundTripError>
    // The canonical text of a document, with its keys as given, round-trips.
    ensures same { (pairs : Pairs) → IsTextInOrder Finite Canonical (document pairs) text.now → RoundTrips pairs
        → NestsAtMost depth pairs
        → IfOk result (λ round_trip. string_bytes round_trip ≡ text.now) }
    // If the document has bytes, only an allocation can fail.
    ensures only { (pairs : Pairs) → IsTextInOrder Finite Canonical (document pairs) text.now → RoundTrips pairs
        → NestsAtMost depth pairs
        → FitsDocument pairs → IfErr result (λ error. IsAllocationFailure error) }
{
    let bytes = match encode(alloc, options(), text.as_bytes()) {
        Ok(bytes) => bytes,
        Err(error) => return Err(RoundTripError::NoBytes(error)),
    };
    decode_bytes(alloc, bytes.as_slice(), depth)
}

/// Converts bytes to a text, and that to bytes.
pub fn round_trip_bytes(
    alloc: Global,
    bytes: &[u8],
    depth: usize,
) -> Result<Vec<u8>, RoundTripError>
    // The canonical bytes of a document round-trip.
    ensures same { (pairs : Pairs) → IsCanonical depth bytes.now pairs → RoundTrips pairs
        → IfOk result (λ round_trip. round_trip.items ≡ bytes.now) }
    // Only an allocation can fail.
    ensures only { (pairs : Pairs) → IsCanonical depth bytes.now pairs → RoundTrips pairs
        → IfErr result (λ error. IsAllocationFailure error) }
{
    let text = decode_bytes(alloc, bytes, depth)?;
    match encode(alloc, options(), text.as_bytes()) {
        Ok(round_trip) => Ok(round_trip),
        Err(error) => Err(RoundTripError::NoBytes(error)),
    }
}
