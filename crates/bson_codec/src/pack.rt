//! From text to bytes, token by token.
ghost use Rattle.std.specs.Prelude.{IfOk};
ghost use Rattle.bson_model.specs.TextMeaning.{HasTextMeaningInKeyOrder};
ghost use Rattle.bson_model.specs.declared.options.KeyOrder.TheVariants.{AsGiven};
ghost use Rattle.bson_codec.specs.PackedText.{IsBytesOf};

use crate::element_writer::ElementWriter;
use bson_model::options::{KeyOrder, Options};
use bson_scalar::form::Doubles;
use bson_text::traversal::write_document_text;
use bson_text::traversal_error::TraversalError;
use bson_tokens::normalize::normalize_text;
use json::Scratch;
use std::alloc::Global;

// A longer text is read with memory of its own, which is freed with its reader.
const LONG_TEXT: usize = 1 << 16;

/// Encodes the document that the text denotes as canonical bytes, with its keys in the order that the
/// options name, at every depth: they are written as the text is read, with no value in memory. If a
/// key is duplicated, its last value wins, at its first position if keys are as given.
///
/// With ascending keys the text is normalized first, and the normalized text is read.
///
/// # Errors
///
/// - `OutOfMemory`: a request for memory was refused.
/// - `DuplicateKey`, `GaveUp`, `Syntax` and `Fault`: the call gave up. They say nothing about the text.
pub fn pack_text(
    alloc: Global,
    options: Options,
    text: &str,
    scratch: &mut Scratch,
) -> Result<Vec<u8>, TraversalError>
    ensures ok { IfOk result (λ packed_bytes.
        IsBytesOf (HasTextMeaningInKeyOrder options.key_order options.doubles text.now) packed_bytes.items) }
{
    if let KeyOrder::Ascending = options.key_order {
        return pack_normalized(alloc, options, text, scratch);
    }
    match try_pack(alloc, options.doubles, text, scratch) {
        Ok(packed) => Ok(packed),
        Err(TraversalError::OutOfMemory) => Err(TraversalError::OutOfMemory),
        Err(_) => pack_normalized(alloc, options, text, scratch),
    }
}

// Encodes the normalized text, in which each object has each key once, in the order of the options.
fn pack_normalized(
    alloc: Global,
    options: Options,
    text: &str,
    scratch: &mut Scratch,
) -> Result<Vec<u8>, TraversalError>
    ensures ok { IfOk result (λ packed_bytes.
        IsBytesOf (HasTextMeaningInKeyOrder options.key_order options.doubles text.now) packed_bytes.items) }
{
    let normalized = normalize_text(alloc, options.key_order, text)?;
    try_pack(alloc, options.doubles, normalized.as_str(), scratch)
}

// Encodes the document with its keys as given. Stops also at a duplicate key.
fn try_pack(
    alloc: Global,
    doubles: Doubles,
    text: &str,
    scratch: &mut Scratch,
) -> Result<Vec<u8>, TraversalError>
    ensures ok { IfOk result (λ packed_bytes.
        IsBytesOf (HasTextMeaningInKeyOrder AsGiven doubles text.now) packed_bytes.items) }
{
    if text.len() > LONG_TEXT {
        return pack_long_text(alloc, doubles, text);
    }
    pack_with_scratch(alloc, doubles, text, scratch)
}

// Encodes a long text with a scratch buffer of its own.
#[inline(never)]
fn pack_long_text(alloc: Global, doubles: Doubles, text: &str) -> Result<Vec<u8>, TraversalError>
    ensures ok { IfOk result (λ packed_bytes.
        IsBytesOf (HasTextMeaningInKeyOrder AsGiven doubles text.now) packed_bytes.items) }
{
    let mut scratch = Scratch::new(alloc);
    pack_with_scratch(alloc, doubles, text, &mut scratch)
}

// Encodes a text of any length with this scratch buffer.
fn pack_with_scratch(
    alloc: Global,
    doubles: Doubles,
    text: &str,
    scratch: &mut Scratch,
) -> Result<Vec<u8>, TraversalError>
    ensures ok { IfOk result (λ packed_bytes.
        IsBytesOf (HasTextMeaningInKeyOrder AsGiven doubles text.now) packed_bytes.items) }
{
    let writer = ElementWriter {
        bytes: Vec::with_capacity(alloc, text.len())?,
    };
    let written = write_document_text(alloc, doubles, text, scratch, writer)?;
    Ok(written.bytes)
}
