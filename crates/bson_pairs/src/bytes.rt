//! Converts BSON bytes to texts and texts to BSON bytes, by the public contracts of `bson` and
//! `bson_codec` alone.
ghost use Rattle.std.specs.Prelude.{◌≡◌, ℕ, suc, IfOk, IfErr, true, string_bytes};
ghost use Rattle.bson.specs.Form.TheVariants.{Canonical};
ghost use Rattle.bson.specs.Normal.{writable};
ghost use Rattle.bson.specs.TextMeaning.{HasTextMeaning};
ghost use Rattle.bson.specs.Texts.{IsTextIn};
ghost use Rattle.bson.specs.Value.{Pairs, document};
ghost use Rattle.bson_codec.specs.Canonical.{document_bytes, pairs_read_back, FitsDocument, PairsNestUpTo};
ghost use Rattle.bson_codec.specs.ReadDocuments.{IsReadAsDocument};
ghost use Rattle.bson_pairs.specs.Bytes.{IsBytesFailure, IsBytesAllocationFailure, IsTextAllocationFailure};

use bson::Bson;
use bson::extjson::WriteError;
use bson::extjson::de::TextError;
use bson_codec::{de, from_slice, ser, to_vec};
use std::alloc::Global;

/// Why bytes have no text.
#[derive(Debug, Drop)]
pub enum NoTextReason {
    /// The bytes are not a document.
    NoDocument(de::Error),
    /// The document has a finite double other than zero, so it has no text.
    FiniteDouble,
    /// An allocation failed.
    OutOfMemory,
}

/// Returns the canonical text of the document that the bytes encode.
pub fn text_of_bytes(alloc: Global, bytes: &[u8], depth: usize) -> Result<String, NoTextReason>
    // It is the text of the one document that the bytes are in the grammar.
    ensures ok { IfOk result (λ text. (pairs : Pairs) × IsReadAsDocument depth bytes.now pairs
        × IsTextIn Canonical (document pairs) (string_bytes text)) }
    // If they are a document without finite doubles except zeros, only an allocation can fail.
    ensures only { (pairs : Pairs) → IsReadAsDocument depth bytes.now pairs → writable (document pairs) ≡ true
        → IfErr result (λ error. IsTextAllocationFailure error) }
{
    let document = match from_slice(alloc, bytes, depth) {
        Ok(document) => document,
        Err(error) => return Err(NoTextReason::NoDocument(error)),
    };
    match Bson::Document(document).into_canonical_text(alloc) {
        Ok(text) => Ok(text),
        Err(WriteError::FiniteDouble) => Err(NoTextReason::FiniteDouble),
        Err(WriteError::OutOfMemory) => Err(NoTextReason::OutOfMemory),
    }
}

/// Why a text has no bytes.
#[derive(Debug, Drop)]
pub enum NoBytes {
    /// The text is not valid Extended JSON.
    InvalidText(TextError),
    /// The value of the text is not a document.
    NoDocument,
    /// The document has no bytes.
    NoBytes(ser::Error),
}

/// Returns the bytes of the document that the text denotes.
pub fn bytes_of_text(alloc: Global, text: &[u8]) -> Result<Vec<u8>, NoBytes>
    // They are the canonical bytes of a document that the text means, and are read back as it.
    ensures ok { IfOk result (λ encoded. (pairs : Pairs) × HasTextMeaning text.now (document pairs)
        × (encoded.items ≡ document_bytes pairs)
        × ((depth : ℕ) → PairsNestUpTo pairs depth
        → IsReadAsDocument (suc depth) encoded.items (pairs_read_back pairs))) }
    // Why there are none: the first error of the text, a value that is not a document, or the first
    // part of the document that does not fit.
    ensures refused { IfErr result (λ error. IsBytesFailure text.now error) }
    // If the text denotes a document each part of which fits, only an allocation can fail.
    ensures only { (pairs : Pairs) → HasTextMeaning text.now (document pairs) → FitsDocument pairs
        → IfErr result (λ error. IsBytesAllocationFailure error) }
{
    let value = match Bson::try_from_text(alloc, text) {
        Ok(value) => value,
        Err(error) => return Err(NoBytes::InvalidText(error)),
    };
    let Bson::Document(document) = value else {
        return Err(NoBytes::NoDocument);
    };
    match to_vec(alloc, &document) {
        Ok(bytes) => Ok(bytes),
        Err(error) => Err(NoBytes::NoBytes(error)),
    }
}
