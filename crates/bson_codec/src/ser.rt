//! Bytes of documents.
ghost use Rattle.std.specs.Prelude.{◌≡◌, ℕ, suc, IfOk, OnOk, IfErr};
ghost use Rattle.bson_bytes.specs.ReadDocuments.{IsReadAsDocument};
ghost use Rattle.bson_bytes.specs.Writing.{document_bytes, pairs_read_back, FitsDocument, IsWellTypedDocument, PairsNestUpTo};
ghost use Rattle.bson_bytes.specs.declared.error.Error.TheVariants as errors;
ghost use Rattle.bson.specs.View.{document_view};
ghost use Rattle.bson_codec.specs.WriteErrors.{IsWriteErrorFor};

use crate::put_values::put_document;
use bson::Document;
pub use bson_bytes::error::Error;
use std::alloc::Global;

/// Bytes, or why a document has none.
pub type Result<T, E = Error> = std::result::Result<T, E>;

/// Returns the bytes of the document (BSON 1.1), with its pairs in their order. The elements of an
/// array have the keys "0", "1", "2" and so on, and a binary has the byte of its subtype.
///
/// # Errors
///
/// Returns the error of the first part, at any depth, that has no bytes. A whole comes after its
/// parts.
///
/// - `Key`: a key contains a 0.
/// - `Regex`: the pattern or the options of a regular expression contain a 0.
/// - `Size`: a text, a binary, a document, an array, or code with its scope has 2^31 bytes or more.
/// - `OutOfMemory`: a request for memory was refused.
///
/// ```
/// let mut document = Document::new(alloc);
/// drop(document.insert(String::from_str(alloc, "n")?, Bson::Int32(5))?);
/// let bytes = to_vec(alloc, &document)?;
/// let back = from_slice(alloc, &bytes, DEPTH)?;
/// println!(rt; "{back}")?; // { "n": 5 }
/// ```
pub fn to_vec(alloc: Global, document: &Document) -> Result<Vec<u8>>
    // The canonical bytes, and each part fits.
    ensures ok { IfOk result (λ output. output.items ≡ document_bytes (document_view document.now)) }
    ensures fits { OnOk result (FitsDocument (document_view document.now)) }
    // Its texts are UTF-8, its numbers are in range, and it has no duplicate key, at any depth.
    ensures typed { OnOk result (IsWellTypedDocument (document_view document.now)) }
    // They are read back as the document, each binary under the subtype that its byte names.
    ensures back { IfOk result (λ output. (depth : ℕ) → PairsNestUpTo (document_view document.now) depth
        → IsReadAsDocument (suc depth) output.items (pairs_read_back (document_view document.now))) }
    // If each part fits, only memory can fail.
    ensures only { FitsDocument (document_view document.now) → IfErr result (λ error. error ≡ errors.OutOfMemory) }
    // It is the cause of the first part, in the order of writing, that has no bytes.
    ensures cause { IfErr result (λ error. IsWriteErrorFor error (document_view document.now)) }
{
    let mut output = Vec::new(alloc);
    put_document(&mut output, document)?;
    Ok(output)
}
