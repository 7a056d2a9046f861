//! Documents from bytes.
ghost use Rattle.std.specs.Prelude.{◌≡◌, ◌↔◌, ◌-◌, IfOk, IfErr, OnOk, OnErr, IsTrue, false, length};
ghost use Rattle.bson_model.specs.Value.{Pairs, no_pairs};
ghost use Rattle.bson_bytes.specs.ReadDocuments.{IsReadAsDocument, IsReadAsDocumentIn, IsFirstDocument, IsFirstDocumentIn, IsCanonical};
ghost use Rattle.bson_bytes.specs.Reading.{read_first_document, read_document_in, reads_bytes, reads_bytes_in, insert_pairs_read, no_earlier_keys};
ghost use Rattle.bson_bytes.specs.declared.error.Error.TheVariants as causes;
ghost use Rattle.bson_model.specs.declared.options.DuplicateKeys.TheVariants.{LastWins};
ghost use Rattle.bson.specs.View.{document_view};
ghost use Rattle.bson_codec.specs.ReadErrors.{IsReadFault, IsFaultWithoutMemory, IsStopInBytes, error_with_offset};
ghost use Rattle.bson_codec.specs.declared.de.Error.TheVariants as errors;

use crate::read_to_memory::{read_document, read_first_document};
use crate::ser;
use crate::ser::to_vec;
use bson::Document;
pub use bson_bytes::fault::FaultKind;
use bson_bytes::nothing_sink;
use bson_bytes::stop::Stop;
pub use bson_model::options::DuplicateKeys;
use std::alloc::{AllocError, Global};

/// How deep documents, arrays and scopes nest if a caller has no limit of its own: the limit of
/// MongoDB's server.
pub const DEPTH: usize = 100;

/// How bytes are read by [`from_bytes`] and [`front_of_bytes`]. The default is the depth [`DEPTH`],
/// and that duplicate keys are allowed.
///
/// ```
/// let options = ReadOptions {
///     duplicate_keys: DuplicateKeys::Reject,
///     ..ReadOptions::default()
/// };
/// let twice = b"\x0b\0\0\0\x0aa\0\x0aa\0\0";
/// if let Err(error) = from_bytes(alloc, options, twice) {
///     println!(rt; "{error}")?; // no BSON document, by the byte at 8
/// }
/// ```
#[derive(Clone, Copy, Debug, Drop, PartialEq, Eq)]
pub struct ReadOptions {
    /// How deep documents, arrays and scopes may nest, counting the document itself.
    pub depth: usize,
    /// What happens to a duplicate key of a document.
    pub duplicate_keys: DuplicateKeys,
}

impl Default for ReadOptions {
    fn default() -> ReadOptions
        ensures depth { result.depth ≡ 100 }
        ensures keys { result.duplicate_keys ≡ LastWins }
    {
        ReadOptions {
            depth: DEPTH,
            duplicate_keys: DuplicateKeys::LastWins,
        }
    }
}

/// Why bytes are not read as a document.
///
/// ```
/// if let Err(error) = from_slice(alloc, b"\x05\0\0\0\0\0", DEPTH) {
///     println!(rt; "{error}")?; // no BSON document, by the byte at 5
/// }
/// ```
#[derive(Debug, Drop, thiserror::Error)]
pub enum Error {
    /// The bytes are not a document of BSON 1.1, because of their first error.
    #[error("no BSON document, by the byte at {offset}")]
    Malformed {
        /// What is wrong.
        kind: FaultKind,
        /// The offset of the error.
        offset: usize,
    },

    /// An allocation failed.
    #[error("out of memory")]
    OutOfMemory,
}

/// A document, or why bytes are not read as one.
pub type Result<T, E = Error> = std::result::Result<T, E>;

/// Returns the document that all of the bytes are (BSON 1.1). Documents, arrays and scopes nest at
/// most `depth` deep, counting the document itself.
///
/// If a key is duplicated, its last value wins, at its first position. The keys of an array are
/// dropped, whatever they are.
///
/// # Errors
///
/// - `Malformed`: the bytes are not a document that nests at most `depth` deep. It has the first
///   fault and its offset.
/// - `OutOfMemory`: a request for memory was refused.
pub fn from_slice(alloc: Global, bytes: &[u8], depth: usize) -> Result<Document>
    // What is read is in the grammar.
    ensures ok { IfOk result (λ document. IsReadAsDocument depth bytes.now (document_view document)) }
    // What is in the grammar is read as its one document, unless memory runs out.
    ensures only { (pairs : Pairs) → IsReadAsDocument depth bytes.now pairs
        → IfOk result (λ document. document_view document ≡ pairs)
        × IfErr result (λ error. error ≡ errors.OutOfMemory) }
    // Which fault it is, and where.
    ensures fault { IfErr result (λ error. IsReadFault error bytes.now (reads_bytes depth bytes.now)) }
{
    let options = ReadOptions {
        depth,
        duplicate_keys: DuplicateKeys::LastWins,
    };
    from_bytes(alloc, options, bytes)
}

/// Returns the document that the bytes are, read as the options say, otherwise as [`from_slice`].
///
/// If the options refuse duplicate keys, a document or scope may have none, at any depth. The keys
/// of an array are free. What is read is then the same as by [`from_slice`].
///
/// # Errors
///
/// - `Malformed`: the bytes are not a document that nests at most `depth` deep, or have a duplicate
///   key that the options refuse. It has the first fault and its offset.
/// - `OutOfMemory`: a request for memory was refused.
///
/// The fault of a duplicate key is at its second position. A fault before it comes first. A fault
/// after it does not count, nor does a length around it, which is checked after its part.
pub fn from_bytes(alloc: Global, options: ReadOptions, bytes: &[u8]) -> Result<Document>
    // What is read is in the grammar, and has no duplicate key if the options reject those.
    ensures ok { IfOk result
        (λ document. IsReadAsDocumentIn options.duplicate_keys options.depth bytes.now (document_view document)) }
    // Each such document is read, unless memory runs out.
    ensures only { (pairs : Pairs) → IsReadAsDocumentIn options.duplicate_keys options.depth bytes.now pairs
        → IfOk result (λ document. document_view document ≡ pairs)
        × IfErr result (λ error. error ≡ errors.OutOfMemory) }
    // Which fault it is, and where.
    ensures fault { IfErr result
        (λ error. IsReadFault error bytes.now (reads_bytes_in options.duplicate_keys options.depth bytes.now)) }
{
    match read_document(alloc, bytes, options.depth, options.duplicate_keys) {
        Ok(document) => Ok(document),
        Err(stop) => Err(add_offset(stop, bytes)),
    }
}

/// Returns the document at the front of the bytes, as [`from_slice`] reads it, and the bytes after
/// it.
///
/// # Errors
///
/// - `Malformed`: the bytes do not begin with a document that nests at most `depth` deep. It has
///   the first fault and its offset.
/// - `OutOfMemory`: a request for memory was refused.
pub fn front(alloc: Global, bytes: &[u8], depth: usize) -> Result<(Document, &[u8])>
    // What is read is in the grammar.
    ensures ok { IfOk result (λ returned. IsFirstDocument depth bytes.now (document_view returned.0) returned.1.now) }
    // What is in the grammar is read as its one document, unless memory runs out.
    ensures only { (pairs : Pairs) (rest : _) → IsFirstDocument depth bytes.now pairs rest
        → IfOk result (λ returned. (document_view returned.0 ≡ pairs) × (returned.1.now ≡ rest))
        × IfErr result (λ error. error ≡ errors.OutOfMemory) }
    // Which fault it is, and where.
    ensures fault { IfErr result
        (λ error. IsReadFault error bytes.now (insert_pairs_read no_pairs (read_first_document depth bytes.now))) }
{
    let options = ReadOptions {
        depth,
        duplicate_keys: DuplicateKeys::LastWins,
    };
    front_of_bytes(alloc, options, bytes)
}

/// Returns the document at the front of the bytes, as [`from_bytes`] reads it, and the bytes
/// after it.
///
/// # Errors
///
/// - `Malformed`: the bytes do not begin with a document as the options say. It has the first fault
///   and its offset.
/// - `OutOfMemory`: a request for memory was refused.
pub fn front_of_bytes(
    alloc: Global,
    options: ReadOptions,
    bytes: &[u8],
) -> Result<(Document, &[u8])>
    // What is read is in the grammar, and has no duplicate key if the options reject those.
    ensures ok { IfOk result
        (λ returned. IsFirstDocumentIn options.duplicate_keys options.depth bytes.now
        (document_view returned.0) returned.1.now) }
    // Each such document is read, unless memory runs out.
    ensures only { (pairs : Pairs) (rest : _)
        → IsFirstDocumentIn options.duplicate_keys options.depth bytes.now pairs rest
        → IfOk result (λ returned. (document_view returned.0 ≡ pairs) × (returned.1.now ≡ rest))
        × IfErr result (λ error. error ≡ errors.OutOfMemory) }
    // Which fault it is, and where.
    ensures fault { IfErr result (λ error. IsReadFault error bytes.now (insert_pairs_read no_pairs
        (read_document_in options.duplicate_keys options.depth (no_earlier_keys options.duplicate_keys) bytes.now))) }
{
    match read_first_document(alloc, bytes, options.depth, options.duplicate_keys) {
        Ok((document, rest)) => Ok((document, rest)),
        Err(stop) => Err(add_offset(stop, bytes)),
    }
}

/// Checks whether the bytes are a document, as [`from_slice`] reads it. Nothing is kept, and no
/// memory is requested.
///
/// # Errors
///
/// - `Malformed`: the bytes are not a document that nests at most `depth` deep. It has the first
///   fault and its offset, as that of [`from_slice`].
///
/// `OutOfMemory` is never returned.
///
/// ```
/// println!(rt; "{:?}", is_document(b"\x05\0\0\0\0", DEPTH).is_ok())?; // true
/// ```
pub fn is_document(bytes: &[u8], depth: usize) -> Result<()>
    // They are in the grammar.
    ensures ok { OnOk result ((pairs : Pairs) × IsReadAsDocument depth bytes.now pairs) }
    // What is in the grammar is never refused.
    ensures only { OnErr result ((pairs : Pairs) → IsReadAsDocument depth bytes.now pairs → ⊥) }
    // Which fault it is, and where.
    ensures fault { IfErr result (λ error. IsFaultWithoutMemory error bytes.now (reads_bytes depth bytes.now)) }
{
    match nothing_sink::is_document(bytes, depth) {
        Ok(()) => Ok(()),
        Err(fault) => Err(add_offset(Stop::Fault(fault), bytes)),
    }
}

/// Returns whether the bytes are a document, as [`from_slice`] reads it, and are the bytes as which
/// it is written. Each document is written as one sequence of bytes.
///
/// # Errors
///
/// Returns `AllocError` if a request for memory is refused.
pub fn is_canonical(alloc: Global, bytes: &[u8], depth: usize) -> Result<bool, AllocError>
    ensures { IfOk result (λ is_canonical_document. IsTrue is_canonical_document ↔ ((pairs : Pairs)
        × IsCanonical depth bytes.now pairs)) }
{
    let document = match from_slice(alloc, bytes, depth) {
        Ok(document) => document,
        Err(Error::Malformed { .. }) => return Ok(false),
        Err(Error::OutOfMemory) => return Err(AllocError),
    };
    match to_vec(alloc, &document) {
        Ok(written) => Ok(written.as_slice() == bytes),
        Err(error) => is_unwritable(error),
    }
}

// Returns false if the document can't be written for this cause.
fn is_unwritable(error: ser::Error) -> Result<bool, AllocError>
    ensures { IfOk result
        (λ is_canonical_document. (is_canonical_document ≡ false) × (error ≡ causes.OutOfMemory → ⊥)) }
{
    match error {
        ser::Error::OutOfMemory => Err(AllocError),
        ser::Error::Key => Ok(false),
        ser::Error::Regex => Ok(false),
        ser::Error::Size => Ok(false),
    }
}

// Returns the error with its offset in the bytes.
pub(crate) fn add_offset(stop: Stop, bytes: &[u8]) -> Error
    requires { IsStopInBytes stop bytes.now }
    ensures { result ≡ error_with_offset stop bytes.now }
{
    match stop {
        Stop::Fault(fault) => Error::Malformed {
            kind: fault.kind,
            offset: bytes.len() - fault.bytes_to_end,
        },
        Stop::GaveUp => unreachable!(),
        Stop::OutOfMemory => Error::OutOfMemory,
    }
}
