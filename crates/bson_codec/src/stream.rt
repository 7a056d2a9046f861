//! Documents from readers, and to writers.
ghost use Rattle.std.specs.Prelude.{◌≡◌, ◌<◌, ◌≤◌, ◌⊎◌, ℕ, List, [], Some, length, vec_len, IfOk, IfErr, OnOk};
ghost use Rattle.std.specs.Io.KnownBytes.{Appends, Consumes, IsAtEnd};
ghost use Rattle.bson_model.specs.Value.{Pairs};
ghost use Rattle.bson_bytes.specs.ReadDocuments.{IsReadAsDocument, IsFirstDocument};
ghost use Rattle.bson_bytes.specs.Writing.{document_bytes, FitsDocument};
ghost use Rattle.bson.specs.View.{document_view};
ghost use Rattle.bson_codec.specs.Streams.{IsReaderErrorFor, IsReaderOrMemoryFailure, IsWriteFailure, IsSystemFailure, BytesAdded, WritesPrefix};
ghost use Rattle.bson_codec.specs.Streams.{declared_prefix, declared_length};
ghost use Rattle.bson_codec.specs.declared.stream.ReaderError.TheVariants as read_errors;
ghost use Rattle.bson_codec.specs.declared.stream.WriterError.TheVariants as write_errors;

use crate::de::{Error, from_slice};
use crate::ser;
use crate::ser::to_vec;
use bson::Document;
use bson_bytes::fault::FaultKind;
use bson_bytes::read_parts::read_length;
use std::alloc::Global;
use std::io::{Read, Write};

/// The number of bytes that are requested from a reader at once.
const BLOCK_SIZE: usize = 4096;

/// The length that begins a document.
const LENGTH_BYTES: usize = 4;

/// Why no document is read from a reader.
///
/// ```
/// let mut input: &[u8] = b"\x06\0\0\0";
/// if let Err(error) = from_reader(alloc, &mut input, DEPTH) {
///     println!(rt; "{error}")?; // no BSON document, by the byte at 4
/// }
/// ```
#[derive(Debug, Drop, thiserror::Error)]
pub enum ReaderError {
    /// The bytes that were read are not a document of BSON 1.1, because of their first error.
    #[error("no BSON document, by the byte at {offset}")]
    Malformed {
        /// What is wrong.
        kind: FaultKind,
        /// The offset of the error.
        offset: usize,
    },

    /// The reader failed.
    #[error("cannot read")]
    CannotRead,

    /// An allocation failed.
    #[error("out of memory")]
    OutOfMemory,
}

/// Why a document was not written.
///
/// ```
/// let mut document = Document::new(alloc);
/// drop(document.insert(String::from_str(alloc, "a\0b")?, Bson::Null)?);
/// let mut output = Vec::new(alloc);
/// if let Err(error) = to_writer(alloc, &document, &mut output) {
///     println!(rt; "{error}")?; // a key has a 0 byte in it
/// }
/// ```
#[derive(Clone, Copy, Debug, Drop, PartialEq, Eq, thiserror::Error)]
pub enum WriterError {
    /// The document has no bytes, or a request for memory was refused.
    #[error("{0}")]
    NoBytes(ser::Error),

    /// The writer failed, or accepted no byte.
    #[error("cannot write")]
    CannotWrite,
}

/// Reads the document at the front of what the reader has, as [`from_slice`] reads it. No byte
/// after the document is read.
///
/// The length is read first, then as many bytes as it says, in blocks. Memory is that of the bytes
/// that were read, whatever the length says.
///
/// # Errors
///
/// After each error the reader may have been read from.
///
/// - `Malformed`: the bytes that were read are not a document that nests at most `depth` deep. It
///   has the first fault and its offset. The reader may have ended before the document.
/// - `CannotRead`: the reader failed, `Interrupted` too.
/// - `OutOfMemory`: a request for memory was refused.
pub fn from_reader<R: Read>(
    alloc: Global,
    reader: &mut R,
    depth: usize,
) -> Result<Document, ReaderError>
    // The bytes that were read are in the grammar.
    ensures ok { IfOk result (λ document. (bytes : List ℕ)
        × Consumes (R.remaining reader.old) (R.remaining reader.new) bytes
        × IsReadAsDocument depth bytes (document_view document)) }
    // A document at the front is read, and no byte after it.
    ensures only { (all_bytes : List ℕ) (pairs : Pairs) (rest : List ℕ) → R.remaining reader.old ≡ Some all_bytes
        → IsFirstDocument depth all_bytes pairs rest → IfErr result (λ error. IsReaderOrMemoryFailure error) }
    // Which error of the bytes it is, and where.
    ensures fault { IfErr result
        (λ error. IsReaderErrorFor depth (R.remaining reader.old) (R.remaining reader.new) error) }
{
    let mut bytes = Vec::new(alloc);
    let mut block = [0u8; BLOCK_SIZE];
    read_document_bytes(reader, &mut block, &mut bytes)?;
    match from_slice(alloc, bytes.as_slice(), depth) {
        Ok(document) => Ok(document),
        Err(Error::Malformed { kind, offset }) => Err(ReaderError::Malformed { kind, offset }),
        Err(Error::OutOfMemory) => Err(ReaderError::OutOfMemory),
    }
}

/// Writes the bytes of the document, as [`to_vec`] returns them.
///
/// # Errors
///
/// - `NoBytes`: [`to_vec`] returns this error. Nothing was written.
/// - `CannotWrite`: the writer failed, `Interrupted` too, or accepted no byte. Only a beginning was
///   written, or nothing.
pub fn to_writer<W: Write>(
    alloc: Global,
    document: &Document,
    writer: &mut W,
) -> Result<(), WriterError>
    // The canonical bytes, and each part fits.
    ensures ok { OnOk result
        (Appends (W.contents writer.old) (W.contents writer.new) (document_bytes (document_view document.now))) }
    ensures fits { OnOk result (FitsDocument (document_view document.now)) }
    // If each part fits, only memory or the writer can fail.
    ensures only { FitsDocument (document_view document.now) → IfErr result (λ error. IsSystemFailure error) }
    // Why, and what was written.
    ensures cause { IfErr result (λ error. IsWriteFailure error (document_view document.now) (W.contents writer.old)
        (W.contents writer.new)) }
{
    match to_vec(alloc, document) {
        Ok(bytes) => write_whole(writer, bytes.as_slice()),
        Err(error) => Err(WriterError::NoBytes(error)),
    }
}

/// Reads the bytes of a document, as many as its length says, or fewer if the reader ends. At most a
/// block is requested from the reader at once.
pub(crate) fn read_document_bytes<R: Read>(
    reader: &mut R,
    block: &mut [u8],
    bytes: &mut Vec<u8>,
) -> Result<(), ReaderError>
    requires { 0 < length block.old }
    ensures bytes_read { OnOk result (Consumes (R.remaining reader.old) (R.remaining reader.new) bytes.new.items) }
    ensures front { (all_bytes : List ℕ) → R.remaining reader.old ≡ Some all_bytes
        → OnOk result (bytes.new.items ≡ declared_prefix all_bytes) }
    ensures reader_at_end { OnOk result (bytes.new.items ≡ [] → IsAtEnd (R.remaining reader.new)) }
    ensures bytes_consumed { (consumed : List ℕ) × Consumes (R.remaining reader.old) (R.remaining reader.new) consumed }
    ensures fault { IfErr result (λ error. (error ≡ read_errors.CannotRead) ⊎ (error ≡ read_errors.OutOfMemory)) }
{
    bytes.clear();
    fill_to(reader, block, bytes, LENGTH_BYTES)?;
    if bytes.len() < LENGTH_BYTES {
        return Ok(());
    }
    let size = declared_size(bytes.as_slice());
    fill_to(reader, block, bytes, size)
}

// Reads bytes until there are `count` of them, or the reader has no more.
fn fill_to<R: Read>(
    reader: &mut R,
    block: &mut [u8],
    bytes: &mut Vec<u8>,
    count: usize,
) -> Result<(), ReaderError>
    requires room { 0 < length block.old }
    requires fewer { vec_len bytes.old ≤ count }
    ensures bytes_read { OnOk result
        (BytesAdded (R.remaining reader.old) (R.remaining reader.new) bytes.old.items bytes.new.items) }
    ensures reader_at_end { OnOk result ((length bytes.new.items ≡ count) ⊎ IsAtEnd (R.remaining reader.new)) }
    ensures bound { OnOk result (length bytes.new.items ≤ count) }
    ensures bytes_consumed { (consumed : List ℕ) × Consumes (R.remaining reader.old) (R.remaining reader.new) consumed }
    ensures fault { IfErr result (λ error. (error ≡ read_errors.CannotRead) ⊎ (error ≡ read_errors.OutOfMemory)) }
{
    while bytes.len() < count {
        let missing_count = count - bytes.len();
        let max_count = if missing_count < block.len() {
            missing_count
        } else {
            block.len()
        };
        let buffer = &mut block[..max_count];
        let Ok(count_read) = reader.read(buffer) else {
            return Err(ReaderError::CannotRead);
        };
        if count_read == 0 {
            return Ok(());
        }
        let Ok(()) = bytes.extend_from_slice(&buffer[..count_read]) else {
            return Err(ReaderError::OutOfMemory);
        };
    }
    Ok(())
}

// Returns the length that the document declares in these bytes, or their number if that is greater.
fn declared_size(bytes: &[u8]) -> usize
    ensures value { result ≡ declared_length bytes.now }
    ensures least { length bytes.now ≤ result }
{
    match read_length(bytes) {
        Ok((size, _)) => {
            if size < bytes.len() {
                bytes.len()
            } else {
                size
            }
        }
        Err(_) => bytes.len(),
    }
}

// Writes all bytes.
pub(crate) fn write_whole<W: Write>(writer: &mut W, bytes: &[u8]) -> Result<(), WriterError>
    ensures ok { OnOk result (Appends (W.contents writer.old) (W.contents writer.new) bytes.now) }
    ensures prefix_written { IfErr result
        (λ error. WritesPrefix (W.contents writer.old) (W.contents writer.new) bytes.now) }
    ensures fault { IfErr result (λ error. error ≡ write_errors.CannotWrite) }
{
    let mut written_count = 0;
    while written_count < bytes.len() {
        match writer.write(&bytes[written_count..]) {
            Ok(0) | Err(_) => return Err(WriterError::CannotWrite),
            Ok(count) => written_count += count,
        }
    }
    Ok(())
}
