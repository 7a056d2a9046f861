//! All bytes of a reader, and all bytes to a writer.
ghost use Rattle.std.specs.Prelude.{◌≡◌, ◌⊎◌, IfOk, IfErr, OnOk, OnErr};
ghost use Rattle.std.specs.Io.KnownBytes.{Keeps, Consumes, IsAtEnd, Appends};
ghost use Rattle.bson_convert.specs.Run.{ReadsAll, WritesBeginning, WritesPart};

use crate::fault::Fault;
use std::alloc::Global;
use std::io::{Read, Write};

/// The capacity of a pipe.
const BUFFER_LEN: usize = 65536;

/// Reads until the reader is at its end.
///
/// # Errors
///
/// - `CannotRead`: the reader failed, `Interrupted` too.
/// - `OutOfMemory`: an allocation failed.
pub fn read_whole<R: Read>(alloc: Global, reader: &mut R) -> Result<Vec<u8>, Fault>
    ensures all { IfOk result
        (λ whole_input. ReadsAll (R.remaining reader.old) (R.remaining reader.new) whole_input.items) }
    ensures fault { IfErr result (λ stream_fault. (stream_fault ≡ Fault.CannotRead)
        ⊎ (stream_fault ≡ Fault.OutOfMemory)) }
{
    let mut bytes = Vec::new(alloc);
    let mut buffer = [0u8; BUFFER_LEN];
    loop {
        let Ok(count) = reader.read(&mut buffer) else {
            return Err(Fault::CannotRead);
        };
        if count == 0 {
            return Ok(bytes);
        }
        let Ok(()) = bytes.extend_from_slice(&buffer[..count]) else {
            return Err(Fault::OutOfMemory);
        };
    }
}

/// Writes all bytes.
///
/// # Errors
///
/// - `CannotWrite`: the writer failed, `Interrupted` too, or accepted no byte. Only a beginning was
///   written, or nothing.
pub fn write_whole<W: Write>(writer: &mut W, bytes: &[u8]) -> Result<(), Fault>
    ensures ok { OnOk result (Appends (W.contents writer.old) (W.contents writer.new) bytes.now) }
    ensures cut { OnErr result (WritesBeginning (W.contents writer.old) (W.contents writer.new) bytes.now) }
    ensures part { OnErr result (WritesPart (W.contents writer.old) (W.contents writer.new) bytes.now) }
    ensures fault { IfErr result (λ stream_fault. stream_fault ≡ Fault.CannotWrite) }
{
    let mut written_count = 0;
    while written_count < bytes.len() {
        match writer.write(&bytes[written_count..]) {
            Ok(0) | Err(_) => return Err(Fault::CannotWrite),
            Ok(count) => written_count += count,
        }
    }
    Ok(())
}
