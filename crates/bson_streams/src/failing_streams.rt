//! A reader that delivers its bytes in chunks, and a writer that accepts one byte a call. Both fail
//! in the end.
ghost use Rattle.std.specs.Prelude.{◌≡◌, IfOk};

use std::io;
use std::io::{ErrorKind, Read, Write};

/// What a reader or a writer does after its last successful call.
#[derive(Clone, Copy, PartialEq, Eq, Debug)]
pub(crate) enum StreamEnd {
    /// It returns an error of this kind.
    Fails(ErrorKind),
    /// It reads or writes no byte.
    NoByte,
}

impl StreamEnd {
    fn final_result(self) -> io::Result<usize>
        ensures { IfOk result (λ count. count ≡ 0) }
    {
        match self {
            StreamEnd::Fails(error_kind) => Err(io::Error::from(error_kind)),
            StreamEnd::NoByte => Ok(0),
        }
    }
}

/// Reads at most `chunk_size` bytes a call, for `allowed_reads` calls.
#[derive(Drop)]
pub(crate) struct ChunkReader<'a> {
    pub unread_bytes: &'a [u8],
    pub chunk_size: usize,
    pub allowed_reads: u64,
    pub stream_end: StreamEnd,
}

impl Read for ChunkReader<'_> {
    fn read(&mut self, buf: &mut [u8]) -> io::Result<usize> {
        if self.allowed_reads == 0 {
            return self.stream_end.final_result();
        }
        self.allowed_reads -= 1;
        let max_read_length = buf.len().min(self.chunk_size);
        self.unread_bytes.read(&mut buf[..max_read_length])
    }
}

/// Writes one byte a call, for `allowed_calls` calls.
#[derive(Drop)]
pub(crate) struct ByteWriter {
    pub accepted_bytes: Vec<u8>,
    pub allowed_calls: u64,
    pub stream_end: StreamEnd,
}

impl Write for ByteWriter {
    fn write(&mut self, buf: &[u8]) -> io::Result<usize> {
        let Some(first_byte) = buf.first() else {
            return Ok(0);
        };
        if self.allowed_calls == 0 {
            return self.stream_end.final_result();
        }
        self.allowed_calls -= 1;
        self.accepted_bytes.push(*first_byte)?;
        Ok(1)
    }

    fn flush(&mut self) -> io::Result<()> {
        Ok(())
    }
}
