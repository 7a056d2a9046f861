//! The inputs and outputs: standard streams and files, which keep the cause of a failure.
ghost use Rattle.std.specs.Prelude.{◌≡◌, ℕ, IsOk, None, Vec};
ghost use Rattle.std.specs.Io.{WritesAtMost};
ghost use Rattle.std.specs.declared.rt.Stdout.{Stdout};

use crate::digests::LineHasher;
use std::alloc::Global;
use std::fs::File;
use std::io;
use std::io::{Read, Write};
use std::rt::{Stdin, Stdout};

/// The input of a run.
#[derive(Drop)]
pub enum InputReader {
    Stdin(Stdin),
    File(File),
}

impl Read for InputReader {
    fn read(&mut self, buf: &mut [u8]) -> io::Result<usize> {
        match self {
            InputReader::Stdin(stdin) => stdin.read(buf),
            InputReader::File(file) => file.read(buf),
        }
    }
}

/// The output of a run.
#[derive(Drop)]
pub enum OutputTarget {
    Stdout(Stdout),
    File(File),
    Memory(Vec<u8>),
}

impl OutputTarget {
    /// Returns what was written to memory, and nothing of any other target.
    pub fn into_memory(self, alloc: Global) -> Vec<u8>
        ensures { (bytes : Vec ℕ Global) → self ≡ OutputTarget.Memory bytes → result ≡ bytes }
    {
        match self {
            OutputTarget::Memory(bytes) => bytes,
            OutputTarget::Stdout(_) | OutputTarget::File(_) => Vec::new(alloc),
        }
    }

    /// Waits until the system has kept all of a file.
    pub fn sync(&self) -> io::Result<()>
        ensures { (stdout : Stdout) → self.now ≡ OutputTarget.Stdout stdout → IsOk result }
    {
        match self {
            OutputTarget::Stdout(_) | OutputTarget::Memory(_) => Ok(()),
            OutputTarget::File(file) => file.sync_all(),
        }
    }
}

impl Write for OutputTarget {
    fn write(&mut self, buf: &[u8]) -> io::Result<usize> {
        match self {
            OutputTarget::Stdout(stdout) => stdout.write(buf),
            OutputTarget::File(file) => file.write(buf),
            OutputTarget::Memory(bytes) => bytes.write(buf),
        }
    }

    fn flush(&mut self) -> io::Result<()> {
        match self {
            OutputTarget::Stdout(stdout) => stdout.flush(),
            OutputTarget::File(file) => file.flush(),
            OutputTarget::Memory(_) => Ok(()),
        }
    }
}

/// Writes to a target, and keeps why a write failed.
#[derive(Drop)]
pub struct OutputWriter {
    pub target: OutputTarget,
    /// If there is a hasher, the digest of each line is written in place of the line.
    pub hasher: Option<LineHasher>,
    pub error: Option<io::Error>,
}

impl OutputWriter {
    pub fn new(target: OutputTarget) -> OutputWriter
        ensures target { result.target ≡ target }
        ensures error { result.error ≡ None }
    {
        OutputWriter {
            target,
            hasher: None,
            error: None,
        }
    }

    // Writes the bytes, or the digests of the lines that end in them.
    fn write_or_digest(&mut self, bytes: &[u8]) -> io::Result<usize>
        ensures { WritesAtMost result bytes.now }
    {
        match &mut self.hasher {
            Some(hasher) => {
                let digests = hasher.digests_of(bytes)?;
                self.target.write_all(&digests)?;
                Ok(bytes.len())
            }
            None => self.target.write(bytes),
        }
    }
}

impl Write for OutputWriter {
    fn write(&mut self, buf: &[u8]) -> io::Result<usize> {
        match self.write_or_digest(buf) {
            Ok(count) => Ok(count),
            Err(error) => {
                self.error = Some(error);
                Err(error)
            }
        }
    }

    fn flush(&mut self) -> io::Result<()> {
        self.target.flush()
    }
}
