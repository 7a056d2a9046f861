//! How far a run is, on a terminal: a line that is updated in place while files are read.
ghost use Rattle.std.specs.Prelude.{◌≡◌, ◌==◌, count_by, OnOk};
ghost use Rattle.std.specs.Io.KnownBytes.{Appends};
ghost use Rattle.bson_program.specs.RunFailures.{diagnostics_of_file};

use crate::invocation::{Invocation, STDIO};
use crate::messages::add_file_name;
use bson_codec::diagnostic::DiagnosticFormat;
use std::alloc::Global;
use std::cell::Cell;
use std::io::{IsTerminal, Read, Write};
use std::time::{Duration, Instant};
use std::{fs, io, str};

/// Milliseconds from one line to the next.
const MIN_UPDATE_INTERVAL: u64 = 100;

/// Clears the terminal's line.
const CLEAR_LINE: &str = "\r\x1b[K";

/// Diagnostics have these texts for a number that is not a 64-bit integer, and for a document with a finite double.
const NOT_AN_INTEGER_MESSAGE: &str = " (not a 64-bit integer; found ";

const FINITE_DOUBLE_MESSAGE: &str = ": a finite double";

/// How far a run is.
#[derive(Drop)]
pub struct Progress<'a> {
    rt: &'a HostRuntime,
    /// The total size of the files, or none if no progress is shown.
    total_size: Option<u64>,
    /// Whether they have lines.
    has_lines: bool,
    bytes_read: Cell<u64>,
    line_count: Cell<u64>,
    refused_count: Cell<u64>,
    last_shown: Cell<Option<Instant>>,
    is_shown: Cell<bool>,
}

impl<'a> Progress<'a> {
    pub fn new(rt: &'a HostRuntime, total_size: Option<u64>, has_lines: bool) -> Progress<'a>
        ensures total_size { result.total_size ≡ total_size }
        ensures has_lines { result.has_lines ≡ has_lines }
    {
        Progress {
            rt,
            total_size,
            has_lines,
            bytes_read: Cell::new(0),
            line_count: Cell::new(0),
            refused_count: Cell::new(0),
            last_shown: Cell::new(None),
            is_shown: Cell::new(false),
        }
    }

    // Counts bytes that were read.
    fn add_bytes(&self, bytes: &[u8]) {
        if let Some(total_size) = self.total_size {
            self.bytes_read
                .set(self.bytes_read.get().saturating_add(bytes.len() as u64));
            self.line_count
                .set(self.line_count.get().saturating_add(newline_count(bytes)));
            self.show_progress(total_size);
        }
    }

    // Writes the line anew, unless it was written a moment ago.
    fn show_progress(&self, total_size: u64) {
        let Ok(now) = Instant::now(self.rt) else {
            return;
        };
        if let Some(last_shown) = self.last_shown.get() {
            if now.duration_since(last_shown) < Duration::from_millis(MIN_UPDATE_INTERVAL) {
                return;
            }
        }
        self.last_shown.set(Some(now));
        self.is_shown.set(true);
        let (read_mb, total_mb) = (self.bytes_read.get() / 1_000_000, total_size / 1_000_000);
        let refused_count = self.refused_count.get();
        if self.has_lines {
            let line_count = self.line_count.get();
            let _ = eprint!(self.rt;
                "\r{read_mb} of {total_mb} MB, {line_count} lines, {refused_count} refused\x1b[K"
            );
        } else {
            let _ = eprint!(self.rt; "\r{read_mb} of {total_mb} MB, {refused_count} refused\x1b[K");
        }
    }

    /// Clears the line, if it is shown.
    pub fn clear(&self) {
        if self.is_shown.get() {
            self.is_shown.set(false);
            self.last_shown.set(None);
            let _ = eprint!(self.rt; "{CLEAR_LINE}");
        }
    }
}

/// Returns the total size of the inputs if progress is shown: standard error is a terminal to which no
/// output goes, and all that is read is files.
pub fn total_size(rt: &HostRuntime, invocation: &Invocation) -> Option<u64> {
    let is_output_separate = invocation.output.as_str() != STDIO
        || invocation.writes_nothing()
        || !rt.stdout().is_terminal();
    if !rt.stderr().is_terminal() || !is_output_separate {
        return None;
    }
    let mut total_size = 0u64;
    for file_name in invocation.inputs.iter() {
        let file_name = file_name.as_str();
        let file_name = if file_name == STDIO {
            "/dev/stdin"
        } else {
            file_name
        };
        total_size = total_size.saturating_add(file_size(rt, file_name)?);
    }
    Some(total_size)
}

// How many bytes a file has.
fn file_size(rt: &HostRuntime, file_name: &str) -> Option<u64> {
    match fs::metadata(rt, file_name) {
        Ok(metadata) if metadata.is_file() => Some(metadata.len()),
        _ => None,
    }
}

// Whether diagnostics mention a number that is read without `--strict`.
fn reports_finite_double(diagnostics: &[u8]) -> bool {
    match str::from_utf8(diagnostics) {
        Ok(text) => text.contains(NOT_AN_INTEGER_MESSAGE) || text.contains(FINITE_DOUBLE_MESSAGE),
        Err(_) => false,
    }
}

fn newline_count(bytes: &[u8]) -> u64
    ensures { result ≡ count_by (λ byte. byte == 10) bytes.now }
{
    bytes.iter().filter(|byte| **byte == b'\n').count() as u64
}

/// As many first bytes of an input are kept, or a few more.
pub const FIRST_BYTES_LEN: usize = 65536;

/// A reader whose bytes count as progress, which keeps the first bytes, and why a read failed.
#[derive(Drop)]
pub struct CountingReader<'a, R> {
    pub reader: R,
    pub progress: &'a Progress<'a>,
    pub first_bytes: Vec<u8>,
    pub error: Option<io::Error>,
}

impl<R> CountingReader<'_, R> {
    // Keeps bytes that are among the first. If memory is lacking there are fewer.
    fn keep_first_bytes(&mut self, bytes: &[u8]) {
        if self.first_bytes.len() < FIRST_BYTES_LEN {
            let _ = self.first_bytes.extend_from_slice(bytes);
        }
    }
}

impl<R: Read> Read for CountingReader<'_, R> {
    fn read(&mut self, buf: &mut [u8]) -> io::Result<usize> {
        match self.reader.read(buf) {
            Ok(count) => {
                self.progress.add_bytes(&buf[..count]);
                self.keep_first_bytes(&buf[..count]);
                Ok(count)
            }
            Err(error) => {
                self.error = Some(error);
                Err(error)
            }
        }
    }
}

/// A writer of diagnostics, a line for each rejected line, with the name of their file where it has
/// one, which keeps why a write failed.
#[derive(Drop)]
pub struct DiagnosticsWriter<'a, T> {
    pub alloc: Global,
    pub writer: T,
    pub format: DiagnosticFormat,
    pub file_name: Option<String>,
    pub progress: &'a Progress<'a>,
    pub has_finite_double: bool,
    pub error: Option<io::Error>,
}

impl<T: Write> DiagnosticsWriter<'_, T> {
    // Writes whole diagnostics.
    fn write_diagnostics(&mut self, diagnostics: &[u8]) -> io::Result<()>
        ensures { OnOk result (Appends (T.contents self.old.writer) (T.contents self.new.writer)
            (diagnostics_of_file self.old.format self.old.file_name diagnostics.now)) }
    {
        match &self.file_name {
            None => self.writer.write_all(diagnostics),
            Some(file_name) => {
                let diagnostics = add_file_name(
                    self.alloc,
                    self.format,
                    file_name.as_str(),
                    diagnostics,
                )?;
                self.writer.write_all(&diagnostics)
            }
        }
    }
}

impl<T: Write> Write for DiagnosticsWriter<'_, T> {
    fn write(&mut self, buf: &[u8]) -> io::Result<usize> {
        self.progress.clear();
        self.has_finite_double = self.has_finite_double || reports_finite_double(buf);
        match self.write_diagnostics(buf) {
            Ok(()) => {
                let refused_count = self.progress.refused_count.get();
                self.progress
                    .refused_count
                    .set(refused_count.saturating_add(newline_count(buf)));
                Ok(buf.len())
            }
            Err(error) => {
                self.error = Some(error);
                Err(error)
            }
        }
    }

    fn flush(&mut self) -> io::Result<()> {
        self.writer.flush()
    }
}
