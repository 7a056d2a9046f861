//! Concatenated documents, as in dumps.
ghost use Rattle.std.specs.Prelude.{◌≡◌, ◌⊎◌, ◌↔◌, IfOk, IfErr, OnOk, IsTrue, false};
ghost use Rattle.std.specs.Io.KnownBytes.{Appends};
ghost use Rattle.bson.specs.Form.TheVariants.{Canonical};
ghost use Rattle.bson_model.specs.NamedOptions.{default_options};
ghost use Rattle.bson_model.specs.declared.options.DuplicateKeys.TheVariants.{LastWins};
ghost use Rattle.bson_codec.specs.DumpRuns.{BeginsWithLength, CompletedRun, EndsAt, IsLineOrSkip};
ghost use Rattle.bson_codec.specs.DumpRuns.{IsJustifiedEnd, IsFaultOfDocument, IsRunEnd, IsReportFailure};
ghost use Rattle.bson_codec.specs.Diagnostics.{diagnostic_of};
ghost use Rattle.bson_codec.specs.declared.documents.Line.TheVariants.{Text};
ghost use Rattle.bson_codec.specs.declared.documents.Run.{Run};
ghost use Rattle.bson_codec.specs.declared.run_end.RunFault.TheVariants.{CannotRead, OutOfMemory};

use crate::de::{DEPTH, DuplicateKeys};
use crate::diagnostic::DiagnosticFormat;
use crate::document_line::line_of;
use crate::run_end::{RunEnd, RunFault, diagnostic_line};
use crate::stream::{ReaderError, read_document_bytes, write_whole};
use bson::extjson::{Form, Options};
use bson_bytes::read_parts::read_length;
use std::alloc::Global;
use std::io::{Read, Write};

/// The number of bytes that are requested from a reader at once. A run has one block, filled with zeros once.
const BLOCK_SIZE: usize = 65536;

/// The greatest number of documents in one run.
const MAX_DOCUMENTS: u64 = u64::MAX - 1;

/// What a run over documents writes for each of them.
///
/// ```
/// let run = Run {
///     line: Line::Text(Form::Relaxed),
///     ..Run::default()
/// };
/// let mut input: &[u8] = b"\x0c\0\0\0\x10n\0\x05\0\0\0\0";
/// let (mut output, mut reported) = (Vec::new(alloc), Vec::new(alloc));
/// drop(run_documents(alloc, run, &mut input, &mut output, &mut reported));
/// rt.print(str::from_utf8(&output)?)?; // {"n":5}
/// ```
#[derive(Clone, Copy, PartialEq, Eq, Debug)]
pub enum Line {
    /// A line of Extended JSON in this form, with the order of keys and the layout of the options.
    Text(Form),
    /// A line with the output of `Display`.
    Shown,
    /// Nothing: the document is only checked.
    Nothing,
}

/// The options of a run over documents.
///
/// ```
/// let run = Run {
///     keep_going: true,
///     ..Run::default()
/// };
/// println!(rt; "{} {:?}", run.depth, run.line)?; // 100 Text(Canonical)
/// ```
#[derive(Clone, Copy, PartialEq, Eq, Debug)]
pub struct Run {
    /// The number of levels to which documents, arrays and scopes may nest.
    pub depth: usize,
    /// What happens to a duplicate key of a document.
    pub duplicate_keys: DuplicateKeys,
    /// Whether finite doubles are accepted, and the order of keys and the layout of Extended JSON.
    pub options: Options,
    /// What is written for each document.
    pub line: Line,
    /// Whether the run reports and skips a rejected document, and goes on.
    pub keep_going: bool,
    /// The format of the diagnostic for a document that is skipped.
    pub diagnostics: DiagnosticFormat,
}

/// Canonical lines of documents that nest at most [`DEPTH`] deep, up to the first that is rejected, and
/// diagnostics as messages.
impl Default for Run {
    fn default() -> Run
        ensures depth { result.depth ≡ DEPTH }
        ensures duplicate_keys { result.duplicate_keys ≡ LastWins }
        ensures options { result.options ≡ default_options }
        ensures line { result.line ≡ Text Canonical }
        ensures keep_going { result.keep_going ≡ false }
        ensures diagnostics { result.diagnostics ≡ DiagnosticFormat.Text }
    {
        Run {
            depth: DEPTH,
            duplicate_keys: DuplicateKeys::LastWins,
            options: Options::default(),
            line: Line::Text(Form::Canonical),
            keep_going: false,
            diagnostics: DiagnosticFormat::Text,
        }
    }
}

/// The counts of a run over documents.
///
/// ```
/// let mut input: &[u8] = b"\x05\0\0\0\0\x05\0\0\0\0";
/// let (mut output, mut reported) = (Vec::new(alloc), Vec::new(alloc));
/// let counts = run_documents(
///     alloc,
///     Run::default(),
///     &mut input,
///     &mut output,
///     &mut reported,
/// );
/// println!(rt; "{counts:?}")?; // Ok(DocumentCounts { documents: 2, refused: 0 })
/// ```
#[derive(Clone, Copy, PartialEq, Eq, Debug)]
pub struct DocumentCounts {
    /// The number of all documents, rejected ones included.
    pub documents: u64,
    /// The number of rejected documents.
    pub refused: u64,
}

/// Reads concatenated documents until the reader is at its end, and writes a line for each of
/// them, in their order.
///
/// A rejected document ends the run. If `keep_going` is set and all bytes of its length are
/// present, the document is reported and skipped instead, since the next one begins after them. A
/// document that can be written is never rejected. The run needs memory for the largest document
/// and its line.
///
/// # Errors
///
/// The error has the number and the offset of the document at which the run ended. Everything of
/// the documents before it was written and reported. Nothing of the document itself was, except
/// that a beginning of it may have been written if the error is `CannotWrite`.
///
/// - `Malformed`: the bytes are not a document, or have a duplicate key and `duplicate_keys` rejects
///   those.
/// - `FiniteDouble`: the document has a finite double, and `options` does not accept it.
/// - `CannotRead`: the reader failed, or has more bytes than a run can count.
/// - `CannotWrite`: the writer or the report failed.
/// - `OutOfMemory`: an allocation failed.
pub fn run_documents<R: Read, W: Write, T: Write>(
    alloc: Global,
    run: Run,
    reader: &mut R,
    writer: &mut W,
    report: &mut T,
) -> Result<DocumentCounts, RunEnd>
    ensures done { IfOk result (λ counts. CompletedRun run (R.remaining reader.old) (R.remaining reader.new)
        (W.contents writer.old) (W.contents writer.new) (T.contents report.old) (T.contents report.new)
        counts.documents counts.refused) }
    ensures fails { IfErr result (λ end. EndsAt run (R.remaining reader.old) (R.remaining reader.new)
        (W.contents writer.old) (W.contents writer.new) (T.contents report.old) (T.contents report.new)
        end.fault end.number end.refused end.start) }
    // The run ends at a document only if that document cannot be written and is not skipped.
    ensures justified { IfErr result (λ end. IsJustifiedEnd run (R.remaining reader.old) end.fault end.start) }
{
    let mut bytes = Vec::new(alloc);
    let mut block = [0u8; BLOCK_SIZE];
    let mut refused: u64 = 0;
    let mut start: u64 = 0;
    for documents in 0..MAX_DOCUMENTS {
        let number = documents + 1;
        if let Err(error) = read_document_bytes(reader, &mut block, &mut bytes) {
            let fault = fault_of_reader(error);
            return Err(RunEnd {
                fault,
                number,
                refused,
                start,
            });
        }
        if bytes.is_empty() {
            return Ok(DocumentCounts { documents, refused });
        }
        let Some(next_start) = start.checked_add(bytes.len() as u64) else {
            return Err(RunEnd {
                fault: RunFault::CannotRead,
                number,
                refused,
                start,
            });
        };
        let bytes = bytes.as_slice();
        let newly_skipped = match write_or_skip(alloc, run, number, start, bytes, writer, report) {
            Ok(newly_skipped) => newly_skipped,
            Err(fault) => {
                return Err(RunEnd {
                    fault,
                    number,
                    refused,
                    start,
                });
            }
        };
        refused += newly_skipped;
        start = next_start;
    }
    // No run reaches this number of documents.
    Err(RunEnd {
        fault: RunFault::CannotRead,
        number: u64::MAX,
        refused,
        start,
    })
}

// Writes the line of a document and returns 0, or reports and skips the document and returns 1.
fn write_or_skip<W: Write, T: Write>(
    alloc: Global,
    run: Run,
    document_number: u64,
    document_offset: u64,
    bytes: &[u8],
    writer: &mut W,
    report: &mut T,
) -> Result<u64, RunFault>
    ensures ok { IfOk result (λ skipped_count. IsLineOrSkip skipped_count run document_number document_offset bytes.now (W.contents writer.old)
        (W.contents writer.new) (T.contents report.old) (T.contents report.new)) }
    ensures fault { IfErr result (λ run_end_fault. IsRunEnd run_end_fault run document_number document_offset bytes.now (W.contents writer.old)
        (W.contents writer.new) (T.contents report.old) (T.contents report.new)) }
{
    match line_of(alloc, run, bytes) {
        Ok(line) => {
            let Ok(()) = write_whole(writer, line.as_slice()) else {
                return Err(RunFault::CannotWrite);
            };
            Ok(0)
        }
        Err(fault) => {
            if run.keep_going && may_skip(fault, bytes) {
                return match report_skipped(
                    alloc,
                    run.diagnostics,
                    document_number,
                    document_offset,
                    fault,
                    report,
                ) {
                    Ok(()) => Ok(1),
                    Err(error) => Err(error),
                };
            }
            Err(fault)
        }
    }
}

// Reports a document that is skipped.
fn report_skipped<T: Write>(
    alloc: Global,
    format: DiagnosticFormat,
    document_number: u64,
    document_offset: u64,
    fault: RunFault,
    report: &mut T,
) -> Result<(), RunFault>
    ensures ok { OnOk result (Appends (T.contents report.old) (T.contents report.new) (diagnostic_of format document_number document_offset fault)) }
    ensures fault { IfErr result (λ run_end_fault. IsReportFailure run_end_fault format document_number document_offset fault (T.contents report.old) (T.contents report.new)) }
{
    let Ok(diagnostic) = diagnostic_line(alloc, format, document_number, document_offset, fault)
    else {
        return Err(RunFault::OutOfMemory);
    };
    match write_whole(report, diagnostic.as_bytes()) {
        Ok(()) => Ok(()),
        Err(_) => Err(RunFault::CannotWrite),
    }
}

// Whether a run with `keep_going` skips a rejected document.
fn may_skip(fault: RunFault, bytes: &[u8]) -> bool
    ensures { IsTrue result ↔ IsFaultOfDocument fault × BeginsWithLength bytes.now }
{
    match fault {
        RunFault::Malformed { .. } => has_declared_length(bytes),
        RunFault::FiniteDouble => has_declared_length(bytes),
        RunFault::CannotRead => false,
        RunFault::CannotWrite => false,
        RunFault::OutOfMemory => false,
    }
}

// Whether the number of bytes is the length that they begin with.
fn has_declared_length(bytes: &[u8]) -> bool
    ensures { IsTrue result ↔ BeginsWithLength bytes.now }
{
    match read_length(bytes) {
        Ok((size, _)) => size == bytes.len(),
        Err(_) => false,
    }
}

// Maps the error of the reader.
fn fault_of_reader(error: ReaderError) -> RunFault
    ensures { (result ≡ CannotRead) ⊎ (result ≡ OutOfMemory) }
{
    match error {
        ReaderError::OutOfMemory => RunFault::OutOfMemory,
        ReaderError::CannotRead => RunFault::CannotRead,
        ReaderError::Malformed { .. } => RunFault::CannotRead,
    }
}
