//! A run over concatenated BSON documents.
ghost use Rattle.std.specs.Prelude.{◌≡◌, ◌+◌, ◌↔◌, [], false, IfErr, IfOk, IsTrue};
ghost use Rattle.std.specs.Io.Buffered.{writer_buffer, writer_inner};
ghost use Rattle.std.specs.Io.KnownBytes.{Appends};
ghost use Rattle.bson_codec.specs.DumpRuns.{EndsAt, IsFaultOfDocument};
ghost use Rattle.bson_codec.specs.Diagnostics.{diagnostic_of};
ghost use Rattle.bson_program.specs.Dump.{IsDoneDump};
ghost use Rattle.bson_program.specs.RunFailures.{HappensAt, document_line};

use crate::invocation::Invocation;
use crate::progress::{CountingReader, DiagnosticsWriter};
use crate::run::{RunFailure, writer_failure};
use crate::streams::{InputReader, OutputWriter};
use bson::extjson::Form;
use bson_codec::de::DEPTH;
use bson_codec::diagnostic::DiagnosticFormat;
use bson_codec::documents::{DocumentCounts, Line, Run, run_documents};
use bson_codec::run_end::{RunEnd, RunFault};
use bson_convert::mode::Mode;
use bson_run::lines::Counts;
use bson_run::task::{OnRefusal, Output};
use std::alloc::Global;
use std::io::{BufReader, BufWriter, Read, Write};
use std::rt::Stderr;

/// As much as is read or written at once.
const BUFFER_SIZE: usize = 65536;

/// Writes a line of each document of a file. If the run keeps going, a document at which it ends
/// counts as one that was rejected.
pub fn run_dump<'a>(
    rt: &HostRuntime,
    invocation: &'a Invocation,
    file_name: &'a str,
    reader: &mut CountingReader<'_, InputReader>,
    output_writer: &mut OutputWriter,
    diagnostics_writer: &mut DiagnosticsWriter<'_, Stderr>,
) -> Result<Counts, RunFailure<'a>>
    ensures { IfErr result (HappensAt invocation.now file_name.now) }
{
    match run_buffered(
        rt.alloc(),
        run_settings(invocation),
        reader,
        output_writer,
        diagnostics_writer,
    ) {
        Ok(counts) => Ok(Counts {
            lines: counts.documents,
            refused: counts.refused,
        }),
        Err(run_end) => Err(match run_end.fault {
            RunFault::CannotRead => RunFailure::Input(file_name, reader.error),
            RunFault::CannotWrite => writer_failure(invocation, output_writer, diagnostics_writer),
            _ => RunFailure::Document(file_name, run_end),
        }),
    }
}

// Returns the settings for each document.
fn run_settings(invocation: &Invocation) -> Run
    ensures depth { result.depth ≡ DEPTH }
    ensures duplicate_keys { result.duplicate_keys ≡ invocation.now.task.preprocessing.duplicate_keys }
    ensures options { result.options ≡ invocation.now.options }
    ensures line { result.line ≡ document_line invocation.now.task.output }
    ensures keeps_going { IsTrue result.keep_going ↔ (invocation.now.on_refusal ≡ OnRefusal.KeepGoing) }
    ensures diagnostics { result.diagnostics ≡ invocation.now.task.diagnostics }
{
    Run {
        depth: DEPTH,
        duplicate_keys: invocation.task.preprocessing.duplicate_keys,
        options: invocation.options,
        line: document_line(invocation.task.output),
        keep_going: invocation.on_refusal == OnRefusal::KeepGoing,
        diagnostics: invocation.task.diagnostics,
    }
}

// Returns what is written for each document.
fn document_line(output: Output) -> Line
    ensures { result ≡ document_line output }
{
    match output {
        Output::Text(Mode::Canonical) => Line::Text(Form::Canonical),
        Output::Text(Mode::Relaxed) => Line::Text(Form::Relaxed),
        Output::Text(Mode::Show) => Line::Shown,
        // (bytes are made of texts alone)
        Output::Bytes | Output::Nothing(_) => Line::Nothing,
    }
}

// Runs over blocks of bytes.
fn run_buffered<R: Read, W: Write, T: Write>(
    alloc: Global,
    run: Run,
    reader: &mut R,
    writer: &mut W,
    diagnostics_writer: &mut T,
) -> Result<DocumentCounts, RunEnd> {
    let Ok(mut reader) = BufReader::with_capacity(alloc, BUFFER_SIZE, reader) else {
        return Err(end_before_first_document(RunFault::OutOfMemory));
    };
    let Ok(mut writer) = BufWriter::with_capacity(alloc, BUFFER_SIZE, writer) else {
        return Err(end_before_first_document(RunFault::OutOfMemory));
    };
    run_and_flush(alloc, run, &mut reader, &mut writer, diagnostics_writer)
}

// A run that ended before its first document.
fn end_before_first_document(fault: RunFault) -> RunEnd
    ensures { result.fault ≡ fault }
{
    RunEnd {
        fault,
        number: 1,
        refused: 0,
        start: 0,
    }
}

// Runs over the documents. Where it returns counts, or ends at a document, the last block was
// written too.
fn run_and_flush<R: Read, W: Write + Drop, T: Write>(
    alloc: Global,
    run: Run,
    reader: &mut R,
    writer: &mut BufWriter<W>,
    diagnostics_writer: &mut T,
) -> Result<DocumentCounts, RunEnd>
    requires { writer_buffer writer.old ≡ [] }
    ensures done { IfOk result (λ counts. IsDoneDump run (R.remaining reader.old) (R.remaining reader.new)
        (W.contents (writer_inner writer.old)) (W.contents (writer_inner writer.new))
        (T.contents diagnostics_writer.old) (T.contents diagnostics_writer.new) counts.documents counts.refused) }
    ensures stops { IfErr result (λ run_end. IsFaultOfDocument run_end.fault → (run.keep_going ≡ false)
        × EndsAt run (R.remaining reader.old) (R.remaining reader.new)
        (W.contents (writer_inner writer.old)) (W.contents (writer_inner writer.new))
        (T.contents diagnostics_writer.old)
        (T.contents diagnostics_writer.new) run_end.fault run_end.number run_end.refused run_end.start) }
{
    let run_result = run_documents(alloc, run, reader, writer, diagnostics_writer);
    let Ok(()) = writer.flush() else {
        return Err(end_before_first_document(RunFault::CannotWrite));
    };
    match run_result {
        Ok(counts) => Ok(counts),
        Err(run_end) if run.keep_going => {
            report_end(alloc, run.diagnostics, run_end, diagnostics_writer)
        }
        Err(run_end) => Err(run_end),
    }
}

// Reports the document at which a run that keeps going ended, as those that it passed over.
fn report_end<T: Write>(
    alloc: Global,
    format: DiagnosticFormat,
    run_end: RunEnd,
    diagnostics_writer: &mut T,
) -> Result<DocumentCounts, RunEnd>
    ensures reports_appended { IfOk result (λ counts. IsFaultOfDocument run_end.fault
        × Appends (T.contents diagnostics_writer.old) (T.contents diagnostics_writer.new)
        (diagnostic_of format run_end.number run_end.start run_end.fault)
        × (counts.documents ≡ run_end.number) × (counts.refused ≡ run_end.refused + 1)) }
    ensures fails { IfErr result (λ error. IsFaultOfDocument error.fault → ⊥) }
{
    match run_end.fault {
        RunFault::Malformed { .. } | RunFault::FiniteDouble => {}
        RunFault::CannotRead | RunFault::CannotWrite | RunFault::OutOfMemory => return Err(run_end),
    }
    let (Some(refused), Ok(diagnostic)) = (
        run_end.refused.checked_add(1),
        run_end.to_line(alloc, format),
    ) else {
        return Err(end_before_first_document(RunFault::OutOfMemory));
    };
    match diagnostics_writer.write_all(diagnostic.as_bytes()) {
        Ok(()) => Ok(DocumentCounts {
            documents: run_end.number,
            refused,
        }),
        Err(_) => Err(end_before_first_document(RunFault::CannotWrite)),
    }
}
