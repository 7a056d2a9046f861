//! A run over files: which files are opened, and the error if that fails.
ghost use Rattle.std.specs.Prelude.{◌≡◌, ◌⊎◌, [], IfErr, IfOk, string_bytes};
ghost use Rattle.bson_run.specs.Diagnostic.{IsDiagnostic};
ghost use Rattle.bson_run.specs.ErrorMessages.{IsPositionMessage};
ghost use Rattle.bson_run.specs.Lines.{buffered_text, line_number_of};
ghost use Rattle.bson_program.specs.RunFailures.{HappensAt, HappensAtInput, IsRunFailure, IsDiagnosticsPrefix, IsInputFailure, IsLineReport, IsWriterFailure};
ghost use Rattle.bson_program.specs.RunFailures.{diagnostics_prefix};

use crate::advice::advice_for;
use crate::digests::hasher_for;
use crate::dump::run_dump;
use crate::invocation::{Input, Invocation, STDIO};
use crate::messages::message_prefix;
use crate::output::Output;
use crate::progress::{CountingReader, DiagnosticsWriter, Progress, total_size};
use crate::rejection_hint::{is_rejected, rejection_help};
use crate::streams::{InputReader, OutputWriter};
use crate::texts::convert_texts;
use bson_codec::diagnostic::DiagnosticFormat;
use bson_codec::run_end::RunEnd;
use bson_convert::error;
use bson_run::lines::{Counts, LineRun};
use std::alloc::{AllocError, Global};
use std::fs;
use std::fs::{File, Metadata};
use std::io::{Error, IsTerminal};
use std::os::unix::fs::MetadataExt;
use std::rt::Stderr;

/// Why a run could not go on, with the name of the file that it happened at; `-` is a standard
/// stream.
#[derive(Drop)]
pub enum RunFailure<'a> {
    /// The file can't be read.
    Input(&'a str, Option<Error>),
    /// The file can't be written.
    Output(&'a str, Option<Error>),
    /// The file is both an input and the output.
    InputIsOutput(&'a str),
    /// Bytes would go to a terminal.
    OutputIsTerminal,
    /// The file is not an array, which the run reads.
    NotArray(&'a str),
    /// At a text of the file that is rejected: at the line of this number, or at no line (0), why,
    /// and where in the text, as a message; or the JSON object for the error.
    Text(&'a str, u64, error::Error, String),
    /// At a document of the file.
    Document(&'a str, RunEnd),
}

/// Converts the lines of all files in their order. It stops where a file can't be read or written,
/// or as a run over lines does. Nothing is read or written before each regular file was found to be one
/// that opens, and none that is written, and no bytes of BSON go to a terminal. Where an input is rejected
/// for its format, a hint is added.
pub fn run<'a>(
    rt: &HostRuntime,
    invocation: &'a Invocation,
    hints: &mut Vec<String>,
) -> Result<Counts, RunFailure<'a>>
    ensures { IfErr result (IsRunFailure invocation.now) }
{
    if invocation.writes_bson_bytes()
        && invocation.output.as_str() == STDIO
        && rt.stdout().is_terminal()
    {
        return Err(RunFailure::OutputIsTerminal);
    }
    for file_name in invocation.inputs.iter() {
        check_input_file(rt, invocation, file_name.as_str())?;
    }
    let file_name = invocation.output.as_str();
    let mut output = match Output::open(rt, file_name) {
        Ok(output) => output,
        Err(error) => return Err(RunFailure::Output(file_name, Some(error))),
    };
    output.output_writer.hasher = hasher_for(rt.alloc(), invocation.purpose);
    let progress = Progress::new(
        rt,
        total_size(rt, invocation),
        invocation.input != Input::Documents,
    );
    let counts = run_files(rt, invocation, &mut output.output_writer, &progress, hints);
    progress.clear();
    match counts {
        Ok(counts) => match output.finish(rt) {
            Ok(()) => Ok(counts),
            Err(error) => Err(RunFailure::Output(file_name, Some(error))),
        },
        Err(failure) => {
            output.discard(rt);
            Err(failure)
        }
    }
}

fn run_files<'a>(
    rt: &HostRuntime,
    invocation: &'a Invocation,
    output_writer: &mut OutputWriter,
    progress: &Progress<'_>,
    hints: &mut Vec<String>,
) -> Result<Counts, RunFailure<'a>>
    ensures { IfErr result (HappensAtInput invocation.now) }
{
    let mut total_counts = Counts {
        lines: 0,
        refused: 0,
    };
    for file_name in invocation.inputs.iter() {
        let counts = run_file(
            rt,
            invocation,
            file_name.as_str(),
            output_writer,
            progress,
            hints,
        )?;
        total_counts.lines = total_counts.lines.saturating_add(counts.lines);
        total_counts.refused = total_counts.refused.saturating_add(counts.refused);
    }
    Ok(total_counts)
}

/// Converts the lines of one file.
pub fn run_file<'a>(
    rt: &HostRuntime,
    invocation: &'a Invocation,
    file_name: &'a str,
    output_writer: &mut OutputWriter,
    progress: &Progress<'_>,
    hints: &mut Vec<String>,
) -> Result<Counts, RunFailure<'a>>
    ensures { IfErr result (HappensAt invocation.now file_name.now) }
{
    let mut reader = CountingReader {
        reader: open_input(rt, file_name)?,
        progress,
        first_bytes: Vec::new(rt.alloc()),
        error: None,
    };
    let mut diagnostics_writer = DiagnosticsWriter {
        alloc: rt.alloc(),
        writer: rt.stderr(),
        format: invocation.task.diagnostics,
        file_name: diagnostics_prefix(rt, invocation, file_name)?,
        progress,
        has_finite_double: false,
        error: None,
    };
    let run_result = match invocation.input {
        Input::Lines => run_over_lines(
            rt,
            invocation,
            file_name,
            &mut reader,
            output_writer,
            &mut diagnostics_writer,
        ),
        Input::Text => run_text(rt, invocation, file_name, &mut reader, output_writer),
        Input::Documents => run_dump(
            rt,
            invocation,
            file_name,
            &mut reader,
            output_writer,
            &mut diagnostics_writer,
        ),
    };
    if is_rejected(&run_result) && invocation.task.diagnostics == DiagnosticFormat::Text {
        let advice = advice_for(
            rt.alloc(),
            invocation,
            &reader.first_bytes,
            diagnostics_writer.has_finite_double,
            &run_result,
        );
        if let Some(hint) = rejection_help(
            rt.alloc(),
            invocation,
            file_name,
            &reader.first_bytes,
            advice,
        ) {
            let _ = hints.push(hint);
        }
    }
    run_result
}

// Converts each line of a file.
fn run_over_lines<'a>(
    rt: &HostRuntime,
    invocation: &'a Invocation,
    file_name: &'a str,
    reader: &mut CountingReader<'_, InputReader>,
    output_writer: &mut OutputWriter,
    diagnostics_writer: &mut DiagnosticsWriter<'_, Stderr>,
) -> Result<Counts, RunFailure<'a>>
    ensures { IfErr result (HappensAt invocation.now file_name.now) }
{
    let mut line_run = LineRun::new(rt.alloc(), invocation.task, invocation.on_refusal);
    line_run.options = invocation.options;
    match line_run.run(rt.alloc(), reader, output_writer, diagnostics_writer) {
        Ok(counts) => Ok(counts),
        Err(error::Error::CannotRead) => Err(RunFailure::Input(file_name, reader.error)),
        Err(error::Error::CannotWrite) => Err(writer_failure(
            invocation,
            output_writer,
            diagnostics_writer,
        )),
        Err(fault) => {
            let report = error_report_in(rt.alloc(), &line_run, &fault);
            Err(RunFailure::Text(file_name, line_run.number(), fault, report))
        }
    }
}

// Returns the position of the error in the line at which the run stopped, or the JSON object for the error.
// It is empty if memory is lacking.
fn error_report_in(alloc: Global, line_run: &LineRun, fault: &error::Error) -> String
    ensures { IsLineReport line_run.now fault.now (string_bytes result) ⊎ (string_bytes result ≡ []) }
{
    match line_run.task.diagnostics {
        DiagnosticFormat::Text => position_message_in(alloc, line_run, fault),
        DiagnosticFormat::Json => error_json_in(alloc, line_run, fault),
    }
}

fn position_message_in(alloc: Global, line_run: &LineRun, fault: &error::Error) -> String
    ensures { IsPositionMessage line_run.now.task.preprocessing.v1 (buffered_text line_run.now.state) fault.now (string_bytes result)
        ⊎ (string_bytes result ≡ []) }
{
    match line_run.place(alloc, fault) {
        Ok(position_message) => position_message,
        Err(_) => String::new(alloc),
    }
}

fn error_json_in(alloc: Global, line_run: &LineRun, fault: &error::Error) -> String
    ensures { IsDiagnostic line_run.now.task (line_number_of line_run.now) fault.now
        (buffered_text line_run.now.state) (string_bytes result) ⊎ (string_bytes result ≡ []) }
{
    match line_run.diagnostic(alloc, fault) {
        Ok(error_json) => error_json,
        Err(_) => String::new(alloc),
    }
}

/// Returns the failed writer: that of diagnostics, or else the output.
pub fn writer_failure<'a>(
    invocation: &'a Invocation,
    output_writer: &OutputWriter,
    diagnostics_writer: &DiagnosticsWriter<'_, Stderr>,
) -> RunFailure<'a>
    ensures { IsWriterFailure invocation.now diagnostics_writer.now.error output_writer.now.error result }
{
    match diagnostics_writer.error {
        Some(error) => RunFailure::Output(STDIO, Some(error)),
        None => RunFailure::Output(invocation.output.as_str(), output_writer.error),
    }
}

// Converts the texts of a file.
fn run_text<'a>(
    rt: &HostRuntime,
    invocation: &'a Invocation,
    file_name: &'a str,
    reader: &mut CountingReader<'_, InputReader>,
    output_writer: &mut OutputWriter,
) -> Result<Counts, RunFailure<'a>>
    ensures { IfErr result (HappensAt invocation.now file_name.now) }
{
    match convert_texts(rt.alloc(), invocation, file_name, reader, output_writer) {
        Ok(()) => Ok(Counts {
            lines: 1,
            refused: 0,
        }),
        Err(RunFailure::Input(file_name, _)) => Err(RunFailure::Input(file_name, reader.error)),
        Err(RunFailure::Output(file_name, _)) => Err(RunFailure::Output(
            file_name,
            output_writer.error,
        )),
        Err(failure) => Err(failure),
    }
}

// Opens the input of this name.
fn open_input<'a>(rt: &HostRuntime, file_name: &'a str) -> Result<InputReader, RunFailure<'a>>
    ensures { IfErr result (IsInputFailure file_name.now) }
{
    if file_name == STDIO {
        return Ok(InputReader::Stdin(rt.stdin()));
    }
    match File::open(rt, file_name) {
        Ok(file) => Ok(InputReader::File(file)),
        Err(error) => Err(RunFailure::Input(file_name, Some(error))),
    }
}

// Returns the name before each diagnostic, or none for messages on lines of standard input.
fn diagnostics_prefix<'a>(
    rt: &HostRuntime,
    invocation: &Invocation,
    file_name: &'a str,
) -> Result<Option<String>, RunFailure<'a>>
    ensures diagnostics_prefix { IfOk result
        (IsDiagnosticsPrefix invocation.now.task.diagnostics invocation.now.input file_name.now) }
    ensures failure { IfErr result (IsInputFailure file_name.now) }
{
    let format = invocation.task.diagnostics;
    if format == DiagnosticFormat::Text {
        if file_name == STDIO && invocation.input != Input::Documents {
            return Ok(None);
        }
    }
    match prefix_in_format(rt.alloc(), format, file_name) {
        Ok(diagnostics_prefix) => Ok(Some(diagnostics_prefix)),
        Err(error) => Err(RunFailure::Input(file_name, Some(Error::from(error)))),
    }
}

// Returns the name before a diagnostic in this format.
fn prefix_in_format(
    alloc: Global,
    format: DiagnosticFormat,
    file_name: &str,
) -> Result<String, AllocError>
    ensures { IfOk result (λ prefix. string_bytes prefix ≡ diagnostics_prefix format file_name.now) }
{
    match format {
        DiagnosticFormat::Text => message_prefix(alloc, file_name),
        DiagnosticFormat::Json => String::from_str(alloc, file_name),
    }
}

/// Checks that a file to read opens, and is not one that is written. (Only a regular file is opened here, since the
/// content of a pipe is lost with its first reader.)
pub fn check_input_file<'a>(
    rt: &HostRuntime,
    invocation: &Invocation,
    file_name: &'a str,
) -> Result<(), RunFailure<'a>>
    ensures { IfErr result (HappensAt invocation.now file_name.now) }
{
    let is_stdin = file_name == STDIO;
    let input_metadata = match fs::metadata(rt, if is_stdin { "/dev/stdin" } else { file_name }) {
        Ok(input_metadata) => input_metadata,
        Err(_) if is_stdin => return Ok(()),
        Err(error) => return Err(RunFailure::Input(file_name, Some(error))),
    };
    if !is_stdin && input_metadata.is_file() {
        open_input(rt, file_name)?;
    }
    if is_same_file(rt, &input_metadata, "/dev/stderr") {
        return Err(RunFailure::InputIsOutput(file_name));
    }
    let output_name = invocation.output.as_str();
    let output_name = if output_name == STDIO {
        "/dev/stdout"
    } else {
        output_name
    };
    if !invocation.writes_nothing() && is_same_file(rt, &input_metadata, output_name) {
        return Err(RunFailure::InputIsOutput(file_name));
    }
    Ok(())
}

// Whether a file is the one with this name.
fn is_same_file(rt: &HostRuntime, metadata: &Metadata, file_name: &str) -> bool {
    match fs::metadata(rt, file_name) {
        Ok(named_file) => {
            metadata.is_file()
                && metadata.dev() == named_file.dev()
                && metadata.ino() == named_file.ino()
        }
        Err(_) => false,
    }
}
