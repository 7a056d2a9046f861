//! Makes a run, and writes its result.
use crate::codec_runs;
use crate::failing_streams::{ByteWriter, ChunkReader};
use crate::run_request::{Call, RunRequest};
use bson::extjson::{KeyOrder, Options};
use bson_convert::convert::{convert, convert_text};
use bson_convert::error::Error;
use bson_convert::mode::Mode;
use bson_convert::run::run;
use bson_run::lines::LineRun;
use bson_run::task::{OnRefusal, Task};
use std::alloc::{AllocError, Global};

/// The longest output that is written without an allocation.
const OUTPUT_CAPACITY: usize = 4096;

/// The reader and the writers of a run.
#[derive(Drop)]
pub(crate) struct RunStreams<'a> {
    pub reader: ChunkReader<'a>,
    pub writer: ByteWriter,
    pub diagnostics_writer: ByteWriter,
}

impl<'a> RunStreams<'a> {
    fn for_request(
        alloc: Global,
        request: RunRequest,
        input: &'a [u8],
    ) -> Result<RunStreams<'a>, AllocError> {
        Ok(RunStreams {
            reader: ChunkReader {
                unread_bytes: input,
                chunk_size: request.chunk_size,
                allowed_reads: request.allowed_reads,
                stream_end: request.stream_end,
            },
            writer: ByteWriter {
                accepted_bytes: Vec::with_capacity(alloc, OUTPUT_CAPACITY)?,
                allowed_calls: request.allowed_writes,
                stream_end: request.stream_end,
            },
            diagnostics_writer: ByteWriter {
                accepted_bytes: Vec::with_capacity(alloc, OUTPUT_CAPACITY)?,
                allowed_calls: request.allowed_reports,
                stream_end: request.stream_end,
            },
        })
    }
}

/// Makes the run of the request. Returns its result, and the bytes that its writers accepted.
pub(crate) fn execute_request(
    alloc: Global,
    request: RunRequest,
    input: &[u8],
) -> Result<Vec<u8>, AllocError> {
    let mut streams = RunStreams::for_request(alloc, request, input)?;
    let outcome = match request.call {
        Call::Run(mode) => call_run(alloc, mode, &mut streams)?,
        Call::Convert(mode) => finish_conversion(alloc, convert(alloc, mode, input), &mut streams)?,
        Call::ConvertInOrder(mode) => {
            let options = Options {
                key_order: KeyOrder::AsGiven,
                ..Options::default()
            };
            let output = convert_text(alloc, options, mode, input);
            finish_conversion(alloc, output, &mut streams)?
        }
        Call::RunLines(task, on_refusal) => run_lines(alloc, task, on_refusal, &mut streams)?,
        Call::FromReader => codec_runs::read_document(alloc, &mut streams)?,
        Call::ToWriter => codec_runs::write_document(alloc, input, &mut streams)?,
        Call::RunDocuments(line, key_order, on_refusal) => {
            codec_runs::run_dump(alloc, line, key_order, on_refusal, &mut streams)?
        }
    };
    result_line(
        alloc,
        outcome.as_str(),
        &streams.writer.accepted_bytes,
        &streams.diagnostics_writer.accepted_bytes,
    )
}

/// Returns the result of `run`: `done`, or the line of its fault.
fn call_run(alloc: Global, mode: Mode, streams: &mut RunStreams<'_>) -> Result<String, AllocError> {
    match run(alloc, mode, &mut streams.reader, &mut streams.writer) {
        Ok(()) => String::from_str(alloc, "done"),
        Err(fault) => String::from_str(alloc, fault.line()),
    }
}

/// Returns the result of `convert` or `convert_text`, in the form of that of `run`. The output
/// becomes the bytes of the writer.
fn finish_conversion(
    alloc: Global,
    outcome: Result<Vec<u8>, Error>,
    streams: &mut RunStreams<'_>,
) -> Result<String, AllocError> {
    match outcome {
        Ok(output) => {
            streams.writer.accepted_bytes = output;
            String::from_str(alloc, "done")
        }
        Err(error) => String::from_str(alloc, error_line(&error)),
    }
}

// The line of an error, which is never `NoBytes` here.
fn error_line(error: &Error) -> &'static str {
    match error.fault() {
        Some(fault) => fault.line(),
        None => error.message(),
    }
}

/// Returns the result of a run over lines: `LINES REFUSED`, or the line at which it stopped and the
/// message of its fault.
fn run_lines(
    alloc: Global,
    task: Task,
    on_refusal: OnRefusal,
    streams: &mut RunStreams<'_>,
) -> Result<String, AllocError> {
    let (reader, writer, diagnostics_writer) = (
        &mut streams.reader,
        &mut streams.writer,
        &mut streams.diagnostics_writer,
    );
    let mut run = LineRun::new(alloc, task, on_refusal);
    match run.run(alloc, reader, writer, diagnostics_writer) {
        Ok(counts) => format!(in alloc; "{} {}", counts.lines, counts.refused),
        Err(fault) => format!(in alloc; "line {}: {}", run.number(), fault.message()),
    }
}

fn result_line(
    alloc: Global,
    outcome: &str,
    written: &[u8],
    diagnostics: &[u8],
) -> Result<Vec<u8>, AllocError> {
    let result_header = format!(in alloc; "{} {} {outcome}\n", written.len(), diagnostics.len())?;
    let mut line = Vec::from_slice(alloc, result_header.as_bytes())?;
    line.extend_from_slice(written)?;
    line.extend_from_slice(diagnostics)?;
    line.push(b'\n')?;
    Ok(line)
}
