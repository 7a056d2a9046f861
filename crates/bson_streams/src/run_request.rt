//! Parses the request of a line: which call is made, and how its reader and writers fail.
use crate::failing_streams::StreamEnd;
use bson::extjson::{Form, KeyOrder};
use bson_codec::documents::Line;
use bson_convert::mode::Mode;
use bson_run::task::{OnRefusal, Output, Task};
use std::io::ErrorKind;
use std::str;

/// The call of a request.
#[derive(Clone, Copy, PartialEq, Eq, Debug)]
pub(crate) enum Call {
    Run(Mode),
    Convert(Mode),
    ConvertInOrder(Mode),
    RunLines(Task, OnRefusal),
    FromReader,
    ToWriter,
    RunDocuments(Line, KeyOrder, OnRefusal),
}

/// A request: a line `CALL CHUNK_SIZE READS WRITES REPORTS END`.
#[derive(Clone, Copy, PartialEq, Eq, Debug)]
pub(crate) struct RunRequest {
    pub call: Call,
    /// The largest number of bytes of a read.
    pub chunk_size: usize,
    /// The number of reads before the reader fails.
    pub allowed_reads: u64,
    /// The number of bytes that the writer accepts.
    pub allowed_writes: u64,
    /// The number of bytes that the report accepts.
    pub allowed_reports: u64,
    /// What each of them does after that.
    pub stream_end: StreamEnd,
}

/// Parses the request of a line.
pub(crate) fn parse_request(line: &[u8]) -> Option<RunRequest> {
    let mut words = str::from_utf8(line).ok()?.split(' ');
    Some(RunRequest {
        call: call_of(words.next()?)?,
        chunk_size: words.next()?.parse::<usize>().ok()?,
        allowed_reads: words.next()?.parse::<u64>().ok()?,
        allowed_writes: words.next()?.parse::<u64>().ok()?,
        allowed_reports: words.next()?.parse::<u64>().ok()?,
        stream_end: stream_end_of(words.next()?)?,
    })
}

/// `MODE`, `convert:MODE`, `in_order:MODE`, `lines:OUTPUT:stop` or `lines:OUTPUT:keep-going`; of BSON
/// bytes `from_reader`, `to_writer`, `documents:LINE:stop` or `documents:LINE:keep-going`.
fn call_of(word: &str) -> Option<Call> {
    let Some((call_name, call_argument)) = word.split_once(':') else {
        return match word {
            "from_reader" => Some(Call::FromReader),
            "to_writer" => Some(Call::ToWriter),
            _ => Some(Call::Run(Mode::from_name(word)?)),
        };
    };
    match call_name {
        "convert" => Some(Call::Convert(Mode::from_name(call_argument)?)),
        "in_order" => Some(Call::ConvertInOrder(Mode::from_name(call_argument)?)),
        "lines" => {
            let (output, on_refusal) = call_argument.split_once(':')?;
            let task = Task::new(Output::from_name(output)?);
            Some(Call::RunLines(task, on_refusal_of(on_refusal)?))
        }
        "documents" => {
            let (line, on_refusal) = call_argument.split_once(':')?;
            let (line, key_order) = match line.strip_suffix("_in_order") {
                Some(line) => (line, KeyOrder::AsGiven),
                None => (line, KeyOrder::Ascending),
            };
            Some(Call::RunDocuments(output_line_of(line)?, key_order, on_refusal_of(on_refusal)?))
        }
        _ => None,
    }
}

/// What a run over documents writes of each, as the rows of tests/rows name it.
fn output_line_of(word: &str) -> Option<Line> {
    match word {
        "canonical" => Some(Line::Text(Form::Canonical)),
        "relaxed" => Some(Line::Text(Form::Relaxed)),
        "show" => Some(Line::Shown),
        "check" => Some(Line::Nothing),
        _ => None,
    }
}

fn on_refusal_of(word: &str) -> Option<OnRefusal> {
    match word {
        "stop" => Some(OnRefusal::Stop),
        "keep-going" => Some(OnRefusal::KeepGoing),
        _ => None,
    }
}

fn stream_end_of(word: &str) -> Option<StreamEnd> {
    match word {
        "interrupted" => Some(StreamEnd::Fails(ErrorKind::Interrupted)),
        "would_block" => Some(StreamEnd::Fails(ErrorKind::WouldBlock)),
        "broken_pipe" => Some(StreamEnd::Fails(ErrorKind::BrokenPipe)),
        "no_byte" => Some(StreamEnd::NoByte),
        _ => None,
    }
}
