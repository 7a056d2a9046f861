//! `bytes CALL ARGS`: documents from BSON bytes and to them.
use crate::arguments::{parse_bytes, parse_number, split_at_space};
use crate::row_error::{RowError, RowResult};
use crate::row_output::RowOutput;
use crate::row_values::parse_document;
use bson::Document;
use bson::extjson::{Doubles, Form, KeyOrder, Options};
use bson_codec::de::{
    DEPTH, DuplicateKeys, ReadOptions, Result as ReadResult, is_canonical, is_document,
};
use bson_codec::documents::{Line, Run, run_documents};
use bson_codec::run_end::RunFault;
use bson_codec::stream::{from_reader, to_writer};
use bson_codec::{from_bytes, from_slice, front, front_of_bytes, to_vec};

/// Of a writer, so that it needs no memory.
const WRITER_CAPACITY: usize = 4096;

/// `bytes read BYTES`, `bytes nested DEPTH BYTES`, `bytes front BYTES`, `bytes again BYTES`, `bytes
/// once BYTES`, `bytes once_nested DEPTH BYTES`, `bytes once_front BYTES`, `bytes once_again BYTES`,
/// `bytes check BYTES`, `bytes canonical BYTES`, `bytes from BYTES`, `bytes run BYTES`, `bytes
/// run_on BYTES`, `bytes dump LINE BYTES`, `bytes write DOCUMENT`, `bytes to DOCUMENT`.
pub(crate) fn run_call(remaining_args: &str, output_line: &mut RowOutput) -> RowResult {
    let alloc = output_line.alloc;
    let (call_name, text) = split_at_space(remaining_args);
    match call_name {
        "write" => write_reencoding(Ok(parse_document(alloc, text)?), output_line),
        "to" => write_to_writer(text, output_line)?,
        "nested" | "once_nested" => read_nested(call_name, text, output_line)?,
        "dump" => write_dump(text, output_line)?,
        _ => run_call_on_bytes(call_name, parse_bytes(alloc, text)?, output_line)?,
    }
    Ok(())
}

/// `DEPTH BYTES`: the document, in which so many levels are allowed.
fn read_nested(call_name: &str, text: &str, output_line: &mut RowOutput) -> RowResult {
    let alloc = output_line.alloc;
    let (depth, bytes) = split_at_space(text);
    let depth = parse_number::<usize>(depth)?;
    let bytes = parse_bytes(alloc, bytes)?;
    let bytes = bytes.as_slice();
    if call_name == "once_nested" {
        let options = ReadOptions {
            depth,
            ..options_rejecting_duplicates()
        };
        output_line.write_result(from_bytes(alloc, options, bytes));
    } else {
        output_line.write_result(from_slice(alloc, bytes, depth));
    }
    Ok(())
}

/// Returns options that reject duplicate keys.
fn options_rejecting_duplicates() -> ReadOptions {
    ReadOptions {
        duplicate_keys: DuplicateKeys::Reject,
        ..ReadOptions::default()
    }
}

fn run_call_on_bytes(call_name: &str, bytes: Vec<u8>, output_line: &mut RowOutput) -> RowResult {
    let alloc = output_line.alloc;
    let bytes = bytes.as_slice();
    let once = options_rejecting_duplicates();
    match call_name {
        "read" => output_line.write_result(from_slice(alloc, bytes, DEPTH)),
        "front" => write_front(front(alloc, bytes, DEPTH), output_line),
        "again" => write_reencoding(from_slice(alloc, bytes, DEPTH), output_line),
        "once" => output_line.write_result(from_bytes(alloc, once, bytes)),
        "once_front" => write_front(front_of_bytes(alloc, once, bytes), output_line),
        "once_again" => write_reencoding(from_bytes(alloc, once, bytes), output_line),
        "check" => write_check_result(is_document(bytes, DEPTH), output_line),
        "canonical" => output_line.write_result(is_canonical(alloc, bytes, DEPTH)),
        "from" => read_from_reader(bytes, output_line),
        "run" => return write_run(Run::default(), bytes, output_line),
        "run_on" => return write_run(keep_going_run(), bytes, output_line),
        _ => return Err(RowError::InvalidRow),
    }
    Ok(())
}

fn write_check_result(check_result: ReadResult<()>, output_line: &mut RowOutput) {
    match check_result {
        Ok(()) => output_line.write_str("Ok"),
        Err(error) => output_line.write_error(&error),
    }
}

/// Writes the document that is read from a reader of the bytes, and after a `+` the bytes that remain.
fn read_from_reader(bytes: &[u8], output_line: &mut RowOutput) {
    let alloc = output_line.alloc;
    let mut reader = bytes;
    output_line.write_result(from_reader(alloc, &mut reader, DEPTH));
    output_line.write_word("+");
    output_line.write_hex(reader);
}

/// The bytes that a writer is given of the document, or why it was given none.
fn write_to_writer(text: &str, output_line: &mut RowOutput) -> RowResult {
    let alloc = output_line.alloc;
    let document = parse_document(alloc, text)?;
    let mut written_bytes = Vec::with_capacity(alloc, WRITER_CAPACITY)?;
    match to_writer(alloc, &document, &mut written_bytes) {
        Ok(()) => output_line.write_hex(written_bytes.as_slice()),
        Err(error) => output_line.write_error(&error),
    }
    Ok(())
}

fn keep_going_run() -> Run {
    Run {
        keep_going: true,
        ..Run::default()
    }
}

/// `LINE BYTES`: a run that goes on, with finite doubles, and writes this of each document. It rejects
/// duplicate keys if the line ends in `_once`.
fn write_dump(text: &str, output_line: &mut RowOutput) -> RowResult {
    let (line, bytes) = split_at_space(text);
    let (line, duplicate_keys) = match line.strip_suffix("_once") {
        Some(line) => (line, DuplicateKeys::Reject),
        None => (line, DuplicateKeys::LastWins),
    };
    let (line, base_options) = match line.strip_suffix("_mongodb") {
        Some(line) => (line, Options::mongodb()),
        None => (line, Options::default()),
    };
    let (line, key_order) = match line.strip_suffix("_in_order") {
        Some(line) => (line, KeyOrder::AsGiven),
        None => (line, KeyOrder::Ascending),
    };
    let line = match line {
        "canonical" => Line::Text(Form::Canonical),
        "relaxed" => Line::Text(Form::Relaxed),
        "show" => Line::Shown,
        "check" => Line::Nothing,
        _ => return Err(RowError::InvalidRow),
    };
    let options = Options {
        doubles: Doubles::Finite,
        key_order,
        ..base_options
    };
    let run_settings = Run {
        duplicate_keys,
        options,
        line,
        ..keep_going_run()
    };
    let bytes = parse_bytes(output_line.alloc, bytes)?;
    write_run(run_settings, bytes.as_slice(), output_line)
}

/// Writes the output and the diagnostics of a run over the documents, and how it ended.
fn write_run(run: Run, bytes: &[u8], output_line: &mut RowOutput) -> RowResult {
    let alloc = output_line.alloc;
    let mut reader = bytes;
    let mut written_bytes = Vec::with_capacity(alloc, WRITER_CAPACITY)?;
    let mut diagnostics_text = Vec::with_capacity(alloc, WRITER_CAPACITY)?;
    let run_result = run_documents(
        alloc,
        run,
        &mut reader,
        &mut written_bytes,
        &mut diagnostics_text,
    );
    for text in [written_bytes.as_slice(), diagnostics_text.as_slice()] {
        if let Ok(text) = std::str::from_utf8(text) {
            output_line.write_str(text);
        }
    }
    match run_result {
        Ok(counts) => output_line.write_debug(&counts),
        Err(run_end) if run_end.fault == RunFault::OutOfMemory => return Err(RowError::OutOfMemory),
        Err(run_end) => output_line.write_debug(&run_end),
    }
    Ok(())
}

/// Writes the document, and after a `+` the bytes that follow it.
fn write_front(read_result: ReadResult<(Document, &[u8])>, output_line: &mut RowOutput) {
    match read_result {
        Ok((document, remaining_bytes)) => {
            output_line.write_value(&document);
            output_line.write_word("+");
            output_line.write_hex(remaining_bytes);
        }
        Err(error) => output_line.write_error(&error),
    }
}

/// Writes the bytes that the document is written as.
fn write_reencoding(read_result: ReadResult<Document>, output_line: &mut RowOutput) {
    match read_result {
        Ok(document) => match to_vec(output_line.alloc, &document) {
            Ok(bytes) => output_line.write_hex(bytes.as_slice()),
            Err(error) => output_line.write_error(&error),
        },
        Err(error) => output_line.write_error(&error),
    }
}
