//! The lines on standard error.
ghost use Rattle.std.specs.Prelude.{◌≡◌, ◌==◌, ◌++◌, IfOk, OnOk, position, string_bytes};
ghost use Rattle.bson_program.specs.Messages.{with_file_names, document_error_message, escaped_name, message_prefix};
ghost use Rattle.bson_program.specs.Messages.{input_kind, line_location, line_len, printable, shown_name, counts_summary};
ghost use Rattle.bson_program.specs.Messages.{text_location, text_message, document_message, with_file_name, IsCauseSuffix, IsFailureMessage};

use crate::failure_json::push_named_json;
use crate::invocation::{Input, STDIO};
use crate::run::RunFailure;
use bson_codec::diagnostic::DiagnosticFormat;
use bson_codec::run_end::{RunEnd, RunFault};
use bson_convert::error;
use bson_run::lines::Counts;
use std::alloc::{AllocError, Global};
use std::io::Error;

/// The beginning of a diagnostic, before its line's number.
const DIAGNOSTIC_PREFIX: &[u8] = b"bson: line ";

/// The error if bytes would go to a terminal.
const TERMINAL_MESSAGE: &str =
    "bson: BSON bytes are not written to a terminal; give -o FILE, or a pipe";

/// How many lines or documents there were, and how many were refused.
pub fn counts_summary(alloc: Global, input: Input, counts: Counts) -> Result<String, AllocError>
    ensures { IfOk result (λ line. string_bytes line ≡ counts_summary input counts.lines counts.refused) }
{
    let kind_name = input_kind_name(input);
    format!(in alloc;
        "bson: {} {kind_name}, {} refused",
        counts.lines, counts.refused
    )
}

// Returns the name of the parts of the input.
fn input_kind_name(input: Input) -> &'static str
    ensures { result.now ≡ input_kind input }
{
    match input {
        Input::Lines | Input::Text => "lines",
        Input::Documents => "documents",
    }
}

/// Returns the message for what stopped the run, and where.
pub fn failure_message(alloc: Global, failure: RunFailure<'_>) -> Result<String, AllocError>
    ensures { IfOk result (λ line. IsFailureMessage failure.entry (string_bytes line)) }
{
    match failure {
        RunFailure::Input(file_name, error) => {
            let (file_name, cause) = (
                show_name(alloc, file_name, "input")?,
                cause_suffix(alloc, error)?,
            );
            format!(in alloc; "bson: cannot read {file_name}{cause}")
        }
        RunFailure::Output(file_name, error) => {
            let (file_name, cause) = (
                show_name(alloc, file_name, "output")?,
                cause_suffix(alloc, error)?,
            );
            format!(in alloc; "bson: cannot write {file_name}{cause}")
        }
        RunFailure::InputIsOutput(file_name) => {
            let file_name = show_name(alloc, file_name, "input")?;
            format!(in alloc; "bson: {file_name} is both an input and the output")
        }
        RunFailure::OutputIsTerminal => String::from_str(alloc, TERMINAL_MESSAGE),
        RunFailure::NotArray(file_name) => {
            let prefix = message_prefix(alloc, file_name)?;
            format!(in alloc; "{prefix}: not a JSON array, which --array reads")
        }
        RunFailure::Text(file_name, line_number, fault, position_message) => text_failure_line(
            alloc,
            file_name,
            line_number,
            &fault,
            &position_message,
        ),
        RunFailure::Document(file_name, run_end) => document_failure_line(
            alloc, file_name, run_end,
        ),
    }
}

// At which document the run stopped, and why.
fn document_failure_line(
    alloc: Global,
    file_name: &str,
    run_end: RunEnd,
) -> Result<String, AllocError>
    ensures { IfOk result (λ line. string_bytes line ≡ document_message file_name.now run_end) }
{
    let message = document_error_message(alloc, run_end)?;
    let prefix = message_prefix(alloc, file_name)?;
    let message = message.trim_end();
    format!(in alloc; "{prefix}: {message}")
}

// Why it stopped there; of a stream alone without the document.
fn document_error_message(alloc: Global, run_end: RunEnd) -> Result<String, AllocError>
    ensures { IfOk result
        (λ message. string_bytes message ≡ document_error_message run_end.number run_end.start run_end.fault) }
{
    match run_end.fault {
        RunFault::CannotRead | RunFault::CannotWrite => String::from_str(
            alloc,
            run_end.fault.message(),
        ),
        _ => run_end.to_line(alloc, DiagnosticFormat::Text),
    }
}

// Returns the message for a rejected text.
fn text_failure_line(
    alloc: Global,
    file_name: &str,
    line_number: u64,
    fault: &error::Error,
    position_message: &str,
) -> Result<String, AllocError>
    ensures { IfOk result
        (λ line. string_bytes line ≡ text_message file_name.now line_number fault.now position_message.now) }
{
    let message = fault.message();
    let prefix = text_location(alloc, file_name, line_number)?;
    format!(in alloc; "{prefix}: {message}{position_message}")
}

// Returns the beginning of a message: for a text on a line with its number.
fn text_location(alloc: Global, file_name: &str, line_number: u64) -> Result<String, AllocError>
    ensures { IfOk result (λ prefix. string_bytes prefix ≡ text_location file_name.now line_number) }
{
    if line_number == 0 {
        message_prefix(alloc, file_name)
    } else {
        line_location(alloc, file_name, line_number)
    }
}

/// Returns the beginning of a message: the file's name, or that of the program.
pub fn message_prefix(alloc: Global, file_name: &str) -> Result<String, AllocError>
    ensures { IfOk result (λ prefix. string_bytes prefix ≡ message_prefix file_name.now) }
{
    if file_name == STDIO {
        return String::from_str(alloc, "bson");
    }
    escape_name(alloc, file_name)
}

// The same with the number of a line.
fn line_location(alloc: Global, file_name: &str, line_number: u64) -> Result<String, AllocError>
    ensures { IfOk result (λ prefix. string_bytes prefix ≡ line_location file_name.now line_number) }
{
    if file_name == STDIO {
        return format!(in alloc; "bson: line {line_number}");
    }
    let file_name = escape_name(alloc, file_name)?;
    format!(in alloc; "{file_name}:{line_number}")
}

/// A file as messages name it.
pub fn show_name(alloc: Global, file_name: &str, stream: &str) -> Result<String, AllocError>
    ensures { IfOk result (λ shown. string_bytes shown ≡ shown_name file_name.now stream.now) }
{
    if file_name == STDIO {
        return format!(in alloc; "standard {stream}");
    }
    escape_name(alloc, file_name)
}

/// Returns a name on one line, that steers no terminal.
pub fn escape_name(alloc: Global, unescaped: &str) -> Result<String, AllocError>
    ensures { IfOk result (λ escaped. string_bytes escaped ≡ escaped_name unescaped.now) }
{
    let mut escaped = String::new(alloc);
    for character in unescaped.chars() {
        push_printable(&mut escaped, character)?;
    }
    Ok(escaped)
}

// Appends a character, or its escape if it would break a line or control a terminal.
fn push_printable(text: &mut String, character: char) -> Result<(), AllocError>
    ensures { OnOk result (string_bytes text.new ≡ string_bytes text.old ++ printable character) }
{
    let needs_escape = character.is_control() || character == '\u{2028}' || character == '\u{2029}';
    if !needs_escape {
        return text.push(character);
    }
    for escaped_char in character.escape_default() {
        text.push(escaped_char)?;
    }
    Ok(())
}

/// Returns the system's message for an error, after a colon.
pub fn cause_suffix(alloc: Global, error: Option<Error>) -> Result<String, AllocError>
    ensures { IfOk result (λ cause. IsCauseSuffix error (string_bytes cause)) }
{
    let Some(error) = error else {
        return Ok(String::new(alloc));
    };
    let message = format!(in alloc; "{error}")?;
    match message.split_once(" (os error ") {
        Some((message, _)) => format!(in alloc; ": {message}"),
        None => format!(in alloc; ": {message}"),
    }
}

/// Returns diagnostics on lines, with a file's name and the line's number in front, as editors and grep have
/// them; on documents, with the name in front. A JSON object has the name as its first member.
pub fn add_file_name(
    alloc: Global,
    format: DiagnosticFormat,
    file_name: &str,
    diagnostics: &[u8],
) -> Result<Vec<u8>, AllocError>
    ensures { IfOk result
        (λ named_diagnostics. named_diagnostics.items ≡ with_file_names format file_name.now diagnostics.now) }
{
    let mut named_diagnostics = Vec::new(alloc);
    let mut remaining_bytes = diagnostics;
    while !remaining_bytes.is_empty() {
        let (diagnostic, after_line) = remaining_bytes.split_at(line_len(remaining_bytes));
        push_in_format(alloc, format, &mut named_diagnostics, file_name, diagnostic)?;
        remaining_bytes = after_line;
    }
    Ok(named_diagnostics)
}

/// Returns the length of the first line, with the newline after it.
pub fn line_len(bytes: &[u8]) -> usize
    ensures { result ≡ line_len bytes.now }
{
    match first_newline(bytes) {
        Some(newline_offset) => newline_offset + 1,
        None => bytes.len(),
    }
}

// Returns the offset of the first newline.
fn first_newline(bytes: &[u8]) -> Option<usize>
    ensures { result ≡ position (λ byte. byte == 10) bytes.now }
{
    bytes.iter().position(|byte| *byte == b'\n')
}

// Appends a diagnostic with the name.
fn push_in_format(
    alloc: Global,
    format: DiagnosticFormat,
    named_diagnostics: &mut Vec<u8>,
    file_name: &str,
    diagnostic: &[u8],
) -> Result<(), AllocError>
    ensures { OnOk result (named_diagnostics.new.items
        ≡ named_diagnostics.old.items ++ with_file_name format file_name.now diagnostic.now) }
{
    match format {
        DiagnosticFormat::Text => push_named_diagnostic(named_diagnostics, file_name, diagnostic),
        DiagnosticFormat::Json => push_named_json(alloc, named_diagnostics, file_name, diagnostic),
    }
}

// Appends a message after the name.
fn push_named_diagnostic(
    named_diagnostics: &mut Vec<u8>,
    file_name: &str,
    diagnostic: &[u8],
) -> Result<(), AllocError>
    ensures { OnOk result
        (named_diagnostics.new.items
        ≡ named_diagnostics.old.items ++ with_file_name DiagnosticFormat.Text file_name.now diagnostic.now) }
{
    named_diagnostics.extend_from_slice(file_name.as_bytes())?;
    if diagnostic.starts_with(DIAGNOSTIC_PREFIX) {
        named_diagnostics.push(b':')?;
        return named_diagnostics.extend_from_slice(&diagnostic[DIAGNOSTIC_PREFIX.len()..]);
    }
    named_diagnostics.extend_from_slice(b": ")?;
    named_diagnostics.extend_from_slice(diagnostic)
}
