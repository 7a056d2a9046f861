//! What stopped a run, as a JSON object on one line, and the names of files in these objects.
ghost use Rattle.std.specs.Prelude.{◌≡◌, ◌++◌, IfOk, OnOk, codes};
ghost use Rattle.bson_program.specs.Messages.{IsFailureObject, IsFileFailureObject, failure_object, file_member, report_object};
ghost use Rattle.bson_program.specs.Messages.{file_tokens, with_json_file};

use crate::invocation::STDIO;
use crate::messages::{cause_suffix, show_name};
use crate::run::RunFailure;
use bson_codec::diagnostic::{DiagnosticFormat, write_message};
use json::Writer;
use std::alloc::{AllocError, Global};
use std::io::Error;

const TERMINAL_MESSAGE: &str = "BSON bytes are not written to a terminal; give -o FILE, or a pipe";

const NOT_ARRAY_MESSAGE: &str = "not a JSON array, which --array reads";

/// Returns the JSON object for what stopped the run: the file, the code and the message. A rejected text or
/// document has its own object, to which the file is added.
pub fn failure_json(alloc: Global, failure: RunFailure<'_>) -> Result<Vec<u8>, AllocError>
    ensures { IfOk result (λ line. IsFailureObject failure.entry line.items) }
{
    match failure {
        RunFailure::Input(file_name, error) => {
            file_failure(alloc, "cannot_read", "read ", file_name, "input", error)
        }
        RunFailure::Output(file_name, error) => {
            file_failure(alloc, "cannot_write", "write ", file_name, "output", error)
        }
        RunFailure::InputIsOutput(file_name) => {
            let shown_name = show_name(alloc, file_name, "input")?;
            let message = format!(in alloc; "{shown_name} is both an input and the output")?;
            failure_object(alloc, file_name, "input_is_output", &message)
        }
        RunFailure::NotArray(file_name) => {
            failure_object(alloc, file_name, "not_an_array", NOT_ARRAY_MESSAGE)
        }
        RunFailure::OutputIsTerminal => {
            failure_object(alloc, STDIO, "output_is_terminal", TERMINAL_MESSAGE)
        }
        RunFailure::Text(file_name, _, _, report) => named_report(
            alloc,
            file_name,
            report.as_bytes(),
        ),
        RunFailure::Document(file_name, run_end) => {
            let report = run_end.to_line(alloc, DiagnosticFormat::Json)?;
            with_json_file(alloc, file_name, report.as_bytes())
        }
    }
}

// Returns the object for a file that can't be read or written.
fn file_failure(
    alloc: Global,
    code: &str,
    verb: &str,
    file_name: &str,
    stream: &str,
    error: Option<Error>,
) -> Result<Vec<u8>, AllocError>
    ensures { IfOk result (λ line. IsFileFailureObject code.now verb.now file_name.now stream.now error line.items) }
{
    let shown_name = show_name(alloc, file_name, stream)?;
    let cause = cause_suffix(alloc, error)?;
    let message = format!(in alloc; "cannot {verb}{shown_name}{cause}")?;
    failure_object(alloc, file_name, code, &message)
}

// Returns the object of a file, a code and a message.
fn failure_object(
    alloc: Global,
    file_name: &str,
    code: &str,
    message: &str,
) -> Result<Vec<u8>, AllocError>
    ensures { IfOk result (λ line. line.items ≡ failure_object file_name.now code.now message.now) }
{
    let mut writer = Writer::new(Vec::new(alloc));
    write_file(&mut writer, file_name)?;
    write_message(&mut writer, code, message)?;
    let mut line = writer.into_inner();
    line.push(b'\n')?;
    Ok(line)
}

// Begins an object, and writes the name of the file.
fn write_file(writer: &mut Writer, file_name: &str) -> Result<(), AllocError>
    ensures added { OnOk result (writer.new.tokens ≡ writer.old.tokens ++ file_tokens file_name.now) }
    ensures before { writer.new.before ≡ writer.old.before }
{
    writer.begin_object()?;
    writer.key("file")?;
    writer.string(file_name)
}

// Returns the object of a rejected text with its file. A report is empty if memory was lacking.
fn named_report(alloc: Global, file_name: &str, report: &[u8]) -> Result<Vec<u8>, AllocError>
    ensures { IfOk result (λ line. line.items ≡ report_object file_name.now report.now) }
{
    if report.is_empty() {
        return failure_object(alloc, file_name, "out_of_memory", "out of memory");
    }
    with_json_file(alloc, file_name, report)
}

// Returns the object with the name of its file as the first member.
fn with_json_file(alloc: Global, file_name: &str, json: &[u8]) -> Result<Vec<u8>, AllocError>
    ensures { IfOk result (λ line. line.items ≡ with_json_file file_name.now json.now) }
{
    let mut line = Vec::new(alloc);
    push_named_json(alloc, &mut line, file_name, json)?;
    Ok(line)
}

// Returns the beginning of an object with its first member, the name of the file.
fn file_member(alloc: Global, file_name: &str) -> Result<Vec<u8>, AllocError>
    ensures { IfOk result (λ member. member.items ≡ file_member file_name.now) }
{
    let mut writer = Writer::new(Vec::new(alloc));
    write_file(&mut writer, file_name)?;
    Ok(writer.into_inner())
}

/// Appends a JSON object, with the name of its file as the first member.
pub fn push_named_json(
    alloc: Global,
    named_diagnostics: &mut Vec<u8>,
    file_name: &str,
    json: &[u8],
) -> Result<(), AllocError>
    ensures { OnOk result
        (named_diagnostics.new.items ≡ named_diagnostics.old.items ++ with_json_file file_name.now json.now) }
{
    let member = file_member(alloc, file_name)?;
    named_diagnostics.extend_from_slice(&member)?;
    named_diagnostics.push(b',')?;
    match json.split_first() {
        Some((_, members)) => named_diagnostics.extend_from_slice(members),
        None => Ok(()),
    }
}
