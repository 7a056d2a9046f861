//! The position of the error of a text in its input.
ghost use Rattle.std.specs.Prelude.{◌≡◌, IfOk, string_bytes};
ghost use Rattle.bson_program.specs.TextErrors.{IsErrorReport, error_json, error_line, offset_in_input, position_in_input};
ghost use Rattle.bson_program.specs.TextErrors.{position_message, text_start_line, value_line};

use bson_codec::diagnostic::DiagnosticFormat;
use bson_convert::error::Error;
use bson_run::diagnostic::explained_json;
use bson_run::explain::{Explanation, explanation_under};
use bson_run::position::{Position, line_at};
use bson_run::syntax_error::SyntaxError;
use bson_run::task::Task;
use std::alloc::{AllocError, Global};

/// A text of an input.
#[derive(Clone, Copy)]
pub struct InputText<'a> {
    /// All bytes of the input after a byte order mark.
    pub content: &'a [u8],
    /// How many of them come before the text.
    pub start: usize,
    pub text: &'a [u8],
}

impl<'a> InputText<'a> {
    /// Returns all bytes as one text.
    pub fn whole(content: &'a [u8]) -> InputText<'a>
        ensures content { result.content.now ≡ content.now }
        ensures start { result.start ≡ 0 }
        ensures text { result.text.now ≡ content.now }
    {
        InputText {
            content,
            start: 0,
            text: content,
        }
    }
}

/// Returns the line of an error, and the message that says where it is, or the JSON object for it.
pub fn error_report(
    alloc: Global,
    task: Task,
    fault: &Error,
    input_text: InputText<'_>,
) -> Result<(u64, String), AllocError>
    ensures { IfOk result
        (λ report. IsErrorReport task fault.now (string_bytes report.1) report.0 input_text.entry.content.now input_text.entry.start input_text.entry.text.now) }
{
    let explanation = explanation_under(alloc, task, fault, input_text.text)?;
    let line_number = error_line(input_text, &explanation);
    let position_message = position_message(alloc, input_text, &explanation)?;
    match task.diagnostics {
        DiagnosticFormat::Text => Ok((line_number, position_message)),
        DiagnosticFormat::Json => {
            let json = error_json(alloc, fault, &explanation, input_text, &position_message)?;
            Ok((line_number, json))
        }
    }
}

// Returns the line of a message, or 0 for the value of a text that is all bytes, on one line.
fn error_line(input_text: InputText<'_>, explanation: &Explanation<'_>) -> u64
    ensures { result ≡ error_line input_text.entry.content.now input_text.entry.start input_text.entry.text.now explanation.now }
{
    let line_number = match explanation {
        Explanation::Syntax(syntax_error) => {
            line_at(
                offset_in_input(input_text.start, syntax_error.offset),
                input_text.content,
            )
        }
        Explanation::Value { offset, .. } => value_line(input_text, *offset),
        Explanation::Difference(_) => 1,
        Explanation::Other => text_start_line(input_text),
    };
    line_number as u64
}

// Returns the line on which a value begins, if the input has several lines.
fn value_line(input_text: InputText<'_>, offset: Option<usize>) -> usize
    ensures { result ≡ value_line input_text.entry.content.now input_text.entry.start input_text.entry.text.now offset }
{
    let content = input_text.content;
    match offset {
        Some(offset) if line_at(content.len(), content) > 1 => {
            line_at(offset_in_input(input_text.start, offset), content)
        }
        _ => text_start_line(input_text),
    }
}

// Returns the message that says where an error is. The column of an error of JSON is that of its line.
fn position_message(
    alloc: Global,
    input_text: InputText<'_>,
    explanation: &Explanation<'_>,
) -> Result<String, AllocError>
    ensures { IfOk result (λ message. string_bytes message
        ≡ position_message input_text.entry.content.now input_text.entry.start input_text.entry.text.now explanation.now) }
{
    match explanation {
        Explanation::Syntax(syntax_error) => {
            let syntax_error = SyntaxError {
                offset: offset_in_input(input_text.start, syntax_error.offset),
                ..*syntax_error
            };
            syntax_error.message(alloc, input_text.content)
        }
        _ => explanation.message(alloc, input_text.text),
    }
}

// Returns the JSON object for an error, with its line and its offset in the input.
fn error_json(
    alloc: Global,
    fault: &Error,
    explanation: &Explanation<'_>,
    input_text: InputText<'_>,
    position_message: &str,
) -> Result<String, AllocError>
    ensures { IfOk result (λ json. string_bytes json
        ≡ error_json fault.now input_text.entry.content.now input_text.entry.start input_text.entry.text.now explanation.now position_message.now) }
{
    let kind = fault.message();
    let message = format!(in alloc; "{kind}{position_message}")?;
    let position = position_in_input(input_text, explanation);
    explained_json(alloc, position, fault, explanation, &message)
}

// Returns the position of an error in the input. If it has no offset, it is the line of the text's first byte.
fn position_in_input(input_text: InputText<'_>, explanation: &Explanation<'_>) -> Position
    ensures { result ≡ position_in_input input_text.entry.content.now input_text.entry.start input_text.entry.text.now explanation.now }
{
    let content = input_text.content;
    match explanation.offset(input_text.text) {
        Some(offset) => {
            let offset = offset_in_input(input_text.start, offset);
            Position::at(line_at(offset, content) as u64, Some(offset), content)
        }
        None => Position::at(line_at(input_text.start, content) as u64, None, content),
    }
}

// Returns the offset in the input of a byte of a text.
fn offset_in_input(start: usize, offset: usize) -> usize
    ensures { result ≡ offset_in_input start offset }
{
    start.saturating_add(offset)
}

// Returns the line on which a text of a sequence begins; 0 for a text that is all bytes.
fn text_start_line(input_text: InputText<'_>) -> usize
    ensures { result ≡ text_start_line input_text.entry.content.now input_text.entry.start input_text.entry.text.now }
{
    if input_text.text.len() == input_text.content.len() {
        return 0;
    }
    let bytes_before_text = &input_text.content[..input_text.start.min(input_text.content.len())];
    1 + bytes_before_text
        .iter()
        .filter(|byte| **byte == b'\n')
        .count()
}
