//! Diagnostics on rejected lines and texts: as messages, and as JSON objects.
ghost use Rattle.std.specs.Prelude.{◌≡◌, ◌++◌, [], IfOk, OnOk, Some, None, codes, map, option_map, string_bytes};
ghost use Rattle.std.specs.Fmt.{decimal};
ghost use Rattle.std.specs.List.{flat_map};
ghost use Rattle.std.specs.Str.{chars};
ghost use Rattle.bson_tree.specs.Place.{segment_of};
ghost use Rattle.bson_convert.specs.Convert.{newline};
ghost use Rattle.bson_codec.specs.Diagnostics.{json_line};
ghost use Rattle.bson_run.specs.Diagnostic.{IsDiagnostic, diagnostic_tokens, error_code};
ghost use Rattle.bson_run.specs.Diagnostic.{explained_message, json_pointer, path_tokens, pointer_char};
ghost use Rattle.bson_run.specs.Diagnostic.{position_tokens, reference_token, segment_tokens};
ghost use Rattle.bson_run.specs.ErrorMessages.{explanation_path};

use crate::explain::{Explanation, explanation_under};
use crate::position::Position;
use crate::task::Task;
use bson_codec::diagnostic::{DiagnosticFormat, begin_with_number, write_message, write_number};
use bson_convert::error::Error;
use bson_tree::place::{Reason, Segment};
use json::Writer;
use std::alloc::{AllocError, Global};

/// A diagnostic on a rejected text.
///
/// ```
/// let diagnostic = Diagnostic {
///     position: Position::at(1, Some(0), b"?"),
///     path: None,
///     code: "not_json",
///     message: "not JSON at column 1 (expected a value)",
/// };
/// rt.print(&diagnostic.to_json(alloc)?)?;
/// // {"line":1,"column":1,"offset":0,"path":null,"pointer":null,"code":"not_json","message":"not JSON at column 1 (expected a value)"}
/// ```
#[derive(Clone, Copy)]
pub struct Diagnostic<'path, 'message> {
    /// Where the error is.
    pub position: Position,
    /// The path to the invalid value, from the value outward, or `None` if the error is not that of a
    /// value.
    pub path: Option<&'path [Segment]>,
    /// The kind of the error, as [`error_code`] has it.
    pub code: &'static str,
    /// What a person reads.
    pub message: &'message str,
}

impl Diagnostic<'_, '_> {
    /// Writes the diagnostic as a JSON object on one line, and a newline. The path is an array of keys and
    /// indexes, from the root to the value, and a JSON Pointer (RFC 6901).
    ///
    /// # Errors
    ///
    /// `AllocError` if an allocation fails.
    pub fn to_json(&self, alloc: Global) -> Result<String, AllocError>
        ensures { IfOk result (λ line. string_bytes line ≡ json_line (diagnostic_tokens self.now.position
            (option_map (λ path. map segment_of path.now) self.now.path) self.now.code.now self.now.message.now)) }
    {
        let mut writer = Writer::new(Vec::new(alloc));
        write_position(&mut writer, self.position)?;
        write_path(alloc, &mut writer, self.path)?;
        write_message(&mut writer, self.code, self.message)?;
        let Ok(mut line) = String::from_utf8(writer.into_inner()) else {
            unreachable!();
        };
        line.push_str("\n")?;
        Ok(line)
    }
}

// Begins the object, and writes the members of a position.
fn write_position(writer: &mut Writer, position: Position) -> Result<(), AllocError>
    ensures added { OnOk result (writer.new.tokens ≡ writer.old.tokens ++ position_tokens position) }
    ensures before { writer.new.before ≡ writer.old.before }
{
    begin_with_number(writer, "line", position.line)?;
    write_number(writer, "column", position.column)?;
    write_number(writer, "offset", position.offset)
}

// Writes the members of a path.
fn write_path(
    alloc: Global,
    writer: &mut Writer,
    path: Option<&[Segment]>,
) -> Result<(), AllocError>
    ensures added { OnOk result (writer.new.tokens
        ≡ writer.old.tokens ++ path_tokens (option_map (λ path. map segment_of path.now) path.entry)) }
    ensures before { writer.new.before ≡ writer.old.before }
{
    match path {
        Some(path) => write_known_path(alloc, writer, path),
        None => write_no_path(writer),
    }
}

// Writes the members of no path.
fn write_no_path(writer: &mut Writer) -> Result<(), AllocError>
    ensures added { OnOk result (writer.new.tokens ≡ writer.old.tokens ++ path_tokens None) }
    ensures before { writer.new.before ≡ writer.old.before }
{
    write_number(writer, "path", None)?;
    write_number(writer, "pointer", None)
}

// Writes the members of the path to a value.
fn write_known_path(alloc: Global, writer: &mut Writer, path: &[Segment]) -> Result<(), AllocError>
    ensures added { OnOk result
        (writer.new.tokens ≡ writer.old.tokens ++ path_tokens (Some (map segment_of path.now))) }
    ensures before { writer.new.before ≡ writer.old.before }
{
    let mut pointer = String::new(alloc);
    push_pointer(alloc, &mut pointer, path)?;
    writer.key("path")?;
    writer.begin_array()?;
    write_segments(writer, path)?;
    writer.end_array()?;
    writer.key("pointer")?;
    writer.string(pointer.as_str())
}

// Writes the keys and indexes of a path, the last of which comes first.
fn write_segments(writer: &mut Writer, segments: &[Segment]) -> Result<(), AllocError>
    ensures added { OnOk result
        (writer.new.tokens ≡ writer.old.tokens ++ segment_tokens (map segment_of segments.now)) }
    ensures before { writer.new.before ≡ writer.old.before }
{
    let Some((segment, outer_segments)) = segments.split_first() else {
        return Ok(());
    };
    write_segments(writer, outer_segments)?;
    match segment {
        Segment::Key(key) => writer.string(key.as_str()),
        Segment::Element(element_index) => writer.u64(*element_index as u64),
    }
}

// Appends the JSON Pointer of a path, the last segment of which comes first.
fn push_pointer(alloc: Global, pointer: &mut String, segments: &[Segment]) -> Result<(), AllocError>
    ensures { OnOk result
        (string_bytes pointer.new ≡ string_bytes pointer.old ++ json_pointer (map segment_of segments.now)) }
{
    let Some((segment, outer_segments)) = segments.split_first() else {
        return Ok(());
    };
    push_pointer(alloc, pointer, outer_segments)?;
    let reference_token = reference_token(alloc, segment)?;
    pointer.push_str("/")?;
    pointer.push_str(&reference_token)
}

// Returns the part of a JSON Pointer for a segment.
fn reference_token(alloc: Global, segment: &Segment) -> Result<String, AllocError>
    ensures { IfOk result (λ token. string_bytes token ≡ reference_token (segment_of segment.now)) }
{
    match segment {
        Segment::Key(key) => escape_key(alloc, key.as_str()),
        Segment::Element(element_index) => format!(in alloc; "{element_index}"),
    }
}

// Returns a key as a JSON Pointer has it.
fn escape_key(alloc: Global, key: &str) -> Result<String, AllocError>
    ensures { IfOk result (λ escaped. string_bytes escaped ≡ flat_map pointer_char (chars key.now)) }
{
    let mut escaped = String::new(alloc);
    for character in key.chars() {
        push_pointer_char(&mut escaped, character)?;
    }
    Ok(escaped)
}

// Appends a character as a JSON Pointer has it.
fn push_pointer_char(pointer: &mut String, character: char) -> Result<(), AllocError>
    ensures { OnOk result (string_bytes pointer.new ≡ string_bytes pointer.old ++ pointer_char character) }
{
    if character == '~' {
        return pointer.push_str("~0");
    }
    if character == '/' {
        return pointer.push_str("~1");
    }
    pointer.push(character)
}

/// Returns the code of an error: one word that programs compare.
///
/// ```
/// println!(rt; "{}", error_code(&Error::NotJson))?; // not_json
/// ```
pub fn error_code(fault: &Error) -> &'static str
    ensures { result.now ≡ error_code fault.now }
{
    match fault {
        Error::CannotRead => "cannot_read",
        Error::NotJson => "not_json",
        Error::NotExtendedJson(place) => match &place.reason {
            Reason::BadObjectId(_) => "bad_object_id",
            Reason::WrongShape(_) => "not_extended_json",
        },
        Error::NoBytes(_) => "no_bytes",
        Error::NotCanonical(_) => "not_canonical",
        Error::OutOfMemory => "out_of_memory",
        Error::CannotWrite => "cannot_write",
    }
}

/// Returns the diagnostic on the rejected line of this number, in the format of the task.
pub(crate) fn line_diagnostic(
    alloc: Global,
    task: Task,
    number: u64,
    fault: &Error,
    text: &[u8],
) -> Result<String, AllocError>
    ensures { IfOk result
        (λ diagnostic. IsDiagnostic task number fault.now text.now (string_bytes diagnostic)) }
{
    let explanation = explanation_under(alloc, task, fault, text)?;
    let full_message = explained_message(alloc, fault, &explanation, text)?;
    let message = full_message.as_str();
    match task.diagnostics {
        DiagnosticFormat::Text => text_line(alloc, number, message),
        DiagnosticFormat::Json => {
            let position = Position::at(number, explanation.offset(text), text);
            explained_json(alloc, position, fault, &explanation, message)
        }
    }
}

/// Writes the JSON object for an explained error at a position, with this message.
///
/// # Errors
///
/// `AllocError` if an allocation fails.
///
/// ```
/// let text: &[u8] = b"?";
/// let error = Error::NotJson;
/// let explanation = Explanation::of(alloc, false, &error, text)?;
/// let position = Position::at(1, explanation.offset(text), text);
/// rt.print(&explained_json(alloc, position, &error, &explanation, "not JSON")?)?;
/// // {"line":1,"column":1,"offset":0,"path":null,"pointer":null,"code":"not_json","message":"not JSON"}
/// ```
pub fn explained_json(
    alloc: Global,
    position: Position,
    fault: &Error,
    explanation: &Explanation<'_>,
    message: &str,
) -> Result<String, AllocError>
    ensures { IfOk result (λ json. string_bytes json ≡ json_line
        (diagnostic_tokens position (explanation_path explanation.now) (error_code fault.now) message.now)) }
{
    let diagnostic = Diagnostic {
        position,
        path: explanation.path(),
        code: error_code(fault),
        message,
    };
    diagnostic.to_json(alloc)
}

// Returns the message of an explained error: its kind and its path.
fn explained_message(
    alloc: Global,
    fault: &Error,
    explanation: &Explanation<'_>,
    text: &[u8],
) -> Result<String, AllocError>
    ensures { IfOk result
        (λ message. string_bytes message ≡ explained_message fault.now text.now explanation.now) }
{
    let kind = fault.message();
    let position_message = explanation.message(alloc, text)?;
    format!(in alloc; "{kind}{position_message}")
}

// Returns the message after the number of its line, and a newline.
fn text_line(alloc: Global, number: u64, message: &str) -> Result<String, AllocError>
    ensures { IfOk result (λ line. string_bytes line
        ≡ codes "bson: line " ++ decimal number ++ codes ": " ++ message.now ++ newline) }
{
    format!(in alloc; "bson: line {number}: {message}\n")
}
