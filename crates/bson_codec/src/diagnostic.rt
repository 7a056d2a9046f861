//! The format of diagnostics, and the members of their JSON objects.
ghost use Rattle.std.specs.Prelude.{◌≡◌, ◌++◌, IfOk, OnOk};
ghost use Rattle.bson_codec.specs.Diagnostics.{first_number_tokens, message_tokens, number_tokens, text_tokens};

use json::Writer;
use std::alloc::{AllocError, Global};

/// The format of diagnostics, on lines and on documents.
///
/// ```
/// let mut input: &[u8] = b"\x05\0\0\0\0\x05\0\0";
/// let (mut output, mut reported) = (Vec::new(alloc), Vec::new(alloc));
/// let run = Run::default();
/// if let Err(end) = run_documents(alloc, run, &mut input, &mut output, &mut reported) {
///     rt.print(&end.to_line(alloc, DiagnosticFormat::Text)?)?; // document 2 at byte 5: ends too early at its byte 0
///     rt.print(&end.to_line(alloc, DiagnosticFormat::Json)?)?;
///     // {"document":2,"start":5,"offset":0,"code":"malformed","message":"ends too early at its byte 0"}
/// }
/// ```
#[derive(Clone, Copy, PartialEq, Eq, Debug)]
pub enum DiagnosticFormat {
    /// A message for people, on one line.
    Text,
    /// A JSON object, on one line.
    Json,
}

/// Begins an object, and writes its first member: a number.
///
/// # Errors
///
/// `AllocError` if an allocation fails.
pub fn begin_with_number(writer: &mut Writer, name: &str, number: u64) -> Result<(), AllocError>
    ensures added { OnOk result (writer.new.tokens ≡ writer.old.tokens ++ first_number_tokens name.now number) }
    ensures before { writer.new.before ≡ writer.old.before }
{
    writer.begin_object()?;
    writer.key(name)?;
    writer.u64(number)
}

/// Writes a member with a number, or null.
///
/// # Errors
///
/// `AllocError` if an allocation fails.
pub fn write_number(
    writer: &mut Writer,
    name: &str,
    number: Option<usize>,
) -> Result<(), AllocError>
    ensures added { OnOk result (writer.new.tokens ≡ writer.old.tokens ++ number_tokens name.now number) }
    ensures before { writer.new.before ≡ writer.old.before }
{
    writer.key(name)?;
    match number {
        Some(number) => writer.u64(number as u64),
        None => writer.null(),
    }
}

/// Writes the members `code` and `message` to an object that has begun, and ends the object.
///
/// # Errors
///
/// `AllocError` if an allocation fails.
pub fn write_message(writer: &mut Writer, code: &str, message: &str) -> Result<(), AllocError>
    ensures added { OnOk result (writer.new.tokens ≡ writer.old.tokens ++ message_tokens code.now message.now) }
    ensures before { writer.new.before ≡ writer.old.before }
{
    write_text(writer, "code", code)?;
    write_text(writer, "message", message)?;
    writer.end_object()
}

// Writes a member with a string.
fn write_text(writer: &mut Writer, name: &str, text: &str) -> Result<(), AllocError>
    ensures added { OnOk result (writer.new.tokens ≡ writer.old.tokens ++ text_tokens name.now text.now) }
    ensures before { writer.new.before ≡ writer.old.before }
{
    writer.key(name)?;
    writer.string(text)
}
