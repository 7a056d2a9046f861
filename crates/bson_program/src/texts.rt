//! A run over the texts of an input: one text, on any number of lines, or several, one after the other, or the
//! elements of an array.
ghost use Rattle.std.specs.Prelude.{◌≡◌, ℕ, List, Option, IfOk, IfErr, OnOk, false, nat_lt, length, true};
ghost use Rattle.bson_json.specs.Sequence.{texts_in};
ghost use Rattle.bson_json.specs.declared.sequence.Separator.TheVariants.{WhiteSpace};
ghost use Rattle.bson_program.specs.Texts.{CannotWriteAccepted, WritesTextOutput, StopsAt, StopsOn, FailsAtText, ConvertsTexts, FailsOnInput};
ghost use Rattle.bson_program.specs.Texts.{IsNotJson, IsTextAmong, IsWithin, WritesAcceptedText, WritesAllTexts, WritesElements};
ghost use Rattle.bson_program.specs.Texts.{content_of, is_sequence, byte_order_mark_of, reads_several};
ghost use Rattle.bson_program.specs.SingleText.{IsTextRejected};

use crate::hints::has_non_whitespace;
use crate::invocation::{Invocation, STDIO};
use crate::run::RunFailure;
use crate::single_text::accept_single_text;
use crate::text_errors::{InputText, error_report};
use bson::extjson::Doubles;
use bson_convert::error::Error;
use bson_convert::fault::Fault;
use bson_convert::stream::read_whole;
use bson_json::sequence::{Separator, array_elements, split_text};
use bson_run::accepted::Accepted;
use bson_run::task::{Criterion, Output};
use std::alloc::Global;
use std::io::{Read, Write};

/// The first bytes that a named file may have, unless its text has to be canonical.
pub const BYTE_ORDER_MARK: &[u8] = b"\xef\xbb\xbf";

/// A sequence of texts in an input.
#[derive(Clone, Copy)]
struct TextSequence<'a> {
    /// What is between the texts.
    separator: Separator,
    /// All bytes of the input after a byte order mark.
    content: &'a [u8],
    /// How many of them come before the end of the sequence.
    end: usize,
    bytes: &'a [u8],
}

/// Converts the texts of the file of this name. All its bytes are one text, or else a sequence of
/// texts with white space between. Each text of a sequence is converted and written before the next.
/// A strict run reads one text, and so does a check of canonical text. If the run reads an array, the
/// texts are its elements, also in a strict run.
///
/// If a text is rejected, the failure has the line of an error in JSON, or the line on which a wrong
/// value begins. For any other error, and for a value of an input of one line, it has the line on which
/// the text begins, or no line (0) if the text is all bytes. The cause of a failed reader or writer is
/// known to the reader or writer.
pub fn convert_texts<'a, R: Read, W: Write>(
    alloc: Global,
    invocation: &'a Invocation,
    file_name: &'a str,
    reader: &mut R,
    writer: &mut W,
) -> Result<(), RunFailure<'a>>
    ensures done { OnOk result
        (ConvertsTexts invocation.now file_name.now (R.remaining reader.old) (R.remaining reader.new)
        (W.contents writer.old) (W.contents writer.new)) }
    ensures stops { IfErr result (λ failure. FailsOnInput invocation.now failure file_name.now (R.remaining reader.old)
        (R.remaining reader.new) (W.contents writer.old) (W.contents writer.new)) }
{
    let bytes = match read_whole(alloc, reader) {
        Ok(bytes) => bytes,
        Err(Fault::CannotRead) => return Err(RunFailure::Input(file_name, None)),
        Err(_) => return Err(RunFailure::Text(
            file_name,
            0,
            Error::OutOfMemory,
            String::new(alloc),
        )),
    };
    let content = content_of(invocation, file_name, &bytes);
    if invocation.reads_array {
        return convert_array(alloc, invocation, file_name, content, writer);
    }
    let accepted = match accept_single_text(alloc, invocation, content) {
        Ok(accepted) => accepted,
        Err(fault) => {
            if is_read_as_sequence(invocation, &fault, content) {
                let sequence = TextSequence {
                    separator: Separator::WhiteSpace,
                    content,
                    end: content.len(),
                    bytes: content,
                };
                return convert_sequence(alloc, invocation, file_name, sequence, writer);
            }
            return Err(text_failure(
                alloc,
                invocation,
                file_name,
                fault,
                InputText::whole(content),
            ));
        }
    };
    drop(bytes);
    write_accepted(alloc, invocation, file_name, accepted, writer)
}

// Returns the bytes of an input after its byte order mark, if it may have one.
fn content_of<'a>(invocation: &Invocation, file_name: &str, bytes: &'a [u8]) -> &'a [u8]
    ensures { result.now ≡ content_of invocation.now file_name.now bytes.now }
{
    let byte_order_mark = byte_order_mark_of(invocation, file_name);
    if bytes.starts_with(byte_order_mark) {
        &bytes[byte_order_mark.len()..]
    } else {
        bytes
    }
}

// Returns what may come before the text of an input.
fn byte_order_mark_of(invocation: &Invocation, file_name: &str) -> &'static [u8]
    ensures { result.now ≡ byte_order_mark_of invocation.now file_name.now }
{
    if file_name == STDIO {
        return b"";
    }
    match invocation.task.output {
        Output::Nothing(Criterion::Canonical) => b"",
        _ => BYTE_ORDER_MARK,
    }
}

// Returns whether bytes with this error are read as a sequence.
fn is_read_as_sequence(invocation: &Invocation, fault: &Error, content: &[u8]) -> bool
    ensures not_json { result ≡ true → fault.now ≡ Error.NotJson }
    ensures several { result ≡ true → is_sequence invocation.now content.now ≡ true }
    ensures not_sequence { result ≡ false → fault.now ≡ Error.NotJson → is_sequence invocation.now content.now ≡ false }
{
    match fault {
        Error::NotJson => is_sequence(invocation, content),
        _ => false,
    }
}

// Returns whether there are several texts, and they are read.
fn is_sequence(invocation: &Invocation, content: &[u8]) -> bool
    ensures { result ≡ is_sequence invocation.now content.now }
{
    if reads_several(invocation.options.doubles, invocation.task.output) {
        has_two_texts(content)
    } else {
        false
    }
}

/// Returns whether several texts are read of an input.
pub fn reads_several(doubles: Doubles, output: Output) -> bool
    ensures { result ≡ reads_several doubles output }
{
    match doubles {
        Doubles::Special => false,
        Doubles::Finite => !matches!(output, Output::Nothing(Criterion::Canonical)),
    }
}

// Returns whether there are two texts or more.
fn has_two_texts(content: &[u8]) -> bool
    ensures { result ≡ nat_lt 1 (length (texts_in WhiteSpace content.now)) }
{
    let mut remaining_bytes = content;
    let mut has_first_text = false;
    while !remaining_bytes.is_empty() {
        let (text, after_text) = split_text(Separator::WhiteSpace, remaining_bytes);
        if Separator::WhiteSpace.is_text(text) {
            if has_first_text {
                return true;
            }
            has_first_text = true;
        }
        remaining_bytes = after_text;
    }
    false
}

// Converts the elements of an array.
fn convert_array<'a, W: Write>(
    alloc: Global,
    invocation: &'a Invocation,
    file_name: &'a str,
    content: &[u8],
    writer: &mut W,
) -> Result<(), RunFailure<'a>>
    ensures done { OnOk result
        (WritesElements invocation.now content.now (W.contents writer.old) (W.contents writer.new)) }
    ensures stops { IfErr result (λ failure. StopsOn true invocation.now failure file_name.now content.now
        (W.contents writer.old) (W.contents writer.new)) }
{
    let Some((bytes, end)) = array_elements(content) else {
        return Err(RunFailure::NotArray(file_name));
    };
    if has_non_whitespace(bytes) {
        let sequence = TextSequence {
            separator: Separator::Comma,
            content,
            end,
            bytes,
        };
        return convert_sequence(alloc, invocation, file_name, sequence, writer);
    }
    Ok(())
}

// Converts the texts of a sequence.
fn convert_sequence<'a, W: Write>(
    alloc: Global,
    invocation: &'a Invocation,
    file_name: &'a str,
    sequence: TextSequence<'_>,
    writer: &mut W,
) -> Result<(), RunFailure<'a>>
    ensures done { OnOk result
        (WritesAllTexts invocation.now (texts_in sequence.entry.separator sequence.entry.bytes.now)
        (W.contents writer.old) (W.contents writer.new)) }
    ensures stops { IsWithin sequence.entry.content.now sequence.entry.bytes.now sequence.entry.end
        → IfErr result (λ failure. StopsAt
        (IsTextAmong invocation.now (texts_in sequence.entry.separator sequence.entry.bytes.now) sequence.entry.content.now)
        invocation.now failure file_name.now sequence.entry.content.now (W.contents writer.old) (W.contents writer.new)) }
{
    let mut remaining_bytes = sequence.bytes;
    let mut has_more = true;
    while has_more {
        let (text, after_text) = split_text(sequence.separator, remaining_bytes);
        has_more = text.len() < remaining_bytes.len();
        if sequence.separator.is_text(text) {
            let input_text = InputText {
                content: sequence.content,
                start: sequence.end.saturating_sub(remaining_bytes.len()),
                text,
            };
            convert_text(alloc, invocation, file_name, input_text, writer)?;
        }
        remaining_bytes = after_text;
    }
    Ok(())
}

// Converts a text of a sequence.
fn convert_text<'a, W: Write>(
    alloc: Global,
    invocation: &'a Invocation,
    file_name: &'a str,
    input_text: InputText<'_>,
    writer: &mut W,
) -> Result<(), RunFailure<'a>>
    ensures done { OnOk result
        (WritesTextOutput invocation.now input_text.entry.text.now (W.contents writer.old) (W.contents writer.new)) }
    ensures stops { IfErr result
        (λ failure. FailsAtText invocation.now failure file_name.now input_text.entry.content.now input_text.entry.start input_text.entry.text.now
        (W.contents writer.old) (W.contents writer.new)) }
{
    match accept_single_text(alloc, invocation, input_text.text) {
        Ok(accepted) => write_accepted(alloc, invocation, file_name, accepted, writer),
        Err(fault) => Err(text_failure(alloc, invocation, file_name, fault, input_text)),
    }
}

// Writes the output of a text that was accepted.
fn write_accepted<'a, W: Write>(
    alloc: Global,
    invocation: &'a Invocation,
    file_name: &'a str,
    accepted: Accepted,
    writer: &mut W,
) -> Result<(), RunFailure<'a>>
    ensures done { OnOk result
        (WritesAcceptedText invocation.now accepted (W.contents writer.old) (W.contents writer.new)) }
    ensures stops { IfErr result (λ failure. CannotWriteAccepted invocation.now failure file_name.now accepted
        (W.contents writer.old) (W.contents writer.new)) }
{
    // (no other error is possible, since the text was accepted with these options)
    let Ok(output) = accepted.output(alloc, invocation.options) else {
        return Err(RunFailure::Text(file_name, 0, Error::OutOfMemory, String::new(alloc)));
    };
    match writer.write_all(&output) {
        Ok(()) => Ok(()),
        Err(_) => Err(RunFailure::Output(invocation.output.as_str(), None)),
    }
}

// Returns the failure at a text that was rejected, with its line and the report of the error.
fn text_failure<'a>(
    alloc: Global,
    invocation: &Invocation,
    file_name: &'a str,
    fault: Error,
    input_text: InputText<'_>,
) -> RunFailure<'a>
    ensures not_json { IsNotJson result → fault ≡ Error.NotJson }
    ensures stops { (output_before : Option (List ℕ))
        → IsTextRejected invocation.now.options invocation.now.task fault input_text.entry.text.now
        → FailsAtText invocation.now result file_name.now input_text.entry.content.now input_text.entry.start input_text.entry.text.now output_before output_before }
{
    if fault.is_out_of_memory() {
        return RunFailure::Text(file_name, 0, fault, String::new(alloc));
    }
    match error_report(alloc, invocation.task, &fault, input_text) {
        Ok((line_number, report)) => RunFailure::Text(file_name, line_number, fault, report),
        Err(_) => RunFailure::Text(file_name, 0, Error::OutOfMemory, String::new(alloc)),
    }
}
