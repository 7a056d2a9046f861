//! Explains why a text is rejected, and where.
ghost use Rattle.std.specs.Prelude.{◌≡◌, ◌≢◌, ◌⊎◌, ◌↔◌, ◌<◌, ◌++◌, ℕ, List, [], map, string_bytes, IfOk, IfErr, IsUtf8, OnOk};
ghost use Rattle.bson.specs.Value.{Value};
ghost use Rattle.bson_convert.specs.Messages.{error_message};
ghost use Rattle.bson_tree.specs.Place.{segment_of};
ghost use Rattle.vbson.specs.Explain.{AreFieldsOfExplanation, Explains, ExplainsRejection, PathIsTooLong, HasTooLongPath, IsRejectedUnder};
ghost use Rattle.vbson.specs.Explain.{IsRejectionWithFields, ErrorPathIsTooLong, ReportsExplanation};
ghost use Rattle.vbson.specs.Explain.{explanation_code, byte_position, reported_path, explanation_reason};
ghost use Rattle.vbson.specs.Options.{AreInvalid};
ghost use Rattle.vbson.specs.Reading.{MeansUnder};
ghost use Rattle.bson_bytes.specs.declared.error.Error.TheVariants as path_error;
ghost use Rattle.bson_run.specs.declared.explain.Explanation.TheVariants as explanations;

use crate::lines::task_of;
use crate::options::{CallOptions, are_invalid, options_of, preprocessing_of};
use crate::path::path_bytes;
use crate::reading::text_to_read;
use crate::status;
use crate::text::{Text, append_nul, text_before_nul};
use bson_bytes::error::Error as PathError;
use bson_convert::check::check;
use bson_convert::error::Error;
use bson_model::laws::reading_in_each_mode;
use bson_run::explain::{Explanation, explanation_under};
use bson_run::position::{column_at, line_at};
use bson_run::preprocessed::preprocess_text;
use bson_run::task::{Criterion, Output};
use bson_tokens::laws::one_duplicate_path;
use bson_tree::place::{Reason, Segment};
use std::alloc::{AllocError, Global};

/// Why a text or a document is rejected, and where. The caller frees each text by `free`.
#[repr(C)]
#[derive(Drop)]
pub struct Rejection<'a> {
    /// The status of the error, or `OK` if the input is accepted.
    pub code: u32,
    /// The line of the text, from 1, on which it stops to be JSON, or on which the invalid value begins.
    /// It is 0 if the text does not have that value, and for a document.
    pub line: usize,
    /// The first byte of the error in that line, from 1; or 0.
    pub column: usize,
    /// The number of bytes of the text before that byte; or 0. If the code is `NOT_A_DOCUMENT`, the number
    /// of bytes before the first fault.
    pub offset: usize,
    /// The path to the invalid value: the bytes of an array of keys and indexes. It has no element
    /// if the error is that of the whole text.
    pub path: Text<'a>,
    /// What is wrong.
    pub reason: Text<'a>,
    /// The message, on one line.
    pub message: Text<'a>,
}

/// Explains why a text is rejected, and where. The code is 0, and the message is empty, if the text
/// is accepted. All options are accepted. This explains the status of `vbson_convert_nonnull` and
/// `vbson_same_nonnull`; the order of keys and the layout change nothing here.
///
/// With `v1` the path leads into the text that is read instead. The place and the quote are those of the
/// value in the text itself, if that text has the same value at the path.
#[unsafe(no_mangle)]
pub extern "C" fn vbson_explain_nonnull(
    alloc: Global,
    options: &CallOptions,
    text: &[u8],
    out: &mut Rejection<'static>,
) -> u32
    ensures success { result ≡ 0 → Explains options.now text.now out.new }
    // The code is 0 if and only if the text means a value.
    ensures accepted { result ≡ 0 → out.new.code ≡ 0 → (value : Value) × MeansUnder options.now text.now value }
    ensures accepts { (value : Value) → MeansUnder options.now text.now value → result ≡ 0 → out.new.code ≡ 0 }

    // When each other status comes, and that nothing is left then.
    ensures invalid_argument { result ≡ 1 ↔ AreInvalid options.now }
    ensures too_long { result ≡ 13 → ErrorPathIsTooLong options.now text.now }
    ensures possible_statuses { (result ≡ 0) ⊎ (result ≡ 1) ⊎ (result ≡ 5) ⊎ (result ≡ 13) }
    ensures unchanged { 0 < result → out.new ≡ out.old }
{
    if are_invalid(*options) {
        return status::INVALID_ARGUMENT;
    }
    // A law: a text with a duplicate key does not have unique keys.
    one_duplicate_path();
    match explain_text(alloc, *options, text) {
        Ok(rejection) => *out = rejection,
        Err(PathError::OutOfMemory) => return status::OUT_OF_MEMORY,
        Err(PathError::Key) => return status::TOO_LONG,
        Err(PathError::Regex) => return status::TOO_LONG,
        Err(PathError::Size) => return status::TOO_LONG,
    }
    status::OK
}

// Explains the text, under the options.
fn explain_text(
    alloc: Global,
    options: CallOptions,
    text: &[u8],
) -> Result<Rejection<'static>, PathError>
    ensures error_report { IfOk result (λ rejection. Explains options text.now rejection) }
    ensures too_long { IfErr result (λ error. error ≢ path_error.OutOfMemory → ErrorPathIsTooLong options text.now) }
{
    match check_under(alloc, options, text) {
        Ok(()) => empty_rejection(alloc),
        Err(Error::OutOfMemory) => Err(PathError::OutOfMemory),
        Err(fault) => rejection_of_error(alloc, options, &fault, text),
    }
}

// Checks that the text means a value, under the options.
fn check_under(alloc: Global, options: CallOptions, text: &[u8]) -> Result<(), Error>
    ensures accepted { OnOk result ((value : Value) × MeansUnder options text.now value) }
    ensures rejected { IfErr result (λ fault. IsRejectedUnder options fault text.now) }
{
    // A law: a tree means at most one value, which is plain and writable.
    reading_in_each_mode();
    let new_text = preprocess_text(alloc, preprocessing_of(options), text)?;
    check(alloc, options_of(options), text_to_read(&new_text, text))
}

// Returns the error struct of an accepted text.
fn empty_rejection(alloc: Global) -> Result<Rejection<'static>, PathError>
    ensures error_report { IfOk result (λ rejection. ReportsExplanation [] explanations.Other [] rejection) }
    ensures memory { IfErr result (λ error. error ≡ path_error.OutOfMemory) }
{
    let fields = rejection_fields_of(alloc, &Explanation::Other, b"")?;
    Ok(rejection_with_fields(fields, String::new(alloc))?)
}

// Returns the error struct for an error of the text, under the options.
fn rejection_of_error(
    alloc: Global,
    options: CallOptions,
    fault: &Error,
    text: &[u8],
) -> Result<Rejection<'static>, PathError>
    requires rejected { IsRejectedUnder options fault.now text.now }
    requires reported { fault.now ≢ Error.OutOfMemory }
    ensures error_report { IfOk result (λ rejection. ExplainsRejection options text.now rejection) }
    ensures too_long { IfErr result (λ error. error ≢ path_error.OutOfMemory → HasTooLongPath fault.now) }
{
    let task = task_of(options, Output::Nothing(Criterion::Valid));
    let explanation = explanation_under(alloc, task, fault, text)?;
    let place_message = explanation.message(alloc, text)?;
    let message = full_message(alloc, fault, &place_message)?;
    let fields = rejection_fields_of(alloc, &explanation, text)?;
    Ok(rejection_with_fields(fields, message)?)
}

// Returns the message of a fault and its path.
fn full_message(alloc: Global, fault: &Error, place_message: &str) -> Result<String, AllocError>
    ensures { IfOk result (λ message. string_bytes message ≡ error_message fault.now ++ place_message.now) }
{
    let description = fault.message();
    format!(in alloc; "{description}{place_message}")
}

// Where an error begins in a text: the line and the column, from 1, and the offset. All are 0 if that is
// unknown.
#[derive(Clone, Copy)]
pub(crate) struct BytePosition {
    pub(crate) line: usize,
    pub(crate) column: usize,
    pub(crate) offset: usize,
}

// The fields of the error struct, without its message.
#[derive(Drop)]
pub(crate) struct RejectionFields {
    pub(crate) code: u32,
    pub(crate) position: BytePosition,
    pub(crate) path: Vec<u8>,
    pub(crate) reason: String,
}

// Returns the error struct with these fields.
pub(crate) fn rejection_with_fields(
    fields: RejectionFields,
    message: String,
) -> Result<Rejection<'static>, AllocError>
    ensures { IfOk result (IsRejectionWithFields fields (string_bytes message)) }
{
    let RejectionFields {
        code,
        position,
        path,
        reason,
    } = fields;
    // (a text that is made is not freed here, so all memory is requested before)
    let path = append_nul(path)?;
    let reason = append_nul(reason.into_bytes())?;
    let message = append_nul(message.into_bytes())?;
    Ok(Rejection {
        code,
        line: position.line,
        column: position.column,
        offset: position.offset,
        path: text_before_nul(path),
        reason: text_before_nul(reason),
        message: text_before_nul(message),
    })
}

// Returns the fields of the error struct for an explanation of an error of the text.
fn rejection_fields_of(
    alloc: Global,
    explanation: &Explanation<'_>,
    text: &[u8],
) -> Result<RejectionFields, PathError>
    ensures error_report { IfOk result (λ fields. AreFieldsOfExplanation text.now explanation.now fields) }
    ensures too_long { IfErr result (λ error. error ≢ path_error.OutOfMemory → PathIsTooLong explanation.now) }
{
    let path = path_bytes(alloc, segments_of(explanation))?;
    let reason = String::from_str(alloc, reason_of(explanation))?;
    Ok(RejectionFields {
        code: code_of(explanation),
        position: byte_position(explanation.offset(text), text),
        path,
        reason,
    })
}

// Returns the status of an explained error, or 0 if there is no error.
fn code_of(explanation: &Explanation<'_>) -> u32
    ensures { result ≡ explanation_code explanation.now }
{
    match explanation {
        Explanation::Syntax(_) => status::NOT_JSON,
        Explanation::Value { place, .. } => match &place.reason {
            Reason::BadObjectId(_) => status::BAD_OBJECT_ID,
            Reason::WrongShape(_) => status::NOT_EXTENDED_JSON,
        },
        Explanation::Difference(_) => status::NOT_CANONICAL,
        Explanation::Other => status::OK,
    }
}

// Returns the position of the byte at an offset of the text.
fn byte_position(offset: Option<usize>, text: &[u8]) -> BytePosition
    ensures { result ≡ byte_position text.now offset }
{
    match offset {
        Some(offset) => BytePosition {
            line: line_at(offset, text),
            column: column_at(offset, text),
            offset,
        },
        None => BytePosition {
            line: 0,
            column: 0,
            offset: 0,
        },
    }
}

// Returns the path segments that lead to the invalid value, from the value outward.
fn segments_of<'a>(explanation: &'a Explanation<'_>) -> &'a [Segment]
    ensures { map segment_of result.now ≡ reported_path explanation.now }
{
    match explanation {
        Explanation::Value { place, .. } => place.segments.as_slice(),
        _ => &[],
    }
}

// Returns what is wrong.
fn reason_of<'a>(explanation: &'a Explanation<'_>) -> &'a str
    ensures { result.now ≡ explanation_reason explanation.now }
{
    match explanation {
        Explanation::Syntax(syntax_error) => syntax_error.rule.message(),
        Explanation::Value { reason, .. } => reason.as_str(),
        Explanation::Difference(_) | Explanation::Other => "",
    }
}
