//! Which mistake a rejected text makes, and what reads it.
ghost use Rattle.std.specs.Prelude.{◌≡◌, ◌<◌, ◌⊎◌, ◌||◌, IfSome, length, true};
ghost use Rattle.bson_run.specs.ErrorMessages.{IsSubslice};
ghost use Rattle.bson_program.specs.Hints.{IsAdvice, IsAdviceFor, IsSyntaxAdvice, IsReadUpgraded, IsReadWithV1, IsSplit};
ghost use Rattle.bson_program.specs.Hints.{advice_for_trailing_data, advice_for_bytes, advice_for_rule};
ghost use Rattle.bson_program.specs.Hints.{ends_at_finite_double, is_number_error, is_number_reason};
ghost use Rattle.bson_program.specs.Hints.{is_canonical, is_comment, is_python_or_js_literal, is_not_finite, is_shell_call, is_shell_value};

use crate::hints::{has_non_whitespace, split_first_line, starts_json_text};
use crate::invocation::{Input, Invocation};
use crate::progress::FIRST_BYTES_LEN;
use crate::run::RunFailure;
use crate::single_text::accept_single_text;
use crate::texts::{BYTE_ORDER_MARK, reads_several};
use bson::extjson::{Doubles, Options};
use bson_codec::run_end::RunFault;
use bson_convert::check::check;
use bson_convert::encode_error::NoBytes;
use bson_convert::error::Error;
use bson_json::sequence::{Separator, split_text};
use bson_run::lines::Counts;
use bson_run::preprocessed::preprocess_text;
use bson_run::rule::Rule;
use bson_run::syntax_error::SyntaxError;
use bson_run::task::{Criterion, Output, Preprocessing};
use bson_scalar::doubles::NUMBER_MESSAGE;
use bson_tree::place::Reason;
use std::alloc::Global;

/// The advice for a text that was rejected.
#[derive(Clone, Copy, PartialEq, Eq)]
pub enum Advice {
    /// Numbers that `--strict` alone rejects.
    FiniteDoubles,
    /// Several texts, which `--strict` rejects.
    SeveralTexts,
    /// Values as the mongo shell prints them.
    MongoShellValue,
    /// `NaN` or an infinity, which are not JSON.
    NotFinite,
    /// `NaN` or an infinity in a text that `--v1` reads.
    NotFiniteV1,
    /// Names of Python or JavaScript for values of JSON.
    PythonOrJsLiterals,
    /// A comment.
    Comment,
    /// Several texts without white space between them, or on a line that may have one.
    SeveralTextsOnOneLine,
    /// A control character in a string.
    ControlCharacter,
    /// Bytes that are not UTF-8.
    NotUtf8,
    /// Extended JSON v1, which `--v1` reads.
    V1,
    /// A value that is not a document, where bytes are made.
    NotADocument,
}

/// Returns what helps with an input at which a run ended, whose first bytes these are.
pub fn advice_for(
    alloc: Global,
    invocation: &Invocation,
    first_bytes: &[u8],
    has_finite_double: bool,
    run_result: &Result<Counts, RunFailure<'_>>,
) -> Option<Advice>
    ensures { IfSome result
        (λ advice. ((advice ≡ Advice.FiniteDoubles)
        × (has_finite_double || ends_at_finite_double invocation.now.options.doubles run_result.now ≡ true))
        ⊎ IsAdvice invocation.now first_bytes.now advice) }
{
    if has_finite_double || ends_at_finite_double(invocation.options, run_result) {
        return Some(Advice::FiniteDoubles);
    }
    match run_result {
        Err(RunFailure::Text(_, _, _, _)) if !invocation.reads_array => {
            first_advice(
                alloc,
                invocation,
                without_cut_off_end(invocation.input, without_byte_order_mark(first_bytes)),
            )
        }
        _ => None,
    }
}

// Returns whether a run ended at a finite double that is read without `--strict`.
fn ends_at_finite_double(options: Options, run_result: &Result<Counts, RunFailure<'_>>) -> bool
    ensures { result ≡ ends_at_finite_double options.doubles run_result.now }
{
    if options.doubles == Doubles::Finite {
        return false;
    }
    match run_result {
        Err(RunFailure::Text(_, _, fault, _)) => is_number_error(fault),
        Err(RunFailure::Document(_, run_end)) => run_end.fault == RunFault::FiniteDouble,
        _ => false,
    }
}

// Returns whether a value is a number that is not a 64-bit integer.
fn is_number_error(fault: &Error) -> bool
    ensures { result ≡ is_number_error fault.now }
{
    match fault {
        Error::NotExtendedJson(place) => is_number_reason(&place.reason),
        _ => false,
    }
}

fn is_number_reason(reason: &Reason) -> bool
    ensures { result ≡ is_number_reason reason.now }
{
    match reason {
        Reason::WrongShape(message) => *message == NUMBER_MESSAGE,
        Reason::BadObjectId(_) => false,
    }
}

// Returns the bytes after a byte order mark.
fn without_byte_order_mark(first_bytes: &[u8]) -> &[u8]
    ensures { IsSubslice result.now first_bytes.now }
{
    if first_bytes.starts_with(BYTE_ORDER_MARK) {
        &first_bytes[BYTE_ORDER_MARK.len()..]
    } else {
        first_bytes
    }
}

// Returns the bytes without the last ones, if more may follow: whole lines, or whole characters.
fn without_cut_off_end(input: Input, first_bytes: &[u8]) -> &[u8]
    ensures { IsSubslice result.now first_bytes.now }
{
    if first_bytes.len() < FIRST_BYTES_LEN {
        return first_bytes;
    }
    let reversed_bytes = first_bytes.iter().rev();
    let cut_off_len = match input {
        Input::Lines => reversed_bytes.take_while(|byte| **byte != b'\n').count(),
        _ => reversed_bytes.take_while(|byte| !byte.is_ascii()).count(),
    };
    &first_bytes[..first_bytes.len().saturating_sub(cut_off_len)]
}

// Returns what helps with the first text that is rejected.
fn first_advice(alloc: Global, invocation: &Invocation, first_bytes: &[u8]) -> Option<Advice>
    ensures { IfSome result (IsAdvice invocation.now first_bytes.now) }
{
    let mut remaining_bytes = first_bytes;
    while !remaining_bytes.is_empty() {
        let (text, after_text) = next_text(invocation, remaining_bytes);
        if has_non_whitespace(text) {
            if let Err(fault) = accept_single_text(alloc, invocation, text) {
                return advice_for_error(alloc, invocation, &fault, text);
            }
        }
        remaining_bytes = after_text;
    }
    None
}

// Returns the next text of an input, and the bytes after it.
fn next_text<'a>(invocation: &Invocation, remaining_bytes: &'a [u8]) -> (&'a [u8], &'a [u8])
    ensures split { IsSplit remaining_bytes.now result.0.now result.1.now }
    ensures shorter { 0 < length remaining_bytes.now → length result.1.now < length remaining_bytes.now }
{
    if invocation.input == Input::Lines {
        return split_first_line(remaining_bytes);
    }
    if reads_several(invocation.options.doubles, invocation.task.output) {
        return split_text(Separator::WhiteSpace, remaining_bytes);
    }
    (remaining_bytes, b"")
}

// Returns what helps with a text that was rejected with this error.
fn advice_for_error(
    alloc: Global,
    invocation: &Invocation,
    fault: &Error,
    text: &[u8],
) -> Option<Advice>
    ensures { IfSome result (IsAdviceFor invocation.now fault.now text.now) }
{
    match fault {
        Error::NotJson => match advice_for_syntax_error(alloc, invocation, text) {
            Some(Advice::NotFinite) if reads_with_v1(alloc, invocation, text) => {
                Some(Advice::NotFiniteV1)
            }
            advice => advice,
        },
        Error::NotExtendedJson(_) => advice_for_value_error(alloc, invocation, text),
        Error::NoBytes(NoBytes::NoDocument) => Some(Advice::NotADocument),
        _ => None,
    }
}

// Returns what helps with a text that is not JSON.
fn advice_for_syntax_error(alloc: Global, invocation: &Invocation, text: &[u8]) -> Option<Advice>
    ensures { IfSome result (IsSyntaxAdvice invocation.now text.now) }
{
    let Ok(json_error) = SyntaxError::of(alloc, invocation.task.preprocessing.v1, text) else {
        return None;
    };
    if json_error.rule == Rule::TrailingData && is_canonical(invocation.task.output) {
        return None;
    }
    let remaining_bytes = &text[json_error.offset.min(text.len())..];
    advice_for_rule(
        invocation.input,
        invocation.options.doubles,
        json_error.rule,
        remaining_bytes,
    )
}

// Returns whether a text has to be canonical, which no sequence of texts is.
fn is_canonical(output: Output) -> bool
    ensures { result ≡ is_canonical output }
{
    matches!(output, Output::Nothing(Criterion::Canonical))
}

// Returns what helps by the rule that a text breaks, and the bytes from where it does.
fn advice_for_rule(
    input: Input,
    doubles: Doubles,
    rule: Rule,
    remaining_bytes: &[u8],
) -> Option<Advice>
    ensures { result ≡ advice_for_rule input doubles rule remaining_bytes.now }
{
    match rule {
        Rule::Utf8 => Some(Advice::NotUtf8),
        Rule::ControlCharacter => Some(Advice::ControlCharacter),
        Rule::TrailingData => advice_for_trailing_data(input, doubles, remaining_bytes),
        _ => advice_for_bytes(remaining_bytes),
    }
}

// Returns what helps by the bytes after a text.
fn advice_for_trailing_data(
    input: Input,
    doubles: Doubles,
    remaining_bytes: &[u8],
) -> Option<Advice>
    ensures { result ≡ advice_for_trailing_data input doubles remaining_bytes.now }
{
    match (input, doubles) {
        (Input::Text, Doubles::Special) => Some(Advice::SeveralTexts),
        _ if starts_json_text(remaining_bytes) => Some(Advice::SeveralTextsOnOneLine),
        _ => advice_for_bytes(remaining_bytes),
    }
}

// Returns what helps by the bytes from where a text is not JSON.
fn advice_for_bytes(remaining_bytes: &[u8]) -> Option<Advice>
    ensures { result ≡ advice_for_bytes remaining_bytes.now }
{
    if is_comment(remaining_bytes) {
        return Some(Advice::Comment);
    }
    if is_shell_call(remaining_bytes) || is_shell_value(remaining_bytes) {
        return Some(Advice::MongoShellValue);
    }
    if is_not_finite(remaining_bytes) {
        return Some(Advice::NotFinite);
    }
    if is_python_or_js_literal(remaining_bytes) {
        return Some(Advice::PythonOrJsLiterals);
    }
    None
}

fn is_comment(remaining_bytes: &[u8]) -> bool
    ensures { result ≡ is_comment remaining_bytes.now }
{
    remaining_bytes.starts_with(b"//") || remaining_bytes.starts_with(b"/*")
}

fn is_shell_call(remaining_bytes: &[u8]) -> bool
    ensures { result ≡ is_shell_call remaining_bytes.now }
{
    remaining_bytes.starts_with(b"ObjectId(")
        || remaining_bytes.starts_with(b"ISODate(")
        || remaining_bytes.starts_with(b"NumberLong(")
        || remaining_bytes.starts_with(b"NumberInt(")
        || remaining_bytes.starts_with(b"NumberDecimal(")
        || remaining_bytes.starts_with(b"Timestamp(")
        || remaining_bytes.starts_with(b"BinData(")
        || remaining_bytes.starts_with(b"UUID(")
        || remaining_bytes.starts_with(b"DBRef(")
}

fn is_shell_value(remaining_bytes: &[u8]) -> bool
    ensures { result ≡ is_shell_value remaining_bytes.now }
{
    remaining_bytes.starts_with(b"/")
        || remaining_bytes.starts_with(b"new ")
        || remaining_bytes.starts_with(b"MinKey")
        || remaining_bytes.starts_with(b"MaxKey")
        || remaining_bytes.starts_with(b"Long(")
        || remaining_bytes.starts_with(b"Int32(")
        || remaining_bytes.starts_with(b"Double(")
        || remaining_bytes.starts_with(b"Decimal128(")
}

fn is_not_finite(remaining_bytes: &[u8]) -> bool
    ensures { result ≡ is_not_finite remaining_bytes.now }
{
    remaining_bytes.starts_with(b"NaN")
        || remaining_bytes.starts_with(b"Infinity")
        || remaining_bytes.starts_with(b"-Infinity")
}

fn is_python_or_js_literal(remaining_bytes: &[u8]) -> bool
    ensures { result ≡ is_python_or_js_literal remaining_bytes.now }
{
    remaining_bytes.starts_with(b"True")
        || remaining_bytes.starts_with(b"False")
        || remaining_bytes.starts_with(b"None")
        || remaining_bytes.starts_with(b"undefined")
}

// Returns what helps with a text that is not Extended JSON: `--v1`, if it reads the text.
fn advice_for_value_error(alloc: Global, invocation: &Invocation, text: &[u8]) -> Option<Advice>
    ensures { IfSome result (λ advice. (advice ≡ Advice.V1) × IsReadWithV1 invocation.now text.now) }
{
    if reads_with_v1(alloc, invocation, text) {
        Some(Advice::V1)
    } else {
        None
    }
}

// Returns whether `--v1` is not set, and the text has a value with it.
fn reads_with_v1(alloc: Global, invocation: &Invocation, text: &[u8]) -> bool
    ensures { result ≡ true → IsReadWithV1 invocation.now text.now }
{
    let preprocessing = invocation.task.preprocessing;
    if preprocessing.v1 || is_canonical(invocation.task.output) {
        return false;
    }
    let with_v1 = Preprocessing {
        v1: true,
        ..preprocessing
    };
    reads_upgraded(alloc, invocation.options, with_v1, text)
}

// Returns whether the text that is read instead has a value.
fn reads_upgraded(
    alloc: Global,
    options: Options,
    preprocessing: Preprocessing,
    text: &[u8],
) -> bool
    ensures { result ≡ true → IsReadUpgraded options preprocessing text.now }
{
    match preprocess_text(alloc, preprocessing, text) {
        Ok(Some(upgraded)) => check(alloc, options, upgraded.as_bytes()).is_ok(),
        _ => false,
    }
}
