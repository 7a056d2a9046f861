//! Why a text is rejected, and where: as data, and as a message.
ghost use Rattle.std.specs.Prelude.{◌≡◌, ◌++◌, codes, ℕ, List, IfOk, false, map, option_map, string_bytes};
ghost use Rattle.bson_tree.specs.Place.{path_text, path_of, segment_of};
ghost use Rattle.bson_run.specs.ErrorMessages.{IsExplanation, IsQuotedValue, IsQuotingMessage, IsPositionMessage, column_message, path_message, escaped_message};
ghost use Rattle.bson_run.specs.ErrorMessages.{explanation_message, explanation_offset, explanation_path};

use crate::preprocessed::{DUPLICATE_KEY, upgrade};
use crate::quoted_value::{Occurrence, QuotedValue, quote_value_at};
use crate::shorten::shorten;
use crate::syntax_error::SyntaxError;
use crate::task::Task;
use bson_convert::error::Error;
use bson_tree::place::{Place, Reason, Segment};
use bson_v1::bare_words::{WordForm, replace_words};
use std::alloc::{AllocError, Global};

/// The greatest number of characters of a path, and of a message.
const MAX_CHARS: usize = 300;

/// Why a text is rejected, and where.
///
/// ```
/// let text: &[u8] = br#"{"orders": [1.5]}"#;
/// if let Err(error) = convert(alloc, Mode::Canonical, text) {
///     if let Explanation::Value {
///         place,
///         reason,
///         offset,
///     } = Explanation::of(alloc, false, &error, text)?
///     {
///         println!(rt; "{:?}", place.segments)?; // [Element(0), Key("orders")]
///         println!(rt; "{reason}")?; // not a 64-bit integer; found 1.5
///         println!(rt; "{offset:?}")?; // Some(12)
///     }
/// }
/// ```
#[derive(Debug, Drop)]
pub enum Explanation<'a> {
    /// The text is not JSON: where it stops to be JSON, and the rule that it breaks.
    Syntax(SyntaxError),
    /// A value is invalid.
    Value {
        /// Its path, and what is wrong there.
        place: &'a Place,
        /// The reason as a message has it: what was expected, and the value in the text, in at most 300
        /// characters.
        reason: String,
        /// The number of bytes of the text before the value. If a key is a duplicate, the value is that of
        /// its second occurrence. `None` if the text has no value at the path.
        offset: Option<usize>,
    },
    /// The text is valid, and not canonical: the column of the first byte that differs, from 1. It is
    /// on the first line, since a canonical text has one.
    Difference(usize),
    /// The error is not that of a text.
    Other,
}

impl<'a> Explanation<'a> {
    /// Explains the error of a rejected text. If `v1` is true, the words `NaN`, `Infinity` and
    /// `-Infinity` outside of strings are not syntax errors.
    ///
    /// # Errors
    ///
    /// Returns `AllocError` if an allocation fails.
    pub fn of(
        alloc: Global,
        v1: bool,
        fault: &'a Error,
        text: &[u8],
    ) -> Result<Explanation<'a>, AllocError>
        ensures { IfOk result (λ explanation. IsExplanation v1 text.now fault.now explanation) }
    {
        explanation_in(alloc, v1, fault, text, None)
    }

    /// Writes the explanation as the message of [`explain`].
    ///
    /// # Errors
    ///
    /// Returns `AllocError` if an allocation fails.
    pub fn message(&self, alloc: Global, text: &[u8]) -> Result<String, AllocError>
        ensures { IfOk result (λ full_message. string_bytes full_message ≡ explanation_message text.now self.now) }
    {
        match self {
            Explanation::Syntax(syntax_error) => syntax_error.message(alloc, text),
            Explanation::Value { place, reason, .. } => place_text(alloc, place, reason.as_str()),
            Explanation::Difference(column) => column_text(alloc, *column),
            Explanation::Other => Ok(String::new(alloc)),
        }
    }

    /// Returns the number of bytes of the text before the error, if it is known. If the text ends too
    /// early, it is that of the last byte.
    pub fn offset(&self, text: &[u8]) -> Option<usize>
        ensures { result ≡ explanation_offset text.now self.now }
    {
        match self {
            Explanation::Syntax(syntax_error) => {
                Some(syntax_error.offset.min(text.len().saturating_sub(1)))
            }
            Explanation::Value { offset, .. } => *offset,
            Explanation::Difference(column) => Some(column.saturating_sub(1)),
            Explanation::Other => None,
        }
    }

    /// Returns the path to the invalid value, from the value outward.
    pub fn path(&self) -> Option<&[Segment]>
        ensures { option_map (λ segments. map segment_of segments.now) result ≡ explanation_path self.now }
    {
        match self {
            Explanation::Value { place, .. } => Some(place.segments.as_slice()),
            _ => None,
        }
    }
}

/// Returns the message for the position of the error of a rejected text. It follows the message of the
/// error, and is empty for an error that is not one of a text.
///
/// - `NotJson`: ` at column N (RULE)`. The column, counted from 1, is that of the byte at which the
///   text stops to be JSON. `RULE` is the message of the `Rule` that it breaks. If the text has the
///   grammar of JSON, it is the first number whose nearest double is not finite. If the text is
///   JSON, it is column 1: the rewritten text that is read instead nests deeper than 127.
/// - `NotExtendedJson`: ` at orders.3.at.$date (EXPECTED; quoted_value_text VALUE)`. The path leads to the
///   first fault, with places in arrays counted from 0. The value is the one in the text, or its
///   first 60 characters and `..`. An object id has its own fault instead, and so has a duplicate
///   key. A fault of the whole text has no path.
/// - `NotCanonical`: ` at column N`. The column, counted from 1, is that of the first byte that
///   differs from the canonical text.
///
/// A control character (`\u001b`) and a separator of lines (`\u2028`) or of paragraphs is written
/// as its escape in JSON. It could break a line or control a terminal. A path or a message has at
/// most 300 characters, and then `..`.
///
/// # Errors
///
/// Returns `AllocError` if a request for memory is refused.
pub fn explain(alloc: Global, fault: &Error, text: &[u8]) -> Result<String, AllocError>
    ensures place { IfOk result (λ full_message. IsPositionMessage false text.now fault.now (string_bytes full_message)) }
{
    Explanation::of(alloc, false, fault, text)?.message(alloc, text)
}

/// Explains why a task rejected a text, as [`explain`] does. If another text was read instead, the
/// path leads into that text. The value there is quoted only if the first text has it at that path, too.
///
/// # Errors
///
/// `AllocError` if an allocation fails.
pub fn explain_under(
    alloc: Global,
    task: Task,
    fault: &Error,
    text: &[u8],
) -> Result<String, AllocError>
    ensures place { IfOk result
        (λ full_message. IsPositionMessage task.preprocessing.v1 text.now fault.now (string_bytes full_message)) }
{
    explanation_under(alloc, task, fault, text)?.message(alloc, text)
}

/// Explains why a task rejected a text, as data. If another text was read instead, the path leads
/// into that text. The value there is quoted, and has an offset, only if the first text has it at
/// that path, too.
///
/// # Errors
///
/// `AllocError` if an allocation fails.
pub fn explanation_under<'a>(
    alloc: Global,
    task: Task,
    fault: &'a Error,
    text: &[u8],
) -> Result<Explanation<'a>, AllocError>
    ensures { IfOk result (λ explanation. IsExplanation task.preprocessing.v1 text.now fault.now explanation) }
{
    let v1 = task.preprocessing.v1;
    let Error::NotExtendedJson(_) = fault else {
        return Explanation::of(alloc, v1, fault, text);
    };
    match upgraded_text(alloc, task, text)? {
        Some(upgraded) => explanation_in(alloc, v1, fault, text, Some(upgraded.as_bytes())),
        None => Explanation::of(alloc, v1, fault, text),
    }
}

// The text that a task read in the place of this one, if it read another.
fn upgraded_text(alloc: Global, task: Task, text: &[u8]) -> Result<Option<String>, AllocError> {
    if !task.preprocessing.v1 {
        return Ok(None);
    }
    match upgrade(alloc, text) {
        Ok(upgraded) => Ok(upgraded),
        Err(_) => Err(AllocError),
    }
}

// Explains the error of a text, or of the newer one that was read.
fn explanation_in<'a>(
    alloc: Global,
    v1: bool,
    fault: &'a Error,
    text: &[u8],
    upgraded: Option<&[u8]>,
) -> Result<Explanation<'a>, AllocError>
    ensures { IfOk result (λ explanation. IsExplanation v1 text.now fault.now explanation) }
{
    match fault {
        Error::NotJson => Ok(Explanation::Syntax(SyntaxError::of(alloc, v1, text)?)),
        Error::NotExtendedJson(place) => {
            let value = value_at_place(alloc, place, text, upgraded)?;
            let reason = reason_text(alloc, &place.reason, value.quote.as_str())?;
            Ok(Explanation::Value {
                place,
                reason,
                offset: value.offset,
            })
        }
        Error::NotCanonical(column) => Ok(Explanation::Difference(*column)),
        _ => Ok(Explanation::Other),
    }
}

// Returns the message for a column.
fn column_text(alloc: Global, column: usize) -> Result<String, AllocError>
    ensures { IfOk result (λ full_message. string_bytes full_message ≡ column_message column) }
{
    format!(in alloc; " at column {column}")
}

// Returns the message for a path, and for the reason there.
fn place_text(alloc: Global, place: &Place, reason: &str) -> Result<String, AllocError>
    ensures { IfOk result (λ full_message. string_bytes full_message
        ≡ path_message (escaped_message (path_text (path_of place.now))) ++ codes " (" ++ reason.now ++ codes ")") }
{
    let full_path = place.path(alloc)?;
    let path = shorten(alloc, full_path.as_str(), MAX_CHARS, true)?;
    if path.is_empty() {
        return format!(in alloc; " ({reason})");
    }
    format!(in alloc; " at {path} ({reason})")
}

// The reason as a message has it, with the quote of the value.
fn reason_text(alloc: Global, reason: &Reason, quote: &str) -> Result<String, AllocError>
    ensures { IfOk result (λ full_message. (message : List ℕ) × IsQuotingMessage reason.now quote.now message
        × (string_bytes full_message ≡ escaped_message message)) }
{
    let reason = uncut_reason(alloc, reason, quote)?;
    shorten(alloc, reason.as_str(), MAX_CHARS, true)
}

// Returns the message for what was expected, and after it the quote of the value that was found.
fn uncut_reason(alloc: Global, reason: &Reason, quote: &str) -> Result<String, AllocError>
    ensures { IfOk result (λ full_message. IsQuotingMessage reason.now quote.now (string_bytes full_message)) }
{
    match reason {
        Reason::BadObjectId(object_id_error) => format!(in alloc; "{object_id_error}"),
        Reason::WrongShape(expected) => format!(in alloc; "{expected}{quote}"),
    }
}

// Returns the value at the path of an error. There is no value if the newer text has another value there.
fn value_at_place(
    alloc: Global,
    place: &Place,
    text: &[u8],
    upgraded: Option<&[u8]>,
) -> Result<QuotedValue, AllocError>
    ensures { IfOk result (λ value. IsQuotedValue text.now value.offset (string_bytes value.quote)) }
{
    let Some(upgraded) = upgraded else {
        return value_in(alloc, place, text, text);
    };
    if !keeps_value(alloc, place, text, upgraded)? {
        return Ok(QuotedValue::missing(alloc));
    }
    match replace_words(alloc, WordForm::Digits, text)? {
        Some(located) => value_in(alloc, place, &located, text),
        None => value_in(alloc, place, text, text),
    }
}

// Returns the value of the text at the path of an error in the located text. The second value at a
// duplicate key is not quoted, since it is not wrong.
fn value_in(
    alloc: Global,
    place: &Place,
    located: &[u8],
    text: &[u8],
) -> Result<QuotedValue, AllocError>
    ensures { IfOk result (λ value. IsQuotedValue text.now value.offset (string_bytes value.quote)) }
{
    let segments = &place.segments;
    if is_duplicate_key(&place.reason) {
        let value = quote_value_at(alloc, segments, located, text, Occurrence::Second)?;
        return Ok(value.without_quote(alloc));
    }
    quote_value_at(alloc, segments, located, text, Occurrence::Last)
}

// Returns whether the newer text has the value of the text at the path of an error, with wrappers in place of
// words. The path of a duplicate key is that of the text.
fn keeps_value(
    alloc: Global,
    place: &Place,
    text: &[u8],
    upgraded: &[u8],
) -> Result<bool, AllocError> {
    if is_duplicate_key(&place.reason) {
        return Ok(true);
    }
    let value = match replace_words(alloc, WordForm::Wrapper, text)? {
        Some(worded) => value_in(alloc, place, &worded, &worded)?,
        None => value_in(alloc, place, text, text)?,
    };
    let upgraded_value = value_in(alloc, place, upgraded, upgraded)?;
    Ok(value.quote.as_str() == upgraded_value.quote.as_str())
}

// Returns whether the reason is that of a duplicate key.
fn is_duplicate_key(reason: &Reason) -> bool {
    matches!(reason, Reason::WrongShape(expected) if *expected == DUPLICATE_KEY)
}
