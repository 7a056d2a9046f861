//! The offset at which bytes are not JSON.
ghost use Rattle.std.specs.Prelude.{◌≡◌, ◌↔◌, IfOk, IsTrue, false, string_bytes};
ghost use Rattle.bson.specs.TextMeaning.{IsNotJsonText};
ghost use Rattle.bson_run.specs.ErrorMessages.{BreaksRule, IsWellFormedJson, IsTextOfTree, column_and_rule, column_at, line_at, located_text};

use crate::broken_rule::{find_broken_rule, separator_before};
use crate::position::{column_at, line_at};
use crate::rule::Rule;
use bson_model::options::KeyOrder;
use bson_tokens::MAX_DEPTH;
use bson_tokens::normalize::normalize_text;
use bson_tokens::number::number;
use bson_v1::bare_words::{WordForm, replace_words};
use json::{Reader, Scratch, Token};
use std::alloc::{AllocError, Global};

/// The offset at which bytes are not JSON, for a message.
///
/// ```
/// let text: &[u8] = b"[1,\n 2 3]";
/// let syntax_error = SyntaxError::of(alloc, false, text)?;
/// println!(rt; "{}:{}", syntax_error.line(text), syntax_error.column(text))?; // 2:4
/// ```
#[derive(Clone, Copy, Debug)]
pub struct SyntaxError {
    /// The number of bytes before it.
    pub offset: usize,
    /// The bytes have the grammar of JSON, and the number there is out of the range of doubles.
    pub is_number: bool,
    /// Which rule of JSON they break.
    pub rule: Rule,
}

impl SyntaxError {
    /// Finds the place at which a text stops to be JSON, and the rule that it breaks there. If `v1` is
    /// true, the words `NaN`, `Infinity` and `-Infinity` outside of strings are numbers.
    ///
    /// It is the first byte that is not UTF-8. If all are, it is the first token, comma or colon that is not
    /// allowed there, or the bracket that nests deeper than 127. If the bytes have the grammar of JSON, it is
    /// the first number whose nearest double is not finite. No tree is made, and memory is that of the bytes.
    ///
    /// If the bytes are JSON, it is their first byte. Their rule is `RewrittenDepth`, since they are
    /// rejected as not JSON only if a rewritten text is read instead, and nests too deep.
    ///
    /// # Errors
    ///
    /// Returns `AllocError` if a request for memory is refused.
    ///
    /// ```
    /// let text: &[u8] = b"[NaN, 1 2]";
    /// let syntax_error = SyntaxError::of(alloc, true, text)?;
    /// println!(rt; "{}", syntax_error.column(text))?; // 9
    /// ```
    pub fn of(alloc: Global, v1: bool, bytes: &[u8]) -> Result<SyntaxError, AllocError>
        ensures grammar { IfOk result (λ syntax_error. IsTrue syntax_error.is_number
            ↔ IsWellFormedJson (located_text v1 bytes.now) × IsNotJsonText (located_text v1 bytes.now)) }
        ensures rule { IfOk result (λ syntax_error. BreaksRule (located_text v1 bytes.now) syntax_error.rule) }
    {
        if !v1 {
            return find_in_bytes(alloc, bytes);
        }
        match replace_words(alloc, WordForm::Digits, bytes)? {
            Some(located) => find_in_bytes(alloc, &located),
            None => find_in_bytes(alloc, bytes),
        }
    }

    /// Returns its line, counted from 1.
    pub fn line(self, bytes: &[u8]) -> usize
        ensures { result ≡ line_at self.offset bytes.now }
    {
        line_at(self.offset, bytes)
    }

    /// Returns the column of the byte there, or of the last byte if the bytes end, counted from 1.
    pub fn column(self, bytes: &[u8]) -> usize
        ensures { result ≡ column_at self.offset bytes.now }
    {
        column_at(self.offset, bytes)
    }

    /// Returns the end of a message, after the name of the error: the column and the rule.
    ///
    /// # Errors
    ///
    /// `AllocError` if an allocation fails.
    pub fn message(self, alloc: Global, bytes: &[u8]) -> Result<String, AllocError>
        ensures { IfOk result
            (λ full_message. string_bytes full_message ≡ column_and_rule (column_at self.offset bytes.now) self.rule) }
    {
        let column = self.column(bytes);
        let rule = self.rule.message();
        format!(in alloc; " at column {column} ({rule})")
    }
}

// Finds the offset at which the bytes are not JSON.
fn find_in_bytes(alloc: Global, bytes: &[u8]) -> Result<SyntaxError, AllocError>
    ensures grammar { IfOk result (λ syntax_error. IsTrue syntax_error.is_number ↔ IsWellFormedJson bytes.now
        × IsNotJsonText bytes.now) }
    ensures rule { IfOk result (λ syntax_error. BreaksRule bytes.now syntax_error.rule) }
{
    match simdutf8::compat::from_utf8(bytes) {
        Ok(text) => find_syntax_error(alloc, text),
        Err(error) => Ok(SyntaxError {
            offset: error.valid_up_to(),
            is_number: false,
            rule: Rule::Utf8,
        }),
    }
}

// Finds the offset at which the text is not JSON.
fn find_syntax_error(alloc: Global, text: &str) -> Result<SyntaxError, AllocError>
    ensures grammar { IfOk result (λ syntax_error. IsTrue syntax_error.is_number ↔ IsWellFormedJson text.now
        × IsNotJsonText text.now) }
    ensures rule { IfOk result (λ syntax_error. BreaksRule text.now syntax_error.rule) }
{
    let mut scratch = Scratch::new(alloc);
    let mut reader = Reader::new(text, &mut scratch)?;
    if reader.skip_value(MAX_DEPTH).is_err() {
        let (offset, rule) = find_broken_rule(text, &mut scratch)?;
        return Ok(SyntaxError {
            offset,
            is_number: false,
            rule,
        });
    }
    let end_offset = reader.offset();
    if let Some(_) = reader.next() {
        return Ok(SyntaxError {
            offset: separator_before(text.as_bytes(), end_offset, b','),
            is_number: false,
            rule: Rule::TrailingData,
        });
    }
    if has_tree(alloc, text)? {
        return Ok(SyntaxError {
            offset: 0,
            is_number: false,
            rule: Rule::RewrittenDepth,
        });
    }
    Ok(SyntaxError {
        offset: number_out_of_range(text, &mut scratch)?,
        is_number: true,
        rule: Rule::OutOfRange,
    })
}

// Whether a text is that of a tree: it has the grammar of JSON, and its numbers are in range.
fn has_tree(alloc: Global, text: &str) -> Result<bool, AllocError>
    ensures yes { IfOk result (λ is_tree_text. IsTrue is_tree_text → IsTextOfTree text.now) }
    ensures no { IfOk result (λ is_tree_text. is_tree_text ≡ false → IsNotJsonText text.now) }
{
    match normalize_text(alloc, KeyOrder::AsGiven, text) {
        Ok(_) => Ok(true),
        Err(json::Error::Invalid) => Ok(false),
        Err(_) => Err(AllocError),
    }
}

// Returns the offset of the first number that has no finite double, or 0 if there is none.
fn number_out_of_range(text: &str, scratch: &mut Scratch) -> Result<usize, AllocError> {
    let mut reader = Reader::new(text, scratch)?;
    let mut token_end = 0usize;
    while let Some(token) = reader.next() {
        if is_out_of_range(token) {
            return Ok(token_end.saturating_add(bytes_before_number(text.as_bytes(), token_end)));
        }
        token_end = reader.offset();
    }
    Ok(0)
}

fn is_out_of_range(token: Token<'_>) -> bool {
    matches!(token, Token::Number(digits) if number(digits).is_none())
}

// Counts the bytes from there on before a number.
fn bytes_before_number(bytes: &[u8], from_offset: usize) -> usize {
    let is_digit = |byte: &u8| *byte == b'-' || byte.is_ascii_digit();
    bytes
        .iter()
        .skip(from_offset)
        .take_while(|byte| !is_digit(*byte))
        .count()
}
