//! Numbers that are words outside of strings: `NaN`, `Infinity` and `-Infinity`.
ghost use Rattle.std.specs.Prelude.{◌≡◌, ◌<◌, ◌++◌, IfOk, IfSome, OnOk, Ok, None, length, true, false};
ghost use Rattle.std.specs.Str.{bytes_eq};
ghost use Rattle.bson_v1.specs.BareWords.{continues_word, is_word_byte, replaced_by, replaced_word, next_word_state, word_state_of, with_words};

use crate::date::is_digit;
use std::alloc::{AllocError, Global};

/// What replaces a word.
#[derive(Clone, Copy, Debug, PartialEq, Eq)]
pub enum WordForm {
    /// A double in Extended JSON v2: `{"$numberDouble":"NaN"}`.
    Wrapper,
    /// A number of JSON that is as long as the word, so that each other byte keeps its offset.
    Digits,
}

/// Where a byte is.
#[derive(Clone, Copy)]
pub(crate) enum WordState {
    /// Outside of strings.
    Outside,
    /// In a string.
    InString,
    /// After a backslash in a string.
    InEscape,
}

impl WordState {
    // Returns where the byte after this one is.
    fn next_state(self, byte: u8) -> WordState
        ensures { word_state_of result ≡ next_word_state (word_state_of self) byte }
    {
        match self {
            WordState::Outside => {
                if byte == b'"' {
                    WordState::InString
                } else {
                    WordState::Outside
                }
            }
            WordState::InString => {
                if byte == b'"' {
                    WordState::Outside
                } else if byte == b'\\' {
                    WordState::InEscape
                } else {
                    WordState::InString
                }
            }
            WordState::InEscape => WordState::InString,
        }
    }

    // Whether the byte is one of a word.
    fn continues_word(self, byte: u8) -> bool
        ensures { result ≡ continues_word (word_state_of self) byte }
    {
        match self {
            WordState::Outside => is_word_byte(byte),
            WordState::InString | WordState::InEscape => false,
        }
    }
}

/// Returns the text with the words `NaN`, `Infinity` and `-Infinity` outside of strings replaced, or
/// `None` if it has no such word.
///
/// A word is all letters, digits, `_`, `$`, `+`, `-` and `.` in a row, so `NaN1` and `-NaN` stay. JSON
/// permits none of the three words. JavaScript, Python's `json.dumps` and older exports of MongoDB
/// write them.
///
/// # Errors
///
/// Returns `AllocError` if an allocation fails.
///
/// ```
/// if let Some(text) = replace_words(alloc, WordForm::Digits, b"[NaN, \"NaN\"]")? {
///     println!(rt; "{}", str::from_utf8(&text)?)?; // [100, "NaN"]
/// }
/// ```
pub fn replace_words(
    alloc: Global,
    word_form: WordForm,
    text: &[u8],
) -> Result<Option<Vec<u8>>, AllocError>
    ensures replaced { IfOk result (λ replaced. IfSome replaced (λ bytes. bytes.items ≡ with_words word_form text.now)) }
    ensures stays { result ≡ Ok None → with_words word_form text.now ≡ text.now }
{
    let mut output = Vec::new(alloc);
    let mut copied = 0;
    let mut word_start = 0;
    let mut word_state = WordState::Outside;
    let mut offset = 0;
    while offset < text.len() {
        let byte = text[offset];
        if !word_state.continues_word(byte) {
            let (unchanged, word) = (&text[copied..word_start], &text[word_start..offset]);
            if append_replaced(word_form, unchanged, word, &mut output)? {
                copied = offset;
            }
            word_start = offset + 1;
        }
        word_state = word_state.next_state(byte);
        offset += 1;
    }
    let (unchanged, word) = (&text[copied..word_start], &text[word_start..]);
    if append_replaced(word_form, unchanged, word, &mut output)? {
        return Ok(Some(output));
    }
    if copied == 0 {
        return Ok(None);
    }
    output.extend_from_slice(&text[copied..])?;
    Ok(Some(output))
}

// Appends the bytes before a word, and what replaces the word. Appends nothing if the word stays.
fn append_replaced(
    word_form: WordForm,
    unchanged: &[u8],
    word: &[u8],
    output: &mut Vec<u8>,
) -> Result<bool, AllocError>
    ensures replaced { result ≡ Ok true → output.new.items ≡ output.old.items ++ unchanged.now ++ replaced_word word_form word.now }
    ensures not_empty { result ≡ Ok true → 0 < length word.now }
    ensures stays { result ≡ Ok false → replaced_word word_form word.now ≡ word.now }
    ensures unchanged { result ≡ Ok false → output.new.items ≡ output.old.items }
{
    if word.is_empty() {
        return Ok(false);
    }
    let Some(replacement) = replacement_of(word_form, word) else {
        return Ok(false);
    };
    output.extend_from_slice(unchanged)?;
    output.extend_from_slice(replacement.as_bytes())?;
    Ok(true)
}

// Returns what replaces a word, unless it stays.
fn replacement_of(word_form: WordForm, word: &[u8]) -> Option<&'static str>
    ensures replaced { IfSome result (λ replacement. replacement.now ≡ replaced_word word_form word.now) }
    ensures stays { result ≡ None → replaced_word word_form word.now ≡ word.now }
{
    match word_form {
        WordForm::Wrapper => choose(
            "{\"$numberDouble\":\"NaN\"}",
            "{\"$numberDouble\":\"Infinity\"}",
            "{\"$numberDouble\":\"-Infinity\"}",
            word,
        ),
        WordForm::Digits => choose("100", "10000000", "-10000000", word),
    }
}

// Returns the text for one of the three words.
fn choose(
    nan: &'static str,
    infinity: &'static str,
    minus_infinity: &'static str,
    word: &[u8],
) -> Option<&'static str>
    ensures replaced { IfSome result
        (λ replacement. replacement.now ≡ replaced_by nan.now infinity.now minus_infinity.now word.now) }
    ensures stays { result ≡ None → replaced_by nan.now infinity.now minus_infinity.now word.now ≡ word.now }
{
    if is_word(word, "NaN") {
        Some(nan)
    } else if is_word(word, "Infinity") {
        Some(infinity)
    } else if is_word(word, "-Infinity") {
        Some(minus_infinity)
    } else {
        None
    }
}

fn is_word(bytes: &[u8], word: &str) -> bool
    ensures { result ≡ bytes_eq bytes.now word.now }
{
    bytes == word.as_bytes()
}

// Whether the byte is one of a name or of a number.
fn is_word_byte(byte: u8) -> bool
    ensures { result ≡ is_word_byte byte }
{
    is_digit(byte)
        || (byte >= b'A' && byte <= b'Z')
        || (byte >= b'a' && byte <= b'z')
        || byte == b'_'
        || byte == b'$'
        || byte == b'+'
        || byte == b'-'
        || byte == b'.'
}
