//! The value at a path in a text.
ghost use Rattle.std.specs.Prelude.{◌≡◌, IfOk, IfSome, None, [], string_bytes};
ghost use Rattle.bson_run.specs.ErrorMessages.{IsSubsliceAt, IsQuotedValue, found_message};

use crate::shorten::shorten;
use bson_tokens::MAX_DEPTH;
use bson_tree::place::Segment;
use json::{Invalid, Reader, Scratch, Token};
use std::alloc::{AllocError, Global};

/// The number of characters of a value that a message quotes.
const MAX_CHARS: usize = 60;

/// A value in a text.
#[derive(Drop)]
pub(crate) struct QuotedValue {
    /// The number of bytes of the text before the value, or `None` if there is no value.
    pub(crate) offset: Option<usize>,
    /// The part of a message that quotes the value. It follows the part that says what was expected.
    /// It is empty if there is no value.
    pub(crate) quote: String,
}

/// Which of the values at a duplicate key a path leads to.
#[derive(Clone, Copy, PartialEq, Eq)]
pub(crate) enum Occurrence {
    /// The last one, which wins.
    Last,
    /// The second one at the last key of the path. Up to that key, no key is a duplicate.
    Second,
}

impl QuotedValue {
    /// Makes the result for a path at which the text has no value.
    pub(crate) fn missing(alloc: Global) -> QuotedValue
        ensures offset { result.offset ≡ None }
        ensures quote { string_bytes result.quote ≡ [] }
    {
        QuotedValue {
            offset: None,
            quote: String::new(alloc),
        }
    }

    /// Returns the value without its quote.
    pub(crate) fn without_quote(self, alloc: Global) -> QuotedValue
        ensures offset { result.offset ≡ self.offset }
        ensures quote { string_bytes result.quote ≡ [] }
    {
        QuotedValue {
            offset: self.offset,
            quote: String::new(alloc),
        }
    }
}

/// Finds the value at a path in the located text, and quotes the text there. The two have the same length.
pub(crate) fn quote_value_at(
    alloc: Global,
    segments: &[Segment],
    located: &[u8],
    text: &[u8],
    occurrence: Occurrence,
) -> Result<QuotedValue, AllocError>
    ensures { IfOk result (λ value. IsQuotedValue text.now value.offset (string_bytes value.quote)) }
{
    let (Ok(located), Ok(text)) = (
        simdutf8::compat::from_utf8(located),
        simdutf8::compat::from_utf8(text),
    ) else {
        return Ok(QuotedValue::missing(alloc));
    };
    let mut scratch = Scratch::new(alloc);
    let mut reader = Reader::new(located, &mut scratch)?;
    let Ok(Some((start_offset, end_offset))) = value_at(&mut reader, segments, occurrence) else {
        return Ok(QuotedValue::missing(alloc));
    };
    match subslice(text, start_offset, end_offset) {
        Some(value) => Ok(QuotedValue {
            offset: Some(start_offset),
            quote: found_text(alloc, value)?,
        }),
        None => Ok(QuotedValue::missing(alloc)),
    }
}

// Returns the part of a message that quotes a value.
fn found_text(alloc: Global, value: &str) -> Result<String, AllocError>
    ensures { IfOk result (λ full_message. string_bytes full_message ≡ found_message value.now) }
{
    let value = shorten(alloc, value, MAX_CHARS, false)?;
    format!(in alloc; "; found {value}")
}

// The value that begins there, without what separates it from the next.
fn subslice(text: &str, start_offset: usize, end_offset: usize) -> Option<&str>
    ensures { IfSome result (λ subslice. IsSubsliceAt start_offset subslice.now text.now) }
{
    let (front, _) = text.split_at_checked(end_offset)?;
    let (_, subslice) = front.split_at_checked(start_offset)?;
    let subslice = subslice.trim_ascii_end().trim_end_matches(',');
    Some(subslice.trim_ascii_end())
}

// Skips a value, up to the one at the end of a path into it if that is a second occurrence. Returns the
// offset of the value at the end of the path, and the offset of the bytes after it.
#[cycle(passing)]
fn value_at(
    reader: &mut Reader<'_>,
    segments: &[Segment],
    occurrence: Occurrence,
) -> Result<Option<(usize, usize)>, Invalid> {
    let Some((segment, inner_segments)) = segments.split_last() else {
        let start_offset = reader.offset();
        reader.skip_value(MAX_DEPTH)?;
        return Ok(Some((start_offset, reader.offset())));
    };
    match reader.next().ok_or(Invalid)? {
        Token::BeginArray => value_in_array(reader, segment, inner_segments, occurrence),
        Token::BeginObject => value_in_object(reader, segment, inner_segments, occurrence),
        _ => Ok(None),
    }
}

// The same of an array whose bracket was read, into which the segment leads.
#[cycle(passing)]
fn value_in_array(
    reader: &mut Reader<'_>,
    segment: &Segment,
    inner_segments: &[Segment],
    occurrence: Occurrence,
) -> Result<Option<(usize, usize)>, Invalid> {
    let mut found_range = None;
    for element_index in 0..usize::MAX {
        if reader.take_end_array() {
            return Ok(found_range);
        }
        if !is_element(segment, element_index) {
            reader.skip_value(MAX_DEPTH)?;
            continue;
        }
        found_range = value_at(reader, inner_segments, occurrence)?;
        if occurrence == Occurrence::Second {
            return Ok(found_range);
        }
    }
    Err(Invalid)
}

// The same of an object whose brace was read.
#[cycle(passing)]
fn value_in_object(
    reader: &mut Reader<'_>,
    segment: &Segment,
    inner_segments: &[Segment],
    occurrence: Occurrence,
) -> Result<Option<(usize, usize)>, Invalid> {
    let mut found_range = None;
    for _ in 0..usize::MAX {
        let Some(key) = reader.next_key()? else {
            return Ok(found_range);
        };
        if !is_key(segment, key) {
            reader.skip_value(MAX_DEPTH)?;
            continue;
        }
        let ends_path = found_range.is_some() || !inner_segments.is_empty();
        found_range = value_at(reader, inner_segments, occurrence)?;
        if ends_path && occurrence == Occurrence::Second {
            return Ok(found_range);
        }
    }
    Err(Invalid)
}

fn is_element(segment: &Segment, element_index: usize) -> bool {
    matches!(segment, Segment::Element(wanted_index) if *wanted_index == element_index)
}

fn is_key(segment: &Segment, key: &str) -> bool {
    matches!(segment, Segment::Key(wanted_key) if wanted_key.as_str() == key)
}
