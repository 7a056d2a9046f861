//! Dates with no seconds, and offsets with no colon.
ghost use Rattle.std.specs.Prelude.{◌≡◌, ◌≤◌, ◌<◌, ◌-◌, IfOk, length, slice_index, string_bytes};
ghost use Rattle.bson_v1.specs.Upgraded.{ends_in_colon_offset, ends_in_offset, has_minutes_before, inserted, is_digit, is_sign};
ghost use Rattle.bson_v1.specs.Upgraded.{lacks_seconds, offset_length, with_colon, with_seconds};

use std::alloc::{AllocError, Global};

/// The text, with 0 seconds if it has none, and with a colon in an offset of four digits at its end.
pub(crate) fn rfc_3339_date(alloc: Global, text: &str) -> Result<String, AllocError>
    ensures { IfOk result (λ date_text. string_bytes date_text ≡ with_colon (with_seconds text.now)) }
{
    if !lacks_seconds(text.as_bytes()) {
        return with_colon(alloc, text);
    }
    let offset_start = text.len() - offset_length(text.as_bytes());
    let with_seconds = inserted(alloc, text, offset_start, ":00")?;
    with_colon(alloc, with_seconds.as_str())
}

// The text, with a colon in an offset of four digits at its end.
fn with_colon(alloc: Global, text: &str) -> Result<String, AllocError>
    ensures { IfOk result (λ colon_text. string_bytes colon_text ≡ with_colon text.now) }
{
    if !ends_in_offset(text.as_bytes()) {
        return String::from_str(alloc, text);
    }
    inserted(alloc, text, text.len() - 2, ":")
}

// The text with a part before the byte at a place, which is ASCII.
fn inserted(alloc: Global, text: &str, place: usize, part: &str) -> Result<String, AllocError>
    requires inside { place < length text.now }
    requires ascii { slice_index text.now place < 128 }
    ensures { IfOk result (λ full_text. string_bytes full_text ≡ inserted text.now place part.now) }
{
    let (before, after) = (&text[..place], &text[place..]);
    format!(in alloc; "{before}{part}{after}")
}

// Whether there is an offset after an hour and a minute.
fn lacks_seconds(bytes: &[u8]) -> bool
    ensures { result ≡ lacks_seconds bytes.now }
{
    let offset_length = offset_length(bytes);
    offset_length >= 1 && has_minutes_before(bytes, bytes.len() - offset_length)
}

// How many bytes the offset at the end has, or 0.
fn offset_length(bytes: &[u8]) -> usize
    ensures length { result ≡ offset_length bytes.now }
    ensures inside { result ≤ length bytes.now }
    ensures ascii { 1 ≤ result → slice_index bytes.now (length bytes.now - result) < 128 }
{
    let len = bytes.len();
    if len >= 1 && bytes[len - 1] == b'Z' {
        1
    } else if ends_in_offset(bytes) {
        5
    } else if ends_in_colon_offset(bytes) {
        6
    } else {
        0
    }
}

// Whether `T`, an hour and a minute are before the place.
fn has_minutes_before(bytes: &[u8], place: usize) -> bool
    requires { place ≤ length bytes.now }
    ensures { result ≡ has_minutes_before bytes.now place }
{
    place >= 6
        && bytes[place - 6] == b'T'
        && is_digit(bytes[place - 5])
        && is_digit(bytes[place - 4])
        && bytes[place - 3] == b':'
        && is_digit(bytes[place - 2])
        && is_digit(bytes[place - 1])
}

fn ends_in_offset(bytes: &[u8]) -> bool
    ensures { result ≡ ends_in_offset bytes.now }
{
    let len = bytes.len();
    len >= 5
        && is_sign(bytes[len - 5])
        && is_digit(bytes[len - 4])
        && is_digit(bytes[len - 3])
        && is_digit(bytes[len - 2])
        && is_digit(bytes[len - 1])
}

fn ends_in_colon_offset(bytes: &[u8]) -> bool
    ensures { result ≡ ends_in_colon_offset bytes.now }
{
    let len = bytes.len();
    len >= 6
        && is_sign(bytes[len - 6])
        && is_digit(bytes[len - 5])
        && is_digit(bytes[len - 4])
        && bytes[len - 3] == b':'
        && is_digit(bytes[len - 2])
        && is_digit(bytes[len - 1])
}

fn is_sign(byte: u8) -> bool
    ensures { result ≡ is_sign byte }
{
    byte == b'+' || byte == b'-'
}

/// Whether the byte is a decimal digit.
pub(crate) fn is_digit(byte: u8) -> bool
    ensures { result ≡ is_digit byte }
{
    byte >= b'0' && byte <= b'9'
}
