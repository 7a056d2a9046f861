//! Hexadecimal digits: a UUID with no hyphens, and a subtype of one digit.
ghost use Rattle.std.specs.Prelude.{◌≡◌, IfOk, string_bytes};
ghost use Rattle.bson_v1.specs.Upgraded.{is_hex_digit, is_one_hex_digit, is_plain_uuid, hyphenated};

use crate::date::is_digit;
use std::alloc::{AllocError, Global};

/// The text, with the hyphens of a UUID if it is 32 hexadecimal digits.
pub(crate) fn hyphenated(alloc: Global, text: &str) -> Result<String, AllocError>
    ensures { IfOk result (λ uuid_text. string_bytes uuid_text ≡ hyphenated text.now) }
{
    if !is_plain_uuid(text.as_bytes()) {
        return String::from_str(alloc, text);
    }
    let (first, second, third) = (&text[..8], &text[8..12], &text[12..16]);
    let (fourth, fifth) = (&text[16..20], &text[20..]);
    format!(in alloc; "{first}-{second}-{third}-{fourth}-{fifth}")
}

/// Whether the bytes are one hexadecimal digit.
pub(crate) fn is_one_hex_digit(bytes: &[u8]) -> bool
    ensures { result ≡ is_one_hex_digit bytes.now }
{
    bytes.len() == 1 && is_hex_digit(bytes[0])
}

fn is_plain_uuid(bytes: &[u8]) -> bool
    ensures { result ≡ is_plain_uuid bytes.now }
{
    bytes.len() == 32 && bytes.iter().all(|byte| is_hex_digit(*byte))
}

fn is_hex_digit(byte: u8) -> bool
    ensures { result ≡ is_hex_digit byte }
{
    is_digit(byte) || (byte >= b'A' && byte <= b'F') || (byte >= b'a' && byte <= b'f')
}
