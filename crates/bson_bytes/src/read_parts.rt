//! The parts of an element: each reader returns a value and the bytes after it.
ghost use Rattle.std.specs.Prelude.{◌≡◌, ◌≤◌, ◌<◌, ◌^◌, length, option_map, string_bytes, IfOk, IfSome};
ghost use Rattle.std.specs.Int.{w32, w64};
ghost use Rattle.bson_bytes.specs.Fault.{ReturnsReading};
ghost use Rattle.bson_bytes.specs.Reading.{read_byte, read_bytes, read_integer, read_length, read_nul, split_at_nul};
ghost use Rattle.bson_bytes.specs.Reading.{check_utf8, read_name, bytes_after, read_string};
ghost use Rattle.bson_bytes.specs.PutSteps.{has_no_nul};
ghost use Rattle.bson_bytes.specs.TypeTags.{type_of_tag};

use crate::fault::{Fault, FaultKind, fault_at};
use bson_types::spec::ElementType;
use std::str;

/// Splits off the first byte.
///
/// # Errors
///
/// - `Short`: there is no byte.
pub fn read_byte(bytes: &[u8]) -> Result<(u8, &[u8]), Fault>
    ensures outcome { ReturnsReading (λ returned. (returned.0, returned.1.now)) result (read_byte bytes.now) }
    ensures shorter { IfOk result (λ returned. length returned.1.now < length bytes.now) }
{
    match bytes {
        [] => Err(fault_at(FaultKind::Short, bytes)),
        [byte, rest @ ..] => Ok((*byte, rest)),
    }
}

/// Splits off the first `count` bytes.
///
/// # Errors
///
/// - `Short`: there are fewer than `count` bytes.
pub fn read_bytes(count: usize, bytes: &[u8]) -> Result<(&[u8], &[u8]), Fault>
    ensures outcome { ReturnsReading (λ returned. (returned.0.now, returned.1.now)) result
        (read_bytes count bytes.now) }
    ensures exact { IfOk result (λ returned. length returned.0.now ≡ count) }
    ensures shorter { IfOk result (λ returned. length returned.1.now ≤ length bytes.now) }
{
    if bytes.len() < count {
        return Err(fault_at(FaultKind::Short, bytes));
    }
    Ok(bytes.split_at(count))
}

/// Reads a number of 32 bits, its lowest byte first.
///
/// # Errors
///
/// - `Short`: there are fewer than 4 bytes.
pub fn read_u32(bytes: &[u8]) -> Result<(u32, &[u8]), Fault>
    ensures outcome { ReturnsReading (λ returned. (returned.0, returned.1.now)) result (read_integer w32 bytes.now) }
    ensures shorter { IfOk result (λ returned. length returned.1.now ≤ length bytes.now) }
{
    if bytes.len() < 4 {
        return Err(fault_at(FaultKind::Short, bytes));
    }
    let (front, rest) = bytes.split_at(4);
    let number = u32::from_le_bytes([front[0], front[1], front[2], front[3]]);
    Ok((number, rest))
}

/// Reads a number of 64 bits, its lowest byte first.
///
/// # Errors
///
/// - `Short`: there are fewer than 8 bytes.
pub fn read_u64(bytes: &[u8]) -> Result<(u64, &[u8]), Fault>
    ensures outcome { ReturnsReading (λ returned. (returned.0, returned.1.now)) result (read_integer w64 bytes.now) }
    ensures shorter { IfOk result (λ returned. length returned.1.now ≤ length bytes.now) }
{
    if bytes.len() < 8 {
        return Err(fault_at(FaultKind::Short, bytes));
    }
    let (front, rest) = bytes.split_at(8);
    let number = u64::from_le_bytes([
        front[0], front[1], front[2], front[3], front[4], front[5], front[6], front[7],
    ]);
    Ok((number, rest))
}

/// Reads a length: a number of 32 bits that is not negative.
///
/// # Errors
///
/// - `Short`: there are fewer than 4 bytes.
/// - `Length`: the number is negative.
#[tactic(auto, unfolding(crate::specs::Reading::read_length))]
pub fn read_length(bytes: &[u8]) -> Result<(usize, &[u8]), Fault>
    ensures outcome { ReturnsReading (λ returned. (returned.0, returned.1.now)) result (read_length bytes.now) }
    ensures small { IfOk result (λ returned. returned.0 < 2 ^ 31) }
    ensures shorter { IfOk result (λ returned. length returned.1.now ≤ length bytes.now) }
{
    let (size, rest) = read_u32(bytes)?;
    if size >= 0x8000_0000 {
        return Err(fault_at(FaultKind::Length, bytes));
    }
    Ok((size as usize, rest))
}

/// Passes over a 0.
///
/// # Errors
///
/// - `Short`: there is no byte.
/// - `End`: the first byte is not 0.
pub fn read_nul(bytes: &[u8]) -> Result<&[u8], Fault>
    ensures outcome { ReturnsReading (λ returned. returned.now) result (read_nul bytes.now) }
    ensures shorter { IfOk result (λ returned. length returned.now ≤ length bytes.now) }
{
    match bytes {
        [] => Err(fault_at(FaultKind::Short, bytes)),
        [byte, rest @ ..] => {
            if *byte != 0 {
                return Err(fault_at(FaultKind::End, bytes));
            }
            Ok(rest)
        }
    }
}

/// Splits the bytes at the first 0: the bytes before it, and those after it.
pub fn split_at_nul(bytes: &[u8]) -> Option<(&[u8], &[u8])>
    ensures outcome { option_map (λ split. (split.0.now, split.1.now)) result ≡ split_at_nul bytes.now }
    ensures shorter { IfSome result (λ returned. length returned.1.now ≤ length bytes.now) }
{
    for (index, byte) in bytes.iter().enumerate() {
        if *byte == 0 {
            return Some((&bytes[..index], &bytes[index + 1..]));
        }
    }
    None
}

/// Returns whether no byte is 0.
pub fn has_no_nul(bytes: &[u8]) -> bool
    ensures { result ≡ has_no_nul bytes.now }
{
    match split_at_nul(bytes) {
        Some(_) => false,
        None => true,
    }
}

fn check_utf8<'a>(text: &'a [u8], bytes: &[u8]) -> Result<&'a str, Fault>
    ensures { ReturnsReading (λ returned. returned.now) result (check_utf8 text.now bytes.now) }
{
    match str::from_utf8(text) {
        Ok(string) => Ok(string),
        Err(_) => Err(fault_at(FaultKind::Utf8, bytes)),
    }
}

/// Reads the name of an element.
///
/// # Errors
///
/// - `Short`: no byte is 0.
/// - `Utf8`: the bytes before the first 0 are not UTF-8.
#[tactic(auto, unfolding(crate::specs::Reading::read_name))]
pub fn read_name(bytes: &[u8]) -> Result<(&str, &[u8]), Fault>
    ensures outcome { ReturnsReading (λ returned. (returned.0.now, returned.1.now)) result (read_name bytes.now) }
    ensures shorter { IfOk result (λ returned. length returned.1.now ≤ length bytes.now) }
{
    let Some((name, rest)) = split_at_nul(bytes) else {
        return Err(fault_at(FaultKind::Short, bytes));
    };
    Ok((check_utf8(name, bytes)?, rest))
}

// Passes over the name of an element, which may be of any bytes.
fn skip_any_name(bytes: &[u8]) -> Result<&[u8], Fault>
    ensures outcome { ReturnsReading (λ returned. returned.now) result (bytes_after (read_name bytes.now)) }
    ensures shorter { IfOk result (λ returned. length returned.now ≤ length bytes.now) }
{
    let (_, rest) = read_name(bytes)?;
    Ok(rest)
}

/// Passes over the name of an element. A name of ASCII is read once.
///
/// # Errors
///
/// - `Short`: no byte is 0.
/// - `Utf8`: the bytes before the first 0 are not UTF-8.
pub fn skip_name(bytes: &[u8]) -> Result<&[u8], Fault>
    ensures outcome { ReturnsReading (λ returned. returned.now) result (bytes_after (read_name bytes.now)) }
    ensures shorter { IfOk result (λ returned. length returned.now ≤ length bytes.now) }
{
    for (index, byte) in bytes.iter().enumerate() {
        if *byte == 0 {
            return Ok(&bytes[index + 1..]);
        }
        if *byte >= 0x80 {
            return skip_any_name(bytes);
        }
    }
    Err(fault_at(FaultKind::Short, bytes))
}

/// Reads a text after its length. The text may contain a 0.
///
/// # Errors
///
/// - `Short`: the bytes end before the length, the text or the 0 after it does.
/// - `Length`: the length is not positive.
/// - `End`: the byte after the text is not 0.
/// - `Utf8`: the text is not UTF-8.
#[tactic(auto, unfolding(crate::specs::Reading::read_string))]
pub fn read_string(bytes: &[u8]) -> Result<(&str, &[u8]), Fault>
    ensures outcome { ReturnsReading (λ returned. (returned.0.now, returned.1.now)) result (read_string bytes.now) }
    ensures shorter { IfOk result (λ returned. length returned.1.now ≤ length bytes.now) }
{
    let (size, text_start) = read_length(bytes)?;
    if size == 0 {
        return Err(fault_at(FaultKind::Length, bytes));
    }
    let (text, text_end) = read_bytes(size - 1, text_start)?;
    let rest = read_nul(text_end)?;
    Ok((check_utf8(text, text_start)?, rest))
}

/// Returns the element type whose tag is the byte, or `None` if the byte is not a tag.
pub fn type_of_tag(tag: u8) -> Option<ElementType>
    ensures { result ≡ type_of_tag tag }
{
    if tag < 0x14 {
        // (a table of the low tags, without those two)
        ElementType::from(tag)
    } else if tag == 0x7F {
        Some(ElementType::MaxKey)
    } else if tag == 0xFF {
        Some(ElementType::MinKey)
    } else {
        None
    }
}

/// Splits off the first 12 bytes.
///
/// # Errors
///
/// - `Short`: there are fewer than 12 bytes.
pub fn read_12_bytes(bytes: &[u8]) -> Result<([u8; 12], &[u8]), Fault>
    ensures outcome { ReturnsReading (λ returned. (returned.0, returned.1.now)) result (read_bytes 12 bytes.now) }
    ensures shorter { IfOk result (λ returned. length returned.1.now ≤ length bytes.now) }
{
    let (front, rest) = read_bytes(12, bytes)?;
    match <[u8; 12]>::try_from(front) {
        Ok(array) => Ok((array, rest)),
        Err(_) => unreachable!(),
    }
}

/// Splits off the first 16 bytes.
///
/// # Errors
///
/// - `Short`: there are fewer than 16 bytes.
pub fn read_16_bytes(bytes: &[u8]) -> Result<([u8; 16], &[u8]), Fault>
    ensures outcome { ReturnsReading (λ returned. (returned.0, returned.1.now)) result (read_bytes 16 bytes.now) }
    ensures shorter { IfOk result (λ returned. length returned.1.now ≤ length bytes.now) }
{
    let (front, rest) = read_bytes(16, bytes)?;
    match <[u8; 16]>::try_from(front) {
        Ok(array) => Ok((array, rest)),
        Err(_) => unreachable!(),
    }
}
