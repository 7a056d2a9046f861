//! How a value is passed by its length.
ghost use Rattle.std.specs.Prelude.{◌≡◌, ◌+◌, ◌<◌, ◌≤◌, ◌^◌, ℕ, take, drop, length, option_map, IfSome};
ghost use Rattle.bson_bytes.specs.Reading.{split_at_nul};
ghost use Rattle.bson_model.specs.Value.{Pairs};
ghost use Rattle.bson_types.specs.ElementTags.{tag_of};
ghost use Rattle.bson_types.specs.declared.spec.ElementType.{ElementType};
ghost use Rattle.bson_bytes.specs.ReadElements.{BeginsWithElements};
ghost use Rattle.bson_bytes.specs.Skip.{skip_bytes, length_prefix, skip_length_prefixed, skip_name, skip_regex, value_size, skip_value_of_size, IsNameAndRest};

use crate::read_parts::split_at_nul;
use bson_types::spec::ElementType;

// How many bytes a value has.
#[derive(Clone, Copy)]
enum ValueSize {
    // This many.
    Fixed(u8),
    // The number in the first four, and this many more.
    LengthPrefixed(u8),
    // Two strings that each end in a 0 byte.
    TwoCStrings,
}

// By the tag of the type. The two types with greater tags have no bytes.
static SIZES_BY_TAG: [ValueSize; 20] = [
    ValueSize::Fixed(0), // no tag
    ValueSize::Fixed(8), // Double
    ValueSize::LengthPrefixed(4), // String
    ValueSize::LengthPrefixed(0), // EmbeddedDocument
    ValueSize::LengthPrefixed(0), // Array
    ValueSize::LengthPrefixed(5), // Binary
    ValueSize::Fixed(0), // Undefined
    ValueSize::Fixed(12), // ObjectId
    ValueSize::Fixed(1), // Boolean
    ValueSize::Fixed(8), // DateTime
    ValueSize::Fixed(0), // Null
    ValueSize::TwoCStrings, // RegularExpression
    ValueSize::LengthPrefixed(16), // DbPointer
    ValueSize::LengthPrefixed(4), // JavaScriptCode
    ValueSize::LengthPrefixed(4), // Symbol
    ValueSize::LengthPrefixed(0), // JavaScriptCodeWithScope
    ValueSize::Fixed(4), // Int32
    ValueSize::Fixed(8), // Timestamp
    ValueSize::Fixed(8), // Int64
    ValueSize::Fixed(16), // Decimal128
];

// Returns the size of a value of the type with this tag. A table needs no jump per type.
#[inline(always)]
fn size_of(tag: u8) -> ValueSize
    ensures { (element_type : ElementType) → tag_of element_type ≡ tag → result ≡ value_size element_type }
{
    if tag < 20 {
        SIZES_BY_TAG[tag as usize]
    } else {
        ValueSize::Fixed(0)
    }
}

// Returns the bytes after the first `count`, if there are that many.
pub(crate) fn skip_bytes(count: usize, bytes: &[u8]) -> Option<&[u8]>
    ensures outcome { option_map (λ bytes_after. bytes_after.now) result ≡ skip_bytes count bytes.now }
    ensures shorter { IfSome result (λ bytes_after. length bytes_after.now ≤ length bytes.now) }
{
    if bytes.len() < count {
        return None;
    }
    Some(&bytes[count..])
}

// Returns the length at a position.
#[inline(always)]
fn length_prefix(bytes: &[u8], position: usize) -> Option<usize>
    requires { position ≤ length bytes.now }
    ensures outcome { result ≡ length_prefix (drop position bytes.now) }
    ensures small { IfSome result (λ name_size. name_size < 2 ^ 32) }
{
    let bytes = &bytes[position..];
    if bytes.len() < 4 {
        return None;
    }
    Some(u32::from_le_bytes([bytes[0], bytes[1], bytes[2], bytes[3]]) as usize)
}

// Passes as many bytes as the length at their front says.
pub(crate) fn skip_length_prefixed(bytes: &[u8]) -> Option<&[u8]>
    ensures outcome { option_map (λ bytes_after. bytes_after.now) result ≡ skip_length_prefixed 0 bytes.now }
    ensures shorter { IfSome result (λ bytes_after. length bytes_after.now ≤ length bytes.now) }
{
    skip_bytes(length_prefix(bytes, 0)?, bytes)
}

fn skip_name(bytes: &[u8]) -> Option<&[u8]>
    ensures outcome { option_map (λ bytes_after. bytes_after.now) result ≡ skip_name bytes.now }
    ensures shorter { IfSome result (λ bytes_after. length bytes_after.now ≤ length bytes.now) }
{
    let (_, rest) = split_at_nul(bytes)?;
    Some(rest)
}

fn skip_regex(bytes: &[u8]) -> Option<&[u8]>
    ensures outcome { option_map (λ bytes_after. bytes_after.now) result ≡ skip_regex bytes.now }
    ensures shorter { IfSome result (λ bytes_after. length bytes_after.now ≤ length bytes.now) }
{
    skip_name(skip_name(bytes)?)
}

// Returns the position after a regular expression. It is not inlined, since few values are regular
// expressions.
#[inline(never)]
fn regex_end(bytes: &[u8], position: usize) -> Option<usize>
    requires { position ≤ length bytes.now }
    ensures outcome { option_map (λ end_position. drop end_position bytes.now) result
        ≡ skip_regex (drop position bytes.now) }
    ensures in_bounds { IfSome result (λ end_position. (position ≤ end_position) × (end_position ≤ length bytes.now)) }
{
    match skip_regex(&bytes[position..]) {
        Some(rest) => Some(bytes.len() - rest.len()),
        None => None,
    }
}

// Returns the position after a value of this size.
#[inline(always)]
fn value_end(size: ValueSize, bytes: &[u8], position: usize) -> Option<usize>
    requires { position ≤ length bytes.now }
    ensures outcome { option_map (λ end_position. drop end_position bytes.now) result
        ≡ skip_value_of_size size (drop position bytes.now) }
    ensures in_bounds { IfSome result (λ end_position. (position ≤ end_position) × (end_position ≤ length bytes.now)) }
{
    let count = match size {
        ValueSize::Fixed(count) => count as usize,
        ValueSize::LengthPrefixed(extra) => length_prefix(bytes, position)? + extra as usize,
        ValueSize::TwoCStrings => return regex_end(bytes, position),
    };
    if bytes.len() - position < count {
        return None;
    }
    Some(position + count)
}

// Returns the length of the name at the front, which a 0 byte ends. It is inlined, since a call for each
// name needs more time than the names.
#[inline(always)]
fn name_len(bytes: &[u8]) -> Option<usize>
    ensures outcome { option_map (λ name_size. (take name_size bytes.now, drop (name_size + 1) bytes.now)) result
        ≡ split_at_nul bytes.now }
    ensures in_bounds { IfSome result (λ name_size. name_size < length bytes.now) }
{
    for (index, byte) in bytes.iter().enumerate() {
        if *byte == 0 {
            return Some(index);
        }
    }
    None
}

// Returns the name of the element at a position, and the position after its value, or `None` at the end of
// the elements. Positions need fewer instructions than slices.
#[inline(always)]
pub(crate) fn name_and_value_end(bytes: &[u8], position: usize) -> Option<(&[u8], usize)>
    ensures outcome { (depth : ℕ) (pairs : Pairs) → BeginsWithElements depth (drop position bytes.now) pairs
        → IsNameAndRest pairs (drop position bytes.now)
        (option_map (λ name_and_end. (name_and_end.0.now, drop name_and_end.1 bytes.now)) result) }
    ensures in_bounds { IfSome result (λ name_and_end. (position + length name_and_end.0.now + 2 ≤ name_and_end.1)
        × (name_and_end.1 ≤ length bytes.now)) }
{
    if bytes.len() <= position {
        return None;
    }
    let tag = bytes[position];
    if tag == 0 {
        return None;
    }
    let rest = &bytes[position + 1..];
    let Some(len) = name_len(rest) else {
        return None;
    };
    let name = &rest[..len];
    let Some(end_position) = value_end(size_of(tag), bytes, position + name.len() + 2) else {
        return None;
    };
    Some((name, end_position))
}
