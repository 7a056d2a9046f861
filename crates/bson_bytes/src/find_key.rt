//! The value of a key.
ghost use Rattle.std.specs.Prelude.{◌≡◌, ◌-◌, ◌≤◌, ℕ, length, drop, IfSome, if◌then◌else◌, Option, Some, option_map};
ghost use Rattle.std.specs.Str.{bytes_eq};
ghost use Rattle.bson_model.specs.Value.{Pairs, Value, value_at_key};
ghost use Rattle.bson_bytes.specs.Grammar.{deduplicated};
ghost use Rattle.bson_bytes.specs.ReadElements.{BeginsWithDocument};
ghost use Rattle.bson_bytes.specs.RawElements.{IsValueOfElement, IsValueOfFirstElement};

use crate::raw_element::{RawElement, first_element};
use crate::skip_value::name_and_value_end;

/// Returns the last element with the key, or `None` if no element has the key. The element is right
/// if the bytes begin with a document. It passes the other values by their lengths.
pub fn find<'a>(bytes: &'a [u8], key: &[u8]) -> Option<RawElement<'a>>
    ensures last_value { (depth : ℕ) (pairs : Pairs) → BeginsWithDocument depth bytes.now pairs
        → (1 ≤ depth) × IsValueOfElement (depth - 1) result (value_at_key key.now (deduplicated pairs)) }
    ensures rest_in_value { IfSome result (λ element. length element.rest.now ≤ length element.value.now) }
{
    let mut found_position = None;
    // The elements follow the length of the document.
    let mut position = 4;
    'elements: loop {
        let Some((name, next_position)) = name_and_value_end(bytes, position) else {
            return element_at_position(bytes, found_position);
        };
        found_position = later_position(found_position, is_key(key, name), position);
        position = next_position;
    }
}

// Returns whether the name is the key.
fn is_key(key: &[u8], name: &[u8]) -> bool
    ensures { result ≡ bytes_eq key.now name.now }
{
    key == name
}

// Returns this position if its element has the key, and otherwise the position that was found.
fn later_position(found_position: Option<usize>, has_key: bool, position: usize) -> Option<usize>
    ensures { result ≡ if has_key then Some position else found_position }
{
    if has_key {
        Some(position)
    } else {
        found_position
    }
}

// Returns the element at the position.
fn element_at_position(bytes: &[u8], found_position: Option<usize>) -> Option<RawElement<'_>>
    requires { IfSome found_position (λ position. position ≤ length bytes.now) }
    ensures last_value { (depth : ℕ) (expected_value : Option Value)
        → IsValueOfFirstElement depth (option_map (λ position. drop position bytes.now) found_position) expected_value
        → IsValueOfElement depth result expected_value }
    ensures rest_in_value { IfSome result (λ element. length element.rest.now ≤ length element.value.now) }
{
    match found_position {
        Some(position) => first_element(&bytes[position..]),
        None => None,
    }
}
