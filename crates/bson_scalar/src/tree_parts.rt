//! Shapes of trees: a text, an integer, an object of one key and one of two.
ghost use Rattle.std.specs.Prelude.{◌≡◌, ◌&&◌, option_map, string_bytes};
ghost use Rattle.std.specs.Str.{bytes_eq};
ghost use Rattle.serde_json.specs.Find.{as_str};
ghost use Rattle.serde_json.specs.Data.{object};
ghost use Rattle.serde_json.specs.View.{view, members_view};
ghost use Rattle.hex.specs.Hex.{IsBytes};
ghost use Rattle.bson_scalar.specs.Faults.{IsReadResult, or_wrong_shape};
ghost use Rattle.bson_scalar.specs.Reading.{single_key_member, two_members};
ghost use Rattle.bson_scalar.specs.TreeParts.{u32_at, i64_at};

use crate::error::Error;
use serde_json::{Map, Value};

// The value, or `DeserializationError` with the message where there is none.
pub(crate) fn expect<T: Drop>(value: Option<T>, message: &'static str) -> Result<T, Error>
    ensures { IsReadResult (λ read_value. read_value) result (or_wrong_shape value) }
{
    match value {
        Some(value) => Ok(value),
        None => Err(Error::DeserializationError { message }),
    }
}

// The text that a tree is, moved out of it.
pub(crate) fn expect_string(value: Value, message: &'static str) -> Result<String, Error>
    ensures { IsReadResult string_bytes result (or_wrong_shape (as_str (view value))) }
{
    match value {
        Value::String(text) => Ok(text),
        _ => Err(Error::DeserializationError { message }),
    }
}

// What an object of this key alone holds.
pub(crate) fn expect_single_key(
    value: Value,
    key: &str,
    message: &'static str,
) -> Result<Value, Error>
    ensures { IsReadResult view result (or_wrong_shape (single_key_member key.now (view value))) }
{
    match single_key_of(value, key) {
        Some(content) => Ok(content),
        None => Err(Error::DeserializationError { message }),
    }
}

// What an object of just these two keys holds, of which `first_key` is the lesser.
pub(crate) fn expect_two_keys(
    value: Value,
    first_key: &str,
    second_key: &str,
    message: &'static str,
) -> Result<(Value, Value), Error>
    ensures { IsReadResult (λ two_values. (view two_values.0, view two_values.1)) result
        (or_wrong_shape (two_members first_key.now second_key.now (view value))) }
{
    match two_keys_of(value, first_key, second_key) {
        Some(content) => Ok(content),
        None => Err(Error::DeserializationError { message }),
    }
}

fn are_keys(key: &str, other_key: &str, first_key: &str, second_key: &str) -> bool
    ensures { result ≡ (bytes_eq key.now first_key.now && bytes_eq other_key.now second_key.now) }
{
    key == first_key && other_key == second_key
}

fn two_member_values(
    mut members: Map<String, Value>,
    first_key: &str,
    second_key: &str,
) -> Option<(Value, Value)>
    ensures { option_map (λ two_values. (view two_values.0, view two_values.1)) result
        ≡ two_members first_key.now second_key.now (object (members_view members.entries)) }
{
    let (key, value) = members.pop_first()?;
    let (other_key, other_value) = members.pop_first()?;
    if !members.is_empty() {
        return None;
    }
    if are_keys(key.as_str(), other_key.as_str(), first_key, second_key) {
        Some((value, other_value))
    } else {
        None
    }
}

fn two_keys_of(value: Value, first_key: &str, second_key: &str) -> Option<(Value, Value)>
    ensures { option_map (λ two_values. (view two_values.0, view two_values.1)) result
        ≡ two_members first_key.now second_key.now (view value) }
{
    match value {
        Value::Object(members) => two_member_values(members, first_key, second_key),
        _ => None,
    }
}

fn only_member_value(mut content: Map<String, Value>, key_name: &str) -> Option<Value>
    ensures { option_map view result ≡ single_key_member key_name.now (object (members_view content.entries)) }
{
    let (key, value) = content.pop_first()?;
    if !content.is_empty() {
        return None;
    }
    if key.as_str() == key_name {
        Some(value)
    } else {
        None
    }
}

fn single_key_of(value: Value, key_name: &str) -> Option<Value>
    ensures { option_map view result ≡ single_key_member key_name.now (view value) }
{
    match value {
        Value::Object(members) => only_member_value(members, key_name),
        _ => None,
    }
}

// The integer that a tree is, where it is an i64.
pub(crate) fn i64_of(value: &Value) -> Option<i64>
    ensures { result ≡ i64_at (view value.now) }
{
    value.as_i64()
}

// The integer from 0 to 4294967295 that a tree is.
pub(crate) fn u32_of(value: &Value) -> Option<u32>
    ensures { result ≡ u32_at (view value.now) }
{
    match i64_of(value) {
        Some(integer_value) => if 0 <= integer_value && integer_value <= u32::MAX as i64 {
            Some(integer_value as u32)
        } else {
            None
        },
        None => None,
    }
}

// Tells that numbers of the type u8 are below 256.
pub(crate) fn bytes_are_below_256(bytes: &[u8])
    ensures { IsBytes bytes.now }
{
    let _len = bytes.len();
}
