//! The value of a key, by its type.
ghost use Rattle.std.specs.Prelude.{◌≡◌, option_map};
ghost use Rattle.bson_model.specs.Value.{value_at_key};
ghost use Rattle.bson_bytes.specs.RawContents.{raw_contents, raw_array_values};
ghost use Rattle.bson_bytes.specs.RawView.{raw_view};
ghost use Rattle.bson_bytes.specs.TypedGetters.{raw_value_at, ok_view, raw_type_result};
ghost use Rattle.bson_bytes.specs.TypedGetters.{array_value, binary_value, boolean_value, date_value, decimal_value, document_value, double_value};
ghost use Rattle.bson_bytes.specs.TypedGetters.{int32_value, int64_value, object_id_value, regex_value, string_value, timestamp_value};
ghost use Rattle.bson_bytes.specs.TypedGetters.{binary_parts, regex_parts, timestamp_parts};

use crate::find_key::find;
use crate::raw_document::{RawArray, RawDocument};
use crate::raw_read::read_valid_value;
use crate::raw_value::{RawBinaryRef, RawBsonRef, RawRegexRef};
use bson_decimal::Decimal128;
use bson_types::datetime::DateTime;
use bson_types::oid::ObjectId;
use bson_types::timestamp::Timestamp;

/// Why a typed getter returns no value.
#[derive(Clone, Copy, PartialEq, Eq, Debug, thiserror::Error)]
pub enum ValueAccessError {
    /// The document does not contain the key.
    #[error("the key is not present")]
    NotPresent,
    /// The value of the key has another type.
    #[error("the value has another type")]
    UnexpectedType,
}

/// What a typed getter returns.
pub type ValueAccessResult<T> = Result<T, ValueAccessError>;

impl<'a> RawDocument<'a> {
    /// Returns the value of the key, or `None` if the document does not contain the key. If the key is
    /// duplicated, its last value wins. It passes the other values by their lengths.
    pub fn get(&self, key: &str) -> Option<RawBsonRef<'a>>
        ensures { option_map raw_view result ≡ value_at_key key.now (raw_contents self.now) }
    {
        let Some(element) = find(self.bytes, key.as_bytes()) else {
            return None;
        };
        Some(read_valid_value(element.kind, element.value, self.depth - 1))
    }

    /// Returns the bit pattern of the double at the key.
    ///
    /// # Errors
    ///
    /// `NotPresent` if the document does not contain the key, and `UnexpectedType` if the value has
    /// another type.
    pub fn get_f64(&self, key: &str) -> ValueAccessResult<u64>
        ensures { result ≡ raw_value_at double_value key.now self.now }
    {
        match self.get(key) {
            Some(value) => or_unexpected_type(value.as_f64()),
            None => Err(ValueAccessError::NotPresent),
        }
    }

    /// Returns the string at the key.
    ///
    /// # Errors
    ///
    /// `NotPresent` if the document does not contain the key, and `UnexpectedType` if the value has
    /// another type.
    pub fn get_str(&self, key: &str) -> ValueAccessResult<&'a str>
        ensures { ok_view (λ text. text.now) result ≡ raw_value_at string_value key.now self.now }
    {
        match self.get(key) {
            Some(value) => or_unexpected_type(value.as_str()),
            None => Err(ValueAccessError::NotPresent),
        }
    }

    /// Returns the array at the key.
    ///
    /// # Errors
    ///
    /// `NotPresent` if the document does not contain the key, and `UnexpectedType` if the value has
    /// another type.
    pub fn get_array(&self, key: &str) -> ValueAccessResult<RawArray<'a>>
        ensures { ok_view raw_array_values result ≡ raw_value_at array_value key.now self.now }
    {
        match self.get(key) {
            Some(value) => or_unexpected_type(value.as_array()),
            None => Err(ValueAccessError::NotPresent),
        }
    }

    /// Returns the document at the key.
    ///
    /// # Errors
    ///
    /// `NotPresent` if the document does not contain the key, and `UnexpectedType` if the value has
    /// another type.
    pub fn get_document(&self, key: &str) -> ValueAccessResult<RawDocument<'a>>
        ensures { ok_view raw_contents result ≡ raw_value_at document_value key.now self.now }
    {
        match self.get(key) {
            Some(value) => or_unexpected_type(value.as_document()),
            None => Err(ValueAccessError::NotPresent),
        }
    }

    /// Returns the boolean at the key.
    ///
    /// # Errors
    ///
    /// `NotPresent` if the document does not contain the key, and `UnexpectedType` if the value has
    /// another type.
    pub fn get_bool(&self, key: &str) -> ValueAccessResult<bool>
        ensures { result ≡ raw_value_at boolean_value key.now self.now }
    {
        match self.get(key) {
            Some(value) => or_unexpected_type(value.as_bool()),
            None => Err(ValueAccessError::NotPresent),
        }
    }

    /// Returns the integer of 32 bits at the key.
    ///
    /// # Errors
    ///
    /// `NotPresent` if the document does not contain the key, and `UnexpectedType` if the value has
    /// another type.
    pub fn get_i32(&self, key: &str) -> ValueAccessResult<i32>
        ensures { result ≡ raw_value_at int32_value key.now self.now }
    {
        match self.get(key) {
            Some(value) => or_unexpected_type(value.as_i32()),
            None => Err(ValueAccessError::NotPresent),
        }
    }

    /// Returns the integer of 64 bits at the key.
    ///
    /// # Errors
    ///
    /// `NotPresent` if the document does not contain the key, and `UnexpectedType` if the value has
    /// another type.
    pub fn get_i64(&self, key: &str) -> ValueAccessResult<i64>
        ensures { result ≡ raw_value_at int64_value key.now self.now }
    {
        match self.get(key) {
            Some(value) => or_unexpected_type(value.as_i64()),
            None => Err(ValueAccessError::NotPresent),
        }
    }

    /// Returns the timestamp at the key.
    ///
    /// # Errors
    ///
    /// `NotPresent` if the document does not contain the key, and `UnexpectedType` if the value has
    /// another type.
    pub fn get_timestamp(&self, key: &str) -> ValueAccessResult<Timestamp>
        ensures { ok_view timestamp_parts result ≡ raw_value_at timestamp_value key.now self.now }
    {
        match self.get(key) {
            Some(value) => or_unexpected_type(value.as_timestamp()),
            None => Err(ValueAccessError::NotPresent),
        }
    }

    /// Returns the binary data at the key.
    ///
    /// # Errors
    ///
    /// `NotPresent` if the document does not contain the key, and `UnexpectedType` if the value has
    /// another type.
    pub fn get_binary(&self, key: &str) -> ValueAccessResult<RawBinaryRef<'a>>
        ensures { ok_view binary_parts result ≡ raw_value_at binary_value key.now self.now }
    {
        match self.get(key) {
            Some(value) => or_unexpected_type(value.as_binary()),
            None => Err(ValueAccessError::NotPresent),
        }
    }

    /// Returns the regular expression at the key.
    ///
    /// # Errors
    ///
    /// `NotPresent` if the document does not contain the key, and `UnexpectedType` if the value has
    /// another type.
    pub fn get_regex(&self, key: &str) -> ValueAccessResult<RawRegexRef<'a>>
        ensures { ok_view regex_parts result ≡ raw_value_at regex_value key.now self.now }
    {
        match self.get(key) {
            Some(value) => or_unexpected_type(value.as_regex()),
            None => Err(ValueAccessError::NotPresent),
        }
    }

    /// Returns the object id at the key.
    ///
    /// # Errors
    ///
    /// `NotPresent` if the document does not contain the key, and `UnexpectedType` if the value has
    /// another type.
    pub fn get_object_id(&self, key: &str) -> ValueAccessResult<ObjectId>
        ensures { result ≡ raw_value_at object_id_value key.now self.now }
    {
        match self.get(key) {
            Some(value) => or_unexpected_type(value.as_object_id()),
            None => Err(ValueAccessError::NotPresent),
        }
    }

    /// Returns the date-time at the key.
    ///
    /// # Errors
    ///
    /// `NotPresent` if the document does not contain the key, and `UnexpectedType` if the value has
    /// another type.
    pub fn get_datetime(&self, key: &str) -> ValueAccessResult<DateTime>
        ensures { result ≡ raw_value_at date_value key.now self.now }
    {
        match self.get(key) {
            Some(value) => or_unexpected_type(value.as_datetime()),
            None => Err(ValueAccessError::NotPresent),
        }
    }

    /// Returns the decimal of 128 bits at the key.
    ///
    /// # Errors
    ///
    /// `NotPresent` if the document does not contain the key, and `UnexpectedType` if the value has
    /// another type.
    pub fn get_decimal128(&self, key: &str) -> ValueAccessResult<Decimal128>
        ensures { result ≡ raw_value_at decimal_value key.now self.now }
    {
        match self.get(key) {
            Some(value) => or_unexpected_type(value.as_decimal128()),
            None => Err(ValueAccessError::NotPresent),
        }
    }
}

impl<'a> RawBsonRef<'a> {
    /// Returns the bit pattern of the double of a `Double`, or `None` if the value has another type.
    pub fn as_f64(&self) -> Option<u64>
        ensures { result ≡ double_value (raw_view self.now) }
    {
        match self {
            RawBsonRef::Double(pattern) => Some(*pattern),
            _ => None,
        }
    }

    /// Returns the string of a `String`, or `None` if the value has another type.
    pub fn as_str(&self) -> Option<&'a str>
        ensures { option_map (λ text. text.now) result ≡ string_value (raw_view self.now) }
    {
        match self {
            RawBsonRef::String(text) => Some(*text),
            _ => None,
        }
    }

    /// Returns the array of an `Array`, or `None` if the value has another type.
    pub fn as_array(&self) -> Option<RawArray<'a>>
        ensures { option_map raw_array_values result ≡ array_value (raw_view self.now) }
    {
        match self {
            RawBsonRef::Array(array) => Some(*array),
            _ => None,
        }
    }

    /// Returns the document of a `Document`, or `None` if the value has another type.
    pub fn as_document(&self) -> Option<RawDocument<'a>>
        ensures { option_map raw_contents result ≡ document_value (raw_view self.now) }
    {
        match self {
            RawBsonRef::Document(document) => Some(*document),
            _ => None,
        }
    }

    /// Returns the boolean of a `Boolean`, or `None` if the value has another type.
    pub fn as_bool(&self) -> Option<bool>
        ensures { result ≡ boolean_value (raw_view self.now) }
    {
        match self {
            RawBsonRef::Boolean(boolean) => Some(*boolean),
            _ => None,
        }
    }

    /// Returns the integer of 32 bits of an `Int32`, or `None` if the value has another type.
    pub fn as_i32(&self) -> Option<i32>
        ensures { result ≡ int32_value (raw_view self.now) }
    {
        match self {
            RawBsonRef::Int32(number) => Some(*number),
            _ => None,
        }
    }

    /// Returns the integer of 64 bits of an `Int64`, or `None` if the value has another type.
    pub fn as_i64(&self) -> Option<i64>
        ensures { result ≡ int64_value (raw_view self.now) }
    {
        match self {
            RawBsonRef::Int64(number) => Some(*number),
            _ => None,
        }
    }

    /// Returns the timestamp of a `Timestamp`, or `None` if the value has another type.
    pub fn as_timestamp(&self) -> Option<Timestamp>
        ensures { option_map timestamp_parts result ≡ timestamp_value (raw_view self.now) }
    {
        match self {
            RawBsonRef::Timestamp(timestamp) => Some(*timestamp),
            _ => None,
        }
    }

    /// Returns the binary data of a `Binary`, or `None` if the value has another type.
    pub fn as_binary(&self) -> Option<RawBinaryRef<'a>>
        ensures { option_map binary_parts result ≡ binary_value (raw_view self.now) }
    {
        match self {
            RawBsonRef::Binary(binary) => Some(*binary),
            _ => None,
        }
    }

    /// Returns the regular expression of a `RegularExpression`, or `None` if the value has another type.
    pub fn as_regex(&self) -> Option<RawRegexRef<'a>>
        ensures { option_map regex_parts result ≡ regex_value (raw_view self.now) }
    {
        match self {
            RawBsonRef::RegularExpression(regex) => Some(*regex),
            _ => None,
        }
    }

    /// Returns the object id of an `ObjectId`, or `None` if the value has another type.
    pub fn as_object_id(&self) -> Option<ObjectId>
        ensures { result ≡ object_id_value (raw_view self.now) }
    {
        match self {
            RawBsonRef::ObjectId(id) => Some(*id),
            _ => None,
        }
    }

    /// Returns the date-time of a `DateTime`, or `None` if the value has another type.
    pub fn as_datetime(&self) -> Option<DateTime>
        ensures { result ≡ date_value (raw_view self.now) }
    {
        match self {
            RawBsonRef::DateTime(date) => Some(*date),
            _ => None,
        }
    }

    /// Returns the decimal of 128 bits of a `Decimal128`, or `None` if the value has another type.
    pub fn as_decimal128(&self) -> Option<Decimal128>
        ensures { result ≡ decimal_value (raw_view self.now) }
    {
        match self {
            RawBsonRef::Decimal128(decimal) => Some(*decimal),
            _ => None,
        }
    }
}

// Returns the value, or the error if it has another type.
fn or_unexpected_type<T>(value: Option<T>) -> ValueAccessResult<T>
    ensures { result ≡ raw_type_result value }
{
    match value {
        Some(value) => Ok(value),
        None => Err(ValueAccessError::UnexpectedType),
    }
}
