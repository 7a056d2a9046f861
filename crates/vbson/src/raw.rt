//! Values of documents that remain bytes, which the caller has validated.
ghost use Rattle.std.specs.Prelude.{◌≡◌, ◌⊎◌, ◌<◌, ◌≤◌, ◌-◌, ℕ, length, option_map, MatchOption};
ghost use Rattle.bson_bytes.specs.Grammar.{deduplicated};
ghost use Rattle.bson_model.specs.Value.{Pairs, Value, value_at_key};
ghost use Rattle.bson_bytes.specs.TypedGetters.{binary_value, boolean_value, date_value, double_value, int32_value, int64_value, object_id_value, string_value};
ghost use Rattle.bson_bytes.specs.NestedValues.{IsNested};
ghost use Rattle.bson_bytes.specs.ReadElements.{BeginsWithDocument, BeginsWithElements};
ghost use Rattle.bson_bytes.specs.RawView.{raw_view};
ghost use Rattle.vbson.specs.Raw.{IsLookupResult, IsNextElement, IsTypedResult, IsRawValueOf, IsRawValueOfElement, boolean_number, subtype_and_bytes};

use crate::status;
use bson_bytes::RawBsonRef;
use bson_bytes::find_key::find;
use bson_bytes::raw_element::{RawElement, elements_after_length, first_element};
use bson_bytes::raw_read::read_scalar_value;
use bson_types::spec::ElementType;

/// A part of the caller's bytes.
#[repr(C)]
#[derive(Clone, Copy)]
pub struct Slice<'a> {
    pub bytes: &'a [u8],
}

/// A value in the caller's bytes: the bytes from its beginning on, how many of them are the value,
/// and the tag of its type.
#[repr(C)]
#[derive(Clone, Copy)]
pub struct RawValue<'a> {
    pub bytes: &'a [u8],
    pub len: usize,
    pub kind: u8,
}

/// Finds the value of a key, in bytes that begin with a document. If the key is duplicated, its last
/// value wins.
#[unsafe(no_mangle)]
pub extern "C" fn vbson_raw_get<'a>(bytes: &'a [u8], key: &[u8], out: &mut RawValue<'a>) -> u32
    ensures lookup_result { (depth : ℕ) (pairs : Pairs) → BeginsWithDocument depth bytes.now pairs
        → IsLookupResult (depth - 1) (value_at_key key.now (deduplicated pairs)) result out.new }
    ensures possible_statuses { (result ≡ 0) ⊎ (result ≡ 14) }
    ensures unchanged { 0 < result → out.new ≡ out.old }
{
    match find(bytes, key) {
        Some(element) => {
            *out = value_of(element);
            status::OK
        }
        None => status::NOT_FOUND,
    }
}

/// Begins an iteration over the elements of a document, in bytes that begin with it.
#[unsafe(no_mangle)]
pub extern "C" fn vbson_raw_elements<'a>(bytes: &'a [u8], cursor: &mut Slice<'a>) -> u32
    ensures begun { (depth : ℕ) (pairs : Pairs) → BeginsWithDocument depth bytes.now pairs
        → (result ≡ 0) × BeginsWithElements (depth - 1) cursor.new.bytes.now pairs }
    ensures possible_statuses { (result ≡ 0) ⊎ (result ≡ 10) }
    ensures unchanged { 0 < result → cursor.new ≡ cursor.old }
{
    match elements_after_length(bytes) {
        Some(bytes) => {
            *cursor = Slice { bytes };
            status::OK
        }
        None => status::NOT_A_DOCUMENT,
    }
}

/// Reads the next element, and moves the cursor past it.
#[unsafe(no_mangle)]
pub extern "C" fn vbson_raw_next<'a>(
    cursor: &mut Slice<'a>,
    key: &mut Slice<'a>,
    value: &mut RawValue<'a>,
) -> u32
    ensures next_element { (depth : ℕ) (pairs : Pairs) → BeginsWithElements depth cursor.old.bytes.now pairs
        → IsNextElement depth pairs result cursor.new key.new value.new }
    ensures possible_statuses { (result ≡ 0) ⊎ (result ≡ 14) }
    ensures unchanged { 0 < result → (cursor.new ≡ cursor.old) × (key.new ≡ key.old) × (value.new ≡ value.old) }
{
    match first_element(cursor.bytes) {
        Some(element) => {
            *key = Slice { bytes: element.key };
            *value = value_of(element);
            *cursor = Slice {
                bytes: element.rest,
            };
            status::OK
        }
        None => status::NOT_FOUND,
    }
}

/// Reads the integer of an Int32.
#[unsafe(no_mangle)]
pub extern "C" fn vbson_raw_int32(value: &RawValue<'_>, out: &mut i32) -> u32
    ensures typed { (depth : ℕ) (denoted_value : Value) → IsRawValueOf depth denoted_value value.now
        → IsTypedResult (int32_value denoted_value) result out.new }
    ensures possible_statuses { (result ≡ 0) ⊎ (result ≡ 15) }
    ensures unchanged { 0 < result → out.new ≡ out.old }
{
    let Some(scalar) = scalar_of(value) else {
        return status::UNEXPECTED_TYPE;
    };
    let Some(number) = scalar.as_i32() else {
        return status::UNEXPECTED_TYPE;
    };
    *out = number;
    status::OK
}

/// Reads the integer of an Int64.
#[unsafe(no_mangle)]
pub extern "C" fn vbson_raw_int64(value: &RawValue<'_>, out: &mut i64) -> u32
    ensures typed { (depth : ℕ) (denoted_value : Value) → IsRawValueOf depth denoted_value value.now
        → IsTypedResult (int64_value denoted_value) result out.new }
    ensures possible_statuses { (result ≡ 0) ⊎ (result ≡ 15) }
    ensures unchanged { 0 < result → out.new ≡ out.old }
{
    let Some(scalar) = scalar_of(value) else {
        return status::UNEXPECTED_TYPE;
    };
    let Some(number) = scalar.as_i64() else {
        return status::UNEXPECTED_TYPE;
    };
    *out = number;
    status::OK
}

/// Reads the 64 bits of a double.
#[unsafe(no_mangle)]
pub extern "C" fn vbson_raw_double(value: &RawValue<'_>, out: &mut u64) -> u32
    ensures typed { (depth : ℕ) (denoted_value : Value) → IsRawValueOf depth denoted_value value.now
        → IsTypedResult (double_value denoted_value) result out.new }
    ensures possible_statuses { (result ≡ 0) ⊎ (result ≡ 15) }
    ensures unchanged { 0 < result → out.new ≡ out.old }
{
    let Some(scalar) = scalar_of(value) else {
        return status::UNEXPECTED_TYPE;
    };
    let Some(pattern) = scalar.as_f64() else {
        return status::UNEXPECTED_TYPE;
    };
    *out = pattern;
    status::OK
}

/// Reads a boolean, as 0 or 1.
#[unsafe(no_mangle)]
pub extern "C" fn vbson_raw_boolean(value: &RawValue<'_>, out: &mut u32) -> u32
    ensures typed { (depth : ℕ) (denoted_value : Value) → IsRawValueOf depth denoted_value value.now
        → IsTypedResult (option_map boolean_number (boolean_value denoted_value)) result out.new }
    ensures possible_statuses { (result ≡ 0) ⊎ (result ≡ 15) }
    ensures unchanged { 0 < result → out.new ≡ out.old }
{
    let Some(scalar) = scalar_of(value) else {
        return status::UNEXPECTED_TYPE;
    };
    let Some(boolean) = scalar.as_bool() else {
        return status::UNEXPECTED_TYPE;
    };
    *out = boolean_to_u32(boolean);
    status::OK
}

/// Reads the bytes of a string.
#[unsafe(no_mangle)]
pub extern "C" fn vbson_raw_string<'a>(value: &RawValue<'a>, out: &mut Slice<'a>) -> u32
    ensures typed { (depth : ℕ) (denoted_value : Value) → IsRawValueOf depth denoted_value value.now
        → IsTypedResult (string_value denoted_value) result out.new.bytes.now }
    ensures possible_statuses { (result ≡ 0) ⊎ (result ≡ 15) }
    ensures unchanged { 0 < result → out.new ≡ out.old }
{
    let Some(scalar) = scalar_of(value) else {
        return status::UNEXPECTED_TYPE;
    };
    let Some(text) = scalar.as_str() else {
        return status::UNEXPECTED_TYPE;
    };
    *out = Slice {
        bytes: text.as_bytes(),
    };
    status::OK
}

/// Reads the 12 bytes of an object id.
#[unsafe(no_mangle)]
pub extern "C" fn vbson_raw_object_id(value: &RawValue<'_>, out: &mut [u8; 12]) -> u32
    ensures typed { (depth : ℕ) (denoted_value : Value) → IsRawValueOf depth denoted_value value.now
        → IsTypedResult (object_id_value denoted_value) result out.new }
    ensures possible_statuses { (result ≡ 0) ⊎ (result ≡ 15) }
    ensures unchanged { 0 < result → out.new ≡ out.old }
{
    let Some(scalar) = scalar_of(value) else {
        return status::UNEXPECTED_TYPE;
    };
    let Some(id) = scalar.as_object_id() else {
        return status::UNEXPECTED_TYPE;
    };
    *out = id.bytes();
    status::OK
}

/// Reads a date-time, in milliseconds since 1970-01-01T00:00:00Z.
#[unsafe(no_mangle)]
pub extern "C" fn vbson_raw_date_time(value: &RawValue<'_>, out: &mut i64) -> u32
    ensures typed { (depth : ℕ) (denoted_value : Value) → IsRawValueOf depth denoted_value value.now
        → IsTypedResult (date_value denoted_value) result out.new }
    ensures possible_statuses { (result ≡ 0) ⊎ (result ≡ 15) }
    ensures unchanged { 0 < result → out.new ≡ out.old }
{
    let Some(scalar) = scalar_of(value) else {
        return status::UNEXPECTED_TYPE;
    };
    let Some(date) = scalar.as_datetime() else {
        return status::UNEXPECTED_TYPE;
    };
    *out = date.timestamp_millis();
    status::OK
}

/// Reads the subtype and the bytes of binary data.
#[unsafe(no_mangle)]
pub extern "C" fn vbson_raw_binary<'a>(
    value: &RawValue<'a>,
    subtype: &mut u32,
    out: &mut Slice<'a>,
) -> u32
    ensures typed { (depth : ℕ) (denoted_value : Value) → IsRawValueOf depth denoted_value value.now
        → IsTypedResult (option_map subtype_and_bytes (binary_value denoted_value)) result
        (subtype.new, out.new.bytes.now) }
    ensures possible_statuses { (result ≡ 0) ⊎ (result ≡ 15) }
    ensures unchanged { 0 < result → (subtype.new ≡ subtype.old) × (out.new ≡ out.old) }
{
    let Some(scalar) = scalar_of(value) else {
        return status::UNEXPECTED_TYPE;
    };
    let Some(binary) = scalar.as_binary() else {
        return status::UNEXPECTED_TYPE;
    };
    *subtype = u32::from(u8::from(binary.subtype));
    *out = Slice {
        bytes: binary.bytes,
    };
    status::OK
}

// Returns the value of the element. It is inlined, since an element that a call passes through memory
// needs more time than everything else.
#[inline(always)]
fn value_of<'a>(element: RawElement<'a>) -> RawValue<'a>
    requires { length element.rest.now ≤ length element.value.now }
    ensures { IsRawValueOfElement element.entry result }
{
    RawValue {
        bytes: element.value,
        len: element.value.len() - element.rest.len(),
        kind: element.kind.tag(),
    }
}

// Returns the value in its bytes, unless it contains a document.
fn scalar_of<'a>(value: &RawValue<'a>) -> Option<RawBsonRef<'a>>
    ensures { (depth : ℕ) (denoted_value : Value) → IsRawValueOf depth denoted_value value.now
        → MatchOption result (IsNested denoted_value) (λ scalar. raw_view scalar ≡ denoted_value) }
{
    let Some(kind) = ElementType::from(value.kind) else {
        return None;
    };
    read_scalar_value(kind, value.bytes)
}

// Returns 1 for true and 0 for false.
fn boolean_to_u32(boolean: bool) -> u32
    ensures { result ≡ boolean_number boolean }
{
    if boolean { 1 } else { 0 }
}
