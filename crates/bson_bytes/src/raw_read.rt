//! How a value in its bytes is read.
ghost use Rattle.std.specs.Prelude.{◌≡◌, ℕ, List, true, false, Ok, IfOk, MatchOption};
ghost use Rattle.std.specs.Result.{is_ok};
ghost use Rattle.bson_bytes.specs.Fault.{ReturnsReading};
ghost use Rattle.bson_bytes.specs.Reading.{read_old_binary, read_plain_binary, read_binary, read_boolean, read_regex, read_pointer};
ghost use Rattle.bson_bytes.specs.Reading.{read_timestamp, read_code_with_scope, read_value_in, read_document_in, read_first_document};
ghost use Rattle.bson_types.specs.declared.spec.ElementType.TheVariants as tag;
ghost use Rattle.bson_model.specs.declared.options.DuplicateKeys.TheVariants.{LastWins};
ghost use Rattle.bson_bytes.specs.ReadScalars.{double_from_bytes, date_from_bytes, int32_from_bytes, int64_from_bytes, string_from_bytes, symbol_from_bytes};
ghost use Rattle.bson_bytes.specs.ReadScalars.{code_from_bytes, object_id_from_bytes, decimal_from_bytes};
ghost use Rattle.bson_model.specs.Value.{Value};
ghost use Rattle.bson_bytes.specs.ReadElements.{without_rest};
ghost use Rattle.bson_bytes.specs.NestedValues.{IsNested, is_nested_type};
ghost use Rattle.bson_bytes.specs.RawView.{raw_view};

use crate::fault::{Fault, FaultKind, fault_at};
use crate::raw_document::{RawArray, RawDocument};
use crate::raw_value::{
    RawBinaryRef, RawBsonRef, RawDbPointerRef, RawJavaScriptCodeWithScopeRef, RawRegexRef,
};
use crate::read_parts::{
    read_12_bytes, read_16_bytes, read_byte, read_bytes, read_length, read_name, read_string,
    read_u32, read_u64,
};
use bson_decimal::Decimal128;
use bson_types::datetime::DateTime;
use bson_types::oid::ObjectId;
use bson_types::spec::{BinarySubtype, ElementType};
use bson_types::timestamp::Timestamp;

fn read_double(bytes: &[u8]) -> Result<RawBsonRef<'_>, Fault>
    ensures { ReturnsReading raw_view result (without_rest (double_from_bytes bytes.now)) }
{
    let (pattern, _) = read_u64(bytes)?;
    Ok(RawBsonRef::Double(pattern))
}

fn read_date(bytes: &[u8]) -> Result<RawBsonRef<'_>, Fault>
    ensures { ReturnsReading raw_view result (without_rest (date_from_bytes bytes.now)) }
{
    let (number, _) = read_u64(bytes)?;
    let date = DateTime::from_millis(number.cast_signed());
    Ok(RawBsonRef::DateTime(date))
}

fn read_int32(bytes: &[u8]) -> Result<RawBsonRef<'_>, Fault>
    ensures { ReturnsReading raw_view result (without_rest (int32_from_bytes bytes.now)) }
{
    let (number, _) = read_u32(bytes)?;
    Ok(RawBsonRef::Int32(number.cast_signed()))
}

fn read_int64(bytes: &[u8]) -> Result<RawBsonRef<'_>, Fault>
    ensures { ReturnsReading raw_view result (without_rest (int64_from_bytes bytes.now)) }
{
    let (number, _) = read_u64(bytes)?;
    Ok(RawBsonRef::Int64(number.cast_signed()))
}

fn read_string_value(bytes: &[u8]) -> Result<RawBsonRef<'_>, Fault>
    ensures { ReturnsReading raw_view result (without_rest (string_from_bytes bytes.now)) }
{
    let (text, _) = read_string(bytes)?;
    Ok(RawBsonRef::String(text))
}

fn read_symbol(bytes: &[u8]) -> Result<RawBsonRef<'_>, Fault>
    ensures { ReturnsReading raw_view result (without_rest (symbol_from_bytes bytes.now)) }
{
    let (text, _) = read_string(bytes)?;
    Ok(RawBsonRef::Symbol(text))
}

fn read_code(bytes: &[u8]) -> Result<RawBsonRef<'_>, Fault>
    ensures { ReturnsReading raw_view result (without_rest (code_from_bytes bytes.now)) }
{
    let (text, _) = read_string(bytes)?;
    Ok(RawBsonRef::JavaScriptCode(text))
}

fn read_object_id(bytes: &[u8]) -> Result<RawBsonRef<'_>, Fault>
    ensures { ReturnsReading raw_view result (without_rest (object_id_from_bytes bytes.now)) }
{
    let (id, _) = read_12_bytes(bytes)?;
    Ok(RawBsonRef::ObjectId(ObjectId::from_bytes(id)))
}

fn read_decimal(bytes: &[u8]) -> Result<RawBsonRef<'_>, Fault>
    ensures { ReturnsReading raw_view result (without_rest (decimal_from_bytes bytes.now)) }
{
    let (pattern, _) = read_16_bytes(bytes)?;
    Ok(RawBsonRef::Decimal128(Decimal128::from_bytes(pattern)))
}

#[tactic(auto, unfolding(crate::specs::Reading::read_boolean))]
fn read_boolean(bytes: &[u8]) -> Result<RawBsonRef<'_>, Fault>
    ensures { ReturnsReading raw_view result (without_rest (read_boolean bytes.now)) }
{
    let (byte, _) = read_byte(bytes)?;
    if byte == 0 {
        Ok(RawBsonRef::Boolean(false))
    } else if byte == 1 {
        Ok(RawBsonRef::Boolean(true))
    } else {
        Err(fault_at(FaultKind::Boolean, bytes))
    }
}

fn read_old_binary(size: usize, bytes: &[u8]) -> Result<RawBsonRef<'_>, Fault>
    ensures { ReturnsReading raw_view result (without_rest (read_old_binary size bytes.now)) }
{
    let (inner_size, rest) = read_length(bytes)?;
    if inner_size + 4 != size {
        return Err(fault_at(FaultKind::Length, bytes));
    }
    let (bytes, _) = read_bytes(inner_size, rest)?;
    let subtype = BinarySubtype::from(2);
    Ok(RawBsonRef::Binary(RawBinaryRef { subtype, bytes }))
}

fn read_plain_binary(subtype_byte: u8, size: usize, bytes: &[u8]) -> Result<RawBsonRef<'_>, Fault>
    ensures { ReturnsReading raw_view result (without_rest (read_plain_binary subtype_byte size bytes.now)) }
{
    let (bytes, _) = read_bytes(size, bytes)?;
    let subtype = BinarySubtype::from(subtype_byte);
    Ok(RawBsonRef::Binary(RawBinaryRef { subtype, bytes }))
}

#[tactic(auto, unfolding(crate::specs::Reading::read_binary))]
fn read_binary(bytes: &[u8]) -> Result<RawBsonRef<'_>, Fault>
    ensures { ReturnsReading raw_view result (without_rest (read_binary bytes.now)) }
{
    let (size, rest) = read_length(bytes)?;
    let (subtype_byte, rest) = read_byte(rest)?;
    if subtype_byte == 2 {
        read_old_binary(size, rest)
    } else {
        read_plain_binary(subtype_byte, size, rest)
    }
}

#[tactic(auto, unfolding(crate::specs::Reading::read_regex))]
fn read_regex(bytes: &[u8]) -> Result<RawBsonRef<'_>, Fault>
    ensures { ReturnsReading raw_view result (without_rest (read_regex bytes.now)) }
{
    let (pattern, rest) = read_name(bytes)?;
    let (options, _) = read_name(rest)?;
    let regex = RawRegexRef { pattern, options };
    Ok(RawBsonRef::RegularExpression(regex))
}

#[tactic(auto, unfolding(crate::specs::Reading::read_pointer))]
fn read_pointer(bytes: &[u8]) -> Result<RawBsonRef<'_>, Fault>
    ensures { ReturnsReading raw_view result (without_rest (read_pointer bytes.now)) }
{
    let (namespace, rest) = read_string(bytes)?;
    let (id, _) = read_12_bytes(rest)?;
    let id = ObjectId::from_bytes(id);
    Ok(RawBsonRef::DbPointer(RawDbPointerRef { namespace, id }))
}

#[tactic(auto, unfolding(crate::specs::Reading::read_timestamp))]
fn read_timestamp(bytes: &[u8]) -> Result<RawBsonRef<'_>, Fault>
    ensures { ReturnsReading raw_view result (without_rest (read_timestamp bytes.now)) }
{
    let (increment, rest) = read_u32(bytes)?;
    let (time, _) = read_u32(rest)?;
    Ok(RawBsonRef::Timestamp(Timestamp { time, increment }))
}

// Returns code with its scope, and does not validate the scope again.
#[tactic(auto, unfolding(crate::specs::Reading::read_code_with_scope))]
fn read_code_with_scope(bytes: &[u8], depth: usize) -> Result<RawBsonRef<'_>, Fault>
    requires { is_ok (read_code_with_scope (read_first_document depth) bytes.now) ≡ true }
    ensures { ReturnsReading raw_view result
        (without_rest (read_code_with_scope (read_first_document depth) bytes.now)) }
{
    let (_, rest) = read_length(bytes)?;
    let (code, bytes) = read_string(rest)?;
    let scope = RawDocument { bytes, depth };
    let code = RawJavaScriptCodeWithScopeRef { code, scope };
    Ok(RawBsonRef::JavaScriptCodeWithScope(code))
}

// Returns a document that is a value, and does not validate it again.
#[tactic(auto, unfolding(crate::specs::Reading::read_value_in))]
fn read_embedded_document(bytes: &[u8], depth: usize) -> RawBsonRef<'_>
    requires { is_ok (read_value_in LastWins (read_document_in LastWins depth) tag.EmbeddedDocument bytes.now) ≡ true }
    ensures { without_rest (read_value_in LastWins (read_document_in LastWins depth) tag.EmbeddedDocument bytes.now)
        ≡ Ok (raw_view result) }
{
    RawBsonRef::Document(RawDocument { bytes, depth })
}

// Returns an array, and does not validate it again.
#[tactic(auto, unfolding(crate::specs::Reading::read_value_in))]
fn read_array(bytes: &[u8], depth: usize) -> RawBsonRef<'_>
    requires { is_ok (read_value_in LastWins (read_document_in LastWins depth) tag.Array bytes.now) ≡ true }
    ensures { without_rest (read_value_in LastWins (read_document_in LastWins depth) tag.Array bytes.now)
        ≡ Ok (raw_view result) }
{
    let elements = RawDocument { bytes, depth };
    RawBsonRef::Array(RawArray { elements })
}

// Returns the value at the front of the bytes, which is valid.
pub(crate) fn read_valid_value(
    element_type: ElementType,
    bytes: &[u8],
    depth: usize,
) -> RawBsonRef<'_>
    requires { is_ok (read_value_in LastWins (read_document_in LastWins depth) element_type bytes.now) ≡ true }
    ensures { without_rest (read_value_in LastWins (read_document_in LastWins depth) element_type bytes.now)
        ≡ Ok (raw_view result) }
{
    match read_value(element_type, bytes, depth) {
        Ok(value) => value,
        Err(_) => unreachable!(),
    }
}

// Reads the value at the front of the bytes, and validates no document again.
#[tactic(auto, unfolding(crate::specs::Reading::read_value_in))]
fn read_value(
    element_type: ElementType,
    bytes: &[u8],
    depth: usize,
) -> Result<RawBsonRef<'_>, Fault>
    requires { is_ok (read_value_in LastWins (read_document_in LastWins depth) element_type bytes.now) ≡ true }
    ensures { ReturnsReading raw_view result
        (without_rest (read_value_in LastWins (read_document_in LastWins depth) element_type bytes.now)) }
{
    match element_type {
        ElementType::EmbeddedDocument => Ok(read_embedded_document(bytes, depth)),
        ElementType::Array => Ok(read_array(bytes, depth)),
        ElementType::JavaScriptCodeWithScope => read_code_with_scope(bytes, depth),
        _ => read_scalar(element_type, bytes),
    }
}

/// Returns the value at the front of the bytes, unless it contains a document. The value is right if
/// the bytes begin with a value of this type.
pub fn read_scalar_value(element_type: ElementType, bytes: &[u8]) -> Option<RawBsonRef<'_>>
    ensures { (depth : ℕ) (value_read : Value) (rest : List ℕ)
        → read_value_in LastWins (read_document_in LastWins depth) element_type bytes.now ≡ Ok (value_read, rest)
        → MatchOption result (IsNested value_read) (λ raw_value. raw_view raw_value ≡ value_read) }
{
    match read_scalar(element_type, bytes) {
        Ok(value) => Some(value),
        Err(_) => None,
    }
}

// Reads the value at the front of the bytes, unless it contains a document.
#[tactic(auto, unfolding(crate::specs::Reading::read_value_in))]
fn read_scalar(element_type: ElementType, bytes: &[u8]) -> Result<RawBsonRef<'_>, Fault>
    ensures scalar { (depth : ℕ) → is_nested_type element_type ≡ false
        → ReturnsReading raw_view result
        (without_rest (read_value_in LastWins (read_document_in LastWins depth) element_type bytes.now)) }
    ensures nested { is_nested_type element_type ≡ true → IfOk result (λ raw_value. ⊥) }
{
    match element_type {
        ElementType::Double => read_double(bytes),
        ElementType::String => read_string_value(bytes),
        ElementType::Binary => read_binary(bytes),
        ElementType::Undefined => Ok(RawBsonRef::Undefined),
        ElementType::ObjectId => read_object_id(bytes),
        ElementType::Boolean => read_boolean(bytes),
        ElementType::DateTime => read_date(bytes),
        ElementType::Null => Ok(RawBsonRef::Null),
        ElementType::RegularExpression => read_regex(bytes),
        ElementType::DbPointer => read_pointer(bytes),
        ElementType::JavaScriptCode => read_code(bytes),
        ElementType::Symbol => read_symbol(bytes),
        ElementType::Int32 => read_int32(bytes),
        ElementType::Timestamp => read_timestamp(bytes),
        ElementType::Int64 => read_int64(bytes),
        ElementType::Decimal128 => read_decimal(bytes),
        ElementType::MaxKey => Ok(RawBsonRef::MaxKey),
        ElementType::MinKey => Ok(RawBsonRef::MinKey),
        ElementType::EmbeddedDocument | ElementType::Array | ElementType::JavaScriptCodeWithScope =>
            Err(fault_at(FaultKind::Tag, bytes)),
    }
}
