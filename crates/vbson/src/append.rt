//! Elements that are appended to documents in the caller's memory, by their types.
ghost use Rattle.std.specs.Prelude.{◌≡◌, ◌≢◌, ◌⊎◌, ◌+◌, ◌<◌, ◌≤◌, ◌^◌, length, take, false};
ghost use Rattle.std.specs.Int.{w32, w64};
ghost use Rattle.std.specs.Str.{is_utf8};
ghost use Rattle.bson_bytes.specs.Grammar.{IsLength, IsText, binary_bytes, little_endian, old_binary_bytes};
ghost use Rattle.bson_bytes.specs.Writing.{subtyped_size};
ghost use Rattle.bson_scalar.specs.Scalar as scalar;
ghost use Rattle.bson_types.specs.BinarySubtypes.{subtype_of};
ghost use Rattle.bson_types.specs.ElementTags.{tag_of};
ghost use Rattle.bson_types.specs.declared.spec.ElementType.{ElementType};
ghost use Rattle.bson_types.specs.declared.spec.ElementType.TheVariants as tag;
ghost use Rattle.bson_model.specs.declared.options.DuplicateKeys.TheVariants.{LastWins};
ghost use Rattle.vbson.specs.Documents.{IsOneDocument};
ghost use Rattle.vbson.specs.Builder.{Appends, AppendsScalar, HasSameBytes, is_true, length_placeholder};

use crate::builder::{Builder, Element, append_element, is_text};
use crate::documents::vbson_is_document;
use crate::raw::RawValue;
use crate::status;
use bson_types::spec::ElementType;

/// Begins a document as the value of the key, and sets the position of its beginning.
#[unsafe(no_mangle)]
pub extern "C" fn vbson_append_document_begin(
    builder: &mut Builder<'_>,
    key: &[u8],
    start_offset: &mut usize,
) -> u32
    ensures appended { Appends tag.EmbeddedDocument key.now length_placeholder result builder.old builder.new }
    ensures start_offset { result ≡ 0 → start_offset.new + 4 ≡ builder.new.len }
    ensures not_utf8 { result ≡ 6 → is_utf8 key.now ≡ false }
    ensures possible_statuses { (result ≡ 0) ⊎ (result ≡ 6) ⊎ (result ≡ 8) ⊎ (result ≡ 11) }
    ensures unchanged { 0 < result → start_offset.new ≡ start_offset.old }
{
    begin_container(builder, ElementType::EmbeddedDocument, key, start_offset)
}

/// Begins an array as the value of the key, and sets the position of its beginning.
#[unsafe(no_mangle)]
pub extern "C" fn vbson_append_array_begin(
    builder: &mut Builder<'_>,
    key: &[u8],
    start_offset: &mut usize,
) -> u32
    ensures appended { Appends tag.Array key.now length_placeholder result builder.old builder.new }
    ensures start_offset { result ≡ 0 → start_offset.new + 4 ≡ builder.new.len }
    ensures not_utf8 { result ≡ 6 → is_utf8 key.now ≡ false }
    ensures possible_statuses { (result ≡ 0) ⊎ (result ≡ 6) ⊎ (result ≡ 8) ⊎ (result ≡ 11) }
    ensures unchanged { 0 < result → start_offset.new ≡ start_offset.old }
{
    begin_container(builder, ElementType::Array, key, start_offset)
}

/// Appends a value of the caller's bytes.
#[unsafe(no_mangle)]
pub extern "C" fn vbson_append_value(
    builder: &mut Builder<'_>,
    key: &[u8],
    value: &RawValue<'_>,
) -> u32
    ensures appended { (type : ElementType) → tag_of type ≡ value.now.kind
        → Appends type key.now (take value.now.len value.now.bytes.now) result builder.old builder.new }
    ensures valid_value { result ≡ 0
        → (value.now.len ≤ length value.now.bytes.now) × ((type : ElementType) × (tag_of type ≡ value.now.kind)) }
    ensures no_value { result ≡ 1
        → (length value.now.bytes.now < value.now.len) ⊎ ((type : ElementType) → tag_of type ≢ value.now.kind) }
    ensures not_utf8 { result ≡ 6 → is_utf8 key.now ≡ false }
    ensures possible_statuses { (result ≤ 1) ⊎ (result ≡ 6) ⊎ (result ≡ 8) ⊎ (result ≡ 11) }
    ensures unchanged { 0 < result → HasSameBytes builder.old builder.new }
{
    let Some(kind) = ElementType::from(value.kind) else {
        return status::INVALID_ARGUMENT;
    };
    if value.bytes.len() < value.len {
        return status::INVALID_ARGUMENT;
    }
    append_value_bytes(builder, kind, key, &value.bytes[..value.len])
}

/// Appends a document, which is checked as `vbson_is_document` does.
#[unsafe(no_mangle)]
pub extern "C" fn vbson_append_document(builder: &mut Builder<'_>, key: &[u8], bytes: &[u8]) -> u32
    ensures appended { Appends tag.EmbeddedDocument key.now bytes.now result builder.old builder.new }
    ensures is_document { result ≡ 0 → IsOneDocument LastWins bytes.now }
    ensures no_document { result ≡ 10 → IsOneDocument LastWins bytes.now → ⊥ }
    ensures not_utf8 { result ≡ 6 → is_utf8 key.now ≡ false }
    ensures possible_statuses { (result ≡ 0) ⊎ (result ≡ 6) ⊎ (result ≡ 8) ⊎ (result ≡ 10) ⊎ (result ≡ 11) }
{
    append_checked_document(builder, ElementType::EmbeddedDocument, key, bytes)
}

/// Appends an array, whose bytes are those of a document, which is checked as `vbson_is_document` does.
#[unsafe(no_mangle)]
pub extern "C" fn vbson_append_array(builder: &mut Builder<'_>, key: &[u8], bytes: &[u8]) -> u32
    ensures appended { Appends tag.Array key.now bytes.now result builder.old builder.new }
    ensures is_document { result ≡ 0 → IsOneDocument LastWins bytes.now }
    ensures no_document { result ≡ 10 → IsOneDocument LastWins bytes.now → ⊥ }
    ensures not_utf8 { result ≡ 6 → is_utf8 key.now ≡ false }
    ensures possible_statuses { (result ≡ 0) ⊎ (result ≡ 6) ⊎ (result ≡ 8) ⊎ (result ≡ 10) ⊎ (result ≡ 11) }
{
    append_checked_document(builder, ElementType::Array, key, bytes)
}

/// Appends an integer of 32 bits.
#[unsafe(no_mangle)]
pub extern "C" fn vbson_append_int32(builder: &mut Builder<'_>, key: &[u8], value: i32) -> u32
    ensures appended { AppendsScalar key.now (scalar.int32 value) result builder.old builder.new }
    ensures not_utf8 { result ≡ 6 → is_utf8 key.now ≡ false }
    ensures possible_statuses { (result ≡ 0) ⊎ (result ≡ 6) ⊎ (result ≡ 8) ⊎ (result ≡ 11) }
{
    let bytes = little_endian_u32(value.cast_unsigned());
    append_value_bytes(builder, ElementType::Int32, key, &bytes)
}

/// Appends an integer of 64 bits.
#[unsafe(no_mangle)]
pub extern "C" fn vbson_append_int64(builder: &mut Builder<'_>, key: &[u8], value: i64) -> u32
    ensures appended { AppendsScalar key.now (scalar.int64 value) result builder.old builder.new }
    ensures not_utf8 { result ≡ 6 → is_utf8 key.now ≡ false }
    ensures possible_statuses { (result ≡ 0) ⊎ (result ≡ 6) ⊎ (result ≡ 8) ⊎ (result ≡ 11) }
{
    let bytes = little_endian_u64(value.cast_unsigned());
    append_value_bytes(builder, ElementType::Int64, key, &bytes)
}

/// Appends a double, given by its 64 bits.
#[unsafe(no_mangle)]
pub extern "C" fn vbson_append_double(builder: &mut Builder<'_>, key: &[u8], value: u64) -> u32
    ensures appended { AppendsScalar key.now (scalar.double value) result builder.old builder.new }
    ensures not_utf8 { result ≡ 6 → is_utf8 key.now ≡ false }
    ensures possible_statuses { (result ≡ 0) ⊎ (result ≡ 6) ⊎ (result ≡ 8) ⊎ (result ≡ 11) }
{
    append_value_bytes(builder, ElementType::Double, key, &little_endian_u64(value))
}

/// Appends a boolean: 0 is false, and any other number is true.
#[unsafe(no_mangle)]
pub extern "C" fn vbson_append_boolean(builder: &mut Builder<'_>, key: &[u8], value: u32) -> u32
    ensures appended { AppendsScalar key.now (scalar.boolean (is_true value)) result builder.old builder.new }
    ensures not_utf8 { result ≡ 6 → is_utf8 key.now ≡ false }
    ensures possible_statuses { (result ≡ 0) ⊎ (result ≡ 6) ⊎ (result ≡ 8) ⊎ (result ≡ 11) }
{
    append_value_bytes(builder, ElementType::Boolean, key, &[u8::from(value != 0)])
}

/// Appends the null value.
#[unsafe(no_mangle)]
pub extern "C" fn vbson_append_null(builder: &mut Builder<'_>, key: &[u8]) -> u32
    ensures appended { AppendsScalar key.now scalar.null result builder.old builder.new }
    ensures not_utf8 { result ≡ 6 → is_utf8 key.now ≡ false }
    ensures possible_statuses { (result ≡ 0) ⊎ (result ≡ 6) ⊎ (result ≡ 8) ⊎ (result ≡ 11) }
{
    append_value_bytes(builder, ElementType::Null, key, &[])
}

/// Appends a string.
#[unsafe(no_mangle)]
pub extern "C" fn vbson_append_string(builder: &mut Builder<'_>, key: &[u8], text: &[u8]) -> u32
    ensures appended { AppendsScalar key.now (scalar.text text.now) result builder.old builder.new }
    ensures valid_value { result ≡ 0 → IsText text.now }
    ensures not_utf8 { result ≡ 6 → (is_utf8 key.now ≡ false) ⊎ (is_utf8 text.now ≡ false) }
    ensures too_long { result ≡ 13 → 2 ^ 31 ≤ length text.now + 1 }
    ensures possible_statuses { (result ≡ 0) ⊎ (result ≡ 6) ⊎ (result ≡ 8) ⊎ (result ≡ 11) ⊎ (result ≡ 13) }
{
    if text.len() >= 0x7fff_ffff {
        return status::TOO_LONG;
    }
    if !is_text(text) {
        return status::INVALID_STRING;
    }
    let length = little_endian_u32(text.len() as u32 + 1);
    let element = Element {
        kind: ElementType::String,
        key,
        value_head: &length,
        value_body: text,
        value_tail: &[0],
    };
    append_element(builder, element)
}

/// Appends an object id.
#[unsafe(no_mangle)]
pub extern "C" fn vbson_append_object_id(
    builder: &mut Builder<'_>,
    key: &[u8],
    id: &[u8; 12],
) -> u32
    ensures appended { AppendsScalar key.now (scalar.object_id id.now) result builder.old builder.new }
    ensures not_utf8 { result ≡ 6 → is_utf8 key.now ≡ false }
    ensures possible_statuses { (result ≡ 0) ⊎ (result ≡ 6) ⊎ (result ≡ 8) ⊎ (result ≡ 11) }
{
    append_value_bytes(builder, ElementType::ObjectId, key, id)
}

/// Appends a date-time, in milliseconds since 1970-01-01T00:00:00Z.
#[unsafe(no_mangle)]
pub extern "C" fn vbson_append_date_time(builder: &mut Builder<'_>, key: &[u8], millis: i64) -> u32
    ensures appended { AppendsScalar key.now (scalar.date millis) result builder.old builder.new }
    ensures not_utf8 { result ≡ 6 → is_utf8 key.now ≡ false }
    ensures possible_statuses { (result ≡ 0) ⊎ (result ≡ 6) ⊎ (result ≡ 8) ⊎ (result ≡ 11) }
{
    let bytes = little_endian_u64(millis.cast_unsigned());
    append_value_bytes(builder, ElementType::DateTime, key, &bytes)
}

/// Appends binary data with a subtype.
#[unsafe(no_mangle)]
pub extern "C" fn vbson_append_binary(
    builder: &mut Builder<'_>,
    key: &[u8],
    subtype: u32,
    bytes: &[u8],
) -> u32
    ensures appended { AppendsScalar key.now
        (scalar.binary (subtype_of subtype) bytes.now) result builder.old builder.new }
    ensures valid_value { result ≡ 0 → (subtype < 256) × IsLength (subtyped_size subtype bytes.now) }
    ensures no_subtype { result ≡ 1 → 256 ≤ subtype }
    ensures not_utf8 { result ≡ 6 → is_utf8 key.now ≡ false }
    ensures too_long { result ≡ 13 → 2 ^ 31 ≤ subtyped_size subtype bytes.now }
    ensures possible_statuses { (result ≤ 1) ⊎ (result ≡ 6) ⊎ (result ≡ 8) ⊎ (result ≡ 11) ⊎ (result ≡ 13) }
{
    if subtype >= 256 {
        return status::INVALID_ARGUMENT;
    }
    if subtype == 2 {
        append_old_binary(builder, key, bytes)
    } else {
        append_plain_binary(builder, key, subtype as u8, bytes)
    }
}

/// Appends a decimal of 128 bits, the lowest byte first.
#[unsafe(no_mangle)]
pub extern "C" fn vbson_append_decimal128(
    builder: &mut Builder<'_>,
    key: &[u8],
    bytes: &[u8; 16],
) -> u32
    ensures appended { AppendsScalar key.now (scalar.decimal bytes.now) result builder.old builder.new }
    ensures not_utf8 { result ≡ 6 → is_utf8 key.now ≡ false }
    ensures possible_statuses { (result ≡ 0) ⊎ (result ≡ 6) ⊎ (result ≡ 8) ⊎ (result ≡ 11) }
{
    append_value_bytes(builder, ElementType::Decimal128, key, bytes)
}

// Appends binary data, whose subtype is not 2.
fn append_plain_binary(builder: &mut Builder<'_>, key: &[u8], subtype: u8, bytes: &[u8]) -> u32
    ensures appended { Appends tag.Binary key.now (binary_bytes subtype bytes.now) result builder.old builder.new }
    ensures valid_value { result ≡ 0 → IsLength (length bytes.now) }
    ensures not_utf8 { result ≡ 6 → is_utf8 key.now ≡ false }
    ensures too_long { result ≡ 13 → 2 ^ 31 ≤ length bytes.now }
    ensures possible_statuses { (result ≡ 0) ⊎ (result ≡ 6) ⊎ (result ≡ 8) ⊎ (result ≡ 11) ⊎ (result ≡ 13) }
{
    if bytes.len() >= 0x8000_0000 {
        return status::TOO_LONG;
    }
    let length = little_endian_u32(bytes.len() as u32);
    let element = Element {
        kind: ElementType::Binary,
        key,
        value_head: &length,
        value_body: &[subtype],
        value_tail: bytes,
    };
    append_element(builder, element)
}

// Appends binary data of the subtype 2, which has a length of its own before its bytes.
#[tactic(auto, unfolding(bson_bytes::specs::Grammar::little_endian))]
fn append_old_binary(builder: &mut Builder<'_>, key: &[u8], bytes: &[u8]) -> u32
    ensures appended { Appends tag.Binary key.now (old_binary_bytes bytes.now) result builder.old builder.new }
    ensures valid_value { result ≡ 0 → IsLength (length bytes.now + 4) }
    ensures not_utf8 { result ≡ 6 → is_utf8 key.now ≡ false }
    ensures too_long { result ≡ 13 → 2 ^ 31 ≤ length bytes.now + 4 }
    ensures possible_statuses { (result ≡ 0) ⊎ (result ≡ 6) ⊎ (result ≡ 8) ⊎ (result ≡ 11) ⊎ (result ≡ 13) }
{
    if bytes.len() >= 0x7fff_fffc {
        return status::TOO_LONG;
    }
    let outer_length = little_endian_u32(bytes.len() as u32 + 4);
    let inner_length = (bytes.len() as u32).to_le_bytes();
    let element = Element {
        kind: ElementType::Binary,
        key,
        value_head: &outer_length,
        value_body: &[
            2,
            inner_length[0],
            inner_length[1],
            inner_length[2],
            inner_length[3],
        ],
        value_tail: bytes,
    };
    append_element(builder, element)
}

// Begins a document or an array as the value of the key.
fn begin_container(
    builder: &mut Builder<'_>,
    kind: ElementType,
    key: &[u8],
    start_offset: &mut usize,
) -> u32
    ensures appended { Appends kind key.now length_placeholder result builder.old builder.new }
    ensures start_offset { result ≡ 0 → start_offset.new + 4 ≡ builder.new.len }
    ensures not_utf8 { result ≡ 6 → is_utf8 key.now ≡ false }
    ensures possible_statuses { (result ≡ 0) ⊎ (result ≡ 6) ⊎ (result ≡ 8) ⊎ (result ≡ 11) }
    ensures unchanged { 0 < result → start_offset.new ≡ start_offset.old }
{
    let status = append_value_bytes(builder, kind, key, &[0, 0, 0, 0]);
    if status == status::OK {
        *start_offset = builder.len - 4;
    }
    status
}

// Appends a document or an array, if the bytes are a document.
fn append_checked_document(
    builder: &mut Builder<'_>,
    kind: ElementType,
    key: &[u8],
    bytes: &[u8],
) -> u32
    ensures appended { Appends kind key.now bytes.now result builder.old builder.new }
    ensures is_document { result ≡ 0 → IsOneDocument LastWins bytes.now }
    ensures no_document { result ≡ 10 → IsOneDocument LastWins bytes.now → ⊥ }
    ensures not_utf8 { result ≡ 6 → is_utf8 key.now ≡ false }
    ensures possible_statuses { (result ≡ 0) ⊎ (result ≡ 6) ⊎ (result ≡ 8) ⊎ (result ≡ 10) ⊎ (result ≡ 11) }
{
    let status = vbson_is_document(bytes);
    if status != status::OK {
        return status;
    }
    append_value_bytes(builder, kind, key, bytes)
}

// Appends an element with the bytes of its value.
fn append_value_bytes(builder: &mut Builder<'_>, kind: ElementType, key: &[u8], bytes: &[u8]) -> u32
    ensures appended { Appends kind key.now bytes.now result builder.old builder.new }
    ensures not_utf8 { result ≡ 6 → is_utf8 key.now ≡ false }
    ensures possible_statuses { (result ≡ 0) ⊎ (result ≡ 6) ⊎ (result ≡ 8) ⊎ (result ≡ 11) }
{
    let element = Element {
        kind,
        key,
        value_head: bytes,
        value_body: &[],
        value_tail: &[],
    };
    append_element(builder, element)
}

// Returns the bytes of a number of 32 bits, the lowest first.
#[tactic(auto, unfolding(bson_bytes::specs::Grammar::little_endian))]
fn little_endian_u32(number: u32) -> [u8; 4]
    ensures { result ≡ little_endian w32 number }
{
    number.to_le_bytes()
}

// Returns the bytes of a number of 64 bits, the lowest first.
#[tactic(auto, unfolding(bson_bytes::specs::Grammar::little_endian))]
fn little_endian_u64(number: u64) -> [u8; 8]
    ensures { result ≡ little_endian w64 number }
{
    number.to_le_bytes()
}
