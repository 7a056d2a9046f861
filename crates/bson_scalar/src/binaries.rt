//! `$binary`: bytes and their subtype; and `$uuid`, the hyphenated text of a UUID. Read and written
//! as `{"base64": "aGVsbG8=", "subType": "00"}` under `$binary` (RFC 4648 section 4, with padding;
//! two hexadecimal digits, of which lower-case ones are written). `$uuid` is read alone, as
//! `{"$uuid": "00112233-4455-6677-8899-aabbccddeeff"}`, and means a binary of subtype 04.
ghost use Rattle.std.specs.Prelude.{◌≡◌, ◌<◌, IfOk, OnOk, ◌∷◌, [], codes, string_bytes};
ghost use Rattle.serde_json.specs.Data.{string};
ghost use Rattle.serde_json.specs.View.{view};
ghost use Rattle.hex.specs.Hex.{encode_lower, IsBytes};
ghost use Rattle.bson_types.specs.Base64.{padded_base64};
ghost use Rattle.bson_types.specs.UuidByteOrder.{parsed_hyphenated};
ghost use Rattle.bson_types.specs.BinarySubtypes.{subtype_byte};
ghost use Rattle.bson_scalar.specs.Binaries.{binary_tree};
ghost use Rattle.bson_scalar.specs.Faults.{IsReadResult, or_wrong_shape};
ghost use Rattle.bson_scalar.specs.Reading.{binary_read, uuid_read, byte_of_hex as hex_byte};
ghost use Rattle.bson_scalar.specs.Reading.{decoded_base64};
ghost use Rattle.bson_scalar.specs.TreeParts.{one_key_object, two_key_object};
ghost use Rattle.bson_scalar.specs.View.{scalar_view};

use crate::error::Error;
use crate::object_writer::{begin_object, end_one_key_object, write_two_texts_object};
use crate::scalar::Scalar;
use crate::sink::Sink;
use crate::tree_parts::{bytes_are_below_256, expect, expect_string, expect_two_keys};
use base64::engine::general_purpose::STANDARD;
use bson_types::binary::{self, Binary};
use bson_types::spec::BinarySubtype;
use bson_types::uuid_value::Uuid;
use serde_json::Value;
use std::alloc::{AllocError, Global};

const BINARY_MESSAGE: &str = "`$binary` must have the strings `base64` and `subType`";

const UUID_MESSAGE: &str = "`$uuid` must be a string with a hyphenated UUID";

// The byte of a text of two hexadecimal digits.
fn byte_of_hex(text: &str) -> Option<u8>
    ensures { result ≡ hex_byte text.now }
{
    let mut bytes = [0u8; 1];
    match hex::decode_to_slice(text, &mut bytes) {
        Ok(()) => Some(bytes[0]),
        Err(_) => None,
    }
}

fn decode_base64(alloc: Global, text: &str) -> Result<Vec<u8>, Error>
    ensures { IsReadResult (λ byte_vector. byte_vector.items) result (or_wrong_shape (decoded_base64 text.now)) }
{
    match Binary::from_base64(alloc, text, None) {
        Ok(Binary { subtype: _, bytes }) => Ok(bytes),
        Err(binary::Error::OutOfMemory) => Err(Error::OutOfMemory),
        Err(_) => Err(Error::DeserializationError {
            message: "`base64` is not valid base64",
        }),
    }
}

// What `$binary` holds, as a binary.
pub(crate) fn read_binary(alloc: Global, value: Value) -> Result<Scalar, Error>
    ensures { IsReadResult scalar_view result (binary_read (view value)) }
{
    let (base64, subtype) = expect_two_keys(value, "base64", "subType", BINARY_MESSAGE)?;
    let base64 = expect_string(base64, BINARY_MESSAGE)?;
    let subtype = expect_string(subtype, BINARY_MESSAGE)?;
    let bytes = decode_base64(alloc, base64.as_str())?;
    let subtype_number = expect(
        byte_of_hex(subtype.as_str()),
        "`subType` must be two hexadecimal digits",
    )?;
    Ok(Scalar::Binary(Binary {
        subtype: BinarySubtype::from(subtype_number),
        bytes,
    }))
}

// The UUID of a text of the hyphenated form, the only one that has 36 bytes.
fn uuid_of(text: &str) -> Option<Uuid>
    ensures { result ≡ parsed_hyphenated text.now }
{
    if text.len() != 36 {
        return None;
    }
    match Uuid::parse_str(text) {
        Ok(id) => Some(id),
        Err(_) => None,
    }
}

// What `$uuid` holds, as a binary of the subtype of UUIDs: a text of 36 bytes, with `-` at places
// 8, 13, 18 and 23, counted from 0, and hexadecimal digits of either case elsewhere. The other
// spellings that `Uuid::parse_str` accepts are rejected.
pub(crate) fn read_uuid(alloc: Global, value: Value) -> Result<Scalar, Error>
    ensures { IsReadResult scalar_view result (uuid_read (view value)) }
{
    let text = expect_string(value, UUID_MESSAGE)?;
    let id = expect(uuid_of(text.as_str()), UUID_MESSAGE)?;
    Ok(Scalar::Binary(Binary::from_uuid(alloc, id)?))
}

fn subtype_hex_text(alloc: Global, subtype: BinarySubtype) -> Result<String, AllocError>
    ensures text { IfOk result (λ written_text. string_bytes written_text ≡ encode_lower (subtype_byte subtype ∷ [])) }
    ensures within_type_range { OnOk result (subtype_byte subtype < 256) }
{
    let subtype_number = u8::from(subtype);
    hex::encode(alloc, [subtype_number])
}

fn base64_text(alloc: Global, bytes: &[u8]) -> Result<String, AllocError>
    ensures { IfOk result (λ written_text. string_bytes written_text ≡ padded_base64 bytes.now) }
{
    STANDARD.encode(alloc, bytes)
}

// What `$binary` holds.
#[derive(Drop)]
struct BinaryTexts {
    base64: String,
    subtype: String,
}

fn binary_texts_of(alloc: Global, binary: &Binary) -> Result<BinaryTexts, AllocError>
    ensures base64 { IfOk result (λ texts. string_bytes texts.base64 ≡ padded_base64 binary.now.bytes.items) }
    ensures subtype { IfOk result (λ texts. string_bytes texts.subtype
        ≡ encode_lower (subtype_byte binary.now.subtype ∷ [])) }
    ensures within_type_range { OnOk result ((subtype_byte binary.now.subtype < 256) × IsBytes binary.now.bytes.items) }
{
    bytes_are_below_256(binary.bytes.as_slice());
    let base64 = base64_text(alloc, binary.bytes.as_slice())?;
    let subtype = subtype_hex_text(alloc, binary.subtype)?;
    Ok(BinaryTexts { base64, subtype })
}

fn write_binary_texts<S: Sink>(texts: BinaryTexts, sink: &mut S) -> Result<S::Tree, AllocError>
    ensures written { IfOk result (λ written_tree. S.wrote_tree sink.old
        (one_key_object (codes "$binary")
        (two_key_object (codes "base64") (string (string_bytes texts.base64)) (codes "subType")
        (string (string_bytes texts.subtype)))) written_tree sink.new) }
    ensures before { S.before sink.new ≡ S.before sink.old }
{
    let BinaryTexts { base64, subtype } = texts;
    let key = begin_object("$binary", sink)?;
    let texts = write_two_texts_object("base64", base64, "subType", subtype, sink)?;
    end_one_key_object(key, texts, sink)
}

// Writes the tree of a binary, in both forms.
pub(crate) fn write_binary<S: Sink>(
    alloc: Global,
    binary: &Binary,
    sink: &mut S,
) -> Result<S::Tree, AllocError>
    ensures written { IfOk result (λ written_tree. S.wrote_tree sink.old
        (binary_tree binary.now.subtype binary.now.bytes.items) written_tree sink.new) }
    ensures before { S.before sink.new ≡ S.before sink.old }
    ensures within_type_range { OnOk result ((subtype_byte binary.now.subtype < 256) × IsBytes binary.now.bytes.items) }
{
    write_binary_texts(binary_texts_of(alloc, binary)?, sink)
}

// Writes the tree of a binary, as `write_binary` does. Its bytes are dropped before the texts are
// written to the sink.
pub(crate) fn write_owned_binary<S: Sink>(
    alloc: Global,
    binary: Binary,
    sink: &mut S,
) -> Result<S::Tree, AllocError>
    ensures written { IfOk result (λ written_tree. S.wrote_tree sink.old
        (binary_tree binary.subtype binary.bytes.items) written_tree sink.new) }
    ensures before { S.before sink.new ≡ S.before sink.old }
    ensures within_type_range { OnOk result ((subtype_byte binary.subtype < 256) × IsBytes binary.bytes.items) }
{
    let texts = binary_texts_of(alloc, &binary)?;
    drop(binary);
    write_binary_texts(texts, sink)
}
