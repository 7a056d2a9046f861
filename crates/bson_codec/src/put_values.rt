//! Values that are appended to bytes.
ghost use Rattle.std.specs.Prelude.{◌≡◌, ◌≤◌, length, OnOk};
ghost use Rattle.bson_bytes.specs.PutSteps.{put_value, put_document, put_length_placeholder, PutsBytes};
ghost use Rattle.bson_bytes.specs.Writing.{type_of, IsWellTyped, IsWellTypedDocument};
ghost use Rattle.bson.specs.View.{bson_view, code_with_scope_view, document_view, values_view, contents};
ghost use Rattle.bson.specs.Pairs.{HasDistinctKeys};
ghost use Rattle.bson_model.specs.Value.{array};

use crate::ser::Result;
use bson::{Bson, Document, JavaScriptCodeWithScope};
use bson_bytes::write_parts::{
    put_binary, put_key, put_length, put_length_placeholder, put_name, put_nul_and_length,
    put_pointer, put_regex, put_text, put_timestamp, put_u32, put_u64,
};
use bson_types::spec::ElementType;
use itoa::Buffer;
use std::alloc::AllocError;

#[cycle(write)]
#[tactic(auto, unfolding(bson_bytes::specs::PutSteps::put_value), using(bson_bytes::proofs::Offered::string_utf8))]
fn put_value(output: &mut Vec<u8>, value: &Bson) -> Result<()>
    ensures put { PutsBytes result output.new.items (put_value (bson_view value.now) output.old.items) }
    ensures typed { OnOk result (IsWellTyped (bson_view value.now)) }
    ensures grows { OnOk result (length output.old.items ≤ length output.new.items) }
{
    match value {
        Bson::Double(pattern) => Ok(put_u64(output, *pattern)?),
        Bson::String(text) => put_text(output, text.as_str()),
        Bson::Array(values) => put_array(output, values),
        Bson::Document(document) => put_document(output, document),
        Bson::Boolean(truth) => Ok(output.push(u8::from(*truth))?),
        Bson::Null => Ok(()),
        Bson::RegularExpression(regex) => put_regex(output, regex),
        Bson::JavaScriptCode(code) => put_text(output, code.as_str()),
        Bson::JavaScriptCodeWithScope(scoped_code) => put_code_with_scope(output, scoped_code),
        Bson::Int32(number) => Ok(put_u32(output, number.cast_unsigned())?),
        Bson::Int64(number) => Ok(put_u64(output, number.cast_unsigned())?),
        Bson::Timestamp(timestamp) => Ok(put_timestamp(output, *timestamp)?),
        Bson::Binary(binary) => put_binary(output, binary),
        Bson::ObjectId(id) => Ok(output.extend_from_slice(&id.bytes())?),
        Bson::DateTime(date) => Ok(put_u64(output, date.timestamp_millis().cast_unsigned())?),
        Bson::Symbol(symbol) => put_text(output, symbol.as_str()),
        Bson::Decimal128(decimal) => Ok(output.extend_from_slice(&decimal.bytes())?),
        Bson::Undefined => Ok(()),
        Bson::MaxKey => Ok(()),
        Bson::MinKey => Ok(()),
        Bson::DbPointer(pointer) => put_pointer(output, pointer),
    }
}

#[cycle(write)]
#[tactic(auto, unfolding(bson_bytes::specs::PutSteps::put_value), using(bson_bytes::proofs::Offered::string_utf8))]
fn put_code_with_scope(output: &mut Vec<u8>, scoped_code: &JavaScriptCodeWithScope) -> Result<()>
    ensures put { PutsBytes result output.new.items
        (put_value (code_with_scope_view scoped_code.now) output.old.items) }
    ensures typed { OnOk result (IsWellTyped (code_with_scope_view scoped_code.now)) }
    ensures grows { OnOk result (length output.old.items ≤ length output.new.items) }
{
    let length_start = output.len();
    put_length_placeholder(output)?;
    put_text(output, scoped_code.code.as_str())?;
    put_document(output, &scoped_code.scope)?;
    put_length(output, length_start)
}

#[cycle(write)]
pub(crate) fn put_document(output: &mut Vec<u8>, document: &Document) -> Result<()>
    ensures put { PutsBytes result output.new.items (put_document (document_view document.now) output.old.items) }
    ensures typed { OnOk result (IsWellTypedDocument (document_view document.now)) }
    ensures grows { OnOk result (length output.old.items ≤ length output.new.items) }
{
    let length_start = output.len();
    reserve_pairs(output, document)?;
    let mut pairs = document.iter();
    'elements: while let Some((key, value)) = pairs.next() {
        put_key(output, type_of(value), key.as_str())?;
        put_value(output, value)?;
    }
    put_nul_and_length(output, length_start)
}

#[cycle(write)]
fn put_array(output: &mut Vec<u8>, values: &Vec<Bson>) -> Result<()>
    ensures put { PutsBytes result output.new.items
        (put_value (array (values_view values.now.items)) output.old.items) }
    ensures typed { OnOk result (IsWellTyped (array (values_view values.now.items))) }
    ensures grows { OnOk result (length output.old.items ≤ length output.new.items) }
{
    let length_start = output.len();
    put_length_placeholder(output)?;
    let mut buffer = Buffer::new();
    for (index, value) in values.iter().enumerate() {
        put_name(output, type_of(value), buffer.format(index))?;
        put_value(output, value)?;
    }
    put_nul_and_length(output, length_start)
}

/// The number of bytes that are reserved for each pair of a document. Most pairs need more.
const MIN_PAIR_BYTES: usize = 8;

// Appends four bytes for the length of the document, and reserves bytes for its pairs.
fn reserve_pairs(output: &mut Vec<u8>, document: &Document) -> Result<(), AllocError>
    ensures room { OnOk result (output.new.items ≡ put_length_placeholder output.old.items) }
    ensures distinct { HasDistinctKeys (contents document.now) }
{
    output.reserve(document.len().saturating_mul(MIN_PAIR_BYTES))?;
    put_length_placeholder(output)
}

fn type_of(value: &Bson) -> ElementType
    ensures { result ≡ type_of (bson_view value.now) }
{
    value.element_type()
}
