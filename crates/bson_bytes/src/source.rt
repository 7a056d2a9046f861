//! The one loop over the elements of a document.
ghost use Rattle.std.specs.Prelude.{◌≤◌, length, IfOk};
ghost use Rattle.bson_bytes.specs.Reading.{read_code_with_scope, read_value_in, read_elements, read_document_in, no_earlier_keys, insert_pairs_read, reads_bytes_in};
ghost use Rattle.bson_types.specs.declared.spec.ElementType.TheVariants as tag;
ghost use Rattle.bson_model.specs.Value.{no_pairs};
ghost use Rattle.bson_bytes.specs.Source.{ReadsTo, ReadsAllTo, earlier_keys};

use crate::fault::FaultKind;
use crate::fixed_scalar::FixedSizeScalar;
use crate::read_parts::{read_byte, read_length, read_string, type_of_tag};
use crate::read_scalars::{
    read_binary, read_boolean, read_code, read_date, read_decimal, read_double, read_empty_value,
    read_int32, read_int64, read_object_id, read_pointer, read_regex, read_string_value,
    read_symbol, read_timestamp,
};
use crate::sink::ValueSink;
use crate::stop::{Stop, fault_at};
use bson_types::spec::ElementType;

/// Reads all of the bytes as a document, and writes it to the sink.
///
/// # Errors
///
/// `Stop::Fault` has the first fault of the bytes. Any other stop is the sink's own.
#[tactic(auto, unfolding(crate::specs::Reading::reads_bytes_in))]
pub fn read_document<S: ValueSink>(
    bytes: &[u8],
    depth: usize,
    value_sink: &mut S,
) -> Result<S::Document, Stop>
    ensures { ReadsAllTo S.may_stop
        (λ pairs_read returned. S.document_written value_sink.old pairs_read returned value_sink.new) result
        (reads_bytes_in S.keys depth bytes.now) }
{
    let (document, rest) = read_first_document(bytes, depth, value_sink)?;
    if !rest.is_empty() {
        return Err(fault_at(FaultKind::Trailing, rest));
    }
    Ok(document)
}

/// Reads a document at the front of the bytes, writes it to the sink, and returns the bytes after it.
/// Documents, arrays and scopes may nest at most `depth` deep.
///
/// # Errors
///
/// `Stop::Fault` has the first fault of the bytes. Any other stop is the sink's own.
#[cycle(source)]
pub fn read_first_document<'a, S: ValueSink>(
    bytes: &'a [u8],
    depth: usize,
    value_sink: &mut S,
) -> Result<(S::Document, &'a [u8]), Stop>
    ensures outcome { ReadsTo S.may_stop (λ returned. returned.1.now)
        (λ pairs_read returned. S.document_written value_sink.old pairs_read returned.0 value_sink.new) result
        (insert_pairs_read no_pairs (read_document_in S.keys depth (no_earlier_keys S.keys) bytes.now)) }
    ensures shorter { IfOk result (λ returned. length returned.1.now ≤ length bytes.now) }
{
    let (open_list, rest) = read_sized_elements(true, bytes, depth, value_sink)?;
    let document = value_sink.end_document(open_list)?;
    Ok((document, rest))
}

// Reads an array, whose elements may have any names.
#[cycle(source)]
#[tactic(auto, unfolding(crate::specs::Reading::read_value_in))]
fn read_array<'a, S: ValueSink>(
    bytes: &'a [u8],
    depth: usize,
    value_sink: &mut S,
) -> Result<(S::Value, &'a [u8]), Stop>
    ensures outcome { ReadsTo S.may_stop (λ returned. returned.1.now)
        (λ value_read returned. S.value_written value_sink.old value_read returned.0 value_sink.new) result
        (read_value_in S.keys (read_document_in S.keys depth) tag.Array bytes.now) }
    ensures shorter { IfOk result (λ returned. length returned.1.now ≤ length bytes.now) }
{
    let (open_list, rest) = read_sized_elements(false, bytes, depth, value_sink)?;
    let value = value_sink.end_array(open_list)?;
    Ok((value, rest))
}

// Reads a document that is a value.
#[cycle(source)]
#[tactic(auto, unfolding(crate::specs::Reading::read_value_in))]
fn read_embedded_document<'a, S: ValueSink>(
    bytes: &'a [u8],
    depth: usize,
    value_sink: &mut S,
) -> Result<(S::Value, &'a [u8]), Stop>
    ensures outcome { ReadsTo S.may_stop (λ returned. returned.1.now)
        (λ value_read returned. S.value_written value_sink.old value_read returned.0 value_sink.new) result
        (read_value_in S.keys (read_document_in S.keys depth) tag.EmbeddedDocument bytes.now) }
    ensures shorter { IfOk result (λ returned. length returned.1.now ≤ length bytes.now) }
{
    let (open_list, rest) = read_sized_elements(true, bytes, depth, value_sink)?;
    let document = value_sink.end_document(open_list)?;
    let value = value_sink.embed_document(document)?;
    Ok((value, rest))
}

// Reads code with its scope.
#[cycle(source)]
#[tactic(auto, unfolding(crate::specs::Reading::read_code_with_scope))]
fn read_code_with_scope<'a, S: ValueSink>(
    bytes: &'a [u8],
    depth: usize,
    value_sink: &mut S,
) -> Result<(S::Value, &'a [u8]), Stop>
    ensures outcome { ReadsTo S.may_stop (λ returned. returned.1.now)
        (λ value_read returned. S.value_written value_sink.old value_read returned.0 value_sink.new) result
        (read_code_with_scope (read_document_in S.keys depth (no_earlier_keys S.keys)) bytes.now) }
    ensures shorter { IfOk result (λ returned. length returned.1.now ≤ length bytes.now) }
{
    let (size, rest) = read_length(bytes)?;
    let (text, rest) = read_string(rest)?;
    let code = value_sink.begin_code(text)?;
    let (scope, rest) = read_first_document(rest, depth, value_sink)?;
    if bytes.len() - rest.len() != size {
        return Err(fault_at(FaultKind::Length, bytes));
    }
    let value = value_sink.end_code(code, scope)?;
    Ok((value, rest))
}

// Reads a length, and elements of that length up to the byte 0.
#[cycle(source)]
fn read_sized_elements<'a, S: ValueSink>(
    is_document: bool,
    bytes: &'a [u8],
    depth: usize,
    value_sink: &mut S,
) -> Result<(S::OpenList, &'a [u8]), Stop>
    ensures outcome { ReadsTo S.may_stop (λ returned. returned.1.now)
        (λ pairs_read returned. S.list_opened is_document value_sink.old pairs_read returned.0 value_sink.new) result
        (read_document_in S.keys depth (earlier_keys S.keys is_document no_pairs) bytes.now) }
    ensures shorter { IfOk result (λ returned. length returned.1.now ≤ length bytes.now) }
{
    if depth == 0 {
        return Err(fault_at(FaultKind::Depth, bytes));
    }
    let (size, element_bytes) = read_length(bytes)?;
    let (open_list, rest) = read_elements(is_document, element_bytes, depth - 1, value_sink)?;
    if bytes.len() - rest.len() != size {
        return Err(fault_at(FaultKind::Length, bytes));
    }
    Ok((open_list, rest))
}

// Reads elements up to the byte 0.
#[cycle(source)]
fn read_elements<'a, S: ValueSink>(
    is_document: bool,
    bytes: &'a [u8],
    depth: usize,
    value_sink: &mut S,
) -> Result<(S::OpenList, &'a [u8]), Stop>
    ensures outcome { ReadsTo S.may_stop (λ returned. returned.1.now)
        (λ pairs_read returned. S.list_opened is_document value_sink.old pairs_read returned.0 value_sink.new) result
        (read_elements (read_value_in S.keys (read_document_in S.keys depth)) (earlier_keys S.keys is_document no_pairs)
        (length bytes.now) bytes.now) }
    ensures shorter { IfOk result (λ returned. length returned.1.now ≤ length bytes.now) }
{
    let mut open_list = value_sink.begin(is_document)?;
    let mut rest = bytes;
    'elements: loop {
        let (tag, after_tag) = read_byte(rest)?;
        if tag == 0 {
            return Ok((open_list, after_tag));
        }
        let Some(element_type) = type_of_tag(tag) else {
            return Err(fault_at(FaultKind::Tag, rest));
        };
        let (name, after_name) = value_sink.name(is_document, &open_list, after_tag)?;
        let (value, after_value) = read_value(element_type, after_name, depth, value_sink)?;
        value_sink.element(is_document, &mut open_list, name, value)?;
        rest = after_value;
    }
}

#[cycle(source)]
#[tactic(auto, unfolding(crate::specs::Reading::read_value_in))]
fn read_value<'a, S: ValueSink>(
    element_type: ElementType,
    bytes: &'a [u8],
    depth: usize,
    value_sink: &mut S,
) -> Result<(S::Value, &'a [u8]), Stop>
    ensures outcome { ReadsTo S.may_stop (λ returned. returned.1.now)
        (λ value_read returned. S.value_written value_sink.old value_read returned.0 value_sink.new) result
        (read_value_in S.keys (read_document_in S.keys depth) element_type bytes.now) }
    ensures shorter { IfOk result (λ returned. length returned.1.now ≤ length bytes.now) }
{
    match element_type {
        ElementType::Double => read_double(bytes, value_sink),
        ElementType::String => read_string_value(bytes, value_sink),
        ElementType::EmbeddedDocument => read_embedded_document(bytes, depth, value_sink),
        ElementType::Array => read_array(bytes, depth, value_sink),
        ElementType::Binary => read_binary(bytes, value_sink),
        ElementType::Undefined => read_empty_value(FixedSizeScalar::Undefined, bytes, value_sink),
        ElementType::ObjectId => read_object_id(bytes, value_sink),
        ElementType::Boolean => read_boolean(bytes, value_sink),
        ElementType::DateTime => read_date(bytes, value_sink),
        ElementType::Null => read_empty_value(FixedSizeScalar::Null, bytes, value_sink),
        ElementType::RegularExpression => read_regex(bytes, value_sink),
        ElementType::DbPointer => read_pointer(bytes, value_sink),
        ElementType::JavaScriptCode => read_code(bytes, value_sink),
        ElementType::Symbol => read_symbol(bytes, value_sink),
        ElementType::JavaScriptCodeWithScope => read_code_with_scope(bytes, depth, value_sink),
        ElementType::Int32 => read_int32(bytes, value_sink),
        ElementType::Timestamp => read_timestamp(bytes, value_sink),
        ElementType::Int64 => read_int64(bytes, value_sink),
        ElementType::Decimal128 => read_decimal(bytes, value_sink),
        ElementType::MaxKey => read_empty_value(FixedSizeScalar::MaxKey, bytes, value_sink),
        ElementType::MinKey => read_empty_value(FixedSizeScalar::MinKey, bytes, value_sink),
    }
}
