//! Scalars.
ghost use Rattle.std.specs.Prelude.{◌≤◌, length, IfOk};
ghost use Rattle.bson_bytes.specs.Reading.{read_old_binary, read_plain_binary, read_binary, read_boolean, read_regex, read_pointer};
ghost use Rattle.bson_bytes.specs.Reading.{read_timestamp};
ghost use Rattle.bson_bytes.specs.ReadScalars.{double_from_bytes, date_from_bytes, int32_from_bytes, int64_from_bytes, string_from_bytes, symbol_from_bytes};
ghost use Rattle.bson_bytes.specs.ReadScalars.{code_from_bytes, object_id_from_bytes, decimal_from_bytes, empty_value_from_bytes};
ghost use Rattle.bson_bytes.specs.FixedScalars.{fixed_scalar_view};
ghost use Rattle.bson_bytes.specs.Source.{ReadsTo};

use crate::fault::FaultKind;
use crate::fixed_scalar::FixedSizeScalar;
use crate::read_parts::{
    read_12_bytes, read_16_bytes, read_byte, read_bytes, read_length, read_name, read_string,
    read_u32, read_u64,
};
use crate::sink::ValueSink;
use crate::stop::{Stop, fault_at};
use bson_decimal::Decimal128;
use bson_types::datetime::DateTime;
use bson_types::oid::ObjectId;
use bson_types::timestamp::Timestamp;

pub(crate) fn read_empty_value<'a, S: ValueSink>(
    value: FixedSizeScalar,
    bytes: &'a [u8],
    value_sink: &mut S,
) -> Result<(S::Value, &'a [u8]), Stop>
    ensures outcome { ReadsTo S.may_stop (λ returned. returned.1.now)
        (λ value_read returned. S.value_written value_sink.old value_read returned.0 value_sink.new) result
        (empty_value_from_bytes (fixed_scalar_view value) bytes.now) }
    ensures shorter { IfOk result (λ returned. length returned.1.now ≤ length bytes.now) }
{
    let value = value_sink.fixed_scalar(value)?;
    Ok((value, bytes))
}

pub(crate) fn read_double<'a, S: ValueSink>(
    bytes: &'a [u8],
    value_sink: &mut S,
) -> Result<(S::Value, &'a [u8]), Stop>
    ensures outcome { ReadsTo S.may_stop (λ returned. returned.1.now)
        (λ value_read returned. S.value_written value_sink.old value_read returned.0 value_sink.new) result
        (double_from_bytes bytes.now) }
    ensures shorter { IfOk result (λ returned. length returned.1.now ≤ length bytes.now) }
{
    let (pattern, rest) = read_u64(bytes)?;
    let value = value_sink.fixed_scalar(FixedSizeScalar::Double(pattern))?;
    Ok((value, rest))
}

pub(crate) fn read_date<'a, S: ValueSink>(
    bytes: &'a [u8],
    value_sink: &mut S,
) -> Result<(S::Value, &'a [u8]), Stop>
    ensures outcome { ReadsTo S.may_stop (λ returned. returned.1.now)
        (λ value_read returned. S.value_written value_sink.old value_read returned.0 value_sink.new) result
        (date_from_bytes bytes.now) }
    ensures shorter { IfOk result (λ returned. length returned.1.now ≤ length bytes.now) }
{
    let (number, rest) = read_u64(bytes)?;
    let date = DateTime::from_millis(number.cast_signed());
    let value = value_sink.fixed_scalar(FixedSizeScalar::DateTime(date))?;
    Ok((value, rest))
}

pub(crate) fn read_int32<'a, S: ValueSink>(
    bytes: &'a [u8],
    value_sink: &mut S,
) -> Result<(S::Value, &'a [u8]), Stop>
    ensures outcome { ReadsTo S.may_stop (λ returned. returned.1.now)
        (λ value_read returned. S.value_written value_sink.old value_read returned.0 value_sink.new) result
        (int32_from_bytes bytes.now) }
    ensures shorter { IfOk result (λ returned. length returned.1.now ≤ length bytes.now) }
{
    let (number, rest) = read_u32(bytes)?;
    let value = value_sink.fixed_scalar(FixedSizeScalar::Int32(number.cast_signed()))?;
    Ok((value, rest))
}

pub(crate) fn read_int64<'a, S: ValueSink>(
    bytes: &'a [u8],
    value_sink: &mut S,
) -> Result<(S::Value, &'a [u8]), Stop>
    ensures outcome { ReadsTo S.may_stop (λ returned. returned.1.now)
        (λ value_read returned. S.value_written value_sink.old value_read returned.0 value_sink.new) result
        (int64_from_bytes bytes.now) }
    ensures shorter { IfOk result (λ returned. length returned.1.now ≤ length bytes.now) }
{
    let (number, rest) = read_u64(bytes)?;
    let value = value_sink.fixed_scalar(FixedSizeScalar::Int64(number.cast_signed()))?;
    Ok((value, rest))
}

pub(crate) fn read_string_value<'a, S: ValueSink>(
    bytes: &'a [u8],
    value_sink: &mut S,
) -> Result<(S::Value, &'a [u8]), Stop>
    ensures outcome { ReadsTo S.may_stop (λ returned. returned.1.now)
        (λ value_read returned. S.value_written value_sink.old value_read returned.0 value_sink.new) result
        (string_from_bytes bytes.now) }
    ensures shorter { IfOk result (λ returned. length returned.1.now ≤ length bytes.now) }
{
    let (text, rest) = read_string(bytes)?;
    let value = value_sink.string(text)?;
    Ok((value, rest))
}

pub(crate) fn read_symbol<'a, S: ValueSink>(
    bytes: &'a [u8],
    value_sink: &mut S,
) -> Result<(S::Value, &'a [u8]), Stop>
    ensures outcome { ReadsTo S.may_stop (λ returned. returned.1.now)
        (λ value_read returned. S.value_written value_sink.old value_read returned.0 value_sink.new) result
        (symbol_from_bytes bytes.now) }
    ensures shorter { IfOk result (λ returned. length returned.1.now ≤ length bytes.now) }
{
    let (text, rest) = read_string(bytes)?;
    let value = value_sink.symbol(text)?;
    Ok((value, rest))
}

pub(crate) fn read_code<'a, S: ValueSink>(
    bytes: &'a [u8],
    value_sink: &mut S,
) -> Result<(S::Value, &'a [u8]), Stop>
    ensures outcome { ReadsTo S.may_stop (λ returned. returned.1.now)
        (λ value_read returned. S.value_written value_sink.old value_read returned.0 value_sink.new) result
        (code_from_bytes bytes.now) }
    ensures shorter { IfOk result (λ returned. length returned.1.now ≤ length bytes.now) }
{
    let (text, rest) = read_string(bytes)?;
    let value = value_sink.code(text)?;
    Ok((value, rest))
}

pub(crate) fn read_object_id<'a, S: ValueSink>(
    bytes: &'a [u8],
    value_sink: &mut S,
) -> Result<(S::Value, &'a [u8]), Stop>
    ensures outcome { ReadsTo S.may_stop (λ returned. returned.1.now)
        (λ value_read returned. S.value_written value_sink.old value_read returned.0 value_sink.new) result
        (object_id_from_bytes bytes.now) }
    ensures shorter { IfOk result (λ returned. length returned.1.now ≤ length bytes.now) }
{
    let (id, rest) = read_12_bytes(bytes)?;
    let value = value_sink.fixed_scalar(FixedSizeScalar::ObjectId(ObjectId::from_bytes(id)))?;
    Ok((value, rest))
}

pub(crate) fn read_decimal<'a, S: ValueSink>(
    bytes: &'a [u8],
    value_sink: &mut S,
) -> Result<(S::Value, &'a [u8]), Stop>
    ensures outcome { ReadsTo S.may_stop (λ returned. returned.1.now)
        (λ value_read returned. S.value_written value_sink.old value_read returned.0 value_sink.new) result
        (decimal_from_bytes bytes.now) }
    ensures shorter { IfOk result (λ returned. length returned.1.now ≤ length bytes.now) }
{
    let (pattern, rest) = read_16_bytes(bytes)?;
    let value = value_sink.fixed_scalar(FixedSizeScalar::Decimal128(Decimal128::from_bytes(
        pattern,
    )))?;
    Ok((value, rest))
}

#[tactic(auto, unfolding(crate::specs::Reading::read_boolean))]
pub(crate) fn read_boolean<'a, S: ValueSink>(
    bytes: &'a [u8],
    value_sink: &mut S,
) -> Result<(S::Value, &'a [u8]), Stop>
    ensures outcome { ReadsTo S.may_stop (λ returned. returned.1.now)
        (λ value_read returned. S.value_written value_sink.old value_read returned.0 value_sink.new) result
        (read_boolean bytes.now) }
    ensures shorter { IfOk result (λ returned. length returned.1.now ≤ length bytes.now) }
{
    let (byte, rest) = read_byte(bytes)?;
    if byte == 0 {
        let value = value_sink.fixed_scalar(FixedSizeScalar::Boolean(false))?;
        Ok((value, rest))
    } else if byte == 1 {
        let value = value_sink.fixed_scalar(FixedSizeScalar::Boolean(true))?;
        Ok((value, rest))
    } else {
        Err(fault_at(FaultKind::Boolean, bytes))
    }
}

fn read_old_binary<'a, S: ValueSink>(
    size: usize,
    bytes: &'a [u8],
    value_sink: &mut S,
) -> Result<(S::Value, &'a [u8]), Stop>
    ensures outcome { ReadsTo S.may_stop (λ returned. returned.1.now)
        (λ value_read returned. S.value_written value_sink.old value_read returned.0 value_sink.new) result
        (read_old_binary size bytes.now) }
    ensures shorter { IfOk result (λ returned. length returned.1.now ≤ length bytes.now) }
{
    let (inner_size, rest) = read_length(bytes)?;
    if inner_size + 4 != size {
        return Err(fault_at(FaultKind::Length, bytes));
    }
    let (content, rest) = read_bytes(inner_size, rest)?;
    let value = value_sink.binary(2, content)?;
    Ok((value, rest))
}

fn read_plain_binary<'a, S: ValueSink>(
    subtype: u8,
    size: usize,
    bytes: &'a [u8],
    value_sink: &mut S,
) -> Result<(S::Value, &'a [u8]), Stop>
    ensures outcome { ReadsTo S.may_stop (λ returned. returned.1.now)
        (λ value_read returned. S.value_written value_sink.old value_read returned.0 value_sink.new) result
        (read_plain_binary subtype size bytes.now) }
    ensures shorter { IfOk result (λ returned. length returned.1.now ≤ length bytes.now) }
{
    let (content, rest) = read_bytes(size, bytes)?;
    let value = value_sink.binary(subtype, content)?;
    Ok((value, rest))
}

#[tactic(auto, unfolding(crate::specs::Reading::read_binary))]
pub(crate) fn read_binary<'a, S: ValueSink>(
    bytes: &'a [u8],
    value_sink: &mut S,
) -> Result<(S::Value, &'a [u8]), Stop>
    ensures outcome { ReadsTo S.may_stop (λ returned. returned.1.now)
        (λ value_read returned. S.value_written value_sink.old value_read returned.0 value_sink.new) result
        (read_binary bytes.now) }
    ensures shorter { IfOk result (λ returned. length returned.1.now ≤ length bytes.now) }
{
    let (size, rest) = read_length(bytes)?;
    let (subtype, rest) = read_byte(rest)?;
    if subtype == 2 {
        read_old_binary(size, rest, value_sink)
    } else {
        read_plain_binary(subtype, size, rest, value_sink)
    }
}

#[tactic(auto, unfolding(crate::specs::Reading::read_regex))]
pub(crate) fn read_regex<'a, S: ValueSink>(
    bytes: &'a [u8],
    value_sink: &mut S,
) -> Result<(S::Value, &'a [u8]), Stop>
    ensures outcome { ReadsTo S.may_stop (λ returned. returned.1.now)
        (λ value_read returned. S.value_written value_sink.old value_read returned.0 value_sink.new) result
        (read_regex bytes.now) }
    ensures shorter { IfOk result (λ returned. length returned.1.now ≤ length bytes.now) }
{
    let (pattern, rest) = read_name(bytes)?;
    let (options, rest) = read_name(rest)?;
    let value = value_sink.regex(pattern, options)?;
    Ok((value, rest))
}

#[tactic(auto, unfolding(crate::specs::Reading::read_pointer))]
pub(crate) fn read_pointer<'a, S: ValueSink>(
    bytes: &'a [u8],
    value_sink: &mut S,
) -> Result<(S::Value, &'a [u8]), Stop>
    ensures outcome { ReadsTo S.may_stop (λ returned. returned.1.now)
        (λ value_read returned. S.value_written value_sink.old value_read returned.0 value_sink.new) result
        (read_pointer bytes.now) }
    ensures shorter { IfOk result (λ returned. length returned.1.now ≤ length bytes.now) }
{
    let (namespace, rest) = read_string(bytes)?;
    let (id, rest) = read_12_bytes(rest)?;
    let value = value_sink.pointer(namespace, id)?;
    Ok((value, rest))
}

#[tactic(auto, unfolding(crate::specs::Reading::read_timestamp))]
pub(crate) fn read_timestamp<'a, S: ValueSink>(
    bytes: &'a [u8],
    value_sink: &mut S,
) -> Result<(S::Value, &'a [u8]), Stop>
    ensures outcome { ReadsTo S.may_stop (λ returned. returned.1.now)
        (λ value_read returned. S.value_written value_sink.old value_read returned.0 value_sink.new) result
        (read_timestamp bytes.now) }
    ensures shorter { IfOk result (λ returned. length returned.1.now ≤ length bytes.now) }
{
    let (increment, rest) = read_u32(bytes)?;
    let (time, rest) = read_u32(rest)?;
    let value = value_sink.fixed_scalar(FixedSizeScalar::Timestamp(Timestamp { time, increment }))?;
    Ok((value, rest))
}
