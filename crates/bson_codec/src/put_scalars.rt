//! Scalars: their types, and their bytes.
ghost use Rattle.std.specs.Prelude.{◌≡◌, ◌≤◌, length, OnOk};
ghost use Rattle.bson_scalar.specs.View.{scalar_view};
ghost use Rattle.bson_scalar.specs.ElementType.{scalar_type};
ghost use Rattle.bson_bytes.specs.PutSteps.{put_scalar, PutsBytes};
ghost use Rattle.bson_bytes.specs.Writing.{IsWellTypedScalar};

use bson_bytes::error::Error;
use bson_bytes::write_parts::{
    put_binary, put_pointer, put_regex, put_text, put_timestamp, put_u32, put_u64,
};
use bson_scalar::scalar::Scalar;
use bson_types::spec::ElementType;

pub(crate) fn type_of(scalar: &Scalar) -> ElementType
    ensures { result ≡ scalar_type (scalar_view scalar.now) }
{
    match scalar {
        Scalar::Null => ElementType::Null,
        Scalar::Undefined => ElementType::Undefined,
        Scalar::MinKey => ElementType::MinKey,
        Scalar::MaxKey => ElementType::MaxKey,
        Scalar::Boolean(_) => ElementType::Boolean,
        Scalar::Double(_) => ElementType::Double,
        Scalar::Int32(_) => ElementType::Int32,
        Scalar::Int64(_) => ElementType::Int64,
        Scalar::String(_) => ElementType::String,
        Scalar::Symbol(_) => ElementType::Symbol,
        Scalar::JavaScriptCode(_) => ElementType::JavaScriptCode,
        Scalar::RegularExpression(_) => ElementType::RegularExpression,
        Scalar::Timestamp(_) => ElementType::Timestamp,
        Scalar::Binary(_) => ElementType::Binary,
        Scalar::ObjectId(_) => ElementType::ObjectId,
        Scalar::DateTime(_) => ElementType::DateTime,
        Scalar::Decimal128(_) => ElementType::Decimal128,
        Scalar::DbPointer(_) => ElementType::DbPointer,
    }
}

// Appends the bytes after the name of an element.
#[tactic(auto, using(bson_bytes::proofs::Offered::string_utf8))]
pub(crate) fn put_scalar(output: &mut Vec<u8>, scalar: &Scalar) -> Result<(), Error>
    ensures put { PutsBytes result output.new.items (put_scalar (scalar_view scalar.now) output.old.items) }
    ensures typed { OnOk result (IsWellTypedScalar (scalar_view scalar.now)) }
    ensures grows { OnOk result (length output.old.items ≤ length output.new.items) }
{
    match scalar {
        Scalar::Null => Ok(()),
        Scalar::Undefined => Ok(()),
        Scalar::MinKey => Ok(()),
        Scalar::MaxKey => Ok(()),
        Scalar::Boolean(truth) => Ok(output.push(u8::from(*truth))?),
        Scalar::Double(pattern) => Ok(put_u64(output, *pattern)?),
        Scalar::Int32(number) => Ok(put_u32(output, number.cast_unsigned())?),
        Scalar::Int64(number) => Ok(put_u64(output, number.cast_unsigned())?),
        Scalar::String(text) => put_text(output, text.as_str()),
        Scalar::Symbol(symbol) => put_text(output, symbol.as_str()),
        Scalar::JavaScriptCode(code) => put_text(output, code.as_str()),
        Scalar::RegularExpression(regex) => put_regex(output, regex),
        Scalar::Timestamp(timestamp) => Ok(put_timestamp(output, *timestamp)?),
        Scalar::Binary(binary) => put_binary(output, binary),
        Scalar::ObjectId(id) => Ok(output.extend_from_slice(&id.bytes())?),
        Scalar::DateTime(date) => Ok(put_u64(output, date.timestamp_millis().cast_unsigned())?),
        Scalar::Decimal128(decimal) => Ok(output.extend_from_slice(&decimal.bytes())?),
        Scalar::DbPointer(pointer) => put_pointer(output, pointer),
    }
}
