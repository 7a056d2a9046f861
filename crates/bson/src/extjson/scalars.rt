//! Scalars as values and values as scalars.
ghost use Rattle.std.specs.Prelude.{◌≡◌, ◌<◌, true, IfOk};
ghost use Rattle.bson_scalar.specs.Normal.{writable_scalar_in};
ghost use Rattle.bson_scalar.specs.View.{scalar_of, scalar_view};
ghost use Rattle.bson_scalar.specs.declared.form.Doubles.TheVariants.{Finite};
ghost use Rattle.bson_model.specs.Normal.{NumbersInRange};
ghost use Rattle.bson_types.specs.DbPointer.{pointer_id};
ghost use Rattle.bson_types.specs.ObjectIds.{IsBytes, IsObjectId};
ghost use Rattle.bson_types.specs.BinarySubtypes.{subtype_byte};
ghost use Rattle.bson_model.specs.Value.{scalar};
ghost use Rattle.bson.specs.IsScalar.{IsScalar};
ghost use Rattle.bson.specs.View.{bson_view};

use crate::bson::Bson;
use crate::scalar::scalar_ref;
use bson_scalar::scalar::Scalar;
use bson_scalar::scalar_ref::ScalarRef;
use bson_types::binary::Binary;
use bson_types::db_pointer::DbPointer;
use bson_types::oid::ObjectId;
use bson_types::spec::BinarySubtype;
use std::alloc::{AllocError, Global};

pub(crate) fn from_scalar(value: Scalar) -> Bson
    ensures value { bson_view result ≡ scalar (scalar_view value) }
    ensures within_type_range { NumbersInRange (bson_view result) }
{
    match value {
        Scalar::Null => Bson::Null,
        Scalar::Undefined => Bson::Undefined,
        Scalar::MinKey => Bson::MinKey,
        Scalar::MaxKey => Bson::MaxKey,
        Scalar::Boolean(truth) => Bson::Boolean(truth),
        Scalar::Double(pattern) => Bson::Double(pattern),
        Scalar::Int32(integer) => Bson::Int32(integer),
        Scalar::Int64(integer) => Bson::Int64(integer),
        Scalar::String(text) => Bson::String(text),
        Scalar::Symbol(text) => Bson::Symbol(text),
        Scalar::JavaScriptCode(code) => Bson::JavaScriptCode(code),
        Scalar::RegularExpression(regex) => Bson::RegularExpression(regex),
        Scalar::Timestamp(timestamp) => Bson::Timestamp(timestamp),
        Scalar::Binary(binary) => Bson::Binary(binary_in_range(binary)),
        Scalar::ObjectId(id) => Bson::ObjectId(object_id_in_range(id)),
        Scalar::DateTime(date) => Bson::DateTime(date),
        Scalar::Decimal128(decimal) => Bson::Decimal128(decimal),
        Scalar::DbPointer(pointer) => Bson::DbPointer(pointer_in_range(pointer)),
    }
}

// These show that numbers of the type u8 are below 256, and that an object id has twelve.
fn bytes_in_range(bytes: &[u8])
    ensures { IsBytes bytes.now }
{
    let _len = bytes.len();
}

fn subtype_in_range(subtype: BinarySubtype)
    ensures { subtype_byte subtype < 256 }
{
    let _byte = u8::from(subtype);
}

// And this shows that a double has a text where finite ones are written, since its pattern has 64 bits.
pub(crate) fn can_be_written(value: &Scalar)
    ensures { writable_scalar_in Finite (scalar_view value.now) ≡ true }
{
    if let Scalar::Double(pattern) = value {
        let _pattern = *pattern;
    }
}

// The same by reference.
pub(crate) fn can_be_printed(value: &ScalarRef<'_>)
    ensures { writable_scalar_in Finite (scalar_of value.now) ≡ true }
{
    if let ScalarRef::Double(pattern) = *value {
        let _pattern = pattern;
    }
}

fn binary_in_range(binary: Binary) -> Binary
    ensures unchanged { result ≡ binary }
    ensures within_type_range { (subtype_byte binary.subtype < 256) × IsBytes binary.bytes.items }
{
    bytes_in_range(binary.bytes.as_slice());
    subtype_in_range(binary.subtype);
    binary
}

fn object_id_in_range(id: ObjectId) -> ObjectId
    ensures unchanged { result ≡ id }
    ensures within_type_range { IsObjectId id }
{
    let _bytes = id.bytes();
    id
}

fn pointer_in_range(pointer: DbPointer) -> DbPointer
    ensures unchanged { result ≡ pointer }
    ensures within_type_range { IsObjectId (pointer_id pointer) }
{
    let _id = object_id_in_range(pointer.id());
    pointer
}

// The same, the other way: of a value that holds no other. What it owns is moved.
pub(crate) fn to_scalar(alloc: Global, value: Bson) -> Result<Scalar, AllocError>
    requires { IsScalar (bson_view value) }
    ensures { IfOk result (λ scalar_value. scalar (scalar_view scalar_value) ≡ bson_view value) }
{
    match value {
        Bson::String(text) => Ok(Scalar::String(text)),
        Bson::Symbol(text) => Ok(Scalar::Symbol(text)),
        Bson::JavaScriptCode(code) => Ok(Scalar::JavaScriptCode(code)),
        Bson::RegularExpression(regex) => Ok(Scalar::RegularExpression(regex)),
        Bson::Binary(binary) => Ok(Scalar::Binary(binary)),
        Bson::DbPointer(pointer) => Ok(Scalar::DbPointer(pointer)),
        value => scalar_ref(&value).to_owned(alloc),
    }
}
