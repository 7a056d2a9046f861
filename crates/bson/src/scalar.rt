//! Values that hold no other, as scalars by reference.
ghost use Rattle.std.specs.Prelude.{◌≡◌};
ghost use Rattle.bson_scalar.specs.View.{scalar_of};
ghost use Rattle.bson_model.specs.Value.{scalar};
ghost use Rattle.bson.specs.IsScalar.{IsScalar, is_scalar as is_scalar_of, scalars_eq};
ghost use Rattle.bson.specs.View.{bson_view};

use crate::bson::Bson;
use bson_scalar::scalar_ref::ScalarRef;

// The scalar that the value is.
pub(crate) fn scalar_ref(value: &Bson) -> ScalarRef<'_>
    requires { IsScalar (bson_view value.now) }
    ensures { scalar (scalar_of result) ≡ bson_view value.now }
{
    match value {
        Bson::Null => ScalarRef::Null,
        Bson::Undefined => ScalarRef::Undefined,
        Bson::MinKey => ScalarRef::MinKey,
        Bson::MaxKey => ScalarRef::MaxKey,
        Bson::Boolean(truth) => ScalarRef::Boolean(*truth),
        Bson::Double(pattern) => ScalarRef::Double(*pattern),
        Bson::Int32(integer) => ScalarRef::Int32(*integer),
        Bson::Int64(integer) => ScalarRef::Int64(*integer),
        Bson::String(text) => ScalarRef::String(text.as_str()),
        Bson::Symbol(text) => ScalarRef::Symbol(text.as_str()),
        Bson::JavaScriptCode(code) => ScalarRef::JavaScriptCode(code.as_str()),
        Bson::RegularExpression(regex) => ScalarRef::RegularExpression(regex),
        Bson::Timestamp(timestamp) => ScalarRef::Timestamp(*timestamp),
        Bson::Binary(binary) => ScalarRef::Binary(binary),
        Bson::ObjectId(id) => ScalarRef::ObjectId(*id),
        Bson::DateTime(date) => ScalarRef::DateTime(*date),
        Bson::Decimal128(decimal) => ScalarRef::Decimal128(*decimal),
        Bson::DbPointer(pointer) => ScalarRef::DbPointer(pointer),
        Bson::Array(_) | Bson::Document(_) | Bson::JavaScriptCodeWithScope(_) => unreachable!(),
    }
}

// Whether the value holds no other.
fn is_scalar(value: &Bson) -> bool
    ensures { result ≡ is_scalar_of (bson_view value.now) }
{
    !matches!(
        value,
        Bson::Array(_) | Bson::Document(_) | Bson::JavaScriptCodeWithScope(_)
    )
}

// Whether both hold no other, and are the same.
pub(crate) fn same_scalars(left: &Bson, right: &Bson) -> bool
    ensures { result ≡ scalars_eq (bson_view left.now) (bson_view right.now) }
{
    is_scalar(left) && is_scalar(right) && scalar_ref(left) == scalar_ref(right)
}
