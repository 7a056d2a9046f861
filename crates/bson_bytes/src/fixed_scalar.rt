//! Scalars of a fixed size.
ghost use Rattle.std.specs.Prelude.{◌≡◌};
ghost use Rattle.bson_scalar.specs.View.{scalar_view};
ghost use Rattle.bson_bytes.specs.FixedScalars.{fixed_scalar_view};

use bson_decimal::Decimal128;
use bson_scalar::scalar::Scalar;
use bson_types::datetime::DateTime;
use bson_types::oid::ObjectId;
use bson_types::timestamp::Timestamp;

/// A scalar of a fixed size, which needs no allocation. It is copied, so a sink that keeps nothing
/// has nothing to free.
#[derive(Clone, Copy)]
pub enum FixedSizeScalar {
    /// The null value.
    Null,
    /// The undefined value (deprecated).
    Undefined,
    /// Less than every other value.
    MinKey,
    /// Greater than every other value.
    MaxKey,
    /// A boolean.
    Boolean(bool),
    /// A double, as its bit pattern (IEEE 754-2008 binary64).
    Double(u64),
    /// An integer of 32 bits.
    Int32(i32),
    /// An integer of 64 bits.
    Int64(i64),
    /// A timestamp for internal use by MongoDB.
    Timestamp(Timestamp),
    /// An object id.
    ObjectId(ObjectId),
    /// A date-time, in milliseconds since 1970-01-01T00:00:00Z.
    DateTime(DateTime),
    /// A decimal of 128 bits.
    Decimal128(Decimal128),
}

/// Converts it to a scalar.
pub fn to_scalar(value: FixedSizeScalar) -> Scalar
    ensures { scalar_view result ≡ fixed_scalar_view value }
{
    match value {
        FixedSizeScalar::Null => Scalar::Null,
        FixedSizeScalar::Undefined => Scalar::Undefined,
        FixedSizeScalar::MinKey => Scalar::MinKey,
        FixedSizeScalar::MaxKey => Scalar::MaxKey,
        FixedSizeScalar::Boolean(truth) => Scalar::Boolean(truth),
        FixedSizeScalar::Double(pattern) => Scalar::Double(pattern),
        FixedSizeScalar::Int32(number) => Scalar::Int32(number),
        FixedSizeScalar::Int64(number) => Scalar::Int64(number),
        FixedSizeScalar::Timestamp(timestamp) => Scalar::Timestamp(timestamp),
        FixedSizeScalar::ObjectId(id) => Scalar::ObjectId(id),
        FixedSizeScalar::DateTime(date) => Scalar::DateTime(date),
        FixedSizeScalar::Decimal128(decimal) => Scalar::Decimal128(decimal),
    }
}
