//! A value that holds no other.
use bson_decimal::Decimal128;
use bson_types::binary::Binary;
use bson_types::datetime::DateTime;
use bson_types::db_pointer::DbPointer;
use bson_types::oid::ObjectId;
use bson_types::regex::Regex;
use bson_types::timestamp::Timestamp;

/// A value that holds no other: the 18 scalar kinds of BSON 1.1, of which the layer above makes
/// its own values.
#[derive(Drop)]
pub enum Scalar {
    /// The null value.
    Null,
    /// The undefined value (deprecated).
    Undefined,
    /// Less than every other value.
    MinKey,
    /// Greater than every other value.
    MaxKey,
    /// A boolean.
    Boolean(bool),
    /// A double, as its pattern of 64 bits (IEEE 754-2008 binary64).
    Double(u64),
    /// An integer of 32 bits.
    Int32(i32),
    /// An integer of 64 bits.
    Int64(i64),
    /// A text.
    String(String),
    /// A symbol (deprecated).
    Symbol(String),
    /// JavaScript code without a scope.
    JavaScriptCode(String),
    /// A regular expression.
    RegularExpression(Regex),
    /// A timestamp of MongoDB's own use.
    Timestamp(Timestamp),
    /// Bytes and their subtype.
    Binary(Binary),
    /// An object id.
    ObjectId(ObjectId),
    /// A moment, in milliseconds since 1970-01-01T00:00:00Z.
    DateTime(DateTime),
    /// A decimal of 128 bits.
    Decimal128(Decimal128),
    /// A pointer into another collection (deprecated).
    DbPointer(DbPointer),
}
