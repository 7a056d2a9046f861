//! Values in their bytes.
use crate::raw_document::{RawArray, RawDocument};
use bson_decimal::Decimal128;
use bson_types::datetime::DateTime;
use bson_types::oid::ObjectId;
use bson_types::spec::BinarySubtype;
use bson_types::timestamp::Timestamp;

/// A value of BSON that borrows the bytes of a document.
#[derive(Clone, Copy)]
pub enum RawBsonRef<'a> {
    /// A double, as its bit pattern (IEEE 754-2008 binary64).
    Double(u64),
    /// A string.
    String(&'a str),
    /// An array.
    Array(RawArray<'a>),
    /// A document.
    Document(RawDocument<'a>),
    /// A boolean.
    Boolean(bool),
    /// The null value.
    Null,
    /// A regular expression.
    RegularExpression(RawRegexRef<'a>),
    /// JavaScript code.
    JavaScriptCode(&'a str),
    /// JavaScript code with its scope.
    JavaScriptCodeWithScope(RawJavaScriptCodeWithScopeRef<'a>),
    /// An integer of 32 bits.
    Int32(i32),
    /// An integer of 64 bits.
    Int64(i64),
    /// A timestamp for internal use by MongoDB.
    Timestamp(Timestamp),
    /// Binary data with a subtype.
    Binary(RawBinaryRef<'a>),
    /// An object id.
    ObjectId(ObjectId),
    /// A date-time, in milliseconds since 1970-01-01T00:00:00Z.
    DateTime(DateTime),
    /// A symbol (deprecated).
    Symbol(&'a str),
    /// A decimal of 128 bits.
    Decimal128(Decimal128),
    /// The undefined value (deprecated).
    Undefined,
    /// Greater than every other value.
    MaxKey,
    /// Less than every other value.
    MinKey,
    /// A pointer to a document of another collection (deprecated).
    DbPointer(RawDbPointerRef<'a>),
}

/// Binary data with a subtype.
#[derive(Clone, Copy)]
pub struct RawBinaryRef<'a> {
    /// What the bytes are.
    pub subtype: BinarySubtype,
    /// The bytes, without the inner length of the old subtype 2.
    pub bytes: &'a [u8],
}

/// A regular expression.
#[derive(Clone, Copy)]
pub struct RawRegexRef<'a> {
    /// The pattern.
    pub pattern: &'a str,
    /// The options.
    pub options: &'a str,
}

/// A pointer to a document of another collection.
#[derive(Clone, Copy)]
pub struct RawDbPointerRef<'a> {
    /// The namespace: a database and a collection.
    pub namespace: &'a str,
    /// The id of the document.
    pub id: ObjectId,
}

/// JavaScript code with its scope.
#[derive(Clone, Copy)]
pub struct RawJavaScriptCodeWithScopeRef<'a> {
    /// The code.
    pub code: &'a str,
    /// The variables that the code can use.
    pub scope: RawDocument<'a>,
}
