//! The values.
use crate::document::Document;
use bson_types::binary::Binary;
use bson_types::datetime::DateTime;
use bson_types::db_pointer::DbPointer;
use bson_types::decimal128::Decimal128;
use bson_types::oid::ObjectId;
use bson_types::regex::Regex;
use bson_types::timestamp::Timestamp;

/// An array of values.
///
/// ```
/// let mut numbers: Array = Vec::new(alloc);
/// numbers.push(Bson::Int32(1))?;
/// numbers.push(Bson::Null)?;
/// println!(rt; "{}", Bson::Array(numbers))?; // [1, null]
/// ```
pub type Array = Vec<Bson>;

/// A value of BSON 1.1, of one of its 21 kinds.
///
/// ```
/// let name = Bson::string(alloc, "Ada")?;
/// println!(rt; "{:?} {:?}", name.as_str(), name.as_i32())?; // Some("Ada") None
/// println!(rt; "{}", Bson::Int64(5).into_canonical_text(alloc)?)?; // {"$numberLong":"5"}
/// ```
#[derive(Drop)]
#[cycle(bson)]
pub enum Bson {
    /// A 64-bit binary floating point number, as its pattern of bits (IEEE 754 binary64).
    Double(u64),
    /// A text of UTF-8.
    String(String),
    /// An array of values.
    Array(Vec<Bson>),
    /// A list of keys with their values.
    Document(Document),
    /// A boolean.
    Boolean(bool),
    /// The null value.
    Null,
    /// A regular expression.
    RegularExpression(Regex),
    /// JavaScript code.
    JavaScriptCode(String),
    /// JavaScript code and the values of the names that it uses (deprecated).
    JavaScriptCodeWithScope(JavaScriptCodeWithScope),
    /// A signed integer of 32 bits.
    Int32(i32),
    /// A signed integer of 64 bits.
    Int64(i64),
    /// MongoDB's internal timestamp.
    Timestamp(Timestamp),
    /// Bytes of a subtype.
    Binary(Binary),
    /// An object id of twelve bytes.
    ObjectId(ObjectId),
    /// A moment, in milliseconds since 1970-01-01T00:00:00Z.
    DateTime(DateTime),
    /// A symbol (deprecated).
    Symbol(String),
    /// A decimal floating point number of 128 bits (IEEE 754-2008 decimal128).
    Decimal128(Decimal128),
    /// An undefined value (deprecated).
    Undefined,
    /// The value above all others.
    MaxKey,
    /// The value below all others.
    MinKey,
    /// A pointer into another collection (deprecated).
    DbPointer(DbPointer),
}

/// JavaScript code and a document of the names that it uses.
///
/// ```
/// let mut scope = Document::new(alloc);
/// drop(scope.insert(String::from_str(alloc, "n")?, Bson::Boolean(true))?);
/// let code = String::from_str(alloc, "return n")?;
/// let value = Bson::JavaScriptCodeWithScope(JavaScriptCodeWithScope { code, scope });
/// println!(rt; "{}", value.into_canonical_text(alloc)?)?;
/// // {"$code":"return n","$scope":{"n":true}}
/// ```
#[derive(Drop)]
#[cycle(bson)]
pub struct JavaScriptCodeWithScope {
    /// The code.
    pub code: String,
    /// The values of the names.
    pub scope: Document,
}
