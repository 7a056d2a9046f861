//! A scalar by reference.
ghost use Rattle.std.specs.Prelude.{◌≡◌, ◌++◌, IfOk, codes};
ghost use Rattle.std.specs.Fmt.{WritesOnOk};
ghost use Rattle.bson_types.specs.declared.spec.ElementType.{ElementType};
ghost use Rattle.bson_scalar.specs.Displayed.{sixteen_hex_digits};
ghost use Rattle.bson_scalar.specs.View.{scalar_of, scalar_view};

use crate::scalar::Scalar;
use bson_datetime::DateTime;
use bson_decimal::Decimal128;
use bson_types::binary::Binary;
use bson_types::db_pointer::DbPointer;
use bson_types::oid::ObjectId;
use bson_types::regex::Regex;
use bson_types::spec::ElementType;
use bson_types::timestamp::Timestamp;
use std::alloc::{AllocError, Global};
use std::fmt;
use std::hash::{Hash, Hasher};

/// A value that holds no other, by reference: each kind of `Scalar`, with its texts and larger
/// parts borrowed.
#[derive(Clone, Copy, Drop)]
pub enum ScalarRef<'a> {
    Null,
    Undefined,
    MinKey,
    MaxKey,
    Boolean(bool),
    Double(u64),
    Int32(i32),
    Int64(i64),
    String(&'a str),
    Symbol(&'a str),
    JavaScriptCode(&'a str),
    RegularExpression(&'a Regex),
    Timestamp(Timestamp),
    Binary(&'a Binary),
    ObjectId(ObjectId),
    DateTime(DateTime),
    Decimal128(Decimal128),
    DbPointer(&'a DbPointer),
}

/// What is stored under an element type (BSON 1.1).
pub trait Element {
    // The element type.
    ghost stored_as: { Self → ElementType };

    /// The element type that the value is stored with.
    fn element_type(&self) -> ElementType
        ensures { result ≡ stored_as self.now };
}

impl<'a> Element for ScalarRef<'a> {
    ghost use Rattle.bson_scalar.specs.ElementType.{scalar_type};

    ghost stored_as = { λ scalar. scalar_type (scalar_of scalar) };

    fn element_type(&self) -> ElementType {
        match *self {
            ScalarRef::Null => ElementType::Null,
            ScalarRef::Undefined => ElementType::Undefined,
            ScalarRef::MinKey => ElementType::MinKey,
            ScalarRef::MaxKey => ElementType::MaxKey,
            ScalarRef::Boolean(_) => ElementType::Boolean,
            ScalarRef::Double(_) => ElementType::Double,
            ScalarRef::Int32(_) => ElementType::Int32,
            ScalarRef::Int64(_) => ElementType::Int64,
            ScalarRef::String(_) => ElementType::String,
            ScalarRef::Symbol(_) => ElementType::Symbol,
            ScalarRef::JavaScriptCode(_) => ElementType::JavaScriptCode,
            ScalarRef::RegularExpression(_) => ElementType::RegularExpression,
            ScalarRef::Timestamp(_) => ElementType::Timestamp,
            ScalarRef::Binary(_) => ElementType::Binary,
            ScalarRef::ObjectId(_) => ElementType::ObjectId,
            ScalarRef::DateTime(_) => ElementType::DateTime,
            ScalarRef::Decimal128(_) => ElementType::Decimal128,
            ScalarRef::DbPointer(_) => ElementType::DbPointer,
        }
    }
}

impl<'a> PartialEq for ScalarRef<'a> {
    ghost use Rattle.std.specs.Cmp.{decided, on_per, partial_equiv_from_equiv};
    ghost use Rattle.bson_scalar.specs.Same.{scalar_eq};
    ghost use Rattle.bson_scalar.specs.SameLaws.{scalar_decides};

    ghost eq = { λ scalar other_scalar. scalar_eq (scalar_of scalar) (scalar_of other_scalar) };

    ghost laws = { on_per scalar_of (partial_equiv_from_equiv (decided scalar_eq scalar_decides)) };

    fn eq(&self, other: &ScalarRef<'a>) -> bool {
        match (self, other) {
            (ScalarRef::Null, ScalarRef::Null) => true,
            (ScalarRef::Undefined, ScalarRef::Undefined) => true,
            (ScalarRef::MinKey, ScalarRef::MinKey) => true,
            (ScalarRef::MaxKey, ScalarRef::MaxKey) => true,
            (ScalarRef::Boolean(value), ScalarRef::Boolean(other_value)) => *value == *other_value,
            (ScalarRef::Double(value), ScalarRef::Double(other_value)) => *value == *other_value,
            (ScalarRef::Int32(value), ScalarRef::Int32(other_value)) => *value == *other_value,
            (ScalarRef::Int64(value), ScalarRef::Int64(other_value)) => *value == *other_value,
            (ScalarRef::String(value), ScalarRef::String(other_value)) => value == other_value,
            (ScalarRef::Symbol(value), ScalarRef::Symbol(other_value)) => value == other_value,
            (ScalarRef::JavaScriptCode(value), ScalarRef::JavaScriptCode(other_value)) => value
                == other_value,
            (ScalarRef::RegularExpression(value), ScalarRef::RegularExpression(other_value)) => {
                value.pattern == other_value.pattern && value.options == other_value.options
            }
            (ScalarRef::Timestamp(value), ScalarRef::Timestamp(other_value)) => {
                value.time == other_value.time && value.increment == other_value.increment
            }
            (ScalarRef::Binary(value), ScalarRef::Binary(other_value)) => {
                value.subtype == other_value.subtype && value.bytes == other_value.bytes
            }
            (ScalarRef::ObjectId(value), ScalarRef::ObjectId(other_value)) => value == other_value,
            (ScalarRef::DateTime(value), ScalarRef::DateTime(other_value)) => value == other_value,
            (ScalarRef::Decimal128(value), ScalarRef::Decimal128(other_value)) => value
                == other_value,
            (ScalarRef::DbPointer(value), ScalarRef::DbPointer(other_value)) => {
                value.namespace() == other_value.namespace() && value.id() == other_value.id()
            }
            _ => false,
        }
    }
}

impl<'a> Eq for ScalarRef<'a> {
    ghost use Rattle.std.specs.Cmp.{decided, on_equiv};
    ghost use Rattle.bson_scalar.specs.Same.{scalar_eq};
    ghost use Rattle.bson_scalar.specs.SameLaws.{scalar_decides};

    ghost laws = { on_equiv scalar_of (decided scalar_eq scalar_decides) };
}

impl<'a> Hash for ScalarRef<'a> {
    ghost use Rattle.std.specs.Hash.{on_Alike, same_Alike};
    ghost use Rattle.bson_scalar.specs.HashInput.{scalar_hash_input};
    ghost use Rattle.bson_scalar.specs.SameLaws.{scalar_decides};

    ghost hash_input = { λ scalar. scalar_hash_input (scalar_of scalar) };

    ghost respects_eq = { (on_Alike scalar_of (same_Alike scalar_hash_input scalar_decides)).fed };

    fn hash<H: Hasher>(&self, state: &mut H) {
        match *self {
            ScalarRef::Null | ScalarRef::Undefined | ScalarRef::MinKey | ScalarRef::MaxKey => {}
            ScalarRef::Boolean(truth_value) => truth_value.hash(state),
            ScalarRef::Double(pattern) => pattern.hash(state),
            ScalarRef::Int32(integer) => integer.hash(state),
            ScalarRef::Int64(integer) => integer.hash(state),
            ScalarRef::String(text) => text.hash(state),
            ScalarRef::Symbol(text) => text.hash(state),
            ScalarRef::JavaScriptCode(code) => code.hash(state),
            ScalarRef::RegularExpression(regex) => {
                regex.pattern.hash(state);
                regex.options.hash(state);
            }
            ScalarRef::Timestamp(timestamp) => {
                timestamp.time.hash(state);
                timestamp.increment.hash(state);
            }
            ScalarRef::Binary(binary) => {
                binary.subtype.hash(state);
                binary.bytes.hash(state);
            }
            ScalarRef::ObjectId(id) => id.hash(state),
            ScalarRef::DateTime(date) => date.hash(state),
            ScalarRef::Decimal128(decimal) => decimal.hash(state),
            ScalarRef::DbPointer(pointer) => {
                pointer.namespace().hash(state);
                pointer.id().hash(state);
            }
        }
    }
}

impl<'a> fmt::Display for ScalarRef<'a> {
    ghost use Rattle.std.specs.Prelude.{Some};
    ghost use Rattle.bson_scalar.specs.Displayed.{scalar_text};

    ghost output = { λ scalar. Some (scalar_text (scalar_of scalar)) };

    fn fmt<W: fmt::Write>(&self, formatter: &mut fmt::Formatter<W>) -> fmt::Result {
        match *self {
            ScalarRef::Null => formatter.write_str("null"),
            ScalarRef::Undefined => formatter.write_str("undefined"),
            ScalarRef::MinKey => formatter.write_str("MinKey"),
            ScalarRef::MaxKey => formatter.write_str("MaxKey"),
            ScalarRef::Boolean(truth_value) => write!(formatter, "{truth_value}"),
            ScalarRef::Double(pattern) => show_double(pattern, formatter),
            ScalarRef::Int32(integer) => write!(formatter, "{integer}"),
            ScalarRef::Int64(integer) => write!(formatter, "{integer}"),
            ScalarRef::String(text) => write!(formatter, "\"{text}\""),
            ScalarRef::Symbol(text) => write!(formatter, "Symbol(\"{text}\")"),
            ScalarRef::JavaScriptCode(code) => formatter.write_str(code),
            ScalarRef::RegularExpression(regex) => write!(formatter, "{regex}"),
            ScalarRef::Timestamp(timestamp) => write!(formatter, "{timestamp}"),
            ScalarRef::Binary(binary) => write!(formatter, "{binary}"),
            ScalarRef::ObjectId(id) => write!(formatter, "ObjectId(\"{id}\")"),
            ScalarRef::DateTime(date) => write!(formatter, "DateTime(\"{date}\")"),
            ScalarRef::Decimal128(decimal) => write!(formatter, "{decimal}"),
            ScalarRef::DbPointer(pointer) => {
                write!(
                    formatter,
                    "DbPointer({}, {})",
                    pointer.namespace(),
                    pointer.id()
                )
            }
        }
    }
}

// Nothing is promised of this text.
impl<'a> fmt::Debug for ScalarRef<'a> {
    fn fmt<W: fmt::Write>(&self, formatter: &mut fmt::Formatter<W>) -> fmt::Result {
        match *self {
            ScalarRef::Null => formatter.write_str("Null"),
            ScalarRef::Undefined => formatter.write_str("Undefined"),
            ScalarRef::MinKey => formatter.write_str("MinKey"),
            ScalarRef::MaxKey => formatter.write_str("MaxKey"),
            ScalarRef::Boolean(truth_value) => write!(formatter, "Boolean({truth_value})"),
            ScalarRef::Double(pattern) => write!(formatter, "Double({pattern:#x})"),
            ScalarRef::Int32(integer) => write!(formatter, "Int32({integer})"),
            ScalarRef::Int64(integer) => write!(formatter, "Int64({integer})"),
            ScalarRef::String(text) => write!(formatter, "String({text:?})"),
            ScalarRef::Symbol(text) => write!(formatter, "Symbol({text:?})"),
            ScalarRef::JavaScriptCode(code) => write!(formatter, "JavaScriptCode({code:?})"),
            ScalarRef::RegularExpression(regex) => write!(
                formatter,
                "RegularExpression({regex:?})"
            ),
            ScalarRef::Timestamp(timestamp) => write!(formatter, "Timestamp({timestamp:?})"),
            ScalarRef::Binary(binary) => write!(formatter, "Binary({binary:?})"),
            ScalarRef::ObjectId(id) => write!(formatter, "ObjectId({id:?})"),
            ScalarRef::DateTime(date) => write!(formatter, "DateTime({date})"),
            ScalarRef::Decimal128(decimal) => write!(formatter, "Decimal128({decimal})"),
            ScalarRef::DbPointer(pointer) => write!(formatter, "DbPointer({pointer:?})"),
        }
    }
}

// A double by its pattern of bits, in 16 hexadecimal digits.
fn show_double<W: fmt::Write>(pattern: u64, formatter: &mut fmt::Formatter<W>) -> fmt::Result
    ensures { WritesOnOk W.write_str_gives formatter.old result (codes "Double(0x" ++ sixteen_hex_digits pattern
        ++ codes ")") formatter.new }
{
    write!(formatter, "Double(0x{pattern:016x})")
}

impl<'a> ScalarRef<'a> {
    /// Returns a copy of the scalar, in memory of its own.
    ///
    /// # Errors
    ///
    /// Returns `AllocError` if a request for memory is refused.
    pub fn to_owned(&self, alloc: Global) -> Result<Scalar, AllocError>
        ensures { IfOk result (λ copy. scalar_view copy ≡ scalar_of self.now) }
    {
        Ok(match *self {
            ScalarRef::Null => Scalar::Null,
            ScalarRef::Undefined => Scalar::Undefined,
            ScalarRef::MinKey => Scalar::MinKey,
            ScalarRef::MaxKey => Scalar::MaxKey,
            ScalarRef::Boolean(truth_value) => Scalar::Boolean(truth_value),
            ScalarRef::Double(pattern) => Scalar::Double(pattern),
            ScalarRef::Int32(integer) => Scalar::Int32(integer),
            ScalarRef::Int64(integer) => Scalar::Int64(integer),
            ScalarRef::String(text) => Scalar::String(String::from_str(alloc, text)?),
            ScalarRef::Symbol(text) => Scalar::Symbol(String::from_str(alloc, text)?),
            ScalarRef::JavaScriptCode(code) => Scalar::JavaScriptCode(String::from_str(
                alloc, code,
            )?),
            ScalarRef::RegularExpression(regex) => Scalar::RegularExpression(regex.clone(alloc)?),
            ScalarRef::Timestamp(timestamp) => Scalar::Timestamp(timestamp),
            ScalarRef::Binary(binary) => Scalar::Binary(binary.clone(alloc)?),
            ScalarRef::ObjectId(id) => Scalar::ObjectId(id),
            ScalarRef::DateTime(date) => Scalar::DateTime(date),
            ScalarRef::Decimal128(decimal) => Scalar::Decimal128(decimal),
            ScalarRef::DbPointer(pointer) => Scalar::DbPointer(pointer.clone(alloc)?),
        })
    }
}
