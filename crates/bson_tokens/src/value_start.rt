//! How a value starts.
ghost use Rattle.std.specs.Prelude.{◌≡◌, ◌<◌, length, IfOk, IfErr, OnOk};
ghost use Rattle.json.specs.Json.{value};
ghost use Rattle.serde_json.specs.Read.{of_json, converted};
ghost use Rattle.serde_json.specs.View.{view};
ghost use Rattle.bson_tokens.specs.ReadOutcomes.{NothingReadIfInvalid};
ghost use Rattle.bson_tokens.specs.ValueStart.{StartsValue, primitive_tree};

use crate::number::number;
use json::{Error, Reader, Token};
use serde_json::{Number, Value};
use std::alloc::{AllocError, Global};

/// A value of one token.
#[derive(Drop)]
pub enum Primitive<'a> {
    Null,
    Bool(bool),
    Number(Number),
    String(&'a str),
}

/// How a value starts.
#[derive(Drop)]
pub enum ValueStart<'a> {
    /// The value as a whole.
    Primitive(Primitive<'a>),
    /// The bracket of an array.
    Array,
    /// The brace of an object.
    Object,
}

/// Reads the first token of the next value, nested at most `depth` deep, and returns how the value
/// starts.
///
/// # Errors
///
/// - `Invalid`: the next token starts no value, is a number out of range, or is the bracket or
///   brace of a value that nests deeper.
#[inline(always)]
pub fn read_start<'a>(reader: &mut Reader<'a>, depth: usize) -> Result<ValueStart<'a>, Error>
    ensures ok { IfOk result (λ start. StartsValue depth reader.old start reader.new) }
    ensures broken { IfErr result (NothingReadIfInvalid (converted of_json (value depth reader.old))) }
    ensures shorter { OnOk result (length reader.new < length reader.old) }
{
    let token = reader.next().ok_or(Error::Invalid)?;
    match token {
        Token::String(text) => Ok(ValueStart::Primitive(Primitive::String(text))),
        Token::Number(text) => match number(text) {
            Some(json_number) => Ok(ValueStart::Primitive(Primitive::Number(json_number))),
            None => Err(Error::Invalid),
        },
        Token::Bool(truth_value) => Ok(ValueStart::Primitive(Primitive::Bool(truth_value))),
        Token::Null => Ok(ValueStart::Primitive(Primitive::Null)),
        Token::EndObject | Token::EndArray | Token::Key(_) | Token::Bad => Err(Error::Invalid),
        Token::BeginArray => {
            if depth == 0 {
                return Err(Error::Invalid);
            }
            Ok(ValueStart::Array)
        }
        Token::BeginObject => {
            if depth == 0 {
                return Err(Error::Invalid);
            }
            Ok(ValueStart::Object)
        }
    }
}

// Returns the tree of a value of one token.
pub(crate) fn primitive_value(alloc: Global, primitive: Primitive<'_>) -> Result<Value, AllocError>
    ensures { IfOk result (λ tree. view tree ≡ primitive_tree primitive.entry) }
{
    match primitive {
        Primitive::String(text) => Ok(Value::String(String::from_str(alloc, text)?)),
        Primitive::Number(json_number) => Ok(Value::Number(json_number)),
        Primitive::Bool(truth_value) => Ok(Value::Bool(truth_value)),
        Primitive::Null => Ok(Value::Null),
    }
}
