//! Makes values step by step, for those that no tree denotes: a step pushes a value on a stack, or
//! pops from it.
//!
//! `doc` and `list` begin an empty one; `put:KEY` and `add` move the topmost value into the document
//! or the list below it; `scope:CODE` makes code of the document on top; each other step is a value
//! of its kind.
use crate::arguments::{
    parse_byte, parse_bytes, parse_double_bits, parse_number, parse_sized_bytes, split_at_colon,
};
use crate::row_error::RowError;
use bson::binary::Binary;
use bson::spec::BinarySubtype;
use bson::{Bson, DateTime, Decimal128, Document, JavaScriptCodeWithScope, Regex};
use std::alloc::Global;

/// Returns the value that remains on the stack.
pub(crate) fn make_value(alloc: Global, steps: &str) -> Result<Bson, RowError> {
    let mut stack = Vec::new(alloc);
    for step in steps.split(' ') {
        let value = run_step(alloc, &mut stack, step)?;
        if stack.push(value).is_err() {
            return Err(RowError::NoMemoryForRow);
        }
    }
    pop_value(&mut stack)
}

/// Returns the value that the step pushes on the stack.
fn run_step(alloc: Global, stack: &mut Vec<Bson>, step: &str) -> Result<Bson, RowError> {
    let (step_name, step_args) = split_at_colon(step);
    match step_name {
        "put" => insert_into_document(alloc, stack, step_args),
        "add" => push_to_array(stack),
        "scope" => make_code_with_scope(alloc, stack, step_args),
        "regex" => make_regex(alloc, step_args),
        "binary" => make_binary(alloc, step_args),
        _ => make_simple_value(alloc, step_name, step_args),
    }
}

/// Pops the topmost value of the stack.
fn pop_value(stack: &mut Vec<Bson>) -> Result<Bson, RowError> {
    stack.pop().ok_or(RowError::InvalidRow)
}

fn pop_document(stack: &mut Vec<Bson>) -> Result<Document, RowError> {
    match stack.pop() {
        Some(Bson::Document(document)) => Ok(document),
        _ => Err(RowError::InvalidRow),
    }
}

/// A value that needs no other.
fn make_simple_value(alloc: Global, step_name: &str, step_args: &str) -> Result<Bson, RowError> {
    match step_name {
        "doc" => Ok(Bson::Document(Document::new(alloc))),
        "list" => Ok(Bson::Array(Vec::new(alloc))),
        "null" => Ok(Bson::Null),
        "double" => Ok(Bson::Double(parse_double_bits(step_args)?)),
        "int32" => Ok(Bson::Int32(parse_number::<i32>(step_args)?)),
        "int64" => Ok(Bson::Int64(parse_number::<i64>(step_args)?)),
        "text" => Ok(Bson::String(String::from_str(alloc, step_args)?)),
        "date" => Ok(Bson::DateTime(DateTime::from_millis(parse_number::<i64>(step_args)?))),
        "decimal" => Ok(Bson::Decimal128(Decimal128::from_bytes(parse_sized_bytes::<16>(
            step_args,
        )?))),
        _ => Err(RowError::InvalidRow),
    }
}

/// `PATTERN:OPTIONS`, the options as they are.
fn make_regex(alloc: Global, step_args: &str) -> Result<Bson, RowError> {
    let (pattern, options) = split_at_colon(step_args);
    let pattern = String::from_str(alloc, pattern)?;
    let options = String::from_str(alloc, options)?;
    Ok(Bson::RegularExpression(Regex { pattern, options }))
}

/// `generic:BYTES`, or the byte of a subtype, which is declared as the user's own.
fn make_binary(alloc: Global, step_args: &str) -> Result<Bson, RowError> {
    let (subtype, bytes) = split_at_colon(step_args);
    let subtype = match subtype {
        "generic" => BinarySubtype::Generic,
        _ => BinarySubtype::UserDefined(parse_byte(subtype)?),
    };
    let bytes = parse_bytes(alloc, bytes)?;
    Ok(Bson::Binary(Binary { subtype, bytes }))
}

/// The document below the topmost value, with the value added to it.
fn insert_into_document(alloc: Global, stack: &mut Vec<Bson>, key: &str) -> Result<Bson, RowError> {
    let key = String::from_str(alloc, key)?;
    let value = pop_value(stack)?;
    let mut document = pop_document(stack)?;
    match document.insert(key, value) {
        Ok(_) => Ok(Bson::Document(document)),
        Err(_) => Err(RowError::NoMemoryForRow),
    }
}

/// The list below the topmost value, with the value added to it.
fn push_to_array(stack: &mut Vec<Bson>) -> Result<Bson, RowError> {
    let value = pop_value(stack)?;
    let Bson::Array(mut list) = pop_value(stack)? else {
        return Err(RowError::InvalidRow);
    };
    match list.push(value) {
        Ok(()) => Ok(Bson::Array(list)),
        Err(_) => Err(RowError::NoMemoryForRow),
    }
}

/// Code with the topmost document as its scope.
fn make_code_with_scope(
    alloc: Global,
    stack: &mut Vec<Bson>,
    code: &str,
) -> Result<Bson, RowError> {
    let code = String::from_str(alloc, code)?;
    let scope = pop_document(stack)?;
    Ok(Bson::JavaScriptCodeWithScope(JavaScriptCodeWithScope { code, scope }))
}
