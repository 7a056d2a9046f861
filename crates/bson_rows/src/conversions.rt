//! `from KIND ARG`: the value that a conversion makes, by its element type and as it is shown.
use crate::arguments::{parse_number, parse_sized_bytes, split_at_space};
use crate::row_error::{RowError, RowResult};
use crate::row_output::RowOutput;
use crate::row_values::{parse_document, parse_value};
use bson::{Bson, DateTime, Decimal128, JavaScriptCodeWithScope, Regex};
use std::alloc::{AllocError, Global};

pub(crate) fn run_call(remaining_args: &str, output_line: &mut RowOutput) -> RowResult {
    let (call_name, text) = split_at_space(remaining_args);
    let alloc = output_line.alloc;
    match call_name {
        "list" | "slice" | "values" => convert_list(call_name, text, output_line),
        "document" | "code" => convert_document(call_name, text, output_line),
        "option" | "clone" => convert_value(call_name, text, output_line),
        "binary" | "pointer" | "id" | "bytes" | "timestamp" => {
            write_converted(
                convert_content(call_name, parse_value(alloc, text)?)?,
                output_line,
            )
        }
        "string" => write_created(Bson::string(alloc, text), output_line),
        "regex" => convert_regex(text, output_line),
        _ => write_converted(convert_argument(alloc, call_name, text)?, output_line),
    }
}

fn write_converted(value: Bson, output_line: &mut RowOutput) -> RowResult {
    output_line.write_debug(&value.element_type());
    output_line.write_item(&value);
    Ok(())
}

fn write_created(created: Result<Bson, AllocError>, output_line: &mut RowOutput) -> RowResult {
    match created {
        Ok(value) => return write_converted(value, output_line),
        Err(error) => output_line.write_error(&error),
    }
    Ok(())
}

fn convert_argument(alloc: Global, call_name: &str, text: &str) -> Result<Bson, RowError> {
    match call_name {
        "i32" => Ok(Bson::from(parse_number::<i32>(text)?)),
        "i64" => Ok(Bson::from(parse_number::<i64>(text)?)),
        "u32" => Ok(Bson::from(parse_number::<u32>(text)?)),
        "bool" => Ok(Bson::from(text == "true")),
        "date" => Ok(Bson::from(DateTime::from_millis(parse_number::<i64>(text)?))),
        "decimal" => Ok(Bson::from(Decimal128::from_bytes(parse_sized_bytes::<16>(text)?))),
        "String" => Ok(Bson::from(String::from_str(alloc, text)?)),
        "nothing" => Ok(Bson::from_option(None)),
        "default" => Ok(Bson::default()),
        _ => Err(RowError::InvalidRow),
    }
}

fn convert_list(call_name: &str, text: &str, output_line: &mut RowOutput) -> RowResult {
    let alloc = output_line.alloc;
    let Bson::Array(list) = parse_value(alloc, text)? else {
        return Err(RowError::InvalidRow);
    };
    match call_name {
        "list" => write_converted(Bson::from(list), output_line),
        "slice" => write_created(Bson::from_slice(alloc, list.as_slice()), output_line),
        // (the values of a list alone would be collected in its own buffer)
        _ => write_created(
            Bson::from_values(alloc, list.into_iter().chain(None)),
            output_line,
        ),
    }
}

/// A document, or code `f` with it as the scope, by a copy.
fn convert_document(call_name: &str, text: &str, output_line: &mut RowOutput) -> RowResult {
    let alloc = output_line.alloc;
    let scope = parse_document(alloc, text)?;
    if call_name == "document" {
        return write_converted(Bson::from(scope), output_line);
    }
    let code = String::from_str(alloc, "f")?;
    let created = JavaScriptCodeWithScope { code, scope };
    let copy = created.clone(alloc);
    write_converted_copy(created, copy, output_line)
}

/// An option that contains the value, or a copy of the value.
fn convert_value(call_name: &str, text: &str, output_line: &mut RowOutput) -> RowResult {
    let alloc = output_line.alloc;
    let value = parse_value(alloc, text)?;
    if call_name == "option" {
        return write_converted(Bson::from_option(Some(value)), output_line);
    }
    let copy = value.clone(alloc);
    write_converted_copy(value, copy, output_line)
}

/// `PATTERN OPTIONS`, by `Regex::new`, and a copy of it.
fn convert_regex(text: &str, output_line: &mut RowOutput) -> RowResult {
    let alloc = output_line.alloc;
    let (pattern, options) = split_at_space(text);
    match Regex::new(alloc, pattern, options) {
        Ok(created) => {
            let copy = created.clone(alloc);
            write_converted_copy(created, copy, output_line)
        }
        Err(error) => write_created(Err(error), output_line),
    }
}

/// Writes the value of a copy, and before it whether it is another one.
fn write_converted_copy<T: PartialEq + Drop>(
    value: T,
    copy: Result<T, AllocError>,
    output_line: &mut RowOutput,
) -> RowResult
where
    Bson: From<T>,
{
    match copy {
        Ok(copy) => {
            if copy != value {
                output_line.write_str("another ");
            }
            write_converted(Bson::from(copy), output_line)
        }
        Err(error) => write_created(Err(error), output_line),
    }
}

/// The value of the content of another value.
fn convert_content(call_name: &str, value: Bson) -> Result<Bson, RowError> {
    match (call_name, value) {
        ("binary", Bson::Binary(binary)) => Ok(Bson::from(binary)),
        ("pointer", Bson::DbPointer(pointer)) => Ok(Bson::from(pointer)),
        ("id", Bson::ObjectId(id)) => Ok(Bson::from(id)),
        ("bytes", Bson::ObjectId(id)) => Ok(Bson::from(id.bytes())),
        ("timestamp", Bson::Timestamp(timestamp)) => Ok(Bson::from(timestamp)),
        _ => Err(RowError::InvalidRow),
    }
}
