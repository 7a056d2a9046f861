//! `uuid CALL ARGS` and `binary CALL ARGS`: UUIDs, base64, and binaries that hold UUIDs.
use crate::arguments::{parse_byte, parse_bytes, parse_sized_bytes, split_at_space};
use crate::row_error::{CallError, RowError, RowResult};
use crate::row_output::RowOutput;
use bson::Bson;
use bson::binary::Binary;
use bson::spec::BinarySubtype;
use bson::uuid::{self, Uuid, UuidRepresentation};
use std::alloc::Global;

/// `uuid parse TEXT`, `uuid to ORDER UUID`, `uuid from ORDER SUBTYPE BYTES`, `uuid value UUID`.
pub(crate) fn run_uuid_call(remaining_args: &str, output_line: &mut RowOutput) -> RowResult {
    let alloc = output_line.alloc;
    let (call_name, text) = split_at_space(remaining_args);
    match call_name {
        "parse" => write_uuid(&Uuid::parse_str(text), output_line),
        "to" => write_uuid_binary(text, output_line)?,
        "from" => write_uuid_of_binary(text, output_line)?,
        "value" => output_line.write_result(Bson::from_uuid(alloc, parse_uuid(text)?)),
        _ => return Err(RowError::InvalidRow),
    }
    Ok(())
}

fn parse_uuid(text: &str) -> Result<Uuid, RowError> {
    Ok(Uuid::from_bytes(parse_sized_bytes::<16>(text)?))
}

/// Writes the UUID's text, and its bytes.
fn write_uuid(parsed_uuid: &uuid::Result<Uuid>, output_line: &mut RowOutput) {
    match parsed_uuid {
        Ok(id) => {
            output_line.write_value(id);
            output_line.write_str(" ");
            output_line.write_hex(&id.bytes());
        }
        Err(error) => output_line.write_error(error),
    }
}

pub(crate) fn parse_representation(
    representation_name: &str,
) -> Result<UuidRepresentation, RowError> {
    match representation_name {
        "standard" => Ok(UuidRepresentation::Standard),
        "csharp" => Ok(UuidRepresentation::CSharpLegacy),
        "java" => Ok(UuidRepresentation::JavaLegacy),
        "python" => Ok(UuidRepresentation::PythonLegacy),
        _ => Err(RowError::InvalidRow),
    }
}

/// Writes the subtype and the bytes of the binary. `plain` calls `from_uuid`.
fn write_uuid_binary(text: &str, output_line: &mut RowOutput) -> RowResult {
    let alloc = output_line.alloc;
    let (representation_name, bytes) = split_at_space(text);
    let id = parse_uuid(bytes)?;
    if representation_name == "plain" {
        write_binary(Binary::from_uuid(alloc, id), output_line);
    } else {
        let uuid_representation = parse_representation(representation_name)?;
        write_binary(
            Binary::from_uuid_with_representation(alloc, id, uuid_representation),
            output_line,
        );
    }
    Ok(())
}

/// Writes the subtype by its name, and the bytes.
pub(crate) fn write_binary<E: CallError>(created: Result<Binary, E>, output_line: &mut RowOutput) {
    match created {
        Ok(binary) => {
            output_line.write_debug(&binary.subtype);
            output_line.write_str(" ");
            output_line.write_hex(binary.bytes.as_slice());
        }
        Err(error) => output_line.write_error(&error),
    }
}

/// Writes the UUID of a binary with the subtype's byte and these bytes. `plain` calls `to_uuid`.
fn write_uuid_of_binary(text: &str, output_line: &mut RowOutput) -> RowResult {
    let (representation_name, remaining_args) = split_at_space(text);
    let binary = parse_binary(output_line.alloc, remaining_args)?;
    if representation_name == "plain" {
        write_uuid(&binary.to_uuid(), output_line);
    } else {
        let uuid_representation = parse_representation(representation_name)?;
        write_uuid(
            &binary.to_uuid_with_representation(uuid_representation),
            output_line,
        );
    }
    Ok(())
}

/// `SUBTYPE BYTES`.
pub(crate) fn parse_binary(alloc: Global, text: &str) -> Result<Binary, RowError> {
    let (subtype, bytes) = split_at_space(text);
    let subtype = BinarySubtype::from(parse_byte(subtype)?);
    let bytes = parse_bytes(alloc, bytes)?;
    Ok(Binary { subtype, bytes })
}

/// `binary base64 TEXT`, `binary base64_as SUBTYPE TEXT`, `binary shown SUBTYPE BYTES`, `binary
/// clone SUBTYPE BYTES`.
pub(crate) fn run_call(remaining_args: &str, output_line: &mut RowOutput) -> RowResult {
    let alloc = output_line.alloc;
    let (call_name, text) = split_at_space(remaining_args);
    match call_name {
        "shown" => output_line.write_value(&parse_binary(alloc, text)?),
        "clone" => {
            let binary = parse_binary(alloc, text)?;
            output_line.write_copy(&binary, binary.clone(alloc));
        }
        "base64" => write_binary(Binary::from_base64(alloc, text, None), output_line),
        "base64_as" => {
            let (subtype, text) = split_at_space(text);
            let subtype = BinarySubtype::from(parse_byte(subtype)?);
            write_binary(Binary::from_base64(alloc, text, Some(subtype)), output_line);
        }
        _ => return Err(RowError::InvalidRow),
    }
    Ok(())
}
