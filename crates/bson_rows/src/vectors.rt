//! `vector CALL ARGS`: vectors and their bytes.
use crate::arguments::{parse_bytes, parse_number, split_at_space};
use crate::binaries::{parse_binary, write_binary};
use crate::row_error::{RowError, RowResult};
use crate::row_output::RowOutput;
use bson::Bson;
use bson::binary::{Binary, PackedBitVector, Result as BinaryResult, Vector};

pub(crate) fn run_call(remaining_args: &str, output_line: &mut RowOutput) -> RowResult {
    let alloc = output_line.alloc;
    let (call_name, text) = split_at_space(remaining_args);
    match call_name {
        "binary" => {
            let vector = Vector::from_binary(alloc, &parse_binary(alloc, text)?);
            output_line.write_debug_result(vector);
            Ok(())
        }
        "packed" => write_packed_bits(text, output_line),
        _ => run_call_on_bytes(call_name, parse_bytes(alloc, text)?, output_line),
    }
}

/// The calls on the vector of the bytes.
fn run_call_on_bytes(call_name: &str, bytes: Vec<u8>, output_line: &mut RowOutput) -> RowResult {
    let alloc = output_line.alloc;
    let vector = if call_name == "cleared" {
        Vector::from_bytes_clearing(alloc, bytes.as_slice())
    } else {
        Vector::from_bytes(alloc, bytes.as_slice())
    };
    match vector {
        Ok(vector) => return run_call_on_vector(call_name, vector, output_line),
        Err(error) => output_line.write_error(&error),
    }
    Ok(())
}

fn run_call_on_vector(call_name: &str, vector: Vector, output_line: &mut RowOutput) -> RowResult {
    let alloc = output_line.alloc;
    match call_name {
        "read" => output_line.write_debug_value(&vector),
        "back" | "cleared" => write_binary(Binary::from_vector(alloc, &vector), output_line),
        "value" => output_line.write_result(Bson::from_vector(alloc, &vector)),
        "clone" => output_line.write_debug_copy(&vector, vector.clone(alloc)),
        _ => return Err(RowError::InvalidRow),
    }
    Ok(())
}

/// `PADDING BYTES`, the padding a number or `none`: the padding and the bytes, and a copy.
fn write_packed_bits(text: &str, output_line: &mut RowOutput) -> RowResult {
    let (padding, bytes) = split_at_space(text);
    let padding = match padding {
        "none" => None,
        _ => Some(parse_number::<u8>(padding)?),
    };
    let bytes = parse_bytes(output_line.alloc, bytes)?;
    write_created_bits(PackedBitVector::new(bytes, padding), output_line);
    Ok(())
}

fn write_created_bits(created: BinaryResult<PackedBitVector>, output_line: &mut RowOutput) {
    let alloc = output_line.alloc;
    match created {
        Ok(bit_vector) => {
            output_line.write_display(&bit_vector.padding());
            output_line.write_str(" ");
            output_line.write_hex(bit_vector.as_bytes());
            output_line.write_str(" ");
            output_line.write_debug_copy(&bit_vector, bit_vector.clone(alloc));
        }
        Err(error) => output_line.write_error(&error),
    }
}
