//! `id CALL ARGS`: object ids.
use crate::arguments::{parse_bytes, parse_number, parse_sized_bytes, split_at_space};
use crate::row_error::{RowError, RowResult};
use crate::row_output::RowOutput;
use bson::{DbPointer, ObjectId};

pub(crate) fn run_call(remaining_args: &str, output_line: &mut RowOutput) -> RowResult {
    let alloc = output_line.alloc;
    let (call_name, text) = split_at_space(remaining_args);
    match call_name {
        "parse" => output_line.write_result(ObjectId::parse_str(alloc, text)),
        "pointer" => write_pointer(text, output_line)?,
        "hex" => output_line.write_result(parse_object_id(text)?.to_hex(alloc)),
        "parts" => write_id_of_parts(text, output_line)?,
        "timestamp" => {
            let date_time = parse_object_id(text)?.timestamp();
            output_line.write_display(&date_time.timestamp_millis());
            output_line.write_item(&date_time);
        }
        "order" => {
            let (first_id, second_id) = split_at_space(text);
            output_line.write_ordering(parse_object_id(first_id)?, parse_object_id(second_id)?);
        }
        _ => return Err(RowError::InvalidRow),
    }
    Ok(())
}

fn parse_object_id(text: &str) -> Result<ObjectId, RowError> {
    Ok(ObjectId::from_bytes(parse_sized_bytes::<12>(text)?))
}

/// `SECONDS PROCESS COUNTER`: a number, five bytes and three.
fn write_id_of_parts(text: &str, output_line: &mut RowOutput) -> RowResult {
    let alloc = output_line.alloc;
    let (seconds, remaining_args) = split_at_space(text);
    let seconds = parse_number::<u32>(seconds)?;
    let (process, counter) = split_at_space(remaining_args);
    let process = parse_bytes(alloc, process)?;
    let counter = parse_bytes(alloc, counter)?;
    match (process.as_slice(), counter.as_slice()) {
        ([process0, process1, process2, process3, process4], [counter0, counter1, counter2]) => {
            output_line.write_value(&ObjectId::from_parts(
                seconds,
                [*process0, *process1, *process2, *process3, *process4],
                [*counter0, *counter1, *counter2],
            ));
            Ok(())
        }
        _ => Err(RowError::InvalidRow),
    }
}

/// `NAMESPACE BYTES`: a copy of the pointer, and its parts.
fn write_pointer(text: &str, output_line: &mut RowOutput) -> RowResult {
    let alloc = output_line.alloc;
    let (namespace, id) = split_at_space(text);
    let id = parse_object_id(id)?;
    let pointer = DbPointer::new(String::from_str(alloc, namespace)?, id);
    match pointer.clone(alloc) {
        Ok(copy) => write_pointer_copy(&pointer, copy, output_line),
        Err(error) => output_line.write_error(&error),
    }
    Ok(())
}

fn write_pointer_copy(pointer: &DbPointer, copy: DbPointer, output_line: &mut RowOutput) {
    if copy != *pointer {
        output_line.write_str("another ");
    }
    output_line.write_debug_value(&copy);
    output_line.write_word(copy.namespace());
    output_line.write_item(&copy.id());
    let (namespace, id) = copy.into_parts();
    output_line.write_item(&namespace);
    output_line.write_item(&id);
}
