//! `error NAME`: the refusals that no call answers by the row's arguments alone, out of memory
//! among them, and what is written of them in the row's style.
use crate::arguments::{parse_number, split_at_space};
use crate::row_error::{RowError, RowResult};
use crate::row_output::RowOutput;
use crate::row_values::parse_value;
use bson::document::Refused;
use bson::extjson::WriteError;
use bson::store::Stopped;
use bson::{binary, datetime, extjson, oid};

pub(crate) fn run_call(remaining_args: &str, output_line: &mut RowOutput) -> RowResult {
    let (call_name, text) = split_at_space(remaining_args);
    match call_name {
        "oid" => output_line.write_value(&oid::Error::OutOfMemory),
        "datetime" => output_line.write_value(&datetime::Error::OutOfMemory),
        "binary" => output_line.write_value(&binary::Error::OutOfMemory),
        "extjson::de" => output_line.write_value(&extjson::de::Error::OutOfMemory),
        "extjson" => output_line.write_value(&WriteError::OutOfMemory),
        "refused" => return write_refused(text, output_line),
        "stopped" => output_line.write_value(&Stopped {
            done: parse_number::<usize>(text)?,
        }),
        _ => return Err(RowError::InvalidRow),
    }
    Ok(())
}

/// `KEY VALUE`: the pair that was not inserted.
fn write_refused(text: &str, output_line: &mut RowOutput) -> RowResult {
    let alloc = output_line.alloc;
    let (key, text) = split_at_space(text);
    let key = String::from_str(alloc, key)?;
    let value = parse_value(alloc, text)?;
    output_line.write_value(&Refused { key, value });
    Ok(())
}
