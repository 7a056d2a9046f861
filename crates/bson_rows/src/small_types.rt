//! `timestamp T,I`, `timestamp_order T,I T,I`, `regex PATTERN OPTIONS`, `code TEXT SCOPE`,
//! `representation ORDER`: the kinds that are small structs, by themselves.
use crate::arguments::{parse_number, split_at_space};
use crate::binaries::parse_representation;
use crate::row_error::{RowError, RowResult};
use crate::row_output::RowOutput;
use crate::row_values::parse_document;
use bson::{JavaScriptCodeWithScope, Regex, Timestamp};

pub(crate) fn run_call(
    call_name: &str,
    remaining_args: &str,
    output_line: &mut RowOutput,
) -> RowResult {
    match call_name {
        "timestamp" => output_line.write_value(&parse_timestamp(remaining_args)?),
        "timestamp_order" => {
            let (first_timestamp, second_timestamp) = split_at_space(remaining_args);
            let first_timestamp = parse_timestamp(first_timestamp)?;
            output_line.write_ordering(first_timestamp, parse_timestamp(second_timestamp)?);
        }
        "regex" => {
            let (pattern, options) = split_at_space(remaining_args);
            let regex = Regex::new(output_line.alloc, pattern, options);
            output_line.write_result(regex);
        }
        "representation" => output_line.write_debug_value(&parse_representation(remaining_args)?),
        "code" => return write_code_with_scope(remaining_args, output_line),
        _ => return Err(RowError::InvalidRow),
    }
    Ok(())
}

fn parse_timestamp(text: &str) -> Result<Timestamp, RowError> {
    let Some((time, increment)) = text.split_once(',') else {
        return Err(RowError::InvalidRow);
    };
    let time = parse_number::<u32>(time)?;
    let increment = parse_number::<u32>(increment)?;
    Ok(Timestamp { time, increment })
}

fn write_code_with_scope(remaining_args: &str, output_line: &mut RowOutput) -> RowResult {
    let alloc = output_line.alloc;
    let (code, scope) = split_at_space(remaining_args);
    let code = String::from_str(alloc, code)?;
    let scope = parse_document(alloc, scope)?;
    output_line.write_value(&JavaScriptCodeWithScope { code, scope });
    Ok(())
}
