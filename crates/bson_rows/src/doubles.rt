//! `double text PATTERN` and `double read TEXT`: finite doubles as decimal texts.
use crate::arguments::{parse_double_bits, split_at_space};
use crate::row_error::{RowError, RowResult};
use crate::row_output::RowOutput;
use bson_double::{double_of_text, double_text, is_finite};

pub(crate) fn run_call(remaining_args: &str, output_line: &mut RowOutput) -> RowResult {
    let (call_name, text) = split_at_space(remaining_args);
    match call_name {
        "text" => write_double(text, output_line),
        "read" => {
            read_double(text, output_line);
            Ok(())
        }
        _ => Err(RowError::InvalidRow),
    }
}

/// The text of the double of the pattern.
fn write_double(pattern: &str, output_line: &mut RowOutput) -> RowResult {
    let pattern = parse_double_bits(pattern)?;
    if is_finite(pattern) {
        output_line.write_str(double_text(pattern).as_str());
    } else {
        output_line.write_str("not finite");
    }
    Ok(())
}

/// The pattern of the double that the text means.
fn read_double(text: &str, output_line: &mut RowOutput) {
    match double_of_text(text.as_bytes()) {
        Ok(pattern) => output_line.write_hex(&pattern.to_be_bytes()),
        Err(error) => output_line.write_error(&error),
    }
}
