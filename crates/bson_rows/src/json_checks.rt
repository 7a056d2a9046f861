//! `json TEXT`, `json wide TEXT`: whether a text is JSON. A wide text has a number out of range.
//! `is_canonical TEXT`: whether a text is the canonical text of its value, with finite doubles.
//! `check_canonical TEXT`: the same, and why it is not.
use crate::finite_doubles::finite_doubles_options;
use crate::row_error::{RowError, RowResult};
use crate::row_output::RowOutput;
use bson_convert::canonical::{check_canonical, is_canonical_text};
use bson_convert::error::Error;
use bson_json::text::is_json;

pub(crate) fn run_call(remaining_args: &str, output_line: &mut RowOutput) -> RowResult {
    let text = remaining_args
        .strip_prefix("wide ")
        .unwrap_or(remaining_args);
    let is_valid_json = is_json(output_line.alloc, text);
    output_line.write_result(is_valid_json);
    Ok(())
}

pub(crate) fn write_is_canonical(text: &str, output_line: &mut RowOutput) -> RowResult {
    let is_canonical = is_canonical_text(
        output_line.alloc,
        finite_doubles_options(),
        text.as_bytes(),
    );
    output_line.write_result(is_canonical);
    Ok(())
}

pub(crate) fn write_canonical_check(text: &str, output_line: &mut RowOutput) -> RowResult {
    match check_canonical(output_line.alloc, finite_doubles_options(), text.as_bytes()) {
        Ok(()) => output_line.write_str("canonical"),
        Err(Error::OutOfMemory) => return Err(RowError::OutOfMemory),
        Err(Error::NotCanonical(column)) => output_line.write_display(&column),
        Err(error) => output_line.write_str(error.message()),
    }
    Ok(())
}
