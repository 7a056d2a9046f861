//! `mongodb FORM VALUE`: a value that is read or made, and written by `Options::mongodb`.
use crate::arguments::split_at_space;
use crate::finite_doubles::write_text_result;
use crate::row_error::{RowError, RowResult};
use crate::row_output::RowOutput;
use crate::value_steps;
use bson::Bson;
use bson::extjson::{Form, KeyOrder, Options};
use bson_convert::convert::convert_text;
use bson_convert::mode::Mode;

/// `canonical VALUE` and `relaxed VALUE`: the value is read or made, and written. Keys are in the order of
/// the text, or with `sorted_canonical` and `sorted_relaxed` in ascending order.
pub(crate) fn run_call(remaining_args: &str, output_line: &mut RowOutput) -> RowResult {
    let alloc = output_line.alloc;
    let (form, text) = split_at_space(remaining_args);
    let (form, options) = match form.strip_prefix("sorted_") {
        Some(form) => (form, sorted_options()),
        None => (form, Options::mongodb()),
    };
    let (form, mode) = match form {
        "canonical" => (Form::Canonical, Mode::Canonical),
        "relaxed" => (Form::Relaxed, Mode::Relaxed),
        _ => return Err(RowError::InvalidRow),
    };
    if let Some(made_steps) = text.strip_prefix("made ") {
        let value = value_steps::make_value(alloc, made_steps)?;
        write_value(options, form, value, output_line);
        return Ok(());
    }
    match Bson::from_text(alloc, options, text.as_bytes()) {
        Ok(value) => {
            write_value(options, form, value, output_line);
            write_conversion(options, mode, text, output_line)
        }
        rejected_text => write_text_result(rejected_text, output_line),
    }
}

fn sorted_options() -> Options {
    Options {
        key_order: KeyOrder::Ascending,
        ..Options::mongodb()
    }
}

/// Writes the text of the value, and the texts of the other calls if they are not equal.
fn write_value(options: Options, form: Form, value: Bson, output_line: &mut RowOutput) {
    let alloc = output_line.alloc;
    output_line.write_result(value.to_text(alloc, options, form));
    if options.key_order == KeyOrder::AsGiven {
        write_appended_text(options, form, &value, output_line);
    }
    match value.into_text(alloc, options, form) {
        Ok(text) => write_other_text(" and moved ", text.as_str(), output_line),
        Err(error) => output_line.write_error(&error),
    }
}

/// Writes the text that is appended to an empty vector, if it is not equal.
fn write_appended_text(options: Options, form: Form, value: &Bson, output_line: &mut RowOutput) {
    let alloc = output_line.alloc;
    let mut appended_bytes = Vec::new(alloc);
    match value.write_text_into(alloc, options, form, &mut appended_bytes) {
        Ok(()) => {
            if let Ok(text) = std::str::from_utf8(&appended_bytes) {
                write_other_text(" and appended ", text, output_line);
            }
        }
        Err(error) => output_line.write_error(&error),
    }
}

/// Writes the text that is written without a value, if it is not equal.
fn write_conversion(
    options: Options,
    mode: Mode,
    text: &str,
    output_line: &mut RowOutput,
) -> RowResult {
    match convert_text(output_line.alloc, options, mode, text.as_bytes()) {
        Ok(line) => {
            if let Ok(line) = std::str::from_utf8(&line) {
                write_other_text(" and converted ", line.trim_end(), output_line);
            }
        }
        Err(fault) if fault.is_out_of_memory() => return Err(RowError::OutOfMemory),
        Err(fault) => write_other_text(" and converted ", fault.message(), output_line),
    }
    Ok(())
}

/// Writes the text of another call, unless it is what the line has.
fn write_other_text(call_name: &str, text: &str, output_line: &mut RowOutput) {
    if text != output_line.line() {
        output_line.write_str(call_name);
        output_line.write_str(text);
    }
}
