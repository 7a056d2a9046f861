//! `finite CALL VALUE`: trees and texts that are read, and values that are written, where finite
//! doubles are.
use crate::arguments::split_at_space;
use crate::extended_json::write_equal_outputs;
use crate::row_error::{RowError, RowResult};
use crate::row_output::RowOutput;
use crate::row_values::parse_tree;
use crate::value_steps;
use bson::extjson::de::{Result as ReadResult, TextError};
use bson::extjson::{Doubles, Form, Options};
use bson::{Bson, Document};
use bson_convert::convert::convert_text;
use bson_convert::mode::Mode;
use serde_json::Value;

/// Returns the default options with finite doubles.
pub(crate) fn finite_doubles_options() -> Options {
    Options {
        doubles: Doubles::Finite,
        ..Options::default()
    }
}

/// `canonical VALUE` and `relaxed VALUE`: the value is read or made, and written. `read TEXT`: what
/// the text means. `converted TEXT`: the relaxed text of that. `map MAP` and `own MAP`, as the call
/// `map` has them.
pub(crate) fn run_call(remaining_args: &str, output_line: &mut RowOutput) -> RowResult {
    let (call_name, remaining_args) = split_at_space(remaining_args);
    match call_name {
        "canonical" => write_tree_or_steps(Form::Canonical, remaining_args, output_line),
        "relaxed" => write_tree_or_steps(Form::Relaxed, remaining_args, output_line),
        "read" => read_text(finite_doubles_options(), remaining_args, output_line),
        "converted" => convert_to_relaxed(remaining_args, output_line),
        "map" | "own" => write_map(call_name, remaining_args, output_line),
        _ => Err(RowError::InvalidRow),
    }
}

fn write_tree_or_steps(form: Form, remaining_args: &str, output_line: &mut RowOutput) -> RowResult {
    let alloc = output_line.alloc;
    match remaining_args.strip_prefix("made ") {
        Some(made_steps) => write_in_form(
            form,
            value_steps::make_value(alloc, made_steps)?,
            output_line,
        ),
        None => {
            let tree = parse_tree(alloc, remaining_args)?;
            write_read_result(
                form,
                Bson::from_tree(alloc, Doubles::Finite, tree),
                output_line,
            )
        }
    }
}

fn write_read_result(
    form: Form,
    read_result: ReadResult<Bson>,
    output_line: &mut RowOutput,
) -> RowResult {
    match read_result {
        Ok(value) => write_in_form(form, value, output_line),
        Err(error) => {
            output_line.write_error(&error);
            Ok(())
        }
    }
}

fn write_in_form(form: Form, value: Bson, output_line: &mut RowOutput) -> RowResult {
    let alloc = output_line.alloc;
    let text_by_reference = value.to_text(alloc, finite_doubles_options(), form);
    let tree = value
        .clone(alloc)?
        .into_extjson(alloc, Doubles::Finite, form);
    let text = value.into_text(alloc, finite_doubles_options(), form);
    write_equal_outputs(text, text_by_reference, tree, output_line)
}

/// Writes what the text means, by the options.
pub(crate) fn read_text(options: Options, text: &str, output_line: &mut RowOutput) -> RowResult {
    let read_result = Bson::from_text(output_line.alloc, options, text.as_bytes());
    write_text_result(read_result, output_line)
}

/// Writes the value that was read from a text, or why it is refused.
pub(crate) fn write_text_result(
    read_result: Result<Bson, TextError>,
    output_line: &mut RowOutput,
) -> RowResult {
    match read_result {
        Ok(value) => output_line.write_value(&value),
        Err(TextError::OutOfMemory) => return Err(RowError::OutOfMemory),
        Err(fault) => output_line.write_display(&fault),
    }
    Ok(())
}

fn convert_to_relaxed(text: &str, output_line: &mut RowOutput) -> RowResult {
    match convert_text(
        output_line.alloc,
        finite_doubles_options(),
        Mode::Relaxed,
        text.as_bytes(),
    ) {
        Ok(line) => {
            if let Ok(line) = std::str::from_utf8(&line) {
                output_line.write_str(line.trim_end());
            }
        }
        Err(fault) if fault.is_out_of_memory() => return Err(RowError::OutOfMemory),
        Err(fault) => output_line.write_str(fault.message()),
    }
    Ok(())
}

fn write_map(call_name: &str, text: &str, output_line: &mut RowOutput) -> RowResult {
    let alloc = output_line.alloc;
    let Value::Object(map) = parse_tree(alloc, text)? else {
        return Err(RowError::InvalidRow);
    };
    let read_result = match call_name {
        "map" => Bson::from_tree(alloc, Doubles::Finite, Value::Object(map)),
        _ => match Document::from_members(alloc, Doubles::Finite, map) {
            Ok(document) => Ok(Bson::Document(document)),
            Err(error) => Err(error),
        },
    };
    write_read_result(Form::Canonical, read_result, output_line)
}
