//! Trees that are read, and values that are written: `canonical`, `relaxed`, `show`, `map` and
//! `pretty`. A rejected text is read by both readers.
use crate::arguments::{parse_number, split_at_space};
use crate::row_error::{RowError, RowResult};
use crate::row_output::{RowOutput, Style};
use crate::row_values::{parse_tree, parse_value};
use crate::value_steps;
use bson::extjson::WriteError;
use bson::extjson::de::{Error, TextError};
use bson::{Bson, Document};
use serde_json::Value;
use std::alloc::AllocError;

/// `FORM VALUE`: the value is read or made, and written. An error shows which step failed.
pub(crate) fn run_call(form: &str, remaining_args: &str, output_line: &mut RowOutput) -> RowResult {
    let alloc = output_line.alloc;
    match remaining_args.strip_prefix("made ") {
        Some(made_steps) => write_in_form(
            form,
            value_steps::make_value(alloc, made_steps)?,
            output_line,
        ),
        None => match Bson::try_from_value(alloc, parse_tree(alloc, remaining_args)?) {
            Ok(value) => write_in_form(form, value, output_line),
            Err(error) => write_rejected_tree(remaining_args, error, output_line),
        },
    }
}

/// Writes why the text's tree is not valid Extended JSON. The reader of texts must return the same message.
fn write_rejected_tree(text: &str, error: Error, output_line: &mut RowOutput) -> RowResult {
    let alloc = output_line.alloc;
    let message = format!(in alloc; "{error}")?;
    write_tree_error(error, output_line)?;
    match Bson::try_from_text(alloc, text.as_bytes()) {
        Ok(_value) => output_line.write_str(" and as a text a value"),
        Err(TextError::OutOfMemory) => return Err(RowError::OutOfMemory),
        Err(error) => {
            let text_message = format!(in alloc; "{error}")?;
            if text_message != message {
                output_line.write_str(" and as a text ");
                output_line.write_str(text_message.as_str());
            }
        }
    }
    Ok(())
}

/// `map FORM MAP`: the map is read as the value that it means. `map own MAP`: as a document,
/// whatever its own keys are, and written canonically.
pub(crate) fn write_map(remaining_args: &str, output_line: &mut RowOutput) -> RowResult {
    let alloc = output_line.alloc;
    let (form, text) = split_at_space(remaining_args);
    let Value::Object(map) = parse_tree(alloc, text)? else {
        return Err(RowError::InvalidRow);
    };
    if form != "own" {
        return match Bson::try_from_map(alloc, map) {
            Ok(value) => write_in_form(form, value, output_line),
            Err(error) => write_tree_error(error, output_line),
        };
    }
    match Document::try_from_map(alloc, map) {
        Ok(document) => write_canonical(Bson::Document(document), output_line),
        Err(error) => write_tree_error(error, output_line),
    }
}

/// Writes the error. The expected shape of a tree is written only if the row names a style.
fn write_tree_error(error: Error, output_line: &mut RowOutput) -> RowResult {
    match (&error, output_line.style()) {
        (Error::DeserializationError { .. }, Style::Plain) => output_line.write_str(
            "DeserializationError",
        ),
        (error, _) => output_line.write_error(error),
    }
    Ok(())
}

fn write_in_form(form: &str, value: Bson, output_line: &mut RowOutput) -> RowResult {
    match form {
        "canonical" => write_canonical(value, output_line),
        "relaxed" => write_relaxed(value, output_line),
        _ => {
            output_line.write_value(&value);
            Ok(())
        }
    }
}

fn write_canonical(value: Bson, output_line: &mut RowOutput) -> RowResult {
    let alloc = output_line.alloc;
    let text_by_reference = value.to_canonical_text(alloc);
    let tree = value.clone(alloc)?.into_canonical_extjson(alloc);
    let text = value.into_canonical_text(alloc);
    write_equal_outputs(text, text_by_reference, tree, output_line)
}

fn write_relaxed(value: Bson, output_line: &mut RowOutput) -> RowResult {
    let alloc = output_line.alloc;
    let text_by_reference = value.to_relaxed_text(alloc);
    let tree = value.clone(alloc)?.into_relaxed_extjson(alloc);
    let text = value.into_relaxed_text(alloc);
    write_equal_outputs(text, text_by_reference, tree, output_line)
}

type WriteOutcome = Result<String, WriteError>;

/// Writes the output of the three calls, which must be equal.
pub(crate) fn write_equal_outputs(
    text: WriteOutcome,
    text_by_reference: WriteOutcome,
    tree: Result<Value, WriteError>,
    output_line: &mut RowOutput,
) -> RowResult {
    let tree = match tree {
        Ok(tree) => Ok(tree.to_string(output_line.alloc)?),
        Err(error) => Err(error),
    };
    let are_equal = text == text_by_reference && text == tree;
    output_line.write_result(text);
    if !are_equal {
        output_line.write_str(" and lent ");
        output_line.write_result(text_by_reference);
        output_line.write_str(" and as a tree ");
        output_line.write_result(tree);
    }
    Ok(())
}

/// `pretty N VALUE`: the text on several lines at the indent. A document by itself must have the same.
pub(crate) fn write_pretty_text(remaining_args: &str, output_line: &mut RowOutput) -> RowResult {
    let (indent, text) = split_at_space(remaining_args);
    let indent = parse_number::<usize>(indent)?;
    let value = parse_value(output_line.alloc, text)?;
    let pretty_text = value.to_pretty_string(output_line.alloc, indent);
    match &value {
        Bson::Document(document) => {
            let document_text = document.to_pretty_string(indent);
            write_equal_texts(pretty_text, document_text, output_line);
        }
        _ => output_line.write_result(pretty_text),
    }
    Ok(())
}

fn write_equal_texts(
    text: Result<String, AllocError>,
    document_text: Result<String, AllocError>,
    output_line: &mut RowOutput,
) {
    let are_equal = text == document_text;
    output_line.write_result(text);
    if !are_equal {
        output_line.write_str(" and as a document ");
        output_line.write_result(document_text);
    }
}
