//! `document COMMAND ..` runs commands on an empty document, writes their replies, and then the
//! document.
//!
//! Commands: `insert:KEY:N`, `remove:KEY`, `get:KEY`, `write:KEY:N`, `write_at:PLACE:N`,
//! `place:PLACE:N`, `entry:KEY:N`, `entry_with:KEY:N`, `key:KEY`, `len`, `clear`, `clone`, `keys`,
//! `values`.
//!
//! `entries KEY:N ..` is the document of the entries.
use crate::arguments::{parse_number, split_at_colon};
use crate::row_error::{RowError, RowResult};
use crate::row_output::RowOutput;
use bson::store::Pair;
use bson::{Bson, Document};
use std::alloc::AllocError;

pub(crate) fn run_call(remaining_args: &str, output_line: &mut RowOutput) -> RowResult {
    let mut document = Document::new(output_line.alloc);
    let run_result = run_commands(&mut document, remaining_args, output_line);
    output_line.write_word("-> ");
    output_line.write_value(&document);
    run_result
}

pub(crate) fn write_entries(remaining_args: &str, output_line: &mut RowOutput) -> RowResult {
    let alloc = output_line.alloc;
    let mut entries = Vec::new(alloc);
    for entry_text in remaining_args.split_whitespace() {
        let (key, value) = split_at_colon(entry_text);
        let key = String::from_str(alloc, key)?;
        let value = Bson::Int32(parse_number::<i32>(value)?);
        entries.push(Pair { key, value })?;
    }
    match Document::from_entries(alloc, entries) {
        Ok(document) => {
            output_line.write_value(&document);
            Ok(())
        }
        Err(_) => Err(RowError::OutOfMemory),
    }
}

fn run_commands(
    document: &mut Document,
    remaining_args: &str,
    output_line: &mut RowOutput,
) -> RowResult {
    for command in remaining_args.split_whitespace() {
        run_command(document, command, output_line)?;
    }
    Ok(())
}

fn run_command(document: &mut Document, command: &str, output_line: &mut RowOutput) -> RowResult {
    let (command_name, remaining_args) = split_at_colon(command);
    match command_name {
        "remove" => output_line.write_option(document.remove(remaining_args)),
        "get" => output_line.write_option(document.get(remaining_args)),
        "clear" => document.clear(),
        "len" => write_len(document, output_line),
        "keys" => write_keys(document, output_line),
        "values" => write_values(document, output_line),
        "clone" => write_document_copy(document, output_line),
        _ => return run_with_number(document, command_name, remaining_args, output_line),
    }
    Ok(())
}

/// Runs a command that has a number.
fn run_with_number(
    document: &mut Document,
    command_name: &str,
    remaining_args: &str,
    output_line: &mut RowOutput,
) -> RowResult {
    let (key, value) = split_at_colon(remaining_args);
    let value = parse_number::<i32>(value);
    match command_name {
        "insert" => insert_value(document, key, value?, output_line),
        "write" => write_value_of_key(document, key, value?, output_line),
        "place" => write_value_at_place(document, parse_number::<usize>(key)?, value?, output_line),
        "write_at" => write_value_at_index(
            document,
            parse_number::<usize>(key)?,
            value?,
            output_line,
        ),
        _ => run_entry_command(document, command_name, key, value, output_line),
    }
}

fn insert_value(
    document: &mut Document,
    key: &str,
    value: i32,
    output_line: &mut RowOutput,
) -> RowResult {
    let key = String::from_str(output_line.alloc, key)?;
    match document.insert(key, Bson::Int32(value)) {
        Ok(old_value) => output_line.write_option(old_value),
        Err(error) => output_line.write_error(&error),
    }
    Ok(())
}

fn set_int32(place: &mut Bson, value: i32) {
    *place = Bson::Int32(value);
}

fn write_value_of_key(
    document: &mut Document,
    key: &str,
    value: i32,
    output_line: &mut RowOutput,
) -> RowResult {
    match document.get_mut(key) {
        Some(place) => set_int32(place, value),
        None => output_line.write_word("None"),
    }
    Ok(())
}

fn write_value_at_index(
    document: &mut Document,
    pair_index: usize,
    value: i32,
    output_line: &mut RowOutput,
) -> RowResult {
    match document.get_index_mut(pair_index) {
        Some((key, place)) => {
            set_int32(place, value);
            output_line.write_item(key);
        }
        None => output_line.write_word("None"),
    }
    Ok(())
}

fn write_value_at_place(
    document: &mut Document,
    pair_index: usize,
    value: i32,
    output_line: &mut RowOutput,
) -> RowResult {
    match document.place_mut(pair_index) {
        Some(place) => {
            output_line.write_item(place.key());
            set_int32(place.into_value(), value);
        }
        None => output_line.write_word("None"),
    }
    Ok(())
}

/// The commands of an entry: what it lends is the reply, or its key.
fn run_entry_command(
    document: &mut Document,
    command_name: &str,
    key: &str,
    value: Result<i32, RowError>,
    output_line: &mut RowOutput,
) -> RowResult {
    let key = String::from_str(output_line.alloc, key)?;
    match command_name {
        "key" => output_line.write_word(document.entry(key).key()),
        "entry" => {
            let value = Bson::Int32(value?);
            write_place(document.entry(key).or_insert(value), output_line);
        }
        "entry_with" => {
            let value = value?;
            write_place(
                document.entry(key).or_insert_with(|| Bson::Int32(value)),
                output_line,
            );
        }
        _ => return Err(RowError::InvalidRow),
    }
    Ok(())
}

fn write_place(place: Result<&mut Bson, AllocError>, output_line: &mut RowOutput) {
    match place {
        Ok(place) => output_line.write_item(place),
        Err(error) => output_line.write_error(&error),
    }
}

fn write_len(document: &Document, output_line: &mut RowOutput) {
    output_line.write_item(&document.len());
    if document.is_empty() {
        output_line.write_word("empty");
    }
}

fn write_keys(document: &Document, output_line: &mut RowOutput) {
    for key in document.keys() {
        output_line.write_item(key);
    }
}

fn write_values(document: &Document, output_line: &mut RowOutput) {
    for value in document.values() {
        output_line.write_item(value);
    }
}

fn write_document_copy(document: &Document, output_line: &mut RowOutput) {
    output_line.write_space();
    output_line.write_copy(document, document.clone());
}
