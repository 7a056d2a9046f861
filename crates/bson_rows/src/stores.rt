//! `store small|indexed COMMAND ..` runs commands on an empty store, and `replay` runs them by the
//! library's own call; the replies are written, and then the pairs that the store holds.
//!
//! Commands: `put:KEY:N`, `take:KEY`, `clear`; of `store` alone: `push:KEY:N`, `find:KEY`,
//! `at:PLACE`, `write:PLACE:N`, `write_pair:PLACE:N`, `remove_at:PLACE`, `above:KEY`, `first`.
use crate::arguments::{parse_number, split_at_colon, split_at_space};
use crate::row_error::{RowError, RowResult};
use crate::row_output::RowOutput;
use bson::store::{Command, IndexedPairs, PairStore, SmallPairs, replay};
use bson_store::by_key;
use bson_store::order::next_above;
use std::alloc::Global;

pub(crate) fn run_call(remaining_args: &str, output_line: &mut RowOutput) -> RowResult {
    let alloc = output_line.alloc;
    let (store_name, remaining_args) = split_at_space(remaining_args);
    match store_name {
        "small" => run_commands(&mut SmallPairs::new(alloc), remaining_args, output_line),
        "indexed" => run_commands(&mut IndexedPairs::new(alloc), remaining_args, output_line),
        "replay_small" => run_replay(&mut SmallPairs::new(alloc), remaining_args, output_line),
        "replay_indexed" => run_replay(&mut IndexedPairs::new(alloc), remaining_args, output_line),
        _ => Err(RowError::InvalidRow),
    }
}

fn run_commands<S: PairStore<i32>>(
    store: &mut S,
    commands: &str,
    output_line: &mut RowOutput,
) -> RowResult {
    for command in commands.split_whitespace() {
        run_command(store, command, output_line)?;
    }
    write_pairs(store, output_line);
    Ok(())
}

fn run_command<S: PairStore<i32>>(
    store: &mut S,
    command: &str,
    output_line: &mut RowOutput,
) -> RowResult {
    let (command_name, remaining_args) = split_at_colon(command);
    match command_name {
        "put" | "push" => run_put_or_push(store, command_name, remaining_args, output_line)?,
        "take" => output_line.write_option(by_key::take(store, remaining_args)),
        "clear" => store.clear(),
        "find" => write_index(store.find(remaining_args), output_line),
        "above" => write_index(next_above(store, Some(remaining_args)), output_line),
        "first" => write_index(next_above(store, None), output_line),
        _ => run_index_command(store, command_name, remaining_args, output_line)?,
    }
    Ok(())
}

/// The row is invalid if a pushed key exists already.
fn run_put_or_push<S: PairStore<i32>>(
    store: &mut S,
    command_name: &str,
    remaining_args: &str,
    output_line: &mut RowOutput,
) -> RowResult {
    let (key, value) = split_at_colon(remaining_args);
    let value = parse_number::<i32>(value)?;
    let key = String::from_str(output_line.alloc, key)?;
    if command_name == "push" {
        return push_value(store, key, value);
    }
    match by_key::put(store, key, value) {
        Ok(old_value) => output_line.write_option(old_value),
        Err(_) => return Err(RowError::OutOfMemory),
    }
    Ok(())
}

fn push_value<S: PairStore<i32>>(store: &mut S, key: String, value: i32) -> RowResult {
    if store.find(key.as_str()).is_some() {
        return Err(RowError::InvalidRow);
    }
    match store.push(key, value) {
        Ok(()) => Ok(()),
        Err(_) => Err(RowError::OutOfMemory),
    }
}

/// The commands at a place.
fn run_index_command<S: PairStore<i32>>(
    store: &mut S,
    command_name: &str,
    remaining_args: &str,
    output_line: &mut RowOutput,
) -> RowResult {
    let (index, value) = split_at_colon(remaining_args);
    let pair_index = parse_number::<usize>(index)?;
    if pair_index >= store.len() {
        return Err(RowError::InvalidRow);
    }
    match command_name {
        "at" => write_key_and_value(
            store.key_at(pair_index),
            *store.value_at(pair_index),
            output_line,
        ),
        "write" => *store.value_at_mut(pair_index) = parse_number::<i32>(value)?,
        "write_pair" => set_pair_value(
            store.pair_at_mut(pair_index),
            parse_number::<i32>(value)?,
            output_line,
        ),
        "remove_at" => {
            let (key, value) = store.remove_at(pair_index);
            write_key_and_value(&key, value, output_line);
        }
        _ => return Err(RowError::InvalidRow),
    }
    Ok(())
}

fn set_pair_value(pair: (&String, &mut i32), value: i32, output_line: &mut RowOutput) {
    let (key, stored_value) = pair;
    *stored_value = value;
    output_line.write_item(key);
}

fn write_index(found_index: Option<usize>, output_line: &mut RowOutput) {
    output_line.write_word("@");
    match found_index {
        Some(pair_index) => output_line.write_display(&pair_index),
        None => output_line.write_str("None"),
    }
}

fn write_key_and_value(key: &String, value: i32, output_line: &mut RowOutput) {
    output_line.write_item(key);
    output_line.write_str("=");
    output_line.write_display(&value);
}

/// The pairs in order. Each is looked up by its key, which must find its place.
fn write_pairs<S: PairStore<i32>>(store: &S, output_line: &mut RowOutput) {
    output_line.write_word("->");
    for pair_index in 0..store.len() {
        write_key_and_value(
            store.key_at(pair_index),
            *store.value_at(pair_index),
            output_line,
        );
        if store.find(store.key_at(pair_index).as_str()) != Some(pair_index) {
            output_line.write_str(" not found there");
        }
    }
}

/// The same commands by `replay`.
fn run_replay<S: PairStore<i32>>(
    store: &mut S,
    text: &str,
    output_line: &mut RowOutput,
) -> RowResult {
    let alloc = output_line.alloc;
    let mut commands = Vec::new(alloc);
    for command_text in text.split_whitespace() {
        commands.push(parse_command(alloc, command_text)?)?;
    }
    match replay(alloc, store, commands) {
        Ok(replies) => write_replies(replies, output_line),
        Err(error) => output_line.write_error(&error),
    }
    write_pairs(store, output_line);
    Ok(())
}

fn write_replies(replies: Vec<Option<i32>>, output_line: &mut RowOutput) {
    for reply in replies {
        output_line.write_option(reply);
    }
}

fn parse_command(alloc: Global, command_text: &str) -> Result<Command<i32>, RowError> {
    let (command_name, remaining_args) = split_at_colon(command_text);
    let (key, value) = split_at_colon(remaining_args);
    let key = String::from_str(alloc, key)?;
    match command_name {
        "put" => Ok(Command::Put(key, parse_number::<i32>(value)?)),
        "take" => Ok(Command::Take(key)),
        "clear" => Ok(Command::Clear),
        _ => Err(RowError::InvalidRow),
    }
}
