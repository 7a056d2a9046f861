//! The search for the first duplicate key.
ghost use Rattle.std.specs.Prelude.{◌<◌, [], length, IfOk, IfErr, OnOk};
ghost use Rattle.json.specs.Json.{value, items, members};
ghost use Rattle.bson_tokens.specs.ReadOutcomes.{NothingReadIfInvalid};
ghost use Rattle.bson_tokens.specs.DuplicateKeys.{json_of, IsFirstDuplicate};
ghost use Rattle.bson_tokens.specs.DuplicateKeyPath.{FindsDuplicate, first_duplicate, first_duplicate_in_items, first_duplicate_in_members};

use crate::MAX_DEPTH;
use crate::key_path::{KeyPath, first_or_element_path, first_or_member_path};
use json::{Error, Reader, Scratch, Token};
use std::alloc::Global;
use std::collections::BTreeSet;

/// Returns the path to the first duplicate key of the text, from the key outward. Returns `None` if
/// no object at any depth has a duplicate key.
///
/// Keys are compared after their escapes are read. Memory is that of the keys of the open objects,
/// and of the longest text with an escape.
///
/// # Errors
///
/// - `Invalid`: the text is not JSON of at most 127 levels.
/// - `OutOfMemory`: an allocation failed.
///
/// ```
/// if let Some(path) = first_duplicate_key(alloc, r#"{"a": [{"b": 1, "\u0062": 2}]}"#)? {
///     println!(rt; "{path:?}")?; // [Key("b"), Element(0), Key("a")]
/// }
/// ```
pub fn first_duplicate_key(alloc: Global, text: &str) -> Result<Option<KeyPath>, Error>
    ensures ok { IfOk result (λ path. IsFirstDuplicate text.now path) }
    ensures broken { IfErr result (NothingReadIfInvalid (json_of text.now)) }
{
    let mut scratch = Scratch::new(alloc);
    let mut reader = Reader::new(text, &mut scratch)?;
    let duplicate_path = find_in_value(alloc, &mut reader, MAX_DEPTH)?;
    if reader.next().is_some() {
        return Err(Error::Invalid);
    }
    Ok(duplicate_path)
}

#[cycle(walk)]
fn find_in_value(
    alloc: Global,
    reader: &mut Reader<'_>,
    depth: usize,
) -> Result<Option<KeyPath>, Error>
    ensures ok { IfOk result (λ path. FindsDuplicate first_duplicate (value depth reader.old) path reader.new) }
    ensures broken { IfErr result (NothingReadIfInvalid (value depth reader.old)) }
    ensures shorter { OnOk result (length reader.new < length reader.old) }
{
    let token = reader.next().ok_or(Error::Invalid)?;
    match token {
        Token::String(_) | Token::Number(_) | Token::Bool(_) | Token::Null => Ok(None),
        Token::EndObject | Token::EndArray | Token::Key(_) | Token::Bad => Err(Error::Invalid),
        Token::BeginArray => {
            if depth == 0 {
                return Err(Error::Invalid);
            }
            Ok(find_in_items(alloc, reader, depth - 1)?)
        }
        Token::BeginObject => {
            if depth == 0 {
                return Err(Error::Invalid);
            }
            Ok(find_in_members(alloc, reader, depth - 1)?)
        }
    }
}

// Searches the elements of an array after its bracket.
#[cycle(walk)]
fn find_in_items(
    alloc: Global,
    reader: &mut Reader<'_>,
    depth: usize,
) -> Result<Option<KeyPath>, Error>
    ensures ok { IfOk result
        (λ path. FindsDuplicate (first_duplicate_in_items 0)
        (items (value depth) (length reader.old) reader.old) path reader.new) }
    ensures broken { IfErr result (NothingReadIfInvalid (items (value depth) (length reader.old) reader.old)) }
    ensures shorter { OnOk result (length reader.new < length reader.old) }
{
    let mut item_index = 0usize;
    let mut earliest_path: Option<KeyPath> = None;
    'items: while !reader.take_end_array() {
        let path_in_item = find_in_value(alloc, reader, depth)?;
        earliest_path = first_or_element_path(earliest_path, path_in_item, item_index)?;
        item_index = item_index.checked_add(1).ok_or(Error::OutOfMemory)?;
    }
    Ok(earliest_path)
}

// Searches the members of an object after its brace.
#[cycle(walk)]
fn find_in_members(
    alloc: Global,
    reader: &mut Reader<'_>,
    depth: usize,
) -> Result<Option<KeyPath>, Error>
    ensures ok { IfOk result
        (λ path. FindsDuplicate (first_duplicate_in_members [])
        (members (value depth) (length reader.old) reader.old) path reader.new) }
    ensures broken { IfErr result (NothingReadIfInvalid (members (value depth) (length reader.old) reader.old)) }
    ensures shorter { OnOk result (length reader.new < length reader.old) }
{
    let mut keys = BTreeSet::new(alloc);
    let mut earliest_path: Option<KeyPath> = None;
    'members: while let Some(member_key) = reader.next_key()? {
        let Ok(is_new) = keys.insert(member_key) else {
            return Err(Error::OutOfMemory);
        };
        let path_in_value = find_in_value(alloc, reader, depth)?;
        earliest_path = first_or_member_path(
            alloc,
            earliest_path,
            is_new,
            member_key,
            path_in_value,
        )?;
    }
    Ok(earliest_path)
}
