//! The content of a wrapper, as far as wrappers read it.
ghost use Rattle.std.specs.Prelude.{◌≡◌, ◌<◌, length, option_map, IfOk, IfErr, OnOk};
ghost use Rattle.json.specs.Json.{value, items, members};
ghost use Rattle.serde_json.specs.Data.{no_members};
ghost use Rattle.serde_json.specs.Read.{of_json, of_items, of_members, converted};
ghost use Rattle.serde_json.specs.View.{view, members_view};
ghost use Rattle.bson_tokens.specs.WrapperContent.{IsWrapperContent, IsPrunedTree, AreItemsRead, AreMembersPruned, member_added, pruned_members_or_none, members_or_empty};
ghost use Rattle.bson_tokens.specs.ReadOutcomes.{NothingReadIfInvalid, ReadsNoMembers};
ghost use Rattle.json.specs.declared.error.Error.TheVariants.{Invalid};

use crate::value_start::{ValueStart, primitive_value, read_start};
use json::{Error, Reader};
use serde_json::{Map, Value};
use std::alloc::{AllocError, Global};

// The number of nested objects that a wrapper reads.
const MAX_WRAPPER_LEVELS: usize = 2;

// The greatest number of keys of an object that a wrapper reads.
const MAX_KEYS: usize = 2;

/// Reads the next value, nested at most `depth` deep, as far as a wrapper reads it. Each wrapper
/// reads the tree as it reads the value.
///
/// These parts are skipped: elements of arrays, members of objects with more keys than any wrapper
/// reads, and members of objects that nest deeper.
///
/// # Errors
///
/// - `Invalid`: the next value is not valid, nests deeper, or has a number out of range.
/// - `OutOfMemory`: a request for memory was refused.
pub fn read_wrapper_content(
    alloc: Global,
    reader: &mut Reader<'_>,
    depth: usize,
) -> Result<Value, Error>
    ensures ok { IfOk result
        (λ content_tree. IsWrapperContent (converted of_json (value depth reader.old)) (view content_tree) reader.new) }
    ensures broken { IfErr result (NothingReadIfInvalid (converted of_json (value depth reader.old))) }
    ensures shorter { OnOk result (length reader.new < length reader.old) }
{
    pruned_value(alloc, reader, depth, MAX_WRAPPER_LEVELS)
}

#[cycle(prune)]
fn pruned_value(
    alloc: Global,
    reader: &mut Reader<'_>,
    depth: usize,
    max_levels: usize,
) -> Result<Value, Error>
    ensures ok { IfOk result
        (λ pruned_tree. IsPrunedTree max_levels (converted of_json (value depth reader.old))
        (view pruned_tree) reader.new) }
    ensures broken { IfErr result (NothingReadIfInvalid (converted of_json (value depth reader.old))) }
    ensures shorter { OnOk result (length reader.new < length reader.old) }
{
    let start = read_start(reader, depth)?;
    match start {
        ValueStart::Primitive(primitive) => Ok(primitive_value(alloc, primitive)?),
        ValueStart::Array => {
            skip_items(alloc, reader, depth - 1)?;
            Ok(Value::Array(Vec::new(alloc)))
        }
        ValueStart::Object => Ok(Value::Object(kept_members(
            alloc,
            reader,
            depth - 1,
            max_levels,
        )?)),
    }
}

// Skips the elements of an array after its bracket.
#[cycle(prune)]
fn skip_items(alloc: Global, reader: &mut Reader<'_>, depth: usize) -> Result<(), Error>
    ensures ok { OnOk result
        (AreItemsRead (converted of_items (items (value depth) (length reader.old) reader.old)) reader.new) }
    ensures broken { IfErr result
        (NothingReadIfInvalid (converted of_items (items (value depth) (length reader.old) reader.old))) }
    ensures shorter { OnOk result (length reader.new < length reader.old) }
{
    'items: while !reader.take_end_array() {
        drop(pruned_value(alloc, reader, depth, 0)?);
    }
    Ok(())
}

// Returns the members of an object after its brace, or none if they are too many or too deep.
#[cycle(prune)]
fn kept_members(
    alloc: Global,
    reader: &mut Reader<'_>,
    depth: usize,
    max_levels: usize,
) -> Result<Map<String, Value>, Error>
    ensures ok { IfOk result
        (λ member_map. AreMembersPruned max_levels
        (converted (λ json_members. of_members json_members no_members)
        (members (value depth) (length reader.old) reader.old))
        (members_view member_map.entries) reader.new) }
    ensures broken { IfErr result (λ read_error. read_error ≡ Invalid → ReadsNoMembers depth reader.old) }
    ensures shorter { OnOk result (length reader.new < length reader.old) }
{
    let mut members_so_far = no_members_yet(alloc, max_levels);
    'members: while let Some(member_key) = reader.next_key()? {
        let member = pruned_value(alloc, reader, depth, max_levels.saturating_sub(1))?;
        members_so_far = add_member(alloc, members_so_far, member_key, member)?;
    }
    Ok(members_or_empty(alloc, members_so_far))
}

// Returns an empty list of members, or `None` if none are kept.
fn no_members_yet(alloc: Global, max_levels: usize) -> Option<Map<String, Value>>
    ensures { option_map (λ member_map. members_view member_map.entries) result
        ≡ pruned_members_or_none max_levels no_members }
{
    if max_levels == 0 {
        None
    } else {
        Some(Map::new(alloc))
    }
}

// Adds a member, or returns `None` if there are too many.
fn add_member(
    alloc: Global,
    members_so_far: Option<Map<String, Value>>,
    key: &str,
    member: Value,
) -> Result<Option<Map<String, Value>>, AllocError>
    ensures { IfOk result (λ members_after. option_map (λ member_map. members_view member_map.entries) members_after
        ≡ member_added key.now (view member)
        (option_map (λ member_map. members_view member_map.entries) members_so_far)) }
{
    let Some(mut members) = members_so_far else {
        return Ok(None);
    };
    drop(members.insert(String::from_str(alloc, key)?, member)?);
    if members.len() > MAX_KEYS {
        return Ok(None);
    }
    Ok(Some(members))
}

fn members_or_empty(alloc: Global, members_so_far: Option<Map<String, Value>>) -> Map<String, Value>
    ensures { members_view result.entries
        ≡ members_or_empty (option_map (λ member_map. members_view member_map.entries) members_so_far) }
{
    match members_so_far {
        Some(members) => members,
        None => Map::new(alloc),
    }
}
