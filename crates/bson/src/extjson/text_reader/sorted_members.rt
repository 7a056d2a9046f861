//! The members of an object by ascending key, and the document of them.
ghost use Rattle.std.specs.Prelude.{◌≡◌, IfOk, OnOk, MatchResult, string_bytes};
ghost use Rattle.bson_model.specs.Sorted.{insert_sorted_pair, KeysAscend};
ghost use Rattle.bson_model.specs.Value.{no_pairs};
ghost use Rattle.bson.specs.View.{bson_view, document_view};
ghost use Rattle.bson.specs.SortedMembers.{pairs_of_members, insert_members, IsKeyAt, IsInsertionPoint, IsStableSort};

use crate::bson::Bson;
use crate::document::Document;
use bson_store::{Pair, SmallPairs};
use bson_tokens::key_prefix::prefix_of;
use std::alloc::{AllocError, Global};
use std::cmp::Ordering;

// Returns the position of the key, or the position where it would be inserted. The search goes from the end, since
// most keys ascend.
fn find_from_end(unique_members: &Vec<Pair<Bson>>, key: &str) -> Result<usize, usize>
    requires { KeysAscend (pairs_of_members unique_members.now.items) }
    ensures { MatchResult result (λ member_index. IsKeyAt key.now unique_members.now.items member_index)
        (λ member_index. IsInsertionPoint key.now unique_members.now.items member_index) }
{
    let mut member_index = unique_members.len();
    'walk: while member_index > 0 {
        match key.cmp(unique_members[member_index - 1].key.as_str()) {
            Ordering::Less => member_index -= 1,
            Ordering::Equal => return Ok(member_index - 1),
            Ordering::Greater => return Err(member_index),
        }
    }
    Err(0)
}

// Inserts the value under the key, or replaces the value there.
fn insert_or_replace(
    members: &mut Vec<Pair<Bson>>,
    position: Result<usize, usize>,
    key: String,
    value: Bson,
) -> Result<(), AllocError>
    requires { MatchResult position (λ member_index. IsKeyAt (string_bytes key) members.old.items member_index)
        (λ member_index. IsInsertionPoint (string_bytes key) members.old.items member_index) }
    ensures { OnOk result (pairs_of_members members.new.items
        ≡ insert_sorted_pair (string_bytes key) (bson_view value) (pairs_of_members members.old.items)) }
{
    match position {
        Ok(member_index) => members[member_index] = Pair { key, value },
        Err(member_index) => members.insert(member_index, Pair { key, value })?,
    }
    Ok(())
}

fn document_of_ascending(members: Vec<Pair<Bson>>) -> Document
    requires { KeysAscend (pairs_of_members members.items) }
    ensures { document_view result ≡ pairs_of_members members.items }
{
    match SmallPairs::try_from_ascending(members) {
        Ok(pairs) => Document { pairs },
        Err(_) => unreachable!(),
    }
}

// So many members are inserted one by one.
const MAX_MEMBERS_INSERTED: usize = 32;

/// Returns the document of the members by ascending key. If a key is duplicated, its last value wins.
pub(crate) fn document_of_members(
    alloc: Global,
    members: Vec<Pair<Bson>>,
) -> Result<Document, AllocError>
    ensures { IfOk result (λ document. document_view document ≡ insert_members members.items no_pairs) }
{
    match SmallPairs::try_from_ascending(members) {
        Ok(pairs) => Ok(Document { pairs }),
        Err(members) if members.len() <= MAX_MEMBERS_INSERTED => document_of_few(alloc, members),
        Err(members) => document_of_many(alloc, members),
    }
}

fn document_of_few(alloc: Global, members: Vec<Pair<Bson>>) -> Result<Document, AllocError>
    ensures { IfOk result (λ document. document_view document ≡ insert_members members.items no_pairs) }
{
    let unique_members = last_of_each_key(alloc, members)?;
    Ok(document_of_ascending(unique_members))
}

// The first bytes distinguish almost all of the keys.
fn document_of_many(alloc: Global, mut members: Vec<Pair<Bson>>) -> Result<Document, AllocError>
    ensures { IfOk result (λ document. document_view document ≡ insert_members members.items no_pairs) }
{
    sort_by_prefix(&mut members)?;
    match SmallPairs::try_from_ascending(members) {
        Ok(pairs) => Ok(Document { pairs }),
        Err(members) => document_of_unsorted(alloc, members),
    }
}

// Members whose first bytes are equal, or whose keys are duplicated.
fn document_of_unsorted(alloc: Global, mut members: Vec<Pair<Bson>>) -> Result<Document, AllocError>
    ensures { IfOk result (λ document. document_view document ≡ insert_members members.items no_pairs) }
{
    sort_by_key(&mut members)?;
    document_of_few(alloc, members)
}

fn sort_by_prefix(members: &mut Vec<Pair<Bson>>) -> Result<(), AllocError>
    ensures { OnOk result (IsStableSort members.old.items members.new.items) }
{
    members.sort_by_cached_key(|member| prefix_of(member.key.as_bytes()))?;
    Ok(())
}

fn sort_by_key(members: &mut Vec<Pair<Bson>>) -> Result<(), AllocError>
    ensures { OnOk result (IsStableSort members.old.items members.new.items) }
{
    members.sort_by(|first_member, second_member| first_member.key.cmp(&second_member.key))?;
    Ok(())
}

// The last member of each key, by ascending key. It is fast if the keys do not descend.
fn last_of_each_key(alloc: Global, members: Vec<Pair<Bson>>) -> Result<Vec<Pair<Bson>>, AllocError>
    ensures { IfOk result
        (λ unique_members. pairs_of_members unique_members.items ≡ insert_members members.items no_pairs) }
{
    let mut unique_members = Vec::with_capacity(alloc, members.len())?;
    'members: for Pair { key, value } in members {
        let position = find_from_end(&unique_members, key.as_str());
        insert_or_replace(&mut unique_members, position, key, value)?;
    }
    Ok(unique_members)
}
