//! The members of an object in the output, sorted by key if their keys do not ascend.
ghost use Rattle.std.specs.Prelude.{◌≡◌, ◌↔◌, ◌<◌, ◌++◌, drop, length, map, None, option_map, suc, take, true};
ghost use Rattle.std.specs.Prelude.{IfOk, IfErr, IfSome, OnOk, ⊤};
ghost use Rattle.std.specs.Str.{is_utf8};
ghost use Rattle.std.specs.Cmp.Lexicographic.{slice_cmp};
ghost use Rattle.std.specs.List.{All, range_with_len};
ghost use Rattle.std.specs.List.Sorted.{IsPermutation};
ghost use Rattle.std.specs.Ordering.{nat_cmp};
ghost use Rattle.bson_text.specs.KeyBytes.{bytes_as_number, common_prefix_end};
ghost use Rattle.bson_text.specs.MemberSpans.{end_before_next, spans_from, span_at_or_empty, key_at_or_empty, spans_at, first_index_has_key};
ghost use Rattle.bson_text.specs.MemberSpans.{AreIndexesByKey, IsSortedObject, EndsWithBrace, IsObjectWritten, IsTextOfSpans, IsUnfinishedObject, IsSpanWithin};
ghost use Rattle.bson_tokens.specs.PutMembers.{KeysAscendFrom, KeyIsGreater};
ghost use Rattle.bson_text.specs.TraversalErrors.{IsDocumentEndError};
ghost use Rattle.bson_model.specs.StableOrder.{IsStableByKey};
ghost use Rattle.serde_json.specs.Written.{comma_if};

use crate::traversal_error::TraversalError;
use std::alloc::{AllocError, Global};
use std::cmp::Ordering;

// No more members than this are sorted by their whole keys at once.
const MAX_MEMBERS_SORTED_BY_KEY: usize = 20;

// The bytes of memory for a member while members are joined: its key, start and index.
const JOIN_BYTES_PER_MEMBER: usize = 32;

// The further bytes while members are sorted: eight bytes of the key and the index, also in the
// memory of the sort.
const SORT_BYTES_PER_MEMBER: usize = 32;

// The key of a member, and the range of its bytes in the output, as in `"a":1`.
#[derive(Clone, Copy, Drop)]
pub(crate) struct MemberSpan<'a> {
    pub(crate) key: &'a str,
    pub(crate) start: usize,
    pub(crate) end: usize,
}

// Ends the object that begins at this offset. Its members have these keys and begin at these
// offsets. They are sorted by key, and the last value of a key wins. Gives up if sorting needs more
// bytes than are allowed.
pub(crate) fn end_object(
    alloc: Global,
    keys: &[&str],
    member_starts: &[usize],
    object_start: usize,
    sort_memory_limit: usize,
    text: &mut Vec<u8>,
) -> Result<(), TraversalError>
    requires paired { length keys.now ≡ length member_starts.now }
    requires within { All (IsSpanWithin text.old.items)
        (spans_from keys.now member_starts.now (length text.old.items)) }
    requires began_document { IsUnfinishedObject (take object_start text.old.items) text.old.items
        (spans_from keys.now member_starts.now (length text.old.items)) }
    requires utf8 { is_utf8 text.old.items ≡ true }
    ensures ended { OnOk result (IsObjectWritten (spans_from keys.now member_starts.now (length text.old.items))
        (take object_start text.old.items) text.old.items text.new.items) }
    ensures braced { OnOk result (EndsWithBrace text.new.items) }
    ensures utf8 { is_utf8 text.new.items ≡ true }
    ensures stops { IfErr result (IsDocumentEndError (λ doubles. ⊥) ⊤ (map (λ member_key. member_key.now) keys.now)) }
{
    if keys_ascend(keys) {
        text.extend_from_slice(b"}")?;
        return Ok(());
    }
    if needed_sort_memory(keys.len(), text.len()) > sort_memory_limit {
        return Err(TraversalError::GaveUp);
    }
    let object_bytes = sorted_object(alloc, keys, member_starts, text)?.ok_or(
        TraversalError::GaveUp,
    )?;
    text.truncate(object_start);
    text.extend_from_slice(&object_bytes)?;
    Ok(())
}

/// Returns how many bytes may be allocated to sort the members of an input of this length. With
/// everything else this is at most twelve times the input.
pub(crate) fn allowed_sort_memory(input_length: usize) -> usize {
    input_length.saturating_mul(9).saturating_add(8 << 20)
}

// The bytes of memory that sorting needs for this number of members and length of the output.
// Sorting needs memory in addition to one copy of the output, and joining needs a second copy.
fn needed_sort_memory(member_count: usize, output_length: usize) -> usize {
    let sort_memory = output_length.max(member_count.saturating_mul(SORT_BYTES_PER_MEMBER));
    member_count
        .saturating_mul(JOIN_BYTES_PER_MEMBER)
        .saturating_add(output_length)
        .saturating_add(sort_memory)
}

fn keys_ascend(keys: &[&str]) -> bool
    ensures { (result ≡ true) ↔ KeysAscendFrom None (map (λ member_key. member_key.now) keys.now) }
{
    let mut last_key: Option<&str> = None;
    for position in 0..keys.len() {
        let key = keys[position];
        if !key_follows(last_key, key) {
            return false;
        }
        last_key = Some(key);
    }
    true
}

// The key is greater than the last one, by bytes.
fn key_follows(last_key: Option<&str>, key: &str) -> bool
    ensures { (result ≡ true) ↔ KeyIsGreater (option_map (λ last_key. last_key.now) last_key.entry) key.now }
{
    match last_key {
        Some(last_key) => last_key.cmp(key).is_lt(),
        None => true,
    }
}

// Returns the text of the object with its members sorted. It is never `None`.
fn sorted_object(
    alloc: Global,
    keys: &[&str],
    member_starts: &[usize],
    buffer: &Vec<u8>,
) -> Result<Option<Vec<u8>>, AllocError>
    requires paired { length keys.now ≡ length member_starts.now }
    requires within { All (IsSpanWithin buffer.now.items)
        (spans_from keys.now member_starts.now (length buffer.now.items)) }
    ensures { IfOk result
        (λ object_or_none. IfSome object_or_none
        (λ object_bytes. IsSortedObject (spans_from keys.now member_starts.now (length buffer.now.items))
        buffer.now.items object_bytes.items)) }
{
    let indexes = indexes_up_to(alloc, keys.len())?;
    if indexes.len() > MAX_MEMBERS_SORTED_BY_KEY {
        sorted_object_of_many(alloc, keys, member_starts, indexes, buffer)
    } else {
        sorted_object_of_few(alloc, keys, member_starts, indexes, buffer)
    }
}

// Eight bytes of each key distinguish almost all of the keys.
fn sorted_object_of_many(
    alloc: Global,
    keys: &[&str],
    member_starts: &[usize],
    mut indexes: Vec<usize>,
    buffer: &Vec<u8>,
) -> Result<Option<Vec<u8>>, AllocError>
    requires paired { length keys.now ≡ length member_starts.now }
    requires within { All (IsSpanWithin buffer.now.items)
        (spans_from keys.now member_starts.now (length buffer.now.items)) }
    requires indexes_by_key { AreIndexesByKey keys.now indexes.items }
    ensures { IfOk result
        (λ object_or_none. IfSome object_or_none
        (λ object_bytes. IsSortedObject (spans_from keys.now member_starts.now (length buffer.now.items))
        buffer.now.items object_bytes.items)) }
{
    sort_by_next_bytes(keys, &mut indexes)?;
    if let Some(object_bytes) = join_spans(alloc, keys, member_starts, &indexes, buffer)? {
        return Ok(Some(object_bytes));
    }
    sorted_object_of_few(alloc, keys, member_starts, indexes, buffer)
}

fn sorted_object_of_few(
    alloc: Global,
    keys: &[&str],
    member_starts: &[usize],
    mut indexes: Vec<usize>,
    buffer: &Vec<u8>,
) -> Result<Option<Vec<u8>>, AllocError>
    requires paired { length keys.now ≡ length member_starts.now }
    requires within { All (IsSpanWithin buffer.now.items)
        (spans_from keys.now member_starts.now (length buffer.now.items)) }
    requires indexes_by_key { AreIndexesByKey keys.now indexes.items }
    ensures { IfOk result
        (λ object_or_none. IfSome object_or_none
        (λ object_bytes. IsSortedObject (spans_from keys.now member_starts.now (length buffer.now.items))
        buffer.now.items object_bytes.items)) }
{
    sort_by_key(keys, &mut indexes)?;
    join_spans(alloc, keys, member_starts, &indexes, buffer)
}

// Returns the numbers from 0 to the count, without the count.
fn indexes_up_to(alloc: Global, count: usize) -> Result<Vec<usize>, AllocError>
    ensures { IfOk result (λ indexes. indexes.items ≡ range_with_len 0 count) }
{
    let mut indexes = Vec::with_capacity(alloc, count)?;
    for index in 0..count {
        indexes.push(index)?;
    }
    Ok(indexes)
}

fn sort_by_next_bytes(keys: &[&str], indexes: &mut Vec<usize>) -> Result<(), AllocError>
    ensures stable { OnOk result (IsStableByKey (key_at_or_empty keys.now) indexes.old.items indexes.new.items) }
    ensures permuted { IsPermutation indexes.old.items indexes.new.items }
{
    let prefix_length = common_prefix_length(keys);
    indexes.sort_by_cached_key(|index| next_eight_bytes(key_at(keys, *index), prefix_length))?;
    Ok(())
}

fn sort_by_key(keys: &[&str], indexes: &mut Vec<usize>) -> Result<(), AllocError>
    ensures stable { OnOk result (IsStableByKey (key_at_or_empty keys.now) indexes.old.items indexes.new.items) }
    ensures permuted { IsPermutation indexes.old.items indexes.new.items }
{
    indexes.sort_by(|left_index, right_index| compare_keys_at(keys, *left_index, *right_index))?;
    Ok(())
}

fn compare_keys_at(keys: &[&str], left_index: usize, right_index: usize) -> Ordering
    ensures { result ≡ slice_cmp nat_cmp (key_at_or_empty keys.now left_index) (key_at_or_empty keys.now right_index) }
{
    key_at(keys, left_index).cmp(key_at(keys, right_index))
}

// Returns the key at the position, or the empty key after the last one.
fn key_at<'a>(keys: &[&'a str], position: usize) -> &'a str
    ensures { result.now ≡ key_at_or_empty keys.now position }
{
    match keys.get(position) {
        Some(key) => key,
        None => "",
    }
}

// Returns the number of bytes that all keys begin with.
fn common_prefix_length(keys: &[&str]) -> usize {
    let first_key = key_at(keys, 0).as_bytes();
    let mut prefix_length = first_key.len();
    for position in 1..keys.len() {
        prefix_length = common_bytes(first_key, keys[position].as_bytes(), prefix_length);
    }
    prefix_length
}

// Returns the number of bytes that both keys begin with, up to a maximum.
fn common_bytes(left_key: &[u8], right_key: &[u8], max_length: usize) -> usize {
    for position in 0..max_length {
        if left_key.get(position).copied() != right_key.get(position).copied() {
            return position;
        }
    }
    max_length
}

// Returns the eight bytes of the key after its prefix as one number. Missing bytes are zeros.
fn next_eight_bytes(key: &str, prefix_length: usize) -> u64
    ensures { result ≡ bytes_as_number key.now (common_prefix_end prefix_length key.now) 8 }
{
    let bytes = key.as_bytes();
    let start = prefix_length.min(bytes.len());
    let mut bytes_as_number: u64 = 0;
    'bytes: for position in 0..8 {
        let byte = bytes.get(start + position).copied().unwrap_or(0);
        bytes_as_number = bytes_as_number << 8 | byte as u64;
    }
    bytes_as_number
}

// Joins the members, in the order of the indices, as an object. If neighbours have the same key, the
// last one wins. Returns `None` if the keys do not ascend.
fn join_spans(
    alloc: Global,
    keys: &[&str],
    member_starts: &[usize],
    indexes: &Vec<usize>,
    buffer: &Vec<u8>,
) -> Result<Option<Vec<u8>>, AllocError>
    requires paired { length keys.now ≡ length member_starts.now }
    requires within { All (IsSpanWithin buffer.now.items)
        (spans_from keys.now member_starts.now (length buffer.now.items)) }
    requires indexes { All (λ member_index. member_index < length keys.now) indexes.now.items }
    ensures { IfOk result (λ object_or_none. IfSome object_or_none (λ object_bytes. IsTextOfSpans
        (spans_at (spans_from keys.now member_starts.now (length buffer.now.items)) indexes.now.items)
        buffer.now.items object_bytes.items)) }
{
    let capacity = buffer
        .len()
        .saturating_sub(first_member_start(member_starts))
        .saturating_add(2);
    let mut joined_bytes = Vec::with_capacity(alloc, capacity)?;
    joined_bytes.push(b'{')?;
    let mut last_key: Option<&str> = None;
    for position in 0..indexes.len() {
        let MemberSpan { key, start, end } = span_at(
            keys,
            member_starts,
            buffer.len(),
            indexes[position],
        );
        if next_index_has_key(keys, indexes, position, key) {
            continue;
        }
        if !key_follows(last_key, key) {
            return Ok(None);
        }
        put_comma(last_key.is_some(), &mut joined_bytes)?;
        joined_bytes.extend_from_slice(&buffer[start..end])?;
        last_key = Some(key);
    }
    joined_bytes.push(b'}')?;
    Ok(Some(joined_bytes))
}

// Returns the offset at which the first member begins, a byte after the start of the object.
fn first_member_start(member_starts: &[usize]) -> usize {
    member_starts.first().copied().unwrap_or(0)
}

fn span_at<'a>(
    keys: &[&'a str],
    member_starts: &[usize],
    output_end: usize,
    position: usize,
) -> MemberSpan<'a>
    requires paired { length keys.now ≡ length member_starts.now }
    requires within { position < length keys.now }
    ensures { result ≡ span_at_or_empty (spans_from keys.now member_starts.now output_end) position }
{
    MemberSpan {
        key: keys[position],
        start: member_starts[position],
        end: member_end(member_starts, position, output_end),
    }
}

// A member ends before the comma that precedes the next one, and the last one ends with the output.
fn member_end(member_starts: &[usize], position: usize, output_end: usize) -> usize
    requires { position < length member_starts.now }
    ensures { result ≡ end_before_next (drop (suc position) member_starts.now) output_end }
{
    match member_starts.get(position + 1) {
        Some(next_start) => next_start.saturating_sub(1),
        None => output_end,
    }
}

// Returns whether the next member in the order of the indices has the same key.
fn next_index_has_key(keys: &[&str], indexes: &Vec<usize>, position: usize, key: &str) -> bool
    requires { position < length indexes.now.items }
    ensures { result ≡ first_index_has_key keys.now key.now (drop (suc position) indexes.now.items) }
{
    match indexes.get(position + 1) {
        Some(next_index) => key_at(keys, *next_index) == key,
        None => false,
    }
}

// Adds a comma after another part.
pub(crate) fn put_comma(needs_comma: bool, text: &mut Vec<u8>) -> Result<(), AllocError>
    ensures text { OnOk result (text.new.items ≡ text.old.items ++ comma_if needs_comma) }
    ensures utf8 { is_utf8 text.old.items ≡ true → is_utf8 text.new.items ≡ true }
{
    if needs_comma {
        text.push(b',')?;
    }
    Ok(())
}
