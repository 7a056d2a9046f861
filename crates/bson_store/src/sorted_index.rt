//! The positions of pairs in ascending key order: how they are sorted, and binary search for a key.
ghost use Rattle.std.specs.Prelude.{◌≡◌, ◌==◌, [], Some, map, not, slice_index_or, IfOk, IfSome};
ghost use Rattle.std.specs.List.{filter, range_with_len};
ghost use Rattle.std.specs.Ordering.{is_lt};
ghost use Rattle.bson_store.specs.AscendingKeys.{IsFirstKeyAbove};
ghost use Rattle.bson_store.specs.AscendingOrder.{key_cmp};
ghost use Rattle.bson_store.specs.Pairs.{keys, position_of, HasDistinctKeys};
ghost use Rattle.bson_store.specs.PositionsAfterRemoval.{position_after_removal};
ghost use Rattle.bson_store.specs.KeyIndex.{stored_pairs, key_positions, HasAscendingKeys, AreSortedPositions};

use crate::small::Pair;
use std::alloc::{AllocError, Global};

// The key at the position, or the empty one after the pairs.
fn key_at<V>(pairs: &Vec<Pair<V>>, position: usize) -> &str
    ensures { result.now ≡ slice_index_or (keys (stored_pairs pairs.now.items)) position [] }
{
    match pairs.get(position) {
        Some(pair) => pair.key.as_str(),
        None => "",
    }
}

// Whether the key at one position is below the key at the next.
fn is_below<V>(pairs: &Vec<Pair<V>>, first_position: usize, next_position: usize) -> bool
    ensures { result ≡ is_lt (key_cmp (slice_index_or (keys (stored_pairs pairs.now.items)) first_position [])
        (slice_index_or (keys (stored_pairs pairs.now.items)) next_position [])) }
{
    key_at(pairs, first_position)
        .cmp(key_at(pairs, next_position))
        .is_lt()
}

// The index, in the sorted positions, of the first key above the key, or the number of positions.
fn first_key_above<V>(pairs: &Vec<Pair<V>>, positions: &Vec<usize>, key: &str) -> usize
    requires { HasAscendingKeys (key_positions positions.now.items (stored_pairs pairs.now.items)) }
    ensures { IsFirstKeyAbove (Some key.now) (key_positions positions.now.items (stored_pairs pairs.now.items)) result }
{
    let mut low = 0;
    let mut high = positions.len();
    'binary_search: while low < high {
        let middle = low + (high - low) / 2;
        if key.cmp(key_at(pairs, positions[middle])).is_lt() {
            high = middle;
        } else {
            low = middle + 1;
        }
    }
    low
}

// The position of the key.
pub(crate) fn find_sorted<V>(
    pairs: &Vec<Pair<V>>,
    positions: &Vec<usize>,
    key: &str,
) -> Option<usize>
    requires { AreSortedPositions positions.now.items (stored_pairs pairs.now.items) }
    ensures { result ≡ position_of key.now (stored_pairs pairs.now.items) }
{
    let index_above = first_key_above(pairs, positions, key);
    if index_above == 0 {
        return None;
    }
    let position = positions[index_above - 1];
    if key == key_at(pairs, position) {
        return Some(position);
    }
    None
}

// The positions of the pairs in ascending key order, or None if a key is duplicated.
pub(crate) fn sorted_positions<V>(
    alloc: Global,
    pairs: &Vec<Pair<V>>,
) -> Result<Option<Vec<usize>>, AllocError>
    ensures { IfOk result
        (λ optional_positions. IfSome optional_positions (λ positions. HasDistinctKeys (stored_pairs pairs.now.items)
        × AreSortedPositions positions.items (stored_pairs pairs.now.items))) }
{
    let mut positions = all_positions(alloc, pairs.len())?;

    // The first bytes distinguish most keys.
    positions.sort_by_cached_key(|position| key_prefix(key_at(pairs, *position).as_bytes()))?;
    if positions.is_sorted_by(|first_position, next_position| is_below(
        pairs,
        *first_position,
        *next_position,
    )) {
        return Ok(Some(positions));
    }
    positions.sort_by(|first_position, other_position| key_at(pairs, *first_position).cmp(key_at(
        pairs,
        *other_position,
    )))?;
    if positions.is_sorted_by(|first_position, next_position| is_below(
        pairs,
        *first_position,
        *next_position,
    )) {
        return Ok(Some(positions));
    }
    Ok(None)
}

// The positions from 0 up to the number of pairs.
fn all_positions(alloc: Global, count: usize) -> Result<Vec<usize>, AllocError>
    ensures { IfOk result (λ positions. positions.items ≡ range_with_len 0 count) }
{
    let mut positions = Vec::with_capacity(alloc, count)?;
    for position in 0..count {
        positions.push(position)?;
    }
    Ok(positions)
}

// The first sixteen bytes as one number, with zeros for those that are missing.
fn key_prefix(key: &[u8]) -> u128 {
    let mut prefix: u128 = 0;
    for byte_index in 0..16 {
        let byte = key.get(byte_index).copied().unwrap_or(0);
        prefix = prefix << 8 | byte as u128;
    }
    prefix
}

// The position of a pair after the pair at `position` is removed.
fn shifted_position(removed_position: usize, position: usize) -> usize
    ensures { result ≡ position_after_removal removed_position position }
{
    if removed_position < position {
        return position - 1;
    }
    position
}

// Removes the position, and lowers each position after it by one.
pub(crate) fn remove_position(positions: &mut Vec<usize>, removed_position: usize)
    ensures { positions.new.items
        ≡ map (position_after_removal removed_position)
        (filter (λ other_position. not (other_position == removed_position)) positions.old.items) }
{
    positions.retain(|position| *position != removed_position);
    for index in 0..positions.len() {
        positions[index] = shifted_position(removed_position, positions[index]);
    }
}
