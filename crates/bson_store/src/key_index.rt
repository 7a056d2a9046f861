//! The index of a small store, from each key to its position: how a key is found, and how the index is
//! made and updated.
ghost use Rattle.std.specs.Prelude.{◌≡◌, ℕ, List, [], ◌∷◌, ◌++◌, Some, None, slice_get, remove};
ghost use Rattle.std.specs.Prelude.{option_map, string_bytes, IfOk, OnOk, OnErr};
ghost use Rattle.std.specs.Str.{bytes_eq};
ghost use Rattle.std.specs.Map.{update};
ghost use Rattle.std.specs.BTreeMap.{get_by_text};
ghost use Rattle.bson_store.specs.Pairs.{position_of, HasDistinctKeys};
ghost use Rattle.bson_store.specs.KeyIndex.{stored_pairs, MapsKeysToPositions, IsIndexOf, StoreInvariant};
ghost use Rattle.bson_store.specs.PositionsAfterRemoval.{position_before_removal};

use crate::ascending_keys::{find_ascending, needs_no_index};
use crate::small::Pair;
use crate::sorted_index::{find_sorted, remove_position};
use std::alloc::{AllocError, Global};
use std::collections::BTreeMap;

// Up to this number of pairs there is no index.
pub(crate) const MAX_UNINDEXED: usize = 16;

/// The index of many keys that do not ascend.
#[derive(Drop)]
pub(crate) enum Index {
    /// The positions in ascending key order.
    Sorted(Vec<usize>),
    /// A copy of each key, with its position.
    Map(BTreeMap<String, usize>),
}

// The position of the key, found in the index.
pub(crate) fn find_in_index<V>(index: &Index, pairs: &Vec<Pair<V>>, key: &str) -> Option<usize>
    requires { IsIndexOf index.now (stored_pairs pairs.now.items) }
    ensures { result ≡ position_of key.now (stored_pairs pairs.now.items) }
{
    match index {
        Index::Sorted(positions) => find_sorted(pairs, positions, key),
        Index::Map(map) => map.get(key).copied(),
    }
}

// The position of the key if there is no index.
pub(crate) fn find_without_index<V>(pairs: &Vec<Pair<V>>, key: &str) -> Option<usize>
    requires { StoreInvariant (stored_pairs pairs.now.items) None }
    ensures { result ≡ position_of key.now (stored_pairs pairs.now.items) }
{
    if pairs.len() > MAX_UNINDEXED {
        return find_ascending(pairs, key);
    }
    find_by_scan(pairs, key)
}

// The position of the key, found by comparing each key.
fn find_by_scan<V>(pairs: &Vec<Pair<V>>, key: &str) -> Option<usize>
    ensures { result ≡ position_of key.now (stored_pairs pairs.now.items) }
{
    for pair_position in 0..pairs.len() {
        if key == pairs[pair_position].key.as_str() {
            return Some(pair_position);
        }
    }
    None
}

// Inserts a copy of the key in the map, with its position.
fn insert_position(
    positions: &mut BTreeMap<String, usize>,
    key: &String,
    position: usize,
) -> Result<(), AllocError>
    ensures ok { OnOk result ((other_key : List ℕ) → get_by_text positions.new other_key
        ≡ update bytes_eq (get_by_text positions.old) (string_bytes key.now) (Some position) other_key) }
    ensures err { OnErr result
        ((other_key : List ℕ) → get_by_text positions.new other_key ≡ get_by_text positions.old other_key) }
{
    match positions.insert(key.clone()?, position) {
        Ok(_) => Ok(()),
        Err(_) => Err(AllocError),
    }
}

// A map from each key to its position, and from one more key to the next position.
fn index_all_keys<V>(
    alloc: Global,
    pairs: &Vec<Pair<V>>,
    key: &String,
) -> Result<BTreeMap<String, usize>, AllocError>
    requires distinct { HasDistinctKeys (stored_pairs pairs.now.items) }
    requires absent { position_of (string_bytes key.now) (stored_pairs pairs.now.items) ≡ None }
    ensures { IfOk result (λ position_map. (pushed_value : V)
        → MapsKeysToPositions position_map
        (stored_pairs pairs.now.items ++ (string_bytes key.now, pushed_value) ∷ [])) }
{
    let mut positions = BTreeMap::new(alloc);
    for pair_position in 0..pairs.len() {
        insert_position(&mut positions, &pairs[pair_position].key, pair_position)?;
    }
    insert_position(&mut positions, key, pairs.len())?;
    Ok(positions)
}

// Inserts one more key in the index.
fn index_next_key<V>(
    alloc: Global,
    index: &mut Index,
    pairs: &Vec<Pair<V>>,
    key: &String,
) -> Result<(), AllocError>
    requires distinct { HasDistinctKeys (stored_pairs pairs.now.items) }
    requires absent { position_of (string_bytes key.now) (stored_pairs pairs.now.items) ≡ None }
    requires indexes { IsIndexOf index.old (stored_pairs pairs.now.items) }
    ensures ok { OnOk result ((pushed_value : V)
        → IsIndexOf index.new (stored_pairs pairs.now.items ++ (string_bytes key.now, pushed_value) ∷ [])) }
    ensures err { OnErr result (IsIndexOf index.new (stored_pairs pairs.now.items)) }
{
    match index {
        Index::Map(map) => insert_position(map, key, pairs.len()),
        Index::Sorted(_) => {
            *index = Index::Map(index_all_keys(alloc, pairs, key)?);
            Ok(())
        }
    }
}

// Inserts one more key in the index, if there is one or if one is needed now. A map replaces sorted
// positions.
pub(crate) fn index_pushed_key<V>(
    alloc: Global,
    positions: &mut Option<Box<Index>>,
    pairs: &Vec<Pair<V>>,
    key: &String,
) -> Result<(), AllocError>
    requires indexed { StoreInvariant (stored_pairs pairs.now.items) positions.old }
    requires absent { position_of (string_bytes key.now) (stored_pairs pairs.now.items) ≡ None }
    ensures ok { OnOk result ((pushed_value : V)
        → StoreInvariant (stored_pairs pairs.now.items ++ (string_bytes key.now, pushed_value) ∷ []) positions.new) }
    ensures err { OnErr result (StoreInvariant (stored_pairs pairs.now.items) positions.new) }
{
    if let Some(index) = positions {
        return index_next_key(alloc, index, pairs, key);
    }
    if needs_no_index(pairs, key.as_str()) {
        return Ok(());
    }
    let map = index_all_keys(alloc, pairs, key)?;
    *positions = Some(Box::new(alloc, Index::Map(map))?);
    Ok(())
}

// Lowers each position after the removed one by one.
fn shift_positions<V>(
    positions: &mut BTreeMap<String, usize>,
    pairs: &Vec<Pair<V>>,
    removed_position: usize,
)
    requires distinct { HasDistinctKeys (stored_pairs pairs.now.items) }
    requires raised { (other_key : List ℕ) → get_by_text positions.old other_key
        ≡ option_map (position_before_removal removed_position) (position_of other_key (stored_pairs pairs.now.items)) }
    ensures { MapsKeysToPositions positions.new (stored_pairs pairs.now.items) }
{
    for pair_position in removed_position..pairs.len() {
        match positions.get_mut(pairs[pair_position].key.as_str()) {
            Some(position) => *position = pair_position,
            None => {}
        }
    }
}

// Removes the key, which was at the position, from the index.
fn unindex_key<V>(index: &mut Index, pairs: &Vec<Pair<V>>, key: &str, removed_position: usize)
    requires { (pairs_before : List (List ℕ × V)) × (removed_value : V)
        × (slice_get pairs_before removed_position ≡ Some (key.now, removed_value))
        × (stored_pairs pairs.now.items ≡ remove pairs_before removed_position) × HasDistinctKeys pairs_before
        × IsIndexOf index.old pairs_before }
    ensures { IsIndexOf index.new (stored_pairs pairs.now.items) }
{
    match index {
        Index::Sorted(positions) => remove_position(positions, removed_position),
        Index::Map(map) => {
            map.remove(key);
            shift_positions(map, pairs, removed_position);
        }
    }
}

// Removes the position of a removed key, and drops the index if sixteen keys remain.
pub(crate) fn unindex_removed_key<V>(
    positions: &mut Option<Box<Index>>,
    pairs: &Vec<Pair<V>>,
    key: &str,
    removed_position: usize,
)
    requires { (pairs_before : List (List ℕ × V)) × (removed_value : V)
        × (slice_get pairs_before removed_position ≡ Some (key.now, removed_value))
        × (stored_pairs pairs.now.items ≡ remove pairs_before removed_position)
        × StoreInvariant pairs_before positions.old }
    ensures { StoreInvariant (stored_pairs pairs.now.items) positions.new }
{
    if pairs.len() <= MAX_UNINDEXED {
        *positions = None;
    } else {
        match positions {
            Some(index) => unindex_key(index, pairs, key, removed_position),
            None => {}
        }
    }
}
