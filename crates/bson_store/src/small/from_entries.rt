//! Makes a store from pairs in any order. Without a duplicate key, they are not moved.
ghost use Rattle.std.specs.Prelude.{◌≡◌, ◌<◌, [], length, IfOk};
ghost use Rattle.bson_store.specs.Pairs.{insert_pairs};
ghost use Rattle.bson_store.specs.KeyIndex.{stored_pairs};

use crate::by_key::put;
use crate::key_index::{Index, MAX_UNINDEXED};
use crate::small::{Pair, SmallPairs};
use crate::sorted_index::sorted_positions;
use std::alloc::{AllocError, Global};

impl<V: Drop> SmallPairs<V> {
    /// Makes a store of the pairs, inserted one after another. If a key is duplicated, its last
    /// value wins, at its first position.
    ///
    /// Pairs in ascending key order become the store without a copy, in the memory that they have.
    /// More than sixteen pairs without a duplicate key do too: their positions are sorted, and no key
    /// is copied.
    ///
    /// # Errors
    ///
    /// Returns `AllocError` if a request for memory is refused. The pairs are then dropped.
    ///
    /// ```
    /// let mut pairs = Vec::new(alloc);
    /// pairs.push(Pair {
    ///     key: String::from_str(alloc, "a")?,
    ///     value: 1,
    /// })?;
    /// println!(rt; "{:?}", SmallPairs::from_entries(alloc, pairs)?.find("a"))?; // Some(0)
    /// ```
    pub fn from_entries(alloc: Global, pairs: Vec<Pair<V>>) -> Result<SmallPairs<V>, AllocError>
        ensures { IfOk result (λ store. store ≡ insert_pairs (stored_pairs pairs.items) []) }
    {
        match SmallPairs::try_from_ascending(pairs) {
            Ok(store) => Ok(store),
            Err(pairs) if pairs.len() <= MAX_UNINDEXED => insert_each(alloc, pairs),
            Err(pairs) => from_unsorted_pairs(alloc, pairs),
        }
    }
}

fn from_unsorted_pairs<V: Drop>(
    alloc: Global,
    mut pairs: Vec<Pair<V>>,
) -> Result<SmallPairs<V>, AllocError>
    requires { 16 < length (stored_pairs pairs.items) }
    ensures { IfOk result (λ store. store ≡ insert_pairs (stored_pairs pairs.items) []) }
{
    let Some(positions) = sorted_positions(alloc, &pairs)? else {
        return insert_each(alloc, pairs);
    };
    pairs.shrink_to_fit();
    let index = Box::new(alloc, Index::Sorted(positions))?;
    Ok(SmallPairs {
        pairs,
        positions: Some(index),
    })
}

// Inserts one pair after another. Each key is looked up.
fn insert_each<V: Drop>(alloc: Global, pairs: Vec<Pair<V>>) -> Result<SmallPairs<V>, AllocError>
    ensures { IfOk result (λ store. store ≡ insert_pairs (stored_pairs pairs.items) []) }
{
    let mut store = SmallPairs::with_capacity(alloc, pairs.len())?;
    'pairs: for Pair { key, value } in pairs {
        let Ok(_) = put(&mut store, key, value) else {
            return Err(AllocError);
        };
    }
    Ok(store)
}
