//! The store that indexes its keys only if there are many and they do not ascend.
ghost use Rattle.std.specs.Prelude.{◌≡◌, [], refl, IfOk};
ghost use Rattle.bson_store.specs.Pairs.{HasDistinctKeys, with_value};

mod from_ascending;
mod from_entries;
mod into_iter;
mod iter;

use crate::key_index::{
    Index, MAX_UNINDEXED, find_in_index, find_without_index, index_pushed_key, unindex_removed_key,
};
use crate::pair_store::PairStore;
pub use into_iter::IntoIter;
pub use iter::Iter;
use std::alloc::{AllocError, Global};
use std::marker::Model;

/// A key and its value. A list of pairs whose keys ascend becomes a store without a copy.
///
/// ```
/// let mut pairs = Vec::new(alloc);
/// pairs.push(Pair {
///     key: String::from_str(alloc, "a")?,
///     value: 1,
/// })?;
/// println!(rt; "{}", SmallPairs::try_from_ascending(pairs).is_ok())?; // true
/// ```
#[derive(Drop)]
pub struct Pair<V> {
    /// The key.
    pub key: String,
    /// The value.
    pub value: V,
}

/// A store that keeps its pairs in one `Vec`, and has an index if more than sixteen pairs have keys
/// that do not ascend: their positions in ascending key order, or an ordered map from key to position.
///
/// Up to sixteen pairs, and any number whose keys were pushed in ascending order, need one block of
/// memory. Up to sixteen pairs are searched one by one, and more that ascend by binary search. Among
/// n pairs with an index, a key is found in the order of log n comparisons, whatever the keys are.
/// `from_entries` sorts the positions, which needs a word of memory for each. The first key pushed that
/// does not ascend, or after sorted positions, makes the map, which has a copy of each key. `push` needs
/// as many comparisons, and n times as many if it makes the map, once until no more than sixteen
/// pairs remain. `remove_at` needs as many for each pair after the removed one, and no memory.
///
/// ```
/// let mut pairs: SmallPairs<u32> = SmallPairs::new(alloc);
/// println!(rt; "{:?}", put(&mut pairs, String::from_str(alloc, "a")?, 1))?; // Ok(None)
/// println!(rt; "{:?}", pairs.find("a"))?; // Some(0)
/// ```
pub struct SmallPairs<V> {
    pairs: Vec<Pair<V>>,
    positions: Option<Box<Index>>,
}

impl<V> Model for SmallPairs<V> {
    ghost use Rattle.std.specs.Prelude.{ℕ, List};
    ghost use Rattle.bson_store.specs.Pairs.{pairs_code};
    ghost use Rattle.bson_store.specs.KeyIndex.{stored_pairs, StoreInvariant};

    ghost Value = { List (List ℕ × V) };

    ghost coded = { pairs_code V.code };

    ghost view = { λ store. stored_pairs store.pairs.items };

    ghost invariant = { λ store. StoreInvariant (stored_pairs store.pairs.items) store.positions };
}

impl<V: Drop> Drop for SmallPairs<V> {
    fn drop(self) {
        let SmallPairs { pairs, positions } = self;
        drop(pairs);
        drop(positions);
    }
}

impl<V> SmallPairs<V> {
    /// Makes a store without pairs, which has not allocated yet.
    pub fn new(alloc: Global) -> SmallPairs<V>
        ensures { result ≡ [] }
    {
        SmallPairs {
            pairs: Vec::new(alloc),
            positions: None,
        }
    }

    /// Returns the allocator of the store.
    pub fn allocator(&self) -> Global {
        *self.pairs.allocator()
    }
}

impl<V: Drop> SmallPairs<V> {
    /// Makes a store without pairs, with room for this many pairs. The push that needs an index
    /// makes it.
    ///
    /// # Errors
    ///
    /// Returns `AllocError` if a request for memory is refused.
    pub fn with_capacity(alloc: Global, pairs: usize) -> Result<SmallPairs<V>, AllocError>
        ensures { IfOk result (λ store. store ≡ []) }
    {
        Ok(SmallPairs {
            pairs: Vec::with_capacity(alloc, pairs)?,
            positions: None,
        })
    }

    /// Returns the pairs by value, in their order. The index is dropped.
    pub fn into_pairs(self) -> IntoIter<V>
        ensures pairs { result ≡ self }
        ensures distinct { HasDistinctKeys self }
    {
        let SmallPairs { pairs, positions } = self;
        drop(positions);
        IntoIter::new(pairs.into_iter())
    }
}

impl<V: Drop> PairStore<V> for SmallPairs<V> {
    ghost pairs = { λ store. store };

    ghost with_value_at = { with_value };

    fn len(&self) -> usize {
        self.pairs.len()
    }

    fn find(&self, key: &str) -> Option<usize> {
        match &self.positions {
            Some(index) => find_in_index(index, &self.pairs, key),
            None => find_without_index(&self.pairs, key),
        }
    }

    fn key_at(&self, position: usize) -> &String {
        &self.pairs[position].key
    }

    fn value_at(&self, position: usize) -> &V {
        &self.pairs[position].value
    }

    fn pair_at_mut(&mut self, position: usize) -> (&String, &mut V) {
        let pair = &mut self.pairs[position];
        (&pair.key, &mut pair.value)
    }

    fn push(&mut self, key: String, value: V) -> Result<(), (String, V)> {
        // Once the pair and its position have capacity, nothing can fail.
        let alloc = *self.pairs.allocator();
        if self.pairs.reserve(1).is_err() {
            return Err((key, value));
        }
        if index_pushed_key(alloc, &mut self.positions, &self.pairs, &key).is_err() {
            return Err((key, value));
        }
        match self.pairs.push(Pair { key, value }) {
            Ok(()) => Ok(()),
            Err(_) => unreachable!(),
        }
    }

    fn remove_at(&mut self, position: usize) -> (String, V) {
        let Pair { key, value } = self.pairs.remove(position);
        unindex_removed_key(&mut self.positions, &self.pairs, key.as_str(), position);
        (key, value)
    }

    fn clear(&mut self) {
        self.pairs.clear();
        self.positions = None;
    }

    ghost writes = { λ store position new_value. refl };
}
