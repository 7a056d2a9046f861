//! The pairs of a small store, by value.
ghost use Rattle.std.specs.Prelude.{◌≡◌, ℕ, List, length, string_bytes};
ghost use Rattle.std.specs.Iterator.{at_most};
ghost use Rattle.std.specs.Map.Iter.{TakesFirst};
ghost use Rattle.std.specs.Vec.Iter.{into_iter_items};
ghost use Rattle.bson_store.specs.Pairs.{pairs_code};
ghost use Rattle.bson_store.specs.KeyIndex.{stored_pairs};

use crate::small::Pair;
use std::marker::Model;
use std::vec;

/// An iterator over the pairs of a store, by value and in their order; `SmallPairs::into_pairs`
/// makes it.
///
/// Where `pairs` holds a 1 and b 2:
///
/// ```
/// let mut remaining_pairs = pairs.into_pairs();
/// println!(rt; "{:?} {:?}", remaining_pairs.next(), remaining_pairs.next())?; // Some(("a", 1)) Some(("b", 2))
/// ```
#[derive(Drop)]
pub struct IntoIter<V> {
    pairs: vec::IntoIter<Pair<V>>,
}

// The pairs that remain.
impl<V> Model for IntoIter<V> {
    ghost Value = { List (List ℕ × V) };

    ghost coded = { pairs_code V.code };

    ghost view = { λ iterator. stored_pairs (into_iter_items iterator.pairs) };
}

impl<V> IntoIter<V> {
    pub(crate) fn new(pairs: vec::IntoIter<Pair<V>>) -> IntoIter<V>
        ensures { result ≡ stored_pairs (into_iter_items pairs) }
    {
        IntoIter { pairs }
    }
}

impl<V: Drop> Iterator for IntoIter<V> {
    type Item = (String, V);

    ghost next_gives = { TakesFirst (λ pair. (string_bytes pair.0, pair.1)) };

    ghost remaining = { λ pair_list. at_most (length pair_list) };

    fn next(&mut self) -> Option<(String, V)> {
        let Pair { key, value } = self.pairs.next()?;
        Some((key, value))
    }
}
