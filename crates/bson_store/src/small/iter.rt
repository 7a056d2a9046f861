//! The iterators over a small store: in its own order, and in ascending key order.
ghost use Rattle.std.specs.Prelude.{◌≡◌, ◌<◌, ℕ, List, length, slice_get, option_map, option_and_then};
ghost use Rattle.std.specs.Prelude.{string_bytes, IfSome};
ghost use Rattle.std.specs.Iterator.{at_most};
ghost use Rattle.std.specs.Map.Iter.{TakesFirst};
ghost use Rattle.bson_store.specs.AscendingOrder.{sorted_by_key, IsLeastKeyAbove};
ghost use Rattle.bson_store.specs.Pairs.{HasDistinctKeys};
ghost use Rattle.bson_store.specs.KeyIndex.{stored_pairs, StoreInvariant};
ghost use Rattle.bson_store.specs.Cursors.{remaining_pairs, IsCursorInBounds, IsCursorByKey, IsCursorStep};

use crate::ascending_keys::has_ascending_keys;
use crate::key_index::{Index, MAX_UNINDEXED};
use crate::order::next_above;
use crate::pair_store::PairStore;
use crate::small::{Pair, SmallPairs};
use std::collections::btree_map::Values;
use std::marker::Model;
use std::slice;

/// An iterator over the pairs of a store, by reference; `SmallPairs::iter` and `SmallPairs::by_key`
/// make it.
///
/// Where `pairs` holds a 1 and b 2:
///
/// ```
/// let mut remaining_pairs = pairs.by_key();
/// println!(rt; "{:?} {:?}", remaining_pairs.next(), remaining_pairs.next())?; // Some(("a", 1)) Some(("b", 2))
/// ```
#[derive(Drop)]
pub struct Iter<'a, V> {
    pairs: &'a SmallPairs<V>,
    cursor: Cursor<'a>,
}

// Which pairs remain.
#[derive(Drop)]
enum Cursor<'a> {
    // The pairs from this position on, in the order of the store.
    From(usize),
    // The pairs at these positions, of the sorted index.
    Sorted(slice::Iter<'a, usize>),
    // The pairs at the positions of the map, in ascending key order.
    Mapped(Values<'a, String, usize>),
    // The pairs whose keys are above the last one, in ascending key order.
    Above(Option<&'a String>),
}

// The pairs that remain.
impl<'a, V> Model for Iter<'a, V> {
    ghost Value = { List (List ℕ × V) };

    ghost view = { λ iterator. remaining_pairs iterator.cursor iterator.pairs.now };

    ghost invariant = { λ iterator. IsCursorInBounds iterator.cursor iterator.pairs.now };
}

impl<V: Drop> SmallPairs<V> {
    /// Iterates over the pairs in their order.
    pub fn iter(&self) -> Iter<'_, V>
        ensures pairs { result ≡ self.now }
        ensures distinct { HasDistinctKeys self.now }
    {
        // The invariant of the store says that the keys are distinct.
        let _ = &self.pairs;
        Iter {
            pairs: self,
            cursor: Cursor::From(0),
        }
    }

    /// Iterates over the pairs in ascending order of the bytes of their keys.
    ///
    /// The iterator allocates no memory. It uses the index, or goes from pair to pair if the keys
    /// ascend. Up to sixteen pairs whose keys do not ascend are searched for each next key.
    pub fn by_key(&self) -> Iter<'_, V>
        ensures pairs { result ≡ sorted_by_key self.now }
        ensures distinct { HasDistinctKeys self.now }
    {
        let cursor = cursor_by_key(&self.pairs, &self.positions);
        Iter {
            pairs: self,
            cursor,
        }
    }
}

fn cursor_by_key<'a, V>(pairs: &Vec<Pair<V>>, positions: &'a Option<Box<Index>>) -> Cursor<'a>
    requires { StoreInvariant (stored_pairs pairs.now.items) positions.now }
    ensures { IsCursorByKey result (stored_pairs pairs.now.items) }
{
    match positions {
        Some(index) => match &**index {
            Index::Sorted(positions) => Cursor::Sorted(positions.iter()),
            Index::Map(map) => Cursor::Mapped(map.values()),
        },
        None if pairs.len() > MAX_UNINDEXED || has_ascending_keys(pairs) => Cursor::From(0),
        None => Cursor::Above(None),
    }
}

impl<'a, V: Drop> Iterator for Iter<'a, V> {
    type Item = (&'a String, &'a V);

    ghost next_gives = { TakesFirst (λ pair. (string_bytes pair.0.now, pair.1.now)) };

    ghost remaining = { λ pair_list. at_most (length pair_list) };

    fn next(&mut self) -> Option<(&'a String, &'a V)> {
        let position = next_position(self.pairs, &mut self.cursor)?;
        Some((self.pairs.key_at(position), self.pairs.value_at(position)))
    }
}

// The position of the next pair.
fn next_position<'a, V: Drop>(pairs: &'a SmallPairs<V>, cursor: &mut Cursor<'a>) -> Option<usize>
    requires { IsCursorInBounds cursor.old pairs.now }
    ensures { IsCursorStep pairs.now cursor.old result cursor.new }
{
    match cursor {
        Cursor::From(position) => {
            if *position == pairs.len() {
                return None;
            }
            *position += 1;
            Some(*position - 1)
        }
        Cursor::Sorted(positions) => positions.next().copied(),
        Cursor::Mapped(positions) => positions.next().copied(),
        Cursor::Above(previous_key) => {
            let position = next_by_scan(pairs, *previous_key)?;
            *previous_key = Some(pairs.key_at(position));
            Some(position)
        }
    }
}

// The position of the least key above the last one, or of the least key of all. Compares each pair.
fn next_by_scan<V: Drop>(pairs: &SmallPairs<V>, previous_key: Option<&String>) -> Option<usize>
    ensures in_bounds { IfSome result (λ next_position. next_position < length pairs.now) }
    ensures least { IsLeastKeyAbove
        (option_map (λ key_reference. string_bytes key_reference.now) previous_key.entry) pairs.now
        (option_and_then (slice_get pairs.now) result) }
{
    match previous_key {
        Some(key) => next_above(pairs, Some(key.as_str())),
        None => next_above(pairs, None),
    }
}
