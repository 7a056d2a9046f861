//! The walks over a document. Each gives the pairs in their order, each once, and ends.
use super::Document;
use crate::bson::Bson;
use bson_store::small::{IntoIter as PairsIntoIter, Iter as PairsIter};

/// The pairs that are left, each as a key and a value; `Document::iter` makes it.
///
/// Where `document` is `{ "a": 1, "b": 2 }`:
///
/// ```
/// for (key, value) in document.iter() {
///     println!(rt; "{key} is {value}")?;
/// }
/// // a is 1
/// // b is 2
/// ```
#[derive(Drop)]
pub struct Iter<'a> {
    pairs: PairsIter<'a, Bson>,
}

/// The keys of the pairs that are left; `Document::keys` makes it.
///
/// Where `document` is `{ "a": 1, "b": 2 }`:
///
/// ```
/// let mut keys = document.keys();
/// println!(rt; "{:?} {:?}", keys.next(), keys.next())?; // Some("a") Some("b")
/// ```
#[derive(Drop)]
pub struct Keys<'a> {
    pairs: Iter<'a>,
}

/// The values of the pairs that are left; `Document::values` makes it.
///
/// Where `document` is `{ "a": 1, "b": 2 }`:
///
/// ```
/// let mut values = document.values();
/// println!(rt; "{:?} {:?}", values.next(), values.next())?; // Some(Int32(1)) Some(Int32(2))
/// ```
#[derive(Drop)]
pub struct Values<'a> {
    pairs: Iter<'a>,
}

/// The pairs that are left, by value; `Document::into_iter` makes it.
///
/// Where `document` is `{ "a": 1, "b": 2 }`:
///
/// ```
/// let mut pairs = document.into_iter();
/// println!(rt; "{:?}", pairs.next())?; // Some(("a", Int32(1)))
/// ```
#[derive(Drop)]
pub struct IntoIter {
    pairs: PairsIntoIter<Bson>,
}

impl<'a> Iterator for Iter<'a> {
    type Item = (&'a String, &'a Bson);

    ghost use Rattle.std.specs.Prelude.{string_bytes};
    ghost use Rattle.std.specs.Iterator.{YieldsFirstBy, item_count};
    ghost use Rattle.bson.specs.Iter.{remaining_entries};

    ghost next_gives = { YieldsFirstBy (λ key_and_value. (string_bytes key_and_value.0.now, key_and_value.1.now)) remaining_entries };

    ghost remaining = { item_count remaining_entries };

    fn next(&mut self) -> Option<(&'a String, &'a Bson)> {
        self.pairs.next()
    }
}

impl<'a> Iterator for Keys<'a> {
    type Item = &'a String;

    ghost use Rattle.std.specs.Prelude.{string_bytes};
    ghost use Rattle.std.specs.Iterator.{YieldsFirstBy, item_count};
    ghost use Rattle.bson.specs.Iter.{remaining_keys};

    ghost next_gives = { YieldsFirstBy (λ key_reference. string_bytes key_reference.now) remaining_keys };

    ghost remaining = { item_count remaining_keys };

    fn next(&mut self) -> Option<&'a String> {
        match self.pairs.next() {
            Some((key, _)) => Some(key),
            None => None,
        }
    }
}

impl<'a> Iterator for Values<'a> {
    type Item = &'a Bson;

    ghost use Rattle.std.specs.Iterator.{YieldsFirstRef, item_count};
    ghost use Rattle.bson.specs.Iter.{remaining_values};

    ghost next_gives = { YieldsFirstRef remaining_values };

    ghost remaining = { item_count remaining_values };

    fn next(&mut self) -> Option<&'a Bson> {
        match self.pairs.next() {
            Some((_, value)) => Some(value),
            None => None,
        }
    }
}

impl Iterator for IntoIter {
    type Item = (String, Bson);

    ghost use Rattle.std.specs.Prelude.{string_bytes};
    ghost use Rattle.std.specs.Iterator.{YieldsFirstBy, item_count};
    ghost use Rattle.bson.specs.Iter.{remaining_owned_pairs};

    ghost next_gives = { YieldsFirstBy (λ key_and_value. (string_bytes key_and_value.0, key_and_value.1)) remaining_owned_pairs };

    ghost remaining = { item_count remaining_owned_pairs };

    fn next(&mut self) -> Option<(String, Bson)> {
        self.pairs.next()
    }
}

impl Document {
    ghost use Rattle.std.specs.Prelude.{◌≡◌};
    ghost use Rattle.bson_store.specs.Pairs.{keys, values};
    ghost use Rattle.bson.specs.Iter.{remaining_entries, remaining_keys, remaining_values};
    ghost use Rattle.bson.specs.View.{contents};

    /// Iterates over the pairs in their order, each as a key and a value.
    pub fn iter(&self) -> Iter<'_>
        ensures { remaining_entries result ≡ contents self.now }
    {
        Iter {
            pairs: self.pairs.iter(),
        }
    }

    /// Iterates over the keys in their order.
    pub fn keys(&self) -> Keys<'_>
        ensures { remaining_keys result ≡ keys (contents self.now) }
    {
        Keys { pairs: self.iter() }
    }

    /// Iterates over the values in the order of their keys.
    pub fn values(&self) -> Values<'_>
        ensures { remaining_values result ≡ values (contents self.now) }
    {
        Values { pairs: self.iter() }
    }
}

impl IntoIterator for Document {
    type Item = (String, Bson);

    type IntoIter = IntoIter;

    ghost use Rattle.std.specs.Prelude.{◌≡◌};
    ghost use Rattle.bson_store.specs.Pairs.{HasDistinctKeys};
    ghost use Rattle.bson.specs.Iter.{remaining_owned_pairs};
    ghost use Rattle.bson.specs.View.{contents};

    ghost into_iter_gives = { λ owned_document iterator. (remaining_owned_pairs iterator ≡ contents owned_document)
        × HasDistinctKeys (contents owned_document) };

    fn into_iter(self) -> IntoIter {
        IntoIter {
            pairs: self.pairs.into_pairs(),
        }
    }
}

impl<'a> IntoIterator for &'a Document {
    type Item = (&'a String, &'a Bson);

    type IntoIter = Iter<'a>;

    ghost use Rattle.std.specs.Prelude.{◌≡◌};
    ghost use Rattle.bson.specs.Iter.{remaining_entries};
    ghost use Rattle.bson.specs.View.{contents};

    ghost into_iter_gives = { λ owned_document iterator. remaining_entries iterator ≡ contents owned_document.now };

    fn into_iter(self) -> Iter<'a> {
        self.iter()
    }
}
