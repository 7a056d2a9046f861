//! The pair at one place of a document, to be looked at or written.
//!
//! A clause `writes_back` says what the document holds once the reference that the call returns has
//! ended.
ghost use Rattle.std.specs.Prelude.{◌≡◌, ◌<◌, ◌≤◌, Some, length, slice_get, IfSome, IfNone};
ghost use Rattle.std.specs.Prelude.{String, string_bytes};
ghost use Rattle.std.specs.Borrow.{Bor, MutBor, sem};
ghost use Rattle.std.specs.declared.alloc.Global.{Global};
ghost use Rattle.bson_store.specs.Pairs.{keys, values, with_value};
ghost use Rattle.bson.specs.View.{contents};
ghost use Rattle.bson.specs.declared.bson.Bson as value;

use super::Document;
use crate::bson::Bson;
use bson_store::PairStore;

/// A place that the document has; `Document::place_mut` makes it.
///
/// Where `document` is `{ "a": 1, "b": 2 }`:
///
/// ```
/// if let Some(place) = document.place_mut(1) {
///     *place.into_value() = Bson::Int32(5);
/// }
/// println!(rt; "{document}")?; // { "a": 1, "b": 5 }
/// ```
#[derive(Drop)]
pub struct PlaceMut<'a> {
    document: &'a mut Document,
    pair_index: usize,
    ghost within: { pair_index < length document.now.pairs },
}

impl Document {
    ghost use Rattle.bson.specs.ChangedValues.{ChangesEach};
    ghost use Rattle.bson.specs.PairGuard.{place_document, place_index, IsUnchangedWithoutPlace};

    /// Returns the pair at an index, from 0, with its value to write. None past the last pair.
    ///
    /// Nothing is promised of the document after this call, also where it answers None: its
    /// contract can't say so in this form. [`Document::change_index`] and [`Document::place_mut`]
    /// promise it whole.
    pub fn get_index_mut(&mut self, pair_index: usize) -> Option<(&String, &mut Bson)>
        ensures pair { IfSome result
            (λ pair_reference. Some (string_bytes pair_reference.0.now, pair_reference.1.now)
            ≡ slice_get (contents self.old) pair_index) }
        ensures none { IfNone result (length (contents self.old) ≤ pair_index) }
    {
        if pair_index < self.pairs.len() {
            Some(self.pairs.pair_at_mut(pair_index))
        } else {
            None
        }
    }

    /// Calls `change` on the pair at a place, from 0, and answers what that returned. None past the
    /// last pair.
    ///
    /// The value that `change` leaves becomes the value of the pair; its key and the other pairs
    /// stay. Where the answer is None, `change` was not called and the document is as it was.
    pub fn change_index<U, F: FnOnce(&String, &mut Bson) -> U>(
        &mut self,
        pair_index: usize,
        change: F,
    ) -> Option<U>
        requires { (key_reference : Bor (String Global)) (value_before : MutBor value.Bson)
            → slice_get (contents self.old) pair_index ≡ Some (string_bytes key_reference.now, value_before.now)
            → F.pre change key_reference value_before }
        ensures changed { IfSome result (λ closure_result. (key_reference : Bor (String Global))
            × (value_before value_after : MutBor value.Bson)
            × (slice_get (contents self.old) pair_index ≡ Some (string_bytes key_reference.now, value_before.now))
            × F.post change key_reference value_before closure_result value_after
            × (contents self.new ≡ with_value (contents self.old) pair_index value_after.now)) }
        ensures none { IfNone result
            ((length (contents self.old) ≤ pair_index) × (contents self.new ≡ contents self.old)) }
    {
        if pair_index < self.pairs.len() {
            let (key, value) = self.pairs.pair_at_mut(pair_index);
            Some(change(key, value))
        } else {
            None
        }
    }

    /// Calls `change` on each pair in turn, its value to be written.
    ///
    /// What a call leaves becomes the value of its pair; the keys and their order stay.
    pub fn change_values<F: FnMut(&String, &mut Bson)>(&mut self, mut change: F)
        requires { F.IsAlwaysCallable change }
        ensures { (closure_after : F)
            × ChangesEach F.FnMut change (contents self.old) closure_after (contents self.new) }
    {
        for pair_index in 0..self.pairs.len() {
            let (key, value) = self.pairs.pair_at_mut(pair_index);
            change(key, value);
        }
    }

    /// Returns a guard for the pair at an index, from 0. None past the last pair.
    pub fn place_mut(&mut self, pair_index: usize) -> Option<PlaceMut<'_>>
        ensures* unchanged_at_none { sem 𝓛 (IsUnchangedWithoutPlace self.entry self.old result) }
        ensures same_document { IfSome result (λ guard. (place_document guard).ghost_name ≡ self.entry.ghost_name) }
        ensures unchanged { IfSome result (λ guard. (place_document guard).now ≡ self.old) }
        ensures place { IfSome result (λ guard. place_index guard ≡ pair_index) }
        ensures none { IfNone result (length (contents self.old) ≤ pair_index) }
    {
        if pair_index < self.pairs.len() {
            Some(PlaceMut {
                document: self,
                pair_index,
            })
        } else {
            None
        }
    }
}

impl<'a> PlaceMut<'a> {
    ghost use Rattle.bson.specs.PairGuard.{place_document, place_index, writes_back_at_place};

    /// Returns the key of the pair.
    pub fn key(&self) -> &String
        ensures { Some (string_bytes result.now)
            ≡ slice_get (keys (contents (place_document self.now).now)) (place_index self.now) }
    {
        self.document.pairs.key_at(self.pair_index)
    }

    /// Returns the value of the pair, to be written. A write changes that value, and nothing else
    /// of the document.
    pub fn into_value(self) -> &'a mut Bson
        ensures* writes_back { sem 𝓛 (writes_back_at_place self.entry result) }
        ensures value { Some result.now
            ≡ slice_get (values (contents (place_document self.entry).now)) (place_index self.entry) }
    {
        let PlaceMut {
            document,
            pair_index,
        } = self;
        document.pairs.value_at_mut(pair_index)
    }
}
