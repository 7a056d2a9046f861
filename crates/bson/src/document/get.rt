//! Look-ups by key, and the number of pairs.
ghost use Rattle.std.specs.Prelude.{◌≡◌, ◌↔◌, [], length, Some, is_some, IsTrue};
ghost use Rattle.std.specs.Prelude.{option_copied, option_map};
ghost use Rattle.std.specs.Borrow.{sem};
ghost use Rattle.bson_store.specs.Pairs.{get as value_of, HasDistinctKeys};
ghost use Rattle.bson.specs.Loans.{WritesBackValue};
ghost use Rattle.bson.specs.View.{contents};
ghost use Rattle.bson.specs.declared.bson.Bson.TheVariants.{Null};

use super::Document;
use crate::bson::Bson;
use bson_store::PairStore;

impl Document {
    /// Returns the number of pairs, which is the number of keys: no key is a duplicate.
    pub fn len(&self) -> usize
        ensures len { result ≡ length (contents self.now) }
        ensures distinct { HasDistinctKeys (contents self.now) }
    {
        self.pairs.len()
    }

    /// Returns whether the document has no pairs.
    pub fn is_empty(&self) -> bool
        ensures { IsTrue result ↔ (contents self.now ≡ []) }
    {
        self.len() == 0
    }

    /// Returns the value at the key.
    pub fn get(&self, key: &str) -> Option<&Bson>
        ensures { option_copied result ≡ value_of key.now (contents self.now) }
    {
        match self.pairs.find(key) {
            Some(pair_index) => Some(self.pairs.value_at(pair_index)),
            None => None,
        }
    }

    /// Returns the value at the key, to be written. A write changes that value, and nothing else of
    /// the document.
    pub fn get_mut(&mut self, key: &str) -> Option<&mut Bson>
        ensures* writes_back { sem 𝓛 (WritesBackValue self.entry self.old key.now result) }
        ensures value { option_map (λ reference. reference.now) result ≡ value_of key.now (contents self.old) }
    {
        match self.pairs.find(key) {
            Some(pair_index) => Some(self.pairs.value_at_mut(pair_index)),
            None => None,
        }
    }

    /// Returns whether the document has the key.
    pub fn contains_key(&self, key: &str) -> bool
        ensures { result ≡ is_some (value_of key.now (contents self.now)) }
    {
        self.get(key).is_some()
    }

    /// Returns whether the value at the key is null.
    pub fn is_null(&self, key: &str) -> bool
        ensures { IsTrue result ↔ (value_of key.now (contents self.now) ≡ Some Null) }
    {
        matches!(self.get(key), Some(Bson::Null))
    }
}
