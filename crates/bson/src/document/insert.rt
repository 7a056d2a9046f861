//! Putting pairs, and taking them out.
ghost use Rattle.std.specs.Prelude.{◌≡◌, [], Some, None, List, String, string_bytes};
ghost use Rattle.std.specs.Prelude.{IfOk, OnOk, IfErr, OnErr};
ghost use Rattle.std.specs.declared.alloc.Global.{Global};
ghost use Rattle.std.specs.Iterator.{IsFinite, Drains, YieldsThen};
ghost use Rattle.bson_store.specs.Pairs.{get, insert_pair, remove_pair};
ghost use Rattle.bson.specs.InsertedPairs.{insert_all_pairs, insert_entries};
ghost use Rattle.bson.specs.View.{contents};
ghost use Rattle.bson.specs.declared.bson.Bson as value;

use super::Document;
use crate::bson::Bson;
use bson_store::{Pair, PairStore, SmallPairs, by_key};
use std::alloc::{AllocError, Global};
use thiserror::Error;

/// Out of memory at a new key, with the pair that was not inserted. It is an error with a message,
/// so `?` returns it.
///
/// Where `document` is `{ "a": 1, "b": 2 }`:
///
/// ```
/// match document.insert(String::from_str(alloc, "c")?, Bson::Null) {
///     Ok(_) => println!(rt; "{document}")?, // { "a": 1, "b": 2, "c": null }
///     Err(refused) => println!(rt; "no memory for {}", refused.key)?,
/// }
/// ```
#[derive(Drop, Error)]
#[error("out of memory: the pair was not inserted")]
pub struct Refused {
    /// The key.
    pub key: String,
    /// Its value.
    pub value: Bson,
}

impl Document {
    /// Inserts the value at the key, and returns the old value of that key. A key that is present
    /// keeps its position and needs no memory. A new key becomes the last.
    ///
    /// # Errors
    ///
    /// Returns `Refused` with the pair if a request for memory is refused. The key is then absent,
    /// and the document is unchanged.
    pub fn insert(&mut self, key: String, value: Bson) -> Result<Option<Bson>, Refused>
        ensures old_value { IfOk result (λ old_value. old_value ≡ get (string_bytes key) (contents self.old)) }
        ensures put { OnOk result (contents self.new ≡ insert_pair (string_bytes key) value (contents self.old)) }

        // Out of memory, which comes at a new key alone.
        ensures absent { OnErr result (get (string_bytes key) (contents self.old) ≡ None) }
        ensures err { OnErr result (contents self.new ≡ contents self.old) }
        ensures refused { IfErr result (λ rejected. (rejected.key ≡ key) × (rejected.value ≡ value)) }
    {
        match by_key::put(&mut self.pairs, key, value) {
            Ok(old_value) => Ok(old_value),
            Err((key, value)) => Err(Refused { key, value }),
        }
    }

    /// Takes the value at the key, and its pair out of the document. The other pairs keep their
    /// order.
    pub fn remove(&mut self, key: &str) -> Option<Bson>
        ensures old_value { result ≡ get key.now (contents self.old) }
        ensures pair_removed { contents self.new ≡ remove_pair key.now (contents self.old) }
    {
        by_key::take(&mut self.pairs, key)
    }

    /// Takes every pair out.
    pub fn clear(&mut self)
        ensures { contents self.new ≡ [] }
    {
        self.pairs.clear();
    }

    // `insert`, without the old value, which is dropped here and not in the loop of `extend`.
    fn set(&mut self, key: String, value: Bson) -> Result<(), Refused>
        ensures put { OnOk result (contents self.new ≡ insert_pair (string_bytes key) value (contents self.old)) }
        ensures absent { OnErr result (get (string_bytes key) (contents self.old) ≡ None) }
        ensures err { OnErr result (contents self.new ≡ contents self.old) }
        ensures refused { IfErr result (λ rejected. (rejected.key ≡ key) × (rejected.value ≡ value)) }
    {
        drop(self.insert(key, value)?);
        Ok(())
    }

    /// Inserts each pair in turn, as `insert` does.
    ///
    /// # Errors
    ///
    /// Returns `Refused` with the pair for which a request for memory is refused. Its key is then
    /// absent, and exactly the pairs before it were inserted.
    pub fn extend<I: Iterator<Item = (String, Bson)> + Drop>(
        &mut self,
        items: I,
    ) -> Result<(), Refused>
        requires can_iterate { I.can_next items }
        requires is_finite { IsFinite (I.remaining items) }
        ensures ok { OnOk result ((inserted : List (String Global × value.Bson)) × Drains I.next_gives items inserted
            × (contents self.new ≡ insert_all_pairs inserted (contents self.old))) }

        // Out of memory, which comes at a new key alone.
        ensures err { IfErr result (λ rejected. (inserted : List (String Global × value.Bson)) × (iterator_after : _)
            × YieldsThen I.next_gives items inserted (Some (rejected.key, rejected.value)) iterator_after
            × (contents self.new ≡ insert_all_pairs inserted (contents self.old))) }
        ensures absent { IfErr result (λ rejected. get (string_bytes rejected.key) (contents self.new) ≡ None) }
    {
        for (key, value) in items {
            self.set(key, value)?;
        }
        Ok(())
    }

    /// Makes the document of the pairs, inserted in turn. If a key is duplicated, its last
    /// value wins, at its first position.
    ///
    /// # Errors
    ///
    /// Returns `Refused` with the pair for which a request for memory is refused. Its key was new.
    pub fn from_pairs<I: Iterator<Item = (String, Bson)> + Drop>(
        alloc: Global,
        items: I,
    ) -> Result<Document, Refused>
        requires can_iterate { I.can_next items }
        requires is_finite { IsFinite (I.remaining items) }
        ensures ok { IfOk result (λ created. (inserted : List (String Global × value.Bson))
            × Drains I.next_gives items inserted
            × (contents created ≡ insert_all_pairs inserted [])) }

        // Out of memory, which comes at a new key alone.
        ensures err { IfErr result (λ rejected. (inserted : List (String Global × value.Bson)) × (iterator_after : _)
            × YieldsThen I.next_gives items inserted (Some (rejected.key, rejected.value)) iterator_after
            × (get (string_bytes rejected.key) (insert_all_pairs inserted []) ≡ None)) }
    {
        let mut document = Document::new(alloc);
        document.extend(items)?;
        Ok(document)
    }

    /// Makes the document of the entries, inserted in turn. If a key is duplicated, its last
    /// value wins, at its first position.
    ///
    /// Entries in ascending key order become the document without a copy, in the memory that they
    /// have. More than sixteen entries without a duplicate key do too.
    ///
    /// # Errors
    ///
    /// Returns `AllocError` if a request for memory is refused. The entries are then dropped.
    ///
    /// ```
    /// let mut entries = Vec::new(alloc);
    /// entries.push(Pair {
    ///     key: String::from_str(alloc, "a")?,
    ///     value: Bson::Null,
    /// })?;
    /// println!(rt; "{}", Document::from_entries(alloc, entries)?)?; // { "a": null }
    /// ```
    pub fn from_entries(alloc: Global, entries: Vec<Pair<Bson>>) -> Result<Document, AllocError>
        ensures { IfOk result (λ created. contents created ≡ insert_entries entries.items []) }
    {
        let pairs = SmallPairs::from_entries(alloc, entries)?;
        Ok(Document { pairs })
    }
}
