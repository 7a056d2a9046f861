//! The place of one key in a document, to look at or to fill.
//!
//! A clause `writes_back` says what the document holds once the reference that the call returns has
//! ended.
ghost use Rattle.std.specs.Prelude.{◌≡◌, Some, None, string_bytes};
ghost use Rattle.bson_store.specs.Pairs.{position_of};

use super::Document;
use crate::bson::Bson;
use bson_store::PairStore;
use std::alloc::AllocError;

/// The entry of a key, which the document has or lacks; `Document::entry` makes it.
///
/// Where `document` is `{ "a": 1, "b": 2 }`:
///
/// ```
/// let key = String::from_str(alloc, "c")?;
/// *document.entry(key).or_insert(Bson::Null)? = Bson::Int32(3);
/// println!(rt; "{document}")?; // { "a": 1, "b": 2, "c": 3 }
/// ```
#[derive(Drop)]
pub enum Entry<'a> {
    /// The document has the key.
    Occupied(OccupiedEntry<'a>),
    /// The document lacks the key.
    Vacant(VacantEntry<'a>),
}

/// A key that the document has.
///
/// Where `document` is `{ "a": 1, "b": 2 }`:
///
/// ```
/// if let Entry::Occupied(_) = document.entry(String::from_str(alloc, "a")?) {
///     println!(rt; "a is there")?; // a is there
/// }
/// ```
#[derive(Drop)]
pub struct OccupiedEntry<'a> {
    document: &'a mut Document,
    key: String,
    pair_index: usize,
    ghost found: { position_of (string_bytes key) document.now.pairs ≡ Some pair_index },
}

/// A key that the document lacks.
///
/// Where `document` is `{ "a": 1, "b": 2 }`:
///
/// ```
/// if let Entry::Vacant(_) = document.entry(String::from_str(alloc, "c")?) {
///     println!(rt; "c is not there")?; // c is not there
/// }
/// ```
#[derive(Drop)]
pub struct VacantEntry<'a> {
    document: &'a mut Document,
    key: String,
    ghost absent: { position_of (string_bytes key) document.now.pairs ≡ None },
}

impl Document {
    ghost use Rattle.std.specs.Prelude.{◌≡◌, ◌++◌, ◌∷◌, [], string_bytes, None, OnOk, OnErr};
    ghost use Rattle.bson_store.specs.Pairs.{get, position_of};
    ghost use Rattle.bson.specs.Entry.{entry_document, entry_key, EntryMatchesValue};
    ghost use Rattle.bson.specs.View.{contents};

    // Puts a pair last, whose key is absent.
    fn push_pair(&mut self, key: String, value: Bson) -> Result<(), AllocError>
        requires { position_of (string_bytes key) (contents self.old) ≡ None }
        ensures ok { OnOk result (contents self.new ≡ contents self.old ++ (string_bytes key, value) ∷ []) }
        ensures err { OnErr result (self.new ≡ self.old) }
    {
        match self.pairs.push(key, value) {
            Ok(()) => Ok(()),
            Err(_) => Err(AllocError),
        }
    }

    /// Returns the entry of the key, without an allocation.
    pub fn entry(&mut self, key: String) -> Entry<'_>
        ensures key { entry_key result ≡ string_bytes key }
        ensures same_document { (entry_document result).ghost_name ≡ self.entry.ghost_name }
        ensures unchanged { (entry_document result).now ≡ self.old }
        ensures found { EntryMatchesValue result (get (string_bytes key) (contents self.old)) }
    {
        match self.pairs.find(key.as_str()) {
            Some(pair_index) => Entry::Occupied(OccupiedEntry {
                document: self,
                key,
                pair_index,
            }),
            None => Entry::Vacant(VacantEntry {
                document: self,
                key,
            }),
        }
    }
}

impl<'a> Entry<'a> {
    ghost use Rattle.std.specs.Prelude.{◌≡◌, Some, None, unwrap_or, IfOk, OnErr};
    ghost use Rattle.std.specs.Borrow.{sem};
    ghost use Rattle.std.specs.Option.{UnwrapsOrElse};
    ghost use Rattle.bson.specs.declared.bson.Bson.{Bson};
    ghost use Rattle.bson.specs.Entry.{entry_key, entry_value, writes_back_at_entry};

    /// Returns the key of the entry.
    pub fn key(&self) -> &str
        ensures { result.now ≡ entry_key self.now }
    {
        match self {
            Entry::Occupied(entry) => entry.key(),
            Entry::Vacant(entry) => entry.key.as_str(),
        }
    }

    /// Returns the value at the key, to write. If the key is absent, it is inserted last with
    /// `default`. An occupied entry needs no memory.
    ///
    /// # Errors
    ///
    /// Returns `AllocError` if a request for memory is refused. The key is then absent, and the
    /// document is unchanged.
    pub fn or_insert(self, default: Bson) -> Result<&'a mut Bson, AllocError>
        ensures* writes_back { sem 𝓛 (writes_back_at_entry self.entry result) }
        ensures value { IfOk result
            (λ value_reference. value_reference.now ≡ unwrap_or (entry_value self.entry) default) }
        ensures absent { OnErr result (entry_value self.entry ≡ None) }
    {
        match self {
            Entry::Occupied(entry) => {
                drop(default);
                Ok(entry.into_mut())
            }
            Entry::Vacant(entry) => entry.insert(default),
        }
    }

    /// Returns the value at the key, to write. If the key is absent, it is inserted last with the
    /// result of `default`.
    ///
    /// An occupied entry needs no memory, and does not call `default`. A vacant entry calls it
    /// once, before the document grows.
    ///
    /// # Errors
    ///
    /// Returns `AllocError` if a request for memory is refused. The key is then absent, `default`
    /// was called, and the document is unchanged.
    pub fn or_insert_with<F: FnOnce() -> Bson>(self, default: F) -> Result<&'a mut Bson, AllocError>
        requires { entry_value self ≡ None → F.pre default }
        ensures* writes_back { sem 𝓛 (writes_back_at_entry self.entry result) }
        ensures value { IfOk result
            (λ value_reference. UnwrapsOrElse (entry_value self.entry) (F.post default) value_reference.now) }
        ensures absent { OnErr result (entry_value self.entry ≡ None) }
        ensures called { OnErr result ((created : Bson) × F.post default created) }
    {
        match self {
            Entry::Occupied(entry) => Ok(entry.into_mut()),
            Entry::Vacant(entry) => entry.insert(default()),
        }
    }
}

impl<'a> OccupiedEntry<'a> {
    ghost use Rattle.std.specs.Prelude.{◌≡◌, Some};
    ghost use Rattle.std.specs.Borrow.{sem};
    ghost use Rattle.bson.specs.Entry.{Occupied, entry_key, entry_value, writes_back_at_occupied};

    /// Returns the key of the entry.
    pub fn key(&self) -> &str
        ensures { result.now ≡ entry_key (Occupied self.now) }
    {
        self.key.as_str()
    }

    // The value, for as long as the document is lent.
    fn into_mut(self) -> &'a mut Bson
        ensures* writes_back { sem 𝓛 (writes_back_at_occupied self.entry result) }
        ensures value { entry_value (Occupied self.entry) ≡ Some result.now }
    {
        let OccupiedEntry {
            document,
            key,
            pair_index,
        } = self;
        drop(key);
        document.pairs.value_at_mut(pair_index)
    }
}

impl<'a> VacantEntry<'a> {
    ghost use Rattle.std.specs.Prelude.{◌≡◌, IfOk};
    ghost use Rattle.std.specs.Borrow.{sem};
    ghost use Rattle.bson.specs.Entry.{Vacant, writes_back_at_entry};

    // Puts the pair last, and gives its value.
    fn insert(self, value: Bson) -> Result<&'a mut Bson, AllocError>
        ensures* writes_back { sem 𝓛 (writes_back_at_entry (Vacant self.entry) result) }
        ensures value { IfOk result (λ value_reference. value_reference.now ≡ value) }
    {
        let VacantEntry { document, key } = self;
        let pair_index = document.pairs.len();
        document.push_pair(key, value)?;
        Ok(document.pairs.value_at_mut(pair_index))
    }
}
