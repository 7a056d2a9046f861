//! The pairs of a document that is read.
ghost use Rattle.std.specs.Prelude.{◌≡◌, ◌≤◌, true, [], IfOk, OnOk, length, string_bytes};
ghost use Rattle.bson.specs.View.{bson_view, document_view, contents};
ghost use Rattle.bson_bytes.specs.Fault.{ReturnsReading};
ghost use Rattle.bson_bytes.specs.Grammar.{deduplicated};
ghost use Rattle.bson_bytes.specs.Reading.{read_key};
ghost use Rattle.bson_model.specs.declared.options.DuplicateKeys.{DuplicateKeys};
ghost use Rattle.bson_model.specs.declared.options.DuplicateKeys.TheVariants.{LastWins, Reject};
ghost use Rattle.bson_codec.specs.ReadToMemory.{entries_view, HaveKeys};
ghost use Rattle.bson_model.specs.Value.{Pairs, no_pairs};
ghost use Rattle.bson_bytes.specs.Source.{reversed_keys, earlier_keys, with_last_pair};

use bson::{Bson, Document};
use bson_bytes::fault::{Fault, FaultKind, fault_at};
use bson_bytes::read_parts::read_name;
use bson_store::Pair;
use std::alloc::{AllocError, Global};

/// The pairs of a document that is read, for one meaning of duplicate keys.
pub(crate) trait PairList: Drop {
    // Whether a document may have duplicate keys.
    ghost keys: { DuplicateKeys };

    // The list has these elements.
    ghost list_has_pairs: { Pairs → Self → Type 0 };

    /// Returns a list without pairs.
    fn new(alloc: Global) -> Self
        ensures { list_has_pairs no_pairs result };

    /// Reads the key at the front of the bytes, which may be the next one of the list.
    fn read_key<'b>(&self, bytes: &'b [u8]) -> Result<(&'b str, &'b [u8]), Fault>
        ensures outcome { (pairs_added : Pairs) → list_has_pairs pairs_added self.now
            → ReturnsReading (λ returned. (returned.0.now, returned.1.now)) result
            (read_key (earlier_keys keys true pairs_added) bytes.now) }
        ensures shorter { IfOk result (λ returned. length returned.1.now ≤ length bytes.now) };

    /// Adds a pair.
    fn put_pair(&mut self, key: String, value: Bson) -> Result<(), AllocError>
        ensures { OnOk result ((pairs_added : Pairs) → list_has_pairs pairs_added self.old
            → list_has_pairs (with_last_pair pairs_added (string_bytes key) (bson_view value)) self.new) };

    /// Converts the list to a document. If a key is duplicated, its last value wins, at its first
    /// position.
    fn into_document(self, alloc: Global) -> Result<Document, AllocError>
        ensures { IfOk result (λ document. (pairs_added : Pairs) → list_has_pairs pairs_added self
            → document_view document ≡ deduplicated pairs_added) };
}

/// Pairs in the order of the bytes, whose keys may be duplicated.
#[derive(Drop)]
pub(crate) struct AnyPairs {
    entries: Vec<Pair<Bson>>,
}

impl PairList for AnyPairs {
    ghost keys = { LastWins };

    ghost list_has_pairs = { λ pairs_added list. entries_view list.entries.items ≡ pairs_added };

    fn new(alloc: Global) -> AnyPairs {
        AnyPairs {
            entries: Vec::new(alloc),
        }
    }

    fn read_key<'b>(&self, bytes: &'b [u8]) -> Result<(&'b str, &'b [u8]), Fault> {
        read_name(bytes)
    }

    fn put_pair(&mut self, key: String, value: Bson) -> Result<(), AllocError> {
        Ok(self.entries.push(Pair { key, value })?)
    }

    fn into_document(self, alloc: Global) -> Result<Document, AllocError> {
        Document::from_entries(alloc, self.entries)
    }
}

/// Pairs without a duplicate key.
#[derive(Drop)]
pub(crate) struct DistinctPairs {
    inserted: Document,
}

impl PairList for DistinctPairs {
    ghost keys = { Reject };

    ghost list_has_pairs = { λ pairs_added list. (document_view list.inserted ≡ deduplicated pairs_added)
        × HaveKeys (reversed_keys pairs_added []) (contents list.inserted) };

    fn new(alloc: Global) -> DistinctPairs {
        DistinctPairs {
            inserted: Document::new(alloc),
        }
    }

    fn read_key<'b>(&self, bytes: &'b [u8]) -> Result<(&'b str, &'b [u8]), Fault> {
        let (name, rest) = read_name(bytes)?;
        if self.inserted.contains_key(name) {
            return Err(fault_at(FaultKind::DuplicateKey, bytes));
        }
        Ok((name, rest))
    }

    fn put_pair(&mut self, key: String, value: Bson) -> Result<(), AllocError> {
        match self.inserted.insert(key, value) {
            Ok(_) => Ok(()),
            Err(_) => Err(AllocError),
        }
    }

    fn into_document(self, _alloc: Global) -> Result<Document, AllocError> {
        Ok(self.inserted)
    }
}
