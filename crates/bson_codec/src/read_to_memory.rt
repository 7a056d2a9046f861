//! Documents from bytes, by the one loop over elements.
ghost use Rattle.std.specs.Prelude.{◌≡◌};
ghost use Rattle.bson.specs.View.{document_view};
ghost use Rattle.bson_bytes.specs.Reading.{read_document_in, no_earlier_keys, reads_bytes_in, insert_pairs_read};
ghost use Rattle.bson_model.specs.Value.{no_pairs};
ghost use Rattle.bson_bytes.specs.Source.{ReadsTo, ReadsAllTo};
ghost use Rattle.bson_bytes.specs.declared.stop.Stop.TheVariants as stops;

use crate::pair_list::{AnyPairs, DistinctPairs};
use crate::value_sink::Values;
use bson::Document;
use bson_bytes::source;
use bson_bytes::stop::Stop;
use bson_model::options::DuplicateKeys;
use std::alloc::Global;

/// Reads all of the bytes as a document.
pub(crate) fn read_document(
    alloc: Global,
    bytes: &[u8],
    depth: usize,
    keys: DuplicateKeys,
) -> Result<Document, Stop>
    ensures { ReadsAllTo (λ stop. stop ≡ stops.OutOfMemory) (λ pairs document. document_view document ≡ pairs) result
        (reads_bytes_in keys depth bytes.now) }
{
    match keys {
        DuplicateKeys::LastWins => {
            source::read_document(bytes, depth, &mut Values::<AnyPairs>::new(alloc))
        }
        DuplicateKeys::Reject => {
            source::read_document(bytes, depth, &mut Values::<DistinctPairs>::new(alloc))
        }
    }
}

/// Reads a document at the front of the bytes, and returns the bytes after it.
pub(crate) fn read_first_document(
    alloc: Global,
    bytes: &[u8],
    depth: usize,
    keys: DuplicateKeys,
) -> Result<(Document, &[u8]), Stop>
    ensures { ReadsTo (λ stop. stop ≡ stops.OutOfMemory) (λ returned. returned.1.now)
        (λ pairs returned. document_view returned.0 ≡ pairs) result
        (insert_pairs_read no_pairs (read_document_in keys depth (no_earlier_keys keys) bytes.now)) }
{
    match keys {
        DuplicateKeys::LastWins => {
            source::read_first_document(bytes, depth, &mut Values::<AnyPairs>::new(alloc))
        }
        DuplicateKeys::Reject => {
            source::read_first_document(bytes, depth, &mut Values::<DistinctPairs>::new(alloc))
        }
    }
}
