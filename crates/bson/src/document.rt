//! Documents.
//!
//! `get` finds the value of a key, `insert` inserts and removes pairs, `entry` is the place of one key,
//! `by_index` is the pair at an index, and `iter` iterates over the pairs. `getters` has the typed getters.
mod by_index;
mod entry;
mod get;
mod getters;
mod insert;
mod iter;

use crate::bson::Bson;
use bson_store::SmallPairs;
pub use by_index::PlaceMut;
pub use entry::{Entry, OccupiedEntry, VacantEntry};
pub use getters::{ValueAccessError, ValueAccessResult};
pub use insert::Refused;
pub use iter::{IntoIter, Iter, Keys, Values};
use std::alloc::Global;

/// A document of BSON 1.1: a list of pairs of a key and a value, in the order in which the keys
/// were inserted. Its keys are distinct.
///
/// Two documents are equal if they have the same keys, in any order, and equal values under each.
///
/// A document of n pairs needs O(log n) comparisons of keys to find a key or to insert a new one,
/// whatever the keys are. With at most sixteen pairs it needs O(n).
/// The first key that does not ascend, among more than sixteen, makes an index. This needs O(n log n),
/// and the index stays until at most sixteen pairs are left.
/// `remove` needs O(log n) for each pair after the removed one. `==`, `Hash`, and the text of a
/// document whose keys don't ascend need O(n log n).
/// `remove`, `==` and `Hash` allocate no memory.
///
/// ```
/// let mut document = Document::new(alloc);
/// drop(document.insert(String::from_str(alloc, "b")?, Bson::Int32(1))?);
/// drop(document.insert(String::from_str(alloc, "a")?, Bson::Null)?);
/// println!(rt; "{document}")?; // { "b": 1, "a": null }
/// println!(rt; "{:?}", document.get_i32("b"))?; // Ok(1)
/// ```
#[derive(Drop)]
#[cycle(bson)]
pub struct Document {
    pub(crate) pairs: SmallPairs<Bson>,
}

impl Document {
    ghost use Rattle.std.specs.Prelude.{◌≡◌, []};
    ghost use Rattle.bson.specs.View.{contents};

    /// Makes a document without pairs. It will allocate its memory from `alloc`, and has allocated
    /// none yet.
    pub fn new(alloc: Global) -> Document
        ensures { contents result ≡ [] }
    {
        Document {
            pairs: SmallPairs::new(alloc),
        }
    }
}
