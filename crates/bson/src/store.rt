//! The stores of a document's pairs, and commands to any of them.
pub use bson_store::replay::{Command, Stopped, replay};
pub use bson_store::{IndexedPairs, Pair, PairStore, SmallPairs};
