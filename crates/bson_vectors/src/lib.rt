//! Unit tests of the library for what the rows can't check: documents and stores over several calls,
//! references into them, iterators, hashing by a real hasher, and the state after a failed allocation.
//! The rows are in tests/rows, and the runs over readers and writers that fail in tests/streams.
//!
//! A test whose name begins with `refused_` is also run once for each of its allocations, which then
//! fails. It must pass, or return out of memory by `?`. Its assertions about a call must hold then.
#![tactic(auto)]

#[cfg(test)]
mod colliding_keys;
#[cfg(test)]
mod documents;
#[cfg(test)]
mod fixtures;
#[cfg(test)]
mod in_place_changes;
#[cfg(test)]
mod stores;
#[cfg(test)]
mod values;
