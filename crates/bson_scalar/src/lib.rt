//! The wrappers of MongoDB Extended JSON v2 that hold one scalar: each is read from its tree, and
//! each scalar is written in the canonical and the relaxed form. Null, booleans, numbers and
//! strings of JSON are read in the layer above, and so are arrays, documents and code with a scope,
//! which hold values.
//!
//! In reading order: `scalar` (a scalar value) and `scalar_ref` (the same by reference, with
//! equality, words for a hasher, texts and a copy), `form` (the two forms), `wrapper` (the table of
//! wrapper keys), `error` and `write_error`; `tree_parts` (a string, an object of one key or two),
//! `sink` (where a tree is written to: into memory, or onto a text) and `object_writer` (the same parts,
//! written); a module for the wrappers of each subject, `ints`, `doubles`, `decimals`, `texts`,
//! `regexes`, `ids`, `timestamps`, `dates`, `binaries`, `constants`; `read` and `write` over all of
//! them; `code` (the keys of code with its scope); `key_hash` (hashes of keys); `laws`.
#![tactic(auto)]

mod binaries;
pub mod code;
mod constants;
mod dates;
mod decimals;
pub mod doubles;
pub mod error;
pub mod form;
mod ids;
mod ints;
pub mod key_hash;
pub mod laws;
mod mongodb_layout;
mod object_writer;
pub mod read;
mod regexes;
pub mod scalar;
pub mod scalar_ref;
mod sink;
mod texts;
mod timestamps;
mod tree_parts;
pub mod wrapper;
pub mod write;
pub mod write_error;
