//! Writes the value of a text of MongoDB Extended JSON v2 from its tokens, with no value in memory.
//!
//! In reading order: `filter` (the text of the same value in a form, its keys in their order or in
//! ascending order, and the text that shows it), `traversal` (the traversal of the tokens), `level`
//! (what is the same for all values of a level), `lookahead` (code that follows its scope), `wrapper_parts`
//! (parts of a wrapper), `error_paths` (the place of a fault), `traversal_error` (why the traversal stops), `value_writer`
//! (a writer of values), `discard_writer` (a writer that
//! writes nothing), `first_fault` (the first fault of a text), `text_writer` (a writer of a text), `distinct_keys` (whether a key is duplicated),
//! `sorted_writer` (a text whose keys are sorted), `display_writer` (a text that shows values), `member_spans`
//! (the texts of an object's members, in order).
#![tactic(auto)]

pub mod discard_writer;
pub mod display_writer;
pub mod distinct_keys;
mod error_paths;
pub mod filter;
pub mod first_fault;
mod level;
mod lookahead;
mod member_spans;
pub mod sorted_writer;
pub mod text_writer;
pub mod traversal;
pub mod traversal_error;
pub mod value_writer;
mod wrapper_parts;
