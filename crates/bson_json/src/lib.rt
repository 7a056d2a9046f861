//! JSON by the grammar of RFC 8259: which bytes are which value, a production a line.
//!
//! In reading order: the relation (`specs/Grammar`), `text` (whether a text is JSON), `sequence` (where
//! the texts of a sequence end), `laws` (the tree that each reader of this repository reads of a text
//! is the one that the grammar gives it, and a sequence has the texts that are found in it).
#![tactic(auto)]

pub mod laws;
pub mod sequence;
pub mod text;
