//! Parts of Extended JSON over the tokens of a text, without a tree of the whole.
//!
//! In reading order: `value_start`, `number` (a value of one token), `wrapper_content` (content of a
//! wrapper), `key_prefix` (the first bytes of a key). `find_duplicate` finds the first duplicate key, and `key_path`
//! has the segments to it. `normalize` writes the text with
//! each key once, by `normalizer` (what is written) and `member_order` (members in order). `laws` has
//! the laws of the definitions.
#![tactic(auto)]

pub mod find_duplicate;
mod key_path;
pub mod key_prefix;
pub mod laws;
mod member_order;
pub mod normalize;
mod normalizer;
pub mod number;
pub mod value_start;
pub mod wrapper_content;

/// How deep arrays and objects may nest in a JSON text.
pub const MAX_DEPTH: usize = 127;
