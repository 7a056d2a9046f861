//! Rewrites texts of MongoDB Extended JSON v1, the notation before v2, as the texts of v2 that they
//! denote, without a tree.
//!
//! In reading order: `date` (no seconds, or no colon in the offset), `hexadecimal` (a UUID with no
//! hyphens, a subtype of one digit), `object_start` (how an object begins), `v1_shapes`
//! (objects of a shape of v1), `upgraded` (from a text to the text in its place), `bare_words` (numbers that are
//! words outside of strings), `laws` (of the definitions).
#![tactic(auto)]

pub mod bare_words;
mod date;
mod hexadecimal;
pub mod laws;
mod object_start;
pub mod upgraded;
mod v1_shapes;
