//! Finite doubles as decimal strings. A double, given as its 64 bits (IEEE 754-2008 binary64), is
//! written as its shortest decimal, and any decimal string is read as the nearest double. Each
//! finite double has exactly one string, which is a JSON number (RFC 8259) with a point or an
//! exponent (`12.5`, `1.0`, `1e16`, `-0.0`), and which is read as the same bits. No call
//! allocates memory.
//!
//! In reading order: `parse` reads a string, `format` writes one, `shortest` finds the digits,
//! `compare` and `limbs` compare a decimal and a double exactly, and `laws` has the laws.
#![tactic(auto)]

mod compare;
mod format;
pub mod laws;
mod limbs;
mod nearest;
mod parse;
mod shortest;
#[cfg(test)]
mod tests;

pub use format::double_text;
pub use parse::{DoubleError, double_of_text, is_finite};
