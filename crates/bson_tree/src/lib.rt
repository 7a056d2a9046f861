//! How a tree of MongoDB Extended JSON v2 is read: what is built of it as it is read, or its first
//! fault, with the keys and the places in arrays that lead to it.
//!
//! Reading order: `shape` (the message for a wrapper of the wrong shape), `place` (a fault and the
//! path to it), `builder` (what is built), `walk` (how a tree is read), `laws` (each tree that
//! means nothing has one fault, and one path to it).
#![tactic(auto)]

pub mod builder;
pub mod laws;
pub mod place;
pub mod shape;
pub mod walk;
