//! The level of a text at which values are read.

use bson_scalar::form::Doubles;
use std::alloc::Global;

/// What is the same for the values of one level: the mode of doubles, and how many levels the values
/// have at most.
#[derive(Clone, Copy, Drop)]
pub(crate) struct Level {
    pub(crate) alloc: Global,
    pub(crate) doubles: Doubles,
    pub(crate) depth: usize,
}
