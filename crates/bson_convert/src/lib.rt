//! The way of one text: MongoDB Extended JSON v2 is read as a value, and written in the form that is
//! asked for, from bytes to bytes and from a reader to a writer.
//!
//! In reading order: `mode` (what is asked), `error` (why a conversion failed, and where) with
//! `encode_error` (why a value has no BSON bytes, which the crate above writes) and `fault` (the kinds of
//! errors that a run reports), `convert` (bytes to bytes) over `conversion_attempt` (a text that is written
//! as another is read), `check` (texts that are only checked), `canonical` (texts that are canonical), `stream` (all bytes of a reader and
//! to a writer) and `run` (the whole way from a reader to a writer). What the programs have in common
//! is in `program`. The laws of the definitions are in `laws`.
#![tactic(auto)]

pub mod canonical;
pub mod check;
pub mod conversion_attempt;
pub mod convert;
pub mod encode_error;
pub mod error;
pub mod fault;
pub mod laws;
pub mod mode;
pub mod program;
pub mod run;
pub mod stream;
