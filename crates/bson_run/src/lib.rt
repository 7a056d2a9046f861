//! Conversions in addition to those of `bson_convert`: to BSON bytes, over several lines, and of many
//! texts with one per line. Programs and libraries for other languages use this crate.
//!
//! In reading order: `encode` (bytes to the bytes of their document), `indent` (a text over several lines) and `indented` (bytes to bytes
//! over several lines), `preprocessed` (what is checked or rewritten before a text is read),
//! `accepted` (bytes that are freed before their output is written). Over lines:
//! `task` (what is requested), `line_run_state` (the line that is read, and the output of those before it) and
//! `lines` (the whole run). Messages for a rejected text: `syntax_error` (the offset at which bytes are not JSON)
//! with `rule` (which of its rules they break, which `broken_rule` finds), and
//! `explain` with `quoted_value` (the value at a path), `shorten` (a message, cut and escaped), `position` (lines and
//! columns) and `diagnostic` (a message on a line, or a JSON object).
#![tactic(auto)]

pub mod accepted;
mod broken_rule;
pub mod diagnostic;
pub mod encode;
pub mod explain;
pub mod indent;
pub mod indented;
pub mod laws;
mod line_run_state;
pub mod lines;
pub mod position;
pub mod preprocessed;
mod quoted_value;
pub mod rule;
mod shorten;
pub mod syntax_error;
pub mod task;
