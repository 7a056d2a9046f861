//! The scalar types of BSON 1.1, and what their bytes and strings mean: the tags of elements and the
//! subtypes of binaries, object ids, UUIDs in four byte orders, binaries and the vectors that they
//! contain, timestamps, regular expressions and pointers. Dates and decimals have crates of their
//! own, and are named here too.
//!
//! In reading order: `spec` (tags and subtypes), `oid`, `uuid_value` (the library's `uuid`),
//! `binary` (base64, UUIDs in binaries), `vector` and `packed_bits` (vectors and their bytes),
//! `timestamp`, `regex`, `db_pointer`.
#![tactic(auto)]

pub mod binary;
pub mod db_pointer;
pub mod oid;
mod packed_bits;
pub mod regex;
pub mod spec;
pub mod timestamp;
pub mod uuid_value;
mod vector;

pub use bson_datetime as datetime;
pub use bson_decimal as decimal128;
