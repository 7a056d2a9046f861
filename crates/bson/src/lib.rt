//! The document model of BSON 1.1 and MongoDB Extended JSON v2.
//!
//! In reading order: `bson` (a value) and `document` (pairs over a store); `conversions`,
//! `accessors` and `kinds` (values from what they hold, and back), `element_type`; `extjson`
//! (readers and writers of trees and texts). The recursions over values have a module each, `equality`,
//! `hash`, `clone`, `display`, `debug`, `pretty`, and end in one arm for all scalars, of `scalar`.
//! `store` names the stores of `bson_store`.
#![tactic(auto)]

mod accessors;
mod bson;
mod clone;
mod conversions;
mod debug;
mod display;
pub mod document;
mod element_type;
mod equality;
pub mod extjson;
mod hash;
mod kinds;
mod pretty;
mod scalar;
pub mod store;

pub use bson::{Array, Bson, JavaScriptCodeWithScope};
pub use bson_types::binary::Binary;
pub use bson_types::datetime::DateTime;
pub use bson_types::db_pointer::DbPointer;
pub use bson_types::decimal128::Decimal128;
pub use bson_types::oid::ObjectId;
pub use bson_types::regex::Regex;
pub use bson_types::timestamp::Timestamp;
pub use bson_types::uuid_value::Uuid;
pub use bson_types::{binary, datetime, decimal128, oid, spec, uuid_value as uuid};
pub use document::Document;
