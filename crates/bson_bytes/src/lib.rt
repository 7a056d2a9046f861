//! BSON bytes (BSON 1.1, bsonspec.org), without `Bson`. Read the definitions in this order:
//! `Grammar`, `Writing`; then `Fault` and `Reading`, for the order of faults. `read_parts` reads what an
//! element is made of, and `write_parts` writes it.
//!
//! `source` reads each element once, and writes its value to a `ValueSink` (`sink`). `nothing_sink` keeps
//! nothing. `raw_document` has documents that remain bytes.
#![tactic(auto)]

pub mod error;
pub mod fault;
pub mod find_key;
pub mod fixed_scalar;
pub mod laws;
pub mod nothing_sink;
pub mod raw_document;
pub mod raw_element;
pub mod raw_iter;
pub mod raw_read;
pub mod raw_value;
pub mod read_parts;
mod read_scalars;
pub mod sink;
mod skip_value;
pub mod source;
pub mod stop;
pub mod typed_getters;
pub mod write_parts;

pub use raw_document::{RawArray, RawDocument};
pub use raw_iter::{RawArrayIter, RawIter};
pub use raw_value::{
    RawBinaryRef, RawBsonRef, RawDbPointerRef, RawJavaScriptCodeWithScopeRef, RawRegexRef,
};
pub use typed_getters::{ValueAccessError, ValueAccessResult};
