//! BSON bytes (BSON 1.1, bsonspec.org) and documents: `de` reads bytes, and `ser` writes them.
//! `pack` writes the bytes of a text's document without a value. `bson_bytes` says which bytes are
//! which document, and which are written.
#![tactic(auto)]

pub mod de;
pub mod diagnostic;
mod document_line;
pub mod documents;
mod element_writer;
pub mod laws;
pub mod pack;
mod pair_list;
mod put_scalars;
mod put_values;
mod read_to_memory;
pub mod run_end;
pub mod ser;
pub mod stream;
pub mod text;
mod value_sink;
mod writer_sink;

pub use de::{
    ReadOptions, from_bytes, from_slice, front, front_of_bytes, is_canonical, is_document,
};
pub use documents::run_documents;
pub use ser::to_vec;
pub use stream::{from_reader, to_writer};
pub use text::decode_text;
