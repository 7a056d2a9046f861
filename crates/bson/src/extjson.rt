//! MongoDB Extended JSON v2.
//!
//! In reading order: `de` (the calls that read trees) over `read` (by the walk of `bson_tree`), `builder` (what is built as it walks) and
//! `scalars`; `ser` (the calls that write) over `write` (trees) and `text_writer` (texts, in either order of
//! keys), which has `without_allocation` for scalars whose text is made where it is written;
//! `text_reader` (values from texts) with `text_error`; `bson_writer` (values in memory, made as a
//! text is read).
mod bson_writer;
mod builder;
pub mod de;
mod read;
pub(crate) mod scalars;
mod ser;
mod text_error;
mod text_reader;
mod text_writer;
mod without_allocation;
mod write;

pub use bson_model::options::{KeyOrder, Options};
pub use bson_scalar::form::{Doubles, Form, Layout};
pub use bson_scalar::write_error::WriteError;
