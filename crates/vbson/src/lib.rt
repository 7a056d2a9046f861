//! Extended JSON and the small values of BSON for callers in C, and in every language that calls C.
//! `languages/c/vbson.h` is the header, with what a caller owes.
//!
//! A call reads its arguments only until it returns, keeps nothing between calls, requires nothing
//! beyond its types, and returns a number of `status`, which is 0 on success. On any other status an
//! out parameter is unchanged, unless the call says more. In reading order: `status`, `options`,
//! `text` (a text that the caller owns and frees) with `convert` (one text to another), `canonical`
//! (whether a text is canonical), `explain` (why a text is rejected, and where) with `path` (the bytes
//! of a path) and `lines` (a block of lines), `comparison` (comparing and hashing the values of texts),
//! `documents` (whether bytes are a BSON document) with `document_error` (why not), `decode` (their
//! text) with `streaming` (decoding without a document in memory), `encode` (the bytes of a text) and
//! `dump` (a block of documents), `raw` (values of documents that remain bytes), `builder` (documents
//! in the caller's memory) with `append` (their elements), and `buffer` (a buffer of the caller's)
//! with `scalars` (decimals, object ids, date-times).
#![tactic(auto)]

mod append;
mod buffer;
mod builder;
mod canonical;
mod comparison;
mod convert;
mod decode;
mod document_error;
mod documents;
mod dump;
mod encode;
mod explain;
mod lines;
mod options;
mod path;
mod raw;
mod reading;
mod scalars;
mod status;
mod streaming;
mod text;
mod version;
