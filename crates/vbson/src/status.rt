//! What a call returns. A number never changes its meaning.

/// The call did its work.
pub const OK: u32 = 0;

/// The mode is not a mode, or the call does not accept the options.
pub const INVALID_ARGUMENT: u32 = 1;

/// The bytes are not one JSON text.
pub const NOT_JSON: u32 = 2;

/// The first error is an invalid object id.
pub const BAD_OBJECT_ID: u32 = 3;

/// The JSON text is not valid MongoDB Extended JSON v2.
pub const NOT_EXTENDED_JSON: u32 = 4;

/// An allocation failed.
pub const OUT_OF_MEMORY: u32 = 5;

/// The string does not have the format that the call parses.
pub const INVALID_STRING: u32 = 6;

/// The value has no output of the requested format.
pub const NOT_REPRESENTABLE: u32 = 7;

/// The output is longer than the buffer.
pub const BUFFER_TOO_SMALL: u32 = 8;

/// The two values are not the same.
pub const DIFFERENT: u32 = 9;

/// The bytes are not a BSON document, or the value of the input is not a document.
pub const NOT_A_DOCUMENT: u32 = 10;

/// A key of the document contains a 0 byte, which would end it.
pub const ZERO_IN_KEY: u32 = 11;

/// The pattern or the options of a regular expression contain a 0 byte.
pub const ZERO_IN_REGEX: u32 = 12;

/// A part of the document is too long for BSON.
pub const TOO_LONG: u32 = 13;

/// The document does not contain the key, or no element is left.
pub const NOT_FOUND: u32 = 14;

/// The value has another type.
pub const UNEXPECTED_TYPE: u32 = 15;

/// The text is not the canonical text of a value.
pub const NOT_CANONICAL: u32 = 16;
