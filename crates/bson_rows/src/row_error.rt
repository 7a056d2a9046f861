//! Why a row has no result, and the errors of calls.
use bson::document::Refused;
use bson::extjson::WriteError;
use bson::store::Stopped;
use bson::{binary, datetime, decimal128, extjson, oid, uuid};
use bson_codec::stream::{ReaderError, WriterError};
use bson_codec::{de, ser};
use bson_double::DoubleError;
use std::alloc::{AllocError, AllocFailed};
use std::fmt;

/// The error that is written instead of a result.
#[derive(Clone, Copy)]
pub enum RowError {
    /// The row names no call, or has invalid arguments.
    InvalidRow,
    /// An allocation failed for the arguments, or for the output.
    NoMemoryForRow,
    /// The call itself returned out of memory.
    OutOfMemory,
}

impl RowError {
    /// Returns the line that is written instead of a result.
    pub(crate) fn line(self) -> &'static str {
        match self {
            RowError::InvalidRow => "this row is not understood",
            RowError::NoMemoryForRow => "no memory for the row",
            RowError::OutOfMemory => "out of memory",
        }
    }
}

impl From<AllocError> for RowError {
    fn from(_error: AllocError) -> RowError {
        RowError::NoMemoryForRow
    }
}

impl<T: Drop> From<AllocFailed<T>> for RowError {
    fn from(_error: AllocFailed<T>) -> RowError {
        RowError::NoMemoryForRow
    }
}

/// Whether a row's call was made, and its result written.
pub type RowResult = Result<(), RowError>;

/// An error that a call can return.
pub trait CallError: fmt::Display + fmt::Debug + Drop {
    /// Whether it is out of memory, for which all rows have one line.
    fn is_out_of_memory(&self) -> bool {
        false
    }
}

impl CallError for decimal128::ParseError {}

impl CallError for DoubleError {}

impl CallError for uuid::Error {}

impl CallError for bson::document::ValueAccessError {}

impl CallError for AllocError {
    fn is_out_of_memory(&self) -> bool {
        true
    }
}

impl CallError for Refused {
    fn is_out_of_memory(&self) -> bool {
        true
    }
}

impl CallError for Stopped {
    fn is_out_of_memory(&self) -> bool {
        true
    }
}

impl CallError for oid::Error {
    fn is_out_of_memory(&self) -> bool {
        matches!(self, oid::Error::OutOfMemory)
    }
}

impl CallError for datetime::Error {
    fn is_out_of_memory(&self) -> bool {
        matches!(self, datetime::Error::OutOfMemory)
    }
}

impl CallError for binary::Error {
    fn is_out_of_memory(&self) -> bool {
        matches!(self, binary::Error::OutOfMemory)
    }
}

impl CallError for extjson::de::Error {
    fn is_out_of_memory(&self) -> bool {
        matches!(self, extjson::de::Error::OutOfMemory)
    }
}

impl CallError for WriteError {
    fn is_out_of_memory(&self) -> bool {
        matches!(self, WriteError::OutOfMemory)
    }
}

impl CallError for de::Error {
    fn is_out_of_memory(&self) -> bool {
        matches!(self, de::Error::OutOfMemory)
    }
}

impl CallError for ser::Error {
    fn is_out_of_memory(&self) -> bool {
        matches!(self, ser::Error::OutOfMemory)
    }
}

impl CallError for ReaderError {
    fn is_out_of_memory(&self) -> bool {
        matches!(self, ReaderError::OutOfMemory)
    }
}

impl CallError for WriterError {
    fn is_out_of_memory(&self) -> bool {
        matches!(self, WriterError::NoBytes(ser::Error::OutOfMemory))
    }
}
