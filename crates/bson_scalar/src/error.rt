//! Why a tree of Extended JSON was not read: the error of `extjson::de`.
ghost use Rattle.std.specs.Prelude.{◌≡◌};
ghost use Rattle.bson_scalar.specs.declared.error.Error.TheVariants as read_error;

use bson_types::oid;
use std::alloc::{AllocError, AllocFailed};

/// Why a tree of Extended JSON was not read.
///
/// ```
/// let tree = Value::from_slice(alloc, br#"{"$oid": "53e3"}"#)?;
/// if let Err(error) = Bson::try_from_value(alloc, tree) {
///     println!(rt; "{error}")?; // an object id has 24 digits, but "53e3" has 4
/// }
/// ```
#[derive(Debug, Drop, thiserror::Error)]
pub enum Error {
    /// The text of an object id is wrong, under `$oid` or inside a `$dbPointer` that is right in
    /// all else. The fault is never out of memory.
    #[error("{0}")]
    InvalidObjectId(oid::Error),

    /// The tree has no meaning for another reason: an object with a wrapper key has not exactly
    /// that wrapper's shape, or a number is no i64.
    #[error("{message}")]
    DeserializationError {
        /// What was expected there.
        message: &'static str,
    },

    /// A request for memory was refused.
    #[error("out of memory")]
    OutOfMemory,
}

/// A value, or why a tree was not read.
pub type Result<T, E = Error> = std::result::Result<T, E>;

impl From<AllocError> for Error {
    ghost from_gives = { λ _ error_value. error_value ≡ read_error.OutOfMemory };

    fn from(_refused: AllocError) -> Error {
        Error::OutOfMemory
    }
}

impl<T: Drop> From<AllocFailed<T>> for Error {
    ghost from_gives = { λ _ error_value. error_value ≡ read_error.OutOfMemory };

    fn from(_refused: AllocFailed<T>) -> Error {
        Error::OutOfMemory
    }
}
