//! Why a document has no bytes.
ghost use Rattle.std.specs.Prelude.{◌≡◌};
ghost use Rattle.bson_bytes.specs.declared.error.Error.TheVariants as errors;

use std::alloc::{AllocError, AllocFailed};

/// Why a document has no bytes.
///
/// ```
/// let mut document = Document::new(alloc);
/// drop(document.insert(String::from_str(alloc, "a\0b")?, Bson::Null)?);
/// if let Err(error) = to_vec(alloc, &document) {
///     println!(rt; "{error}")?; // a key has a 0 byte in it
/// }
/// ```
#[derive(Clone, Copy, Debug, Drop, PartialEq, Eq, thiserror::Error)]
pub enum Error {
    /// A key has a 0 byte in it, which would end it.
    #[error("a key has a 0 byte in it")]
    Key,
    /// The pattern or the options of a regular expression have a 0 byte in them.
    #[error("a regular expression has a 0 byte in it")]
    Regex,
    /// A text, a binary, a document, an array, or code with its scope has 2^31 bytes or more.
    #[error("a part is too long for BSON")]
    Size,
    /// An allocation failed.
    #[error("out of memory")]
    OutOfMemory,
}

impl From<AllocError> for Error {
    ghost from_gives = { λ _ error. error ≡ errors.OutOfMemory };

    fn from(_alloc_error: AllocError) -> Error {
        Error::OutOfMemory
    }
}

impl<T: Drop> From<AllocFailed<T>> for Error {
    ghost from_gives = { λ _ error. error ≡ errors.OutOfMemory };

    fn from(_alloc_failed: AllocFailed<T>) -> Error {
        Error::OutOfMemory
    }
}
