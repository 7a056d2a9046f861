//! Why a value was not written.
ghost use Rattle.std.specs.Prelude.{◌≡◌};
ghost use Rattle.bson_scalar.specs.declared.write_error.WriteError.TheVariants as write_error;

use std::alloc::{AllocError, AllocFailed};

/// Why a value was not written as Extended JSON.
///
/// ```
/// let half = Bson::Double(0x3fe0_0000_0000_0000);
/// if let Err(error) = half.to_canonical_text(alloc) {
///     println!(rt; "{error}")?; // a finite double has no text
/// }
/// ```
#[derive(Clone, Copy, Debug, Drop, PartialEq, Eq, thiserror::Error)]
pub enum WriteError {
    /// A double in the value is finite and no zero, and so has no text here.
    #[error("a finite double has no text")]
    FiniteDouble,
    /// A request for memory was refused.
    #[error("out of memory")]
    OutOfMemory,
}

impl From<AllocError> for WriteError {
    ghost from_gives = { λ _ error_value. error_value ≡ write_error.OutOfMemory };

    fn from(_refused: AllocError) -> WriteError {
        WriteError::OutOfMemory
    }
}

impl<T: Drop> From<AllocFailed<T>> for WriteError {
    ghost from_gives = { λ _ error_value. error_value ≡ write_error.OutOfMemory };

    fn from(_refused: AllocFailed<T>) -> WriteError {
        WriteError::OutOfMemory
    }
}
