//! Why the traversal of the tokens of a text fails.
ghost use Rattle.std.specs.Prelude.{◌≡◌};
ghost use Rattle.bson_text.specs.TraversalErrors.{error_of_writing};

use bson_scalar::write_error::WriteError;
use bson_tree::place::Place;
use json::{Error, Invalid};
use std::alloc::AllocError;

/// Why a text was not written.
#[derive(Debug, Drop)]
pub enum TraversalError {
    /// An allocation failed.
    OutOfMemory,
    /// An object has two equal keys.
    DuplicateKey,
    /// The text has a part that is not written as it is read: an object that begins with `$scope`,
    /// a value that the writer does not write, or keys that need too much memory to be sorted.
    GaveUp,
    /// The text is not JSON of at most 127 levels, or a number is out of range.
    Syntax,
    /// The text does not mean a value. If the keys of each object ascend, the place is that of the
    /// first fault.
    Fault(Box<Place>),
}

impl From<AllocError> for TraversalError {
    ghost use Rattle.std.specs.Prelude.{◌≡◌};
    ghost use Rattle.bson_text.specs.declared.traversal_error.TraversalError.TheVariants.{OutOfMemory};

    ghost from_gives = { λ _ converted_error. converted_error ≡ OutOfMemory };

    fn from(_alloc_error: AllocError) -> TraversalError {
        TraversalError::OutOfMemory
    }
}

impl From<Invalid> for TraversalError {
    ghost use Rattle.std.specs.Prelude.{◌≡◌};
    ghost use Rattle.bson_text.specs.declared.traversal_error.TraversalError.TheVariants.{Syntax};

    ghost from_gives = { λ _ converted_error. converted_error ≡ Syntax };

    fn from(_invalid: Invalid) -> TraversalError {
        TraversalError::Syntax
    }
}

impl From<Error> for TraversalError {
    ghost use Rattle.std.specs.Prelude.{◌≡◌};
    ghost use Rattle.bson_text.specs.TraversalErrors.{error_of_json};

    ghost from_gives = { λ json_error converted_error. converted_error ≡ error_of_json json_error };

    fn from(error: Error) -> TraversalError {
        match error {
            Error::Invalid => TraversalError::Syntax,
            _ => TraversalError::OutOfMemory,
        }
    }
}

// Returns the error for an error of writing a scalar.
pub(crate) fn write_error(error: WriteError) -> TraversalError
    ensures { result ≡ error_of_writing error }
{
    match error {
        WriteError::OutOfMemory => TraversalError::OutOfMemory,
        WriteError::FiniteDouble => TraversalError::GaveUp,
    }
}
