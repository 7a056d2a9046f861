//! The path of an error, extended by each array and object around it. The rest of each is skipped.
ghost use Rattle.std.specs.Prelude.{◌≡◌, ◌++◌, ◌∷◌, [], ◌||◌, is_some, IfOk, IfErr, OnOk, Ok, Result};
ghost use Rattle.bson_scalar.specs.Faults.{IsReadError, Fault};
ghost use Rattle.bson_scalar.specs.Reading.{wrapper_read_in};
ghost use Rattle.bson_scalar.specs.Scalar.{Scalar as Meaning};
ghost use Rattle.bson_scalar.specs.View.{scalar_view};
ghost use Rattle.serde_json.specs.View.{view};
ghost use Rattle.bson_text.specs.declared.traversal_error.TraversalError.{TraversalError as Failure};
ghost use Rattle.bson_scalar.specs.Table.{wrapper_of};
ghost use Rattle.bson_tree.specs.Place.{path_of, segment_of, key as key_segment};
ghost use Rattle.bson_text.specs.ErrorPaths.{IsElementError, IsMemberError, IsScalarFault, SkipsItems, SkipsMembers, IsErrorAtKey, IsWrongShapeAtValue};
ghost use Rattle.bson_text.specs.ErrorPaths.{IfErrorIsFault, IsWrongShape, IsNotFault, IsWrongShapeAtKey, IsErrorInScope};
ghost use Rattle.bson_text.specs.TraversalErrors.{error_of_reading, IsErrorAfterGivingUp, IsSameKindOrOutOfMemory, IsReadingError};
ghost use Rattle.bson_text.specs.declared.traversal_error.TraversalError.TheVariants.{Syntax};

use crate::level::Level;
use crate::traversal_error::TraversalError;
use bson_scalar::error;
use bson_scalar::read::read_wrapper;
use bson_scalar::scalar::Scalar;
use bson_scalar::wrapper::{Wrapper, wrapper_named};
use bson_tree::place::{Place, Reason, Segment};
use bson_tree::shape::other_keys_reason;
use json::{Invalid, Reader};
use serde_json::Value;
use std::alloc::{AllocError, Global};

// Returns the fault at the place, or `OutOfMemory` if an allocation fails.
fn error_at(alloc: Global, place: Place) -> TraversalError
    ensures located { IfErrorIsFault result (λ found_place. found_place ≡ place) }
    ensures kind { IsSameKindOrOutOfMemory Syntax result }
{
    match Box::new(alloc, place) {
        Ok(place) => TraversalError::Fault(place),
        Err(_) => TraversalError::OutOfMemory,
    }
}

// Returns the fault that the value itself has the wrong shape.
fn wrong_shape_here(alloc: Global, message: &'static str) -> TraversalError
    ensures located { IfErrorIsFault result IsWrongShape }
    ensures kind { IsSameKindOrOutOfMemory Syntax result }
{
    error_at(
        alloc,
        Place {
            reason: Reason::WrongShape(message),
            segments: Vec::new(alloc),
        },
    )
}

// Adds a segment to the path, for the array or object around the value.
fn with_segment(mut place: Box<Place>, segment: Segment) -> Result<Box<Place>, AllocError>
    ensures path { IfOk result
        (λ extended_place. path_of extended_place.value ≡ path_of place.value ++ segment_of segment ∷ []) }
    ensures reason { IfOk result (λ extended_place. extended_place.value.reason ≡ place.value.reason) }
{
    place.segments.push(segment)?;
    Ok(place)
}

// Returns the fault of a scalar, with an empty path.
pub(crate) fn scalar_error(alloc: Global, cause: error::Error) -> TraversalError
    ensures located { (read_result : Result Meaning Fault) → IsReadError cause read_result
        → IsScalarFault read_result result }
    ensures kind { IsSameKindOrOutOfMemory (error_of_reading cause) result }
{
    match cause {
        error::Error::OutOfMemory => TraversalError::OutOfMemory,
        error::Error::DeserializationError { message } => wrong_shape_here(alloc, message),
        error::Error::InvalidObjectId(cause) => error_at(
            alloc,
            Place {
                reason: Reason::BadObjectId(cause),
                segments: Vec::new(alloc),
            },
        ),
    }
}

// Skips the elements of an array and its end.
pub(crate) fn skip_items(reader: &mut Reader<'_>, depth: usize) -> Result<(), Invalid>
    ensures { OnOk result (SkipsItems depth reader.old reader.new) }
{
    'items: while !reader.take_end_array() {
        reader.skip_value(depth)?;
    }
    Ok(())
}

// Skips the members of an object and its end, and returns the wrapper of their earliest wrapper key.
pub(crate) fn skip_members(
    reader: &mut Reader<'_>,
    depth: usize,
) -> Result<Option<Wrapper>, Invalid>
    ensures { IfOk result (λ first_wrapper. SkipsMembers depth reader.old (is_some first_wrapper) reader.new) }
{
    let mut first_wrapper: Option<Wrapper> = None;
    'members: while let Some(key) = reader.next_key()? {
        first_wrapper = earliest_wrapper(first_wrapper, key);
        reader.skip_value(depth)?;
    }
    Ok(first_wrapper)
}

fn earliest_wrapper(first_wrapper: Option<Wrapper>, key: &str) -> Option<Wrapper>
    ensures { is_some result ≡ (is_some first_wrapper || is_some (wrapper_of key.now)) }
{
    match first_wrapper {
        Some(wrapper) => Some(wrapper),
        None => wrapper_named(key),
    }
}

// Extends the path of an element's fault by its index in the array.
pub(crate) fn error_in_element(
    reader: &mut Reader<'_>,
    depth: usize,
    item_index: usize,
    failure: TraversalError,
) -> TraversalError
    ensures located { IsElementError depth item_index failure reader.old result reader.new }
    ensures kind { IsSameKindOrOutOfMemory failure result }
{
    match failure {
        TraversalError::Fault(place) => {
            let Ok(()) = skip_items(reader, depth) else {
                return TraversalError::Syntax;
            };
            match with_segment(place, Segment::Element(item_index)) {
                Ok(place) => TraversalError::Fault(place),
                Err(_) => TraversalError::OutOfMemory,
            }
        }
        TraversalError::OutOfMemory => TraversalError::OutOfMemory,
        TraversalError::DuplicateKey => TraversalError::DuplicateKey,
        TraversalError::GaveUp => TraversalError::GaveUp,
        TraversalError::Syntax => TraversalError::Syntax,
    }
}

// Extends the path of a value's fault by its key in the object. If a document has a wrapper key
// after it, that is the fault.
pub(crate) fn error_in_member(
    level: Level,
    reader: &mut Reader<'_>,
    is_document: bool,
    key: &str,
    failure: TraversalError,
) -> TraversalError
    ensures located { IsMemberError level.depth is_document key.now failure reader.old result reader.new }
    ensures kind { IsSameKindOrOutOfMemory failure result }
{
    match failure {
        TraversalError::Fault(place) => {
            let Ok(later_wrapper) = skip_members(reader, level.depth) else {
                return TraversalError::Syntax;
            };
            if is_document {
                if let Some(wrapper) = later_wrapper {
                    return wrong_shape_here(level.alloc, other_keys_reason(wrapper));
                }
            }
            match place_at_key(level.alloc, key, place) {
                Ok(place) => TraversalError::Fault(place),
                Err(_) => TraversalError::OutOfMemory,
            }
        }
        TraversalError::OutOfMemory => TraversalError::OutOfMemory,
        TraversalError::DuplicateKey => TraversalError::DuplicateKey,
        TraversalError::GaveUp => TraversalError::GaveUp,
        TraversalError::Syntax => TraversalError::Syntax,
    }
}

fn place_at_key(alloc: Global, key: &str, place: Box<Place>) -> Result<Box<Place>, AllocError>
    ensures path { IfOk result
        (λ extended_place. path_of extended_place.value ≡ path_of place.value ++ key_segment key.now ∷ []) }
    ensures reason { IfOk result (λ extended_place. extended_place.value.reason ≡ place.value.reason) }
{
    with_segment(place, Segment::Key(String::from_str(alloc, key)?))
}

// Extends the path of a scalar's fault by the only key of its wrapper.
pub(crate) fn error_at_key(alloc: Global, key: &str, failure: TraversalError) -> TraversalError
    ensures located { IsErrorAtKey key.now failure result }
    ensures kind { IsSameKindOrOutOfMemory failure result }
{
    match failure {
        TraversalError::Fault(place) => match place_at_key(alloc, key, place) {
            Ok(place) => TraversalError::Fault(place),
            Err(_) => TraversalError::OutOfMemory,
        },
        TraversalError::OutOfMemory => TraversalError::OutOfMemory,
        TraversalError::DuplicateKey => TraversalError::DuplicateKey,
        TraversalError::GaveUp => TraversalError::GaveUp,
        TraversalError::Syntax => TraversalError::Syntax,
    }
}

// Returns the fault that the object has the wrong shape, and skips its other members.
pub(crate) fn wrong_shape_at_key(
    level: Level,
    reader: &mut Reader<'_>,
    message: &'static str,
) -> TraversalError
    ensures located { IsWrongShapeAtKey level.depth reader.old result reader.new }
    ensures kind { IsSameKindOrOutOfMemory Syntax result }
{
    let Ok(_) = skip_members(reader, level.depth) else {
        return TraversalError::Syntax;
    };
    wrong_shape_here(level.alloc, message)
}

// Returns the fault that the object has the wrong shape, and skips a value and the other members.
pub(crate) fn wrong_shape_at_value(
    level: Level,
    reader: &mut Reader<'_>,
    message: &'static str,
) -> TraversalError
    ensures located { IsWrongShapeAtValue level.depth reader.old result reader.new }
    ensures kind { IsSameKindOrOutOfMemory Syntax result }
{
    let Ok(()) = reader.skip_value(level.depth) else {
        return TraversalError::Syntax;
    };
    wrong_shape_at_key(level, reader, message)
}

// Extends the path of a fault in a scope by `$scope`.
pub(crate) fn error_in_scope(
    level: Level,
    reader: &mut Reader<'_>,
    failure: TraversalError,
) -> TraversalError
    ensures located { IsErrorInScope level.depth failure reader.old result reader.new }
    ensures kind { IsSameKindOrOutOfMemory failure result }
{
    match failure {
        TraversalError::Fault(place) => match reader.next_key() {
            Ok(None) => match place_at_key(level.alloc, "$scope", place) {
                Ok(place) => TraversalError::Fault(place),
                Err(_) => TraversalError::OutOfMemory,
            },
            Ok(Some(_)) => wrong_shape_at_value(level, reader, other_keys_reason(Wrapper::Code)),
            Err(_) => TraversalError::Syntax,
        },
        TraversalError::OutOfMemory => TraversalError::OutOfMemory,
        TraversalError::DuplicateKey => TraversalError::DuplicateKey,
        TraversalError::GaveUp => TraversalError::GaveUp,
        TraversalError::Syntax => TraversalError::Syntax,
    }
}

// If code was read ahead, a fault can be that code's, so the traversal gives up.
pub(crate) fn give_up(failure: TraversalError) -> TraversalError
    ensures located { IsNotFault result }
    ensures kind { IsErrorAfterGivingUp failure result }
{
    match failure {
        TraversalError::Fault(_) => TraversalError::GaveUp,
        TraversalError::OutOfMemory => TraversalError::OutOfMemory,
        TraversalError::DuplicateKey => TraversalError::DuplicateKey,
        TraversalError::GaveUp => TraversalError::GaveUp,
        TraversalError::Syntax => TraversalError::GaveUp,
    }
}

// Reads the scalar of a wrapper with this key and no other.
pub(crate) fn read_scalar(
    level: Level,
    wrapper: Wrapper,
    content: Value,
    key: &str,
) -> Result<Scalar, TraversalError>
    ensures ok { IfOk result
        (λ scalar_value. wrapper_read_in level.doubles wrapper (view content) ≡ Ok (scalar_view scalar_value)) }
    ensures located { IfErr result (λ reported_error. (scalar_failure : Failure)
        × IsScalarFault (wrapper_read_in level.doubles wrapper (view content)) scalar_failure
        × IsErrorAtKey key.now scalar_failure reported_error) }
    ensures kind { IfErr result
        (λ reported_error. IsReadingError (wrapper_read_in level.doubles wrapper (view content)) reported_error) }
{
    match read_wrapper(level.alloc, level.doubles, wrapper, content) {
        Ok(value) => Ok(value),
        Err(cause) => Err(error_at_key(level.alloc, key, scalar_error(level.alloc, cause))),
    }
}
