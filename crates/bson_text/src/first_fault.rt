//! The first fault of a text and the path to it, with no tree of the text.
ghost use Rattle.std.specs.Prelude.{IfErr, IfOk, List, ℕ};
ghost use Rattle.serde_json.specs.Read.{read};
ghost use Rattle.bson_tokens.specs.Normalized.{IsNormalizedText};
ghost use Rattle.bson_model.specs.declared.options.KeyOrder.TheVariants.{Ascending};
ghost use Rattle.bson_tokens.specs.ReadOutcomes.{NothingReadIfInvalid};
ghost use Rattle.bson_tokens.specs.TextErrors.{IsTextPlaceIn};

use crate::discard_writer::check_text;
use crate::traversal_error::TraversalError;
use bson_model::options::KeyOrder;
use bson_scalar::form::Doubles;
use bson_tokens::normalize::normalize_text;
use bson_tree::place::Place;
use json::{Error, Scratch};
use std::alloc::{AllocError, Global};

/// Returns the first fault of the text's tree and the path to it. Returns `None` if the tree has a
/// meaning in MongoDB Extended JSON v2.
///
/// The place is the one that [`first_place`](bson_tree::walk::first_place) finds in the tree. No
/// tree is made: the text is normalized by ascending keys, and one traversal checks the normalized text.
///
/// # Errors
///
/// - `Invalid`: the text is not JSON of at most 127 levels, or has a number whose nearest double is
///   not finite.
/// - `OutOfMemory`: an allocation failed.
///
/// ```
/// let text = r#"{"b": 1.5, "a": [{"$oid": 7}]}"#;
/// if let Some(place) = first_fault_in(alloc, Doubles::Special, text)? {
///     println!(rt; "{}", place.path(alloc)?)?; // a.0.$oid
/// }
/// ```
pub fn first_fault_in(alloc: Global, doubles: Doubles, text: &str) -> Result<Option<Place>, Error>
    ensures place { IfOk result (λ place_or_none. IsTextPlaceIn doubles text.now place_or_none) }
    ensures broken { IfErr result (NothingReadIfInvalid (read text.now)) }
{
    let normalized = normalize_text(alloc, KeyOrder::Ascending, text)?;
    Ok(first_fault_of_normalized(alloc, doubles, normalized.as_str())?)
}

/// Returns the first fault of each text that is normalized as this one by ascending keys, as
/// [`first_fault_in`] does.
///
/// # Errors
///
/// - `AllocError`: an allocation failed. Any other error of the traversal is impossible for a
///   normalized text. It is reported as `AllocError` too.
pub fn first_fault_of_normalized(
    alloc: Global,
    doubles: Doubles,
    normalized: &str,
) -> Result<Option<Place>, AllocError>
    ensures place { (text : List ℕ) → IsNormalizedText Ascending text normalized.now
        → IfOk result (λ place_or_none. IsTextPlaceIn doubles text place_or_none) }
{
    match check_text(alloc, doubles, normalized, &mut Scratch::new(alloc)) {
        Ok(()) => Ok(None),
        Err(TraversalError::Fault(place)) => Ok(Some(Box::into_inner(place))),
        Err(_) => Err(AllocError),
    }
}
