//! The place of a fault.
ghost use Rattle.std.specs.Prelude.{◌≡◌, ◌++◌, map, IfOk, OnOk, string_bytes};
ghost use Rattle.bson_tree.specs.Place.{path_text, segment_of, path_of, segment_text};

use bson_types::oid;
use std::alloc::{AllocError, Global};

/// A segment of the path to a fault.
///
/// ```
/// let tree = Value::from_slice(alloc, br#"{"orders": [1.5]}"#)?;
/// if let Some(place) = first_place(alloc, Doubles::Special, tree)? {
///     println!(rt; "{:?}", place.segments)?; // [Element(0), Key("orders")]
/// }
/// ```
#[derive(Debug, Drop)]
pub enum Segment {
    /// Into the value at a key.
    Key(String),
    /// Into an element of an array, counted from 0.
    Element(usize),
}

/// What is wrong at a place.
///
/// ```
/// let tree = Value::from_slice(alloc, br#"{"$oid": "53e3"}"#)?;
/// if let Some(place) = first_place(alloc, Doubles::Special, tree)? {
///     println!(rt; "{}", place.reason)?; // an object id has 24 digits, but "53e3" has 4
/// }
/// ```
#[derive(Debug, Drop, thiserror::Error)]
pub enum Reason {
    /// The text of an object id, under `$oid` or inside a `$dbPointer` that is right in all else.
    #[error("{0}")]
    BadObjectId(oid::Error),

    /// Anything else, with what was expected there: an object with a wrapper key has not exactly
    /// that wrapper's shape, or a number is no i64, or has no finite double where those are read.
    #[error("{0}")]
    WrongShape(&'static str),
}

/// The first fault of a tree: what is wrong, and the path to it.
///
/// ```
/// let tree = Value::from_slice(alloc, br#"{"orders": [{"price": 1.5}]}"#)?;
/// if let Some(place) = first_place(alloc, Doubles::Special, tree)? {
///     println!(rt; "{}", place.path(alloc)?)?; // orders.0.price
/// }
/// ```
#[derive(Debug, Drop)]
pub struct Place {
    /// What is wrong there.
    pub reason: Reason,
    /// The path, from the fault outward.
    pub segments: Vec<Segment>,
}

impl Place {
    /// Writes the path from the tree inward: keys, and places in arrays by their numbers, separated
    /// by points. An example is `orders.3._id.$oid`. The path is empty if the fault is the tree's
    /// own.
    ///
    /// # Errors
    ///
    /// Returns `AllocError` if a request for memory is refused.
    pub fn path(&self, alloc: Global) -> Result<String, AllocError>
        ensures { IfOk result (λ text. string_bytes text ≡ path_text (path_of self.now)) }
    {
        let mut path = String::new(alloc);
        write_path(alloc, &self.segments, &mut path)?;
        Ok(path)
    }
}

// Adds the words of the segments, the last of which comes first.
fn write_path(alloc: Global, segments: &[Segment], path: &mut String) -> Result<(), AllocError>
    ensures { OnOk result (string_bytes path.new ≡ string_bytes path.old ++ path_text (map segment_of segments.now)) }
{
    let Some((segment, outer_segments)) = segments.split_first() else {
        return Ok(());
    };
    if !outer_segments.is_empty() {
        write_path(alloc, outer_segments, path)?;
        path.push_str(".")?;
    }
    let segment_as_string = segment_as_string(alloc, segment)?;
    path.push_str(&segment_as_string)
}

// A key, or the number of a place in an array.
fn segment_as_string(alloc: Global, segment: &Segment) -> Result<String, AllocError>
    ensures { IfOk result
        (λ segment_as_string. string_bytes segment_as_string ≡ segment_text (segment_of segment.now)) }
{
    match segment {
        Segment::Key(key) => key.clone(),
        Segment::Element(item_index) => format!(in alloc; "{item_index}"),
    }
}
