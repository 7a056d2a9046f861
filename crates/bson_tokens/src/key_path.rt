//! The path to a duplicate key.
ghost use Rattle.std.specs.Prelude.{◌≡◌, IfOk};
ghost use Rattle.bson_tree.specs.Place.{segment_of};
ghost use Rattle.bson_tokens.specs.DuplicateKeyPath.{path_of_result, first_path, append_segment, member_path};

use bson_tree::place::Segment;
use std::alloc::{AllocError, Global};

/// A path from a key outward.
pub type KeyPath = Vec<Segment>;

/// Returns the first path so far, or otherwise the path in the next element.
pub(crate) fn first_or_element_path(
    earlier_path: Option<KeyPath>,
    path_in_value: Option<KeyPath>,
    item_index: usize,
) -> Result<Option<KeyPath>, AllocError>
    ensures { IfOk result
        (λ path. path_of_result path
        ≡ first_path (path_of_result earlier_path)
        (append_segment (segment_of (Segment.Element item_index)) (path_of_result path_in_value))) }
{
    if earlier_path.is_some() {
        return Ok(earlier_path);
    }
    with_segment(path_in_value, Segment::Element(item_index))
}

/// Returns the first path so far, or otherwise that of the next member: to its key if that is
/// duplicated, or in its value.
pub(crate) fn first_or_member_path(
    alloc: Global,
    earlier_path: Option<KeyPath>,
    is_new: bool,
    key: &str,
    path_in_value: Option<KeyPath>,
) -> Result<Option<KeyPath>, AllocError>
    ensures { IfOk result
        (λ path. path_of_result path
        ≡ first_path (path_of_result earlier_path) (member_path is_new key.now (path_of_result path_in_value))) }
{
    if earlier_path.is_some() {
        return Ok(earlier_path);
    }
    let segment = Segment::Key(String::from_str(alloc, key)?);
    if is_new {
        return with_segment(path_in_value, segment);
    }
    let mut path = Vec::new(alloc);
    path.push(segment)?;
    Ok(Some(path))
}

// Adds a segment to the path.
fn with_segment(
    path_in_value: Option<KeyPath>,
    segment: Segment,
) -> Result<Option<KeyPath>, AllocError>
    ensures { IfOk result
        (λ path. path_of_result path ≡ append_segment (segment_of segment) (path_of_result path_in_value)) }
{
    let Some(mut path) = path_in_value else {
        return Ok(None);
    };
    path.push(segment)?;
    Ok(Some(path))
}
