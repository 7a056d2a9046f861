//! How a tree is read: what is built of it, or the place of its first fault.
ghost use Rattle.std.specs.Prelude.{◌≡◌, ◌∷◌, [], ◌++◌, true, IfOk};
ghost use Rattle.std.specs.Prelude.{MatchOption, Result, Ok, Err, codes, string_bytes};
ghost use Rattle.serde_json.specs.View.{view, number_view, items_view, members_view};
ghost use Rattle.serde_json.specs.Data.{number, string, array, object, member, no_members};
ghost use Rattle.bson_scalar.specs.Table.{has_wrapper};
ghost use Rattle.bson_scalar.specs.TreeParts.{two_key_object};
ghost use Rattle.bson_scalar.specs.Faults.{Fault, IsReadError, wrong_shape};
ghost use Rattle.bson_scalar.specs.Scalar as kind;
ghost use Rattle.bson_model.specs.Reading.{reads_tree_in, reads_items_in, reads_members_in};
ghost use Rattle.bson_tree.specs.Built.{Builds};
ghost use Rattle.bson_tree.specs.Place.{FaultAtIn, ItemFaultAtIn, MemberFaultAtIn, HasValueIn};
ghost use Rattle.bson_tree.specs.Place.{IsFirstFaultIn, IsReasonOfFault, key as key_segment};
ghost use Rattle.bson_tree.specs.Place.{segment_of, path_of};

use crate::builder::{Nothing, ValueBuilder};
use crate::place::{Place, Reason, Segment};
use crate::shape::{CODE_MESSAGE, SCOPE_MESSAGE, first_wrapper, other_keys_reason};
use bson_scalar::code::is_code_with_scope;
use bson_scalar::doubles::read_number;
use bson_scalar::error::Error;
use bson_scalar::form::Doubles;
use bson_scalar::read::read_single_key_in;
use bson_scalar::scalar::Scalar;
use bson_scalar::wrapper::Wrapper;
use serde_json::{Map, Number, Value};
use std::alloc::{AllocError, Global};

/// Returns the first fault of the tree and the path to it, or `None` if the tree has a meaning in
/// MongoDB Extended JSON v2.
///
/// Faults are found in the order of reading. An array's elements are read in their order, a
/// document's values in ascending key order. The path ends at one of these:
///
/// - a number that is not a 64-bit integer (`Doubles::Finite`: whose nearest double is not finite),
/// - the key of a wrapper whose value is wrong,
/// - an object that has a wrapper key and the shape of no wrapper.
///
/// # Errors
///
/// Returns `AllocError` if a request for memory is refused.
pub fn first_place(
    alloc: Global,
    doubles: Doubles,
    tree: Value,
) -> Result<Option<Place>, AllocError>
    ensures { IfOk result
        (λ first_fault. MatchOption first_fault (HasValueIn doubles (view tree)) (IsFirstFaultIn doubles (view tree))) }
{
    match read_tree::<Nothing>(alloc, doubles, tree)? {
        Ok(()) => Ok(None),
        Err(place) => Ok(Some(place)),
    }
}

/// Builds the value that the tree means, or returns the tree's first fault and the path to it.
///
/// The order of faults is that of `first_place`.
///
/// # Errors
///
/// Returns `AllocError` if a request for memory is refused.
pub fn read_tree<B: ValueBuilder>(
    alloc: Global,
    doubles: Doubles,
    tree: Value,
) -> Result<Result<B::Value, Place>, AllocError>
    ensures { IfOk result
        (Builds B.represents (reads_tree_in doubles (view tree))
        (λ tree_fault. FaultAtIn doubles tree_fault (view tree))) }
{
    read_value::<B>(alloc, doubles, tree)
}

/// Builds the pairs of a map, whose own keys are not tested, or returns the first fault in its
/// values and the path to it.
///
/// # Errors
///
/// Returns `AllocError` if a request for memory is refused.
pub fn read_pairs<B: ValueBuilder>(
    alloc: Global,
    doubles: Doubles,
    members: Map<String, Value>,
) -> Result<Result<B::Pairs, Place>, AllocError>
    ensures { IfOk result (Builds B.represents_pairs (reads_members_in doubles (members_view members.entries))
        (λ tree_fault. MemberFaultAtIn doubles tree_fault (members_view members.entries))) }
{
    read_members::<B>(alloc, doubles, members)
}

#[cycle(walk)]
fn read_value<B: ValueBuilder>(
    alloc: Global,
    doubles: Doubles,
    tree: Value,
) -> Result<Result<B::Value, Place>, AllocError>
    ensures { IfOk result
        (Builds B.represents (reads_tree_in doubles (view tree))
        (λ tree_fault. FaultAtIn doubles tree_fault (view tree))) }
{
    match tree {
        Value::Null => Ok(Ok(B::scalar(Scalar::Null))),
        Value::Bool(truth) => Ok(Ok(B::scalar(Scalar::Boolean(truth)))),
        Value::Number(json_number) => build_number::<B>(alloc, doubles, &json_number),
        Value::String(text) => Ok(Ok(B::scalar(Scalar::String(text)))),
        Value::Array(items) => read_array::<B>(alloc, doubles, items),
        Value::Object(members) => read_object::<B>(alloc, doubles, members),
    }
}

fn root_place(alloc: Global, reason: Reason) -> Place
    ensures reason { result.reason ≡ reason }
    ensures path { path_of result ≡ [] }
{
    Place {
        reason,
        segments: Vec::new(alloc),
    }
}

// The place at the tree itself.
fn wrong_shape_place(alloc: Global, message: &'static str) -> Place
    ensures reason { IsReasonOfFault wrong_shape result.reason }
    ensures path { path_of result ≡ [] }
{
    root_place(alloc, Reason::WrongShape(message))
}

// Why a scalar was not read.
fn reason_of_error(error: Error) -> Result<Reason, AllocError>
    ensures { IfOk result (λ reason. (scalar_result : Result kind.Scalar Fault) → IsReadError error scalar_result
        → (tree_fault : Fault) × (scalar_result ≡ Err tree_fault) × IsReasonOfFault tree_fault reason) }
{
    match error {
        Error::InvalidObjectId(id) => Ok(Reason::BadObjectId(id)),
        Error::DeserializationError { message } => Ok(Reason::WrongShape(message)),
        Error::OutOfMemory => Err(AllocError),
    }
}

fn build_number<B: ValueBuilder>(
    alloc: Global,
    doubles: Doubles,
    json_number: &Number,
) -> Result<Result<B::Value, Place>, AllocError>
    ensures { IfOk result (Builds B.represents (reads_tree_in doubles (number (number_view json_number.now)))
        (λ tree_fault. FaultAtIn doubles tree_fault (number (number_view json_number.now)))) }
{
    match read_number(doubles, json_number) {
        Ok(scalar) => Ok(Ok(B::scalar(scalar))),
        Err(error) => Ok(Err(root_place(alloc, reason_of_error(error)?))),
    }
}

// The place of a fault in the value that the segment leads to.
fn with_segment(place: Place, segment: Segment) -> Result<Place, AllocError>
    ensures path { IfOk result (λ found_place. path_of found_place ≡ path_of place ++ segment_of segment ∷ []) }
    ensures reason { IfOk result (λ found_place. found_place.reason ≡ place.reason) }
{
    let Place {
        reason,
        mut segments,
    } = place;
    segments.push(segment)?;
    Ok(Place { reason, segments })
}

#[cycle(walk)]
fn read_array<B: ValueBuilder>(
    alloc: Global,
    doubles: Doubles,
    items: Vec<Value>,
) -> Result<Result<B::Value, Place>, AllocError>
    ensures { IfOk result (Builds B.represents (reads_tree_in doubles (array (items_view items.items)))
        (λ tree_fault. FaultAtIn doubles tree_fault (array (items_view items.items)))) }
{
    match read_items::<B>(alloc, doubles, items)? {
        Ok(items) => Ok(Ok(B::array(items))),
        Err(place) => Ok(Err(place)),
    }
}

#[cycle(walk)]
fn read_items<B: ValueBuilder>(
    alloc: Global,
    doubles: Doubles,
    items: Vec<Value>,
) -> Result<Result<B::Items, Place>, AllocError>
    ensures { IfOk result (Builds B.represents_items (reads_items_in doubles (items_view items.items))
        (λ tree_fault. ItemFaultAtIn doubles tree_fault 0 (items_view items.items))) }
{
    let mut built_so_far = B::items(alloc, items.len())?;
    let mut item_index = 0usize;
    for item in items {
        match read_value::<B>(alloc, doubles, item)? {
            Ok(value) => B::push(&mut built_so_far, value)?,
            Err(place) => return Ok(Err(with_segment(place, Segment::Element(item_index))?)),
        }
        item_index += 1;
    }
    Ok(Ok(built_so_far))
}

#[cycle(walk)]
fn read_members<B: ValueBuilder>(
    alloc: Global,
    doubles: Doubles,
    members: Map<String, Value>,
) -> Result<Result<B::Pairs, Place>, AllocError>
    ensures { IfOk result (Builds B.represents_pairs (reads_members_in doubles (members_view members.entries))
        (λ tree_fault. MemberFaultAtIn doubles tree_fault (members_view members.entries))) }
{
    let mut built_so_far = B::pairs(alloc, members.len())?;
    for (key, value) in members {
        match read_value::<B>(alloc, doubles, value)? {
            Ok(value) => B::put(&mut built_so_far, key, value)?,
            Err(place) => return Ok(Err(with_segment(place, Segment::Key(key))?)),
        }
    }
    Ok(Ok(built_so_far))
}

#[cycle(walk)]
fn read_object<B: ValueBuilder>(
    alloc: Global,
    doubles: Doubles,
    members: Map<String, Value>,
) -> Result<Result<B::Value, Place>, AllocError>
    ensures { IfOk result (Builds B.represents (reads_tree_in doubles (object (members_view members.entries)))
        (λ tree_fault. FaultAtIn doubles tree_fault (object (members_view members.entries)))) }
{
    if let Some(wrapper) = first_wrapper(&members) {
        return read_wrapper_object::<B>(alloc, doubles, members, wrapper);
    }
    match read_members::<B>(alloc, doubles, members)? {
        Ok(pairs) => Ok(Ok(B::document(pairs))),
        Err(place) => Ok(Err(place)),
    }
}

// An object whose first wrapper is this one.
#[cycle(walk)]
fn read_wrapper_object<B: ValueBuilder>(
    alloc: Global,
    doubles: Doubles,
    mut members: Map<String, Value>,
    wrapper: Wrapper,
) -> Result<Result<B::Value, Place>, AllocError>
    requires { has_wrapper (members_view members.entries) ≡ true }
    ensures { IfOk result (Builds B.represents (reads_tree_in doubles (object (members_view members.entries)))
        (λ tree_fault. FaultAtIn doubles tree_fault (object (members_view members.entries)))) }
{
    let Some((key, value)) = members.pop_first() else {
        unreachable!();
    };
    let Some((second_key, scope)) = members.pop_first() else {
        return build_single_key::<B>(alloc, doubles, key, value);
    };
    if !members.is_empty() {
        return Ok(Err(wrong_shape_place(alloc, other_keys_reason(wrapper))));
    }
    if !is_code_with_scope(key.as_str(), second_key.as_str()) {
        return Ok(Err(wrong_shape_place(alloc, other_keys_reason(wrapper))));
    }
    read_code::<B>(alloc, doubles, scope, value)
}

// An object of one wrapper key.
fn build_single_key<B: ValueBuilder>(
    alloc: Global,
    doubles: Doubles,
    key: String,
    value: Value,
) -> Result<Result<B::Value, Place>, AllocError>
    requires { has_wrapper (member (string_bytes key) (view value) no_members) ≡ true }
    ensures { IfOk result
        (Builds B.represents (reads_tree_in doubles (object (member (string_bytes key) (view value) no_members)))
        (λ tree_fault. FaultAtIn doubles tree_fault (object (member (string_bytes key) (view value) no_members)))) }
{
    match read_single_key_in(alloc, doubles, key.as_str(), value) {
        Ok(scalar) => Ok(Ok(B::scalar(scalar))),
        Err(error) => Ok(Err(at_key(alloc, key, reason_of_error(error)?)?)),
    }
}

// The place at the key.
fn at_key(alloc: Global, key: String, reason: Reason) -> Result<Place, AllocError>
    ensures { IfOk result
        (λ place. (path_of place ≡ key_segment (string_bytes key) ∷ []) × (place.reason ≡ reason)) }
{
    with_segment(root_place(alloc, reason), Segment::Key(key))
}

// The value at `$scope`, next to the value at `$code`.
#[cycle(walk)]
fn read_code<B: ValueBuilder>(
    alloc: Global,
    doubles: Doubles,
    scope: Value,
    code: Value,
) -> Result<Result<B::Value, Place>, AllocError>
    ensures { IfOk result (Builds B.represents
        (reads_tree_in doubles (two_key_object (codes "$code") (view code) (codes "$scope") (view scope)))
        (λ tree_fault. FaultAtIn doubles tree_fault
        (two_key_object (codes "$code") (view code) (codes "$scope") (view scope)))) }
{
    match code {
        Value::String(code) => read_scope::<B>(alloc, doubles, scope, code),
        _ => Ok(Err(wrong_shape_place(alloc, CODE_MESSAGE))),
    }
}

// The value at `$scope`, next to code that is a string.
#[cycle(walk)]
fn read_scope<B: ValueBuilder>(
    alloc: Global,
    doubles: Doubles,
    scope: Value,
    code: String,
) -> Result<Result<B::Value, Place>, AllocError>
    ensures { IfOk result (Builds B.represents
        (reads_tree_in doubles
        (two_key_object (codes "$code") (string (string_bytes code)) (codes "$scope") (view scope)))
        (λ tree_fault. FaultAtIn doubles tree_fault
        (two_key_object (codes "$code") (string (string_bytes code)) (codes "$scope") (view scope)))) }
{
    match scope {
        Value::Null => Ok(Ok(B::scalar(Scalar::JavaScriptCode(code)))),
        Value::Object(members) => read_scope_map::<B>(alloc, doubles, members, code),
        _ => Ok(Err(wrong_shape_place(alloc, SCOPE_MESSAGE))),
    }
}

#[cycle(walk)]
fn read_scope_map<B: ValueBuilder>(
    alloc: Global,
    doubles: Doubles,
    members: Map<String, Value>,
    code: String,
) -> Result<Result<B::Value, Place>, AllocError>
    ensures { IfOk result (Builds B.represents
        (reads_tree_in doubles (two_key_object (codes "$code") (string (string_bytes code)) (codes "$scope")
        (object (members_view members.entries))))
        (λ tree_fault. FaultAtIn doubles tree_fault
        (two_key_object (codes "$code") (string (string_bytes code)) (codes "$scope")
        (object (members_view members.entries))))) }
{
    match read_members::<B>(alloc, doubles, members)? {
        Ok(scope) => Ok(Ok(B::code(code, scope))),
        Err(place) => {
            let key = String::from_str(alloc, "$scope")?;
            Ok(Err(with_segment(place, Segment::Key(key))?))
        }
    }
}
