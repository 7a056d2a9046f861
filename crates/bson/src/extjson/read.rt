//! Values of trees, by the walk that finds their faults.
ghost use Rattle.std.specs.Prelude.{◌≡◌, IfOk};
ghost use Rattle.serde_json.specs.View.{view, number_view, members_view};
ghost use Rattle.bson_scalar.specs.Faults.{IsReadResult};
ghost use Rattle.bson_scalar.specs.Reading.{number_read_in, optional_wrapper_read_in};
ghost use Rattle.bson_scalar.specs.Table.{wrapper_of};
ghost use Rattle.bson_model.specs.Normal.{NumbersInRange, PairsInRange};
ghost use Rattle.bson_model.specs.Reading.{scalar_result_as_value, reads_tree_in, reads_members_in};
ghost use Rattle.bson.specs.ReadErrors.{IsErrorForReason};
ghost use Rattle.bson.specs.View.{bson_view, document_view};

use crate::bson::Bson;
use crate::document::Document;
use crate::extjson::builder::BsonBuilder;
use crate::extjson::scalars::from_scalar;
use bson_scalar::doubles::read_number;
use bson_scalar::error::Error;
use bson_scalar::form::Doubles;
use bson_scalar::read::read_single_key_in;
use bson_tree::place::Reason;
use bson_tree::walk::{read_pairs, read_tree};
use serde_json::{Map, Number, Value};
use std::alloc::Global;

// What the value at the key of a wrapper means.
pub(crate) fn single_key_value(
    alloc: Global,
    doubles: Doubles,
    key: &str,
    value: Value,
) -> Result<Bson, Error>
    ensures read_result { IsReadResult bson_view result
        (scalar_result_as_value (optional_wrapper_read_in doubles (wrapper_of key.now) (view value))) }
    ensures within_type_range { IfOk result (λ parsed. NumbersInRange (bson_view parsed)) }
{
    Ok(from_scalar(read_single_key_in(alloc, doubles, key, value)?))
}

// What a number of JSON means.
pub(crate) fn number_value(doubles: Doubles, json_number: &Number) -> Result<Bson, Error>
    ensures read_result { IsReadResult bson_view result
        (scalar_result_as_value (number_read_in doubles (number_view json_number.now))) }
    ensures within_type_range { IfOk result (λ parsed. NumbersInRange (bson_view parsed)) }
{
    Ok(from_scalar(read_number(doubles, json_number)?))
}

// What a tree means.
pub(crate) fn read(alloc: Global, doubles: Doubles, value: Value) -> Result<Bson, Error>
    ensures read_result { IsReadResult bson_view result (reads_tree_in doubles (view value)) }
    ensures within_type_range { IfOk result (λ parsed. NumbersInRange (bson_view parsed)) }
{
    match read_tree::<BsonBuilder>(alloc, doubles, value)? {
        Ok(value) => Ok(value),
        Err(place) => Err(error_of(place.reason)),
    }
}

// The document of the map, whose own keys are not tested.
pub(crate) fn read_members(
    alloc: Global,
    doubles: Doubles,
    members: Map<String, Value>,
) -> Result<Document, Error>
    ensures read_result { IsReadResult document_view result (reads_members_in doubles (members_view members.entries)) }
    ensures within_type_range { IfOk result (λ parsed_document. PairsInRange (document_view parsed_document)) }
{
    match read_pairs::<BsonBuilder>(alloc, doubles, members)? {
        Ok(pairs) => Ok(Document { pairs }),
        Err(place) => Err(error_of(place.reason)),
    }
}

// Returns the error for the reason.
fn error_of(reason: Reason) -> Error
    ensures { IsErrorForReason reason result }
{
    match reason {
        Reason::BadObjectId(id) => Error::InvalidObjectId(id),
        Reason::WrongShape(message) => Error::DeserializationError { message },
    }
}
