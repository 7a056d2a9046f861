//! Values from trees.
ghost use Rattle.std.specs.Prelude.{◌≡◌, IfOk, IfErr, Ok, Err};
ghost use Rattle.serde_json.specs.View.{view, members_view};
ghost use Rattle.serde_json.specs.Data.{object};
ghost use Rattle.bson_model.specs.Value as model;
ghost use Rattle.bson_model.specs.Value.{Pairs};
ghost use Rattle.bson_scalar.specs.Faults.{IsReadResult};
ghost use Rattle.bson_model.specs.Means.{Means, MeansIn, MeansDocument, MeansDocumentIn};
ghost use Rattle.bson_model.specs.Sorted.{KeysAscend};
ghost use Rattle.bson_model.specs.Texts.{MemberKeysAscend, ValueRoundTrips, ValueRoundTripsIn};
ghost use Rattle.bson_model.specs.Normal.{NumbersInRange, PairsInRange};
ghost use Rattle.bson_model.specs.Laws.{HasMeaning, HasMeaningIn, HasDocumentMeaning, HasDocumentMeaningIn};
ghost use Rattle.bson_model.specs.Fault.{IsFaultOf, IsFaultOfIn, IsDocumentFault, IsDocumentFaultIn};
ghost use Rattle.bson.specs.View.{bson_view, document_view};

use crate::bson::Bson;
use crate::document::Document;
use crate::extjson::read::{read, read_members};
pub use crate::extjson::text_error::TextError;
pub use bson_scalar::error::{Error, Result};
use bson_scalar::form::Doubles;
use serde_json::{Map, Value};
use std::alloc::Global;

impl Bson {
    /// Returns the value that the tree means by the full grammar of Extended JSON (MongoDB Extended
    /// JSON v2), in either form or mixed.
    ///
    /// An object with a wrapper key must have exactly the shape of that wrapper.
    ///
    /// What is read reads back from the compact text of its tree in either form, unless that text
    /// nests more than 127 deep.
    ///
    /// # Errors
    ///
    /// Returns the first fault: an array's elements are read in order, a document's values in
    /// ascending key order, and a wrapper as a whole.
    ///
    /// - `InvalidObjectId`: the text of an object id is wrong, and everything else of its wrapper
    ///   is right.
    /// - `DeserializationError`: the tree has another fault.
    /// - `OutOfMemory`: a request for memory was refused.
    pub fn try_from_value(alloc: Global, value: Value) -> Result<Bson>
        ensures ok { IfOk result (λ parsed. HasMeaning (view value) (bson_view parsed)) }
        ensures accepts { (parsed : model.Value) → Means (view value) parsed
            → IsReadResult bson_view result (Ok parsed) }
        ensures fault { IfErr result (λ read_error. IsFaultOf (view value) read_error) }
        ensures within_type_range { IfOk result (λ parsed. NumbersInRange (bson_view parsed)) }
        ensures round_trips { IfOk result (λ parsed. ValueRoundTrips (bson_view parsed)) }
    {
        read(alloc, Doubles::Special, value)
    }

    /// Returns the value that the tree means with these doubles, otherwise as `try_from_value`.
    ///
    /// With `Doubles::Finite` a number that is not an i64 is the double nearest to it.
    /// `$numberDouble` is then any decimal number whose nearest double is finite.
    ///
    /// # Errors
    ///
    /// The errors of `try_from_value`.
    pub fn from_tree(alloc: Global, doubles: Doubles, value: Value) -> Result<Bson>
        ensures ok { IfOk result (λ parsed. HasMeaningIn doubles (view value) (bson_view parsed)) }
        ensures accepts { (parsed : model.Value) → MeansIn doubles (view value) parsed
            → IsReadResult bson_view result (Ok parsed) }
        ensures fault { IfErr result (λ read_error. IsFaultOfIn doubles (view value) read_error) }
        ensures within_type_range { IfOk result (λ parsed. NumbersInRange (bson_view parsed)) }
        ensures round_trips { IfOk result (λ parsed. ValueRoundTripsIn doubles (bson_view parsed)) }
    {
        read(alloc, doubles, value)
    }

    /// Returns the value that the map means, as `try_from_value` reads the object.
    ///
    /// # Errors
    ///
    /// The errors of `try_from_value`.
    pub fn try_from_map(alloc: Global, map: Map<String, Value>) -> Result<Bson>
        ensures ok { IfOk result (λ parsed. HasMeaning (object (members_view map.entries)) (bson_view parsed)) }
        ensures accepts { (parsed : model.Value) → Means (object (members_view map.entries)) parsed
            → IsReadResult bson_view result (Ok parsed) }
        ensures fault { IfErr result (λ read_error. IsFaultOf (object (members_view map.entries)) read_error) }
        ensures within_type_range { IfOk result (λ parsed. NumbersInRange (bson_view parsed)) }
        ensures round_trips { IfOk result (λ parsed. ValueRoundTrips (bson_view parsed)) }
    {
        Bson::try_from_value(alloc, Value::Object(map))
    }
}

impl Document {
    /// Returns the document of the map: its keys in ascending order of bytes, each with the meaning
    /// of its value. The map's own keys are not tested, so they may be wrapper keys.
    ///
    /// # Errors
    ///
    /// Returns the fault of the value at the least key whose value has no meaning.
    ///
    /// - `InvalidObjectId`: the text of an object id is wrong, and everything else of its wrapper
    ///   is right.
    /// - `DeserializationError`: the value has another fault.
    /// - `OutOfMemory`: a request for memory was refused.
    pub fn try_from_map(alloc: Global, map: Map<String, Value>) -> Result<Document>
        ensures ok { IfOk result (λ parsed. HasDocumentMeaning (members_view map.entries) (document_view parsed)) }
        ensures accepts { (meant_pairs : Pairs) → MeansDocument (members_view map.entries) meant_pairs
            → IsReadResult document_view result (Ok meant_pairs) }
        ensures ascends { IfOk result (λ parsed. KeysAscend (document_view parsed)) }
        ensures fault { IfErr result (λ read_error. IsDocumentFault (members_view map.entries) read_error) }
        ensures within_type_range { IfOk result (λ parsed. PairsInRange (document_view parsed)) }
    {
        keys_ascend(&map);
        read_members(alloc, Doubles::Special, map)
    }

    /// Returns the document of the map with these doubles, otherwise as `try_from_map`.
    ///
    /// # Errors
    ///
    /// The errors of `try_from_map`.
    pub fn from_members(
        alloc: Global,
        doubles: Doubles,
        map: Map<String, Value>,
    ) -> Result<Document>
        ensures ok { IfOk result
            (λ parsed. HasDocumentMeaningIn doubles (members_view map.entries) (document_view parsed)) }
        ensures accepts { (meant_pairs : Pairs) → MeansDocumentIn doubles (members_view map.entries) meant_pairs
            → IsReadResult document_view result (Ok meant_pairs) }
        ensures ascends { IfOk result (λ parsed. KeysAscend (document_view parsed)) }
        ensures fault { IfErr result (λ read_error. IsDocumentFaultIn doubles (members_view map.entries) read_error) }
        ensures within_type_range { IfOk result (λ parsed. PairsInRange (document_view parsed)) }
    {
        keys_ascend(&map);
        read_members(alloc, doubles, map)
    }
}

// The keys of a map are in ascending order.
fn keys_ascend(map: &Map<String, Value>)
    ensures { MemberKeysAscend (members_view map.now.entries) }
{
    let _pairs = map.iter();
}
