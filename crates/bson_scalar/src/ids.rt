//! `$oid`: the text of an object id; and `$dbPointer`, which holds one. Read as
//! `{"$oid": "53e37d08776f724e42000000"}` and `{"$ref": "a.b", "$id": {"$oid": ".."}}`, digits of
//! either case, and written with lower-case ones.
ghost use Rattle.std.specs.Prelude.{◌≡◌, IfOk, OnOk, codes, string_bytes};
ghost use Rattle.serde_json.specs.Data.{string};
ghost use Rattle.serde_json.specs.View.{view};
ghost use Rattle.bson_types.specs.DbPointer.{pointer_namespace, pointer_id};
ghost use Rattle.bson_types.specs.ObjectIds.{IsObjectId};
ghost use Rattle.bson_scalar.specs.Faults.{IsReadResult};
ghost use Rattle.bson_scalar.specs.Ids.{oid_tree, pointer_tree};
ghost use Rattle.bson_scalar.specs.Reading.{parsed_object_id, oid_read, pointer_read};
ghost use Rattle.bson_scalar.specs.TreeParts.{two_key_object};
ghost use Rattle.bson_scalar.specs.View.{scalar_view};

use crate::error::Error;
use crate::object_writer::{
    begin_object, begin_second_member, end_one_key_object, end_two_key_object,
    write_owned_text_object,
};
use crate::scalar::Scalar;
use crate::sink::Sink;
use crate::tree_parts::{expect_single_key, expect_string, expect_two_keys};
use bson_types::db_pointer::DbPointer;
use bson_types::oid::{self, ObjectId};
use serde_json::Value;
use std::alloc::{AllocError, Global};

const POINTER_MESSAGE: &str =
    "`$dbPointer` must have `$ref`, a string, and `$id`, an object with `$oid`";

// The object id of a text, or `InvalidObjectId` with the fault that the text has.
fn parse_object_id(alloc: Global, text: &str) -> Result<ObjectId, Error>
    ensures { IsReadResult (λ id. id) result (parsed_object_id text.now) }
{
    match ObjectId::parse_str(alloc, text) {
        Ok(id) => Ok(id),
        Err(oid::Error::OutOfMemory) => Err(Error::OutOfMemory),
        Err(fault) => Err(Error::InvalidObjectId(fault)),
    }
}

// What `$oid` holds, as an object id.
pub(crate) fn read_oid(alloc: Global, value: Value) -> Result<Scalar, Error>
    ensures { IsReadResult scalar_view result (oid_read (view value)) }
{
    let text = expect_string(value, "`$oid` must be a string with an object id")?;
    Ok(Scalar::ObjectId(parse_object_id(alloc, text.as_str())?))
}

// Reads the value at `$dbPointer`, as a pointer. The shape is tested first, so the text of the
// object id is reported as the fault only if it alone is wrong.
pub(crate) fn read_pointer(alloc: Global, value: Value) -> Result<Scalar, Error>
    ensures { IsReadResult scalar_view result (pointer_read (view value)) }
{
    let (id, namespace_value) = expect_two_keys(value, "$id", "$ref", POINTER_MESSAGE)?;
    let namespace = expect_string(namespace_value, POINTER_MESSAGE)?;
    let text = expect_string(
        expect_single_key(id, "$oid", POINTER_MESSAGE)?,
        POINTER_MESSAGE,
    )?;
    let id = parse_object_id(alloc, text.as_str())?;
    Ok(Scalar::DbPointer(DbPointer::new(namespace, id)))
}

// Writes the tree of an object id, in both forms.
pub(crate) fn write_oid<S: Sink>(
    alloc: Global,
    id: ObjectId,
    sink: &mut S,
) -> Result<S::Tree, AllocError>
    ensures written { IfOk result (λ written_tree. S.wrote_tree sink.old (oid_tree id) written_tree sink.new) }
    ensures before { S.before sink.new ≡ S.before sink.old }
    ensures within_type_range { OnOk result (IsObjectId id) }
{
    // What the type says of the bytes.
    let _bytes = id.bytes();
    write_owned_text_object("$oid", id.to_hex(alloc)?, sink)
}

// Writes the object under `$dbPointer`.
fn write_pointer_parts<S: Sink>(
    alloc: Global,
    namespace: String,
    id: ObjectId,
    sink: &mut S,
) -> Result<S::Tree, AllocError>
    ensures written { IfOk result (λ written_tree. S.wrote_tree sink.old
        (two_key_object (codes "$id") (oid_tree id) (codes "$ref")
        (string (string_bytes namespace))) written_tree sink.new) }
    ensures before { S.before sink.new ≡ S.before sink.old }
    ensures within_type_range { OnOk result (IsObjectId id) }
{
    let key = begin_object("$id", sink)?;
    let id = write_oid(alloc, id, sink)?;
    let second_key = begin_second_member(key, id, "$ref", sink)?;
    let namespace = sink.owned_text(namespace)?;
    end_two_key_object(second_key, namespace, sink)
}

// Writes the tree of a pointer, in both forms.
pub(crate) fn write_pointer<S: Sink>(
    alloc: Global,
    pointer: DbPointer,
    sink: &mut S,
) -> Result<S::Tree, AllocError>
    ensures written { IfOk result (λ written_tree. S.wrote_tree sink.old
        (pointer_tree (pointer_namespace pointer) (pointer_id pointer)) written_tree sink.new) }
    ensures before { S.before sink.new ≡ S.before sink.old }
    ensures within_type_range { OnOk result (IsObjectId (pointer_id pointer)) }
{
    let (namespace, id) = pointer.into_parts();
    let key = begin_object("$dbPointer", sink)?;
    let parts_tree = write_pointer_parts(alloc, namespace, id, sink)?;
    end_one_key_object(key, parts_tree, sink)
}
