//! Scalars whose wrappers have two keys in the order of MongoDB's layout, written to a string of JSON.
ghost use Rattle.std.specs.Prelude.{◌≡◌, ◌++◌, ◌<◌, ◌^◌, OnOk, string_bytes, codes, true};
ghost use Rattle.bson_types.specs.Regex.{sorted_regex_options};
ghost use Rattle.bson_types.specs.ObjectIds.{IsObjectId};
ghost use Rattle.bson_types.specs.DbPointer.{pointer_id, pointer_namespace};
ghost use Rattle.bson_scalar.specs.OrderedScalars.{pointer_in_order, regex_in_order, timestamp_in_order};
ghost use Rattle.bson_scalar.specs.Tokens.{tokens_of};
ghost use Rattle.bson_scalar.specs.declared.form.Form.TheVariants.{MongoDbCanonical};

use crate::ids::write_oid;
use bson_types::db_pointer::DbPointer;
use bson_types::regex::{Regex, sort_characters};
use bson_types::timestamp::Timestamp;
use json::Writer;
use std::alloc::{AllocError, Global};

// Writes a timestamp: `t` before `i`.
pub(crate) fn print_timestamp(timestamp: Timestamp, writer: &mut Writer) -> Result<(), AllocError>
    ensures printed { OnOk result (writer.new.tokens ≡ writer.old.tokens
        ++ tokens_of (timestamp_in_order MongoDbCanonical timestamp.time timestamp.increment)) }
    ensures before { writer.new.before ≡ writer.old.before }
    ensures within_type_range { OnOk result ((timestamp.time < 2 ^ 32) × (timestamp.increment < 2 ^ 32)) }
{
    writer.begin_object()?;
    writer.key("$timestamp")?;
    writer.begin_object()?;
    writer.key("t")?;
    writer.u64(timestamp.time as u64)?;
    writer.key("i")?;
    writer.u64(timestamp.increment as u64)?;
    writer.end_object()?;
    writer.end_object()
}

// Writes a regular expression: `pattern` before `options`, which are sorted.
pub(crate) fn print_regex(
    alloc: Global,
    regex: Regex,
    writer: &mut Writer,
) -> Result<(), AllocError>
    ensures printed { OnOk result (writer.new.tokens ≡ writer.old.tokens
        ++ tokens_of (regex_in_order MongoDbCanonical (string_bytes regex.pattern)
        (sorted_regex_options (string_bytes regex.options)))) }
    ensures before { writer.new.before ≡ writer.old.before }
{
    let sorted_options = sort_characters(alloc, regex.options.as_str())?;
    writer.begin_object()?;
    writer.key("$regularExpression")?;
    writer.begin_object()?;
    writer.key("pattern")?;
    writer.string(regex.pattern.as_str())?;
    writer.key("options")?;
    writer.string(sorted_options.as_str())?;
    writer.end_object()?;
    writer.end_object()
}

// Writes a pointer: `$ref` before `$id`.
pub(crate) fn print_pointer(
    alloc: Global,
    pointer: DbPointer,
    writer: &mut Writer,
) -> Result<(), AllocError>
    ensures printed { OnOk result (writer.new.tokens ≡ writer.old.tokens
        ++ tokens_of (pointer_in_order MongoDbCanonical (pointer_namespace pointer) (pointer_id pointer))) }
    ensures before { writer.new.before ≡ writer.old.before }
    ensures within_type_range { OnOk result (IsObjectId (pointer_id pointer)) }
{
    let (namespace, id) = pointer.into_parts();
    writer.begin_object()?;
    writer.key("$dbPointer")?;
    writer.begin_object()?;
    writer.key("$ref")?;
    writer.string(namespace.as_str())?;
    writer.key("$id")?;
    write_oid(alloc, id, writer)?;
    writer.end_object()?;
    writer.end_object()
}
