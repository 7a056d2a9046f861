//! `$timestamp`: two numbers, each from 0 to 4294967295. Read and written as `{"t": 1, "i": 2}`
//! under that key.
ghost use Rattle.std.specs.Prelude.{◌≡◌, ◌<◌, ◌^◌, IfOk, OnOk, codes};
ghost use Rattle.serde_json.specs.View.{view};
ghost use Rattle.bson_scalar.specs.Faults.{IsReadResult};
ghost use Rattle.bson_scalar.specs.Reading.{timestamp_read};
ghost use Rattle.bson_scalar.specs.TreeParts.{two_key_object, natural};
ghost use Rattle.bson_scalar.specs.Timestamps.{timestamp_tree};
ghost use Rattle.bson_scalar.specs.View.{scalar_view};

use crate::error::Error;
use crate::object_writer::{
    begin_object, begin_second_member, end_one_key_object, end_two_key_object,
};
use crate::scalar::Scalar;
use crate::sink::Sink;
use crate::tree_parts::{expect_two_keys, u32_of};
use bson_types::timestamp::Timestamp;
use serde_json::Value;
use std::alloc::AllocError;

const SHAPE_MESSAGE: &str = "`$timestamp` must have `t` and `i`, integers from 0 to 4294967295";

// What `$timestamp` holds, as a timestamp: `t` is its time, `i` its increment.
pub(crate) fn read_timestamp(value: Value) -> Result<Scalar, Error>
    ensures { IsReadResult scalar_view result (timestamp_read (view value)) }
{
    let (increment, time) = expect_two_keys(value, "i", "t", SHAPE_MESSAGE)?;
    match (u32_of(&time), u32_of(&increment)) {
        (Some(time), Some(increment)) => Ok(Scalar::Timestamp(Timestamp { time, increment })),
        _ => Err(Error::DeserializationError {
            message: SHAPE_MESSAGE,
        }),
    }
}

// Writes the object under `$timestamp`.
fn write_timestamp_parts<S: Sink>(timestamp: Timestamp, sink: &mut S) -> Result<S::Tree, AllocError>
    ensures written { IfOk result (λ written_tree. S.wrote_tree sink.old
        (two_key_object (codes "i") (natural timestamp.increment) (codes "t")
        (natural timestamp.time)) written_tree sink.new) }
    ensures before { S.before sink.new ≡ S.before sink.old }
{
    let key = begin_object("i", sink)?;
    let increment = sink.natural(timestamp.increment)?;
    let second_key = begin_second_member(key, increment, "t", sink)?;
    let time = sink.natural(timestamp.time)?;
    end_two_key_object(second_key, time, sink)
}

// Writes the tree of a timestamp, in both forms.
pub(crate) fn write_timestamp<S: Sink>(
    timestamp: Timestamp,
    sink: &mut S,
) -> Result<S::Tree, AllocError>
    ensures written { IfOk result
        (λ written_tree. S.wrote_tree sink.old
        (timestamp_tree timestamp.time timestamp.increment) written_tree sink.new) }
    ensures before { S.before sink.new ≡ S.before sink.old }
    ensures within_type_range { OnOk result ((timestamp.time < 2 ^ 32) × (timestamp.increment < 2 ^ 32)) }
{
    let key = begin_object("$timestamp", sink)?;
    let parts_tree = write_timestamp_parts(timestamp, sink)?;
    end_one_key_object(key, parts_tree, sink)
}
