//! `$minKey`, `$maxKey` and `$undefined`, each of one tree: `{"$minKey": 1}`, `{"$maxKey": 1}`,
//! `{"$undefined": true}`.
ghost use Rattle.std.specs.Prelude.{◌≡◌, IfOk};
ghost use Rattle.serde_json.specs.View.{view};
ghost use Rattle.bson_scalar.specs.Faults.{IsReadResult};
ghost use Rattle.bson_scalar.specs.Constants.{min_key_tree, max_key_tree, undefined_tree};
ghost use Rattle.bson_scalar.specs.Reading.{is_number_one as is_integer_one, number_one_read, undefined_read};
ghost use Rattle.bson_scalar.specs.Scalar.{min_key, max_key};
ghost use Rattle.bson_scalar.specs.TreeParts.{i64_at, natural, one_key_object};
ghost use Rattle.bson_scalar.specs.View.{scalar_view};

use crate::error::Error;
use crate::object_writer::{begin_object, end_one_key_object};
use crate::scalar::Scalar;
use crate::sink::Sink;
use crate::tree_parts::i64_of;
use serde_json::Value;
use std::alloc::AllocError;

fn is_number_one(value: &Value) -> bool
    ensures { result ≡ is_integer_one (i64_at (view value.now)) }
{
    i64_of(value) == Some(1)
}

// What `$minKey` holds: the number 1.
pub(crate) fn read_min_key(value: Value) -> Result<Scalar, Error>
    ensures { IsReadResult scalar_view result (number_one_read min_key (view value)) }
{
    if is_number_one(&value) {
        Ok(Scalar::MinKey)
    } else {
        Err(Error::DeserializationError {
            message: "`$minKey` must be 1",
        })
    }
}

// What `$maxKey` holds: the number 1.
pub(crate) fn read_max_key(value: Value) -> Result<Scalar, Error>
    ensures { IsReadResult scalar_view result (number_one_read max_key (view value)) }
{
    if is_number_one(&value) {
        Ok(Scalar::MaxKey)
    } else {
        Err(Error::DeserializationError {
            message: "`$maxKey` must be 1",
        })
    }
}

// What `$undefined` holds: true.
pub(crate) fn read_undefined(value: Value) -> Result<Scalar, Error>
    ensures { IsReadResult scalar_view result (undefined_read (view value)) }
{
    match value {
        Value::Bool(true) => Ok(Scalar::Undefined),
        _ => Err(Error::DeserializationError {
            message: "`$undefined` must be true",
        }),
    }
}

// The number 1 under a key.
fn write_number_one<S: Sink>(key_name: &str, sink: &mut S) -> Result<S::Tree, AllocError>
    ensures written { IfOk result
        (λ written_tree. S.wrote_tree sink.old (one_key_object key_name.now (natural 1)) written_tree sink.new) }
    ensures before { S.before sink.new ≡ S.before sink.old }
{
    let key = begin_object(key_name, sink)?;
    let one_tree = sink.natural(1)?;
    end_one_key_object(key, one_tree, sink)
}

// Writes the tree of the least key, in both forms.
pub(crate) fn write_min_key<S: Sink>(sink: &mut S) -> Result<S::Tree, AllocError>
    ensures written { IfOk result (λ written_tree. S.wrote_tree sink.old min_key_tree written_tree sink.new) }
    ensures before { S.before sink.new ≡ S.before sink.old }
{
    write_number_one("$minKey", sink)
}

// Writes the tree of the greatest key, in both forms.
pub(crate) fn write_max_key<S: Sink>(sink: &mut S) -> Result<S::Tree, AllocError>
    ensures written { IfOk result (λ written_tree. S.wrote_tree sink.old max_key_tree written_tree sink.new) }
    ensures before { S.before sink.new ≡ S.before sink.old }
{
    write_number_one("$maxKey", sink)
}

// Writes the tree of the undefined value, in both forms.
pub(crate) fn write_undefined<S: Sink>(sink: &mut S) -> Result<S::Tree, AllocError>
    ensures written { IfOk result (λ written_tree. S.wrote_tree sink.old undefined_tree written_tree sink.new) }
    ensures before { S.before sink.new ≡ S.before sink.old }
{
    let key = begin_object("$undefined", sink)?;
    let true_tree = sink.boolean(true)?;
    end_one_key_object(key, true_tree, sink)
}
