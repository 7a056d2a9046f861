//! `$numberInt` and `$numberLong`: the text of an integer. Read as `{"$numberInt": "+007"}`,
//! written as `{"$numberInt": "7"}`, and in the relaxed form as the number 7.
ghost use Rattle.std.specs.Prelude.{◌≡◌, IfOk};
ghost use Rattle.serde_json.specs.View.{view};
ghost use Rattle.bson_scalar.specs.Faults.{IsReadResult};
ghost use Rattle.bson_scalar.specs.Reading.{parsed_int, int32_read, int64_read};
ghost use Rattle.bson_scalar.specs.Written.{int32_form, int64_form};
ghost use Rattle.bson_scalar.specs.View.{scalar_view};

use crate::error::Error;
use crate::form::Form;
use crate::object_writer::write_numeral_object;
use crate::scalar::Scalar;
use crate::sink::Sink;
use crate::tree_parts::{expect, expect_string};
use serde_json::Value;
use std::alloc::AllocError;

const INT32_MESSAGE: &str = "`$numberInt` must be a string with a 32-bit integer";

const INT64_MESSAGE: &str = "`$numberLong` must be a string with a 64-bit integer";

// The number of a text: a sign or none, and digits, whose number is an i32.
fn int32_of(text: &str) -> Option<i32>
    ensures { result ≡ parsed_int 31 text.now }
{
    text.parse::<i32>().ok()
}

// The number of a text: a sign or none, and digits, whose number is an i64.
pub(crate) fn int64_of(text: &str) -> Option<i64>
    ensures { result ≡ parsed_int 63 text.now }
{
    text.parse::<i64>().ok()
}

// What `$numberInt` holds, as an Int32.
pub(crate) fn read_int32(value: Value) -> Result<Scalar, Error>
    ensures { IsReadResult scalar_view result (int32_read (view value)) }
{
    let text = expect_string(value, INT32_MESSAGE)?;
    let number = expect(int32_of(text.as_str()), INT32_MESSAGE)?;
    Ok(Scalar::Int32(number))
}

// What `$numberLong` holds, as an Int64.
pub(crate) fn read_int64(value: Value) -> Result<Scalar, Error>
    ensures { IsReadResult scalar_view result (int64_read (view value)) }
{
    let text = expect_string(value, INT64_MESSAGE)?;
    let number = expect(int64_of(text.as_str()), INT64_MESSAGE)?;
    Ok(Scalar::Int64(number))
}

// Writes the tree of an Int32: its text under `$numberInt`, or in the relaxed form the number.
pub(crate) fn write_int32<S: Sink>(
    form: Form,
    number: i32,
    sink: &mut S,
) -> Result<S::Tree, AllocError>
    ensures written { IfOk result
        (λ written_tree. S.wrote_tree sink.old (int32_form form number) written_tree sink.new) }
    ensures before { S.before sink.new ≡ S.before sink.old }
{
    if form.is_relaxed() {
        sink.integer(number as i64)
    } else {
        write_numeral_object("$numberInt", number as i64, sink)
    }
}

// Writes the tree of an Int64: its text under `$numberLong`, or in the relaxed form the number.
pub(crate) fn write_int64<S: Sink>(
    form: Form,
    number: i64,
    sink: &mut S,
) -> Result<S::Tree, AllocError>
    ensures written { IfOk result
        (λ written_tree. S.wrote_tree sink.old (int64_form form number) written_tree sink.new) }
    ensures before { S.before sink.new ≡ S.before sink.old }
{
    if form.is_relaxed() {
        sink.integer(number)
    } else {
        write_numeral_object("$numberLong", number, sink)
    }
}
