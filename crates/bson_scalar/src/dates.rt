//! `$date`: a moment. Read as `{"$numberLong": "5"}`, as an RFC 3339 text or as an integer of
//! milliseconds since 1970-01-01T00:00:00Z under that key, and written as `$numberLong`, or in the
//! relaxed form as an RFC 3339 text from 1970 to the end of the year 9999.
ghost use Rattle.std.specs.Prelude.{◌≡◌, IfOk, OnOk, FitsSigned, codes, pos, ◌≤ℤ◌, string_bytes};
ghost use Rattle.std.specs.Int.{w64};
ghost use Rattle.serde_json.specs.View.{view};
ghost use Rattle.bson_datetime.specs.Rfc3339Parser.{parsed_rfc3339_millis};
ghost use Rattle.bson_scalar.specs.Dates.{date_tree, relaxed_date_text, relaxed_date_tree};
ghost use Rattle.bson_scalar.specs.Faults.{IsReadResult, or_wrong_shape};
ghost use Rattle.bson_scalar.specs.Reading.{date_millis_of, date_read};
ghost use Rattle.bson_scalar.specs.Written.{date_form};
ghost use Rattle.bson_scalar.specs.View.{scalar_view};

use crate::error::Error;
use crate::form::Form;
use crate::ints::int64_of;
use crate::object_writer::{
    begin_object, end_one_key_object, write_numeral_object, write_owned_text_object,
};
use crate::scalar::Scalar;
use crate::sink::Sink;
use crate::tree_parts::{expect, expect_single_key, expect_string};
use bson_datetime::DateTime;
use serde_json::Value;
use std::alloc::{AllocError, Global};

const SHAPE_MESSAGE: &str = "`$date` must be an RFC 3339 string, an integer or a `$numberLong`";

// The last millisecond of the year 9999.
const LAST_RELAXED_MILLIS: i64 = 253_402_300_799_999;

fn date_of_rfc3339(text: &str) -> Option<DateTime>
    ensures { result ≡ parsed_rfc3339_millis text.now }
{
    match DateTime::parse_rfc3339_str(text) {
        Ok(date) => Some(date),
        Err(_) => None,
    }
}

fn date_millis_in(value: Value) -> Result<i64, Error>
    ensures { IsReadResult (λ millis. millis) result (date_millis_of (view value)) }
{
    match value {
        Value::String(text) => expect(date_of_rfc3339(text.as_str()), SHAPE_MESSAGE).map(
            |date| date.timestamp_millis(),
        ),
        Value::Number(number) => expect(number.as_i64(), SHAPE_MESSAGE),
        value => {
            let text = expect_string(
                expect_single_key(value, "$numberLong", SHAPE_MESSAGE)?,
                SHAPE_MESSAGE,
            )?;
            expect(int64_of(text.as_str()), SHAPE_MESSAGE)
        }
    }
}

// What `$date` holds, as a moment.
pub(crate) fn read_date(value: Value) -> Result<Scalar, Error>
    ensures { IsReadResult scalar_view result (date_read (view value)) }
{
    let millis = date_millis_in(value)?;
    Ok(Scalar::DateTime(DateTime::from_millis(millis)))
}

// Returns the string of a date in a relaxed form.
fn date_text(alloc: Global, form: Form, date: DateTime) -> Result<String, AllocError>
    requires from_1970 { pos 0 ≤ℤ date }
    requires until_9999 { date ≤ℤ pos 253_402_300_799_999 }
    ensures { IfOk result (λ written_text. string_bytes written_text ≡ relaxed_date_text form date) }
{
    let written = if form.is_mongodb() {
        date.try_to_rfc3339_millis_string(alloc)
    } else {
        date.try_to_rfc3339_string(alloc)
    };
    match written {
        Ok(text) => Ok(text),
        Err(bson_datetime::Error::OutOfMemory) => Err(AllocError),
        Err(_) => unreachable!(),
    }
}

// Writes the tree of a date in the canonical form: its milliseconds.
fn write_date_millis<S: Sink>(date: DateTime, sink: &mut S) -> Result<S::Tree, AllocError>
    ensures written { IfOk result (λ written_tree. S.wrote_tree sink.old (date_tree date) written_tree sink.new) }
    ensures before { S.before sink.new ≡ S.before sink.old }
{
    let key = begin_object("$date", sink)?;
    let millis = write_numeral_object("$numberLong", date.timestamp_millis(), sink)?;
    end_one_key_object(key, millis, sink)
}

// Writes the tree of a date in a relaxed form.
fn write_relaxed_date<S: Sink>(
    alloc: Global,
    form: Form,
    date: DateTime,
    sink: &mut S,
) -> Result<S::Tree, AllocError>
    ensures written { IfOk result
        (λ written_tree. S.wrote_tree sink.old (relaxed_date_tree (relaxed_date_text form date) date) written_tree sink.new) }
    ensures before { S.before sink.new ≡ S.before sink.old }
{
    let millis = date.timestamp_millis();
    if 0 <= millis && millis <= LAST_RELAXED_MILLIS {
        let rfc3339_date = date_text(alloc, form, date)?;
        write_owned_text_object("$date", rfc3339_date, sink)
    } else {
        write_date_millis(date, sink)
    }
}

// Writes the tree of a moment in a form.
pub(crate) fn write_date<S: Sink>(
    alloc: Global,
    form: Form,
    date: DateTime,
    sink: &mut S,
) -> Result<S::Tree, AllocError>
    ensures written { IfOk result (λ written_tree. S.wrote_tree sink.old (date_form form date) written_tree sink.new) }
    ensures before { S.before sink.new ≡ S.before sink.old }
    ensures within_type_range { OnOk result (FitsSigned w64 date) }
{
    if form.is_relaxed() {
        write_relaxed_date(alloc, form, date, sink)
    } else {
        write_date_millis(date, sink)
    }
}
