//! `$numberDouble`: one of six texts, or a decimal number where finite doubles are read and written.
//! Read and written as `{"$numberDouble": "-0.0"}` and `{"$numberDouble": "12.5"}`, and a finite
//! double in the relaxed form as `12.5`; a double is its pattern of 64 bits (IEEE 754-2008 binary64).
ghost use Rattle.std.specs.Prelude.{◌≡◌, ℕ, List, Some, IfOk, IsTrue, option_map};
ghost use Rattle.bson_double.specs.FiniteDoubles.{is_finite};
ghost use Rattle.bson_scalar.specs.Shortest.{finite_double_text};
ghost use Rattle.serde_json.specs.View.{view, number_view};
ghost use Rattle.bson_scalar.specs.Doubles as spec;
ghost use Rattle.bson_scalar.specs.Faults.{IsReadResult};
ghost use Rattle.bson_scalar.specs.Ints.{narrowest_int};
ghost use Rattle.bson_scalar.specs.Reading.{double_read_in, number_read_in};
ghost use Rattle.bson_scalar.specs.Tokens.{IsSinkResult};
ghost use Rattle.bson_scalar.specs.View.{scalar_view};
ghost use Rattle.bson_scalar.specs.Written.{double_writes_in, special_double_tree};
ghost use Rattle.bson_scalar.specs.declared.form.Doubles.TheVariants.{Special, Finite};
ghost use Rattle.bson_scalar.specs.declared.form.Form.TheVariants.{Canonical, Relaxed};

use crate::error::Error;
use crate::form::{Doubles, Form};
use crate::object_writer::write_text_object;
use crate::scalar::Scalar;
use crate::sink::Sink;
use crate::tree_parts::{expect, expect_string};
use crate::write_error::WriteError;
use serde_json::{Number, Value};
use std::alloc::AllocError;

const SHAPE_MESSAGE: &str =
    "`$numberDouble` must be `0.0`, `-0.0`, `Infinity`, `-Infinity`, `NaN` or `-NaN`";

const FINITE_SHAPE_MESSAGE: &str =
    "`$numberDouble` must be a decimal number whose nearest double is finite, \
    `Infinity`, `-Infinity`, `NaN` or `-NaN`";

/// The message for a JSON number that is not an i64, with `Doubles::Special`.
pub const NUMBER_MESSAGE: &str = "not a 64-bit integer";

const FINITE_NUMBER_MESSAGE: &str = "a number is greater than any double";

// The pattern of a text: of a NaN the quiet one of its sign with no payload.
fn special_double_bits(text: &str) -> Option<u64>
    ensures { result ≡ spec.special_double_pattern text.now }
{
    if text == "0.0" {
        Some(0)
    } else if text == "-0.0" {
        Some(0x8000_0000_0000_0000)
    } else if text == "Infinity" {
        Some(0x7FF0_0000_0000_0000)
    } else if text == "-Infinity" {
        Some(0xFFF0_0000_0000_0000)
    } else if text == "NaN" {
        Some(0x7FF8_0000_0000_0000)
    } else if text == "-NaN" {
        Some(0xFFF8_0000_0000_0000)
    } else {
        None
    }
}

// The same, and else the pattern of the double nearest to a decimal number.
fn finite_double_bits(text: &str) -> Option<u64>
    ensures { result ≡ spec.or_parsed_finite_bits (spec.special_double_pattern text.now) text.now }
{
    match special_double_bits(text) {
        Some(pattern) => Some(pattern),
        None => bson_double::double_of_text(text.as_bytes()).ok(),
    }
}

fn double_bits_of_text(doubles: Doubles, text: &str) -> Option<u64>
    ensures { result ≡ spec.double_bits_of_text doubles text.now }
{
    match doubles {
        Doubles::Special => special_double_bits(text),
        Doubles::Finite => finite_double_bits(text),
    }
}

fn expected_shape(doubles: Doubles) -> &'static str {
    match doubles {
        Doubles::Special => SHAPE_MESSAGE,
        Doubles::Finite => FINITE_SHAPE_MESSAGE,
    }
}

// What `$numberDouble` holds, as the pattern of a double.
pub(crate) fn read_double(doubles: Doubles, value: Value) -> Result<Scalar, Error>
    ensures { IsReadResult scalar_view result (double_read_in doubles (view value)) }
{
    let text = expect_string(value, expected_shape(doubles))?;
    let pattern = expect(
        double_bits_of_text(doubles, text.as_str()),
        expected_shape(doubles),
    )?;
    Ok(Scalar::Double(pattern))
}

fn finite_number(number: &Number) -> Option<u64>
    ensures { result ≡ spec.finite_number (number_view number.now) }
{
    let nearest_double = number.as_f64()?;
    if nearest_double.is_finite() {
        Some(nearest_double.to_bits())
    } else {
        None
    }
}

fn narrowest_number(number: i64) -> Scalar
    ensures { scalar_view result ≡ narrowest_int number }
{
    if i32::MIN as i64 <= number && number <= i32::MAX as i64 {
        Scalar::Int32(number as i32)
    } else {
        Scalar::Int64(number)
    }
}

/// Returns the meaning of a JSON number. An i64 is an Int32 if it fits, else an Int64. With
/// `Doubles::Finite` any other number is the double nearest to it.
///
/// # Errors
///
/// - `DeserializationError` with `Doubles::Special`: the number is not an i64.
/// - `DeserializationError` with `Doubles::Finite`: the double nearest to the number is not finite.
pub fn read_number(doubles: Doubles, number: &Number) -> Result<Scalar, Error>
    ensures { IsReadResult scalar_view result (number_read_in doubles (number_view number.now)) }
{
    let as_integer = number.as_i64();
    match doubles {
        Doubles::Special => Ok(narrowest_number(expect(as_integer, NUMBER_MESSAGE)?)),
        Doubles::Finite => match as_integer {
            Some(as_integer) => Ok(narrowest_number(as_integer)),
            None => Ok(Scalar::Double(expect(finite_number(number), FINITE_NUMBER_MESSAGE)?)),
        },
    }
}

/// Returns the text of a double that is a zero, an infinity or a NaN.
pub fn special_double_text(pattern: u64) -> Option<&'static str>
    ensures { option_map (λ text_bytes. text_bytes.now) result ≡ spec.double_text pattern }
{
    if pattern == 0 {
        Some("0.0")
    } else if pattern == 0x8000_0000_0000_0000 {
        Some("-0.0")
    } else if pattern == 0x7FF0_0000_0000_0000 {
        Some("Infinity")
    } else if pattern == 0xFFF0_0000_0000_0000 {
        Some("-Infinity")
    } else if 0x7FF0_0000_0000_0000 < pattern && pattern < 0x8000_0000_0000_0000 {
        Some("NaN")
    } else if 0xFFF0_0000_0000_0000 < pattern {
        Some("-NaN")
    } else {
        None
    }
}

fn write_special_double<S: Sink>(pattern: u64, sink: &mut S) -> Result<S::Tree, WriteError>
    ensures written { IsSinkResult
        (λ json_tree written_tree. S.wrote_tree sink.old json_tree written_tree sink.new) result
        (special_double_tree (spec.double_text pattern)) }
    ensures before { S.before sink.new ≡ S.before sink.old }
{
    match special_double_text(pattern) {
        Some(text) => Ok(write_text_object("$numberDouble", text, sink)?),
        None => Err(WriteError::FiniteDouble),
    }
}

// Writes the shortest decimal of a double that is finite.
fn write_finite_double<S: Sink>(pattern: u64, sink: &mut S) -> Result<S::Tree, AllocError>
    requires { IsTrue (is_finite pattern) }
    ensures written { IfOk result (λ written_tree. (text_bytes : List ℕ)
        × (finite_double_text pattern ≡ Some text_bytes)
        × S.wrote_tree sink.old (spec.double_tree text_bytes) written_tree sink.new) }
    ensures before { S.before sink.new ≡ S.before sink.old }
{
    write_text_object(
        "$numberDouble",
        bson_double::double_text(pattern).as_str(),
        sink,
    )
}

fn write_canonical_double<S: Sink>(pattern: u64, sink: &mut S) -> Result<S::Tree, WriteError>
    ensures written { IsSinkResult
        (λ json_tree written_tree. S.wrote_tree sink.old json_tree written_tree sink.new) result
        (double_writes_in Finite Canonical pattern) }
    ensures before { S.before sink.new ≡ S.before sink.old }
{
    match special_double_text(pattern) {
        Some(text) => Ok(write_text_object("$numberDouble", text, sink)?),
        None => Ok(write_finite_double(pattern, sink)?),
    }
}

fn write_relaxed_double<S: Sink>(pattern: u64, sink: &mut S) -> Result<S::Tree, WriteError>
    ensures written { IsSinkResult
        (λ json_tree written_tree. S.wrote_tree sink.old json_tree written_tree sink.new) result
        (double_writes_in Finite Relaxed pattern) }
    ensures before { S.before sink.new ≡ S.before sink.old }
{
    if bson_double::is_finite(pattern) {
        Ok(sink.double(pattern)?)
    } else {
        write_special_double(pattern, sink)
    }
}

// Writes the tree of a double: a NaN as `NaN` or `-NaN` by its sign. Where finite doubles are
// written one that is finite is its shortest decimal, which the relaxed form has as a JSON number.
// Where they are not one that is no zero is refused as `FiniteDouble`.
pub(crate) fn write_double<S: Sink>(
    doubles: Doubles,
    form: Form,
    pattern: u64,
    sink: &mut S,
) -> Result<S::Tree, WriteError>
    ensures written { IsSinkResult
        (λ json_tree written_tree. S.wrote_tree sink.old json_tree written_tree sink.new) result
        (double_writes_in doubles form pattern) }
    ensures before { S.before sink.new ≡ S.before sink.old }
{
    match (doubles, form.is_relaxed()) {
        (Doubles::Special, _) => write_special_double(pattern, sink),
        (Doubles::Finite, false) => write_canonical_double(pattern, sink),
        (Doubles::Finite, true) => write_relaxed_double(pattern, sink),
    }
}
