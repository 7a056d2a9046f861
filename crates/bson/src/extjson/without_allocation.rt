//! Scalars that are written without a tree, so with no memory except that of the output.
ghost use Rattle.std.specs.Prelude.{◌≡◌, ◌<◌, ◌^◌, ◌++◌, ℕ, List, not, true, OnOk, IsTrue, FitsSigned};
ghost use Rattle.std.specs.Fmt.{signed_decimal};
ghost use Rattle.std.specs.Int.{w64};
ghost use Rattle.json.specs.Tree.{room};
ghost use Rattle.serde_json.specs.Data.{string};
ghost use Rattle.serde_json.specs.Data as tree;
ghost use Rattle.serde_json.specs.Find.{of_integer};
ghost use Rattle.bson_double.specs.FiniteDoubles.{is_finite};
ghost use Rattle.bson_double.specs.DoubleText.{IsDoubleText};
ghost use Rattle.bson_types.specs.DbPointer.{pointer_namespace, pointer_id};
ghost use Rattle.bson_types.specs.ObjectIds.{IsObjectId, encode_lower};
ghost use Rattle.bson_scalar.specs.Dates.{date_tree};
ghost use Rattle.bson_scalar.specs.Doubles as spec;
ghost use Rattle.bson_scalar.specs.Ids.{oid_tree, pointer_tree};
ghost use Rattle.bson_scalar.specs.Constants.{undefined_tree};
ghost use Rattle.bson_scalar.specs.Normal.{ScalarInRange};
ghost use Rattle.bson_scalar.specs.TreeParts.{one_key_object, natural};
ghost use Rattle.bson_scalar.specs.Timestamps.{timestamp_tree};
ghost use Rattle.bson_scalar.specs.Tokens.{code_tokens, tokens_of, AppendsTreeTokens};
ghost use Rattle.bson_scalar.specs.View.{scalar_of};
ghost use Rattle.bson_scalar.specs.Forms.{is_relaxed};
ghost use Rattle.bson_scalar.specs.Written.{date_form, double_writes_in, int32_form, int64_form, number_tree};
ghost use Rattle.bson_scalar.specs.Written.{special_double_tree, writes_scalar_in};
ghost use Rattle.bson_scalar.specs.declared.form.Doubles.TheVariants.{Finite};
ghost use Rattle.bson_scalar.specs.declared.form.Form.TheVariants.{Canonical, Relaxed};
ghost use Rattle.bson.specs.OutputCapacity.{is_allocation_free as is_scalar_allocation_free, tree_capacity, written_tree_capacity, StaysWithinCapacity, StaysWithinCapacityOrStops};

use bson_scalar::doubles::special_double_text;
use bson_scalar::form::{Doubles, Form};
use bson_scalar::laws::number_texts;
use bson_scalar::scalar_ref::ScalarRef;
use bson_scalar::write_error::WriteError;
use bson_types::datetime::DateTime;
use bson_types::db_pointer::DbPointer;
use bson_types::oid::ObjectId;
use bson_types::timestamp::Timestamp;
use json::Writer;
use std::alloc::AllocError;

// Returns whether the scalar is written without a tree.
pub(crate) fn is_allocation_free(form: Form, scalar: &ScalarRef<'_>) -> bool
    ensures { result ≡ is_scalar_allocation_free form (scalar_of scalar.now) }
{
    match *scalar {
        ScalarRef::RegularExpression(_) => false,
        ScalarRef::Binary(_) => false,
        ScalarRef::Decimal128(_) => false,
        ScalarRef::DateTime(_) => !form.is_relaxed(),
        ScalarRef::Timestamp(_) => !form.is_mongodb(),
        ScalarRef::DbPointer(_) => !form.is_mongodb(),
        _ => true,
    }
}

// Writes the scalar without a tree. Memory is lacking only if the capacity of the output was.
pub(crate) fn print_without_allocation(
    doubles: Doubles,
    form: Form,
    scalar: &ScalarRef<'_>,
    writer: &mut Writer,
) -> Result<(), WriteError>
    requires { is_scalar_allocation_free form (scalar_of scalar.now) ≡ true }
    ensures printed { AppendsTreeTokens result
        (writes_scalar_in doubles form (scalar_of scalar.now)) writer.old.tokens writer.new.tokens }
    ensures before { writer.new.before ≡ writer.old.before }
    ensures within_type_range { OnOk result (ScalarInRange (scalar_of scalar.now)) }
    ensures room { StaysWithinCapacityOrStops result writer.old.spare writer.new.spare
        (written_tree_capacity (writes_scalar_in doubles form (scalar_of scalar.now))) }
{
    match *scalar {
        ScalarRef::Null => Ok(writer.null()?),
        ScalarRef::Undefined => Ok(put_undefined(writer)?),
        ScalarRef::MinKey => Ok(put_wrapper_of_one("$minKey", writer)?),
        ScalarRef::MaxKey => Ok(put_wrapper_of_one("$maxKey", writer)?),
        ScalarRef::Boolean(truth) => Ok(writer.boolean(truth)?),
        ScalarRef::Double(pattern) => put_double(doubles, form, pattern, writer),
        ScalarRef::Int32(integer) => Ok(put_int32(form, integer, writer)?),
        ScalarRef::Int64(integer) => Ok(put_int64(form, integer, writer)?),
        ScalarRef::String(text) => Ok(writer.string(text)?),
        ScalarRef::Symbol(text) => Ok(put_text("$symbol", text, writer)?),
        ScalarRef::JavaScriptCode(code) => Ok(put_text("$code", code, writer)?),
        ScalarRef::Timestamp(timestamp) => Ok(put_timestamp(timestamp, writer)?),
        ScalarRef::ObjectId(id) => Ok(put_object_id(id, writer)?),
        ScalarRef::DateTime(date) => Ok(put_date(form, date, writer)?),
        ScalarRef::DbPointer(pointer) => Ok(put_pointer(pointer, writer)?),
        _ => unreachable!(),
    }
}

// Writes the part of the text of code with its scope that is before the scope.
pub(crate) fn put_code(code: &str, writer: &mut Writer) -> Result<(), AllocError>
    ensures put { OnOk result (writer.new.tokens ≡ writer.old.tokens ++ code_tokens code.now) }
    ensures before { writer.new.before ≡ writer.old.before }
    ensures room { StaysWithinCapacity result writer.old.spare writer.new.spare (room (code_tokens code.now)) }
{
    writer.begin_object()?;
    writer.key("$code")?;
    writer.string(code)?;
    writer.key("$scope")
}

// An object of one key that holds a text.
fn put_text(name: &str, text: &str, writer: &mut Writer) -> Result<(), AllocError>
    ensures put { OnOk result (writer.new.tokens ≡ writer.old.tokens
        ++ tokens_of (one_key_object name.now (string text.now))) }
    ensures before { writer.new.before ≡ writer.old.before }
    ensures room { StaysWithinCapacity result writer.old.spare writer.new.spare
        (tree_capacity (one_key_object name.now (string text.now))) }
{
    writer.begin_object()?;
    writer.key(name)?;
    writer.string(text)?;
    writer.end_object()
}

// An object of one key that holds the text of a number.
fn put_quoted_i64(name: &str, number: i64, writer: &mut Writer) -> Result<(), AllocError>
    ensures put { OnOk result (writer.new.tokens ≡ writer.old.tokens
        ++ tokens_of (one_key_object name.now (string (signed_decimal number)))) }
    ensures before { writer.new.before ≡ writer.old.before }
    ensures room { StaysWithinCapacity result writer.old.spare writer.new.spare
        (tree_capacity (one_key_object name.now (string (signed_decimal number)))) }
{
    writer.begin_object()?;
    writer.key(name)?;
    writer.quoted_i64(number)?;
    writer.end_object()
}

// The number 1 under a key.
fn put_wrapper_of_one(name: &str, writer: &mut Writer) -> Result<(), AllocError>
    ensures put { OnOk result
        (writer.new.tokens ≡ writer.old.tokens ++ tokens_of (one_key_object name.now (natural 1))) }
    ensures before { writer.new.before ≡ writer.old.before }
    ensures room { StaysWithinCapacity result writer.old.spare writer.new.spare
        (tree_capacity (one_key_object name.now (natural 1))) }
{
    writer.begin_object()?;
    writer.key(name)?;
    writer.u64(1)?;
    writer.end_object()
}

fn put_undefined(writer: &mut Writer) -> Result<(), AllocError>
    ensures put { OnOk result (writer.new.tokens ≡ writer.old.tokens ++ tokens_of undefined_tree) }
    ensures before { writer.new.before ≡ writer.old.before }
    ensures room { StaysWithinCapacity result writer.old.spare writer.new.spare (tree_capacity undefined_tree) }
{
    writer.begin_object()?;
    writer.key("$undefined")?;
    writer.boolean(true)?;
    writer.end_object()
}

fn put_int32(form: Form, number: i32, writer: &mut Writer) -> Result<(), AllocError>
    ensures put { OnOk result (writer.new.tokens ≡ writer.old.tokens ++ tokens_of (int32_form form number)) }
    ensures before { writer.new.before ≡ writer.old.before }
    ensures room { StaysWithinCapacity result writer.old.spare writer.new.spare
        (tree_capacity (int32_form form number)) }
{
    if form.is_relaxed() {
        put_integer(number as i64, writer)
    } else {
        put_quoted_i64("$numberInt", number as i64, writer)
    }
}

fn put_int64(form: Form, number: i64, writer: &mut Writer) -> Result<(), AllocError>
    ensures put { OnOk result (writer.new.tokens ≡ writer.old.tokens ++ tokens_of (int64_form form number)) }
    ensures before { writer.new.before ≡ writer.old.before }
    ensures room { StaysWithinCapacity result writer.old.spare writer.new.spare
        (tree_capacity (int64_form form number)) }
{
    if form.is_relaxed() {
        put_integer(number, writer)
    } else {
        put_quoted_i64("$numberLong", number, writer)
    }
}

// A number.
fn put_integer(number: i64, writer: &mut Writer) -> Result<(), AllocError>
    ensures put { OnOk result (writer.new.tokens ≡ writer.old.tokens ++ tokens_of (tree.number (of_integer number))) }
    ensures before { writer.new.before ≡ writer.old.before }
    ensures room { StaysWithinCapacity result writer.old.spare writer.new.spare
        (tree_capacity (tree.number (of_integer number))) }
{
    writer.i64(number)
}

fn put_timestamp(timestamp: Timestamp, writer: &mut Writer) -> Result<(), AllocError>
    ensures put { OnOk result (writer.new.tokens ≡ writer.old.tokens
        ++ tokens_of (timestamp_tree timestamp.time timestamp.increment)) }
    ensures before { writer.new.before ≡ writer.old.before }
    ensures within_type_range { OnOk result ((timestamp.time < 2 ^ 32) × (timestamp.increment < 2 ^ 32)) }
    ensures room { StaysWithinCapacity result writer.old.spare writer.new.spare
        (tree_capacity (timestamp_tree timestamp.time timestamp.increment)) }
{
    writer.begin_object()?;
    writer.key("$timestamp")?;
    writer.begin_object()?;
    writer.key("i")?;
    writer.u64(timestamp.increment as u64)?;
    writer.key("t")?;
    writer.u64(timestamp.time as u64)?;
    writer.end_object()?;
    writer.end_object()
}

// A moment in a form that is not relaxed.
fn put_date(form: Form, date: DateTime, writer: &mut Writer) -> Result<(), AllocError>
    requires { not (is_relaxed form) ≡ true }
    ensures put { OnOk result (writer.new.tokens ≡ writer.old.tokens ++ tokens_of (date_form form date)) }
    ensures before { writer.new.before ≡ writer.old.before }
    ensures within_type_range { OnOk result (FitsSigned w64 date) }
    ensures room { StaysWithinCapacity result writer.old.spare writer.new.spare (tree_capacity (date_form form date)) }
{
    put_millis(date, writer)
}

// A moment as its milliseconds.
fn put_millis(date: DateTime, writer: &mut Writer) -> Result<(), AllocError>
    ensures put { OnOk result (writer.new.tokens ≡ writer.old.tokens ++ tokens_of (date_tree date)) }
    ensures before { writer.new.before ≡ writer.old.before }
    ensures within_type_range { OnOk result (FitsSigned w64 date) }
    ensures room { StaysWithinCapacity result writer.old.spare writer.new.spare (tree_capacity (date_tree date)) }
{
    writer.begin_object()?;
    writer.key("$date")?;
    put_quoted_i64("$numberLong", date.timestamp_millis(), writer)?;
    writer.end_object()
}

// The 24 digits of an object id, on the stack.
fn digits_of(id: ObjectId) -> [u8; 24]
    ensures digits { result ≡ encode_lower id }
    ensures within_type_range { IsObjectId id }
{
    let mut digits = [0u8; 24];
    let bytes = id.bytes();
    match hex::encode_to_slice(bytes.as_slice(), &mut digits) {
        Ok(()) => digits,
        Err(_) => unreachable!(),
    }
}

fn put_object_id(id: ObjectId, writer: &mut Writer) -> Result<(), AllocError>
    ensures put { OnOk result (writer.new.tokens ≡ writer.old.tokens ++ tokens_of (oid_tree id)) }
    ensures before { writer.new.before ≡ writer.old.before }
    ensures within_type_range { OnOk result (IsObjectId id) }
    ensures room { StaysWithinCapacity result writer.old.spare writer.new.spare (tree_capacity (oid_tree id)) }
{
    let digits = digits_of(id);
    match str::from_utf8(&digits) {
        Ok(text) => put_text("$oid", text, writer),
        Err(_) => unreachable!(),
    }
}

fn put_pointer(pointer: &DbPointer, writer: &mut Writer) -> Result<(), AllocError>
    ensures put { OnOk result (writer.new.tokens ≡ writer.old.tokens
        ++ tokens_of (pointer_tree (pointer_namespace pointer.now) (pointer_id pointer.now))) }
    ensures before { writer.new.before ≡ writer.old.before }
    ensures within_type_range { OnOk result (IsObjectId (pointer_id pointer.now)) }
    ensures room { StaysWithinCapacity result writer.old.spare writer.new.spare
        (tree_capacity (pointer_tree (pointer_namespace pointer.now) (pointer_id pointer.now))) }
{
    writer.begin_object()?;
    writer.key("$dbPointer")?;
    writer.begin_object()?;
    writer.key("$id")?;
    put_object_id(pointer.id(), writer)?;
    writer.key("$ref")?;
    writer.string(pointer.namespace())?;
    writer.end_object()?;
    writer.end_object()
}

fn put_special_double(pattern: u64, writer: &mut Writer) -> Result<(), WriteError>
    ensures printed { AppendsTreeTokens result
        (special_double_tree (spec.double_text pattern)) writer.old.tokens writer.new.tokens }
    ensures before { writer.new.before ≡ writer.old.before }
    ensures room { StaysWithinCapacityOrStops result writer.old.spare writer.new.spare
        (written_tree_capacity (special_double_tree (spec.double_text pattern))) }
{
    match special_double_text(pattern) {
        Some(text) => Ok(put_text("$numberDouble", text, writer)?),
        None => Err(WriteError::FiniteDouble),
    }
}

// The shortest decimal of a finite double.
fn put_finite_double(pattern: u64, writer: &mut Writer) -> Result<(), AllocError>
    requires { IsTrue (is_finite pattern) }
    ensures finite { IsTrue (is_finite pattern) }
    ensures put { OnOk result ((text_bytes : List ℕ) × IsDoubleText pattern text_bytes
        × (writer.new.tokens ≡ writer.old.tokens ++ tokens_of (spec.double_tree text_bytes))) }
    ensures before { writer.new.before ≡ writer.old.before }
    ensures room { (text_bytes : List ℕ) × IsDoubleText pattern text_bytes
        × StaysWithinCapacity result writer.old.spare writer.new.spare (tree_capacity (spec.double_tree text_bytes)) }
{
    put_text(
        "$numberDouble",
        bson_double::double_text(pattern).as_str(),
        writer,
    )
}

fn put_canonical_double(pattern: u64, writer: &mut Writer) -> Result<(), WriteError>
    ensures printed { AppendsTreeTokens result
        (double_writes_in Finite Canonical pattern) writer.old.tokens writer.new.tokens }
    ensures before { writer.new.before ≡ writer.old.before }
    ensures room { StaysWithinCapacityOrStops result writer.old.spare writer.new.spare
        (written_tree_capacity (double_writes_in Finite Canonical pattern)) }
{
    match special_double_text(pattern) {
        Some(text) => Ok(put_text("$numberDouble", text, writer)?),
        None => Ok(put_finite_double(pattern, writer)?),
    }
}

// A finite double as a number.
fn put_double_number(pattern: u64, writer: &mut Writer) -> Result<(), AllocError>
    requires { IsTrue (is_finite pattern) }
    ensures put { OnOk result (writer.new.tokens ≡ writer.old.tokens ++ tokens_of (number_tree pattern)) }
    ensures before { writer.new.before ≡ writer.old.before }
    ensures room { StaysWithinCapacity result writer.old.spare writer.new.spare (tree_capacity (number_tree pattern)) }
{
    // What is known of the text of a number.
    number_texts();
    writer.number(bson_double::double_text(pattern).as_str())
}

fn put_relaxed_double(pattern: u64, writer: &mut Writer) -> Result<(), WriteError>
    ensures printed { AppendsTreeTokens result
        (double_writes_in Finite Relaxed pattern) writer.old.tokens writer.new.tokens }
    ensures before { writer.new.before ≡ writer.old.before }
    ensures room { StaysWithinCapacityOrStops result writer.old.spare writer.new.spare
        (written_tree_capacity (double_writes_in Finite Relaxed pattern)) }
{
    if bson_double::is_finite(pattern) {
        Ok(put_double_number(pattern, writer)?)
    } else {
        put_special_double(pattern, writer)
    }
}

fn put_double(
    doubles: Doubles,
    form: Form,
    pattern: u64,
    writer: &mut Writer,
) -> Result<(), WriteError>
    ensures printed { AppendsTreeTokens result
        (double_writes_in doubles form pattern) writer.old.tokens writer.new.tokens }
    ensures before { writer.new.before ≡ writer.old.before }
    ensures room { StaysWithinCapacityOrStops result writer.old.spare writer.new.spare
        (written_tree_capacity (double_writes_in doubles form pattern)) }
{
    match (doubles, form.is_relaxed()) {
        (Doubles::Special, _) => put_special_double(pattern, writer),
        (Doubles::Finite, false) => put_canonical_double(pattern, writer),
        (Doubles::Finite, true) => put_relaxed_double(pattern, writer),
    }
}
