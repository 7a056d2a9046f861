//! Writes a scalar in either form.
ghost use Rattle.std.specs.Prelude.{◌≡◌, ◌<◌, ◌++◌, OnOk};
ghost use Rattle.hex.specs.Hex.{IsBytes};
ghost use Rattle.serde_json.specs.View.{view};
ghost use Rattle.bson_types.specs.BinarySubtypes.{subtype_byte};
ghost use Rattle.bson_scalar.specs.Binaries.{binary_tree};
ghost use Rattle.bson_scalar.specs.Normal.{ScalarInRange};
ghost use Rattle.bson_scalar.specs.OrderedScalars.{writes_scalar_in_order};
ghost use Rattle.bson_scalar.specs.Tokens.{tokens_of, IsSinkResult, AppendsTreeTokens};
ghost use Rattle.bson_scalar.specs.View.{scalar_view};
ghost use Rattle.bson_scalar.specs.Written.{IsWriteResult, writes_scalar_in};

use crate::binaries::{write_binary, write_owned_binary};
use crate::constants::{write_max_key, write_min_key, write_undefined};
use crate::dates::write_date;
use crate::decimals::write_decimal;
use crate::doubles::write_double;
use crate::form::{Doubles, Form};
use crate::ids::{write_oid, write_pointer};
use crate::ints::{write_int32, write_int64};
use crate::mongodb_layout::{print_pointer, print_regex, print_timestamp};
use crate::regexes::write_regex;
use crate::scalar::Scalar;
use crate::sink::{Sink, Trees};
use crate::texts::{write_code, write_symbol};
use crate::timestamps::write_timestamp;
use crate::write_error::WriteError;
use bson_types::binary::Binary;
use json::Writer;
use serde_json::Value;
use std::alloc::{AllocError, Global};

// Writes the tree of a scalar in a form (MongoDB Extended JSON v2) to a sink. Texts are moved into
// a tree in memory.
//
// `FiniteDouble` comes exactly for a double that is finite and no zero, where finite doubles are
// not written.
fn write_scalar_to<S: Sink>(
    alloc: Global,
    doubles: Doubles,
    form: Form,
    value: Scalar,
    sink: &mut S,
) -> Result<S::Tree, WriteError>
    ensures written { IsSinkResult
        (λ json_tree written_tree. S.wrote_tree sink.old json_tree written_tree sink.new) result
        (writes_scalar_in doubles form (scalar_view value)) }
    ensures before { S.before sink.new ≡ S.before sink.old }
    ensures within_type_range { OnOk result (ScalarInRange (scalar_view value)) }
{
    let write_result = match value {
        Scalar::Null => sink.null(),
        Scalar::Undefined => write_undefined(sink),
        Scalar::MinKey => write_min_key(sink),
        Scalar::MaxKey => write_max_key(sink),
        Scalar::Boolean(truth_value) => sink.boolean(truth_value),
        Scalar::Double(pattern) => return write_double(doubles, form, pattern, sink),
        Scalar::Int32(integer) => write_int32(form, integer, sink),
        Scalar::Int64(integer) => write_int64(form, integer, sink),
        Scalar::String(text) => sink.owned_text(text),
        Scalar::Symbol(text) => write_symbol(text, sink),
        Scalar::JavaScriptCode(code) => write_code(code, sink),
        Scalar::RegularExpression(regex) => write_regex(alloc, regex, sink),
        Scalar::Timestamp(timestamp) => write_timestamp(timestamp, sink),
        Scalar::Binary(binary) => write_owned_binary(alloc, binary, sink),
        Scalar::ObjectId(id) => write_oid(alloc, id, sink),
        Scalar::DateTime(date) => write_date(alloc, form, date, sink),
        Scalar::Decimal128(decimal) => write_decimal(alloc, decimal, sink),
        Scalar::DbPointer(pointer) => write_pointer(alloc, pointer, sink),
    };
    Ok(write_result?)
}

/// Makes the tree of a scalar in a form (MongoDB Extended JSON v2). Texts are moved into it.
///
/// # Errors
///
/// - `FiniteDouble`: the scalar is a finite double other than zero, with `Doubles::Special`.
/// - `OutOfMemory`: a request for memory was refused.
pub fn write_scalar_in(
    alloc: Global,
    doubles: Doubles,
    form: Form,
    value: Scalar,
) -> Result<Value, WriteError>
    ensures written { IsWriteResult view result (writes_scalar_in doubles form (scalar_view value)) }
    ensures within_type_range { OnOk result (ScalarInRange (scalar_view value)) }
{
    write_scalar_to(alloc, doubles, form, value, &mut Trees::new(alloc))
}

/// Writes the tree of a scalar, as `write_scalar_in` makes it, without the tree.
///
/// # Errors
///
/// - `FiniteDouble`: the scalar is a finite double other than zero, with `Doubles::Special`.
/// - `OutOfMemory`: a request for memory was refused.
pub fn print_scalar_in(
    alloc: Global,
    doubles: Doubles,
    form: Form,
    value: Scalar,
    sink: &mut Writer,
) -> Result<(), WriteError>
    ensures printed { AppendsTreeTokens result
        (writes_scalar_in doubles form (scalar_view value)) sink.old.tokens sink.new.tokens }
    ensures before { sink.new.before ≡ sink.old.before }
    ensures within_type_range { OnOk result (ScalarInRange (scalar_view value)) }
{
    write_scalar_to(alloc, doubles, form, value, sink)
}

/// Writes the tree of a scalar as [`print_scalar_in`] does, with the keys of its wrapper in the order of
/// the form.
///
/// # Errors
///
/// The errors of `print_scalar_in`.
pub fn print_ordered_scalar(
    alloc: Global,
    doubles: Doubles,
    form: Form,
    value: Scalar,
    sink: &mut Writer,
) -> Result<(), WriteError>
    ensures printed { AppendsTreeTokens result
        (writes_scalar_in_order doubles form (scalar_view value)) sink.old.tokens sink.new.tokens }
    ensures before { sink.new.before ≡ sink.old.before }
    ensures within_type_range { OnOk result (ScalarInRange (scalar_view value)) }
{
    match (form.is_mongodb(), value) {
        (true, Scalar::RegularExpression(regex)) => Ok(print_regex(alloc, regex, sink)?),
        (true, Scalar::Timestamp(timestamp)) => Ok(print_timestamp(timestamp, sink)?),
        (true, Scalar::DbPointer(pointer)) => Ok(print_pointer(alloc, pointer, sink)?),
        (_, value) => print_scalar_in(alloc, doubles, form, value, sink),
    }
}

/// Writes the tree of a binary, as `write_scalar_in` makes it, without the tree.
///
/// # Errors
///
/// Returns `AllocError` if a request for memory is refused.
pub fn put_binary(alloc: Global, binary: &Binary, sink: &mut Writer) -> Result<(), AllocError>
    ensures put { OnOk result (sink.new.tokens ≡ sink.old.tokens
        ++ tokens_of (binary_tree binary.now.subtype binary.now.bytes.items)) }
    ensures before { sink.new.before ≡ sink.old.before }
    ensures within_type_range { OnOk result ((subtype_byte binary.now.subtype < 256) × IsBytes binary.now.bytes.items) }
{
    write_binary(alloc, binary, sink)
}
