//! `$numberDecimal`: the text of a decimal that a Decimal128 has exactly. Read as
//! `{"$numberDecimal": "1.50"}`, and written as the printed text.
ghost use Rattle.std.specs.Prelude.{◌≡◌, IfOk};
ghost use Rattle.serde_json.specs.View.{view};
ghost use Rattle.bson_scalar.specs.Decimals.{decimal_tree};
ghost use Rattle.bson_scalar.specs.Faults.{IsReadResult};
ghost use Rattle.bson_scalar.specs.Reading.{decimal_pattern as decimal_in, decimal_read};
ghost use Rattle.bson_scalar.specs.View.{scalar_view};

use crate::error::Error;
use crate::object_writer::write_owned_text_object;
use crate::scalar::Scalar;
use crate::sink::Sink;
use crate::tree_parts::{expect, expect_string};
use bson_decimal::Decimal128;
use serde_json::Value;
use std::alloc::{AllocError, Global};

const SHAPE_MESSAGE: &str =
    "`$numberDecimal` must be a string with a decimal that fits a Decimal128 exactly";

// The number of bytes of the longest text: a sign, 34 digits, a point, `E`, and an exponent of a
// sign and four digits.
const MAX_DECIMAL_TEXT_BYTES: usize = 42;

// The decimal of a text.
fn decimal_of(text: &str) -> Option<Decimal128>
    ensures { result ≡ decimal_in text.now }
{
    text.parse::<Decimal128>().ok()
}

// What `$numberDecimal` holds, as a decimal.
pub(crate) fn read_decimal(value: Value) -> Result<Scalar, Error>
    ensures { IsReadResult scalar_view result (decimal_read (view value)) }
{
    let text = expect_string(value, SHAPE_MESSAGE)?;
    let decimal = expect(decimal_of(text.as_str()), SHAPE_MESSAGE)?;
    Ok(Scalar::Decimal128(decimal))
}

// Writes the tree of a decimal, in both forms.
pub(crate) fn write_decimal<S: Sink>(
    alloc: Global,
    decimal: Decimal128,
    sink: &mut S,
) -> Result<S::Tree, AllocError>
    ensures written { IfOk result (λ written_tree. S.wrote_tree sink.old (decimal_tree decimal) written_tree sink.new) }
    ensures before { S.before sink.new ≡ S.before sink.old }
{
    let mut text = String::with_capacity(alloc, MAX_DECIMAL_TEXT_BYTES)?;
    write!(text, "{decimal}")?;
    write_owned_text_object("$numberDecimal", text, sink)
}
