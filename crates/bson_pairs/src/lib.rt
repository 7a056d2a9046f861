//! An example of callers whose contracts are proved from public contracts alone: whether two values
//! have one text, BSON bytes and texts of each other, and a text that is converted twice.
#![tactic(auto)]

ghost use Rattle.std.specs.Prelude.{◌≡◌, ◌↔◌, IfOk, IfErr, true};
ghost use Rattle.bson.specs.View.{bson_view};
ghost use Rattle.bson.specs.Same.{same};
ghost use Rattle.bson.specs.Normal.{normal_form, as_read_back, plain};
ghost use Rattle.bson.specs.Texts.{IsWriteErrorIn};

pub mod bytes;
pub mod round_trip;
pub mod second_conversion;

use bson::Bson;
use bson::extjson::{Doubles, Form, KeyOrder, Options, WriteError};
use bson_scalar::form::Layout;
use std::alloc::Global;

/// Returns whether the canonical texts of two values are equal. Of plain values, in which no
/// document has a wrapper key of its own, they are equal exactly if the values' normal forms are
/// the same.
///
/// The error is `FiniteDouble` if a value contains a finite double other than zero, at any depth,
/// and `OutOfMemory` if memory runs out.
pub fn have_one_text(alloc: Global, left: &Bson, right: &Bson) -> Result<bool, WriteError>
    ensures { plain (bson_view left.now) ≡ true → plain (bson_view right.now) ≡ true
        → IfOk result
        (λ texts_equal. (texts_equal ≡ true)
        ↔ (same (normal_form (bson_view left.now)) (normal_form (bson_view right.now)) ≡ true)) }
{
    let left_text = left.to_canonical_text(alloc)?;
    let right_text = right.to_canonical_text(alloc)?;
    Ok(left_text == right_text)
}

/// Returns whether the texts of two values in a form are equal, with these doubles. Of plain values they are equal exactly if the values' normal forms are the same, narrowed
/// in the relaxed form.
///
/// With `Doubles::Finite` each value has a text: only running out of memory may come in its place.
pub fn have_one_text_in_form(
    alloc: Global,
    doubles: Doubles,
    form: Form,
    left: &Bson,
    right: &Bson,
) -> Result<bool, WriteError>
    ensures pair { plain (bson_view left.now) ≡ true → plain (bson_view right.now) ≡ true
        → IfOk result
        (λ texts_equal. (texts_equal ≡ true) ↔ (same (as_read_back form (normal_form (bson_view left.now)))
        (as_read_back form (normal_form (bson_view right.now))) ≡ true)) }
    ensures possible_errors { IfErr result (IsWriteErrorIn doubles) }
{
    let options = Options {
        doubles,
        key_order: KeyOrder::Ascending,
        layout: Layout::Specified,
    };
    let left_text = left.to_text(alloc, options, form)?;
    let right_text = right.to_text(alloc, options, form)?;
    Ok(left_text == right_text)
}
