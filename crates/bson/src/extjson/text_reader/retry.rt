//! A text that was not read at once: its first fault, or its value.
ghost use Rattle.std.specs.Prelude.{IfOk, IfErr, ℕ, List, string_bytes};
ghost use Rattle.serde_json.specs.Read.{read as tree_of};
ghost use Rattle.bson_tokens.specs.Normalized.{IsNormalizedText};
ghost use Rattle.bson_model.specs.declared.options.KeyOrder.TheVariants as normalized;
ghost use Rattle.bson_scalar.specs.declared.form.Doubles.{Doubles};
ghost use Rattle.bson_model.specs.Value as model;
ghost use Rattle.bson_tokens.specs.ReadOutcomes.{NothingReadIfInvalid};
ghost use Rattle.bson.specs.View.{bson_view};
ghost use Rattle.bson.specs.TextMeaning.{HasTextMeaningInKeyOrder, IsTextFaultIn};

use crate::bson::Bson;
use crate::extjson::bson_writer::read_once;
use crate::extjson::text_error::TextError;
use bson_model::options::KeyOrder;
use bson_scalar::form::Doubles;
use bson_text::first_fault::first_fault_of_normalized;
use bson_tokens::normalize::normalize_text;
use json::Error;
use std::alloc::{AllocError, Global};

/// Rejects the text for its first fault. If it has none, a later value of a key replaced a faulty
/// one, so the text of the same tree in which each key occurs once is read.
///
/// The fault is looked for in the text with its keys in ascending order. If the value has this order,
/// that text is read.
#[inline(never)]
pub(crate) fn read_again(
    alloc: Global,
    doubles: Doubles,
    key_order: KeyOrder,
    text: &str,
) -> Result<Bson, TextError>
    ensures ok { IfOk result (λ parsed. HasTextMeaningInKeyOrder key_order doubles text.now (bson_view parsed)) }
    ensures fault { IfErr result (λ read_error. IsTextFaultIn doubles text.now read_error) }
{
    let ascending_text = normalize_faultless(alloc, doubles, text)?;
    let normalized = normalize_by_key_order(alloc, key_order, text, ascending_text)?;
    match read_once(alloc, doubles, key_order, normalized.as_str()) {
        Ok(value) => Ok(value),
        // Only memory: the text has no fault, and no key twice.
        Err(_) => Err(TextError::OutOfMemory),
    }
}

// The text by ascending keys of a text that has a meaning.
fn normalize_faultless(alloc: Global, doubles: Doubles, text: &str) -> Result<String, TextError>
    ensures ok { IfOk result
        (λ ascending_text. IsNormalizedText normalized.Ascending text.now (string_bytes ascending_text)) }
    ensures fault { IfErr result (λ read_error. IsTextFaultIn doubles text.now read_error) }
{
    let ascending_text = match normalize_text(alloc, KeyOrder::Ascending, text) {
        Ok(ascending_text) => ascending_text,
        Err(error) => return Err(error_of_tree(error)),
    };
    match first_fault_of_normalized(alloc, doubles, ascending_text.as_str()) {
        Ok(None) => Ok(ascending_text),
        Ok(Some(place)) => Err(TextError::NotExtendedJson(place)),
        Err(AllocError) => Err(TextError::OutOfMemory),
    }
}

// The text of the same tree in which each key occurs once, with its last value, in the order.
fn normalize_by_key_order(
    alloc: Global,
    key_order: KeyOrder,
    text: &str,
    ascending_text: String,
) -> Result<String, TextError>
    requires { IsNormalizedText normalized.Ascending text.now (string_bytes ascending_text) }
    ensures keeps_meaning { (doubles : Doubles) (parsed : model.Value) → IfOk result
        (λ written. HasTextMeaningInKeyOrder key_order doubles (string_bytes written) parsed
        → HasTextMeaningInKeyOrder key_order doubles text.now parsed) }
    ensures fault { (doubles : Doubles) → IfErr result (λ read_error. IsTextFaultIn doubles text.now read_error) }
{
    match key_order {
        KeyOrder::Ascending => Ok(ascending_text),
        KeyOrder::AsGiven => {
            drop(ascending_text);
            match normalize_text(alloc, KeyOrder::AsGiven, text) {
                Ok(normalized) => Ok(normalized),
                Err(error) => Err(error_of_tree(error)),
            }
        }
    }
}

// The error for a text of which no tree was read.
fn error_of_tree(error: Error) -> TextError
    ensures { (doubles : Doubles) (text : List ℕ) → NothingReadIfInvalid (tree_of text) error
        → IsTextFaultIn doubles text result }
{
    match error {
        Error::Invalid => TextError::NotJson,
        _ => TextError::OutOfMemory,
    }
}
