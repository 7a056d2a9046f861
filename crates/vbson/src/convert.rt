//! Converts one text of Extended JSON to another.
ghost use Rattle.std.specs.Prelude.{◌≡◌, ◌↔◌, ◌⊎◌, ◌<◌, ◌≤◌, ◌++◌, List, ℕ, Some, IfOk, IfErr};
ghost use Rattle.bson_convert.specs.Convert.{newline};
ghost use Rattle.bson_convert.specs.declared.mode.Mode.{Mode};
ghost use Rattle.vbson.specs.Convert.{ConvertsUnder, IsAcceptedUnder, IsConvertedBy, IsLineUnder, mode_of_number, status_of};
ghost use Rattle.vbson.specs.Options.{AreInvalid};
ghost use Rattle.vbson.specs.Reading.{HasBadObjectIdUnder, IsInvalidUnder, IsNotJsonUnder, IsTextReadFailure};
ghost use Rattle.vbson.specs.Text.{nul};

use crate::options::{CallOptions, are_invalid, options_of};
use crate::reading::{preprocess, text_to_read};
use crate::status;
use crate::text::{Text, text_of_line};
use bson_convert::convert::convert_text;
use bson_convert::encode_error::NoBytes;
use bson_convert::error::Error;
use bson_convert::mode::Mode;
use bson_tree::place::Reason;
use std::alloc::Global;

/// Converts one text of Extended JSON to the text of its value in a mode: 0 is the canonical form, 1
/// the relaxed form, 2 the text of Display. The options say whether finite doubles are accepted,
/// whether the keys of each document ascend or have the order of the text, and how the two forms are
/// laid out. In the order of the text, a duplicate key has its last value at its first position. The
/// options can reject duplicate keys instead, and accept Extended JSON v1. The caller frees the block
/// of the output with `free`.
#[unsafe(no_mangle)]
pub extern "C" fn vbson_convert_nonnull(
    alloc: Global,
    mode: u32,
    options: &CallOptions,
    text: &[u8],
    out: &mut Text<'static>,
) -> u32
    ensures success { result ≡ 0 → IsConvertedBy options.now mode text.now out.new }
    ensures unique_text { result ≡ 0 → (selected_mode : Mode) (converted_text : List ℕ)
        → mode_of_number mode ≡ Some selected_mode
        → ConvertsUnder options.now selected_mode text.now (converted_text ++ newline)
        → out.new.bytes.now ≡ converted_text ++ nul }
    ensures accepts { IsAcceptedUnder options.now text.now → 1 < result → result ≡ 5 }

    // When each other status comes, and that nothing is left then.
    ensures invalid_argument { result ≡ 1 ↔ (2 < mode) ⊎ AreInvalid options.now }
    ensures not_json { result ≡ 2 → IsNotJsonUnder options.now text.now }
    ensures bad_object_id { result ≡ 3 → HasBadObjectIdUnder options.now text.now }
    ensures not_extended_json { result ≡ 4 → IsInvalidUnder options.now text.now }
    ensures possible_statuses { result ≤ 5 }
    ensures unchanged { 0 < result → out.new ≡ out.old }
{
    if are_invalid(*options) {
        return status::INVALID_ARGUMENT;
    }
    let Some(mode) = mode_of(mode) else {
        return status::INVALID_ARGUMENT;
    };
    match convert_under(alloc, *options, mode, text) {
        Ok(line) => *out = text_of_line(line),
        Err(status) => return status,
    }
    status::OK
}

// The text in the mode of the value that the text means under the options, and a newline; or the status.
fn convert_under(
    alloc: Global,
    options: CallOptions,
    mode: Mode,
    text: &[u8],
) -> Result<Vec<u8>, u32>
    ensures ok { IfOk result (λ line. IsLineUnder options mode text.now line.items) }
    ensures unique { IfOk result
        (λ line. (other_line : List ℕ) → ConvertsUnder options mode text.now other_line → other_line ≡ line.items) }
    ensures accepts { IsAcceptedUnder options text.now → IfErr result (λ status. status ≡ 5) }
    ensures error_status { IfErr result (λ status. IsTextReadFailure options status text.now) }
{
    let new_text = match preprocess(alloc, options, text) {
        Ok(new_text) => new_text,
        Err(status) => return Err(status),
    };
    let read_text = text_to_read(&new_text, text);
    match convert_text(alloc, options_of(options), mode, read_text) {
        Ok(line) => Ok(line),
        Err(fault) => Err(status_of(fault)),
    }
}

/// Returns the mode that a number selects.
pub(crate) fn mode_of(mode_number: u32) -> Option<Mode>
    ensures { result ≡ mode_of_number mode_number }
{
    match mode_number {
        0 => Some(Mode::Canonical),
        1 => Some(Mode::Relaxed),
        2 => Some(Mode::Show),
        _ => None,
    }
}

/// Returns the status of a fault that a text can have.
pub fn status_of(fault: Error) -> u32
    ensures { result ≡ status_of fault }
{
    match fault {
        Error::NotJson => status::NOT_JSON,
        Error::NotExtendedJson(place) => match &place.reason {
            Reason::BadObjectId(_) => status::BAD_OBJECT_ID,
            Reason::WrongShape(_) => status::NOT_EXTENDED_JSON,
        },
        Error::NoBytes(NoBytes::NoDocument) => status::NOT_A_DOCUMENT,
        Error::NoBytes(NoBytes::ZeroInKey) => status::ZERO_IN_KEY,
        Error::NoBytes(NoBytes::ZeroInRegex) => status::ZERO_IN_REGEX,
        Error::NoBytes(NoBytes::TooLong) => status::TOO_LONG,
        Error::NotCanonical(_) => status::NOT_CANONICAL,
        // (a text is neither read from a reader nor written to a writer)
        Error::OutOfMemory | Error::CannotRead | Error::CannotWrite => status::OUT_OF_MEMORY,
    }
}
