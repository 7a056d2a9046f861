//! The effects of the options: the output, the preprocessing, the input, which doubles have a text, the order
//! of keys, the layout, and the format of diagnostics.
ghost use Rattle.std.specs.Prelude.{◌≡◌};
ghost use Rattle.bson_program.specs.Flags.{requested_input};
ghost use Rattle.bson_program.specs.Requests.{option_without_value, accepted_doubles, with_criterion};
ghost use Rattle.bson_program.specs.Requests.{requested_diagnostics, requested_key_order, requested_layout, requested_preprocessing};

use crate::invocation::{Flag, Input, Purpose};
use crate::meanings::ExpectedArg;
use bson::extjson::{Doubles, KeyOrder};
use bson_codec::diagnostic::DiagnosticFormat;
use bson_model::options::DuplicateKeys;
use bson_run::task::{Criterion, Output, Preprocessing};
use bson_scalar::form::Layout;

/// Returns the option that waits for its value.
pub fn option_without_value(expected_arg: ExpectedArg) -> Option<Flag>
    ensures { result ≡ option_without_value expected_arg }
{
    match expected_arg {
        ExpectedArg::Value(flag) => Some(flag),
        ExpectedArg::AnyArg | ExpectedArg::Operand => None,
    }
}

/// Returns which doubles have a text: all, or those of the specification.
pub fn accepted_doubles(is_strict: bool) -> Doubles
    ensures { result ≡ accepted_doubles is_strict }
{
    if is_strict {
        Doubles::Special
    } else {
        Doubles::Finite
    }
}

/// Returns the layout of the output: that of the specification, or that of libbson and PyMongo.
pub fn requested_layout(is_strict: bool) -> Layout
    ensures { result ≡ requested_layout is_strict }
{
    if is_strict {
        Layout::Specified
    } else {
        Layout::MongoDb
    }
}

/// Returns the order of keys. They are sorted if that is asked for, if the run is strict, or if it has
/// digests or a comparison.
pub fn requested_key_order(purpose: Purpose, sorts_keys: bool, is_strict: bool) -> KeyOrder
    ensures { result ≡ requested_key_order purpose sorts_keys is_strict }
{
    match (purpose, sorts_keys, is_strict) {
        (Purpose::Output, false, false) => KeyOrder::AsGiven,
        _ => KeyOrder::Ascending,
    }
}

/// Returns the output, with the criterion of a check that the option sets.
pub fn with_criterion(is_canonical: bool, output: Output) -> Output
    ensures { result ≡ with_criterion is_canonical output }
{
    match output {
        Output::Nothing(_) if is_canonical => Output::Nothing(Criterion::Canonical),
        other_output => other_output,
    }
}

/// Returns the requested preprocessing.
pub fn requested_preprocessing(rejects_duplicates: bool, reads_v1: bool) -> Preprocessing
    ensures { result ≡ requested_preprocessing rejects_duplicates reads_v1 }
{
    let duplicate_keys = if rejects_duplicates {
        DuplicateKeys::Reject
    } else {
        DuplicateKeys::LastWins
    };
    Preprocessing {
        duplicate_keys,
        v1: reads_v1,
    }
}

/// Returns how the input is read: `encode` reads lines, but an array is one text.
pub fn requested_input(reads_array: bool, input: Input, output: Output) -> Input
    ensures { result ≡ requested_input reads_array input output }
{
    match (input, output) {
        (Input::Lines, Output::Bytes) if reads_array => Input::Text,
        _ => input,
    }
}

/// Returns how diagnostics are written: as text if no option says how.
pub fn requested_diagnostics(diagnostics: Option<DiagnosticFormat>) -> DiagnosticFormat
    ensures { result ≡ requested_diagnostics diagnostics }
{
    match diagnostics {
        Some(format) => format,
        None => DiagnosticFormat::Text,
    }
}
