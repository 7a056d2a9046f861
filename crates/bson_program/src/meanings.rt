//! What each word of the command line means: the options, the commands, the modes and the files.
ghost use Rattle.std.specs.Prelude.{◌≡◌};
ghost use Rattle.bson_program.specs.Invocation.{any_meaning, command_meaning, meaning_of, mode_meaning, operand_meaning, requested_kind, word_meaning};

use crate::invocation::{Flag, Input, Purpose, STDIO, UsageError};
use crate::option_values::starts_as_option;
use bson_convert::mode::Mode;
use bson_run::task::{Criterion, Output};

/// The expected kind of the next argument.
#[derive(Clone, Copy, PartialEq, Eq)]
pub enum ExpectedArg {
    AnyArg,
    /// The value of an option.
    Value(Flag),
    /// Not an option.
    Operand,
}

/// The kind of an argument.
#[derive(Clone, Copy, PartialEq, Eq)]
pub enum ParsedArg {
    /// One that is accepted.
    AcceptedArg,
    Help,
    Version,
    /// One that is not accepted here.
    InvalidUsage(UsageError),
}

/// The meaning of an argument.
#[derive(Clone, Copy, PartialEq, Eq)]
pub enum Meaning {
    Help,
    Version,
    /// It is not accepted here.
    Fails(UsageError),
    /// The next argument is of this kind.
    Expects(ExpectedArg),
    /// An option is set, if it has a value to this argument.
    Sets(Flag),
    /// It begins as an option, which has its value in the argument.
    HasValue,
    /// A command or a mode.
    Names(Input, Purpose, Option<Output>),
    /// A file that is read, for this output.
    File(Output),
}

/// Returns the meaning of an argument.
pub fn meaning_of(
    expected_arg: ExpectedArg,
    arg: &str,
    input: Input,
    output_kind: Option<Output>,
) -> Meaning
    ensures { result ≡ meaning_of expected_arg arg.now input output_kind }
{
    match expected_arg {
        ExpectedArg::AnyArg => any_meaning(arg, input, output_kind),
        ExpectedArg::Value(flag) => Meaning::Sets(flag),
        ExpectedArg::Operand => operand_meaning(arg, input, output_kind),
    }
}

// Returns the meaning of an argument that is not the value of an option.
fn any_meaning(arg: &str, input: Input, output_kind: Option<Output>) -> Meaning
    ensures { result ≡ any_meaning arg.now input output_kind }
{
    match arg {
        "--help" | "-h" => Meaning::Help,
        "--version" | "-v" => Meaning::Version,
        "--doubles" | "--keep-order" => Meaning::Fails(UsageError::RemovedOption),
        "--" => Meaning::Expects(ExpectedArg::Operand),
        "-o" | "--output" => Meaning::Expects(ExpectedArg::Value(Flag::Output)),
        "--indent" => Meaning::Expects(ExpectedArg::Value(Flag::Indent)),
        "--jobs" => Meaning::Expects(ExpectedArg::Value(Flag::Jobs)),
        "--diagnostics" => Meaning::Expects(ExpectedArg::Value(Flag::Diagnostics)),
        "--keep-going" => Meaning::Sets(Flag::KeepGoing),
        "--sort-keys" => Meaning::Sets(Flag::SortKeys),
        "--strict" => Meaning::Sets(Flag::Strict),
        "--no-double-keys" => Meaning::Sets(Flag::NoDuplicateKeys),
        "--v1" => Meaning::Sets(Flag::V1),
        "--canonical" => Meaning::Sets(Flag::Canonical),
        "--unordered" => Meaning::Sets(Flag::Unordered),
        "--array" => Meaning::Sets(Flag::Array),
        STDIO => operand_meaning(arg, input, output_kind),
        _ if starts_as_option(arg) => Meaning::HasValue,
        _ => word_meaning(arg, input, output_kind),
    }
}

// Returns the meaning of a word that is not an option.
fn word_meaning(arg: &str, input: Input, output_kind: Option<Output>) -> Meaning
    ensures { result ≡ word_meaning arg.now input output_kind }
{
    match output_kind {
        None if arg == "help" => Meaning::Help,
        _ => operand_meaning(arg, input, output_kind),
    }
}

// Returns the meaning of a mode or a command, or after a mode of a file.
fn operand_meaning(arg: &str, input: Input, output_kind: Option<Output>) -> Meaning
    ensures { result ≡ operand_meaning arg.now input output_kind }
{
    match output_kind {
        Some(named_kind) => Meaning::File(named_kind),
        None => mode_meaning(arg, input),
    }
}

// Returns the meaning of a mode or a command.
fn mode_meaning(arg: &str, input: Input) -> Meaning
    ensures { result ≡ mode_meaning arg.now input }
{
    match arg {
        "canonical" => Meaning::Names(input, Purpose::Output, Some(Output::Text(Mode::Canonical))),
        "relaxed" => Meaning::Names(input, Purpose::Output, Some(Output::Text(Mode::Relaxed))),
        "show" => Meaning::Names(input, Purpose::Output, Some(Output::Text(Mode::Show))),
        "check" => Meaning::Names(
            input,
            Purpose::Output,
            Some(Output::Nothing(Criterion::Valid)),
        ),
        "hash" => Meaning::Names(input, Purpose::Digests, Some(Output::Text(Mode::Canonical))),
        "same" => Meaning::Names(
            input,
            Purpose::Comparison,
            Some(Output::Text(Mode::Canonical)),
        ),
        _ => command_meaning(arg, input),
    }
}

// Returns the meaning of a command, which comes first, or of a file without a mode.
fn command_meaning(arg: &str, input: Input) -> Meaning
    ensures { result ≡ command_meaning arg.now input }
{
    match (input, arg) {
        (Input::Text, "lines") => Meaning::Names(Input::Lines, Purpose::Output, None),
        (Input::Text, "decode") => Meaning::Names(Input::Documents, Purpose::Output, None),
        (Input::Text, "encode") => Meaning::Names(
            Input::Lines,
            Purpose::Output,
            Some(Output::Bytes),
        ),
        _ => match requested_kind(input, None) {
            Some(named_kind) => Meaning::File(named_kind),
            None => Meaning::Fails(UsageError::UnknownMode),
        },
    }
}

/// Returns the mode: `decode` has a default.
pub fn requested_kind(input: Input, output_kind: Option<Output>) -> Option<Output>
    ensures { result ≡ requested_kind input output_kind }
{
    match output_kind {
        None if input == Input::Documents => Some(Output::Text(Mode::Relaxed)),
        _ => output_kind,
    }
}
