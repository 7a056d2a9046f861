//! Which options each command has, and whether the arguments use only these.
ghost use Rattle.std.specs.Prelude.{◌≡◌, IfSome, None, true};
ghost use Rattle.bson_program.specs.Flags as flags;
ghost use Rattle.bson_program.specs.Requests.{AllOptionsSupported, AreTwoFiles, InputOptionsSupported, IsOptionError};
ghost use Rattle.bson_program.specs.Requests.{OptionsFitMode};

use crate::arguments::ArgsSoFar;
use crate::invocation::{Flag, Input, Purpose, STDIO, UsageError};
use crate::option_effects::requested_input;
use bson_convert::mode::Mode;
use bson_run::task::{Criterion, Output};

/// Returns what is wrong with a mode and its options, or `None` if the mode has these options.
pub fn find_option_error(args_so_far: &ArgsSoFar, output: Output) -> Option<UsageError>
    ensures some { IfSome result (IsOptionError args_so_far.now output) }
    ensures none { result ≡ None → OptionsFitMode args_so_far.now output }
{
    if let Some(flag) = unsupported_option(args_so_far, output) {
        return Some(UsageError::UnsupportedOption(flag, args_so_far.purpose, output));
    }
    if args_so_far.purpose == Purpose::Comparison {
        two_files_error(args_so_far)
    } else {
        None
    }
}

// Returns what is wrong with the files of a comparison.
fn two_files_error(args_so_far: &ArgsSoFar) -> Option<UsageError>
    ensures some { (output : Output) → args_so_far.now.purpose ≡ Purpose.Comparison
        → IfSome result (IsOptionError args_so_far.now output) }
    ensures none { result ≡ None → AreTwoFiles args_so_far.now.inputs }
{
    let inputs = &args_so_far.inputs;
    if inputs.len() != 2 {
        return Some(UsageError::NeedsTwoFiles);
    }
    if inputs[0].as_str() != STDIO {
        return None;
    }
    if inputs[1].as_str() != STDIO {
        return None;
    }
    Some(UsageError::StandardInputTwice)
}

// Returns the first option that is set, and that the command does not have.
fn unsupported_option(args_so_far: &ArgsSoFar, output: Output) -> Option<Flag>
    ensures some { IfSome result (λ flag. flags.is_unsupported flag args_so_far.now output ≡ true) }
    ensures none { result ≡ None → AllOptionsSupported args_so_far.now output }
{
    if let Some(flag) = unsupported_input_option(args_so_far, output) {
        return Some(flag);
    }
    if is_unsupported(Flag::Indent, args_so_far, output) {
        return Some(Flag::Indent);
    }
    if is_unsupported(Flag::KeepGoing, args_so_far, output) {
        return Some(Flag::KeepGoing);
    }
    if is_unsupported(Flag::Jobs, args_so_far, output) {
        return Some(Flag::Jobs);
    }
    if is_unsupported(Flag::Output, args_so_far, output) {
        return Some(Flag::Output);
    }
    if is_unsupported(Flag::Unordered, args_so_far, output) {
        return Some(Flag::Unordered);
    }
    if is_unsupported(Flag::Diagnostics, args_so_far, output) {
        return Some(Flag::Diagnostics);
    }
    None
}

// Returns the first option of the input that is set, and that the command does not have.
fn unsupported_input_option(args_so_far: &ArgsSoFar, output: Output) -> Option<Flag>
    ensures some { IfSome result (λ flag. flags.is_unsupported flag args_so_far.now output ≡ true) }
    ensures none { result ≡ None → InputOptionsSupported args_so_far.now output }
{
    if is_unsupported(Flag::SortKeys, args_so_far, output) {
        return Some(Flag::SortKeys);
    }
    if is_unsupported(Flag::Strict, args_so_far, output) {
        return Some(Flag::Strict);
    }
    if is_unsupported(Flag::V1, args_so_far, output) {
        return Some(Flag::V1);
    }
    if is_unsupported(Flag::NoDuplicateKeys, args_so_far, output) {
        return Some(Flag::NoDuplicateKeys);
    }
    if is_unsupported(Flag::Canonical, args_so_far, output) {
        return Some(Flag::Canonical);
    }
    if is_unsupported(Flag::Array, args_so_far, output) {
        return Some(Flag::Array);
    }
    None
}

// Returns whether the option is set, and the command does not have it.
fn is_unsupported(flag: Flag, args_so_far: &ArgsSoFar, output: Output) -> bool
    ensures { result ≡ flags.is_unsupported flag args_so_far.now output }
{
    let input = requested_input(args_so_far.reads_array, args_so_far.input, output);
    if purpose_allows(flag, args_so_far.purpose) && command_allows(flag, input, output) {
        false
    } else {
        args_so_far.has_flag(flag)
    }
}

// Returns whether the option is one of modes with this purpose.
fn purpose_allows(flag: Flag, purpose: Purpose) -> bool
    ensures { result ≡ flags.purpose_allows flag purpose }
{
    match flag {
        Flag::SortKeys | Flag::Indent => purpose == Purpose::Output,
        Flag::KeepGoing | Flag::Jobs | Flag::Output | Flag::Diagnostics => purpose
            != Purpose::Comparison,
        Flag::Unordered => purpose == Purpose::Comparison,
        Flag::Strict | Flag::V1 | Flag::NoDuplicateKeys | Flag::Canonical => true,
        Flag::Array => true,
    }
}

// Returns whether the command has the option.
fn command_allows(flag: Flag, input: Input, output: Output) -> bool
    ensures { result ≡ flags.command_allows flag input output }
{
    match flag {
        Flag::SortKeys if input == Input::Documents => writes_form(output),
        Flag::SortKeys | Flag::Output => !is_check(output),
        Flag::Strict => input != Input::Documents || writes_form(output),
        Flag::V1 => reads_texts(input, output),
        Flag::NoDuplicateKeys => input == Input::Documents || reads_texts(input, output),
        Flag::Canonical => input != Input::Documents && is_check(output),
        Flag::Indent => input == Input::Text && writes_form(output),
        Flag::KeepGoing | Flag::Jobs => input != Input::Text,
        Flag::Array => input == Input::Text && reads_texts(input, output),
        Flag::Unordered | Flag::Diagnostics => true,
    }
}

// Returns whether texts are read that need not be canonical.
fn reads_texts(input: Input, output: Output) -> bool
    ensures { result ≡ flags.reads_texts input output }
{
    input != Input::Documents && output != Output::Nothing(Criterion::Canonical)
}

// Returns whether the input is only checked.
fn is_check(output: Output) -> bool
    ensures { result ≡ flags.is_check output }
{
    matches!(output, Output::Nothing(_))
}

// Returns whether a form of Extended JSON is written.
fn writes_form(output: Output) -> bool
    ensures { result ≡ flags.writes_form output }
{
    match output {
        Output::Text(Mode::Canonical) | Output::Text(Mode::Relaxed) => true,
        _ => false,
    }
}
