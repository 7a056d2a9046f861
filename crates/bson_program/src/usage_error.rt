//! The messages about arguments that the program does not accept.
ghost use Rattle.std.specs.Prelude.{◌≡◌, ℕ, List, IfOk, string_bytes};
ghost use Rattle.bson_program.specs.Flags.{flag_name};
ghost use Rattle.bson_program.specs.UsageErrors.{command_name, mode_with_command, expected_arg_kind, mode_without_option, see_help, usage_error_message};
ghost use Rattle.bson_program.specs.Messages.{escaped_name};
ghost use Rattle.bson_program.specs.Invocation.{mode_arg};
ghost use Rattle.bson_convert.specs.Messages.{name_of_mode};
ghost use Rattle.bson_run.specs.TaskNames.{output_name};

use crate::invocation::{Command, Flag, InvalidUsage, Purpose, UsageError};
use crate::messages::escape_name;
use bson_convert::mode::Mode;
use bson_run::task::{Criterion, Output};
use std::alloc::{AllocError, Global};

/// Returns the line that names what is wrong with the arguments.
pub fn usage_error_line(alloc: Global, invalid_usage: &InvalidUsage) -> Result<String, AllocError>
    ensures { IfOk result
        (λ line. string_bytes line
        ≡ usage_error_message invalid_usage.now.command invalid_usage.now.usage_error
        (string_bytes invalid_usage.now.arg)) }
{
    let command = invalid_usage.command;
    match invalid_usage.usage_error {
        UsageError::UnknownOption => unknown_option(alloc, command, invalid_usage.arg.as_str()),
        UsageError::UnknownMode => unknown_mode(alloc, command, invalid_usage.arg.as_str()),
        UsageError::RemovedOption => removed_option(alloc, command, invalid_usage.arg.as_str()),
        UsageError::OptionTwice(flag) => {
            let name = flag_name(flag);
            format!(in alloc; "bson: {name} is given twice")
        }
        UsageError::BadOptionValue(flag) => bad_option_value(alloc, flag),
        UsageError::UnsupportedOption(flag, purpose, output) => unsupported_option(
            alloc, command, flag, purpose, output,
        ),
        UsageError::NoMode => {
            let expected_kind = expected_arg_kind(command);
            format!(in alloc; "bson: no {expected_kind} is given")
        }
        UsageError::NeedsTwoFiles => needs_two_files(alloc, command),
        UsageError::StandardInputTwice => String::from_str(
            alloc,
            "bson: standard input is given twice",
        ),
        UsageError::NotUtf8 => String::from_str(alloc, "bson: an argument is not UTF-8"),
    }
}

// Names an option that no command has.
fn unknown_option(alloc: Global, command: Command, arg: &str) -> Result<String, AllocError>
    ensures { IfOk result (λ line. string_bytes line ≡ usage_error_message command UsageError.UnknownOption arg.now) }
{
    let (arg, see_help) = (escape_name(alloc, arg)?, see_help(alloc, command)?);
    format!(in alloc; "bson: unknown option '{arg}'{see_help}")
}

// Names an argument that is not a command or a mode.
fn unknown_mode(alloc: Global, command: Command, arg: &str) -> Result<String, AllocError>
    ensures { IfOk result (λ line. string_bytes line ≡ usage_error_message command UsageError.UnknownMode arg.now) }
{
    let expected_kind = expected_arg_kind(command);
    let shown_arg = escape_name(alloc, arg)?;
    let help = see_help(alloc, command)?;
    format!(in alloc; "bson: unknown {expected_kind} '{shown_arg}'{help}")
}

// Names an option of an earlier version.
fn removed_option(alloc: Global, command: Command, arg: &str) -> Result<String, AllocError>
    ensures { IfOk result (λ line. string_bytes line ≡ usage_error_message command UsageError.RemovedOption arg.now) }
{
    let shown_arg = escape_name(alloc, arg)?;
    let help = see_help(alloc, command)?;
    format!(in alloc; "bson: {shown_arg} is the default now{help}")
}

// Says which value an option needs.
fn bad_option_value(alloc: Global, flag: Flag) -> Result<String, AllocError>
    ensures { (command : Command) → (arg : List ℕ)
        → IfOk result (λ line. string_bytes line ≡ usage_error_message command (UsageError.BadOptionValue flag) arg) }
{
    match flag {
        Flag::Indent => String::from_str(alloc, "bson: --indent needs a number from 1 to 16"),
        Flag::Jobs => String::from_str(alloc, "bson: --jobs needs a number from 1 to 9999"),
        Flag::Diagnostics => String::from_str(alloc, "bson: --diagnostics needs text or json"),
        _ => {
            let name = flag_name(flag);
            format!(in alloc; "bson: {name} needs a file")
        }
    }
}

// Names a mode and an option that it does not have.
fn unsupported_option(
    alloc: Global,
    command: Command,
    flag: Flag,
    purpose: Purpose,
    output: Output,
) -> Result<String, AllocError>
    ensures { (arg : List ℕ)
        → IfOk result
        (λ line. string_bytes line ≡ usage_error_message command (UsageError.UnsupportedOption flag purpose output) arg) }
{
    let name = mode_with_command(alloc, command, mode_without_option(flag, purpose, output))?;
    let option = flag_name(flag);
    format!(in alloc; "bson: {name} does not accept {option}")
}

// Says that a comparison needs two files.
fn needs_two_files(alloc: Global, command: Command) -> Result<String, AllocError>
    ensures { (arg : List ℕ)
        → IfOk result (λ line. string_bytes line ≡ usage_error_message command UsageError.NeedsTwoFiles arg) }
{
    let name = mode_with_command(alloc, command, "same")?;
    format!(in alloc; "bson: {name} needs two files")
}

// Says where the help is.
fn see_help(alloc: Global, command: Command) -> Result<String, AllocError>
    ensures { IfOk result (λ text. string_bytes text ≡ see_help command) }
{
    let name = command_name(command);
    format!(in alloc; " (see {name} --help)")
}

// Returns a mode with its command.
fn mode_with_command(alloc: Global, command: Command, mode: &str) -> Result<String, AllocError>
    ensures { IfOk result (λ name. string_bytes name ≡ mode_with_command command mode.now) }
{
    match command {
        Command::Lines => format!(in alloc; "lines {mode}"),
        Command::Decode => format!(in alloc; "decode {mode}"),
        Command::AllCommands | Command::Text | Command::Encode => String::from_str(alloc, mode),
    }
}

// Returns the program and command before a command's options.
fn command_name(command: Command) -> &'static str
    ensures { result.now ≡ command_name command }
{
    match command {
        Command::AllCommands | Command::Text => "bson",
        Command::Lines => "bson lines",
        Command::Decode => "bson decode",
        Command::Encode => "bson encode",
    }
}

// Returns what an argument is expected to be.
fn expected_arg_kind(command: Command) -> &'static str
    ensures { result.now ≡ expected_arg_kind command }
{
    match command {
        Command::AllCommands => "command",
        _ => "mode",
    }
}

// Returns the mode that does not have an option, and after it the option because of which it does not.
fn mode_without_option(flag: Flag, purpose: Purpose, output: Output) -> &'static str
    ensures { result.now ≡ mode_without_option flag purpose output }
{
    match output {
        Output::Nothing(Criterion::Canonical) if flag != Flag::Canonical => "check --canonical",
        Output::Bytes if flag == Flag::KeepGoing || flag == Flag::Jobs => "encode --array",
        other_output => mode_arg(purpose, other_output),
    }
}

/// Returns the argument that names a mode.
pub fn mode_arg(purpose: Purpose, output: Output) -> &'static str
    ensures { result.now ≡ mode_arg purpose output }
{
    match purpose {
        Purpose::Output => output_name(output),
        Purpose::Digests => "hash",
        Purpose::Comparison => "same",
    }
}

// Returns the name of an output.
fn output_name(output: Output) -> &'static str
    ensures { result.now ≡ output_name output }
{
    match output {
        Output::Text(mode) => mode_name(mode),
        Output::Bytes => "encode",
        Output::Nothing(_) => "check",
    }
}

// Returns the name of a mode.
fn mode_name(mode: Mode) -> &'static str
    ensures { result.now ≡ name_of_mode mode }
{
    match mode {
        Mode::Canonical => "canonical",
        Mode::Relaxed => "relaxed",
        Mode::Show => "show",
    }
}

// Returns the name of an option.
fn flag_name(flag: Flag) -> &'static str
    ensures { result.now ≡ flag_name flag }
{
    match flag {
        Flag::SortKeys => "--sort-keys",
        Flag::Strict => "--strict",
        Flag::V1 => "--v1",
        Flag::NoDuplicateKeys => "--no-double-keys",
        Flag::Canonical => "--canonical",
        Flag::Indent => "--indent",
        Flag::KeepGoing => "--keep-going",
        Flag::Jobs => "--jobs",
        Flag::Output => "--output",
        Flag::Unordered => "--unordered",
        Flag::Array => "--array",
        Flag::Diagnostics => "--diagnostics",
    }
}
