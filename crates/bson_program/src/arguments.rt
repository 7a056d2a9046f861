//! The arguments after the program's name, parsed one after another.
ghost use Rattle.std.specs.Prelude.{◌≡◌, None, OnOk, IfOk, vec_len};
ghost use Rattle.bson_program.specs.Flags.{has_flag};
ghost use Rattle.bson_program.specs.Invocation.{command_of, IsInitialState, IsParsed, IsSet, IsSetOnce, IsValueSet};

use crate::invocation::{Command, Flag, Input, Purpose, UsageError};
use crate::meanings::{ExpectedArg, Meaning, ParsedArg, meaning_of};
use crate::option_values::{output_file_in, parse_count, parse_format};
use bson_codec::diagnostic::DiagnosticFormat;
use bson_run::task::Output;
use std::alloc::{AllocError, Global};

/// The greatest number of spaces.
const MAX_INDENT_SPACES: usize = 16;
/// The greatest number of jobs.
const MAX_JOBS: usize = 9999;

/// The meaning of the arguments so far.
#[derive(Drop)]
pub struct ArgsSoFar {
    pub alloc: Global,
    pub output_kind: Option<Output>,
    pub purpose: Purpose,
    pub input: Input,
    pub keeps_going: bool,
    pub sorts_keys: bool,
    pub is_strict: bool,
    pub rejects_duplicates: bool,
    pub reads_v1: bool,
    pub is_canonical: bool,
    pub is_unordered: bool,
    pub reads_array: bool,
    pub diagnostics: Option<DiagnosticFormat>,
    pub indent: Option<usize>,
    pub jobs: Option<usize>,
    pub output: Option<String>,
    pub inputs: Vec<String>,
    pub expected_arg: ExpectedArg,
}

impl ArgsSoFar {
    /// Returns the state before the first argument.
    pub fn new(alloc: Global) -> ArgsSoFar
        ensures initial_state { IsInitialState result }
        ensures no_inputs { vec_len result.inputs ≡ 0 }
    {
        ArgsSoFar {
            alloc,
            output_kind: None,
            purpose: Purpose::Output,
            input: Input::Text,
            keeps_going: false,
            sorts_keys: false,
            is_strict: false,
            rejects_duplicates: false,
            reads_v1: false,
            is_canonical: false,
            is_unordered: false,
            reads_array: false,
            diagnostics: None,
            indent: None,
            jobs: None,
            output: None,
            inputs: Vec::new(alloc),
            expected_arg: ExpectedArg::AnyArg,
        }
    }

    /// Returns the command that the arguments so far name.
    pub fn command(&self) -> Command
        ensures { result ≡ command_of self.now.input self.now.output_kind }
    {
        match self.input {
            Input::Text if self.output_kind.is_none() => Command::AllCommands,
            Input::Text => Command::Text,
            Input::Documents => Command::Decode,
            Input::Lines if self.output_kind == Some(Output::Bytes) => Command::Encode,
            Input::Lines => Command::Lines,
        }
    }

    /// Returns whether the option is set.
    pub fn has_flag(&self, flag: Flag) -> bool
        ensures { result ≡ has_flag flag self.now }
    {
        match flag {
            Flag::SortKeys => self.sorts_keys,
            Flag::Strict => self.is_strict,
            Flag::V1 => self.reads_v1,
            Flag::NoDuplicateKeys => self.rejects_duplicates,
            Flag::Canonical => self.is_canonical,
            Flag::Indent => self.indent.is_some(),
            Flag::KeepGoing => self.keeps_going,
            Flag::Jobs => self.jobs.is_some(),
            Flag::Output => self.output.is_some(),
            Flag::Unordered => self.is_unordered,
            Flag::Array => self.reads_array,
            Flag::Diagnostics => self.diagnostics.is_some(),
        }
    }

    /// Accepts the next argument, or says why not.
    pub fn parse_arg(&mut self, arg: &str) -> Result<ParsedArg, AllocError>
        ensures { IfOk result (IsParsed arg.now self.old self.new) }
    {
        match meaning_of(self.expected_arg, arg, self.input, self.output_kind) {
            Meaning::Help => Ok(ParsedArg::Help),
            Meaning::Version => Ok(ParsedArg::Version),
            Meaning::Fails(usage_error) => Ok(ParsedArg::InvalidUsage(usage_error)),
            Meaning::Expects(expected_arg) => {
                self.expected_arg = expected_arg;
                Ok(ParsedArg::AcceptedArg)
            }
            Meaning::Sets(flag) => {
                self.expected_arg = ExpectedArg::AnyArg;
                self.set_once(flag, arg)
            }
            Meaning::HasValue => self.parse_option_with_value(arg),
            Meaning::Names(input, purpose, output_kind) => {
                self.input = input;
                self.purpose = purpose;
                self.output_kind = output_kind;
                Ok(ParsedArg::AcceptedArg)
            }
            Meaning::File(named_kind) => {
                self.output_kind = Some(named_kind);
                self.inputs.push(String::from_str(self.alloc, arg)?)?;
                Ok(ParsedArg::AcceptedArg)
            }
        }
    }

    // Accepts an option with its value in the same argument.
    fn parse_option_with_value(&mut self, arg: &str) -> Result<ParsedArg, AllocError>
        ensures { IfOk result (IsValueSet arg.now self.old self.new) }
    {
        if let Some(value) = arg.strip_prefix("--indent=") {
            return self.set_once(Flag::Indent, value);
        }
        if let Some(value) = arg.strip_prefix("--jobs=") {
            return self.set_once(Flag::Jobs, value);
        }
        if let Some(value) = arg.strip_prefix("--diagnostics=") {
            return self.set_once(Flag::Diagnostics, value);
        }
        match output_file_in(arg) {
            Some(value) => self.set_once(Flag::Output, value),
            None => Ok(ParsedArg::InvalidUsage(UsageError::UnknownOption)),
        }
    }

    // Sets an option, unless it is set, or the value is not one of its values.
    fn set_once(&mut self, flag: Flag, value: &str) -> Result<ParsedArg, AllocError>
        ensures { IfOk result (IsSetOnce (has_flag flag self.old) flag value.now self.old self.new) }
    {
        if self.has_flag(flag) {
            return Ok(ParsedArg::InvalidUsage(UsageError::OptionTwice(flag)));
        }
        self.set_flag(flag, value)?;
        if self.has_flag(flag) {
            Ok(ParsedArg::AcceptedArg)
        } else {
            Ok(ParsedArg::InvalidUsage(UsageError::BadOptionValue(flag)))
        }
    }

    // Sets an option to its value.
    fn set_flag(&mut self, flag: Flag, value: &str) -> Result<(), AllocError>
        ensures { OnOk result (IsSet flag value.now self.old self.new) }
    {
        match flag {
            Flag::SortKeys => self.sorts_keys = true,
            Flag::Strict => self.is_strict = true,
            Flag::V1 => self.reads_v1 = true,
            Flag::NoDuplicateKeys => self.rejects_duplicates = true,
            Flag::Canonical => self.is_canonical = true,
            Flag::Indent => self.indent = parse_count(value, MAX_INDENT_SPACES),
            Flag::KeepGoing => self.keeps_going = true,
            Flag::Jobs => self.jobs = parse_count(value, MAX_JOBS),
            Flag::Output => self.output = Some(String::from_str(self.alloc, value)?),
            Flag::Unordered => self.is_unordered = true,
            Flag::Array => self.reads_array = true,
            Flag::Diagnostics => self.diagnostics = parse_format(value),
        }
        Ok(())
    }
}
