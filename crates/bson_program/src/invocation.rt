//! What the arguments request.
ghost use Rattle.std.specs.Prelude.{◌≡◌, ◌⊎◌, ◌↔◌, IfOk, IsTrue, map, string_bytes};
ghost use Rattle.bson_program.specs.Requests.{IsRequestedBy};
ghost use Rattle.bson_run.specs.declared.task.Criterion.{Criterion};

use crate::arguments::ArgsSoFar;
use crate::meanings::ParsedArg;
use crate::request::into_request;
use bson::extjson::Options;
use bson_run::task::{OnRefusal, Output, Task};
use std::alloc::{AllocError, Global};

/// The name of standard input among the files that are read, and of standard output.
pub const STDIO: &str = "-";

/// What the arguments request.
#[derive(Drop)]
pub enum Request {
    /// A run over files.
    Run(Invocation),
    /// The help of a command.
    Help(Command),
    /// The line of `--version`.
    Version,
    /// Something that the program does not do.
    InvalidUsage(InvalidUsage),
}

/// The commands, each with its usage and its help.
#[derive(Clone, Copy, PartialEq, Eq)]
pub enum Command {
    /// Every command: no argument has named one.
    AllCommands,
    /// One document, in a mode.
    Text,
    /// `lines`.
    Lines,
    /// `decode`.
    Decode,
    /// `encode`.
    Encode,
}

/// An error of the arguments.
#[derive(Drop)]
pub struct InvalidUsage {
    /// The kind of the error.
    pub usage_error: UsageError,
    /// The command that the arguments before name.
    pub command: Command,
    /// The argument that is wrong, if it is one.
    pub arg: String,
}

/// The kinds of errors of arguments.
#[derive(Clone, Copy, PartialEq, Eq)]
pub enum UsageError {
    /// An argument is an option that no command has.
    UnknownOption,
    /// An argument is expected to be a command or a mode, and is not.
    UnknownMode,
    /// An argument is an option of an earlier version, which is the default now.
    RemovedOption,
    /// An option occurs twice.
    OptionTwice(Flag),
    /// An option has no value, or not one that it can have.
    BadOptionValue(Flag),
    /// The mode does not have an option.
    UnsupportedOption(Flag, Purpose, Output),
    /// No mode is specified.
    NoMode,
    /// A comparison needs two files.
    NeedsTwoFiles,
    /// Standard input is named twice.
    StandardInputTwice,
    /// An argument is not UTF-8.
    NotUtf8,
}

/// The options, each once at most.
#[derive(Clone, Copy, PartialEq, Eq)]
pub enum Flag {
    /// `--sort-keys`.
    SortKeys,
    /// `--strict`.
    Strict,
    /// `--v1`.
    V1,
    /// `--no-double-keys`.
    NoDuplicateKeys,
    /// `--canonical`.
    Canonical,
    /// `--indent N`.
    Indent,
    /// `--keep-going`.
    KeepGoing,
    /// `--jobs N`.
    Jobs,
    /// `-o FILE`.
    Output,
    /// `--unordered`.
    Unordered,
    /// `--array`.
    Array,
    /// `--diagnostics FORMAT`.
    Diagnostics,
}

/// How a run uses the output.
#[derive(Clone, Copy, PartialEq, Eq)]
pub enum Purpose {
    /// The output is written.
    Output,
    /// The digest of each line of the output is written.
    Digests,
    /// The outputs of two files are compared.
    Comparison,
}

/// The format of the input.
#[derive(Clone, Copy, PartialEq, Eq)]
pub enum Input {
    /// One text, on any number of lines.
    Text,
    /// A text per line.
    Lines,
    /// Concatenated BSON documents.
    Documents,
}

/// A run over files.
#[derive(Drop)]
pub struct Invocation {
    /// The task for each line, or each document.
    pub task: Task,
    /// Which texts have a meaning, which values a text, and the order of keys in the output.
    pub options: Options,
    /// Whether the run goes on after a rejected line or document.
    pub on_refusal: OnRefusal,
    /// How the run uses the output.
    pub purpose: Purpose,
    /// Whether a comparison ignores the order of values.
    pub is_unordered: bool,
    /// Whether each input is a JSON array, of whose elements each is a text.
    pub reads_array: bool,
    /// The format of the input.
    pub input: Input,
    /// How many spaces indent the output for each bracket, if it is written over several lines.
    pub indent: Option<usize>,
    /// The file that the output goes to, or `-`.
    pub output: String,
    /// The files that are read, in this order; `-` is standard input.
    pub inputs: Vec<String>,
}

impl Invocation {
    /// Whether BSON bytes are written, and no text.
    pub fn writes_bson_bytes(&self) -> bool
        ensures { IsTrue result ↔ (self.now.task.output ≡ Output.Bytes) }
    {
        self.task.output == Output::Bytes
    }

    /// Whether the input is only checked or compared.
    pub fn writes_nothing(&self) -> bool
        ensures { IsTrue result
            ↔ ((self.now.purpose ≡ Purpose.Comparison)
            ⊎ ((criterion : Criterion) × (self.now.task.output ≡ Output.Nothing criterion))) }
    {
        self.purpose == Purpose::Comparison || matches!(self.task.output, Output::Nothing(_))
    }
}

/// Returns what the arguments after the program's name request: a command, a mode, then names of files,
/// with options anywhere before an argument `--`, each once at most.
pub fn parse_arguments(alloc: Global, args: Vec<String>) -> Result<Request, AllocError>
    ensures { IfOk result (λ request. IsRequestedBy (map string_bytes args.items) request) }
{
    let mut args_so_far = ArgsSoFar::new(alloc);
    for arg in args.iter() {
        let command = args_so_far.command();
        match args_so_far.parse_arg(arg.as_str())? {
            ParsedArg::AcceptedArg => {}
            ParsedArg::Help => return Ok(Request::Help(command)),
            ParsedArg::Version => return Ok(Request::Version),
            ParsedArg::InvalidUsage(usage_error) => {
                let arg = String::from_str(alloc, arg.as_str())?;
                return Ok(Request::InvalidUsage(InvalidUsage {
                    usage_error,
                    command,
                    arg,
                }));
            }
        }
    }
    into_request(args_so_far)
}
