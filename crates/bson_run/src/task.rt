//! The task of a run over lines, for each line.
ghost use Rattle.std.specs.Prelude.{◌≡◌, IfSome, None};
ghost use Rattle.bson_run.specs.Preprocessed.{default_preprocessing};
ghost use Rattle.bson_run.specs.TaskNames.{output_name};
ghost use Rattle.bson_run.specs.declared.task.Output.{Output};

use bson_codec::diagnostic::DiagnosticFormat;
use bson_convert::mode::Mode;
use bson_model::options::DuplicateKeys;

/// What a run does with each line.
///
/// ```
/// let mut lines: &[u8] = b"1\n2";
/// let (mut output, mut diagnostics) = (Vec::new(alloc), Vec::new(alloc));
/// let task = Task::new(Output::Text(Mode::Canonical));
/// let mut run = LineRun::new(alloc, task, OnRefusal::Stop);
/// drop(run.run(alloc, &mut lines, &mut output, &mut diagnostics));
/// rt.print(str::from_utf8(&output)?)?;
/// // {"$numberInt":"1"}
/// // {"$numberInt":"2"}
/// ```
#[derive(Clone, Copy, PartialEq, Eq, Debug)]
pub struct Task {
    /// What is checked or rewritten before a line is read.
    pub preprocessing: Preprocessing,
    /// What is written for a line that is accepted.
    pub output: Output,
    /// The format of the diagnostic for a line that is rejected.
    pub diagnostics: DiagnosticFormat,
}

/// What is checked or rewritten before a text is read. The default is nothing.
///
/// ```
/// let mut lines: &[u8] = br#"{"a": 1, "a": 2}"#;
/// let (mut output, mut diagnostics) = (Vec::new(alloc), Vec::new(alloc));
/// let preprocessing = Preprocessing {
///     duplicate_keys: DuplicateKeys::Reject,
///     ..Preprocessing::default()
/// };
/// let task = Task {
///     preprocessing,
///     ..Task::new(Output::Nothing(Criterion::Valid))
/// };
/// let mut run = LineRun::new(alloc, task, OnRefusal::KeepGoing);
/// drop(run.run(alloc, &mut lines, &mut output, &mut diagnostics));
/// rt.print(str::from_utf8(&diagnostics)?)?;
/// // bson: line 1: not Extended JSON at a (duplicate key)
/// ```
#[derive(Clone, Copy, PartialEq, Eq, Debug)]
pub struct Preprocessing {
    /// What happens to a text with a duplicate key.
    pub duplicate_keys: DuplicateKeys,
    /// Whether a text of Extended JSON v1 is rewritten as v2.
    pub v1: bool,
}

/// What is written for a line that is accepted.
///
/// ```
/// let mut lines: &[u8] = br#"{"$type": "00", "$binary": "AQI="}"#;
/// let (mut output, mut diagnostics) = (Vec::new(alloc), Vec::new(alloc));
/// let preprocessing = Preprocessing {
///     v1: true,
///     ..Preprocessing::default()
/// };
/// let task = Task {
///     preprocessing,
///     ..Task::new(Output::Text(Mode::Relaxed))
/// };
/// let mut run = LineRun::new(alloc, task, OnRefusal::Stop);
/// drop(run.run(alloc, &mut lines, &mut output, &mut diagnostics));
/// rt.print(str::from_utf8(&output)?)?; // {"$binary":{"base64":"AQI=","subType":"00"}}
/// ```
#[derive(Clone, Copy, PartialEq, Eq, Debug)]
pub enum Output {
    /// Its text in the mode, with keys in the order of the options, and a newline.
    Text(Mode),
    /// The bytes of its document, with keys in the order of the options and without a newline.
    Bytes,
    /// Nothing: the line is only checked, by this criterion.
    Nothing(Criterion),
}

/// Which texts a check accepts.
///
/// ```
/// let mut lines: &[u8] = br#"{"n": 5}"#;
/// let (mut output, mut diagnostics) = (Vec::new(alloc), Vec::new(alloc));
/// let task = Task::new(Output::Nothing(Criterion::Canonical));
/// let mut run = LineRun::new(alloc, task, OnRefusal::KeepGoing);
/// drop(run.run(alloc, &mut lines, &mut output, &mut diagnostics));
/// rt.print(str::from_utf8(&diagnostics)?)?;
/// // bson: line 1: not canonical Extended JSON at column 6
/// ```
#[derive(Clone, Copy, PartialEq, Eq, Debug)]
pub enum Criterion {
    /// Texts that have a value.
    Valid,
    /// Texts that are the canonical text of their value, with keys in ascending order.
    Canonical,
}

impl Task {
    /// Makes the task with this output, without preprocessing, and with diagnostics as messages.
    pub fn new(output: Output) -> Task
        ensures preprocessing { result.preprocessing ≡ default_preprocessing }
        ensures output { result.output ≡ output }
        ensures diagnostics { result.diagnostics ≡ DiagnosticFormat.Text }
    {
        Task {
            preprocessing: Preprocessing::default(),
            output,
            diagnostics: DiagnosticFormat::Text,
        }
    }
}

impl Default for Preprocessing {
    fn default() -> Preprocessing
        ensures { result ≡ default_preprocessing }
    {
        Preprocessing {
            duplicate_keys: DuplicateKeys::LastWins,
            v1: false,
        }
    }
}

impl Output {
    /// Returns the output of this name: the name of a mode, `check` or `encode`.
    pub fn from_name(name: &str) -> Option<Output>
        ensures named { IfSome result (λ output. name.now ≡ output_name output) }
        ensures unknown_name { result ≡ None → (output : Output) → name.now ≡ output_name output → ⊥ }
    {
        if name == "check" {
            return Some(Output::Nothing(Criterion::Valid));
        }
        if name == "encode" {
            return Some(Output::Bytes);
        }
        Some(Output::Text(Mode::from_name(name)?))
    }
}

/// Whether a run goes on after a rejected line.
///
/// ```
/// let mut lines: &[u8] = b"[\n2";
/// let (mut output, mut diagnostics) = (Vec::new(alloc), Vec::new(alloc));
/// let task = Task::new(Output::Text(Mode::Relaxed));
/// let mut run = LineRun::new(alloc, task, OnRefusal::KeepGoing);
/// drop(run.run(alloc, &mut lines, &mut output, &mut diagnostics));
/// rt.print(str::from_utf8(&diagnostics)?)?; // bson: line 1: not JSON at column 1 (unexpected end of input)
/// rt.print(str::from_utf8(&output)?)?; // 2
/// ```
#[derive(Clone, Copy, PartialEq, Eq, Debug)]
pub enum OnRefusal {
    /// It stops.
    Stop,
    /// The line is skipped, with a diagnostic that has the path of its error, and the run goes on.
    KeepGoing,
}
