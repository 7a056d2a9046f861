//! One run over lines: each line of a reader is a text of its own.
ghost use Rattle.std.specs.Prelude.{◌≡◌, ◌+◌, ℕ, List, Option, IfOk, IfErr, OnOk, OnErr};
ghost use Rattle.std.specs.Prelude.{string_bytes};
ghost use Rattle.std.specs.Io.KnownBytes.{Appends, Consumes, IsAtEnd};
ghost use Rattle.bson_model.specs.NamedOptions.{default_options};
ghost use Rattle.bson_run.specs.Diagnostic.{IsDiagnostic};
ghost use Rattle.bson_run.specs.Lines.{RunHasDoneAllLines, RunFailsAtLine, line_number_of, buffered_text};
ghost use Rattle.bson_run.specs.LinesSteps.{CannotWriteBoth, LineCountFits, HasFlushed, IsLineCountOverflow};
ghost use Rattle.bson_run.specs.LinesSteps.{IsBeforeFirstLine, RunProgress};
ghost use Rattle.bson_run.specs.ErrorMessages.{IsPositionMessage};

use crate::line_run_state::{LineRunState, Settings, clear_buffer};
use crate::task::{OnRefusal, Task};
use bson::extjson::Options;
use bson_convert::error::Error;
use bson_convert::stream::write_whole;
use std::alloc::{AllocError, Global};
use std::io::{Read, Write};

/// The capacity of a pipe.
const BLOCK_SIZE: usize = 65536;

/// How many lines there were.
///
/// ```
/// let mut lines: &[u8] = b"1\n[\n";
/// let (mut output, mut diagnostics) = (Vec::new(alloc), Vec::new(alloc));
/// let task = Task::new(Output::Nothing(Criterion::Valid));
/// let mut run = LineRun::new(alloc, task, OnRefusal::KeepGoing);
/// let counts = run.run(alloc, &mut lines, &mut output, &mut diagnostics);
/// println!(rt; "{counts:?}")?; // Ok(Counts { lines: 2, refused: 1 })
/// ```
#[derive(Clone, Copy, PartialEq, Eq, Debug)]
pub struct Counts {
    /// All lines, blank ones and refused ones too.
    pub lines: u64,
    /// Those that were refused.
    pub refused: u64,
}

/// A run over lines: what is asked of it, and how far it came.
///
/// ```
/// let mut lines: &[u8] = br#"{"n": 1.5}"#;
/// let (mut output, mut diagnostics) = (Vec::new(alloc), Vec::new(alloc));
/// let task = Task::new(Output::Nothing(Criterion::Valid));
/// let mut run = LineRun::new(alloc, task, OnRefusal::Stop);
/// if let Err(fault) = run.run(alloc, &mut lines, &mut output, &mut diagnostics) {
///     let place = run.place(alloc, &fault)?;
///     println!(rt; "line {}: {}{place}", run.number(), fault.message())?;
/// }
/// // line 1: not Extended JSON at n (not a 64-bit integer; found 1.5)
/// ```
#[derive(Drop)]
pub struct LineRun {
    /// The meaning of a line, the values that have a text, and the order of keys in the output.
    pub options: Options,
    /// The task for each line.
    pub task: Task,
    /// Whether the run goes on after a rejected line.
    pub on_refusal: OnRefusal,
    pub(crate) state: LineRunState,
}

impl LineRun {
    /// Makes a run that did not begin, with the options by default.
    pub fn new(alloc: Global, task: Task, on_refusal: OnRefusal) -> LineRun
        ensures settings { (result.options ≡ default_options) × (result.task ≡ task)
            × (result.on_refusal ≡ on_refusal) }
    {
        LineRun {
            options: Options::default(),
            task,
            on_refusal,
            state: LineRunState::new(alloc),
        }
    }

    /// Reads lines until the reader is at its end, each as one JSON text. Writes the output of
    /// each, in the order of the lines.
    ///
    /// A newline ends a line. The bytes after the last newline are a line too, unless there are
    /// none. Lines of spaces, tabs and carriage returns have no output, and count. A byte order
    /// mark at the start of the input is passed over.
    ///
    /// A rejected line ends the run, or is skipped with a diagnostic, as `on_refusal` says. Memory is
    /// that of the longest line and of a block of 64 KiB with its output. The output of a block is
    /// written before the next is read.
    ///
    /// # Errors
    ///
    /// `number` is that of the first line that was not done. All output of the lines before it was
    /// written, and nothing of the line itself.
    ///
    /// - `NotJson`, `NotExtendedJson`, `NoBytes` or `NotCanonical`: the line is rejected, and
    ///   `on_refusal` stops the run.
    /// - `CannotRead`: the reader failed, `Interrupted` too.
    /// - `CannotWrite`: the writer or the diagnostics writer failed, `Interrupted` too, or accepted no byte.
    ///   Either not all diagnostics were written, or all of them were and not all output was.
    /// - `OutOfMemory`: an allocation failed.
    pub fn run<R: Read, W: Write, T: Write>(
        &mut self,
        alloc: Global,
        reader: &mut R,
        writer: &mut W,
        diagnostics_writer: &mut T,
    ) -> Result<Counts, Error>
        ensures done { IfOk result (λ counts. RunHasDoneAllLines self.old.options self.old.task self.old.on_refusal
            (R.remaining reader.old) (R.remaining reader.new) (W.contents writer.old) (W.contents writer.new)
            (T.contents diagnostics_writer.old) (T.contents diagnostics_writer.new) counts.lines counts.refused) }
        ensures fails { IfErr result
            (λ failure. RunFailsAtLine self.old.options failure self.old.task self.old.on_refusal
            (R.remaining reader.old) (R.remaining reader.new) (W.contents writer.old) (W.contents writer.new)
            (T.contents diagnostics_writer.old) (T.contents diagnostics_writer.new) (line_number_of self.new)
            (buffered_text self.new.state)) }
        ensures keeps_settings { (self.new.options ≡ self.old.options) × (self.new.task ≡ self.old.task)
            × (self.new.on_refusal ≡ self.old.on_refusal) }
    {
        let settings = Settings {
            options: self.options,
            task: self.task,
            on_refusal: self.on_refusal,
        };
        self.state = LineRunState::new(alloc);
        run_from_start(
            alloc,
            settings,
            &mut self.state,
            reader,
            writer,
            diagnostics_writer,
        )
    }

    /// Returns the number of the line at which the run is: the first that was not done. Lines are
    /// counted from 1, and blank ones count.
    pub fn number(&self) -> u64
        ensures { result ≡ line_number_of self.now }
    {
        self.state.lines.saturating_add(1)
    }

    /// Returns where the line at which the run stopped is wrong, as the message of `explain_under`.
    ///
    /// # Errors
    ///
    /// `AllocError` if an allocation fails.
    pub fn place(&self, alloc: Global, fault: &Error) -> Result<String, AllocError>
        ensures { IfOk result
            (λ place. IsPositionMessage self.now.task.preprocessing.v1 (buffered_text self.now.state) fault.now (string_bytes place)) }
    {
        self.state.place(alloc, self.task, fault)
    }

    /// Returns the diagnostic on the line at which the run stopped, in the format of the task.
    ///
    /// # Errors
    ///
    /// `AllocError` if an allocation fails.
    pub fn diagnostic(&self, alloc: Global, fault: &Error) -> Result<String, AllocError>
        ensures { IfOk result (λ diagnostic. IsDiagnostic self.now.task (line_number_of self.now)
            fault.now (buffered_text self.now.state) (string_bytes diagnostic)) }
    {
        self.state.diagnostic(alloc, self.task, fault)
    }
}

// Runs from the state before the first line.
fn run_from_start<R: Read, W: Write, T: Write>(
    alloc: Global,
    settings: Settings,
    state: &mut LineRunState,
    reader: &mut R,
    writer: &mut W,
    diagnostics_writer: &mut T,
) -> Result<Counts, Error>
    requires start { IsBeforeFirstLine state.old }
    requires room { LineCountFits state.old }
    ensures room { LineCountFits state.new }
    ensures done { IfOk result
        (λ counts. RunHasDoneAllLines settings.options settings.task settings.on_refusal (R.remaining reader.old)
        (R.remaining reader.new)
        (W.contents writer.old) (W.contents writer.new) (T.contents diagnostics_writer.old)
        (T.contents diagnostics_writer.new) counts.lines
        counts.refused) }
    ensures fails { IfErr result
        (λ failure. RunFailsAtLine settings.options failure settings.task settings.on_refusal (R.remaining reader.old)
        (R.remaining reader.new)
        (W.contents writer.old) (W.contents writer.new) (T.contents diagnostics_writer.old)
        (T.contents diagnostics_writer.new) (state.new.lines + 1) (buffered_text state.new)) }
{
    let mut block = [0u8; BLOCK_SIZE];
    for _ in 0..u64::MAX {
        let Ok(read_count) = reader.read(&mut block) else {
            return Err(Error::CannotRead);
        };
        if read_count == 0 {
            return finish_run(alloc, settings, state, writer, diagnostics_writer);
        }
        process_block(
            alloc,
            settings,
            state,
            &block[..read_count],
            writer,
            diagnostics_writer,
        )?;
    }
    // A count that no run reaches.
    Err(Error::CannotRead)
}

// Reads a block, and writes the output of its lines.
fn process_block<W: Write, T: Write>(
    alloc: Global,
    settings: Settings,
    state: &mut LineRunState,
    block: &[u8],
    writer: &mut W,
    diagnostics_writer: &mut T,
) -> Result<(), Error>
    requires room { LineCountFits state.old }
    ensures room { LineCountFits state.new }
    ensures ok { OnOk result
        ((input_before input_before_block input_after output_before diagnostics_before : Option (List ℕ))
        → RunProgress settings.options settings.task settings.on_refusal input_before input_before_block output_before
        (W.contents writer.old)
        diagnostics_before (T.contents diagnostics_writer.old) state.old
        → Consumes input_before_block input_after block.now
        → RunProgress settings.options settings.task settings.on_refusal input_before input_after output_before
        (W.contents writer.new)
        diagnostics_before (T.contents diagnostics_writer.new) state.new) }
    ensures fails { IfErr result
        (λ failure. (input_before input_before_block input_after output_before diagnostics_before : Option (List ℕ))
        → RunProgress settings.options settings.task settings.on_refusal input_before input_before_block output_before
        (W.contents writer.old)
        diagnostics_before (T.contents diagnostics_writer.old) state.old
        → Consumes input_before_block input_after block.now
        → RunFailsAtLine settings.options failure settings.task settings.on_refusal input_before input_after output_before (W.contents writer.new) diagnostics_before
        (T.contents diagnostics_writer.new) (state.new.lines + 1) (buffered_text state.new)) }
    ensures count { IfErr result (λ failure. IsLineCountOverflow failure state.new.lines) }
{
    let step_result = state.take(alloc, settings, block);
    flush_buffers(state, writer, diagnostics_writer)?;
    step_result
}

// Finishes a last line that has no newline, and writes its output.
fn finish_run<W: Write, T: Write>(
    alloc: Global,
    settings: Settings,
    state: &mut LineRunState,
    writer: &mut W,
    diagnostics_writer: &mut T,
) -> Result<Counts, Error>
    requires room { LineCountFits state.old }
    ensures room { LineCountFits state.new }
    ensures done { IfOk result (λ counts. (input_before input_after output_before diagnostics_before : Option (List ℕ))
        → RunProgress settings.options settings.task settings.on_refusal input_before input_after output_before
        (W.contents writer.old)
        diagnostics_before (T.contents diagnostics_writer.old) state.old
        → IsAtEnd input_after
        → RunHasDoneAllLines settings.options settings.task settings.on_refusal input_before input_after output_before
        (W.contents writer.new) diagnostics_before
        (T.contents diagnostics_writer.new) counts.lines counts.refused) }
    ensures fails { IfErr result
        (λ failure. (input_before input_after output_before diagnostics_before : Option (List ℕ))
        → RunProgress settings.options settings.task settings.on_refusal input_before input_after output_before
        (W.contents writer.old)
        diagnostics_before (T.contents diagnostics_writer.old) state.old
        → IsAtEnd input_after
        → RunFailsAtLine settings.options failure settings.task settings.on_refusal input_before input_after output_before (W.contents writer.new) diagnostics_before
        (T.contents diagnostics_writer.new) (state.new.lines + 1) (buffered_text state.new)) }
    ensures count { IfErr result (λ failure. IsLineCountOverflow failure state.new.lines) }
{
    let step_result = state.finish_last_line(alloc, settings);
    flush_buffers(state, writer, diagnostics_writer)?;
    step_result?;
    Ok(Counts {
        lines: state.lines,
        refused: state.refused,
    })
}

// Writes the output and the diagnostics that are in memory. The diagnostics come first, so that a
// writer that fails loses none.
fn flush_buffers<W: Write, T: Write>(
    state: &mut LineRunState,
    writer: &mut W,
    diagnostics_writer: &mut T,
) -> Result<(), Error>
    requires room { LineCountFits state.old }
    ensures room { LineCountFits state.new }
    ensures ok { OnOk result (HasFlushed state.old state.new) }
    ensures written { OnOk result (Appends (W.contents writer.old) (W.contents writer.new) state.old.output.items) }
    ensures reports_appended { OnOk result
        (Appends (T.contents diagnostics_writer.old) (T.contents diagnostics_writer.new) state.old.diagnostics.items) }
    ensures partly_written { OnErr result
        (CannotWriteBoth (W.contents writer.old) (W.contents writer.new) (T.contents diagnostics_writer.old)
        (T.contents diagnostics_writer.new) state.old.output.items state.old.diagnostics.items) }
    ensures keeps_line_count { OnErr result (state.new.lines ≡ state.old.lines) }
    ensures fault { IfErr result (λ failure. failure ≡ Error.CannotWrite) }
{
    let Ok(()) = write_whole(diagnostics_writer, &state.diagnostics) else {
        return Err(Error::CannotWrite);
    };
    let Ok(()) = write_whole(writer, &state.output) else {
        return Err(Error::CannotWrite);
    };
    clear_buffer(&mut state.output);
    state.diagnostics.clear();
    Ok(())
}
