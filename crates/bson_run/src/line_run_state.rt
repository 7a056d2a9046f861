//! The state of a run over lines: the buffered line, and the output of the lines before it.
ghost use Rattle.std.specs.Prelude.{◌≡◌, ◌⊎◌, ◌++◌, ◌+◌, [], ◌∷◌, ◌<◌, length, IfOk, IfErr, take};
ghost use Rattle.std.specs.Prelude.{OnOk, OnErr, None, Ok, IsTrue, ◌↔◌, string_bytes};
ghost use Rattle.std.specs.Prelude.{MatchOption, IfSome, IsUtf8, ◌≢◌, slice_index, min, ◌-◌, ◌^◌};
ghost use Rattle.bson_run.specs.Lines.{IsBlank, IsStoppedAtText, WritesOutputForTask};
ghost use Rattle.bson_run.specs.Diagnostic.{IsDiagnostic};
ghost use Rattle.bson_run.specs.Lines.{buffered_text, line_text, CriterionAccepts, WritesOutput, WritesText};
ghost use Rattle.bson_run.specs.LinesSteps.{EndsLastLine, LineCountFits, HaveSameResults, IsLineCountOverflow};
ghost use Rattle.bson_run.specs.LinesSteps.{IsConversionFailure, IsOutputFailure, HasNoNewline, IsBeforeFirstLine, IsDiagnosticAppended, StopsAtLastLine, StopsInBytes};
ghost use Rattle.bson_run.specs.LinesSteps.{ReadsBytes, EndsLine};
ghost use Rattle.bson_run.specs.declared.task.OnRefusal.TheVariants.{Stop};
ghost use Rattle.bson_run.specs.ErrorMessages.{IsPositionMessage};
ghost use Rattle.bson_run.specs.declared.task.Output.TheVariants.{Nothing};
ghost use Rattle.bson_run.specs.Preprocessed.{preprocessed_of};

use crate::diagnostic::line_diagnostic;
use crate::encode::encode_line;
use crate::explain::explain_under;
use crate::preprocessed::preprocess_text;
use crate::task::{Criterion, OnRefusal, Output, Task};
use bson::extjson::Options;
use bson_convert::canonical::check_canonical_line;
use bson_convert::check::check_line;
use bson_convert::convert::convert_line;
use bson_convert::error::Error;
use json::Scratch;
use memchr::memchr;
use std::alloc::{AllocError, Global};

/// The result of a step over a line.
type StepResult = Result<(), Error>;

/// U+FEFF in UTF-8.
const BYTE_ORDER_MARK: [u8; 3] = [0xef, 0xbb, 0xbf];

/// An output of more bytes is long.
const LARGE_OUTPUT: usize = 1 << 20;

/// The options and the task of a run.
#[derive(Clone, Copy)]
pub struct Settings {
    pub options: Options,
    pub task: Task,
    pub on_refusal: OnRefusal,
}

/// The buffered line, and the output and diagnostics of the lines before it that are not written yet.
#[derive(Drop)]
pub struct LineRunState {
    pub line: Vec<u8>,
    pub output: Vec<u8>,
    pub diagnostics: Vec<u8>,
    pub lines: u64,
    pub refused: u64,
    /// The memory for reading a line, made once in a run.
    pub scratch: Scratch,
}

// Returns the offset of the first newline.
fn newline_at(bytes: &[u8]) -> Option<usize>
    ensures { MatchOption result (HasNoNewline bytes.now) (λ newline_offset. (newline_offset < length bytes.now)
        × HasNoNewline (take newline_offset bytes.now)
        × (slice_index bytes.now newline_offset ≡ 10)) }
{
    memchr(b'\n', bytes)
}

// Returns the text of a line that comes after this number of lines.
fn text(lines_before: u64, line: &[u8]) -> &[u8]
    ensures { result.now ≡ line_text lines_before line.now }
{
    if lines_before == 0 && line.starts_with(&BYTE_ORDER_MARK) {
        &line[3..]
    } else {
        line
    }
}

// Whether there are only spaces, tabs and carriage returns.
fn is_blank(text: &[u8]) -> bool
    ensures { IsTrue result ↔ IsBlank text.now }
{
    text.iter()
        .all(|byte| *byte == b' ' || *byte == b'\t' || *byte == b'\r')
}

// Returns the output for the text, or nothing for a blank text.
fn convert_or_check(
    alloc: Global,
    settings: Settings,
    text: &[u8],
    scratch: &mut Scratch,
) -> Result<Option<Vec<u8>>, Error>
    ensures blank { result ≡ Ok None → IsBlank text.now }
    ensures ok { IfOk result (λ optional_output. IfSome optional_output (λ output. WritesOutputForTask settings.options settings.task text.now output.items)) }
    ensures utf8 { WritesText settings.task.output
        → IfOk result (λ optional_output. IfSome optional_output (λ output. IsUtf8 output.items)) }
    ensures fault { IfErr result (λ fault. IsConversionFailure settings.options settings.task fault text.now) }
{
    if is_blank(text) {
        return Ok(None);
    }
    let upgraded = preprocess_text(alloc, settings.task.preprocessing, text)?;
    let preprocessed = preprocessed_text(&upgraded, text);
    let output = settings.task.output;
    Ok(Some(write_output(alloc, settings.options, output, preprocessed, scratch)?))
}

// Returns the text that is read: the upgraded text, or the text itself if it was not upgraded.
fn preprocessed_text<'a>(upgraded: &'a Option<String>, text: &'a [u8]) -> &'a [u8]
    ensures { result.now ≡ preprocessed_of text.now upgraded.now }
{
    match upgraded {
        Some(upgraded) => upgraded.as_bytes(),
        None => text,
    }
}

// Returns the output for a text that was preprocessed.
fn write_output(
    alloc: Global,
    options: Options,
    output: Output,
    text: &[u8],
    scratch: &mut Scratch,
) -> Result<Vec<u8>, Error>
    ensures ok { IfOk result (λ bytes. WritesOutput options output text.now bytes.items) }
    ensures utf8 { WritesText output → IfOk result (λ bytes. IsUtf8 bytes.items) }
    ensures fault { IfErr result (λ fault. IsOutputFailure options fault output text.now) }
{
    match output {
        Output::Text(mode) => convert_line(alloc, options, mode, text, scratch),
        Output::Bytes => encode_line(alloc, options, text, scratch),
        Output::Nothing(criterion) => {
            check_by_criterion(alloc, options, criterion, text, scratch)?;
            Ok(Vec::new(alloc))
        }
    }
}

// Checks a text by a criterion.
fn check_by_criterion(
    alloc: Global,
    options: Options,
    criterion: Criterion,
    text: &[u8],
    scratch: &mut Scratch,
) -> Result<(), Error>
    ensures ok { OnOk result (CriterionAccepts options criterion text.now) }
    ensures fault { IfErr result (λ fault. IsOutputFailure options fault (Nothing criterion) text.now) }
{
    match criterion {
        Criterion::Valid => check_line(alloc, options, text, scratch),
        Criterion::Canonical => check_canonical_line(alloc, options, text, scratch),
    }
}

/// Removes the bytes, and frees the memory of many.
pub(crate) fn clear_buffer(bytes: &mut Vec<u8>)
    ensures { bytes.new.items ≡ [] }
{
    let is_long = bytes.len() > LARGE_OUTPUT;
    bytes.clear();
    if is_long {
        bytes.shrink_to_fit();
    }
}

// Adds more bytes.
fn append(bytes: &mut Vec<u8>, appended_bytes: &[u8]) -> StepResult
    ensures ok { OnOk result (bytes.new.items ≡ bytes.old.items ++ appended_bytes.now) }
    ensures err { OnErr result (bytes.new.items ≡ bytes.old.items) }
    ensures fault { IfErr result (λ failure. failure ≡ Error.OutOfMemory) }
{
    match bytes.extend_from_slice(appended_bytes) {
        Ok(()) => Ok(()),
        Err(_) => Err(Error::OutOfMemory),
    }
}

impl LineRunState {
    /// Makes the state before the first line.
    pub fn new(alloc: Global) -> LineRunState
        ensures start { IsBeforeFirstLine result }
        ensures room { LineCountFits result }
    {
        LineRunState {
            line: Vec::new(alloc),
            output: Vec::new(alloc),
            diagnostics: Vec::new(alloc),
            lines: 0,
            refused: 0,
            scratch: Scratch::new(alloc),
        }
    }

    /// Returns where the line that is being read is wrong, as the message of `explain_under`.
    ///
    /// # Errors
    ///
    /// `AllocError` if an allocation fails.
    pub fn place(&self, alloc: Global, task: Task, fault: &Error) -> Result<String, AllocError>
        ensures { IfOk result (λ place. IsPositionMessage task.preprocessing.v1 (buffered_text self.now) fault.now (string_bytes place)) }
    {
        explain_under(alloc, task, fault, text(self.lines, &self.line))
    }

    /// Returns the diagnostic on the line that is being read, in the format of the task.
    ///
    /// # Errors
    ///
    /// `AllocError` if an allocation fails.
    pub fn diagnostic(&self, alloc: Global, task: Task, fault: &Error) -> Result<String, AllocError>
        ensures { IfOk result (λ diagnostic. IsDiagnostic task (min (self.now.lines + 1) (2 ^ 64 - 1))
            fault.now (buffered_text self.now) (string_bytes diagnostic)) }
    {
        let number = self.lines.saturating_add(1);
        line_diagnostic(alloc, task, number, fault, text(self.lines, &self.line))
    }

    // Appends bytes to the line.
    fn extend_line(&mut self, line_part: &[u8]) -> StepResult
        ensures ok { OnOk result (self.new.line.items ≡ self.old.line.items ++ line_part.now) }
        ensures unchanged { HaveSameResults self.old self.new }
        ensures fault { IfErr result (λ failure. failure ≡ Error.OutOfMemory) }
    {
        append(&mut self.line, line_part)
    }

    // Finishes the buffered line: its output or diagnostic is added, and the next line is empty.
    fn end_line(&mut self, alloc: Global, settings: Settings) -> StepResult
        requires room { LineCountFits self.old }
        ensures room { LineCountFits self.new }
        ensures ok { OnOk result (EndsLine settings.options settings.task settings.on_refusal self.old self.new) }
        ensures unchanged { OnErr result (HaveSameResults self.old self.new) }
        ensures keeps_line { OnErr result (self.new.line ≡ self.old.line) }
        ensures fault { IfErr result
            (λ failure. IsStoppedAtText settings.options settings.task settings.on_refusal failure (line_text self.old.lines self.old.line.items)) }
        ensures count { IfErr result (λ failure. IsLineCountOverflow failure self.old.lines) }
    {
        if self.lines + 1 == u64::MAX {
            // A count that no run reaches.
            return Err(Error::CannotRead);
        }
        let line = text(self.lines, &self.line);
        match convert_or_check(alloc, settings, line, &mut self.scratch) {
            Ok(None) => {}
            Ok(Some(output)) => self.add_output(output)?,
            Err(fault) => self.refuse_line(alloc, settings, fault)?,
        }
        self.line.clear();
        self.lines += 1;
        Ok(())
    }

    // Adds the output of a line. A long output is moved, so that it is not in memory twice.
    fn add_output(&mut self, output: Vec<u8>) -> StepResult
        ensures ok { OnOk result (self.new.output.items ≡ self.old.output.items ++ output.items) }
        ensures err { OnErr result (self.new.output.items ≡ self.old.output.items) }
        ensures unchanged { (self.new.line ≡ self.old.line) × (self.new.diagnostics ≡ self.old.diagnostics)
            × (self.new.lines ≡ self.old.lines) × (self.new.refused ≡ self.old.refused) }
        ensures fault { IfErr result (λ failure. failure ≡ Error.OutOfMemory) }
    {
        if self.output.is_empty() && output.len() > LARGE_OUTPUT {
            self.output = output;
            return Ok(());
        }
        append(&mut self.output, &output)
    }

    // Adds a diagnostic, if rejected lines do not stop the run.
    fn refuse_line(&mut self, alloc: Global, settings: Settings, fault: Error) -> StepResult
        requires room { LineCountFits self.old }
        ensures ok { OnOk result ((fault ≢ Error.OutOfMemory) × (settings.on_refusal ≢ Stop)
            × (self.new.refused ≡ self.old.refused + 1)
            × IsDiagnosticAppended settings.task (self.old.lines + 1) fault
            (line_text self.old.lines self.old.line.items) self.old.diagnostics.items self.new.diagnostics.items) }
        ensures err { OnErr result ((self.new.diagnostics.items ≡ self.old.diagnostics.items)
            × (self.new.refused ≡ self.old.refused)) }
        ensures unchanged { (self.new.line ≡ self.old.line) × (self.new.output ≡ self.old.output)
            × (self.new.lines ≡ self.old.lines) }
        ensures fault { IfErr result (λ failure. (failure ≡ Error.OutOfMemory)
            ⊎ ((settings.on_refusal ≡ Stop) × (failure ≡ fault))) }
    {
        if fault.is_out_of_memory() {
            return Err(fault);
        }
        if settings.on_refusal == OnRefusal::Stop {
            return Err(fault);
        }
        match self.add_diagnostic(alloc, settings.task, &fault) {
            Ok(()) => {}
            Err(_) => return Err(Error::OutOfMemory),
        }
        self.refused += 1;
        Ok(())
    }

    // Adds the diagnostic on the line.
    fn add_diagnostic(&mut self, alloc: Global, task: Task, fault: &Error) -> Result<(), AllocError>
        requires room { LineCountFits self.old }
        ensures ok { OnOk result
            (IsDiagnosticAppended task (self.old.lines + 1) fault.now
            (line_text self.old.lines self.old.line.items) self.old.diagnostics.items self.new.diagnostics.items) }
        ensures err { OnErr result (self.new.diagnostics.items ≡ self.old.diagnostics.items) }
        ensures unchanged { (self.new.line ≡ self.old.line) × (self.new.output ≡ self.old.output)
            × (self.new.lines ≡ self.old.lines) × (self.new.refused ≡ self.old.refused) }
    {
        let line = text(self.lines, &self.line);
        let diagnostic = line_diagnostic(alloc, task, self.lines + 1, fault, line)?;
        self.diagnostics.extend_from_slice(diagnostic.as_bytes())
    }

    /// Reads bytes: each line that ends in them, and the beginning of the next.
    ///
    /// # Errors
    ///
    /// - The error of the first line that has one, if `settings.on_refusal` is `Stop`.
    /// - `OutOfMemory`: an allocation failed.
    /// - `CannotRead`: the number of lines does not fit in 64 bits.
    pub fn take(&mut self, alloc: Global, settings: Settings, bytes: &[u8]) -> StepResult
        requires room { LineCountFits self.old }
        ensures room { LineCountFits self.new }
        ensures ok { OnOk result (ReadsBytes settings.options settings.task settings.on_refusal bytes.now self.old self.new) }
        ensures fault { IfErr result (λ failure. StopsInBytes settings.options settings.task settings.on_refusal bytes.now failure self.old self.new) }
        ensures count { IfErr result (λ failure. IsLineCountOverflow failure self.new.lines) }
    {
        let mut unread_bytes = bytes;
        while let Some(newline_offset) = newline_at(unread_bytes) {
            self.extend_line(&unread_bytes[..newline_offset])?;
            self.end_line(alloc, settings)?;
            unread_bytes = &unread_bytes[newline_offset + 1..];
        }
        self.extend_line(unread_bytes)
    }

    /// Finishes a last line that has no newline, unless it is empty.
    ///
    /// # Errors
    ///
    /// - The error of the first line that has one, if `settings.on_refusal` is `Stop`.
    /// - `OutOfMemory`: an allocation failed.
    /// - `CannotRead`: the number of lines does not fit in 64 bits.
    pub fn finish_last_line(&mut self, alloc: Global, settings: Settings) -> StepResult
        requires room { LineCountFits self.old }
        ensures room { LineCountFits self.new }
        ensures ok { OnOk result (EndsLastLine settings.options settings.task settings.on_refusal self.old self.new) }
        ensures fault { IfErr result (λ failure. StopsAtLastLine settings.options settings.task settings.on_refusal failure self.old self.new) }
        ensures count { IfErr result (λ failure. IsLineCountOverflow failure self.new.lines) }
    {
        if self.line.is_empty() {
            return Ok(());
        }
        self.end_line(alloc, settings)
    }
}
