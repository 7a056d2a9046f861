//! A block of lines, each a text of its own.
ghost use Rattle.std.specs.Prelude.{◌≡◌, ◌⊎◌, ◌↔◌, ◌<◌, Some, IfSome};
ghost use Rattle.bson_convert.specs.declared.mode.Mode.{Mode};
ghost use Rattle.vbson.specs.Convert.{mode_of_number, options_of_call};
ghost use Rattle.vbson.specs.Lines.{LinesAreConverted, LinesAreEncoded, IsLinesResult};
ghost use Rattle.vbson.specs.Lines.{EachLineIsAccepted, IsFirstRejected, is_rejection, task_of};
ghost use Rattle.vbson.specs.Options.{AreInvalid};

use crate::convert::mode_of;
use crate::options::{CallOptions, are_invalid, options_of, preprocessing_of};
use crate::status;
use crate::text::{Text, append_nul, text_before_nul};
use bson::extjson::Options;
use bson_convert::error::Error;
use bson_run::lines::LineRun;
use bson_run::task::{OnRefusal, Output, Task};
use std::alloc::Global;
use std::io::sink;

/// The result for a block of lines: the output of each line, the diagnostics of the rejected ones,
/// the number of lines, and the number of rejected lines.
#[repr(C)]
#[derive(Drop)]
pub struct Lines<'a> {
    pub text: Text<'a>,
    pub diagnostics: Text<'a>,
    pub lines: u64,
    pub refused: u64,
}

/// Converts each line of the block, which is one text of Extended JSON. Writes the outputs in their
/// order, each on one line, and a diagnostic for each rejected line, with its number and path. The
/// caller frees the blocks of both texts with `free`.
#[unsafe(no_mangle)]
pub extern "C" fn vbson_convert_lines_nonnull(
    alloc: Global,
    mode: u32,
    options: &CallOptions,
    block: &[u8],
    out: &mut Lines<'static>,
) -> u32
    ensures success { result ≡ 0 → LinesAreConverted options.now mode block.now out.new }

    // When each other status comes, and that nothing is left then.
    ensures invalid_argument { result ≡ 1 ↔ (2 < mode) ⊎ AreInvalid options.now }
    ensures possible_statuses { (result ≡ 0) ⊎ (result ≡ 1) ⊎ (result ≡ 5) }
    ensures unchanged { 0 < result → out.new ≡ out.old }
{
    if are_invalid(*options) {
        return status::INVALID_ARGUMENT;
    }
    let Some(mode) = mode_of(mode) else {
        return status::INVALID_ARGUMENT;
    };
    let task = task_of(*options, Output::Text(mode));
    let Some(lines) = lines_of(alloc, options_of(*options), task, block) else {
        return status::OUT_OF_MEMORY;
    };
    *out = lines;
    status::OK
}

/// Encodes each line of the block, which is one text of Extended JSON. Writes the bytes of their
/// documents, concatenated in the order of the lines, and a diagnostic for each rejected line, with
/// its number and path. The bytes are followed by a NUL. The caller frees the blocks of the bytes
/// and of the diagnostics with `free`.
#[unsafe(no_mangle)]
pub extern "C" fn vbson_encode_lines_nonnull(
    alloc: Global,
    options: &CallOptions,
    block: &[u8],
    out: &mut Lines<'static>,
) -> u32
    ensures success { result ≡ 0 → LinesAreEncoded options.now block.now out.new }

    // When each other status comes, and that nothing is left then.
    ensures invalid_argument { result ≡ 1 ↔ AreInvalid options.now }
    ensures possible_statuses { (result ≡ 0) ⊎ (result ≡ 1) ⊎ (result ≡ 5) }
    ensures unchanged { 0 < result → out.new ≡ out.old }
{
    if are_invalid(*options) {
        return status::INVALID_ARGUMENT;
    }
    let task = task_of(*options, Output::Bytes);
    let Some(encoded_lines) = lines_of(alloc, options_of(*options), task, block) else {
        return status::OUT_OF_MEMORY;
    };
    *out = encoded_lines;
    status::OK
}

/// Finds the first line of the block that `vbson_convert_lines` rejects, and sets its number, from 1.
/// Returns `NOT_FOUND` if that call accepts each line.
#[unsafe(no_mangle)]
pub extern "C" fn vbson_first_rejected_line_nonnull(
    alloc: Global,
    mode: u32,
    options: &CallOptions,
    block: &[u8],
    number: &mut u64,
) -> u32
    ensures rejected { result ≡ 0 → (selected_mode : Mode) → mode_of_number mode ≡ Some selected_mode
        → IsFirstRejected (options_of_call options.now) (task_of options.now (Output.Text selected_mode)) block.now number.new }
    ensures accepted { result ≡ 14 → (selected_mode : Mode) → mode_of_number mode ≡ Some selected_mode
        → EachLineIsAccepted (options_of_call options.now) (task_of options.now (Output.Text selected_mode)) block.now }

    // When each other status comes, and that nothing is left then.
    ensures invalid_argument { result ≡ 1 ↔ (2 < mode) ⊎ AreInvalid options.now }
    ensures possible_statuses { (result ≡ 0) ⊎ (result ≡ 1) ⊎ (result ≡ 5) ⊎ (result ≡ 14) }
    ensures unchanged { 0 < result → number.new ≡ number.old }
{
    if are_invalid(*options) {
        return status::INVALID_ARGUMENT;
    }
    let Some(mode) = mode_of(mode) else {
        return status::INVALID_ARGUMENT;
    };
    first_rejected(
        alloc,
        options_of(*options),
        task_of(*options, Output::Text(mode)),
        block,
        number,
    )
}

/// Finds the first line of the block that `vbson_encode_lines` rejects, and sets its number, from 1.
/// Returns `NOT_FOUND` if that call accepts each line.
#[unsafe(no_mangle)]
pub extern "C" fn vbson_first_unencoded_line_nonnull(
    alloc: Global,
    options: &CallOptions,
    block: &[u8],
    number: &mut u64,
) -> u32
    ensures rejected { result ≡ 0 → IsFirstRejected (options_of_call options.now) (task_of options.now Output.Bytes) block.now number.new }
    ensures accepted { result ≡ 14 → EachLineIsAccepted (options_of_call options.now) (task_of options.now Output.Bytes) block.now }

    // When each other status comes, and that nothing is left then.
    ensures invalid_argument { result ≡ 1 ↔ AreInvalid options.now }
    ensures possible_statuses { (result ≡ 0) ⊎ (result ≡ 1) ⊎ (result ≡ 5) ⊎ (result ≡ 14) }
    ensures unchanged { 0 < result → number.new ≡ number.old }
{
    if are_invalid(*options) {
        return status::INVALID_ARGUMENT;
    }
    let task = task_of(*options, Output::Bytes);
    first_rejected(alloc, options_of(*options), task, block, number)
}

/// Returns the task that writes the output of each line, with the preprocessing of the options.
pub(crate) fn task_of(options: CallOptions, output: Output) -> Task
    ensures { result ≡ task_of options output }
{
    Task {
        preprocessing: preprocessing_of(options),
        ..Task::new(output)
    }
}

// Returns the result for the lines of the block, or `None` if memory runs out.
fn lines_of(alloc: Global, options: Options, task: Task, block: &[u8]) -> Option<Lines<'static>>
    ensures { IfSome result (λ lines. IsLinesResult options task block.now lines) }
{
    let mut reader = block;
    let (mut text, mut diagnostics) = (Vec::new(alloc), Vec::new(alloc));
    let mut run = LineRun::new(alloc, task, OnRefusal::KeepGoing);
    run.options = options;
    let Ok(counts) = run.run(alloc, &mut reader, &mut text, &mut diagnostics) else {
        return None;
    };
    // (a text that is made is not freed here, so all memory is requested before)
    let (Ok(text), Ok(diagnostics)) = (append_nul(text), append_nul(diagnostics)) else {
        return None;
    };
    Some(Lines {
        text: text_before_nul(text),
        diagnostics: text_before_nul(diagnostics),
        lines: counts.lines,
        refused: counts.refused,
    })
}

// Sets the number of the first line that the task rejects.
fn first_rejected(
    alloc: Global,
    options: Options,
    task: Task,
    block: &[u8],
    number: &mut u64,
) -> u32
    ensures rejected { result ≡ 0 → IsFirstRejected options task block.now number.new }
    ensures accepted { result ≡ 14 → EachLineIsAccepted options task block.now }
    ensures possible_statuses { (result ≡ 0) ⊎ (result ≡ 5) ⊎ (result ≡ 14) }
    ensures unchanged { 0 < result → number.new ≡ number.old }
{
    let mut block_reader = block;
    let mut run = LineRun::new(alloc, task, OnRefusal::Stop);
    run.options = options;
    let Err(fault) = run.run(alloc, &mut block_reader, &mut sink(), &mut sink()) else {
        return status::NOT_FOUND;
    };
    if !is_rejection(&fault) {
        return status::OUT_OF_MEMORY;
    }
    *number = run.number();
    status::OK
}

// Returns whether the fault is that of a rejected line.
fn is_rejection(fault: &Error) -> bool
    ensures { result ≡ is_rejection fault.now }
{
    match fault {
        Error::CannotRead | Error::CannotWrite | Error::OutOfMemory => false,
        _ => true,
    }
}
