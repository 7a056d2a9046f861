//! A comparison of the values of two files.
ghost use Rattle.std.specs.Prelude.{◌≡◌, IfErr, IfOk, string_bytes};
ghost use Rattle.bson_program.specs.Comparison.{HappensAtFirstTwo, IsComparisonFailure, difference_of_inputs, input_name_at};
ghost use Rattle.bson_program.specs.RunFailures.{HappensAt};

use crate::compare_outputs::{Difference, compare_outputs, difference_line};
use crate::invocation::{Input, Invocation, STDIO};
use crate::messages::show_name;
use crate::progress::{Progress, total_size};
use crate::run::{RunFailure, check_input_file, run_file};
use crate::streams::{OutputTarget, OutputWriter};
use bson_convert::error;
use std::alloc::{AllocError, Global};

/// Returns how the values of two files differ, or `None` if they are the same. It reads both files
/// whole, and keeps their output in memory. If an input is rejected for its format, a hint
/// is added.
pub fn compare_files<'a>(
    rt: &HostRuntime,
    invocation: &'a Invocation,
    hints: &mut Vec<String>,
) -> Result<Option<Difference>, RunFailure<'a>>
    ensures { IfErr result (IsComparisonFailure invocation.now) }
{
    for file_name in invocation.inputs.iter() {
        check_input_file(rt, invocation, file_name.as_str())?;
    }
    let progress = Progress::new(
        rt,
        total_size(rt, invocation),
        invocation.input != Input::Documents,
    );
    let difference = compare_inputs(rt, invocation, &progress, hints);
    progress.clear();
    difference
}

fn compare_inputs<'a>(
    rt: &HostRuntime,
    invocation: &'a Invocation,
    progress: &Progress<'_>,
    hints: &mut Vec<String>,
) -> Result<Option<Difference>, RunFailure<'a>>
    ensures { IfErr result (HappensAtFirstTwo invocation.now) }
{
    let (first_name, second_name) = (input_name_at(invocation, 0), input_name_at(invocation, 1));
    let first_output = output_of_file(rt, invocation, first_name, progress, hints)?;
    let second_output = output_of_file(rt, invocation, second_name, progress, hints)?;
    match compare_outputs(
        rt.alloc(),
        invocation.is_unordered,
        &first_output,
        &second_output,
    ) {
        Ok(difference) => Ok(difference),
        Err(_) => Err(out_of_memory(rt.alloc(), invocation, first_name)),
    }
}

// Returns the output of one file.
fn output_of_file<'a>(
    rt: &HostRuntime,
    invocation: &'a Invocation,
    file_name: &'a str,
    progress: &Progress<'_>,
    hints: &mut Vec<String>,
) -> Result<Vec<u8>, RunFailure<'a>>
    ensures { IfErr result (HappensAt invocation.now file_name.now) }
{
    let mut output_writer = OutputWriter::new(OutputTarget::Memory(Vec::new(rt.alloc())));
    match run_file(
        rt,
        invocation,
        file_name,
        &mut output_writer,
        progress,
        hints,
    ) {
        Ok(_) => Ok(output_writer.target.into_memory(rt.alloc())),
        Err(RunFailure::Output(_, _)) => Err(out_of_memory(rt.alloc(), invocation, file_name)),
        Err(failure) => Err(failure),
    }
}

fn out_of_memory<'a>(alloc: Global, invocation: &Invocation, file_name: &'a str) -> RunFailure<'a>
    ensures { HappensAt invocation.now file_name.now result }
{
    RunFailure::Text(file_name, 0, error::Error::OutOfMemory, String::new(alloc))
}

// Returns the name of the first file (0) or of the second (1).
fn input_name_at(invocation: &Invocation, input_index: usize) -> &str
    ensures { result.now ≡ input_name_at invocation.now.inputs.items input_index }
{
    if input_index < invocation.inputs.len() {
        invocation.inputs[input_index].as_str()
    } else {
        STDIO
    }
}

/// Returns the line that says how the two files differ.
pub fn difference_line_for(
    alloc: Global,
    invocation: &Invocation,
    difference: Difference,
) -> Result<String, AllocError>
    ensures { IfOk result
        (λ line. string_bytes line ≡ difference_of_inputs invocation.now.inputs.items difference) }
{
    let first_name = show_name(alloc, input_name_at(invocation, 0), "input")?;
    let second_name = show_name(alloc, input_name_at(invocation, 1), "input")?;
    difference_line(alloc, &first_name, &second_name, difference)
}
