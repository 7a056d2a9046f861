//! Whether two outputs have the same lines.
ghost use Rattle.std.specs.Prelude.{◌≡◌, IfOk, IfSome, None, map, string_bytes};
ghost use Rattle.std.specs.List.Sorted.{IsPermutation};
ghost use Rattle.bson_program.specs.Messages.{split_lines};
ghost use Rattle.bson_program.specs.Comparison.{value_count_text, difference_message, IsComparison, IsDifference, IsUnorderedDifference};

use crate::messages::line_len;
use std::alloc::{AllocError, Global};

/// How two outputs differ.
#[derive(Clone, Copy, PartialEq, Eq)]
pub enum Difference {
    /// The lines of this number, from 1, are the first that differ.
    AtValue(usize),
    /// One output ends earlier: how many lines each has.
    UnequalCounts(usize, usize),
    /// Both outputs have this number of lines, but not the same lines.
    EqualCounts(usize),
}

/// Returns how two outputs differ, or `None` if they have the same lines. If they are unordered, the
/// order of the lines does not matter.
pub fn compare_outputs(
    alloc: Global,
    is_unordered: bool,
    first_output: &[u8],
    second_output: &[u8],
) -> Result<Option<Difference>, AllocError>
    ensures { IfOk result (IsComparison is_unordered (split_lines first_output.now) (split_lines second_output.now)) }
{
    let mut first_lines = lines_of(alloc, first_output)?;
    let mut second_lines = lines_of(alloc, second_output)?;
    if is_unordered {
        Ok(compare_unordered(&mut first_lines, &mut second_lines))
    } else {
        Ok(compare_lines(&first_lines, &second_lines))
    }
}

/// Returns the line that says how two files differ, by the names that messages show.
pub fn difference_line(
    alloc: Global,
    first_name: &str,
    second_name: &str,
    difference: Difference,
) -> Result<String, AllocError>
    ensures { IfOk result (λ line. string_bytes line ≡ difference_message first_name.now second_name.now difference) }
{
    match difference {
        Difference::AtValue(value_number) => {
            format!(in alloc; "bson: {first_name} and {second_name} differ at value {value_number}")
        }
        Difference::UnequalCounts(first_count, second_count) => {
            let values = value_count_text(alloc, first_count)?;
            format!(in alloc;
                "bson: {first_name} has {values}, and {second_name} has {second_count}"
            )
        }
        Difference::EqualCounts(count) => {
            let values = value_count_text(alloc, count)?;
            format!(in alloc; "bson: {first_name} and {second_name} differ: each has {values}")
        }
    }
}

// Returns a number of values for a message.
fn value_count_text(alloc: Global, count: usize) -> Result<String, AllocError>
    ensures { IfOk result (λ value_count. string_bytes value_count ≡ value_count_text count) }
{
    if count == 1 {
        String::from_str(alloc, "1 value")
    } else {
        format!(in alloc; "{count} values")
    }
}

// Returns the lines of an output, each with its newline.
fn lines_of(alloc: Global, output: &[u8]) -> Result<Vec<&[u8]>, AllocError>
    ensures { IfOk result (λ lines. map (λ line. line.now) lines.items ≡ split_lines output.now) }
{
    let mut lines = Vec::new(alloc);
    let mut remaining_bytes = output;
    while !remaining_bytes.is_empty() {
        let (line, after_line) = remaining_bytes.split_at(line_len(remaining_bytes));
        lines.push(line)?;
        remaining_bytes = after_line;
    }
    Ok(lines)
}

// Returns the first difference between the lines of two outputs.
fn compare_lines(first_lines: &[&[u8]], second_lines: &[&[u8]]) -> Option<Difference>
    ensures none { result ≡ None → map (λ line. line.now) first_lines.now ≡ map (λ line. line.now) second_lines.now }
    ensures some { IfSome result
        (IsDifference (map (λ line. line.now) first_lines.now) (map (λ line. line.now) second_lines.now)) }
{
    for line_index in 0..first_lines.len().min(second_lines.len()) {
        if first_lines[line_index] != second_lines[line_index] {
            return Some(Difference::AtValue(line_index + 1));
        }
    }
    if first_lines.len() == second_lines.len() {
        None
    } else {
        Some(Difference::UnequalCounts(first_lines.len(), second_lines.len()))
    }
}

// Returns the difference between the lines of two outputs, whose order does not matter. It sorts the
// lines.
fn compare_unordered(first_lines: &mut [&[u8]], second_lines: &mut [&[u8]]) -> Option<Difference>
    ensures none { result ≡ None
        → IsPermutation (map (λ line. line.now) first_lines.old) (map (λ line. line.now) second_lines.old) }
    ensures some { IfSome result
        (IsUnorderedDifference (map (λ line. line.now) first_lines.old) (map (λ line. line.now) second_lines.old)) }
{
    if first_lines.len() != second_lines.len() {
        return Some(Difference::UnequalCounts(first_lines.len(), second_lines.len()));
    }
    first_lines.sort_unstable();
    second_lines.sort_unstable();
    match compare_lines(first_lines, second_lines) {
        Some(_) => Some(Difference::EqualCounts(first_lines.len())),
        None => None,
    }
}
