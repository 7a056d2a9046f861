//! The values of options, and the files.
ghost use Rattle.std.specs.Prelude.{◌≡◌, ◌==◌, ◌||◌, ℕ, List, None, IfOk, IfSome, map, string_bytes, slice_index};
ghost use Rattle.bson_program.specs.Invocation.{IsCount, IsFormat, IsJoined};
ghost use Rattle.bson_program.specs.Requests.{or_standard_input};

use crate::invocation::{Flag, STDIO};
use bson_codec::diagnostic::DiagnosticFormat;
use std::alloc::{AllocError, Global};

/// Returns the files that are read: standard input if none is named.
pub fn input_files(alloc: Global, mut file_names: Vec<String>) -> Result<Vec<String>, AllocError>
    ensures { IfOk result
        (λ inputs. map string_bytes inputs.items ≡ or_standard_input (map string_bytes file_names.items)) }
{
    if file_names.is_empty() {
        file_names.push(String::from_str(alloc, STDIO)?)?;
    }
    Ok(file_names)
}

/// Parses a number from 1 to the maximum, with no sign and no zero before it.
pub fn parse_count(arg: &str, maximum: usize) -> Option<usize>
    ensures { IsCount maximum arg.now result }
{
    if starts_with_sign_or_zero(arg) {
        return None;
    }
    match arg.parse::<usize>() {
        Ok(count) if count <= maximum => Some(count),
        _ => None,
    }
}

// Returns whether a sign or a zero is before a number.
fn starts_with_sign_or_zero(arg: &str) -> bool
    ensures { result ≡ ((slice_index arg.now 0 == 43) || (slice_index arg.now 0 == 48)) }
{
    arg.starts_with('+') || arg.starts_with('0')
}

/// Parses the name of a format of diagnostics.
pub fn parse_format(arg: &str) -> Option<DiagnosticFormat>
    ensures { IsFormat arg.now result }
{
    match arg {
        "text" => Some(DiagnosticFormat::Text),
        "json" => Some(DiagnosticFormat::Json),
        _ => None,
    }
}

/// Returns whether an argument begins as an option.
pub fn starts_as_option(arg: &str) -> bool
    ensures { result ≡ (slice_index arg.now 0 == 45) }
{
    arg.starts_with('-')
}

/// Returns the file in an argument that has its option too.
pub fn output_file_in(arg: &str) -> Option<&str>
    ensures some { IfSome result (λ file. IsJoined Flag.Output file.now arg.now) }
    ensures none { result ≡ None → (file : List ℕ) → IsJoined Flag.Output file arg.now → ⊥ }
{
    if let Some(file_name) = arg.strip_prefix("--output=") {
        return Some(file_name);
    }
    arg.strip_prefix("-o")
}
