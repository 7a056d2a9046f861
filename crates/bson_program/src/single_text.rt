//! The output of one text, on any number of lines.
ghost use Rattle.std.specs.Prelude.{◌≡◌, ◌≢◌, ◌⊎◌, IfOk, IfErr, IfSome, None, OnOk, string_bytes};
ghost use Rattle.bson_convert.specs.Convert.{IsRejectedIn};
ghost use Rattle.bson_run.specs.Accepted.{HasOutput, IsUtf8Accepted};
ghost use Rattle.bson_run.specs.Indent.{mode_of};
ghost use Rattle.bson_run.specs.Lines.{CriterionAccepts, WritesText};
ghost use Rattle.bson_program.specs.SingleText.{ChecksText, IsOutputOfText, IsCheckFailure, IsTextRejected, WritesIndented};
ghost use Rattle.bson_program.specs.SingleText.{IsPreprocessedRejected, WritesPreprocessed, checked_part, without_newline};

use crate::invocation::Invocation;
use bson::extjson::{Form, Options};
use bson_convert::canonical::check_canonical;
use bson_convert::check::check;
use bson_convert::error::Error;
use bson_convert::mode::Mode;
use bson_run::accepted::Accepted;
use bson_run::encode::encode;
use bson_run::indented::convert_indented;
use bson_run::preprocessed::preprocess_text;
use bson_run::task::{Criterion, Output};
use std::alloc::Global;

/// From so many bytes on the memory of a text counts for more than a walk over it.
const LARGE_TEXT_LEN: usize = 1 << 24;

/// Returns what one text gives.
pub fn accept_single_text(
    alloc: Global,
    invocation: &Invocation,
    bytes: &[u8],
) -> Result<Accepted, Error>
    ensures ok { IfOk result
        (HasOutput invocation.now.options (IsOutputOfText invocation.now bytes.now)) }
    ensures utf8 { WritesText invocation.now.task.output → IfOk result IsUtf8Accepted }
    ensures fault { IfErr result (λ fault. IsTextRejected invocation.now.options invocation.now.task fault bytes.now) }
{
    match preprocess_text(alloc, invocation.task.preprocessing, bytes)? {
        Some(upgraded) => accept_upgraded(alloc, invocation, upgraded),
        None => accept_preprocessed(alloc, invocation, bytes),
    }
}

// Returns the output of the newer text. A long one is checked for its error before it is written, so that of
// the two texts it alone is in memory next to the output.
fn accept_upgraded(
    alloc: Global,
    invocation: &Invocation,
    upgraded: String,
) -> Result<Accepted, Error>
    ensures ok { IfOk result
        (HasOutput invocation.now.options
        (WritesPreprocessed invocation.now invocation.now.task.output (string_bytes upgraded))) }
    ensures utf8 { WritesText invocation.now.task.output → IfOk result IsUtf8Accepted }
    ensures fault { IfErr result
        (λ fault. IsPreprocessedRejected invocation.now.options invocation.now.task.output fault (string_bytes upgraded)) }
{
    if upgraded.len() < LARGE_TEXT_LEN || invocation.indent.is_some() {
        return accept_preprocessed(alloc, invocation, upgraded.as_bytes());
    }
    match invocation.task.output {
        Output::Text(mode) => {
            check(alloc, invocation.options, upgraded.as_bytes())?;
            Ok(Accepted::Normalized(mode, upgraded))
        }
        Output::Bytes | Output::Nothing(_) => {
            accept_preprocessed(alloc, invocation, upgraded.as_bytes())
        }
    }
}

// Returns the output of a text that was preprocessed.
fn accept_preprocessed(
    alloc: Global,
    invocation: &Invocation,
    bytes: &[u8],
) -> Result<Accepted, Error>
    ensures ok { IfOk result
        (HasOutput invocation.now.options (WritesPreprocessed invocation.now invocation.now.task.output bytes.now)) }
    ensures utf8 { WritesText invocation.now.task.output → IfOk result IsUtf8Accepted }
    ensures fault { IfErr result
        (λ fault. IsPreprocessedRejected invocation.now.options invocation.now.task.output fault bytes.now) }
{
    match invocation.task.output {
        Output::Text(mode) => accept_text(alloc, invocation, mode, bytes),
        Output::Bytes => Ok(Accepted::Output(encode(alloc, invocation.options, bytes)?)),
        Output::Nothing(criterion) => check_text(alloc, invocation, criterion, bytes),
    }
}

// The output in the mode, over several lines where that is asked for.
fn accept_text(
    alloc: Global,
    invocation: &Invocation,
    mode: Mode,
    bytes: &[u8],
) -> Result<Accepted, Error>
    ensures ok { IfOk result
        (HasOutput invocation.now.options
        (WritesIndented invocation.now.options invocation.now.indent mode bytes.now)) }
    ensures utf8 { IfOk result IsUtf8Accepted }
    ensures fault { IfErr result (λ fault. IsRejectedIn invocation.now.options fault bytes.now) }
{
    let options = invocation.options;
    match indented_layout(invocation, mode) {
        Some((form, indent_width)) => {
            Ok(Accepted::Output(convert_indented(alloc, options, form, indent_width, bytes)?))
        }
        None => Accepted::of(alloc, options, mode, bytes),
    }
}

// Nothing, of a text that the criterion accepts.
fn check_text(
    alloc: Global,
    invocation: &Invocation,
    criterion: Criterion,
    bytes: &[u8],
) -> Result<Accepted, Error>
    ensures ok { IfOk result
        (HasOutput invocation.now.options (ChecksText invocation.now.options criterion bytes.now)) }
    ensures utf8 { IfOk result IsUtf8Accepted }
    ensures fault { IfErr result (λ fault. IsCheckFailure invocation.now.options criterion fault bytes.now) }
{
    check_criterion(alloc, invocation.options, criterion, bytes)?;
    Ok(Accepted::Output(Vec::new(alloc)))
}

// Judges a text by a criterion. A canonical text may have a newline at its end.
fn check_criterion(
    alloc: Global,
    options: Options,
    criterion: Criterion,
    bytes: &[u8],
) -> Result<(), Error>
    ensures ok { OnOk result (CriterionAccepts options criterion (checked_part criterion bytes.now)) }
    ensures fault { IfErr result (λ fault. IsCheckFailure options criterion fault bytes.now) }
{
    match criterion {
        Criterion::Valid => check(alloc, options, bytes),
        Criterion::Canonical => check_canonical(alloc, options, strip_newline(bytes)),
    }
}

// The bytes before a newline at their end.
fn strip_newline(bytes: &[u8]) -> &[u8]
    ensures { result.now ≡ without_newline bytes.now }
{
    if bytes.ends_with(b"\n") {
        &bytes[..bytes.len() - 1]
    } else {
        bytes
    }
}

// Returns the form that is written over several lines, and the number of spaces.
fn indented_layout(invocation: &Invocation, mode: Mode) -> Option<(Form, usize)>
    ensures some { IfSome result (λ form_and_width. (mode ≡ mode_of form_and_width.0) × (mode ≢ Mode.Show)
        × (invocation.now.indent ≡ Some form_and_width.1)) }
    ensures none { result ≡ None → (invocation.now.indent ≡ None) ⊎ (mode ≡ Mode.Show) }
{
    let indent_width = invocation.indent?;
    match mode {
        Mode::Canonical => Some((Form::Canonical, indent_width)),
        Mode::Relaxed => Some((Form::Relaxed, indent_width)),
        Mode::Show => None,
    }
}
