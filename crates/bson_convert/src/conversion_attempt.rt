//! A text that is written as another is read, and why one means nothing.
//!
//! If a text cannot be written as it is read, it is normalized: each object has each key once, in
//! the key order of the options. The normalized text has the same tree. If it has no fault, it is
//! written as it is read.
ghost use Rattle.std.specs.Prelude.{◌≡◌, IfOk, IfErr, IsUtf8, ℕ, List, string_bytes};
ghost use Rattle.serde_json.specs.Read.{read};
ghost use Rattle.bson_tokens.specs.Normalized.{IsNormalizedText};
ghost use Rattle.bson_tokens.specs.ReadOutcomes.{NothingReadIfInvalid};
ghost use Rattle.bson_model.specs.declared.options.KeyOrder.TheVariants.{Ascending, AsGiven};
ghost use Rattle.bson_convert.specs.Attempts.{IsAttemptResult, IsUtf8Attempt};
ghost use Rattle.bson_convert.specs.Convert.{IsAccepted, IsConvertedText, IsRejectedIn};
ghost use Rattle.bson_model.specs.declared.options.Options.{Options};

use crate::check::check_tokens;
use crate::error::Error;
use crate::mode::Mode;
use bson_model::options::{KeyOrder, Options};
use bson_scalar::form::Form;
use bson_text::filter::{filter_text, show_text};
use bson_text::first_fault::first_fault_of_normalized;
use bson_text::traversal_error::TraversalError;
use bson_tokens::normalize::normalize_text;
use json::Scratch;
use std::alloc::{AllocError, Global};

/// The result of reading bytes once.
///
/// ```
/// let options = Options::default();
/// let bytes = br#"{"a": 1.5, "a": 7}"#.as_slice();
/// if let Ok(Attempt::Normalized(text)) = try_text(alloc, options, Mode::Relaxed, bytes) {
///     println!(rt; "{text}")?; // {"a":7}
/// }
/// ```
#[derive(Drop)]
pub enum Attempt {
    /// The text that the mode asks for.
    Written(Vec<u8>),
    /// The normalized text, which is to be read in its place. It has a meaning.
    Normalized(String),
}

/// Writes the text of the value that the bytes mean, as the mode says, while they are read. Keys are in
/// the key order of the options. If the text cannot be written while it is read, the normalized text
/// of the bytes is returned, unless it has a fault.
///
/// # Errors
///
/// - `NotJson`: the bytes are not UTF-8, or `serde_json` reads no tree from them.
/// - `NotExtendedJson`: the tree has no meaning. It has the tree's first fault.
/// - `OutOfMemory`: an allocation failed.
pub fn try_text(alloc: Global, options: Options, mode: Mode, bytes: &[u8]) -> Result<Attempt, Error>
    ensures ok { IfOk result (λ attempt. IsAttemptResult options mode bytes.now attempt) }
    ensures utf8 { IfOk result IsUtf8Attempt }
    ensures fault { IfErr result (λ fault. IsRejectedIn options fault bytes.now) }
{
    try_line(alloc, options, mode, bytes, &mut Scratch::new(alloc))
}

/// [`try_text`] with the memory of a run.
pub(crate) fn try_line(
    alloc: Global,
    options: Options,
    mode: Mode,
    bytes: &[u8],
    scratch: &mut Scratch,
) -> Result<Attempt, Error>
    ensures ok { IfOk result (λ attempt. IsAttemptResult options mode bytes.now attempt) }
    ensures utf8 { IfOk result IsUtf8Attempt }
    ensures fault { IfErr result (λ fault. IsRejectedIn options fault bytes.now) }
{
    let Ok(text) = simdutf8::compat::from_utf8(bytes) else {
        return Err(Error::NotJson);
    };
    match stream_text(alloc, options, mode, text, scratch) {
        Ok(written) => Ok(Attempt::Written(written)),
        Err(TraversalError::OutOfMemory) => Err(Error::OutOfMemory),
        Err(_) => Ok(Attempt::Normalized(normalize_if_valid(alloc, options, text)?)),
    }
}

/// The text that the mode asks for of a normalized text that has a meaning.
pub(crate) fn read_normalized(
    alloc: Global,
    options: Options,
    mode: Mode,
    normalized: &str,
) -> Result<Vec<u8>, Error>
    ensures ok { IfOk result (λ text. IsConvertedText options.key_order options mode normalized.now text.items) }
    ensures utf8 { IfOk result (λ text. IsUtf8 text.items) }
    ensures fault { IfErr result (λ fault. fault ≡ Error.OutOfMemory) }
{
    match stream_text(alloc, options, mode, normalized, &mut Scratch::new(alloc)) {
        Ok(written) => Ok(written),
        // Only memory: the text is normalized and has a meaning.
        Err(_) => Err(Error::OutOfMemory),
    }
}

// The text that the mode asks for of the value that the text means.
fn stream_text(
    alloc: Global,
    options: Options,
    mode: Mode,
    text: &str,
    scratch: &mut Scratch,
) -> Result<Vec<u8>, TraversalError>
    ensures ok { IfOk result (λ written. IsConvertedText options.key_order options mode text.now written.items) }
    ensures utf8 { IfOk result (λ written. IsUtf8 written.items) }
{
    match mode {
        Mode::Canonical => filter_text(alloc, options, Form::Canonical, text, scratch),
        Mode::Relaxed => filter_text(alloc, options, Form::Relaxed, text, scratch),
        Mode::Show => show_text(alloc, options, text, scratch),
    }
}

/// Returns the JSON text of the text's tree with each key once in its object.
///
/// # Errors
///
/// - `NotJson`: `serde_json` reads no tree from the text.
/// - `OutOfMemory`: an allocation failed.
pub fn normalize(alloc: Global, key_order: KeyOrder, text: &str) -> Result<String, Error>
    ensures ok { IfOk result (λ normalized. IsNormalizedText key_order text.now (string_bytes normalized)) }
    ensures same { IfOk result (λ normalized. read (string_bytes normalized) ≡ read text.now) }
    ensures fault { (options : Options) → IfErr result (λ fault. IsRejectedIn options fault text.now) }
{
    match normalize_text(alloc, key_order, text) {
        Ok(normalized) => Ok(normalized),
        Err(error) => Err(error_of_tree(error)),
    }
}

// The normalized text of a text that has a meaning.
fn normalize_if_valid(alloc: Global, options: Options, text: &str) -> Result<String, Error>
    ensures ok { IfOk result (λ normalized. IsAccepted options (string_bytes normalized)) }
    ensures normalized { IfOk result
        (λ normalized. IsNormalizedText options.key_order text.now (string_bytes normalized)) }
    ensures fault { IfErr result (λ fault. IsRejectedIn options fault text.now) }
{
    match options.key_order {
        KeyOrder::Ascending => sort_if_valid(alloc, options, text),
        KeyOrder::AsGiven => deduplicate_if_valid(alloc, options, text),
    }
}

// The same in ascending order, in which the traversal finds the first fault.
fn sort_if_valid(alloc: Global, options: Options, text: &str) -> Result<String, Error>
    ensures ok { IfOk result (λ normalized. IsAccepted options (string_bytes normalized)) }
    ensures normalized { IfOk result
        (λ normalized. IsNormalizedText Ascending text.now (string_bytes normalized)) }
    ensures fault { IfErr result (λ fault. IsRejectedIn options fault text.now) }
{
    let normalized = normalize(alloc, KeyOrder::Ascending, text)?;
    match first_fault_of_normalized(alloc, options.doubles, normalized.as_str()) {
        Ok(None) => Ok(normalized),
        Ok(Some(place)) => Err(Error::NotExtendedJson(place)),
        Err(AllocError) => Err(Error::OutOfMemory),
    }
}

// The same in the order of the text.
fn deduplicate_if_valid(alloc: Global, options: Options, text: &str) -> Result<String, Error>
    ensures ok { IfOk result (λ normalized. IsAccepted options (string_bytes normalized)) }
    ensures normalized { IfOk result
        (λ normalized. IsNormalizedText AsGiven text.now (string_bytes normalized)) }
    ensures fault { IfErr result (λ fault. IsRejectedIn options fault text.now) }
{
    let normalized = normalize(alloc, KeyOrder::AsGiven, text)?;
    match check_tokens(
        alloc,
        options,
        normalized.as_str(),
        &mut Scratch::new(alloc),
    ) {
        Ok(()) => Ok(normalized),
        Err(fault) => Err(fault),
    }
}

/// Returns the error for a text of which no tree was read.
pub(crate) fn error_of_tree(error: json::Error) -> Error
    ensures { (options : Options) (bytes : List ℕ) → NothingReadIfInvalid (read bytes) error
        → IsRejectedIn options result bytes }
{
    match error {
        json::Error::Invalid => Error::NotJson,
        _ => Error::OutOfMemory,
    }
}
