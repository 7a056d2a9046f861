//! Texts that are checked or rewritten before they are read.
ghost use Rattle.std.specs.Prelude.{◌≡◌, ℕ, IfErr, IfOk, IfSome, List, None, Ok, OnOk, true};
ghost use Rattle.bson_model.specs.declared.options.DuplicateKeys.TheVariants.{Reject};
ghost use Rattle.bson_run.specs.Preprocessed.{LacksDuplicateKey, HasAllowedKeys, IsDuplicateKeyError, IsPreprocessedAs};
ghost use Rattle.bson_run.specs.Preprocessed.{IsPreprocessingError, UpgradesTo, preprocessed_of, worded_text};

use crate::task::Preprocessing;
use bson_convert::error::Error;
use bson_model::options::DuplicateKeys;
use bson_tokens::find_duplicate::first_duplicate_key;
use bson_tree::place::{Place, Reason};
use bson_v1::bare_words::{WordForm, replace_words};
use bson_v1::upgraded::upgraded_text;
use std::alloc::Global;

/// The reason that is reported for a duplicate key.
pub(crate) const DUPLICATE_KEY: &str = "duplicate key";

/// Returns the text that is read instead of the bytes, or `None` if the bytes themselves are read.
///
/// If duplicate keys are rejected, a JSON text may have none, at any depth and in wrappers too. Keys
/// are compared after their escapes are read. If `v1` is true, the words `NaN`, `Infinity` and
/// `-Infinity` outside of strings are first replaced by wrappers, and the text is that of
/// [`upgraded_text`]. Bytes that are not a JSON text then are left to the reader.
///
/// # Errors
///
/// - `NotExtendedJson`: the text may have no duplicate key, and has one. It has the path to the
///   first key that is in its object before.
/// - `OutOfMemory`: an allocation failed.
///
/// ```
/// let text = br#"{"$regex": "^a", "$options": "i"}"#;
/// let preprocessing = Preprocessing {
///     v1: true,
///     ..Preprocessing::default()
/// };
/// if let Ok(Some(newer)) = preprocess_text(alloc, preprocessing, text) {
///     println!(rt; "{newer}")?; // {"$regularExpression":{"pattern":"^a","options":"i"}}
/// }
/// ```
pub fn preprocess_text(
    alloc: Global,
    preprocessing: Preprocessing,
    bytes: &[u8],
) -> Result<Option<String>, Error>
    ensures ok { IfOk result (λ text. IsPreprocessedAs preprocessing bytes.now (preprocessed_of bytes.now text)) }
    ensures fault { IfErr result (λ fault. IsPreprocessingError preprocessing fault bytes.now) }
{
    if !preprocessing.v1 {
        check_duplicate_keys(alloc, preprocessing.duplicate_keys, bytes)?;
        return Ok(None);
    }
    match words_in_wrappers(alloc, bytes)? {
        Some(text) => preprocess_v1(alloc, preprocessing.duplicate_keys, &text),
        None => preprocess_v1(alloc, preprocessing.duplicate_keys, bytes),
    }
}

// Returns the bytes in which bare words are wrappers, or `None` if there is no such word.
fn words_in_wrappers(alloc: Global, bytes: &[u8]) -> Result<Option<Vec<u8>>, Error>
    ensures replaced { IfOk result (λ replaced. IfSome replaced (λ text. text.items ≡ worded_text true bytes.now)) }
    ensures stays { result ≡ Ok None → worded_text true bytes.now ≡ bytes.now }
    ensures fault { IfErr result (λ fault. fault ≡ Error.OutOfMemory) }
{
    match replace_words(alloc, WordForm::Wrapper, bytes) {
        Ok(replaced) => Ok(replaced),
        Err(_) => Err(Error::OutOfMemory),
    }
}

// Preprocesses a text of v1 without bare words.
fn preprocess_v1(
    alloc: Global,
    duplicate_keys: DuplicateKeys,
    text: &[u8],
) -> Result<Option<String>, Error>
    ensures allowed { OnOk result (HasAllowedKeys duplicate_keys text.now) }
    ensures ok { IfOk result
        (λ upgraded. (bytes : List ℕ) → UpgradesTo text.now bytes (preprocessed_of bytes upgraded)) }
    ensures fault { IfErr result (λ fault. IsDuplicateKeyError duplicate_keys fault text.now) }
{
    check_duplicate_keys(alloc, duplicate_keys, text)?;
    upgrade_json(alloc, text)
}

// Rejects a text with a duplicate key, unless the last value wins.
fn check_duplicate_keys(
    alloc: Global,
    duplicate_keys: DuplicateKeys,
    bytes: &[u8],
) -> Result<(), Error>
    ensures ok { OnOk result (HasAllowedKeys duplicate_keys bytes.now) }
    ensures fault { IfErr result (λ fault. IsDuplicateKeyError duplicate_keys fault bytes.now) }
{
    match duplicate_keys {
        DuplicateKeys::LastWins => Ok(()),
        DuplicateKeys::Reject => reject_duplicate_keys(alloc, bytes),
    }
}

// Rejects a text with a duplicate key.
fn reject_duplicate_keys(alloc: Global, bytes: &[u8]) -> Result<(), Error>
    ensures ok { OnOk result (LacksDuplicateKey bytes.now) }
    ensures fault { IfErr result (λ fault. IsDuplicateKeyError Reject fault bytes.now) }
{
    let Ok(text) = simdutf8::compat::from_utf8(bytes) else {
        return Ok(());
    };
    match first_duplicate_key(alloc, text) {
        Ok(None) | Err(json::Error::Invalid) => Ok(()),
        Ok(Some(segments)) => {
            let reason = Reason::WrongShape(DUPLICATE_KEY);
            Err(Error::NotExtendedJson(Place { reason, segments }))
        }
        Err(_) => Err(Error::OutOfMemory),
    }
}

/// Returns the text of v2 for one of v1, or `None` if the bytes are not a text of v1.
pub(crate) fn upgrade(alloc: Global, bytes: &[u8]) -> Result<Option<String>, Error> {
    match words_in_wrappers(alloc, bytes)? {
        Some(text) => upgrade_json(alloc, &text),
        None => upgrade_json(alloc, bytes),
    }
}

// The same for a text without bare words.
fn upgrade_json(alloc: Global, bytes: &[u8]) -> Result<Option<String>, Error>
    ensures ok { IfOk result
        (λ upgraded. (kept_bytes : List ℕ) → UpgradesTo bytes.now kept_bytes (preprocessed_of kept_bytes upgraded)) }
    ensures fault { IfErr result (λ fault. fault ≡ Error.OutOfMemory) }
{
    let Ok(text) = simdutf8::compat::from_utf8(bytes) else {
        return Ok(None);
    };
    match upgraded_text(alloc, text) {
        Ok(text) => Ok(Some(text)),
        Err(json::Error::Invalid) => Ok(None),
        Err(_) => Err(Error::OutOfMemory),
    }
}
