//! Texts that are canonical.
ghost use Rattle.std.specs.Prelude.{◌≡◌, ◌≢◌, ◌≤◌, ◌↔◌, suc, length, take, IfErr, IfOk, IsTrue, OnOk};
ghost use Rattle.serde_json.specs.Data.{Data};
ghost use Rattle.bson_model.specs.Means.{MeansIn};
ghost use Rattle.bson_model.specs.TextMeaning.{IsTextOf};
ghost use Rattle.bson_model.specs.Value as model;
ghost use Rattle.bson_model.specs.declared.options.KeyOrder.TheVariants.{Ascending};
ghost use Rattle.bson_convert.specs.Convert.{IsCanonicalText, IsConvertedText, IsRejectedIn, IsUncanonicalIn};
ghost use Rattle.bson_convert.specs.declared.mode.Mode.TheVariants.{Canonical};

use crate::convert::line_text;
use crate::error::Error;
use crate::mode::Mode;
use bson_model::options::{KeyOrder, Options};
use json::Scratch;
use std::alloc::{AllocError, Global};

/// Returns true if and only if the bytes are the canonical text of the value that they mean, with
/// keys in ascending order at every depth and without a newline.
///
/// Values with one normal form have one canonical text, by the law
/// [`canonical_texts_are_one`](crate::laws::canonical_texts_are_one). So bytes that pass this check
/// can be signed, hashed or compared in place of their value.
///
/// # Errors
///
/// `AllocError` if an allocation fails.
///
/// ```
/// let options = Options::default();
/// let one = is_canonical_text(alloc, options, br#"{"n":{"$numberInt":"5"}}"#)?;
/// let other = is_canonical_text(alloc, options, br#"{"n": 5}"#)?;
/// println!(rt; "{one} {other}")?; // true false
/// ```
pub fn is_canonical_text(alloc: Global, options: Options, bytes: &[u8]) -> Result<bool, AllocError>
    ensures { IfOk result (λ is_canonical. IsTrue is_canonical ↔ IsCanonicalText options bytes.now) }
{
    match check_canonical(alloc, options, bytes) {
        Ok(()) => Ok(true),
        Err(error) => {
            if error.is_out_of_memory() {
                Err(AllocError)
            } else {
                Ok(false)
            }
        }
    }
}

/// Checks that the bytes are canonical, as [`is_canonical_text`] does.
///
/// # Errors
///
/// - `NotCanonical`: the bytes mean a value, and are not its canonical text. It has the column of the
///   first byte that differs.
/// - `NotJson`: the bytes are not UTF-8, or `serde_json` reads no tree from them.
/// - `NotExtendedJson`: the tree has no meaning. It has the tree's first fault.
/// - `OutOfMemory`: an allocation failed.
///
/// ```
/// let text = br#"{"n": 5}"#;
/// if let Err(error) = check_canonical(alloc, Options::default(), text) {
///     println!(rt; "{error:?}")?; // NotCanonical(6)
/// }
/// ```
pub fn check_canonical(alloc: Global, options: Options, bytes: &[u8]) -> Result<(), Error>
    ensures ok { OnOk result (IsCanonicalText options bytes.now) }
    ensures accepts { IsCanonicalText options bytes.now → IfErr result (λ fault. fault ≡ Error.OutOfMemory) }
    ensures fault { IfErr result (λ fault. IsUncanonicalIn options fault bytes.now) }
{
    check_canonical_line(alloc, options, bytes, &mut Scratch::new(alloc))
}

/// Checks the bytes as [`check_canonical`] does, with memory that serves one text after another.
///
/// # Errors
///
/// The errors of [`check_canonical`].
pub fn check_canonical_line(
    alloc: Global,
    options: Options,
    bytes: &[u8],
    scratch: &mut Scratch,
) -> Result<(), Error>
    ensures ok { OnOk result (IsCanonicalText options bytes.now) }
    ensures accepts { IsCanonicalText options bytes.now → IfErr result (λ fault. fault ≡ Error.OutOfMemory) }
    ensures fault { IfErr result (λ fault. IsUncanonicalIn options fault bytes.now) }
{
    let text = sorted_canonical_text(alloc, options, bytes, scratch)?;
    if text.as_slice() == bytes {
        return Ok(());
    }
    Err(Error::NotCanonical(common_len(bytes, text.as_slice()) + 1))
}

// The canonical text of the value that the bytes mean, with keys in ascending order.
fn sorted_canonical_text(
    alloc: Global,
    options: Options,
    bytes: &[u8],
    scratch: &mut Scratch,
) -> Result<Vec<u8>, Error>
    ensures ok { IfOk result (λ text. IsConvertedText Ascending options Canonical bytes.now text.items) }
    ensures accepts { (tree : Data) (value : model.Value) → IsTextOf bytes.now tree
        → MeansIn options.doubles tree value → IfErr result (λ fault. fault ≡ Error.OutOfMemory) }
    ensures fault { IfErr result (λ fault. IsRejectedIn options fault bytes.now) }
{
    let ascending = Options {
        key_order: KeyOrder::Ascending,
        ..options
    };
    line_text(alloc, ascending, Mode::Canonical, bytes, scratch)
}

// How many bytes two texts have in common at their beginning.
fn common_len(left_text: &[u8], right_text: &[u8]) -> usize
    ensures short { result ≤ length left_text.now }
    ensures common { take result left_text.now ≡ take result right_text.now }
    ensures maximal { left_text.now ≢ right_text.now
        → take (suc result) left_text.now ≢ take (suc result) right_text.now }
{
    let shorter_len = left_text.len().min(right_text.len());
    for byte_index in 0..shorter_len {
        if left_text[byte_index] != right_text[byte_index] {
            return byte_index;
        }
    }
    shorter_len
}
