//! Reads a string as a finite double.
ghost use Rattle.std.specs.Prelude.{◌≡◌, MatchResult, IfErr, Some, None, false, IsTrue, IsFalse};
ghost use Rattle.fast_float.specs.Parse.{completes_number, without_sign, is_infinity_text};
ghost use Rattle.fast_float.specs.Parse.{is_nan_text};
ghost use Rattle.bson_double.specs.FiniteDoubles.{is_finite, is_number, parsed_finite_bits, double_parse_error};

use thiserror::Error;

/// Why a string does not denote a finite double.
///
/// ```
/// if let Err(error) = double_of_text(b"1e400") {
///     println!(rt; "{error}")?; // the number is too large for a double
/// }
/// ```
#[derive(Clone, Copy, Debug, PartialEq, Eq, Error)]
pub enum DoubleError {
    /// The string is not a number. A number has at most one sign, digits with at most one point and
    /// at least one digit, and perhaps `e` or `E` with an integer. Words (`Infinity`) and
    /// spaces are not accepted.
    #[error("the text is no number")]
    NotANumber,
    /// The double nearest to the number is an infinity: its size is at least 2^1024 - 2^970.
    #[error("the number is too large for a double")]
    OutOfRange,
}

/// Returns whether the double with these bits is neither an infinity nor a NaN.
pub fn is_finite(bits: u64) -> bool
    ensures { result ≡ is_finite bits }
{
    bits & 0x7FFF_FFFF_FFFF_FFFF < 0x7FF0_0000_0000_0000
}

fn without_sign(text: &[u8]) -> &[u8]
    ensures { result.now ≡ without_sign text.now }
{
    match text {
        [b'+' | b'-', rest @ ..] => rest,
        _ => text,
    }
}

// Whether the first byte is an `i` or an `n`, in either case, instead of a digit or a point.
fn begins_with_i_or_n(unsigned: &[u8]) -> bool
    ensures some { IsTrue result → completes_number 0 unsigned.now ≡ false }
    ensures none { IsFalse result
        → (is_infinity_text unsigned.now ≡ false) × (is_nan_text unsigned.now ≡ false) }
{
    match unsigned {
        [first_byte, ..] => matches!(first_byte.to_ascii_lowercase(), b'i' | b'n'),
        [] => false,
    }
}

/// Returns the bits of the double nearest to the number that a string denotes. If two doubles are
/// equally near, it is the one whose bits are an even number (IEEE 754-2008 section 4.3.1). `-0` is
/// the negative zero, and so is a negative number that is nearer to zero than to any other double.
///
/// # Errors
///
/// - `NotANumber`: the string is not a number.
/// - `OutOfRange`: the nearest double is an infinity.
///
/// ```
/// let bits = double_of_text(b"0.5")?;
/// println!(rt; "{bits:#x}")?; // 0x3fe0000000000000
/// ```
pub fn double_of_text(text: &[u8]) -> Result<u64, DoubleError>
    ensures ok { MatchResult result
        (λ parsed_bits. parsed_finite_bits text.now ≡ Some parsed_bits) (λ _. parsed_finite_bits text.now ≡ None) }
    ensures error { IfErr result (λ double_error. double_error ≡ double_parse_error text.now) }
{
    if begins_with_i_or_n(without_sign(text)) {
        return Err(DoubleError::NotANumber);
    }
    let parsed: Result<f64, fast_float::Error> = fast_float::parse(text);
    let Ok(number) = parsed else {
        return Err(DoubleError::NotANumber);
    };
    if !number.is_finite() {
        return Err(DoubleError::OutOfRange);
    }
    Ok(number.to_bits())
}
