//! Decimals of 128 bits, as BSON stores them (IEEE 754-2008, decimal128): the module `decimal128`
//! of the library. A `Decimal128` keeps its 16 bytes as they are, `Display` writes any bit pattern,
//! and `FromStr` parses every string exactly: to the coefficient and exponent nearest to the way it
//! was written, or to the kind of its error, and never to a rounded value. No call allocates.
//!
//! In reading order: `bits` decodes and encodes a bit pattern, `display` writes it, `digits` has the
//! digits of a coefficient, and `parse` parses a string.
#![tactic(auto)]

ghost use Rattle.std.specs.Prelude.{◌≡◌, List, ℕ};
ghost use Rattle.bson_decimal.specs.DecimalBits.{IsDecimalBytes};

use std::marker::Model;
use thiserror::Error;

mod bits;
mod digits;
mod display;
mod parse;

/// A decimal128, as the 16 bytes that BSON stores, the lowest byte first.
///
/// Equality and hashing compare the bytes. So two bit patterns of one value (`1.5` and
/// `1.50`) or of one meaning (two NaNs) are different.
///
/// ```
/// let price: Decimal128 = "19.90".parse()?;
/// println!(rt; "{price}")?; // 19.90
/// ```
#[derive(Clone, Copy, Debug, PartialEq, Eq, Hash)]
pub struct Decimal128 {
    bytes: [u8; 16],
}

impl Model for Decimal128 {
    ghost Value = { List ℕ };

    ghost view = { λ decimal. decimal.bytes };

    ghost inverse = { λ bytes. record { bytes = bytes } };
}

impl Decimal128 {
    /// Makes the decimal with these 16 bytes, the lowest first. Every bit pattern is accepted.
    pub fn from_bytes(bytes: [u8; 16]) -> Decimal128
        ensures { result ≡ bytes }
    {
        Decimal128 { bytes }
    }

    /// Returns the 16 bytes, the lowest first.
    pub fn bytes(&self) -> [u8; 16]
        ensures same { result ≡ self.now }
        ensures within_type_range { IsDecimalBytes self.now }
    {
        with_byte_bounds(self.bytes)
    }
}

// The same 16 bytes, with a contract that says that each is below 256.
fn with_byte_bounds(bytes: [u8; 16]) -> [u8; 16]
    ensures same { result ≡ bytes }
    ensures within_type_range { IsDecimalBytes bytes }
{
    bytes
}

/// Why a string is not a decimal. If a string has several errors, the first in the order of reading
/// is reported: the exponent, the digits after the point, the digits past the 34th, the range, and
/// last the characters of the coefficient.
///
/// ```
/// let read: Result<Decimal128, ParseError> = "1e7000".parse();
/// println!(rt; "{read:?}")?; // Err(Overflow)
/// ```
#[derive(Clone, Copy, PartialEq, Eq, Debug, Error)]
pub enum ParseError {
    /// Nothing follows the `e` or `E`.
    #[error("the exponent is empty")]
    EmptyExponent,
    /// After the `e` or `E` there is not an integer from -32768 to 32767.
    #[error("the exponent is no whole number from -32768 to 32767")]
    InvalidExponent,
    /// The coefficient is not digits with at most one point, or has no digit.
    #[error("the coefficient is no number")]
    InvalidCoefficient,
    /// The value is too large for 34 digits and an exponent of at most 6111; or more than 32767
    /// zeros follow the 34th digit, or the exponent is above 32767 with them.
    #[error("the value is too large for a decimal128")]
    Overflow,
    /// The value is too small for an exponent of at least -6176; or more than 32767 bytes follow
    /// the point, or the exponent less these is below -32768.
    #[error("the value is too small for a decimal128")]
    Underflow,
    /// A character other than `0` occurs past the 34th digit, or below the least exponent.
    #[error("the value has more digits than a decimal128 holds")]
    InexactRounding,
    /// The digits are cut inside a character that is not ASCII.
    #[error("a character other than a digit lies where the digits are cut")]
    Unparseable,
}
