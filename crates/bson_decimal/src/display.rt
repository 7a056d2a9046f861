//! Writes a decimal as a string.

ghost use Rattle.std.specs.Prelude.{◌≡◌, ◌+◌, ◌-◌, ◌*◌, ◌^◌, ◌<◌, ◌≤◌, ◌++◌, [], length, take};
ghost use Rattle.std.specs.Prelude.{drop, replicate, Some, IsAscii};
ghost use Rattle.std.specs.Fmt.{decimal, sign_text, WritesOnOk};
ghost use Rattle.bson_decimal.specs.Exponents.{unbiased_exponent};
ghost use Rattle.bson_decimal.specs.DecimalText.{plain_text, signed_exponent_text, scientific_exponent};
ghost use Rattle.bson_decimal.specs.DecimalText.{scientific_text, finite_text, decimal128_text};

use crate::Decimal128;
use crate::bits::{Decoded, unbiased_exponent};
use std::{fmt, str};

// Writes the digits of a coefficient so that they end the buffer, and returns where they start.
fn write_digits(coefficient: u128, buffer: &mut [u8; 34]) -> usize
    requires { coefficient < 10 ^ 34 }
    ensures start { result < 34 }
    ensures len { length buffer.new ≡ 34 }
    ensures written { drop result buffer.new ≡ decimal coefficient }
{
    let mut remaining_coefficient = coefficient;
    let mut digit_index = 33;
    while remaining_coefficient >= 10 {
        buffer[digit_index] = b'0' + (remaining_coefficient % 10) as u8;
        remaining_coefficient /= 10;
        digit_index -= 1;
    }
    buffer[digit_index] = b'0' + remaining_coefficient as u8;
    digit_index
}

fn write_zeros<W: fmt::Write>(formatter: &mut fmt::Formatter<W>, count: usize) -> fmt::Result
    ensures { WritesOnOk W.write_str_gives formatter.old result (replicate count 48) formatter.new }
{
    for _i in 0..count {
        formatter.write_str("0")?;
    }
    Ok(())
}

// The digits with a point before the last `decimal_places` of them.
fn write_plain<W: fmt::Write>(
    formatter: &mut fmt::Formatter<W>,
    digits: &str,
    decimal_places: usize,
) -> fmt::Result
    requires { IsAscii digits.now }
    ensures { WritesOnOk W.write_str_gives formatter.old result (plain_text digits.now decimal_places) formatter.new }
{
    if decimal_places == 0 {
        return formatter.write_str(digits);
    }
    if decimal_places < digits.len() {
        let integer_digits = digits.len() - decimal_places;
        formatter.write_str(&digits[..integer_digits])?;
        formatter.write_str(".")?;
        return formatter.write_str(&digits[integer_digits..]);
    }
    formatter.write_str("0.")?;
    write_zeros(formatter, decimal_places - digits.len())?;
    formatter.write_str(digits)
}

// An exponent with its sign, `+` if it is above 0.
fn write_exponent<W: fmt::Write>(formatter: &mut fmt::Formatter<W>, exponent: i32) -> fmt::Result
    ensures { WritesOnOk W.write_str_gives formatter.old result (signed_exponent_text exponent) formatter.new }
{
    if exponent > 0 {
        formatter.write_str("+")?;
    }
    write!(formatter, "{exponent}")
}

// One digit, a point before the others if there are any, and the exponent of the first digit.
fn write_scientific<W: fmt::Write>(
    formatter: &mut fmt::Formatter<W>,
    digits: &str,
    first_digit_exponent: i32,
) -> fmt::Result
    requires ascii { IsAscii digits.now }
    requires some { 0 < length digits.now }
    ensures { WritesOnOk W.write_str_gives formatter.old result
        (scientific_text digits.now first_digit_exponent) formatter.new }
{
    formatter.write_str(&digits[..1])?;
    if digits.len() != 1 {
        formatter.write_str(".")?;
        formatter.write_str(&digits[1..])?;
    }
    formatter.write_str("E")?;
    write_exponent(formatter, first_digit_exponent)
}

// The exponent of the first digit.
fn scientific_exponent(digits: &str, stored_exponent: u16) -> i32
    requires { length digits.now ≤ 34 }
    ensures { result ≡ scientific_exponent digits.now (unbiased_exponent stored_exponent) }
{
    unbiased_exponent(stored_exponent) + digits.len() as i32 - 1
}

// Plain if the exponent is at most 0 and the exponent of the first digit at least -6.
fn write_finite<W: fmt::Write>(
    formatter: &mut fmt::Formatter<W>,
    digits: &str,
    stored_exponent: u16,
) -> fmt::Result
    requires ascii { IsAscii digits.now }
    requires some { 0 < length digits.now }
    requires short { length digits.now ≤ 34 }
    ensures { WritesOnOk W.write_str_gives formatter.old result
        (finite_text digits.now (unbiased_exponent stored_exponent)) formatter.new }
{
    let exponent = unbiased_exponent(stored_exponent);
    let first_digit_exponent = scientific_exponent(digits, stored_exponent);
    if exponent <= 0 && first_digit_exponent >= -6 {
        write_plain(formatter, digits, exponent.unsigned_abs() as usize)
    } else {
        write_scientific(formatter, digits, first_digit_exponent)
    }
}

fn write_signed<W: fmt::Write>(
    formatter: &mut fmt::Formatter<W>,
    negative: bool,
    digits: &str,
    stored_exponent: u16,
) -> fmt::Result
    requires ascii { IsAscii digits.now }
    requires some { 0 < length digits.now }
    requires short { length digits.now ≤ 34 }
    ensures { WritesOnOk W.write_str_gives formatter.old result
        (sign_text negative ++ finite_text digits.now (unbiased_exponent stored_exponent)) formatter.new }
{
    if negative {
        formatter.write_str("-")?;
    }
    write_finite(formatter, digits, stored_exponent)
}

/// Writes a decimal as its digits if its exponent is at most 0 and its first digit is at most six
/// places after the point, for example `0.000001`. Otherwise it writes the scientific form, for
/// example `1.05E+3`. Zeros at the end are kept. A NaN is `NaN`, whatever its sign, and an infinity
/// `Infinity` or `-Infinity` (IEEE 754-2008, section 5.12).
impl fmt::Display for Decimal128 {
    ghost output = { λ decimal_bytes. Some (decimal128_text decimal_bytes) };

    #[tactic(auto, unfolding(crate::specs::DecimalText::decimal128_text))]
    fn fmt<W: fmt::Write>(&self, formatter: &mut fmt::Formatter<W>) -> fmt::Result {
        match self.decode() {
            Decoded::Nan { .. } => formatter.write_str("NaN"),
            Decoded::Infinity { negative } => formatter.write_str(if negative {
                "-Infinity"
            } else {
                "Infinity"
            }),
            Decoded::Finite {
                negative,
                coefficient,
                stored_exponent,
            } => {
                let mut buffer = [0; 34];
                let start = write_digits(coefficient, &mut buffer);
                match str::from_utf8(&buffer[start..]) {
                    Ok(digits) => write_signed(formatter, negative, digits, stored_exponent),
                    Err(_) => unreachable!(),
                }
            }
        }
    }
}
