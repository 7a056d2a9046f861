//! Parses a string as a decimal.

ghost use Rattle.std.specs.Prelude.{◌≡◌, ◌↔◌, ◌+◌, ◌*◌, ◌^◌, ◌<◌, ◌≤◌, List, ℕ, length, position};
ghost use Rattle.std.specs.Prelude.{slice_index, IfOk, IfSome, IsOkAnd, MatchOption};
ghost use Rattle.std.specs.List.{position_or_len};
ghost use Rattle.std.specs.Str.Parse.{starts_with_minus, without_leading_sign};
ghost use Rattle.bson_decimal.specs.DecimalBits.{canonical_decimal};
ghost use Rattle.bson_decimal.specs.DecimalText.{decimal128_text};
ghost use Rattle.bson_decimal.specs.DecimalStrings.{IsNanOrInfinityWord};
ghost use Rattle.bson_decimal.specs.ParseSteps.{is_exponent_mark, is_decimal_point, is_utf8_continuation, cut_to_34_digits, raise_to_min_exponent};
ghost use Rattle.bson_decimal.specs.ParseSteps.{zeros_to_add, min_exponent_plus_32768, i16_max_plus_32768, coefficient_and_exponent};
ghost use Rattle.bson_decimal.specs.ParseSteps.{coefficient, written_exponent_plus_32768, scaled_exponent};
ghost use Rattle.bson_decimal.specs.ParseSteps.{exponent_value, finite};
ghost use Rattle.bson_decimal.specs.ParseResult.{IsParseResult};

use crate::bits::{INFINITY, QUIET_NAN, SIGNALLING_NAN, encoded_finite, sign_bit};
use crate::digits::Digits;
use crate::{Decimal128, ParseError};
use std::str::FromStr;

/// Reads a decimal: at most one sign, and then `nan`, `snan`, `infinity` or `inf` in any case, or
/// digits with at most one point and, after an `e` or `E`, an exponent from -32768 to 32767. It
/// allocates no memory.
///
/// A string can have several pairs of at most 34 digits and an exponent from -6176 to 6111 with its
/// exact value. The result is the pair whose exponent is nearest to the written one less the number
/// of digits after the point. So `1.50` keeps its zero, and a string whose value has no pair is
/// rejected, never rounded (IEEE 754-2008, section 5.12). A `nan` is quiet, an `snan` signals, and
/// each keeps its sign. A string past the limits of 16 bits, in items 1 to 3 below, is rejected
/// whatever its value.
///
/// If a string is rejected, its first error is reported, in this order:
/// 1. nothing after the `e` or `E` (`EmptyExponent`), or no exponent there (`InvalidExponent`);
/// 2. more than 32767 bytes after the point, or an exponent less these below -32768 (`Underflow`);
/// 3. leading zeros dropped, past the 34th byte: a cut inside a character (`Unparseable`), another
///    character than `0` (`InexactRounding`), more than 32767 bytes, or an exponent above 32767
///    with them (`Overflow`);
/// 4. an exponent below -6176, where not all was leading zeros: more bytes to drop than there are
///    (`Underflow`), a cut inside a character (`Unparseable`), another character than `0` dropped
///    (`InexactRounding`);
/// 5. an exponent above 6111, where not all was leading zeros, and no room for the zeros that lower
///    it (`Overflow`);
/// 6. other characters than digits, or no digit (`InvalidCoefficient`).
impl FromStr for Decimal128 {
    type Err = ParseError;

    ghost from_str_gives = { IsParseResult };

    fn from_str(text: &str) -> Result<Decimal128, ParseError>
        ensures answer { IsParseResult text.now result }

        // Two laws: a printed decimal parses to the canonical bit pattern, and two bit patterns
        // print the same string if and only if their canonical bit patterns are equal.
        ensures reads_displayed { (decimal_bytes : List ℕ) → text.now ≡ decimal128_text decimal_bytes
            → IsOkAnd result (λ parsed_bytes. parsed_bytes ≡ canonical_decimal decimal_bytes) }
        ensures prints_apart { (decimal_bytes other_bytes : List ℕ)
            → (decimal128_text decimal_bytes ≡ decimal128_text other_bytes)
            ↔ (canonical_decimal decimal_bytes ≡ canonical_decimal other_bytes) }
    {
        let negative = is_negative(text);
        let unsigned_text = without_sign(text);
        if let Some(special_bits) = nan_or_infinity_bits(unsigned_text) {
            return Ok(Decimal128::from_bytes((sign_bit(negative) + special_bits).to_le_bytes()));
        }
        let (coefficient, stored_exponent) = finite(unsigned_text)?;
        Ok(Decimal128::from_bytes(encoded_finite(
            negative,
            coefficient,
            stored_exponent,
        ).to_le_bytes()))
    }
}

fn is_negative(text: &str) -> bool
    ensures { result ≡ starts_with_minus text.now }
{
    let bytes = text.as_bytes();
    !bytes.is_empty() && bytes[0] == b'-'
}

fn without_sign(text: &str) -> &str
    ensures { result.now ≡ without_leading_sign text.now }
{
    let bytes = text.as_bytes();
    if bytes.is_empty() {
        return text;
    }
    if bytes[0] == b'-' {
        return &text[1..];
    }
    if bytes[0] == b'+' {
        return &text[1..];
    }
    text
}

// The bit pattern of a NaN or an infinity as a number, without its sign.
fn nan_or_infinity_bits(unsigned_text: &str) -> Option<u128>
    ensures word { MatchOption result ((special_bits : ℕ) → ¬ (IsNanOrInfinityWord unsigned_text.now special_bits))
        (IsNanOrInfinityWord unsigned_text.now) }
    ensures small { IfSome result (λ special_bits. special_bits < 2 ^ 127) }
{
    if unsigned_text.eq_ignore_ascii_case("nan") {
        return Some(QUIET_NAN);
    }
    if unsigned_text.eq_ignore_ascii_case("snan") {
        return Some(SIGNALLING_NAN);
    }
    if unsigned_text.eq_ignore_ascii_case("infinity") {
        return Some(INFINITY);
    }
    if unsigned_text.eq_ignore_ascii_case("inf") {
        return Some(INFINITY);
    }
    None
}

// An exponent is kept with 32768 added to it, so that it is never negative. These are the sums of
// 0, -6176, 6111 and 32767.
const ZERO_PLUS_32768: usize = 1 << 15;

const MIN_EXPONENT_PLUS_32768: usize = ZERO_PLUS_32768 - 6176;

const MAX_EXPONENT_PLUS_32768: usize = ZERO_PLUS_32768 + 6111;

const I16_MAX_PLUS_32768: usize = ZERO_PLUS_32768 + 32767;

// The coefficient and the stored exponent of a finite decimal without its sign.
#[tactic(auto, unfolding(crate::specs::ParseSteps::finite))]
fn finite(unsigned_text: &str) -> Result<(u128, u16), ParseError>
    ensures value { result ≡ finite unsigned_text.now }
{
    let exponent = written_exponent(unsigned_text)?;
    let bytes = unsigned_text.as_bytes();
    let bytes = &bytes[..exponent_mark_at(bytes)];
    let point_index = decimal_point_at(bytes);
    let integer_digits = &bytes[..point_index];
    let fraction = if point_index < bytes.len() {
        &bytes[point_index + 1..]
    } else {
        &[]
    };
    let exponent = scaled_exponent(exponent, fraction)?;
    coefficient_and_exponent(Digits::new(integer_digits, fraction), exponent)
}

fn find_exponent_mark(text: &[u8]) -> Option<usize>
    ensures { result ≡ position is_exponent_mark text.now }
{
    text.iter().position(|byte| *byte == b'e' || *byte == b'E')
}

// The place of the first `e` or `E`, or the length.
fn exponent_mark_at(text: &[u8]) -> usize
    ensures value { result ≡ position_or_len is_exponent_mark text.now }
    ensures within { result ≤ length text.now }
    ensures ascii { result < length text.now → slice_index text.now result < 128 }
{
    find_exponent_mark(text).unwrap_or(text.len())
}

fn find_decimal_point(text: &[u8]) -> Option<usize>
    ensures { result ≡ position is_decimal_point text.now }
{
    text.iter().position(|byte| *byte == b'.')
}

// The place of the first point, or the length.
fn decimal_point_at(text: &[u8]) -> usize
    ensures value { result ≡ position_or_len is_decimal_point text.now }
    ensures within { result ≤ length text.now }
{
    find_decimal_point(text).unwrap_or(text.len())
}

#[tactic(auto, unfolding(crate::specs::ParseSteps::written_exponent_plus_32768))]
fn written_exponent(unsigned_text: &str) -> Result<usize, ParseError>
    ensures value { result ≡ written_exponent_plus_32768 unsigned_text.now }
    ensures within { IfOk result (λ exponent. exponent ≤ i16_max_plus_32768) }
{
    let mark_index = exponent_mark_at(unsigned_text.as_bytes());
    if mark_index == unsigned_text.len() {
        return Ok(ZERO_PLUS_32768);
    }
    let exponent_text = &unsigned_text[mark_index + 1..];
    if exponent_text.is_empty() {
        return Err(ParseError::EmptyExponent);
    }
    let Some(exponent) = exponent_value(exponent_text) else {
        return Err(ParseError::InvalidExponent);
    };
    Ok(exponent)
}

fn exponent_value(text: &str) -> Option<usize>
    ensures value { result ≡ exponent_value text.now }
    ensures within { IfSome result (λ exponent. exponent ≤ i16_max_plus_32768) }
{
    let Ok(exponent) = text.parse::<i16>() else {
        return None;
    };
    Some((i32::from(exponent) + 32768) as usize)
}

// The exponent less one for each byte after the point.
#[tactic(auto, unfolding(crate::specs::ParseSteps::scaled_exponent))]
fn scaled_exponent(exponent: usize, fraction: &[u8]) -> Result<usize, ParseError>
    ensures value { result ≡ scaled_exponent exponent fraction.now }
    ensures less { IfOk result (λ scaled. scaled ≤ exponent) }
{
    let len = fraction.len();
    if len > 32767 || exponent < len {
        return Err(ParseError::Underflow);
    }
    Ok(exponent - len)
}

// The coefficient and the stored exponent, from all digits and their exponent.
#[tactic(auto, unfolding(crate::specs::ParseSteps::coefficient_and_exponent))]
fn coefficient_and_exponent(digits: Digits, exponent: usize) -> Result<(u128, u16), ParseError>
    requires { exponent ≤ i16_max_plus_32768 }
    ensures { result ≡ coefficient_and_exponent digits.entry exponent }
{
    let has_digit = digits.len() > 0;
    let (digits, exponent) = cut_to_34_digits(digits.without_leading_zeros(), exponent)?;
    let (digits, exponent) = raise_to_min_exponent(digits, exponent)?;
    let zeros = zeros_to_add(&digits, exponent)?;
    let coefficient = coefficient(&digits, zeros, has_digit)?;
    Ok((
        coefficient,
        (exponent.min(MAX_EXPONENT_PLUS_32768) - MIN_EXPONENT_PLUS_32768) as u16,
    ))
}

// Whether this byte continues a character in UTF-8.
fn is_utf8_continuation(byte: u8) -> bool
    ensures { result ≡ is_utf8_continuation byte }
{
    128 <= byte && byte < 192
}

// Keeps 34 bytes at most, and drops zeros only.
#[tactic(auto, unfolding(crate::specs::ParseSteps::cut_to_34_digits))]
fn cut_to_34_digits(digits: Digits, exponent: usize) -> Result<(Digits, usize), ParseError>
    requires { exponent ≤ i16_max_plus_32768 }
    ensures value { result ≡ cut_to_34_digits digits.entry exponent }
    ensures short { IfOk result (λ digits_and_exponent. length digits_and_exponent.0 ≤ 34) }
{
    let len = digits.len();
    if len <= 34 {
        return Ok((digits, exponent));
    }
    if is_utf8_continuation(digits.byte(34)) {
        return Err(ParseError::Unparseable);
    }
    if !digits.has_only_zeros_after(34) {
        return Err(ParseError::InexactRounding);
    }
    if len - 34 > 32767 {
        return Err(ParseError::Overflow);
    }
    if exponent + (len - 34) > I16_MAX_PLUS_32768 {
        return Err(ParseError::Overflow);
    }
    Ok((digits.first(34), exponent + (len - 34)))
}

// Raises an exponent below the least one by dropping zeros.
#[tactic(auto, unfolding(crate::specs::ParseSteps::raise_to_min_exponent))]
fn raise_to_min_exponent(digits: Digits, exponent: usize) -> Result<(Digits, usize), ParseError>
    ensures value { result ≡ raise_to_min_exponent digits.entry exponent }
    ensures shorter { IfOk result (λ digits_and_exponent. length digits_and_exponent.0 ≤ length digits.entry) }
    ensures least { IfOk result (λ digits_and_exponent. min_exponent_plus_32768 ≤ digits_and_exponent.1) }
{
    if exponent >= MIN_EXPONENT_PLUS_32768 {
        return Ok((digits, exponent));
    }
    let len = digits.len();
    if len == 0 {
        return Ok((digits, MIN_EXPONENT_PLUS_32768));
    }
    if MIN_EXPONENT_PLUS_32768 - exponent > len {
        return Err(ParseError::Underflow);
    }
    let kept_digit_count = len - (MIN_EXPONENT_PLUS_32768 - exponent);
    if is_utf8_continuation(digits.byte(kept_digit_count)) {
        return Err(ParseError::Unparseable);
    }
    if !digits.has_only_zeros_after(kept_digit_count) {
        return Err(ParseError::InexactRounding);
    }
    Ok((digits.first(kept_digit_count), MIN_EXPONENT_PLUS_32768))
}

// The number of zeros that lower an exponent above the greatest one. Zero itself needs none.
#[tactic(auto, unfolding(crate::specs::ParseSteps::zeros_to_add))]
fn zeros_to_add(digits: &Digits, exponent: usize) -> Result<usize, ParseError>
    requires { length digits.now ≤ 34 }
    ensures value { result ≡ zeros_to_add digits.now exponent }
    ensures fits { IfOk result (λ zeros. length digits.now + zeros ≤ 34) }
{
    if exponent <= MAX_EXPONENT_PLUS_32768 {
        return Ok(0);
    }
    let len = digits.len();
    if len == 0 {
        return Ok(0);
    }
    if exponent - MAX_EXPONENT_PLUS_32768 > 34 - len {
        return Err(ParseError::Overflow);
    }
    Ok(exponent - MAX_EXPONENT_PLUS_32768)
}

// The number that the digits denote, with this number of zeros after them.
#[tactic(auto, unfolding(crate::specs::ParseSteps::coefficient))]
fn coefficient(digits: &Digits, zeros: usize, has_digit: bool) -> Result<u128, ParseError>
    requires short { length digits.now ≤ 34 }
    requires fits { length digits.now + zeros ≤ 34 }
    ensures { result ≡ coefficient digits.now zeros has_digit }
{
    if !has_digit {
        return Err(ParseError::InvalidCoefficient);
    }
    let Some(number) = digits.value() else {
        return Err(ParseError::InvalidCoefficient);
    };
    Ok(number * 10u128.pow(zeros as u32))
}
