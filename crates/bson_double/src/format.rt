//! Writes a finite double as a string.
ghost use Rattle.std.specs.Prelude.{◌≡◌, ◌+◌, ◌<◌, ◌≤◌, ◌^◌, ◌++◌, List, ℕ, length, replicate};
ghost use Rattle.std.specs.Prelude.{IsTrue, IsAscii};
ghost use Rattle.arrayvec.specs.ArrayString.{array_string_len};
ghost use Rattle.bson_double.specs.FiniteDoubles.{is_finite};
ghost use Rattle.bson_double.specs.DoubleText.{positional_notation, scientific_notation, decimal_notation, double_exponent_text};
ghost use Rattle.bson_double.specs.DoubleText.{IsUnsignedText, IsDoubleText};

use crate::shortest::{Decimal, shortest};
use arrayvec::ArrayString;

fn push_zeros(text: &mut ArrayString<32>, count: usize)
    requires { array_string_len text.old + count ≤ 32 }
    ensures { text.new.bytes ≡ text.old.bytes ++ replicate count 48 }
{
    for _zero in 0..count {
        text.push_str("0");
    }
}

// Writes the digits with a point at its position, with zeros up to it and a digit on each side.
fn push_positional(text: &mut ArrayString<32>, digits: &str, point_position: u64)
    requires room { array_string_len text.old ≤ 1 }
    requires ascii { IsAscii digits.now }
    requires digits { length digits.now ≤ 20 }
    requires point_position { (1095 < point_position) × (point_position ≤ 1116) }
    ensures { text.new.bytes ≡ text.old.bytes ++ positional_notation digits.now point_position }
{
    if point_position <= 1100 {
        text.push_str("0.");
        push_zeros(text, (1100 - point_position) as usize);
        text.push_str(digits);
        return;
    }
    let integer_len = (point_position - 1100) as usize;
    if digits.len() <= integer_len {
        text.push_str(digits);
        push_zeros(text, integer_len - digits.len());
        text.push_str(".0");
        return;
    }
    text.push_str(&digits[..integer_len]);
    text.push_str(".");
    text.push_str(&digits[integer_len..]);
}

// Writes the exponent: the power of ten of the first digit.
fn push_exponent(text: &mut ArrayString<32>, point_position: u64)
    requires room { array_string_len text.old ≤ 25 }
    requires point_position { (700 ≤ point_position) × (point_position ≤ 1600) }
    ensures { text.new.bytes ≡ text.old.bytes ++ double_exponent_text point_position }
{
    let mut buffer = itoa::Buffer::new();
    if point_position < 1101 {
        text.push_str("e-");
        text.push_str(buffer.format(1101 - point_position));
    } else {
        text.push_str("e");
        text.push_str(buffer.format(point_position - 1101));
    }
}

// Writes the digits with a point after the first one, if there are others, and the exponent.
fn push_scientific(text: &mut ArrayString<32>, digits: &str, point_position: u64)
    requires room { array_string_len text.old ≤ 1 }
    requires ascii { IsAscii digits.now }
    requires digits { (0 < length digits.now) × (length digits.now ≤ 20) }
    requires point_position { (700 ≤ point_position) × (point_position ≤ 1600) }
    ensures { text.new.bytes ≡ text.old.bytes ++ scientific_notation digits.now point_position }
{
    text.push_str(&digits[..1]);
    if digits.len() != 1 {
        text.push_str(".");
        text.push_str(&digits[1..]);
    }
    push_exponent(text, point_position);
}

fn push_digits(text: &mut ArrayString<32>, digits: &str, point_position: u64)
    requires room { array_string_len text.old ≤ 1 }
    requires ascii { IsAscii digits.now }
    requires digits { (0 < length digits.now) × (length digits.now ≤ 20) }
    requires point_position { (700 ≤ point_position) × (point_position ≤ 1600) }
    ensures { text.new.bytes ≡ text.old.bytes ++ decimal_notation digits.now point_position }
{
    if point_position > 1095 && point_position <= 1116 {
        push_positional(text, digits, point_position);
    } else {
        push_scientific(text, digits, point_position);
    }
}

fn push_unsigned(text: &mut ArrayString<32>, bits: u64)
    requires room { array_string_len text.old ≤ 1 }
    requires positive { bits < 2 ^ 63 }
    requires finite { IsTrue (is_finite bits) }
    ensures { (unsigned_text : List ℕ) × IsUnsignedText bits unsigned_text
        × (text.new.bytes ≡ text.old.bytes ++ unsigned_text) }
{
    if bits == 0 {
        text.push_str("0.0");
        return;
    }
    let Decimal { digits, power } = shortest(bits);
    let mut buffer = itoa::Buffer::new();
    let written = buffer.format(digits);
    push_digits(text, written, written.len() as u64 + power);
}

/// Returns a finite double as a string: its sign, and its shortest decimal. This is the decimal with
/// the fewest digits whose nearest double it is; if several have as few, the one nearest to it. The
/// string has a point with a digit on each side (`12.5`, `1.0`, `0.001`). It has one digit
/// before the point and an exponent (`1e16`, `5e-324`), if it would have more than 16
/// digits before the point, or more than 4 zeros between it and the first digit. It is a number of
/// RFC 8259.
///
/// ```
/// println!(rt; "{}", double_text(0x4029_0000_0000_0000))?; // 12.5
/// ```
pub fn double_text(bits: u64) -> ArrayString<32>
    requires { IsTrue (is_finite bits) }
    ensures { IsDoubleText bits result.bytes }
{
    let mut text = ArrayString::new();
    if bits >= 1 << 63 {
        text.push_str("-");
    }
    push_unsigned(&mut text, bits % (1 << 63));
    text
}
