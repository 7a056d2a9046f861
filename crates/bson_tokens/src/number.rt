//! The number of a token.
ghost use Rattle.std.specs.Prelude.{◌≡◌, ◌<◌, ◌==◌, length, slice_index, option_map, MatchOption, Some};
ghost use Rattle.std.specs.Prelude.{IsTrue};
ghost use Rattle.serde_json.specs.Read.{number_of, number_from, float_of};
ghost use Rattle.serde_json.specs.View.{number_view};

use fast_float::Numeral;
use serde_json::Number;

/// Returns the number that a token of JSON denotes: an integer if it is one of 64 bits, and
/// otherwise the nearest double. Returns `None` if that is not finite.
pub fn number(text: &str) -> Option<Number>
    ensures { option_map number_view result ≡ number_of text.now }
{
    let bytes = text.as_bytes();
    if begins_with_minus(bytes) {
        number_of_sign(true, &Numeral::scan(&bytes[1..]))
    } else {
        number_of_sign(false, &Numeral::scan(bytes))
    }
}

fn begins_with_minus(bytes: &[u8]) -> bool
    ensures first_byte_is_minus { result ≡ (slice_index bytes.now 0 == 45) }
    ensures not_empty { IsTrue result → 0 < length bytes.now }
{
    !bytes.is_empty() && bytes[0] == b'-'
}

fn number_of_sign(is_negative: bool, numeral: &Numeral<'_>) -> Option<Number>
    ensures { option_map number_view result ≡ number_from is_negative numeral.now }
{
    match integer(is_negative, numeral) {
        Some(parsed_number) => Some(parsed_number),
        None => Number::from_f64(numeral.to_float::<f64>(is_negative)),
    }
}

// The integer, if it is one of 64 bits; `-0` is a double.
fn integer(is_negative: bool, numeral: &Numeral<'_>) -> Option<Number>
    ensures { MatchOption result (number_from is_negative numeral.now ≡ float_of is_negative numeral.now)
        (λ parsed_number. number_from is_negative numeral.now ≡ Some (number_view parsed_number)) }
{
    if !is_negative {
        return match numeral.to_u64() {
            Some(parsed_number) => Some(Number::from(parsed_number)),
            None => None,
        };
    }
    match numeral.to_i64(true) {
        Some(parsed_number) if parsed_number < 0 => Some(Number::from(parsed_number)),
        _ => None,
    }
}
