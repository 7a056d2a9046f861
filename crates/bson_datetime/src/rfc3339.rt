//! Parses RFC 3339 strings. Each function reads a part at the start of its input, and returns its
//! value and the remaining input.
ghost use Rattle.std.specs.Prelude.{◌≡◌, ◌<◌, ◌≤◌, ℕ, pos, length, slice_index, IfSome, option_map};
ghost use Rattle.std.specs.Prelude.{int_div, ◌^◌};
ghost use Rattle.std.specs.Char.{IsAsciiDigit, is_ascii_digit};
ghost use Rattle.std.specs.List.{prefix_len};
ghost use Rattle.jiff.specs.Words.{IsEpochDay, IsWithin, IsBetween};
ghost use Rattle.bson_datetime.specs.Rfc3339Parser as spec;

use jiff::civil::Date;

#[tactic(auto, unfolding(crate::specs::Rfc3339Parser::two_digits))]
fn two_digits(input: &[u8]) -> Option<(u8, &[u8])>
    ensures value { spec.parse_result_bytes result ≡ spec.two_digits input.now }
    ensures bound { IfSome result (λ parsed_part. parsed_part.0 < 100) }
{
    match input {
        [high @ b'0'..=b'9', low @ b'0'..=b'9', remaining_input @ ..] => {
            Some(((*high - b'0') * 10 + (*low - b'0'), remaining_input))
        }
        _ => None,
    }
}

#[tactic(auto, unfolding(crate::specs::Rfc3339Parser::four_digits))]
fn four_digits(input: &[u8]) -> Option<(u16, &[u8])>
    ensures value { spec.parse_result_bytes result ≡ spec.four_digits input.now }
    ensures bound { IfSome result (λ parsed_part. parsed_part.0 < 10_000) }
{
    let (century, input) = two_digits(input)?;
    let (year, input) = two_digits(input)?;
    Some((century as u16 * 100 + year as u16, input))
}

#[tactic(auto, unfolding(crate::specs::Rfc3339Parser::two_digits_below))]
fn two_digits_below(input: &[u8], bound: u8) -> Option<(u8, &[u8])>
    ensures value { spec.parse_result_bytes result ≡ spec.two_digits_below bound input.now }
    ensures bound { IfSome result (λ parsed_part. parsed_part.0 < bound) }
{
    let (parsed, input) = two_digits(input)?;
    if parsed >= bound {
        return None;
    }
    Some((parsed, input))
}

#[tactic(auto, unfolding(crate::specs::Rfc3339Parser::after_byte))]
fn after_byte(input: &[u8], byte: u8) -> Option<&[u8]>
    ensures { spec.remaining_bytes_of result ≡ spec.after_byte byte input.now }
{
    match input {
        [first_byte, remaining_input @ ..] if *first_byte == byte => Some(remaining_input),
        _ => None,
    }
}

#[tactic(auto, unfolding(crate::specs::Rfc3339Parser::after_letter))]
fn after_letter(input: &[u8], upper: u8) -> Option<&[u8]>
    requires { upper < 128 }
    ensures { spec.remaining_bytes_of result ≡ spec.after_letter upper input.now }
{
    match input {
        [first_byte, remaining_input @ ..] if *first_byte == upper || *first_byte == upper + 32 =>
            Some(remaining_input),
        _ => None,
    }
}

#[tactic(auto, unfolding(crate::specs::Rfc3339Parser::day_number))]
fn day_number(year: u16, month: u8, day: u8) -> Option<i64>
    requires year { year < 10_000 }
    requires month { month < 100 }
    requires day { day < 100 }
    ensures value { result ≡ spec.day_number year month day }
    ensures bound { IfSome result IsEpochDay }
{
    match Date::new(year as i16, month as i8, day as i8) {
        Ok(date) => Some(date.to_plain().to_unix_epoch_day() as i64),
        Err(_) => None,
    }
}

#[tactic(auto, unfolding(crate::specs::Rfc3339Parser::date_part))]
fn date_part(input: &[u8]) -> Option<(i64, &[u8])>
    ensures value { spec.parse_result_bytes result ≡ spec.date_part input.now }
    ensures bound { IfSome result (λ parsed_part. IsEpochDay parsed_part.0) }
{
    let (year, input) = four_digits(input)?;
    let input = after_byte(input, b'-')?;
    let (month, input) = two_digits(input)?;
    let input = after_byte(input, b'-')?;
    let (day, input) = two_digits(input)?;
    let epoch_day = day_number(year, month, day)?;
    Some((epoch_day, input))
}

#[tactic(auto, unfolding(crate::specs::Rfc3339Parser::time_part))]
fn time_part(input: &[u8]) -> Option<(u32, &[u8])>
    ensures value { spec.parse_result_bytes result ≡ spec.time_part input.now }
    ensures bound { IfSome result (λ parsed_part. parsed_part.0 < 86_400) }
{
    let (hour, input) = two_digits_below(input, 24)?;
    let input = after_byte(input, b':')?;
    let (minute, input) = two_digits_below(input, 60)?;
    let input = after_byte(input, b':')?;
    let (second, input) = two_digits_below(input, 60)?;
    Some((
        hour as u32 * 3600 + minute as u32 * 60 + second as u32,
        input,
    ))
}

// The nanoseconds of the digits of a fraction, of which nine count.
fn nanoseconds(digits: &[u8]) -> u32
    requires { (digit_index : ℕ) → digit_index < length digits.now → IsAsciiDigit (slice_index digits.now digit_index) }
    ensures value { result ≡ spec.fraction_value 9 digits.now }
    ensures bound { result < 1_000_000_000 }
{
    let mut nanosecond = 0;
    let mut place_value = 1_000_000_000;
    let counted_digits = &digits[..digits.len().min(9)];
    'digits: for digit in counted_digits {
        place_value /= 10;
        nanosecond += (digit - b'0') as u32 * place_value;
    }
    nanosecond
}

fn digits_len(input: &[u8]) -> usize
    ensures len { result ≡ prefix_len is_ascii_digit input.now }
    ensures within { result ≤ length input.now }
    ensures digits { (digit_index : ℕ) → digit_index < result → IsAsciiDigit (slice_index input.now digit_index) }
{
    input
        .iter()
        .take_while(|byte| byte.is_ascii_digit())
        .count()
}

#[tactic(auto, unfolding(crate::specs::Rfc3339Parser::fraction_part))]
fn fraction_part(input: &[u8]) -> Option<(u32, &[u8])>
    ensures value { spec.parse_result_bytes result ≡ spec.fraction_part input.now }
    ensures bound { IfSome result (λ parsed_part. parsed_part.0 < 1_000_000_000) }
{
    match input {
        [b'.', remaining_input @ ..] => {
            let len = digits_len(remaining_input);
            if len == 0 {
                return None;
            }
            let (digits, remaining_input) = remaining_input.split_at(len);
            Some((nanoseconds(digits), remaining_input))
        }
        _ => Some((0, input)),
    }
}

#[tactic(auto, unfolding(crate::specs::Rfc3339Parser::hours_minutes))]
fn hours_minutes(input: &[u8]) -> Option<(i32, &[u8])>
    ensures value { spec.parse_result_bytes result
        ≡ option_map (λ parsed. (pos parsed.0, parsed.1)) (spec.hours_minutes input.now) }
    ensures bound { IfSome result (λ parsed_part. IsBetween (pos 0) (pos 86_399) parsed_part.0) }
{
    let (hour, input) = two_digits_below(input, 24)?;
    let input = after_byte(input, b':')?;
    let (minute, input) = two_digits_below(input, 60)?;
    Some((hour as i32 * 3600 + minute as i32 * 60, input))
}

#[tactic(auto, unfolding(crate::specs::Rfc3339Parser::offset_part))]
fn offset_part(input: &[u8]) -> Option<(i32, &[u8])>
    ensures value { spec.parse_result_bytes result ≡ spec.offset_part input.now }
    ensures bound { IfSome result (λ parsed_part. IsWithin 86_399 parsed_part.0) }
{
    match input {
        [b'Z' | b'z', remaining_input @ ..] => Some((0, remaining_input)),
        [b'+', remaining_input @ ..] => hours_minutes(remaining_input),
        [b'-', remaining_input @ ..] => {
            let (seconds, remaining_input) = hours_minutes(remaining_input)?;
            Some((-seconds, remaining_input))
        }
        _ => None,
    }
}

fn epoch_nanos(day: i64, seconds: u32, nanos: u32, offset: i32) -> i128
    requires day { IsEpochDay day }
    requires seconds { seconds < 86_400 }
    requires nanos { nanos < 1_000_000_000 }
    requires offset { IsWithin 86_399 offset }
    ensures value { result ≡ spec.epoch_nanos day seconds nanos offset }
    ensures bound { IsWithin (10 ^ 21) result }
{
    let second = day * 86_400 + seconds as i64 - offset as i64;
    second as i128 * 1_000_000_000 + nanos as i128
}

// Whole milliseconds, rounded towards zero.
fn whole_millis(nanos: i128) -> i64
    requires { IsWithin (10 ^ 21) nanos }
    ensures { result ≡ int_div nanos (pos 1_000_000) }
{
    (nanos / 1_000_000) as i64
}

/// Returns the milliseconds that a string denotes.
#[tactic(auto, unfolding(crate::specs::Rfc3339Parser::parsed_rfc3339_millis))]
pub(crate) fn parse(text: &[u8]) -> Option<i64>
    ensures { result ≡ spec.parsed_rfc3339_millis text.now }
{
    let (day, input) = date_part(text)?;
    let input = after_letter(input, b'T')?;
    let (seconds, input) = time_part(input)?;
    let (nanos, input) = fraction_part(input)?;
    let (offset, input) = offset_part(input)?;
    if !input.is_empty() {
        return None;
    }
    Some(whole_millis(epoch_nanos(day, seconds, nanos, offset)))
}
