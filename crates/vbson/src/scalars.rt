//! Decimals, object ids and date-times: parsed from a text to bytes or an integer, and printed.
ghost use Rattle.std.specs.Prelude.{◌≡◌, ◌≢◌, ◌⊎◌, ◌<◌, ◌≤◌, ℕ, ℤ, List, IsUtf8, length};
ghost use Rattle.bson_decimal.specs.DecimalStrings.{DenotesDecimal};
ghost use Rattle.bson_decimal.specs.DecimalText.{decimal128_text as decimal_text};
ghost use Rattle.bson_types.specs.ObjectIds.{IsOidText, encode_lower};
ghost use Rattle.bson_datetime.specs.Rfc3339Grammar.{DenotesDateTime};
ghost use Rattle.bson_datetime.specs.CivilTime.{IsRfc3339Millis};
ghost use Rattle.bson_datetime.specs.DateTimeText.{rfc3339_text};
ghost use Rattle.vbson.specs.Buffer.{IsLargerThanBuffer, IsWrittenToBuffer};

use crate::buffer::write_string;
use crate::status;
use bson_datetime::{DateTime, Error as DateTimeError};
use bson_decimal::Decimal128;
use hex::FromHex;
use std::alloc::Global;
use std::str;
use std::str::FromStr;

/// Parses a decimal to its 16 bytes, the lowest first. No value is rounded.
#[unsafe(no_mangle)]
pub extern "C" fn vbson_decimal128_parse(text: &[u8], out: &mut [u8; 16]) -> u32
    ensures success { result ≡ 0 → DenotesDecimal text.now out.new }
    ensures no_such_text { result ≡ 6 → IsUtf8 text.now → (bytes : List ℕ) → ¬ (DenotesDecimal text.now bytes) }
    ensures possible_statuses { (result ≡ 0) ⊎ (result ≡ 6) }
    ensures unchanged { 0 < result → out.new ≡ out.old }
{
    let Ok(text) = str::from_utf8(text) else {
        return status::INVALID_STRING;
    };
    match Decimal128::from_str(text) {
        Ok(decimal) => {
            *out = decimal.bytes();
            status::OK
        }
        Err(_) => status::INVALID_STRING,
    }
}

/// Prints the decimal of 16 bytes as a text of at most 42 bytes. Every 16 bytes have one.
#[unsafe(no_mangle)]
pub extern "C" fn vbson_decimal128_print(
    alloc: Global,
    bytes: &[u8; 16],
    buffer: &mut [u8],
    len: &mut usize,
) -> u32
    ensures success { result ≡ 0 → IsWrittenToBuffer (decimal_text bytes.now) buffer.old buffer.new len.new }
    ensures too_small { result ≡ 8 → IsLargerThanBuffer (decimal_text bytes.now) buffer.old buffer.new len.new }
    ensures fits { 42 ≤ length buffer.old → result ≢ 8 }
    ensures possible_statuses { (result ≡ 0) ⊎ (result ≡ 5) ⊎ (result ≡ 8) }
    ensures unchanged { result ≡ 5 → (buffer.new ≡ buffer.old) × (len.new ≡ len.old) }
{
    match format!(in alloc; "{}", Decimal128::from_bytes(*bytes)) {
        Ok(text) => write_string(text.as_bytes(), buffer, len),
        Err(_) => status::OUT_OF_MEMORY,
    }
}

/// Parses an object id from 24 hexadecimal digits of either case to its 12 bytes.
#[unsafe(no_mangle)]
pub extern "C" fn vbson_object_id_parse(text: &[u8], out: &mut [u8; 12]) -> u32
    ensures success { result ≡ 0 → IsOidText text.now out.new }
    ensures no_such_text { result ≡ 6 → (id : List ℕ) → ¬ (IsOidText text.now id) }
    ensures possible_statuses { (result ≡ 0) ⊎ (result ≡ 6) }
    ensures unchanged { 0 < result → out.new ≡ out.old }
{
    match <[u8; 12] as FromHex>::from_hex(text) {
        Ok(id) => {
            *out = id;
            status::OK
        }
        Err(_) => status::INVALID_STRING,
    }
}

/// Prints the 12 bytes of an object id as 24 lower-case hexadecimal digits.
#[unsafe(no_mangle)]
pub extern "C" fn vbson_object_id_print(bytes: &[u8; 12], buffer: &mut [u8], len: &mut usize) -> u32
    ensures success { result ≡ 0 → IsWrittenToBuffer (encode_lower bytes.now) buffer.old buffer.new len.new }
    ensures too_small { result ≡ 8 → IsLargerThanBuffer (encode_lower bytes.now) buffer.old buffer.new len.new }
    ensures fits { 24 ≤ length buffer.old → result ≢ 8 }
    ensures possible_statuses { (result ≡ 0) ⊎ (result ≡ 8) }
{
    let mut digits = [0u8; 24];
    match hex::encode_to_slice(bytes.as_slice(), &mut digits) {
        Ok(()) => write_string(&digits, buffer, len),
        Err(_) => unreachable!(),
    }
}

/// Parses a date-time of RFC 3339 (section 5.6) to milliseconds since 1970-01-01T00:00:00Z.
#[unsafe(no_mangle)]
pub extern "C" fn vbson_date_time_parse(text: &[u8], out: &mut i64) -> u32
    ensures success { result ≡ 0 → DenotesDateTime text.now out.new }
    ensures no_such_text { result ≡ 6 → IsUtf8 text.now → (milliseconds : ℤ)
        → ¬ (DenotesDateTime text.now milliseconds) }
    ensures possible_statuses { (result ≡ 0) ⊎ (result ≡ 6) }
    ensures unchanged { 0 < result → out.new ≡ out.old }
{
    let Ok(text) = str::from_utf8(text) else {
        return status::INVALID_STRING;
    };
    match DateTime::parse_rfc3339_str(text) {
        Ok(date_time) => {
            *out = date_time.timestamp_millis();
            status::OK
        }
        Err(_) => status::INVALID_STRING,
    }
}

/// Prints the date-time that is so many milliseconds after 1970-01-01T00:00:00Z as a text of RFC 3339
/// with at most 24 bytes. Date-times of the years 0000 to 9999 have one.
#[unsafe(no_mangle)]
pub extern "C" fn vbson_date_time_print(
    alloc: Global,
    millis: i64,
    buffer: &mut [u8],
    len: &mut usize,
) -> u32
    ensures success { result ≡ 0 → IsWrittenToBuffer (rfc3339_text millis) buffer.old buffer.new len.new }
    ensures too_small { result ≡ 8 → IsLargerThanBuffer (rfc3339_text millis) buffer.old buffer.new len.new }
    ensures fits { 24 ≤ length buffer.old → result ≢ 8 }
    ensures no_text { result ≡ 7 → ¬ (IsRfc3339Millis millis) }
    ensures in_years { (result ≡ 0) ⊎ (result ≡ 8) → IsRfc3339Millis millis }
    ensures possible_statuses { (result ≡ 0) ⊎ (result ≡ 5) ⊎ (result ≡ 7) ⊎ (result ≡ 8) }
    ensures unchanged { (result ≡ 5) ⊎ (result ≡ 7) → (buffer.new ≡ buffer.old) × (len.new ≡ len.old) }
{
    match DateTime::from_millis(millis).try_to_rfc3339_string(alloc) {
        Ok(text) => write_string(text.as_bytes(), buffer, len),
        Err(DateTimeError::CannotFormat { .. }) => status::NOT_REPRESENTABLE,
        Err(_) => status::OUT_OF_MEMORY,
    }
}
