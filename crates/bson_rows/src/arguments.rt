//! Parses the arguments of a row.
use crate::row_error::RowError;
use hex::FromHex;
use std::alloc::Global;

/// Returns the text up to the first space, and the rest after it.
pub(crate) fn split_at_space(text: &str) -> (&str, &str) {
    text.split_once(' ').unwrap_or((text, ""))
}

/// Returns the text up to the first colon, and the rest after it.
pub(crate) fn split_at_colon(text: &str) -> (&str, &str) {
    text.split_once(':').unwrap_or((text, ""))
}

/// Parses bytes from hexadecimal digits.
pub(crate) fn parse_bytes(alloc: Global, text: &str) -> Result<Vec<u8>, RowError> {
    match hex::decode(alloc, text) {
        Ok(bytes) => Ok(bytes),
        Err(hex::FromHexError::OutOfMemory) => Err(RowError::NoMemoryForRow),
        Err(_) => Err(RowError::InvalidRow),
    }
}

/// Parses so many bytes from hexadecimal digits.
pub(crate) fn parse_sized_bytes<const N: usize>(text: &str) -> Result<[u8; N], RowError> {
    match <[u8; N] as FromHex>::from_hex(text) {
        Ok(bytes) => Ok(bytes),
        Err(_) => Err(RowError::InvalidRow),
    }
}

/// Parses 16 hexadecimal digits as the 64 bits of a double.
pub(crate) fn parse_double_bits(text: &str) -> Result<u64, RowError> {
    Ok(u64::from_be_bytes(parse_sized_bytes::<8>(text)?))
}

/// Parses a byte from two hexadecimal digits.
pub(crate) fn parse_byte(text: &str) -> Result<u8, RowError> {
    Ok(parse_sized_bytes::<1>(text)?[0])
}

/// Parses an integer.
pub(crate) fn parse_number<N: std::str::FromStr>(text: &str) -> Result<N, RowError>
where
    N::Err: Drop,
{
    match text.parse::<N>() {
        Ok(number) => Ok(number),
        Err(_) => Err(RowError::InvalidRow),
    }
}
