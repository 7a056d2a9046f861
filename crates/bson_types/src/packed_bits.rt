//! Vectors of single bits, packed into bytes.
ghost use Rattle.std.specs.Prelude.{◌≡◌, ◌<◌, ◌*◌, ◌/◌, ◌^◌, ◌↔◌, ◌⊎◌, [], vec_len, unwrap_or};
ghost use Rattle.std.specs.Prelude.{IfOk, IfErr, IsErr};
ghost use Rattle.bson_types.specs.BinaryErrors.{IsVectorError};
ghost use Rattle.bson_types.specs.IgnoredBits.{cleared_bytes, ignored_bits};

use crate::binary::{Error, Result};
use std::alloc::{AllocError, Global};

const PADDING_MESSAGE: &str = "the padding of packed bits is above 7";

/// Bits in bytes, from the highest bit of a byte down. The lowest `padding` bits of the last byte
/// are ignored, so there are 8 times the number of bytes, less the padding, bits.
///
/// The padding is below 8, and 0 if there are no bytes. The ignored bits are zero.
///
/// Twelve bits:
///
/// ```
/// let bytes = Vec::from_slice(alloc, &[0b1010_1010, 0b1111_0000])?;
/// let bits = PackedBitVector::new(bytes, Some(4))?;
/// println!(rt; "{:?} {}", bits.as_bytes(), bits.padding())?; // [170, 240] 4
/// ```
#[derive(Debug, Drop, PartialEq, Eq)]
pub struct PackedBitVector {
    bytes: Vec<u8>,
    padding: u8,
    ghost padding_below_8: { padding < 8 },
    ghost no_padding_without_bytes: { vec_len bytes ≡ 0 → padding ≡ 0 },
    ghost ignored_bits_zero: { ignored_bits bytes.items padding ≡ 0 },
}

impl PackedBitVector {
    ghost use Rattle.bson_types.specs.PackedBits.{packed_bytes, packed_padding};

    /// Makes the vector of these bytes and this padding. The default padding is 0.
    ///
    /// # Errors
    ///
    /// - `Vector`: the padding is above 7, there is a padding without bytes, or an ignored bit is
    ///   not zero.
    pub fn new(bytes: Vec<u8>, padding: Option<u8>) -> Result<PackedBitVector>
        ensures bytes { IfOk result (λ bit_vector. packed_bytes bit_vector ≡ bytes.items) }
        ensures padding { IfOk result (λ bit_vector. packed_padding bit_vector ≡ unwrap_or padding 0) }

        ensures refused { IsErr result ↔ ((7 < unwrap_or padding 0) ⊎ ((vec_len bytes ≡ 0) × (0 < unwrap_or padding 0))
            ⊎ (0 < ignored_bits bytes.items (unwrap_or padding 0))) }
        ensures err { IfErr result IsVectorError }
    {
        let padding = padding.unwrap_or(0);
        if padding > 7 {
            return Err(Error::Vector {
                message: PADDING_MESSAGE,
            });
        }
        if bytes.is_empty() && padding != 0 {
            return Err(Error::Vector {
                message: "packed bits without data have a padding",
            });
        }
        if ignored_bits_of(bytes.as_slice(), padding) != 0 {
            return Err(Error::Vector {
                message: "the ignored bits of packed bits are not zero",
            });
        }
        Ok(PackedBitVector { bytes, padding })
    }

    // The vector of these bytes with the ignored bits zero. A padding is rejected as by `new`.
    pub(crate) fn with_cleared_bits(bytes: Vec<u8>, padding: u8) -> Result<PackedBitVector>
        ensures bytes { IfOk result (λ bit_vector. packed_bytes bit_vector ≡ cleared_bytes bytes.items padding) }
        ensures padding { IfOk result (λ bit_vector. packed_padding bit_vector ≡ padding) }

        ensures refused { IsErr result ↔ ((7 < padding) ⊎ ((vec_len bytes ≡ 0) × (0 < padding))) }
        ensures err { IfErr result IsVectorError }
    {
        if padding > 7 {
            return Err(Error::Vector {
                message: PADDING_MESSAGE,
            });
        }
        PackedBitVector::new(with_zero_bits(bytes, padding), Some(padding))
    }

    /// Returns the bytes.
    pub fn as_bytes(&self) -> &[u8]
        ensures { result.now ≡ packed_bytes self.now }
    {
        self.bytes.as_slice()
    }

    /// Returns how many of the lowest bits of the last byte are ignored: 0 to 7.
    pub fn padding(&self) -> u8
        ensures value { result ≡ packed_padding self.now }
        ensures padding_below_8 { result < 8 }
        ensures no_padding_without_bytes { packed_bytes self.now ≡ [] → result ≡ 0 }
        ensures ignored_bits_zero { ignored_bits (packed_bytes self.now) result ≡ 0 }
    {
        let _len = self.bytes.len();
        self.padding
    }

    /// Returns a copy of the bits, in memory of its own.
    ///
    /// # Errors
    ///
    /// Returns `AllocError` if a request for memory is refused.
    pub fn clone(&self, alloc: Global) -> std::result::Result<PackedBitVector, AllocError>
        ensures bytes { IfOk result (λ bit_vector. packed_bytes bit_vector ≡ packed_bytes self.now) }
        ensures padding { IfOk result (λ bit_vector. packed_padding bit_vector ≡ packed_padding self.now) }
    {
        Ok(PackedBitVector {
            bytes: Vec::from_slice(alloc, self.as_bytes())?,
            padding: self.padding,
        })
    }
}

// The lowest `padding` bits of the last byte, as a number.
fn ignored_bits_of(bytes: &[u8], padding: u8) -> u8
    requires { padding < 8 }
    ensures { result ≡ ignored_bits bytes.now padding }
{
    match bytes.last() {
        Some(last_byte) => *last_byte % (1 << padding),
        None => 0,
    }
}

// The bytes with these bits zero.
fn with_zero_bits(mut bytes: Vec<u8>, padding: u8) -> Vec<u8>
    requires { padding < 8 }
    ensures items { result.items ≡ cleared_bytes bytes.items padding }
    ensures len { vec_len result ≡ vec_len bytes }
{
    if !bytes.is_empty() {
        let last_index = bytes.len() - 1;
        bytes[last_index] = cleared_byte(bytes[last_index], padding);
    }
    bytes
}

fn cleared_byte(byte: u8, padding: u8) -> u8
    requires { padding < 8 }
    ensures { result ≡ byte / 2 ^ padding * 2 ^ padding }
{
    byte & (u8::MAX << padding)
}
