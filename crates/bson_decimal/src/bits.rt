//! Decodes and encodes the bit pattern of a decimal (IEEE 754-2008, section 3.5.2).

ghost use Rattle.std.specs.Prelude.{◌≡◌, ◌^◌, ◌<◌, ◌≤◌};
ghost use Rattle.bson_decimal.specs.Exponents.{unbiased_exponent};
ghost use Rattle.bson_decimal.specs.DecimalBits.{sign_bit, encoded_finite};

use crate::Decimal128;

/// The value of a bit pattern. An exponent is stored with 6176 added, and is always below 12288. A
/// coefficient is always below 10^34.
#[derive(Clone, Copy, PartialEq, Eq)]
pub(crate) enum Decoded {
    Nan {
        negative: bool,
        signalling: bool,
    },
    Infinity {
        negative: bool,
    },
    Finite {
        negative: bool,
        coefficient: u128,
        stored_exponent: u16,
    },
}

// A coefficient has at most 34 digits.
const COEFFICIENT_END: u128 = 10_000_000_000_000_000_000_000_000_000_000_000;

// The bit patterns with no other bit set, as numbers, without their sign.
pub(crate) const QUIET_NAN: u128 = 0x7c << 120;

pub(crate) const SIGNALLING_NAN: u128 = 0x7e << 120;

pub(crate) const INFINITY: u128 = 0x78 << 120;

impl Decimal128 {
    ghost use Rattle.bson_decimal.specs.DecimalBits.{decoded_decimal};

    pub(crate) fn decode(&self) -> Decoded
        ensures { result ≡ decoded_decimal self.now }
    {
        let bit_pattern = u128::from_le_bytes(self.bytes());
        let negative = (bit_pattern >> 127) % 2 == 1;
        let combination_bits = (bit_pattern >> 122) % 32;
        if combination_bits == 31 {
            let signalling = (bit_pattern >> 121) % 2 == 1;
            return Decoded::Nan {
                negative,
                signalling,
            };
        }
        if combination_bits == 30 {
            return Decoded::Infinity { negative };
        }
        if (bit_pattern >> 125) % 4 == 3 {
            let stored_exponent = ((bit_pattern >> 111) % 16384) as u16;
            return Decoded::Finite {
                negative,
                coefficient: 0,
                stored_exponent,
            };
        }
        let coefficient = bit_pattern % (1 << 113);
        Decoded::Finite {
            negative,
            coefficient: if coefficient < COEFFICIENT_END {
                coefficient
            } else {
                0
            },
            stored_exponent: ((bit_pattern >> 113) % 16384) as u16,
        }
    }
}

// The exponent of a stored exponent.
pub(crate) fn unbiased_exponent(stored_exponent: u16) -> i32
    ensures { result ≡ unbiased_exponent stored_exponent }
{
    i32::from(stored_exponent) - 6176
}

// The sign bit among 128 bits.
pub(crate) fn sign_bit(negative: bool) -> u128
    ensures value { result ≡ sign_bit negative }
    ensures within { result ≤ 2 ^ 127 }
{
    if negative { 1 << 127 } else { 0 }
}

// The 128 bits of a finite decimal.
pub(crate) fn encoded_finite(negative: bool, coefficient: u128, stored_exponent: u16) -> u128
    requires coefficient { coefficient < 10 ^ 34 }
    requires exponent { stored_exponent < 12288 }
    ensures { result ≡ encoded_finite negative coefficient stored_exponent }
{
    sign_bit(negative) + u128::from(stored_exponent) * (1 << 113) + coefficient
}
