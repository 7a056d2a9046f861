//! Vectors of numbers or bits, and their bytes (the MongoDB BSON binary vector format).
ghost use Rattle.std.specs.Prelude.{◌≡◌, ◌≢◌, [], ◌∷◌, ◌⊎◌, ◌↔◌, ◌<◌, ◌^◌, ◌%◌, FitsSigned, IfErr};
ghost use Rattle.std.specs.Prelude.{IfOk, OnOk, false, length, map, true};
ghost use Rattle.std.specs.Int.{cast_signed, cast_unsigned, w8};
ghost use Rattle.std.specs.List.{AllByRecursion};
ghost use Rattle.bson_types.specs.ObjectIds.{IsBytes};
ghost use Rattle.bson_types.specs.BinaryErrors.{IsAllocationError, IsVectorError};
ghost use Rattle.bson_types.specs.PackedBits.{packed_bytes, packed_padding};
ghost use Rattle.bson_types.specs.IgnoredBits.{cleared_bytes};
ghost use Rattle.bson_types.specs.VectorBytes.{is_vector_bytes, is_vector_with_any_ignored_bits, u32_le_bytes};
ghost use Rattle.bson_types.specs.VectorBytes.{vector_bytes, vector_with_cleared_bits};
ghost use Rattle.bson_types.specs.VectorData.{IsDataInRange, IsOnlyDataOf, IsVectorBytes, packed, packed_bits_data};
ghost use Rattle.bson_types.specs.VectorData.{data_in_range, vector_data};

use crate::binary::{Binary, Error, Result};
use crate::packed_bits::PackedBitVector;
use crate::spec::BinarySubtype;
use std::alloc::{AllocError, Global};

const INT8: u8 = 0x03;

const PACKED_BIT: u8 = 0x10;

const FLOAT32: u8 = 0x27;

const HEADER_MESSAGE: &str = "a vector has a type and a padding";

/// A vector, as a binary of subtype Vector contains it.
///
/// ```
/// let vector = Vector::Int8(Vec::from_slice(alloc, &[-1, 2])?);
/// let binary = Binary::from_vector(alloc, &vector)?;
/// println!(rt; "{:?}", binary.bytes)?; // [3, 0, 255, 2]
/// println!(rt; "{:?}", Vector::from_binary(alloc, &binary)?)?; // Int8([-1, 2])
/// ```
#[derive(Debug, Drop, PartialEq, Eq)]
pub enum Vector {
    /// Signed integers of 8 bits.
    Int8(Vec<i8>),
    /// Floating point numbers of 32 bits, as their bit patterns. In the bytes of a vector each is
    /// four bytes, the lowest first.
    Float32(Vec<u32>),
    /// Single bits.
    PackedBit(PackedBitVector),
}

impl Vector {
    /// Reads the bytes of a vector: its type, its padding and its data. Writing the vector gives
    /// the same bytes again, and no other vector has them.
    ///
    /// # Errors
    ///
    /// - `Vector`: the bytes are not those of a vector.
    /// - `OutOfMemory`: a request for memory was refused.
    ///
    /// The bytes are not those of a vector in these cases:
    ///
    /// - There are fewer than 2 bytes.
    /// - The type is not 0x03 (int8), 0x10 (packed bits) or 0x27 (float32).
    /// - The type is int8 or float32, and the padding is not 0.
    /// - The type is float32, and the length of the data is not a multiple of 4.
    /// - The type is packed bits, and the padding is above 7.
    /// - The type is packed bits, and there is a padding and no data, or an ignored bit that is not
    ///   zero.
    pub fn from_bytes(alloc: Global, bytes: &[u8]) -> Result<Vector>
        ensures ok { IfOk result (λ vector. vector_bytes vector ≡ bytes.now) }
        ensures within_type_range { IfOk result (λ vector. IsDataInRange (vector_data vector)) }
        ensures only_vector { IfOk result (λ vector. IsOnlyDataOf bytes.now (vector_data vector)) }

        // Bytes are accepted if and only if they are those of a vector with data in range.
        ensures accepted { OnOk result (is_vector_bytes bytes.now ≡ true) }
        ensures refused { IfErr result (λ error. IsAllocationError error
            ⊎ (IsVectorError error × (is_vector_bytes bytes.now ≡ false))) }
        ensures meaning { (is_vector_bytes bytes.now ≡ true) ↔ IsVectorBytes bytes.now }
    {
        match bytes {
            [PACKED_BIT, padding, data @ ..] => read_packed_bits(alloc, *padding, data),
            [type_byte, padding, data @ ..] => read_numbers(alloc, *type_byte, *padding, data),
            _ => Err(Error::Vector {
                message: HEADER_MESSAGE,
            }),
        }
    }

    /// Reads the bytes of a vector as `from_bytes` does, and sets its ignored bits to zero. Writing
    /// the vector gives the input with the ignored bits zero. If `from_bytes` accepts the bytes,
    /// both calls return the same vector.
    ///
    /// # Errors
    ///
    /// - `Vector`: the bytes are not those of a vector, whatever its ignored bits are.
    /// - `OutOfMemory`: a request for memory was refused.
    pub fn from_bytes_clearing(alloc: Global, bytes: &[u8]) -> Result<Vector>
        ensures ok { IfOk result (λ vector. vector_bytes vector ≡ vector_with_cleared_bits bytes.now) }
        ensures within_type_range { IfOk result (λ vector. IsDataInRange (vector_data vector)) }
        ensures only_vector { IfOk result
            (λ vector. IsOnlyDataOf (vector_with_cleared_bits bytes.now) (vector_data vector)) }

        // `from_bytes` reads the same vector in these bytes, if it accepts them.
        ensures same_as_from_bytes { IfOk result (λ vector. IsOnlyDataOf bytes.now (vector_data vector)) }
        ensures accepts_more { is_vector_bytes bytes.now ≡ true → is_vector_with_any_ignored_bits bytes.now ≡ true }

        // Bytes are accepted if and only if they are those of a vector, whatever its ignored bits.
        ensures accepted { OnOk result (is_vector_with_any_ignored_bits bytes.now ≡ true) }
        ensures refused { IfErr result (λ error. IsAllocationError error
            ⊎ (IsVectorError error × (is_vector_with_any_ignored_bits bytes.now ≡ false))) }
    {
        match bytes {
            [PACKED_BIT, padding, data @ ..] => read_cleared_bits(alloc, *padding, data),
            [type_byte, padding, data @ ..] => read_numbers(alloc, *type_byte, *padding, data),
            _ => Err(Error::Vector {
                message: HEADER_MESSAGE,
            }),
        }
    }

    /// Reads the bytes of a binary of subtype Vector.
    ///
    /// # Errors
    ///
    /// - `Vector`: the subtype is not Vector, or the bytes are rejected by `from_bytes`.
    /// - `OutOfMemory`: a request for memory was refused.
    pub fn from_binary(alloc: Global, binary: &Binary) -> Result<Vector>
        ensures subtype { OnOk result (binary.now.subtype ≡ BinarySubtype.Vector) }
        ensures ok { IfOk result (λ vector. vector_bytes vector ≡ binary.now.bytes.items) }
        ensures within_type_range { IfOk result (λ vector. IsDataInRange (vector_data vector)) }
        ensures only_vector { IfOk result (λ vector. IsOnlyDataOf binary.now.bytes.items (vector_data vector)) }

        ensures accepted { OnOk result (is_vector_bytes binary.now.bytes.items ≡ true) }
        ensures refused { IfErr result (λ error. IsAllocationError error
            ⊎ (IsVectorError error
            × ((binary.now.subtype ≢ BinarySubtype.Vector) ⊎ (is_vector_bytes binary.now.bytes.items ≡ false)))) }
    {
        if binary.subtype != BinarySubtype::Vector {
            return Err(Error::Vector {
                message: "the subtype is not Vector",
            });
        }
        Vector::from_bytes(alloc, binary.bytes.as_slice())
    }

    /// Returns a copy of the vector, in memory of its own.
    ///
    /// # Errors
    ///
    /// Returns `AllocError` if a request for memory is refused.
    pub fn clone(&self, alloc: Global) -> Result<Vector, AllocError>
        ensures { IfOk result (λ vector. vector_data vector ≡ vector_data self.now) }
    {
        Ok(match self {
            Vector::Int8(items) => Vector::Int8(Vec::from_slice(alloc, items.as_slice())?),
            Vector::Float32(items) => Vector::Float32(Vec::from_slice(alloc, items.as_slice())?),
            Vector::PackedBit(packed) => Vector::PackedBit(packed.clone(alloc)?),
        })
    }

    // The bytes that `from_bytes` reads as this vector.
    pub(crate) fn to_bytes(&self, alloc: Global) -> Result<Vec<u8>, AllocError>
        ensures bytes { IfOk result (λ bytes. bytes.items ≡ vector_bytes self.now) }
        ensures readable { OnOk result (is_vector_bytes (vector_bytes self.now) ≡ true) }
        ensures within_type_range { OnOk result (IsDataInRange (data_in_range self.now)) }
    {
        match self {
            Vector::Int8(items) => int8_bytes(alloc, items.as_slice()),
            Vector::Float32(items) => float32_bytes(alloc, items.as_slice()),
            Vector::PackedBit(packed) => packed_bytes_of(alloc, packed),
        }
    }
}

fn read_packed_bits(alloc: Global, padding: u8, data: &[u8]) -> Result<Vector>
    ensures ok { IfOk result (λ vector. vector_data vector ≡ packed data.now padding) }
    ensures within_type_range { IfOk result (λ vector. IsDataInRange (vector_data vector)) }
    ensures accepted { OnOk result (is_vector_bytes (0x10 ∷ padding ∷ data.now) ≡ true) }
    ensures refused { IfErr result (λ error. IsAllocationError error
        ⊎ (IsVectorError error × (is_vector_bytes (0x10 ∷ padding ∷ data.now) ≡ false))) }
{
    let Ok(bytes) = Vec::from_slice(alloc, data) else {
        return Err(Error::OutOfMemory);
    };
    Ok(Vector::PackedBit(PackedBitVector::new(bytes, Some(padding))?))
}

fn read_cleared_bits(alloc: Global, padding: u8, data: &[u8]) -> Result<Vector>
    ensures ok { IfOk result (λ vector. vector_data vector ≡ packed (cleared_bytes data.now padding) padding) }
    ensures within_type_range { IfOk result (λ vector. IsDataInRange (vector_data vector)) }
    ensures accepted { OnOk result (is_vector_with_any_ignored_bits (0x10 ∷ padding ∷ data.now) ≡ true) }
    ensures refused { IfErr result (λ error. IsAllocationError error
        ⊎ (IsVectorError error × (is_vector_with_any_ignored_bits (0x10 ∷ padding ∷ data.now) ≡ false))) }
{
    let Ok(bytes) = Vec::from_slice(alloc, data) else {
        return Err(Error::OutOfMemory);
    };
    Ok(Vector::PackedBit(PackedBitVector::with_cleared_bits(bytes, padding)?))
}

fn read_numbers(alloc: Global, type_byte: u8, padding: u8, data: &[u8]) -> Result<Vector>
    requires { type_byte ≢ 0x10 }
    ensures ok { IfOk result (λ vector. vector_bytes vector ≡ type_byte ∷ padding ∷ data.now) }
    ensures within_type_range { IfOk result (λ vector. IsDataInRange (vector_data vector)) }
    ensures accepted { OnOk result (is_vector_bytes (type_byte ∷ padding ∷ data.now) ≡ true) }
    ensures refused { IfErr result (λ error. IsAllocationError error
        ⊎ (IsVectorError error × (is_vector_with_any_ignored_bits (type_byte ∷ padding ∷ data.now) ≡ false))) }
{
    if padding != 0 {
        return Err(Error::Vector {
            message: "only packed bits have a padding",
        });
    }
    match type_byte {
        INT8 => Ok(Vector::Int8(signed_bytes(alloc, data)?)),
        FLOAT32 => Ok(Vector::Float32(float32_words(alloc, data)?)),
        _ => Err(Error::Vector {
            message: "a type that no vector has",
        }),
    }
}

fn signed_bytes(alloc: Global, data: &[u8]) -> Result<Vec<i8>>
    ensures ok { IfOk result (λ signed_numbers. map (cast_unsigned w8) signed_numbers.items ≡ data.now) }
    ensures range { IfOk result (λ signed_numbers. AllByRecursion (FitsSigned w8) signed_numbers.items) }
    ensures err { IfErr result IsAllocationError }
{
    match collect_signed_bytes(alloc, data) {
        Ok(signed_numbers) => Ok(signed_numbers),
        Err(_) => Err(Error::OutOfMemory),
    }
}

fn collect_signed_bytes(alloc: Global, data: &[u8]) -> Result<Vec<i8>, AllocError>
    ensures { IfOk result (λ signed_numbers. signed_numbers.items ≡ map (cast_signed w8) data.now) }
{
    data.iter().map(|byte| byte.cast_signed()).collect(alloc)
}

fn float32_words(alloc: Global, data: &[u8]) -> Result<Vec<u32>>
    ensures ok { IfOk result (λ words. u32_le_bytes words.items ≡ data.now) }
    ensures range { IfOk result (λ words. AllByRecursion (λ word. word < 2 ^ 32) words.items) }
    ensures length_multiple_of_4 { OnOk result (length data.now % 4 ≡ 0) }
    ensures err { IfErr result (λ error. IsAllocationError error ⊎ (IsVectorError error × (length data.now % 4 ≢ 0))) }
{
    if data.len() % 4 != 0 {
        return Err(Error::Vector {
            message: "the length of float32 data is no multiple of 4",
        });
    }
    let Ok(mut float32_words) = Vec::with_capacity(alloc, data.len() / 4) else {
        return Err(Error::OutOfMemory);
    };
    let mut remaining_bytes = data;
    'float32_words: while let [
        byte_0,
        byte_1,
        byte_2,
        byte_3,
        bytes_after_word @ ..,
    ] = remaining_bytes
    {
        if float32_words
            .push(u32::from_le_bytes([*byte_0, *byte_1, *byte_2, *byte_3]))
            .is_err()
        {
            return Err(Error::OutOfMemory);
        }
        remaining_bytes = bytes_after_word;
    }
    float32_words_in_range(float32_words.as_slice());
    Ok(float32_words)
}

// Each element is below 256, which its type gives.
pub(crate) fn bytes_are_below_256(bytes: &[u8])
    ensures { IsBytes bytes.now }
{
    let _len = bytes.len();
}

fn float32_words_in_range(items: &[u32])
    ensures { AllByRecursion (λ word. word < 2 ^ 32) items.now }
{
    let _len = items.len();
}

fn int8_bytes(alloc: Global, items: &[i8]) -> Result<Vec<u8>, AllocError>
    ensures bytes { IfOk result (λ bytes. bytes.items ≡ 0x03 ∷ 0 ∷ map (cast_unsigned w8) items.now) }
    ensures readable { OnOk result (is_vector_bytes (0x03 ∷ 0 ∷ map (cast_unsigned w8) items.now) ≡ true) }
    ensures range { OnOk result (IsBytes (map (cast_unsigned w8) items.now)) }
{
    let mut bytes = vector_header(alloc, INT8, 0, items.len())?;
    'items: for item in items {
        bytes.push(item.cast_unsigned())?;
    }
    bytes_are_below_256(bytes.as_slice());
    Ok(bytes)
}

#[tactic(auto, using(crate::proofs::VectorLaws::vector_lemmas))]
fn float32_bytes(alloc: Global, items: &[u32]) -> Result<Vec<u8>, AllocError>
    ensures bytes { IfOk result (λ bytes. bytes.items ≡ 0x27 ∷ 0 ∷ u32_le_bytes items.now) }
    ensures range { OnOk result (AllByRecursion (λ word. word < 2 ^ 32) items.now) }
    ensures readable { OnOk result (is_vector_bytes (0x27 ∷ 0 ∷ u32_le_bytes items.now) ≡ true) }
{
    float32_words_in_range(items);
    let mut bytes = vector_header(alloc, FLOAT32, 0, items.len().saturating_mul(4))?;
    'items: for item in items {
        bytes.extend_from_slice(&item.to_le_bytes())?;
    }
    Ok(bytes)
}

fn packed_bytes_of(alloc: Global, packed: &PackedBitVector) -> Result<Vec<u8>, AllocError>
    ensures bytes { IfOk result (λ bytes. bytes.items ≡ 0x10 ∷ packed_padding packed.now ∷ packed_bytes packed.now) }
    ensures range { OnOk result (IsDataInRange (packed_bits_data packed.now)) }
    ensures readable { OnOk result
        (is_vector_bytes (0x10 ∷ packed_padding packed.now ∷ packed_bytes packed.now) ≡ true) }
{
    let data = packed.as_bytes();
    let mut bytes = vector_header(alloc, PACKED_BIT, packed.padding(), data.len())?;
    bytes.extend_from_slice(data)?;
    Ok(bytes)
}

// The type and the padding, with capacity for the data.
fn vector_header(
    alloc: Global,
    type_byte: u8,
    padding: u8,
    data_len: usize,
) -> Result<Vec<u8>, AllocError>
    ensures { IfOk result (λ bytes. bytes.items ≡ type_byte ∷ padding ∷ []) }
{
    let mut bytes = Vec::with_capacity(alloc, data_len.saturating_add(2))?;
    bytes.push(type_byte)?;
    bytes.push(padding)?;
    Ok(bytes)
}
