//! Binaries: bytes with a subtype (BSON 1.1, type 0x05), their base64 (RFC 4648 section 4), and the
//! UUIDs and vectors that they contain.
ghost use Rattle.std.specs.Prelude.{◌≡◌, ◌≢◌, ◌⊎◌, ◌↔◌, ◌≤◌, ℕ, List, Some, IfErr, IfOk, IsOk};
ghost use Rattle.std.specs.Prelude.{OnOk, length, true, unwrap_or, vec_len};
ghost use Rattle.base64.specs.Engines.{standard};
ghost use Rattle.base64.specs.GeneralPurpose.{encode_of};
ghost use Rattle.bson_types.specs.Base64.{IsBase64, padded_base64};
ghost use Rattle.bson_types.specs.BinaryErrors.{IsDecodingError, IsAllocationError};
ghost use Rattle.bson_types.specs.UuidByteOrder.{bytes_in_uuid_order, subtype_for};
ghost use Rattle.bson_types.specs.VectorData.{IsDataInRange, IsOnlyDataOf, data_in_range, vector_data};
ghost use Rattle.bson_types.specs.VectorBytes.{is_vector_bytes, vector_bytes};
ghost use Rattle.bson_types.specs.declared.binary.Error.TheVariants as binary_error;

pub use crate::packed_bits::PackedBitVector;
use crate::spec::BinarySubtype;
use crate::uuid_value::{self, Uuid, UuidRepresentation};
pub use crate::vector::Vector;
use crate::vector::bytes_are_below_256;
use base64::engine::general_purpose::STANDARD;
use std::alloc::{AllocError, Global};
use std::fmt;

/// Why a string or bytes are not a binary or vector.
///
/// ```
/// if let Err(error) = Binary::from_base64(alloc, "AQI", None) {
///     println!(rt; "{error}")?; // not base64
/// }
/// ```
#[derive(Debug, Drop, thiserror::Error)]
pub enum Error {
    /// The string is not padded base64.
    #[error("{message}")]
    DecodingError {
        /// What is wrong, in words.
        message: &'static str,
    },
    /// The bytes, or the parts, are not those of a vector.
    #[error("{message}")]
    Vector {
        /// What is wrong, in words.
        message: &'static str,
    },
    /// An allocation failed.
    #[error("out of memory")]
    OutOfMemory,
}

/// The result of a call on binaries and vectors.
pub type Result<T, E = Error> = std::result::Result<T, E>;

/// Bytes with a subtype, which says what they are.
///
/// ```
/// let binary = Binary::from_base64(alloc, "AQI=", None)?;
/// println!(rt; "{:?} {:?}", binary.subtype, binary.bytes)?; // Generic [1, 2]
/// ```
#[derive(Debug, Drop, PartialEq, Eq, Hash)]
pub struct Binary {
    /// What the bytes are.
    pub subtype: BinarySubtype,
    /// The bytes.
    pub bytes: Vec<u8>,
}

impl Binary {
    /// Decodes a base64 string (RFC 4648 section 4) with its padding. The bits that the last digit
    /// leaves over must be zeros, and blanks or line ends are not accepted. The default subtype is
    /// Generic.
    ///
    /// # Errors
    ///
    /// - `DecodingError`: the text is not padded base64 of this form.
    /// - `OutOfMemory`: a request for memory was refused.
    pub fn from_base64(alloc: Global, text: &str, subtype: Option<BinarySubtype>) -> Result<Binary>
        ensures subtype { IfOk result (λ binary. binary.subtype ≡ unwrap_or subtype BinarySubtype.Generic) }
        ensures ok { IfOk result (λ binary. IsBase64 text.now binary.bytes.items) }

        // A string that is base64 is not rejected.
        ensures err { IfErr result (λ error. IsAllocationError error
            ⊎ (IsDecodingError error × ((bytes : List ℕ) → ¬ (IsBase64 text.now bytes)))) }
    {
        let input = text.as_bytes();
        bytes_are_below_256(input);
        let decoded_capacity = input.len() / 4 * 3 + 3;
        let mut bytes = vec![in alloc; 0u8; decoded_capacity]?;
        match STANDARD.decode_slice_unchecked(input, bytes.as_mut_slice()) {
            Ok(len) => {
                bytes.truncate(len);
                Ok(Binary {
                    subtype: subtype.unwrap_or(BinarySubtype::Generic),
                    bytes,
                })
            }
            Err(_) => Err(Error::DecodingError {
                message: "not base64",
            }),
        }
    }

    /// Makes the binary of a UUID, in the standard representation.
    ///
    /// # Errors
    ///
    /// Returns `AllocError` if a request for memory is refused.
    pub fn from_uuid(alloc: Global, id: Uuid) -> Result<Binary, AllocError>
        ensures subtype { IfOk result (λ binary. binary.subtype ≡ BinarySubtype.Uuid) }
        ensures bytes { IfOk result (λ binary. binary.bytes.items ≡ id) }
        ensures length { IfOk result (λ binary. vec_len binary.bytes ≡ 16) }
    {
        let bytes = id.bytes();
        Ok(Binary {
            subtype: BinarySubtype::Uuid,
            bytes: Vec::from_slice(alloc, &bytes)?,
        })
    }

    /// Makes the binary of a UUID in a representation: its subtype, and the bytes in its order.
    /// `to_uuid_with_representation` reads the UUID back.
    ///
    /// # Errors
    ///
    /// Returns `AllocError` if a request for memory is refused.
    #[tactic(auto, using(crate::proofs::OrderLemmas::ordered_twice))]
    pub fn from_uuid_with_representation(
        alloc: Global,
        id: Uuid,
        representation: UuidRepresentation,
    ) -> Result<Binary, AllocError>
        ensures subtype { IfOk result (λ binary. binary.subtype ≡ subtype_for representation) }
        ensures bytes { IfOk result (λ binary. binary.bytes.items ≡ bytes_in_uuid_order representation id) }

        // Reading the UUID back needs this length, and returns the same UUID.
        ensures length { IfOk result (λ binary. vec_len binary.bytes ≡ 16) }
        ensures reorders_back { IfOk result (λ binary. bytes_in_uuid_order representation binary.bytes.items ≡ id) }
    {
        let bytes = reorder_uuid_bytes(&id.bytes(), representation);
        Ok(Binary {
            subtype: uuid_subtype_of(representation),
            bytes: Vec::from_slice(alloc, &bytes)?,
        })
    }

    /// Makes the binary of a vector: its bytes, with the subtype Vector. `Vector::from_binary`
    /// reads the vector back.
    ///
    /// # Errors
    ///
    /// Returns `AllocError` if a request for memory is refused.
    pub fn from_vector(alloc: Global, vector: &Vector) -> Result<Binary, AllocError>
        ensures subtype { IfOk result (λ binary. binary.subtype ≡ BinarySubtype.Vector) }
        ensures bytes { IfOk result (λ binary. binary.bytes.items ≡ vector_bytes vector.now) }

        // Reading the vector back accepts these bytes, and returns the same vector.
        ensures readable { IfOk result (λ binary. is_vector_bytes binary.bytes.items ≡ true) }
        ensures only_vector { IfOk result (λ binary. IsDataInRange (vector_data vector.now)
            → IsOnlyDataOf binary.bytes.items (vector_data vector.now)) }

        // The same for any vector. `data_in_range` differs from `vector_data` only for a number that a
        // clause assumes to be outside the range of 8 bits.
        ensures within_type_range { OnOk result (IsDataInRange (data_in_range vector.now)) }
        ensures only_in_range { IfOk result (λ binary. IsOnlyDataOf binary.bytes.items (data_in_range vector.now)) }
    {
        let bytes = vector.to_bytes(alloc)?;
        bytes_are_below_256(bytes.as_slice());
        Ok(Binary {
            subtype: BinarySubtype::Vector,
            bytes,
        })
    }

    /// Returns a copy of the binary, in memory of its own.
    ///
    /// # Errors
    ///
    /// Returns `AllocError` if a request for memory is refused.
    pub fn clone(&self, alloc: Global) -> Result<Binary, AllocError>
        ensures subtype { IfOk result (λ binary. binary.subtype ≡ self.now.subtype) }
        ensures bytes { IfOk result (λ binary. binary.bytes.items ≡ self.now.bytes.items) }
    {
        Ok(Binary {
            subtype: self.subtype,
            bytes: Vec::from_slice(alloc, self.bytes.as_slice())?,
        })
    }
}

impl Binary {
    ghost use Rattle.bson_types.specs.UuidByteOrder.{IsInvalidLength, IsRepresentationMismatch};

    /// Returns the UUID of a binary in the standard representation, as
    /// `to_uuid_with_representation` reads it.
    ///
    /// # Errors
    ///
    /// - `RepresentationMismatch`: the subtype is not `Uuid`.
    /// - `InvalidLength`: the subtype is `Uuid`, and the number of bytes is not 16.
    pub fn to_uuid(&self) -> uuid_value::Result<Uuid>
        ensures ok { IfOk result (λ id. id ≡ self.now.bytes.items) }
        ensures succeeds { IsOk result ↔ ((self.now.subtype ≡ BinarySubtype.Uuid) × (vec_len self.now.bytes ≡ 16)) }
        ensures mismatch { self.now.subtype ≢ BinarySubtype.Uuid
            → IfErr result (IsRepresentationMismatch BinarySubtype.Uuid self.now.subtype UuidRepresentation.Standard) }
        ensures length { self.now.subtype ≡ BinarySubtype.Uuid
            → IfErr result (IsInvalidLength (vec_len self.now.bytes)) }
    {
        self.to_uuid_with_representation(UuidRepresentation::Standard)
    }

    /// Returns the UUID of a binary in a representation. Subtypes are compared as values:
    /// `UserDefined(4)` is not `Uuid`.
    ///
    /// # Errors
    ///
    /// - `RepresentationMismatch`: the subtype is not that of the representation.
    /// - `InvalidLength`: the subtype is right, and the number of bytes is not 16.
    pub fn to_uuid_with_representation(
        &self,
        representation: UuidRepresentation,
    ) -> uuid_value::Result<Uuid>
        ensures ok { IfOk result (λ id. id ≡ bytes_in_uuid_order representation self.now.bytes.items) }
        ensures succeeds { IsOk result ↔ ((self.now.subtype ≡ subtype_for representation)
            × (vec_len self.now.bytes ≡ 16)) }
        ensures mismatch { self.now.subtype ≢ subtype_for representation
            → IfErr result (IsRepresentationMismatch (subtype_for representation) self.now.subtype representation) }
        ensures length { self.now.subtype ≡ subtype_for representation
            → IfErr result (IsInvalidLength (vec_len self.now.bytes)) }
    {
        let expected = uuid_subtype_of(representation);
        if self.subtype != expected {
            return Err(uuid_value::Error::RepresentationMismatch {
                expected_binary_subtype: expected,
                actual_binary_subtype: self.subtype,
                requested_representation: representation,
            });
        }
        match <[u8; 16]>::try_from(self.bytes.as_slice()) {
            Ok(bytes) => Ok(Uuid::from_bytes(reorder_uuid_bytes(&bytes, representation))),
            Err(_) => Err(uuid_value::Error::InvalidLength {
                length: self.bytes.len(),
            }),
        }
    }
}

fn uuid_subtype_of(representation: UuidRepresentation) -> BinarySubtype
    ensures { result ≡ subtype_for representation }
{
    match representation {
        UuidRepresentation::Standard => BinarySubtype::Uuid,
        _ => BinarySubtype::UuidOld,
    }
}

fn reorder_uuid_bytes(bytes: &[u8; 16], representation: UuidRepresentation) -> [u8; 16]
    ensures { result ≡ bytes_in_uuid_order representation bytes.now }
{
    match representation {
        UuidRepresentation::Standard | UuidRepresentation::PythonLegacy => [
            bytes[0], bytes[1], bytes[2], bytes[3], bytes[4], bytes[5], bytes[6], bytes[7],
            bytes[8], bytes[9], bytes[10], bytes[11], bytes[12], bytes[13], bytes[14], bytes[15],
        ],
        UuidRepresentation::CSharpLegacy => [
            bytes[3], bytes[2], bytes[1], bytes[0], bytes[5], bytes[4], bytes[7], bytes[6],
            bytes[8], bytes[9], bytes[10], bytes[11], bytes[12], bytes[13], bytes[14], bytes[15],
        ],
        UuidRepresentation::JavaLegacy => [
            bytes[7], bytes[6], bytes[5], bytes[4], bytes[3], bytes[2], bytes[1], bytes[0],
            bytes[15], bytes[14], bytes[13], bytes[12], bytes[11], bytes[10], bytes[9], bytes[8],
        ],
    }
}

impl fmt::Display for Binary {
    ghost use Rattle.bson_types.specs.BinaryText.{binary_text};

    ghost output = { λ binary. Some (binary_text binary) };

    fn fmt<W: fmt::Write>(&self, formatter: &mut fmt::Formatter<W>) -> fmt::Result {
        let byte = u8::from(self.subtype);
        let text = Base64 {
            bytes: self.bytes.as_slice(),
        };
        write!(formatter, "Binary(0x{byte:x}, {text})")
    }
}

// The base64 of bytes, written in groups of three, without an allocation.
#[derive(Clone, Copy)]
struct Base64<'a> {
    bytes: &'a [u8],
}

impl fmt::Display for Base64<'_> {
    ghost output = { λ base64_bytes. Some (padded_base64 base64_bytes.bytes.now) };

    fn fmt<W: fmt::Write>(&self, formatter: &mut fmt::Formatter<W>) -> fmt::Result {
        let mut remaining_bytes = self.bytes;
        'groups: while remaining_bytes.len() > 3 {
            let (group, bytes_after_group) = remaining_bytes.split_at(3);
            let mut group_digits = [0u8; 4];
            formatter.write_str(base64_group_text(group, &mut group_digits))?;
            remaining_bytes = bytes_after_group;
        }
        let mut group_digits = [0u8; 4];
        formatter.write_str(base64_group_text(remaining_bytes, &mut group_digits))
    }
}

fn base64_group_text<'o>(bytes: &[u8], group_digits: &'o mut [u8; 4]) -> &'o str
    requires { length bytes.now ≤ 3 }
    ensures { result.now ≡ padded_base64 bytes.now }
{
    match str::from_utf8(base64_group_bytes(bytes, group_digits)) {
        Ok(text) => text,
        Err(_) => unreachable!(),
    }
}

// The base64 of at most three bytes, on the stack, as the engine writes it.
fn base64_group_bytes<'o>(bytes: &[u8], group_digits: &'o mut [u8; 4]) -> &'o [u8]
    requires { length bytes.now ≤ 3 }
    ensures { result.now ≡ encode_of standard bytes.now }
{
    match STANDARD.encode_slice(bytes, group_digits) {
        Ok(len) => &group_digits[..len],
        Err(_) => unreachable!(),
    }
}

impl From<AllocError> for Error {
    ghost from_gives = { λ _ error. error ≡ binary_error.OutOfMemory };

    fn from(_refused: AllocError) -> Error {
        Error::OutOfMemory
    }
}
