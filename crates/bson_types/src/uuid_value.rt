//! UUIDs and their strings (RFC 9562): the module `uuid` of the library.
ghost use Rattle.std.specs.Prelude.{◌≡◌, ℕ, List, Ok, Some, IfOk, IfErr};
ghost use Rattle.bson_types.specs.Uuid.{IsUuid, IsUuidText, hyphenated_text};

use crate::spec::BinarySubtype;
use std::fmt;
use std::marker::Model;

/// Why a string or a binary is not a UUID.
///
/// ```
/// if let Err(error) = Uuid::parse_str("0011") {
///     println!(rt; "{error}")?; // not the text of a UUID
/// }
/// ```
#[derive(Debug, Drop, thiserror::Error)]
pub enum Error {
    /// The string is not a UUID.
    #[error("{message}")]
    InvalidUuidString {
        /// What is wrong, in words.
        message: &'static str,
    },
    /// The binary has another subtype than the requested representation is stored with.
    #[error("the subtype {actual_binary_subtype:?} is not {expected_binary_subtype:?}, which {requested_representation:?} \
         has")]
    RepresentationMismatch {
        /// The subtype that the representation is stored with.
        expected_binary_subtype: BinarySubtype,
        /// The subtype of the binary.
        actual_binary_subtype: BinarySubtype,
        /// The representation that was asked for.
        requested_representation: UuidRepresentation,
    },
    /// The binary has another number of bytes than 16.
    #[error("a UUID has 16 bytes, not {length}")]
    InvalidLength {
        /// The number of its bytes.
        length: usize,
    },
}

/// The result of a call on UUIDs.
pub type Result<T> = std::result::Result<T, Error>;

/// The byte order of a UUID in a binary. Drivers wrote subtype 0x03 in orders of their own before
/// subtype 0x04 settled on the order of the string.
///
/// ```
/// if let Ok(id) = Uuid::parse_str("00112233-4455-6677-8899-aabbccddeeff") {
///     let order = UuidRepresentation::CSharpLegacy;
///     let binary = Binary::from_uuid_with_representation(alloc, id, order)?;
///     println!(rt; "{binary}")?; // Binary(0x3, MyIRAFVEd2aImaq7zN3u/w==)
/// }
/// ```
#[derive(Clone, Copy, Debug, PartialEq, Eq)]
pub enum UuidRepresentation {
    /// Subtype 0x04, the bytes as they are.
    Standard,
    /// Subtype 0x03 of the C# driver: bytes 0 to 3, 4 to 5 and 6 to 7 each reversed.
    CSharpLegacy,
    /// Subtype 0x03 of the Java driver: bytes 0 to 7 and 8 to 15 each reversed.
    JavaLegacy,
    /// Subtype 0x03 of the Python driver: the bytes as they are.
    PythonLegacy,
}

/// A UUID of 16 bytes, in the order of its string.
///
/// ```
/// if let Ok(id) = Uuid::parse_str("00112233-4455-6677-8899-aabbccddeeff") {
///     println!(rt; "{id}")?; // 00112233-4455-6677-8899-aabbccddeeff
/// }
/// ```
#[derive(Clone, Copy, Debug, PartialEq, Eq, PartialOrd, Ord, Hash)]
pub struct Uuid {
    bytes: [u8; 16],
}

impl Model for Uuid {
    ghost Value = { List ℕ };

    ghost view = { λ id. id.bytes };

    ghost inverse = { λ id_bytes. record { bytes = id_bytes } };
}

impl Uuid {
    ghost use Rattle.bson_types.specs.UuidByteOrder.{IsInvalidUuidString};

    /// Makes the UUID with these bytes.
    pub fn from_bytes(bytes: [u8; 16]) -> Uuid
        ensures { result ≡ bytes }
    {
        Uuid { bytes }
    }

    /// Reads 32 hexadecimal digits of either case (RFC 9562 section 4). They are alone, hyphenated
    /// as 8-4-4-4-12, or hyphenated in braces or after `urn:uuid:`. The letters of `urn:uuid:` may
    /// be of either case too (RFC 8141 section 3.1).
    ///
    /// # Errors
    ///
    /// - `InvalidUuidString`: the text has none of these forms.
    pub fn parse_str(text: &str) -> Result<Uuid>
        ensures ok { IfOk result (λ id. IsUuidText text.now id) }
        ensures valid { (id : List ℕ) → IsUuidText text.now id → result ≡ Ok id }
        ensures err { IfErr result IsInvalidUuidString }
    {
        match uuid::Uuid::parse_str(text) {
            Ok(id) => Ok(Uuid {
                bytes: *id.as_bytes(),
            }),
            Err(_) => Err(Error::InvalidUuidString {
                message: "not the text of a UUID",
            }),
        }
    }

    /// Returns the 16 bytes.
    pub fn bytes(&self) -> [u8; 16]
        ensures value { result ≡ self.now }
        ensures within_type_range { IsUuid self.now }
    {
        with_byte_bounds(self.bytes)
    }
}

// Returns the bytes, with the fact that each is below 256.
fn with_byte_bounds(bytes: [u8; 16]) -> [u8; 16]
    ensures same_bytes { result ≡ bytes }
    ensures within_type_range { IsUuid bytes }
{
    bytes
}

impl fmt::Display for Uuid {
    ghost output = { λ id. Some (hyphenated_text id) };

    fn fmt<W: fmt::Write>(&self, formatter: &mut fmt::Formatter<W>) -> fmt::Result {
        fmt::Display::fmt(&uuid::Uuid::from_bytes(self.bytes()), formatter)
    }
}
