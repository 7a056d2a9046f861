//! Object ids (BSON 1.1, type 0x07), and their strings of 24 hexadecimal digits.
ghost use Rattle.std.specs.Prelude.{◌≡◌, ◌++◌, ℕ, List, Ok, Some, IfOk, IfErr, IfSome, length, not};
ghost use Rattle.std.specs.Prelude.{string_bytes};
ghost use Rattle.std.specs.Cmp.Lexicographic.{nat_list_cmp_total, slice_cmp, texts_po, texts_ties};
ghost use Rattle.std.specs.Int.{w32, to_be_bytes};
ghost use Rattle.std.specs.Ordering.{nat_cmp};
ghost use Rattle.std.proofs.Common.{refl};
ghost use Rattle.bson_types.specs.ObjectIds.{IsObjectId, IsOidText, BadLength, first_non_digit, encode_lower};
ghost use Rattle.bson_types.specs.ObjectIds.{oid_fault_at, is_hex_digit, oid_fault, oid_millis};
ghost use Rattle.hex.specs.Hex.{hex_digit_value};
ghost use Rattle.bson_types.specs.HexText.{below_16, byte_of_hex_digits};
ghost use Rattle.bson_types.specs.ObjectIdErrors.{IsOidError};
ghost use Rattle.bson_types.specs.declared.oid.Error.TheVariants as oid_error;

use bson_datetime::DateTime;
use std::alloc::{AllocError, Global};
use std::cmp::Ordering;
use std::fmt;
use std::marker::Model;

/// Why a string is not an object id. `hex` is a copy of the string.
///
/// ```
/// if let Err(error) = ObjectId::parse_str(alloc, "53e3") {
///     println!(rt; "{error}")?; // an object id has 24 digits, but "53e3" has 4
/// }
/// ```
#[derive(Debug, Drop, thiserror::Error)]
pub enum Error {
    /// The first byte that is not a hexadecimal digit: the character with this code, and its offset
    /// in bytes from 0.
    #[error("the character '{c}' at {index} in \"{hex}\" is no hexadecimal digit")]
    InvalidHexStringCharacter {
        /// The character whose code is the byte.
        c: char,
        /// The offset of the byte, from 0.
        index: usize,
        /// A copy of the text.
        hex: String,
    },
    /// A number of bytes other than 24.
    #[error("an object id has 24 digits, but \"{hex}\" has {length}")]
    InvalidHexStringLength {
        /// The number of bytes of the text.
        length: usize,
        /// A copy of the text.
        hex: String,
    },
    /// The allocation of the copy failed.
    #[error("out of memory")]
    OutOfMemory,
}

/// The result of a call on object ids.
pub type Result<T, E = Error> = std::result::Result<T, E>;

/// An object id of 12 bytes: 4 of seconds since 1970-01-01T00:00:00Z, 5 of process id and 3 of a
/// counter, each big-endian.
///
/// Ids are ordered by seconds, then by process id, then by counter, as unsigned numbers.
///
/// ```
/// let id = ObjectId::parse_str(alloc, "53e37d08776f724e42000000")?;
/// println!(rt; "{id}")?; // 53e37d08776f724e42000000
/// ```
#[derive(Clone, Copy, Debug, PartialEq, Eq, Hash)]
pub struct ObjectId {
    bytes: [u8; 12],
}

impl Model for ObjectId {
    ghost Value = { List ℕ };

    ghost view = { λ id. id.bytes };

    ghost inverse = { λ id_bytes. record { bytes = id_bytes } };
}

impl ObjectId {
    /// Makes the id with these bytes.
    pub fn from_bytes(bytes: [u8; 12]) -> ObjectId
        ensures { result ≡ bytes }
    {
        ObjectId { bytes }
    }

    /// Makes the id of these seconds since 1970-01-01T00:00:00Z, process id and counter.
    pub fn from_parts(seconds: u32, process_id: [u8; 5], counter: [u8; 3]) -> ObjectId
        ensures { result ≡ to_be_bytes w32 seconds ++ process_id ++ counter }
    {
        ObjectId {
            bytes: concat_parts(&seconds.to_be_bytes(), &process_id, &counter),
        }
    }

    /// Reads 24 hexadecimal digits of either case. A valid text needs no memory.
    ///
    /// # Errors
    ///
    /// Returns the first of these errors that applies, with a copy of the text:
    ///
    /// - `InvalidHexStringLength`: the number of bytes is odd.
    /// - `InvalidHexStringCharacter`: a byte is not a hexadecimal digit.
    /// - `InvalidHexStringLength`: the number of bytes is not 24.
    ///
    /// Returns `OutOfMemory` instead if the request for memory for the copy is refused.
    pub fn parse_str(alloc: Global, text: &str) -> Result<ObjectId>
        ensures ok { IfOk result (λ id. IsOidText text.now id) }
        ensures valid { (id : List ℕ) → IsOidText text.now id → result ≡ Ok id }

        // A string that is an object id is not rejected, so the string has an error.
        ensures err { IfErr result (λ error. IsOidError text.now error) }
    {
        if text.len() % 2 != 0 {
            return Err(length_error(alloc, text));
        }
        match parse_id_bytes(text.as_bytes()) {
            Some(bytes) => Ok(ObjectId::from_bytes(bytes)),
            None => Err(digit_error(alloc, text)),
        }
    }

    /// Returns the date-time of the id's seconds.
    pub fn timestamp(&self) -> DateTime
        ensures { result ≡ oid_millis self.now }
    {
        let [byte_0, byte_1, byte_2, byte_3, ..] = self.bytes;
        let seconds = u32::from_be_bytes([byte_0, byte_1, byte_2, byte_3]);
        DateTime::from_millis(seconds as i64 * 1000)
    }

    /// Returns the 12 bytes.
    pub fn bytes(&self) -> [u8; 12]
        ensures value { result ≡ self.now }
        ensures within_type_range { IsObjectId self.now }
    {
        with_byte_bounds(self.bytes)
    }

    /// Writes the 24 lower-case hexadecimal digits, as `Display` writes them.
    ///
    /// # Errors
    ///
    /// Returns `AllocError` if a request for memory is refused.
    pub fn to_hex(&self, alloc: Global) -> Result<String, AllocError>
        ensures { IfOk result (λ text. string_bytes text ≡ encode_lower self.now) }
    {
        hex::encode(alloc, self.bytes.as_slice())
    }
}

impl From<[u8; 12]> for ObjectId {
    ghost from_gives = { λ bytes id. id ≡ bytes };

    fn from(bytes: [u8; 12]) -> ObjectId {
        ObjectId::from_bytes(bytes)
    }
}

impl Ord for ObjectId {
    ghost use Rattle.bson_types.specs.ObjectIds.{object_id_order};

    ghost cmp = { slice_cmp nat_cmp };

    ghost total = { nat_list_cmp_total };

    ghost matches_partial_cmp = { λ id other_id. refl };

    ghost matches_eq = { texts_ties };

    fn cmp(&self, other: &ObjectId) -> Ordering
        ensures bytes { result ≡ slice_cmp nat_cmp self.now other.now }
        ensures numbers { result ≡ object_id_order self.now other.now }
    {
        self.bytes().cmp(&other.bytes())
    }
}

impl PartialOrd for ObjectId {
    ghost partial_cmp = { λ id other_id. Some (slice_cmp nat_cmp id other_id) };

    ghost laws = { texts_po };

    fn partial_cmp(&self, other: &ObjectId) -> Option<Ordering> {
        Some(self.cmp(other))
    }
}

impl fmt::Display for ObjectId {
    ghost output = { λ id. Some (encode_lower id) };

    fn fmt<W: fmt::Write>(&self, formatter: &mut fmt::Formatter<W>) -> fmt::Result {
        let digits = hex_digits_of(self);
        match str::from_utf8(&digits) {
            Ok(text) => formatter.write_str(text),
            Err(_) => unreachable!(),
        }
    }
}

// The value of each byte that is a hexadecimal digit, of either case, and 255 for the others.
const HEX_DIGIT_VALUES: [u8; 256] = [
    255, 255, 255, 255, 255, 255, 255, 255, 255, 255, 255, 255, 255, 255, 255, 255, 255, 255, 255,
    255, 255, 255, 255, 255, 255, 255, 255, 255, 255, 255, 255, 255, 255, 255, 255, 255, 255, 255,
    255, 255, 255, 255, 255, 255, 255, 255, 255, 255, 0, 1, 2, 3, 4, 5, 6, 7, 8, 9, 255, 255, 255,
    255, 255, 255, 255, 10, 11, 12, 13, 14, 15, 255, 255, 255, 255, 255, 255, 255, 255, 255, 255,
    255, 255, 255, 255, 255, 255, 255, 255, 255, 255, 255, 255, 255, 255, 255, 255, 10, 11, 12, 13,
    14, 15, 255, 255, 255, 255, 255, 255, 255, 255, 255, 255, 255, 255, 255, 255, 255, 255, 255,
    255, 255, 255, 255, 255, 255, 255, 255, 255, 255, 255, 255, 255, 255, 255, 255, 255, 255, 255,
    255, 255, 255, 255, 255, 255, 255, 255, 255, 255, 255, 255, 255, 255, 255, 255, 255, 255, 255,
    255, 255, 255, 255, 255, 255, 255, 255, 255, 255, 255, 255, 255, 255, 255, 255, 255, 255, 255,
    255, 255, 255, 255, 255, 255, 255, 255, 255, 255, 255, 255, 255, 255, 255, 255, 255, 255, 255,
    255, 255, 255, 255, 255, 255, 255, 255, 255, 255, 255, 255, 255, 255, 255, 255, 255, 255, 255,
    255, 255, 255, 255, 255, 255, 255, 255, 255, 255, 255, 255, 255, 255, 255, 255, 255, 255, 255,
    255, 255, 255, 255, 255, 255, 255, 255, 255, 255, 255, 255, 255, 255, 255, 255, 255, 255, 255,
    255, 255, 255,
];

// The value of a digit, or 255.
fn digit_value(byte: u8) -> u8
    ensures { below_16 result ≡ hex_digit_value byte }
{
    HEX_DIGIT_VALUES[byte as usize]
}

// The byte of two hexadecimal digits.
fn byte_of_digit_pair(high: u8, low: u8) -> Option<u8>
    ensures { result ≡ byte_of_hex_digits (hex_digit_value high) (hex_digit_value low) }
{
    let high = digit_value(high);
    let low = digit_value(low);
    if high >= 16 || low >= 16 {
        return None;
    }
    Some(high * 16 + low)
}

// The bytes of a string, if it is 24 hexadecimal digits.
fn parse_id_bytes(text: &[u8]) -> Option<[u8; 12]>
    ensures some { IfSome result (λ id. IsOidText text.now id) }
    ensures every_valid { (id : List ℕ) → IsOidText text.now id → result ≡ Some id }
{
    if text.len() != 24 {
        return None;
    }
    let mut bytes = [0u8; 12];
    'bytes: for byte_index in 0..12 {
        bytes[byte_index] = byte_of_digit_pair(text[2 * byte_index], text[2 * byte_index + 1])?;
    }
    Some(bytes)
}

// Returns the bytes, with the fact that each is below 256.
fn with_byte_bounds(bytes: [u8; 12]) -> [u8; 12]
    ensures same_bytes { result ≡ bytes }
    ensures within_type_range { IsObjectId bytes }
{
    bytes
}

fn length_error(alloc: Global, text: &str) -> Error
    requires { oid_fault text.now ≡ BadLength (length text.now) }
    ensures { IsOidError text.now result }
{
    match String::from_str(alloc, text) {
        Ok(hex) => Error::InvalidHexStringLength {
            length: text.len(),
            hex,
        },
        Err(_) => Error::OutOfMemory,
    }
}

// The error of a string with an even number of bytes.
fn digit_error(alloc: Global, text: &str) -> Error
    requires { oid_fault text.now ≡ oid_fault_at text.now (first_non_digit text.now) }
    ensures { IsOidError text.now result }
{
    let bytes = text.as_bytes();
    let Some(index) = find_non_digit(bytes) else {
        return length_error(alloc, text);
    };
    match String::from_str(alloc, text) {
        Ok(hex) => Error::InvalidHexStringCharacter {
            c: char::from(bytes[index]),
            index,
            hex,
        },
        Err(_) => Error::OutOfMemory,
    }
}

// The offset of the first byte that is not a digit.
fn find_non_digit(bytes: &[u8]) -> Option<usize>
    ensures { result ≡ first_non_digit bytes.now }
{
    bytes.iter().position(|byte| is_not_hex_digit(*byte))
}

fn is_not_hex_digit(byte: u8) -> bool
    ensures { result ≡ not (is_hex_digit byte) }
{
    !matches!(byte, b'0'..=b'9' | b'a'..=b'f' | b'A'..=b'F')
}

// The three parts, concatenated.
fn concat_parts(seconds: &[u8], process_id: &[u8], counter: &[u8]) -> [u8; 12]
    requires seconds_len { length seconds.now ≡ 4 }
    requires process_id_len { length process_id.now ≡ 5 }
    requires counter_len { length counter.now ≡ 3 }
    ensures { result ≡ seconds.now ++ process_id.now ++ counter.now }
{
    [
        seconds[0],
        seconds[1],
        seconds[2],
        seconds[3],
        process_id[0],
        process_id[1],
        process_id[2],
        process_id[3],
        process_id[4],
        counter[0],
        counter[1],
        counter[2],
    ]
}

// The 24 digits of the bytes, on the stack.
fn hex_digits_of(id: &ObjectId) -> [u8; 24]
    ensures { result ≡ encode_lower id.now }
{
    let mut digits = [0u8; 24];
    let bytes = id.bytes;
    match hex::encode_to_slice(bytes.as_slice(), &mut digits) {
        Ok(()) => digits,
        Err(_) => unreachable!(),
    }
}

impl From<AllocError> for Error {
    ghost from_gives = { λ _ error. error ≡ oid_error.OutOfMemory };

    fn from(_refused: AllocError) -> Error {
        Error::OutOfMemory
    }
}
