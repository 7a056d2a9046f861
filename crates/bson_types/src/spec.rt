//! The tags of elements and the subtypes of binaries (BSON 1.1).
ghost use Rattle.std.specs.Prelude.{◌≡◌, ◌↔◌, Some};
ghost use Rattle.std.proofs.Common.{rules};
ghost use Rattle.std.specs.Cmp.Rules.{comparing, hashing};
ghost use Rattle.std.specs.Hash as hash_writes;

use std::fmt;
use std::hash::{Hash, Hasher};

/// The type of an element, which its tag names.
///
/// ```
/// println!(rt; "{:?}", ElementType::from(0x10))?; // Some(Int32)
/// println!(rt; "{}", ElementType::MinKey.tag())?; // 255
/// ```
#[derive(Clone, Copy, Debug, PartialEq, Eq)]
pub enum ElementType {
    /// Tag 0x01: 64 bits of a binary floating point number.
    Double,
    /// Tag 0x02: a string of UTF-8.
    String,
    /// Tag 0x03: a document inside another.
    EmbeddedDocument,
    /// Tag 0x04: an array of values.
    Array,
    /// Tag 0x05: bytes with a subtype.
    Binary,
    /// Tag 0x06, deprecated: the undefined value of JavaScript.
    Undefined,
    /// Tag 0x07: an object id of 12 bytes.
    ObjectId,
    /// Tag 0x08: true or false.
    Boolean,
    /// Tag 0x09: milliseconds since 1970-01-01T00:00:00Z.
    DateTime,
    /// Tag 0x0A: no value.
    Null,
    /// Tag 0x0B: a regular expression with its options.
    RegularExpression,
    /// Tag 0x0C, deprecated: a pointer into a collection.
    DbPointer,
    /// Tag 0x0D: JavaScript code.
    JavaScriptCode,
    /// Tag 0x0E, deprecated: a symbol.
    Symbol,
    /// Tag 0x0F, deprecated: JavaScript code with its scope.
    JavaScriptCodeWithScope,
    /// Tag 0x10: an integer of 32 bits.
    Int32,
    /// Tag 0x11: a timestamp of MongoDB's own use.
    Timestamp,
    /// Tag 0x12: an integer of 64 bits.
    Int64,
    /// Tag 0x13: a decimal of 128 bits.
    Decimal128,
    /// Tag 0x7F: above every other value.
    MaxKey,
    /// Tag 0xFF: below every other value.
    MinKey,
}

impl ElementType {
    ghost use Rattle.bson_types.specs.ElementTags.{tag_of};

    /// Returns the type whose tag is the byte, or `None` if the byte is not a tag.
    pub fn from(tag: u8) -> Option<ElementType>
        ensures { (element_type : ElementType) → (result ≡ Some element_type) ↔ (tag_of element_type ≡ tag) }
    {
        Some(match tag {
            0x01 => ElementType::Double,
            0x02 => ElementType::String,
            0x03 => ElementType::EmbeddedDocument,
            0x04 => ElementType::Array,
            0x05 => ElementType::Binary,
            0x06 => ElementType::Undefined,
            0x07 => ElementType::ObjectId,
            0x08 => ElementType::Boolean,
            0x09 => ElementType::DateTime,
            0x0A => ElementType::Null,
            0x0B => ElementType::RegularExpression,
            0x0C => ElementType::DbPointer,
            0x0D => ElementType::JavaScriptCode,
            0x0E => ElementType::Symbol,
            0x0F => ElementType::JavaScriptCodeWithScope,
            0x10 => ElementType::Int32,
            0x11 => ElementType::Timestamp,
            0x12 => ElementType::Int64,
            0x13 => ElementType::Decimal128,
            0x7F => ElementType::MaxKey,
            0xFF => ElementType::MinKey,
            _ => return None,
        })
    }

    /// Returns the tag of the type.
    pub fn tag(&self) -> u8
        ensures { result ≡ tag_of self.now }
    {
        match self {
            ElementType::Double => 0x01,
            ElementType::String => 0x02,
            ElementType::EmbeddedDocument => 0x03,
            ElementType::Array => 0x04,
            ElementType::Binary => 0x05,
            ElementType::Undefined => 0x06,
            ElementType::ObjectId => 0x07,
            ElementType::Boolean => 0x08,
            ElementType::DateTime => 0x09,
            ElementType::Null => 0x0A,
            ElementType::RegularExpression => 0x0B,
            ElementType::DbPointer => 0x0C,
            ElementType::JavaScriptCode => 0x0D,
            ElementType::Symbol => 0x0E,
            ElementType::JavaScriptCodeWithScope => 0x0F,
            ElementType::Int32 => 0x10,
            ElementType::Timestamp => 0x11,
            ElementType::Int64 => 0x12,
            ElementType::Decimal128 => 0x13,
            ElementType::MaxKey => 0x7F,
            ElementType::MinKey => 0xFF,
        }
    }
}

/// What the bytes of a binary are.
///
/// Each byte is read as one subtype, which is written as the same byte. `Reserved` and `UserDefined`
/// can be built with any byte, and are written as this byte, but it is read as its own subtype:
/// `UserDefined(0)` is written as 0x00, which is read as `Generic`. Hashing uses the byte.
///
/// ```
/// let subtype = BinarySubtype::from(0x80);
/// println!(rt; "{subtype:?} {subtype:x}")?; // UserDefined(128) 80
/// ```
#[derive(Clone, Copy, Debug, PartialEq, Eq)]
pub enum BinarySubtype {
    /// 0x00: any bytes.
    Generic,
    /// 0x01: a function.
    Function,
    /// 0x02, deprecated: the old form of `Generic`.
    BinaryOld,
    /// 0x03, deprecated: a UUID in a byte order of its driver's own.
    UuidOld,
    /// 0x04: a UUID.
    Uuid,
    /// 0x05: an MD5 hash.
    Md5,
    /// 0x06: an encrypted value.
    Encrypted,
    /// 0x07: a compressed column.
    Column,
    /// 0x08: a value that is not to be logged.
    Sensitive,
    /// 0x09: a vector of numbers or bits.
    Vector,
    /// Every other byte below 0x80, kept for later versions of BSON.
    Reserved(u8),
    /// A byte of 0x80 and above, for users.
    UserDefined(u8),
}

impl From<u8> for BinarySubtype {
    ghost use Rattle.bson_types.specs.BinarySubtypes.{subtype_byte, subtype_of};

    ghost from_gives = { λ byte subtype. (subtype ≡ subtype_of byte) × (subtype_byte subtype ≡ byte) };

    fn from(byte: u8) -> BinarySubtype {
        match byte {
            0x00 => BinarySubtype::Generic,
            0x01 => BinarySubtype::Function,
            0x02 => BinarySubtype::BinaryOld,
            0x03 => BinarySubtype::UuidOld,
            0x04 => BinarySubtype::Uuid,
            0x05 => BinarySubtype::Md5,
            0x06 => BinarySubtype::Encrypted,
            0x07 => BinarySubtype::Column,
            0x08 => BinarySubtype::Sensitive,
            0x09 => BinarySubtype::Vector,
            0x0A..0x80 => BinarySubtype::Reserved(byte),
            _ => BinarySubtype::UserDefined(byte),
        }
    }
}

impl From<BinarySubtype> for u8 {
    ghost use Rattle.bson_types.specs.BinarySubtypes.{subtype_byte};

    ghost from_gives = { λ subtype byte. byte ≡ subtype_byte subtype };

    fn from(subtype: BinarySubtype) -> u8 {
        match subtype {
            BinarySubtype::Generic => 0x00,
            BinarySubtype::Function => 0x01,
            BinarySubtype::BinaryOld => 0x02,
            BinarySubtype::UuidOld => 0x03,
            BinarySubtype::Uuid => 0x04,
            BinarySubtype::Md5 => 0x05,
            BinarySubtype::Encrypted => 0x06,
            BinarySubtype::Column => 0x07,
            BinarySubtype::Sensitive => 0x08,
            BinarySubtype::Vector => 0x09,
            BinarySubtype::Reserved(byte) | BinarySubtype::UserDefined(byte) => byte,
        }
    }
}

impl Hash for BinarySubtype {
    ghost use Rattle.bson_types.specs.BinarySubtypes.{subtype_byte};

    ghost hash_input = { λ subtype. hash_writes.u8 (subtype_byte subtype) };

    ghost respects_eq = { Prim.search (hashing, rules) };

    fn hash<H: Hasher>(&self, state: &mut H) {
        state.write_u8(u8::from(*self));
    }
}

impl fmt::LowerHex for BinarySubtype {
    fn fmt<W: fmt::Write>(&self, formatter: &mut fmt::Formatter<W>) -> fmt::Result {
        fmt::LowerHex::fmt(&u8::from(*self), formatter)
    }
}

// The bits that `{:x}` writes.
impl fmt::HasDigits for BinarySubtype {
    ghost use Rattle.bson_types.specs.BinarySubtypes.{subtype_byte};

    ghost word = { λ subtype. Some (subtype_byte subtype) };

    fn bits(self) -> (u64, u64) {
        (0, u8::from(self) as u64)
    }
}
