//! Why bytes are not a document.
ghost use Rattle.std.specs.Prelude.{◌≡◌};
ghost use Rattle.bson_bytes.specs.Fault.{fault_at};

/// What is wrong with bytes that are not a document of BSON 1.1.
///
/// ```
/// if let Err(Error::Malformed { kind, .. }) = from_slice(alloc, b"\x05\0\0", DEPTH) {
///     println!(rt; "{kind:?}")?; // Short
/// }
/// ```
#[derive(Clone, Copy, Debug, PartialEq, Eq)]
pub enum FaultKind {
    /// A document, an array or a scope nests too deep. The position is that of its length.
    Depth,
    /// The bytes end inside a length, a number, a name, a text, a binary or a list of elements. The
    /// position is the start of this part.
    Short,
    /// A length is less than its part can have or above 2^31 - 1, or is not the length of its part.
    /// The position is that of the length.
    Length,
    /// A byte is not a tag. The position is that of the byte.
    Tag,
    /// The byte after a text is not 0. The position is that of the byte.
    End,
    /// A name or a text is not UTF-8. The position is its first byte.
    Utf8,
    /// A boolean is neither 0 nor 1. The position is that of its byte.
    Boolean,
    /// Bytes follow the document. The position is that of the first of them.
    Trailing,
    /// A key occurred before in its document, and the caller rejects duplicate keys. The position is
    /// that of the second occurrence. It is checked before the value after it.
    DuplicateKey,
}

/// An error, and its position as the number of bytes from there to the end of the input.
#[derive(Clone, Copy, Debug, PartialEq, Eq)]
pub struct Fault {
    /// What is wrong.
    pub kind: FaultKind,
    /// The number of bytes from the position of the error to the end.
    pub bytes_to_end: usize,
}

/// Makes the fault of this kind at the first of these bytes, the last of the input.
pub fn fault_at(kind: FaultKind, bytes: &[u8]) -> Fault
    ensures { result ≡ fault_at kind bytes.now }
{
    Fault {
        kind,
        bytes_to_end: bytes.len(),
    }
}
