//! Why a text that has a meaning gives no bytes of BSON.
ghost use Rattle.std.specs.Prelude.{◌≡◌};
ghost use Rattle.bson_convert.specs.Messages.{no_bytes_message};

/// Why a text that has a meaning gives no bytes of BSON.
///
/// ```
/// if let Err(Error::NoBytes(why)) = encode(alloc, Options::default(), b"[1, 2]") {
///     println!(rt; "{}", why.message())?; // not a document
/// }
/// ```
#[derive(Clone, Copy, PartialEq, Eq, Debug)]
pub enum NoBytes {
    /// The value is not a document.
    NoDocument,
    /// A key has a 0 byte in it, which would end it.
    ZeroInKey,
    /// The pattern or the options of a regular expression have a 0 byte in them.
    ZeroInRegex,
    /// A text, a binary, a document, an array, or code with its scope has 2^31 bytes or more.
    TooLong,
}

impl NoBytes {
    /// Returns the message of a program for this error.
    pub fn message(self) -> &'static str
        ensures { result.now ≡ no_bytes_message self }
    {
        match self {
            NoBytes::NoDocument => "not a document",
            NoBytes::ZeroInKey => "a key has a 0 byte in it",
            NoBytes::ZeroInRegex => "a regular expression has a 0 byte in it",
            NoBytes::TooLong => "a part is too long for BSON",
        }
    }
}
