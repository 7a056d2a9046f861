//! The kinds of errors of a run.
ghost use Rattle.std.specs.Prelude.{◌≡◌};
ghost use Rattle.bson_convert.specs.Messages.{fault_line};

/// Why a run failed: the kind of its error.
///
/// The conversions return an [`Error`](crate::error::Error), which also has the path to the error of
/// a rejected text.
///
/// ```
/// let mut input: &[u8] = b"[1, 2";
/// let mut output = Vec::new(alloc);
/// if let Err(fault) = run(alloc, Mode::Relaxed, &mut input, &mut output) {
///     let is_of_input = match fault {
///         Fault::NotJson | Fault::BadObjectId | Fault::NotExtendedJson => true,
///         Fault::CannotRead | Fault::OutOfMemory | Fault::CannotWrite => false,
///     };
///     println!(rt; "{is_of_input} {}", fault.line())?; // true bson_cli: not JSON
/// }
/// ```
#[derive(Clone, Copy, PartialEq, Eq, Debug)]
pub enum Fault {
    /// The reader failed.
    CannotRead,
    /// The input is not one JSON text: its bytes are not UTF-8, it nests deeper than 127, or it
    /// breaks the grammar.
    NotJson,
    /// The JSON text is not valid Extended JSON: its first error is an object id that is not 24
    /// hexadecimal digits.
    BadObjectId,
    /// The JSON text is not valid Extended JSON: its first error is any other.
    NotExtendedJson,
    /// An allocation failed.
    OutOfMemory,
    /// The writer failed, or accepted no byte.
    CannotWrite,
}

impl Fault {
    /// Returns the line that the program writes on standard error.
    pub fn line(&self) -> &'static str
        ensures line { result.now ≡ fault_line self.now }
    {
        match self {
            Fault::CannotRead => "bson_cli: cannot read",
            Fault::NotJson => "bson_cli: not JSON",
            Fault::BadObjectId => "bson_cli: bad object id",
            Fault::NotExtendedJson => "bson_cli: not Extended JSON",
            Fault::OutOfMemory => "bson_cli: out of memory",
            Fault::CannotWrite => "bson_cli: cannot write",
        }
    }
}
