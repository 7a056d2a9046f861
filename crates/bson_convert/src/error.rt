//! The errors of the conversions.
ghost use Rattle.std.specs.Prelude.{◌≡◌, ◌≢◌, MatchBool};
ghost use Rattle.bson_convert.specs.Messages.{fault_kind, error_message};

use crate::encode_error::NoBytes;
use crate::fault::Fault;
use bson_tree::place::{Place, Reason};

/// Why a conversion failed.
///
/// ```
/// if let Err(error) = convert(alloc, Mode::Canonical, br#"[{"$oid": 5}]"#) {
///     println!(rt; "{}", error.message())?; // not Extended JSON
/// }
/// ```
#[derive(Debug, Drop)]
pub enum Error {
    /// The reader failed.
    CannotRead,
    /// The input is not one JSON text: its bytes are not UTF-8, it nests deeper than 127, or it
    /// breaks the grammar.
    NotJson,
    /// The JSON text is not valid Extended JSON: its first error, and the path to it.
    NotExtendedJson(Place),
    /// The text has a value, but that value has no BSON bytes.
    NoBytes(NoBytes),
    /// The text has a value, and is not its canonical text: the column of the first byte that
    /// differs, counted from 1.
    NotCanonical(usize),
    /// An allocation failed.
    OutOfMemory,
    /// The writer failed, or accepted no byte.
    CannotWrite,
}

impl Error {
    /// Returns the kind of the error, as a run reports it, or `None` for `NoBytes` and
    /// `NotCanonical`.
    pub fn fault(&self) -> Option<Fault>
        ensures { result ≡ fault_kind self.now }
    {
        match self {
            Error::CannotRead => Some(Fault::CannotRead),
            Error::NotJson => Some(Fault::NotJson),
            Error::NotExtendedJson(place) => match &place.reason {
                Reason::BadObjectId(_) => Some(Fault::BadObjectId),
                Reason::WrongShape(_) => Some(Fault::NotExtendedJson),
            },
            Error::NoBytes(_) => None,
            Error::NotCanonical(_) => None,
            Error::OutOfMemory => Some(Fault::OutOfMemory),
            Error::CannotWrite => Some(Fault::CannotWrite),
        }
    }

    /// Returns the message of the error, without the path to it.
    pub fn message(&self) -> &'static str
        ensures words { result.now ≡ error_message self.now }
    {
        match self {
            Error::CannotRead => "cannot read",
            Error::NotJson => "not JSON",
            Error::NotExtendedJson(place) => match &place.reason {
                Reason::BadObjectId(_) => "bad object id",
                Reason::WrongShape(_) => "not Extended JSON",
            },
            Error::NoBytes(no_bytes) => no_bytes.message(),
            Error::NotCanonical(_) => "not canonical Extended JSON",
            Error::OutOfMemory => "out of memory",
            Error::CannotWrite => "cannot write",
        }
    }

    /// Returns whether an allocation failed.
    pub fn is_out_of_memory(&self) -> bool
        ensures { MatchBool result (self.now ≡ Error.OutOfMemory) (self.now ≢ Error.OutOfMemory) }
    {
        matches!(self, Error::OutOfMemory)
    }
}
