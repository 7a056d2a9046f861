//! The options of reading and writing Extended JSON.
ghost use Rattle.std.specs.Prelude.{◌≡◌};
ghost use Rattle.bson_model.specs.NamedOptions.{default_options, mongodb_options};

use bson_scalar::form::{Doubles, Layout};

/// The order of the keys of documents, at every depth.
///
/// ```
/// let options = Options {
///     key_order: KeyOrder::AsGiven,
///     ..Options::default()
/// };
/// let value = Bson::from_text(alloc, options, br#"{"b": 1, "a": 2}"#)?;
/// println!(rt; "{value}")?; // { "b": 1, "a": 2 }
/// ```
#[derive(Clone, Copy, Debug, Drop, PartialEq, Eq)]
pub enum KeyOrder {
    /// Ascending by their bytes.
    Ascending,
    /// As the text or the document has them.
    AsGiven,
}

/// Says what happens to a duplicate key of a document, at any depth. The keys of an array are free.
///
/// ```
/// let twice = b"\x0b\0\0\0\x0aa\0\x0aa\0\0";
/// let read = from_bytes(alloc, ReadOptions::default(), twice)?;
/// println!(rt; "{read}")?; // { "a": null }
/// ```
#[derive(Clone, Copy, Debug, Drop, PartialEq, Eq)]
pub enum DuplicateKeys {
    /// The last value wins, at the first position.
    LastWins,
    /// The bytes are rejected.
    Reject,
}

/// How Extended JSON is read, written and converted. The default is what the calls without an options
/// value do.
///
/// ```
/// let half = Bson::Double(0x3fe0_0000_0000_0000);
/// let text = half.into_text(alloc, Options::mongodb(), Form::Canonical)?;
/// println!(rt; "{text}")?; // {"$numberDouble":"0.5"}
/// if let Err(error) = Bson::Double(1).into_text(alloc, Options::default(), Form::Canonical) {
///     println!(rt; "{error}")?; // a finite double has no text
/// }
/// ```
#[derive(Clone, Copy, Debug, Drop, PartialEq, Eq)]
pub struct Options {
    /// Which doubles have a text.
    pub doubles: Doubles,
    /// The order of the keys of what is read or written.
    pub key_order: KeyOrder,
    /// How the two forms are laid out.
    pub layout: Layout,
}

impl Options {
    /// Returns the options of libbson and PyMongo: finite doubles have a text, keys are as given, and the
    /// two forms have their layout.
    pub fn mongodb() -> Options
        ensures { result ≡ mongodb_options }
    {
        Options {
            doubles: Doubles::Finite,
            key_order: KeyOrder::AsGiven,
            layout: Layout::MongoDb,
        }
    }
}

impl Default for Options {
    fn default() -> Options
        ensures { result ≡ default_options }
    {
        Options {
            doubles: Doubles::Special,
            key_order: KeyOrder::Ascending,
            layout: Layout::Specified,
        }
    }
}
