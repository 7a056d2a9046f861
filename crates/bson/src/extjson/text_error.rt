//! Why bytes give no value.
use bson_tree::place::Place;

/// Why bytes give no value.
///
/// ```
/// if let Err(error) = Bson::try_from_text(alloc, b"[1, 2") {
///     println!(rt; "{error}")?; // not JSON
/// }
/// ```
#[derive(Debug, Drop, thiserror::Error)]
pub enum TextError {
    /// The bytes are not one JSON text: they are no UTF-8, nest deeper than 127, or break the
    /// grammar.
    #[error("not JSON")]
    NotJson,

    /// The JSON text has no meaning in MongoDB Extended JSON v2, for the first fault of its tree,
    /// at this place.
    #[error("{}", .0.reason)]
    NotExtendedJson(Place),

    /// A request for memory was refused.
    #[error("out of memory")]
    OutOfMemory,
}
