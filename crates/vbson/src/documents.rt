//! Checks whether bytes are a document (BSON 1.1, bsonspec.org).
ghost use Rattle.std.specs.Prelude.{◌≡◌, ◌⊎◌, ◌↔◌};
ghost use Rattle.bson_model.specs.declared.options.DuplicateKeys.TheVariants.{LastWins};
ghost use Rattle.vbson.specs.Documents.{IsOneDocument};

use crate::status;
use bson_codec::de::{DEPTH, is_document};

/// Checks whether all the bytes are one document, in which documents, arrays and scopes nest at most
/// 100 deep. It allocates no memory.
#[unsafe(no_mangle)]
pub extern "C" fn vbson_is_document(bytes: &[u8]) -> u32
    ensures success { result ≡ 0 ↔ IsOneDocument LastWins bytes.now }
    ensures possible_statuses { (result ≡ 0) ⊎ (result ≡ 10) }
{
    match is_document(bytes, DEPTH) {
        Ok(()) => status::OK,
        Err(_) => status::NOT_A_DOCUMENT,
    }
}
