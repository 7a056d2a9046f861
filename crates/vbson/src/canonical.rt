//! Whether a text is canonical.
ghost use Rattle.std.specs.Prelude.{◌≡◌, ◌⊎◌, ◌↔◌};
ghost use Rattle.bson_convert.specs.Convert.{IsCanonicalText};
ghost use Rattle.vbson.specs.Convert.{options_of_call};
ghost use Rattle.vbson.specs.Options.{AreNotForDecoding, AreNotForReading};

use crate::options::{
    CallOptions, DUPLICATE_KEYS_REJECT, are_not_for_decoding, are_not_for_reading, options_of,
};
use crate::status;
use bson_convert::canonical::is_canonical_text;
use std::alloc::Global;

/// Checks that the text is the canonical text of the value that it means, with keys in ascending
/// order at every depth and without a newline. The options may request finite doubles, and nothing
/// else: no canonical text has a duplicate key or is Extended JSON v1, and its keys and layout are
/// fixed.
#[unsafe(no_mangle)]
pub extern "C" fn vbson_is_canonical_text_nonnull(
    alloc: Global,
    options: &CallOptions,
    text: &[u8],
) -> u32
    ensures success { result ≡ 0 → IsCanonicalText (options_of_call options.now) text.now }
    ensures not_canonical { result ≡ 16 → IsCanonicalText (options_of_call options.now) text.now → ⊥ }
    ensures invalid_argument { result ≡ 1
        ↔ AreNotForDecoding options.now ⊎ AreNotForReading options.now ⊎ (options.now.duplicate_keys ≡ 1) }
    ensures possible_statuses { (result ≡ 0) ⊎ (result ≡ 1) ⊎ (result ≡ 5) ⊎ (result ≡ 16) }
{
    if are_not_for_decoding(*options)
        || are_not_for_reading(*options)
        || options.duplicate_keys == DUPLICATE_KEYS_REJECT
    {
        return status::INVALID_ARGUMENT;
    }
    match is_canonical_text(alloc, options_of(*options), text) {
        Ok(true) => status::OK,
        Ok(false) => status::NOT_CANONICAL,
        Err(_) => status::OUT_OF_MEMORY,
    }
}
