//! Whether a text is JSON.
ghost use Rattle.std.specs.Prelude.{◌↔◌, IfOk, IsTrue};
ghost use Rattle.bson_json.specs.Grammar.{IsJsonText};

use bson_tokens::MAX_DEPTH;
use json::{Reader, Scratch};
use std::alloc::{AllocError, Global};

/// Returns whether a text is JSON as RFC 8259 has it, with arrays and objects at most 127 deep.
///
/// An escaped surrogate must be in a pair. A key may be duplicated, and a number may be of any size.
/// Memory is that of the text at most.
///
/// # Errors
///
/// - `AllocError` if an allocation fails.
///
/// ```
/// println!(rt; "{}", is_json(alloc, "[1, 2]")?)?; // true
/// println!(rt; "{}", is_json(alloc, "[1, 2,]")?)?; // false
/// ```
pub fn is_json(alloc: Global, text: &str) -> Result<bool, AllocError>
    ensures ok { IfOk result (λ is_valid_json. IsTrue is_valid_json ↔ IsJsonText text.now) }
{
    let mut scratch = Scratch::new(alloc);
    let mut reader = Reader::new(text, &mut scratch)?;
    match reader.skip_value(MAX_DEPTH) {
        Ok(()) => match reader.next() {
            None => Ok(true),
            Some(_) => Ok(false),
        },
        Err(_) => Ok(false),
    }
}
