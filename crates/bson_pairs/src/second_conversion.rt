//! Proves that a second conversion changes nothing, from the public contract of `bson_convert` alone.
ghost use Rattle.std.specs.Prelude.{◌≡◌, ◌≢◌, IfOk};

use bson_convert::convert::convert;
use bson_convert::error::Error;
use bson_convert::mode::Mode;
use std::alloc::Global;

/// Converts a text, and what it is converted to once more in the same mode. In a form the two
/// outputs are the same bytes.
///
/// # Errors
///
/// - `NotJson`: the bytes are not one JSON text, or their output nests deeper than 127.
/// - `NotExtendedJson`: the JSON text is not valid Extended JSON.
/// - `OutOfMemory`: an allocation failed.
pub fn convert_twice(alloc: Global, mode: Mode, bytes: &[u8]) -> Result<(Vec<u8>, Vec<u8>), Error>
    ensures same { mode ≢ Mode.Show → IfOk result (λ output_pair. output_pair.0.items ≡ output_pair.1.items) }
{
    let first_output = convert(alloc, mode, bytes)?;
    let second_output = convert(alloc, mode, &first_output)?;
    Ok((first_output, second_output))
}
