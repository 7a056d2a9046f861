//! One run: from the bytes of a reader to the bytes for a writer.
ghost use Rattle.std.specs.Prelude.{IfErr, OnOk};
ghost use Rattle.bson_convert.specs.Run.{RunSucceeds, RunSucceedsIn, RunFails, RunFailsIn};

use crate::convert::convert_whole;
use crate::fault::Fault;
use crate::mode::Mode;
use crate::stream::{read_whole, write_whole};
use bson_model::options::Options;
use std::alloc::Global;
use std::io::{Read, Write};

/// Reads all that the reader has, as one JSON text, and writes the value that it means in the mode,
/// and a newline. Nothing is written before all of the input was accepted.
///
/// # Errors
///
/// - `CannotRead`: the reader failed, `Interrupted` too.
/// - `NotJson`: all input was read, and it is not UTF-8 or `serde_json` reads no tree from it.
/// - `BadObjectId`: all input was read, and the first error of its tree is a bad object id.
/// - `NotExtendedJson`: all input was read, and the first error of its tree is any other.
/// - `OutOfMemory`: an allocation failed. Nothing was written.
/// - `CannotWrite`: the writer failed, `Interrupted` too, or accepted no byte. The output was not
///   written whole, and what was written is a beginning of it.
pub fn run<R: Read, W: Write>(
    alloc: Global,
    mode: Mode,
    reader: &mut R,
    writer: &mut W,
) -> Result<(), Fault>
    ensures done { OnOk result
        (RunSucceeds mode (R.remaining reader.old) (R.remaining reader.new) (W.contents writer.old)
        (W.contents writer.new)) }
    ensures fails { IfErr result
        (λ fault. RunFails fault mode (R.remaining reader.old) (R.remaining reader.new) (W.contents writer.old)
        (W.contents writer.new)) }
{
    convert_stream(alloc, Options::default(), mode, reader, writer)
}

/// Runs as [`run`] with options.
///
/// # Errors
///
/// The errors of [`run`].
pub fn convert_stream<R: Read, W: Write>(
    alloc: Global,
    options: Options,
    mode: Mode,
    reader: &mut R,
    writer: &mut W,
) -> Result<(), Fault>
    ensures done { OnOk result
        (RunSucceedsIn options mode (R.remaining reader.old) (R.remaining reader.new) (W.contents writer.old)
        (W.contents writer.new)) }
    ensures fails { IfErr result
        (λ fault. RunFailsIn options fault mode (R.remaining reader.old) (R.remaining reader.new)
        (W.contents writer.old)
        (W.contents writer.new)) }
{
    let bytes = read_whole(alloc, reader)?;
    match convert_whole(alloc, options, mode, bytes) {
        Ok(output) => write_whole(writer, &output),
        Err(error) => match error.fault() {
            Some(fault) => Err(fault),
            // No conversion to text fails for its bytes.
            None => unreachable!(),
        },
    }
}
