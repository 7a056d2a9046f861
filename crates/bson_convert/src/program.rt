//! The parts that the programs share: their arguments, and how they end.
ghost use Rattle.std.specs.Prelude.{◌≡◌, IfErr};
ghost use Rattle.std.specs.Process.{exit_status};

use crate::fault::Fault;
use std::env::{self, Env};
use std::io::ErrorKind;
use std::process::ExitCode;

/// Returns the arguments after the program's name, or `None` if one of them is not UTF-8.
///
/// # Errors
///
/// - `OutOfMemory`: an allocation failed.
pub fn command_line_arguments<R: Env + AllocGlobal>(rt: &R) -> Result<Option<Vec<String>>, Fault>
    ensures { IfErr result (λ fault. fault ≡ Fault.OutOfMemory) }
{
    let mut args = match env::args(rt) {
        Ok(args) => args,
        Err(error) if error.kind() == ErrorKind::InvalidData => return Ok(None),
        Err(_) => return Err(Fault::OutOfMemory),
    };
    let _program = args.next();
    match args.collect::<Vec<String>>(rt.alloc()) {
        Ok(args) => Ok(Some(args)),
        Err(_) => Err(Fault::OutOfMemory),
    }
}

/// Writes the line to standard error, and returns the status. If standard error cannot be written,
/// the status alone reports the failure.
pub fn report_failure<R: Eprint>(rt: &R, line: &str, status: u8) -> ExitCode
    ensures { exit_status result ≡ status }
{
    let _ = rt.eprintln(line);
    ExitCode::from(status)
}
