//! The program `bson_cli MODE`: reads one JSON text from standard input, and writes the value that
//! it means to standard output, in the form of MongoDB Extended JSON v2 that MODE names, or as it
//! is shown, and a newline.
//!
//! The library `bson_convert` does the whole conversion. This program has the arguments, the lines on
//! standard error and the statuses.
#![tactic(auto)]

use bson_convert::fault::Fault;
use bson_convert::mode::{Mode, mode_of};
use bson_convert::program::{command_line_arguments, report_failure};
use bson_convert::run::run;
use std::process::ExitCode;

const USAGE: &str = "usage: bson_cli canonical|relaxed|show";

// Status 0: done. Status 1: refused, with one line on standard error. Status 2: other arguments,
// and nothing was read.
fn main(rt: HostRuntime) -> ExitCode {
    let conversion_result = match read_mode(&rt) {
        Ok(Some(mode)) => run(rt.alloc(), mode, &mut rt.stdin(), &mut rt.stdout()),
        Ok(None) => return report_failure(&rt, USAGE, 2),
        Err(fault) => Err(fault),
    };
    match conversion_result {
        Ok(()) => ExitCode::SUCCESS,
        Err(fault) => report_failure(&rt, fault.line(), 1),
    }
}

// The mode that the arguments ask for. One that is no UTF-8 asks for none.
fn read_mode(rt: &HostRuntime) -> Result<Option<Mode>, Fault> {
    match command_line_arguments(rt)? {
        Some(args) => Ok(mode_of(&args)),
        None => Ok(None),
    }
}
