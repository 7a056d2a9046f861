//! The program that `./bson` runs. It converts texts, the lines of files, and dumps, and it writes
//! dumps, as its arguments request.
//!
//! The library `bson_run` converts. This crate has the arguments (`invocation`, `arguments`, `meanings`,
//! `option_values`, `option_effects`, `allowed_options`, `request`), the files (`run`, `streams`, `output`; `texts`
//! for JSON texts with `single_text` for each and `text_errors` for the position of an error, `dump` for BSON
//! documents), digests of lines (`digests`), comparisons (`compare_files`, `compare_outputs`), the line of progress
//! (`progress`), the lines on standard error (`messages`, `failure_json`, `usage_error`, `hints`, `advice`,
//! `rejection_hint`), the help (`help_text`) and the statuses.
#![tactic(auto)]

mod advice;
mod allowed_options;
mod arguments;
mod compare_files;
mod compare_outputs;
mod digests;
mod dump;
mod failure_json;
mod help_text;
mod hints;
mod invocation;
mod meanings;
mod messages;
mod option_effects;
mod option_values;
mod output;
mod progress;
mod rejection_hint;
mod request;
mod run;
mod single_text;
mod streams;
mod text_errors;
mod texts;
mod usage_error;

use crate::compare_files::{compare_files, difference_line_for};
use crate::failure_json::failure_json;
use crate::help_text::{OUT_OF_MEMORY, VERSION, help_of, usage_of};
use crate::invocation::{
    Command, InvalidUsage, Invocation, Purpose, Request, STDIO, UsageError, parse_arguments,
};
use crate::messages::{counts_summary, failure_message};
use crate::run::{RunFailure, run};
use crate::usage_error::usage_error_line;
use bson_codec::diagnostic::DiagnosticFormat;
use bson_convert::fault::Fault;
use bson_convert::program::{command_line_arguments, report_failure};
use std::alloc::AllocError;
use std::io::{ErrorKind, Write};
use std::process::ExitCode;

/// The status that reports to a shell that nobody reads the output any more: 128, and SIGPIPE.
const BROKEN_PIPE_STATUS: u8 = 141;

/// What is reported as JSON if memory for the object is lacking.
const OUT_OF_MEMORY_JSON: &str =
    "{\"file\":\"-\",\"code\":\"out_of_memory\",\"message\":\"out of memory\"}";

// Status 0: done, and no line was refused. Status 1: a line was refused, or the run could not go
// on, which standard error shows. Status 2: wrong arguments, and nothing was read. Status 141:
// nobody reads the output any more, and standard error shows nothing.
fn main(rt: HostRuntime) -> ExitCode {
    match read_request(&rt) {
        Ok(Request::Run(invocation)) if invocation.purpose == Purpose::Comparison =>
            compare_invocation(&rt, &invocation),
        Ok(Request::Run(invocation)) => run_invocation(&rt, &invocation),
        Ok(Request::Help(command)) => print_text(&rt, help_of(command)),
        Ok(Request::Version) => print_text(&rt, VERSION),
        Ok(Request::InvalidUsage(invalid_usage)) => report_usage_error(&rt, &invalid_usage),
        Err(_) => report_failure(&rt, OUT_OF_MEMORY, 1),
    }
}

// Returns what the arguments ask for.
fn read_request(rt: &HostRuntime) -> Result<Request, Fault> {
    let Some(args) = command_line_arguments(rt)? else {
        return Ok(Request::InvalidUsage(InvalidUsage {
            usage_error: UsageError::NotUtf8,
            command: Command::AllCommands,
            arg: String::new(rt.alloc()),
        }));
    };
    match parse_arguments(rt.alloc(), args) {
        Ok(request) => Ok(request),
        Err(_) => Err(Fault::OutOfMemory),
    }
}

// Names what is wrong with the arguments, and then shows the usage.
fn report_usage_error(rt: &HostRuntime, invalid_usage: &InvalidUsage) -> ExitCode {
    match usage_error_line(rt.alloc(), invalid_usage) {
        Ok(line) => {
            let _ = rt.eprintln(&line);
            report_failure(rt, usage_of(invalid_usage.command), 2)
        }
        Err(_) => report_failure(rt, OUT_OF_MEMORY, 1),
    }
}

// Runs, reports the result, and prints the hints for the inputs that were rejected.
fn run_invocation(rt: &HostRuntime, invocation: &Invocation) -> ExitCode {
    let mut hints = Vec::new(rt.alloc());
    let status = match run(rt, invocation, &mut hints) {
        Ok(counts) if counts.refused == 0 => ExitCode::SUCCESS,
        Ok(_) if invocation.task.diagnostics == DiagnosticFormat::Json => ExitCode::from(1),
        Ok(counts) => report_with_status(
            rt,
            counts_summary(rt.alloc(), invocation.input, counts),
            1,
        ),
        Err(RunFailure::Output(_, Some(error))) if error.kind() == ErrorKind::BrokenPipe => {
            ExitCode::from(BROKEN_PIPE_STATUS)
        }
        Err(failure) => report_stop(rt, invocation, failure, 1),
    };
    print_hints(rt, &hints);
    status
}

// Compares two files. The status is 1 if and only if their values differ.
fn compare_invocation(rt: &HostRuntime, invocation: &Invocation) -> ExitCode {
    let mut hints = Vec::new(rt.alloc());
    let status = match compare_files(rt, invocation, &mut hints) {
        Ok(None) => ExitCode::SUCCESS,
        Ok(Some(difference)) => report_with_status(
            rt,
            difference_line_for(rt.alloc(), invocation, difference),
            1,
        ),
        Err(failure) => report_stop(rt, invocation, failure, 2),
    };
    print_hints(rt, &hints);
    status
}

// Reports what stopped a run, in the format of its diagnostics, and returns this status.
fn report_stop(
    rt: &HostRuntime,
    invocation: &Invocation,
    failure: RunFailure<'_>,
    status: u8,
) -> ExitCode {
    if invocation.task.diagnostics == DiagnosticFormat::Text {
        return report_with_status(rt, failure_message(rt.alloc(), failure), status);
    }
    match failure_json(rt.alloc(), failure) {
        Ok(line) => {
            let _ = rt.stderr().write_all(&line);
            ExitCode::from(status)
        }
        Err(_) => report_failure(rt, OUT_OF_MEMORY_JSON, status),
    }
}

fn print_hints(rt: &HostRuntime, hints: &Vec<String>) {
    for hint in hints.iter() {
        let _ = rt.eprintln(hint.as_str());
    }
}

// Prints the line on standard error, and returns this status.
fn report_with_status(rt: &HostRuntime, line: Result<String, AllocError>, status: u8) -> ExitCode {
    match line {
        Ok(line) => report_failure(rt, &line, status),
        Err(_) => report_failure(rt, OUT_OF_MEMORY, status),
    }
}

// Writes what the program says of itself.
fn print_text(rt: &HostRuntime, text: &str) -> ExitCode {
    match rt.println(text) {
        Ok(()) => ExitCode::SUCCESS,
        Err(error) if error.kind() == ErrorKind::BrokenPipe => ExitCode::from(BROKEN_PIPE_STATUS),
        Err(error) => report_with_status(
            rt,
            failure_message(rt.alloc(), RunFailure::Output(STDIO, Some(error))),
            1,
        ),
    }
}
