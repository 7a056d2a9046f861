//! What all arguments request.
ghost use Rattle.std.specs.Prelude.{IfOk};
ghost use Rattle.bson_program.specs.Requests.{IsInvalidUsageRequest, IsRequestOf};

use crate::allowed_options::find_option_error;
use crate::arguments::ArgsSoFar;
use crate::invocation::{Command, InvalidUsage, Invocation, Request, STDIO, UsageError};
use crate::meanings::requested_kind;
use crate::option_effects::{
    accepted_doubles, option_without_value, requested_diagnostics, requested_input,
    requested_key_order, requested_layout, requested_preprocessing, with_criterion,
};
use crate::option_values::input_files;
use bson::extjson::Options;
use bson_run::task::{OnRefusal, Task};
use std::alloc::{AllocError, Global};

/// Returns what all arguments request.
pub fn into_request(args_so_far: ArgsSoFar) -> Result<Request, AllocError>
    ensures { IfOk result (IsRequestOf args_so_far) }
{
    let command = args_so_far.command();
    if let Some(flag) = option_without_value(args_so_far.expected_arg) {
        let usage_error = UsageError::BadOptionValue(flag);
        return Ok(invalid_usage_request(args_so_far.alloc, usage_error, command));
    }
    let Some(named_kind) = requested_kind(args_so_far.input, args_so_far.output_kind) else {
        return Ok(invalid_usage_request(args_so_far.alloc, UsageError::NoMode, command));
    };
    let output_kind = with_criterion(args_so_far.is_canonical, named_kind);
    if let Some(usage_error) = find_option_error(&args_so_far, output_kind) {
        return Ok(invalid_usage_request(args_so_far.alloc, usage_error, command));
    }
    let ArgsSoFar {
        alloc,
        keeps_going,
        purpose,
        input,
        sorts_keys,
        is_strict,
        rejects_duplicates,
        reads_v1,
        is_unordered,
        reads_array,
        diagnostics,
        indent,
        output,
        inputs,
        ..
    } = args_so_far;
    let output = match output {
        Some(file_name) => file_name,
        None => String::from_str(alloc, STDIO)?,
    };
    Ok(Request::Run(Invocation {
        task: Task {
            preprocessing: requested_preprocessing(rejects_duplicates, reads_v1),
            output: output_kind,
            diagnostics: requested_diagnostics(diagnostics),
        },
        options: Options {
            doubles: accepted_doubles(is_strict),
            key_order: requested_key_order(purpose, sorts_keys, is_strict),
            layout: requested_layout(is_strict),
        },
        on_refusal: if keeps_going {
            OnRefusal::KeepGoing
        } else {
            OnRefusal::Stop
        },
        purpose,
        is_unordered,
        reads_array,
        input: requested_input(reads_array, input, output_kind),
        indent,
        output,
        inputs: input_files(alloc, inputs)?,
    }))
}

// Returns what is wrong with all arguments.
fn invalid_usage_request(alloc: Global, usage_error: UsageError, command: Command) -> Request
    ensures { IsInvalidUsageRequest usage_error command result }
{
    Request::InvalidUsage(InvalidUsage {
        usage_error,
        command,
        arg: String::new(alloc),
    })
}
