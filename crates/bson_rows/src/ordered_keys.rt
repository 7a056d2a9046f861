//! `in_order FORM STEPS` and `in_order read TEXT`: values that are written in each document's own
//! order of keys, and read in the order of the text.
use crate::arguments::split_at_space;
use crate::finite_doubles::read_text;
use crate::row_error::{RowError, RowResult};
use crate::row_output::RowOutput;
use crate::value_steps;
use bson::extjson::{Form, KeyOrder, Options};

/// `canonical STEPS` and `relaxed STEPS`: the value that the steps make is written. `read TEXT`, and
/// `read_finite TEXT` with finite doubles: what the text means.
pub(crate) fn run_call(remaining_args: &str, output_line: &mut RowOutput) -> RowResult {
    let (call_name, steps_or_text) = split_at_space(remaining_args);
    match call_name {
        "canonical" => write_made_value(Form::Canonical, steps_or_text, output_line),
        "relaxed" => write_made_value(Form::Relaxed, steps_or_text, output_line),
        "read" => read_text(special_doubles_options(), steps_or_text, output_line),
        "read_finite" => read_text(Options::mongodb(), steps_or_text, output_line),
        _ => Err(RowError::InvalidRow),
    }
}

fn special_doubles_options() -> Options {
    Options {
        key_order: KeyOrder::AsGiven,
        ..Options::default()
    }
}

/// Writes the output of the two calls, which must be equal.
fn write_made_value(form: Form, steps: &str, output_line: &mut RowOutput) -> RowResult {
    let alloc = output_line.alloc;
    let options = special_doubles_options();
    let value = value_steps::make_value(alloc, steps)?;
    let text_by_reference = value.to_text(alloc, options, form);
    let text = value.into_text(alloc, options, form);
    let are_equal = text == text_by_reference;
    output_line.write_result(text);
    if !are_equal {
        output_line.write_str(" and lent ");
        output_line.write_result(text_by_reference);
    }
    Ok(())
}
