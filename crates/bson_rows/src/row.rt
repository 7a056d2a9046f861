//! One row: dispatches its call by name.
use crate::arguments::split_at_space;
use crate::row_error::RowResult;
use crate::row_output::{RowOutput, Style};
use crate::{
    binaries, codec, conversions, dates, decimals, documents, doubles, equality, errors,
    extended_json, finite_doubles, getters, json_checks, mongodb_layout, object_ids, ordered_keys,
    small_types, stores, type_tags, value_accessors, vectors,
};

/// Makes the call of the row, and replaces the output with its result.
///
/// `{}`, `{:?}` and `{:#?}` before a row say how its value or its error is written.
pub(crate) fn run_row(row: &str, row_output: &mut RowOutput) {
    let (first_word, remaining_args) = split_at_space(row);
    let (style, call_text) = match first_word {
        "{}" => (Style::Display, remaining_args),
        "{:?}" => (Style::Debug, remaining_args),
        "{:#?}" => (Style::Pretty, remaining_args),
        _ => (Style::Plain, row),
    };
    row_output.begin_row(style);
    if let Err(error) = run_call(call_text, row_output) {
        row_output.set_error(error);
    }
}

/// Dispatches the call by its name.
fn run_call(call_text: &str, output_line: &mut RowOutput) -> RowResult {
    let (call_name, remaining_args) = split_at_space(call_text);
    match call_name {
        "canonical" | "relaxed" | "show" => extended_json::run_call(
            call_name,
            remaining_args,
            output_line,
        ),
        "map" => extended_json::write_map(remaining_args, output_line),
        "finite" => finite_doubles::run_call(remaining_args, output_line),
        "mongodb" => mongodb_layout::run_call(remaining_args, output_line),
        "in_order" => ordered_keys::run_call(remaining_args, output_line),
        "pretty" => extended_json::write_pretty_text(remaining_args, output_line),
        "kind" => value_accessors::run_call(remaining_args, output_line),
        "get" => getters::run_call(remaining_args, output_line),
        "get_i32" => getters::run_get_i32(remaining_args, output_line),
        "same" => equality::write_equality(remaining_args, output_line),
        "hash" => equality::write_hash(remaining_args, output_line),
        "from" => conversions::run_call(remaining_args, output_line),
        "date" => dates::run_call(remaining_args, output_line),
        "decimal" => decimals::run_call(remaining_args, output_line),
        "double" => doubles::run_call(remaining_args, output_line),
        "id" => object_ids::run_call(remaining_args, output_line),
        "json" => json_checks::run_call(remaining_args, output_line),
        "is_canonical" => json_checks::write_is_canonical(remaining_args, output_line),
        "check_canonical" => json_checks::write_canonical_check(remaining_args, output_line),
        "uuid" => binaries::run_uuid_call(remaining_args, output_line),
        "binary" => binaries::run_call(remaining_args, output_line),
        "bytes" => codec::run_call(remaining_args, output_line),
        "vector" => vectors::run_call(remaining_args, output_line),
        "tag" => type_tags::write_tag(remaining_args, output_line),
        "subtype" => type_tags::write_subtype(remaining_args, output_line),
        "store" => stores::run_call(remaining_args, output_line),
        "document" => documents::run_call(remaining_args, output_line),
        "entries" => documents::write_entries(remaining_args, output_line),
        "error" => errors::run_call(remaining_args, output_line),
        _ => small_types::run_call(call_name, remaining_args, output_line),
    }
}
