//! The program `bson_rows`: for each line `CALL ARGS` of standard input it makes that call of the
//! library, and writes a line with the result of the call. It runs the rows of tests/rows.
//!
//! In reading order: `row` (a line and its call), `row_output` (the output line of a row), `row_error` (why a
//! row has no result), `arguments` (parses arguments), `row_values` (parses values); then the calls, one file
//! for each subject.
#![tactic(auto)]

mod arguments;
mod binaries;
mod codec;
mod conversions;
mod dates;
mod decimals;
mod documents;
mod doubles;
mod equality;
mod errors;
mod extended_json;
mod finite_doubles;
mod fnv;
mod getters;
mod json_checks;
mod mongodb_layout;
mod object_ids;
mod ordered_keys;
mod row;
mod row_error;
mod row_output;
mod row_values;
mod small_types;
mod stores;
mod type_tags;
mod value_accessors;
mod value_steps;
mod vectors;

use row::run_row;
use row_output::RowOutput;
use std::io;

/// The longest output line that is written without an allocation.
const OUTPUT_CAPACITY: usize = 1 << 20;

fn main(rt: HostRuntime) -> io::Result<()> {
    let alloc = rt.alloc();
    let rows = io::read_to_string(alloc, rt.reader())?;
    let mut row_output = RowOutput::new(alloc, String::with_capacity(alloc, OUTPUT_CAPACITY)?);
    for row in rows.as_str().lines() {
        run_row(row, &mut row_output);
        write_line(&rt, row_output.line())?;
    }
    Ok(())
}

/// Writes the output as one line: a newline in it is written as `↵`.
fn write_line(rt: &impl Print, row_output: &str) -> io::Result<()> {
    for (line_index, line_part) in row_output.split('\n').enumerate() {
        if line_index > 0 {
            rt.print("↵")?;
        }
        rt.print(line_part)?;
    }
    rt.println("")
}
