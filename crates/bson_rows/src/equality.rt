//! `same VALUE and VALUE`, `hash VALUE`.
use crate::fnv::Fnv;
use crate::row_error::{RowError, RowResult};
use crate::row_output::RowOutput;
use crate::row_values::parse_value;
use bson::Bson;
use std::hash::{Hash, Hasher};

/// Whether the values are equal, and whether they feed a hasher alike.
pub(crate) fn write_equality(remaining_args: &str, output_line: &mut RowOutput) -> RowResult {
    let alloc = output_line.alloc;
    let Some((first_value, second_value)) = remaining_args.split_once(" and ") else {
        return Err(RowError::InvalidRow);
    };
    let first_value = parse_value(alloc, first_value)?;
    let second_value = parse_value(alloc, second_value)?;
    write_comparison(&first_value, &second_value, output_line);
    Ok(())
}

fn write_comparison(first_value: &Bson, second_value: &Bson, output_line: &mut RowOutput) {
    output_line.write_str(
        match (first_value == second_value, second_value == first_value) {
            (true, true) => "equal",
            (false, false) => "unequal",
            _ => "equal one way alone",
        },
    );
    if hash_of(first_value) == hash_of(second_value) {
        output_line.write_str(", equal hashes");
    }
}

fn hash_of(value: &Bson) -> u64 {
    let mut hasher = Fnv::new();
    value.hash(&mut hasher);
    hasher.finish()
}

/// What FNV-1a makes of the bytes that the value feeds it.
pub(crate) fn write_hash(remaining_args: &str, output_line: &mut RowOutput) -> RowResult {
    let value = parse_value(output_line.alloc, remaining_args)?;
    output_line.write_hex(&hash_of(&value).to_be_bytes());
    Ok(())
}
