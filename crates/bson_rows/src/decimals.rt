//! `decimal read TEXT`, `decimal bits TEXT`, `decimal print BYTES`: decimals of 128 bits.
use crate::arguments::{parse_sized_bytes, split_at_space};
use crate::row_error::{RowError, RowResult};
use crate::row_output::RowOutput;
use bson::Decimal128;

pub(crate) fn run_call(remaining_args: &str, output_line: &mut RowOutput) -> RowResult {
    let (call_name, text) = split_at_space(remaining_args);
    match call_name {
        "read" => output_line.write_result(text.parse::<Decimal128>()),
        "bits" => write_decimal_bytes(text, output_line),
        "print" => return print_decimal(text, output_line),
        _ => return Err(RowError::InvalidRow),
    }
    Ok(())
}

/// The 16 bytes of what is read.
fn write_decimal_bytes(text: &str, output_line: &mut RowOutput) {
    match text.parse::<Decimal128>() {
        Ok(decimal) => output_line.write_hex(&decimal.bytes()),
        Err(error) => output_line.write_error(&error),
    }
}

/// What the 16 bytes print as.
fn print_decimal(text: &str, output_line: &mut RowOutput) -> RowResult {
    let bytes = parse_sized_bytes::<16>(text)?;
    let decimal = Decimal128::from_bytes(bytes);
    if decimal.bytes() != bytes {
        output_line.write_str("other bytes ");
    }
    output_line.write_value(&decimal);
    Ok(())
}
