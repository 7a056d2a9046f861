//! `tag BYTE`, `subtype BYTE`, `subtype own|reserved BYTE`: the tables of BSON 1.1.
use crate::arguments::{parse_byte, split_at_space};
use crate::row_error::RowResult;
use crate::row_output::RowOutput;
use bson::spec::{BinarySubtype, ElementType};

/// The element type of the tag, and its tag again.
pub(crate) fn write_tag(remaining_args: &str, output_line: &mut RowOutput) -> RowResult {
    match ElementType::from(parse_byte(remaining_args)?) {
        Some(element_type) => write_element_type(element_type, output_line),
        None => output_line.write_str("None"),
    }
    Ok(())
}

pub(crate) fn write_element_type(element_type: ElementType, output_line: &mut RowOutput) {
    output_line.write_debug_value(&element_type);
    output_line.write_str(" ");
    output_line.write_hex(&[element_type.tag()]);
}

/// The subtype of the byte, its byte again, and its hexadecimal digits. `own BYTE` and `reserved
/// BYTE` are declared so.
pub(crate) fn write_subtype(remaining_args: &str, output_line: &mut RowOutput) -> RowResult {
    let (first_word, text) = split_at_space(remaining_args);
    let subtype = match first_word {
        "own" => BinarySubtype::UserDefined(parse_byte(text)?),
        "reserved" => BinarySubtype::Reserved(parse_byte(text)?),
        _ => BinarySubtype::from(parse_byte(first_word)?),
    };
    output_line.write_debug_value(&subtype);
    output_line.write_str(" ");
    output_line.write_hex(&[u8::from(subtype)]);
    output_line.write_subtype(subtype);
    Ok(())
}
