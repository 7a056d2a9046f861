//! `kind VALUE`: the element type, and each accessor that answers, with what it answers, by Debug.
use crate::row_error::RowResult;
use crate::row_output::RowOutput;
use crate::row_values::parse_value;
use crate::type_tags::write_element_type;
use bson::Bson;

pub(crate) fn run_call(remaining_args: &str, output_line: &mut RowOutput) -> RowResult {
    let mut value = parse_value(output_line.alloc, remaining_args)?;
    write_element_type(value.element_type(), output_line);
    write_accessors(&value, output_line);
    write_mut_accessors(&mut value, output_line);
    Ok(())
}

fn write_accessors(value: &Bson, output_line: &mut RowOutput) {
    output_line.write_named("as_f64", value.as_f64());
    output_line.write_named("as_bool", value.as_bool());
    output_line.write_named("as_null", value.as_null());
    output_line.write_named("as_i32", value.as_i32());
    output_line.write_named("as_i64", value.as_i64());
    output_line.write_named("as_str", value.as_str());
    output_line.write_named("as_symbol", value.as_symbol());
    output_line.write_named("as_array", value.as_array());
    output_line.write_named("as_document", value.as_document());
    output_line.write_named("as_timestamp", value.as_timestamp());
    output_line.write_named("as_object_id", value.as_object_id());
    output_line.write_named("as_datetime", value.as_datetime());
    output_line.write_named("as_db_pointer", value.as_db_pointer());
}

/// The accessors that lend a value for writing.
fn write_mut_accessors(value: &mut Bson, output_line: &mut RowOutput) {
    output_line.write_named("as_str_mut", value.as_str_mut());
    output_line.write_named("as_array_mut", value.as_array_mut());
    output_line.write_named("as_document_mut", value.as_document_mut());
    output_line.write_named("as_object_id_mut", value.as_object_id_mut());
    output_line.write_named("as_datetime_mut", value.as_datetime_mut());
    output_line.write_named("as_symbol_mut", value.as_symbol_mut());
}
