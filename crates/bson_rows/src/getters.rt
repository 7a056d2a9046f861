//! `get KEY DOCUMENT`: what each typed getter of the document answers at the key, by Debug; and
//! `get_i32 KEY DOCUMENT`, the result of that one.
use crate::arguments::split_at_space;
use crate::row_error::RowResult;
use crate::row_output::RowOutput;
use crate::row_values::parse_document;
use bson::Document;
use bson::document::{ValueAccessError, ValueAccessResult};

pub(crate) fn run_call(remaining_args: &str, output_line: &mut RowOutput) -> RowResult {
    let (key, document_text) = split_at_space(remaining_args);
    let mut document = parse_document(output_line.alloc, document_text)?;
    write_lookups(&document, key, output_line);
    write_accessors(&document, key, output_line);
    write_mut_accessors(&mut document, key, output_line);
    Ok(())
}

/// What `get_i32` answers at the key.
pub(crate) fn run_get_i32(remaining_args: &str, output_line: &mut RowOutput) -> RowResult {
    let (key, document_text) = split_at_space(remaining_args);
    let document = parse_document(output_line.alloc, document_text)?;
    output_line.write_result(document.get_i32(key));
    Ok(())
}

/// The value that `get` finds, whether the document has the key, and whether its value is null.
fn write_lookups(document: &Document, key: &str, output_line: &mut RowOutput) {
    output_line.write_option(document.get(key));
    if document.contains_key(key) {
        output_line.write_str(" contained");
    }
    if document.is_null(key) {
        output_line.write_str(" null");
    }
}

/// The output of the getters, and how many of them refused, by their refusal.
#[derive(Drop)]
struct GetterOutput<'a> {
    output_line: &'a mut RowOutput,
    not_present: u8,
    unexpected_type: u8,
}

impl<'a> GetterOutput<'a> {
    fn new(output_line: &'a mut RowOutput) -> GetterOutput<'a> {
        GetterOutput {
            output_line,
            not_present: 0,
            unexpected_type: 0,
        }
    }

    /// Writes what the getter answers, or counts its refusal.
    fn write<T: std::fmt::Debug + Drop>(&mut self, name: &str, answer: ValueAccessResult<T>) {
        match answer {
            Ok(value) => self.output_line.write_named(name, Some(value)),
            Err(ValueAccessError::NotPresent) => self.not_present = self
                .not_present
                .saturating_add(1),
            Err(ValueAccessError::UnexpectedType) => self.unexpected_type = self
                .unexpected_type
                .saturating_add(1),
        }
    }

    fn write_counts(&mut self) {
        self.output_line
            .write_named("NotPresent", Some(self.not_present));
        self.output_line
            .write_named("UnexpectedType", Some(self.unexpected_type));
    }
}

fn write_accessors(document: &Document, key: &str, output_line: &mut RowOutput) {
    let mut getters = GetterOutput::new(output_line);
    getters.write("get_f64", document.get_f64(key));
    getters.write("get_bool", document.get_bool(key));
    getters.write("get_i32", document.get_i32(key));
    getters.write("get_i64", document.get_i64(key));
    getters.write("get_str", document.get_str(key));
    getters.write("get_array", document.get_array(key));
    getters.write("get_document", document.get_document(key));
    getters.write("get_binary_generic", document.get_binary_generic(key));
    getters.write("get_timestamp", document.get_timestamp(key));
    getters.write("get_object_id", document.get_object_id(key));
    getters.write("get_datetime", document.get_datetime(key));
    getters.write("get_decimal128", document.get_decimal128(key));
    getters.write_counts();
}

/// The getters that lend for writing.
fn write_mut_accessors(document: &mut Document, key: &str, output_line: &mut RowOutput) {
    let mut getters = GetterOutput::new(output_line);
    getters.write("get_f64_mut", document.get_f64_mut(key));
    getters.write("get_bool_mut", document.get_bool_mut(key));
    getters.write("get_i32_mut", document.get_i32_mut(key));
    getters.write("get_i64_mut", document.get_i64_mut(key));
    getters.write("get_str_mut", document.get_str_mut(key));
    getters.write("get_array_mut", document.get_array_mut(key));
    getters.write("get_document_mut", document.get_document_mut(key));
    getters.write(
        "get_binary_generic_mut",
        document.get_binary_generic_mut(key),
    );
    getters.write("get_timestamp_mut", document.get_timestamp_mut(key));
    getters.write("get_object_id_mut", document.get_object_id_mut(key));
    getters.write("get_datetime_mut", document.get_datetime_mut(key));
    getters.write("get_decimal128_mut", document.get_decimal128_mut(key));
    getters.write_counts();
}
