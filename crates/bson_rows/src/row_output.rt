//! The output line of a row.
use crate::row_error::{CallError, RowError};
use bson::spec::BinarySubtype;
use std::alloc::{AllocError, Global};
use std::fmt::{Debug, Display};

/// How the result of a call is written.
#[derive(Clone, Copy)]
pub enum Style {
    /// A value by Display, an error by Debug.
    Plain,
    /// `{}`.
    Display,
    /// `{:?}`.
    Debug,
    /// `{:#?}`.
    Pretty,
}

/// The output line of a row, as far as it is written, and the allocator of its call.
#[derive(Drop)]
pub struct RowOutput {
    pub(crate) alloc: Global,
    text: String,
    style: Style,
    error: Option<RowError>,
}

impl RowOutput {
    /// Returns an empty output. Output that fits the capacity of the string allocates no memory.
    pub(crate) fn new(alloc: Global, text: String) -> RowOutput {
        RowOutput {
            alloc,
            text,
            style: Style::Plain,
            error: None,
        }
    }

    /// Clears the output, for the next row.
    pub(crate) fn begin_row(&mut self, style: Style) {
        self.text.clear();
        self.style = style;
        self.error = None;
    }

    /// Sets the error that is written instead of a result.
    pub(crate) fn set_error(&mut self, error: RowError) {
        self.error = Some(error);
    }

    /// Returns the output line of the row.
    pub(crate) fn line(&self) -> &str {
        match self.error {
            Some(error) => error.line(),
            None => self.text.as_str(),
        }
    }

    /// Returns the style of errors, which is plain if the row names none.
    pub(crate) fn style(&self) -> Style {
        self.style
    }

    fn record_failure(&mut self, write_outcome: Result<(), AllocError>) {
        if write_outcome.is_err() {
            self.error = Some(RowError::NoMemoryForRow);
        }
    }

    /// Writes a string as it is.
    pub(crate) fn write_str(&mut self, text: &str) {
        let write_outcome = self.text.push_str(text);
        self.record_failure(write_outcome);
    }

    /// Writes a part by Display, whatever the style.
    pub(crate) fn write_display<T: Display>(&mut self, item: &T) {
        let write_outcome = write!(self.text, "{item}");
        self.record_failure(write_outcome);
    }

    /// Writes a part by Debug, whatever the style.
    pub(crate) fn write_debug<T: Debug>(&mut self, item: &T) {
        let write_outcome = write!(self.text, "{item:?}");
        self.record_failure(write_outcome);
    }

    fn write_pretty<T: Debug>(&mut self, item: &T) {
        let write_outcome = write!(self.text, "{item:#?}");
        self.record_failure(write_outcome);
    }

    /// Writes the two hexadecimal digits of each byte.
    pub(crate) fn write_hex(&mut self, bytes: &[u8]) {
        for byte in bytes {
            let write_outcome = write!(self.text, "{byte:02x}");
            self.record_failure(write_outcome);
        }
    }

    /// Writes a space, and `{:x}` of the subtype.
    pub(crate) fn write_subtype(&mut self, subtype: BinarySubtype) {
        let write_outcome = write!(self.text, " {subtype:x}");
        self.record_failure(write_outcome);
    }

    /// Writes a space, unless the output is empty.
    pub(crate) fn write_space(&mut self) {
        if !self.text.is_empty() {
            self.write_str(" ");
        }
    }

    /// Writes a space, and a string.
    pub(crate) fn write_word(&mut self, word: &str) {
        self.write_space();
        self.write_str(word);
    }

    /// Writes a space, and a part by Display.
    pub(crate) fn write_item<T: Display>(&mut self, item: &T) {
        self.write_space();
        self.write_display(item);
    }

    /// Writes the value in the row's style, or by Display if the row names none.
    pub(crate) fn write_value<T: Display + Debug>(&mut self, value: &T) {
        match self.style {
            Style::Plain | Style::Display => self.write_display(value),
            Style::Debug => self.write_debug(value),
            Style::Pretty => self.write_pretty(value),
        }
    }

    /// Writes a value that has no Display.
    pub(crate) fn write_debug_value<T: Debug>(&mut self, value: &T) {
        match self.style {
            Style::Pretty => self.write_pretty(value),
            _ => self.write_debug(value),
        }
    }

    /// Writes the error of a call in the row's style, or by Debug if the row names none.
    pub(crate) fn write_error<E: CallError>(&mut self, error: &E) {
        if error.is_out_of_memory() {
            self.error = Some(RowError::OutOfMemory);
            return;
        }
        match self.style {
            Style::Display => self.write_display(error),
            Style::Pretty => self.write_pretty(error),
            _ => self.write_debug(error),
        }
    }

    /// Writes the result of a call.
    pub(crate) fn write_result<T: Display + Debug + Drop, E: CallError>(
        &mut self,
        call_result: Result<T, E>,
    ) {
        match call_result {
            Ok(value) => self.write_value(&value),
            Err(error) => self.write_error(&error),
        }
    }

    /// Writes the result of a call, whose value has no Display.
    pub(crate) fn write_debug_result<T: Debug + Drop, E: CallError>(
        &mut self,
        call_result: Result<T, E>,
    ) {
        match call_result {
            Ok(value) => self.write_debug_value(&value),
            Err(error) => self.write_error(&error),
        }
    }

    /// Writes a copy of the value, and before it `another` if it is not equal.
    pub(crate) fn write_copy<T: Display + Debug + PartialEq + Drop, E: CallError>(
        &mut self,
        value: &T,
        copy: Result<T, E>,
    ) {
        if let Some(copy) = self.compare_copy(value, copy) {
            self.write_value(&copy);
        }
    }

    /// Writes a copy of a value that has no Display, and before it `another` if it is not equal.
    pub(crate) fn write_debug_copy<T: Debug + PartialEq + Drop, E: CallError>(
        &mut self,
        value: &T,
        copy: Result<T, E>,
    ) {
        if let Some(copy) = self.compare_copy(value, copy) {
            self.write_debug_value(&copy);
        }
    }

    /// Writes `another` if the copy is not equal, and returns it; or writes why there is none.
    fn compare_copy<T: PartialEq + Drop, E: CallError>(
        &mut self,
        value: &T,
        copy: Result<T, E>,
    ) -> Option<T> {
        match copy {
            Ok(copy) => {
                if copy != *value {
                    self.write_str("another ");
                }
                Some(copy)
            }
            Err(error) => {
                self.write_error(&error);
                None
            }
        }
    }

    /// Writes a space, and the value or `None`.
    pub(crate) fn write_option<T: Display + Drop>(&mut self, item: Option<T>) {
        match item {
            Some(value) => self.write_item(&value),
            None => self.write_word("None"),
        }
    }

    /// Writes how the two compare.
    pub(crate) fn write_ordering<T: Ord + Drop>(&mut self, first_value: T, second_value: T) {
        self.write_debug(&first_value.cmp(&second_value));
    }

    /// Writes ` NAME=` and the value, if there is one.
    pub(crate) fn write_named<T: Debug + Drop>(
        &mut self,
        value_name: &str,
        named_value: Option<T>,
    ) {
        if let Some(value) = named_value {
            self.write_word(value_name);
            self.write_str("=");
            self.write_debug(&value);
        }
    }
}
