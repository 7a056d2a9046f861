//! Parses the value that a row names: a JSON text that is read, or steps after `made`.
use crate::row_error::RowError;
use crate::value_steps;
use bson::extjson::de::Error;
use bson::{Bson, Document};
use serde_json::Value;
use std::alloc::Global;

/// Parses the text as a tree.
pub(crate) fn parse_tree(alloc: Global, text: &str) -> Result<Value, RowError> {
    match Value::from_str(alloc, text) {
        Ok(tree) => Ok(tree),
        Err(error) if error.is_memory() => Err(RowError::NoMemoryForRow),
        Err(_) => Err(RowError::InvalidRow),
    }
}

/// Parses the value that the text names. If it can't be read, the row is invalid.
pub(crate) fn parse_value(alloc: Global, text: &str) -> Result<Bson, RowError> {
    if let Some(made_steps) = text.strip_prefix("made ") {
        return value_steps::make_value(alloc, made_steps);
    }
    match Bson::try_from_value(alloc, parse_tree(alloc, text)?) {
        Ok(value) => Ok(value),
        Err(Error::OutOfMemory) => Err(RowError::NoMemoryForRow),
        Err(_) => Err(RowError::InvalidRow),
    }
}

/// Parses the document that the text names.
pub(crate) fn parse_document(alloc: Global, text: &str) -> Result<Document, RowError> {
    match parse_value(alloc, text)? {
        Bson::Document(document) => Ok(document),
        _ => Err(RowError::InvalidRow),
    }
}
