//! Documents that the tests start from.
use bson::{Bson, Document};
use std::alloc::{AllocError, Global};

/// Inserts the pair, and drops it if an allocation fails.
pub(crate) fn insert_pair(
    document: &mut Document,
    key: String,
    value: Bson,
) -> Result<(), AllocError> {
    match document.insert(key, value) {
        Ok(_) => Ok(()),
        Err(_) => Err(AllocError),
    }
}

/// Returns a document of the pairs, in their order.
pub(crate) fn document_of(alloc: Global, pairs: &[(&str, i32)]) -> Result<Document, AllocError> {
    let mut document = Document::new(alloc);
    for &(key, value) in pairs {
        insert_pair(
            &mut document,
            String::from_str(alloc, key)?,
            Bson::Int32(value),
        )?;
    }
    Ok(document)
}
