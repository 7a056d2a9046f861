//! Copies of values, in memory of their own.
ghost use Rattle.std.specs.Prelude.{◌≡◌, IfOk};
ghost use Rattle.bson.specs.View.{bson_view, document_view, code_with_scope_view, values_view, pairs_view};

use crate::bson::{Bson, JavaScriptCodeWithScope};
use crate::document::Document;
use crate::extjson::scalars::from_scalar;
use crate::scalar::scalar_ref;
use bson_store::{PairStore, SmallPairs};
use std::alloc::{AllocError, Global};

impl Bson {
    /// Returns a copy of the value, in memory of its own.
    ///
    /// # Errors
    ///
    /// Returns `AllocError` if a request for memory is refused.
    pub fn clone(&self, alloc: Global) -> Result<Bson, AllocError>
        ensures { IfOk result (λ copied. bson_view copied ≡ bson_view self.now) }
    {
        copy_value(alloc, self)
    }
}

impl JavaScriptCodeWithScope {
    /// Returns a copy of the code and its scope, in memory of its own.
    ///
    /// # Errors
    ///
    /// Returns `AllocError` if a request for memory is refused.
    pub fn clone(&self, alloc: Global) -> Result<JavaScriptCodeWithScope, AllocError>
        ensures { IfOk result (λ copied. code_with_scope_view copied ≡ code_with_scope_view self.now) }
    {
        copy_code_with_scope(alloc, self)
    }
}

impl Document {
    /// Returns a copy of the pairs in the same order, in memory of its own from the document's
    /// allocator.
    ///
    /// # Errors
    ///
    /// Returns `AllocError` if a request for memory is refused.
    pub fn clone(&self) -> Result<Document, AllocError>
        ensures { IfOk result (λ copied_document. document_view copied_document ≡ document_view self.now) }
    {
        copy_pairs(self.pairs.allocator(), self)
    }
}

#[cycle(clone)]
fn copy_value(alloc: Global, value: &Bson) -> Result<Bson, AllocError>
    ensures { IfOk result (λ copied. bson_view copied ≡ bson_view value.now) }
{
    Ok(match value {
        Bson::Array(values) => Bson::Array(copy_values(alloc, values)?),
        Bson::Document(document) => Bson::Document(copy_pairs(alloc, document)?),
        Bson::JavaScriptCodeWithScope(code_with_scope) => Bson::JavaScriptCodeWithScope(
            copy_code_with_scope(alloc, code_with_scope)?,
        ),
        value => from_scalar(scalar_ref(value).to_owned(alloc)?),
    })
}

#[cycle(clone)]
fn copy_code_with_scope(
    alloc: Global,
    code_with_scope: &JavaScriptCodeWithScope,
) -> Result<JavaScriptCodeWithScope, AllocError>
    ensures { IfOk result (λ copied. code_with_scope_view copied ≡ code_with_scope_view code_with_scope.now) }
{
    Ok(JavaScriptCodeWithScope {
        code: String::from_str(alloc, code_with_scope.code.as_str())?,
        scope: copy_pairs(alloc, &code_with_scope.scope)?,
    })
}

#[cycle(clone)]
fn copy_values(alloc: Global, values: &Vec<Bson>) -> Result<Vec<Bson>, AllocError>
    ensures { IfOk result (λ copied. values_view copied.items ≡ values_view values.now.items) }
{
    let mut copies = Vec::with_capacity(alloc, values.len())?;
    for value in values {
        copies.push(copy_value(alloc, value)?)?;
    }
    Ok(copies)
}

#[cycle(clone)]
fn copy_pairs(alloc: Global, document: &Document) -> Result<Document, AllocError>
    ensures { IfOk result (λ copied_document. pairs_view copied_document.pairs ≡ pairs_view document.now.pairs) }
{
    let mut pairs = SmallPairs::with_capacity(alloc, document.pairs.len())?;
    for pair_index in 0..document.pairs.len() {
        let key = String::from_str(alloc, document.pairs.key_at(pair_index).as_str())?;
        let value = copy_value(alloc, document.pairs.value_at(pair_index))?;
        match pairs.push(key, value) {
            Ok(()) => {}
            Err(_) => return Err(AllocError),
        }
    }
    Ok(Document { pairs })
}
