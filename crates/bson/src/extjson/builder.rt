//! A `Bson`, built from its parts as a tree is read.
ghost use Rattle.std.specs.Prelude.{◌≡◌, string_bytes};
ghost use Rattle.bson_model.specs.Value.{code_scope};
ghost use Rattle.bson_model.specs.Normal.{NumbersInRange, ItemsInRange, PairsInRange};
ghost use Rattle.bson.specs.View.{bson_view, document_view, pairs_view, values_view};

use crate::bson::{Bson, JavaScriptCodeWithScope};
use crate::document::Document;
use crate::extjson::scalars::from_scalar;
use bson_scalar::scalar::Scalar;
use bson_store::{PairStore, SmallPairs};
use bson_tree::builder::ValueBuilder;
use std::alloc::{AllocError, Global};

/// Builds the `Bson` of each value.
pub(crate) struct BsonBuilder;

impl ValueBuilder for BsonBuilder {
    type Value = Bson;

    type Items = Vec<Bson>;

    type Pairs = SmallPairs<Bson>;

    ghost represents = { λ built_value model_value. (bson_view built_value ≡ model_value)
        × NumbersInRange (bson_view built_value) };

    ghost represents_items = { λ items model_values. (values_view items.items ≡ model_values)
        × ItemsInRange (values_view items.items) };

    ghost represents_pairs = { λ pairs model_pairs. (pairs_view pairs ≡ model_pairs) × PairsInRange (pairs_view pairs) };

    fn scalar(value: Scalar) -> Bson {
        from_scalar(value)
    }

    fn items(alloc: Global, len: usize) -> Result<Vec<Bson>, AllocError> {
        Vec::with_capacity(alloc, len)
    }

    fn push(items: &mut Vec<Bson>, value: Bson) -> Result<(), AllocError> {
        items.push(value)?;
        Ok(())
    }

    fn array(items: Vec<Bson>) -> Bson {
        Bson::Array(items)
    }

    fn pairs(alloc: Global, len: usize) -> Result<SmallPairs<Bson>, AllocError> {
        SmallPairs::with_capacity(alloc, len)
    }

    fn put(pairs: &mut SmallPairs<Bson>, key: String, value: Bson) -> Result<(), AllocError> {
        match pairs.push(key, value) {
            Ok(()) => Ok(()),
            Err(_) => Err(AllocError),
        }
    }

    fn document(pairs: SmallPairs<Bson>) -> Bson {
        Bson::Document(Document { pairs })
    }

    fn code(code: String, scope: SmallPairs<Bson>) -> Bson {
        with_scope(code, Document { pairs: scope })
    }
}

// Code with its scope.
pub(crate) fn with_scope(code: String, scope: Document) -> Bson
    ensures { bson_view result ≡ code_scope (string_bytes code) (document_view scope) }
{
    Bson::JavaScriptCodeWithScope(JavaScriptCodeWithScope { code, scope })
}
