//! Equality of values with the order of their keys, which `==` ignores.
ghost use Rattle.std.specs.Prelude.{◌≡◌, ◌↔◌, IsTrue};
ghost use Rattle.bson.specs.View.{bson_view, document_view, code_with_scope_view, values_view};
ghost use Rattle.bson.specs.SameInOrder.{same_in_order, same_items_in_order, same_pairs_in_order};

use crate::bson::{Bson, JavaScriptCodeWithScope};
use crate::document::Document;

impl Bson {
    /// Returns true if and only if the values are equal with the order of their keys: kinds and
    /// fields, arrays element by element, and documents and scopes pair by pair.
    ///
    /// Values that are equal in order are also `==`. The documents `{"$ref": "c", "$id": 1}` and
    /// `{"$id": 1, "$ref": "c"}` are `==`, and not equal in order.
    pub fn eq_ordered(&self, other: &Bson) -> bool
        ensures { IsTrue result ↔ (bson_view self.now ≡ bson_view other.now) }
    {
        same_values_in_order(self, other)
    }
}

impl Document {
    /// Returns true if and only if the documents are equal with the order of their keys, at every
    /// depth.
    pub fn eq_ordered(&self, other: &Document) -> bool
        ensures { IsTrue result ↔ (document_view self.now ≡ document_view other.now) }
    {
        same_documents_in_order(self, other)
    }
}

#[cycle(in_order)]
#[tactic(auto, unfolding(crate::specs::SameInOrder::same_in_order, bson_model::specs::Same::same))]
fn same_values_in_order(left: &Bson, right: &Bson) -> bool
    ensures { result ≡ same_in_order (bson_view left.now) (bson_view right.now) }
{
    match (left, right) {
        (Bson::Array(left_content), Bson::Array(right_content)) => same_lists_in_order(
            left_content,
            right_content,
        ),
        (Bson::Document(left_content), Bson::Document(right_content)) => same_documents_in_order(
            left_content,
            right_content,
        ),
        (
            Bson::JavaScriptCodeWithScope(left_content),
            Bson::JavaScriptCodeWithScope(right_content),
        ) => { same_code_in_order(left_content, right_content) }
        (left_content, right_content) => left_content == right_content,
    }
}

#[cycle(in_order)]
#[tactic(auto, unfolding(crate::specs::SameInOrder::same_in_order))]
fn same_code_in_order(left: &JavaScriptCodeWithScope, right: &JavaScriptCodeWithScope) -> bool
    ensures { result ≡ same_in_order (code_with_scope_view left.now) (code_with_scope_view right.now) }
{
    left.code == right.code && same_documents_in_order(&left.scope, &right.scope)
}

#[cycle(in_order)]
fn same_lists_in_order(left: &Vec<Bson>, right: &Vec<Bson>) -> bool
    ensures { result ≡ same_items_in_order (values_view left.now.items) (values_view right.now.items) }
{
    if left.len() != right.len() {
        return false;
    }
    let mut item_index = 0;
    'items: while item_index < left.len()
        && same_values_in_order(&left[item_index], &right[item_index])
    {
        item_index += 1;
    }
    item_index == left.len()
}

#[cycle(in_order)]
fn same_documents_in_order(left: &Document, right: &Document) -> bool
    ensures { result ≡ same_pairs_in_order (document_view left.now) (document_view right.now) }
{
    let mut left_pairs = left.iter();
    let mut right_pairs = right.iter();
    'pairs: while let Some((key, value)) = left_pairs.next() {
        match right_pairs.next() {
            None => return false,
            Some((other_key, other_value)) => {
                if key != other_key {
                    return false;
                }
                if !same_values_in_order(value, other_value) {
                    return false;
                }
            }
        }
    }
    right_pairs.next().is_none()
}
