//! Equality of values.
ghost use Rattle.std.specs.Prelude.{◌≡◌};
ghost use Rattle.bson_model.specs.Value.{document};
ghost use Rattle.bson.specs.View.{bson_view, contents, pairs_view, code_with_scope_view, values_view};
ghost use Rattle.bson_model.specs.Same.{same, same_items};

mod ordered;

use crate::bson::{Bson, JavaScriptCodeWithScope};
use crate::document::Document;
use crate::scalar::same_scalars;
use bson_store::PairStore;

impl PartialEq for Bson {
    ghost use Rattle.std.specs.Cmp.{on_per, partial_equiv_from_equiv};
    ghost use Rattle.bson.specs.View.{bson_view};
    ghost use Rattle.bson_model.specs.Same.{same};
    ghost use Rattle.bson_model.proofs.SameSorted.{same_equiv};

    ghost eq = { λ left right. same (bson_view left) (bson_view right) };

    ghost laws = { on_per bson_view (partial_equiv_from_equiv same_equiv) };

    fn eq(&self, other: &Bson) -> bool {
        same_values(self, other)
    }
}

impl Eq for Bson {
    ghost use Rattle.std.specs.Cmp.{on_equiv};
    ghost use Rattle.bson.specs.View.{bson_view};
    ghost use Rattle.bson_model.proofs.SameSorted.{same_equiv};

    ghost laws = { on_equiv bson_view same_equiv };
}

impl PartialEq for Document {
    ghost use Rattle.std.specs.Cmp.{on_per, partial_equiv_from_equiv};
    ghost use Rattle.bson_model.specs.Value.{document};
    ghost use Rattle.bson.specs.View.{document_view};
    ghost use Rattle.bson_model.specs.Same.{same};
    ghost use Rattle.bson_model.proofs.SameSorted.{same_equiv};

    ghost eq = { λ left right. same (document (document_view left)) (document (document_view right)) };

    ghost laws = { on_per (λ document_value. document (document_view document_value)) (partial_equiv_from_equiv same_equiv) };

    fn eq(&self, other: &Document) -> bool {
        same_documents(self, other)
    }
}

impl Eq for Document {
    ghost use Rattle.std.specs.Cmp.{on_equiv};
    ghost use Rattle.bson_model.specs.Value.{document};
    ghost use Rattle.bson.specs.View.{document_view};
    ghost use Rattle.bson_model.proofs.SameSorted.{same_equiv};

    ghost laws = { on_equiv (λ document_value. document (document_view document_value)) same_equiv };
}

impl PartialEq for JavaScriptCodeWithScope {
    ghost use Rattle.std.specs.Cmp.{on_per, partial_equiv_from_equiv};
    ghost use Rattle.bson.specs.View.{code_with_scope_view};
    ghost use Rattle.bson_model.specs.Same.{same};
    ghost use Rattle.bson_model.proofs.SameSorted.{same_equiv};

    ghost eq = { λ left right. same (code_with_scope_view left) (code_with_scope_view right) };

    ghost laws = { on_per code_with_scope_view (partial_equiv_from_equiv same_equiv) };

    fn eq(&self, other: &JavaScriptCodeWithScope) -> bool {
        same_code_with_scope(self, other)
    }
}

impl Eq for JavaScriptCodeWithScope {
    ghost use Rattle.std.specs.Cmp.{on_equiv};
    ghost use Rattle.bson.specs.View.{code_with_scope_view};
    ghost use Rattle.bson_model.proofs.SameSorted.{same_equiv};

    ghost laws = { on_equiv code_with_scope_view same_equiv };
}

#[cycle(same)]
#[tactic(auto, unfolding(bson_model::specs::Same::same))]
fn same_values(left: &Bson, right: &Bson) -> bool
    ensures { result ≡ same (bson_view left.now) (bson_view right.now) }
{
    match (left, right) {
        (Bson::Array(left_content), Bson::Array(right_content)) => same_lists(
            left_content,
            right_content,
        ),
        (Bson::Document(left_content), Bson::Document(right_content)) => same_documents(
            left_content,
            right_content,
        ),
        (
            Bson::JavaScriptCodeWithScope(left_content),
            Bson::JavaScriptCodeWithScope(right_content),
        ) => same_code_with_scope(left_content, right_content),
        (left, right) => same_scalars(left, right),
    }
}

#[cycle(same)]
#[tactic(auto, unfolding(bson_model::specs::Same::same))]
fn same_code_with_scope(left: &JavaScriptCodeWithScope, right: &JavaScriptCodeWithScope) -> bool
    ensures { result ≡ same (code_with_scope_view left.now) (code_with_scope_view right.now) }
{
    left.code == right.code && same_documents(&left.scope, &right.scope)
}

#[cycle(same)]
fn same_lists(left: &Vec<Bson>, right: &Vec<Bson>) -> bool
    ensures { result ≡ same_items (values_view left.now.items) (values_view right.now.items) }
{
    if left.len() != right.len() {
        return false;
    }
    let mut item_index = 0;
    'items: while item_index < left.len() && same_values(&left[item_index], &right[item_index]) {
        item_index += 1;
    }
    item_index == left.len()
}

#[cycle(same)]
fn same_documents(left: &Document, right: &Document) -> bool
    ensures { result
        ≡ same (document (pairs_view (contents left.now))) (document (pairs_view (contents right.now))) }
{
    if left.pairs.len() != right.pairs.len() {
        return false;
    }
    for left_index in 0..left.pairs.len() {
        match right.pairs.find(left.pairs.key_at(left_index).as_str()) {
            None => return false,
            Some(right_index) => {
                if !same_values(
                    left.pairs.value_at(left_index),
                    right.pairs.value_at(right_index),
                ) {
                    return false;
                }
            }
        }
    }
    true
}
