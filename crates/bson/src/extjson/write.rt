//! The writer of both forms.
ghost use Rattle.std.specs.Prelude.{IfErr, OnOk};
ghost use Rattle.serde_json.specs.View.{view, items_view, members_view};
ghost use Rattle.bson_scalar.specs.Written.{IsWriteResult};
ghost use Rattle.bson_model.specs.Normal.{NumbersInRange, ItemsInRange, PairsInRange};
ghost use Rattle.bson_model.specs.Writing.{writes_value_in, writes_items_in, writes_pairs_in};
ghost use Rattle.bson.specs.Texts.{IsWriteErrorIn};
ghost use Rattle.bson.specs.View.{bson_view, code_with_scope_view, document_view, values_view};

use crate::bson::{Bson, JavaScriptCodeWithScope};
use crate::document::Document;
use crate::extjson::scalars::{can_be_written, to_scalar};
use bson_scalar::code::code_with_scope_tree;
use bson_scalar::form::{Doubles, Form};
use bson_scalar::write::write_scalar_in;
use bson_scalar::write_error::WriteError;
use serde_json::{Map, Value};
use std::alloc::Global;

#[cycle(write)]
pub(crate) fn write(
    alloc: Global,
    doubles: Doubles,
    form: Form,
    value: Bson,
) -> Result<Value, WriteError>
    ensures written { IsWriteResult view result (writes_value_in doubles form (bson_view value)) }
    ensures within_type_range { OnOk result (NumbersInRange (bson_view value)) }
    ensures possible_errors { IfErr result (IsWriteErrorIn doubles) }
{
    match value {
        Bson::Array(values) => Ok(Value::Array(write_items(alloc, doubles, form, values)?)),
        Bson::Document(document) => Ok(Value::Object(write_pairs(alloc, doubles, form, document)?)),
        Bson::JavaScriptCodeWithScope(code_with_scope) => write_code_with_scope(
            alloc,
            doubles,
            form,
            code_with_scope,
        ),
        value => {
            let scalar = to_scalar(alloc, value)?;
            can_be_written(&scalar);
            write_scalar_in(alloc, doubles, form, scalar)
        }
    }
}

#[cycle(write)]
fn write_code_with_scope(
    alloc: Global,
    doubles: Doubles,
    form: Form,
    code_with_scope: JavaScriptCodeWithScope,
) -> Result<Value, WriteError>
    ensures written { IsWriteResult view result (writes_value_in doubles form (code_with_scope_view code_with_scope)) }
    ensures within_type_range { OnOk result (NumbersInRange (code_with_scope_view code_with_scope)) }
    ensures possible_errors { IfErr result (IsWriteErrorIn doubles) }
{
    let JavaScriptCodeWithScope { code, scope } = code_with_scope;
    let scope = write_pairs(alloc, doubles, form, scope)?;
    Ok(code_with_scope_tree(alloc, code, scope)?)
}

#[cycle(write)]
fn write_items(
    alloc: Global,
    doubles: Doubles,
    form: Form,
    values: Vec<Bson>,
) -> Result<Vec<Value>, WriteError>
    ensures written { IsWriteResult (λ written_items. items_view written_items.items) result
        (writes_items_in doubles form (values_view values.items)) }
    ensures within_type_range { OnOk result (ItemsInRange (values_view values.items)) }
    ensures possible_errors { IfErr result (IsWriteErrorIn doubles) }
{
    let mut items = Vec::with_capacity(alloc, values.len())?;
    for value in values {
        items.push(write(alloc, doubles, form, value)?)?;
    }
    Ok(items)
}

#[cycle(write)]
pub(crate) fn write_pairs(
    alloc: Global,
    doubles: Doubles,
    form: Form,
    document: Document,
) -> Result<Map<String, Value>, WriteError>
    ensures written { IsWriteResult (λ written_map. members_view written_map.entries) result
        (writes_pairs_in doubles form (document_view document)) }
    ensures within_type_range { OnOk result (PairsInRange (document_view document)) }
    ensures possible_errors { IfErr result (IsWriteErrorIn doubles) }
{
    let Document { pairs } = document;
    let mut members = Map::new(alloc);
    for (key, value) in pairs.into_pairs() {
        let written = write(alloc, doubles, form, value)?;
        drop(members.insert(key, written)?);
    }
    Ok(members)
}
