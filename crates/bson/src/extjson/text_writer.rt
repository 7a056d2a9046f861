//! The text of a value in both forms, written with no tree.
ghost use Rattle.std.specs.Prelude.{◌≡◌, ◌+◌, ◌-◌, ◌<◌, [], true, Err, IfErr, OnOk, string_bytes};
ghost use Rattle.std.specs.Prelude.{vec_capacity, vec_len};
ghost use Rattle.json.specs.Print.{print as print_tokens};
ghost use Rattle.serde_json.specs.Data.{array, object};
ghost use Rattle.bson_scalar.specs.Normal.{ScalarInRange};
ghost use Rattle.bson_scalar.specs.Tokens.{AppendsTreeTokens};
ghost use Rattle.bson_scalar.specs.View.{scalar_of};
ghost use Rattle.bson_scalar.specs.Written.{writes_scalar_in};
ghost use Rattle.bson_model.specs.Normal.{NumbersInRange, ItemsInRange, PairsInRange};
ghost use Rattle.bson_model.specs.DistinctKeys.{AllKeysDistinct, ItemKeysDistinct, PairKeysDistinct};
ghost use Rattle.bson_store.specs.Pairs.{HasDistinctKeys};
ghost use Rattle.bson.specs.KeyOrders.{pairs_of_order, writes_in_key_order, writes_items_in_key_order};
ghost use Rattle.bson.specs.KeyOrders.{writes_pairs_in_key_order, writes_scalar_in_key_order};
ghost use Rattle.bson.specs.Texts.{AppendsPrintedTokens, ReturnsWrittenText, AppendsText, IsWriteErrorIn};
ghost use Rattle.bson.specs.IsScalar.{IsScalar};
ghost use Rattle.bson.specs.OutputCapacity.{is_allocation_free as is_scalar_allocation_free, IsAllocationFree, ValuesAreAllocationFree, PairsAreAllocationFree};
ghost use Rattle.bson.specs.OutputCapacity.{written_tree_capacity, value_capacity, values_capacity, pairs_capacity, StaysWithinCapacityOrStops};
ghost use Rattle.bson_model.specs.declared.options.KeyOrder.TheVariants.{AsGiven};
ghost use Rattle.bson_scalar.specs.declared.write_error.WriteError.TheVariants.{OutOfMemory};
ghost use Rattle.bson.specs.View.{bson_view, code_with_scope_view, values_view, pairs_view};

use crate::bson::{Bson, JavaScriptCodeWithScope};
use crate::document::Document;
use crate::extjson::scalars::can_be_printed;
use crate::extjson::without_allocation::{is_allocation_free, print_without_allocation, put_code};
use crate::scalar::scalar_ref;
use bson_model::options::{KeyOrder, Options};
use bson_scalar::form::{Doubles, Form};
use bson_scalar::scalar_ref::ScalarRef;
use bson_scalar::write::{print_ordered_scalar, print_scalar_in, put_binary};
use bson_scalar::write_error::WriteError;
use bson_store::small::Iter;
use bson_types::binary::Binary;
use bson_types::db_pointer::DbPointer;
use bson_types::regex::Regex;
use json::Writer;
use std::alloc::Global;
use std::mem;

pub(crate) fn text_of(
    alloc: Global,
    options: Options,
    form: Form,
    value: &Bson,
) -> Result<String, WriteError>
    ensures written { ReturnsWrittenText result
        (writes_in_key_order options.key_order options.doubles form (bson_view value.now)) }
    ensures within_type_range { OnOk result (NumbersInRange (bson_view value.now)) }
    ensures distinct { OnOk result (AllKeysDistinct (bson_view value.now)) }
    ensures possible_errors { IfErr result (IsWriteErrorIn options.doubles) }
{
    let mut writer = Writer::new(Vec::with_capacity(alloc, 128)?);
    print(
        alloc,
        options.doubles,
        options.key_order,
        form,
        value,
        &mut writer,
    )?;
    Ok(into_text(writer))
}

// The text that was written.
pub(crate) fn into_text(writer: Writer) -> String
    requires { writer.before ≡ [] }
    ensures { string_bytes result ≡ print_tokens writer.tokens }
{
    let Ok(text) = String::from_utf8(writer.into_inner()) else {
        unreachable!();
    };
    text
}

// Appends the text in the value's own order. The vector is lent to a writer, and is as it was if
// there is no text.
pub(crate) fn append_text(
    alloc: Global,
    doubles: Doubles,
    form: Form,
    value: &Bson,
    output: &mut Vec<u8>,
) -> Result<(), WriteError>
    ensures written { AppendsText result
        (writes_in_key_order AsGiven doubles form (bson_view value.now)) output.old.items output.new.items }
    ensures within_type_range { OnOk result (NumbersInRange (bson_view value.now)) }
    ensures distinct { OnOk result (AllKeysDistinct (bson_view value.now)) }
    ensures possible_errors { IfErr result (IsWriteErrorIn doubles) }
    ensures room { IsAllocationFree form (bson_view value.now) → result ≡ Err OutOfMemory
        → vec_capacity output.old - vec_len output.old < value_capacity doubles form (bson_view value.now) }
{
    let len = output.len();
    let mut writer = Writer::new(mem::replace(output, Vec::new(alloc)));
    match print(alloc, doubles, KeyOrder::AsGiven, form, value, &mut writer) {
        Ok(()) => {
            *output = writer.into_inner();
            Ok(())
        }
        Err(error) => {
            *output = writer.into_inner();
            output.truncate(len);
            Err(error)
        }
    }
}

#[cycle(print)]
fn print(
    alloc: Global,
    doubles: Doubles,
    key_order: KeyOrder,
    form: Form,
    value: &Bson,
    writer: &mut Writer,
) -> Result<(), WriteError>
    ensures printed { AppendsPrintedTokens (λ json_tree. json_tree) result
        (writes_in_key_order key_order doubles form (bson_view value.now)) writer.old.tokens
        writer.new.tokens }
    ensures before { writer.new.before ≡ writer.old.before }
    ensures within_type_range { OnOk result (NumbersInRange (bson_view value.now)) }
    ensures distinct { OnOk result (AllKeysDistinct (bson_view value.now)) }
    ensures possible_errors { IfErr result (IsWriteErrorIn doubles) }
    ensures room { IsAllocationFree form (bson_view value.now)
        → StaysWithinCapacityOrStops result writer.old.spare writer.new.spare
        (value_capacity doubles form (bson_view value.now)) }
{
    match value {
        Bson::Array(values) => print_items(alloc, doubles, key_order, form, values, writer),
        Bson::Document(document) => print_document(
            alloc, doubles, key_order, form, document, writer,
        ),
        Bson::JavaScriptCodeWithScope(code_with_scope) => print_code_with_scope(
            alloc,
            doubles,
            key_order,
            form,
            code_with_scope,
            writer,
        ),
        // (these two are written from where they are: no other scalar has large memory of its own)
        Bson::String(text) => Ok(writer.string(text.as_str())?),
        Bson::Binary(binary) => Ok(put_binary(alloc, binary, writer)?),
        value => print_scalar(alloc, doubles, key_order, form, value, writer),
    }
}

// The text of a value that holds no other.
fn print_scalar(
    alloc: Global,
    doubles: Doubles,
    key_order: KeyOrder,
    form: Form,
    value: &Bson,
    writer: &mut Writer,
) -> Result<(), WriteError>
    requires { IsScalar (bson_view value.now) }
    ensures printed { AppendsPrintedTokens (λ json_tree. json_tree) result
        (writes_in_key_order key_order doubles form (bson_view value.now))
        writer.old.tokens writer.new.tokens }
    ensures before { writer.new.before ≡ writer.old.before }
    ensures within_type_range { OnOk result (NumbersInRange (bson_view value.now)) }
    ensures distinct { OnOk result (AllKeysDistinct (bson_view value.now)) }
    ensures possible_errors { IfErr result (IsWriteErrorIn doubles) }
    ensures room { IsAllocationFree form (bson_view value.now)
        → StaysWithinCapacityOrStops result writer.old.spare writer.new.spare
        (value_capacity doubles form (bson_view value.now)) }
{
    // (the prover plans the loans in a `ScalarRef` only where these types are named)
    let _borrowed_types: Option<(&Regex, &Binary, &DbPointer)> = None;
    print_scalar_ref(alloc, doubles, key_order, form, &scalar_ref(value), writer)
}

// The same by reference. If the scalar is not direct, its text is first made in memory of its own.
fn print_scalar_ref(
    alloc: Global,
    doubles: Doubles,
    key_order: KeyOrder,
    form: Form,
    scalar: &ScalarRef<'_>,
    writer: &mut Writer,
) -> Result<(), WriteError>
    ensures printed { AppendsTreeTokens result
        (writes_scalar_in_key_order key_order doubles form (scalar_of scalar.now)) writer.old.tokens
        writer.new.tokens }
    ensures before { writer.new.before ≡ writer.old.before }
    ensures within_type_range { OnOk result (ScalarInRange (scalar_of scalar.now)) }
    ensures possible_errors { IfErr result (IsWriteErrorIn doubles) }
    ensures room { is_scalar_allocation_free form (scalar_of scalar.now) ≡ true
        → StaysWithinCapacityOrStops result writer.old.spare
        writer.new.spare (written_tree_capacity (writes_scalar_in doubles form (scalar_of scalar.now))) }
{
    can_be_printed(scalar);
    if is_allocation_free(form, scalar) {
        print_without_allocation(doubles, form, scalar, writer)
    } else {
        let scalar = scalar.to_owned(alloc)?;
        match key_order {
            KeyOrder::Ascending => print_scalar_in(alloc, doubles, form, scalar, writer),
            KeyOrder::AsGiven => print_ordered_scalar(alloc, doubles, form, scalar, writer),
        }
    }
}

#[cycle(print)]
fn print_items(
    alloc: Global,
    doubles: Doubles,
    key_order: KeyOrder,
    form: Form,
    values: &Vec<Bson>,
    writer: &mut Writer,
) -> Result<(), WriteError>
    ensures printed { AppendsPrintedTokens array result
        (writes_items_in_key_order key_order doubles form (values_view values.now.items))
        writer.old.tokens writer.new.tokens }
    ensures before { writer.new.before ≡ writer.old.before }
    ensures within_type_range { OnOk result (ItemsInRange (values_view values.now.items)) }
    ensures distinct { OnOk result (ItemKeysDistinct (values_view values.now.items)) }
    ensures possible_errors { IfErr result (IsWriteErrorIn doubles) }
    ensures room { ValuesAreAllocationFree form (values_view values.now.items)
        → StaysWithinCapacityOrStops result writer.old.spare
        writer.new.spare (2 + values_capacity doubles form (values_view values.now.items)) }
{
    writer.begin_array()?;
    for item in values {
        print(alloc, doubles, key_order, form, item, writer)?;
    }
    Ok(writer.end_array()?)
}

#[cycle(print)]
fn print_code_with_scope(
    alloc: Global,
    doubles: Doubles,
    key_order: KeyOrder,
    form: Form,
    code_with_scope: &JavaScriptCodeWithScope,
    writer: &mut Writer,
) -> Result<(), WriteError>
    ensures printed { AppendsPrintedTokens (λ json_tree. json_tree) result
        (writes_in_key_order key_order doubles form (code_with_scope_view code_with_scope.now)) writer.old.tokens
        writer.new.tokens }
    ensures before { writer.new.before ≡ writer.old.before }
    ensures within_type_range { OnOk result (NumbersInRange (code_with_scope_view code_with_scope.now)) }
    ensures distinct { OnOk result (AllKeysDistinct (code_with_scope_view code_with_scope.now)) }
    ensures possible_errors { IfErr result (IsWriteErrorIn doubles) }
    ensures room { IsAllocationFree form (code_with_scope_view code_with_scope.now)
        → StaysWithinCapacityOrStops result writer.old.spare writer.new.spare
        (value_capacity doubles form (code_with_scope_view code_with_scope.now)) }
{
    put_code(code_with_scope.code.as_str(), writer)?;
    print_document(
        alloc,
        doubles,
        key_order,
        form,
        &code_with_scope.scope,
        writer,
    )?;
    Ok(writer.end_object()?)
}

#[cycle(print)]
fn print_document(
    alloc: Global,
    doubles: Doubles,
    key_order: KeyOrder,
    form: Form,
    document: &Document,
    writer: &mut Writer,
) -> Result<(), WriteError>
    ensures printed { AppendsPrintedTokens object result
        (writes_pairs_in_key_order key_order doubles form (pairs_view document.now.pairs))
        writer.old.tokens writer.new.tokens }
    ensures before { writer.new.before ≡ writer.old.before }
    ensures within_type_range { OnOk result (PairsInRange (pairs_view document.now.pairs)) }
    ensures distinct { OnOk result (PairKeysDistinct (pairs_view document.now.pairs)) }
    ensures possible_errors { IfErr result (IsWriteErrorIn doubles) }
    ensures room { PairsAreAllocationFree form (pairs_view document.now.pairs)
        → StaysWithinCapacityOrStops result writer.old.spare
        writer.new.spare (2 + pairs_capacity doubles form (pairs_view document.now.pairs)) }
{
    writer.begin_object()?;
    'pairs: for (key, value) in pairs_in_key_order(key_order, document) {
        writer.key(key.as_str())?;
        print(alloc, doubles, key_order, form, value, writer)?;
    }
    Ok(writer.end_object()?)
}

// The pairs in the order.
fn pairs_in_key_order<'a>(key_order: KeyOrder, document: &'a Document) -> Iter<'a, Bson>
    ensures pairs { result ≡ pairs_of_order key_order document.now.pairs }
    ensures distinct { HasDistinctKeys document.now.pairs }
{
    match key_order {
        KeyOrder::Ascending => document.pairs.by_key(),
        KeyOrder::AsGiven => document.pairs.iter(),
    }
}
