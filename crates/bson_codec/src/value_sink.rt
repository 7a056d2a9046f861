//! A sink that makes values in memory.
ghost use Rattle.std.specs.Prelude.{◌≡◌, ◌≤◌, ℕ, true, List, length, IfOk, OnOk, string_bytes};
ghost use Rattle.bson.specs.View.{bson_view, document_view, values_view};
ghost use Rattle.bson_bytes.specs.Grammar.{pair_values};
ghost use Rattle.bson_bytes.specs.Reading.{read_key, read_name};
ghost use Rattle.bson_codec.specs.ReadToMemory.{DocumentOrArray};
ghost use Rattle.bson_model.specs.Value.{Pairs, scalar, code_scope};
ghost use Rattle.bson_bytes.specs.FixedScalars.{fixed_scalar_view};
ghost use Rattle.bson_bytes.specs.Source.{ReadsTo, earlier_keys, with_last_pair};
ghost use Rattle.bson_bytes.specs.declared.stop.Stop.TheVariants as stops;

use crate::pair_list::PairList;
use bson::{Binary, Bson, DbPointer, Document, JavaScriptCodeWithScope, ObjectId, Regex};
use bson_bytes::fixed_scalar::FixedSizeScalar;
use bson_bytes::read_parts::skip_name;
use bson_bytes::sink::ValueSink;
use bson_bytes::stop::Stop;
use bson_types::spec::BinarySubtype;
use std::alloc::{AllocError, Global};
use std::marker::PhantomData;

/// A sink that makes values in memory.
#[derive(Drop)]
pub(crate) struct Values<P: PairList> {
    alloc: Global,
    pair_list: PhantomData<P>,
}

/// The elements of an open array or document.
#[derive(Drop)]
pub(crate) struct Elements<P: PairList> {
    items: Vec<Bson>,
    pairs: P,
}

impl<P: PairList> Values<P> {
    pub(crate) fn new(alloc: Global) -> Values<P> {
        Values {
            alloc,
            pair_list: PhantomData,
        }
    }
}

impl<P: PairList> ValueSink for Values<P> {
    type Value = Bson;

    type OpenList = Elements<P>;

    type Name = String;

    type Document = Document;

    type Code = String;

    ghost keys = { P.keys };

    ghost may_stop = { λ stop. stop ≡ stops.OutOfMemory };

    ghost value_written = { λ old_sink value value_made new_sink. bson_view value_made ≡ value };

    ghost list_opened = { λ is_document old_sink pairs_read list new_sink. DocumentOrArray is_document (P.list_has_pairs pairs_read list.pairs) (values_view list.items.items ≡ pair_values pairs_read) };

    ghost name_written = { λ is_document old_sink key name new_sink. DocumentOrArray is_document (string_bytes name ≡ key) (Unit {0}) };

    ghost document_written = { λ old_sink pairs_read document new_sink. document_view document ≡ pairs_read };

    ghost code_opened = { λ old_sink code_text code new_sink. string_bytes code ≡ code_text };

    fn fixed_scalar(&mut self, value: FixedSizeScalar) -> Result<Bson, AllocError> {
        Ok(from_fixed_scalar(value))
    }

    fn string(&mut self, text: &str) -> Result<Bson, AllocError> {
        Ok(Bson::String(String::from_str(self.alloc, text)?))
    }

    fn symbol(&mut self, text: &str) -> Result<Bson, AllocError> {
        Ok(Bson::Symbol(String::from_str(self.alloc, text)?))
    }

    fn code(&mut self, text: &str) -> Result<Bson, AllocError> {
        Ok(Bson::JavaScriptCode(String::from_str(self.alloc, text)?))
    }

    fn regex(&mut self, pattern: &str, options: &str) -> Result<Bson, AllocError> {
        let pattern = String::from_str(self.alloc, pattern)?;
        let options = String::from_str(self.alloc, options)?;
        Ok(Bson::RegularExpression(Regex { pattern, options }))
    }

    fn binary(&mut self, subtype: u8, bytes: &[u8]) -> Result<Bson, AllocError> {
        let bytes = Vec::from_slice(self.alloc, bytes)?;
        let subtype = BinarySubtype::from(subtype);
        Ok(Bson::Binary(Binary { subtype, bytes }))
    }

    fn pointer(&mut self, namespace: &str, id: [u8; 12]) -> Result<Bson, AllocError> {
        let namespace = String::from_str(self.alloc, namespace)?;
        let id = ObjectId::from_bytes(id);
        Ok(Bson::DbPointer(DbPointer::new(namespace, id)))
    }

    fn begin(&mut self, _is_document: bool) -> Result<Elements<P>, AllocError> {
        let items = Vec::new(self.alloc);
        let pairs = P::new(self.alloc);
        Ok(Elements { items, pairs })
    }

    fn name<'b>(
        &mut self,
        is_document: bool,
        list: &Elements<P>,
        bytes: &'b [u8],
    ) -> Result<(String, &'b [u8]), Stop> {
        if is_document {
            read_key_copy(self.alloc, &list.pairs, bytes)
        } else {
            skip_array_name(self.alloc, bytes)
        }
    }

    fn element(
        &mut self,
        is_document: bool,
        list: &mut Elements<P>,
        name: String,
        value: Bson,
    ) -> Result<(), AllocError> {
        if is_document {
            list.pairs.put_pair(name, value)
        } else {
            push_item(&mut list.items, value)
        }
    }

    fn end_array(&mut self, list: Elements<P>) -> Result<Bson, AllocError> {
        Ok(Bson::Array(list.items))
    }

    fn end_document(&mut self, list: Elements<P>) -> Result<Document, Stop> {
        Ok(list.pairs.into_document(self.alloc)?)
    }

    fn embed_document(&mut self, document: Document) -> Result<Bson, AllocError> {
        Ok(Bson::Document(document))
    }

    fn begin_code(&mut self, text: &str) -> Result<String, AllocError> {
        Ok(String::from_str(self.alloc, text)?)
    }

    fn end_code(&mut self, code: String, scope: Document) -> Result<Bson, AllocError> {
        Ok(with_scope(code, scope))
    }
}

// Reads a key, and returns a copy of it.
fn read_key_copy<'b, P: PairList>(
    alloc: Global,
    pairs: &P,
    bytes: &'b [u8],
) -> Result<(String, &'b [u8]), Stop>
    ensures outcome { (pairs_read : Pairs) → P.list_has_pairs pairs_read pairs.now
        → ReadsTo (λ stop. stop ≡ stops.OutOfMemory) (λ returned. returned.1.now)
        (λ name_read returned. string_bytes returned.0 ≡ name_read) result
        (read_key (earlier_keys P.keys true pairs_read) bytes.now) }
    ensures shorter { IfOk result (λ returned. length returned.1.now ≤ length bytes.now) }
{
    let (name, rest) = pairs.read_key(bytes)?;
    Ok((String::from_str(alloc, name)?, rest))
}

// Reads the name of an element of an array, and keeps nothing of it.
fn skip_array_name(alloc: Global, bytes: &[u8]) -> Result<(String, &[u8]), Stop>
    ensures outcome { ReadsTo (λ stop. stop ≡ stops.OutOfMemory) (λ returned. returned.1.now)
        (λ name_read returned. Unit {0}) result (read_name bytes.now) }
    ensures shorter { IfOk result (λ returned. length returned.1.now ≤ length bytes.now) }
{
    let rest = skip_name(bytes)?;
    Ok((String::new(alloc), rest))
}

fn push_item(items: &mut Vec<Bson>, value: Bson) -> Result<(), AllocError>
    ensures { OnOk result ((pairs_read : Pairs) (key : List ℕ) → values_view items.old.items ≡ pair_values pairs_read
        → values_view items.new.items ≡ pair_values (with_last_pair pairs_read key (bson_view value))) }
{
    Ok(items.push(value)?)
}

fn with_scope(code: String, scope: Document) -> Bson
    ensures { bson_view result ≡ code_scope (string_bytes code) (document_view scope) }
{
    Bson::JavaScriptCodeWithScope(JavaScriptCodeWithScope { code, scope })
}

fn from_fixed_scalar(value: FixedSizeScalar) -> Bson
    ensures { bson_view result ≡ scalar (fixed_scalar_view value) }
{
    match value {
        FixedSizeScalar::Null => Bson::Null,
        FixedSizeScalar::Undefined => Bson::Undefined,
        FixedSizeScalar::MinKey => Bson::MinKey,
        FixedSizeScalar::MaxKey => Bson::MaxKey,
        FixedSizeScalar::Boolean(truth) => Bson::Boolean(truth),
        FixedSizeScalar::Double(pattern) => Bson::Double(pattern),
        FixedSizeScalar::Int32(number) => Bson::Int32(number),
        FixedSizeScalar::Int64(number) => Bson::Int64(number),
        FixedSizeScalar::Timestamp(timestamp) => Bson::Timestamp(timestamp),
        FixedSizeScalar::ObjectId(id) => Bson::ObjectId(id),
        FixedSizeScalar::DateTime(date) => Bson::DateTime(date),
        FixedSizeScalar::Decimal128(decimal) => Bson::Decimal128(decimal),
    }
}
