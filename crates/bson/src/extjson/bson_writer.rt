//! Values in memory that a text is read into.
ghost use Rattle.std.specs.Prelude.{◌≡◌, ◌++◌, ◌∷◌, [], string_bytes, IfOk, OnOk, IfErr};
ghost use Rattle.bson_text.specs.ErrorDenials.{ErrorRulesOutText};
ghost use Rattle.bson_text.specs.TraversalErrors.{IsWriterError};
ghost use Rattle.bson.specs.SortedMembers.{pairs_of_members};
ghost use Rattle.bson.specs.BsonWriterState.{HasPushedBson, key_in_container, document_in_order};
ghost use Rattle.bson.specs.TextMeaning.{HasTextMeaningInKeyOrder};
ghost use Rattle.bson.specs.View.{bson_view, document_view};

use crate::bson::Bson;
use crate::document::Document;
use crate::extjson::builder::with_scope;
use crate::extjson::scalars::from_scalar;
use crate::extjson::text_reader::sorted_members::document_of_members;
use bson_model::options::KeyOrder;
use bson_scalar::form::Doubles;
use bson_scalar::scalar::Scalar;
use bson_store::Pair;
use bson_text::traversal::write_text;
use bson_text::traversal_error::TraversalError;
use bson_text::value_writer::ValueWriter;
use itoa::Buffer;
use json::Scratch;
use std::alloc::{AllocError, Global};
use std::mem::replace;

/// Makes values in memory.
#[derive(Drop)]
pub(crate) struct BsonWriter {
    pub(crate) alloc: Global,
    pub(crate) key_order: KeyOrder,
    // The innermost array or document that is open. Outside of them, and around a scope, it is an
    // array.
    pub(crate) container: Container,
    // The key of the document that begins next.
    pub(crate) key: String,
}

/// The values so far of an array or a document.
#[derive(Drop)]
pub(crate) enum Container {
    Array(Vec<Bson>),
    Document(Vec<Pair<Bson>>),
}

/// The container around an array, a document or code, and its key there.
#[derive(Drop)]
pub(crate) struct EnclosingContainer {
    pub(crate) outer: Container,
    pub(crate) key: String,
}

impl BsonWriter {
    // Returns a copy of the name if the container has keys.
    fn copy_key_for_container(&self, name: &str) -> Result<String, AllocError>
        ensures { IfOk result
            (λ key. key_in_container self.now.container (string_bytes key)
            ≡ key_in_container self.now.container name.now) }
    {
        match &self.container {
            Container::Array(_) => Ok(String::new(self.alloc)),
            Container::Document(_) => String::from_str(self.alloc, name),
        }
    }

    fn push(&mut self, key: String, value: Bson) -> Result<(), TraversalError>
        ensures pushed { OnOk result (HasPushedBson self.old (string_bytes key) value self.new) }
        ensures stops { IfErr result (IsWriterError (λ doubles. ⊥)) }
    {
        match &mut self.container {
            Container::Array(items) => push_to_list(items, value),
            Container::Document(entries) => push_to_list(entries, Pair { key, value }),
        }
    }

    fn push_with_name(&mut self, name: &str, value: Bson) -> Result<(), TraversalError>
        ensures pushed { OnOk result (HasPushedBson self.old name.now value self.new) }
        ensures stops { IfErr result (IsWriterError (λ doubles. ⊥)) }
    {
        let key = self.copy_key_for_container(name)?;
        self.push(key, value)
    }
}

fn push_to_list<T: Drop>(list: &mut Vec<T>, value: T) -> Result<(), TraversalError>
    ensures pushed { OnOk result (list.new.items ≡ list.old.items ++ value ∷ []) }
    ensures stops { IfErr result (IsWriterError (λ doubles. ⊥)) }
{
    let Ok(()) = list.push(value) else {
        return Err(TraversalError::OutOfMemory);
    };
    Ok(())
}

impl ValueWriter for BsonWriter {
    type OpenContainer = EnclosingContainer;

    ghost use Rattle.bson.specs.BsonWriterState.{HasPushedValue, HasPushedDocument, HasBegunArray, HasBegunDocument, HasBegunCode};

    ghost may_give_up = { λ doubles. ⊥ };

    ghost sorts_keys = { ⊥ };

    ghost item_name_of = { λ item_index. [] };

    ghost wrote_value = { λ old name_bytes bson_value new. HasPushedValue old name_bytes bson_value new };

    ghost wrote_document = { λ old pair_list new. HasPushedDocument old pair_list new };

    ghost began_array = { λ old name_bytes enclosing new. HasBegunArray old name_bytes enclosing new };

    ghost began_document = { λ old enclosing new. HasBegunDocument old enclosing new };

    ghost wrote_key = { λ old name_bytes new. new ≡ old };

    ghost began_code = { λ old name_bytes code_bytes enclosing new. HasBegunCode old name_bytes code_bytes enclosing new };

    fn string(&mut self, name: &str, text: &str) -> Result<(), TraversalError> {
        let text = String::from_str(self.alloc, text)?;
        self.push_with_name(name, Bson::String(text))
    }

    fn boolean(&mut self, name: &str, truth: bool) -> Result<(), TraversalError> {
        self.push_with_name(name, Bson::Boolean(truth))
    }

    fn null(&mut self, name: &str) -> Result<(), TraversalError> {
        self.push_with_name(name, Bson::Null)
    }

    fn scalar(&mut self, name: &str, value: Scalar) -> Result<(), TraversalError> {
        self.push_with_name(name, from_scalar(value))
    }

    fn item_name<'b>(_buffer: &'b mut Buffer, _index: usize) -> &'b str {
        ""
    }

    fn begin_array(&mut self, name: &str) -> Result<EnclosingContainer, TraversalError> {
        let key = self.copy_key_for_container(name)?;
        let items = Container::Array(Vec::new(self.alloc));
        let outer = replace(&mut self.container, items);
        Ok(EnclosingContainer { outer, key })
    }

    fn end_array(&mut self, enclosing: EnclosingContainer) -> Result<(), TraversalError> {
        let EnclosingContainer { outer, key } = enclosing;
        let Container::Array(mut items) = replace(&mut self.container, outer) else {
            unreachable!()
        };
        items.shrink_to_fit();
        self.push(key, Bson::Array(items))
    }

    fn embed_document(&mut self, name: &str) -> Result<(), TraversalError> {
        self.key = self.copy_key_for_container(name)?;
        Ok(())
    }

    fn begin_document(&mut self) -> Result<EnclosingContainer, TraversalError> {
        let key = replace(&mut self.key, String::new(self.alloc));
        let entries = Container::Document(Vec::new(self.alloc));
        let outer = replace(&mut self.container, entries);
        Ok(EnclosingContainer { outer, key })
    }

    fn key(&mut self, _name: &str) -> Result<(), TraversalError> {
        Ok(())
    }

    fn end_document(
        &mut self,
        enclosing: EnclosingContainer,
        _keys: &mut [&str],
    ) -> Result<(), TraversalError> {
        let EnclosingContainer { outer, key } = enclosing;
        let Container::Document(entries) = replace(&mut self.container, outer) else {
            unreachable!()
        };
        let document = document_of(self.alloc, self.key_order, entries)?;
        self.push(key, Bson::Document(document))
    }

    fn begin_code(&mut self, name: &str, code: &str) -> Result<EnclosingContainer, TraversalError> {
        let key = self.copy_key_for_container(name)?;
        let items = Container::Array(Vec::new(self.alloc));
        let outer = replace(&mut self.container, items);
        let code = String::from_str(self.alloc, code)?;
        self.push_with_name("", Bson::JavaScriptCode(code))?;
        Ok(EnclosingContainer { outer, key })
    }

    fn end_code(&mut self, enclosing: EnclosingContainer) -> Result<(), TraversalError> {
        let EnclosingContainer { outer, key } = enclosing;
        let Container::Array(mut items) = replace(&mut self.container, outer) else {
            unreachable!()
        };
        let Some(Bson::Document(scope)) = items.pop() else {
            unreachable!()
        };
        let Some(Bson::JavaScriptCode(code)) = items.pop() else {
            unreachable!()
        };
        self.push(key, with_scope(code, scope))
    }
}

// Makes the document of the entries. If a key is duplicated, its last value wins.
fn document_of(
    alloc: Global,
    key_order: KeyOrder,
    entries: Vec<Pair<Bson>>,
) -> Result<Document, AllocError>
    ensures { IfOk result
        (λ document. document_view document ≡ document_in_order key_order (pairs_of_members entries.items)) }
{
    match key_order {
        KeyOrder::Ascending => document_of_members(alloc, entries),
        KeyOrder::AsGiven => Document::from_entries(alloc, entries),
    }
}

/// Reads the value of the text, each document with its keys in the order.
pub(crate) fn read_once(
    alloc: Global,
    doubles: Doubles,
    key_order: KeyOrder,
    text: &str,
) -> Result<Bson, TraversalError>
    ensures ok { IfOk result
        (λ bson_value. HasTextMeaningInKeyOrder key_order doubles text.now (bson_view bson_value)) }
    ensures stops { IfErr result (λ reading_error. ErrorRulesOutText doubles ⊥ ⊥ reading_error text.now) }
{
    let writer = BsonWriter {
        alloc,
        key_order,
        container: Container::Array(Vec::new(alloc)),
        key: String::new(alloc),
    };
    let mut scratch = Scratch::new(alloc);
    let written = write_text(alloc, doubles, text, &mut scratch, writer)?;
    drop(scratch);
    let BsonWriter { container, .. } = written;
    let Container::Array(mut items) = container else {
        unreachable!()
    };
    match items.pop() {
        Some(value) => Ok(value),
        None => unreachable!(),
    }
}
