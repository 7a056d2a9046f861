//! The traversal of the tokens of a text, which writes each value as it is read.
ghost use Rattle.std.specs.Prelude.{[], IfErr, IfOk};
ghost use Rattle.bson_model.specs.Value.{Value as Meaning, Pairs, document};
ghost use Rattle.bson_model.specs.OrderedTexts.{HasMeaningInOrder};
ghost use Rattle.bson_text.specs.ErrorDenials.{ErrorRulesOutText};
ghost use Rattle.bson_text.specs.ErrorPaths.{LocatesTextError};

use crate::error_paths::{
    error_in_element, error_in_member, error_in_scope, give_up, read_scalar, wrong_shape_at_value,
};
use crate::level::Level;
use crate::lookahead::Lookahead;
use crate::traversal_error::TraversalError;
use crate::value_writer::ValueWriter;
use crate::wrapper_parts::{
    Scope, end_object, misplaced_wrapper, parse_number, read_scope, text_of,
};
use bson_scalar::code::is_code_with_scope;
use bson_scalar::form::Doubles;
use bson_scalar::scalar::Scalar;
use bson_scalar::wrapper::{Wrapper, wrapper_named};
use bson_tokens::MAX_DEPTH;
use bson_tokens::wrapper_content::read_wrapper_content;
use bson_tree::shape::{CODE_MESSAGE, other_keys_reason};
use itoa::Buffer;
use json::{Reader, Scratch, Token};
use std::alloc::Global;

// A longer text is read with memory of its own, which is freed with its reader.
const LONG_TEXT_BYTES: usize = 1 << 16;

/// Writes the value of the whole text, under no name. A text above 64 KiB has a scratch of its own.
///
/// # Errors
///
/// - `OutOfMemory`: an allocation failed.
/// - `DuplicateKey`: an object has two equal keys.
/// - `GaveUp`: an object begins with `$scope`, or the writer cannot write a value of the text.
/// - `Syntax`: the text is not JSON of at most 127 levels, or a number is out of range.
/// - `Fault`: the text does not mean a value.
pub fn write_text<W: ValueWriter + Drop>(
    alloc: Global,
    doubles: Doubles,
    text: &str,
    scratch: &mut Scratch,
    writer: W,
) -> Result<W, TraversalError>
    ensures ok { IfOk result (λ new. (written_value : Meaning) × HasMeaningInOrder doubles text.now written_value × W.wrote_value writer [] written_value new) }
    ensures stops { IfErr result (λ reported_error. ErrorRulesOutText doubles (W.may_give_up doubles) W.sorts_keys reported_error text.now) }
    ensures located { IfErr result (λ reported_error. LocatesTextError doubles reported_error text.now) }
{
    if text.len() > LONG_TEXT_BYTES {
        return write_with_scratch(alloc, doubles, text, &mut Scratch::new(alloc), writer);
    }
    write_with_scratch(alloc, doubles, text, scratch, writer)
}

// Writes the value of a text of any length, with this scratch.
fn write_with_scratch<W: ValueWriter + Drop>(
    alloc: Global,
    doubles: Doubles,
    text: &str,
    scratch: &mut Scratch,
    writer: W,
) -> Result<W, TraversalError>
    ensures ok { IfOk result (λ new. (written_value : Meaning) × HasMeaningInOrder doubles text.now written_value × W.wrote_value writer [] written_value new) }
    ensures stops { IfErr result (λ reported_error. ErrorRulesOutText doubles (W.may_give_up doubles) W.sorts_keys reported_error text.now) }
    ensures located { IfErr result (λ reported_error. LocatesTextError doubles reported_error text.now) }
{
    let reader = Reader::new(text, scratch)?;
    let mut traversal = Traversal {
        reader,
        keys: Vec::new(alloc),
        lookahead: Lookahead::new(alloc, text),
        writer,
    };
    let level = Level {
        alloc,
        doubles,
        depth: MAX_DEPTH,
    };
    traversal.write_value(level, "")?;
    traversal.finish()
}

/// Writes the document of the whole text, under no name, and returns the writer.
///
/// # Errors
///
/// The errors of [`write_text`]. `GaveUp` is also the error if the text is not an object.
pub fn write_document_text<W: ValueWriter + Drop>(
    alloc: Global,
    doubles: Doubles,
    text: &str,
    scratch: &mut Scratch,
    writer: W,
) -> Result<W, TraversalError>
    ensures ok { IfOk result (λ new. (document_pairs : Pairs)
        × HasMeaningInOrder doubles text.now (document document_pairs) × W.wrote_document writer document_pairs new) }
{
    let mut reader = Reader::new(text, scratch)?;
    let Some(Token::BeginObject) = reader.next() else {
        return Err(TraversalError::GaveUp);
    };
    let first_key = reader.next_key()?;
    let mut traversal = Traversal {
        reader,
        keys: Vec::new(alloc),
        lookahead: Lookahead::new(alloc, text),
        writer,
    };
    let level = Level {
        alloc,
        doubles,
        depth: MAX_DEPTH - 1,
    };
    traversal.write_document(level, first_key, true)?;
    traversal.finish()
}

/// The state of a traversal: the tokens that remain, and the writer of the values.
#[derive(Drop)]
pub(crate) struct Traversal<'a, W> {
    reader: Reader<'a>,
    // The keys of the open objects, those of the outermost object before the others.
    keys: Vec<&'a str>,
    lookahead: Lookahead<'a>,
    writer: W,
}

impl<'a, W: Drop> Traversal<'a, W> {
    ghost use Rattle.std.specs.Prelude.{◌≡◌, [], IfErr, IfOk};
    ghost use Rattle.bson_text.specs.declared.traversal_error.TraversalError.TheVariants.{Syntax};

    // Returns the writer if no token remains.
    fn finish(self) -> Result<W, TraversalError>
        ensures ok { IfOk result (λ writer. (self.entry.reader ≡ []) × (writer ≡ self.entry.writer)) }
        ensures stops { IfErr result (λ reported_error. (reported_error ≡ Syntax) × (self.entry.reader ≡ [] → ⊥)) }
    {
        let Traversal {
            mut reader,
            writer,
            ..
        } = self;
        if reader.next().is_some() {
            return Err(TraversalError::Syntax);
        }
        Ok(writer)
    }
}

impl<'a, W: ValueWriter> Traversal<'a, W> {
    ghost use Rattle.std.specs.Prelude.{◌≡◌, ◌<◌, ◌≤◌, length, Some, option_map, OnOk, IfErr};
    ghost use Rattle.json.specs.Json.{value, items};
    ghost use Rattle.serde_json.specs.Read.{converted};
    ghost use Rattle.bson_scalar.specs.Table.{wrapper_of};
    ghost use Rattle.bson_model.specs.Value.{array};
    ghost use Rattle.bson_model.specs.OrderedTrees.{tree_of_json, items_of_json};
    ghost use Rattle.bson_text.specs.TraversalResults.{ReadsTree, ReadsItems, ReadsObject, ReadsMembers, ReadsScope};
    ghost use Rattle.bson_text.specs.TraversalResults.{ReadsCode, tree_members_in_order, members_after_brace, members_after_key};
    ghost use Rattle.bson_text.specs.ErrorPaths.{IsValueError, IsItemsError, IsObjectError, IsMembersError, IsCodeError, IsScopeError};

    // Writes the next value under the name. It has at most as many levels as the level says.
    #[cycle(values)]
    fn write_value(&mut self, level: Level, name: &str) -> Result<(), TraversalError>
        ensures ok { OnOk result (ReadsTree level.doubles (converted tree_of_json (value level.depth self.old.reader)) self.new.reader
            (λ written_value. W.wrote_value self.old.writer name.now written_value self.new.writer)) }
        ensures keys { OnOk result (self.new.keys.items ≡ self.old.keys.items) }
        ensures shorter { OnOk result (length self.new.reader < length self.old.reader) }
        ensures fails { IfErr result (λ reported_error. IsValueError level.doubles (W.may_give_up level.doubles) W.sorts_keys reported_error
            (value level.depth self.old.reader) self.new.reader) }
    {
        let token = self.reader.next().ok_or(TraversalError::Syntax)?;
        match token {
            Token::String(text) => self.writer.string(name, text),
            Token::Number(text) => {
                self.writer
                    .scalar(name, parse_number(level.alloc, level.doubles, text)?)
            }
            Token::Bool(truth) => self.writer.boolean(name, truth),
            Token::Null => self.writer.null(name),
            Token::EndObject | Token::EndArray | Token::Key(_) | Token::Bad => Err(
                TraversalError::Syntax,
            ),
            Token::BeginArray => {
                if level.depth == 0 {
                    return Err(TraversalError::Syntax);
                }
                let depth = level.depth - 1;
                self.write_array(Level { depth, ..level }, name)
            }
            Token::BeginObject => {
                if level.depth == 0 {
                    return Err(TraversalError::Syntax);
                }
                let depth = level.depth - 1;
                self.write_object(Level { depth, ..level }, name)
            }
        }
    }

    // Writes the array whose bracket was read.
    #[cycle(values)]
    fn write_array(&mut self, level: Level, name: &str) -> Result<(), TraversalError>
        ensures ok { OnOk result (ReadsItems level.doubles
            (converted items_of_json (items (value level.depth) (length self.old.reader) self.old.reader)) self.new.reader
            (λ item_values. W.wrote_value self.old.writer name.now (array item_values) self.new.writer)) }
        ensures keys { OnOk result (self.new.keys.items ≡ self.old.keys.items) }
        ensures shorter { OnOk result (length self.new.reader < length self.old.reader) }
        ensures fails { IfErr result (λ reported_error. IsItemsError level.doubles (W.may_give_up level.doubles) W.sorts_keys reported_error
            (items (value level.depth) (length self.old.reader) self.old.reader) self.new.reader) }
    {
        let open_container = self.writer.begin_array(name)?;
        let mut index: usize = 0;
        'items: while !self.reader.take_end_array() {
            let mut buffer = Buffer::new();
            let name = W::item_name(&mut buffer, index);
            match self.write_value(level, name) {
                Ok(()) => {}
                Err(failure) => return Err(error_in_element(
                    &mut self.reader,
                    level.depth,
                    index,
                    failure,
                )),
            }
            index = index.checked_add(1).ok_or(TraversalError::OutOfMemory)?;
        }
        self.writer.end_array(open_container)
    }

    // Writes the object whose brace was read.
    #[cycle(values)]
    fn write_object(&mut self, level: Level, name: &str) -> Result<(), TraversalError>
        ensures ok { OnOk result (ReadsObject level.doubles (tree_members_in_order (members_after_brace level.depth self.old.reader)) self.new.reader
            (λ written_value. W.wrote_value self.old.writer name.now written_value self.new.writer)) }
        ensures keys { OnOk result (self.new.keys.items ≡ self.old.keys.items) }
        ensures shorter { OnOk result (length self.new.reader < length self.old.reader) }
        ensures fails { IfErr result (λ reported_error. IsObjectError level.doubles (W.may_give_up level.doubles) W.sorts_keys reported_error
            (members_after_brace level.depth self.old.reader) self.new.reader) }
    {
        let first_key = self.reader.next_key()?;
        if let Some(code) = self
            .lookahead
            .code_after_scope(first_key, self.reader.offset())?
        {
            let code_result = self.write_code(level, &code, true, name);
            return match code_result {
                Ok(()) => Ok(()),
                Err(failure) => Err(give_up(failure)),
            };
        }
        if let Some(key) = first_key {
            if let Some(wrapper) = wrapper_named(key) {
                return self.write_wrapper(level, wrapper, key, name);
            }
        }
        self.writer.embed_document(name)?;
        self.write_document(level, first_key, true)
    }

    // Writes the document of an object after its opening key was read, or an empty document.
    // No key is a duplicate. A key of a document is not a wrapper key, and a key of a scope may be one.
    #[cycle(values)]
    fn write_document(
        &mut self,
        level: Level,
        first_key: Option<&'a str>,
        is_document: bool,
    ) -> Result<(), TraversalError>
        ensures ok { OnOk result (ReadsMembers level.doubles is_document
            (tree_members_in_order (members_after_key level.depth (option_map (λ key_name. key_name.now) first_key.entry) self.old.reader)) self.new.reader
            (λ document_pairs. W.wrote_document self.old.writer document_pairs self.new.writer)) }
        ensures keys { OnOk result (self.new.keys.items ≡ self.old.keys.items) }
        ensures shorter { OnOk result (length self.new.reader ≤ length self.old.reader) }
        ensures fails { IfErr result (λ reported_error. IsMembersError level.doubles (W.may_give_up level.doubles) W.sorts_keys reported_error is_document
            (members_after_key level.depth (option_map (λ key_name. key_name.now) first_key.entry) self.old.reader) self.new.reader) }
    {
        let outer_len = self.keys.len();
        let open_container = self.writer.begin_document()?;
        let mut pending_key = first_key;
        'members: while let Some(key) = pending_key {
            if let Some(wrapper) = misplaced_wrapper(is_document, key) {
                return Err(wrong_shape_at_value(
                    level,
                    &mut self.reader,
                    other_keys_reason(wrapper),
                ));
            }
            let Ok(()) = self.keys.push(key) else {
                return Err(TraversalError::OutOfMemory);
            };
            self.writer.key(key)?;
            match self.write_value(level, key) {
                Ok(()) => {}
                Err(failure) => {
                    return Err(error_in_member(level, &mut self.reader, is_document, key, failure));
                }
            }
            pending_key = self.reader.next_key()?;
        }
        self.writer
            .end_document(open_container, &mut self.keys.as_mut_slice()[outer_len..])?;
        self.keys.truncate(outer_len);
        Ok(())
    }

    // Writes the wrapper whose key was read: a wrapper of that key alone, or code before its scope.
    #[cycle(values)]
    #[inline(never)]
    fn write_wrapper(
        &mut self,
        level: Level,
        wrapper: Wrapper,
        key: &str,
        name: &str,
    ) -> Result<(), TraversalError>
        requires { wrapper_of key.now ≡ Some wrapper }
        ensures ok { OnOk result (ReadsObject level.doubles (tree_members_in_order (members_after_key level.depth (Some key.now) self.old.reader))
            self.new.reader (λ written_value. W.wrote_value self.old.writer name.now written_value self.new.writer)) }
        ensures keys { OnOk result (self.new.keys.items ≡ self.old.keys.items) }
        ensures shorter { OnOk result (length self.new.reader < length self.old.reader) }
        ensures fails { IfErr result (λ reported_error. IsObjectError level.doubles (W.may_give_up level.doubles) W.sorts_keys reported_error
            (members_after_key level.depth (Some key.now) self.old.reader) self.new.reader) }
    {
        let content = read_wrapper_content(level.alloc, &mut self.reader, level.depth)?;
        let Some(second_key) = self.reader.next_key()? else {
            let value = read_scalar(level, wrapper, content, key)?;
            return self.writer.scalar(name, value);
        };
        if !is_code_with_scope(key, second_key) {
            return Err(wrong_shape_at_value(level, &mut self.reader, other_keys_reason(wrapper)));
        }
        let Ok(code) = text_of(content) else {
            return Err(wrong_shape_at_value(level, &mut self.reader, CODE_MESSAGE));
        };
        self.write_code(level, &code, false, name)
    }

    // Writes code from its scope's value to the end of their object. Code after its scope must be this.
    #[cycle(values)]
    #[inline(never)]
    fn write_code(
        &mut self,
        level: Level,
        code: &str,
        code_follows_scope: bool,
        name: &str,
    ) -> Result<(), TraversalError>
        ensures ok { OnOk result (ReadsCode level.doubles level.depth code.now code_follows_scope self.old.reader self.new.reader
            (λ written_value. W.wrote_value self.old.writer name.now written_value self.new.writer)) }
        ensures keys { OnOk result (self.new.keys.items ≡ self.old.keys.items) }
        ensures shorter { OnOk result (length self.new.reader < length self.old.reader) }
        ensures fails { IfErr result (λ reported_error. IsCodeError level.doubles (W.may_give_up level.doubles) W.sorts_keys reported_error code_follows_scope
            level.depth self.old.reader self.new.reader) }
    {
        let scope = read_scope(level, &mut self.reader)?;
        match scope {
            Scope::Null => {
                end_object(level, &mut self.reader, code, code_follows_scope)?;
                let code = String::from_str(level.alloc, code)?;
                self.writer.scalar(name, Scalar::JavaScriptCode(code))
            }
            Scope::Object => {
                let open_container = self.writer.begin_code(name, code)?;
                match self.write_scope(level) {
                    Ok(()) => {}
                    Err(failure) => return Err(error_in_scope(level, &mut self.reader, failure)),
                }
                end_object(level, &mut self.reader, code, code_follows_scope)?;
                self.writer.end_code(open_container)
            }
        }
    }

    // Writes the document of the scope whose brace was read.
    #[cycle(values)]
    fn write_scope(&mut self, level: Level) -> Result<(), TraversalError>
        ensures ok { OnOk result (ReadsScope level.doubles level.depth self.old.reader self.new.reader
            (λ document_pairs. W.wrote_document self.old.writer document_pairs self.new.writer)) }
        ensures keys { OnOk result (self.new.keys.items ≡ self.old.keys.items) }
        ensures shorter { OnOk result (length self.new.reader < length self.old.reader) }
        ensures fails { IfErr result (λ reported_error. IsScopeError level.doubles (W.may_give_up level.doubles) W.sorts_keys reported_error level.depth
            self.old.reader self.new.reader) }
    {
        if level.depth == 0 {
            return Err(TraversalError::Syntax);
        }
        let first_key = self.reader.next_key()?;
        let inner_depth = level.depth - 1;
        self.write_document(
            Level {
                depth: inner_depth,
                ..level
            },
            first_key,
            false,
        )
    }
}
