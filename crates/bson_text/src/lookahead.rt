//! Code that follows its scope, read ahead. The traversal compares it with the code that it reads
//! later, so no clause says that it is right.
ghost use Rattle.std.specs.Prelude.{◌≡◌, Some, codes, option_map, IfOk, IfSome};

use bson_scalar::code::is_scope;
use json::{Reader, Scratch, Token};
use std::alloc::{AllocError, Global};
use std::collections::BTreeMap;

/// The codes of a text that follow their scopes. The text is read once more for them, when
/// an object begins with `$scope`.
#[derive(Drop)]
pub(crate) struct Lookahead<'a> {
    alloc: Global,
    text: &'a str,
    codes: Option<BTreeMap<usize, String>>,
}

impl<'a> Lookahead<'a> {
    // Makes a reader that has read nothing of the text.
    pub(crate) fn new(alloc: Global, text: &'a str) -> Lookahead<'a> {
        Lookahead {
            alloc,
            text,
            codes: None,
        }
    }

    // Returns the code after its scope in an object that begins with this key, if it is `$scope`. The
    // value of the key begins at this offset of the text.
    pub(crate) fn code_after_scope(
        &mut self,
        first_key: Option<&str>,
        offset: usize,
    ) -> Result<Option<String>, AllocError>
        ensures { IfOk result
            (λ code. IfSome code
            (λ _. option_map (λ member_key. member_key.now) first_key.entry ≡ Some (codes "$scope"))) }
    {
        let Some(key) = first_key else {
            return Ok(None);
        };
        if !is_scope(key) {
            return Ok(None);
        }
        self.code_at(offset)
    }

    fn code_at(&mut self, offset: usize) -> Result<Option<String>, AllocError> {
        if self.codes.is_none() {
            self.codes = Some(codes_after_scopes(self.alloc, self.text)?);
        }
        let Some(codes) = &mut self.codes else {
            return Ok(None);
        };
        Ok(codes.remove(&offset))
    }
}

// An array or an object that is open, by the last key of it that was read.
#[derive(Clone, Copy, Drop)]
enum OpenContainer {
    // No key was read.
    Brace,
    // `$scope`, at the beginning: the scope begins at this offset.
    Scope(usize),
    // `$code`, right after this scope.
    Code(usize),
    // Another, or the elements of an array.
    Other,
}

// Returns the code right after each scope that begins its object, by the offset of the scope.
fn codes_after_scopes(alloc: Global, text: &str) -> Result<BTreeMap<usize, String>, AllocError> {
    let mut scratch = Scratch::new(alloc);
    let mut reader = Reader::new(text, &mut scratch)?;
    let mut codes = BTreeMap::new(alloc);
    let mut open_containers = Vec::new(alloc);
    'tokens: while let Some(token) = reader.next() {
        match token {
            Token::BeginObject => open_containers.push(OpenContainer::Brace)?,
            Token::BeginArray => open_containers.push(OpenContainer::Other)?,
            Token::EndObject | Token::EndArray => drop(open_containers.pop()),
            Token::Key(key) => {
                let container = open_containers.pop().unwrap_or(OpenContainer::Other);
                open_containers.push(container_after_key(container, key, reader.offset()))?;
            }
            Token::String(text) => {
                if let Some(OpenContainer::Code(offset)) = open_containers.last() {
                    drop(codes.insert(*offset, String::from_str(alloc, text)?)?);
                }
            }
            Token::Number(_) | Token::Bool(_) | Token::Null | Token::Bad => {}
        }
    }
    Ok(codes)
}

// Returns what is open after this key of it was read. The value of the key begins at the offset.
fn container_after_key(container: OpenContainer, key: &str, offset: usize) -> OpenContainer {
    match container {
        OpenContainer::Brace if is_scope(key) => OpenContainer::Scope(offset),
        OpenContainer::Scope(scope) if key == "$code" => OpenContainer::Code(scope),
        _ => OpenContainer::Other,
    }
}
