//! The text that is written token by token, and the spans of an object's members in it.
ghost use Rattle.std.specs.Prelude.{◌≡◌, ◌≤◌, ◌-◌, ◌++◌, ◌∷◌, [], drop, false, length, true, IfErr, IfOk, OnOk};
ghost use Rattle.std.specs.Prelude.{string_bytes};
ghost use Rattle.std.specs.List.{All};
ghost use Rattle.json.specs.Print.{print, IsPrintable};
ghost use Rattle.json.specs.Reads.{token_of};
ghost use Rattle.serde_json.specs.Written.{comma_if};
ghost use Rattle.json.specs.declared.error.Error.TheVariants.{OutOfMemory};
ghost use Rattle.bson_tokens.specs.NormalizerStates.{AppendedAfterComma, TextAppended, ObjectOpened, IsObjectNormalized, IsObjectNormalizedEarly, IsMemberSpanWithin, MemberOpened};

use crate::member_order::{MemberSpan, normalize_spans};
use bson_model::options::KeyOrder;
use json::{Error, Token, Writer};
use std::alloc::{AllocError, Global};
use std::mem::replace;

// If an open object has this many members, they are normalized before its end, and again after each
// doubling.
pub(crate) const MEMBERS_BEFORE_NORMALIZING: usize = 1_000;

// The text so far. The members of an open object are in it in input order.
#[derive(Drop)]
pub(crate) struct Normalizer {
    pub(crate) alloc: Global,
    pub(crate) key_order: KeyOrder,
    pub(crate) text: Vec<u8>,
    // A buffer for the writer of a token. In a long text it would reserve much memory ahead.
    pub(crate) token_buffer: Vec<u8>,
    // Whether the next value needs a comma before it.
    pub(crate) needs_comma: bool,
}

// Converts the text to a string.
pub(crate) fn into_text(text: Vec<u8>) -> Result<String, Error>
    ensures bytes { IfOk result (λ text_string. string_bytes text_string ≡ text.items) }
    ensures out_of_memory { IfErr result (λ conversion_error. conversion_error ≡ OutOfMemory) }
{
    match String::from_utf8(text) {
        Ok(text) => Ok(text),
        Err(_) => Err(Error::OutOfMemory),
    }
}

impl Normalizer {
    pub(crate) fn new(
        alloc: Global,
        key_order: KeyOrder,
        capacity: usize,
    ) -> Result<Normalizer, AllocError>
        ensures key_order { IfOk result (λ normalizer. normalizer.key_order ≡ key_order) }
        ensures empty { IfOk result (λ normalizer. normalizer.text.items ≡ []) }
        ensures no_comma_yet { IfOk result (λ normalizer. normalizer.needs_comma ≡ false) }
    {
        Ok(Normalizer {
            alloc,
            key_order,
            text: Vec::with_capacity(alloc, capacity)?,
            token_buffer: Vec::new(alloc),
            needs_comma: false,
        })
    }

    // Adds a comma if one is needed.
    fn add_comma(&mut self) -> Result<(), AllocError>
        ensures { OnOk result (TextAppended self.old (comma_if self.old.needs_comma) self.old.needs_comma self.new) }
    {
        if self.needs_comma {
            self.text.push(b',')?;
        }
        Ok(())
    }

    // Adds a token, and says whether the next value needs a comma.
    fn push_token(&mut self, token: Token<'_>, needs_comma: bool) -> Result<(), AllocError>
        requires { IsPrintable (token_of token) }
        ensures { OnOk result (TextAppended self.old (print (token_of token.entry ∷ [])) needs_comma self.new) }
    {
        let mut emptied_buffer = replace(&mut self.token_buffer, Vec::new(self.alloc));
        emptied_buffer.clear();
        let mut token_writer = Writer::new(emptied_buffer);
        token_writer.token(token)?;
        self.token_buffer = token_writer.into_inner();
        self.text.extend_from_slice(&self.token_buffer)?;
        self.needs_comma = needs_comma;
        Ok(())
    }

    // Adds a value of one token.
    pub(crate) fn push_scalar(&mut self, token: Token<'_>) -> Result<(), AllocError>
        requires { IsPrintable (token_of token) }
        ensures { OnOk result (AppendedAfterComma self.old (print (token_of token.entry ∷ [])) true self.new) }
    {
        self.add_comma()?;
        self.push_token(token, true)
    }

    // Opens an array or an object.
    pub(crate) fn open_container(&mut self, byte: u8) -> Result<(), AllocError>
        ensures { OnOk result (AppendedAfterComma self.old (byte ∷ []) false self.new) }
    {
        self.add_comma()?;
        self.text.push(byte)?;
        self.needs_comma = false;
        Ok(())
    }

    // Closes an array or an object.
    pub(crate) fn close_container(&mut self, byte: u8) -> Result<(), AllocError>
        ensures { OnOk result (TextAppended self.old (byte ∷ []) true self.new) }
    {
        self.text.push(byte)?;
        self.needs_comma = true;
        Ok(())
    }

    // Opens an object, and returns the position of its first member.
    pub(crate) fn begin_object(&mut self) -> Result<usize, AllocError>
        ensures { IfOk result (λ object_start. ObjectOpened self.old object_start self.new) }
    {
        self.open_container(b'{')?;
        Ok(self.text.len())
    }

    // Returns the distance from the start of the object to the end of the text.
    pub(crate) fn offset_in_object(&self, object_start: usize) -> usize
        ensures { result ≡ length self.now.text.items - object_start }
    {
        self.text.len().saturating_sub(object_start)
    }

    // Adds the key of a member, and returns the member's position in its object.
    pub(crate) fn begin_member(
        &mut self,
        object_start: usize,
        key: &str,
    ) -> Result<usize, AllocError>
        ensures { IfOk result
            (λ offset_in_object. MemberOpened self.old object_start key.now offset_in_object self.new) }
    {
        self.add_comma()?;
        let offset_in_object = self.offset_in_object(object_start);
        self.push_token(Token::Key(key), false)?;
        Ok(offset_in_object)
    }

    // Normalizes the members of an open object.
    pub(crate) fn normalize_members(
        &mut self,
        object_start: usize,
        spans: &mut Vec<MemberSpan<'_>>,
    ) -> Result<(), AllocError>
        requires start_in_text { object_start ≤ length self.old.text.items }
        requires spans_in_object { All (IsMemberSpanWithin (drop object_start self.old.text.items)) spans.old.items }
        ensures { OnOk result (IsObjectNormalized self.old object_start spans.old.items spans.new.items self.new) }
    {
        let body = &self.text[object_start..];
        if let Some(normalized) = normalize_spans(self.alloc, self.key_order, spans, body)? {
            self.text.truncate(object_start);
            self.text.extend_from_slice(&normalized)?;
        }
        Ok(())
    }

    // Normalizes the members if there are this many, and returns the next limit.
    pub(crate) fn normalize_members_early(
        &mut self,
        object_start: usize,
        spans: &mut Vec<MemberSpan<'_>>,
        member_limit: usize,
    ) -> Result<usize, AllocError>
        requires start_in_text { object_start ≤ length self.old.text.items }
        requires spans_in_object { All (IsMemberSpanWithin (drop object_start self.old.text.items)) spans.old.items }
        ensures { OnOk result (IsObjectNormalizedEarly self.old object_start spans.old.items spans.new.items self.new) }
    {
        if spans.len() < member_limit {
            return Ok(member_limit);
        }
        self.normalize_members(object_start, spans)?;
        Ok(
            spans
                .len()
                .saturating_mul(2)
                .max(MEMBERS_BEFORE_NORMALIZING),
        )
    }
}
