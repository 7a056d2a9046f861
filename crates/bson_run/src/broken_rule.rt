//! Which rule of JSON a text breaks that begins with no value: found in one pass over its tokens.
ghost use Rattle.std.specs.Prelude.{◌≡◌, ◌≢◌, ◌⊎◌, ◌≤◌, ◌+◌, None, IfOk, MatchOption};
ghost use Rattle.json.specs.Json.{skip_value};
ghost use Rattle.json.specs.Lex.{tokens};
ghost use Rattle.json.specs.Reads.{token_of};
ghost use Rattle.serde_json.specs.Read.{max_depth};
ghost use Rattle.bson_run.specs.ErrorMessages.{BreaksRule, IsTokenRule, IsValueSyntaxRule, closes, opens};

use crate::rule::Rule;
use bson_tokens::MAX_DEPTH;
use json::{Reader, Scratch, Token};
use std::alloc::AllocError;

/// Returns the first rule that the value of a text breaks, if the text has no value, and the offset of the
/// token that breaks it.
pub(crate) fn find_broken_rule(
    text: &str,
    scratch: &mut Scratch,
) -> Result<(usize, Rule), AllocError>
    requires { skip_value max_depth (tokens text.now) ≡ None }
    ensures { IfOk result (λ offset_and_rule. BreaksRule text.now offset_and_rule.1) }
{
    let mut reader = Reader::new(text, scratch)?;
    let mut open_brackets = OpenBrackets {
        object_bits: 0,
        depth: 0,
        expects_value: false,
        expects_colon: false,
    };
    let mut token_offset = reader.offset();
    while let Some(token) = reader.next() {
        if let Token::Bad = token
            && !open_brackets.expects_colon
        {
            let expects_key = open_brackets.expects_key();
            return error_at_invalid_token(text, scratch, token_offset, expects_key);
        }
        if let Some(rule) = open_brackets.pass_token(token) {
            let next_offset = reader.offset();
            let offset = error_offset(text.as_bytes(), rule, token, token_offset, next_offset);
            return Ok((offset, rule));
        }
        token_offset = reader.offset();
    }
    Ok((token_offset, Rule::UnexpectedEnd))
}

// Returns the offset of an error at a token: that of the comma or colon with the token that is not
// allowed there, or else that of the token.
fn error_offset(
    bytes: &[u8],
    rule: Rule,
    token: Token<'_>,
    token_offset: usize,
    next_offset: usize,
) -> usize {
    match rule {
        Rule::ExpectedColonAndValue => separator_before(bytes, token_offset, b','),
        Rule::Separator if matches!(token, Token::Key(_)) => {
            separator_before(bytes, next_offset, b':')
        }
        _ => token_offset,
    }
}

/// Returns the offset of a separator if only blanks are between it and the offset, or else the offset.
/// (The reader passes a comma or a colon with the token before it.)
pub(crate) fn separator_before(bytes: &[u8], offset: usize, separator: u8) -> usize {
    let preceding_bytes = bytes[..offset.min(bytes.len())].trim_ascii_end();
    match preceding_bytes.split_last() {
        Some((last_byte, bytes_before)) if *last_byte == separator => bytes_before.len(),
        _ => offset,
    }
}

// The open brackets between two tokens.
#[derive(Drop)]
struct OpenBrackets {
    // One bit for each bracket, the innermost at the low end: set if the bracket opens an object.
    object_bits: u128,
    // How many brackets there are.
    depth: usize,
    // A key and its colon were read, and no value yet.
    expects_value: bool,
    // A string was read in the place of a key, and no colon after it.
    expects_colon: bool,
}

impl OpenBrackets {
    // Whether the innermost bracket opens an object.
    fn is_object(&self) -> bool {
        self.object_bits & 1 == 1
    }

    fn expects_key(&self) -> bool {
        self.is_object() && !self.expects_value
    }

    // Passes a token, or returns the rule that the token breaks at this position.
    fn pass_token(&mut self, token: Token<'_>) -> Option<Rule>
        ensures { MatchOption result
            (self.new.depth + closes (token_of token.entry) ≡ self.old.depth + opens (token_of token.entry))
            (λ rule. IsTokenRule self.old.depth (token_of token.entry) rule) }
    {
        if self.expects_colon {
            return Some(Rule::ExpectedColonAndValue);
        }
        match token {
            Token::Key(_) => return self.pass_key(),
            Token::EndObject => return self.close_bracket(true),
            Token::EndArray => return self.close_bracket(false),
            Token::String(_) if self.expects_key() => self.expects_colon = true,
            _ if self.expects_key() => return Some(Rule::Quotes),
            Token::BeginObject => return self.open_bracket(true),
            Token::BeginArray => return self.open_bracket(false),
            _ => self.expects_value = false,
        }
        None
    }

    fn pass_key(&mut self) -> Option<Rule>
        ensures { MatchOption result (self.new.depth ≡ self.old.depth) (λ rule. rule ≡ Rule.Separator) }
    {
        if !self.expects_key() {
            return Some(Rule::Separator);
        }
        self.expects_value = true;
        None
    }

    fn open_bracket(&mut self, is_object: bool) -> Option<Rule>
        ensures { MatchOption result (self.new.depth ≡ self.old.depth + 1)
            (λ rule. (rule ≡ Rule.Depth) × (127 ≤ self.old.depth)) }
    {
        if self.depth >= MAX_DEPTH {
            return Some(Rule::Depth);
        }
        self.depth += 1;
        self.object_bits = (self.object_bits << 1) | u128::from(is_object);
        self.expects_value = false;
        None
    }

    fn close_bracket(&mut self, is_object: bool) -> Option<Rule>
        ensures { MatchOption result (self.new.depth + 1 ≡ self.old.depth)
            (λ rule. (rule ≡ Rule.ExpectedColonAndValue) ⊎ (rule ≡ Rule.Separator)) }
    {
        if self.expects_value {
            return Some(Rule::ExpectedColonAndValue);
        }
        if self.depth == 0 || self.is_object() != is_object {
            return Some(Rule::Separator);
        }
        self.depth -= 1;
        self.object_bits >>= 1;
        None
    }
}

// Returns the offset and the rule of an error at bytes that are not a token. If they begin with a number or a
// literal, and something is after it that continues no word, the error is there, unless no bracket is open.
fn error_at_invalid_token(
    text: &str,
    scratch: &mut Scratch,
    invalid_offset: usize,
    expects_key: bool,
) -> Result<(usize, Rule), AllocError>
    ensures { IfOk result
        (λ offset_and_rule. IsValueSyntaxRule offset_and_rule.1 × (offset_and_rule.1 ≢ Rule.Depth)) }
{
    let rule = rule_at_invalid_token(text.as_bytes(), invalid_offset, expects_key);
    if matches!(rule, Rule::Number | Rule::ExpectedValue) {
        let value_length = length_of_value(text.as_bytes(), invalid_offset, scratch)?;
        if value_length > 0 {
            return Ok((invalid_offset.saturating_add(value_length), Rule::Separator));
        }
    }
    Ok((invalid_offset, rule))
}

// Returns the length of the number or literal at the offset, or 0 if there is none, or only blanks are before it.
fn length_of_value(
    bytes: &[u8],
    offset: usize,
    scratch: &mut Scratch,
) -> Result<usize, AllocError> {
    let (preceding_bytes, following_bytes) = bytes.split_at(offset.min(bytes.len()));
    if preceding_bytes.trim_ascii_end().is_empty() {
        return Ok(0);
    }
    let word_length = following_bytes
        .iter()
        .take_while(|byte| is_word_byte(**byte))
        .count();
    let Ok(word) = simdutf8::compat::from_utf8(
        &following_bytes[..word_length.min(following_bytes.len())],
    ) else {
        return Ok(0);
    };
    let mut reader = Reader::new(word, scratch)?;
    Ok(if reader.skip_value(MAX_DEPTH).is_ok() {
        word.len()
    } else {
        0
    })
}

// Returns whether a byte continues a number or a word.
fn is_word_byte(byte: u8) -> bool {
    byte.is_ascii_alphanumeric() || matches!(byte, b'.' | b'_' | b'+' | b'-')
}

// Returns the rule that is broken at bytes that are not a token, by the byte there and the last byte
// before it that is not blank.
fn rule_at_invalid_token(bytes: &[u8], invalid_offset: usize, expects_key: bool) -> Rule
    ensures { IsValueSyntaxRule result × (result ≢ Rule.Depth) }
{
    let (preceding_bytes, following_bytes) = bytes.split_at(invalid_offset.min(bytes.len()));
    let Some((first_byte, bytes_after_first)) = following_bytes.split_first() else {
        return Rule::UnexpectedEnd;
    };
    match preceding_bytes.trim_ascii_end().last() {
        Some(b',') if matches!(*first_byte, b',' | b':' | b']' | b'}') => Rule::ExpectedElement,
        None | Some(b',' | b':' | b'[' | b'{') => rule_of_value_start(
            *first_byte,
            bytes_after_first,
            expects_key,
        ),
        Some(_) => Rule::Separator,
    }
}

// The rule that is broken where a value, or a key, may begin.
fn rule_of_value_start(first_byte: u8, bytes_after_first: &[u8], expects_key: bool) -> Rule
    ensures { IsValueSyntaxRule result × (result ≢ Rule.Depth) }
{
    match first_byte {
        b'"' => rule_in_string(bytes_after_first),
        _ if expects_key => Rule::Quotes,
        b'\'' | b'`' => Rule::Quotes,
        b'0'..=b'9' | b'-' | b'+' | b'.' => Rule::Number,
        _ => Rule::ExpectedValue,
    }
}

// Returns the rule that a string breaks. The bytes are those after its opening quote.
fn rule_in_string(bytes: &[u8]) -> Rule
    ensures { IsValueSyntaxRule result × (result ≢ Rule.Depth) }
{
    let mut is_escaped = false;
    for byte in bytes {
        match *byte {
            0..=0x1f => return Rule::ControlCharacter,
            b'"' if !is_escaped => return Rule::Escape,
            string_byte => is_escaped = string_byte == b'\\' && !is_escaped,
        }
    }
    Rule::UnexpectedEnd
}
