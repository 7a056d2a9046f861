//! From a text to the text in its place, token by token.
ghost use Rattle.std.specs.Prelude.{◌≡◌, ◌≢◌, ◌∷◌, [], IfErr, IfOk, OnOk, string_bytes};
ghost use Rattle.json.specs.Json.{no_members, value};
ghost use Rattle.json.specs.Lex.{tokens};
ghost use Rattle.json.specs.Print.{print, IsPrintable};
ghost use Rattle.json.specs.Reads.{token_of};
ghost use Rattle.json.specs.Token as token;
ghost use Rattle.serde_json.specs.Read.{read};
ghost use Rattle.bson_tokens.specs.DuplicateKeys.{json_of};
ghost use Rattle.bson_tokens.specs.ReadOutcomes.{NothingReadIfInvalid};
ghost use Rattle.bson_tokens.specs.NormalizerStates.{array_rest, object_rest};
ghost use Rattle.bson_v1.specs.LeadingMembers.{HasNoV1Shape, WritesRemainingMembers, WritesScopeAndRest, WritesScope, with_leading_members};
ghost use Rattle.bson_v1.specs.WrittenTokens.{WritesMembers, WritesTokens};
ghost use Rattle.bson_v1.specs.WrittenTokens.{upgraded_items_tokens, upgraded_members_tokens, upgraded_object_tokens, upgraded_value_tokens};
ghost use Rattle.bson_v1.specs.Text.{IsUpgradedText, IsRewritten};

use crate::object_start::{
    LeadingStrings, ObjectStart, is_scope, next_member, read_start, scope_candidate,
};
use crate::v1_shapes::{write_from_v1, write_leading_strings, write_scope_or_value};
use bson_model::options::KeyOrder;
use bson_tokens::MAX_DEPTH;
use bson_tokens::normalize::normalize_text;
use json::{Error, Reader, Scratch, Token, Writer};
use std::alloc::Global;

/// Returns the compact JSON text of Extended JSON v2 that a text of v1 denotes.
///
/// A text of v2 is its own, with each key once. An object has a shape of v1 if it has exactly the
/// keys `$binary` and `$type`, or `$regex` and `$options`, in either order, each with a string; or
/// one of these two keys alone, with a string:
///
/// - `$date`, if an offset of four digits (`+0100`) is at the end, which gets its colon, or if there
///   are no seconds before an offset or `Z`, which are then `:00`;
/// - `$uuid`, if the string is 32 hexadecimal digits, which get the hyphens.
///
/// A `$type` of one hexadecimal digit gets a 0 before it. The last value of a duplicate key wins, at
/// the first position of the key, before the shape is tested. The object at `$scope` has no shape of
/// v1 in an object that begins with `$code`, a string, and `$scope`, in either order: a scope's own
/// keys are free. What a scope contains is rewritten like any value. A binary and a regular
/// expression nest one level deeper than they did.
///
/// No tree is built: the text is written as it is read, first with each key once, and at most two
/// members of an object are kept in memory. Memory is twice that of the text.
///
/// # Errors
///
/// - `Invalid`: the text is not JSON, nests deeper than 127, or has a number out of range.
/// - The other errors: an allocation fails.
///
/// ```
/// let text = upgraded_text(alloc, r#"{"$binary": "AQI=", "$type": "00"}"#)?;
/// println!(rt; "{text}")?; // {"$binary":{"base64":"AQI=","subType":"00"}}
/// ```
pub fn upgraded_text(alloc: Global, text: &str) -> Result<String, Error>
    ensures ok { IfOk result (λ written. IsUpgradedText text.now (string_bytes written)) }
    ensures broken { IfErr result (NothingReadIfInvalid (read text.now)) }
{
    let normalized_input = normalize_text(alloc, KeyOrder::AsGiven, text)?;
    rewrite_normalized(alloc, normalized_input.as_str())
}

// The text in place of one in which each key occurs once.
fn rewrite_normalized(alloc: Global, text: &str) -> Result<String, Error>
    ensures ok { IfOk result (λ written. IsRewritten text.now (string_bytes written)) }
    ensures broken { IfErr result (NothingReadIfInvalid (json_of text.now)) }
{
    let mut scratch = Scratch::new(alloc);
    let mut reader = Reader::new(text, &mut scratch)?;
    let mut writer = Writer::new(Vec::with_capacity(alloc, text.len())?);
    write_value(alloc, &mut reader, MAX_DEPTH, &mut writer)?;
    if reader.next().is_some() {
        return Err(Error::Invalid);
    }
    Ok(into_text(writer))
}

// The text that was written.
fn into_text(writer: Writer) -> String
    requires { writer.before ≡ [] }
    ensures text { string_bytes result ≡ print writer.tokens }
    ensures tokens_read_again { tokens (print writer.tokens) ≡ writer.tokens }
{
    let Ok(text) = String::from_utf8(writer.into_inner()) else {
        unreachable!();
    };
    text
}

#[cycle(write)]
fn write_value<'a>(
    alloc: Global,
    reader: &mut Reader<'a>,
    depth: usize,
    writer: &mut Writer,
) -> Result<(), Error>
    ensures ok { OnOk result
        (WritesTokens upgraded_value_tokens (value depth reader.old) reader.new writer.old.tokens writer.new.tokens) }
    ensures broken { IfErr result (NothingReadIfInvalid (value depth reader.old)) }
    ensures keeps_earlier_bytes { OnOk result (writer.new.before ≡ writer.old.before) }
{
    let first_token = reader.next().ok_or(Error::Invalid)?;
    write_started_value(alloc, first_token, reader, depth, writer)
}

// The value whose first token was read.
#[cycle(write)]
fn write_started_value<'a>(
    alloc: Global,
    first_token: Token<'a>,
    reader: &mut Reader<'a>,
    depth: usize,
    writer: &mut Writer,
) -> Result<(), Error>
    requires { first_token ≢ Token.Bad → IsPrintable (token_of first_token) }
    ensures ok { OnOk result
        (WritesTokens upgraded_value_tokens (value depth (token_of first_token.entry ∷ reader.old)) reader.new
        writer.old.tokens writer.new.tokens) }
    ensures broken { IfErr result (NothingReadIfInvalid (value depth (token_of first_token.entry ∷ reader.old))) }
    ensures keeps_earlier_bytes { OnOk result (writer.new.before ≡ writer.old.before) }
{
    match first_token {
        Token::String(_) | Token::Number(_) | Token::Bool(_) | Token::Null => Ok(writer.token(
            first_token,
        )?),
        Token::EndObject | Token::EndArray | Token::Key(_) | Token::Bad => Err(Error::Invalid),
        Token::BeginArray => {
            if depth == 0 {
                return Err(Error::Invalid);
            }
            writer.begin_array()?;
            write_items(alloc, reader, depth - 1, writer)
        }
        Token::BeginObject => {
            if depth == 0 {
                return Err(Error::Invalid);
            }
            write_object(alloc, reader, depth - 1, writer)
        }
    }
}

// The elements of an array, and its end.
#[cycle(write)]
fn write_items<'a>(
    alloc: Global,
    reader: &mut Reader<'a>,
    depth: usize,
    writer: &mut Writer,
) -> Result<(), Error>
    ensures ok { OnOk result
        (WritesTokens upgraded_items_tokens
        (array_rest depth reader.old) reader.new writer.old.tokens writer.new.tokens) }
    ensures broken { IfErr result (NothingReadIfInvalid (array_rest depth reader.old)) }
    ensures keeps_earlier_bytes { OnOk result (writer.new.before ≡ writer.old.before) }
{
    'items: while !reader.take_end_array() {
        write_value(alloc, reader, depth, writer)?;
    }
    Ok(writer.end_array()?)
}

// An object whose brace was read. While it may have a shape of v1, its members are buffered: no
// more than two, which are strings.
#[cycle(write)]
fn write_object<'a>(
    alloc: Global,
    reader: &mut Reader<'a>,
    depth: usize,
    writer: &mut Writer,
) -> Result<(), Error>
    ensures ok { OnOk result
        (WritesTokens upgraded_object_tokens
        (object_rest depth reader.old) reader.new writer.old.tokens writer.new.tokens) }
    ensures broken { IfErr result (NothingReadIfInvalid (object_rest depth reader.old)) }
    ensures keeps_earlier_bytes { OnOk result (writer.new.before ≡ writer.old.before) }
{
    match read_start(reader)? {
        ObjectStart::Complete(leading) => Ok(write_from_v1(alloc, leading, writer)?),
        ObjectStart::Incomplete(leading, key, first_token) => {
            writer.begin_object()?;
            write_leading_strings(leading, writer)?;
            write_later_members(alloc, leading, key, first_token, reader, depth, writer)
        }
    }
}

// The member of this key, of whose value the first token was read, and those after it, in an object
// that begins with the strings and has no shape of v1.
#[cycle(write)]
fn write_later_members<'a>(
    alloc: Global,
    leading: LeadingStrings<'a>,
    key: &'a str,
    first_token: Token<'a>,
    reader: &mut Reader<'a>,
    depth: usize,
    writer: &mut Writer,
) -> Result<(), Error>
    requires printable { first_token ≢ Token.Bad → IsPrintable (token_of first_token) }
    requires shape { HasNoV1Shape leading first_token }
    ensures ok { OnOk result
        (WritesRemainingMembers leading.entry depth key.now (token_of first_token.entry ∷ reader.old) reader.new
        writer.old.tokens writer.new.tokens) }
    ensures broken { IfErr result
        (NothingReadIfInvalid (object_rest depth (token.key key.now ∷ token_of first_token.entry ∷ reader.old))) }
    ensures keeps_earlier_bytes { OnOk result (writer.new.before ≡ writer.old.before) }
{
    match scope_candidate(leading, key, first_token) {
        Some(after_code) => write_scope(alloc, after_code, key, reader, depth, writer),
        None => write_member(alloc, key, first_token, reader, depth, writer),
    }
}

// The object at `$scope` whose brace was read, and the members after it. It is a scope if it comes
// after code, or before code.
#[cycle(write)]
fn write_scope<'a>(
    alloc: Global,
    after_code: bool,
    key: &'a str,
    reader: &mut Reader<'a>,
    depth: usize,
    writer: &mut Writer,
) -> Result<(), Error>
    ensures ok { OnOk result (WritesScope after_code depth key.now reader.old reader.new
        writer.old.tokens writer.new.tokens) }
    ensures broken { IfErr result
        (NothingReadIfInvalid (object_rest depth (token.key key.now ∷ token.begin_object ∷ reader.old))) }
    ensures keeps_earlier_bytes { OnOk result (writer.new.before ≡ writer.old.before) }
{
    if depth == 0 {
        return Err(Error::Invalid);
    }
    writer.key(key)?;
    match read_start(reader)? {
        ObjectStart::Complete(leading) => write_complete_scope(
            alloc, after_code, leading, reader, depth, writer,
        ),
        ObjectStart::Incomplete(leading, inner_key, first_token) => {
            writer.begin_object()?;
            write_leading_strings(leading, writer)?;
            write_later_members(
                alloc,
                leading,
                inner_key,
                first_token,
                reader,
                depth - 1,
                writer,
            )?;
            write_members(alloc, reader, depth, writer)
        }
    }
}

// The object of these members at `$scope`, whose end was read, and the members after it.
#[cycle(write)]
fn write_complete_scope<'a>(
    alloc: Global,
    after_code: bool,
    leading: LeadingStrings<'a>,
    reader: &mut Reader<'a>,
    depth: usize,
    writer: &mut Writer,
) -> Result<(), Error>
    ensures ok { OnOk result
        (WritesScopeAndRest after_code depth (with_leading_members leading.entry no_members) reader.old reader.new
        writer.old.tokens writer.new.tokens) }
    ensures broken { IfErr result (NothingReadIfInvalid (object_rest depth reader.old)) }
    ensures keeps_earlier_bytes { OnOk result (writer.new.before ≡ writer.old.before) }
{
    let Some((key, first_token)) = next_member(reader)? else {
        write_scope_or_value(alloc, after_code, leading, writer)?;
        return Ok(writer.end_object()?);
    };
    write_scope_or_value(
        alloc,
        is_scope(after_code, key, first_token),
        leading,
        writer,
    )?;
    write_member(alloc, key, first_token, reader, depth, writer)
}

// Writes the member of this key, of whose value the first token was read, and those after it.
#[cycle(write)]
fn write_member<'a>(
    alloc: Global,
    key: &'a str,
    first_token: Token<'a>,
    reader: &mut Reader<'a>,
    depth: usize,
    writer: &mut Writer,
) -> Result<(), Error>
    requires { first_token ≢ Token.Bad → IsPrintable (token_of first_token) }
    ensures ok { OnOk result (WritesMembers depth key.now (token_of first_token.entry ∷ reader.old) reader.new
        writer.old.tokens writer.new.tokens) }
    ensures broken { IfErr result
        (NothingReadIfInvalid (object_rest depth (token.key key.now ∷ token_of first_token.entry ∷ reader.old))) }
    ensures keeps_earlier_bytes { OnOk result (writer.new.before ≡ writer.old.before) }
{
    writer.key(key)?;
    write_started_value(alloc, first_token, reader, depth, writer)?;
    write_members(alloc, reader, depth, writer)
}

// The members to the end of their object, and that end.
#[cycle(write)]
fn write_members<'a>(
    alloc: Global,
    reader: &mut Reader<'a>,
    depth: usize,
    writer: &mut Writer,
) -> Result<(), Error>
    ensures ok { OnOk result
        (WritesTokens upgraded_members_tokens
        (object_rest depth reader.old) reader.new writer.old.tokens writer.new.tokens) }
    ensures broken { IfErr result (NothingReadIfInvalid (object_rest depth reader.old)) }
    ensures keeps_earlier_bytes { OnOk result (writer.new.before ≡ writer.old.before) }
{
    'members: while let Some(key) = reader.next_key()? {
        writer.key(key)?;
        write_value(alloc, reader, depth, writer)?;
    }
    Ok(writer.end_object()?)
}
