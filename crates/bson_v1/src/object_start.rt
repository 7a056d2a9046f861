//! The beginning of an object, up to the member that shows that it has no shape of v1.
ghost use Rattle.std.specs.Prelude.{◌≡◌, ◌||◌, IfErr, IfOk};
ghost use Rattle.bson_v1.specs.LeadingMembers.{AreTwoStrings, IsObjectStart, IsNextMember, StartsNoObject, starts_code_member, leading_tokens, scope_candidate};

use json::{Error, Reader, Token};

/// The members with which an object begins that are strings: two at most, each with its key.
#[derive(Clone, Copy)]
pub(crate) enum LeadingStrings<'a> {
    Empty,
    One(&'a str, &'a str),
    Two(&'a str, &'a str, &'a str, &'a str),
}

/// The beginning of an object.
pub(crate) enum ObjectStart<'a> {
    /// All of it: it has these members.
    Complete(LeadingStrings<'a>),
    /// These members, the key of the next one, and the first token of its value. The object has no
    /// shape of v1.
    Incomplete(LeadingStrings<'a>, &'a str, Token<'a>),
}

/// Reads the beginning of an object after its brace.
pub(crate) fn read_start<'a>(reader: &mut Reader<'a>) -> Result<ObjectStart<'a>, Error>
    ensures ok { IfOk result (λ start. IsObjectStart start reader.old reader.new) }
    ensures broken { IfErr result (StartsNoObject LeadingStrings.Empty reader.old) }
{
    let Some((key, first_token)) = next_member(reader)? else {
        return Ok(ObjectStart::Complete(LeadingStrings::Empty));
    };
    let Token::String(text) = first_token else {
        return Ok(ObjectStart::Incomplete(LeadingStrings::Empty, key, first_token));
    };
    read_second_member(key, text, reader)
}

// Reads on after a first string.
fn read_second_member<'a>(
    key: &'a str,
    text: &'a str,
    reader: &mut Reader<'a>,
) -> Result<ObjectStart<'a>, Error>
    ensures ok { IfOk result
        (λ start. IsObjectStart start
        (leading_tokens (LeadingStrings.One key.entry text.entry) reader.old) reader.new) }
    ensures broken { IfErr result (StartsNoObject (LeadingStrings.One key.entry text.entry) reader.old) }
{
    let leading = LeadingStrings::One(key, text);
    let Some((second_key, first_token)) = next_member(reader)? else {
        return Ok(ObjectStart::Complete(leading));
    };
    let Token::String(second_text) = first_token else {
        return Ok(ObjectStart::Incomplete(leading, second_key, first_token));
    };
    read_third_member(
        LeadingStrings::Two(key, text, second_key, second_text),
        reader,
    )
}

// Reads on after two strings: a third member shows that the object has no shape of v1.
fn read_third_member<'a>(
    leading: LeadingStrings<'a>,
    reader: &mut Reader<'a>,
) -> Result<ObjectStart<'a>, Error>
    requires { AreTwoStrings leading }
    ensures ok { IfOk result (λ start. IsObjectStart start (leading_tokens leading.entry reader.old) reader.new) }
    ensures broken { IfErr result (StartsNoObject leading.entry reader.old) }
{
    let Some((key, first_token)) = next_member(reader)? else {
        return Ok(ObjectStart::Complete(leading));
    };
    Ok(ObjectStart::Incomplete(leading, key, first_token))
}

/// Reads the key of the next member and the first token of its value, or the end of the object.
pub(crate) fn next_member<'a>(
    reader: &mut Reader<'a>,
) -> Result<Option<(&'a str, Token<'a>)>, Error>
    ensures ok { IfOk result (λ next. IsNextMember next reader.old reader.new) }
    ensures broken { IfErr result (StartsNoObject LeadingStrings.Empty reader.old) }
{
    let Some(key) = reader.next_key()? else {
        return Ok(None);
    };
    let first_token = reader.next().ok_or(Error::Invalid)?;
    Ok(Some((key, first_token)))
}

/// Whether an object at a key may be a scope: `Some(true)` if a string at `$code` comes before it,
/// `Some(false)` if `$code` may come after it.
pub(crate) fn scope_candidate(
    leading: LeadingStrings<'_>,
    key: &str,
    first_token: Token<'_>,
) -> Option<bool>
    ensures { result ≡ scope_candidate leading.entry key.now first_token.entry }
{
    if key != "$scope" || !matches!(first_token, Token::BeginObject) {
        return None;
    }
    match leading {
        LeadingStrings::Empty => Some(false),
        LeadingStrings::One(first_key, _) if first_key == "$code" => Some(true),
        _ => None,
    }
}

/// Whether an object at `$scope` is a scope: code comes before it, or comes after it in the member of
/// this key, whose value begins with this token.
pub(crate) fn is_scope(after_code: bool, key: &str, first_token: Token<'_>) -> bool
    ensures { result ≡ (after_code || starts_code_member key.now first_token.entry) }
{
    after_code || (key == "$code" && matches!(first_token, Token::String(_)))
}
