//! Normalizes a text token by token: each object has each key once.
ghost use Rattle.std.specs.Prelude.{◌≡◌, false, true, IfErr, IfOk, OnOk, string_bytes};
ghost use Rattle.json.specs.Json.{array, object, value};
ghost use Rattle.json.specs.Json as json;
ghost use Rattle.json.specs.Print.{IsNumber};
ghost use Rattle.serde_json.specs.Read.{read};
ghost use Rattle.bson_tokens.specs.ReadOutcomes.{NothingReadIfInvalid};
ghost use Rattle.bson_tokens.specs.Normalized.{IsNormalizedText, normalized};
ghost use Rattle.bson_tokens.specs.NormalizerStates.{ReadAndNormalized, ValueAppended, array_rest, is_number_in_range, object_rest, if_valid};
ghost use Rattle.bson_tokens.specs.NormalizerStates.{all_numbers_in_range, item_numbers_in_range, member_numbers_in_range};
ghost use Rattle.json.specs.declared.error.Error.TheVariants.{Invalid};

use crate::MAX_DEPTH;
use crate::member_order::{MemberSpan, push_span};
use crate::normalizer::{MEMBERS_BEFORE_NORMALIZING, Normalizer, into_text};
use crate::number::number;
use bson_model::options::KeyOrder;
use json::{Error, Reader, Scratch, Token};
use std::alloc::Global;

/// Returns the compact text of the text's tree with each key once in its object, with its last
/// value. Keys are at their first positions, or in ascending order of bytes.
///
/// Keys are compared after their escapes are read. No tree is made: memory is that of the output,
/// and of the keys and positions of the members of the open objects.
///
/// # Errors
///
/// - `Invalid`: the text is not JSON of at most 127 levels, or has a number out of range.
/// - `OutOfMemory`: an allocation failed.
///
/// ```
/// let text = r#"{"b": 1, "a": 2, "b": 3}"#;
/// let normalized = normalize_text(alloc, KeyOrder::AsGiven, text)?;
/// println!(rt; "{normalized}")?; // {"b":3,"a":2}
/// ```
pub fn normalize_text(alloc: Global, key_order: KeyOrder, text: &str) -> Result<String, Error>
    ensures ok { IfOk result (λ normalized_text. IsNormalizedText key_order text.now (string_bytes normalized_text)) }
    ensures broken { IfErr result (NothingReadIfInvalid (read text.now)) }
{
    let mut scratch = Scratch::new(alloc);
    let mut reader = Reader::new(text, &mut scratch)?;
    let mut normalizer = Normalizer::new(alloc, key_order, text.len())?;
    write_value(&mut reader, MAX_DEPTH, &mut normalizer)?;
    if reader.next().is_some() {
        return Err(Error::Invalid);
    }
    into_text(normalizer.text)
}

#[cycle(write)]
fn write_value(
    reader: &mut Reader<'_>,
    depth: usize,
    normalizer: &mut Normalizer,
) -> Result<(), Error>
    ensures ok { OnOk result
        (ReadAndNormalized (if_valid all_numbers_in_range (value depth reader.old))
        (normalized normalizer.old.key_order)
        reader.new normalizer.old normalizer.new) }
    ensures broken { IfErr result (NothingReadIfInvalid (if_valid all_numbers_in_range (value depth reader.old))) }
{
    let token = reader.next().ok_or(Error::Invalid)?;
    match token {
        Token::String(_) | Token::Bool(_) | Token::Null => Ok(normalizer.push_scalar(token)?),
        Token::Number(text) => write_number(text, normalizer),
        Token::EndObject | Token::EndArray | Token::Key(_) | Token::Bad => Err(Error::Invalid),
        Token::BeginArray => {
            if depth == 0 {
                return Err(Error::Invalid);
            }
            write_items(reader, depth - 1, normalizer)
        }
        Token::BeginObject => {
            if depth == 0 {
                return Err(Error::Invalid);
            }
            write_members(reader, depth - 1, normalizer)
        }
    }
}

fn write_number(text: &str, normalizer: &mut Normalizer) -> Result<(), Error>
    requires { IsNumber text.now }
    ensures ok { OnOk result ((is_number_in_range text.now ≡ true)
        × ValueAppended normalizer.old (json.number text.now) normalizer.new) }
    ensures broken { IfErr result (λ read_error. read_error ≡ Invalid → is_number_in_range text.now ≡ false) }
{
    if number(text).is_none() {
        return Err(Error::Invalid);
    }
    Ok(normalizer.push_scalar(Token::Number(text))?)
}

// Writes the elements of an array after its bracket.
#[cycle(write)]
fn write_items(
    reader: &mut Reader<'_>,
    depth: usize,
    normalizer: &mut Normalizer,
) -> Result<(), Error>
    ensures ok { OnOk result (ReadAndNormalized (if_valid item_numbers_in_range (array_rest depth reader.old))
        (λ json_items. normalized normalizer.old.key_order
        (array json_items)) reader.new normalizer.old normalizer.new) }
    ensures broken { IfErr result
        (NothingReadIfInvalid (if_valid item_numbers_in_range (array_rest depth reader.old))) }
{
    normalizer.open_container(b'[')?;
    'items: while !reader.take_end_array() {
        write_value(reader, depth, normalizer)?;
    }
    Ok(normalizer.close_container(b']')?)
}

// Writes the members of an object after its brace.
#[cycle(write)]
fn write_members(
    reader: &mut Reader<'_>,
    depth: usize,
    normalizer: &mut Normalizer,
) -> Result<(), Error>
    ensures ok { OnOk result (ReadAndNormalized (if_valid member_numbers_in_range (object_rest depth reader.old))
        (λ json_members. normalized normalizer.old.key_order
        (object json_members)) reader.new normalizer.old normalizer.new) }
    ensures broken { IfErr result
        (NothingReadIfInvalid (if_valid member_numbers_in_range (object_rest depth reader.old))) }
{
    let object_start = normalizer.begin_object()?;
    let mut spans = Vec::new(normalizer.alloc);
    let mut member_limit = MEMBERS_BEFORE_NORMALIZING;
    'members: while let Some(key) = reader.next_key()? {
        let offset_in_object = normalizer.begin_member(object_start, key)?;
        write_value(reader, depth, normalizer)?;
        let span = MemberSpan {
            key,
            offset_in_object,
            start: offset_in_object,
            end: normalizer.offset_in_object(object_start),
        };
        push_span(&mut spans, span)?;
        member_limit = normalizer.normalize_members_early(object_start, &mut spans, member_limit)?;
    }
    normalizer.normalize_members(object_start, &mut spans)?;
    Ok(normalizer.close_container(b'}')?)
}
