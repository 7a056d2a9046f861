//! Objects of two strings at most, which may have a shape of v1, and what is written for them.
ghost use Rattle.std.specs.Prelude.{◌≡◌, ◌++◌, ◌∷◌, [], OnOk};
ghost use Rattle.json.specs.Json.{no_members, string};
ghost use Rattle.json.specs.Token as token;
ghost use Rattle.json.specs.Tree.{json_tokens};
ghost use Rattle.bson_v1.specs.Upgraded.{binary_json, object_of_member, object_of_two_texts, regex_json};
ghost use Rattle.bson_v1.specs.LeadingMembers.{leading_tokens, with_leading_members, scope_or_value};
ghost use Rattle.bson_v1.specs.WrittenTokens.{upgraded_object_tokens, upgraded_value_tokens};

use crate::date::rfc_3339_date;
use crate::hexadecimal::{hyphenated, is_one_hex_digit};
use crate::object_start::LeadingStrings;
use json::Writer;
use std::alloc::{AllocError, Global};

/// Writes the value of v2 that the object of these members denotes.
pub(crate) fn write_from_v1(
    alloc: Global,
    leading: LeadingStrings<'_>,
    writer: &mut Writer,
) -> Result<(), AllocError>
    ensures ok { OnOk result
        (writer.new.tokens
        ≡ writer.old.tokens ++ upgraded_object_tokens (with_leading_members leading.entry no_members)) }
    ensures keeps_earlier_bytes { writer.new.before ≡ writer.old.before }
{
    match leading {
        LeadingStrings::Empty => {
            writer.begin_object()?;
            writer.end_object()
        }
        LeadingStrings::One(key, text) => write_single_member(alloc, key, text, writer),
        LeadingStrings::Two(key, text, second_key, second_text) => write_object_of_pair(
            alloc,
            key,
            text,
            second_key,
            second_text,
            writer,
        ),
    }
}

/// Writes the object at `$scope` that has these members: as it is if code is next to it, or else
/// what it denotes.
pub(crate) fn write_scope_or_value(
    alloc: Global,
    is_scope: bool,
    leading: LeadingStrings<'_>,
    writer: &mut Writer,
) -> Result<(), AllocError>
    ensures ok { OnOk result (writer.new.tokens
        ≡ writer.old.tokens ++ json_tokens (scope_or_value is_scope (with_leading_members leading.entry no_members))) }
    ensures keeps_earlier_bytes { writer.new.before ≡ writer.old.before }
{
    if !is_scope {
        return write_from_v1(alloc, leading, writer);
    }
    writer.begin_object()?;
    write_leading_strings(leading, writer)?;
    writer.end_object()
}

/// Writes the members with which an object begins.
pub(crate) fn write_leading_strings(
    leading: LeadingStrings<'_>,
    writer: &mut Writer,
) -> Result<(), AllocError>
    ensures ok { OnOk result (writer.new.tokens ≡ writer.old.tokens ++ leading_tokens leading.entry []) }
    ensures keeps_earlier_bytes { writer.new.before ≡ writer.old.before }
{
    match leading {
        LeadingStrings::Empty => Ok(()),
        LeadingStrings::One(key, text) => write_text(key, text, writer),
        LeadingStrings::Two(key, text, second_key, second_text) => {
            write_text(key, text, writer)?;
            write_text(second_key, second_text, writer)
        }
    }
}

// Writes what the object of this member alone denotes: a date, a UUID, or itself.
fn write_single_member(
    alloc: Global,
    key: &str,
    text: &str,
    writer: &mut Writer,
) -> Result<(), AllocError>
    ensures ok { OnOk result
        (writer.new.tokens ≡ writer.old.tokens ++ upgraded_value_tokens (object_of_member key.now (string text.now))) }
    ensures keeps_earlier_bytes { writer.new.before ≡ writer.old.before }
{
    if key == "$date" {
        let date_text = rfc_3339_date(alloc, text)?;
        return write_object_of_member("$date", &date_text, writer);
    }
    if key == "$uuid" {
        let uuid_text = hyphenated(alloc, text)?;
        return write_object_of_member("$uuid", &uuid_text, writer);
    }
    write_object_of_member(key, text, writer)
}

fn write_object_of_member(key: &str, text: &str, writer: &mut Writer) -> Result<(), AllocError>
    ensures ok { OnOk result
        (writer.new.tokens ≡ writer.old.tokens ++ json_tokens (object_of_member key.now (string text.now))) }
    ensures keeps_earlier_bytes { writer.new.before ≡ writer.old.before }
{
    writer.begin_object()?;
    write_text(key, text, writer)?;
    writer.end_object()
}

// Writes what the object of these two members denotes.
fn write_object_of_pair(
    alloc: Global,
    key: &str,
    text: &str,
    second_key: &str,
    second_text: &str,
    writer: &mut Writer,
) -> Result<(), AllocError>
    ensures ok { OnOk result
        (writer.new.tokens
        ≡ writer.old.tokens
        ++ upgraded_value_tokens (object_of_two_texts key.now text.now second_key.now second_text.now)) }
    ensures keeps_earlier_bytes { writer.new.before ≡ writer.old.before }
{
    if key == "$binary" && second_key == "$type" {
        return write_binary(alloc, text, second_text, writer);
    }
    if key == "$type" && second_key == "$binary" {
        return write_binary(alloc, second_text, text, writer);
    }
    if key == "$regex" && second_key == "$options" {
        return write_regex(text, second_text, writer);
    }
    if key == "$options" && second_key == "$regex" {
        return write_regex(second_text, text, writer);
    }
    write_object_of_texts(key, text, second_key, second_text, writer)
}

// Writes a binary. A subtype of one digit gets a 0.
fn write_binary(
    alloc: Global,
    base64: &str,
    sub_type: &str,
    writer: &mut Writer,
) -> Result<(), AllocError>
    ensures ok { OnOk result
        (writer.new.tokens ≡ writer.old.tokens ++ json_tokens (binary_json base64.now sub_type.now)) }
    ensures keeps_earlier_bytes { writer.new.before ≡ writer.old.before }
{
    if is_one_hex_digit(sub_type.as_bytes()) {
        let digits = format!(in alloc; "0{sub_type}")?;
        return write_wrapper("$binary", "base64", base64, "subType", &digits, writer);
    }
    write_wrapper("$binary", "base64", base64, "subType", sub_type, writer)
}

fn write_regex(pattern: &str, options: &str, writer: &mut Writer) -> Result<(), AllocError>
    ensures ok { OnOk result
        (writer.new.tokens ≡ writer.old.tokens ++ json_tokens (regex_json pattern.now options.now)) }
    ensures keeps_earlier_bytes { writer.new.before ≡ writer.old.before }
{
    write_wrapper(
        "$regularExpression",
        "pattern",
        pattern,
        "options",
        options,
        writer,
    )
}

// Writes an object of one key, whose value is an object of two strings.
fn write_wrapper(
    wrapper: &str,
    key: &str,
    text: &str,
    second_key: &str,
    second_text: &str,
    writer: &mut Writer,
) -> Result<(), AllocError>
    ensures ok { OnOk result (writer.new.tokens ≡ writer.old.tokens
        ++ json_tokens
        (object_of_member wrapper.now (object_of_two_texts key.now text.now second_key.now second_text.now))) }
    ensures keeps_earlier_bytes { writer.new.before ≡ writer.old.before }
{
    writer.begin_object()?;
    writer.key(wrapper)?;
    write_object_of_texts(key, text, second_key, second_text, writer)?;
    writer.end_object()
}

fn write_object_of_texts(
    key: &str,
    text: &str,
    second_key: &str,
    second_text: &str,
    writer: &mut Writer,
) -> Result<(), AllocError>
    ensures ok { OnOk result (writer.new.tokens ≡ writer.old.tokens
        ++ json_tokens (object_of_two_texts key.now text.now second_key.now second_text.now)) }
    ensures keeps_earlier_bytes { writer.new.before ≡ writer.old.before }
{
    writer.begin_object()?;
    write_text(key, text, writer)?;
    write_text(second_key, second_text, writer)?;
    writer.end_object()
}

// Writes a member that is a string.
fn write_text(key: &str, text: &str, writer: &mut Writer) -> Result<(), AllocError>
    ensures ok { OnOk result (writer.new.tokens ≡ writer.old.tokens ++ token.key key.now ∷ token.string text.now ∷ []) }
    ensures keeps_earlier_bytes { writer.new.before ≡ writer.old.before }
{
    writer.key(key)?;
    writer.string(text)
}
