//! Messages that are cut to a number of characters, with or without escapes.
ghost use Rattle.std.specs.Prelude.{◌≡◌, ◌++◌, IfOk, OnOk, string_bytes};
ghost use Rattle.bson_run.specs.ErrorMessages.{truncated, char_or_escape, escaped_char};

use std::alloc::{AllocError, Global};

/// Returns the first characters of a message, up to a number, and `..` if there are more. With
/// `escapes`, a character that breaks a line or controls a terminal is written as its escape.
pub(crate) fn shorten(
    alloc: Global,
    full_message: &str,
    max_chars: usize,
    escapes: bool,
) -> Result<String, AllocError>
    ensures { IfOk result
        (λ shortened. string_bytes shortened ≡ truncated max_chars (char_or_escape escapes) full_message.now) }
{
    let mut shortened = String::new(alloc);
    for character in full_message.chars().take(max_chars) {
        push_char(alloc, &mut shortened, character, escapes)?;
    }
    if full_message.chars().nth(max_chars).is_some() {
        shortened.push_str("..")?;
    }
    Ok(shortened)
}

// Appends a character, or its escape if escapes are enabled.
fn push_char(
    alloc: Global,
    shortened: &mut String,
    character: char,
    escapes: bool,
) -> Result<(), AllocError>
    ensures { OnOk result
        (string_bytes shortened.new ≡ string_bytes shortened.old ++ char_or_escape escapes character) }
{
    if escapes {
        push_escaped(alloc, shortened, character)
    } else {
        shortened.push(character)
    }
}

// Appends a character, or its escape.
fn push_escaped(alloc: Global, shortened: &mut String, character: char) -> Result<(), AllocError>
    ensures { OnOk result (string_bytes shortened.new ≡ string_bytes shortened.old ++ escaped_char character) }
{
    if character == '\u{2028}' {
        return shortened.push_str("\\u2028");
    }
    if character == '\u{2029}' {
        return shortened.push_str("\\u2029");
    }
    if character.is_control() {
        let escape = format!(in alloc; "\\u00{:02x}", u32::from(character))?;
        return shortened.push_str(&escape);
    }
    shortened.push(character)
}
