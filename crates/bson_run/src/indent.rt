//! A JSON text over several lines.
ghost use Rattle.std.specs.Prelude.{◌≡◌, ◌≢◌, ◌++◌, ◌+◌, ◌-◌, ◌&&◌, ◌∷◌, [], ℕ, IfOk, IsUtf8, OnOk};
ghost use Rattle.std.specs.Prelude.{cond, if◌then◌else◌, length, replicate};
ghost use Rattle.json.specs.Layout.{after, is_value};
ghost use Rattle.json.specs.Lex.{tokens};
ghost use Rattle.json.specs.Print.{begins, token_text, IsPrintable};
ghost use Rattle.json.specs.Reads.{opens, token_of};
ghost use Rattle.bson_run.specs.Indent.{indented, HasSameTokens, line, white_space, kind_of_previous_token, HasIndent, IsTokenWritten};

use json::{Reader, Scratch, Token, Writer};
use std::alloc::{AllocError, Global};

/// Writes the JSON text over several lines, for people. Each member and each element is on a line
/// of its own, indented by `spaces` for each open bracket. A space follows the colon of a key, and
/// an empty array or object is `[]` or `{}`. No newline ends the text.
///
/// It has the tokens of the text, so each reader finds the same tree. Keys are in the same order,
/// strings are the same, and each number has the same digits. If the text is not JSON, the tokens
/// before its fault are written.
///
/// # Errors
///
/// Returns `AllocError` if a request for memory is refused.
///
/// ```
/// let indented_text = indent_text(alloc, 2, r#"{"a":[1,{}]}"#)?;
/// println!(rt; "{}", str::from_utf8(&indented_text)?)?;
/// // {
/// //   "a": [
/// //     1,
/// //     {}
/// //   ]
/// // }
/// ```
pub fn indent_text(alloc: Global, spaces: usize, text: &str) -> Result<Vec<u8>, AllocError>
    ensures layout { IfOk result (λ indented_text. indented_text.items ≡ indented spaces (tokens text.now)) }
    ensures utf8 { IfOk result (λ indented_text. IsUtf8 indented_text.items) }
    ensures keeps_tokens { IfOk result (λ indented_text. HasSameTokens text.now indented_text.items) }
{
    let mut scratch = Scratch::new(alloc);
    let mut reader = Reader::new(text, &mut scratch)?;
    let mut layout = Layout::new(alloc, spaces)?;
    while let Some(token) = reader.next() {
        layout.write_token(token)?;
    }
    Ok(layout.written_bytes)
}

// The kind of the last token.
#[derive(Clone, Copy, Drop)]
pub(crate) enum PreviousToken {
    Nothing,
    Bracket,
    Key,
    Value,
}

// A text that is written with indentation.
#[derive(Drop)]
pub(crate) struct Layout {
    alloc: Global,
    // The spaces that a bracket adds.
    bracket_indent: Vec<u8>,
    // The beginning of a line.
    line_start: Vec<u8>,
    previous_kind: PreviousToken,
    written_bytes: Vec<u8>,
}

impl Layout {
    fn new(alloc: Global, spaces: usize) -> Result<Layout, AllocError>
        ensures has_indent { IfOk result (λ layout. HasIndent spaces 0 layout) }
        ensures previous_kind { IfOk result (λ layout. layout.previous_kind ≡ PreviousToken.Nothing) }
        ensures written_bytes { IfOk result (λ layout. layout.written_bytes.items ≡ []) }
    {
        Ok(Layout {
            alloc,
            bracket_indent: blanks(alloc, spaces)?,
            line_start: vec![in alloc; b'\n']?,
            previous_kind: PreviousToken::Nothing,
            written_bytes: Vec::new(alloc),
        })
    }

    // Writes the token, after the white space that separates it from the token before.
    fn write_token(&mut self, token: Token<'_>) -> Result<(), AllocError>
        requires { token ≢ Token.Bad → IsPrintable (token_of token) }
        ensures indented_text { (indent_width indent : ℕ) → HasIndent indent_width indent self.old
            → OnOk result (IsTokenWritten indent_width indent self.old self.new (token_of token.entry)) }
        ensures utf8 { OnOk result (IsUtf8 (token_text (token_of token.entry))) }
    {
        let begins = begins(token);
        remove_line_indent(&mut self.line_start, begins, &self.bracket_indent);
        write_comma(&mut self.written_bytes, self.previous_kind, begins)?;
        write_white_space(
            &mut self.written_bytes,
            self.previous_kind,
            begins,
            &self.line_start,
        )?;
        write_token_text(self.alloc, &mut self.written_bytes, token)?;
        self.previous_kind = token_kind(token);
        add_line_indent(&mut self.line_start, opens(token), &self.bracket_indent)
    }
}

// So many spaces.
fn blanks(alloc: Global, count: usize) -> Result<Vec<u8>, AllocError>
    ensures { IfOk result (λ blanks. blanks.items ≡ replicate count 32) }
{
    let mut blanks = Vec::new(alloc);
    for _ in 0..count {
        blanks.push(b' ')?;
    }
    Ok(blanks)
}

// The token closes no bracket.
fn begins(token: Token<'_>) -> bool
    ensures { result ≡ begins (token_of token.entry) }
{
    !matches!(token, Token::EndObject | Token::EndArray)
}

// The token opens a bracket.
fn opens(token: Token<'_>) -> bool
    ensures { result ≡ opens (token_of token.entry ∷ []) }
{
    matches!(token, Token::BeginObject | Token::BeginArray)
}

// Returns the kind of the token, for the token after it.
fn token_kind(token: Token<'_>) -> PreviousToken
    ensures { kind_of_previous_token result ≡ (after (token_of token.entry) 0).0 }
{
    match token {
        Token::BeginObject | Token::BeginArray => PreviousToken::Bracket,
        Token::Key(_) => PreviousToken::Key,
        _ => PreviousToken::Value,
    }
}

// Removes the spaces of a closing bracket from the beginning of a line.
fn remove_line_indent(line_start: &mut Vec<u8>, begins: bool, spaces: &[u8])
    ensures { (indent : ℕ) → line_start.old.items ≡ line indent
        → line_start.new.items ≡ line (if begins then indent else (indent - length spaces.now)) }
{
    if !begins {
        let kept_length = line_start.len().saturating_sub(spaces.len()).max(1);
        line_start.truncate(kept_length);
    }
}

// Adds the spaces of an opening bracket to the beginning of a line.
#[tactic(auto, using(crate::proofs::Indenting::stepped_in))]
fn add_line_indent(line_start: &mut Vec<u8>, opens: bool, spaces: &[u8]) -> Result<(), AllocError>
    ensures { (indent_width indent : ℕ) → spaces.now ≡ replicate indent_width 32 → line_start.old.items ≡ line indent
        → OnOk result (line_start.new.items ≡ line (if opens then (indent + indent_width) else indent)) }
{
    if opens {
        line_start.extend_from_slice(spaces)?;
    }
    Ok(())
}

// Writes a comma between a value and the next token, unless that closes a bracket.
fn write_comma(
    written_bytes: &mut Vec<u8>,
    previous_kind: PreviousToken,
    begins: bool,
) -> Result<(), AllocError>
    ensures { OnOk result
        (written_bytes.new.items
        ≡ written_bytes.old.items ++ cond (is_value (kind_of_previous_token previous_kind) && begins) (44 ∷ []) []) }
{
    if begins && matches!(previous_kind, PreviousToken::Value) {
        written_bytes.push(b',')?;
    }
    Ok(())
}

// Writes the white space between the last token and this one, after the comma.
fn write_white_space(
    written_bytes: &mut Vec<u8>,
    previous_kind: PreviousToken,
    begins: bool,
    line_start: &[u8],
) -> Result<(), AllocError>
    ensures { (indent : ℕ) → line_start.now ≡ line indent
        → OnOk result
        (written_bytes.new.items
        ≡ written_bytes.old.items ++ white_space (kind_of_previous_token previous_kind) begins indent) }
{
    match previous_kind {
        PreviousToken::Nothing => Ok(()),
        PreviousToken::Bracket if !begins => Ok(()),
        PreviousToken::Key => written_bytes.extend_from_slice(b" "),
        _ => written_bytes.extend_from_slice(line_start),
    }
}

// Writes the text of the token alone, or nothing for an invalid token.
#[tactic(auto, using(crate::proofs::Indenting::print_one))]
fn write_token_text(
    alloc: Global,
    written_bytes: &mut Vec<u8>,
    token: Token<'_>,
) -> Result<(), AllocError>
    requires { token ≢ Token.Bad → IsPrintable (token_of token) }
    ensures text { OnOk result
        (written_bytes.new.items ≡ written_bytes.old.items ++ token_text (token_of token.entry)) }
    ensures utf8 { OnOk result (IsUtf8 (token_text (token_of token.entry))) }
{
    if matches!(token, Token::Bad) {
        return Ok(());
    }
    let mut writer = Writer::new(Vec::new(alloc));
    writer.token(token)?;
    written_bytes.extend_from_slice(&writer.into_inner())
}
