//! Which rule of JSON a text breaks.
ghost use Rattle.std.specs.Prelude.{◌≡◌};
ghost use Rattle.bson_run.specs.TaskNames.{rule_message};

/// Which rule of JSON (RFC 8259) a text breaks.
///
/// ```
/// let text: &[u8] = b"[1, 2,]";
/// let syntax_error = SyntaxError::of(alloc, false, text)?;
/// println!(rt; "{}", syntax_error.rule.message())?; // expected an element after the comma
/// ```
#[derive(Clone, Copy, PartialEq, Eq, Debug)]
pub enum Rule {
    /// The bytes are not UTF-8.
    Utf8,
    /// The text ends before its value is complete, or is blank.
    UnexpectedEnd,
    /// A key or a string has no double quotes, or has other quotes.
    Quotes,
    /// There is no value where one is expected.
    ExpectedValue,
    /// A number does not have the grammar of JSON: `01`, `+1`, `1.`, `.5`, `0x10`.
    Number,
    /// A string contains a character below U+0020, for example a tab or a newline.
    ControlCharacter,
    /// A string has an escape that denotes no character: `\x41`, or half of a surrogate pair.
    Escape,
    /// There is neither a comma nor the closing bracket after an element; or a bracket is closed that
    /// is not open, or a key is outside of an object.
    Separator,
    /// There is no element after a comma.
    ExpectedElement,
    /// There is no colon after a key, or no value after the colon.
    ExpectedColonAndValue,
    /// Arrays and objects nest deeper than 127.
    Depth,
    /// There is more input after the value.
    TrailingData,
    /// The text has the grammar of JSON, but a number in it has no finite nearest double.
    OutOfRange,
    /// The text is JSON, but the rewritten text that is read instead nests deeper than 127.
    RewrittenDepth,
}

impl Rule {
    /// Returns what a program says of the rule.
    pub fn message(self) -> &'static str
        ensures { result.now ≡ rule_message self }
    {
        match self {
            Rule::Utf8 => "invalid UTF-8",
            Rule::UnexpectedEnd => "unexpected end of input",
            Rule::Quotes => "keys and strings must be in double quotes",
            Rule::ExpectedValue => "expected a value",
            Rule::Number => "invalid number",
            Rule::ControlCharacter => "unescaped control character in a string",
            Rule::Escape => "invalid escape sequence",
            Rule::Separator => "expected a comma or a closing bracket",
            Rule::ExpectedElement => "expected an element after the comma",
            Rule::ExpectedColonAndValue => "expected a colon and a value after the key",
            Rule::Depth => "nested more than 127 levels deep",
            Rule::TrailingData => "unexpected data after the value",
            Rule::OutOfRange => "number out of range",
            Rule::RewrittenDepth => "the rewritten input is nested more than 127 levels deep",
        }
    }
}
