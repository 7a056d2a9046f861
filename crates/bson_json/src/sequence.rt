//! Where the texts of a sequence of JSON texts end.
ghost use Rattle.std.specs.Prelude.{◌≡◌, ◌≤◌, ◌<◌, ◌+◌, ◌^◌, ◌-◌, ◌++◌, ◌∷◌, ◌⊎◌, [], ℕ, IfSome, None, false, get_or, length, nat_lt, true};
ghost use Rattle.bson_json.specs.Sequence.{open_brackets_of, is_closer, is_opener, is_separator, keeps_part, one_bracket_less};
ghost use Rattle.bson_json.specs.Sequence.{scan, scan_state_of, separates, texts_after, texts_in, prepend_text};
ghost use Rattle.bson_json.specs.Sequence.{IsArray, between_brackets};
ghost use Rattle.json.specs.Word.{is_space};

/// What is between the texts of a sequence.
///
/// ```
/// let (text, rest) = split_text(Separator::Comma, b"1, [2, 3]");
/// println!(rt; "{} {}", text.len(), rest.len())?; // 1 7
/// ```
#[derive(Clone, Copy, PartialEq, Eq, Debug)]
pub enum Separator {
    /// White space. A part without bytes is not a text.
    WhiteSpace,
    /// A comma, as in an array. Each part is a text, also one without bytes.
    Comma,
}

impl Separator {
    /// Returns whether a part between separators is a text of the sequence.
    ///
    /// ```
    /// println!(rt; "{}", Separator::WhiteSpace.is_text(b""))?; // false
    /// ```
    pub fn is_text(self, part: &[u8]) -> bool
        ensures { result ≡ keeps_part self part.now }
    {
        match self {
            Separator::WhiteSpace => !part.is_empty(),
            Separator::Comma => true,
        }
    }

    // Returns whether a byte is a separator, if it is outside of all brackets and strings.
    fn is_separator(self, byte: u8) -> bool
        ensures { result ≡ is_separator self byte }
    {
        match self {
            Separator::WhiteSpace => is_space(byte),
            Separator::Comma => byte == b',',
        }
    }
}

/// Where a byte is: so many brackets are open.
#[derive(Clone, Copy)]
pub(crate) enum ScanState {
    /// Outside of strings.
    Outside(usize),
    /// In a string.
    InString(usize),
    /// After a backslash in a string.
    InEscape(usize),
}

impl ScanState {
    // Returns where the byte after this one is.
    fn next_state(self, byte: u8) -> ScanState
        requires { open_brackets_of self < 2 ^ 64 - 1 }
        ensures scan_state { scan_state_of result ≡ scan (scan_state_of self) byte }
        ensures depth { open_brackets_of result ≤ open_brackets_of self + 1 }
    {
        match self {
            ScanState::Outside(brackets) => {
                if byte == b'"' {
                    ScanState::InString(brackets)
                } else if is_opener(byte) {
                    ScanState::Outside(brackets + 1)
                } else if is_closer(byte) {
                    ScanState::Outside(one_bracket_less(brackets))
                } else {
                    ScanState::Outside(brackets)
                }
            }
            ScanState::InString(brackets) => {
                if byte == b'"' {
                    ScanState::Outside(brackets)
                } else if byte == b'\\' {
                    ScanState::InEscape(brackets)
                } else {
                    ScanState::InString(brackets)
                }
            }
            ScanState::InEscape(brackets) => ScanState::InString(brackets),
        }
    }

    // Returns whether the byte is a separator outside of all brackets and strings.
    fn separates(self, separator: Separator, byte: u8) -> bool
        ensures { result ≡ separates separator (scan_state_of self) byte }
    {
        match self {
            ScanState::Outside(0) => separator.is_separator(byte),
            _ => false,
        }
    }
}

/// Splits bytes at the first separator outside of all brackets and strings. Returns what comes before
/// it and after it. If there is no separator, the first part is all bytes, and the second is empty.
///
/// The texts of a sequence are the parts that [`Separator::is_text`] accepts.
///
/// ```
/// let (text, rest) = split_text(Separator::WhiteSpace, b"[1, 2] 3");
/// println!(rt; "{} {}", text.len(), rest.len())?; // 6 1
/// ```
pub fn split_text(separator: Separator, content: &[u8]) -> (&[u8], &[u8])
    ensures texts { texts_in separator content.now
        ≡ prepend_text separator result.0.now
        (texts_after separator (nat_lt (length result.0.now) (length content.now)) result.1.now) }
    ensures separator { ((content.now ≡ result.0.now) × (result.1.now ≡ []))
        ⊎ ((byte : ℕ) × (content.now ≡ result.0.now ++ byte ∷ result.1.now)) }
{
    let mut scan_state = ScanState::Outside(0);
    let mut byte_index = 0;
    while byte_index < content.len() {
        let byte = content[byte_index];
        if scan_state.separates(separator, byte) {
            return (&content[..byte_index], &content[byte_index + 1..]);
        }
        scan_state = scan_state.next_state(byte);
        byte_index += 1;
    }
    (content, b"")
}

/// Returns the bytes between the brackets of an array, and how many bytes of the content come before
/// its closing bracket. Only white space may be around the brackets, and anything between them.
///
/// The elements are the texts with [`Separator::Comma`] of these bytes, unless these are white space
/// alone.
///
/// ```
/// let elements = array_elements(b" [1, 2]");
/// println!(rt; "{:?}", elements.map(|(bytes, end)| (bytes.len(), end)))?; // Some((4, 6))
/// ```
pub fn array_elements(content: &[u8]) -> Option<(&[u8], usize)>
    ensures some { IfSome result (λ elements. (opening : ℕ) × IsArray content.now opening elements.1
        × (elements.0.now ≡ between_brackets content.now opening elements.1)) }
    ensures none { result ≡ None → (opening closing : ℕ) → IsArray content.now opening closing → ⊥ }
{
    let opening = white_space_len(content);
    let end = end_before_white_space(content);
    if end <= opening || end - 1 == opening {
        return None;
    }
    let closing = end - 1;
    if content[opening] == b'[' && content[closing] == b']' {
        Some((&content[opening + 1..closing], closing))
    } else {
        None
    }
}

// Returns how many bytes of white space begin the bytes.
fn white_space_len(bytes: &[u8]) -> usize
    ensures within { result ≤ length bytes.now }
    ensures spaces { (index : ℕ) → index < result → is_space (get_or bytes.now index 0) ≡ true }
    ensures next { result < length bytes.now → is_space (get_or bytes.now result 0) ≡ false }
{
    let mut byte_index = 0;
    while byte_index < bytes.len() {
        if !is_space(bytes[byte_index]) {
            return byte_index;
        }
        byte_index += 1;
    }
    byte_index
}

// Returns how many bytes come before the white space that ends the bytes.
fn end_before_white_space(bytes: &[u8]) -> usize
    ensures within { result ≤ length bytes.now }
    ensures spaces { (index : ℕ) → result ≤ index → index < length bytes.now → is_space (get_or bytes.now index 0) ≡ true }
    ensures last { 0 < result → is_space (get_or bytes.now (result - 1) 0) ≡ false }
{
    let mut end = bytes.len();
    while end > 0 {
        if !is_space(bytes[end - 1]) {
            return end;
        }
        end -= 1;
    }
    0
}

fn is_opener(byte: u8) -> bool
    ensures { result ≡ is_opener byte }
{
    byte == b'[' || byte == b'{'
}

fn is_closer(byte: u8) -> bool
    ensures { result ≡ is_closer byte }
{
    byte == b']' || byte == b'}'
}

fn is_space(byte: u8) -> bool
    ensures { result ≡ is_space byte }
{
    byte == b' ' || byte == b'\t' || byte == b'\n' || byte == b'\r'
}

// Subtracts 1, unless the number is 0.
fn one_bracket_less(brackets: usize) -> usize
    ensures { result ≡ one_bracket_less brackets }
{
    match brackets {
        0 => 0,
        brackets => brackets - 1,
    }
}
