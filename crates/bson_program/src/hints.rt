//! The actual format of a rejected input, by its first bytes.
ghost use Rattle.std.specs.Prelude.{◌≡◌, not, reverse};
ghost use Rattle.std.specs.List.{find};
ghost use Rattle.bson_program.specs.Hints.{advice_hint, after_first_line, compression_hint, hint_of_encoding, ends_in_zero_byte, first_line};
ghost use Rattle.bson_program.specs.Hints.{hint_of, hint_of_dump, hint_of_lines, hint_of_texts, is_whitespace, is_dump};
ghost use Rattle.bson_program.specs.Hints.{has_non_whitespace, has_utf16_mark, has_utf8_mark, is_utf16_big_endian, is_document_length, is_utf16_little_endian};
ghost use Rattle.bson_program.specs.Hints.{is_opening_bracket, little_endian_number, opens_multiline_text, starts_json_array, starts_json_text};
ghost use Rattle.bson_program.specs.Hints.{hint_of_multiline_texts, hint_of_one_line, is_array_to_encode, says_no_more};

use crate::advice::Advice;
use crate::invocation::Input;
use crate::messages::line_len;

/// The greatest length of a document that its first bytes distinguish from text.
const MAX_DOCUMENT_LENGTH: usize = 1 << 27;

/// What a rejected input contains, or how it is read.
#[derive(Clone, Copy, PartialEq, Eq)]
pub enum Hint {
    /// Bytes that `gzip` made.
    Gzip,
    /// Bytes that `zstd` made.
    Zstd,
    /// Bytes that `bzip2` made.
    Bzip2,
    /// Bytes that `xz` made.
    Xz,
    /// An archive of mongodump.
    MongodumpArchive,
    /// BSON documents, where a text is expected.
    BsonDocuments,
    /// A text, where BSON documents are expected.
    JsonText,
    /// UTF-16 with a byte order mark.
    Utf16,
    /// UTF-16 without one, the lower byte of each unit first.
    Utf16LittleEndian,
    /// UTF-16 without one, the higher byte first.
    Utf16BigEndian,
    /// A text after a byte order mark, which standard input may not have.
    ByteOrderMark,
    /// Texts over several lines, if a text per line is expected.
    MultilineTexts,
    /// Texts over several lines, if bytes are made of each line.
    MultilineTextsToEncode,
    /// One array, if bytes are made of each line.
    ArrayToEncode,
    /// A mistake in a text.
    Advised(Advice),
}

/// The properties of a rejected input in addition to its first bytes.
#[derive(Clone, Copy, PartialEq, Eq)]
pub struct RejectedInput {
    /// The expected input.
    pub input: Input,
    /// Whether bytes are made of each line.
    pub writes_bson_bytes: bool,
    /// Whether it is standard input.
    pub is_standard_stream: bool,
    /// The advice for the text that was rejected.
    pub advice: Option<Advice>,
}

/// Returns what helps with an input that was rejected, whose first bytes these are.
pub fn hint_for(rejected_input: RejectedInput, first_bytes: &[u8]) -> Option<Hint>
    ensures { result ≡ hint_of rejected_input first_bytes.now }
{
    if let Some(hint) = compression_hint(first_bytes) {
        return Some(hint);
    }
    match rejected_input.input {
        Input::Text => match encoding_hint(first_bytes) {
            Some(hint) => Some(hint),
            None => hint_for_texts(rejected_input, first_bytes),
        },
        Input::Lines => match encoding_hint(first_bytes) {
            Some(hint) => Some(hint),
            None => hint_for_lines(rejected_input, first_bytes),
        },
        Input::Documents => hint_for_dump(rejected_input, first_bytes),
    }
}

// Returns the hint if texts are expected.
fn hint_for_texts(rejected_input: RejectedInput, first_bytes: &[u8]) -> Option<Hint>
    ensures { result ≡ hint_of_texts rejected_input first_bytes.now }
{
    if rejected_input.is_standard_stream && has_utf8_mark(first_bytes) {
        return Some(Hint::ByteOrderMark);
    }
    advice_hint(rejected_input.advice)
}

// Returns the hint if a text per line is expected.
fn hint_for_lines(rejected_input: RejectedInput, first_bytes: &[u8]) -> Option<Hint>
    ensures { result ≡ hint_of_lines rejected_input first_bytes.now }
{
    let (line, other_lines) = split_first_line(first_bytes);
    if opens_multiline(line) && has_non_whitespace(other_lines) {
        return Some(multiline_hint(rejected_input, first_bytes));
    }
    hint_for_one_line(rejected_input, first_bytes)
}

// Returns the hint if a text per line is expected, and texts are over several lines.
fn multiline_hint(rejected_input: RejectedInput, first_bytes: &[u8]) -> Hint
    ensures { result ≡ hint_of_multiline_texts rejected_input first_bytes.now }
{
    if is_array_to_encode(rejected_input, first_bytes) {
        return Hint::ArrayToEncode;
    }
    if rejected_input.writes_bson_bytes {
        Hint::MultilineTextsToEncode
    } else {
        Hint::MultilineTexts
    }
}

// Returns the hint if a text per line is expected, and the first line may be one.
fn hint_for_one_line(rejected_input: RejectedInput, first_bytes: &[u8]) -> Option<Hint>
    ensures { result ≡ hint_of_one_line rejected_input first_bytes.now }
{
    let (_, other_lines) = split_first_line(first_bytes);
    if is_array_to_encode(rejected_input, first_bytes)
        && !has_non_whitespace(other_lines)
        && says_no_more(rejected_input.advice)
    {
        return Some(Hint::ArrayToEncode);
    }
    advice_hint(rejected_input.advice)
}

fn is_array_to_encode(rejected_input: RejectedInput, first_bytes: &[u8]) -> bool
    ensures { result ≡ is_array_to_encode rejected_input first_bytes.now }
{
    rejected_input.writes_bson_bytes && starts_json_array(first_bytes)
}

// Returns whether there is no advice, or only that the value is not a document.
fn says_no_more(advice: Option<Advice>) -> bool
    ensures { result ≡ says_no_more advice }
{
    match advice {
        None | Some(Advice::NotADocument) => true,
        Some(_) => false,
    }
}

// Returns the hint if documents of BSON are expected.
fn hint_for_dump(rejected_input: RejectedInput, first_bytes: &[u8]) -> Option<Hint>
    ensures { result ≡ hint_of_dump rejected_input first_bytes.now }
{
    if is_dump(first_bytes) {
        return advice_hint(rejected_input.advice);
    }
    if has_utf16_mark(first_bytes) {
        return Some(Hint::Utf16);
    }
    if starts_json_text(first_bytes) || has_utf8_mark(first_bytes) {
        return Some(Hint::JsonText);
    }
    advice_hint(rejected_input.advice)
}

fn advice_hint(advice: Option<Advice>) -> Option<Hint>
    ensures { result ≡ advice_hint advice }
{
    match advice {
        Some(advice) => Some(Hint::Advised(advice)),
        None => None,
    }
}

// The program that packed the bytes, by the bytes with which its files begin.
fn compression_hint(first_bytes: &[u8]) -> Option<Hint>
    ensures { result ≡ compression_hint first_bytes.now }
{
    if first_bytes.starts_with(b"\x1f\x8b") {
        return Some(Hint::Gzip);
    }
    if first_bytes.starts_with(b"\x28\xb5\x2f\xfd") {
        return Some(Hint::Zstd);
    }
    if first_bytes.starts_with(b"BZh") {
        return Some(Hint::Bzip2);
    }
    if first_bytes.starts_with(b"\xfd7zX") {
        return Some(Hint::Xz);
    }
    if first_bytes.starts_with(b"\x6d\xe2\x99\x81") {
        return Some(Hint::MongodumpArchive);
    }
    None
}

// How a text is encoded that is no UTF-8, or that it is no text.
fn encoding_hint(first_bytes: &[u8]) -> Option<Hint>
    ensures { result ≡ hint_of_encoding first_bytes.now }
{
    if has_utf16_mark(first_bytes) {
        return Some(Hint::Utf16);
    }
    if is_utf16_little_endian(first_bytes) {
        return Some(Hint::Utf16LittleEndian);
    }
    if is_utf16_big_endian(first_bytes) {
        return Some(Hint::Utf16BigEndian);
    }
    if is_dump(first_bytes) {
        return Some(Hint::BsonDocuments);
    }
    None
}

// Whether the bytes begin with a byte order mark of UTF-16.
fn has_utf16_mark(first_bytes: &[u8]) -> bool
    ensures { result ≡ has_utf16_mark first_bytes.now }
{
    first_bytes.starts_with(b"\xff\xfe") || first_bytes.starts_with(b"\xfe\xff")
}

// Whether the bytes begin with a byte order mark of UTF-8.
fn has_utf8_mark(first_bytes: &[u8]) -> bool
    ensures { result ≡ has_utf8_mark first_bytes.now }
{
    first_bytes.starts_with(b"\xef\xbb\xbf")
}

// Whether a text begins there in UTF-16, the lower byte of each unit first.
fn is_utf16_little_endian(first_bytes: &[u8]) -> bool
    ensures { result ≡ is_utf16_little_endian first_bytes.now }
{
    if first_bytes.len() < 4 {
        return false;
    }
    let has_text_bytes = is_opening_bracket(first_bytes[0]) && first_bytes[2] != 0;
    has_text_bytes
        && first_bytes[1] == 0
        && first_bytes[3] == 0
        && (first_bytes.len() < 6 || first_bytes[5] == 0)
}

// The same with the higher byte first.
fn is_utf16_big_endian(first_bytes: &[u8]) -> bool
    ensures { result ≡ is_utf16_big_endian first_bytes.now }
{
    if first_bytes.len() < 4 {
        return false;
    }
    first_bytes[0] == 0
        && is_opening_bracket(first_bytes[1])
        && first_bytes[2] == 0
        && first_bytes[3] != 0
}

// Whether a document of BSON begins there: its length, and the type of its first element; where all
// of it is there, also the 0 byte that ends it.
fn is_dump(first_bytes: &[u8]) -> bool
    ensures { result ≡ is_dump first_bytes.now }
{
    if first_bytes.len() < 5 {
        return false;
    }
    let document_length = little_endian_number(
        first_bytes[0],
        first_bytes[1],
        first_bytes[2],
        first_bytes[3],
    );
    is_document_length(document_length, first_bytes[4])
        && ends_in_zero_byte(document_length, first_bytes)
}

// The number of these bytes, the lowest first.
fn little_endian_number(byte0: u8, byte1: u8, byte2: u8, byte3: u8) -> usize
    ensures { result ≡ little_endian_number byte0 byte1 byte2 byte3 }
{
    let high_bytes = usize::from(byte2) + 256 * usize::from(byte3);
    usize::from(byte0) + 256 * (usize::from(byte1) + 256 * high_bytes)
}

// Whether a document of this length may begin with an element of this type.
fn is_document_length(document_length: usize, element_type: u8) -> bool
    ensures { result ≡ is_document_length document_length element_type }
{
    if element_type == 0 {
        return document_length == 5;
    }
    (element_type <= 0x13 || element_type == 0x7f || element_type == 0xff)
        && 5 < document_length
        && document_length <= MAX_DOCUMENT_LENGTH
}

// Whether the last of so many bytes is 0, or not there.
fn ends_in_zero_byte(document_length: usize, first_bytes: &[u8]) -> bool
    ensures { result ≡ ends_in_zero_byte document_length first_bytes.now }
{
    if document_length == 0 || first_bytes.len() < document_length {
        return true;
    }
    first_bytes[document_length - 1] == 0
}

// Whether the first byte that is not blank opens an array.
fn starts_json_array(first_bytes: &[u8]) -> bool
    ensures { result ≡ starts_json_array first_bytes.now }
{
    match first_non_whitespace(first_bytes) {
        Some(byte) => byte == b'[',
        None => false,
    }
}

/// Whether the first byte that is not blank opens an array or an object.
pub fn starts_json_text(first_bytes: &[u8]) -> bool
    ensures { result ≡ starts_json_text first_bytes.now }
{
    match first_non_whitespace(first_bytes) {
        Some(byte) => is_opening_bracket(byte),
        None => false,
    }
}

// Whether the line opens an array or an object, and ends with what opens another or with a comma.
fn opens_multiline(line: &[u8]) -> bool
    ensures { result ≡ opens_multiline_text line.now }
{
    match last_non_whitespace(line) {
        Some(last_byte) => (is_opening_bracket(last_byte) || last_byte == b',')
            && starts_json_text(line),
        None => false,
    }
}

/// Whether a byte is not blank.
pub fn has_non_whitespace(bytes: &[u8]) -> bool
    ensures { result ≡ has_non_whitespace bytes.now }
{
    first_non_whitespace(bytes).is_some()
}

// The first byte that is not blank.
fn first_non_whitespace(bytes: &[u8]) -> Option<u8>
    ensures { result ≡ find (λ byte. not (is_whitespace byte)) bytes.now }
{
    bytes.iter().find(|byte| !is_whitespace(**byte)).copied()
}

// The last byte that is not blank.
fn last_non_whitespace(bytes: &[u8]) -> Option<u8>
    ensures { result ≡ find (λ byte. not (is_whitespace byte)) (reverse bytes.now) }
{
    bytes
        .iter()
        .rev()
        .find(|byte| !is_whitespace(**byte))
        .copied()
}

fn is_opening_bracket(byte: u8) -> bool
    ensures { result ≡ is_opening_bracket byte }
{
    byte == b'[' || byte == b'{'
}

fn is_whitespace(byte: u8) -> bool
    ensures { result ≡ is_whitespace byte }
{
    byte == b' ' || byte == b'\t' || byte == b'\r' || byte == b'\n'
}

/// The first line, with its newline, and the bytes after it.
pub fn split_first_line(first_bytes: &[u8]) -> (&[u8], &[u8])
    ensures line { result.0.now ≡ first_line first_bytes.now }
    ensures other_lines { result.1.now ≡ after_first_line first_bytes.now }
{
    first_bytes.split_at(line_len(first_bytes))
}
