//! Where an error is in an input: its line, its column and its offset.
ghost use Rattle.std.specs.Prelude.{◌≡◌};
ghost use Rattle.bson_run.specs.Diagnostic.{position_at};
ghost use Rattle.bson_run.specs.ErrorMessages.{bytes_before, column_at, line_at};

/// Where an error is in an input.
///
/// ```
/// let text: &[u8] = b"[1, 2.5]";
/// let position = Position::at(3, Some(4), text);
/// println!(rt; "{}:{:?}", position.line, position.column)?; // 3:Some(5)
/// ```
#[derive(Clone, Copy, PartialEq, Eq, Debug)]
pub struct Position {
    /// The number of the line, from 1.
    pub line: u64,
    /// The byte of the line, from 1, if it is known.
    pub column: Option<usize>,
    /// The number of bytes before the error, if it is known.
    pub offset: Option<usize>,
}

impl Position {
    /// Makes the position of the byte at this offset of the bytes, which is on the line of this number.
    pub fn at(line: u64, offset: Option<usize>, bytes: &[u8]) -> Position
        ensures { result ≡ position_at line offset bytes.now }
    {
        let column = match offset {
            Some(offset) => Some(column_at(offset, bytes)),
            None => None,
        };
        Position {
            line,
            column,
            offset,
        }
    }
}

/// Returns the line of the byte at an offset, counted from 1. If there is no such byte, it is the line of
/// the last one.
///
/// ```
/// println!(rt; "{}", line_at(4, b"[1,\n 2]"))?; // 2
/// ```
pub fn line_at(offset: usize, bytes: &[u8]) -> usize
    ensures { result ≡ line_at offset bytes.now }
{
    let preceding_bytes = bytes_before(offset, bytes);
    1 + preceding_bytes
        .iter()
        .filter(|byte| **byte == b'\n')
        .count()
}

/// Returns the column of the byte at an offset, counted from 1. If there is no such byte, it is the column
/// of the last one.
///
/// ```
/// println!(rt; "{}", column_at(5, b"[1,\n 2]"))?; // 2
/// ```
pub fn column_at(offset: usize, bytes: &[u8]) -> usize
    ensures { result ≡ column_at offset bytes.now }
{
    let line = bytes_before(offset, bytes).iter().rev();
    1 + line.take_while(|byte| **byte != b'\n').count()
}

// Returns the bytes before an offset, which are not all.
fn bytes_before(offset: usize, bytes: &[u8]) -> &[u8]
    ensures { result.now ≡ bytes_before offset bytes.now }
{
    &bytes[..offset.min(bytes.len().saturating_sub(1))]
}
