//! Output text that the caller owns and frees.
ghost use Rattle.std.specs.Prelude.{◌≡◌, ◌<◌, ◌-◌, ◌++◌, ℕ, List, length, take, IfOk};
ghost use Rattle.vbson.specs.Text.{IsOwnedText, nul};

use std::alloc::AllocError;

/// A text that the caller owns: its bytes followed by a NUL, in a block of their own that the
/// caller frees with `free`, and its length without the NUL.
#[repr(C)]
#[derive(Drop)]
pub struct Text<'a> {
    pub bytes: &'a [u8],
    pub len: usize,
}

/// Returns the line with a NUL in place of its newline.
pub fn text_of_line(mut line: Vec<u8>) -> Text<'static>
    requires { 0 < length line.items }
    ensures { IsOwnedText (take (length line.items - 1) line.items) result }
{
    let len = line.len() - 1;
    line[len] = 0;
    Text {
        bytes: line.leak(),
        len,
    }
}

/// Appends a NUL to the bytes.
///
/// # Errors
///
/// Returns `AllocError` if an allocation fails.
pub fn append_nul(mut bytes: Vec<u8>) -> Result<Vec<u8>, AllocError>
    ensures { IfOk result (λ text. text.items ≡ bytes.items ++ nul) }
{
    bytes.push(0)?;
    Ok(bytes)
}

/// Returns bytes that end in a NUL as a text.
pub fn text_before_nul(bytes: Vec<u8>) -> Text<'static>
    ensures { (text : List ℕ) → bytes.items ≡ text ++ nul → IsOwnedText text result }
{
    let len = bytes.len().saturating_sub(1);
    Text {
        bytes: bytes.leak(),
        len,
    }
}
