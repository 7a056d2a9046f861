//! Strings that are written into a buffer of the caller's.
ghost use Rattle.std.specs.Prelude.{◌≡◌, ◌⊎◌, IsUtf8};
ghost use Rattle.vbson.specs.Buffer.{IsLargerThanBuffer, IsWrittenToBuffer};

use crate::status;

/// Writes the bytes of a string at the start of the buffer if they fit, and sets `len` to their number.
pub fn write_string(bytes: &[u8], buffer: &mut [u8], len: &mut usize) -> u32
    requires { IsUtf8 bytes.now }
    ensures success { result ≡ 0 → IsWrittenToBuffer bytes.now buffer.old buffer.new len.new }
    ensures too_small { result ≡ 8 → IsLargerThanBuffer bytes.now buffer.old buffer.new len.new }
    ensures possible_statuses { (result ≡ 0) ⊎ (result ≡ 8) }
{
    *len = bytes.len();
    if buffer.len() < bytes.len() {
        return status::BUFFER_TOO_SMALL;
    }
    buffer[..bytes.len()].copy_from_slice(bytes);
    status::OK
}
