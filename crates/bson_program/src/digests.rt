//! The SHA-256 digests of lines.
ghost use Rattle.std.specs.Prelude.{◌≡◌, ◌≢◌, ◌++◌, [], ℕ, List, None, IfOk, IfSome, OnOk};
ghost use Rattle.sha2.specs.Hashers.{Holds256};
ghost use Rattle.bson_program.specs.Digests.{digest_line, digests_from, open_line_after};

use crate::invocation::Purpose;
use sha2::{Digest, Sha256};
use std::alloc::{AllocError, Global};

/// A hasher of lines that come in blocks.
#[derive(Drop)]
pub struct LineHasher {
    alloc: Global,
    /// It has the bytes of the last line, which no newline ends yet.
    line_sha256: Sha256,
}

/// Returns a hasher if a run writes digests.
pub fn hasher_for(alloc: Global, purpose: Purpose) -> Option<LineHasher>
    ensures some { IfSome result (λ hasher. (purpose ≡ Purpose.Digests) × Holds256 hasher.line_sha256 []) }
    ensures none { result ≡ None → purpose ≢ Purpose.Digests }
{
    if purpose == Purpose::Digests {
        Some(LineHasher::new(alloc))
    } else {
        None
    }
}

impl LineHasher {
    // Returns a hasher that has nothing of a line.
    fn new(alloc: Global) -> LineHasher
        ensures { Holds256 result.line_sha256 [] }
    {
        LineHasher {
            alloc,
            line_sha256: Sha256::new(),
        }
    }

    /// Returns the digests of the lines that end in the bytes, each as hex digits and a newline. The
    /// hasher keeps the bytes after the last newline, which begin the next line.
    pub fn digests_of(&mut self, bytes: &[u8]) -> Result<Vec<u8>, AllocError>
        ensures digests { (open_line : List ℕ) → Holds256 self.old.line_sha256 open_line
            → IfOk result (λ digests. digests.items ≡ digests_from open_line bytes.now) }
        ensures line_sha256 { (open_line : List ℕ) → Holds256 self.old.line_sha256 open_line
            → OnOk result (Holds256 self.new.line_sha256 (open_line_after open_line bytes.now)) }
    {
        let mut digests = Vec::new(self.alloc);
        let mut line_start = 0;
        for (offset, byte) in bytes.iter().enumerate() {
            if *byte == b'\n' {
                self.line_sha256.update(&bytes[line_start..offset]);
                push_digest(self.alloc, &mut self.line_sha256, &mut digests)?;
                line_start = offset + 1;
            }
        }
        self.line_sha256.update(&bytes[line_start..]);
        Ok(digests)
    }
}

// Adds the digest of a line, and begins the next one.
fn push_digest(
    alloc: Global,
    line_sha256: &mut Sha256,
    digests: &mut Vec<u8>,
) -> Result<(), AllocError>
    ensures digest_appended { (bytes : List ℕ) → Holds256 line_sha256.old bytes
        → OnOk result (digests.new.items ≡ digests.old.items ++ digest_line bytes) }
    ensures hasher_reset { Holds256 line_sha256.new [] }
{
    let digits = hex::encode(alloc, line_sha256.finalize_reset())?;
    digests.extend_from_slice(digits.as_bytes())?;
    digests.push(b'\n')?;
    Ok(())
}
