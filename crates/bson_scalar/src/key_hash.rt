//! Hashes of keys, by which most keys are distinguished without comparing them.
ghost use Rattle.std.specs.Prelude.{◌≡◌, ◌≢◌, IsTrue};
ghost use Rattle.std.specs.List.{AllPairs};
ghost use Rattle.std.specs.List.Sorted.{IsStrictlyIncreasing};
ghost use Rattle.bson_scalar.specs.KeyHash.{key_hash};

// A hash is a sum of powers of this odd number.
const HASH_BASE: u64 = 0x9E37_79B9_7F4A_7C15;

/// Computes the hash of a key: a polynomial of its bytes, modulo 2^64.
pub fn hash_key(key: &str) -> u64
    ensures { result ≡ key_hash key.now }
{
    let bytes = key.as_bytes();
    let mut hash: u64 = 0;
    'bytes: for byte_index in 0..bytes.len() {
        hash = hash
            .wrapping_mul(HASH_BASE)
            .wrapping_add(bytes[byte_index] as u64);
    }
    hash
}

/// Returns whether no two of the hashes are equal. It may change their order.
pub fn are_distinct_hashes(hashes: &mut [u64]) -> bool
    ensures { IsTrue result → AllPairs (λ hash other_hash. hash ≢ other_hash) hashes.old }
{
    hashes.sort_unstable();
    are_increasing(hashes)
}

// Returns whether each hash is greater than the one before it.
fn are_increasing(hashes: &[u64]) -> bool
    ensures { IsTrue result → IsStrictlyIncreasing hashes.now }
{
    for hash_index in 1..hashes.len() {
        if hashes[hash_index - 1] >= hashes[hash_index] {
            return false;
        }
    }
    true
}
