//! The first bytes of keys, which distinguish most keys.
ghost use Rattle.std.specs.Prelude.{◌≡◌};
ghost use Rattle.bson_tokens.specs.KeyPrefix.{key_prefix_number};

/// Returns the first sixteen bytes of the key as one number, with zeros for missing bytes: if the
/// numbers of two keys differ, the key with the greater number is greater by bytes.
pub fn prefix_of(key: &[u8]) -> u128
    ensures { result ≡ key_prefix_number key.now 16 }
{
    let mut prefix: u128 = 0;
    'bytes: for byte_index in 0..16 {
        let byte = key.get(byte_index).copied().unwrap_or(0);
        prefix = prefix << 8 | byte as u128;
    }
    prefix
}
