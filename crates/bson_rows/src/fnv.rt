//! A hasher that anyone can follow: FNV-1a of 64 bits, over the bytes that it is fed.
ghost use Rattle.std.specs.Prelude.{ℕ, ◌*◌, ◌%◌, ◌^◌, fold, bit_xor};

use std::hash::Hasher;

#[derive(Drop)]
pub struct Fnv(u64);

impl Fnv {
    /// Before the first byte.
    pub(crate) fn new() -> Fnv {
        Fnv(0xCBF2_9CE4_8422_2325)
    }
}

impl Hasher for Fnv {
    ghost write = { λ state bytes. record { 0 = fold (λ hash byte. (bit_xor hash byte * 1099511628211) % 2 ^ 64) state.0 bytes } };

    ghost finish = { λ state. state.0 };

    fn finish(&self) -> u64 {
        self.0
    }

    fn write(&mut self, bytes: &[u8]) {
        for byte in bytes {
            self.0 = (self.0 ^ (*byte as u64)).wrapping_mul(1099511628211);
        }
    }
}
