// One block, and the numbers in it.

ghost use Rattle.std.specs.Prelude.{◌≡◌, ℕ, ◌≤◌, ◌<◌, ◌+◌, ◌-◌, ◌^◌, length, slice_index, IsTrue};
ghost use Rattle.x64_blocks.specs.Memory.{holds, meets, bytes_at, put_at, le_number};

use std::marker::Model;

/// Bytes that lie one after another from an address on.
#[derive(Debug, Drop)]
pub(crate) struct Block {
    pub(crate) base: u64,
    pub(crate) bytes: Vec<u8>,
}

impl Model for Block {
    ghost use Rattle.x64_blocks.specs.Memory.{Range};

    ghost Value = { Range };

    ghost view = { λ b. record { base = b.base; bytes = b.bytes.items } };
}

impl Block {
    /// The block of these bytes.
    pub(crate) fn new(base: u64, bytes: Vec<u8>) -> Self
        ensures block { result ≡ record { base = base; bytes = bytes.items } }
        ensures bytes { (i : ℕ) → slice_index bytes.items i < 256 }
    {
        Block { base, bytes }
    }

    /// Whether the block holds all bytes of an access.
    pub(crate) fn holds(&self, address: u64, size: usize) -> bool
        ensures { result ≡ holds address size self.now }
    {
        self.base <= address && address as u128 + size as u128 <= self.end()
    }

    /// The address behind the last byte.
    pub(crate) fn end(&self) -> u128
        ensures { result ≡ self.now.base + length self.now.bytes }
    {
        self.base as u128 + self.bytes.len() as u128
    }

    /// Whether the two have an address in common.
    pub(crate) fn meets(&self, other: &Block) -> bool
        ensures { result ≡ meets self.now other.now }
    {
        if self.bytes.is_empty() || other.bytes.is_empty() {
            return false;
        }
        (self.base as u128) < other.end() && (other.base as u128) < self.end()
    }

    /// The bytes of an access.
    pub(crate) fn bytes_at(&self, address: u64, size: usize) -> &[u8]
        requires { IsTrue (holds address size self.now) }
        ensures { result.now ≡ bytes_at address size self.now }
    {
        let (_, behind) = self.bytes.split_at((address - self.base) as usize);
        behind.split_at(size).0
    }

    /// Puts bytes from an address on.
    pub(crate) fn put_at(&mut self, address: u64, new: &[u8])
        requires { IsTrue (holds address (length new.now) self.old) }
        ensures { self.new ≡ put_at address new.now self.old }
    {
        let at = (address - self.base) as usize;
        self.bytes[at..at + new.len()].copy_from_slice(new);
    }
}

/// The number whose lowest byte is the first.
pub(crate) fn le_number(bytes: &[u8]) -> u128
    requires { length bytes.now ≤ 16 }
    ensures value { result ≡ le_number bytes.now }
    ensures fits { result < 256 ^ length bytes.now }
{
    match bytes {
        [] => 0,
        [first, rest @ ..] => u128::from(*first) + 256 * le_number(rest),
    }
}
