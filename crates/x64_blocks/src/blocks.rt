// Blocks that lie apart.

ghost use Rattle.std.specs.Prelude.{◌≡◌, ◌≤◌, ◌<◌, ◌+◌, ◌^◌, ◌↔◌, ◌++◌, ◌∷◌, [], length, true, OnOk, OnErr, IfSome};
ghost use Rattle.std.specs.Int.{to_le_bytes, w32, w64, w128};
ghost use Rattle.std.specs.List.{find, list_any};
ghost use Rattle.std.specs.Option.{option_copied};
ghost use Rattle.x64_blocks.specs.Memory.{Range, IsMemory, block_at, holds, meets, access_bytes, load, store, or_outside, Stores};

use crate::block::{Block, le_number};
use std::alloc::Global;
use std::marker::Model;

/// Blocks of memory that lie apart, in the order in which they were added.
#[derive(Debug, Drop)]
pub struct Blocks {
    blocks: Vec<Block>,
}

impl Model for Blocks {
    ghost use Rattle.std.specs.Prelude.{List};
    ghost use Rattle.x64_blocks.specs.Memory.{Range, IsMemory};

    ghost Value = { List Range };

    ghost view = { λ b. b.blocks.items };

    ghost invariant = { λ b. IsMemory b.blocks.items };
}

/// Why a block isn't added.
#[derive(Clone, Copy, Debug, PartialEq, Eq, Drop)]
pub enum AddFault {
    /// It would end above 2^64.
    PastEnd,
    /// It has an address in common with a block that is there.
    Overlap,
    /// Memory ran out.
    NoMemory,
}

/// No single block holds all bytes of an access.
#[derive(Clone, Copy, Debug, PartialEq, Eq, Drop)]
pub struct Outside;

impl Blocks {
    /// No blocks.
    pub fn new(alloc: Global) -> Self
        ensures { result ≡ [] }
    {
        Blocks {
            blocks: Vec::new(alloc),
        }
    }

    /// Adds a block behind the others. A refusal changes nothing.
    pub fn add(&mut self, base: u64, bytes: Vec<u8>) -> Result<(), AddFault>
        ensures past_end { (result ≡ Err AddFault.PastEnd) ↔ (2 ^ 64 < base + length bytes.items) }
        ensures overlap { (result ≡ Err AddFault.Overlap) ↔ ((base + length bytes.items ≤ 2 ^ 64) × (list_any (meets record { base = base; bytes = bytes.items }) self.old ≡ true)) }
        ensures ok { OnOk result (self.new ≡ self.old ++ record { base = base; bytes = bytes.items } ∷ []) }
        ensures err { OnErr result (self.new ≡ self.old) }
    {
        let block = Block::new(base, bytes);
        if block.end() > 1 << 64 {
            return Err(AddFault::PastEnd);
        }
        if meets_any(&block, &self.blocks) {
            return Err(AddFault::Overlap);
        }
        match self.blocks.push(block) {
            Ok(()) => Ok(()),
            Err(_) => Err(AddFault::NoMemory),
        }
    }

    /// Whether one block holds all bytes of an access.
    pub fn holds(&self, address: u64, size: u8) -> bool
        ensures { result ≡ list_any (holds address size) self.now }
    {
        self.blocks
            .iter()
            .any(|block| block.holds(address, usize::from(size)))
    }

    /// The byte at an address.
    pub fn load1(&self, address: u64) -> Result<u8, Outside>
        ensures { result ≡ or_outside (load self.now address 1) }
    {
        match access(&self.blocks, address, 1) {
            Some(bytes) => Ok(le_number(bytes) as u8),
            None => Err(Outside),
        }
    }

    /// The little-endian number in 4 bytes.
    pub fn load4(&self, address: u64) -> Result<u32, Outside>
        ensures { result ≡ or_outside (load self.now address 4) }
    {
        match access(&self.blocks, address, 4) {
            Some(bytes) => Ok(le_number(bytes) as u32),
            None => Err(Outside),
        }
    }

    /// The little-endian number in 8 bytes.
    pub fn load8(&self, address: u64) -> Result<u64, Outside>
        ensures { result ≡ or_outside (load self.now address 8) }
    {
        match access(&self.blocks, address, 8) {
            Some(bytes) => Ok(le_number(bytes) as u64),
            None => Err(Outside),
        }
    }

    /// The little-endian number in 16 bytes.
    pub fn load16(&self, address: u64) -> Result<u128, Outside>
        ensures { result ≡ or_outside (load self.now address 16) }
    {
        match access(&self.blocks, address, 16) {
            Some(bytes) => Ok(le_number(bytes)),
            None => Err(Outside),
        }
    }

    /// Stores a number in 4 bytes. A refusal changes nothing.
    pub fn store4(&mut self, address: u64, v: u32) -> Result<(), Outside>
        ensures { Stores (store self.old address (to_le_bytes w32 v)) self.old self.new result }
    {
        self.store(address, &v.to_le_bytes())
    }

    /// Stores a number in 8 bytes. A refusal changes nothing.
    pub fn store8(&mut self, address: u64, v: u64) -> Result<(), Outside>
        ensures { Stores (store self.old address (to_le_bytes w64 v)) self.old self.new result }
    {
        self.store(address, &v.to_le_bytes())
    }

    /// Stores a number in 16 bytes. A refusal changes nothing.
    pub fn store16(&mut self, address: u64, v: u128) -> Result<(), Outside>
        ensures { Stores (store self.old address (to_le_bytes w128 v)) self.old self.new result }
    {
        self.store(address, &v.to_le_bytes())
    }

    fn store(&mut self, address: u64, bytes: &[u8]) -> Result<(), Outside>
        ensures { Stores (store self.old address bytes.now) self.old self.new result }
    {
        for k in 0..self.blocks.len() {
            if self.blocks[k].holds(address, bytes.len()) {
                self.blocks[k].put_at(address, bytes);
                return Ok(());
            }
        }
        Err(Outside)
    }

    /// Blocks lie apart and end at or below 2^64.
    pub fn are_memory(&self)
        ensures { IsMemory self.now }
    {
        let _ = &self.blocks;
    }

    /// How many blocks there are.
    pub fn count(&self) -> usize
        ensures { result ≡ length self.now }
    {
        self.blocks.len()
    }

    /// The address of a block's first byte.
    pub fn base(&self, k: usize) -> u64
        requires { k < length self.now }
        ensures { result ≡ (block_at self.now k).base }
    {
        self.blocks[k].base
    }

    /// A block's bytes.
    pub fn bytes(&self, k: usize) -> &[u8]
        requires { k < length self.now }
        ensures { result.now ≡ (block_at self.now k).bytes }
    {
        &self.blocks[k].bytes
    }
}

fn meets_any(block: &Block, blocks: &[Block]) -> bool
    ensures { result ≡ list_any (meets block.now) blocks.now }
{
    blocks.iter().any(|other| block.meets(other))
}

// The bytes of an access, where one block holds them all.
fn access(blocks: &[Block], address: u64, size: usize) -> Option<&[u8]>
    ensures value { option_copied result ≡ access_bytes blocks.now address size }
    ensures size { IfSome result (λ bytes. length bytes.now ≡ size) }
{
    for block in blocks {
        if block.holds(address, size) {
            return Some(block.bytes_at(address, size));
        }
    }
    None
}
