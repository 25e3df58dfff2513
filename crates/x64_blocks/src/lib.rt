//! Blocks of memory that lie apart, loads of 1, 4, 8 and 16 bytes, and stores of 4, 8 and 16.
//!
//! Loads, stores and `add` are exact (`specs/Memory.antt`): a refusal comes exactly where no single block holds all
//! bytes, or where a block would end above 2^64 or overlap, and changes nothing. `are_memory`: blocks lie apart, end
//! at or below 2^64 and hold bytes, whatever was done with them.
#![tactic(auto)]

mod block;
mod blocks;

pub use blocks::{AddFault, Blocks, Outside};
