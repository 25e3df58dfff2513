// The machine's state, and what is seen of a step.

ghost use Rattle.std.specs.Prelude.{◌≡◌, ◌<◌, ℕ, length, replicate, slice_index};
ghost use Rattle.term_core.specs.Value.{T, T128};
ghost use Rattle.x64_meaning.specs.declared.machine.Flag.TheVariants as value;
ghost use Rattle.x64_meaning.specs.State.{IsState, flag};

use std::marker::Model;
use x64_blocks::Blocks;
use x64_syntax::FlagName;

/// A flag: 0, 1, or undefined after an instruction that leaves it open.
#[derive(Clone, Copy, Debug, PartialEq, Eq)]
pub enum Flag {
    Zero,
    One,
    Undefined,
}

/// What an observer sees of a step: an access to memory, or whether a conditional jump is taken.
#[derive(Clone, Copy, Debug, PartialEq, Eq)]
pub enum Obs {
    Access { address: u64, size: u8, write: bool },
    Branch { taken: bool },
}

/// Why a step can't be made.
#[derive(Clone, Copy, Debug, PartialEq, Eq)]
pub enum Fault {
    /// No single block of memory holds all bytes of the access.
    Outside { address: u64 },
    /// The step reads a flag that is undefined.
    UndefinedFlag { flag: FlagName },
}

/// The machine: general registers and xmm registers by number, the flags in the order cf, zf, sf, of, and memory.
#[derive(Debug, Drop)]
pub struct Machine {
    pub regs: [u64; 16],
    pub xmms: [u128; 16],
    pub flags: [Flag; 4],
    pub blocks: Blocks,
}

impl Model for Machine {
    ghost use Rattle.x64_meaning.specs.State.{State};

    ghost Value = { State };

    ghost view = { λ m. record { regs = m.regs; xmms = m.xmms; flags = m.flags; blocks = m.blocks } };
}

// Registers are 16 words.
pub(crate) fn are_words(regs: [u64; 16])
    ensures length { length regs ≡ 16 }
    ensures fits { (k : ℕ) → slice_index regs k < T }
{}

pub(crate) fn are_wide_words(xmms: [u128; 16])
    ensures length { length xmms ≡ 16 }
    ensures fits { (k : ℕ) → slice_index xmms k < T128 }
{}

fn are_four(flags: &[Flag; 4])
    ensures { length flags.now ≡ 4 }
{}

impl Machine {
    /// A machine over these blocks: its registers are 0 and its flags undefined.
    pub fn new(blocks: Blocks) -> Self
        ensures { result ≡ record { regs = replicate 16 0; xmms = replicate 16 0; flags = replicate 4 value.Undefined; blocks = blocks } }
    {
        Machine {
            regs: [0; 16],
            xmms: [0; 16],
            flags: [Flag::Undefined; 4],
            blocks,
        }
    }

    /// Every machine is a state: its numbers fit, and its blocks lie apart.
    pub fn is_a_state(&self)
        ensures { IsState self.now }
    {
        are_words(self.regs);
        are_wide_words(self.xmms);
        are_four(&self.flags);
        self.blocks.are_memory();
    }

    /// The value of a flag.
    pub fn flag(&self, name: FlagName) -> Flag
        ensures { result ≡ flag self.now name }
    {
        are_four(&self.flags);
        self.flags[name.number()]
    }
}

/// What an observer saw of the last step.
#[derive(Clone, Copy, Debug, PartialEq, Eq)]
pub struct Seen {
    pub last: Option<Obs>,
}
