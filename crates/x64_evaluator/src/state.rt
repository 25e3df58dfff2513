// State files.

ghost use Rattle.std.specs.Prelude.{◌≡◌, ◌<◌, ◌≤◌, ◌+◌, ◌++◌, ◌∷◌, [], List, length, codes, IfOk, IfErr, true};
ghost use Rattle.x64_blocks.specs.Memory.{Range};
ghost use Rattle.x64_meaning.specs.State.{IsState};
ghost use Rattle.x64_evaluator.specs.StateFile.{lines_of, Setting, Value, Block, setting_text, limit, are_bytes, with_setting, IsStateOf, IsNoState};
ghost use Rattle.x64_evaluator.specs.inner.Setting.{Holds, Takes, Adds};

use crate::settings::{range_of, value_of};
use memchr::memchr;
use std::alloc::{AllocError, Global};
use x64_blocks::{AddFault, Blocks};
use x64_meaning::{Flag, Machine};
use x64_syntax::{MachinePlace, PlaceSet};

/// Why bytes are no state file.
#[derive(Clone, Copy, Debug, PartialEq, Eq, Drop)]
pub enum StateFault {
    /// The first line that sets nothing which may follow the lines before it, from 1.
    Line(u64),
    NoMemory,
}

impl From<AllocError> for StateFault {
    ghost use Rattle.std.specs.Prelude.{◌≡◌};
    ghost use Rattle.x64_evaluator.specs.declared.state.StateFault.TheVariants.{NoMemory};

    ghost from_gives = { λ _ e. e ≡ NoMemory };

    fn from(_fault: AllocError) -> Self {
        StateFault::NoMemory
    }
}

// The machine as far as it is read, and the places that have a value.
#[derive(Drop)]
pub(crate) struct StateReader {
    alloc: Global,
    machine: Machine,
    set: PlaceSet,
    // The line of a setting, to compare with.
    scratch: Vec<u8>,
}

// Splits the first line off.
fn first_line(text: &[u8]) -> (&[u8], &[u8])
    requires { 0 < length text.now }
    ensures lines { lines_of text.now ≡ result.0.now ∷ lines_of result.1.now }
    ensures shorter { length result.1.now < length text.now }
{
    match memchr(b'\n', text) {
        Some(end) => {
            let (line, behind) = text.split_at(end);
            (line, behind.split_at(1).1)
        }
        None => (text, &[]),
    }
}

// Gives a place a value.
fn put(m: &mut Machine, place: MachinePlace, n: u128)
    requires { n < limit place }
    ensures { m.new ≡ with_setting m.old (Value place n) }
{
    match place {
        MachinePlace::Reg(reg) => m.regs[reg.number()] = n as u64,
        MachinePlace::Xmm(xmm) => m.xmms[xmm.number()] = n,
        MachinePlace::Flag(flag) => m.flags[flag.number()] = if n == 0 {
            Flag::Zero
        } else {
            Flag::One
        },
    }
}

// Adds a block: `false` where it reaches past the end of memory or has an address in common with another.
fn add_block(m: &mut Machine, base: u64, bytes: Vec<u8>) -> Result<bool, AllocError>
    ensures { IfOk result (λ yes. Adds m.old record { base = base; bytes = bytes.items } yes m.new) }
{
    match m.blocks.add(base, bytes) {
        Ok(()) => Ok(true),
        Err(AddFault::PastEnd | AddFault::Overlap) => Ok(false),
        Err(AddFault::NoMemory) => Err(AllocError),
    }
}

impl StateReader {
    fn new(alloc: Global) -> Self
        ensures { Holds [] result }
    {
        StateReader {
            alloc,
            machine: Machine::new(Blocks::new(alloc)),
            set: PlaceSet::EMPTY,
            scratch: Vec::new(alloc),
        }
    }

    // Gives a place its value, where it has none.
    fn set(&mut self, place: MachinePlace, n: u128) -> bool
        requires { n < limit place }
        ensures { (ss : List Setting) → Holds ss self.old → Takes ss (λ s. s ≡ Value place n) result self.new }
    {
        if self.set.contains(place) {
            return false;
        }
        put(&mut self.machine, place, n);
        self.set = self.set.with(place);
        true
    }

    // Adds a block, where it lies within memory and apart from the others.
    fn add(&mut self, base: u64, bytes: Vec<u8>) -> Result<bool, AllocError>
        requires { are_bytes record { base = base; bytes = bytes.items } ≡ true }
        ensures { (ss : List Setting) → Holds ss self.old → IfOk result (λ yes. Takes ss (λ s. s ≡ Block record { base = base; bytes = bytes.items }) yes self.new) }
    {
        add_block(&mut self.machine, base, bytes)
    }

    // Sets what a line sets: `false` where it sets nothing that may follow.
    fn take(&mut self, line: &[u8]) -> Result<bool, AllocError>
        ensures { (ss : List Setting) → Holds ss self.old → IfOk result (λ yes. Takes ss (λ s. setting_text s ≡ line.now) yes self.new) }
    {
        let Ok(text) = str::from_utf8(line) else {
            return Ok(false);
        };
        let Some((word, rest)) = text.split_once(' ') else {
            return Ok(false);
        };
        if word == "block" {
            match range_of(self.alloc, &mut self.scratch, rest)? {
                Some((base, bytes)) => self.add(base, bytes),
                None => Ok(false),
            }
        } else {
            match value_of(&mut self.scratch, text, word, rest)? {
                Some((place, n)) => Ok(self.set(place, n)),
                None => Ok(false),
            }
        }
    }
}

/// The machine of a state file, or its first line that is none: see docs/COMMANDS.md. What no line sets is 0, and a
/// flag undefined. Blocks are in the order of their lines. It is a state of the machine.
pub fn read_state(alloc: Global, bytes: &[u8]) -> Result<Machine, StateFault>
    ensures ok { IfOk result (λ m. IsStateOf (lines_of bytes.now) m) }
    ensures state { IfOk result (λ m. IsState m) }
    ensures err { IfErr result (λ fault. IsNoState (lines_of bytes.now) fault) }
{
    let mut reader = StateReader::new(alloc);
    let mut rest = bytes;
    let mut number = 1u64;
    while !rest.is_empty() {
        let (line, behind) = first_line(rest);
        if !reader.take(line)? {
            return Err(StateFault::Line(number));
        }
        rest = behind;
        number += 1;
    }
    reader.machine.is_a_state();
    Ok(reader.machine)
}
