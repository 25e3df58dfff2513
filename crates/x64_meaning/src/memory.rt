// Addresses, and what instructions load and store.

ghost use Rattle.std.specs.Prelude.{◌≡◌, ℕ, List, length};
ghost use Rattle.std.specs.List.{list_any};
ghost use Rattle.std.specs.Int.{to_le_bytes, w32, w64, w128};
ghost use Rattle.x64_syntax.specs.declared.instructions.Ins.TheVariants as ins;
ghost use Rattle.x64_blocks.specs.Memory.{holds, load, store};
ghost use Rattle.term_core.specs.Value.{word_of};
ghost use Rattle.x64_meaning.specs.State.{load as load_at};
ghost use Rattle.x64_meaning.specs.Run.{address, access, with_access};
ghost use Rattle.x64_meaning.specs.inner.Steps.{address_sum, load_result, found_result, stored_result, would_result, Puts, Acts, WouldGet, WouldPut};

use crate::machine::{Fault, Machine, Obs};
use x64_blocks::Outside;
use x64_syntax::{Mem, Reg, Xmm};

fn displacement(mem: &Mem) -> u64
    ensures { result ≡ word_of mem.now.disp }
{
    i64::from(mem.disp).cast_unsigned()
}

// Base, index and displacement, added modulo 2^64.
fn address_sum(m: &Machine, mem: &Mem) -> u64
    ensures { result ≡ address_sum m.now mem.now }
{
    let base = m.regs[mem.base.number()];
    let index = match mem.index {
        Some((index, scale)) => m.regs[index.number()].wrapping_mul(u64::from(scale)),
        None => 0,
    };
    base.wrapping_add(index).wrapping_add(displacement(mem))
}

/// The address of a memory operand, as in the table.
pub(crate) fn address(m: &Machine, mem: &Mem) -> u64
    ensures { result ≡ address m.now mem.now }
{
    m.is_a_state();
    address_sum(m, mem)
}

// A word that was loaded from so many bytes, and the access.
fn found(address: u64, size: u8, word: Result<u64, Outside>) -> Result<(u64, Option<Obs>), Fault>
    ensures { result ≡ found_result address size word }
{
    let access = Obs::Access {
        address,
        size,
        write: false,
    };
    match word {
        Ok(word) => Ok((word, Some(access))),
        Err(_) => Err(Fault::Outside { address }),
    }
}

/// The byte at an address as a word, and the access.
pub(crate) fn load1(m: &Machine, address: u64) -> Result<(u64, Option<Obs>), Fault>
    ensures { result ≡ load_result address 1 (load_at m.now address 1) }
{
    found(address, 1, m.blocks.load1(address).map(u64::from))
}

/// The number in 4 bytes at an address as a word, and the access.
pub(crate) fn load4(m: &Machine, address: u64) -> Result<(u64, Option<Obs>), Fault>
    ensures { result ≡ load_result address 4 (load_at m.now address 4) }
{
    found(address, 4, m.blocks.load4(address).map(u64::from))
}

/// The word at an address, and the access.
pub(crate) fn load8(m: &Machine, address: u64) -> Result<(u64, Option<Obs>), Fault>
    ensures { result ≡ load_result address 8 (load_at m.now address 8) }
{
    found(address, 8, m.blocks.load8(address))
}

/// Loads 16 bytes at a memory operand into an xmm register.
pub(crate) fn fetch_wide(m: &mut Machine, d: Xmm, mem: &Mem) -> Result<Option<Obs>, Fault>
    ensures { Acts (with_access m.old (ins.XLoad d mem.now) (access m.old (ins.XLoad d mem.now))) m.old m.new result }
{
    let address = address(m, mem);
    match m.blocks.load16(address) {
        Ok(number) => {
            m.xmms[d.number()] = number;
            Ok(Some(Obs::Access {
                address,
                size: 16,
                write: false,
            }))
        }
        Err(_) => Err(Fault::Outside { address }),
    }
}

// What an observer sees of a store of so many bytes.
fn stored(address: u64, size: u8, stored: Result<(), Outside>) -> Result<Option<Obs>, Fault>
    ensures { result ≡ stored_result address size stored }
{
    match stored {
        Ok(()) => Ok(Some(Obs::Access {
            address,
            size,
            write: true,
        })),
        Err(_) => Err(Fault::Outside { address }),
    }
}

fn store4(m: &mut Machine, address: u64, half: u32) -> Result<Option<Obs>, Fault>
    ensures { Puts (store m.old.blocks address (to_le_bytes w32 half)) address 4 m.old m.new result }
{
    stored(address, 4, m.blocks.store4(address, half))
}

fn store8(m: &mut Machine, address: u64, word: u64) -> Result<Option<Obs>, Fault>
    ensures { Puts (store m.old.blocks address (to_le_bytes w64 word)) address 8 m.old m.new result }
{
    stored(address, 8, m.blocks.store8(address, word))
}

fn store16(m: &mut Machine, address: u64, number: u128) -> Result<Option<Obs>, Fault>
    ensures { Puts (store m.old.blocks address (to_le_bytes w128 number)) address 16 m.old m.new result }
{
    stored(address, 16, m.blocks.store16(address, number))
}

/// Stores a register at a memory operand.
pub(crate) fn save(m: &mut Machine, mem: &Mem, s: Reg) -> Result<Option<Obs>, Fault>
    ensures { Acts (with_access m.old (ins.Store mem.now s) (access m.old (ins.Store mem.now s))) m.old m.new result }
{
    store8(m, address(m, mem), m.regs[s.number()])
}

/// Stores the lower half of a register at a memory operand.
pub(crate) fn save_low(m: &mut Machine, mem: &Mem, s: Reg) -> Result<Option<Obs>, Fault>
    ensures { Acts (with_access m.old (ins.Store4 mem.now s) (access m.old (ins.Store4 mem.now s))) m.old m.new result }
{
    let half = m.regs[s.number()] % (1 << 32);
    store4(m, address(m, mem), half as u32)
}

/// Stores an xmm register at a memory operand.
pub(crate) fn save_wide(m: &mut Machine, mem: &Mem, s: Xmm) -> Result<Option<Obs>, Fault>
    ensures { Acts (with_access m.old (ins.XStore mem.now s) (access m.old (ins.XStore mem.now s))) m.old m.new result }
{
    let number = m.xmms[s.number()];
    store16(m, address(m, mem), number)
}

/// Stores a register below the stack pointer, and lowers it.
pub(crate) fn push(m: &mut Machine, s: Reg) -> Result<Option<Obs>, Fault>
    ensures { Acts (with_access m.old (ins.Push s) (access m.old (ins.Push s))) m.old m.new result }
{
    let slot = m.regs[Reg::Rsp.number()].wrapping_sub(8);
    let seen = store8(m, slot, m.regs[s.number()])?;
    m.regs[Reg::Rsp.number()] = slot;
    Ok(seen)
}

// What an access of so many bytes would show.
fn would_access(m: &Machine, address: u64, size: u8, write: bool) -> Result<Option<Obs>, Fault>
    ensures { result ≡ would_result (list_any (holds address size) m.now.blocks) address size write }
{
    if m.blocks.holds(address, size) {
        Ok(Some(Obs::Access {
            address,
            size,
            write,
        }))
    } else {
        Err(Fault::Outside { address })
    }
}

/// What a load of so many bytes would show.
pub(crate) fn would_get(m: &Machine, address: u64, size: u8) -> Result<Option<Obs>, Fault>
    ensures { WouldGet (load m.now.blocks address size) address size result }
{
    would_access(m, address, size, false)
}

/// What a store of so many bytes would show.
pub(crate) fn would_put(m: &Machine, address: u64, size: u8) -> Result<Option<Obs>, Fault>
    ensures { (new : List ℕ) → length new ≡ size → WouldPut (store m.now.blocks address new) address size result }
{
    would_access(m, address, size, true)
}
