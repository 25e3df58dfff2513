// One step of the machine.

ghost use Rattle.std.specs.Prelude.{◌≡◌, ◌<◌, [], ◌∷◌, true, is_ok, IfOk};
ghost use Rattle.std.specs.List.{find};
ghost use Rattle.x64_syntax.specs.declared.places.MachinePlace.TheVariants as place;
ghost use Rattle.x64_syntax.specs.Instructions.{form_of, read_places, is_among, cond_flags};
ghost use Rattle.term_core.specs.Value.{T};
ghost use Rattle.x64_meaning.specs.State.{flag};
ghost use Rattle.x64_meaning.specs.Run.{is_undefined, access, with_access, does, cond_holds, first_undefined};
ghost use Rattle.x64_meaning.specs.inner.Steps.{flags_meet, source_word, input_word, effect, Fits, read_flag_fault, flag_fault, Acts, Steps, Foresees};

use crate::arithmetic::{
    add_with, alu, is_set, multiply, multiply_apart, multiply_wide, one, shift,
};
use crate::laws::forms_as_in_the_table;
use crate::machine::{Fault, Flag, Machine, Obs, Seen, are_wide_words, are_words};
use crate::memory::{
    address, fetch_wide, load1, load4, load8, push, save, save_low, save_wide, would_get, would_put,
};
use crate::wide::compute_wide;
use x64_syntax::{Cond, FlagName, Ins, MachinePlace, Opr, Reg, reads_of};

// The word of a source, and the access that it took.
fn source(m: &Machine, s: &Opr) -> Result<(u64, Option<Obs>), Fault>
    ensures { result ≡ source_word m.now s.now }
{
    match s {
        Opr::R(reg) => Ok((m.regs[reg.number()], None)),
        Opr::Imm(n) => Ok((n.cast_unsigned(), None)),
        Opr::M(mem) => load8(m, address(m, mem)),
    }
}

// The word that an instruction takes in beside its registers, and the access that this needs.
fn taken(m: &Machine, ins: &Ins) -> Result<(u64, Option<Obs>), Fault>
    ensures value { result ≡ input_word m.now ins.now }
    ensures fits { Fits m.now }
    ensures word { IfOk result (λ r. r.0 < T) }
{
    are_words(m.regs);
    are_wide_words(m.xmms);
    let rsp = m.regs[Reg::Rsp.number()];
    match ins {
        Ins::Mov { s, .. }
        | Ins::Alu { s, .. }
        | Ins::Imul { s, .. }
        | Ins::Mul { s }
        | Ins::Mulx { s, .. }
        | Ins::Carry { s, .. } => source(m, s),
        Ins::Load1 { m: mem, .. } => load1(m, address(m, mem)),
        Ins::Load4 { m: mem, .. } => load4(m, address(m, mem)),
        Ins::Pop { .. } => load8(m, rsp),
        _ => Ok((0, None)),
    }
}

// Computes what an instruction leaves in registers and flags, from what it took in.
fn compute(m: &mut Machine, ins: &Ins, word: u64)
    requires { is_ok (form_of ins.now) ≡ true }
    ensures { m.new ≡ effect ins.now m.old word }
{
    match ins {
        Ins::Mov { d, .. } | Ins::Load1 { d, .. } | Ins::Load4 { d, .. } => {
            m.regs[d.number()] = word;
        }
        Ins::Lea { d, m: mem } => m.regs[d.number()] = address(m, mem),
        Ins::Cmov { c, d, s } => {
            let from = if holds(m, *c) { *s } else { *d };
            m.regs[d.number()] = m.regs[from.number()];
        }
        Ins::Pop { d } => {
            m.regs[d.number()] = word;
            m.regs[Reg::Rsp.number()] = m.regs[Reg::Rsp.number()].wrapping_add(8);
        }
        Ins::Alu { op, d, .. } => alu(m, *op, *d, word),
        Ins::One { op, d } => one(m, *op, *d),
        Ins::Shift { op, d, n } => shift(m, *op, *d, *n),
        Ins::Imul { d, .. } => multiply(m, *d, word),
        Ins::Mul { .. } => multiply_wide(m, word),
        Ins::Mulx { hi, lo, .. } => multiply_apart(m, *hi, *lo, word),
        Ins::Carry { op, d, .. } => add_with(m, op.flag(), *d, word),
        _ => compute_wide(m, ins),
    }
}

// Whether the flags meet a condition.
fn flags_meet(m: &Machine, c: Cond) -> bool
    ensures { result ≡ flags_meet c m.now }
{
    let cf = is_set(m, FlagName::Cf);
    let zf = is_set(m, FlagName::Zf);
    match c {
        Cond::E => zf,
        Cond::Ne => !zf,
        Cond::B => cf,
        Cond::Ae => !cf,
        Cond::Be => cf || zf,
        Cond::A => !cf && !zf,
    }
}

/// Whether a condition holds, where the flags that it reads are defined.
pub fn holds(m: &Machine, c: Cond) -> bool
    ensures { result ≡ cond_holds c m.now }
{
    flags_meet(m, c)
}

// Does what an instruction does whose flags are defined, and gives what an observer sees.
fn act(m: &mut Machine, ins: &Ins) -> Result<Option<Obs>, Fault>
    requires { is_ok (form_of ins.now) ≡ true }
    ensures { Acts (with_access m.old ins.now (access m.old ins.now)) m.old m.new result }
{
    match ins {
        Ins::Store { m: mem, s } => save(m, mem, *s),
        Ins::Store4 { m: mem, s } => save_low(m, mem, *s),
        Ins::XStore { m: mem, s } => save_wide(m, mem, *s),
        Ins::XLoad { d, m: mem } => fetch_wide(m, *d, mem),
        Ins::Push { s } => push(m, *s),
        _ => {
            let (word, seen) = taken(m, ins)?;
            compute(m, ins, word);
            Ok(seen)
        }
    }
}

fn is_open(m: &Machine, name: FlagName) -> bool
    ensures { result ≡ is_undefined (flag m.now name) }
{
    m.flag(name) == Flag::Undefined
}

// The flag, where it is undefined.
fn where_open(m: &Machine, name: FlagName) -> Option<FlagName>
    ensures { result ≡ find (λ f. is_undefined (flag m.now f)) (name ∷ []) }
{
    if is_open(m, name) { Some(name) } else { None }
}

/// The first flag that a condition reads and that is undefined.
pub fn open_flag(m: &Machine, c: Cond) -> Option<FlagName>
    ensures { result ≡ find (λ f. is_undefined (flag m.now f)) (cond_flags c) }
{
    match c {
        Cond::E | Cond::Ne => where_open(m, FlagName::Zf),
        Cond::B | Cond::Ae => where_open(m, FlagName::Cf),
        Cond::Be | Cond::A => { where_open(m, FlagName::Cf).or(where_open(m, FlagName::Zf)) }
    }
}

fn is_defined(m: &Machine, ins: &Ins, flag: FlagName) -> Result<(), Fault>
    ensures { result ≡ read_flag_fault (λ f. is_among (read_places ins.now) (place.Flag f)) m.now flag }
{
    if reads_of(ins).contains(MachinePlace::Flag(flag)) && is_open(m, flag) {
        return Err(Fault::UndefinedFlag { flag });
    }
    Ok(())
}

// Whether the flags that an instruction reads are defined; else the first that isn't.
fn are_defined(m: &Machine, ins: &Ins) -> Result<(), Fault>
    ensures { result ≡ flag_fault (first_undefined (λ f. is_among (read_places ins.now) (place.Flag f)) m.now) }
{
    is_defined(m, ins, FlagName::Cf)?;
    is_defined(m, ins, FlagName::Zf)?;
    is_defined(m, ins, FlagName::Sf)?;
    is_defined(m, ins, FlagName::Of)
}

/// One step: what the instruction does, and what an observer sees of it. After a fault the machine is as before, and
/// nothing is seen. See docs/MACHINE.md.
pub fn step_ins(m: &mut Machine, ins: &Ins, seen: &mut Seen) -> Result<(), Fault>
    requires { is_ok (form_of ins.now) ≡ true }
    ensures { Steps (does ins.now m.old) m.old m.new seen.new.last result }
{
    forms_as_in_the_table();
    seen.last = None;
    are_defined(m, ins)?;
    seen.last = act(m, ins)?;
    Ok(())
}

// What an instruction whose flags are defined would show, or its fault.
fn would_act(m: &Machine, ins: &Ins) -> Result<Option<Obs>, Fault>
    ensures { Foresees (with_access m.now ins.now (access m.now ins.now)) result }
{
    match ins {
        Ins::Store { m: mem, .. } => would_put(m, address(m, mem), 8),
        Ins::Store4 { m: mem, .. } => would_put(m, address(m, mem), 4),
        Ins::XStore { m: mem, .. } => would_put(m, address(m, mem), 16),
        Ins::XLoad { m: mem, .. } => would_get(m, address(m, mem), 16),
        Ins::Push { .. } => would_put(m, m.regs[Reg::Rsp.number()].wrapping_sub(8), 8),
        _ => {
            let (_, seen) = taken(m, ins)?;
            Ok(seen)
        }
    }
}

/// What an observer would see of a step, or its fault; the machine stays as it is.
pub fn foresee(m: &Machine, ins: &Ins) -> Result<Option<Obs>, Fault>
    ensures { Foresees (does ins.now m.now) result }
{
    forms_as_in_the_table();
    are_defined(m, ins)?;
    would_act(m, ins)
}
