// What each instruction takes, reads and writes.

ghost use Rattle.std.specs.Prelude.{◌≡◌, true, ◌||◌, ◌++◌, ◌∷◌, [], map};
ghost use Rattle.x64_syntax.specs.declared.places.MachinePlace.{MachinePlace as APlace};
ghost use Rattle.x64_syntax.specs.declared.places.MachinePlace.TheVariants as place;
ghost use Rattle.x64_syntax.specs.Places.{place_eq};
ghost use Rattle.x64_syntax.specs.PlaceSets.{in_set};
ghost use Rattle.x64_syntax.specs.Ranges.{is_i32, is_i64, is_u8};
ghost use Rattle.x64_syntax.specs.Instructions.{constant_passes, no_constant, is_short, constant_fits, count_fits, displacement_fits, is_scale, has_scale, accesses, addresses, names_rsp, halves_differ, form_of, source_memory, address_places, source_places, cond_flags, alu_reads, read_places, alu_writes, one_writes, shift_writes, written_places, flag_places, is_among};

use crate::conditions::Cond;
use crate::instructions::{AluOp, Ins, OneOp, ShiftOp};
use crate::operands::{Mem, Opr};
use crate::place_set::PlaceSet;
use crate::places::{FlagName, MachinePlace, Reg};

/// Why an instruction isn't one of the machine's.
#[derive(Clone, Copy, Debug, PartialEq, Eq, Drop)]
pub enum FormFault {
    /// A constant is outside what the form takes, or the form takes none.
    Immediate,
    /// A shift isn't by 1 to 63, a word of an xmm register is neither 0 nor 1, or the number that chooses words of two
    /// is none of 0, 1, 16 and 17.
    Count,
    /// A scale is none of 1, 2, 4 and 8.
    Scale,
    /// `rsp` is an operand, a base or an index.
    Register,
    /// Both halves of a product go to one register.
    SameHighLow,
}

// A number of 32 bits with sign.
fn is_i32(n: i64) -> bool
    ensures { result ≡ is_i32 n }
{
    i64::from(i32::MIN) <= n && n <= i64::from(i32::MAX)
}

// Any number of a constant's field has 64 bits with sign.
fn is_i64(_n: i64) -> bool
    ensures { result ≡ is_i64 _n }
{
    true
}

fn no_constant(s: &Opr) -> bool
    ensures { result ≡ no_constant s.now }
{
    !matches!(s, Opr::Imm(_))
}

/// Whether a source is a register, memory, or a constant of 32 bits with sign.
pub(crate) fn is_short(s: &Opr) -> bool
    ensures { result ≡ is_short s.now }
{
    match s {
        Opr::Imm(n) => is_i32(*n),
        Opr::R(_) | Opr::M(_) => true,
    }
}

// Any source of a move is one.
fn is_long(s: &Opr) -> bool
    ensures { result ≡ constant_passes is_i64 s.now }
{
    match s {
        Opr::Imm(n) => is_i64(*n),
        Opr::R(_) | Opr::M(_) => true,
    }
}

fn constant_fits(ins: &Ins) -> bool
    ensures { result ≡ constant_fits ins.now }
{
    match ins {
        Ins::Mov { s, .. } => is_long(s),
        Ins::Alu { s, .. } => is_short(s),
        Ins::Imul { s, .. } | Ins::Mul { s } | Ins::Mulx { s, .. } | Ins::Carry { s, .. } => {
            no_constant(s)
        }
        _ => true,
    }
}

// Any number of a byte's field is one.
fn is_u8(_n: u8) -> bool
    ensures { result ≡ is_u8 _n }
{
    true
}

fn count_fits(ins: &Ins) -> bool
    ensures { result ≡ count_fits ins.now }
{
    match ins {
        Ins::Shift { n, .. } => 1 <= *n && *n <= 63,
        Ins::XIns { n, .. } | Ins::XExt { n, .. } => *n <= 1,
        Ins::XShuf { n, .. } | Ins::XShift { n, .. } => is_u8(*n),
        Ins::XClmul { n, .. } => matches!(*n, 0 | 1 | 16 | 17),
        _ => true,
    }
}

fn source_memory(s: &Opr) -> Option<Mem>
    ensures { result ≡ source_memory s.now }
{
    match s {
        Opr::M(m) => Some(*m),
        Opr::R(_) | Opr::Imm(_) => None,
    }
}

/// The memory operand that an instruction loads from or stores to. `Lea` does neither.
pub(crate) fn accesses(ins: &Ins) -> Option<Mem>
    ensures { result ≡ accesses ins.now }
{
    match ins {
        Ins::Mov { s, .. }
        | Ins::Alu { s, .. }
        | Ins::Imul { s, .. }
        | Ins::Mul { s }
        | Ins::Mulx { s, .. }
        | Ins::Carry { s, .. } => source_memory(s),
        Ins::Load1 { m, .. } | Ins::Load4 { m, .. } | Ins::XLoad { m, .. } => Some(*m),
        Ins::Store { m, .. } | Ins::Store4 { m, .. } | Ins::XStore { m, .. } => Some(*m),
        _ => None,
    }
}

fn addresses(ins: &Ins) -> Option<Mem>
    ensures { result ≡ addresses ins.now }
{
    match ins {
        Ins::Lea { m, .. } => Some(*m),
        _ => accesses(ins),
    }
}

// Any displacement of an address fits.
fn displacement_fits(m: Option<Mem>)
    ensures { displacement_fits m ≡ true }
{}

fn has_scale(m: Option<Mem>) -> bool
    ensures { result ≡ has_scale m }
{
    match m {
        Some(m) => match m.index {
            Some((_, scale)) => matches!(scale, 1 | 2 | 4 | 8),
            None => true,
        },
        None => true,
    }
}

fn halves_differ(ins: &Ins) -> bool
    ensures { result ≡ halves_differ ins.now }
{
    match ins {
        Ins::Mulx { hi, lo, .. } => hi != lo,
        _ => true,
    }
}

/// Whether an instruction is one of the machine's: its constants and counts are those that its form takes, its scale is
/// one, `rsp` is no operand, and a product's halves go to two registers, in this order. See docs/MACHINE.md.
pub fn ins_ok(ins: &Ins) -> Result<(), FormFault>
    ensures { result ≡ form_of ins.now }
{
    displacement_fits(addresses(ins));
    if !constant_fits(ins) {
        return Err(FormFault::Immediate);
    }
    if !count_fits(ins) {
        return Err(FormFault::Count);
    }
    if !has_scale(addresses(ins)) {
        return Err(FormFault::Scale);
    }
    let rsp = MachinePlace::Reg(Reg::Rsp);
    if reads_of(ins).contains(rsp) || writes_of(ins).contains(rsp) {
        return Err(FormFault::Register);
    }
    if halves_differ(ins) {
        Ok(())
    } else {
        Err(FormFault::SameHighLow)
    }
}

// The set with the registers of an address.
fn with_address(set: PlaceSet, m: &Mem) -> PlaceSet
    ensures { (p : APlace) → in_set result p ≡ (is_among (address_places m.now) p || in_set set p) }
{
    match m.index {
        Some((index, _)) => set
            .with(MachinePlace::Reg(index))
            .with(MachinePlace::Reg(m.base)),
        None => set.with(MachinePlace::Reg(m.base)),
    }
}

// The set with the registers of a source.
fn with_source(set: PlaceSet, s: &Opr) -> PlaceSet
    ensures { (p : APlace) → in_set result p ≡ (is_among (source_places s.now) p || in_set set p) }
{
    match s {
        Opr::R(reg) => set.with(MachinePlace::Reg(*reg)),
        Opr::Imm(_) => set,
        Opr::M(m) => with_address(set, m),
    }
}

// The set of one place.
fn only(place: MachinePlace) -> PlaceSet
    ensures { (p : APlace) → in_set result p ≡ is_among (place ∷ []) p }
{
    PlaceSet::EMPTY.with(place)
}

fn cond_flags(c: Cond) -> PlaceSet
    ensures { (p : APlace) → in_set result p ≡ is_among (map place.Flag (cond_flags c)) p }
{
    let cf = only(MachinePlace::Flag(FlagName::Cf));
    let zf = only(MachinePlace::Flag(FlagName::Zf));
    match c {
        Cond::E | Cond::Ne => zf,
        Cond::B | Cond::Ae => cf,
        Cond::Be | Cond::A => zf.with(MachinePlace::Flag(FlagName::Cf)),
    }
}

// What a sum or difference reads beside its destination.
fn alu_sources(op: AluOp, s: &Opr) -> PlaceSet
    ensures { (p : APlace) → in_set result p ≡ is_among (alu_reads op ++ source_places s.now) p }
{
    let sources = with_source(PlaceSet::EMPTY, s);
    match op {
        AluOp::Adc | AluOp::Sbb => sources.with(MachinePlace::Flag(FlagName::Cf)),
        _ => sources,
    }
}

/// The places that an instruction reads. Its base and index registers are among them.
pub fn reads_of(ins: &Ins) -> PlaceSet
    ensures { (p : APlace) → in_set result p ≡ is_among (read_places ins.now) p }
{
    let none = PlaceSet::EMPTY;
    match ins {
        Ins::Mov { s, .. } => with_source(none, s),
        Ins::Store { m, s } | Ins::Store4 { m, s } => {
            with_address(none, m).with(MachinePlace::Reg(*s))
        }
        Ins::Lea { m, .. } | Ins::Load1 { m, .. } | Ins::Load4 { m, .. } | Ins::XLoad { m, .. } => {
            with_address(none, m)
        }
        Ins::Cmov { c, d, s } => cond_flags(*c)
            .with(MachinePlace::Reg(*d))
            .with(MachinePlace::Reg(*s)),
        Ins::Push { s } | Ins::XMovq { s, .. } => only(MachinePlace::Reg(*s)),
        Ins::Pop { .. } => none,
        Ins::Alu { op, d, s } => alu_sources(*op, s).with(MachinePlace::Reg(*d)),
        Ins::One { d, .. } | Ins::Shift { d, .. } => only(MachinePlace::Reg(*d)),
        Ins::Imul { d, s } => with_source(none, s).with(MachinePlace::Reg(*d)),
        Ins::Mul { s } => with_source(none, s).with(MachinePlace::Reg(Reg::Rax)),
        Ins::Mulx { s, .. } => with_source(none, s).with(MachinePlace::Reg(Reg::Rdx)),
        Ins::Carry { op, d, s } => with_source(none, s)
            .with(MachinePlace::Flag(op.flag()))
            .with(MachinePlace::Reg(*d)),
        Ins::XStore { m, s } => with_address(none, m).with(MachinePlace::Xmm(*s)),
        Ins::XMov { s, .. } | Ins::XShuf { s, .. } | Ins::XExt { s, .. } => {
            only(MachinePlace::Xmm(*s))
        }
        Ins::XBin { d, s, .. } | Ins::XClmul { d, s, .. } => {
            only(MachinePlace::Xmm(*s)).with(MachinePlace::Xmm(*d))
        }
        Ins::XShift { d, .. } => only(MachinePlace::Xmm(*d)),
        Ins::XIns { d, s, .. } => only(MachinePlace::Reg(*s)).with(MachinePlace::Xmm(*d)),
    }
}

fn flag_places() -> PlaceSet
    ensures { (p : APlace) → in_set result p ≡ is_among flag_places p }
{
    only(MachinePlace::Flag(FlagName::Of))
        .with(MachinePlace::Flag(FlagName::Sf))
        .with(MachinePlace::Flag(FlagName::Zf))
        .with(MachinePlace::Flag(FlagName::Cf))
}

fn alu_writes(op: AluOp, d: Reg) -> PlaceSet
    ensures { (p : APlace) → in_set result p ≡ is_among (alu_writes op d) p }
{
    match op {
        AluOp::Cmp => flag_places(),
        _ => flag_places().with(MachinePlace::Reg(d)),
    }
}

fn one_writes(op: OneOp, d: Reg) -> PlaceSet
    ensures { (p : APlace) → in_set result p ≡ is_among (one_writes op d) p }
{
    match op {
        OneOp::Neg => flag_places().with(MachinePlace::Reg(d)),
        OneOp::Not => only(MachinePlace::Reg(d)),
    }
}

fn shift_writes(op: ShiftOp, d: Reg) -> PlaceSet
    ensures { (p : APlace) → in_set result p ≡ is_among (shift_writes op d) p }
{
    match op {
        ShiftOp::Shl | ShiftOp::Shr => flag_places().with(MachinePlace::Reg(d)),
        ShiftOp::Rol | ShiftOp::Ror => only(MachinePlace::Flag(FlagName::Of))
            .with(MachinePlace::Flag(FlagName::Cf))
            .with(MachinePlace::Reg(d)),
    }
}

/// The places that an instruction writes.
pub fn writes_of(ins: &Ins) -> PlaceSet
    ensures { (p : APlace) → in_set result p ≡ is_among (written_places ins.now) p }
{
    match ins {
        Ins::Store { .. } | Ins::Store4 { .. } | Ins::XStore { .. } | Ins::Push { .. } => {
            PlaceSet::EMPTY
        }
        Ins::Mov { d, .. }
        | Ins::Load1 { d, .. }
        | Ins::Load4 { d, .. }
        | Ins::Lea { d, .. }
        | Ins::Cmov { d, .. }
        | Ins::Pop { d }
        | Ins::XExt { d, .. } => only(MachinePlace::Reg(*d)),
        Ins::Alu { op, d, .. } => alu_writes(*op, *d),
        Ins::One { op, d } => one_writes(*op, *d),
        Ins::Shift { op, d, .. } => shift_writes(*op, *d),
        Ins::Imul { d, .. } => flag_places().with(MachinePlace::Reg(*d)),
        Ins::Mul { .. } => flag_places()
            .with(MachinePlace::Reg(Reg::Rdx))
            .with(MachinePlace::Reg(Reg::Rax)),
        Ins::Mulx { hi, lo, .. } => only(MachinePlace::Reg(*lo)).with(MachinePlace::Reg(*hi)),
        Ins::Carry { op, d, .. } => only(MachinePlace::Flag(op.flag())).with(MachinePlace::Reg(*d)),
        Ins::XMov { d, .. }
        | Ins::XLoad { d, .. }
        | Ins::XBin { d, .. }
        | Ins::XShuf { d, .. }
        | Ins::XShift { d, .. }
        | Ins::XIns { d, .. }
        | Ins::XMovq { d, .. }
        | Ins::XClmul { d, .. } => only(MachinePlace::Xmm(*d)),
    }
}
