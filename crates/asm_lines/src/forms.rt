// Instructions as a name and operands.

ghost use Rattle.std.specs.Prelude.{◌≡◌, IfSome, Some, ℤ, pos, negsuc};
ghost use Rattle.x64_syntax.specs.declared.instructions.Ins.{Ins as AnIns};
ghost use Rattle.x64_syntax.specs.inner.Fields.{FieldsFit};
ghost use Rattle.asm_lines.specs.declared.forms.Part.TheVariants as part;
ghost use Rattle.asm_lines.specs.declared.forms.Parts.TheVariants as parts;
ghost use Rattle.asm_lines.specs.Operands.{source, move_source, operands as operands_of, operation as operation_of};
ghost use Rattle.asm_lines.specs.inner.Assembled.{at_most, within, of_source, of_move_source, of_one, of_general, of_low, of_wide, of_memory, of_two, of_three, instruction};

use x64_syntax::{Ins, Mem, Operation, Opr, Reg, Xmm};

/// An operand as it is written.
#[derive(Clone, Copy, Debug, PartialEq, Eq)]
pub enum Part {
    General(Reg),
    /// The lower half of a register, of 32 bits.
    Low(Reg),
    Wide(Xmm),
    Number(i128),
    Memory(Mem),
}

/// The operands of an instruction, in the order in which a source has them.
#[derive(Clone, Copy, Debug, PartialEq, Eq)]
pub enum Parts {
    One(Part),
    Two(Part, Part),
    Three(Part, Part, Part),
}

fn source(s: Opr) -> Part
    ensures { result ≡ source s }
{
    match s {
        Opr::R(reg) => Part::General(reg),
        Opr::Imm(n) => Part::Number(i128::from(n)),
        Opr::M(m) => Part::Memory(m),
    }
}

// The source of a move, whose constant has no sign.
fn move_source(s: Opr) -> Part
    ensures { result ≡ move_source s }
{
    match s {
        Opr::Imm(n) => Part::Number(i128::from(n.cast_unsigned())),
        Opr::R(_) | Opr::M(_) => source(s),
    }
}

fn count(n: u8) -> Part
    ensures { result ≡ part.Number (pos n) }
{
    Part::Number(i128::from(n))
}

/// The operands of an instruction.
pub fn operands(ins: &Ins) -> Parts
    ensures { result ≡ operands_of ins.now }
{
    match *ins {
        Ins::Mov { d, s } => Parts::Two(Part::General(d), move_source(s)),
        Ins::Store { m, s } => Parts::Two(Part::Memory(m), Part::General(s)),
        Ins::Load1 { d, m } | Ins::Lea { d, m } => { Parts::Two(Part::General(d), Part::Memory(m)) }
        Ins::Load4 { d, m } => Parts::Two(Part::Low(d), Part::Memory(m)),
        Ins::Store4 { m, s } => Parts::Two(Part::Memory(m), Part::Low(s)),
        Ins::Cmov { d, s, .. } => Parts::Two(Part::General(d), Part::General(s)),
        Ins::Push { s } => Parts::One(Part::General(s)),
        Ins::Pop { d } | Ins::One { d, .. } => Parts::One(Part::General(d)),
        Ins::Alu { d, s, .. } | Ins::Imul { d, s } | Ins::Carry { d, s, .. } => {
            Parts::Two(Part::General(d), source(s))
        }
        Ins::Shift { d, n, .. } => Parts::Two(Part::General(d), count(n)),
        Ins::Mul { s } => Parts::One(source(s)),
        Ins::Mulx { hi, lo, s } => { Parts::Three(Part::General(hi), Part::General(lo), source(s)) }
        Ins::XMov { d, s } | Ins::XBin { d, s, .. } => { Parts::Two(Part::Wide(d), Part::Wide(s)) }
        Ins::XLoad { d, m } => Parts::Two(Part::Wide(d), Part::Memory(m)),
        Ins::XStore { m, s } => Parts::Two(Part::Memory(m), Part::Wide(s)),
        Ins::XShuf { d, s, n } | Ins::XClmul { d, s, n } => Parts::Three(
            Part::Wide(d),
            Part::Wide(s),
            count(n),
        ),
        Ins::XShift { d, n, .. } => Parts::Two(Part::Wide(d), count(n)),
        Ins::XIns { d, s, n } => Parts::Three(Part::Wide(d), Part::General(s), count(n)),
        Ins::XExt { d, s, n } => Parts::Three(Part::General(d), Part::Wide(s), count(n)),
        Ins::XMovq { d, s } => Parts::Two(Part::Wide(d), Part::General(s)),
    }
}

/// What an instruction is by its name.
pub fn operation(ins: &Ins) -> Operation
    ensures { result ≡ operation_of ins.now }
{
    match *ins {
        Ins::Mov { .. } => Operation::Mov,
        Ins::Store { .. } => Operation::Store,
        Ins::Load1 { .. } => Operation::Load1,
        Ins::Load4 { .. } => Operation::Load4,
        Ins::Store4 { .. } => Operation::Store4,
        Ins::Lea { .. } => Operation::Lea,
        Ins::Cmov { c, .. } => Operation::Cmov(c),
        Ins::Push { .. } => Operation::Push,
        Ins::Pop { .. } => Operation::Pop,
        Ins::Alu { op, .. } => Operation::Alu(op),
        Ins::One { op, .. } => Operation::One(op),
        Ins::Shift { op, .. } => Operation::Shift(op),
        Ins::Imul { .. } => Operation::Imul,
        Ins::Mul { .. } => Operation::Mul,
        Ins::Mulx { .. } => Operation::Mulx,
        Ins::Carry { op, .. } => Operation::Carry(op),
        Ins::XMov { .. } | Ins::XLoad { .. } | Ins::XStore { .. } => Operation::Movdqu,
        Ins::XBin { op, .. } => Operation::XBin(op),
        Ins::XShuf { .. } => Operation::XShuf,
        Ins::XShift { op, .. } => Operation::XShift(op),
        Ins::XIns { .. } => Operation::XIns,
        Ins::XExt { .. } => Operation::XExt,
        Ins::XMovq { .. } => Operation::XMovq,
        Ins::XClmul { .. } => Operation::XClmul,
    }
}

fn byte(n: i128) -> Option<u8>
    ensures found { IfSome result (λ k. pos k ≡ n) }
    ensures same { result ≡ at_most 255 n }
{
    u8::try_from(n).ok()
}

fn of_source(part: Part) -> Option<Opr>
    ensures found { IfSome result (λ s. source s ≡ part) }
    ensures same { result ≡ of_source part }
{
    match part {
        Part::General(reg) => Some(Opr::R(reg)),
        Part::Number(n) => Some(Opr::Imm(i64::try_from(n).ok()?)),
        Part::Memory(m) => Some(Opr::M(m)),
        Part::Low(_) | Part::Wide(_) => None,
    }
}

fn of_move_source(part: Part) -> Option<Opr>
    ensures found { IfSome result (λ s. move_source s ≡ part) }
    ensures same { result ≡ of_move_source part }
{
    match part {
        Part::Number(n) => Some(Opr::Imm(u64::try_from(n).ok()?.cast_signed())),
        Part::General(_) | Part::Memory(_) | Part::Low(_) | Part::Wide(_) => of_source(part),
    }
}

fn of_one(operation: Operation, a: Part) -> Option<Ins>
    ensures found { IfSome result (λ i. (operation_of i ≡ operation) × (operands_of i ≡ parts.One a)) }
    ensures same { result ≡ of_one operation a }
{
    match (operation, a) {
        (Operation::Push, Part::General(s)) => Some(Ins::Push { s }),
        (Operation::Pop, Part::General(d)) => Some(Ins::Pop { d }),
        (Operation::One(op), Part::General(d)) => Some(Ins::One { op, d }),
        (Operation::Mul, s) => Some(Ins::Mul { s: of_source(s)? }),
        _ => None,
    }
}

fn of_general(operation: Operation, d: Reg, s: Part) -> Option<Ins>
    ensures found { IfSome result (λ i. (operation_of i ≡ operation) × (operands_of i ≡ parts.Two (part.General d) s)) }
    ensures same { result ≡ of_general operation d s }
{
    match (operation, s) {
        (Operation::Mov, s) => Some(Ins::Mov {
            d,
            s: of_move_source(s)?,
        }),
        (Operation::Load1, Part::Memory(m)) => Some(Ins::Load1 { d, m }),
        (Operation::Lea, Part::Memory(m)) => Some(Ins::Lea { d, m }),
        (Operation::Cmov(c), Part::General(s)) => Some(Ins::Cmov { c, d, s }),
        (Operation::Alu(op), s) => Some(Ins::Alu {
            op,
            d,
            s: of_source(s)?,
        }),
        (Operation::Shift(op), Part::Number(n)) => Some(Ins::Shift { op, d, n: byte(n)? }),
        (Operation::Imul, s) => Some(Ins::Imul {
            d,
            s: of_source(s)?,
        }),
        (Operation::Carry(op), s) => Some(Ins::Carry {
            op,
            d,
            s: of_source(s)?,
        }),
        _ => None,
    }
}

fn of_low(operation: Operation, d: Reg, s: Part) -> Option<Ins>
    ensures found { IfSome result (λ i. (operation_of i ≡ operation) × (operands_of i ≡ parts.Two (part.Low d) s)) }
    ensures same { result ≡ of_low operation d s }
{
    match (operation, s) {
        (Operation::Load4, Part::Memory(m)) => Some(Ins::Load4 { d, m }),
        _ => None,
    }
}

fn of_wide(operation: Operation, d: Xmm, s: Part) -> Option<Ins>
    ensures found { IfSome result (λ i. (operation_of i ≡ operation) × (operands_of i ≡ parts.Two (part.Wide d) s)) }
    ensures same { result ≡ of_wide operation d s }
{
    match (operation, s) {
        (Operation::Movdqu, Part::Wide(s)) => Some(Ins::XMov { d, s }),
        (Operation::Movdqu, Part::Memory(m)) => Some(Ins::XLoad { d, m }),
        (Operation::XBin(op), Part::Wide(s)) => Some(Ins::XBin { op, d, s }),
        (Operation::XShift(op), Part::Number(n)) => Some(Ins::XShift { op, d, n: byte(n)? }),
        (Operation::XMovq, Part::General(s)) => Some(Ins::XMovq { d, s }),
        _ => None,
    }
}

fn of_memory(operation: Operation, m: Mem, s: Part) -> Option<Ins>
    ensures found { IfSome result (λ i. (operation_of i ≡ operation) × (operands_of i ≡ parts.Two (part.Memory m) s)) }
    ensures same { result ≡ of_memory operation m s }
{
    match (operation, s) {
        (Operation::Store, Part::General(s)) => Some(Ins::Store { m, s }),
        (Operation::Store4, Part::Low(s)) => Some(Ins::Store4 { m, s }),
        (Operation::Movdqu, Part::Wide(s)) => Some(Ins::XStore { m, s }),
        _ => None,
    }
}

fn of_two(operation: Operation, d: Part, s: Part) -> Option<Ins>
    ensures found { IfSome result (λ i. (operation_of i ≡ operation) × (operands_of i ≡ parts.Two d s)) }
    ensures same { result ≡ of_two operation d s }
{
    match d {
        Part::General(d) => of_general(operation, d, s),
        Part::Low(d) => of_low(operation, d, s),
        Part::Wide(d) => of_wide(operation, d, s),
        Part::Memory(m) => of_memory(operation, m, s),
        Part::Number(_) => None,
    }
}

fn of_three(operation: Operation, d: Part, a: Part, b: Part) -> Option<Ins>
    ensures found { IfSome result (λ i. (operation_of i ≡ operation) × (operands_of i ≡ parts.Three d a b)) }
    ensures same { result ≡ of_three operation d a b }
{
    match (operation, d, a, b) {
        (Operation::Mulx, Part::General(hi), Part::General(lo), s) => Some(Ins::Mulx {
            hi,
            lo,
            s: of_source(s)?,
        }),
        (Operation::XShuf, Part::Wide(d), Part::Wide(s), Part::Number(n)) => {
            Some(Ins::XShuf { d, s, n: byte(n)? })
        }
        (Operation::XClmul, Part::Wide(d), Part::Wide(s), Part::Number(n)) => {
            Some(Ins::XClmul { d, s, n: byte(n)? })
        }
        (Operation::XIns, Part::Wide(d), Part::General(s), Part::Number(n)) => {
            Some(Ins::XIns { d, s, n: byte(n)? })
        }
        (Operation::XExt, Part::General(d), Part::Wide(s), Part::Number(n)) => {
            Some(Ins::XExt { d, s, n: byte(n)? })
        }
        _ => None,
    }
}

/// The instruction of this name and with these operands, where there is one. The last clause is for proofs.
pub fn instruction(operation: Operation, operands: Parts) -> Option<Ins>
    ensures found { IfSome result (λ i. (operation_of i ≡ operation) × (operands_of i ≡ operands)) }
    ensures only { (i : AnIns) → FieldsFit i → operation_of i ≡ operation → operands_of i ≡ operands → result ≡ Some i }
    ensures same { result ≡ instruction operation operands }
{
    match operands {
        Parts::One(a) => of_one(operation, a),
        Parts::Two(d, s) => of_two(operation, d, s),
        Parts::Three(d, a, b) => of_three(operation, d, a, b),
    }
}
