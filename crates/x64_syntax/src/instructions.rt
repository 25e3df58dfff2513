// Instructions.

ghost use Rattle.std.specs.Prelude.{◌≡◌};
ghost use Rattle.x64_syntax.specs.Instructions.{carry_flag};

use crate::conditions::Cond;
use crate::operands::{Mem, Opr};
use crate::places::{FlagName, Reg, Xmm};

/// What an instruction of a register and a source computes; all of them set the flags.
#[derive(Clone, Copy, Debug, PartialEq, Eq)]
pub enum AluOp {
    Add,
    /// The sum with the carry flag.
    Adc,
    Sub,
    /// The difference less the carry flag.
    Sbb,
    /// A difference that sets the flags alone.
    Cmp,
    And,
    Or,
    Xor,
}

/// What an instruction of one register computes: the number's negative modulo 2^64, or its bits inverted.
#[derive(Clone, Copy, Debug, PartialEq, Eq)]
pub enum OneOp {
    Neg,
    Not,
}

/// Shifts and rotations, to the left and to the right.
#[derive(Clone, Copy, Debug, PartialEq, Eq)]
pub enum ShiftOp {
    Shl,
    Shr,
    Rol,
    Ror,
}

/// Sums with one flag, which they alone set: the carry flag, or the overflow flag.
#[derive(Clone, Copy, Debug, PartialEq, Eq)]
pub enum CarryOp {
    Adcx,
    Adox,
}

impl CarryOp {
    /// The flag that it reads and writes.
    pub const fn flag(self) -> FlagName
        ensures { result ≡ carry_flag self }
    {
        match self {
            CarryOp::Adcx => FlagName::Cf,
            CarryOp::Adox => FlagName::Of,
        }
    }
}

/// What an instruction of two xmm registers computes.
#[derive(Clone, Copy, Debug, PartialEq, Eq)]
pub enum XBinOp {
    Pxor,
    Pand,
    Por,
    /// Sums of four numbers of 32 bits.
    Paddd,
    /// Picks bytes by the low bits of the source's bytes.
    Pshufb,
    /// Sums of two words.
    Paddq,
    /// Joins the lower words.
    Punpcklqdq,
    /// Joins the upper words.
    Punpckhqdq,
    /// A round of AES, with the source as the round key.
    Aesenc,
    /// The last round of AES.
    Aesenclast,
}

/// Shifts of an xmm register: of its four numbers of 32 bits by bits, or of the whole by bytes.
#[derive(Clone, Copy, Debug, PartialEq, Eq)]
pub enum XShiftOp {
    Pslld,
    Psrld,
    Pslldq,
    Psrldq,
}

/// An instruction, with its destination first. See docs/MACHINE.md.
#[derive(Clone, Copy, Debug, PartialEq, Eq)]
pub enum Ins {
    /// `Mov64(d, s)`: copies the source.
    Mov { d: Reg, s: Opr },
    /// `Store64(m, s)`: writes a register to memory.
    Store { m: Mem, s: Reg },
    /// `Movzx8(d, m)`: loads one byte, and clears the rest of the register.
    Load1 { d: Reg, m: Mem },
    /// `Mov32(d, m)`: loads 4 bytes, and clears the upper half of the register.
    Load4 { d: Reg, m: Mem },
    /// `Store32(m, s)`: writes the lower half of a register to memory.
    Store4 { m: Mem, s: Reg },
    /// `Lea64(d, ..)`: the address itself.
    Lea { d: Reg, m: Mem },
    /// `Cmove(d, s)` and its kin: copies the source where the condition holds.
    Cmov { c: Cond, d: Reg, s: Reg },
    /// `Push64(s)`
    Push { s: Reg },
    /// `Pop64(d)`
    Pop { d: Reg },
    /// `Add64(d, s)` and its kin: combines the destination with the source, and sets the flags.
    Alu { op: AluOp, d: Reg, s: Opr },
    /// `Neg64(d)`, `Not64(d)`
    One { op: OneOp, d: Reg },
    /// `Shl64(d, n)` and its kin.
    Shift { op: ShiftOp, d: Reg, n: u8 },
    /// `Imul64(d, s)`: the product modulo 2^64.
    Imul { d: Reg, s: Opr },
    /// `Mul64(s)`: the product of rax and the source, in rdx and rax.
    Mul { s: Opr },
    /// `Mulx64(hi, lo, s)`: the product of rdx and the source; no flag changes.
    Mulx { hi: Reg, lo: Reg, s: Opr },
    /// `Adcx64(d, s)`, `Adox64(d, s)`
    Carry { op: CarryOp, d: Reg, s: Opr },
    /// `Movdqu(d, s)` of two xmm registers.
    XMov { d: Xmm, s: Xmm },
    /// `Movdqu(d, m)`: loads 16 bytes.
    XLoad { d: Xmm, m: Mem },
    /// `Movdqu(m, s)`: stores 16 bytes.
    XStore { m: Mem, s: Xmm },
    /// `Pxor(d, s)` and its kin.
    XBin { op: XBinOp, d: Xmm, s: Xmm },
    /// `Pshufd(d, s, n)`: picks numbers of 32 bits by the bits of n.
    XShuf { d: Xmm, s: Xmm, n: u8 },
    /// `Pslld(d, n)` and its kin.
    XShift { op: XShiftOp, d: Xmm, n: u8 },
    /// `Pinsrq(d, s, n)`: puts a register into word n, 0 or 1.
    XIns { d: Xmm, s: Reg, n: u8 },
    /// `Pextrq(d, s, n)`: takes word n, 0 or 1.
    XExt { d: Reg, s: Xmm, n: u8 },
    /// `Movq(d, s)`: the register as the lower word, and 0 above it.
    XMovq { d: Xmm, s: Reg },
    /// `Pclmulqdq(d, s, n)`: the product without carries of two words, which bits 0 and 4 of n choose; n is 0, 1, 16
    /// or 17.
    XClmul { d: Xmm, s: Xmm, n: u8 },
}
