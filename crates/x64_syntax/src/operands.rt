// Operands.

use crate::places::Reg;

/// A place in memory: base + scale * index + displacement, modulo 2^64.
#[derive(Clone, Copy, Debug, PartialEq, Eq)]
pub struct Mem {
    pub base: Reg,
    /// The index register and its scale: 1, 2, 4 or 8.
    pub index: Option<(Reg, u8)>,
    pub disp: i32,
}

/// The source of an instruction: a register, a constant or 8 bytes of memory.
#[derive(Clone, Copy, Debug, PartialEq, Eq)]
pub enum Opr {
    R(Reg),
    Imm(i64),
    M(Mem),
}
