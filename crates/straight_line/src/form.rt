// Procedures without branches.

use sqlite_items::Items;
use x64_syntax::{Ins, Reg, Text};

/// What a register holds at the end.
#[derive(Clone, Copy, Debug, PartialEq, Eq)]
pub enum Promise {
    /// `R == Kw`
    Constant(Reg, u64),
    /// `R == old(Q)`
    Old(Reg, Reg),
    /// `R == old(Q) + Kw`
    Sum(Reg, Reg, u64),
}

/// A procedure without branches, and its export.
#[derive(Debug, Drop)]
pub struct StraightLine {
    /// The procedure's name.
    pub name: Text,
    /// The registers that it reads and may change, each once. It may change the flags too.
    pub registers: Items<Reg>,
    /// Its statements, in order.
    pub instructions: Items<Ins>,
    pub promise: Promise,
    /// The name of its export.
    pub export: Text,
}
