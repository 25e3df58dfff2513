// What jumps and tests compare, all without sign.

/// What a conditional jump or a conditional move asks: equal, not equal, below, below or equal, above, above or equal.
#[derive(Clone, Copy, Debug, PartialEq, Eq)]
pub enum Cond {
    E,
    Ne,
    B,
    Be,
    A,
    Ae,
}

/// What a test of structured code compares: `==`, `!=`, `<`, `<=`, `>`, `>=`.
#[derive(Clone, Copy, Debug, PartialEq, Eq)]
pub enum Cmp {
    Eq,
    Ne,
    Lt,
    Le,
    Gt,
    Ge,
}
