// Statements of procedures and lemmas.

use crate::expr::{Expr, Name};
use crate::spot::Spot;
use sqlite_items::Items;
use x64_syntax::Sort;

/// A sort, and where it stands.
#[derive(Clone, Copy, Debug, PartialEq, Eq)]
pub struct SortName {
    pub sort: Sort,
    pub spot: Spot,
}

/// An argument of a statement.
#[derive(Debug, Drop)]
pub enum Arg {
    /// A memory operand, as `b[i] @ (rsi, 8)`: the block, the index of its word, and the parts of its address.
    Memory(Name, Expr, Items<Expr>),
    Value(Expr),
}

/// A statement of a procedure.
#[derive(Debug, Drop)]
pub enum Stmt {
    /// `p(a, ..);`: an instruction, or a call of a procedure or lemma.
    Call(Name, Items<Arg>),
    /// `assert p;`
    Assert(Spot, Expr),
    /// `ghost x: sort = e;`
    Ghost(Spot, Name, SortName, Expr),
    /// `x := e;`
    Assign(Name, Expr),
    /// `if (t) { .. } else { .. }`
    If(Spot, Expr, Items<Stmt>, Option<Items<Stmt>>),
    /// `while (t) invariant p; .. decreases m; { .. }`
    While(Spot, Expr, Items<Expr>, Expr, Items<Stmt>),
    /// `inline if (t) { .. } else { .. }`
    InlineIf(Spot, Expr, Items<Stmt>, Option<Items<Stmt>>),
}

/// A statement of a lemma.
#[derive(Debug, Drop)]
pub enum LemmaStmt {
    /// `l(a, ..);`
    Call(Name, Items<Expr>),
    /// `assert p;`
    Assert(Spot, Expr),
    /// `if (p) { .. } else { .. }`
    If(Spot, Expr, Items<LemmaStmt>, Option<Items<LemmaStmt>>),
}
