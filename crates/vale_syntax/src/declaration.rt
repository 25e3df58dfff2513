// Declarations.

use crate::expr::{Expr, Name};
use crate::spot::Spot;
use crate::statement::{LemmaStmt, SortName, Stmt};
use sqlite_items::Items;
use x64_syntax::{Abi, Kind};

/// A kind of operands, and where it stands.
#[derive(Clone, Copy, Debug, PartialEq, Eq)]
pub struct KindName {
    pub kind: Kind,
    pub spot: Spot,
}

/// A calling convention, and where it stands.
#[derive(Clone, Copy, Debug, PartialEq, Eq)]
pub struct AbiName {
    pub abi: Abi,
    pub spot: Spot,
}

/// Whether an operand is read alone, or written too.
#[derive(Clone, Copy, Debug, PartialEq, Eq)]
pub enum Direction {
    In,
    InOut,
}

/// A name and its sort.
#[derive(Debug, Drop, PartialEq, Eq)]
pub struct Bind {
    pub name: Name,
    pub sort: SortName,
}

/// A parameter of a procedure.
#[derive(Debug, Drop, PartialEq, Eq)]
pub enum Param {
    /// `in x: reg`, `secret inout x: opr`; the truth says whether it is secret.
    Operand(Spot, bool, Direction, Name, KindName),
    /// `out x: reg`
    Out(Spot, Name, KindName),
    /// `inline n: int`
    Inline(Spot, Name),
    /// `ghost x: sort`
    Ghost(Spot, Name, SortName),
    /// `block b`, `secret block b`
    Block(Spot, bool, Name),
}

/// A place that is read, and whether it is secret.
#[derive(Debug, Drop, PartialEq, Eq)]
pub struct ReadPlace {
    pub spot: Spot,
    pub is_secret: bool,
    pub name: Name,
}

/// A clause of a procedure.
#[derive(Debug, Drop)]
pub enum Clause {
    Reads(Spot, Items<ReadPlace>),
    Modifies(Spot, Items<Name>),
    Requires(Spot, Expr),
    Ensures(Spot, Expr),
    Stack(Spot, Expr),
    Abi(Spot, AbiName),
}

/// A clause of a lemma.
#[derive(Debug, Drop)]
pub enum LemmaClause {
    Requires(Spot, Expr),
    Ensures(Spot, Expr),
    Decreases(Spot, Expr),
}

/// A declaration.
#[derive(Debug, Drop)]
pub enum Decl {
    /// `procedure p(..) clauses { .. }`
    Procedure(Spot, Name, Items<Param>, Items<Clause>, Items<Stmt>),
    /// `lemma l(..) clauses { .. }`
    Lemma(Spot, Name, Items<Bind>, Items<LemmaClause>, Items<LemmaStmt>),
    /// `function f(..): sort = e;`, or with the part `zero e;` and then `step e;` in braces.
    Function(Spot, Name, Items<Bind>, SortName, Option<Expr>, Expr),
    /// `export x = p(..);`
    Export(Spot, Name, Name, Items<Expr>),
}
