// Expressions.

use crate::mark::{BinaryOp, UnaryOp};
use crate::spot::Spot;
use sqlite_items::{Boxed, Items};
use x64_syntax::Text;

/// A name and where it stands.
#[derive(Debug, Drop, PartialEq, Eq)]
pub struct Name {
    pub text: Text,
    pub spot: Spot,
}

/// An expression. Each node has the place of its first token; round brackets round the whole node aren't part of it.
#[derive(Debug, Drop)]
pub enum Expr {
    /// A whole number. Its absolute value is below 2^127.
    Int(Spot, i128),
    /// A word of 64 bits, as `1w`.
    Word(Spot, u64),
    /// A word of 128 bits, as `1v`.
    Wide(Spot, u128),
    /// `true`
    True(Spot),
    /// `false`
    False(Spot),
    /// `prev`
    Prev(Spot),
    /// A name, which may be stamped.
    Name(Name),
    /// `f(a, ..)`
    Call(Name, Items<Expr>),
    /// `x[i]`
    Index(Spot, Boxed<Expr>, Boxed<Expr>),
    /// `!p` or `-a`
    Unary(Spot, UnaryOp, Boxed<Expr>),
    /// An operator between two expressions, as `a + b`.
    Binary(Spot, BinaryOp, Boxed<Expr>, Boxed<Expr>),
}
