// An expression that was read, and how larger ones are made of it.

ghost use Rattle.std.specs.Prelude.{◌≡◌, ◌<◌, IfOk, map, max, suc};
ghost use Rattle.vale_syntax.specs.inner.Parse.{got, got_list};
ghost use Rattle.vale_syntax.specs.Trees.{none, with_last, Unary, Index, Binary};
ghost use Rattle.vale_syntax.specs.inner.CodeTrees.{tree, exs};
ghost use Rattle.expr_parser.specs.inner.Reads.{view, view_list};

use sqlite_items::{Boxed, Items};
use std::alloc::{AllocError, Global};
use vale_syntax::{BinaryOp, Expr, Spot, Token, UnaryOp};

/// An expression, its depth, and the tokens behind it.
#[derive(Debug, Drop)]
pub(crate) struct Parsed<'a> {
    pub(crate) tree: Expr,
    pub(crate) height: u8,
    pub(crate) rest: &'a [Token],
}

/// An operator before an expression.
pub(crate) fn unary<'a>(
    alloc: Global,
    spot: Spot,
    op: UnaryOp,
    inner: Parsed<'a>,
) -> Result<Parsed<'a>, AllocError>
    requires { inner.height < 255 }
    ensures { IfOk result (λ p. view p ≡ got (Unary spot op (tree inner.entry.tree)) (suc inner.entry.height) inner.entry.rest.now) }
{
    Ok(Parsed {
        tree: Expr::Unary(spot, op, Boxed::new(alloc, inner.tree)?),
        height: inner.height + 1,
        rest: inner.rest,
    })
}

/// `x[i]`, with some tokens behind it.
pub(crate) fn index<'a>(
    alloc: Global,
    spot: Spot,
    array: Parsed<'a>,
    at: Parsed<'a>,
    rest: &'a [Token],
) -> Result<Parsed<'a>, AllocError>
    requires { max array.height at.height < 255 }
    ensures { IfOk result (λ p. view p ≡ got (Index spot (tree array.entry.tree) (tree at.entry.tree)) (suc (max array.entry.height at.entry.height)) rest.now) }
{
    Ok(Parsed {
        tree: Expr::Index(
            spot,
            Boxed::new(alloc, array.tree)?,
            Boxed::new(alloc, at.tree)?,
        ),
        height: array.height.max(at.height) + 1,
        rest,
    })
}

/// An operator between two expressions.
pub(crate) fn binary<'a>(
    alloc: Global,
    spot: Spot,
    op: BinaryOp,
    left: Parsed<'a>,
    right: Parsed<'a>,
) -> Result<Parsed<'a>, AllocError>
    requires { max left.height right.height < 255 }
    ensures { IfOk result (λ p. view p ≡ got (Binary spot op (tree left.entry.tree) (tree right.entry.tree)) (suc (max left.entry.height right.entry.height)) right.entry.rest.now) }
{
    Ok(Parsed {
        tree: Expr::Binary(
            spot,
            op,
            Boxed::new(alloc, left.tree)?,
            Boxed::new(alloc, right.tree)?,
        ),
        height: left.height.max(right.height) + 1,
        rest: right.rest,
    })
}

/// Expressions, the depth of the deepest, and the tokens behind them.
#[derive(Debug, Drop)]
pub(crate) struct ParsedList<'a> {
    pub(crate) trees: Items<Expr>,
    pub(crate) height: u8,
    pub(crate) rest: &'a [Token],
}

/// No expressions.
pub(crate) fn none<'a>(alloc: Global, rest: &'a [Token]) -> ParsedList<'a>
    ensures { view_list result ≡ got_list none 0 rest.now }
{
    ParsedList {
        trees: Items::new(alloc),
        height: 0,
        rest,
    }
}

/// One more expression.
#[tactic(auto, using(crate::proofs::Trees::exs_last))]
pub(crate) fn with_last<'a>(
    list: ParsedList<'a>,
    last: Parsed<'a>,
) -> Result<ParsedList<'a>, AllocError>
    ensures { IfOk result (λ p. view_list p ≡ got_list (with_last (exs (map tree list.entry.trees)) (tree last.entry.tree)) (max list.entry.height last.entry.height) last.entry.rest.now) }
{
    let ParsedList {
        mut trees,
        height,
        ..
    } = list;
    trees.push(last.tree)?;
    Ok(ParsedList {
        trees,
        height: height.max(last.height),
        rest: last.rest,
    })
}
