// The parser: a function for each level of the grammar. Each hands on the tokens behind what it read. `below` is the
// depth that is left to the parts of what it reads.

ghost use Rattle.std.specs.Prelude.{◌≡◌, ◌<◌, ◌≤◌, suc, max, drop, IfOk, IsErrOf};
ghost use Rattle.vale_syntax.specs.Peek.{peek};
ghost use Rattle.vale_syntax.specs.Trees.{Ex};
ghost use Rattle.vale_syntax.specs.inner.CodeTrees.{tree};
ghost use Rattle.vale_syntax.specs.Expressions.{IsExpr, leaf};
ghost use Rattle.vale_syntax.specs.inner.Parse.{leaf_parse, round_parse, prefix_parse, others, arguments, name_by, atom, indices, unary, chain, rank_parse, parse, whole_parse};
ghost use Rattle.vale_syntax.specs.declared.fault.MatchFault.TheVariants.{NoMatch};
ghost use Rattle.vale_syntax.specs.inner.Matches.{Gives};
ghost use Rattle.expr_parser.specs.inner.Reads.{expression, view, view_list};

use crate::lists::{after, leaf, name_of, negated, operator, spot_of};
use crate::nodes::{self, Parsed, ParsedList};
use std::alloc::Global;
use vale_syntax::{
    BinaryOp, Expr, Lookahead, Mark, MatchFault, Spot, Token, UnaryOp, is_mark, peek,
    read_as_spelled,
};

/// The rank of whole expressions.
const ANY: u8 = 6;

/// No expression is deeper.
const DEPTH_LIMIT: u8 = 200;

/// The expression that the tokens are, all of them.
pub fn read_expr(alloc: Global, tokens: &[Token]) -> Result<Expr, MatchFault>
    ensures ok { IfOk result (λ x. IsExpr tokens.now (tree x)) }
    ensures not_an_expr { IsErrOf result NoMatch → (x : Ex) → IsExpr tokens.now x → ⊥ }
{
    read_as_spelled();
    whole(alloc, tokens)
}

/// The expression that the tokens begin with, and the tokens behind it: the longest that no operator, bracket or index
/// goes on.
#[tactic(auto, unfolding(crate::specs::inner::Reads::expression))]
pub fn read_front<'a>(alloc: Global, tokens: &'a [Token]) -> Result<(Expr, &'a [Token]), MatchFault>
    ensures { Gives (λ p. (tree p.0, p.1.now)) result (expression tokens.now) }
{
    let found = part(alloc, tokens, ANY, DEPTH_LIMIT)?;
    Ok((found.tree, found.rest))
}

#[tactic(auto, unfolding(crate::specs::inner::Looks::whole_parse, crate::specs::inner::Reads::expression))]
fn whole(alloc: Global, tokens: &[Token]) -> Result<Expr, MatchFault>
    ensures { Gives tree result (whole_parse tokens.now) }
{
    let (found, rest) = read_front(alloc, tokens)?;
    match rest {
        [] => Ok(found),
        _ => Err(MatchFault::NoMatch),
    }
}

// The expression of a rank at the front, with a depth of at most `left`.
#[cycle(expression)]
#[tactic(auto, unfolding(crate::specs::inner::Looks::parse))]
fn part<'a>(
    alloc: Global,
    tokens: &'a [Token],
    rank: u8,
    left: u8,
) -> Result<Parsed<'a>, MatchFault>
    ensures found { Gives view result (parse left rank tokens.now) }
    ensures shallow { IfOk result (λ p. p.height ≤ left) }
{
    if left == 0 {
        return Err(MatchFault::NoMatch);
    }
    ranked(alloc, tokens, rank, left - 1)
}

// An expression of a rank.
#[cycle(expression)]
#[tactic(auto, unfolding(crate::specs::inner::Looks::rank_parse))]
fn ranked<'a>(
    alloc: Global,
    tokens: &'a [Token],
    rank: u8,
    below: u8,
) -> Result<Parsed<'a>, MatchFault>
    requires { below < 255 }
    ensures found { Gives view result (rank_parse (parse below) below rank tokens.now) }
    ensures shallow { IfOk result (λ p. p.height ≤ suc below) }
{
    if rank == 0 {
        return unary(alloc, tokens, below);
    }
    let first = ranked(alloc, tokens, rank - 1, below)?;
    chain(alloc, first, rank, spot_of(tokens), below)
}

// The operators of a rank behind an expression.
#[cycle(expression)]
fn chain<'a>(
    alloc: Global,
    first: Parsed<'a>,
    rank: u8,
    spot: Spot,
    below: u8,
) -> Result<Parsed<'a>, MatchFault>
    requires room { below < 255 }
    requires first { first.height ≤ suc below }
    ensures found { Gives view result (chain (parse below) below (suc below) rank spot (view first.entry)) }
    ensures shallow { IfOk result (λ p. p.height ≤ suc below) }
{
    let mut sofar = first;
    let mut goes_on = rank;
    for _turn in 0..below + 1 {
        let Some(op) = operator(goes_on, peek(sofar.rest)) else {
            return Ok(sofar);
        };
        if below < sofar.height {
            return Err(MatchFault::NoMatch);
        }
        let right = part(alloc, after(sofar.rest, 1), op.right(), below)?;
        sofar = nodes::binary(alloc, spot, op, sofar, right)?;
        goes_on = op.again();
    }
    Ok(sofar)
}

#[cycle(expression)]
#[tactic(auto, unfolding(crate::specs::inner::Looks::unary))]
fn unary<'a>(alloc: Global, tokens: &'a [Token], below: u8) -> Result<Parsed<'a>, MatchFault>
    requires { below < 255 }
    ensures found { Gives view result (unary (parse below) below tokens.now) }
    ensures shallow { IfOk result (λ p. p.height ≤ suc below) }
{
    match peek(tokens) {
        Lookahead::Mark(Mark::Bang) => prefixed(alloc, tokens, UnaryOp::Not, below),
        Lookahead::Mark(Mark::Binary(BinaryOp::Sub)) => match negated(tokens) {
            Some(value) => Ok(Parsed {
                tree: Expr::Int(spot_of(tokens), -value),
                height: 1,
                rest: after(tokens, 2),
            }),
            None => prefixed(alloc, tokens, UnaryOp::Neg, below),
        },
        _ => {
            let first = atom(alloc, tokens, below)?;
            indexed(alloc, first, spot_of(tokens), below)
        }
    }
}

// An operator and the expression behind it.
#[cycle(expression)]
fn prefixed<'a>(
    alloc: Global,
    tokens: &'a [Token],
    op: UnaryOp,
    below: u8,
) -> Result<Parsed<'a>, MatchFault>
    requires { below < 255 }
    ensures found { Gives view result (prefix_parse (parse below) op tokens.now) }
    ensures shallow { IfOk result (λ p. p.height ≤ suc below) }
{
    let inner = part(alloc, after(tokens, 1), 0, below)?;
    Ok(nodes::unary(alloc, spot_of(tokens), op, inner)?)
}

// The indices behind an expression.
#[cycle(expression)]
fn indexed<'a>(
    alloc: Global,
    first: Parsed<'a>,
    spot: Spot,
    below: u8,
) -> Result<Parsed<'a>, MatchFault>
    requires room { below < 255 }
    requires first { first.height ≤ suc below }
    ensures found { Gives view result (indices (parse below) below (suc below) spot (view first.entry)) }
    ensures shallow { IfOk result (λ p. p.height ≤ suc below) }
{
    let mut sofar = first;
    for _turn in 0..below + 1 {
        if !is_mark(Mark::SquareOpen, peek(sofar.rest)) {
            return Ok(sofar);
        }
        if below < sofar.height {
            return Err(MatchFault::NoMatch);
        }
        let at = part(alloc, after(sofar.rest, 1), ANY, below)?;
        if !is_mark(Mark::SquareClose, peek(at.rest)) {
            return Err(MatchFault::NoMatch);
        }
        let rest = after(at.rest, 1);
        sofar = nodes::index(alloc, spot, sofar, at, rest)?;
    }
    Ok(sofar)
}

#[cycle(expression)]
#[tactic(auto, unfolding(crate::specs::inner::Looks::atom))]
fn atom<'a>(alloc: Global, tokens: &'a [Token], below: u8) -> Result<Parsed<'a>, MatchFault>
    requires { below < 255 }
    ensures found { Gives view result (atom (parse below) tokens.now) }
    ensures shallow { IfOk result (λ p. p.height ≤ suc below) }
{
    match peek(tokens) {
        Lookahead::Mark(Mark::RoundOpen) => bracketed(alloc, tokens, below),
        Lookahead::Name => named(alloc, tokens, below),
        _ => alone(alloc, tokens),
    }
}

// A token that is an expression by itself.
fn alone<'a>(alloc: Global, tokens: &'a [Token]) -> Result<Parsed<'a>, MatchFault>
    ensures found { Gives view result (leaf_parse (leaf tokens.now) tokens.now) }
    ensures shallow { IfOk result (λ p. p.height ≤ 1) }
{
    Ok(Parsed {
        tree: leaf(alloc, tokens)?,
        height: 1,
        rest: after(tokens, 1),
    })
}

// An expression in round brackets.
#[cycle(expression)]
fn bracketed<'a>(alloc: Global, tokens: &'a [Token], below: u8) -> Result<Parsed<'a>, MatchFault>
    requires { below < 255 }
    ensures found { Gives view result (round_parse (parse below) tokens.now) }
    ensures shallow { IfOk result (λ p. p.height ≤ suc below) }
{
    let inner = part(alloc, after(tokens, 1), ANY, below)?;
    let Lookahead::Mark(Mark::RoundClose) = peek(inner.rest) else {
        return Err(MatchFault::NoMatch);
    };
    Ok(Parsed {
        tree: inner.tree,
        height: inner.height + 1,
        rest: after(inner.rest, 1),
    })
}

// A name, or a call of it.
#[cycle(expression)]
fn named<'a>(alloc: Global, tokens: &'a [Token], below: u8) -> Result<Parsed<'a>, MatchFault>
    requires { below < 255 }
    ensures found { Gives view result (name_by (parse below) (peek (drop 1 tokens.now)) tokens.now) }
    ensures shallow { IfOk result (λ p. p.height ≤ suc below) }
{
    let Lookahead::Mark(Mark::RoundOpen) = peek(after(tokens, 1)) else {
        return alone(alloc, tokens);
    };
    let found = arguments(alloc, after(tokens, 2), below)?;
    Ok(Parsed {
        tree: Expr::Call(name_of(alloc, tokens)?, found.trees),
        height: found.height + 1,
        rest: found.rest,
    })
}

// What stands in the round brackets of a call, the closing one included.
#[cycle(expression)]
#[tactic(auto, unfolding(crate::specs::inner::Looks::arguments))]
fn arguments<'a>(
    alloc: Global,
    tokens: &'a [Token],
    below: u8,
) -> Result<ParsedList<'a>, MatchFault>
    ensures found { Gives view_list result (arguments (parse below) tokens.now) }
    ensures shallow { IfOk result (λ p. p.height ≤ below) }
{
    if let Lookahead::Mark(Mark::RoundClose) = peek(tokens) {
        return Ok(nodes::none(alloc, after(tokens, 1)));
    }
    let first = part(alloc, tokens, ANY, below)?;
    let list = nodes::with_last(nodes::none(alloc, tokens), first)?;
    others(alloc, list, tokens.len(), below)
}

// The arguments behind the first ones, of which at most so many are left.
#[cycle(expression)]
fn others<'a>(
    alloc: Global,
    list: ParsedList<'a>,
    turns: usize,
    below: u8,
) -> Result<ParsedList<'a>, MatchFault>
    requires { list.height ≤ below }
    ensures found { Gives view_list result (others (parse below) turns (view_list list.entry).trees list.entry.height list.entry.rest.now) }
    ensures shallow { IfOk result (λ p. p.height ≤ below) }
{
    let mut sofar = list;
    for _turn in 0..turns {
        let token = peek(sofar.rest);
        if is_mark(Mark::RoundClose, token) {
            sofar.rest = after(sofar.rest, 1);
            return Ok(sofar);
        }
        if !is_mark(Mark::Comma, token) {
            return Err(MatchFault::NoMatch);
        }
        let next = part(alloc, after(sofar.rest, 1), ANY, below)?;
        sofar = nodes::with_last(sofar, next)?;
    }
    Err(MatchFault::NoMatch)
}
