// Arguments of statements, invariants and tests.

ghost use Rattle.std.specs.Prelude.{◌≡◌, [], length, drop, map};
ghost use Rattle.vale_syntax.specs.Peek.{peek};
ghost use Rattle.vale_syntax.specs.inner.CodeTrees.{tree};
ghost use Rattle.vale_syntax.specs.inner.CodeTrees.{arg_tree};
ghost use Rattle.vale_parser.specs.inner.Productions.{expression};
ghost use Rattle.vale_parser.specs.inner.Parts.{comma_list, closed_list, many};
ghost use Rattle.vale_parser.specs.inner.Productions.{memory_at, value_at, argument_by, argument, invariant_, is_invariant, test};
ghost use Rattle.vale_syntax.specs.inner.Matches.{Gives};
ghost use Rattle.vale_parser.specs.inner.Things.{Thing, AnArg, thing_parser};

use crate::clauses::asked;
use crate::front::{Read, before, expect, expression, is_at, with};
use crate::part::{Part, closed, separated};
use crate::words::{is_invariant, is_name};
use expr_parser::{after, name_of};
use sqlite_items::Items;
use std::alloc::Global;
use vale_syntax::{Arg, Expr, Mark, MatchFault, Name, Token, peek};

/// Expressions, joined by commas, and the closing round bracket.
pub(crate) fn expressions<'a>(
    alloc: Global,
    tokens: &'a [Token],
) -> Result<Read<'a, Items<Expr>>, MatchFault>
    ensures { Gives (λ r. (map tree r.part, r.rest.now)) result (closed_list expression tokens.now) }
{
    closed(alloc, tokens)
}

fn some_expressions<'a>(
    alloc: Global,
    tokens: &'a [Token],
) -> Result<Read<'a, Items<Expr>>, MatchFault>
    ensures { Gives (λ r. (map tree r.part, r.rest.now)) result (comma_list expression tokens.now) }
{
    separated(alloc, tokens)
}

// A memory operand, behind its `@`.
fn memory_at<'a>(
    alloc: Global,
    block: Name,
    index: Expr,
    tokens: &'a [Token],
) -> Result<Read<'a, Arg>, MatchFault>
    ensures { Gives (λ r. (arg_tree r.part, r.rest.now)) result (memory_at block (tree index) tokens.now) }
{
    let front = (block, index);
    let (front, rest) = with(front, expect(tokens, Mark::RoundOpen))?;
    let (front, address) = with(front, some_expressions(alloc, rest))?;
    let ((block, index), address) = with(front, before(address, Mark::RoundClose))?;
    Ok(Read {
        part: Arg::Memory(block, index, address.part),
        rest: address.rest,
    })
}

fn value_at<'a>(alloc: Global, tokens: &'a [Token]) -> Result<Read<'a, Arg>, MatchFault>
    ensures { Gives (λ r. (arg_tree r.part, r.rest.now)) result (value_at tokens.now) }
{
    let found = expression(alloc, tokens)?;
    Ok(Read {
        part: Arg::Value(found.part),
        rest: found.rest,
    })
}

// An argument that begins with a name and an index, which is read apart from the rest: an index may be as deep as an
// expression.
fn indexed<'a>(alloc: Global, tokens: &'a [Token]) -> Result<Read<'a, Arg>, MatchFault>
    ensures { Gives (λ r. (arg_tree r.part, r.rest.now)) result (argument_by (expression (drop 2 tokens.now)) tokens.now) }
{
    match expression(alloc, after(tokens, 2)) {
        Ok(index) => {
            if is_at(index.rest, Mark::SquareClose) && is_at(after(index.rest, 1), Mark::At) {
                let block = name_of(alloc, tokens)?;
                memory_at(alloc, block, index.part, after(index.rest, 2))
            } else {
                value_at(alloc, tokens)
            }
        }
        Err(MatchFault::NoMatch) => value_at(alloc, tokens),
        Err(MatchFault::NoMemory) => Err(MatchFault::NoMemory),
    }
}

#[tactic(auto, unfolding(crate::specs::inner::Productions::argument))]
fn argument<'a>(alloc: Global, tokens: &'a [Token]) -> Result<Read<'a, Arg>, MatchFault>
    ensures { Gives (λ r. (arg_tree r.part, r.rest.now)) result (argument tokens.now) }
{
    if is_name(peek(tokens)) && is_at(after(tokens, 1), Mark::SquareOpen) {
        indexed(alloc, tokens)
    } else {
        value_at(alloc, tokens)
    }
}

impl Part for Arg {
    ghost thing = { λ a. AnArg (arg_tree a) };

    ghost found = { thing_parser AnArg argument };

    fn read<'a>(alloc: Global, tokens: &'a [Token]) -> Result<Read<'a, Self>, MatchFault> {
        argument(alloc, tokens)
    }
}

/// Arguments, joined by commas, and the closing round bracket.
pub(crate) fn arguments<'a>(
    alloc: Global,
    tokens: &'a [Token],
) -> Result<Read<'a, Items<Arg>>, MatchFault>
    ensures { Gives (λ r. (map arg_tree r.part, r.rest.now)) result (closed_list argument tokens.now) }
{
    closed(alloc, tokens)
}

#[tactic(auto, unfolding(crate::specs::inner::Productions::invariant_))]
fn invariant<'a>(alloc: Global, tokens: &'a [Token]) -> Result<Read<'a, Expr>, MatchFault>
    ensures { Gives (λ r. (tree r.part, r.rest.now)) result (invariant_ tokens.now) }
{
    asked(alloc, is_invariant(peek(tokens)), tokens)
}

/// The invariants of a loop.
pub(crate) fn invariants<'a>(
    alloc: Global,
    tokens: &'a [Token],
) -> Result<Read<'a, Items<Expr>>, MatchFault>
    ensures { Gives (λ r. (map tree r.part, r.rest.now)) result (many is_invariant invariant_ (length tokens.now) [] tokens.now) }
{
    let mut parts = Items::new(alloc);
    let mut rest = tokens;
    for _turn in 0..tokens.len() {
        if !is_invariant(peek(rest)) {
            return Ok(Read { part: parts, rest });
        }
        let next = invariant(alloc, rest)?;
        parts.push(next.part)?;
        rest = next.rest;
    }
    Ok(Read { part: parts, rest })
}

/// `(t)`
pub(crate) fn test<'a>(alloc: Global, tokens: &'a [Token]) -> Result<Read<'a, Expr>, MatchFault>
    ensures { Gives (λ r. (tree r.part, r.rest.now)) result (test tokens.now) }
{
    let rest = expect(tokens, Mark::RoundOpen)?;
    before(expression(alloc, rest)?, Mark::RoundClose)
}
