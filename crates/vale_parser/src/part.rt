// Lists of parts of the grammar.

ghost use Rattle.std.specs.Prelude.{◌≡◌, List, [], length, Bool, Option, map};
ghost use Rattle.vale_syntax.specs.declared.token.Token.{Token as AToken};
ghost use Rattle.vale_syntax.specs.declared.lookahead.Lookahead.{Lookahead as ALookahead};
ghost use Rattle.vale_syntax.specs.Peek.{peek};
ghost use Rattle.vale_syntax.specs.inner.CodeTrees.{tree};
ghost use Rattle.vale_parser.specs.inner.Productions.{expression};
ghost use Rattle.vale_parser.specs.inner.Parts.{commas, comma_list, closed_list, many};
ghost use Rattle.vale_parser.specs.inner.Productions.{name};
ghost use Rattle.vale_syntax.specs.inner.Matches.{Gives};
ghost use Rattle.vale_parser.specs.inner.Things.{Thing, AnExpr, AName, thing_parser};

use crate::front::{Read, expect, expression, is_at, name};
use expr_parser::after;
use sqlite_items::Items;
use std::alloc::{AllocError, Global};
use vale_syntax::{Expr, Lookahead, Mark, MatchFault, Name, Token, peek};

/// A part of the grammar of which there are lists.
pub(crate) trait Part: Sized + Drop {
    /// What it is, without where it lies in memory.
    ghost thing: { Self → Thing };

    /// What is found by looking ahead.
    ghost found: { List AToken → Option (Thing × List AToken) };

    /// The part at the front.
    fn read<'a>(alloc: Global, tokens: &'a [Token]) -> Result<Read<'a, Self>, MatchFault>
        ensures { Gives (λ r. (thing r.part, r.rest.now)) result (found tokens.now) };
}

impl Part for Expr {
    ghost thing = { λ x. AnExpr (tree x) };

    ghost found = { thing_parser AnExpr expression };

    fn read<'a>(alloc: Global, tokens: &'a [Token]) -> Result<Read<'a, Self>, MatchFault> {
        expression(alloc, tokens)
    }
}

impl Part for Name {
    ghost thing = { λ n. AName n };

    ghost found = { thing_parser AName name };

    fn read<'a>(alloc: Global, tokens: &'a [Token]) -> Result<Read<'a, Self>, MatchFault> {
        name(alloc, tokens)
    }
}

/// A part of the grammar that may stand several times, one behind the other.
pub(crate) trait Repeated: Part {
    /// Whether a token begins one.
    ghost begins: { ALookahead → Bool };

    /// Whether a token begins one.
    fn begins(token: Lookahead) -> bool
        ensures { result ≡ begins token };
}

/// Parts joined by commas, behind the first ones; at most so many commas are looked for.
fn commas<'a, T: Part>(
    alloc: Global,
    first: Items<T>,
    tokens: &'a [Token],
    turns: usize,
) -> Result<Read<'a, Items<T>>, MatchFault>
    ensures { Gives (λ r. (map T.thing r.part, r.rest.now)) result (commas T.found turns (map T.thing first) tokens.now) }
{
    let mut parts = first;
    let mut rest = tokens;
    for _turn in 0..turns {
        if !is_at(rest, Mark::Comma) {
            return Ok(Read { part: parts, rest });
        }
        let next = T::read(alloc, after(rest, 1))?;
        parts.push(next.part)?;
        rest = next.rest;
    }
    Ok(Read { part: parts, rest })
}

/// One or more parts, joined by commas.
pub(crate) fn separated<'a, T: Part>(
    alloc: Global,
    tokens: &'a [Token],
) -> Result<Read<'a, Items<T>>, MatchFault>
    ensures { Gives (λ r. (map T.thing r.part, r.rest.now)) result (comma_list T.found tokens.now) }
{
    let first = T::read(alloc, tokens)?;
    let mut parts = Items::new(alloc);
    parts.push(first.part)?;
    commas(alloc, parts, first.rest, tokens.len())
}

/// Parts joined by commas, and the closing round bracket.
pub(crate) fn closed<'a, T: Part>(
    alloc: Global,
    tokens: &'a [Token],
) -> Result<Read<'a, Items<T>>, MatchFault>
    ensures { Gives (λ r. (map T.thing r.part, r.rest.now)) result (closed_list T.found tokens.now) }
{
    if is_at(tokens, Mark::RoundClose) {
        return Ok(Read {
            part: Items::new(alloc),
            rest: after(tokens, 1),
        });
    }
    let found = separated(alloc, tokens)?;
    Ok(Read {
        part: found.part,
        rest: expect(found.rest, Mark::RoundClose)?,
    })
}

/// Parts that stand one behind the other.
pub(crate) fn many<'a, T: Repeated>(
    alloc: Global,
    tokens: &'a [Token],
) -> Result<Read<'a, Items<T>>, MatchFault>
    ensures { Gives (λ r. (map T.thing r.part, r.rest.now)) result (many T.begins T.found (length tokens.now) [] tokens.now) }
{
    let mut parts = Items::new(alloc);
    let mut rest = tokens;
    for _turn in 0..tokens.len() {
        if !T::begins(peek(rest)) {
            return Ok(Read { part: parts, rest });
        }
        let next = T::read(alloc, rest)?;
        parts.push(next.part)?;
        rest = next.rest;
    }
    Ok(Read { part: parts, rest })
}
