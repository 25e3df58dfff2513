// Names with sorts, places that are read, and parameters.

ghost use Rattle.std.specs.Prelude.{◌≡◌, map};
ghost use Rattle.vale_parser.specs.inner.Parts.{comma_list, closed_list};
ghost use Rattle.vale_parser.specs.inner.Productions.{name, bind, place, place_at, parameter, operand_at, out_at, inline_at, ghost_at, block_at, secret_param};
ghost use Rattle.vale_syntax.specs.inner.Matches.{Gives};
ghost use Rattle.vale_parser.specs.inner.Things.{Thing, ABind, APlace, AParam, AName, thing_parser};

use crate::front::{Read, name};
use crate::part::{Part, closed, separated};
use crate::words::{is_secret, kind_behind, sort_behind};
use expr_parser::{after, spot_of};
use sqlite_items::Items;
use std::alloc::Global;
use vale_syntax::{
    Bind, Direction, Lookahead, MatchFault, Name, Param, ReadPlace, Spot, Token, peek,
};
use x64_syntax::{Keyword, Sort};

#[tactic(auto, unfolding(crate::specs::inner::Productions::bind))]
fn bind<'a>(alloc: Global, tokens: &'a [Token]) -> Result<Read<'a, Bind>, MatchFault>
    ensures { Gives (λ r. (r.part, r.rest.now)) result (bind tokens.now) }
{
    let name = name(alloc, tokens)?;
    let sort = sort_behind(name.rest)?;
    Ok(Read {
        part: Bind {
            name: name.part,
            sort: sort.part,
        },
        rest: sort.rest,
    })
}

fn place_at<'a>(
    alloc: Global,
    spot: Spot,
    is_secret: bool,
    tokens: &'a [Token],
) -> Result<Read<'a, ReadPlace>, MatchFault>
    ensures { Gives (λ r. (r.part, r.rest.now)) result (place_at spot is_secret tokens.now) }
{
    let name = name(alloc, tokens)?;
    Ok(Read {
        part: ReadPlace {
            spot,
            is_secret,
            name: name.part,
        },
        rest: name.rest,
    })
}

#[tactic(auto, unfolding(crate::specs::inner::Productions::place))]
fn place<'a>(alloc: Global, tokens: &'a [Token]) -> Result<Read<'a, ReadPlace>, MatchFault>
    ensures { Gives (λ r. (r.part, r.rest.now)) result (place tokens.now) }
{
    let spot = spot_of(tokens);
    if is_secret(peek(tokens)) {
        place_at(alloc, spot, true, after(tokens, 1))
    } else {
        place_at(alloc, spot, false, tokens)
    }
}

fn operand_at<'a>(
    alloc: Global,
    spot: Spot,
    is_secret: bool,
    direction: Direction,
    tokens: &'a [Token],
) -> Result<Read<'a, Param>, MatchFault>
    ensures { Gives (λ r. (r.part, r.rest.now)) result (operand_at spot is_secret direction tokens.now) }
{
    let name = name(alloc, tokens)?;
    let kind = kind_behind(name.rest)?;
    Ok(Read {
        part: Param::Operand(spot, is_secret, direction, name.part, kind.part),
        rest: kind.rest,
    })
}

fn out_at<'a>(alloc: Global, spot: Spot, tokens: &'a [Token]) -> Result<Read<'a, Param>, MatchFault>
    ensures { Gives (λ r. (r.part, r.rest.now)) result (out_at spot tokens.now) }
{
    let name = name(alloc, tokens)?;
    let kind = kind_behind(name.rest)?;
    Ok(Read {
        part: Param::Out(spot, name.part, kind.part),
        rest: kind.rest,
    })
}

fn inline_at<'a>(
    alloc: Global,
    spot: Spot,
    tokens: &'a [Token],
) -> Result<Read<'a, Param>, MatchFault>
    ensures { Gives (λ r. (r.part, r.rest.now)) result (inline_at spot tokens.now) }
{
    let name = name(alloc, tokens)?;
    let sort = sort_behind(name.rest)?;
    match sort.part.sort {
        Sort::Int => Ok(Read {
            part: Param::Inline(spot, name.part),
            rest: sort.rest,
        }),
        _ => Err(MatchFault::NoMatch),
    }
}

fn ghost_at<'a>(
    alloc: Global,
    spot: Spot,
    tokens: &'a [Token],
) -> Result<Read<'a, Param>, MatchFault>
    ensures { Gives (λ r. (r.part, r.rest.now)) result (ghost_at spot tokens.now) }
{
    let name = name(alloc, tokens)?;
    let sort = sort_behind(name.rest)?;
    Ok(Read {
        part: Param::Ghost(spot, name.part, sort.part),
        rest: sort.rest,
    })
}

fn block_at<'a>(
    alloc: Global,
    spot: Spot,
    is_secret: bool,
    tokens: &'a [Token],
) -> Result<Read<'a, Param>, MatchFault>
    ensures { Gives (λ r. (r.part, r.rest.now)) result (block_at spot is_secret tokens.now) }
{
    let name = name(alloc, tokens)?;
    Ok(Read {
        part: Param::Block(spot, is_secret, name.part),
        rest: name.rest,
    })
}

// A parameter that may be secret.
fn guarded<'a>(
    alloc: Global,
    spot: Spot,
    is_secret: bool,
    tokens: &'a [Token],
) -> Result<Read<'a, Param>, MatchFault>
    ensures { Gives (λ r. (r.part, r.rest.now)) result (secret_param spot is_secret tokens.now) }
{
    let rest = after(tokens, 1);
    match peek(tokens) {
        Lookahead::Keyword(Keyword::In) => operand_at(alloc, spot, is_secret, Direction::In, rest),
        Lookahead::Keyword(Keyword::InOut) => operand_at(
            alloc,
            spot,
            is_secret,
            Direction::InOut,
            rest,
        ),
        Lookahead::Keyword(Keyword::Block) => block_at(alloc, spot, is_secret, rest),
        _ => Err(MatchFault::NoMatch),
    }
}

#[tactic(auto, unfolding(crate::specs::inner::Productions::parameter))]
fn parameter<'a>(alloc: Global, tokens: &'a [Token]) -> Result<Read<'a, Param>, MatchFault>
    ensures { Gives (λ r. (r.part, r.rest.now)) result (parameter tokens.now) }
{
    let spot = spot_of(tokens);
    let rest = after(tokens, 1);
    match peek(tokens) {
        Lookahead::Keyword(Keyword::Secret) => guarded(alloc, spot, true, rest),
        Lookahead::Keyword(Keyword::Out) => out_at(alloc, spot, rest),
        Lookahead::Keyword(Keyword::Inline) => inline_at(alloc, spot, rest),
        Lookahead::Keyword(Keyword::Ghost) => ghost_at(alloc, spot, rest),
        _ => guarded(alloc, spot, false, tokens),
    }
}

impl Part for Bind {
    ghost thing = { λ b. ABind b };

    ghost found = { thing_parser ABind bind };

    fn read<'a>(alloc: Global, tokens: &'a [Token]) -> Result<Read<'a, Self>, MatchFault> {
        bind(alloc, tokens)
    }
}

impl Part for ReadPlace {
    ghost thing = { λ p. APlace p };

    ghost found = { thing_parser APlace place };

    fn read<'a>(alloc: Global, tokens: &'a [Token]) -> Result<Read<'a, Self>, MatchFault> {
        place(alloc, tokens)
    }
}

impl Part for Param {
    ghost thing = { λ p. AParam p };

    ghost found = { thing_parser AParam parameter };

    fn read<'a>(alloc: Global, tokens: &'a [Token]) -> Result<Read<'a, Self>, MatchFault> {
        parameter(alloc, tokens)
    }
}

/// Names with sorts, joined by commas, and the closing round bracket.
pub(crate) fn binds<'a>(
    alloc: Global,
    tokens: &'a [Token],
) -> Result<Read<'a, Items<Bind>>, MatchFault>
    ensures { Gives (λ r. (r.part, r.rest.now)) result (closed_list bind tokens.now) }
{
    closed(alloc, tokens)
}

/// Parameters, joined by commas, and the closing round bracket.
pub(crate) fn parameters<'a>(
    alloc: Global,
    tokens: &'a [Token],
) -> Result<Read<'a, Items<Param>>, MatchFault>
    ensures { Gives (λ r. (r.part, r.rest.now)) result (closed_list parameter tokens.now) }
{
    closed(alloc, tokens)
}

/// One or more places, each secret or not, joined by commas.
pub(crate) fn places<'a>(
    alloc: Global,
    tokens: &'a [Token],
) -> Result<Read<'a, Items<ReadPlace>>, MatchFault>
    ensures { Gives (λ r. (r.part, r.rest.now)) result (comma_list place tokens.now) }
{
    separated(alloc, tokens)
}

/// One or more names, joined by commas.
pub(crate) fn names<'a>(
    alloc: Global,
    tokens: &'a [Token],
) -> Result<Read<'a, Items<Name>>, MatchFault>
    ensures { Gives (λ r. (r.part, r.rest.now)) result (comma_list name tokens.now) }
{
    separated(alloc, tokens)
}
