// Clauses of procedures and lemmas.

ghost use Rattle.std.specs.Prelude.{◌≡◌, [], length, map};
ghost use Rattle.vale_syntax.specs.inner.CodeTrees.{tree};
ghost use Rattle.vale_syntax.specs.inner.CodeTrees.{clause_tree, lclause_tree};
ghost use Rattle.vale_parser.specs.inner.Parts.{many};
ghost use Rattle.vale_parser.specs.inner.Productions.{only_if, expression_end, abi_clause, reads_clause, modifies_clause, clause, begins_clause, lclause, begins_lclause};
ghost use Rattle.vale_syntax.specs.inner.Matches.{Gives};
ghost use Rattle.vale_parser.specs.inner.Things.{Thing, AClause, ALClause, thing_parser};

use crate::front::{Read, before, expect, expression};
use crate::parameters::{names, places};
use crate::part::{Part, Repeated, many};
use crate::words::abi_at;
use expr_parser::{after, spot_of};
use sqlite_items::Items;
use std::alloc::Global;
use vale_syntax::{Clause, Expr, LemmaClause, Lookahead, Mark, MatchFault, Spot, Token, peek};
use x64_syntax::Keyword;

/// Behind the first token, an expression and a semicolon.
pub(crate) fn expression_end<'a>(
    alloc: Global,
    tokens: &'a [Token],
) -> Result<Read<'a, Expr>, MatchFault>
    ensures { Gives (λ r. (tree r.part, r.rest.now)) result (expression_end tokens.now) }
{
    let found = expression(alloc, after(tokens, 1))?;
    Ok(Read {
        part: found.part,
        rest: expect(found.rest, Mark::Semicolon)?,
    })
}

/// An expression and a semicolon behind the first token, where that is the one that is asked for.
pub(crate) fn asked<'a>(
    alloc: Global,
    is_asked: bool,
    tokens: &'a [Token],
) -> Result<Read<'a, Expr>, MatchFault>
    ensures { Gives (λ r. (tree r.part, r.rest.now)) result (only_if is_asked (expression_end tokens.now)) }
{
    if is_asked {
        expression_end(alloc, tokens)
    } else {
        Err(MatchFault::NoMatch)
    }
}

fn abi_clause(spot: Spot, tokens: &[Token]) -> Result<Read<'_, Clause>, MatchFault>
    ensures { Gives (λ r. (clause_tree r.part, r.rest.now)) result (abi_clause spot tokens.now) }
{
    match abi_at(tokens) {
        Some(abi) => {
            let rest = expect(after(tokens, 1), Mark::Semicolon)?;
            Ok(Read {
                part: Clause::Abi(spot, abi),
                rest,
            })
        }
        None => Err(MatchFault::NoMatch),
    }
}

fn reads_clause<'a>(alloc: Global, tokens: &'a [Token]) -> Result<Read<'a, Clause>, MatchFault>
    ensures { Gives (λ r. (clause_tree r.part, r.rest.now)) result (reads_clause tokens.now) }
{
    let found = before(places(alloc, after(tokens, 1))?, Mark::Semicolon)?;
    Ok(Read {
        part: Clause::Reads(spot_of(tokens), found.part),
        rest: found.rest,
    })
}

fn modifies_clause<'a>(alloc: Global, tokens: &'a [Token]) -> Result<Read<'a, Clause>, MatchFault>
    ensures { Gives (λ r. (clause_tree r.part, r.rest.now)) result (modifies_clause tokens.now) }
{
    let found = before(names(alloc, after(tokens, 1))?, Mark::Semicolon)?;
    Ok(Read {
        part: Clause::Modifies(spot_of(tokens), found.part),
        rest: found.rest,
    })
}

#[tactic(auto, unfolding(crate::specs::inner::Productions::clause))]
fn clause<'a>(alloc: Global, tokens: &'a [Token]) -> Result<Read<'a, Clause>, MatchFault>
    ensures { Gives (λ r. (clause_tree r.part, r.rest.now)) result (clause tokens.now) }
{
    let spot = spot_of(tokens);
    match peek(tokens) {
        Lookahead::Keyword(Keyword::Reads) => reads_clause(alloc, tokens),
        Lookahead::Keyword(Keyword::Modifies) => modifies_clause(alloc, tokens),
        Lookahead::Keyword(Keyword::Requires) => {
            let found = expression_end(alloc, tokens)?;
            Ok(Read {
                part: Clause::Requires(spot, found.part),
                rest: found.rest,
            })
        }
        Lookahead::Keyword(Keyword::Ensures) => {
            let found = expression_end(alloc, tokens)?;
            Ok(Read {
                part: Clause::Ensures(spot, found.part),
                rest: found.rest,
            })
        }
        Lookahead::Keyword(Keyword::Stack) => {
            let found = expression_end(alloc, tokens)?;
            Ok(Read {
                part: Clause::Stack(spot, found.part),
                rest: found.rest,
            })
        }
        Lookahead::Keyword(Keyword::Abi) => abi_clause(spot, after(tokens, 1)),
        _ => Err(MatchFault::NoMatch),
    }
}

#[tactic(auto, unfolding(crate::specs::inner::Productions::lclause))]
fn lemma_clause<'a>(alloc: Global, tokens: &'a [Token]) -> Result<Read<'a, LemmaClause>, MatchFault>
    ensures { Gives (λ r. (lclause_tree r.part, r.rest.now)) result (lclause tokens.now) }
{
    let spot = spot_of(tokens);
    match peek(tokens) {
        Lookahead::Keyword(Keyword::Requires) => {
            let found = expression_end(alloc, tokens)?;
            Ok(Read {
                part: LemmaClause::Requires(spot, found.part),
                rest: found.rest,
            })
        }
        Lookahead::Keyword(Keyword::Ensures) => {
            let found = expression_end(alloc, tokens)?;
            Ok(Read {
                part: LemmaClause::Ensures(spot, found.part),
                rest: found.rest,
            })
        }
        Lookahead::Keyword(Keyword::Decreases) => {
            let found = expression_end(alloc, tokens)?;
            Ok(Read {
                part: LemmaClause::Decreases(spot, found.part),
                rest: found.rest,
            })
        }
        _ => Err(MatchFault::NoMatch),
    }
}

impl Part for Clause {
    ghost thing = { λ c. AClause (clause_tree c) };

    ghost found = { thing_parser AClause clause };

    fn read<'a>(alloc: Global, tokens: &'a [Token]) -> Result<Read<'a, Self>, MatchFault> {
        clause(alloc, tokens)
    }
}

impl Repeated for Clause {
    ghost begins = { begins_clause };

    fn begins(token: Lookahead) -> bool {
        matches!(
            token,
            Lookahead::Keyword(
                Keyword::Reads
                    | Keyword::Modifies
                    | Keyword::Requires
                    | Keyword::Ensures
                    | Keyword::Stack
                    | Keyword::Abi
            )
        )
    }
}

impl Part for LemmaClause {
    ghost thing = { λ c. ALClause (lclause_tree c) };

    ghost found = { thing_parser ALClause lclause };

    fn read<'a>(alloc: Global, tokens: &'a [Token]) -> Result<Read<'a, Self>, MatchFault> {
        lemma_clause(alloc, tokens)
    }
}

impl Repeated for LemmaClause {
    ghost begins = { begins_lclause };

    fn begins(token: Lookahead) -> bool {
        matches!(
            token,
            Lookahead::Keyword(Keyword::Requires | Keyword::Ensures | Keyword::Decreases)
        )
    }
}

/// The clauses of a procedure.
pub(crate) fn clauses<'a>(
    alloc: Global,
    tokens: &'a [Token],
) -> Result<Read<'a, Items<Clause>>, MatchFault>
    ensures { Gives (λ r. (map clause_tree r.part, r.rest.now)) result (many begins_clause clause (length tokens.now) [] tokens.now) }
{
    many(alloc, tokens)
}

/// The clauses of a lemma.
pub(crate) fn lemma_clauses<'a>(
    alloc: Global,
    tokens: &'a [Token],
) -> Result<Read<'a, Items<LemmaClause>>, MatchFault>
    ensures { Gives (λ r. (map lclause_tree r.part, r.rest.now)) result (many begins_lclause lclause (length tokens.now) [] tokens.now) }
{
    many(alloc, tokens)
}
