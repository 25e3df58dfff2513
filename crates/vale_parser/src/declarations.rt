// Declarations.

ghost use Rattle.std.specs.Prelude.{◌≡◌};
ghost use Rattle.vale_syntax.specs.Peek.{peek};
ghost use Rattle.vale_syntax.specs.inner.CodeTrees.{tree};
ghost use Rattle.vale_syntax.specs.inner.CodeTrees.{decl_tree};
ghost use Rattle.vale_parser.specs.inner.Productions.{head, procedure_, lemma_, function_, plain_at, parts_at, step_at, result_at, export_, declaration};
ghost use Rattle.vale_syntax.specs.inner.Matches.{Gives};
ghost use Rattle.vale_parser.specs.inner.Reads.{header_view};

use crate::arguments::expressions;
use crate::clauses::{asked, clauses, expression_end, lemma_clauses};
use crate::front::{Read, before, expect, name, with};
use crate::parameters::{binds, parameters};
use crate::words::{is_step, is_zero, sort_behind};
use crate::{lemma_statements, statements};
use expr_parser::{after, spot_of};
use sqlite_items::Items;
use std::alloc::Global;
use vale_syntax::{
    Bind, Decl, Expr, Lookahead, Mark, MatchFault, Name, SortName, Spot, Token, peek,
};
use x64_syntax::Keyword;

/// No statement is deeper.
const STATEMENT_LIMIT: u8 = 100;

// Behind a keyword, a name and an opening round bracket.
fn head<'a>(alloc: Global, tokens: &'a [Token]) -> Result<Read<'a, Name>, MatchFault>
    ensures { Gives (λ r. (r.part, r.rest.now)) result (head tokens.now) }
{
    let found = name(alloc, after(tokens, 1))?;
    Ok(Read {
        part: found.part,
        rest: expect(found.rest, Mark::RoundOpen)?,
    })
}

fn procedure<'a>(alloc: Global, tokens: &'a [Token]) -> Result<Read<'a, Decl>, MatchFault>
    ensures { Gives (λ r. (decl_tree r.part, r.rest.now)) result (procedure_ tokens.now) }
{
    let name = head(alloc, tokens)?;
    let parameters = parameters(alloc, name.rest)?;
    let clauses = clauses(alloc, parameters.rest)?;
    let body = statements::block(alloc, clauses.rest, STATEMENT_LIMIT)?;
    Ok(Read {
        part: Decl::Procedure(
            spot_of(tokens),
            name.part,
            parameters.part,
            clauses.part,
            body.trees,
        ),
        rest: body.rest,
    })
}

fn lemma<'a>(alloc: Global, tokens: &'a [Token]) -> Result<Read<'a, Decl>, MatchFault>
    ensures { Gives (λ r. (decl_tree r.part, r.rest.now)) result (lemma_ tokens.now) }
{
    let name = head(alloc, tokens)?;
    let binds = binds(alloc, name.rest)?;
    let clauses = lemma_clauses(alloc, binds.rest)?;
    let body = lemma_statements::block(alloc, clauses.rest, STATEMENT_LIMIT)?;
    Ok(Read {
        part: Decl::Lemma(
            spot_of(tokens),
            name.part,
            binds.part,
            clauses.part,
            body.trees,
        ),
        rest: body.rest,
    })
}

// What stands before a function's value: its place, name, parameters and sort.
#[derive(Debug, Drop)]
pub(crate) struct Header {
    spot: Spot,
    name: Name,
    binds: Items<Bind>,
    sort: SortName,
}

// The value of a function that isn't recursive.
fn plain_at<'a>(
    alloc: Global,
    header: Header,
    tokens: &'a [Token],
) -> Result<Read<'a, Decl>, MatchFault>
    ensures { Gives (λ r. (decl_tree r.part, r.rest.now)) result (plain_at (header_view header) tokens.now) }
{
    let value = expression_end(alloc, tokens)?;
    Ok(Read {
        part: Decl::Function(
            header.spot,
            header.name,
            header.binds,
            header.sort,
            None,
            value.part,
        ),
        rest: value.rest,
    })
}

// What stands behind the value at zero of a recursive function.
fn step_at<'a>(
    alloc: Global,
    header: Header,
    zero: Read<'a, Expr>,
) -> Result<Read<'a, Decl>, MatchFault>
    ensures { Gives (λ r. (decl_tree r.part, r.rest.now)) result (step_at (header_view header) (tree zero.entry.part, zero.entry.rest.now)) }
{
    let front = (header, zero.part);
    let (front, step) = with(front, asked(alloc, is_step(peek(zero.rest)), zero.rest))?;
    let ((header, zero), step) = with(front, before(step, Mark::BraceClose))?;
    Ok(Read {
        part: Decl::Function(
            header.spot,
            header.name,
            header.binds,
            header.sort,
            Some(zero),
            step.part,
        ),
        rest: step.rest,
    })
}

// The parts of a recursive function.
fn parts_at<'a>(
    alloc: Global,
    header: Header,
    tokens: &'a [Token],
) -> Result<Read<'a, Decl>, MatchFault>
    ensures { Gives (λ r. (decl_tree r.part, r.rest.now)) result (parts_at (header_view header) tokens.now) }
{
    let (header, zero) = with(header, asked(alloc, is_zero(peek(tokens)), tokens))?;
    step_at(alloc, header, zero)
}

fn result_at<'a>(
    alloc: Global,
    header: Header,
    tokens: &'a [Token],
) -> Result<Read<'a, Decl>, MatchFault>
    ensures { Gives (λ r. (decl_tree r.part, r.rest.now)) result (result_at (header_view header) tokens.now) }
{
    match peek(tokens) {
        Lookahead::Mark(Mark::Equals) => plain_at(alloc, header, tokens),
        Lookahead::Mark(Mark::BraceOpen) => parts_at(alloc, header, after(tokens, 1)),
        _ => Err(MatchFault::NoMatch),
    }
}

fn function<'a>(alloc: Global, tokens: &'a [Token]) -> Result<Read<'a, Decl>, MatchFault>
    ensures { Gives (λ r. (decl_tree r.part, r.rest.now)) result (function_ tokens.now) }
{
    let name = head(alloc, tokens)?;
    let binds = binds(alloc, name.rest)?;
    let sort = sort_behind(binds.rest)?;
    let header = Header {
        spot: spot_of(tokens),
        name: name.part,
        binds: binds.part,
        sort: sort.part,
    };
    result_at(alloc, header, sort.rest)
}

fn export<'a>(alloc: Global, tokens: &'a [Token]) -> Result<Read<'a, Decl>, MatchFault>
    ensures { Gives (λ r. (decl_tree r.part, r.rest.now)) result (export_ tokens.now) }
{
    let exported = before(name(alloc, after(tokens, 1))?, Mark::Equals)?;
    let procedure = before(name(alloc, exported.rest)?, Mark::RoundOpen)?;
    let args = before(expressions(alloc, procedure.rest)?, Mark::Semicolon)?;
    Ok(Read {
        part: Decl::Export(spot_of(tokens), exported.part, procedure.part, args.part),
        rest: args.rest,
    })
}

/// The declaration at the front.
#[tactic(auto, unfolding(crate::specs::inner::Productions::declaration))]
pub(crate) fn declaration<'a>(
    alloc: Global,
    tokens: &'a [Token],
) -> Result<Read<'a, Decl>, MatchFault>
    ensures { Gives (λ r. (decl_tree r.part, r.rest.now)) result (declaration tokens.now) }
{
    match peek(tokens) {
        Lookahead::Keyword(Keyword::Procedure) => procedure(alloc, tokens),
        Lookahead::Keyword(Keyword::Lemma) => lemma(alloc, tokens),
        Lookahead::Keyword(Keyword::Function) => function(alloc, tokens),
        Lookahead::Keyword(Keyword::Export) => export(alloc, tokens),
        _ => Err(MatchFault::NoMatch),
    }
}
