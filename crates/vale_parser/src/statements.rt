// Statements of procedures. Each function hands on the tokens behind what it read and its depth; `below` is the depth
// that is left to the statements inside.

ghost use Rattle.std.specs.Prelude.{◌≡◌, ◌≤◌, ◌<◌, suc, max, drop, length, map, IfOk};
ghost use Rattle.vale_syntax.specs.Peek.{peek};
ghost use Rattle.vale_syntax.specs.inner.CodeTrees.{tree};
ghost use Rattle.vale_syntax.specs.Programs.{no_sts};
ghost use Rattle.vale_syntax.specs.inner.CodeTrees.{stmt_tree, sts};
ghost use Rattle.vale_parser.specs.inner.Productions.{only_if, is_if, test, call_at, assign_at, ghost_statement, call_or_assign, simple, statement, statement_by, loop_at, arms, block, body, else_by};
ghost use Rattle.vale_syntax.specs.inner.Matches.{Gives};
ghost use Rattle.vale_parser.specs.inner.Reads.{statement_view, body_view, else_view, branches_view};

use crate::arguments::{arguments, invariants, test};
use crate::clauses::{asked, expression_end};
use crate::front::{Read, before, expect, expression, is_at, name, with};
use crate::words::{is_decreases, is_else, is_if, sort_behind};
use expr_parser::{after, name_of, spot_of};
use sqlite_items::Items;
use std::alloc::Global;
use vale_syntax::{Expr, Lookahead, Mark, MatchFault, Spot, Stmt, Token, peek};
use x64_syntax::Keyword;

/// A statement and its depth.
#[derive(Debug, Drop)]
pub(crate) struct Stated<'a> {
    tree: Stmt,
    height: u8,
    rest: &'a [Token],
}

/// Statements, and the depth of the deepest.
#[derive(Debug, Drop)]
pub(crate) struct Bodied<'a> {
    pub(crate) trees: Items<Stmt>,
    pub(crate) height: u8,
    pub(crate) rest: &'a [Token],
}

/// The second arm of an `if`, which may lack.
#[derive(Debug, Drop)]
pub(crate) struct Armed<'a> {
    arm: Option<Items<Stmt>>,
    height: u8,
    rest: &'a [Token],
}

/// Both arms of an `if`, and the depth of the whole.
#[derive(Debug, Drop)]
pub(crate) struct Branches<'a> {
    first: Items<Stmt>,
    second: Option<Items<Stmt>>,
    height: u8,
    rest: &'a [Token],
}

fn call_at<'a>(alloc: Global, tokens: &'a [Token]) -> Result<Read<'a, Stmt>, MatchFault>
    ensures { Gives (λ r. (stmt_tree r.part, r.rest.now)) result (call_at tokens.now) }
{
    let found = before(arguments(alloc, after(tokens, 2))?, Mark::Semicolon)?;
    Ok(Read {
        part: Stmt::Call(name_of(alloc, tokens)?, found.part),
        rest: found.rest,
    })
}

fn assign_at<'a>(alloc: Global, tokens: &'a [Token]) -> Result<Read<'a, Stmt>, MatchFault>
    ensures { Gives (λ r. (stmt_tree r.part, r.rest.now)) result (assign_at tokens.now) }
{
    let name = name_of(alloc, tokens)?;
    let (name, found) = with(name, expression(alloc, after(tokens, 2)))?;
    let (name, found) = with(name, before(found, Mark::Semicolon))?;
    Ok(Read {
        part: Stmt::Assign(name, found.part),
        rest: found.rest,
    })
}

fn ghost_at<'a>(alloc: Global, tokens: &'a [Token]) -> Result<Read<'a, Stmt>, MatchFault>
    ensures { Gives (λ r. (stmt_tree r.part, r.rest.now)) result (ghost_statement tokens.now) }
{
    let name = name(alloc, after(tokens, 1))?;
    let (name, sort) = with(name.part, sort_behind(name.rest))?;
    let (name, rest) = with(name, expect(sort.rest, Mark::Equals))?;
    let (name, found) = with(name, expression(alloc, rest))?;
    let (name, found) = with(name, before(found, Mark::Semicolon))?;
    Ok(Read {
        part: Stmt::Ghost(spot_of(tokens), name, sort.part, found.part),
        rest: found.rest,
    })
}

fn named<'a>(alloc: Global, tokens: &'a [Token]) -> Result<Read<'a, Stmt>, MatchFault>
    ensures { Gives (λ r. (stmt_tree r.part, r.rest.now)) result (call_or_assign (peek (drop 1 tokens.now)) tokens.now) }
{
    match peek(after(tokens, 1)) {
        Lookahead::Mark(Mark::RoundOpen) => call_at(alloc, tokens),
        Lookahead::Mark(Mark::Assign) => assign_at(alloc, tokens),
        _ => Err(MatchFault::NoMatch),
    }
}

// A statement without statements inside.
#[tactic(auto, unfolding(crate::specs::inner::Productions::simple))]
fn simple<'a>(alloc: Global, tokens: &'a [Token]) -> Result<Read<'a, Stmt>, MatchFault>
    ensures { Gives (λ r. (stmt_tree r.part, r.rest.now)) result (simple tokens.now) }
{
    match peek(tokens) {
        Lookahead::Name => named(alloc, tokens),
        Lookahead::Keyword(Keyword::Assert) => {
            let found = expression_end(alloc, tokens)?;
            Ok(Read {
                part: Stmt::Assert(spot_of(tokens), found.part),
                rest: found.rest,
            })
        }
        Lookahead::Keyword(Keyword::Ghost) => ghost_at(alloc, tokens),
        _ => Err(MatchFault::NoMatch),
    }
}

fn inline_test<'a>(alloc: Global, tokens: &'a [Token]) -> Result<Read<'a, Expr>, MatchFault>
    ensures { Gives (λ r. (tree r.part, r.rest.now)) result (only_if (is_if (peek (drop 1 tokens.now))) (test (drop 2 tokens.now))) }
{
    if is_if(peek(after(tokens, 1))) {
        test(alloc, after(tokens, 2))
    } else {
        Err(MatchFault::NoMatch)
    }
}

// A statement with a depth of at most `left`.
#[cycle(statement)]
#[tactic(auto, unfolding(crate::specs::inner::Productions::statement))]
fn statement<'a>(alloc: Global, tokens: &'a [Token], left: u8) -> Result<Stated<'a>, MatchFault>
    ensures found { Gives statement_view result (statement left tokens.now) }
    ensures shallow { IfOk result (λ s. s.height ≤ left) }
{
    if left == 0 {
        return Err(MatchFault::NoMatch);
    }
    statement_of(alloc, tokens, left - 1)
}

#[cycle(statement)]
fn statement_of<'a>(alloc: Global, tokens: &'a [Token], below: u8) -> Result<Stated<'a>, MatchFault>
    requires { below < 255 }
    ensures found { Gives statement_view result (statement_by (statement below) (peek tokens.now) tokens.now) }
    ensures shallow { IfOk result (λ s. s.height ≤ suc below) }
{
    let spot = spot_of(tokens);
    match peek(tokens) {
        Lookahead::Keyword(Keyword::If) => {
            let test = test(alloc, after(tokens, 1))?;
            let (test, arms) = with(test.part, arms(alloc, test.rest, below))?;
            Ok(Stated {
                tree: Stmt::If(spot, test, arms.first, arms.second),
                height: arms.height,
                rest: arms.rest,
            })
        }
        Lookahead::Keyword(Keyword::While) => {
            let test = test(alloc, after(tokens, 1))?;
            loop_at(alloc, spot, test, below)
        }
        Lookahead::Keyword(Keyword::Inline) => {
            let test = inline_test(alloc, tokens)?;
            let (test, arms) = with(test.part, arms(alloc, test.rest, below))?;
            Ok(Stated {
                tree: Stmt::InlineIf(spot, test, arms.first, arms.second),
                height: arms.height,
                rest: arms.rest,
            })
        }
        _ => {
            let found = simple(alloc, tokens)?;
            Ok(Stated {
                tree: found.part,
                height: 1,
                rest: found.rest,
            })
        }
    }
}

// What stands behind the test of a loop.
#[cycle(statement)]
fn loop_at<'a>(
    alloc: Global,
    spot: Spot,
    test: Read<'a, Expr>,
    below: u8,
) -> Result<Stated<'a>, MatchFault>
    requires { below < 255 }
    ensures found { Gives statement_view result (loop_at (statement below) spot (tree test.entry.part, test.entry.rest.now)) }
    ensures shallow { IfOk result (λ s. s.height ≤ suc below) }
{
    let (test, invariants) = with(test.part, invariants(alloc, test.rest))?;
    let front = (test, invariants.part);
    let measure = asked(alloc, is_decreases(peek(invariants.rest)), invariants.rest);
    let (front, measure) = with(front, measure)?;
    let front = (front, measure.part);
    let (((test, invariants), measure), body) = with(front, block(alloc, measure.rest, below))?;
    Ok(Stated {
        tree: Stmt::While(spot, test, invariants, measure, body.trees),
        height: body.height + 1,
        rest: body.rest,
    })
}

#[cycle(statement)]
fn arms<'a>(alloc: Global, tokens: &'a [Token], below: u8) -> Result<Branches<'a>, MatchFault>
    requires { below < 255 }
    ensures found { Gives branches_view result (arms (statement below) tokens.now) }
    ensures shallow { IfOk result (λ b. b.height ≤ suc below) }
{
    let first = block(alloc, tokens, below)?;
    let second = second_arm(alloc, first.rest, below)?;
    Ok(Branches {
        first: first.trees,
        second: second.arm,
        height: first.height.max(second.height) + 1,
        rest: second.rest,
    })
}

#[cycle(statement)]
fn second_arm<'a>(alloc: Global, tokens: &'a [Token], below: u8) -> Result<Armed<'a>, MatchFault>
    ensures found { Gives else_view result (else_by (statement below) tokens.now) }
    ensures shallow { IfOk result (λ a. a.height ≤ below) }
{
    if is_else(peek(tokens)) {
        let arm = block(alloc, after(tokens, 1), below)?;
        Ok(Armed {
            arm: Some(arm.trees),
            height: arm.height,
            rest: arm.rest,
        })
    } else {
        Ok(Armed {
            arm: None,
            height: 0,
            rest: tokens,
        })
    }
}

/// Statements in braces, with a depth of at most `below`.
#[cycle(statement)]
pub(crate) fn block<'a>(
    alloc: Global,
    tokens: &'a [Token],
    below: u8,
) -> Result<Bodied<'a>, MatchFault>
    ensures found { Gives body_view result (block (statement below) tokens.now) }
    ensures shallow { IfOk result (λ b. b.height ≤ below) }
{
    let rest = expect(tokens, Mark::BraceOpen)?;
    body(alloc, rest, below)
}

// Statements as far as the closing brace.
#[cycle(statement)]
fn body<'a>(alloc: Global, tokens: &'a [Token], below: u8) -> Result<Bodied<'a>, MatchFault>
    ensures found { Gives body_view result (body (statement below) (length tokens.now) no_sts 0 tokens.now) }
    ensures shallow { IfOk result (λ b. b.height ≤ below) }
{
    let mut trees = Items::new(alloc);
    let mut height = 0;
    let mut rest = tokens;
    for _turn in 0..tokens.len() {
        if is_at(rest, Mark::BraceClose) {
            return Ok(Bodied {
                trees,
                height,
                rest: after(rest, 1),
            });
        }
        let next = statement(alloc, rest, below)?;
        trees.push(next.tree)?;
        height = height.max(next.height);
        rest = next.rest;
    }
    Err(MatchFault::NoMatch)
}
