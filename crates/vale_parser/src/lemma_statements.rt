// Statements of lemmas, as those of procedures are read.

ghost use Rattle.std.specs.Prelude.{◌≡◌, ◌≤◌, ◌<◌, suc, max, drop, length, map, IfOk};
ghost use Rattle.vale_syntax.specs.Peek.{peek};
ghost use Rattle.vale_syntax.specs.Programs.{no_lsts};
ghost use Rattle.vale_syntax.specs.inner.CodeTrees.{lstmt_tree, lsts};
ghost use Rattle.vale_parser.specs.inner.Productions.{lcall, lstatement, lstatement_by, larms, lblock, lbody, lelse_by};
ghost use Rattle.vale_syntax.specs.inner.Matches.{Gives};
ghost use Rattle.vale_parser.specs.inner.Reads.{lstatement_view, lbody_view, lelse_view, lbranches_view};

use crate::arguments::{expressions, test};
use crate::clauses::expression_end;
use crate::front::{before, expect, is_at, with};
use crate::words::is_else;
use expr_parser::{after, name_of, spot_of};
use sqlite_items::Items;
use std::alloc::Global;
use vale_syntax::{LemmaStmt, Lookahead, Mark, MatchFault, Token, peek};
use x64_syntax::Keyword;

/// A statement and its depth.
#[derive(Debug, Drop)]
pub(crate) struct LemmaStated<'a> {
    tree: LemmaStmt,
    height: u8,
    rest: &'a [Token],
}

/// Statements, and the depth of the deepest.
#[derive(Debug, Drop)]
pub(crate) struct LemmaBodied<'a> {
    pub(crate) trees: Items<LemmaStmt>,
    pub(crate) height: u8,
    pub(crate) rest: &'a [Token],
}

/// The second arm of an `if`, which may lack.
#[derive(Debug, Drop)]
pub(crate) struct LemmaArmed<'a> {
    arm: Option<Items<LemmaStmt>>,
    height: u8,
    rest: &'a [Token],
}

/// Both arms of an `if`, and the depth of the whole.
#[derive(Debug, Drop)]
pub(crate) struct LemmaBranches<'a> {
    first: Items<LemmaStmt>,
    second: Option<Items<LemmaStmt>>,
    height: u8,
    rest: &'a [Token],
}

fn call<'a>(alloc: Global, tokens: &'a [Token]) -> Result<LemmaStated<'a>, MatchFault>
    ensures found { Gives lstatement_view result (lcall tokens.now) }
    ensures shallow { IfOk result (λ s. s.height ≤ 1) }
{
    let rest = expect(after(tokens, 1), Mark::RoundOpen)?;
    let found = before(expressions(alloc, rest)?, Mark::Semicolon)?;
    Ok(LemmaStated {
        tree: LemmaStmt::Call(name_of(alloc, tokens)?, found.part),
        height: 1,
        rest: found.rest,
    })
}

// A statement with a depth of at most `left`.
#[cycle(statement)]
#[tactic(auto, unfolding(crate::specs::inner::Productions::lstatement))]
fn statement<'a>(
    alloc: Global,
    tokens: &'a [Token],
    left: u8,
) -> Result<LemmaStated<'a>, MatchFault>
    ensures found { Gives lstatement_view result (lstatement left tokens.now) }
    ensures shallow { IfOk result (λ s. s.height ≤ left) }
{
    if left == 0 {
        return Err(MatchFault::NoMatch);
    }
    statement_of(alloc, tokens, left - 1)
}

#[cycle(statement)]
fn statement_of<'a>(
    alloc: Global,
    tokens: &'a [Token],
    below: u8,
) -> Result<LemmaStated<'a>, MatchFault>
    requires { below < 255 }
    ensures found { Gives lstatement_view result (lstatement_by (lstatement below) (peek tokens.now) tokens.now) }
    ensures shallow { IfOk result (λ s. s.height ≤ suc below) }
{
    let spot = spot_of(tokens);
    match peek(tokens) {
        Lookahead::Name => call(alloc, tokens),
        Lookahead::Keyword(Keyword::Assert) => {
            let found = expression_end(alloc, tokens)?;
            Ok(LemmaStated {
                tree: LemmaStmt::Assert(spot, found.part),
                height: 1,
                rest: found.rest,
            })
        }
        Lookahead::Keyword(Keyword::If) => {
            let test = test(alloc, after(tokens, 1))?;
            let (test, arms) = with(test.part, arms(alloc, test.rest, below))?;
            Ok(LemmaStated {
                tree: LemmaStmt::If(spot, test, arms.first, arms.second),
                height: arms.height,
                rest: arms.rest,
            })
        }
        _ => Err(MatchFault::NoMatch),
    }
}

#[cycle(statement)]
fn arms<'a>(alloc: Global, tokens: &'a [Token], below: u8) -> Result<LemmaBranches<'a>, MatchFault>
    requires { below < 255 }
    ensures found { Gives lbranches_view result (larms (lstatement below) tokens.now) }
    ensures shallow { IfOk result (λ b. b.height ≤ suc below) }
{
    let first = block(alloc, tokens, below)?;
    let second = second_arm(alloc, first.rest, below)?;
    Ok(LemmaBranches {
        first: first.trees,
        second: second.arm,
        height: first.height.max(second.height) + 1,
        rest: second.rest,
    })
}

#[cycle(statement)]
fn second_arm<'a>(
    alloc: Global,
    tokens: &'a [Token],
    below: u8,
) -> Result<LemmaArmed<'a>, MatchFault>
    ensures found { Gives lelse_view result (lelse_by (lstatement below) tokens.now) }
    ensures shallow { IfOk result (λ a. a.height ≤ below) }
{
    if is_else(peek(tokens)) {
        let arm = block(alloc, after(tokens, 1), below)?;
        Ok(LemmaArmed {
            arm: Some(arm.trees),
            height: arm.height,
            rest: arm.rest,
        })
    } else {
        Ok(LemmaArmed {
            arm: None,
            height: 0,
            rest: tokens,
        })
    }
}

/// Statements in braces, with a depth of at most `below`.
#[cycle(statement)]
pub(crate) fn block<'a>(
    alloc: Global,
    tokens: &'a [Token],
    below: u8,
) -> Result<LemmaBodied<'a>, MatchFault>
    ensures found { Gives lbody_view result (lblock (lstatement below) tokens.now) }
    ensures shallow { IfOk result (λ b. b.height ≤ below) }
{
    let rest = expect(tokens, Mark::BraceOpen)?;
    body(alloc, rest, below)
}

// Statements as far as the closing brace.
#[cycle(statement)]
fn body<'a>(alloc: Global, tokens: &'a [Token], below: u8) -> Result<LemmaBodied<'a>, MatchFault>
    ensures found { Gives lbody_view result (lbody (lstatement below) (length tokens.now) no_lsts 0 tokens.now) }
    ensures shallow { IfOk result (λ b. b.height ≤ below) }
{
    let mut trees = Items::new(alloc);
    let mut height = 0;
    let mut rest = tokens;
    for _turn in 0..tokens.len() {
        if is_at(rest, Mark::BraceClose) {
            return Ok(LemmaBodied {
                trees,
                height,
                rest: after(rest, 1),
            });
        }
        let next = statement(alloc, rest, below)?;
        trees.push(next.tree)?;
        height = height.max(next.height);
        rest = next.rest;
    }
    Err(MatchFault::NoMatch)
}
