// Statements of the form.

ghost use Rattle.std.specs.Prelude.{◌≡◌, ◌^◌, ◌-◌, ◌≤ℤ◌, pos, negsuc, [], map};
ghost use Rattle.vale_syntax.specs.inner.CodeTrees.{tree};
ghost use Rattle.vale_syntax.specs.inner.CodeTrees.{arg_tree, stmt_tree};
ghost use Rattle.vale_syntax.specs.inner.Matches.{Gives};
ghost use Rattle.straight_line.specs.Form.{constant, source, instruction, operands, statement, statements_from};

use crate::clauses::named;
use sqlite_items::Items;
use std::alloc::Global;
use vale_syntax::{Arg, Expr, MatchFault, Stmt};
use x64_syntax::{AluOp, Ins, Opr, Reg};

// A constant from `lowest` on and below `end`, as the number with a sign that is the same word.
fn constant(lowest: i128, end: i128, value: i128) -> Option<i64>
    requires lowest { negsuc (2 ^ 63 - 1) ≤ℤ lowest }
    requires end { end ≤ℤ pos (2 ^ 64) }
    ensures { result ≡ constant lowest end value }
{
    if lowest <= value && value < end {
        if value < 1 << 63 {
            Some(value as i64)
        } else {
            Some((value - (1 << 64)) as i64)
        }
    } else {
        None
    }
}

fn source(regs: &[Reg], lowest: i128, end: i128, e: &Expr) -> Option<Opr>
    requires lowest { negsuc (2 ^ 63 - 1) ≤ℤ lowest }
    requires end { end ≤ℤ pos (2 ^ 64) }
    ensures { result ≡ source regs.now lowest end (tree e.now) }
{
    match e {
        Expr::Int(_, value) => Some(Opr::Imm(constant(lowest, end, *value)?)),
        _ => Some(Opr::R(named(regs, e)?)),
    }
}

fn instruction(regs: &[Reg], name: &[u8], d: Reg, e: &Expr) -> Option<Ins>
    ensures { result ≡ instruction regs.now name.now d (tree e.now) }
{
    if name == b"Mov64".as_slice() {
        let s = source(regs, -(1 << 63), 1 << 64, e)?;
        return Some(Ins::Mov { d, s });
    }
    if name == b"Add64".as_slice() {
        let s = source(regs, -(1 << 31), 1 << 31, e)?;
        Some(Ins::Alu {
            op: AluOp::Add,
            d,
            s,
        })
    } else {
        None
    }
}

fn operands(regs: &[Reg], name: &[u8], args: &[Arg]) -> Option<Ins>
    ensures { result ≡ operands regs.now name.now (map arg_tree args.now) }
{
    match args {
        [Arg::Value(d), Arg::Value(s)] => instruction(regs, name, named(regs, d)?, s),
        _ => None,
    }
}

fn statement(regs: &[Reg], stmt: &Stmt) -> Option<Ins>
    ensures { result ≡ statement regs.now (stmt_tree stmt.now) }
{
    match stmt {
        Stmt::Call(name, args) => operands(regs, name.text.as_bytes(), args.as_slice()),
        _ => None,
    }
}

/// The instructions that the statements are.
#[tactic(auto, unfolding(crate::specs::Form::statements_from))]
pub(crate) fn instructions(
    alloc: Global,
    regs: &[Reg],
    stmts: &[Stmt],
) -> Result<Items<Ins>, MatchFault>
    ensures { Gives (λ x. x) result (statements_from regs.now [] (map stmt_tree stmts.now)) }
{
    let mut read = Items::new(alloc);
    for stmt in stmts {
        match statement(regs, stmt) {
            Some(ins) => read.push(ins)?,
            None => return Err(MatchFault::NoMatch),
        }
    }
    Ok(read)
}
