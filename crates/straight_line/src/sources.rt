// Whole sources of the form.

ghost use Rattle.std.specs.Prelude.{◌≡◌, map, IfOk};
ghost use Rattle.vale_syntax.specs.inner.CodeTrees.{decl_tree, clause_tree, stmt_tree, sts};
ghost use Rattle.vale_syntax.specs.inner.Matches.{Gives};
ghost use Rattle.straight_line.specs.Form.{are_names, body, procedure_, pair_of, straight_line};
ghost use Rattle.straight_line.specs.inner.Fits.{IsStraight};

use crate::clauses::read_clauses;
use crate::form::StraightLine;
use crate::statements::instructions;
use sqlite_items::Items;
use std::alloc::Global;
use vale_syntax::{Clause, Decl, MatchFault, Name, Stmt};
use x64_syntax::{Ins, Reg, Text, is_export_name, is_reserved};

/// The most statements that a procedure may have.
const STATEMENT_LIMIT: usize = 4096;

fn are_names(name: &[u8], export: &[u8], procedure: &[u8]) -> bool
    ensures { result ≡ are_names name.now export.now procedure.now }
{
    !is_reserved(name) && is_export_name(export) && procedure == name
}

fn body(alloc: Global, regs: &[Reg], stmts: &[Stmt]) -> Result<Items<Ins>, MatchFault>
    ensures { Gives (λ x. x) result (body regs.now (map stmt_tree stmts.now)) }
{
    let read = instructions(alloc, regs, stmts)?;
    if 1 <= read.len() && read.len() <= STATEMENT_LIMIT {
        Ok(read)
    } else {
        Err(MatchFault::NoMatch)
    }
}

fn procedure(
    alloc: Global,
    name: &Name,
    clauses: &[Clause],
    stmts: &[Stmt],
    export: &Name,
) -> Result<StraightLine, MatchFault>
    ensures { Gives (λ x. x) result (procedure_ name.now.text (map clause_tree clauses.now) (map stmt_tree stmts.now) export.now.text) }
{
    let (registers, promise) = read_clauses(alloc, clauses)?;
    let instructions = body(alloc, registers.as_slice(), stmts)?;
    Ok(StraightLine {
        name: Text::from_slice(alloc, name.text.as_bytes())?,
        registers,
        instructions,
        promise,
        export: Text::from_slice(alloc, export.text.as_bytes())?,
    })
}

#[tactic(auto, using(crate::proofs::Bodies::listed_sts_of))]
fn pair(alloc: Global, first: &Decl, second: &Decl) -> Result<StraightLine, MatchFault>
    ensures { Gives (λ x. x) result (pair_of (decl_tree first.now) (decl_tree second.now)) }
{
    match (first, second) {
        (
            Decl::Procedure(_, name, params, clauses, stmts),
            Decl::Export(_, export, exported, args),
        ) => {
            let are_named = are_names(
                name.text.as_bytes(),
                export.text.as_bytes(),
                exported.text.as_bytes(),
            );
            if params.is_empty() && args.is_empty() && are_named {
                procedure(alloc, name, clauses.as_slice(), stmts.as_slice(), export)
            } else {
                Err(MatchFault::NoMatch)
            }
        }
        _ => Err(MatchFault::NoMatch),
    }
}

/// The procedure that declarations of the form are.
pub fn straight_line(alloc: Global, decls: &[Decl]) -> Result<StraightLine, MatchFault>
    ensures gives { Gives (λ x. x) result (straight_line (map decl_tree decls.now)) }
    ensures fits { IfOk result IsStraight }
{
    let [procedure, export] = decls else {
        return Err(MatchFault::NoMatch);
    };
    pair(alloc, procedure, export)
}
