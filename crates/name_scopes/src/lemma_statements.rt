// Statements of lemmas.

ghost use Rattle.std.specs.Prelude.{◌≡◌, map, OnOk};
ghost use Rattle.vale_syntax.specs.inner.CodeTrees.{tree, lstmt_tree, lsts};
ghost use Rattle.name_scopes.specs.Faults.{◌<|>◌};
ghost use Rattle.name_scopes.specs.Expressions.{called_at, expr_fault};
ghost use Rattle.name_scopes.specs.Statements.{list_fault, lstmt_fault, lstmts_fault};
ghost use Rattle.name_scopes.specs.inner.Walks.{names, view, Judges};

use crate::expressions::{called_at, expr, list};
use crate::fault::Stop;
use crate::locals::Locals;
use crate::scope::Scope;
use vale_syntax::{Expr, LemmaStmt, Name};

fn call<'a>(
    scope: &Scope<'_, 'a>,
    locals: &mut Locals<'a>,
    name: &'a Name,
    args: &'a [Expr],
) -> Result<(), Stop>
    ensures judged { Judges result (called_at (view scope.now) (names locals.old).known name.now <|> list_fault (view scope.now) (names locals.old).known (map tree args.now)) }
    ensures kept { OnOk result (names locals.new ≡ names locals.old) }
{
    called_at(scope, locals, name)?;
    list(scope, locals, args)
}

#[cycle(lemma_statements)]
#[tactic(auto, unfolding(crate::specs::Statements::lstmt_fault))]
fn stmt<'a>(scope: &Scope<'_, 'a>, locals: &mut Locals<'a>, stmt: &'a LemmaStmt) -> Result<(), Stop>
    ensures judged { Judges result (lstmt_fault (view scope.now) (names locals.old).known (lstmt_tree stmt.now)) }
    ensures kept { OnOk result (names locals.new ≡ names locals.old) }
{
    match stmt {
        LemmaStmt::Call(name, args) => call(scope, locals, name, args.as_slice()),
        LemmaStmt::Assert(_, e) => expr(scope, locals, e),
        LemmaStmt::If(_, test, first, second) => {
            expr(scope, locals, test)?;
            stmts(scope, locals, first.as_slice())?;
            match second {
                None => Ok(()),
                Some(body) => stmts(scope, locals, body.as_slice()),
            }
        }
    }
}

/// Statements one behind the other.
#[cycle(lemma_statements)]
#[tactic(auto, unfolding(crate::specs::Statements::lstmts_fault))]
pub(crate) fn stmts<'a>(
    scope: &Scope<'_, 'a>,
    locals: &mut Locals<'a>,
    body: &'a [LemmaStmt],
) -> Result<(), Stop>
    ensures judged { Judges result (lstmts_fault (view scope.now) (names locals.old).known (lsts (map lstmt_tree body.now))) }
    ensures kept { OnOk result (names locals.new ≡ names locals.old) }
{
    for s in body {
        stmt(scope, locals, s)?;
    }
    Ok(())
}
