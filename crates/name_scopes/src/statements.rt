// Statements of procedures.

ghost use Rattle.std.specs.Prelude.{◌≡◌, map, OnOk};
ghost use Rattle.vale_syntax.specs.inner.CodeTrees.{tree, arg_tree, stmt_tree, sts};
ghost use Rattle.name_scopes.specs.Faults.{◌<|>◌, unless};
ghost use Rattle.name_scopes.specs.Expressions.{expr_fault};
ghost use Rattle.name_scopes.specs.Names.{with_name};
ghost use Rattle.name_scopes.specs.Statements.{list_fault, own_at, accessed_at, callee_at, arg_fault, args_fault, stmt_names, stmts_names, braced};
ghost use Rattle.name_scopes.specs.inner.Walks.{names, view, Judges, Walks};

use crate::expressions::{expr, list};
use crate::fault::{Stop, judge};
use crate::locals::Locals;
use crate::scope::Scope;
use crate::uses::{accessed, called_by_procedure};
use vale_syntax::{Arg, Expr, Name, Stmt};
use x64_syntax::operation_named;

/// Declares a parameter or a `ghost` variable.
pub(crate) fn own_at(scope: &Scope<'_, '_>, locals: &Locals<'_>, name: &Name) -> Result<(), Stop>
    ensures { Judges result (own_at (view scope.now) (names locals.now) name.now) }
{
    judge(name.spot, scope.own_name(locals, name.text.as_bytes()))
}

fn accessed_at(scope: &Scope<'_, '_>, locals: &Locals<'_>, name: &Name) -> Result<(), Stop>
    ensures { Judges result (accessed_at (view scope.now) (names locals.now).known name.now) }
{
    let binding = scope.binding(locals, name.text.as_bytes());
    judge(name.spot, accessed(binding))
}

fn callee_at(scope: &Scope<'_, '_>, locals: &Locals<'_>, name: &Name) -> Result<(), Stop>
    ensures { Judges result (callee_at (view scope.now) (names locals.now).known name.now) }
{
    if operation_named(name.text.as_bytes()).is_some() {
        return Ok(());
    }
    let binding = scope.binding(locals, name.text.as_bytes());
    judge(name.spot, called_by_procedure(binding))
}

fn arg<'a>(scope: &Scope<'_, 'a>, locals: &mut Locals<'a>, arg: &'a Arg) -> Result<(), Stop>
    ensures judged { Judges result (arg_fault (view scope.now) (names locals.old).known (arg_tree arg.now)) }
    ensures kept { OnOk result (names locals.new ≡ names locals.old) }
{
    match arg {
        Arg::Memory(block, index, address) => {
            accessed_at(scope, locals, block)?;
            expr(scope, locals, index)?;
            list(scope, locals, address.as_slice())
        }
        Arg::Value(e) => expr(scope, locals, e),
    }
}

#[tactic(auto, unfolding(crate::specs::Statements::args_fault))]
fn args<'a>(scope: &Scope<'_, 'a>, locals: &mut Locals<'a>, args: &'a [Arg]) -> Result<(), Stop>
    ensures judged { Judges result (args_fault (view scope.now) (names locals.old).known (map arg_tree args.now)) }
    ensures kept { OnOk result (names locals.new ≡ names locals.old) }
{
    for a in args {
        arg(scope, locals, a)?;
    }
    Ok(())
}

fn call<'a>(
    scope: &Scope<'_, 'a>,
    locals: &mut Locals<'a>,
    name: &'a Name,
    given: &'a [Arg],
) -> Result<(), Stop>
    ensures judged { Judges result (callee_at (view scope.now) (names locals.old).known name.now <|> args_fault (view scope.now) (names locals.old).known (map arg_tree given.now)) }
    ensures kept { OnOk result (names locals.new ≡ names locals.old) }
{
    callee_at(scope, locals, name)?;
    args(scope, locals, given)
}

fn ghost_variable<'a>(
    scope: &Scope<'_, 'a>,
    locals: &mut Locals<'a>,
    name: &'a Name,
    value: &'a Expr,
) -> Result<(), Stop>
    ensures { Walks result (names locals.new) (unless (own_at (view scope.now) (names locals.old) name.now <|> expr_fault (view scope.now) (names locals.old).known (tree value.now)) (with_name (names locals.old) name.now.text)) }
{
    own_at(scope, locals, name)?;
    expr(scope, locals, value)?;
    locals.declare(name.text.as_bytes())?;
    Ok(())
}

fn assign<'a>(
    scope: &Scope<'_, 'a>,
    locals: &mut Locals<'a>,
    name: &'a Name,
    value: &'a Expr,
) -> Result<(), Stop>
    ensures judged { Judges result (accessed_at (view scope.now) (names locals.old).known name.now <|> expr_fault (view scope.now) (names locals.old).known (tree value.now)) }
    ensures kept { OnOk result (names locals.new ≡ names locals.old) }
{
    accessed_at(scope, locals, name)?;
    expr(scope, locals, value)
}

// What stands before the body of a loop.
fn loop_head<'a>(
    scope: &Scope<'_, 'a>,
    locals: &mut Locals<'a>,
    test: &'a Expr,
    invariants: &'a [Expr],
    measure: &'a Expr,
) -> Result<(), Stop>
    ensures judged { Judges result (expr_fault (view scope.now) (names locals.old).known (tree test.now) <|> list_fault (view scope.now) (names locals.old).known (map tree invariants.now) <|> expr_fault (view scope.now) (names locals.old).known (tree measure.now)) }
    ensures kept { OnOk result (names locals.new ≡ names locals.old) }
{
    expr(scope, locals, test)?;
    list(scope, locals, invariants)?;
    expr(scope, locals, measure)
}

#[cycle(statements)]
#[tactic(auto, unfolding(crate::specs::Statements::stmt_names))]
fn stmt<'a>(scope: &Scope<'_, 'a>, locals: &mut Locals<'a>, stmt: &'a Stmt) -> Result<(), Stop>
    ensures { Walks result (names locals.new) (stmt_names (view scope.now) (names locals.old) (stmt_tree stmt.now)) }
{
    match stmt {
        Stmt::Call(name, given) => call(scope, locals, name, given.as_slice()),
        Stmt::Assert(_, e) => expr(scope, locals, e),
        Stmt::Ghost(_, name, _, value) => ghost_variable(scope, locals, name, value),
        Stmt::Assign(name, value) => assign(scope, locals, name, value),
        Stmt::If(_, test, first, second) | Stmt::InlineIf(_, test, first, second) => {
            expr(scope, locals, test)?;
            block(scope, locals, first.as_slice())?;
            match second {
                None => Ok(()),
                Some(body) => block(scope, locals, body.as_slice()),
            }
        }
        Stmt::While(_, test, invariants, measure, body) => {
            loop_head(scope, locals, test, invariants.as_slice(), measure)?;
            block(scope, locals, body.as_slice())
        }
    }
}

// Statements in braces.
#[cycle(statements)]
fn block<'a>(scope: &Scope<'_, 'a>, locals: &mut Locals<'a>, body: &'a [Stmt]) -> Result<(), Stop>
    ensures { Walks result (names locals.new) (braced (names locals.old) (stmts_names (view scope.now) (names locals.old) (sts (map stmt_tree body.now)))) }
{
    let count = locals.count();
    stmts(scope, locals, body)?;
    locals.cut(count);
    Ok(())
}

/// Statements one behind the other.
#[cycle(statements)]
#[tactic(auto, unfolding(crate::specs::Statements::stmts_names))]
pub(crate) fn stmts<'a>(
    scope: &Scope<'_, 'a>,
    locals: &mut Locals<'a>,
    body: &'a [Stmt],
) -> Result<(), Stop>
    ensures { Walks result (names locals.new) (stmts_names (view scope.now) (names locals.old) (sts (map stmt_tree body.now))) }
{
    for s in body {
        stmt(scope, locals, s)?;
    }
    Ok(())
}
