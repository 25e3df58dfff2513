// Expressions: each name is judged where it stands.

ghost use Rattle.std.specs.Prelude.{◌≡◌, ◌++◌, ◌∷◌, [], drop, map, option_map, false, OnOk};
ghost use Rattle.x64_syntax.specs.Words.{built_in_of};
ghost use Rattle.vale_syntax.specs.inner.CodeTrees.{tree, exs};
ghost use Rattle.name_scopes.specs.Faults.{◌<|>◌};
ghost use Rattle.name_scopes.specs.Names.{has};
ghost use Rattle.name_scopes.specs.Statements.{list_fault};
ghost use Rattle.name_scopes.specs.Expressions.{alone_at, called_at, bound_at, expr_fault, exprs_fault, call_fault, forall_fault, range_fault, known_in, name_alone};
ghost use Rattle.name_scopes.specs.inner.Walks.{names, view, Judges};

use crate::fault::{Stop, judge};
use crate::locals::Locals;
use crate::scope::Scope;
use crate::uses::{alone, called};
use vale_syntax::{Expr, Name};
use x64_syntax::{BuiltIn, built_in_named};

fn alone_at(scope: &Scope<'_, '_>, locals: &Locals<'_>, name: &Name) -> Result<(), Stop>
    ensures { Judges result (alone_at (view scope.now) (names locals.now).known name.now) }
{
    let binding = scope.binding(locals, name.text.as_bytes());
    judge(name.spot, alone(scope.home, binding))
}

/// A name before a round bracket, which is no operator of the language.
pub(crate) fn called_at(scope: &Scope<'_, '_>, locals: &Locals<'_>, name: &Name) -> Result<(), Stop>
    ensures { Judges result (called_at (view scope.now) (names locals.now).known name.now) }
{
    let binding = scope.binding(locals, name.text.as_bytes());
    judge(name.spot, called(scope.home, binding))
}

fn bound_at(scope: &Scope<'_, '_>, locals: &Locals<'_>, name: &Name) -> Result<(), Stop>
    ensures judged { Judges result (bound_at (view scope.now) (names locals.now).known name.now) }
    ensures fresh { OnOk result (has (names locals.now).known name.now.text ≡ false) }
{
    judge(name.spot, scope.bound_name(locals, name.text.as_bytes()))
}

/// An expression. It leaves the names that are known as they are.
#[cycle(expressions)]
#[tactic(auto, unfolding(crate::specs::Expressions::expr_fault))]
pub(crate) fn expr<'a>(
    scope: &Scope<'_, 'a>,
    locals: &mut Locals<'a>,
    e: &'a Expr,
) -> Result<(), Stop>
    ensures judged { Judges result (expr_fault (view scope.now) (names locals.old).known (tree e.now)) }
    ensures kept { OnOk result (names locals.new ≡ names locals.old) }
{
    match e {
        Expr::Int(_, _) | Expr::Word(_, _) | Expr::Wide(_, _) => Ok(()),
        Expr::True(_) | Expr::False(_) | Expr::Prev(_) => Ok(()),
        Expr::Name(name) => alone_at(scope, locals, name),
        Expr::Call(name, args) => call(scope, locals, name, args.as_slice()),
        Expr::Index(_, array, at) => {
            expr(scope, locals, array.get())?;
            expr(scope, locals, at.get())
        }
        Expr::Unary(_, _, inner) => expr(scope, locals, inner.get()),
        Expr::Binary(_, _, left, right) => {
            expr(scope, locals, left.get())?;
            expr(scope, locals, right.get())
        }
    }
}

#[cycle(expressions)]
#[tactic(auto, unfolding(crate::specs::Expressions::exprs_fault))]
fn exprs<'a>(scope: &Scope<'_, 'a>, locals: &mut Locals<'a>, list: &'a [Expr]) -> Result<(), Stop>
    ensures judged { Judges result (exprs_fault (view scope.now) (names locals.old).known (exs (map tree list.now))) }
    ensures kept { OnOk result (names locals.new ≡ names locals.old) }
{
    for e in list {
        expr(scope, locals, e)?;
    }
    Ok(())
}

#[cycle(expressions)]
fn call<'a>(
    scope: &Scope<'_, 'a>,
    locals: &mut Locals<'a>,
    name: &'a Name,
    args: &'a [Expr],
) -> Result<(), Stop>
    ensures judged { Judges result (call_fault (built_in_of name.now.text) (called_at (view scope.now) (names locals.old).known name.now) (exprs_fault (view scope.now) (names locals.old).known (exs (map tree args.now))) (forall_fault (view scope.now) (names locals.old).known (exs (map tree args.now)))) }
    ensures kept { OnOk result (names locals.new ≡ names locals.old) }
{
    match built_in_named(name.text.as_bytes()) {
        None => {
            called_at(scope, locals, name)?;
            exprs(scope, locals, args)
        }
        Some(BuiltIn::ForAll) => forall(scope, locals, args),
        Some(_) => exprs(scope, locals, args),
    }
}

// The name that an expression is.
fn name_alone(e: &Expr) -> Option<&Name>
    ensures { option_map (λ name. name.now) result ≡ name_alone (tree e.now) }
{
    match e {
        Expr::Name(name) => Some(name),
        _ => None,
    }
}

// The arguments of `forall`.
#[cycle(expressions)]
#[tactic(auto, unfolding(crate::specs::Expressions::forall_fault, crate::specs::Expressions::exprs_fault))]
fn forall<'a>(scope: &Scope<'_, 'a>, locals: &mut Locals<'a>, args: &'a [Expr]) -> Result<(), Stop>
    ensures judged { Judges result (forall_fault (view scope.now) (names locals.old).known (exs (map tree args.now))) }
    ensures kept { OnOk result (names locals.new ≡ names locals.old) }
{
    match args {
        [] => Ok(()),
        [first, ..] => match name_alone(first) {
            Some(name) => {
                bound_at(scope, locals, name)?;
                range(scope, locals, name, args)
            }
            None => exprs(scope, locals, args),
        },
    }
}

// The arguments of `forall` behind the name.
#[cycle(expressions)]
#[tactic(auto, unfolding(crate::specs::Expressions::range_fault))]
fn range<'a>(
    scope: &Scope<'_, 'a>,
    locals: &mut Locals<'a>,
    name: &'a Name,
    args: &'a [Expr],
) -> Result<(), Stop>
    requires { has (names locals.old).known name.now.text ≡ false }
    ensures judged { Judges result (range_fault (view scope.now) (names locals.old).known name.now.text 1 (exs (map tree (drop 1 args.now)))) }
    ensures kept { OnOk result (names locals.new ≡ names locals.old) }
{
    for number in 1..args.len() {
        argument(scope, locals, name, number, &args[number])?;
    }
    Ok(())
}

// The argument of `forall` of a number from 0.
#[cycle(expressions)]
fn argument<'a>(
    scope: &Scope<'_, 'a>,
    locals: &mut Locals<'a>,
    name: &'a Name,
    number: usize,
    e: &'a Expr,
) -> Result<(), Stop>
    requires { has (names locals.old).known name.now.text ≡ false }
    ensures judged { Judges result (expr_fault (view scope.now) (known_in (names locals.old).known name.now.text number) (tree e.now)) }
    ensures kept { OnOk result (names locals.new ≡ names locals.old) }
{
    if number == 3 {
        inner(scope, locals, name, e)
    } else {
        expr(scope, locals, e)
    }
}

// What knows the name that `forall` binds.
#[cycle(expressions)]
fn inner<'a>(
    scope: &Scope<'_, 'a>,
    locals: &mut Locals<'a>,
    name: &'a Name,
    body: &'a Expr,
) -> Result<(), Stop>
    requires { has (names locals.old).known name.now.text ≡ false }
    ensures judged { Judges result (expr_fault (view scope.now) ((names locals.old).known ++ name.now.text ∷ []) (tree body.now)) }
    ensures kept { OnOk result (names locals.new ≡ names locals.old) }
{
    let count = locals.count();
    locals.bind(name.text.as_bytes())?;
    expr(scope, locals, body)?;
    locals.cut(count);
    Ok(())
}

/// Expressions one behind the other.
#[tactic(auto, unfolding(crate::specs::Statements::list_fault))]
pub(crate) fn list<'a>(
    scope: &Scope<'_, 'a>,
    locals: &mut Locals<'a>,
    list: &'a [Expr],
) -> Result<(), Stop>
    ensures judged { Judges result (list_fault (view scope.now) (names locals.old).known (map tree list.now)) }
    ensures kept { OnOk result (names locals.new ≡ names locals.old) }
{
    for e in list {
        expr(scope, locals, e)?;
    }
    Ok(())
}
