// Declarations.

ghost use Rattle.std.specs.Prelude.{◌≡◌, [], map, OnOk};
ghost use Rattle.name_scopes.specs.declared.home.Home.TheVariants as home;
ghost use Rattle.std.specs.Option.{option_map};
ghost use Rattle.vale_syntax.specs.inner.CodeTrees.{tree, clause_tree, lclause_tree, stmt_tree, sts, lstmt_tree, lsts, decl_tree};
ghost use Rattle.name_scopes.specs.Faults.{◌<|>◌};
ghost use Rattle.name_scopes.specs.Expressions.{called_at};
ghost use Rattle.name_scopes.specs.Statements.{list_fault};
ghost use Rattle.name_scopes.specs.Declarations.{is_another, global_at, export_at, procedure_fault, lemma_fault, zero_fault, function_fault, scope_of, decl_fault};
ghost use Rattle.name_scopes.specs.inner.Walks.{names, view, table_of, Judges};

use crate::clauses::{clauses, lemma_clauses};
use crate::expressions::{called_at, expr, list};
use crate::fault::{ScopeFault, Stop, judge};
use crate::globals::Globals;
use crate::home::Home;
use crate::locals::Locals;
use crate::parameters::{binds, params};
use crate::scope::{Scope, new_name};
use crate::text_set::TextSet;
use crate::{lemma_statements, statements};
use std::alloc::Global;
use vale_syntax::{Bind, Clause, Decl, Expr, LemmaClause, LemmaStmt, Name, Param, Stmt};
use x64_syntax::is_export_name;

fn procedure<'a>(
    alloc: Global,
    scope: &Scope<'_, 'a>,
    list: &'a [Param],
    conditions: &'a [Clause],
    body: &'a [Stmt],
) -> Result<(), Stop>
    ensures { Judges result (procedure_fault (view scope.now) list.now (map clause_tree conditions.now) (sts (map stmt_tree body.now))) }
{
    let mut locals = Locals::new(alloc);
    params(scope, &mut locals, list)?;
    clauses(scope, &mut locals, conditions)?;
    statements::stmts(scope, &mut locals, body)
}

fn lemma<'a>(
    alloc: Global,
    scope: &Scope<'_, 'a>,
    list: &'a [Bind],
    conditions: &'a [LemmaClause],
    body: &'a [LemmaStmt],
) -> Result<(), Stop>
    ensures { Judges result (lemma_fault (view scope.now) list.now (map lclause_tree conditions.now) (lsts (map lstmt_tree body.now))) }
{
    let mut locals = Locals::new(alloc);
    binds(scope, &mut locals, list)?;
    lemma_clauses(scope, &mut locals, conditions)?;
    lemma_statements::stmts(scope, &mut locals, body)
}

// The part `zero`.
fn zero_part<'a>(
    scope: &Scope<'_, 'a>,
    locals: &mut Locals<'a>,
    part: &'a Option<Expr>,
) -> Result<(), Stop>
    ensures judged { Judges result (zero_fault (view scope.now) (names locals.old).known (option_map tree part.now)) }
    ensures kept { OnOk result (names locals.new ≡ names locals.old) }
{
    match part {
        None => Ok(()),
        Some(e) => expr(scope, locals, e),
    }
}

fn function<'a>(
    alloc: Global,
    scope: &Scope<'_, 'a>,
    list: &'a [Bind],
    zero: &'a Option<Expr>,
    value: &'a Expr,
) -> Result<(), Stop>
    ensures { Judges result (function_fault (view scope.now) list.now (option_map tree zero.now) (tree value.now)) }
{
    let mut locals = Locals::new(alloc);
    binds(scope, &mut locals, list)?;
    zero_part(scope, &mut locals, zero)?;
    expr(scope, &mut locals, value)
}

fn exported<'a>(
    alloc: Global,
    globals: &Globals<'a>,
    procedure: &'a Name,
    args: &'a [Expr],
) -> Result<(), Stop>
    ensures { Judges result (called_at (scope_of (table_of globals.now) home.Export) [] procedure.now <|> list_fault (scope_of (table_of globals.now) home.Export) [] (map tree args.now)) }
{
    let scope = Scope {
        globals,
        home: Home::Export,
    };
    let mut locals = Locals::new(alloc);
    called_at(&scope, &locals, procedure)?;
    list(&scope, &mut locals, args)
}

// Whether the name of the declaration of this number stands for another.
fn is_another(globals: &Globals<'_>, number: usize, name: &[u8]) -> bool
    ensures { result ≡ is_another number (table_of globals.now name.now) }
{
    match globals.get(name) {
        Some(global) => global.number != number,
        None => false,
    }
}

fn global_at(globals: &Globals<'_>, number: usize, name: &Name) -> Result<(), Stop>
    ensures { Judges result (global_at (table_of globals.now) number name.now) }
{
    let bytes = name.text.as_bytes();
    judge(
        name.spot,
        new_name(is_another(globals, number, bytes), bytes),
    )
}

fn export_at(exports: &TextSet<'_>, name: &Name) -> Result<(), Stop>
    ensures { Judges result (export_at exports.now name.now) }
{
    let bytes = name.text.as_bytes();
    if !is_export_name(bytes) {
        return Err(Stop::Fault(name.spot, ScopeFault::Reserved));
    }
    if exports.has(bytes) {
        Err(Stop::Fault(name.spot, ScopeFault::Twice))
    } else {
        Ok(())
    }
}

/// A declaration, behind exports of those names.
#[tactic(auto, unfolding(crate::specs::Declarations::decl_fault))]
pub(crate) fn declaration<'a>(
    alloc: Global,
    globals: &Globals<'a>,
    exports: &TextSet<'a>,
    number: usize,
    decl: &'a Decl,
) -> Result<(), Stop>
    ensures { Judges result (decl_fault (table_of globals.now) exports.now number (decl_tree decl.now)) }
{
    match decl {
        Decl::Procedure(_, name, list, conditions, body) => {
            global_at(globals, number, name)?;
            let home = Home::Procedure;
            let scope = Scope { globals, home };
            procedure(
                alloc,
                &scope,
                list.as_slice(),
                conditions.as_slice(),
                body.as_slice(),
            )
        }
        Decl::Lemma(_, name, list, conditions, body) => {
            global_at(globals, number, name)?;
            let home = Home::Lemma(number);
            let scope = Scope { globals, home };
            lemma(
                alloc,
                &scope,
                list.as_slice(),
                conditions.as_slice(),
                body.as_slice(),
            )
        }
        Decl::Function(_, name, list, _, zero, value) => {
            global_at(globals, number, name)?;
            let home = Home::Function(number);
            let scope = Scope { globals, home };
            function(alloc, &scope, list.as_slice(), zero, value)
        }
        Decl::Export(_, name, called, args) => {
            export_at(exports, name)?;
            exported(alloc, globals, called, args.as_slice())
        }
    }
}
