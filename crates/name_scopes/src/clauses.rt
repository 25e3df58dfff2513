// Clauses.

ghost use Rattle.std.specs.Prelude.{◌≡◌, map, false, OnOk};
ghost use Rattle.vale_syntax.specs.inner.CodeTrees.{clause_tree, lclause_tree};
ghost use Rattle.name_scopes.specs.Faults.{told_at};
ghost use Rattle.name_scopes.specs.Names.{binding};
ghost use Rattle.name_scopes.specs.Uses.{listed};
ghost use Rattle.name_scopes.specs.Declarations.{listed_fault, clauses_fault, lclauses_fault};
ghost use Rattle.name_scopes.specs.inner.Walks.{names, view, Judges};

use crate::expressions::expr;
use crate::fault::{Stop, judge, once};
use crate::locals::Locals;
use crate::scope::Scope;
use crate::uses::listed;
use vale_syntax::{Clause, LemmaClause, Name, ReadPlace};

fn listed_at(scope: &Scope<'_, '_>, locals: &Locals<'_>, name: &Name) -> Result<(), Stop>
    ensures { Judges result (told_at name.now.spot (listed (binding (view scope.now).of (names locals.now).known name.now.text))) }
{
    let binding = scope.binding(locals, name.text.as_bytes());
    judge(name.spot, listed(binding))
}

// Names in `modifies`.
#[tactic(auto, unfolding(crate::specs::Declarations::listed_fault))]
fn modified(scope: &Scope<'_, '_>, locals: &Locals<'_>, list: &[Name]) -> Result<(), Stop>
    ensures { Judges result (listed_fault (view scope.now) (names locals.now).known list.now) }
{
    for name in list {
        listed_at(scope, locals, name)?;
    }
    Ok(())
}

// Names in `reads`.
#[tactic(auto, unfolding(crate::specs::Declarations::listed_fault))]
fn read(scope: &Scope<'_, '_>, locals: &Locals<'_>, list: &[ReadPlace]) -> Result<(), Stop>
    ensures { Judges result (listed_fault (view scope.now) (names locals.now).known (map (λ r. r.name) list.now)) }
{
    for place in list {
        listed_at(scope, locals, &place.name)?;
    }
    Ok(())
}

/// The clauses of a procedure.
#[tactic(auto, unfolding(crate::specs::Declarations::clauses_fault))]
pub(crate) fn clauses<'a>(
    scope: &Scope<'_, 'a>,
    locals: &mut Locals<'a>,
    list: &'a [Clause],
) -> Result<(), Stop>
    ensures judged { Judges result (clauses_fault (view scope.now) (names locals.old).known false false (map clause_tree list.now)) }
    ensures kept { OnOk result (names locals.new ≡ names locals.old) }
{
    let mut has_stack = false;
    let mut has_abi = false;
    for clause in list {
        match clause {
            Clause::Reads(_, places) => read(scope, locals, places.as_slice())?,
            Clause::Modifies(_, changed) => modified(scope, locals, changed.as_slice())?,
            Clause::Requires(_, e) | Clause::Ensures(_, e) => expr(scope, locals, e)?,
            Clause::Stack(spot, e) => {
                once(has_stack, *spot)?;
                expr(scope, locals, e)?;
                has_stack = true;
            }
            Clause::Abi(spot, _) => {
                once(has_abi, *spot)?;
                has_abi = true;
            }
        }
    }
    Ok(())
}

/// The clauses of a lemma.
#[tactic(auto, unfolding(crate::specs::Declarations::lclauses_fault))]
pub(crate) fn lemma_clauses<'a>(
    scope: &Scope<'_, 'a>,
    locals: &mut Locals<'a>,
    list: &'a [LemmaClause],
) -> Result<(), Stop>
    ensures judged { Judges result (lclauses_fault (view scope.now) (names locals.old).known false (map lclause_tree list.now)) }
    ensures kept { OnOk result (names locals.new ≡ names locals.old) }
{
    let mut has_measure = false;
    for clause in list {
        match clause {
            LemmaClause::Requires(_, e) | LemmaClause::Ensures(_, e) => expr(scope, locals, e)?,
            LemmaClause::Decreases(spot, e) => {
                once(has_measure, *spot)?;
                expr(scope, locals, e)?;
                has_measure = true;
            }
        }
    }
    Ok(())
}
