// The names that are known where a term stands.

ghost use Rattle.std.specs.Prelude.{◌≡◌, ◌||◌, map, is_some};
ghost use Rattle.std.specs.List.{list_any};
ghost use Rattle.term_core.specs.Literals.{entry_value};
ghost use Rattle.term_core.specs.Rules.{free_all, all_free_all, is_variable, is_bound};
ghost use Rattle.term_core.specs.Terms.{tree, tms};
ghost use Rattle.term_core.specs.Scopes.{in_scope};

use crate::functions::Variable;
use crate::literal::{Entry, value_of};
use crate::term::Term;
use x64_syntax::{Sort, Text};

/// Which names are known.
#[derive(Drop)]
pub enum Scope<'a> {
    /// Those of an environment.
    Entries(&'a [Entry]),
    /// The parameters of a function.
    Params(&'a [Variable]),
    /// One more, before others.
    Bound(&'a [u8], Sort, &'a Scope<'a>),
}

// The name is one of the parameters, with their sort.
fn is_param(params: &[Variable], name: &Text, sort: Sort) -> bool
    ensures { result ≡ list_any (λ v. is_variable v name.now sort) params.now }
{
    params
        .iter()
        .any(|p| p.name.as_bytes() == name.as_bytes() && p.sort == sort)
}

// The name is known with the sort.
fn knows(scope: &Scope, name: &Text, sort: Sort) -> bool
    ensures { result ≡ in_scope scope.now name.now sort }
{
    match scope {
        Scope::Entries(entries) => value_of(entries, name, sort).is_some(),
        Scope::Params(params) => is_param(params, name, sort),
        Scope::Bound(bound, of, outer) => {
            *bound == name.as_bytes() && *of == sort || knows(outer, name, sort)
        }
    }
}

/// Whether each free name of a term is known.
#[cycle(knows_all)]
pub fn knows_free(t: &Term, scope: &Scope) -> bool
    ensures { result ≡ free_all (in_scope scope.now) (tree t.now) }
{
    match t {
        Term::Name(name, sort) => knows(scope, name, *sort),
        Term::Int(_) | Term::W64(_) | Term::W128(_) | Term::Bool(_) => true,
        Term::Un(_, a) | Term::Shift(_, _, a) => knows_free(a.get(), scope),
        Term::Bin(_, a, b) | Term::Clmul(a, b, _) => {
            knows_free(a.get(), scope) && knows_free(b.get(), scope)
        }
        Term::Ite(a, b, c) | Term::Put(a, b, c) | Term::PutDword(a, b, c) => {
            knows_free(a.get(), scope) && knows_free(b.get(), scope) && knows_free(c.get(), scope)
        }
        Term::Call(_, _, args) => knows_each(args.as_slice(), scope),
        Term::All(name, low, high, body) => {
            knows_free(low.get(), scope)
                && knows_free(high.get(), scope)
                && knows_bound(body.get(), name, scope)
        }
    }
}

// Each free name of a term under a quantifier is known.
#[cycle(knows_all)]
#[tactic(auto, using(crate::proofs::Scoping::in_bound))]
fn knows_bound(t: &Term, name: &Text, scope: &Scope) -> bool
    ensures { result ≡ free_all (λ text s. is_bound name.now text s || in_scope scope.now text s) (tree t.now) }
{
    knows_free(t, &Scope::Bound(name.as_bytes(), Sort::Int, &*scope))
}

#[cycle(knows_all)]
fn knows_each(terms: &[Term], scope: &Scope) -> bool
    ensures { result ≡ all_free_all (in_scope scope.now) (tms (map tree terms.now)) }
{
    for k in 0..terms.len() {
        if !knows_free(&terms[k], scope) {
            return false;
        }
    }
    true
}
