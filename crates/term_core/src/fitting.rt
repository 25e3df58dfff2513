// Whether sequents fit functions.

ghost use Rattle.std.specs.Prelude.{◌≡◌, ◌∷◌, map, flat_map};
ghost use Rattle.std.specs.List.{list_all};
ghost use Rattle.term_core.specs.Functions.{functions};
ghost use Rattle.term_core.specs.Sorted.{is_sorted, variables, one_sort_each, sequent_fits};
ghost use Rattle.x64_syntax.specs.declared.type_words.Sort.TheVariants as sort;
ghost use Rattle.term_core.specs.Terms.{tree, tms, trees};
ghost use Rattle.term_core.specs.inner.Uses.{first_sort, first_sort_all, first_in, or_else, agrees, all_agree};

use crate::functions::{Fun, Funs};
use crate::sorted::{is_sorted, is_the};
use crate::term::{Sequent, Term};
use x64_syntax::{Sort, Text};

// The sort with which a name stands first in a term.
#[cycle(first)]
fn first_sort(t: &Term, name: &Text) -> Option<Sort>
    ensures { result ≡ first_sort name.now (tree t.now) }
{
    match t {
        Term::Name(text, sort) => {
            if text.as_bytes() == name.as_bytes() {
                return Some(*sort);
            }
            None
        }
        Term::Int(_) | Term::W64(_) | Term::W128(_) | Term::Bool(_) => None,
        Term::Un(_, a) | Term::Shift(_, _, a) => first_sort(a.get(), name),
        Term::Bin(_, a, b) | Term::Clmul(a, b, _) => {
            or_first_sort(first_sort(a.get(), name), b.get(), name)
        }
        Term::Ite(a, b, c) | Term::Put(a, b, c) | Term::PutDword(a, b, c) => {
            let found = or_first_sort(first_sort(a.get(), name), b.get(), name);
            or_first_sort(found, c.get(), name)
        }
        Term::Call(_, _, args) => first_sort_all(args.as_slice(), name),
        Term::All(text, low, high, body) => {
            if text.as_bytes() == name.as_bytes() {
                return Some(Sort::Int);
            }
            let found = or_first_sort(first_sort(low.get(), name), high.get(), name);
            or_first_sort(found, body.get(), name)
        }
    }
}

// What was found, or the sort with which the name stands first in this term.
#[cycle(first)]
fn or_first_sort(found: Option<Sort>, t: &Term, name: &Text) -> Option<Sort>
    ensures { result ≡ or_else found (first_sort name.now (tree t.now)) }
{
    match found {
        Some(sort) => Some(sort),
        None => first_sort(t, name),
    }
}

#[cycle(first)]
fn first_sort_all(terms: &[Term], name: &Text) -> Option<Sort>
    ensures { result ≡ first_sort_all name.now (tms (map tree terms.now)) }
{
    for k in 0..terms.len() {
        let found = first_sort(&terms[k], name);
        if found.is_some() {
            return found;
        }
    }
    None
}

// The sort with which a name stands first in a sequent.
fn first_in(s: &Sequent, name: &Text) -> Option<Sort>
    ensures { result ≡ first_in (trees s.now.hyps) (tree s.now.goal) name.now }
{
    match first_sort(&s.goal, name) {
        Some(sort) => Some(sort),
        None => first_sort_all(s.hyps.as_slice(), name),
    }
}

// Each variable of a term has the sort with which its name stands first in the sequent.
#[cycle(agrees)]
fn agrees(t: &Term, s: &Sequent) -> bool
    ensures { result ≡ agrees (first_in (trees s.now.hyps) (tree s.now.goal)) (tree t.now) }
{
    match t {
        Term::Name(text, sort) => is_the(first_in(s, text), *sort),
        Term::Int(_) | Term::W64(_) | Term::W128(_) | Term::Bool(_) => true,
        Term::Un(_, a) | Term::Shift(_, _, a) => agrees(a.get(), s),
        Term::Bin(_, a, b) | Term::Clmul(a, b, _) => agrees(a.get(), s) && agrees(b.get(), s),
        Term::Ite(a, b, c) | Term::Put(a, b, c) | Term::PutDword(a, b, c) => {
            agrees(a.get(), s) && agrees(b.get(), s) && agrees(c.get(), s)
        }
        Term::Call(_, _, args) => all_agree(args.as_slice(), s),
        Term::All(text, low, high, body) => {
            is_the(first_in(s, text), Sort::Int)
                && agrees(low.get(), s)
                && agrees(high.get(), s)
                && agrees(body.get(), s)
        }
    }
}

#[cycle(agrees)]
fn all_agree(terms: &[Term], s: &Sequent) -> bool
    ensures { result ≡ all_agree (first_in (trees s.now.hyps) (tree s.now.goal)) (tms (map tree terms.now)) }
{
    for k in 0..terms.len() {
        if !agrees(&terms[k], s) {
            return false;
        }
    }
    true
}

// Each name has one sort throughout.
fn has_one_sort_each(s: &Sequent) -> bool
    ensures { result ≡ one_sort_each (flat_map variables (tree s.now.goal ∷ trees s.now.hyps)) }
{
    agrees(&s.goal, s) && all_agree(s.hyps.as_slice(), s)
}

// Each of the terms is a truth, and its parts have the sorts that they should have.
fn all_sorted(terms: &[Term], funs: &[Fun]) -> bool
    ensures { result ≡ list_all (is_sorted (functions funs.now) sort.Bool) (trees terms.now) }
{
    for k in 0..terms.len() {
        if !is_sorted(&terms[k], Sort::Bool, funs) {
            return false;
        }
    }
    true
}

/// Whether a sequent fits the functions: each of its terms is a truth, all parts have the sorts that their operators
/// and functions take, and each name, free or bound, has one sort throughout.
pub fn fits(f: &Funs, s: &Sequent) -> bool
    ensures { result ≡ sequent_fits (functions f.now) (trees s.now.hyps) (tree s.now.goal) }
{
    is_sorted(&s.goal, Sort::Bool, f.as_slice())
        && all_sorted(s.hyps.as_slice(), f.as_slice())
        && has_one_sort_each(s)
}
