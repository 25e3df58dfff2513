// Whether terms are well formed.

ghost use Rattle.std.specs.Prelude.{◌≡◌, ◌&&◌, map, option_map, option_copied, slice_get};
ghost use Rattle.x64_syntax.specs.declared.type_words.Sort.{Sort as ASort};
ghost use Rattle.term_core.specs.Functions.{function, functions};
ghost use Rattle.term_core.specs.Operators.{given_if};
ghost use Rattle.term_core.specs.Sorted.{is_sorted};
ghost use Rattle.term_core.specs.inner.Checked.{checked_sort, checked_arguments};
ghost use Rattle.term_core.specs.inner.Uses.{is_the};
ghost use Rattle.term_core.specs.Terms.{tree, tms, tm_sort};

use crate::functions::{Fun, Variable};
use crate::term::Term;
use x64_syntax::Sort;

/// The sort of a term, where each part has the sorts that its operator takes and each call those of its function.
#[cycle(sorted)]
pub(crate) fn checked_sort(t: &Term, funs: &[Fun]) -> Option<Sort>
    ensures { result ≡ checked_sort (functions funs.now) (tree t.now) }
{
    match t {
        Term::Name(_, sort) => Some(*sort),
        Term::Int(_) => Some(Sort::Int),
        Term::W64(_) => Some(Sort::W64),
        Term::W128(_) => Some(Sort::W128),
        Term::Bool(_) => Some(Sort::Bool),
        Term::Un(op, a) => op.result(checked_sort(a.get(), funs)?),
        Term::Bin(op, a, b) => {
            let first = checked_sort(a.get(), funs)?;
            op.result(first, checked_sort(b.get(), funs)?)
        }
        Term::Ite(c, a, b) => {
            let c = checked_sort(c.get(), funs)?;
            let a = checked_sort(a.get(), funs)?;
            let b = checked_sort(b.get(), funs)?;
            given_if(c == Sort::Bool && b == a, a)
        }
        Term::Put(x, i, w) | Term::PutDword(x, i, w) => {
            let x = checked_sort(x.get(), funs)?;
            let i = checked_sort(i.get(), funs)?;
            let w = checked_sort(w.get(), funs)?;
            given_if(
                x == Sort::Arr && i == Sort::Int && w == Sort::W64,
                Sort::Arr,
            )
        }
        Term::Clmul(a, b, _) => {
            let a = checked_sort(a.get(), funs)?;
            let b = checked_sort(b.get(), funs)?;
            given_if(a == Sort::W128 && b == Sort::W128, Sort::W128)
        }
        Term::Shift(op, n, a) => op.result(*n, checked_sort(a.get(), funs)?),
        Term::Call(k, sort, args) => match called(funs, *k) {
            Some(fun) => given_if(
                *sort == fun.result && are_sorted(args.as_slice(), fun.params.as_slice(), funs),
                *sort,
            ),
            None => None,
        },
        Term::All(_, low, high, body) => {
            let low = checked_sort(low.get(), funs)?;
            let high = checked_sort(high.get(), funs)?;
            let body = checked_sort(body.get(), funs)?;
            given_if(
                low == Sort::Int && high == Sort::Int && body == Sort::Bool,
                Sort::Bool,
            )
        }
    }
}

// The function with the number.
#[tactic(auto, using(crate::proofs::Sorting::function_of_number))]
fn called(funs: &[Fun], k: u32) -> Option<&Fun>
    ensures { option_map function (option_copied result) ≡ slice_get (functions funs.now) k }
{
    funs.get(k as usize)
}

fn given_if(takes: bool, sort: Sort) -> Option<Sort>
    ensures { result ≡ given_if takes sort }
{
    if takes { Some(sort) } else { None }
}

// The sort is there, and it is this one.
pub(crate) fn is_the(found: Option<Sort>, sort: Sort) -> bool
    ensures { result ≡ is_the sort found }
{
    match found {
        Some(it) => it == sort,
        None => false,
    }
}

// The terms are arguments for the parameters.
#[cycle(sorted)]
fn are_sorted(args: &[Term], params: &[Variable], funs: &[Fun]) -> bool
    ensures { result ≡ checked_arguments (functions funs.now) params.now (tms (map tree args.now)) }
{
    if args.len() != params.len() {
        return false;
    }
    for k in 0..args.len() {
        if !is_the(checked_sort(&args[k], funs), params[k].sort) {
            return false;
        }
    }
    true
}

/// Whether a term is of the sort, and each part of the sorts that it should be of.
#[tactic(auto, using(crate::proofs::Sorting::checked_is_sorted))]
pub(crate) fn is_sorted(t: &Term, sort: Sort, funs: &[Fun]) -> bool
    ensures { result ≡ is_sorted (functions funs.now) sort (tree t.now) }
{
    is_the(checked_sort(t, funs), sort)
}
