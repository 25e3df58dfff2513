// Functions by their names.

ghost use Rattle.std.specs.Prelude.{◌≡◌, option_map, map};
ghost use Rattle.term_core.specs.Functions.{functions};
ghost use Rattle.term_core.specs.Sorted.{sorts_eq};
ghost use Rattle.term_core.specs.Terms.{tree, tm_sort};
ghost use Rattle.operand_types.specs.Operations.{function_from};
ghost use Rattle.operand_types.specs.inner.Walks.{view};

use term_core::{Fun, Term, Variable, sort_of};

/// A function and its number.
#[derive(Clone, Copy)]
pub(crate) struct Found<'a> {
    pub(crate) number: u32,
    pub(crate) fun: &'a Fun,
}

/// The first function of the name.
#[tactic(auto, unfolding(crate::specs::Operations::function_from))]
pub(crate) fn function_named<'a>(funs: &'a [Fun], name: &[u8]) -> Option<Found<'a>>
    ensures { option_map view result ≡ function_from 0 (functions funs.now) name.now }
{
    for k in 0..funs.len() {
        let fun = &funs[k];
        if fun.name.as_bytes() == name {
            let number = u32::try_from(k).ok()?;
            return Some(Found { number, fun });
        }
    }
    None
}

/// Whether the arguments have the sorts of the parameters.
#[tactic(auto, using(crate::proofs::Counting::counts_of_calls))]
pub(crate) fn are_fit(args: &[Term], params: &[Variable]) -> bool
    ensures { result ≡ sorts_eq (map tm_sort (map tree args.now)) (map (λ p. p.sort) params.now) }
{
    if args.len() != params.len() {
        return false;
    }
    for k in 0..args.len() {
        if sort_of(&args[k]) != params[k].sort {
            return false;
        }
    }
    true
}
