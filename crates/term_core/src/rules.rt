// The rules that functions obey.

ghost use Rattle.std.specs.Prelude.{◌≡◌, ◌&&◌, ◌||◌, is_none};
ghost use Rattle.std.specs.List.{list_any};
ghost use Rattle.std.specs.Str.{bytes_eq};
ghost use Rattle.x64_syntax.specs.Words.{built_in_of};
ghost use Rattle.term_core.specs.Functions.{function, functions};
ghost use Rattle.term_core.specs.Rules.{broken_rule, first_broken, has_name, names_differ, last_is_number, holds_of, free_all, is_param, is_in_body, prev};
ghost use Rattle.term_core.specs.Sorted.{is_sorted};
ghost use Rattle.term_core.specs.Terms.{tree};

use crate::functions::{BrokenRule, Fun, Variable};
use crate::scope::{Scope, knows_free};
use crate::sorted::is_sorted;
use crate::term::Term;
use x64_syntax::{Sort, Text, built_in_named};

// The name of a recursive function's value at one less.
pub(crate) const PREV: &[u8] = b"prev";

/// The first rule that a function breaks behind earlier ones.
pub fn broken_rule(earlier: &[Fun], fun: &Fun) -> Option<BrokenRule>
    ensures { result ≡ broken_rule (functions earlier.now) (function fun.now) }
{
    let params = fun.params.as_slice();
    first_broken(&[
        (is_free_name(&fun.name), BrokenRule::BuiltIn),
        (!is_taken(earlier, &fun.name), BrokenRule::NameTwice),
        (names_differ(params), BrokenRule::ParamTwice),
        (!has_name(params, PREV), BrokenRule::ParamPrev),
        (is_last_number(fun), BrokenRule::LastParam),
        (are_parts_sorted(earlier, fun), BrokenRule::Sorts),
        (knows_parts(fun), BrokenRule::FreeName),
    ])
}

fn first_broken(rules: &[(bool, BrokenRule)]) -> Option<BrokenRule>
    ensures { result ≡ first_broken rules.now }
{
    for k in 0..rules.len() {
        let (holds, rule) = rules[k];
        if !holds {
            return Some(rule);
        }
    }
    None
}

// The name is no built-in one.
fn is_free_name(name: &Text) -> bool
    ensures { result ≡ is_none (built_in_of name.now) }
{
    match built_in_named(name.as_bytes()) {
        Some(_) => false,
        None => true,
    }
}

// One of the functions has the name.
fn is_taken(funs: &[Fun], name: &Text) -> bool
    ensures { result ≡ list_any (λ f. bytes_eq f.name name.now) funs.now }
{
    funs.iter().any(|f| f.name.as_bytes() == name.as_bytes())
}

// One of the variables has the name.
fn has_name(variables: &[Variable], name: &[u8]) -> bool
    ensures { result ≡ list_any (has_name name.now) variables.now }
{
    variables.iter().any(|v| v.name.as_bytes() == name)
}

fn names_differ(variables: &[Variable]) -> bool
    ensures { result ≡ names_differ variables.now }
{
    for k in 0..variables.len() {
        if has_name(&variables[k + 1..], variables[k].name.as_bytes()) {
            return false;
        }
    }
    true
}

fn last_is_number(variables: &[Variable]) -> bool
    ensures { result ≡ last_is_number variables.now }
{
    match variables.last() {
        Some(last) => last.sort == Sort::Int,
        None => false,
    }
}

// The last parameter of a recursive function is a number.
fn is_last_number(fun: &Fun) -> bool
    ensures { result ≡ (is_none (function fun.now).zero_part || last_is_number fun.now.params) }
{
    match &fun.zero_part {
        Some(_) => last_is_number(fun.params.as_slice()),
        None => true,
    }
}

// The body is of the function's sort, and so is the zero part, where there is one.
fn are_parts_sorted(earlier: &[Fun], fun: &Fun) -> bool
    ensures { result ≡ (holds_of (is_sorted (functions earlier.now) fun.now.result) (function fun.now).zero_part && is_sorted (functions earlier.now) fun.now.result (function fun.now).body) }
{
    let is_zero_part = match &fun.zero_part {
        Some(part) => is_sorted(part, fun.result, earlier),
        None => true,
    };
    is_zero_part && is_sorted(&fun.body, fun.result, earlier)
}

// The free names of the zero part are parameters.
#[tactic(auto, using(crate::proofs::Scoping::in_params))]
fn knows_zero_part(fun: &Fun) -> bool
    ensures { result ≡ holds_of (free_all (is_param (function fun.now))) (function fun.now).zero_part }
{
    match &fun.zero_part {
        Some(part) => knows_free(part, &Scope::Params(fun.params.as_slice())),
        None => true,
    }
}

// The free names of the body are parameters or, in a recursive function, `prev`.
#[tactic(auto, using(crate::proofs::Scoping::in_params, crate::proofs::Scoping::in_bound))]
fn knows_body(fun: &Fun) -> bool
    ensures { result ≡ free_all (is_in_body (function fun.now) (function fun.now).zero_part) (function fun.now).body }
{
    let params = Scope::Params(fun.params.as_slice());
    match &fun.zero_part {
        Some(_) => knows_free(&fun.body, &Scope::Bound(PREV, fun.result, &params)),
        None => knows_free(&fun.body, &params),
    }
}

// The free names of both parts are known.
fn knows_parts(fun: &Fun) -> bool
    ensures { result ≡ (holds_of (free_all (is_param (function fun.now))) (function fun.now).zero_part && free_all (is_in_body (function fun.now) (function fun.now).zero_part) (function fun.now).body) }
{
    knows_zero_part(fun) && knows_body(fun)
}
