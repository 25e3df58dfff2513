// Calls of functions unfolded.

ghost use Rattle.std.specs.Prelude.{◌≡◌, true, length, map, pos, IfOk, Some};
ghost use Rattle.term_core.specs.declared.operator.BinOp.TheVariants as bin;
ghost use Rattle.term_core.specs.Terms.{tree, tms};
ghost use Rattle.term_core.specs.Terms as tm;
ghost use Rattle.term_core.specs.Functions.{function, functions};
ghost use Rattle.term_core.specs.Sorted.{well_sorted};
ghost use Rattle.term_subst.specs.Substituted.{with_images};
ghost use Rattle.term_subst.specs.Unfolded.{argument_of, or_previous, last_argument, with_one_less, step_images, unfolded_by, unfolded, is_call};
ghost use Rattle.term_subst.specs.inner.Walks.{images_of};

use crate::copies::{copy, copy_all};
use crate::images::{Image, Images};
use crate::parts::{part, three, two};
use sqlite_items::{Boxed, Items};
use std::alloc::{AllocError as NoMemory, Global};
use term_core::{BinOp, Fun, Funs, Term, Variable};

// For each parameter its argument.
fn arguments<'a>(
    alloc: Global,
    params: &'a [Variable],
    args: &'a [Term],
) -> Result<Images<'a>, NoMemory>
    requires { length args.now ≡ length params.now }
    ensures { IfOk result (λ r. images_of r.images.items ≡ argument_of params.now (tms (map tree args.now))) }
{
    let mut images = Images::new(alloc);
    for k in (0..params.len()).rev() {
        let param = &params[k];
        images.push(Image {
            name: param.name.as_bytes(),
            sort: param.sort,
            term: Some(&args[k]),
        })?;
    }
    Ok(images)
}

// A term of a function with the arguments in place of the parameters.
fn with_arguments(
    alloc: Global,
    params: &[Variable],
    args: &[Term],
    t: &Term,
) -> Result<Term, NoMemory>
    requires { length args.now ≡ length params.now }
    ensures { IfOk result (λ r. tree r ≡ with_images (argument_of params.now (tms (map tree args.now))) (tree t.now)) }
{
    let mut images = arguments(alloc, params, args)?;
    images.put(t)
}

fn binary(alloc: Global, op: BinOp, a: Term, b: Term) -> Result<Term, NoMemory>
    ensures { IfOk result (λ t. tree t ≡ tm.Bin op (tree a) (tree b)) }
{
    let (a, b) = two(alloc, Boxed::new(alloc, a)?, Ok(b))?;
    Ok(Term::Bin(op, a, b))
}

// The last argument.
fn last_argument(alloc: Global, args: &[Term]) -> Result<Term, NoMemory>
    ensures { IfOk result (λ t. tree t ≡ last_argument (tms (map tree args.now))) }
{
    match args {
        [] => Ok(Term::Int(0)),
        [.., last] => copy(alloc, last),
    }
}

// Whether the last argument is 0 or less.
fn is_at_zero(alloc: Global, args: &[Term]) -> Result<Term, NoMemory>
    ensures { IfOk result (λ t. tree t ≡ tm.Bin bin.Le (last_argument (tms (map tree args.now))) (tm.Int (pos 0))) }
{
    let last = last_argument(alloc, args)?;
    binary(alloc, BinOp::Le, last, Term::Int(0))
}

// The arguments with one less in place of the last one.
fn with_one_less(alloc: Global, args: &[Term]) -> Result<Items<Term>, NoMemory>
    ensures { IfOk result (λ r. tms (map tree r) ≡ with_one_less (tms (map tree args.now))) }
{
    match args {
        [] => Ok(Items::new(alloc)),
        [front @ .., last] => {
            let mut made = copy_all(alloc, front)?;
            made.push(one_less(alloc, last)?)?;
            Ok(made)
        }
    }
}

fn one_less(alloc: Global, t: &Term) -> Result<Term, NoMemory>
    ensures { IfOk result (λ r. tree r ≡ tm.Bin bin.Sub (tree t.now) (tm.Int (pos 1))) }
{
    let t = copy(alloc, t)?;
    binary(alloc, BinOp::Sub, t, Term::Int(1))
}

// The body of a recursive function with the arguments in place of the parameters and the call in place of `prev`.
fn with_call(alloc: Global, f: &Fun, args: &[Term], call: &Term) -> Result<Term, NoMemory>
    requires { length args.now ≡ length f.now.params }
    ensures { IfOk result (λ r. tree r ≡ with_images (or_previous f.now.result (tree call.now) (argument_of f.now.params (tms (map tree args.now)))) (tree f.now.body)) }
{
    let mut images = arguments(alloc, f.params.as_slice(), args)?;
    images.push(Image {
        name: b"prev",
        sort: f.result,
        term: Some(call),
    })?;
    images.put(&f.body)
}

// The same with the call of function k with one less.
fn step(alloc: Global, f: &Fun, k: u32, args: &[Term]) -> Result<Term, NoMemory>
    requires { length args.now ≡ length f.now.params }
    ensures { IfOk result (λ r. tree r ≡ with_images (step_images (function f.now) k (tms (map tree args.now))) (tree f.now.body)) }
{
    let call = Term::Call(k, f.result, with_one_less(alloc, args)?);
    with_call(alloc, f, args, &call)
}

fn unfold_recursive(
    alloc: Global,
    f: &Fun,
    zero_part: &Term,
    k: u32,
    args: &[Term],
) -> Result<Term, NoMemory>
    requires { length args.now ≡ length f.now.params }
    ensures { IfOk result (λ r. tree r ≡ unfolded_by (function f.now) k (tms (map tree args.now)) (Some (tree zero_part.now))) }
{
    let test = part(alloc, is_at_zero(alloc, args))?;
    let front = two(
        alloc,
        test,
        with_arguments(alloc, f.params.as_slice(), args, zero_part),
    )?;
    let (test, zero, body) = three(alloc, front, step(alloc, f, k, args))?;
    Ok(Term::Ite(test, zero, body))
}

fn unfold_by(alloc: Global, f: &Fun, k: u32, args: &[Term]) -> Result<Term, NoMemory>
    requires { length args.now ≡ length f.now.params }
    ensures { IfOk result (λ r. tree r ≡ unfolded_by (function f.now) k (tms (map tree args.now)) (function f.now).zero_part) }
{
    match &f.zero_part {
        Some(zero_part) => unfold_recursive(alloc, f, zero_part, k, args),
        None => with_arguments(alloc, f.params.as_slice(), args, &f.body),
    }
}

/// A call with what its function is made of in its place: its body with the arguments in place of the parameters. A call
/// of a recursive function, with the last argument n, becomes `ite((n <= 0), zero, step)`, with the call for `n - 1` in
/// place of `prev`. Values stay where no free name of the arguments is bound in the function's parts
/// (`unfolding_keeps_values`).
pub fn unfold(alloc: Global, f: &Funs, call: &Term) -> Result<Term, NoMemory>
    requires call { is_call (tree call.now) ≡ true }
    requires fits { well_sorted (functions f.now) (tree call.now) ≡ true }
    ensures { IfOk result (λ r. unfolded (functions f.now) (tree call.now) ≡ Some (tree r)) }
{
    match call {
        Term::Call(k, _, args) => {
            unfold_by(alloc, &f.as_slice()[*k as usize], *k, args.as_slice())
        }
        _ => unreachable!(),
    }
}
