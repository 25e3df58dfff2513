// What is made of the values of a term's parts.

ghost use Rattle.std.specs.Prelude.{◌≡◌, ◌++◌, ◌∷◌, [], pos, Ok, Err, MatchResult, OnOk, IfErr, map, if◌then◌else◌, ◌&&◌};
ghost use Rattle.term_core.specs.Literals.{literal_value, val_sort};
ghost use Rattle.term_core.specs.Meaning.{last_number, with_last, at_most_0};
ghost use Rattle.term_core.specs.Value.{whole, truth, counted_value, clmul_value, put_value, put_dword_value, bin_value, un_value};
ghost use Rattle.term_value.specs.Evaluation.{checked};
ghost use Rattle.term_value.specs.inner.Courses.{values_of};

use crate::arrays::{put_dword_value, put_value};
use crate::fault::ValueFault;
use crate::literals::{truth, whole};
use crate::operators::{bin_value, clmul_value, counted_value, un_value};
use std::alloc::Global;
use term_core::{BinOp, CountedOp, Literal, UnOp};

/// What was evaluated so far, and what is evaluated next. What is handed through here need not be given back by the caller
/// where evaluation stops, which would make its proof dear.
pub(crate) fn with<A: Drop, B: Drop>(
    sofar: A,
    next: Result<B, ValueFault>,
) -> Result<(A, B), ValueFault>
    ensures { MatchResult result (λ p. (p.0 ≡ sofar) × (next ≡ Ok p.1)) (λ e. next ≡ Err e) }
{
    let next = next?;
    Ok((sofar, next))
}

/// Two values.
pub(crate) type Two = (Literal, Literal);

/// Two values, and one more.
pub(crate) type Three = (Two, Literal);

/// What an operator gives.
pub(crate) fn un(op: UnOp, a: Literal) -> Result<Literal, ValueFault>
    ensures { values_of result ≡ checked (un_value op (val_sort (literal_value a)) (literal_value a)) }
{
    un_value(op, &a)
}

/// What an operator gives of two values.
pub(crate) fn bin(op: BinOp, parts: Two) -> Result<Literal, ValueFault>
    ensures { values_of result ≡ checked (bin_value op (val_sort (literal_value parts.0)) (literal_value parts.0) (literal_value parts.1)) }
{
    let (a, b) = parts;
    bin_value(op, &a, &b)
}

/// What an operator gives with a constant.
pub(crate) fn counted(op: CountedOp, n: u8, a: Literal) -> Literal
    ensures { literal_value result ≡ counted_value op n (literal_value a) }
{
    counted_value(op, n, &a)
}

/// A product without carries.
pub(crate) fn clmul(parts: Two, n: u8) -> Literal
    ensures { literal_value result ≡ clmul_value (literal_value parts.0) (literal_value parts.1) n }
{
    let (a, b) = parts;
    clmul_value(&a, &b, n)
}

/// A choice between two values.
pub(crate) fn choice(parts: Three) -> Literal
    ensures { literal_value result ≡ (if truth (literal_value parts.0.0) then literal_value parts.0.1 else literal_value parts.1) }
{
    let ((c, a), b) = parts;
    if truth(&c) { a } else { b }
}

/// An array with a word replaced.
pub(crate) fn put(alloc: Global, parts: Three) -> Literal
    ensures { literal_value result ≡ put_value (literal_value parts.0.0) (literal_value parts.0.1) (literal_value parts.1) }
{
    let ((x, i), w) = parts;
    put_value(alloc, x, &i, &w)
}

/// An array with half a word replaced.
pub(crate) fn put_dword(alloc: Global, parts: Three) -> Literal
    ensures { literal_value result ≡ put_dword_value (literal_value parts.0.0) (literal_value parts.0.1) (literal_value parts.1) }
{
    let ((x, j), w) = parts;
    put_dword_value(alloc, x, &j, &w)
}

/// Two whole numbers.
pub(crate) fn bounds(parts: Two) -> (i128, i128)
    ensures low { result.0 ≡ whole (literal_value parts.0) }
    ensures high { result.1 ≡ whole (literal_value parts.1) }
{
    let (low, high) = parts;
    (whole(&low), whole(&high))
}

/// Whether what was so far is true, and a value too.
pub(crate) fn and_true(sofar: bool, a: Literal) -> bool
    ensures { result ≡ (sofar && truth (literal_value a)) }
{
    sofar && truth(&a)
}

/// One more value behind others.
pub(crate) fn push(values: &mut Vec<Literal>, value: Literal) -> Result<(), ValueFault>
    ensures ok { OnOk result (values.new.items ≡ values.old.items ++ value ∷ []) }
    ensures fault { IfErr result (λ e. e ≡ ValueFault.NoMemory) }
{
    match values.push(value) {
        Ok(()) => Ok(()),
        Err(_) => Err(ValueFault::NoMemory),
    }
}

/// The last argument, a number.
pub(crate) fn last_number(args: &[Literal]) -> i128
    ensures { result ≡ last_number (map literal_value args.now) }
{
    match args.last() {
        Some(a) => whole(a),
        None => 0,
    }
}

/// The number itself where it is 0 or less, else 0.
pub(crate) fn at_most_0(n: i128) -> i128
    ensures { result ≡ at_most_0 n }
{
    n.min(0)
}

/// Another number as the last argument.
pub(crate) fn set_last(args: &mut [Literal], n: i128)
    ensures { map literal_value args.new ≡ with_last (map literal_value args.old) n }
{
    if let Some(a) = args.last_mut() {
        *a = Literal::Int(n);
    }
}
