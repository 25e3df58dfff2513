// Terms made of their parts.

ghost use Rattle.std.specs.Prelude.{◌≡◌, Ok, Err, IfOk, IfErr};

use crate::fault::TermFault;
use sqlite_items::Boxed;
use std::alloc::{AllocError as NoMemory, Global};
use term_core::Term;

/// A term and the one behind it. What is handed through here need not be given back by the caller where the second is
/// missing, which would make its proof dear.
pub(crate) fn two(first: Term, second: Result<Term, TermFault>) -> Result<(Term, Term), TermFault>
    ensures ok { IfOk result (λ p. (p.0 ≡ first) × (second ≡ Ok p.1)) }
    ensures err { IfErr result (λ e. second ≡ Err e) }
{
    let second = second?;
    Ok((first, second))
}

/// Two terms and the one behind them.
pub(crate) fn three(
    front: (Term, Term),
    third: Result<Term, TermFault>,
) -> Result<(Term, Term, Term), TermFault>
    ensures ok { IfOk result (λ p. (p.0 ≡ front.0) × (p.1 ≡ front.1) × (third ≡ Ok p.2)) }
    ensures err { IfErr result (λ e. third ≡ Err e) }
{
    let third = third?;
    let (first, second) = front;
    Ok((first, second, third))
}

/// A part of a term.
pub(crate) type Part = Boxed<Term>;

/// What was made so far, and what is made next.
pub(crate) fn with<A: Drop, B: Drop>(
    sofar: A,
    next: Result<B, NoMemory>,
) -> Result<(A, B), NoMemory>
    ensures { IfOk result (λ p. (p.0 ≡ sofar) × (next ≡ Ok p.1)) }
{
    let next = next?;
    Ok((sofar, next))
}

fn part(alloc: Global, t: Term) -> Result<Part, NoMemory>
    ensures { IfOk result (λ p. p ≡ t) }
{
    Boxed::new(alloc, t)
}

/// Two parts.
pub(crate) fn two_parts(alloc: Global, a: Term, b: Term) -> Result<(Part, Part), NoMemory>
    ensures { IfOk result (λ p. (p.0 ≡ a) × (p.1 ≡ b)) }
{
    let (b, a) = with(b, part(alloc, a))?;
    with(a, part(alloc, b))
}

/// Three parts.
pub(crate) fn three_parts(
    alloc: Global,
    a: Term,
    b: Term,
    c: Term,
) -> Result<(Part, Part, Part), NoMemory>
    ensures { IfOk result (λ p. (p.0 ≡ a) × (p.1 ≡ b) × (p.2 ≡ c)) }
{
    let (c, front) = with(c, two_parts(alloc, a, b))?;
    let (front, c) = with(front, part(alloc, c))?;
    let (a, b) = front;
    Ok((a, b, c))
}
