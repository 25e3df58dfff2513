// Terms and sequents.

ghost use Rattle.std.specs.Prelude.{◌≡◌, map};
ghost use Rattle.term_core.specs.Terms.{tree, tms, tm_eq, tms_eq, tm_sort};

use crate::operator::{BinOp, CountedOp, UnOp};
use sqlite_items::{Boxed, Items};
use x64_syntax::{Sort, Text};

/// A term. A name has its sort with it.
#[derive(Debug, Drop)]
pub enum Term {
    Name(Text, Sort),
    Int(i128),
    W64(u64),
    W128(u128),
    Bool(bool),
    Un(UnOp, Boxed<Term>),
    Bin(BinOp, Boxed<Term>, Boxed<Term>),
    /// `ite(c, a, b)`: a where c is true, else b.
    Ite(Boxed<Term>, Boxed<Term>, Boxed<Term>),
    /// `put(x, i, w)`: x with word i replaced, and x itself where i is outside.
    Put(Boxed<Term>, Boxed<Term>, Boxed<Term>),
    /// `putdword(x, j, w)`: x with half j of its words replaced by the lower half of w, and x itself where j is outside.
    PutDword(Boxed<Term>, Boxed<Term>, Boxed<Term>),
    /// `clmul(a, b, n)`: the product without carries of a word of a and a word of b, which bits 0 and 4 of n choose.
    Clmul(Boxed<Term>, Boxed<Term>, u8),
    /// An operator with its constant, and the term.
    Shift(CountedOp, u8, Boxed<Term>),
    /// A function by its number, the sort of its result, and the arguments.
    Call(u32, Sort, Items<Term>),
    /// `forall(i, lo, hi, p)`: p for each number i from lo to hi, hi left out.
    All(Text, Boxed<Term>, Boxed<Term>, Boxed<Term>),
}

/// Hypotheses and a goal that is to follow from them.
#[derive(Debug, Drop)]
pub struct Sequent {
    pub hyps: Items<Term>,
    pub goal: Term,
}

/// Whether two terms are the same.
#[cycle(same)]
pub fn same(a: &Term, b: &Term) -> bool
    ensures { result ≡ tm_eq (tree a.now) (tree b.now) }
{
    match (a, b) {
        (Term::Name(a, s), Term::Name(b, t)) => a.as_bytes() == b.as_bytes() && s == t,
        (Term::Int(a), Term::Int(b)) => a == b,
        (Term::W64(a), Term::W64(b)) => a == b,
        (Term::W128(a), Term::W128(b)) => a == b,
        (Term::Bool(a), Term::Bool(b)) => a == b,
        (Term::Un(o, a), Term::Un(p, b)) => o.is(*p) && same(a.get(), b.get()),
        (Term::Bin(o, a, b), Term::Bin(p, c, d)) => {
            o.is(*p) && same(a.get(), c.get()) && same(b.get(), d.get())
        }
        (Term::Ite(a, b, c), Term::Ite(d, e, f))
        | (Term::Put(a, b, c), Term::Put(d, e, f))
        | (Term::PutDword(a, b, c), Term::PutDword(d, e, f)) => {
            same(a.get(), d.get()) && same(b.get(), e.get()) && same(c.get(), f.get())
        }
        (Term::Clmul(a, b, m), Term::Clmul(c, d, n)) => {
            m == n && same(a.get(), c.get()) && same(b.get(), d.get())
        }
        (Term::Shift(o, m, a), Term::Shift(p, n, b)) => o.is(*p)
            && m == n
            && same(a.get(), b.get()),
        (Term::Call(f, s, a), Term::Call(g, t, b)) => {
            f == g && s == t && same_all(a.as_slice(), b.as_slice())
        }
        (Term::All(m, a, b, c), Term::All(n, d, e, f)) => {
            m.as_bytes() == n.as_bytes()
                && same(a.get(), d.get())
                && same(b.get(), e.get())
                && same(c.get(), f.get())
        }
        _ => false,
    }
}

#[cycle(same)]
fn same_all(a: &[Term], b: &[Term]) -> bool
    ensures { result ≡ tms_eq (tms (map tree a.now)) (tms (map tree b.now)) }
{
    if a.len() != b.len() {
        return false;
    }
    for k in 0..a.len() {
        if !same(&a[k], &b[k]) {
            return false;
        }
    }
    true
}

/// The sort of a term's value.
pub fn sort_of(t: &Term) -> Sort
    ensures { result ≡ tm_sort (tree t.now) }
{
    match t {
        Term::Name(_, sort) | Term::Call(_, sort, _) => *sort,
        Term::Int(_) => Sort::Int,
        Term::W64(_) => Sort::W64,
        Term::W128(_) | Term::Clmul(_, _, _) => Sort::W128,
        Term::Bool(_) | Term::All(_, _, _, _) => Sort::Bool,
        Term::Un(op, a) => op.sort(sort_of(a.get())),
        Term::Bin(op, a, _) => op.sort(sort_of(a.get())),
        Term::Ite(_, a, _) => sort_of(a.get()),
        Term::Put(_, _, _) | Term::PutDword(_, _, _) => Sort::Arr,
        Term::Shift(op, _, _) => op.sort(),
    }
}
