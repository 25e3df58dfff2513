// Copies of terms.

ghost use Rattle.std.specs.Prelude.{◌≡◌, IfOk};

use crate::parts::{copy_text, part, quantifier, three, two};
use sqlite_items::Items;
use std::alloc::{AllocError as NoMemory, Global};
use term_core::Term;

/// The same term once more.
#[cycle(copy)]
pub fn copy(alloc: Global, t: &Term) -> Result<Term, NoMemory>
    ensures { IfOk result (λ r. r ≡ t.now) }
{
    match t {
        Term::Name(text, sort) => Ok(Term::Name(copy_text(alloc, text)?, *sort)),
        Term::Int(z) => Ok(Term::Int(*z)),
        Term::W64(n) => Ok(Term::W64(*n)),
        Term::W128(n) => Ok(Term::W128(*n)),
        Term::Bool(b) => Ok(Term::Bool(*b)),
        Term::Un(op, a) => Ok(Term::Un(*op, part(alloc, copy(alloc, a.get()))?)),
        Term::Shift(op, n, a) => Ok(Term::Shift(*op, *n, part(alloc, copy(alloc, a.get()))?)),
        Term::Bin(op, a, b) => {
            let a = part(alloc, copy(alloc, a.get()))?;
            let (a, b) = two(alloc, a, copy(alloc, b.get()))?;
            Ok(Term::Bin(*op, a, b))
        }
        Term::Clmul(a, b, n) => {
            let a = part(alloc, copy(alloc, a.get()))?;
            let (a, b) = two(alloc, a, copy(alloc, b.get()))?;
            Ok(Term::Clmul(a, b, *n))
        }
        Term::Ite(a, b, c) => {
            let a = part(alloc, copy(alloc, a.get()))?;
            let front = two(alloc, a, copy(alloc, b.get()))?;
            let (a, b, c) = three(alloc, front, copy(alloc, c.get()))?;
            Ok(Term::Ite(a, b, c))
        }
        Term::Put(a, b, c) => {
            let a = part(alloc, copy(alloc, a.get()))?;
            let front = two(alloc, a, copy(alloc, b.get()))?;
            let (a, b, c) = three(alloc, front, copy(alloc, c.get()))?;
            Ok(Term::Put(a, b, c))
        }
        Term::PutDword(a, b, c) => {
            let a = part(alloc, copy(alloc, a.get()))?;
            let front = two(alloc, a, copy(alloc, b.get()))?;
            let (a, b, c) = three(alloc, front, copy(alloc, c.get()))?;
            Ok(Term::PutDword(a, b, c))
        }
        Term::Call(k, sort, args) => Ok(Term::Call(*k, *sort, copy_all(alloc, args.as_slice())?)),
        Term::All(name, low, high, body) => {
            let low = part(alloc, copy(alloc, low.get()))?;
            let front = two(alloc, low, copy(alloc, high.get()))?;
            let parts = three(alloc, front, copy(alloc, body.get()))?;
            quantifier(alloc, name, parts)
        }
    }
}

#[cycle(copy)]
pub(crate) fn copy_all(alloc: Global, args: &[Term]) -> Result<Items<Term>, NoMemory>
    ensures { IfOk result (λ r. r ≡ args.now) }
{
    let mut copies = Items::new(alloc);
    for arg in args {
        copies.push(copy(alloc, arg)?)?;
    }
    Ok(copies)
}
