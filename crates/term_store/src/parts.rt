// Terms made of their parts.

ghost use Rattle.std.specs.Prelude.{◌≡◌, Ok, IfOk};
ghost use Rattle.term_core.specs.Terms.{tree};
ghost use Rattle.term_core.specs.Terms as tm;

use sqlite_items::Boxed;
use std::alloc::{AllocError as NoMemory, Global};
use term_core::Term;
use x64_syntax::Text;

/// What was made so far, and what is made next. What is handed through here need not be given back by the caller where
/// memory runs out, which would make its proof dear.
pub(crate) fn with<A: Drop, B: Drop>(
    sofar: A,
    next: Result<B, NoMemory>,
) -> Result<(A, B), NoMemory>
    ensures { IfOk result (λ p. (p.0 ≡ sofar) × (next ≡ Ok p.1)) }
{
    let next = next?;
    Ok((sofar, next))
}

/// A part of a term.
pub(crate) type Part = Boxed<Term>;

/// One part.
pub(crate) fn part(alloc: Global, t: Result<Term, NoMemory>) -> Result<Part, NoMemory>
    ensures { IfOk result (λ p. t ≡ Ok p) }
{
    Boxed::new(alloc, t?)
}

/// A part behind one.
pub(crate) fn two(
    alloc: Global,
    first: Part,
    second: Result<Term, NoMemory>,
) -> Result<(Part, Part), NoMemory>
    ensures { IfOk result (λ p. (p.0 ≡ first) × (second ≡ Ok p.1)) }
{
    with(first, part(alloc, second))
}

/// A part behind two.
pub(crate) fn three(
    alloc: Global,
    front: (Part, Part),
    third: Result<Term, NoMemory>,
) -> Result<(Part, Part, Part), NoMemory>
    ensures { IfOk result (λ p. (p.0 ≡ front.0) × (p.1 ≡ front.1) × (third ≡ Ok p.2)) }
{
    let (front, third) = with(front, part(alloc, third))?;
    let (first, second) = front;
    Ok((first, second, third))
}

/// The same text once more.
pub(crate) fn copy_text(alloc: Global, text: &Text) -> Result<Text, NoMemory>
    ensures { IfOk result (λ t. t ≡ text.now) }
{
    Text::from_slice(alloc, text.as_bytes())
}

/// A quantifier over a name.
pub(crate) fn quantifier(
    alloc: Global,
    name: &Text,
    parts: (Part, Part, Part),
) -> Result<Term, NoMemory>
    ensures same { IfOk result (λ t. t ≡ Term.All name.now parts.0 parts.1 parts.2) }
    ensures alike { IfOk result (λ t. tree t ≡ tm.All name.now (tree parts.0) (tree parts.1) (tree parts.2)) }
{
    let (parts, name) = with(parts, copy_text(alloc, name))?;
    let (low, high, body) = parts;
    Ok(Term::All(name, low, high, body))
}
