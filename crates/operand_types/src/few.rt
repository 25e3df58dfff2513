// Terms by how many they are.

ghost use Rattle.operand_types.specs.inner.Walks.{AreFew};

use sqlite_items::Items;
use term_core::Term;

/// One, two or three terms, or another number of them.
#[derive(Drop)]
pub(crate) enum Few {
    One(Term),
    Two(Term, Term),
    Three(Term, Term, Term),
    Other,
}

/// The terms by how many they are.
pub(crate) fn counted(terms: Items<Term>) -> Few
    ensures { AreFew result terms }
{
    let mut terms = terms;
    let Some(last) = terms.pop() else {
        return Few::Other;
    };
    let Some(second) = terms.pop() else {
        return Few::One(last);
    };
    let Some(first) = terms.pop() else {
        return Few::Two(second, last);
    };
    if terms.is_empty() {
        Few::Three(first, second, last)
    } else {
        Few::Other
    }
}
