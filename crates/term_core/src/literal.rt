// Literals, and environments that give them to names.

ghost use Rattle.std.specs.Prelude.{◌≡◌, Option, option_map, option_copied};
ghost use Rattle.term_core.specs.Literals.{literal_sort, literal_value, entry_value};
ghost use Rattle.term_core.specs.declared.literal.Literal.{Literal as ALiteral};

use x64_syntax::{Sort, Text};

/// A value of a term.
#[derive(Debug, Drop)]
pub enum Literal {
    Int(i128),
    Bool(bool),
    W64(u64),
    W128(u128),
    Arr(Vec<u64>),
}

/// A name's value. It is one of the name as a variable of the literal's sort.
#[derive(Debug, Drop)]
pub struct Entry {
    pub name: Text,
    pub value: Literal,
}

impl Literal {
    /// The sort of the literal.
    pub fn sort(&self) -> Sort
        ensures { result ≡ literal_sort self.now }
    {
        match self {
            Literal::Int(_) => Sort::Int,
            Literal::Bool(_) => Sort::Bool,
            Literal::W64(_) => Sort::W64,
            Literal::W128(_) => Sort::W128,
            Literal::Arr(_) => Sort::Arr,
        }
    }
}

/// The value that the first entry of the name and of its sort gives it.
pub fn value_of<'a>(entries: &'a [Entry], name: &Text, sort: Sort) -> Option<&'a Literal>
    ensures { option_map literal_value (option_copied result) ≡ entry_value entries.now name.now sort }
{
    entries
        .iter()
        .find(|e| e.name.as_bytes() == name.as_bytes() && e.value.sort() == sort)
        .map(|e| &e.value)
}
