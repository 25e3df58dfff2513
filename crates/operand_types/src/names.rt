// Names with their sorts.

ghost use Rattle.std.specs.Prelude.{◌≡◌, ℕ, List, Option};
ghost use Rattle.x64_syntax.specs.declared.type_words.Sort.{Sort as ASort};
ghost use Rattle.operand_types.specs.TermIn.{sorts_of};

use term_core::Variable;
use x64_syntax::Sort;

/// Names with their sorts, as a table holds them.
pub trait Names {
    /// The sort of each name, and none where it isn't one of them.
    ghost sorts: { Self → List ℕ → Option ASort };

    /// The sort of a name.
    fn sort_of(&self, name: &[u8]) -> Option<Sort>
        ensures { result ≡ sorts self.now name.now };
}

/// A list of names: where one stands twice, the first counts.
impl<'a> Names for &'a [Variable] {
    ghost sorts = { λ list. sorts_of list.now };

    fn sort_of(&self, name: &[u8]) -> Option<Sort> {
        let list: &[Variable] = self;
        for variable in list {
            if variable.name.as_bytes() == name {
                return Some(variable.sort);
            }
        }
        None
    }
}
