// Terms put in place of others.

ghost use Rattle.std.specs.Prelude.{◌≡◌, ◌<◌, length, IfOk};
ghost use Rattle.term_store.specs.Numbers.{term_at, Grows};
ghost use Rattle.term_store.specs.Changes.{replace, substitute};

use crate::change::Change;
use crate::node::Node;
use crate::number::TermId;
use crate::parts::copy_text;
use crate::store::TermStore;
use std::alloc::AllocError as NoMemory;
use x64_syntax::{Sort, Text};

impl TermStore {
    /// The number of a term with `to` in place of each part that is `from`. It goes from the root down, and not into what
    /// it has put; under a quantifier it changes nothing where the name is free in `from` or `to`. Earlier numbers keep
    /// their terms, after NoMemory too.
    pub fn replace(&mut self, id: TermId, from: TermId, to: TermId) -> Result<TermId, NoMemory>
        requires id_in { id < length self.old }
        requires from_in { from < length self.old }
        requires to_in { to < length self.old }
        ensures grows { Grows self.old self.new }
        ensures within { IfOk result (λ n. n < length self.new) }
        ensures term { IfOk result (λ n. term_at self.new n ≡ replace (term_at self.old from) (term_at self.old to) (term_at self.old id)) }
    {
        let change = Change {
            from,
            to,
            beside: to,
        };
        self.change(&change, id)
    }

    /// The number of a term with `by` in place of each free variable of that name and sort. No bound name is changed: a
    /// free name of `by` may become bound. Values stay where none does and `by` is of that sort
    /// (`substitution_keeps_values` of `term_subst`). Earlier numbers keep their terms, after NoMemory too.
    pub fn substitute(
        &mut self,
        id: TermId,
        name: &Text,
        sort: Sort,
        by: TermId,
    ) -> Result<TermId, NoMemory>
        requires id_in { id < length self.old }
        requires by_in { by < length self.old }
        ensures grows { Grows self.old self.new }
        ensures within { IfOk result (λ n. n < length self.new) }
        ensures term { IfOk result (λ n. term_at self.new n ≡ substitute name.now sort (term_at self.old by) (term_at self.old id)) }
    {
        let text = copy_text(self.alloc, name)?;
        let from = self.make(Node::Name(text, sort))?;
        let putting = Change {
            from,
            to: by,
            beside: from,
        };
        let put = self.change(&putting, id)?;
        Ok(put)
    }
}
