// Terms changed at places, by a walk that keeps its own list of what is left to do, so that no depth of a term fills the
// stack.

ghost use Rattle.std.specs.Prelude.{◌≡◌, ◌<◌, length, IfOk, OnOk, IfSome, All, nat_eq, option_map};
ghost use Rattle.indexmap.specs.IndexMap.{get};
ghost use Rattle.term_store.specs.Numbers.{term_at, Grows};
ghost use Rattle.term_store.specs.Changes.{replaced};
ghost use Rattle.term_store.specs.inner.Changing.{FitsBelow, goes_under, changed, over, Right};

use crate::number::TermId;
use crate::store::TermStore;
use indexmap::IndexMap;
use std::alloc::AllocError as NoMemory;

/// One term put for another, but under a quantifier only where its name is free in neither `from` nor `beside`.
#[derive(Clone, Copy, Debug)]
pub(crate) struct Change {
    pub(crate) from: TermId,
    pub(crate) to: TermId,
    pub(crate) beside: TermId,
}

impl TermStore {
    /// A term changed. Each shared node is made at most once.
    pub(crate) fn change(&mut self, change: &Change, id: TermId) -> Result<TermId, NoMemory>
        requires within { id < length self.old }
        requires fits { FitsBelow (length self.old) change.now }
        ensures grows { Grows self.old self.new }
        ensures within { IfOk result (λ n. n < length self.new) }
        ensures term { IfOk result (λ n. term_at self.new n ≡ changed self.old change.now (term_at self.old id)) }
    {
        let mut memo = IndexMap::new(self.alloc);
        let mut todo = Vec::new(self.alloc);
        for _turn in 0..u64::MAX {
            let Some(at) = todo.pop() else {
                if let Some(new) = self.known(&memo, change, id) {
                    return Ok(new);
                }
                todo.push(id)?;
                continue;
            };
            self.visit(&mut memo, &mut todo, change, at)?;
        }
        Err(NoMemory)
    }

    // What is known of a number.
    pub(crate) fn known(
        &self,
        memo: &IndexMap<TermId, TermId>,
        _change: &Change,
        id: TermId,
    ) -> Option<TermId>
        requires { Right self.now _change.now memo.now }
        ensures within { IfSome result (λ n. n < length self.now) }
        ensures term { IfSome result (λ n. term_at self.now n ≡ changed self.now _change.now (term_at self.now id)) }
    {
        match found(memo, id) {
            Some(new) => Some(new),
            None => None,
        }
    }

    // A number is given its image, or its parts are put before it.
    fn visit(
        &mut self,
        memo: &mut IndexMap<TermId, TermId>,
        todo: &mut Vec<TermId>,
        change: &Change,
        at: TermId,
    ) -> Result<(), NoMemory>
        requires within { at < length self.old }
        requires fits { FitsBelow (length self.old) change.now }
        requires right { Right self.old change.now memo.old }
        requires todo { All (λ i. i < length self.old) todo.old.items }
        ensures grows { Grows self.old self.new }
        ensures right { OnOk result (Right self.new change.now memo.new) }
        ensures todo { OnOk result (All (λ i. i < length self.new) todo.new.items) }
    {
        if self.known(memo, change, at).is_some() {
            return Ok(());
        }
        let Some(new) = self.value(memo, change, at)? else {
            todo.push(at)?;
            self.push_parts(todo, change, at)?;
            return Ok(());
        };
        memo.insert(at, new)?;
        Ok(())
    }

    // The changed term, where what it needs is known.
    fn value(
        &mut self,
        memo: &IndexMap<TermId, TermId>,
        change: &Change,
        at: TermId,
    ) -> Result<Option<TermId>, NoMemory>
        requires within { at < length self.old }
        requires fits { FitsBelow (length self.old) change.now }
        requires right { Right self.old change.now memo.now }
        ensures grows { Grows self.old self.new }
        ensures within { IfOk result (λ o. IfSome o (λ n. n < length self.new)) }
        ensures term { IfOk result (λ o. IfSome o (λ n. term_at self.new n ≡ changed self.old change.now (term_at self.old at))) }
    {
        if let Some(new) = self.image(change, at) {
            return Ok(Some(new));
        }
        let Some(new) = self.rebuilt(memo, change, at)? else {
            return Ok(None);
        };
        Ok(Some(new))
    }

    // What is put for a term as a whole.
    fn image(&self, change: &Change, at: TermId) -> Option<TermId>
        requires within { at < length self.now }
        requires fits { FitsBelow (length self.now) change.now }
        ensures within { IfSome result (λ n. n < length self.now) }
        ensures image { option_map (term_at self.now) result ≡ replaced (term_at self.now change.now.from) (term_at self.now change.now.to) (term_at self.now at) }
    {
        self.distinct();
        if at == change.from {
            Some(change.to)
        } else {
            None
        }
    }

    // The term with its parts changed, where they are known.
    fn rebuilt(
        &mut self,
        memo: &IndexMap<TermId, TermId>,
        change: &Change,
        at: TermId,
    ) -> Result<Option<TermId>, NoMemory>
        requires within { at < length self.old }
        requires fits { FitsBelow (length self.old) change.now }
        requires right { Right self.old change.now memo.now }
        ensures grows { Grows self.old self.new }
        ensures within { IfOk result (λ o. IfSome o (λ n. n < length self.new)) }
        ensures term { IfOk result (λ o. IfSome o (λ n. term_at self.new n ≡ over (changed self.old change.now) (goes_under self.old change.now) (term_at self.old at))) }
    {
        let Some(node) = self.changed_node(memo, change, at)? else {
            return Ok(None);
        };
        let new = self.make(node)?;
        Ok(Some(new))
    }
}

// What the memo has.
fn found(memo: &IndexMap<TermId, TermId>, id: TermId) -> Option<TermId>
    ensures { result ≡ get nat_eq memo.now id }
{
    memo.get(&id).copied()
}
