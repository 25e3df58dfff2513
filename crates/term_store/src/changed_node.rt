// A node with its parts changed.

ghost use Rattle.std.specs.Prelude.{◌≡◌, ◌<◌, length, map, IfOk, OnOk, IfSome, All, if◌then◌else◌};
ghost use Rattle.term_store.specs.Numbers.{term_at, EachBelow, PartsBelow, assemble};
ghost use Rattle.term_store.specs.inner.Changing.{FitsBelow, goes_under, changed, over, Right};

use crate::change::Change;
use crate::node::Node;
use crate::number::{Parts, TermId};
use crate::parts::copy_text;
use crate::store::TermStore;
use indexmap::IndexMap;
use std::alloc::AllocError as NoMemory;
use x64_syntax::{Sort, Text};

impl TermStore {
    // Whether the change goes under a quantifier over the name.
    fn goes_under(&self, change: &Change, name: &Text) -> Result<bool, NoMemory>
        requires { FitsBelow (length self.now) change.now }
        ensures { IfOk result (λ b. b ≡ goes_under self.now change.now name.now) }
    {
        let bound = self.is_free(name, Sort::Int, change.from)?
            || self.is_free(name, Sort::Int, change.beside)?;
        Ok(!bound)
    }

    fn known_two(
        &self,
        memo: &IndexMap<TermId, TermId>,
        change: &Change,
        a: TermId,
        b: TermId,
    ) -> Option<(TermId, TermId)>
        requires { Right self.now change.now memo.now }
        ensures within { IfSome result (λ p. (p.0 < length self.now) × (p.1 < length self.now)) }
        ensures first { IfSome result (λ p. term_at self.now p.0 ≡ changed self.now change.now (term_at self.now a)) }
        ensures second { IfSome result (λ p. term_at self.now p.1 ≡ changed self.now change.now (term_at self.now b)) }
    {
        let a = self.known(memo, change, a)?;
        let b = self.known(memo, change, b)?;
        Some((a, b))
    }

    fn known_three(
        &self,
        memo: &IndexMap<TermId, TermId>,
        change: &Change,
        a: TermId,
        b: TermId,
        c: TermId,
    ) -> Option<(TermId, TermId, TermId)>
        requires { Right self.now change.now memo.now }
        ensures within { IfSome result (λ p. (p.0 < length self.now) × (p.1 < length self.now) × (p.2 < length self.now)) }
        ensures first { IfSome result (λ p. term_at self.now p.0 ≡ changed self.now change.now (term_at self.now a)) }
        ensures second { IfSome result (λ p. term_at self.now p.1 ≡ changed self.now change.now (term_at self.now b)) }
        ensures third { IfSome result (λ p. term_at self.now p.2 ≡ changed self.now change.now (term_at self.now c)) }
    {
        let (a, b) = self.known_two(memo, change, a, b)?;
        let c = self.known(memo, change, c)?;
        Some((a, b, c))
    }

    // What a quantifier is over, changed only where the change goes under it.
    fn known_under(
        &self,
        memo: &IndexMap<TermId, TermId>,
        change: &Change,
        under: bool,
        body: TermId,
    ) -> Option<TermId>
        requires within { body < length self.now }
        requires right { Right self.now change.now memo.now }
        ensures within { IfSome result (λ n. n < length self.now) }
        ensures term { IfSome result (λ n. term_at self.now n ≡ (if under then changed self.now change.now (term_at self.now body) else term_at self.now body)) }
    {
        if under {
            self.known(memo, change, body)
        } else {
            Some(body)
        }
    }

    /// The node with its parts changed, where they are known.
    pub(crate) fn changed_node(
        &self,
        memo: &IndexMap<TermId, TermId>,
        change: &Change,
        at: TermId,
    ) -> Result<Option<Node>, NoMemory>
        requires within { at < length self.now }
        requires fits { FitsBelow (length self.now) change.now }
        requires right { Right self.now change.now memo.now }
        ensures within { IfOk result (λ o. IfSome o (PartsBelow (length self.now))) }
        ensures term { IfOk result (λ o. IfSome o (λ n. assemble (term_at self.now) n ≡ over (changed self.now change.now) (goes_under self.now change.now) (term_at self.now at))) }
    {
        match self.node(at) {
            Node::Name(text, sort) => Ok(Some(Node::Name(copy_text(self.alloc, text)?, *sort))),
            Node::Int(z) => Ok(Some(Node::Int(*z))),
            Node::W64(n) => Ok(Some(Node::W64(*n))),
            Node::W128(n) => Ok(Some(Node::W128(*n))),
            Node::Bool(b) => Ok(Some(Node::Bool(*b))),
            Node::Un(op, a) => {
                let Some(a) = self.known(memo, change, *a) else {
                    return Ok(None);
                };
                Ok(Some(Node::Un(*op, a)))
            }
            Node::Shift(op, n, a) => {
                let Some(a) = self.known(memo, change, *a) else {
                    return Ok(None);
                };
                Ok(Some(Node::Shift(*op, *n, a)))
            }
            Node::Bin(op, a, b) => {
                let Some((a, b)) = self.known_two(memo, change, *a, *b) else {
                    return Ok(None);
                };
                Ok(Some(Node::Bin(*op, a, b)))
            }
            Node::Clmul(a, b, n) => {
                let Some((a, b)) = self.known_two(memo, change, *a, *b) else {
                    return Ok(None);
                };
                Ok(Some(Node::Clmul(a, b, *n)))
            }
            Node::Ite(c, a, b) => {
                let Some((c, a, b)) = self.known_three(memo, change, *c, *a, *b) else {
                    return Ok(None);
                };
                Ok(Some(Node::Ite(c, a, b)))
            }
            Node::Put(x, i, w) => {
                let Some((x, i, w)) = self.known_three(memo, change, *x, *i, *w) else {
                    return Ok(None);
                };
                Ok(Some(Node::Put(x, i, w)))
            }
            Node::PutDword(x, j, w) => {
                let Some((x, j, w)) = self.known_three(memo, change, *x, *j, *w) else {
                    return Ok(None);
                };
                Ok(Some(Node::PutDword(x, j, w)))
            }
            Node::Call(f, sort, ids) => {
                let Some(ids) = self.all_known(memo, change, ids.as_slice())? else {
                    return Ok(None);
                };
                Ok(Some(Node::Call(*f, *sort, ids)))
            }
            Node::All(text, low, high, body) => {
                let under = self.goes_under(change, text)?;
                let Some((low, high)) = self.known_two(memo, change, *low, *high) else {
                    return Ok(None);
                };
                let Some(body) = self.known_under(memo, change, under, *body) else {
                    return Ok(None);
                };
                let text = copy_text(self.alloc, text)?;
                Ok(Some(Node::All(text, low, high, body)))
            }
        }
    }

    // The arguments changed, where they are known.
    fn all_known(
        &self,
        memo: &IndexMap<TermId, TermId>,
        change: &Change,
        ids: &[TermId],
    ) -> Result<Option<Parts>, NoMemory>
        requires { Right self.now change.now memo.now }
        ensures within { IfOk result (λ o. IfSome o (EachBelow (length self.now))) }
        ensures terms { IfOk result (λ o. IfSome o (λ p. map (term_at self.now) p ≡ map (λ i. changed self.now change.now (term_at self.now i)) ids.now)) }
    {
        let mut new = Parts::new(self.alloc);
        for k in 0..ids.len() {
            let Some(part) = self.known(memo, change, ids[k]) else {
                return Ok(None);
            };
            new.push(part)?;
        }
        Ok(Some(new))
    }

    // Puts these numbers, which are below that of the call, on the list.
    fn push_all(
        &self,
        todo: &mut Vec<TermId>,
        _call: TermId,
        ids: &[TermId],
    ) -> Result<(), NoMemory>
        requires within { _call < length self.now }
        requires below { EachBelow _call ids.now }
        requires todo { All (λ i. i < length self.now) todo.old.items }
        ensures { OnOk result (All (λ i. i < length self.now) todo.new.items) }
    {
        todo.extend_from_slice(ids)?;
        Ok(())
    }

    /// Puts the parts that are to be changed on the list.
    pub(crate) fn push_parts(
        &self,
        todo: &mut Vec<TermId>,
        change: &Change,
        at: TermId,
    ) -> Result<(), NoMemory>
        requires within { at < length self.now }
        requires fits { FitsBelow (length self.now) change.now }
        requires todo { All (λ i. i < length self.now) todo.old.items }
        ensures { OnOk result (All (λ i. i < length self.now) todo.new.items) }
    {
        match self.node(at) {
            Node::Name(_, _) | Node::Int(_) | Node::W64(_) | Node::W128(_) | Node::Bool(_) => {}
            Node::Un(_, a) | Node::Shift(_, _, a) => todo.push(*a)?,
            Node::Bin(_, a, b) | Node::Clmul(a, b, _) => {
                todo.push(*a)?;
                todo.push(*b)?;
            }
            Node::Ite(a, b, c) | Node::Put(a, b, c) | Node::PutDword(a, b, c) => {
                todo.push(*a)?;
                todo.push(*b)?;
                todo.push(*c)?;
            }
            Node::Call(_, _, ids) => self.push_all(todo, at, ids.as_slice())?,
            Node::All(text, low, high, body) => {
                todo.push(*low)?;
                todo.push(*high)?;
                if self.goes_under(change, text)? {
                    todo.push(*body)?;
                }
            }
        }
        Ok(())
    }
}
