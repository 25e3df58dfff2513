// Boxed terms put into the store, and made from it.

ghost use Rattle.std.specs.Prelude.{◌≡◌, ◌<◌, length, map, IfOk};
ghost use Rattle.term_core.specs.Terms.{tree};
ghost use Rattle.term_store.specs.Numbers.{term_at, EachBelow, Grows};

use crate::node::Node;
use crate::number::{Parts, TermId};
use crate::parts::{copy_text, part, quantifier, three, two};
use crate::store::TermStore;
use sqlite_items::Items;
use std::alloc::AllocError as NoMemory;
use term_core::Term;

impl TermStore {
    /// The number of a term. Earlier numbers keep their terms, after NoMemory too.
    #[cycle(put)]
    pub fn put(&mut self, t: &Term) -> Result<TermId, NoMemory>
        ensures grows { Grows self.old self.new }
        ensures within { IfOk result (λ id. id < length self.new) }
        ensures term { IfOk result (λ id. term_at self.new id ≡ tree t.now) }
    {
        match t {
            Term::Name(text, sort) => {
                let text = copy_text(self.alloc, text)?;
                self.make(Node::Name(text, *sort))
            }
            Term::Int(z) => self.make(Node::Int(*z)),
            Term::W64(n) => self.make(Node::W64(*n)),
            Term::W128(n) => self.make(Node::W128(*n)),
            Term::Bool(b) => self.make(Node::Bool(*b)),
            Term::Un(op, a) => {
                let a = self.put(a.get())?;
                self.make(Node::Un(*op, a))
            }
            Term::Shift(op, n, a) => {
                let a = self.put(a.get())?;
                self.make(Node::Shift(*op, *n, a))
            }
            Term::Bin(op, a, b) => {
                let a = self.put(a.get())?;
                let b = self.put(b.get())?;
                self.make(Node::Bin(*op, a, b))
            }
            Term::Clmul(a, b, n) => {
                let a = self.put(a.get())?;
                let b = self.put(b.get())?;
                self.make(Node::Clmul(a, b, *n))
            }
            Term::Ite(c, a, b) => {
                let c = self.put(c.get())?;
                let a = self.put(a.get())?;
                let b = self.put(b.get())?;
                self.make(Node::Ite(c, a, b))
            }
            Term::Put(x, i, w) => {
                let x = self.put(x.get())?;
                let i = self.put(i.get())?;
                let w = self.put(w.get())?;
                self.make(Node::Put(x, i, w))
            }
            Term::PutDword(x, j, w) => {
                let x = self.put(x.get())?;
                let j = self.put(j.get())?;
                let w = self.put(w.get())?;
                self.make(Node::PutDword(x, j, w))
            }
            Term::Call(f, sort, args) => {
                let args = self.put_all(args.as_slice())?;
                self.make(Node::Call(*f, *sort, args))
            }
            Term::All(text, low, high, body) => {
                let low = self.put(low.get())?;
                let high = self.put(high.get())?;
                let body = self.put(body.get())?;
                let text = copy_text(self.alloc, text)?;
                self.make(Node::All(text, low, high, body))
            }
        }
    }

    #[cycle(put)]
    fn put_all(&mut self, terms: &[Term]) -> Result<Parts, NoMemory>
        ensures grows { Grows self.old self.new }
        ensures within { IfOk result (EachBelow (length self.new)) }
        ensures terms { IfOk result (λ ids. map (term_at self.new) ids ≡ map tree terms.now) }
    {
        let mut ids = Parts::new(self.alloc);
        for k in 0..terms.len() {
            let id = self.put(&terms[k])?;
            ids.push(id)?;
        }
        Ok(ids)
    }

    /// The term that a number stands for.
    #[cycle(tree)]
    pub fn tree(&self, id: TermId) -> Result<Term, NoMemory>
        requires { id < length self.now }
        ensures { IfOk result (λ t. tree t ≡ term_at self.now id) }
    {
        let alloc = self.alloc;
        match self.node(id) {
            Node::Name(text, sort) => Ok(Term::Name(copy_text(alloc, text)?, *sort)),
            Node::Int(z) => Ok(Term::Int(*z)),
            Node::W64(n) => Ok(Term::W64(*n)),
            Node::W128(n) => Ok(Term::W128(*n)),
            Node::Bool(b) => Ok(Term::Bool(*b)),
            Node::Un(op, a) => Ok(Term::Un(*op, part(alloc, self.tree(*a))?)),
            Node::Shift(op, n, a) => Ok(Term::Shift(*op, *n, part(alloc, self.tree(*a))?)),
            Node::Bin(op, a, b) => {
                let a = part(alloc, self.tree(*a))?;
                let (a, b) = two(alloc, a, self.tree(*b))?;
                Ok(Term::Bin(*op, a, b))
            }
            Node::Clmul(a, b, n) => {
                let a = part(alloc, self.tree(*a))?;
                let (a, b) = two(alloc, a, self.tree(*b))?;
                Ok(Term::Clmul(a, b, *n))
            }
            Node::Ite(a, b, c) => {
                let a = part(alloc, self.tree(*a))?;
                let front = two(alloc, a, self.tree(*b))?;
                let (a, b, c) = three(alloc, front, self.tree(*c))?;
                Ok(Term::Ite(a, b, c))
            }
            Node::Put(a, b, c) => {
                let a = part(alloc, self.tree(*a))?;
                let front = two(alloc, a, self.tree(*b))?;
                let (a, b, c) = three(alloc, front, self.tree(*c))?;
                Ok(Term::Put(a, b, c))
            }
            Node::PutDword(a, b, c) => {
                let a = part(alloc, self.tree(*a))?;
                let front = two(alloc, a, self.tree(*b))?;
                let (a, b, c) = three(alloc, front, self.tree(*c))?;
                Ok(Term::PutDword(a, b, c))
            }
            Node::Call(f, sort, ids) => {
                Ok(Term::Call(*f, *sort, self.trees(id, ids.as_slice())?))
            }
            Node::All(text, low, high, body) => {
                let low = part(alloc, self.tree(*low))?;
                let front = two(alloc, low, self.tree(*high))?;
                let parts = three(alloc, front, self.tree(*body))?;
                quantifier(alloc, text, parts)
            }
        }
    }

    // The terms of arguments, whose numbers are below that of the call.
    #[cycle(tree)]
    fn trees(&self, call: TermId, ids: &[TermId]) -> Result<Items<Term>, NoMemory>
        requires within { call < length self.now }
        requires below { EachBelow call ids.now }
        ensures { IfOk result (λ ts. map tree ts ≡ map (term_at self.now) ids.now) }
    {
        let mut terms = Items::new(self.alloc);
        for k in 0..ids.len() {
            terms.push(self.tree(ids[k])?)?;
        }
        Ok(terms)
    }
}
