// Whether any name is free in a term.

ghost use Rattle.std.specs.Prelude.{◌≡◌, ◌<◌, true, length, All, IfOk, OnOk};
ghost use Rattle.term_store.specs.Numbers.{term_at, EachBelow};
ghost use Rattle.term_store.specs.Free.{has_free_names};
ghost use Rattle.term_store.specs.inner.Walks.{Bare, all_parts, is_free_name};

use crate::free::all_in;
use crate::node::Node;
use crate::number::{Parts, TermId};
use crate::store::TermStore;
use indexmap::IndexSet;
use std::alloc::{AllocError as NoMemory, Global};

fn all_parts(alloc: Global, node: &Node) -> Result<Parts, NoMemory>
    ensures { IfOk result (λ parts. parts ≡ all_parts node.now) }
{
    match node {
        Node::Name(_, _) | Node::Int(_) | Node::W64(_) | Node::W128(_) | Node::Bool(_) => {
            Ok(Parts::new(alloc))
        }
        Node::Un(_, a) | Node::Shift(_, _, a) => Parts::from_slice(alloc, &[*a]),
        Node::Bin(_, a, b) | Node::Clmul(a, b, _) => Parts::from_slice(alloc, &[*a, *b]),
        Node::Ite(a, b, c) | Node::Put(a, b, c) | Node::PutDword(a, b, c) => {
            Parts::from_slice(alloc, &[*a, *b, *c])
        }
        Node::Call(_, _, args) => Parts::from_slice(alloc, args.as_slice()),
        Node::All(_, low, high, body) => Parts::from_slice(alloc, &[*low, *high, *body]),
    }
}

impl TermStore {
    /// Whether any name is free in a term. Each shared node is gone to at most once, and once more for each variable of
    /// the term that its quantifiers bind everywhere. No memory is kept.
    pub fn has_free_names(&self, id: TermId) -> Result<bool, NoMemory>
        requires { id < length self.now }
        ensures { IfOk result (λ b. b ≡ has_free_names (term_at self.now id)) }
    {
        let mut bare = IndexSet::new(self.alloc);
        let mut todo = Vec::new(self.alloc);
        for _turn in 0..u64::MAX {
            let Some(at) = todo.pop() else {
                if bare.contains(&id) {
                    return Ok(false);
                }
                todo.push(id)?;
                continue;
            };
            if self.look_for_any(&mut bare, &mut todo, at, id)? {
                return Ok(true);
            }
        }
        Err(NoMemory)
    }

    // Whether a number is a name that is free in the root's term. Else it is bare where its parts are, or they are put
    // before it.
    fn look_for_any(
        &self,
        bare: &mut IndexSet<TermId>,
        todo: &mut Vec<TermId>,
        at: TermId,
        root: TermId,
    ) -> Result<bool, NoMemory>
        requires root { root < length self.now }
        requires within { at < length self.now }
        requires bare { Bare self.now root bare.old }
        requires todo { All (λ i. i < length self.now) todo.old.items }
        ensures found { IfOk result (λ b. b ≡ true → has_free_names (term_at self.now root) ≡ true) }
        ensures bare { OnOk result (Bare self.now root bare.new) }
        ensures todo { OnOk result (All (λ i. i < length self.now) todo.new.items) }
    {
        if bare.contains(&at) {
            return Ok(false);
        }
        let node = self.node(at);
        if self.is_free_name(node, root)? {
            return Ok(true);
        }
        let parts = all_parts(self.alloc, node)?;
        if all_in(bare, parts.as_slice()) {
            bare.insert(at)?;
            return Ok(false);
        }
        todo.push(at)?;
        todo.extend_from_slice(parts.as_slice())?;
        Ok(false)
    }

    // Whether a node is a name that is free in the root's term.
    fn is_free_name(&self, node: &Node, root: TermId) -> Result<bool, NoMemory>
        requires { root < length self.now }
        ensures { IfOk result (λ b. b ≡ is_free_name (term_at self.now root) node.now) }
    {
        match node {
            Node::Name(text, sort) => self.is_free(text, *sort, root),
            _ => Ok(false),
        }
    }
}
