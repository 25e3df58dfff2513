// Whether a variable is free in a term: walks that keep their own list of what is left to do, so that no depth of a term
// fills the stack.

ghost use Rattle.std.specs.Prelude.{◌≡◌, ◌<◌, true, nat_eq, length, All, IfOk, OnOk};
ghost use Rattle.std.specs.List.{list_all};
ghost use Rattle.indexmap.specs.IndexSet.{contains};
ghost use Rattle.term_store.specs.Numbers.{term_at};
ghost use Rattle.term_store.specs.Free.{is_free};
ghost use Rattle.term_store.specs.inner.Walks.{Clean, Leads, is_variable, open_parts};

use crate::node::Node;
use crate::number::{Parts, TermId};
use crate::store::TermStore;
use indexmap::IndexSet;
use std::alloc::{AllocError as NoMemory, Global};
use x64_syntax::{Sort, Text};

// Whether a node is the variable itself.
fn is_variable(name: &Text, sort: Sort, node: &Node) -> bool
    ensures { result ≡ is_variable name.now sort node.now }
{
    match node {
        Node::Name(text, s) => name == text && sort == *s,
        _ => false,
    }
}

// The parts of a node in which no quantifier of the node binds the variable.
fn open_parts(alloc: Global, name: &Text, sort: Sort, node: &Node) -> Result<Parts, NoMemory>
    ensures { IfOk result (λ parts. parts ≡ open_parts name.now sort node.now) }
{
    match node {
        Node::Name(_, _) | Node::Int(_) | Node::W64(_) | Node::W128(_) | Node::Bool(_) => {
            Ok(Parts::new(alloc))
        }
        Node::Un(_, a) | Node::Shift(_, _, a) => Parts::from_slice(alloc, &[*a]),
        Node::Bin(_, a, b) | Node::Clmul(a, b, _) => Parts::from_slice(alloc, &[*a, *b]),
        Node::Ite(a, b, c) | Node::Put(a, b, c) | Node::PutDword(a, b, c) => {
            Parts::from_slice(alloc, &[*a, *b, *c])
        }
        Node::Call(_, _, args) => Parts::from_slice(alloc, args.as_slice()),
        Node::All(text, low, high, body) => {
            if text == name && sort == Sort::Int {
                Parts::from_slice(alloc, &[*low, *high])
            } else {
                Parts::from_slice(alloc, &[*low, *high, *body])
            }
        }
    }
}

pub(crate) fn all_in(seen: &IndexSet<TermId>, ids: &[TermId]) -> bool
    ensures { result ≡ list_all (λ i. contains nat_eq seen.now i) ids.now }
{
    for id in ids {
        if !seen.contains(id) {
            return false;
        }
    }
    true
}

impl TermStore {
    /// Whether the variable of that name and sort is free in a term. No memory is kept.
    pub fn is_free(&self, name: &Text, sort: Sort, id: TermId) -> Result<bool, NoMemory>
        requires { id < length self.now }
        ensures { IfOk result (λ b. b ≡ is_free name.now sort (term_at self.now id)) }
    {
        let mut clean = IndexSet::new(self.alloc);
        let mut todo = Vec::new(self.alloc);
        for _turn in 0..u64::MAX {
            let Some(at) = todo.pop() else {
                if clean.contains(&id) {
                    return Ok(false);
                }
                todo.push(id)?;
                continue;
            };
            if self.look(&mut clean, &mut todo, name, sort, at, id)? {
                return Ok(true);
            }
        }
        Err(NoMemory)
    }

    // Whether a number is the variable itself. Else it is clean where its parts are, or they are put before it.
    fn look(
        &self,
        clean: &mut IndexSet<TermId>,
        todo: &mut Vec<TermId>,
        name: &Text,
        sort: Sort,
        at: TermId,
        _root: TermId,
    ) -> Result<bool, NoMemory>
        requires leads { Leads self.now name.now sort _root at }
        requires clean { Clean self.now name.now sort clean.old }
        requires todo { All (Leads self.now name.now sort _root) todo.old.items }
        ensures found { IfOk result (λ b. b ≡ true → is_free name.now sort (term_at self.now _root) ≡ true) }
        ensures clean { OnOk result (Clean self.now name.now sort clean.new) }
        ensures todo { OnOk result (All (Leads self.now name.now sort _root) todo.new.items) }
    {
        let node = self.node(at);
        if is_variable(name, sort, node) {
            return Ok(true);
        }
        let parts = open_parts(self.alloc, name, sort, node)?;
        if all_in(clean, parts.as_slice()) {
            clean.insert(at)?;
            return Ok(false);
        }
        todo.push(at)?;
        todo.extend_from_slice(parts.as_slice())?;
        Ok(false)
    }
}
