// The store.

ghost use Rattle.std.specs.Prelude.{◌≡◌, ℕ, ◌<◌, ◌↔◌, [], IfOk, length};
ghost use Rattle.term_core.specs.Terms.{tm_sort};
ghost use Rattle.term_subst.specs.Sizes.{size};
ghost use Rattle.term_store.specs.Depths.{depth};
ghost use Rattle.term_store.specs.Numbers.{term_at, assemble, PartsBelow, Grows};
ghost use Rattle.term_store.specs.inner.Kept.{Known};

use crate::facts::{Facts, facts_of};
use crate::node::Node;
use crate::number::TermId;
use indexmap::IndexSet;
use std::alloc::{AllocError as NoMemory, Global};
use std::hash::{BuildHasherDefault, DefaultHasher};
use std::marker::Model;
use x64_syntax::Sort;

/// Terms with numbers. Contracts see the list of the nodes; each number that is given to a call is below its length.
#[derive(Drop)]
pub struct TermStore {
    pub(crate) alloc: Global,
    nodes: IndexSet<Node, BuildHasherDefault<DefaultHasher>>,
    // Of each node, and of one more where memory ran out behind it.
    facts: Vec<Facts>,
}

impl Model for TermStore {
    ghost use Rattle.std.specs.Prelude.{List};
    ghost use Rattle.term_store.specs.declared.node.Node.{Node};

    ghost Value = { List Node };

    ghost use Rattle.term_store.specs.inner.Kept.{Stored};

    ghost view = { λ s. s.nodes.keys };

    ghost invariant = { λ s. Stored s.nodes.keys s.facts.items };
}

impl TermStore {
    /// A store without terms, which takes no memory.
    pub fn new(alloc: Global) -> Self
        ensures { result ≡ [] }
    {
        TermStore {
            alloc,
            nodes: IndexSet::with_hasher(alloc, BuildHasherDefault::new()),
            facts: Vec::new(alloc),
        }
    }

    /// The node that a number stands for.
    pub fn node(&self, id: TermId) -> &Node
        requires { id < length self.now }
        ensures below { PartsBelow id result.now }
        ensures term { term_at self.now id ≡ assemble (term_at self.now) result.now }
    {
        &self.nodes.as_slice()[id.place()]
    }

    /// The number of the term that a node with these parts stands for. Earlier numbers keep their terms, after NoMemory
    /// too.
    pub fn make(&mut self, node: Node) -> Result<TermId, NoMemory>
        requires { PartsBelow (length self.old) node }
        ensures grows { Grows self.old self.new }
        ensures within { IfOk result (λ id. id < length self.new) }
        ensures term { IfOk result (λ id. term_at self.new id ≡ assemble (term_at self.old) node) }
    {
        if let Some(place) = self.nodes.get_index_of(&node) {
            let found = TermId::of_place(place)?;
            return Ok(found);
        }
        self.facts.truncate(self.nodes.len());
        let facts = facts_of(&self.facts, &node);
        self.facts.push(facts)?;
        let id = TermId::of_place(self.nodes.len())?;
        self.nodes.insert(node)?;
        Ok(id)
    }

    fn facts(&self, id: TermId) -> Facts
        requires { id < length self.now }
        ensures { Known (term_at self.now id) result }
    {
        self.facts[id.place()]
    }

    /// The number of a term's nodes, or 2^64 - 1 where it has more.
    pub fn size(&self, id: TermId) -> u64
        requires { id < length self.now }
        ensures { result ≡ size (term_at self.now id) }
    {
        self.facts(id).extent.size
    }

    /// How deep a term is, 1 where it has no parts, or 2^64 - 1 where it is deeper.
    pub fn depth(&self, id: TermId) -> u64
        requires { id < length self.now }
        ensures { result ≡ depth (term_at self.now id) }
    {
        self.facts(id).extent.depth
    }

    /// The sort of a term's value.
    pub fn sort(&self, id: TermId) -> Sort
        requires { id < length self.now }
        ensures { result ≡ tm_sort (term_at self.now id) }
    {
        self.facts(id).sort
    }

    /// Equal terms have equal numbers, and only they.
    pub fn distinct(&self)
        ensures { (a b : ℕ) → a < length self.now → b < length self.now → (term_at self.now a ≡ term_at self.now b) ↔ (a ≡ b) }
    {
        let _count = self.nodes.len();
    }
}
