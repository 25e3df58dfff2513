// What is kept of the term that each number stands for.

ghost use Rattle.std.specs.Prelude.{◌≡◌, ℕ, ◌<◌, ◌+◌, max, map, length, slice_index_or};
ghost use Rattle.term_core.specs.Terms.{Tm, tms};
ghost use Rattle.term_subst.specs.Sizes.{at_most_64_bits};
ghost use Rattle.term_store.specs.Numbers.{assemble, PartsBelow, EachBelow};
ghost use Rattle.term_store.specs.inner.Kept.{Known, Measured, nothing};

use crate::node::Node;
use crate::number::TermId;
use crate::sorts::{bin_sort, counted_sort, un_sort};
use x64_syntax::Sort;

/// How many nodes a tree has and how deep it is, each at most 2^64 - 1.
#[derive(Clone, Copy, Debug)]
pub(crate) struct Extent {
    pub(crate) size: u64,
    pub(crate) depth: u64,
}

/// What is kept of a term.
#[derive(Clone, Copy, Debug)]
pub(crate) struct Facts {
    pub(crate) extent: Extent,
    pub(crate) sort: Sort,
}

const NONE: Extent = Extent { size: 0, depth: 0 };

impl Extent {
    // With another term beside.
    fn beside(self, other: Extent) -> Extent
        ensures size { result.size ≡ at_most_64_bits (self.size + other.size) }
        ensures depth { result.depth ≡ max self.depth other.depth }
    {
        Extent {
            size: self.size.saturating_add(other.size),
            depth: self.depth.max(other.depth),
        }
    }
}

// Of a node above terms of this extent.
fn above(parts: Extent, sort: Sort) -> Facts
    ensures size { result.extent.size ≡ at_most_64_bits (parts.size + 1) }
    ensures depth { result.extent.depth ≡ at_most_64_bits (parts.depth + 1) }
    ensures sort { result.sort ≡ sort }
{
    Facts {
        extent: Extent {
            size: parts.size.saturating_add(1),
            depth: parts.depth.saturating_add(1),
        },
        sort,
    }
}

// Of a node without parts.
fn leaf(sort: Sort) -> Facts
    ensures size { result.extent.size ≡ 1 }
    ensures depth { result.extent.depth ≡ 1 }
    ensures sort { result.sort ≡ sort }
{
    above(NONE, sort)
}

// Of terms side by side.
fn extent_of_all(known: &[Facts], ids: &[TermId]) -> Extent
    requires { EachBelow (length known.now) ids.now }
    ensures { (at : ℕ → Tm) → ((i : ℕ) → i < length known.now → Known (at i) (slice_index_or known.now i nothing)) → Measured (tms (map at ids.now)) result }
{
    let mut all = NONE;
    let mut k = ids.len();
    while k > 0 {
        k -= 1;
        all = known[ids[k].place()].extent.beside(all);
    }
    all
}

/// The facts of a node's term, from those of its parts.
pub(crate) fn facts_of(known: &[Facts], node: &Node) -> Facts
    requires { PartsBelow (length known.now) node.now }
    ensures { (at : ℕ → Tm) → ((i : ℕ) → i < length known.now → Known (at i) (slice_index_or known.now i nothing)) → Known (assemble at node.now) result }
{
    match node {
        Node::Name(_, sort) => leaf(*sort),
        Node::Int(_) => leaf(Sort::Int),
        Node::W64(_) => leaf(Sort::W64),
        Node::W128(_) => leaf(Sort::W128),
        Node::Bool(_) => leaf(Sort::Bool),
        Node::Un(op, a) => {
            let a = known[a.place()];
            above(a.extent, un_sort(*op, a.sort))
        }
        Node::Shift(op, _, a) => above(known[a.place()].extent, counted_sort(*op)),
        Node::Bin(op, a, b) => {
            let (a, b) = (known[a.place()], known[b.place()]);
            above(a.extent.beside(b.extent), bin_sort(*op, a.sort))
        }
        Node::Clmul(a, b, _) => {
            let (a, b) = (known[a.place()], known[b.place()]);
            above(a.extent.beside(b.extent), Sort::W128)
        }
        Node::Ite(c, a, b) => {
            let (c, a, b) = (known[c.place()], known[a.place()], known[b.place()]);
            above(c.extent.beside(a.extent).beside(b.extent), a.sort)
        }
        Node::Put(x, i, w) | Node::PutDword(x, i, w) => {
            let (x, i, w) = (known[x.place()], known[i.place()], known[w.place()]);
            above(x.extent.beside(i.extent).beside(w.extent), Sort::Arr)
        }
        Node::Call(_, sort, args) => above(extent_of_all(known, args.as_slice()), *sort),
        Node::All(_, low, high, body) => {
            let (low, high, body) = (known[low.place()], known[high.place()], known[body.place()]);
            above(
                low.extent.beside(high.extent).beside(body.extent),
                Sort::Bool,
            )
        }
    }
}
