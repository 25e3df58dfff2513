// Nodes of a store of terms made, and found again.

ghost use Rattle.std.specs.Prelude.{◌≡◌, ◌<◌, length, IfOk};
ghost use Rattle.term_store.specs.Numbers.{Grows};

use std::alloc::{AllocError, Global};
use term_core::BinOp;
use term_store::{Node, TermId, TermStore};

// A number added so many times, one sum above the other.
fn sums(store: &mut TermStore, first: TermId, times: u32) -> Result<TermId, AllocError>
    requires { first < length store.old }
    ensures grows { Grows store.old store.new }
    ensures within { IfOk result (λ id. id < length store.new) }
{
    let mut sum = first;
    for _time in 0..times {
        sum = store.make(Node::Bin(BinOp::Add, sum, first))?;
    }
    Ok(sum)
}

// A store is filled with that many sums, and what it has is looked for so many times; how many nodes the last sum has.
fn fill(alloc: Global, count: u32, looks: u32) -> Result<usize, AllocError> {
    let mut store = TermStore::new(alloc);
    let one = store.make(Node::W64(1))?;
    let sum = sums(&mut store, one, count)?;
    let size = store.size(sum) as usize;
    for _look in 0..looks {
        let _same = found(&mut store, count)?;
    }
    Ok(size)
}

// The sums once more.
fn found(store: &mut TermStore, count: u32) -> Result<TermId, AllocError>
    ensures grows { Grows store.old store.new }
{
    let one = store.make(Node::W64(1))?;
    sums(store, one, count)
}

/// Makes the nodes so many times, each time in a new store.
pub fn make_nodes(alloc: Global, count: u32, times: u32) -> Result<usize, AllocError> {
    let mut size = 0;
    for _time in 0..times {
        size = fill(alloc, count, 0)?;
    }
    Ok(size)
}

/// Makes the nodes once, and finds them again so many times.
pub fn find_nodes(alloc: Global, count: u32, times: u32) -> Result<usize, AllocError> {
    fill(alloc, count, times)
}
