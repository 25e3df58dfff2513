// Terms by number: equal terms have one number, deep and large ones are walked, and each call has a happy path.

ghost use Rattle.std.specs.Prelude.{◌≡◌, ◌<◌, length, IfOk};
ghost use Rattle.term_store.specs.Numbers.{Grows};

use sqlite_items::Boxed;
use std::alloc::{AllocError, Global};
use std::test::Fail;
use term_core::{BinOp, Term, UnOp, same};
use term_store::{Node, Parts, TermId, TermStore};
use x64_syntax::{Sort, Text};

// So many words turned over, one above the other.
fn turned(store: &mut TermStore, id: TermId, levels: u32) -> Result<TermId, AllocError>
    requires { id < length store.old }
    ensures grows { Grows store.old store.new }
    ensures within { IfOk result (λ n. n < length store.new) }
{
    let mut top = id;
    for _level in 0..levels {
        top = store.make(Node::Un(UnOp::Not, top))?;
    }
    Ok(top)
}

// A term added to itself, so many times.
fn doubled(store: &mut TermStore, id: TermId, times: u32) -> Result<TermId, AllocError>
    requires { id < length store.old }
    ensures grows { Grows store.old store.new }
    ensures within { IfOk result (λ n. n < length store.new) }
{
    let mut sum = id;
    for _time in 0..times {
        sum = store.make(Node::Bin(BinOp::Add, sum, sum))?;
    }
    Ok(sum)
}

fn variable(store: &mut TermStore, alloc: Global, name: &[u8]) -> Result<TermId, AllocError>
    ensures grows { Grows store.old store.new }
    ensures within { IfOk result (λ n. n < length store.new) }
{
    store.make(Node::Name(Text::from_slice(alloc, name)?, Sort::W64))
}

fn sum(alloc: Global) -> Result<Term, AllocError> {
    let one = Boxed::new(alloc, Term::W64(1))?;
    Ok(Term::Bin(BinOp::Add, one, Boxed::new(alloc, Term::W64(2))?))
}

#[test]
fn equal_terms_made_apart_have_one_number(rt: HostRuntime) -> Result<(), Fail> {
    let alloc = rt.alloc();
    let mut store = TermStore::new(alloc);
    let first = store.put(&sum(alloc)?)?;
    let second = store.put(&sum(alloc)?)?;
    assert_eq!(rt; first, second);
    assert!(rt; same(&store.tree(first)?, &sum(alloc)?));
    assert_eq!(rt; store.size(first), 3);
    Ok(())
}

#[test]
fn a_shared_node_is_changed_once(rt: HostRuntime) -> Result<(), Fail> {
    let alloc = rt.alloc();
    let mut store = TermStore::new(alloc);
    let x = variable(&mut store, alloc, b"x")?;
    let y = variable(&mut store, alloc, b"y")?;
    let of_x = doubled(&mut store, x, 20)?;
    let of_y = store.replace(of_x, x, y)?;
    assert_eq!(rt; store.size(of_y), 2_097_151);
    let again = doubled(&mut store, y, 20)?;
    assert_eq!(rt; of_y, again);
    Ok(())
}

#[test]
fn sizes_stop_at_64_bits(rt: HostRuntime) -> Result<(), Fail> {
    let mut store = TermStore::new(rt.alloc());
    let one = store.make(Node::W64(1))?;
    let large = doubled(&mut store, one, 63)?;
    assert_eq!(rt; store.size(large), u64::MAX);
    let larger = doubled(&mut store, large, 1)?;
    assert_eq!(rt; store.size(larger), u64::MAX);
    assert_eq!(rt; store.depth(larger), 65);
    Ok(())
}

#[test]
fn a_deep_term_is_walked(rt: HostRuntime) -> Result<(), Fail> {
    let alloc = rt.alloc();
    let mut store = TermStore::new(alloc);
    let x = variable(&mut store, alloc, b"x")?;
    let one = store.make(Node::W64(1))?;
    let deep = turned(&mut store, x, 1_000_000)?;
    assert_eq!(rt; store.size(deep), 1_000_001);
    let name = Text::from_slice(alloc, b"x")?;
    assert!(rt; store.is_free(&name, Sort::W64, deep)?);
    let replaced = store.replace(deep, x, one)?;
    let put = store.substitute(deep, &name, Sort::W64, one)?;
    assert_eq!(rt; replaced, put);
    assert!(rt; !store.has_free_names(put)?);
    assert!(rt; store.has_free_names(deep)?);
    Ok(())
}

#[test]
fn a_million_terms_are_put(rt: HostRuntime) -> Result<(), Fail> {
    let mut store = TermStore::new(rt.alloc());
    let first = store.put(&Term::W64(0))?;
    for n in 1..1_000_000u64 {
        let _id = store.put(&Term::W64(n))?;
    }
    assert_eq!(rt; store.put(&Term::W64(0))?, first);
    Ok(())
}

#[test]
fn a_boxed_term_is_put_and_made_again(rt: HostRuntime) -> Result<(), Fail> {
    let alloc = rt.alloc();
    let mut deep = Term::W64(1);
    for _level in 0..2000u32 {
        deep = Term::Un(UnOp::Not, Boxed::new(alloc, deep)?);
    }
    let mut store = TermStore::new(alloc);
    let id = store.put(&deep)?;
    assert_eq!(rt; store.depth(id), 2001);
    assert!(rt; same(&store.tree(id)?, &deep));
    Ok(())
}

#[test]
fn arguments_are_listed(rt: HostRuntime) -> Result<(), Fail> {
    let alloc = rt.alloc();
    let mut store = TermStore::new(alloc);
    let one = store.make(Node::W64(1))?;
    let mut args = Parts::new(alloc);
    args.push(one)?;
    let call = store.make(Node::Call(7, Sort::W64, args))?;
    let again = store.make(Node::Call(7, Sort::W64, Parts::from_slice(alloc, &[one])?))?;
    assert_eq!(rt; call, again);
    assert_eq!(rt; store.sort(call), Sort::W64);
    Ok(())
}
