// Terms and their sorts.

use sqlite_items::{Boxed, Items};
use std::alloc::{AllocError, Global};
use std::test::Fail;
use term_core::{BinOp, CountedOp, Operator, Term, UnOp, operator_of, same, sort_of};
use x64_meaning::{version, version_name};
use x64_syntax::{BuiltIn, FlagName, MachinePlace, Reg, Sort, Text};

#[test]
fn tells_sorts_of_results(rt: HostRuntime) {
    let [int, truth, word, wide] = [Sort::Int, Sort::Bool, Sort::W64, Sort::W128];
    for (op, a, b, want) in [
        (BinOp::Add, int, int, Some(int)),
        (BinOp::Mul, word, word, Some(word)),
        (BinOp::Sub, wide, wide, None),
        (BinOp::Mod, int, word, None),
        (BinOp::Eq, Sort::Arr, Sort::Arr, Some(truth)),
        (BinOp::Eq, int, word, None),
        (BinOp::Le, word, word, None),
        (BinOp::Implies, truth, truth, Some(truth)),
        (BinOp::Xor, wide, wide, Some(wide)),
        (BinOp::And, truth, truth, None),
        (BinOp::Pair, word, word, Some(wide)),
        (BinOp::Index, Sort::Arr, int, Some(word)),
        (BinOp::DwordAt, Sort::Arr, int, Some(word)),
        (BinOp::ByteAt, word, int, None),
        (BinOp::Aesenclast, wide, wide, Some(wide)),
    ] {
        assert_eq!(rt; op.result(a, b), want);
    }
    assert_eq!(rt;
        operator_of(BuiltIn::Mulhi),
        Some(Operator::Bin(BinOp::Mulhi))
    );
    assert_eq!(rt; operator_of(BuiltIn::Clmul), Some(Operator::Clmul));
    assert_eq!(rt; operator_of(BuiltIn::Old), None);
    assert_eq!(rt; UnOp::Not.result(wide), Some(wide));
    assert_eq!(rt; UnOp::Not.result(truth), None);
    assert_eq!(rt; UnOp::Len.result(Sort::Arr), Some(int));
    assert_eq!(rt; CountedOp::Rol.result(63, word), Some(word));
    assert_eq!(rt; CountedOp::Rol.result(64, word), None);
    assert_eq!(rt; CountedOp::Pshufd.result(255, wide), Some(wide));
}

fn sum(alloc: Global, a: Term, b: Term) -> Result<Term, AllocError> {
    Ok(Term::Bin(BinOp::Add, Boxed::new(alloc, a)?, Boxed::new(alloc, b)?))
}

#[test]
fn tells_terms_and_sorts_apart(rt: HostRuntime) -> Result<(), Fail> {
    let alloc = rt.alloc();
    let words = sum(alloc, Term::W64(1), Term::W64(2))?;
    let numbers = sum(alloc, Term::Int(1), Term::Int(2))?;
    let name = Term::Name(Text::from_slice(alloc, b"rax.0")?, Sort::W64);
    assert!(rt; same(&words, &words));
    assert!(rt; !same(&words, &numbers));
    assert!(rt; !same(&name, &words));
    assert_eq!(rt; sort_of(&words), Sort::W64);
    assert_eq!(rt; sort_of(&numbers), Sort::Int);
    assert_eq!(rt; sort_of(&name), Sort::W64);
    Ok(())
}

#[test]
fn tells_calls_apart(rt: HostRuntime) {
    let call = Term::Call(3, Sort::Arr, Items::new(rt.alloc()));
    assert!(rt; same(&call, &call));
    assert_eq!(rt; sort_of(&call), Sort::Arr);
}

fn product(alloc: Global, n: u8) -> Result<Term, AllocError> {
    let one = Boxed::new(alloc, Term::W128(1))?;
    Ok(Term::Clmul(one, Boxed::new(alloc, Term::W128(2))?, n))
}

#[test]
fn tells_products_without_carries_apart(rt: HostRuntime) -> Result<(), Fail> {
    let low = product(rt.alloc(), 0)?;
    assert!(rt; same(&low, &low));
    assert!(rt; !same(&low, &product(rt.alloc(), 16)?));
    assert_eq!(rt; sort_of(&low), Sort::W128);
    Ok(())
}

#[test]
fn names_a_place_at_a_version(rt: HostRuntime) -> Result<(), Fail> {
    let alloc = rt.alloc();
    let name = version_name(alloc, MachinePlace::Reg(Reg::R15), 4096)?;
    assert_eq!(rt; name.as_bytes(), b"r15.4096".as_slice());
    let flag = version(alloc, MachinePlace::Flag(FlagName::Cf), 0)?;
    let want = Term::Name(Text::from_slice(alloc, b"cf.0")?, Sort::Int);
    assert!(rt; same(&flag, &want));
    Ok(())
}
