// Clauses of the form.

ghost use Rattle.std.specs.Prelude.{◌≡◌, List, [], map};
ghost use Rattle.vale_syntax.specs.inner.CodeTrees.{tree, exs};
ghost use Rattle.vale_syntax.specs.inner.Matches.{Gives};
ghost use Rattle.straight_line.specs.Form.{register, among, listed_register, named_register, only_register, readable_register, reads_from, are_modified, old_of, value, promise, clauses_of};
ghost use Rattle.vale_syntax.specs.inner.CodeTrees.{clause_tree};

use crate::form::Promise;
use sqlite_items::Items;
use std::alloc::Global;
use vale_syntax::{BinaryOp, Clause, Expr, MatchFault, Name, ReadPlace};
use x64_syntax::{Reg, reg_named};

fn register(name: &Name) -> Option<Reg>
    ensures { result ≡ register name.now }
{
    match reg_named(name.text.as_bytes()) {
        Some(Reg::Rsp) | None => None,
        Some(reg) => Some(reg),
    }
}

// The register, where it is one of the list.
fn among(regs: &[Reg], reg: Reg) -> Option<Reg>
    ensures { result ≡ among regs.now reg }
{
    for other in regs {
        if *other == reg {
            return Some(*other);
        }
    }
    None
}

// The register of a name, where it is one of the list.
fn listed(regs: &[Reg], name: &Name) -> Option<Reg>
    ensures { result ≡ listed_register regs.now name.now }
{
    among(regs, register(name)?)
}

fn readable(before: &[Reg], place: &ReadPlace) -> Option<Reg>
    ensures { result ≡ readable_register before.now place.now }
{
    if place.is_secret {
        return None;
    }
    let reg = register(&place.name)?;
    match among(before, reg) {
        Some(_) => None,
        None => Some(reg),
    }
}

// The registers that are read.
#[tactic(auto, unfolding(crate::specs::Form::reads_from))]
fn registers(alloc: Global, places: &[ReadPlace]) -> Result<Items<Reg>, MatchFault>
    ensures { Gives (λ x. x) result (reads_from [] places.now) }
{
    let mut regs = Items::new(alloc);
    for place in places {
        match readable(regs.as_slice(), place) {
            Some(reg) => regs.push(reg)?,
            None => return Err(MatchFault::NoMatch),
        }
    }
    Ok(regs)
}

// Whether the names are those of the registers, and then `flags`.
#[tactic(auto, unfolding(crate::specs::Form::are_modified))]
fn are_modified(regs: &[Reg], names: &[Name]) -> bool
    ensures { result ≡ are_modified regs.now names.now }
{
    match regs {
        [] => match names {
            [last] => last.text.as_bytes() == b"flags".as_slice(),
            [] | [_, _, ..] => false,
        },
        [reg, others @ ..] => match names {
            [] => false,
            [name, more @ ..] => {
                name.text.as_bytes() == reg.name().as_bytes() && are_modified(others, more)
            }
        },
    }
}

/// The register that an expression is, where it is one of the list.
pub(crate) fn named(regs: &[Reg], e: &Expr) -> Option<Reg>
    ensures { result ≡ named_register regs.now (tree e.now) }
{
    match e {
        Expr::Name(name) => listed(regs, name),
        _ => None,
    }
}

fn alone(regs: &[Reg], args: &[Expr]) -> Option<Reg>
    ensures { result ≡ only_register regs.now (exs (map tree args.now)) }
{
    match args {
        [] => None,
        [arg, others @ ..] => match others {
            [] => named(regs, arg),
            [_, ..] => None,
        },
    }
}

// `old(Q)`
fn old_register(regs: &[Reg], e: &Expr) -> Option<Reg>
    ensures { result ≡ old_of regs.now (tree e.now) }
{
    match e {
        Expr::Call(function, args) => {
            if function.text.as_bytes() == b"old".as_slice() {
                alone(regs, args.as_slice())
            } else {
                None
            }
        }
        _ => None,
    }
}

fn value(regs: &[Reg], reg: Reg, e: &Expr) -> Option<Promise>
    ensures { result ≡ value regs.now reg (tree e.now) }
{
    match e {
        Expr::Word(_, k) => Some(Promise::Constant(reg, *k)),
        Expr::Binary(_, BinaryOp::Add, old, more) => match more.get() {
            Expr::Word(_, k) => Some(Promise::Sum(reg, old_register(regs, old.get())?, *k)),
            _ => None,
        },
        _ => Some(Promise::Old(reg, old_register(regs, e)?)),
    }
}

// `R == Kw`, `R == old(Q)`, `R == old(Q) + Kw`
fn promise(regs: &[Reg], e: &Expr) -> Option<Promise>
    ensures { result ≡ promise regs.now (tree e.now) }
{
    match e {
        Expr::Binary(_, BinaryOp::Eq, left, right) => value(
            regs,
            named(regs, left.get())?,
            right.get(),
        ),
        _ => None,
    }
}

/// What the clauses of a procedure say: its registers and its promise.
pub(crate) fn read_clauses(
    alloc: Global,
    clauses: &[Clause],
) -> Result<(Items<Reg>, Promise), MatchFault>
    ensures { Gives (λ x. x) result (clauses_of (map clause_tree clauses.now)) }
{
    match clauses {
        [
            Clause::Reads(_, places),
            Clause::Modifies(_, names),
            Clause::Ensures(_, e),
        ] => {
            let regs = registers(alloc, places.as_slice())?;
            if !are_modified(regs.as_slice(), names.as_slice()) {
                return Err(MatchFault::NoMatch);
            }
            match promise(regs.as_slice(), e) {
                Some(promise) => Ok((regs, promise)),
                None => Err(MatchFault::NoMatch),
            }
        }
        _ => Err(MatchFault::NoMatch),
    }
}
