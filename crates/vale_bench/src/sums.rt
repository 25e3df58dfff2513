// Calls on large terms: balanced sums, and sequents of many equations.

use anyhow::{Result, bail};
use sqlite_items::{Boxed, Items};
use std::alloc::Global;
use term_core::{BinOp, Entry, Funs, Literal, Sequent, Term, fits, print_term};
use term_subst::size;
use term_value::value;
use x64_syntax::{Sort, Text};

/// How many nodes an equation of a sequent has.
const EQUATION: u32 = 5;

fn bin(alloc: Global, op: BinOp, a: Result<Term>, b: Result<Term>) -> Result<Term> {
    let a = Boxed::new(alloc, a?)?;
    let b = Boxed::new(alloc, b?)?;
    Ok(Term::Bin(op, a, b))
}

// The terms two by two, and the last one alone where their number is odd.
fn paired(alloc: Global, terms: Vec<Term>) -> Result<Vec<Term>> {
    let mut pairs = Vec::new(alloc);
    let mut waiting = None;
    for t in terms {
        match waiting.take() {
            Some(a) => pairs.push(bin(alloc, BinOp::Add, Ok(a), Ok(t))?)?,
            None => waiting = Some(t),
        }
    }
    if let Some(t) = waiting {
        pairs.push(t)?;
    }
    Ok(pairs)
}

fn numbers(alloc: Global, terms: u32) -> Result<Vec<Term>> {
    let mut made = Vec::new(alloc);
    for k in 0..terms {
        made.push(Term::Int(i128::from(k)))?;
    }
    Ok(made)
}

// The sum of so many terms, half of them on either side of each `+`.
fn sum(alloc: Global, terms: u32) -> Result<Term> {
    let mut level = numbers(alloc, terms)?;
    for _height in 0..32 {
        level = paired(alloc, level)?;
    }
    match level.pop() {
        Some(t) => Ok(t),
        None => bail!("a sum has terms"),
    }
}

// `r.K`
fn version(alloc: Global, k: u32) -> Result<Text> {
    Ok(Text::from_vec(format!(in alloc; "r.{k}")?.into_bytes()))
}

fn word(alloc: Global, k: u32) -> Result<Term> {
    Ok(Term::Name(version(alloc, k)?, Sort::W64))
}

// `(r.K == (r.J + 1w))`, where J is one less.
fn equation(alloc: Global, k: u32) -> Result<Term> {
    let next = bin(
        alloc,
        BinOp::Add,
        word(alloc, k.wrapping_sub(1)),
        Ok(Term::W64(1)),
    );
    bin(alloc, BinOp::Eq, word(alloc, k), next)
}

// So many equations, each of a name with the one before, and the goal `true`.
fn sequent(alloc: Global, equations: u32) -> Result<Sequent> {
    let mut hyps = Items::new(alloc);
    for k in 1..equations.saturating_add(1) {
        hyps.push(equation(alloc, k)?)?;
    }
    Ok(Sequent {
        hyps,
        goal: Term::Bool(true),
    })
}

// Values of the names that make all equations true.
fn entries(alloc: Global, equations: u32) -> Result<Vec<Entry>> {
    let mut made = Vec::new(alloc);
    for k in 0..equations.saturating_add(1) {
        made.push(Entry {
            name: version(alloc, k)?,
            value: Literal::W64(u64::from(k)),
        })?;
    }
    Ok(made)
}

fn sizes(s: &Sequent) -> u64 {
    let mut total = size(&s.goal);
    for hyp in s.hyps.as_slice() {
        total = total.saturating_add(size(hyp));
    }
    total
}

fn printed(alloc: Global, f: &Funs, s: &Sequent) -> Result<usize> {
    let mut total = print_term(alloc, f, &s.goal)?.as_bytes().len();
    for hyp in s.hyps.as_slice() {
        total = total.saturating_add(print_term(alloc, f, hyp)?.as_bytes().len());
    }
    Ok(total)
}

// How many hypotheses are true.
fn true_ones(alloc: Global, f: &Funs, s: &Sequent, entries: &[Entry]) -> usize {
    let mut count = 0usize;
    for hyp in s.hyps.as_slice() {
        if let Ok(Literal::Bool(true)) = value(alloc, f, hyp, entries) {
            count = count.saturating_add(1);
        }
    }
    count
}

/// How many nodes a sum of so many terms has.
pub(crate) fn size_sum(alloc: Global, terms: u32, times: u32) -> Result<usize> {
    let t = sum(alloc, terms)?;
    let mut parts = 0;
    for _time in 0..times {
        parts = usize::try_from(size(&t))?;
    }
    Ok(parts)
}

/// How many bytes a sum of so many terms is printed in.
pub(crate) fn print_sum(alloc: Global, terms: u32, times: u32) -> Result<usize> {
    let t = sum(alloc, terms)?;
    let f = Funs::new(alloc);
    let mut parts = 0;
    for _time in 0..times {
        parts = print_term(alloc, &f, &t)?.as_bytes().len();
    }
    Ok(parts)
}

/// The value of a sum of so many terms.
pub(crate) fn value_sum(alloc: Global, terms: u32, times: u32) -> Result<usize> {
    let t = sum(alloc, terms)?;
    let f = Funs::new(alloc);
    let mut parts = 0;
    for _time in 0..times {
        match value(alloc, &f, &t, &[]) {
            Ok(Literal::Int(z)) => parts = usize::try_from(z)?,
            _ => bail!("the sum has no value"),
        }
    }
    Ok(parts)
}

/// 1 where a sequent of so many nodes fits.
pub(crate) fn fit_sequent(alloc: Global, nodes: u32, times: u32) -> Result<usize> {
    let s = sequent(alloc, nodes / EQUATION)?;
    let f = Funs::new(alloc);
    let mut parts = 0;
    for _time in 0..times {
        parts = usize::from(fits(&f, &s));
    }
    Ok(parts)
}

/// How many nodes a sequent of so many nodes has.
pub(crate) fn size_sequent(alloc: Global, nodes: u32, times: u32) -> Result<usize> {
    let s = sequent(alloc, nodes / EQUATION)?;
    let mut parts = 0;
    for _time in 0..times {
        parts = usize::try_from(sizes(&s))?;
    }
    Ok(parts)
}

/// How many bytes the terms of a sequent of so many nodes are printed in.
pub(crate) fn print_sequent(alloc: Global, nodes: u32, times: u32) -> Result<usize> {
    let s = sequent(alloc, nodes / EQUATION)?;
    let f = Funs::new(alloc);
    let mut parts = 0;
    for _time in 0..times {
        parts = printed(alloc, &f, &s)?;
    }
    Ok(parts)
}

/// How many hypotheses of a sequent of so many nodes are true.
pub(crate) fn value_sequent(alloc: Global, nodes: u32, times: u32) -> Result<usize> {
    let s = sequent(alloc, nodes / EQUATION)?;
    let entries = entries(alloc, nodes / EQUATION)?;
    let f = Funs::new(alloc);
    let mut parts = 0;
    for _time in 0..times {
        parts = true_ones(alloc, &f, &s, &entries);
    }
    Ok(parts)
}
