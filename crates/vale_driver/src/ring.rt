// The rule `ring`, on terms.

ghost use Rattle.std.specs.Prelude.{◌≡◌, ◌<◌, ◌≤◌, ◌+◌, ◌-◌, ◌^◌, ◌++◌, ◌∷◌, [], ◌==◌, min, map, true, false, List, length, IfOk, OnOk, MatchOption};
ghost use Rattle.std.specs.List.{list_all};
ghost use Rattle.std.specs.Option.{option_copied, option_map};
ghost use Rattle.term_core.specs.Terms.{tree, trees};
ghost use Rattle.vale_driver.specs.Ring.{Occurrence, Sides, Weighted, of_words, occurrences, width, times, difference, same_atom, coefficient, is_balanced, sides, weight_of, closes_with, ring_closes};
ghost use Rattle.vale_driver.specs.inner.RingCode.{occurrence_view, occurrence_views, atom_of, sides_of, ClosesNothing, Weighs, hypothesis_sides_of};

use crate::certificate::Pair;
use sqlite_items::at as nth;
use std::alloc::{AllocError as NoMemory, Global};
use term_core::{BinOp, Term, same, sort_of};
use x64_syntax::Sort;

/// The widest that all sides together may be.
const WIDTH_LIMIT: u64 = 4096;

/// A monomial as it occurs: its coefficient modulo 2^64, and its atom, or none for the constant.
#[derive(Clone, Copy)]
pub(crate) struct Occurring<'a> {
    coefficient: u64,
    atom: Option<&'a Term>,
}

fn is_word(t: &Term) -> bool
    ensures { result ≡ of_words (tree t.now) }
{
    sort_of(t) == Sort::W64
}

fn width_of(t: &Term) -> u64
    ensures { result ≡ min (width (tree t.now)) (2 ^ 64 - 1) }
{
    match t {
        Term::Bin(BinOp::Add, a, b) => {
            if is_word(a.get()) {
                width_of(a.get()).saturating_add(width_of(b.get()))
            } else {
                1
            }
        }
        _ => 1,
    }
}

// Appends the occurrences in a term.
fn push_occurrences<'a>(into: &mut Vec<Occurring<'a>>, t: &'a Term) -> Result<(), NoMemory>
    ensures { OnOk result (occurrence_views into.new.items ≡ occurrence_views into.old.items ++ occurrences (tree t.now)) }
{
    match t {
        Term::W64(n) => push_one(into, *n, None),
        Term::Bin(BinOp::Add, a, b) => {
            if is_word(a.get()) {
                push_occurrences(into, a.get())?;
                push_occurrences(into, b.get())
            } else {
                push_one(into, 1, Some(t))
            }
        }
        _ => push_one(into, 1, Some(t)),
    }
}

fn push_one<'a>(
    into: &mut Vec<Occurring<'a>>,
    coefficient: u64,
    atom: Option<&'a Term>,
) -> Result<(), NoMemory>
    ensures { OnOk result (occurrence_views into.new.items ≡ occurrence_views into.old.items ++ record { coefficient = coefficient; atom = atom_of atom.entry } ∷ []) }
{
    into.push(Occurring { coefficient, atom })?;
    Ok(())
}

// Appends occurrences, each times a factor.
fn push_times<'a>(
    into: &mut Vec<Occurring<'a>>,
    factor: u64,
    more: &[Occurring<'a>],
) -> Result<(), NoMemory>
    ensures { OnOk result (occurrence_views into.new.items ≡ occurrence_views into.old.items ++ times factor (occurrence_views more.now)) }
{
    for o in more {
        push_one(into, factor.wrapping_mul(o.coefficient), o.atom)?;
    }
    Ok(())
}

// The occurrences of the left side less the right side. Minus one is 2^64 - 1 modulo 2^64.
fn difference_of<'a>(
    alloc: Global,
    left: &'a Term,
    right: &'a Term,
) -> Result<Vec<Occurring<'a>>, NoMemory>
    ensures { IfOk result (λ d. occurrence_views d.items ≡ difference (tree left.now) (tree right.now)) }
{
    let mut taken = Vec::new(alloc);
    push_occurrences(&mut taken, right)?;
    let mut all = Vec::new(alloc);
    push_occurrences(&mut all, left)?;
    push_times(&mut all, u64::MAX, &taken)?;
    Ok(all)
}

fn is_same_atom(a: Option<&Term>, b: Option<&Term>) -> bool
    ensures { result ≡ same_atom (atom_of a.entry) (atom_of b.entry) }
{
    match (a, b) {
        (None, None) => true,
        (Some(a), Some(b)) => same(a, b),
        _ => false,
    }
}

// The coefficients of a monomial, added up modulo 2^64.
fn coefficient_in(atom: Option<&Term>, all: &[Occurring]) -> u64
    ensures { result ≡ coefficient (atom_of atom.entry) (occurrence_views all.now) }
{
    let mut sum = 0u64;
    for o in all {
        if is_same_atom(atom, o.atom) {
            sum = sum.wrapping_add(o.coefficient);
        }
    }
    sum
}

// Whether the monomials of `of` have the same coefficient on both sides.
fn agree<'a>(of: &[Occurring<'a>], left: &[Occurring<'a>], right: &[Occurring<'a>]) -> bool
    ensures { result ≡ list_all (λ o. coefficient o.atom (occurrence_views left.now) == coefficient o.atom (occurrence_views right.now)) (occurrence_views of.now) }
{
    for o in of {
        if coefficient_in(o.atom, left) != coefficient_in(o.atom, right) {
            return false;
        }
    }
    true
}

fn is_balanced<'a>(left: &[Occurring<'a>], right: &[Occurring<'a>]) -> bool
    ensures { result ≡ is_balanced (occurrence_views left.now) (occurrence_views right.now) }
{
    agree(left, left, right) && agree(right, left, right)
}

// The sides of an equation of words.
fn sides_in(t: &Term) -> Option<(&Term, &Term)>
    ensures { sides_of result ≡ sides (tree t.now) }
{
    match t {
        Term::Bin(BinOp::Eq, left, right) => {
            if is_word(left.get()) && is_word(right.get()) {
                Some((left.get(), right.get()))
            } else {
                None
            }
        }
        _ => None,
    }
}

// The occurrences in the named hypotheses, each times its factor, and how wide their sides are. There are none where
// a hypothesis isn't an equation of words, or where the sides are too wide for any goal.
fn weigh<'a>(
    alloc: Global,
    hyps: &'a [Term],
    pairs: &[Pair],
) -> Result<Option<(Vec<Occurring<'a>>, u64)>, NoMemory>
    ensures { IfOk result (λ o. MatchOption o (ClosesNothing (weight_of (trees hyps.now) pairs.now)) (Weighs (weight_of (trees hyps.now) pairs.now))) }
{
    let mut all = Vec::new(alloc);
    let mut width = 0u64;
    for pair in pairs {
        let Some((left, right)) = hypothesis_sides(hyps, pair.0) else {
            return Ok(None);
        };
        width = width.saturating_add(width_of(left).saturating_add(width_of(right)));
        if WIDTH_LIMIT < width {
            return Ok(None);
        }
        let more = difference_of(alloc, left, right)?;
        push_times(&mut all, pair.1, &more)?;
    }
    Ok(Some((all, width)))
}

fn hypothesis_sides(hyps: &[Term], at: usize) -> Option<(&Term, &Term)>
    ensures { sides_of result ≡ hypothesis_sides_of (trees hyps.now) at }
{
    match nth(hyps, at) {
        Some(hyp) => sides_in(hyp),
        None => None,
    }
}

/// Whether the rule applies: for every monomial the coefficients of the goal's sides and of the weighted sum of the
/// hypotheses' sides agree modulo 2^64, and the sides are narrow enough.
pub(crate) fn ring_closes(
    alloc: Global,
    hyps: &[Term],
    goal: &Term,
    pairs: &[Pair],
) -> Result<bool, NoMemory>
    ensures { IfOk result (λ closes. closes ≡ ring_closes (trees hyps.now) (tree goal.now) pairs.now) }
{
    let Some((left, right)) = sides_in(goal) else {
        return Ok(false);
    };
    let Some((all, width)) = weigh(alloc, hyps, pairs)? else {
        return Ok(false);
    };
    if WIDTH_LIMIT < width.saturating_add(width_of(left).saturating_add(width_of(right))) {
        return Ok(false);
    }
    let wanted = difference_of(alloc, left, right)?;
    Ok(is_balanced(&wanted, &all))
}
