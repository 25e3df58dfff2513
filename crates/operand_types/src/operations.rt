// The terms that operators make.

ghost use Rattle.std.specs.Prelude.{◌≡◌, Some, Err, IfOk, IfErr};
ghost use Rattle.term_core.specs.declared.operator.UnOp.TheVariants as un;
ghost use Rattle.term_core.specs.declared.operator.Operator.TheVariants as operator;
ghost use Rattle.term_core.specs.Operators.{bin_takes};
ghost use Rattle.term_core.specs.Sorted.{put_takes};
ghost use Rattle.term_core.specs.Terms.{tree, tm_sort};
ghost use Rattle.term_core.specs.Terms as tm;
ghost use Rattle.operand_types.specs.Operations.{un_term, bin_term, order_term, negated, unary_term, binary_term, constant, counted_term, chooses_words, clmul_term, one_term, two_term, three_term, all_term};
ghost use Rattle.operand_types.specs.Answers.{Makes};

use crate::fault::TermFault;
use crate::parts::{three_parts, two_parts, with};
use sqlite_items::Boxed;
use std::alloc::Global;
use term_core::{BinOp, CountedOp, Operator, Term, UnOp, sort_of};
use vale_syntax::{BinaryOp, UnaryOp};
use x64_syntax::{Sort, Text};

/// An operator on one term.
fn un(alloc: Global, op: UnOp, a: Term) -> Result<Term, TermFault>
    ensures { Makes result (un_term op (tree a)) }
{
    if op.result(sort_of(&a)).is_none() {
        return Err(TermFault::Unfit);
    }
    Ok(Term::Un(op, Boxed::new(alloc, a)?))
}

// Whether an operator takes arguments of these sorts.
#[tactic(auto, using(crate::proofs::Counting::is_given))]
fn takes(op: BinOp, a: Sort, b: Sort) -> bool
    ensures { result ≡ bin_takes op a b }
{
    op.result(a, b).is_some()
}

/// An operator on two terms.
pub(crate) fn bin(alloc: Global, op: BinOp, a: Term, b: Term) -> Result<Term, TermFault>
    ensures { Makes result (bin_term op (tree a) (tree b)) }
{
    if !takes(op, sort_of(&a), sort_of(&b)) {
        return Err(TermFault::Unfit);
    }
    let (a, b) = two_parts(alloc, a, b)?;
    Ok(Term::Bin(op, a, b))
}

// The order of numbers, or of words by their numbers.
fn order(alloc: Global, op: BinOp, a: Term, b: Term) -> Result<Term, TermFault>
    ensures { Makes result (order_term op (tree a) (tree b)) }
{
    if sort_of(&a) == Sort::W64 && sort_of(&b) == Sort::W64 {
        return order_of_words(alloc, op, a, b);
    }
    bin(alloc, op, a, b)
}

fn order_of_words(alloc: Global, op: BinOp, a: Term, b: Term) -> Result<Term, TermFault>
    ensures { Makes result (Some (tm.Bin op (tm.Un un.Int (tree a)) (tm.Un un.Int (tree b)))) }
{
    let (a, b) = two_parts(alloc, a, b)?;
    let (a, b) = two_parts(alloc, Term::Un(UnOp::Int, a), Term::Un(UnOp::Int, b))?;
    Ok(Term::Bin(op, a, b))
}

fn negated(alloc: Global, p: Result<Term, TermFault>) -> Result<Term, TermFault>
    ensures ok { IfOk p (λ t. Makes result (Some (tm.Un un.LogicNot (tree t)))) }
    ensures err { IfErr p (λ e. result ≡ Err e) }
{
    let part = Boxed::new(alloc, p?)?;
    Ok(Term::Un(UnOp::LogicNot, part))
}

pub(crate) fn unary(alloc: Global, op: UnaryOp, a: Term) -> Result<Term, TermFault>
    ensures { Makes result (unary_term op (tree a)) }
{
    match op {
        UnaryOp::Not => un(alloc, UnOp::LogicNot, a),
        UnaryOp::Neg => un(alloc, UnOp::Neg, a),
    }
}

/// An operator between two terms.
pub(crate) fn binary(alloc: Global, op: BinaryOp, a: Term, b: Term) -> Result<Term, TermFault>
    ensures { Makes result (binary_term op (tree a) (tree b)) }
{
    match op {
        BinaryOp::Mul => bin(alloc, BinOp::Mul, a, b),
        BinaryOp::Add => bin(alloc, BinOp::Add, a, b),
        BinaryOp::Sub => bin(alloc, BinOp::Sub, a, b),
        BinaryOp::Eq => bin(alloc, BinOp::Eq, a, b),
        BinaryOp::Ne => negated(alloc, bin(alloc, BinOp::Eq, a, b)),
        BinaryOp::Lt => order(alloc, BinOp::Lt, a, b),
        BinaryOp::Le => order(alloc, BinOp::Le, a, b),
        BinaryOp::Gt => order(alloc, BinOp::Lt, b, a),
        BinaryOp::Ge => order(alloc, BinOp::Le, b, a),
        BinaryOp::And => bin(alloc, BinOp::LogicAnd, a, b),
        BinaryOp::Or => bin(alloc, BinOp::LogicOr, a, b),
        BinaryOp::Implies => bin(alloc, BinOp::Implies, a, b),
    }
}

// The constant that a term is.
fn constant(t: &Term) -> Option<u8>
    ensures { result ≡ constant (tree t.now) }
{
    match t {
        Term::Int(z) => u8::try_from(*z).ok(),
        _ => None,
    }
}

// An operator with its constant.
fn counted(alloc: Global, op: CountedOp, a: Term, n: Option<u8>) -> Result<Term, TermFault>
    ensures { Makes result (counted_term op (tree a) n) }
{
    match n {
        None => Err(TermFault::Unfit),
        Some(n) => {
            if op.result(n, sort_of(&a)).is_none() {
                return Err(TermFault::Unfit);
            }
            Ok(Term::Shift(op, n, Boxed::new(alloc, a)?))
        }
    }
}

fn chooses_words(n: u8) -> bool
    ensures { result ≡ chooses_words n }
{
    matches!(n, 0 | 1 | 16 | 17)
}

// A product without carries, of the words that the constant chooses.
fn clmul(alloc: Global, a: Term, b: Term, n: Option<u8>) -> Result<Term, TermFault>
    ensures { Makes result (clmul_term (tree a) (tree b) n) }
{
    match n {
        None => Err(TermFault::Unfit),
        Some(n) => {
            if !(chooses_words(n) && (sort_of(&a) == Sort::W128 && sort_of(&b) == Sort::W128)) {
                return Err(TermFault::Unfit);
            }
            let (a, b) = two_parts(alloc, a, b)?;
            Ok(Term::Clmul(a, b, n))
        }
    }
}

/// An operator that is written as a call of one argument.
pub(crate) fn one(alloc: Global, op: Operator, a: Term) -> Result<Term, TermFault>
    ensures { Makes result (one_term op (tree a)) }
{
    match op {
        Operator::Un(op) => un(alloc, op, a),
        _ => Err(TermFault::Unfit),
    }
}

/// An operator that is written as a call of two arguments.
pub(crate) fn two(alloc: Global, op: Operator, a: Term, b: Term) -> Result<Term, TermFault>
    ensures { Makes result (two_term op (tree a) (tree b)) }
{
    match op {
        Operator::Bin(op) => bin(alloc, op, a, b),
        Operator::Counted(op) => counted(alloc, op, a, constant(&b)),
        _ => Err(TermFault::Unfit),
    }
}

fn ite(alloc: Global, c: Term, a: Term, b: Term) -> Result<Term, TermFault>
    ensures { Makes result (three_term operator.Ite (tree c) (tree a) (tree b)) }
{
    if !(sort_of(&c) == Sort::Bool && sort_of(&b) == sort_of(&a)) {
        return Err(TermFault::Unfit);
    }
    let (c, a, b) = three_parts(alloc, c, a, b)?;
    Ok(Term::Ite(c, a, b))
}

// Whether they are an array, a number and a word.
fn put_takes(x: &Term, i: &Term, w: &Term) -> bool
    ensures { result ≡ put_takes (tm_sort (tree x.now)) (tm_sort (tree i.now)) (tm_sort (tree w.now)) }
{
    sort_of(x) == Sort::Arr && (sort_of(i) == Sort::Int && sort_of(w) == Sort::W64)
}

fn put(alloc: Global, x: Term, i: Term, w: Term) -> Result<Term, TermFault>
    ensures { Makes result (three_term operator.Put (tree x) (tree i) (tree w)) }
{
    if !put_takes(&x, &i, &w) {
        return Err(TermFault::Unfit);
    }
    let (x, i, w) = three_parts(alloc, x, i, w)?;
    Ok(Term::Put(x, i, w))
}

fn put_dword(alloc: Global, x: Term, j: Term, w: Term) -> Result<Term, TermFault>
    ensures { Makes result (three_term operator.PutDword (tree x) (tree j) (tree w)) }
{
    if !put_takes(&x, &j, &w) {
        return Err(TermFault::Unfit);
    }
    let (x, j, w) = three_parts(alloc, x, j, w)?;
    Ok(Term::PutDword(x, j, w))
}

/// An operator that is written as a call of three arguments.
pub(crate) fn three(
    alloc: Global,
    op: Operator,
    a: Term,
    b: Term,
    c: Term,
) -> Result<Term, TermFault>
    ensures { Makes result (three_term op (tree a) (tree b) (tree c)) }
{
    match op {
        Operator::Ite => ite(alloc, a, b, c),
        Operator::Put => put(alloc, a, b, c),
        Operator::PutDword => put_dword(alloc, a, b, c),
        Operator::Clmul => clmul(alloc, a, b, constant(&c)),
        _ => Err(TermFault::Unfit),
    }
}

/// `forall` over a name.
pub(crate) fn all(
    alloc: Global,
    name: &Text,
    low: Term,
    high: Term,
    body: Term,
) -> Result<Term, TermFault>
    ensures { Makes result (all_term name.now (tree low) (tree high) (tree body)) }
{
    if !(sort_of(&low) == Sort::Int
        && (sort_of(&high) == Sort::Int && sort_of(&body) == Sort::Bool))
    {
        return Err(TermFault::Unfit);
    }
    let parts = three_parts(alloc, low, high, body)?;
    let (parts, name) = with(parts, Text::from_slice(alloc, name.as_bytes()))?;
    let (low, high, body) = parts;
    Ok(Term::All(name, low, high, body))
}
