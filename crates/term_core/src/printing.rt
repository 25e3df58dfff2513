// The text of a term.

ghost use Rattle.std.specs.Prelude.{◌≡◌, ◌++◌, [], map, codes, decimal, IfOk, OnOk, if◌then◌else◌};
ghost use Rattle.term_core.specs.declared.operator.Operator.TheVariants as operator;
ghost use Rattle.term_core.specs.Functions.{functions};
ghost use Rattle.term_core.specs.Terms.{tree, tms};
ghost use Rattle.term_core.specs.Printed.{operator_word, commas, truth_text, function_name, printed, printed_all};
ghost use Rattle.term_core.specs.inner.Pieces.{un_front, un_end, bin_front, bin_middle, bin_end};

use crate::functions::Funs;
use crate::operator::{BinOp, CountedOp, Operator, UnOp};
use crate::term::Term;
use std::alloc::{AllocError as NoMemory, Global};
use x64_syntax::{Text, push, push_number};

/// The text of a term: operators between two terms stand in round brackets with a blank on each side, as `(a + b)`, and
/// numbers are decimal with the suffix of their sort. A function is written by its name, one that isn't there by none.
pub fn print_term(alloc: Global, f: &Funs, t: &Term) -> Result<Text, NoMemory>
    ensures { IfOk result (λ text. text ≡ printed (functions f.now) (tree t.now)) }
{
    let mut out = Vec::new(alloc);
    push_term(&mut out, f, t)?;
    Ok(Text::from_vec(out))
}

#[cycle(printing)]
#[tactic(auto, unfolding(crate::specs::Printed::printed))]
fn push_term(out: &mut Vec<u8>, f: &Funs, t: &Term) -> Result<(), NoMemory>
    ensures { OnOk result (out.new.items ≡ out.old.items ++ printed (functions f.now) (tree t.now)) }
{
    match t {
        Term::Name(text, _) => push_text(out, text),
        Term::Int(z) => push_number(out, *z),
        Term::W64(n) => push_word(out, *n),
        Term::W128(n) => push_wide(out, *n),
        Term::Bool(b) => push_truth(out, *b),
        Term::Un(op, a) => {
            push_un_front(out, *op)?;
            push_term(out, f, a.get())?;
            push(out, op.end())
        }
        Term::Bin(op, a, b) => {
            push_bin_front(out, *op)?;
            push_term(out, f, a.get())?;
            push(out, op.middle())?;
            push_term(out, f, b.get())?;
            push(out, op.end())
        }
        Term::Ite(c, a, b) => {
            push_first(out, f, Operator::Ite, c.get())?;
            push_next(out, f, a.get())?;
            push_last(out, f, b.get())
        }
        Term::Put(x, i, w) => {
            push_first(out, f, Operator::Put, x.get())?;
            push_next(out, f, i.get())?;
            push_last(out, f, w.get())
        }
        Term::PutDword(x, j, w) => {
            push_first(out, f, Operator::PutDword, x.get())?;
            push_next(out, f, j.get())?;
            push_last(out, f, w.get())
        }
        Term::Clmul(a, b, n) => {
            push_first(out, f, Operator::Clmul, a.get())?;
            push_next(out, f, b.get())?;
            push_constant(out, *n)
        }
        Term::Shift(op, n, a) => {
            push_first(out, f, Operator::Counted(*op), a.get())?;
            push_constant(out, *n)
        }
        Term::Call(k, _, args) => {
            push_function(out, f, *k)?;
            push_list(out, f, args.as_slice())?;
            push(out, ")")
        }
        Term::All(text, low, high, body) => {
            push_binder(out, text)?;
            push_next(out, f, low.get())?;
            push_next(out, f, high.get())?;
            push_last(out, f, body.get())
        }
    }
}

// An operator's word and its first argument.
#[cycle(printing)]
fn push_first(out: &mut Vec<u8>, f: &Funs, op: Operator, t: &Term) -> Result<(), NoMemory>
    ensures { OnOk result (out.new.items ≡ out.old.items ++ (operator_word op ++ codes "(" ++ printed (functions f.now) (tree t.now))) }
{
    push_open(out, op)?;
    push_term(out, f, t)
}

// A term as a further argument.
#[cycle(printing)]
fn push_next(out: &mut Vec<u8>, f: &Funs, t: &Term) -> Result<(), NoMemory>
    ensures { OnOk result (out.new.items ≡ out.old.items ++ (codes ", " ++ printed (functions f.now) (tree t.now))) }
{
    push(out, ", ")?;
    push_term(out, f, t)
}

#[cycle(printing)]
fn push_last(out: &mut Vec<u8>, f: &Funs, t: &Term) -> Result<(), NoMemory>
    ensures { OnOk result (out.new.items ≡ out.old.items ++ (codes ", " ++ printed (functions f.now) (tree t.now) ++ codes ")")) }
{
    push_next(out, f, t)?;
    push(out, ")")
}

// Terms as arguments.
#[cycle(printing)]
#[tactic(auto, unfolding(crate::specs::Printed::printed_all))]
fn push_list(out: &mut Vec<u8>, f: &Funs, list: &[Term]) -> Result<(), NoMemory>
    ensures { OnOk result (out.new.items ≡ out.old.items ++ commas (printed_all (functions f.now) (tms (map tree list.now)))) }
{
    let mut is_first = true;
    for t in list {
        push_separator(out, is_first)?;
        push_term(out, f, t)?;
        is_first = false;
    }
    Ok(())
}

fn push_separator(out: &mut Vec<u8>, is_first: bool) -> Result<(), NoMemory>
    ensures { OnOk result (out.new.items ≡ out.old.items ++ (if is_first then [] else codes ", ")) }
{
    if is_first { Ok(()) } else { push(out, ", ") }
}

// The operator's word and the bracket behind it.
fn push_open(out: &mut Vec<u8>, op: Operator) -> Result<(), NoMemory>
    ensures { OnOk result (out.new.items ≡ out.old.items ++ (operator_word op ++ codes "(")) }
{
    push(out, op.word())?;
    push(out, "(")
}

// What stands before the argument.
fn push_un_front(out: &mut Vec<u8>, op: UnOp) -> Result<(), NoMemory>
    ensures { OnOk result (out.new.items ≡ out.old.items ++ un_front op) }
{
    match op {
        UnOp::Neg => push(out, "-("),
        UnOp::LogicNot => push(out, "!"),
        UnOp::Int | UnOp::Word | UnOp::Not | UnOp::Hi | UnOp::Lo | UnOp::Len => {
            push_open(out, Operator::Un(op))
        }
    }
}

// What stands before both arguments.
fn push_bin_front(out: &mut Vec<u8>, op: BinOp) -> Result<(), NoMemory>
    ensures { OnOk result (out.new.items ≡ out.old.items ++ bin_front op) }
{
    match op {
        BinOp::Index => Ok(()),
        BinOp::Add | BinOp::Sub | BinOp::Mul | BinOp::Eq | BinOp::Lt | BinOp::Le => push(out, "("),
        BinOp::LogicAnd | BinOp::LogicOr | BinOp::Implies => push(out, "("),
        _ => push_open(out, Operator::Bin(op)),
    }
}

// A constant as the last argument.
fn push_constant(out: &mut Vec<u8>, n: u8) -> Result<(), NoMemory>
    ensures { OnOk result (out.new.items ≡ out.old.items ++ (codes ", " ++ decimal n ++ codes ")")) }
{
    push(out, ", ")?;
    push_number(out, n)?;
    push(out, ")")
}

// A quantifier as far as the name that it binds.
fn push_binder(out: &mut Vec<u8>, text: &Text) -> Result<(), NoMemory>
    ensures { OnOk result (out.new.items ≡ out.old.items ++ ((operator_word operator.All ++ codes "(") ++ text.now)) }
{
    push_open(out, Operator::All)?;
    push_text(out, text)
}

// A function's name and the bracket behind it.
fn push_function(out: &mut Vec<u8>, f: &Funs, k: u32) -> Result<(), NoMemory>
    ensures { OnOk result (out.new.items ≡ out.old.items ++ (function_name (functions f.now) k ++ codes "(")) }
{
    if let Some(function) = f.as_slice().get(k as usize) {
        push_text(out, &function.name)?;
    }
    push(out, "(")
}

fn push_text(out: &mut Vec<u8>, text: &Text) -> Result<(), NoMemory>
    ensures { OnOk result (out.new.items ≡ out.old.items ++ text.now) }
{
    out.extend_from_slice(text.as_bytes())
}

fn push_word(out: &mut Vec<u8>, n: u64) -> Result<(), NoMemory>
    ensures { OnOk result (out.new.items ≡ out.old.items ++ (decimal n ++ codes "w")) }
{
    push_number(out, n)?;
    push(out, "w")
}

fn push_wide(out: &mut Vec<u8>, n: u128) -> Result<(), NoMemory>
    ensures { OnOk result (out.new.items ≡ out.old.items ++ (decimal n ++ codes "v")) }
{
    push_number(out, n)?;
    push(out, "v")
}

fn push_truth(out: &mut Vec<u8>, b: bool) -> Result<(), NoMemory>
    ensures { OnOk result (out.new.items ≡ out.old.items ++ truth_text b) }
{
    push(out, if b { "true" } else { "false" })
}

impl Operator {
    // How it is written where it is written as a call, and else nothing.
    #[tactic(auto, unfolding(crate::specs::Printed::operator_word, x64_syntax::specs::Tables::built_in, crate::specs::Terms::un_eq, crate::specs::Terms::bin_eq, crate::specs::Terms::counted_eq))]
    fn word(self) -> &'static str
        ensures { result.now ≡ operator_word self }
    {
        match self {
            Operator::Un(op) => op.word(),
            Operator::Bin(op) => op.word(),
            Operator::Counted(op) => op.word(),
            Operator::Ite => "ite",
            Operator::Put => "put",
            Operator::PutDword => "putdword",
            Operator::Clmul => "clmul",
            Operator::All => "forall",
        }
    }
}

impl UnOp {
    // What stands behind the argument.
    fn end(self) -> &'static str
        ensures { result.now ≡ un_end self }
    {
        match self {
            UnOp::LogicNot => "",
            _ => ")",
        }
    }

    #[tactic(auto, unfolding(crate::specs::Printed::operator_word, x64_syntax::specs::Tables::built_in, crate::specs::Terms::un_eq, crate::specs::Terms::bin_eq, crate::specs::Terms::counted_eq))]
    fn word(self) -> &'static str
        ensures { result.now ≡ operator_word (operator.Un self) }
    {
        match self {
            UnOp::Neg | UnOp::LogicNot => "",
            UnOp::Int => "int",
            UnOp::Word => "word",
            UnOp::Not => "not",
            UnOp::Hi => "hi",
            UnOp::Lo => "lo",
            UnOp::Len => "len",
        }
    }
}

impl BinOp {
    // What stands between the arguments.
    fn middle(self) -> &'static str
        ensures { result.now ≡ bin_middle self }
    {
        match self {
            BinOp::Add => " + ",
            BinOp::Sub => " - ",
            BinOp::Mul => " * ",
            BinOp::Eq => " == ",
            BinOp::Lt => " < ",
            BinOp::Le => " <= ",
            BinOp::LogicAnd => " && ",
            BinOp::LogicOr => " || ",
            BinOp::Implies => " ==> ",
            BinOp::Index => "[",
            _ => ", ",
        }
    }

    // What stands behind both.
    fn end(self) -> &'static str
        ensures { result.now ≡ bin_end self }
    {
        match self {
            BinOp::Index => "]",
            _ => ")",
        }
    }

    #[tactic(auto, unfolding(crate::specs::Printed::operator_word, x64_syntax::specs::Tables::built_in, crate::specs::Terms::un_eq, crate::specs::Terms::bin_eq, crate::specs::Terms::counted_eq))]
    fn word(self) -> &'static str
        ensures { result.now ≡ operator_word (operator.Bin self) }
    {
        match self {
            BinOp::Add | BinOp::Sub | BinOp::Mul | BinOp::Eq | BinOp::Lt | BinOp::Le => "",
            BinOp::LogicAnd | BinOp::LogicOr | BinOp::Implies | BinOp::Index => "",
            BinOp::Div => "div",
            BinOp::Mod => "mod",
            BinOp::And => "and",
            BinOp::Or => "or",
            BinOp::Xor => "xor",
            BinOp::Mulhi => "mulhi",
            BinOp::Pair => "pair",
            BinOp::Paddd => "paddd",
            BinOp::Pshufb => "pshufb",
            BinOp::Aesenc => "aesenc",
            BinOp::Aesenclast => "aesenclast",
            BinOp::ByteAt => "byteat",
            BinOp::DwordAt => "dwordat",
        }
    }
}

impl CountedOp {
    #[tactic(auto, unfolding(crate::specs::Printed::operator_word, x64_syntax::specs::Tables::built_in, crate::specs::Terms::un_eq, crate::specs::Terms::bin_eq, crate::specs::Terms::counted_eq))]
    fn word(self) -> &'static str
        ensures { result.now ≡ operator_word (operator.Counted self) }
    {
        match self {
            CountedOp::Shl => "shl",
            CountedOp::Shr => "shr",
            CountedOp::Rol => "rol",
            CountedOp::Ror => "ror",
            CountedOp::Pshufd => "pshufd",
            CountedOp::Pslld => "pslld",
            CountedOp::Psrld => "psrld",
            CountedOp::Pslldq => "pslldq",
            CountedOp::Psrldq => "psrldq",
        }
    }
}
