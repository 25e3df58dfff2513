// What operators give.

ghost use Rattle.std.specs.Prelude.{◌≡◌, ◌*◌, ◌/◌, ◌%◌, ◌^◌, if◌then◌else◌, ◌+ℤ◌, ◌-ℤ◌, ◌*ℤ◌, neg_ℤ, bit_and, bit_or, bit_xor};
ghost use Rattle.x64_syntax.specs.Numbers.{T};
ghost use Rattle.aes_words.specs.Rounds.{half};
ghost use Rattle.word_ops.specs.Words.{rol, ror};
ghost use Rattle.term_core.specs.Literals.{literal_value, val_sort};
ghost use Rattle.term_core.specs.Value.{Whole, val_eq, floor_div, floor_mod, not_value, sum_value, difference_value, product_value, bits_value, un_value, bin_value, counted_value, clmul_value};
ghost use Rattle.term_value.specs.Evaluation.{checked};
ghost use Rattle.term_value.specs.inner.Courses.{values_of};

use crate::arrays::{byte_at, dword_at, word_at};
use crate::fault::ValueFault;
use crate::literals::{array, as_wide, as_word, int, truth, whole, wide, word, word_of};
use aes_words::{aes_last, aes_round, clmul64};
use term_core::{BinOp, CountedOp, Literal, UnOp};
use word_ops::{
    bytes_left, bytes_right, high_word, lanes32_add, lanes32_left, lanes32_right, low_word,
    mul_wide, pair_words, rotate_left, rotate_right, shuffle_bytes, shuffle_dwords,
};

fn negation(a: i128) -> Result<Literal, ValueFault>
    ensures { values_of result ≡ checked (Whole (neg_ℤ a)) }
{
    match a.checked_neg() {
        Some(z) => Ok(Literal::Int(z)),
        None => Err(ValueFault::TooWide),
    }
}

// All bits of a word changed.
fn complement(a: &Literal) -> Literal
    ensures { literal_value result ≡ not_value (val_sort (literal_value a.now)) (literal_value a.now) }
{
    match a {
        Literal::W128(n) => Literal::W128(!*n),
        Literal::W64(n) => Literal::W64(!*n),
        Literal::Int(_) | Literal::Bool(_) | Literal::Arr(_) => Literal::W64(!0),
    }
}

/// What an operator gives.
pub(crate) fn un_value(op: UnOp, a: &Literal) -> Result<Literal, ValueFault>
    ensures { values_of result ≡ checked (un_value op (val_sort (literal_value a.now)) (literal_value a.now)) }
{
    match op {
        UnOp::Neg => negation(whole(a)),
        UnOp::Int => int(i128::from(word(a))),
        UnOp::Word => Ok(Literal::W64(word_of(whole(a)))),
        UnOp::LogicNot => Ok(Literal::Bool(!truth(a))),
        UnOp::Not => Ok(complement(a)),
        UnOp::Hi => Ok(Literal::W64(high_word(wide(a)))),
        UnOp::Lo => Ok(Literal::W64(low_word(wide(a)))),
        UnOp::Len => int(array(a).len() as i128),
    }
}

fn sum(a: &Literal, b: &Literal) -> Result<Literal, ValueFault>
    ensures { values_of result ≡ checked (sum_value (val_sort (literal_value a.now)) (literal_value a.now) (literal_value b.now)) }
{
    match a {
        Literal::W64(n) => Ok(Literal::W64(n.wrapping_add(word(b)))),
        Literal::Int(_) | Literal::Bool(_) | Literal::W128(_) | Literal::Arr(_) => {
            whole_sum(whole(a), whole(b))
        }
    }
}

fn whole_sum(a: i128, b: i128) -> Result<Literal, ValueFault>
    ensures { values_of result ≡ checked (Whole (a +ℤ b)) }
{
    match a.checked_add(b) {
        Some(z) => Ok(Literal::Int(z)),
        None => Err(ValueFault::TooWide),
    }
}

fn difference(a: &Literal, b: &Literal) -> Result<Literal, ValueFault>
    ensures { values_of result ≡ checked (difference_value (val_sort (literal_value a.now)) (literal_value a.now) (literal_value b.now)) }
{
    match a {
        Literal::W64(n) => Ok(Literal::W64(n.wrapping_sub(word(b)))),
        Literal::Int(_) | Literal::Bool(_) | Literal::W128(_) | Literal::Arr(_) => {
            whole_difference(whole(a), whole(b))
        }
    }
}

fn whole_difference(a: i128, b: i128) -> Result<Literal, ValueFault>
    ensures { values_of result ≡ checked (Whole (a -ℤ b)) }
{
    match a.checked_sub(b) {
        Some(z) => Ok(Literal::Int(z)),
        None => Err(ValueFault::TooWide),
    }
}

fn product(a: &Literal, b: &Literal) -> Result<Literal, ValueFault>
    ensures { values_of result ≡ checked (product_value (val_sort (literal_value a.now)) (literal_value a.now) (literal_value b.now)) }
{
    match a {
        Literal::W64(n) => Ok(Literal::W64(n.wrapping_mul(word(b)))),
        Literal::Int(_) | Literal::Bool(_) | Literal::W128(_) | Literal::Arr(_) => {
            whole_product(whole(a), whole(b))
        }
    }
}

fn whole_product(a: i128, b: i128) -> Result<Literal, ValueFault>
    ensures { values_of result ≡ checked (Whole (a *ℤ b)) }
{
    match a.checked_mul(b) {
        Some(z) => Ok(Literal::Int(z)),
        None => Err(ValueFault::TooWide),
    }
}

// Rounded down where the second is above 0, else 0.
fn floor_div(a: i128, b: i128) -> i128
    ensures { result ≡ floor_div a b }
{
    if b > 0 { a.div_euclid(b) } else { 0 }
}

fn floor_mod(a: i128, b: i128) -> i128
    ensures { result ≡ floor_mod a b }
{
    if b > 0 { a.rem_euclid(b) } else { 0 }
}

// Whether two values are one.
fn same_value(a: &Literal, b: &Literal) -> bool
    ensures { result ≡ val_eq (literal_value a.now) (literal_value b.now) }
{
    match (a, b) {
        (Literal::Int(a), Literal::Int(b)) => a == b,
        (Literal::Bool(a), Literal::Bool(b)) => a == b,
        (Literal::W64(a), Literal::W64(b)) => a == b,
        (Literal::W128(a), Literal::W128(b)) => a == b,
        (Literal::Arr(a), Literal::Arr(b)) => a.as_slice() == b.as_slice(),
        _ => false,
    }
}

// Words bit by bit.
fn and(a: &Literal, b: &Literal) -> Literal
    ensures { literal_value result ≡ bits_value bit_and (val_sort (literal_value a.now)) (literal_value a.now) (literal_value b.now) }
{
    match a {
        Literal::W128(n) => Literal::W128(*n & wide(b)),
        Literal::Int(_) | Literal::Bool(_) | Literal::W64(_) | Literal::Arr(_) => {
            Literal::W64(word(a) & word(b))
        }
    }
}

fn or(a: &Literal, b: &Literal) -> Literal
    ensures { literal_value result ≡ bits_value bit_or (val_sort (literal_value a.now)) (literal_value a.now) (literal_value b.now) }
{
    match a {
        Literal::W128(n) => Literal::W128(*n | wide(b)),
        Literal::Int(_) | Literal::Bool(_) | Literal::W64(_) | Literal::Arr(_) => {
            Literal::W64(word(a) | word(b))
        }
    }
}

fn xor(a: &Literal, b: &Literal) -> Literal
    ensures { literal_value result ≡ bits_value bit_xor (val_sort (literal_value a.now)) (literal_value a.now) (literal_value b.now) }
{
    match a {
        Literal::W128(n) => Literal::W128(*n ^ wide(b)),
        Literal::Int(_) | Literal::Bool(_) | Literal::W64(_) | Literal::Arr(_) => {
            Literal::W64(word(a) ^ word(b))
        }
    }
}

/// What an operator gives of two values.
pub(crate) fn bin_value(op: BinOp, a: &Literal, b: &Literal) -> Result<Literal, ValueFault>
    ensures { values_of result ≡ checked (bin_value op (val_sort (literal_value a.now)) (literal_value a.now) (literal_value b.now)) }
{
    match op {
        BinOp::Add => sum(a, b),
        BinOp::Sub => difference(a, b),
        BinOp::Mul => product(a, b),
        BinOp::Div => int(floor_div(whole(a), whole(b))),
        BinOp::Mod => int(floor_mod(whole(a), whole(b))),
        BinOp::Eq => Ok(Literal::Bool(same_value(a, b))),
        BinOp::Lt => Ok(Literal::Bool(whole(a) < whole(b))),
        BinOp::Le => Ok(Literal::Bool(whole(a) <= whole(b))),
        BinOp::LogicAnd => Ok(Literal::Bool(truth(a) && truth(b))),
        BinOp::LogicOr => Ok(Literal::Bool(truth(a) || truth(b))),
        BinOp::Implies => Ok(Literal::Bool(!truth(a) || truth(b))),
        BinOp::And => Ok(and(a, b)),
        BinOp::Or => Ok(or(a, b)),
        BinOp::Xor => Ok(xor(a, b)),
        BinOp::Mulhi => Ok(Literal::W64(mul_wide(word(a), word(b)).0)),
        BinOp::Pair => Ok(Literal::W128(pair_words(word(a), word(b)))),
        BinOp::Paddd => Ok(as_wide(lanes32_add(wide(a), wide(b)))),
        BinOp::Pshufb => Ok(as_wide(shuffle_bytes(wide(a), wide(b)))),
        BinOp::Aesenc => Ok(as_wide(aes_round(wide(a), wide(b)))),
        BinOp::Aesenclast => Ok(as_wide(aes_last(wide(a), wide(b)))),
        BinOp::Index => Ok(as_word(word_at(array(a), whole(b)))),
        BinOp::ByteAt => Ok(as_word(byte_at(array(a), whole(b)))),
        BinOp::DwordAt => Ok(as_word(dword_at(array(a), whole(b)))),
    }
}

fn shift_left(a: u64, n: u8) -> u64
    ensures { result ≡ (a * 2 ^ n) % T }
{
    if n < 64 { a << n } else { 0 }
}

fn shift_right(a: u64, n: u8) -> u64
    ensures { result ≡ a / 2 ^ n }
{
    if n < 64 { a >> n } else { 0 }
}

// A rotation by 64 or more leaves all bits where they are.
fn rol(a: u64, n: u8) -> u64
    ensures { result ≡ rol a n }
{
    if n < 64 { rotate_left(a, n) } else { a }
}

fn ror(a: u64, n: u8) -> u64
    ensures { result ≡ ror a n }
{
    if n < 64 { rotate_right(a, n) } else { a }
}

/// What an operator gives with a constant.
pub(crate) fn counted_value(op: CountedOp, n: u8, a: &Literal) -> Literal
    ensures { literal_value result ≡ counted_value op n (literal_value a.now) }
{
    match op {
        CountedOp::Shl => Literal::W64(shift_left(word(a), n)),
        CountedOp::Shr => as_word(shift_right(word(a), n)),
        CountedOp::Rol => as_word(rol(word(a), n)),
        CountedOp::Ror => as_word(ror(word(a), n)),
        CountedOp::Pshufd => as_wide(shuffle_dwords(wide(a), n)),
        CountedOp::Pslld => as_wide(lanes32_left(wide(a), n)),
        CountedOp::Psrld => as_wide(lanes32_right(wide(a), n)),
        CountedOp::Pslldq => as_wide(bytes_left(wide(a), n)),
        CountedOp::Psrldq => as_wide(bytes_right(wide(a), n)),
    }
}

// The word of a word of 128 bits that a bit chooses.
fn half(a: u128, is_upper: bool) -> u64
    ensures { result ≡ half a (if is_upper then 1 else 0) }
{
    if is_upper { high_word(a) } else { low_word(a) }
}

/// The product without carries of the words that bits 0 and 4 of a number choose.
pub(crate) fn clmul_value(a: &Literal, b: &Literal, n: u8) -> Literal
    ensures { literal_value result ≡ clmul_value (literal_value a.now) (literal_value b.now) n }
{
    as_wide(clmul64(half(wide(a), n % 2 == 1), half(wide(b), n / 16 % 2 == 1)))
}
