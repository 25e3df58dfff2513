// The sorts of what operators give, by the sort of the first argument.

ghost use Rattle.std.specs.Prelude.{◌≡◌};
ghost use Rattle.term_core.specs.Operators.{bits_sort, sum_sort, un_sort, bin_sort, counted_sort};

use term_core::{BinOp, CountedOp, UnOp};
use x64_syntax::Sort;

fn bits_sort(a: Sort) -> Sort
    ensures { result ≡ bits_sort a }
{
    match a {
        Sort::W128 => Sort::W128,
        _ => Sort::W64,
    }
}

fn sum_sort(a: Sort) -> Sort
    ensures { result ≡ sum_sort a }
{
    match a {
        Sort::W64 => Sort::W64,
        _ => Sort::Int,
    }
}

pub(crate) fn un_sort(op: UnOp, a: Sort) -> Sort
    ensures { result ≡ un_sort op a }
{
    match op {
        UnOp::Neg | UnOp::Int | UnOp::Len => Sort::Int,
        UnOp::Word | UnOp::Hi | UnOp::Lo => Sort::W64,
        UnOp::LogicNot => Sort::Bool,
        UnOp::Not => bits_sort(a),
    }
}

pub(crate) fn bin_sort(op: BinOp, a: Sort) -> Sort
    ensures { result ≡ bin_sort op a }
{
    match op {
        BinOp::Add | BinOp::Sub | BinOp::Mul => sum_sort(a),
        BinOp::Div | BinOp::Mod => Sort::Int,
        BinOp::Eq | BinOp::Lt | BinOp::Le => Sort::Bool,
        BinOp::LogicAnd | BinOp::LogicOr | BinOp::Implies => Sort::Bool,
        BinOp::And | BinOp::Or | BinOp::Xor => bits_sort(a),
        BinOp::Mulhi | BinOp::Index | BinOp::ByteAt | BinOp::DwordAt => Sort::W64,
        BinOp::Pair | BinOp::Paddd | BinOp::Pshufb => Sort::W128,
        BinOp::Aesenc | BinOp::Aesenclast => Sort::W128,
    }
}

pub(crate) fn counted_sort(op: CountedOp) -> Sort
    ensures { result ≡ counted_sort op }
{
    match op {
        CountedOp::Shl | CountedOp::Shr | CountedOp::Rol | CountedOp::Ror => Sort::W64,
        _ => Sort::W128,
    }
}
