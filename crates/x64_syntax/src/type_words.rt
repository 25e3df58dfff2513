// The sorts, the kinds of operands and the calling conventions.

ghost use Rattle.std.specs.Prelude.{◌≡◌};
ghost use Rattle.x64_syntax.specs.Words.{type_word_of};

use crate::names::table_value;

/// A sort of a value: whole numbers, truths, words of 64 and of 128 bits, and arrays of words of 64 bits.
#[derive(Clone, Copy, Debug, PartialEq, Eq)]
pub enum Sort {
    Int,
    Bool,
    W64,
    W128,
    Arr,
}

/// A kind of an operand: a general register, a register or a constant, or an xmm register.
#[derive(Clone, Copy, Debug, PartialEq, Eq)]
pub enum Kind {
    Reg,
    Opr,
    Xmm,
}

/// A calling convention: that of System V, or that of Windows.
#[derive(Clone, Copy, Debug, PartialEq, Eq)]
pub enum Abi {
    Sysv,
    Win,
}

/// A sort of a value, a kind of an operand, or a calling convention.
#[derive(Clone, Copy, Debug, PartialEq, Eq)]
pub enum TypeWord {
    Sort(Sort),
    Kind(Kind),
    Abi(Abi),
}

/// These words, with how each is written.
pub const TYPE_WORDS: [(&str, TypeWord); 10] = [
    ("int", TypeWord::Sort(Sort::Int)),
    ("bool", TypeWord::Sort(Sort::Bool)),
    ("w64", TypeWord::Sort(Sort::W64)),
    ("w128", TypeWord::Sort(Sort::W128)),
    ("arr", TypeWord::Sort(Sort::Arr)),
    ("reg", TypeWord::Kind(Kind::Reg)),
    ("opr", TypeWord::Kind(Kind::Opr)),
    ("xmm", TypeWord::Kind(Kind::Xmm)),
    ("sysv", TypeWord::Abi(Abi::Sysv)),
    ("win", TypeWord::Abi(Abi::Win)),
];

/// The sort, kind or convention that is written so.
#[tactic(auto, unfolding(crate::specs::Tables::type_words))]
pub fn type_word_named(name: &[u8]) -> Option<TypeWord>
    ensures { result ≡ type_word_of name.now }
{
    table_value(&TYPE_WORDS, name)
}
