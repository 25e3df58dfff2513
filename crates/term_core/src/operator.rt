// The operators of terms, with the sorts that they take and give.

ghost use Rattle.std.specs.Prelude.{◌≡◌, ◌&&◌};
ghost use Rattle.term_core.specs.Terms.{un_eq, bin_eq, counted_eq};
ghost use Rattle.term_core.specs.Operators.{sort_eq, bits_sort, un_sort, un_result, bin_sort, bin_result, counted_sort, counted_result, given_if, operator_of};

use x64_syntax::{BuiltIn, Sort};

/// An operator on one term.
#[derive(Clone, Copy, Debug, PartialEq, Eq)]
pub enum UnOp {
    /// `-a` of a whole number.
    Neg,
    /// `int(w)`: the number of a word.
    Int,
    /// `word(i)`: the word of a number, modulo 2^64.
    Word,
    /// `!p`
    LogicNot,
    /// `not(a)` of words, bit by bit.
    Not,
    /// `hi(v)`: the upper word.
    Hi,
    /// `lo(v)`: the lower word.
    Lo,
    /// `len(x)`: how many words an array has.
    Len,
}

/// An operator on two terms.
#[derive(Clone, Copy, Debug, PartialEq, Eq)]
pub enum BinOp {
    /// `a + b`: of whole numbers, or of words modulo 2^64.
    Add,
    /// `a - b`
    Sub,
    /// `a * b`
    Mul,
    /// `div(a, b)`: rounded down where b is above 0, else 0.
    Div,
    /// `mod(a, b)`: the remainder of `div` where b is above 0, else 0.
    Mod,
    /// `a == b` at any one sort.
    Eq,
    /// `a < b` of whole numbers.
    Lt,
    /// `a <= b` of whole numbers.
    Le,
    /// `p && q`
    LogicAnd,
    /// `p || q`
    LogicOr,
    /// `p ==> q`
    Implies,
    /// `and(a, b)` of words, bit by bit.
    And,
    /// `or(a, b)` of words, bit by bit.
    Or,
    /// `xor(a, b)` of words, bit by bit.
    Xor,
    /// `mulhi(a, b)`: the upper word of the product.
    Mulhi,
    /// `pair(h, l)`: a word of 128 bits from its upper and its lower word.
    Pair,
    /// `paddd(a, b)`: sums of four numbers of 32 bits.
    Paddd,
    /// `pshufb(a, c)`: picks bytes of a by those of c.
    Pshufb,
    /// `aesenc(a, k)`: a round of AES of the state a with the round key k.
    Aesenc,
    /// `aesenclast(a, k)`: the last round.
    Aesenclast,
    /// `x[i]`: word i of an array, and 0 outside.
    Index,
    /// `byteat(x, j)`: byte j of an array's words, each from the low end, and 0 outside.
    ByteAt,
    /// `dwordat(x, j)`: half j of an array's words, the lower one first, and 0 outside.
    DwordAt,
}

/// An operator on a constant and a term: the shifts, rotations and picks of words.
#[derive(Clone, Copy, Debug, PartialEq, Eq)]
pub enum CountedOp {
    Shl,
    Shr,
    Rol,
    Ror,
    Pshufd,
    Pslld,
    Psrld,
    Pslldq,
    Psrldq,
}

impl UnOp {
    /// Whether the two are one operator.
    #[tactic(auto, unfolding(crate::specs::Terms::un_eq))]
    pub(crate) fn is(self, other: UnOp) -> bool
        ensures { result ≡ un_eq self other }
    {
        self as usize == other as usize
    }

    /// The sort of the result, by the sort of an argument that the operator takes.
    pub(crate) fn sort(self, a: Sort) -> Sort
        ensures { result ≡ un_sort self a }
    {
        match self {
            UnOp::Neg | UnOp::Int | UnOp::Len => Sort::Int,
            UnOp::Word | UnOp::Hi | UnOp::Lo => Sort::W64,
            UnOp::LogicNot => Sort::Bool,
            UnOp::Not => bits_sort(a),
        }
    }

    /// The sort of the result where the argument is of this sort, and none where the operator doesn't take it.
    pub fn result(self, a: Sort) -> Option<Sort>
        ensures { result ≡ un_result self a }
    {
        match (self, a) {
            (UnOp::Neg, Sort::Int) => Some(Sort::Int),
            (UnOp::Int, Sort::W64) => Some(Sort::Int),
            (UnOp::Word, Sort::Int) => Some(Sort::W64),
            (UnOp::LogicNot, Sort::Bool) => Some(Sort::Bool),
            (UnOp::Not, Sort::W64) => Some(Sort::W64),
            (UnOp::Not, Sort::W128) => Some(Sort::W128),
            (UnOp::Hi | UnOp::Lo, Sort::W128) => Some(Sort::W64),
            (UnOp::Len, Sort::Arr) => Some(Sort::Int),
            _ => None,
        }
    }
}

impl BinOp {
    /// Whether the two are one operator.
    #[tactic(auto, unfolding(crate::specs::Terms::bin_eq))]
    pub(crate) fn is(self, other: BinOp) -> bool
        ensures { result ≡ bin_eq self other }
    {
        self as usize == other as usize
    }

    /// The sort of the result, by the sort of a first argument that the operator takes.
    pub(crate) fn sort(self, a: Sort) -> Sort
        ensures { result ≡ bin_sort self a }
    {
        match self {
            BinOp::Add | BinOp::Sub | BinOp::Mul => match a {
                Sort::W64 => Sort::W64,
                _ => Sort::Int,
            },
            BinOp::Div | BinOp::Mod => Sort::Int,
            BinOp::Eq | BinOp::Lt | BinOp::Le => Sort::Bool,
            BinOp::LogicAnd | BinOp::LogicOr | BinOp::Implies => Sort::Bool,
            BinOp::And | BinOp::Or | BinOp::Xor => bits_sort(a),
            BinOp::Mulhi | BinOp::Index | BinOp::ByteAt | BinOp::DwordAt => Sort::W64,
            BinOp::Pair | BinOp::Paddd | BinOp::Pshufb => Sort::W128,
            BinOp::Aesenc | BinOp::Aesenclast => Sort::W128,
        }
    }

    /// The sort of the result where the arguments are of these sorts, and none where the operator doesn't take them.
    pub fn result(self, a: Sort, b: Sort) -> Option<Sort>
        ensures { result ≡ bin_result self a b }
    {
        match self {
            BinOp::Add | BinOp::Sub | BinOp::Mul => match (a, b) {
                (Sort::Int, Sort::Int) => Some(Sort::Int),
                (Sort::W64, Sort::W64) => Some(Sort::W64),
                _ => None,
            },
            BinOp::Div | BinOp::Mod => both(Sort::Int, a, b, Sort::Int),
            BinOp::Eq => both(a, a, b, Sort::Bool),
            BinOp::Lt | BinOp::Le => both(Sort::Int, a, b, Sort::Bool),
            BinOp::LogicAnd | BinOp::LogicOr | BinOp::Implies => {
                both(Sort::Bool, a, b, Sort::Bool)
            }
            BinOp::And | BinOp::Or | BinOp::Xor => match (a, b) {
                (Sort::W64, Sort::W64) => Some(Sort::W64),
                (Sort::W128, Sort::W128) => Some(Sort::W128),
                _ => None,
            },
            BinOp::Mulhi => both(Sort::W64, a, b, Sort::W64),
            BinOp::Pair => both(Sort::W64, a, b, Sort::W128),
            BinOp::Paddd | BinOp::Pshufb | BinOp::Aesenc | BinOp::Aesenclast => {
                both(Sort::W128, a, b, Sort::W128)
            }
            BinOp::Index | BinOp::ByteAt | BinOp::DwordAt => match (a, b) {
                (Sort::Arr, Sort::Int) => Some(Sort::W64),
                _ => None,
            },
        }
    }
}

// Of 128 bits where the argument has so many.
fn bits_sort(a: Sort) -> Sort
    ensures { result ≡ bits_sort a }
{
    match a {
        Sort::W128 => Sort::W128,
        _ => Sort::W64,
    }
}

// The result where both sorts are the one that is wanted.
fn both(want: Sort, a: Sort, b: Sort, gives: Sort) -> Option<Sort>
    ensures { result ≡ given_if (sort_eq a want && sort_eq b want) gives }
{
    if a == want && b == want {
        Some(gives)
    } else {
        None
    }
}

impl CountedOp {
    /// Whether the two are one operator.
    #[tactic(auto, unfolding(crate::specs::Terms::counted_eq))]
    pub(crate) fn is(self, other: CountedOp) -> bool
        ensures { result ≡ counted_eq self other }
    {
        self as usize == other as usize
    }

    /// The sort of the argument and of the result.
    pub(crate) fn sort(self) -> Sort
        ensures { result ≡ counted_sort self }
    {
        match self {
            CountedOp::Shl | CountedOp::Shr | CountedOp::Rol | CountedOp::Ror => Sort::W64,
            _ => Sort::W128,
        }
    }

    /// The sort of the result where the constant and the argument are such, and none where the operator doesn't take
    /// them.
    pub fn result(self, n: u8, a: Sort) -> Option<Sort>
        ensures { result ≡ counted_result self n a }
    {
        match (self, a) {
            (CountedOp::Shl | CountedOp::Shr | CountedOp::Rol | CountedOp::Ror, Sort::W64) => {
                if n <= 63 { Some(Sort::W64) } else { None }
            }
            (
                CountedOp::Pshufd
                | CountedOp::Pslld
                | CountedOp::Psrld
                | CountedOp::Pslldq
                | CountedOp::Psrldq,
                Sort::W128,
            ) => Some(Sort::W128),
            _ => None,
        }
    }
}

/// What an operator that is written as a call is in a term.
#[derive(Clone, Copy, Debug, PartialEq, Eq)]
pub enum Operator {
    Un(UnOp),
    Bin(BinOp),
    Counted(CountedOp),
    Ite,
    Put,
    PutDword,
    Clmul,
    All,
}

/// The operator of a built-in name, and none of those that stand in sources alone.
pub fn operator_of(word: BuiltIn) -> Option<Operator>
    ensures { result ≡ operator_of word }
{
    let operator = match word {
        BuiltIn::Div => Operator::Bin(BinOp::Div),
        BuiltIn::Mod => Operator::Bin(BinOp::Mod),
        BuiltIn::Int => Operator::Un(UnOp::Int),
        BuiltIn::Word => Operator::Un(UnOp::Word),
        BuiltIn::Ite => Operator::Ite,
        BuiltIn::And => Operator::Bin(BinOp::And),
        BuiltIn::Or => Operator::Bin(BinOp::Or),
        BuiltIn::Xor => Operator::Bin(BinOp::Xor),
        BuiltIn::Not => Operator::Un(UnOp::Not),
        BuiltIn::Shl => Operator::Counted(CountedOp::Shl),
        BuiltIn::Shr => Operator::Counted(CountedOp::Shr),
        BuiltIn::Rol => Operator::Counted(CountedOp::Rol),
        BuiltIn::Ror => Operator::Counted(CountedOp::Ror),
        BuiltIn::Mulhi => Operator::Bin(BinOp::Mulhi),
        BuiltIn::Pair => Operator::Bin(BinOp::Pair),
        BuiltIn::Hi => Operator::Un(UnOp::Hi),
        BuiltIn::Lo => Operator::Un(UnOp::Lo),
        BuiltIn::Paddd => Operator::Bin(BinOp::Paddd),
        BuiltIn::Pshufb => Operator::Bin(BinOp::Pshufb),
        BuiltIn::Pshufd => Operator::Counted(CountedOp::Pshufd),
        BuiltIn::Pslld => Operator::Counted(CountedOp::Pslld),
        BuiltIn::Psrld => Operator::Counted(CountedOp::Psrld),
        BuiltIn::Pslldq => Operator::Counted(CountedOp::Pslldq),
        BuiltIn::Psrldq => Operator::Counted(CountedOp::Psrldq),
        BuiltIn::Aesenc => Operator::Bin(BinOp::Aesenc),
        BuiltIn::Aesenclast => Operator::Bin(BinOp::Aesenclast),
        BuiltIn::Clmul => Operator::Clmul,
        BuiltIn::Len => Operator::Un(UnOp::Len),
        BuiltIn::Put => Operator::Put,
        BuiltIn::ByteAt => Operator::Bin(BinOp::ByteAt),
        BuiltIn::DwordAt => Operator::Bin(BinOp::DwordAt),
        BuiltIn::PutDword => Operator::PutDword,
        BuiltIn::ForAll => Operator::All,
        BuiltIn::Old | BuiltIn::Defined | BuiltIn::Slot | BuiltIn::Base => return None,
    };
    Some(operator)
}
