// The operators that are written as calls.

ghost use Rattle.std.specs.Prelude.{◌≡◌};
ghost use Rattle.x64_syntax.specs.Words.{built_in_of};

use crate::names::table_value;

/// An operator that is written as a call. Those from `old` on stand in sources alone, and in no term.
#[derive(Clone, Copy, Debug, PartialEq, Eq)]
pub enum BuiltIn {
    Div,
    Mod,
    Int,
    Word,
    Ite,
    And,
    Or,
    Xor,
    Not,
    Shl,
    Shr,
    Rol,
    Ror,
    Mulhi,
    Pair,
    Hi,
    Lo,
    Paddd,
    Pshufb,
    Pshufd,
    Pslld,
    Psrld,
    Pslldq,
    Psrldq,
    Aesenc,
    Aesenclast,
    Clmul,
    Len,
    Put,
    ByteAt,
    DwordAt,
    PutDword,
    ForAll,
    Old,
    Defined,
    Slot,
    Base,
}

/// The operators, with how each is written.
pub const BUILT_IN: [(&str, BuiltIn); 37] = [
    ("div", BuiltIn::Div),
    ("mod", BuiltIn::Mod),
    ("int", BuiltIn::Int),
    ("word", BuiltIn::Word),
    ("ite", BuiltIn::Ite),
    ("and", BuiltIn::And),
    ("or", BuiltIn::Or),
    ("xor", BuiltIn::Xor),
    ("not", BuiltIn::Not),
    ("shl", BuiltIn::Shl),
    ("shr", BuiltIn::Shr),
    ("rol", BuiltIn::Rol),
    ("ror", BuiltIn::Ror),
    ("mulhi", BuiltIn::Mulhi),
    ("pair", BuiltIn::Pair),
    ("hi", BuiltIn::Hi),
    ("lo", BuiltIn::Lo),
    ("paddd", BuiltIn::Paddd),
    ("pshufb", BuiltIn::Pshufb),
    ("pshufd", BuiltIn::Pshufd),
    ("pslld", BuiltIn::Pslld),
    ("psrld", BuiltIn::Psrld),
    ("pslldq", BuiltIn::Pslldq),
    ("psrldq", BuiltIn::Psrldq),
    ("aesenc", BuiltIn::Aesenc),
    ("aesenclast", BuiltIn::Aesenclast),
    ("clmul", BuiltIn::Clmul),
    ("len", BuiltIn::Len),
    ("put", BuiltIn::Put),
    ("byteat", BuiltIn::ByteAt),
    ("dwordat", BuiltIn::DwordAt),
    ("putdword", BuiltIn::PutDword),
    ("forall", BuiltIn::ForAll),
    ("old", BuiltIn::Old),
    ("defined", BuiltIn::Defined),
    ("slot", BuiltIn::Slot),
    ("base", BuiltIn::Base),
];

/// The operator that is written so.
#[tactic(auto, unfolding(crate::specs::Tables::built_in))]
pub fn built_in_named(name: &[u8]) -> Option<BuiltIn>
    ensures { result ≡ built_in_of name.now }
{
    table_value(&BUILT_IN, name)
}
