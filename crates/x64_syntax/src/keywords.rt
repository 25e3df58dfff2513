// The words with a meaning in the grammar.

ghost use Rattle.std.specs.Prelude.{◌≡◌};
ghost use Rattle.x64_syntax.specs.Words.{keyword_of};

use crate::names::table_value;

/// A word with a meaning in the grammar.
#[derive(Clone, Copy, Debug, PartialEq, Eq)]
pub enum Keyword {
    Procedure,
    Lemma,
    Function,
    Export,
    Reads,
    Modifies,
    Requires,
    Ensures,
    Stack,
    Abi,
    Assert,
    Ghost,
    If,
    Else,
    While,
    Invariant,
    Decreases,
    Inline,
    Secret,
    Block,
    In,
    Out,
    InOut,
    True,
    False,
    Prev,
    Zero,
    Step,
}

/// The keywords, with how each is written.
pub const KEYWORDS: [(&str, Keyword); 28] = [
    ("procedure", Keyword::Procedure),
    ("lemma", Keyword::Lemma),
    ("function", Keyword::Function),
    ("export", Keyword::Export),
    ("reads", Keyword::Reads),
    ("modifies", Keyword::Modifies),
    ("requires", Keyword::Requires),
    ("ensures", Keyword::Ensures),
    ("stack", Keyword::Stack),
    ("abi", Keyword::Abi),
    ("assert", Keyword::Assert),
    ("ghost", Keyword::Ghost),
    ("if", Keyword::If),
    ("else", Keyword::Else),
    ("while", Keyword::While),
    ("invariant", Keyword::Invariant),
    ("decreases", Keyword::Decreases),
    ("inline", Keyword::Inline),
    ("secret", Keyword::Secret),
    ("block", Keyword::Block),
    ("in", Keyword::In),
    ("out", Keyword::Out),
    ("inout", Keyword::InOut),
    ("true", Keyword::True),
    ("false", Keyword::False),
    ("prev", Keyword::Prev),
    ("zero", Keyword::Zero),
    ("step", Keyword::Step),
];

/// The keyword that is written so.
#[tactic(auto, unfolding(crate::specs::Tables::keywords))]
pub fn keyword_named(name: &[u8]) -> Option<Keyword>
    ensures { result ≡ keyword_of name.now }
{
    table_value(&KEYWORDS, name)
}
