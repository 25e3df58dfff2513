// Tokens.

use crate::mark::Mark;
use crate::spot::Spot;
use x64_syntax::Text;

/// What a token is. A number has its value.
#[derive(Clone, Copy, Debug, PartialEq, Eq)]
pub enum TokenKind {
    /// A letter or `_`, then letters, digits and `_`.
    Name,
    /// A name, a dot, and lower-case letters or digits, as `rax.0`.
    Stamped,
    /// A whole number.
    Int(u128),
    /// A word of 64 bits, as `1w`.
    Word(u64),
    /// A word of 128 bits, as `1v`.
    Wide(u128),
    /// One of the marks, as `:=`.
    Mark(Mark),
}

/// A whole number is below this.
pub const WHOLE_LIMIT: u128 = 1 << 127;

/// A word of 64 bits is below this.
pub const WORD_LIMIT: u128 = 1 << 64;

/// A token: what it is, its bytes, and where it begins.
#[derive(Debug, Drop, PartialEq, Eq)]
pub struct Token {
    pub kind: TokenKind,
    pub text: Text,
    pub spot: Spot,
}

/// Why no token begins at a place.
#[derive(Clone, Copy, Debug, PartialEq, Eq)]
pub enum NotAToken {
    /// No token begins with the byte.
    BadByte,
    /// The number is above the limit of its kind.
    NumberTooLarge,
    /// The comment that `/*` starts doesn't end.
    OpenComment,
}

/// What stands at the front of a text that isn't empty, and how many bytes it has.
#[derive(Clone, Copy, Debug, PartialEq, Eq)]
pub enum Front {
    /// A blank or a comment.
    Skipped(usize),
    /// A token: the longest that begins here.
    Taken(TokenKind, usize),
    /// Nothing that a text may have here.
    Stopped(NotAToken),
}
