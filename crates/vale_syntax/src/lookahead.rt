// What the grammar sees of a token.

ghost use Rattle.std.specs.Prelude.{◌≡◌};
ghost use Rattle.vale_syntax.specs.Peek.{peek, seen_as};
ghost use Rattle.vale_syntax.specs.inner.Marks.{mark_eq, is_mark};

use crate::mark::Mark;
use crate::token::{Token, TokenKind};
use x64_syntax::{Keyword, keyword_named};

/// The first token of a list, as the grammar sees it.
#[derive(Clone, Copy, Debug, PartialEq, Eq)]
pub enum Lookahead {
    /// There is no token.
    End,
    /// A name that is no keyword.
    Name,
    /// A stamped name.
    Stamped,
    /// A whole number.
    Int(u128),
    /// A word of 64 bits.
    Word(u64),
    /// A word of 128 bits.
    Wide(u128),
    /// A keyword.
    Keyword(Keyword),
    /// A mark.
    Mark(Mark),
}

/// What the first token is.
#[tactic(auto, unfolding(crate::specs::Peek::peek))]
pub fn peek(tokens: &[Token]) -> Lookahead
    ensures { result ≡ peek tokens.now }
{
    match tokens {
        [] => Lookahead::End,
        [token, ..] => seen_as(token),
    }
}

fn seen_as(token: &Token) -> Lookahead
    ensures { result ≡ seen_as token.now }
{
    match token.kind {
        TokenKind::Name => match keyword_named(token.text.as_bytes()) {
            None => Lookahead::Name,
            Some(keyword) => Lookahead::Keyword(keyword),
        },
        TokenKind::Stamped => Lookahead::Stamped,
        TokenKind::Int(value) => Lookahead::Int(value),
        TokenKind::Word(value) => Lookahead::Word(value),
        TokenKind::Wide(value) => Lookahead::Wide(value),
        TokenKind::Mark(mark) => Lookahead::Mark(mark),
    }
}

/// Whether a token is the mark, none of the operators between expressions.
pub fn is_mark(mark: Mark, token: Lookahead) -> bool
    ensures { result ≡ is_mark mark token }
{
    match token {
        Lookahead::Mark(found) => same_mark(mark, found),
        _ => false,
    }
}

// Whether the marks are the same, where the first is none of the operators between expressions.
fn same_mark(a: Mark, b: Mark) -> bool
    ensures { result ≡ mark_eq a b }
{
    match (a, b) {
        (Mark::RoundOpen, Mark::RoundOpen) => true,
        (Mark::RoundClose, Mark::RoundClose) => true,
        (Mark::SquareOpen, Mark::SquareOpen) => true,
        (Mark::SquareClose, Mark::SquareClose) => true,
        (Mark::BraceOpen, Mark::BraceOpen) => true,
        (Mark::BraceClose, Mark::BraceClose) => true,
        (Mark::Comma, Mark::Comma) => true,
        (Mark::Semicolon, Mark::Semicolon) => true,
        (Mark::Colon, Mark::Colon) => true,
        (Mark::Equals, Mark::Equals) => true,
        (Mark::Assign, Mark::Assign) => true,
        (Mark::Bang, Mark::Bang) => true,
        (Mark::At, Mark::At) => true,
        _ => false,
    }
}
