// What is read off the front of a list of tokens.

ghost use Rattle.std.specs.Prelude.{◌≡◌, ◌≤ℤ◌, pos, drop, IfOk, IfSome};
ghost use Rattle.vale_syntax.specs.Peek.{spot_of};
ghost use Rattle.vale_syntax.specs.Operators.{rank_of};
ghost use Rattle.vale_syntax.specs.Expressions.{whole_number, minus_number_by, minus_number, name_of, leaf, leaf_by};
ghost use Rattle.vale_syntax.specs.inner.Parse.{operator};
ghost use Rattle.vale_syntax.specs.inner.CodeTrees.{tree};
ghost use Rattle.vale_syntax.specs.inner.Matches.{Gives};

use std::alloc::{AllocError, Global};
use vale_syntax::{
    BinaryOp, Expr, Lookahead, Mark, MatchFault, Name, Spot, Token, WHOLE_LIMIT, peek,
};
use x64_syntax::{Keyword, Text};

/// The tokens behind the first ones.
pub fn after(tokens: &[Token], count: usize) -> &[Token]
    ensures { result.now ≡ drop count tokens.now }
{
    if count <= tokens.len() {
        tokens.split_at(count).1
    } else {
        &[]
    }
}

/// Where the first token stands.
pub fn spot_of(tokens: &[Token]) -> Spot
    ensures { result ≡ spot_of tokens.now }
{
    match tokens {
        [] => Spot { file: 0, at: 0 },
        [token, ..] => token.spot,
    }
}

/// The first token as a name.
pub fn name_of(alloc: Global, tokens: &[Token]) -> Result<Name, AllocError>
    ensures { IfOk result (λ n. n ≡ name_of tokens.now) }
{
    let text = match tokens {
        [] => Text::from_slice(alloc, b"")?,
        [token, ..] => Text::from_slice(alloc, token.text.as_bytes())?,
    };
    Ok(Name {
        text,
        spot: spot_of(tokens),
    })
}

fn whole(value: u128) -> Option<i128>
    ensures value { result ≡ whole_number value }
    ensures natural { IfSome result (λ z. pos 0 ≤ℤ z) }
{
    if value < WHOLE_LIMIT {
        Some(value as i128)
    } else {
        None
    }
}

/// The number that a `-` at the front makes negative.
#[tactic(auto, unfolding(crate::specs::inner::Looks::minus_number))]
pub(crate) fn negated(tokens: &[Token]) -> Option<i128>
    ensures value { result ≡ minus_number tokens.now }
    ensures natural { IfSome result (λ z. pos 0 ≤ℤ z) }
{
    match (peek(after(tokens, 1)), peek(after(tokens, 2))) {
        (Lookahead::Int(_), Lookahead::Mark(Mark::SquareOpen)) => None,
        (Lookahead::Int(value), _) => whole(value),
        _ => None,
    }
}

/// The operator of a rank that a token is.
pub(crate) fn operator(rank: u8, token: Lookahead) -> Option<BinaryOp>
    ensures { result ≡ operator rank token }
{
    match token {
        Lookahead::Mark(Mark::Binary(op)) if op.rank() == rank => Some(op),
        _ => None,
    }
}

/// The expression that the first token is by itself.
#[tactic(auto, unfolding(crate::specs::inner::Looks::leaf))]
pub(crate) fn leaf(alloc: Global, tokens: &[Token]) -> Result<Expr, MatchFault>
    ensures { Gives tree result (leaf tokens.now) }
{
    let spot = spot_of(tokens);
    match peek(tokens) {
        Lookahead::Int(value) => match whole(value) {
            Some(value) => Ok(Expr::Int(spot, value)),
            None => Err(MatchFault::NoMatch),
        },
        Lookahead::Word(value) => Ok(Expr::Word(spot, value)),
        Lookahead::Wide(value) => Ok(Expr::Wide(spot, value)),
        Lookahead::Keyword(Keyword::True) => Ok(Expr::True(spot)),
        Lookahead::Keyword(Keyword::False) => Ok(Expr::False(spot)),
        Lookahead::Keyword(Keyword::Prev) => Ok(Expr::Prev(spot)),
        Lookahead::Name | Lookahead::Stamped => Ok(Expr::Name(name_of(alloc, tokens)?)),
        _ => Err(MatchFault::NoMatch),
    }
}
