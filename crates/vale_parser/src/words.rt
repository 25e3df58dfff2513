// Words with a meaning at their place alone.

ghost use Rattle.std.specs.Prelude.{◌≡◌};
ghost use Rattle.vale_syntax.specs.Peek.{peek, text_of};
ghost use Rattle.vale_syntax.specs.Statements.{sort_at, sort_word};
ghost use Rattle.vale_syntax.specs.Declarations.{kind_at, kind_word, abi_at, abi_word};
ghost use Rattle.vale_parser.specs.inner.Productions.{is_name, is_if, is_else, is_invariant, is_decreases, is_secret, is_zero, is_step, sort_behind, kind_behind};
ghost use Rattle.vale_syntax.specs.inner.Matches.{Gives};

use crate::front::{Read, expect};
use expr_parser::{after, spot_of};
use vale_syntax::{AbiName, KindName, Lookahead, Mark, MatchFault, SortName, Spot, Token, peek};
use x64_syntax::{Keyword, TypeWord, type_word_named};

fn sort_word(word: Option<TypeWord>, spot: Spot) -> Option<SortName>
    ensures { result ≡ sort_word word spot }
{
    match word? {
        TypeWord::Sort(sort) => Some(SortName { sort, spot }),
        _ => None,
    }
}

fn kind_word(word: Option<TypeWord>, spot: Spot) -> Option<KindName>
    ensures { result ≡ kind_word word spot }
{
    match word? {
        TypeWord::Kind(kind) => Some(KindName { kind, spot }),
        _ => None,
    }
}

fn abi_word(word: Option<TypeWord>, spot: Spot) -> Option<AbiName>
    ensures { result ≡ abi_word word spot }
{
    match word? {
        TypeWord::Abi(abi) => Some(AbiName { abi, spot }),
        _ => None,
    }
}

// The text of the first token.
fn text_of(tokens: &[Token]) -> &[u8]
    ensures { result.now ≡ text_of tokens.now }
{
    match tokens {
        [] => &[],
        [token, ..] => token.text.as_bytes(),
    }
}

/// The sort that the first token is.
#[tactic(auto, unfolding(crate::specs::inner::Looks::sort_at))]
pub(crate) fn sort_at(tokens: &[Token]) -> Option<SortName>
    ensures { result ≡ sort_at tokens.now }
{
    match peek(tokens) {
        Lookahead::Name => sort_word(type_word_named(text_of(tokens)), spot_of(tokens)),
        _ => None,
    }
}

/// The kind of operands that the first token is.
#[tactic(auto, unfolding(crate::specs::inner::Looks::kind_at))]
pub(crate) fn kind_at(tokens: &[Token]) -> Option<KindName>
    ensures { result ≡ kind_at tokens.now }
{
    match peek(tokens) {
        Lookahead::Name => kind_word(type_word_named(text_of(tokens)), spot_of(tokens)),
        _ => None,
    }
}

/// The calling convention that the first token is.
#[tactic(auto, unfolding(crate::specs::inner::Looks::abi_at))]
pub(crate) fn abi_at(tokens: &[Token]) -> Option<AbiName>
    ensures { result ≡ abi_at tokens.now }
{
    match peek(tokens) {
        Lookahead::Name => abi_word(type_word_named(text_of(tokens)), spot_of(tokens)),
        _ => None,
    }
}

/// `: sort`
pub(crate) fn sort_behind(tokens: &[Token]) -> Result<Read<'_, SortName>, MatchFault>
    ensures { Gives (λ r. (r.part, r.rest.now)) result (sort_behind tokens.now) }
{
    let rest = expect(tokens, Mark::Colon)?;
    match sort_at(rest) {
        Some(part) => Ok(Read {
            part,
            rest: after(rest, 1),
        }),
        None => Err(MatchFault::NoMatch),
    }
}

/// `: kind`
pub(crate) fn kind_behind(tokens: &[Token]) -> Result<Read<'_, KindName>, MatchFault>
    ensures { Gives (λ r. (r.part, r.rest.now)) result (kind_behind tokens.now) }
{
    let rest = expect(tokens, Mark::Colon)?;
    match kind_at(rest) {
        Some(part) => Ok(Read {
            part,
            rest: after(rest, 1),
        }),
        None => Err(MatchFault::NoMatch),
    }
}

/// Whether a token is a name.
pub(crate) fn is_name(token: Lookahead) -> bool
    ensures { result ≡ is_name token }
{
    matches!(token, Lookahead::Name)
}

/// Whether a token is `if`.
pub(crate) fn is_if(token: Lookahead) -> bool
    ensures { result ≡ is_if token }
{
    matches!(token, Lookahead::Keyword(Keyword::If))
}

/// Whether a token is `else`.
pub(crate) fn is_else(token: Lookahead) -> bool
    ensures { result ≡ is_else token }
{
    matches!(token, Lookahead::Keyword(Keyword::Else))
}

/// Whether a token is `invariant`.
pub(crate) fn is_invariant(token: Lookahead) -> bool
    ensures { result ≡ is_invariant token }
{
    matches!(token, Lookahead::Keyword(Keyword::Invariant))
}

/// Whether a token is `decreases`.
pub(crate) fn is_decreases(token: Lookahead) -> bool
    ensures { result ≡ is_decreases token }
{
    matches!(token, Lookahead::Keyword(Keyword::Decreases))
}

/// Whether a token is `secret`.
pub(crate) fn is_secret(token: Lookahead) -> bool
    ensures { result ≡ is_secret token }
{
    matches!(token, Lookahead::Keyword(Keyword::Secret))
}

/// Whether a token is `zero`.
pub(crate) fn is_zero(token: Lookahead) -> bool
    ensures { result ≡ is_zero token }
{
    matches!(token, Lookahead::Keyword(Keyword::Zero))
}

/// Whether a token is `step`.
pub(crate) fn is_step(token: Lookahead) -> bool
    ensures { result ≡ is_step token }
{
    matches!(token, Lookahead::Keyword(Keyword::Step))
}
