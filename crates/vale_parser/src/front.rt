// What is read off the front of a list of tokens.

ghost use Rattle.std.specs.Prelude.{◌≡◌, IfOk, IfErr, Ok, Err};
ghost use Rattle.std.specs.List.{list_all};
ghost use Rattle.vale_syntax.specs.Peek.{peek};
ghost use Rattle.vale_syntax.specs.inner.CodeTrees.{tree};
ghost use Rattle.vale_syntax.specs.Statements.{tokens_before, is_plain};
ghost use Rattle.vale_syntax.specs.inner.Marks.{is_mark};
ghost use Rattle.vale_parser.specs.inner.Parts.{expect};
ghost use Rattle.vale_parser.specs.inner.Productions.{is_name, name, expression};
ghost use Rattle.vale_syntax.specs.inner.Matches.{Gives};

use expr_parser::{after, name_of, read_front};
use std::alloc::Global;
use vale_syntax::{Expr, Lookahead, Mark, MatchFault, Name, Token, TokenKind, is_mark, peek};

/// A part of the grammar, and the tokens behind it.
#[derive(Debug, Drop)]
pub(crate) struct Read<'a, T> {
    pub(crate) part: T,
    pub(crate) rest: &'a [Token],
}

/// Whether a mark, none of the operators between expressions, stands at the front.
pub(crate) fn is_at(tokens: &[Token], mark: Mark) -> bool
    ensures { result ≡ is_mark mark (peek tokens.now) }
{
    is_mark(mark, peek(tokens))
}

/// The tokens behind a mark that stands at the front.
pub(crate) fn expect(tokens: &[Token], mark: Mark) -> Result<&[Token], MatchFault>
    ensures { Gives (λ rest. rest.now) result (expect mark tokens.now) }
{
    if is_at(tokens, mark) {
        Ok(after(tokens, 1))
    } else {
        Err(MatchFault::NoMatch)
    }
}

/// What was read so far, and what was read behind it. What is handed through here need not be given back by the caller
/// where the second fails, which would make its proof dear.
pub(crate) fn with<A: Drop, B: Drop>(
    sofar: A,
    found: Result<B, MatchFault>,
) -> Result<(A, B), MatchFault>
    ensures ok { IfOk result (λ p. (p.0 ≡ sofar) × (found ≡ Ok p.1)) }
    ensures err { IfErr result (λ e. found ≡ Err e) }
{
    let found = found?;
    Ok((sofar, found))
}

/// What was read, where a mark stands behind it.
pub(crate) fn before<'a, T: Drop>(found: Read<'a, T>, mark: Mark) -> Result<Read<'a, T>, MatchFault>
    ensures rest { Gives (λ r. r.rest.now) result (expect mark found.entry.rest.now) }
    ensures part { IfOk result (λ r. r.part ≡ found.entry.part) }
{
    let rest = expect(found.rest, mark)?;
    Ok(Read {
        part: found.part,
        rest,
    })
}

/// A name.
pub(crate) fn name<'a>(alloc: Global, tokens: &'a [Token]) -> Result<Read<'a, Name>, MatchFault>
    ensures { Gives (λ r. (r.part, r.rest.now)) result (name tokens.now) }
{
    match peek(tokens) {
        Lookahead::Name => Ok(Read {
            part: name_of(alloc, tokens)?,
            rest: after(tokens, 1),
        }),
        _ => Err(MatchFault::NoMatch),
    }
}

// The tokens before those that are left.
fn tokens_before<'a>(rest: &[Token], tokens: &'a [Token]) -> &'a [Token]
    ensures { result.now ≡ tokens_before rest.now tokens.now }
{
    let len = tokens.len().saturating_sub(rest.len());
    tokens.split_at(len).0
}

fn is_plain(token: &Token) -> bool
    ensures { result ≡ is_plain token.now }
{
    !matches!(token.kind, TokenKind::Stamped)
}

// Whether none of the tokens is a stamped name.
fn are_plain(tokens: &[Token]) -> bool
    ensures { result ≡ list_all is_plain tokens.now }
{
    tokens.iter().all(is_plain)
}

/// An expression without stamped names.
pub(crate) fn expression<'a>(
    alloc: Global,
    tokens: &'a [Token],
) -> Result<Read<'a, Expr>, MatchFault>
    ensures { Gives (λ r. (tree r.part, r.rest.now)) result (expression tokens.now) }
{
    let (part, rest) = read_front(alloc, tokens)?;
    if are_plain(tokens_before(rest, tokens)) {
        Ok(Read { part, rest })
    } else {
        Err(MatchFault::NoMatch)
    }
}
