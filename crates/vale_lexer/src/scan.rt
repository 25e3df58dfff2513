// The scan.

ghost use Rattle.std.specs.Prelude.{◌≡◌, ◌<◌, ◌+◌, ◌^◌, ◌++◌, ◌∷◌, [], length, OnOk};
ghost use Rattle.vale_syntax.specs.Tokens.{tokens_from, token_at};
ghost use Rattle.vale_lexer.specs.inner.Lexes.{Lexes, Steps, fault_of};

use crate::front::front;
use std::alloc::{AllocError, AllocFailed, Global};
use vale_syntax::{Front, NotAToken, Spot, Token, TokenKind};
use x64_syntax::Text;

/// Why a text has no tokens: the first place where none begins, as an offset in bytes.
#[derive(Clone, Copy, Debug, PartialEq, Eq, Drop)]
pub enum LexFault {
    BadByte { at: u32 },
    NumberTooLarge { at: u32 },
    OpenComment { at: u32 },
    NoMemory,
}

impl From<AllocError> for LexFault {
    ghost use Rattle.std.specs.Prelude.{◌≡◌};
    ghost use Rattle.vale_lexer.specs.declared.scan.LexFault.TheVariants.{NoMemory};

    ghost from_gives = { λ _ e. e ≡ NoMemory };

    fn from(_fault: AllocError) -> Self {
        LexFault::NoMemory
    }
}

impl<T: Drop> From<AllocFailed<T>> for LexFault {
    ghost use Rattle.std.specs.Prelude.{◌≡◌};
    ghost use Rattle.vale_lexer.specs.declared.scan.LexFault.TheVariants.{NoMemory};

    ghost from_gives = { λ _ e. e ≡ NoMemory };

    fn from(_fault: AllocFailed<T>) -> Self {
        LexFault::NoMemory
    }
}

/// The tokens of a file's bytes. The file's number stands in their places.
pub fn tokens(alloc: Global, file: u32, bytes: &[u8]) -> Result<Vec<Token>, LexFault>
    requires { length bytes.now < 2 ^ 32 }
    ensures { Lexes (tokens_from file 0 0 bytes.now) result }
{
    let mut tokens = Vec::new(alloc);
    let mut rest = bytes;
    let mut at = 0u32;
    while !rest.is_empty() {
        let len = step(alloc, Spot { file, at }, rest, &mut tokens)?;
        rest = rest.split_at(len).1;
        at += len as u32;
    }
    Ok(tokens)
}

// Takes what stands at the front, and says how many bytes it has.
fn step(alloc: Global, spot: Spot, rest: &[u8], tokens: &mut Vec<Token>) -> Result<usize, LexFault>
    requires { 0 < length rest.now }
    ensures { Steps spot.file spot.at rest.now tokens.old.items tokens.new.items result }
{
    match front(rest) {
        Front::Skipped(len) => Ok(len),
        Front::Taken(kind, len) => {
            push_token(alloc, tokens, kind, &rest[..len], spot)?;
            Ok(len)
        }
        Front::Stopped(why) => Err(fault(why, spot.at)),
    }
}

fn push_token(
    alloc: Global,
    tokens: &mut Vec<Token>,
    kind: TokenKind,
    text: &[u8],
    spot: Spot,
) -> Result<(), AllocError>
    ensures { OnOk result (tokens.new.items ≡ tokens.old.items ++ token_at spot.file spot.at kind text.now ∷ []) }
{
    let text = Text::from_slice(alloc, text)?;
    tokens.push(Token { kind, text, spot })?;
    Ok(())
}

fn fault(why: NotAToken, at: u32) -> LexFault
    ensures { result ≡ fault_of why at }
{
    match why {
        NotAToken::BadByte => LexFault::BadByte { at },
        NotAToken::NumberTooLarge => LexFault::NumberTooLarge { at },
        NotAToken::OpenComment => LexFault::OpenComment { at },
    }
}
