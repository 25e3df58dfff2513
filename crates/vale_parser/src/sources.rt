// Whole sources.

ghost use Rattle.std.specs.Prelude.{◌≡◌, List, map, IfOk, Err};
ghost use Rattle.vale_syntax.specs.declared.spot.Spot.{Spot as ASpot};
ghost use Rattle.vale_syntax.specs.declared.token.Token.{Token as AToken};
ghost use Rattle.vale_syntax.specs.Programs.{De};
ghost use Rattle.vale_syntax.specs.inner.CodeTrees.{decl_tree};
ghost use Rattle.vale_syntax.specs.Declarations.{Declaration, AreDecls};
ghost use Rattle.vale_parser.specs.declared.sources.ParseFault.TheVariants.{NotADecl};
ghost use Rattle.vale_parser.specs.Sources.{StopsAt};

use crate::declarations::declaration;
use expr_parser::spot_of;
use std::alloc::{AllocError, AllocFailed, Global};
use vale_syntax::{Decl, MatchFault, Spot, Token};

/// Why no declarations were read.
#[derive(Clone, Copy, Debug, PartialEq, Eq, Drop)]
pub enum ParseFault {
    /// Behind the declarations so far, no front of the rest is a declaration; the place is that of the rest's first token.
    NotADecl { first: Spot },
    NoMemory,
}

impl From<AllocError> for ParseFault {
    ghost use Rattle.std.specs.Prelude.{◌≡◌};
    ghost use Rattle.vale_parser.specs.declared.sources.ParseFault.TheVariants.{NoMemory};

    ghost from_gives = { λ _ e. e ≡ NoMemory };

    fn from(_fault: AllocError) -> Self {
        ParseFault::NoMemory
    }
}

impl<T: Drop> From<AllocFailed<T>> for ParseFault {
    ghost use Rattle.std.specs.Prelude.{◌≡◌};
    ghost use Rattle.vale_parser.specs.declared.sources.ParseFault.TheVariants.{NoMemory};

    ghost from_gives = { λ _ e. e ≡ NoMemory };

    fn from(_fault: AllocFailed<T>) -> Self {
        ParseFault::NoMemory
    }
}

/// No declaration's spelling is a proper front of another's, and no list of tokens spells two lists of declarations,
/// stops at two places, or does both.
pub fn declared_once()
    ensures one { (ts : List AToken) (x y : De) (r q : List AToken) → Declaration ts x r → Declaration ts y q → (x ≡ y) × (r ≡ q) }
    ensures all { (ts : List AToken) (xs ys : List De) → AreDecls ts xs → AreDecls ts ys → xs ≡ ys }
    ensures place { (ts : List AToken) (s t : ASpot) → StopsAt ts s → StopsAt ts t → s ≡ t }
    ensures either { (ts : List AToken) (xs : List De) (s : ASpot) → AreDecls ts xs → StopsAt ts s → ⊥ }
{}

/// The declarations that the tokens are, all of them.
pub fn read_decls(alloc: Global, tokens: &[Token]) -> Result<Vec<Decl>, ParseFault>
    ensures ok { IfOk result (λ ds. AreDecls tokens.now (map decl_tree ds.items)) }
    ensures not_a_decl { (first : ASpot) → result ≡ Err (NotADecl first) → StopsAt tokens.now first }
{
    let mut decls = Vec::new(alloc);
    let mut rest = tokens;
    while !rest.is_empty() {
        match declaration(alloc, rest) {
            Ok(next) => {
                decls.push(next.part)?;
                rest = next.rest;
            }
            Err(MatchFault::NoMatch) => {
                return Err(ParseFault::NotADecl {
                    first: spot_of(rest),
                });
            }
            Err(MatchFault::NoMemory) => return Err(ParseFault::NoMemory),
        }
    }
    Ok(decls)
}
