// Why nothing was found, and what is told of a source that is at fault.

use crate::spot::Spot;
use std::alloc::{AllocError, AllocFailed};
use x64_syntax::Text;

/// Why what is asked for was not found in tokens or trees.
#[derive(Clone, Copy, Debug, PartialEq, Eq, Drop)]
pub enum MatchFault {
    /// It isn't there.
    NoMatch,
    NoMemory,
}

impl From<AllocError> for MatchFault {
    ghost use Rattle.std.specs.Prelude.{◌≡◌};
    ghost use Rattle.vale_syntax.specs.declared.fault.MatchFault.TheVariants.{NoMemory};

    ghost from_gives = { λ _ e. e ≡ NoMemory };

    fn from(_fault: AllocError) -> Self {
        MatchFault::NoMemory
    }
}

impl<T: Drop> From<AllocFailed<T>> for MatchFault {
    ghost use Rattle.std.specs.Prelude.{◌≡◌};
    ghost use Rattle.vale_syntax.specs.declared.fault.MatchFault.TheVariants.{NoMemory};

    ghost from_gives = { λ _ e. e ≡ NoMemory };

    fn from(_fault: AllocFailed<T>) -> Self {
        MatchFault::NoMemory
    }
}

/// What is answered of a source that is at fault: the declaration that the fault lies in, its place, and what it is.
#[derive(Debug, PartialEq, Eq, Drop)]
pub enum Spotted<F> {
    Refused { who: Text, spot: Spot, cause: F },
    NoMemory,
}

impl<F> From<AllocError> for Spotted<F> {
    ghost use Rattle.std.specs.Prelude.{◌≡◌};
    ghost use Rattle.vale_syntax.specs.declared.fault.Spotted.TheVariants.{NoMemory};

    ghost from_gives = { λ _ e. e ≡ NoMemory };

    fn from(_fault: AllocError) -> Self {
        Spotted::NoMemory
    }
}

impl<T: Drop, F> From<AllocFailed<T>> for Spotted<F> {
    ghost use Rattle.std.specs.Prelude.{◌≡◌};
    ghost use Rattle.vale_syntax.specs.declared.fault.Spotted.TheVariants.{NoMemory};

    ghost from_gives = { λ _ e. e ≡ NoMemory };

    fn from(_fault: AllocFailed<T>) -> Self {
        Spotted::NoMemory
    }
}
