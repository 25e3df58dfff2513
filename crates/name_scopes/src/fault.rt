// Faults of scopes.

ghost use Rattle.name_scopes.specs.Faults.{told_at, once};
ghost use Rattle.name_scopes.specs.inner.Walks.{Judges};

use std::alloc::{AllocError, AllocFailed};
use vale_syntax::Spot;

/// What is wrong with a name, or with a source.
#[derive(Clone, Copy, Debug, PartialEq, Eq)]
pub enum ScopeFault {
    /// The name isn't declared, or isn't known where it stands.
    Unknown,
    /// The name is declared again, or a clause that may stand once stands again.
    Twice,
    /// The name of a procedure, lemma or function that may not be named there.
    NotBefore,
    /// A word of the language is declared, or an export has a name that an assembler may read otherwise.
    Reserved,
    /// The source exports nothing.
    NoExport,
}

/// Why a walk stops.
#[derive(Clone, Copy, Debug, PartialEq, Eq, Drop)]
pub(crate) enum Stop {
    /// At the first fault.
    Fault(Spot, ScopeFault),
    NoMemory,
}

impl From<AllocError> for Stop {
    ghost use Rattle.std.specs.Prelude.{◌≡◌};
    ghost use Rattle.name_scopes.specs.declared.fault.Stop.TheVariants.{NoMemory};

    ghost from_gives = { λ _ e. e ≡ NoMemory };

    fn from(_fault: AllocError) -> Self {
        Stop::NoMemory
    }
}

impl<T: Drop> From<AllocFailed<T>> for Stop {
    ghost use Rattle.std.specs.Prelude.{◌≡◌};
    ghost use Rattle.name_scopes.specs.declared.fault.Stop.TheVariants.{NoMemory};

    ghost from_gives = { λ _ e. e ≡ NoMemory };

    fn from(_fault: AllocFailed<T>) -> Self {
        Stop::NoMemory
    }
}

/// Stops at a name, where its rule tells a fault.
pub(crate) fn judge(spot: Spot, fault: Option<ScopeFault>) -> Result<(), Stop>
    ensures { Judges result (told_at spot fault) }
{
    match fault {
        None => Ok(()),
        Some(cause) => Err(Stop::Fault(spot, cause)),
    }
}

/// Stops at what may stand once, where it stood already.
pub(crate) fn once(stood: bool, spot: Spot) -> Result<(), Stop>
    ensures { Judges result (once stood spot) }
{
    if stood {
        Err(Stop::Fault(spot, ScopeFault::Twice))
    } else {
        Ok(())
    }
}
