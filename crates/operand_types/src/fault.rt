// Why an expression is no term.

use std::alloc::{AllocError, AllocFailed};

/// Why an expression is no term.
#[derive(Clone, Copy, Debug, PartialEq, Eq, Drop)]
pub enum TermFault {
    /// It isn't a term over those names and functions.
    Unfit,
    NoMemory,
}

impl From<AllocError> for TermFault {
    ghost use Rattle.std.specs.Prelude.{◌≡◌};
    ghost use Rattle.operand_types.specs.declared.fault.TermFault.TheVariants.{NoMemory};

    ghost from_gives = { λ _ e. e ≡ NoMemory };

    fn from(_fault: AllocError) -> Self {
        TermFault::NoMemory
    }
}

impl<T: Drop> From<AllocFailed<T>> for TermFault {
    ghost use Rattle.std.specs.Prelude.{◌≡◌};
    ghost use Rattle.operand_types.specs.declared.fault.TermFault.TheVariants.{NoMemory};

    ghost from_gives = { λ _ e. e ≡ NoMemory };

    fn from(_fault: AllocFailed<T>) -> Self {
        TermFault::NoMemory
    }
}
