// Why a text isn't that of a program.

use std::alloc::AllocError;

/// Why a text isn't that of a program. Lines are counted from 1.
#[derive(Clone, Copy, Debug, PartialEq, Eq, Drop)]
pub enum AsmFault {
    /// The first line that can't come there: it is none of the grammar, its name is repeated or refused, or its label
    /// is out of sequence. Or the text ends there too early.
    Line(u64),
    /// Where there is no such line, the line of the first jump whose label isn't in its piece.
    Label(u64),
    NoMemory,
}

impl From<AllocError> for AsmFault {
    ghost use Rattle.std.specs.Prelude.{◌≡◌};
    ghost use Rattle.gas_text.specs.declared.fault.AsmFault.TheVariants.{NoMemory};

    ghost from_gives = { λ _ e. e ≡ NoMemory };

    fn from(_fault: AllocError) -> Self {
        AsmFault::NoMemory
    }
}
