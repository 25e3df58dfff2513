// How a run ends.

use x64_meaning::Fault;

/// Why a run ended.
#[derive(Clone, Copy, Debug, PartialEq, Eq)]
pub enum End {
    /// It came to a `ret`, which is its last step.
    Ended,
    /// The next step is a fault.
    Faulted(Fault),
    /// The position is past the last item.
    OffCode,
    /// As many steps were made as were permitted.
    Paused,
    /// The next step would be seen, and the trace has no room.
    TraceFull,
}

impl From<Fault> for End {
    ghost use Rattle.std.specs.Prelude.{◌≡◌};
    ghost use Rattle.x64_evaluator.specs.declared.end.End.TheVariants.{Faulted};

    ghost from_gives = { λ fault e. e ≡ Faulted fault };

    fn from(fault: Fault) -> Self {
        End::Faulted(fault)
    }
}

/// Why a run ended, and how many steps it made.
#[derive(Clone, Copy, Debug, PartialEq, Eq)]
pub struct RunEnd {
    pub end: End,
    pub steps: u64,
}
