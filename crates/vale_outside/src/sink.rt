// Where text goes.

ghost use Rattle.std.specs.Prelude.{◌≡◌, ℕ, ◌≤◌, List, Option, OnOk, OnErr};
ghost use Rattle.vale_outside.specs.Outside.{Rose, Appends, AppendsFront};

use thiserror::Error;

/// Why a text was not written.
#[derive(Clone, Copy, Debug, PartialEq, Eq, Drop, Error)]
pub enum PutFault {
    /// The sink failed.
    #[error("the text can't be written")]
    Failed,
}

/// A place that text is written to, piece by piece.
pub trait Sink {
    /// The bytes that were put so far: `None` where nothing is told.
    ghost told: { Self → Option (List ℕ) };

    /// How many faults there were, at most 2^64 - 1. The count never falls.
    ghost faults: { Self → ℕ };

    /// Writes all the bytes, or after a fault a front of them.
    fn put(&mut self, bytes: &[u8]) -> Result<(), PutFault>
        ensures ok { OnOk result (Appends (told self.old) (told self.new) bytes.now) }
        ensures failed { OnErr result (Rose (faults self.old) (faults self.new)) }
        ensures front { OnErr result (AppendsFront (told self.old) (told self.new) bytes.now) }
        ensures count { faults self.old ≤ faults self.new };
}
