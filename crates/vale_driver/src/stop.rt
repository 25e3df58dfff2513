// Why a command ends without output, and what fetches files for it.

ghost use Rattle.std.specs.Prelude.{◌≡◌, ℕ, List, ◌≤◌, IsTrue};
ghost use Rattle.vale_driver.specs.inner.Stops.{Fetched};

use crate::status::Refusal;
use std::alloc::{AllocError, AllocFailed, Global};
use vale_outside::{FetchFault, Store};

/// Why a command ends without output.
#[derive(Debug, Drop)]
pub(crate) enum Stop {
    Refused(Refusal),
    ReadFault,
    NoMemory,
}

impl From<AllocError> for Stop {
    ghost use Rattle.std.specs.Prelude.{◌≡◌};
    ghost use Rattle.vale_driver.specs.declared.stop.Stop.TheVariants.{NoMemory};

    ghost from_gives = { λ _ e. e ≡ NoMemory };

    fn from(_fault: AllocError) -> Self {
        Stop::NoMemory
    }
}

impl<T: Drop> From<AllocFailed<T>> for Stop {
    ghost use Rattle.std.specs.Prelude.{◌≡◌};
    ghost use Rattle.vale_driver.specs.declared.stop.Stop.TheVariants.{NoMemory};

    ghost from_gives = { λ _ e. e ≡ NoMemory };

    fn from(_fault: AllocFailed<T>) -> Self {
        Stop::NoMemory
    }
}

/// What a file holds: none where it is longer than the limit.
pub(crate) fn fetch<S: Store>(
    alloc: Global,
    store: &mut S,
    name: &str,
    limit: usize,
) -> Result<Option<Vec<u8>>, Stop>
    requires { IsTrue (S.may_ask store.old name.now) }
    ensures fetched { Fetched (S.tells store.old name.now) limit (S.faults store.old) (S.faults store.new) result }
    ensures count { S.faults store.old ≤ S.faults store.new }
    ensures same_names { (n : List ℕ) → S.may_ask store.new n ≡ S.may_ask store.old n }
    ensures same_files { (n : List ℕ) → S.tells store.new n ≡ S.tells store.old n }
{
    let mut bytes = Vec::new(alloc);
    match store.fetch(name, limit, &mut bytes) {
        Ok(()) => Ok(Some(bytes)),
        Err(FetchFault::TooLong) => Ok(None),
        Err(FetchFault::Failed) => Err(Stop::ReadFault),
        Err(FetchFault::NoMemory) => Err(Stop::NoMemory),
    }
}
