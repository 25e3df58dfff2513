// Which calls of an object in memory are to fail, so that a test can see what its caller does then.

ghost use Rattle.std.specs.Prelude.{◌≡◌, ◌≤◌, ◌<◌, ◌^◌, OnOk, OnErr};
ghost use Rattle.vale_outside.specs.Plan.{no_plan, next_fails, after_call, with_failing};

use std::alloc::{AllocError as NoMemory, Global};
use std::marker::Model;

#[derive(Drop)]
pub(crate) struct Failures {
    failing: Vec<u64>,
    calls: u64,
    faults: u64,
}

impl Model for Failures {
    ghost use Rattle.std.specs.Prelude.{◌^◌, ◌<◌};
    ghost use Rattle.vale_outside.specs.Plan.{Plan};

    ghost Value = { Plan };

    ghost view = { λ f. record { failing = f.failing.items; calls = f.calls; faults = f.faults } };
}

impl Failures {
    pub(crate) fn new(alloc: Global) -> Self
        ensures { result ≡ no_plan }
    {
        Failures {
            failing: Vec::new(alloc),
            calls: 0,
            faults: 0,
        }
    }

    /// One more call, from 1, is to fail.
    pub(crate) fn fail_at(&mut self, call: u64) -> Result<(), NoMemory>
        ensures ok { OnOk result (self.new ≡ with_failing self.old call) }
        ensures err { OnErr result (self.new ≡ self.old) }
    {
        self.failing.insert(0, call)?;
        Ok(())
    }

    /// Whether the next call is one that is to fail.
    pub(crate) fn next_fails(&self) -> bool
        ensures { result ≡ next_fails self.now }
    {
        let next = self.calls.saturating_add(1);
        self.failing.iter().any(|call| *call == next)
    }

    /// Counts a call, and a fault where it failed.
    pub(crate) fn count(&mut self, failed: bool)
        ensures after { self.new ≡ after_call self.old failed }
        ensures rises { self.old.faults ≤ self.new.faults }
    {
        self.calls = self.calls.saturating_add(1);
        if failed {
            self.faults = self.faults.saturating_add(1);
        }
    }
}
