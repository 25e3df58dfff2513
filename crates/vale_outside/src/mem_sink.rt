// Text in memory.

ghost use Rattle.std.specs.Prelude.{◌≡◌, ◌≤◌, [], Some, OnOk, OnErr, IsErr, IsTrue, is_err, ◌++◌};
ghost use Rattle.vale_outside.specs.Outside.{Rose, AppendsFront};
ghost use Rattle.vale_outside.specs.Plan.{no_plan, with_failing, after_call, next_fails};

use crate::failures::Failures;
use crate::sink::{PutFault, Sink};
use std::alloc::{AllocError as NoMemory, Global};
use std::marker::Model;

/// Text in memory, which tells its bytes. A call that was named beforehand is a fault, and so is one that finds no
/// memory.
#[derive(Drop)]
pub struct MemSink {
    bytes: Vec<u8>,
    failures: Failures,
}

impl Model for MemSink {
    ghost use Rattle.vale_outside.specs.Plan.{Bytes};

    ghost Value = { Bytes };

    ghost view = { λ s. record { bytes = s.bytes.items; plan = s.failures } };
}

impl MemSink {
    /// A sink with no bytes.
    pub fn new(alloc: Global) -> Self
        ensures bytes { result.bytes ≡ [] }
        ensures plan { result.plan ≡ no_plan }
    {
        MemSink {
            bytes: Vec::new(alloc),
            failures: Failures::new(alloc),
        }
    }

    /// The call of this number, from 1, is to fail. It takes half of its bytes.
    pub fn fail_at(&mut self, call: u64) -> Result<(), NoMemory>
        ensures ok { OnOk result (self.new.plan ≡ with_failing self.old.plan call) }
        ensures err { OnErr result (self.new.plan ≡ self.old.plan) }
        ensures bytes { self.new.bytes ≡ self.old.bytes }
    {
        self.failures.fail_at(call)
    }

    /// What was put.
    pub fn bytes(&self) -> &[u8]
        ensures { result.now ≡ self.now.bytes }
    {
        &self.bytes
    }
}

impl Sink for MemSink {
    ghost told = { λ s. Some s.bytes };

    ghost faults = { λ s. s.plan.faults };

    /// Fails exactly where the call is one that is to fail, or memory runs out.
    fn put(&mut self, bytes: &[u8]) -> Result<(), PutFault>
        ensures ok { OnOk result (self.new.bytes ≡ self.old.bytes ++ bytes.now) }
        ensures failed { OnErr result (Rose self.old.plan.faults self.new.plan.faults) }
        ensures fails { IsTrue (next_fails self.old.plan) → IsErr result }
        ensures counts { self.new.plan ≡ after_call self.old.plan (is_err result) }
        ensures front { OnErr result (AppendsFront (Some self.old.bytes) (Some self.new.bytes) bytes.now) }
        ensures count { self.old.plan.faults ≤ self.new.plan.faults }
    {
        if self.failures.next_fails() {
            let _ = self.bytes.extend_from_slice(&bytes[..bytes.len() / 2]);
            self.failures.count(true);
            return Err(PutFault::Failed);
        }
        let written = self.bytes.extend_from_slice(bytes);
        self.failures.count(written.is_err());
        match written {
            Ok(()) => Ok(()),
            Err(_) => Err(PutFault::Failed),
        }
    }
}
