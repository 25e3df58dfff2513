// Files in memory.

ghost use Rattle.std.specs.Prelude.{◌≡◌, ℕ, ◌≤◌, ◌<◌, ◌∷◌, List, [], ◌↔◌, length, take, Option, OnOk, OnErr, IfSome, true, IsTrue};
ghost use Rattle.std.specs.String.{string_bytes};
ghost use Rattle.vale_outside.specs.Outside.{Rose};
ghost use Rattle.vale_outside.specs.Plan.{no_plan, with_failing, file_bytes, fetch_fails, after_fetch};

use crate::failures::Failures;
use crate::named_files::{NamedFiles, give};
use crate::store::{FetchFault, Store};
use std::alloc::{AllocError as NoMemory, Global};
use std::marker::Model;

/// Files in memory, which tell what they hold. Of two files of one name the newer counts. A name that isn't held is
/// a fault, and so is a call that was named beforehand.
#[derive(Drop)]
pub struct MemStore {
    files: NamedFiles,
    failures: Failures,
}

impl Model for MemStore {
    ghost use Rattle.vale_outside.specs.Plan.{Files};

    ghost Value = { Files };

    ghost view = { λ s. record { files = s.files; plan = s.failures } };
}

impl MemStore {
    /// A store with no files.
    pub fn new(alloc: Global) -> Self
        ensures files { result.files ≡ [] }
        ensures plan { result.plan ≡ no_plan }
    {
        MemStore {
            files: NamedFiles::new(alloc),
            failures: Failures::new(alloc),
        }
    }

    /// Adds a file, in place of any of its name. Where memory runs out nothing changes.
    pub fn hold(&mut self, name: String, bytes: Vec<u8>) -> Result<(), NoMemory>
        ensures ok { OnOk result (self.new.files ≡ record { name = string_bytes name; bytes = bytes.items } ∷ self.old.files) }
        ensures err { OnErr result (self.new.files ≡ self.old.files) }
        ensures plan { self.new.plan ≡ self.old.plan }
    {
        self.files.hold(name, bytes)
    }

    /// The call of this number, from 1, is to fail.
    pub fn fail_at(&mut self, call: u64) -> Result<(), NoMemory>
        ensures ok { OnOk result (self.new.plan ≡ with_failing self.old.plan call) }
        ensures err { OnErr result (self.new.plan ≡ self.old.plan) }
        ensures files { self.new.files ≡ self.old.files }
    {
        self.failures.fail_at(call)
    }
}

impl Store for MemStore {
    ghost may_ask = { λ _ _. true };

    ghost tells = { λ s name. file_bytes s.files name };

    ghost faults = { λ s. s.plan.faults };

    /// Fails exactly where the call is one that is to fail, or the name isn't held.
    fn fetch(&mut self, name: &str, limit: usize, into: &mut Vec<u8>) -> Result<(), FetchFault>
        requires empty { into.old.items ≡ [] }

        ensures found { OnOk result (IfSome (file_bytes self.old.files name.now) (λ held. into.new.items ≡ held)) }
        ensures too_long { result ≡ Err FetchFault.TooLong → IfSome (file_bytes self.old.files name.now) (λ held. limit < length held) }
        ensures full { result ≡ Err FetchFault.TooLong → length into.new.items ≡ limit }
        ensures failed { result ≡ Err FetchFault.Failed → Rose self.old.plan.faults self.new.plan.faults }
        ensures fails { (result ≡ Err FetchFault.Failed) ↔ IsTrue (fetch_fails self.old name.now) }
        ensures counts { self.new ≡ after_fetch self.old name.now }

        ensures front { IfSome (file_bytes self.old.files name.now) (λ held. into.new.items ≡ take (length into.new.items) held) }
        ensures within { length into.new.items ≤ limit }

        ensures count { self.old.plan.faults ≤ self.new.plan.faults }
        ensures same_names { List ℕ → true ≡ true }
        ensures same_files { (n : List ℕ) → file_bytes self.new.files n ≡ file_bytes self.old.files n }
    {
        if self.failures.next_fails() {
            self.failures.count(true);
            return Err(FetchFault::Failed);
        }
        let held = self.files.get(name);
        self.failures.count(held.is_none());
        match held {
            Some(bytes) => give(bytes, limit, into),
            None => Err(FetchFault::Failed),
        }
    }
}
