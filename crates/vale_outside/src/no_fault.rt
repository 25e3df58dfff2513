// Stores and sinks that never fail.

ghost use Rattle.std.specs.Prelude.{◌≡◌, ℕ, ◌≤◌, ◌<◌, ◌∷◌, List, [], IsTrue, IsOk, is_some, length, take, None, OnOk, OnErr, IfSome};
ghost use Rattle.std.specs.String.{string_bytes};
ghost use Rattle.vale_outside.specs.Plan.{file_bytes};

use crate::named_files::{NamedFiles, give};
use crate::sink::{PutFault, Sink};
use crate::store::{FetchFault, Store};
use std::alloc::{AllocError as NoMemory, Global};
use std::marker::Model;

/// Files in memory, of which only those that are held may be asked for. It never fails.
#[derive(Drop)]
pub struct NoFaultStore {
    files: NamedFiles,
}

impl Model for NoFaultStore {
    ghost use Rattle.std.specs.Prelude.{List};
    ghost use Rattle.vale_outside.specs.Plan.{File};

    ghost Value = { List File };

    ghost view = { λ s. s.files };
}

impl NoFaultStore {
    /// A store with no files.
    pub fn new(alloc: Global) -> Self
        ensures { result ≡ [] }
    {
        NoFaultStore {
            files: NamedFiles::new(alloc),
        }
    }

    /// Adds a file, in place of any of its name. Where memory runs out nothing changes.
    pub fn hold(&mut self, name: String, bytes: Vec<u8>) -> Result<(), NoMemory>
        ensures ok { OnOk result (self.new ≡ record { name = string_bytes name; bytes = bytes.items } ∷ self.old) }
        ensures err { OnErr result (self.new ≡ self.old) }
    {
        self.files.hold(name, bytes)
    }
}

impl Store for NoFaultStore {
    ghost may_ask = { λ s name. is_some (file_bytes s name) };

    ghost tells = { file_bytes };

    ghost faults = { λ _. 0 };

    fn fetch(&mut self, name: &str, limit: usize, into: &mut Vec<u8>) -> Result<(), FetchFault> {
        match self.files.get(name) {
            Some(bytes) => give(bytes, limit, into),
            None => unreachable!(),
        }
    }
}

/// Drops its bytes, tells nothing and never fails.
#[derive(Clone, Copy, Debug, Default)]
pub struct NoFaultSink;

impl Sink for NoFaultSink {
    ghost told = { λ _. None };

    ghost faults = { λ _. 0 };

    fn put(&mut self, _bytes: &[u8]) -> Result<(), PutFault>
        ensures { IsOk result }
    {
        Ok(())
    }
}
