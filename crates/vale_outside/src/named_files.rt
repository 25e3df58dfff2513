// Files under their names, which the stores in memory share.

ghost use Rattle.std.specs.Prelude.{◌≡◌, ◌∷◌, [], ◌<◌, ◌≤◌, length, take, OnOk, OnErr};
ghost use Rattle.std.specs.Option.{option_copied};
ghost use Rattle.std.specs.String.{string_bytes};
ghost use Rattle.vale_outside.specs.Plan.{file_bytes};

use crate::store::FetchFault;
use std::alloc::{AllocError as NoMemory, Global};
use std::marker::Model;

/// Files under their names, the newest first. Of two files of one name the newer counts.
#[derive(Drop)]
pub(crate) struct NamedFiles {
    files: Vec<NamedFile>,
}

#[derive(Drop)]
struct NamedFile {
    name: String,
    bytes: Vec<u8>,
}

impl Model for NamedFile {
    ghost use Rattle.std.specs.String.{string_bytes};
    ghost use Rattle.vale_outside.specs.Plan.{File};

    ghost Value = { File };

    ghost view = { λ f. record { name = string_bytes f.name; bytes = f.bytes.items } };
}

impl Model for NamedFiles {
    ghost use Rattle.std.specs.Prelude.{List};
    ghost use Rattle.vale_outside.specs.Plan.{File};

    ghost Value = { List File };

    ghost view = { λ f. f.files.items };
}

impl NamedFiles {
    pub(crate) fn new(alloc: Global) -> Self
        ensures { result ≡ [] }
    {
        NamedFiles {
            files: Vec::new(alloc),
        }
    }

    pub(crate) fn hold(&mut self, name: String, bytes: Vec<u8>) -> Result<(), NoMemory>
        ensures ok { OnOk result (self.new ≡ record { name = string_bytes name; bytes = bytes.items } ∷ self.old) }
        ensures err { OnErr result (self.new ≡ self.old) }
    {
        self.files.insert(0, NamedFile { name, bytes })?;
        Ok(())
    }

    pub(crate) fn get(&self, name: &str) -> Option<&[u8]>
        ensures { option_copied result ≡ file_bytes self.now name.now }
    {
        find(&self.files, name)
    }
}

fn find<'a>(files: &'a [NamedFile], name: &str) -> Option<&'a [u8]>
    ensures { option_copied result ≡ file_bytes files.now name.now }
{
    for file in files {
        if file.name.as_str() == name {
            return Some(&file.bytes);
        }
    }
    None
}

/// Puts a file's bytes into an empty vector, as far as the limit.
pub(crate) fn give(bytes: &[u8], limit: usize, into: &mut Vec<u8>) -> Result<(), FetchFault>
    requires { into.old.items ≡ [] }
    ensures ok { OnOk result ((into.new.items ≡ bytes.now) × (length bytes.now ≤ limit)) }
    ensures too_long { result ≡ Err FetchFault.TooLong → (into.new.items ≡ take limit bytes.now) × (limit < length bytes.now) }
    ensures no_memory { result ≡ Err FetchFault.NoMemory → into.new.items ≡ [] }
    ensures failed { result ≡ Err FetchFault.Failed → ⊥ }
{
    if bytes.len() <= limit {
        copy(into, bytes)
    } else {
        copy(into, &bytes[..limit])?;
        Err(FetchFault::TooLong)
    }
}

fn copy(into: &mut Vec<u8>, bytes: &[u8]) -> Result<(), FetchFault>
    requires { into.old.items ≡ [] }
    ensures ok { OnOk result (into.new.items ≡ bytes.now) }
    ensures err { OnErr result ((into.new.items ≡ []) × (result ≡ Err FetchFault.NoMemory)) }
{
    match into.extend_from_slice(bytes) {
        Ok(()) => Ok(()),
        Err(_) => Err(FetchFault::NoMemory),
    }
}
