// Real files and streams: the trusted edge. They tell nothing of what they hold, and count their failures.

ghost use Rattle.std.specs.Prelude.{◌≡◌, ◌≤◌, [], None, length, true, OnOk};
ghost use Rattle.std.specs.Vec.{vec_len};

use crate::sink::{PutFault, Sink};
use crate::store::{FetchFault, Store};
use std::fs::File;
use std::io::{ErrorKind, Read, Write};
use std::rt::Files;

/// How many bytes one read asks for.
const CHUNK: usize = 16384;

/// The files of the system.
#[derive(Drop)]
pub struct FileStore<'a, R: Files> {
    files: &'a R,
    faults: u64,
}

impl<'a, R: Files> FileStore<'a, R> {
    pub fn new(files: &'a R) -> Self
        ensures { result.faults ≡ 0 }
    {
        FileStore { files, faults: 0 }
    }
}

impl<R: Files> Store for FileStore<'_, R> {
    ghost may_ask = { λ _ _. true };

    ghost tells = { λ _ _. None };

    ghost faults = { λ s. s.faults };

    fn fetch(&mut self, name: &str, limit: usize, into: &mut Vec<u8>) -> Result<(), FetchFault> {
        let fetched = match File::open(self.files, name) {
            Ok(mut file) => read_all(&mut file, limit, into),
            Err(_) => Err(FetchFault::Failed),
        };
        if fetched == Err(FetchFault::Failed) {
            self.faults = self.faults.saturating_add(1);
        }
        fetched
    }
}

// Reads to the end, as far as the limit. A read that gives nothing is the end.
fn read_all<F: Read>(file: &mut F, limit: usize, into: &mut Vec<u8>) -> Result<(), FetchFault>
    requires { into.old.items ≡ [] }
    ensures within { length into.new.items ≤ limit }
    ensures full { result ≡ Err FetchFault.TooLong → length into.new.items ≡ limit }
{
    let mut chunk = [0u8; CHUNK];
    for _ in 0..u64::MAX {
        let count = match file.read(&mut chunk) {
            Ok(count) => count,
            Err(fault) if fault.kind() == ErrorKind::Interrupted => continue,
            Err(_) => return Err(FetchFault::Failed),
        };
        if count == 0 {
            return Ok(());
        }
        let room = limit - into.len();
        let taken = count.min(room);
        if into.extend_from_slice(&chunk[..taken]).is_err() {
            return Err(FetchFault::NoMemory);
        }
        if room < count {
            return Err(FetchFault::TooLong);
        }
    }
    Err(FetchFault::Failed)
}

/// A stream of the system, as standard output.
#[derive(Drop)]
pub struct StreamSink<W: Write + Drop> {
    stream: W,
    faults: u64,
}

impl<W: Write + Drop> StreamSink<W> {
    pub fn new(stream: W) -> Self
        ensures { result.faults ≡ 0 }
    {
        StreamSink { stream, faults: 0 }
    }
}

impl<W: Write + Drop> Sink for StreamSink<W> {
    ghost told = { λ _. None };

    ghost faults = { λ s. s.faults };

    /// A write that takes nothing of a piece that isn't empty is a failure.
    fn put(&mut self, bytes: &[u8]) -> Result<(), PutFault> {
        match self.stream.write_all(bytes) {
            Ok(()) => Ok(()),
            Err(_) => {
                self.faults = self.faults.saturating_add(1);
                Err(PutFault::Failed)
            }
        }
    }
}
