// The program `vale`: the words of its command line, the system's files and streams, and its exit status.
#![tactic(auto)]

use std::io::ErrorKind;
use std::process::ExitCode;
use std::{env, io};
use vale_driver::{Status, run};
use vale_outside::{FileStore, StreamSink};

fn main(rt: HostRuntime) -> ExitCode {
    let alloc = rt.alloc();
    let words = match words(&rt) {
        Ok(words) => words,
        // A word that isn't UTF-8 is no command's, and neither is no word.
        Err(fault) if fault.kind() == ErrorKind::InvalidData => Vec::new(alloc),
        Err(_) => return ExitCode::from(Status::NoMemory.code()),
    };
    let mut store = FileStore::new(&rt);
    let mut out = StreamSink::new(rt.stdout());
    let mut err = StreamSink::new(rt.stderr());
    let status = run(alloc, &words, &mut store, &mut out, &mut err);
    ExitCode::from(status.code())
}

// The words that follow the program's name.
fn words(rt: &HostRuntime) -> io::Result<Vec<String>> {
    Ok(env::args(rt)?.skip(1).collect(rt.alloc())?)
}
