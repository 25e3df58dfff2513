// Runs of the program over files in memory.

use crate::answer::{Answer, make_answer};
use anyhow::{Result, bail};
use bstr::ByteSlice;
use std::alloc::Global;
use vale_driver::run;
use vale_outside::{MemSink, MemStore};

/// What a run is made of: its words, its files, and the calls that are to fail.
#[derive(Drop)]
pub(crate) struct Run {
    words: Vec<String>,
    store: MemStore,
    out: MemSink,
    err: MemSink,
}

fn number(text: &[u8]) -> Result<u64> {
    Ok(str::from_utf8(text)?.parse::<u64>()?)
}

// The lines that semicolons separate.
fn lines(alloc: Global, text: &[u8]) -> Result<Vec<u8>> {
    Ok(text.replace(alloc, b"; ", b"\n")?)
}

impl Run {
    pub(crate) fn new(alloc: Global) -> Self {
        Run {
            words: Vec::new(alloc),
            store: MemStore::new(alloc),
            out: MemSink::new(alloc),
            err: MemSink::new(alloc),
        }
    }

    fn hold(&mut self, alloc: Global, name: &[u8], bytes: Vec<u8>) -> Result<()> {
        let name = String::from_str(alloc, str::from_utf8(name)?)?;
        self.store.hold(name, bytes)?;
        Ok(())
    }

    fn take_words(&mut self, alloc: Global, words: &[u8]) -> Result<()> {
        for word in words.split_str(b" ") {
            let word = String::from_str(alloc, str::from_utf8(word)?)?;
            self.words.push(word)?;
        }
        Ok(())
    }

    fn fail(&mut self, object: &[u8], call: u64) -> Result<()> {
        match object {
            b"store" => self.store.fail_at(call)?,
            b"out" => self.out.fail_at(call)?,
            b"err" => self.err.fail_at(call)?,
            _ => bail!("no object that fails: {:?}", object.as_bstr()),
        }
        Ok(())
    }

    /// Takes a line of a case: `words ..`, `file NAME = ..`, `lines NAME = ..` or `fails OBJECT = CALL`.
    pub(crate) fn take(
        &mut self,
        alloc: Global,
        key: &[u8],
        name: &[u8],
        value: &[u8],
    ) -> Result<()> {
        match key {
            b"words" => self.take_words(alloc, value),
            b"file" => self.hold(alloc, name, Vec::from_slice(alloc, value)?),
            b"lines" => self.hold(alloc, name, lines(alloc, value)?),
            b"fails" => self.fail(name, number(value)?),
            _ => bail!("no line of a run: {:?}", key.as_bstr()),
        }
    }

    /// Runs the program.
    pub(crate) fn ends(&mut self, alloc: Global) -> Result<Answer> {
        let status = run(
            alloc,
            &self.words,
            &mut self.store,
            &mut self.out,
            &mut self.err,
        );
        make_answer(alloc, status.code(), self.out.bytes(), self.err.bytes())
    }
}
