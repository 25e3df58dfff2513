// What a run is to answer.

use crate::report::report_text;
use anyhow::{Result, bail};
use bstr::ByteSlice;
use std::alloc::Global;

const USAGE: &[u8] = b"usage: vale COMMAND [OPTIONS] FILE..\n";

const READ_FAULT: &[u8] = b"read fault\n";

/// A status, and what is written to `out` and to `err`.
#[derive(Drop, PartialEq, Eq)]
pub(crate) struct Answer {
    pub(crate) status: u8,
    pub(crate) out: Vec<u8>,
    pub(crate) err: Vec<u8>,
}

/// An answer of these texts.
pub(crate) fn make_answer(alloc: Global, status: u8, out: &[u8], err: &[u8]) -> Result<Answer> {
    Ok(Answer {
        status,
        out: Vec::from_slice(alloc, out)?,
        err: Vec::from_slice(alloc, err)?,
    })
}

fn report_answer(alloc: Global, parts: &[u8]) -> Result<Answer> {
    let text = report_text(alloc, parts)?;
    make_answer(alloc, 0, &text, b"")
}

fn refusal_answer(alloc: Global, line: &[u8]) -> Result<Answer> {
    let mut err = Vec::from_slice(alloc, line)?;
    err.push(b'\n')?;
    make_answer(alloc, 1, b"", &err)
}

/// The answer that a text tells: `done TEXT`, `refused LINE`, `usage`, `read fault`, `write fault FRONT`, `write fault
/// on err FRONT`, or `report END; VALUES; LINE; ..`.
pub(crate) fn answer_of(alloc: Global, told: &[u8]) -> Result<Answer> {
    if let Some(text) = told.strip_prefix(b"done ") {
        return make_answer(alloc, 0, text, b"");
    }
    if let Some(parts) = told.strip_prefix(b"report ") {
        return report_answer(alloc, parts);
    }
    if let Some(line) = told.strip_prefix(b"refused ") {
        return refusal_answer(alloc, line);
    }
    if let Some(front) = told.strip_prefix(b"write fault on err ") {
        return make_answer(alloc, 4, b"", front);
    }
    if let Some(front) = told.strip_prefix(b"write fault ") {
        return make_answer(alloc, 4, front, b"");
    }
    match told {
        b"done" => make_answer(alloc, 0, b"", b""),
        b"usage" => make_answer(alloc, 2, b"", USAGE),
        b"read fault" => make_answer(alloc, 3, b"", READ_FAULT),
        b"write fault" => make_answer(alloc, 4, b"", b""),
        _ => bail!("no answer: {:?}", told.as_bstr()),
    }
}
