//! Cases as data: each word names a file of cases, which are tried one after another. What differs from what a case tells
//! is printed, and then how many cases the file has. docs/CASES.md says how a case is written.
#![tactic(auto)]

mod answer;
mod commands;
mod instructions;
mod letters;
mod machines;
mod plain_run;
mod report;
mod scopes;
mod script;
mod sources;
mod texts;

use anyhow::Result;
use script::try_file;
use std::process::ExitCode;
use std::{env, fs};

fn main(rt: HostRuntime) -> Result<ExitCode> {
    let mut wrong = 0u64;
    for name in env::args(&rt)?.skip(1) {
        let bytes = fs::read(&rt, name.as_str())?;
        let found = try_file(&rt, rt.alloc(), name.as_str(), &bytes)?;
        wrong = wrong.saturating_add(found);
    }
    Ok(ExitCode::from(u8::from(wrong != 0)))
}
