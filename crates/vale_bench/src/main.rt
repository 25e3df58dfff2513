//! Benchmarks of library calls: with the words CALL TIMES FILE the call is made on the file's bytes so many times, and how
//! many parts the last one gave is printed. A call on terms has a number in place of the file: that of the terms of a sum,
//! or of the nodes of a sequent or of a store. `scripts/bench.sh` takes the time.
#![tactic(auto)]

mod store;
mod sums;

use anyhow::{Result, bail};
use gas_text::{print, read};
use std::alloc::Global;
use std::{env, fs};
use store::{find_nodes, make_nodes};
use sums::{
    fit_sequent, print_sequent, print_sum, size_sequent, size_sum, value_sequent, value_sum,
};
use vale_lexer::tokens;
use vale_parser::read_decls;
use vale_syntax::Token;
use x64_syntax::program_ok;

fn scanned(alloc: Global, text: &[u8]) -> Result<Vec<Token>> {
    if text.len() >= 1 << 32 {
        bail!("the text is too long");
    }
    match tokens(alloc, 0, text) {
        Ok(read) => Ok(read),
        Err(_) => bail!("the text has no tokens"),
    }
}

// How many tokens the text has.
fn scan(alloc: Global, text: &[u8], times: u32) -> Result<usize> {
    let mut parts = 0;
    for _time in 0..times {
        parts = scanned(alloc, text)?.len();
    }
    Ok(parts)
}

// How many declarations the text has; its tokens are read once.
fn parse(alloc: Global, text: &[u8], times: u32) -> Result<usize> {
    let read = scanned(alloc, text)?;
    let mut parts = 0;
    for _time in 0..times {
        match read_decls(alloc, &read) {
            Ok(decls) => parts = decls.len(),
            Err(_) => bail!("the text has no declarations"),
        }
    }
    Ok(parts)
}

// How many items the assembler text has.
fn read_text(alloc: Global, text: &[u8], times: u32) -> Result<usize> {
    let mut parts = 0;
    for _time in 0..times {
        match read(alloc, text) {
            Ok(items) => parts = items.len(),
            Err(_) => bail!("the text is no program"),
        }
    }
    Ok(parts)
}

// How many bytes the program of the text is printed in; it is read once.
fn print_text(alloc: Global, text: &[u8], times: u32) -> Result<usize> {
    let Ok(items) = read(alloc, text) else {
        bail!("the text is no program");
    };
    if !program_ok(&items) {
        bail!("the items are no program");
    }
    let mut parts = 0;
    for _time in 0..times {
        parts = print(alloc, &items)?.len();
    }
    Ok(parts)
}

// What a call on the bytes of a file gives.
fn on_file(alloc: Global, call: &str, text: &[u8], times: u32) -> Result<usize> {
    match call {
        "scan" => scan(alloc, text, times),
        "parse" => parse(alloc, text, times),
        "read" => read_text(alloc, text, times),
        "print" => print_text(alloc, text, times),
        _ => bail!("no such call: {call}"),
    }
}

// What a call on a term of that many parts gives.
fn on_term(alloc: Global, call: &str, count: u32, times: u32) -> Result<usize> {
    match call {
        "size-sum" => size_sum(alloc, count, times),
        "print-sum" => print_sum(alloc, count, times),
        "value-sum" => value_sum(alloc, count, times),
        "fit-sequent" => fit_sequent(alloc, count, times),
        "size-sequent" => size_sequent(alloc, count, times),
        "print-sequent" => print_sequent(alloc, count, times),
        "value-sequent" => value_sequent(alloc, count, times),
        "make-nodes" => Ok(make_nodes(alloc, count, times)?),
        "find-nodes" => Ok(find_nodes(alloc, count, times)?),
        _ => bail!("no such call: {call}"),
    }
}

fn is_on_term(call: &str) -> bool {
    call.ends_with("-sum") || call.ends_with("-sequent") || call.ends_with("-nodes")
}

fn main(rt: HostRuntime) -> Result<()> {
    let alloc = rt.alloc();
    let mut words = env::args(&rt)?.skip(1);
    let (Some(call), Some(times), Some(last)) = (words.next(), words.next(), words.next()) else {
        bail!("the words are CALL TIMES FILE or CALL TIMES NUMBER");
    };
    let times = times.parse::<u32>()?;
    let parts = if is_on_term(call.as_str()) {
        on_term(alloc, call.as_str(), last.parse::<u32>()?, times)?
    } else {
        let text = fs::read(&rt, last.as_str())?;
        on_file(alloc, call.as_str(), &text, times)?
    };
    println!(rt; "{call}: {parts} parts, {times} times")?;
    Ok(())
}
