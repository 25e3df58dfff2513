// What the crates of the machine make of a text.

use crate::instructions::form_of;
use crate::letters::{code_of, items_of, outline};
use crate::plain_run::{are_alike, ends};
use anyhow::Result;
use bstr::ByteSlice;
use code_lower::{labels_fit, lower};
use std::alloc::Global;
use x64_blocks::Blocks;
use x64_evaluator::{Trace, read_state, report_of, run_items};
use x64_meaning::{Flag, Machine, holds, open_flag};
use x64_syntax::{Code, Cond, Item, Text, code_ok, program_ok};

const CONDITIONS: [Cond; 6] = [Cond::E, Cond::Ne, Cond::B, Cond::Be, Cond::A, Cond::Ae];

/// How many values a report has: 16 registers, 16 xmm registers and four flags.
const VALUES: usize = 36;

const COUNTERS: [(u64, u64); 6] = [(0, 0), (0, 3), (3, 3), (7, 2), (u64::MAX, 1), (1, 20)];

fn flag_of(letter: Option<&u8>) -> Flag {
    match letter {
        Some(b'0') => Flag::Zero,
        Some(b'1') => Flag::One,
        _ => Flag::Undefined,
    }
}

// Whether a condition holds, or the flag that it lacks.
fn push_condition(out: &mut String, m: &Machine, c: Cond) -> Result<()> {
    match open_flag(m, c) {
        Some(flag) => write!(out, "{} ", flag.name())?,
        None => write!(out, "{} ", if holds(m, c) { "yes" } else { "no" })?,
    }
    Ok(())
}

// For each condition whether it holds, or the flag that it lacks, where the flags are as the letters say.
fn conditions(alloc: Global, letters: &[u8]) -> Result<String> {
    let mut m = Machine::new(Blocks::new(alloc));
    for (k, flag) in m.flags.iter_mut().enumerate() {
        *flag = flag_of(letters.get(k));
    }
    let mut out = String::new(alloc);
    for c in CONDITIONS {
        push_condition(&mut out, &m, c)?;
    }
    Ok(out)
}

fn truth(alloc: Global, is_so: bool) -> Result<String> {
    Ok(format!(in alloc; "{}", if is_so { "yes" } else { "no" })?)
}

// The items of code, or none where its labels don't fit.
fn items(alloc: Global, first: u32, code: &Code) -> Result<Vec<Item>> {
    if !labels_fit(first, code) {
        return Ok(Vec::new(alloc));
    }
    let name = Text::from_slice(alloc, b"t")?;
    Ok(lower(alloc, first, &name, code)?)
}

// `5 Ea|.`: the outline of the items, whose first label has the number.
fn lowered(alloc: Global, text: &[u8]) -> Result<String> {
    let (first, letters) = text.split_once_str(b" ").unwrap_or((text, b""));
    let first = str::from_utf8(first)?.parse::<u32>()?;
    let code = code_of(alloc, letters)?;
    let mut out = String::new(alloc);
    outline(&mut out, &items(alloc, first, &code)?)?;
    Ok(out)
}

// Whether code and its items run alike from each of the counters, and how many items there are.
fn alike(alloc: Global, letters: &[u8]) -> Result<String> {
    let code = code_of(alloc, letters)?;
    let items = items(alloc, 0, &code)?;
    let mut count = 0u32;
    if code_ok(&code) && program_ok(&items) {
        for counters in COUNTERS {
            if are_alike(alloc, &code, &items, 0, counters)? {
                count = count.wrapping_add(1);
            }
        }
    }
    Ok(format!(in alloc; "{} items, alike {count} of 6", items.len())?)
}

// Two exports, one behind the other, and where the second begins.
fn exported(alloc: Global, a: &Code, b: &Code) -> Result<(Vec<Item>, usize)> {
    let mut all = items(alloc, 0, a)?;
    let entry = all.len();
    let labels = all
        .iter()
        .filter(|item| matches!(item, Item::Label(_)))
        .count();
    let first = u32::try_from(labels)?;
    let name = Text::from_slice(alloc, b"u")?;
    if labels_fit(first, b) {
        all.append(&mut lower(alloc, first, &name, b)?)?;
    }
    Ok((all, entry))
}

// Whether both exports run as their code does.
fn are_both_alike(alloc: Global, a: &Code, b: &Code, all: &[Item], entry: usize) -> Result<bool> {
    for counters in [(3, 3), (0, 4), (5, 1)] {
        if !are_alike(alloc, a, all, 0, counters)? || !are_alike(alloc, b, all, entry, counters)? {
            return Ok(false);
        }
    }
    Ok(program_ok(all))
}

// The outline of two exports, each run beside its code.
fn beside(alloc: Global, a: &Code, b: &Code) -> Result<String> {
    let (all, entry) = exported(alloc, a, b)?;
    let mut out = String::new(alloc);
    outline(&mut out, &all)?;
    let is_alike = are_both_alike(alloc, a, b, &all, entry)?;
    out.push_str(if is_alike { " alike" } else { " not alike" })?;
    Ok(out)
}

// `Ea|. Wc.`: two exports, one behind the other, each run beside its code.
fn two_exports(alloc: Global, text: &[u8]) -> Result<String> {
    let (a, b) = text.split_once_str(b" ").unwrap_or((text, b""));
    let a = code_of(alloc, a)?;
    let b = code_of(alloc, b)?;
    beside(alloc, &a, &b)
}

// The report of a run whose trace has so much room; none where the items are no program that runs.
fn run_report(
    alloc: Global,
    items: &[Item],
    m: &mut Machine,
    steps: u64,
    room: usize,
) -> Result<Option<Vec<u8>>> {
    if !program_ok(items) || !matches!(items.first(), Some(Item::Entry(_))) {
        return Ok(None);
    }
    let mut trace = Trace::with_room(alloc, room)?;
    let run = run_items(items, 0, m, steps, &mut trace);
    Ok(Some(report_of(alloc, run, m, &trace)?))
}

// The end of a report, the blocks and what was seen.
fn without_values(alloc: Global, report: &[u8]) -> Result<String> {
    let mut out = String::new(alloc);
    for (k, line) in report.lines().enumerate() {
        if k == 0 || k > VALUES {
            line.to_str_lossy_into(&mut out)?;
            out.push_str("; ")?;
        }
    }
    Ok(out)
}

// How a run of items from a state ends.
fn run_from(
    alloc: Global,
    items: &[Item],
    state: &[u8],
    steps: u64,
    room: usize,
) -> Result<String> {
    let lines = state.replace(alloc, b"; ", b"\n")?;
    let Ok(mut m) = read_state(alloc, &lines) else {
        return Ok(format!(in alloc; "no state")?);
    };
    match run_report(alloc, items, &mut m, steps, room)? {
        Some(report) => without_values(alloc, &report),
        None => Ok(format!(in alloc; "no program")?),
    }
}

// `STEPS ROOM :f a r; STATE`: how a run of items ends whose trace has so much room, the blocks, and what was seen.
fn halted(alloc: Global, text: &[u8]) -> Result<String> {
    let (words, state) = text.split_once_str(b"; ").unwrap_or((text, b""));
    let (steps, words) = words.split_once_str(b" ").unwrap_or((words, b""));
    let (room, words) = words.split_once_str(b" ").unwrap_or((words, b""));
    let steps = str::from_utf8(steps)?.parse::<u64>()?;
    let room = str::from_utf8(room)?.parse::<usize>()?;
    let items = items_of(alloc, words)?;
    run_from(alloc, &items, state, steps, room)
}

// Whether the items of a text are a program.
fn is_program(alloc: Global, text: &[u8]) -> Result<bool> {
    let items = items_of(alloc, text)?;
    Ok(program_ok(&items))
}

// Whether the code of a text is the machine's.
fn is_code(alloc: Global, text: &[u8]) -> Result<bool> {
    let code = code_of(alloc, text)?;
    Ok(code_ok(&code))
}

// Whether the code of a text ends without leaving its blocks.
fn stays(alloc: Global, text: &[u8]) -> Result<bool> {
    let code = code_of(alloc, text)?;
    ends(alloc, &code, (0, 0))
}

/// What the crates of the machine make of a text, by a key; none where it names no reading of theirs.
pub(crate) fn machined(alloc: Global, key: &[u8], text: &[u8]) -> Result<Option<Vec<u8>>> {
    let out = match key {
        b"form" => form_of(alloc, text)?,
        b"conditions" => conditions(alloc, text)?,
        b"program" => truth(alloc, is_program(alloc, text)?)?,
        b"code" => truth(alloc, is_code(alloc, text)?)?,
        b"stays" => truth(alloc, stays(alloc, text)?)?,
        b"lowered" => lowered(alloc, text)?,
        b"alike" => alike(alloc, text)?,
        b"exports" => two_exports(alloc, text)?,
        b"halted" => halted(alloc, text)?,
        _ => return Ok(None),
    };
    Ok(Some(out.into_bytes()))
}
