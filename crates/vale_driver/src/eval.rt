// The command `eval`: runs of assembler texts.

ghost use Rattle.std.specs.Prelude.{◌≡◌, ◌≤◌, ℕ, List, Some, position, IsTrue, IfOk, IfErr};
ghost use Rattle.vale_outside.specs.Outside.{Rose};
ghost use Rattle.vale_driver.specs.Words.{Eval};
ghost use Rattle.vale_driver.specs.Texts.{Begun, BegunRefused, StateRead, StateRefused, is_named};
ghost use Rattle.vale_driver.specs.inner.Phases.{eval_of};
ghost use Rattle.vale_driver.specs.inner.Stops.{StopsBy, FileHolds};
ghost use Rattle.vale_driver.specs.Commands.{IsRefused, WritesReport};

use crate::cause::{Cause, refusal_of};
use crate::read::read_text;
use crate::stop::{Stop, fetch};
use crate::words::EvalWords;
use std::alloc::Global;
use vale_outside::Store;
use x64_evaluator::{StateFault, Trace, read_state, report_of, run_items};
use x64_meaning::Machine;
use x64_syntax::Item;

/// The most bytes of a state file.
const STATE_LIMIT: usize = 16777216;

/// The room for observations.
const TRACE_ROOM: usize = 1048576;

fn is_named(item: &Item, name: &[u8]) -> bool
    ensures { result ≡ is_named name.now item.now }
{
    match item {
        Item::Entry(other) => other.as_bytes() == name,
        _ => false,
    }
}

fn entry_named(items: &[Item], name: &[u8]) -> Option<usize>
    ensures { result ≡ position (is_named name.now) items.now }
{
    items.iter().position(|item| is_named(item, name))
}

// The items of a text, and the place of the entry.
fn begin<S: Store>(
    alloc: Global,
    store: &mut S,
    words: EvalWords<'_>,
) -> Result<(Vec<Item>, usize), Stop>
    requires { IsTrue (S.may_ask store.old words.text.now) }
    ensures begun { IfOk result (λ p. FileHolds (S.tells store.old words.entry.text.now) (λ t. Begun (eval_of words.entry) t p.0.items (Some p.1))) }
    ensures stops { IfErr result (StopsBy (λ r. FileHolds (S.tells store.old words.entry.text.now) (λ t. BegunRefused (eval_of words.entry) t r)) (Rose (S.faults store.old) (S.faults store.new))) }
    ensures count { S.faults store.old ≤ S.faults store.new }
    ensures same_names { (n : List ℕ) → S.may_ask store.new n ≡ S.may_ask store.old n }
    ensures same_files { (n : List ℕ) → S.tells store.new n ≡ S.tells store.old n }
{
    let items = read_text(alloc, store, words.text)?;
    match entry_named(&items, words.entry.as_bytes()) {
        Some(entry) => Ok((items, entry)),
        None => {
            let refusal = refusal_of(alloc, Cause::NoEntry(words.text, words.entry))?;
            Err(Stop::Refused(refusal))
        }
    }
}

// The machine of a state file.
fn start<S: Store>(alloc: Global, store: &mut S, file: &str) -> Result<Machine, Stop>
    requires { IsTrue (S.may_ask store.old file.now) }
    ensures found { IfOk result (λ m. FileHolds (S.tells store.old file.now) (λ t. StateRead t m)) }
    ensures stops { IfErr result (StopsBy (λ r. FileHolds (S.tells store.old file.now) (λ t. StateRefused file.now t r)) (Rose (S.faults store.old) (S.faults store.new))) }
    ensures count { S.faults store.old ≤ S.faults store.new }
{
    let Some(bytes) = fetch(alloc, store, file, STATE_LIMIT)? else {
        let refusal = refusal_of(alloc, Cause::TooLong(file))?;
        return Err(Stop::Refused(refusal));
    };
    match read_state(alloc, &bytes) {
        Ok(machine) => Ok(machine),
        Err(StateFault::Line(line)) => {
            let refusal = refusal_of(alloc, Cause::NoSetting(file, line))?;
            Err(Stop::Refused(refusal))
        }
        Err(StateFault::NoMemory) => Err(Stop::NoMemory),
    }
}

/// The report of the run of a text.
pub(crate) fn eval_report<S: Store>(
    alloc: Global,
    store: &mut S,
    words: EvalWords<'_>,
) -> Result<Vec<u8>, Stop>
    requires text { IsTrue (S.may_ask store.old words.text.now) }
    requires state { IsTrue (S.may_ask store.old words.state.now) }
    ensures reported { IfOk result (λ out. WritesReport (S.tells store.old) (eval_of words.entry) out.items) }
    ensures stops { IfErr result (StopsBy (IsRefused (S.tells store.old) (Eval (eval_of words.entry))) (Rose (S.faults store.old) (S.faults store.new))) }
    ensures count { S.faults store.old ≤ S.faults store.new }
{
    let (items, entry) = begin(alloc, store, words)?;
    let mut machine = start(alloc, store, words.state)?;
    let mut trace = Trace::with_room(alloc, TRACE_ROOM)?;
    let run = run_items(&items, entry, &mut machine, words.steps, &mut trace);
    Ok(report_of(alloc, run, &machine, &trace)?)
}
