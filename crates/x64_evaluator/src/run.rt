// Runs of items.

ghost use Rattle.std.specs.Prelude.{◌≡◌, ◌<◌, ◌+◌, ◌^◌, ℕ, List, true, Some, length, slice_get, is_ok};
ghost use Rattle.std.specs.List.{list_all};
ghost use Rattle.x64_syntax.specs.declared.items.Item.TheVariants as item;
ghost use Rattle.x64_syntax.specs.Programs.{program_ok, is_item, labels_from};
ghost use Rattle.x64_syntax.specs.Instructions.{form_of};
ghost use Rattle.x64_meaning.specs.declared.machine.Obs.{Obs as AnObs};
ghost use Rattle.x64_meaning.specs.Run.{does, run};
ghost use Rattle.x64_evaluator.specs.Evaluated.{way, halt_at, evaluation, is_entry_at};
ghost use Rattle.x64_evaluator.specs.inner.Moves.{stands, step_stand, done, steps_by};

use crate::end::{End, RunEnd};
use crate::places::place;
use crate::trace::Trace;
use x64_meaning::{Fault, Machine, Obs, Seen, foresee, holds, open_flag, step_ins};
use x64_syntax::{Cond, Ins, Item};

// Does an instruction that is to show nothing.
fn do_unseen(m: &mut Machine, ins: &Ins) -> Result<(), End>
    requires { is_ok (form_of ins.now) ≡ true }
    ensures { (seen : List AnObs) → stands result m.new seen ≡ done (length seen) m.old seen (does ins.now m.old) }
{
    if foresee(m, ins)?.is_some() {
        return Err(End::TraceFull);
    }
    step_ins(m, ins, &mut Seen { last: None })?;
    Ok(())
}

// Does an instruction whose observation has room.
fn do_seen(m: &mut Machine, ins: &Ins, t: &mut Trace) -> Result<(), End>
    requires form { is_ok (form_of ins.now) ≡ true }
    requires room { length t.old.seen < t.old.room }
    ensures done { stands result m.new t.new.seen ≡ done t.old.room m.old t.old.seen (does ins.now m.old) }
    ensures room { t.new.room ≡ t.old.room }
{
    let mut seen = Seen { last: None };
    step_ins(m, ins, &mut seen)?;
    match seen.last {
        Some(obs) => t.see(obs),
        None => Ok(()),
    }
}

fn do_ins(m: &mut Machine, ins: &Ins, t: &mut Trace) -> Result<(), End>
    requires { is_ok (form_of ins.now) ≡ true }
    ensures done { stands result m.new t.new.seen ≡ done t.old.room m.old t.old.seen (does ins.now m.old) }
    ensures room { t.new.room ≡ t.old.room }
{
    if t.has_room() {
        do_seen(m, ins, t)
    } else {
        do_unseen(m, ins)
    }
}

// Where a conditional jump goes on.
fn branch(
    items: &[Item],
    at: usize,
    c: Cond,
    label: u32,
    m: &Machine,
    t: &mut Trace,
) -> Result<usize, End>
    requires order { labels_from 0 items.now ≡ true }
    requires within { at < length items.now }
    requires here { slice_get items.now at ≡ Some (item.Jcc c label) }
    ensures moved { (k : ℕ) → stands result m.now t.new.seen ≡ step_stand t.old.room (way m.now t.old.seen k) (run items.now 1 at (way m.now t.old.seen k)) }
    ensures room { t.new.room ≡ t.old.room }
{
    if let Some(flag) = open_flag(m, c) {
        return Err(End::Faulted(Fault::UndefinedFlag { flag }));
    }
    let taken = holds(m, c);
    let next = if taken {
        match place(items, at, label) {
            Some(next) => next,
            None => return Err(End::OffCode),
        }
    } else {
        at + 1
    };
    t.see(Obs::Branch { taken })?;
    Ok(next)
}

// Passes an item, and gives the position of the next.
fn pass(
    items: &[Item],
    at: usize,
    item: &Item,
    m: &mut Machine,
    t: &mut Trace,
) -> Result<usize, End>
    requires order { labels_from 0 items.now ≡ true }
    requires within { at < length items.now }
    requires here { slice_get items.now at ≡ Some item.now }
    requires form { is_item item.now ≡ true }
    ensures moved { (k : ℕ) → stands result m.new t.new.seen ≡ step_stand t.old.room (way m.old t.old.seen k) (run items.now 1 at (way m.old t.old.seen k)) }
    ensures room { t.new.room ≡ t.old.room }
{
    let _ = t.has_room();
    match item {
        Item::Ins(ins) => {
            do_ins(m, ins, t)?;
            Ok(at + 1)
        }
        Item::Label(_) | Item::Entry(_) => Ok(at + 1),
        Item::Jmp(label) => place(items, at, *label).ok_or(End::OffCode),
        Item::Jcc(c, label) => branch(items, at, *c, *label, m, t),
        Item::Ret => Err(End::Ended),
    }
}

// Makes one step, and gives the position of the next.
fn step(items: &[Item], at: usize, m: &mut Machine, t: &mut Trace) -> Result<usize, End>
    requires forms { list_all is_item items.now ≡ true }
    requires order { labels_from 0 items.now ≡ true }
    ensures moved { (k : ℕ) → stands result m.new t.new.seen ≡ step_stand t.old.room (way m.old t.old.seen k) (run items.now 1 at (way m.old t.old.seen k)) }
    ensures room { t.new.room ≡ t.old.room }
{
    match items.get(at) {
        Some(item) => pass(items, at, item, m, t),
        None => Err(End::OffCode),
    }
}

// A run that ends behind so many steps, where a `ret` is one more.
fn after(made: u64, end: End) -> RunEnd
    requires { made + 1 < 2 ^ 64 }
    ensures { result ≡ record { end = end; steps = steps_by end made } }
{
    let steps = match end {
        End::Ended => made + 1,
        End::Faulted(_) | End::OffCode | End::Paused | End::TraceFull => made,
    };
    RunEnd { end, steps }
}

/// Runs items from an entry, at most so many steps. Before each step it pauses where so many were made; else it is off
/// the code where its position is past the end; else the step faults; else the trace is full where the step would be
/// seen and there is no room. It takes no memory. See docs/MACHINE.md.
pub fn run_items(items: &[Item], entry: usize, m: &mut Machine, steps: u64, t: &mut Trace) -> RunEnd
    requires program { program_ok items.now ≡ true }
    requires entry { is_entry_at items.now entry ≡ true }
    ensures ended { halt_at result.end (way m.new t.new.seen result.steps) ≡ evaluation items.now t.old.room steps entry (way m.old t.old.seen 0) }
    ensures room { t.new.room ≡ t.old.room }
{
    let mut at = entry;
    for made in 0..steps {
        match step(items, at, m, t) {
            Ok(next) => at = next,
            Err(end) => return after(made, end),
        }
    }
    RunEnd {
        end: End::Paused,
        steps,
    }
}
