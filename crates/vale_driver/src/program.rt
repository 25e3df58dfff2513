// The top call: words to text.

ghost use Rattle.std.specs.Prelude.{◌≡◌, ◌≤◌, Some, IfOk, IfErr, ◌⊎◌};
ghost use Rattle.vale_outside.specs.Outside.{Rose};
ghost use Rattle.vale_driver.specs.Words.{form, texts};
ghost use Rattle.vale_driver.specs.Lines.{usage_line, read_fault_line, refusal_line};
ghost use Rattle.vale_driver.specs.Commands.{IsRefused, IsOutput};
ghost use Rattle.vale_driver.specs.Ends.{files, stream, IsSilent, MayAsk, Ends, Exactly};
ghost use Rattle.vale_driver.specs.inner.Stops.{StopsBy};
ghost use Rattle.vale_driver.specs.inner.Phases.{command_of, FewFiles};
ghost use Rattle.vale_driver.specs.inner.Says.{SaysOr};

use crate::build::build;
use crate::eval::eval_report;
use crate::read::read_listing;
use crate::report::{refusal_line, write_lines};
use crate::status::{Refusal, Status};
use crate::stop::Stop;
use crate::words::{Command, read_words};
use std::alloc::Global;
use vale_outside::{Sink, Store};

const USAGE: &[u8] = b"usage: vale COMMAND [OPTIONS] FILE..\n";

const READ_FAULT: &[u8] = b"read fault\n";

/// Runs the program on the words that follow its name: a build, the listing of an assembler text, or its run. What is
/// asked for is written to `out`. Any other answer than [`Status::Done`] comes with one line on `err`, but for
/// [`Status::NoMemory`], which writes nothing. See docs/COMMANDS.md.
#[tactic(auto, unfolding(crate::specs::Lines::usage_line))]
pub fn run<S: Store, O: Sink, E: Sink>(
    alloc: Global,
    words: &Vec<String>,
    store: &mut S,
    out: &mut O,
    err: &mut E,
) -> Status
    requires askable { MayAsk (S.may_ask store.old) (form (texts words.now.items)) }
    ensures ends { Ends (form (texts words.now.items))
        (files (S.tells store.old) (S.faults store.old) (S.faults store.new))
        (stream (O.told out.old) (O.told out.new) (O.faults out.old) (O.faults out.new))
        (stream (E.told err.old) (E.told err.new) (E.faults err.old) (E.faults err.new))
        result }
    ensures exactly { Exactly (form (texts words.now.items))
        (files (S.tells store.old) (S.faults store.old) (S.faults store.new))
        (stream (O.told out.old) (O.told out.new) (O.faults out.old) (O.faults out.new))
        (stream (E.told err.old) (E.told err.new) (E.faults err.old) (E.faults err.new))
        result }
{
    match read_words(words) {
        Some(command) => run_command(alloc, command, store, out, err),
        None => say(err, USAGE, Status::Usage),
    }
}

// What a command writes.
fn output<S: Store>(alloc: Global, command: Command<'_>, store: &mut S) -> Result<Vec<u8>, Stop>
    requires few { FewFiles command }
    requires askable { MayAsk (S.may_ask store.old) (Some (command_of command)) }
    ensures output { IfOk result (λ text. IsOutput (S.tells store.old) (command_of command.entry) text.items) }
    ensures stops { IfErr result (StopsBy (IsRefused (S.tells store.old) (command_of command.entry)) (Rose (S.faults store.old) (S.faults store.new))) }
    ensures count { S.faults store.old ≤ S.faults store.new }
{
    match command {
        Command::Build(words) => build(alloc, store, words),
        Command::Read(file) => read_listing(alloc, store, file),
        Command::Eval(words) => eval_report(alloc, store, words),
    }
}

#[tactic(auto, unfolding(crate::specs::Lines::read_fault_line))]
fn run_command<S: Store, O: Sink, E: Sink>(
    alloc: Global,
    command: Command<'_>,
    store: &mut S,
    out: &mut O,
    err: &mut E,
) -> Status
    requires few { FewFiles command }
    requires askable { MayAsk (S.may_ask store.old) (Some (command_of command)) }
    ensures { Ends (Some (command_of command.entry))
        (files (S.tells store.old) (S.faults store.old) (S.faults store.new))
        (stream (O.told out.old) (O.told out.new) (O.faults out.old) (O.faults out.new))
        (stream (E.told err.old) (E.told err.new) (E.faults err.old) (E.faults err.new))
        result }
{
    match output(alloc, command, store) {
        Ok(text) => finish(out, &text),
        Err(Stop::Refused(refusal)) => refuse(alloc, err, refusal),
        Err(Stop::ReadFault) => say(err, READ_FAULT, Status::ReadFault),
        Err(Stop::NoMemory) => Status::NoMemory,
    }
}

// Writes a line to `err`, and answers with the status, or with WriteFault.
fn say<E: Sink>(err: &mut E, line: &[u8], status: Status) -> Status
    ensures { SaysOr status (stream (E.told err.old) (E.told err.new) (E.faults err.old) (E.faults err.new)) line.now result }
{
    match err.put(line) {
        Ok(()) => status,
        Err(_) => Status::WriteFault,
    }
}

fn finish<O: Sink>(out: &mut O, text: &[u8]) -> Status
    ensures { SaysOr Status.Done (stream (O.told out.old) (O.told out.new) (O.faults out.old) (O.faults out.new)) text.now result }
{
    match write_lines(out, text) {
        Ok(()) => Status::Done,
        Err(_) => Status::WriteFault,
    }
}

fn refuse<E: Sink>(alloc: Global, err: &mut E, refusal: Refusal) -> Status
    ensures { SaysOr (Status.Refused refusal) (stream (E.told err.old) (E.told err.new) (E.faults err.old) (E.faults err.new)) (refusal_line refusal) result ⊎ ((result ≡ Status.NoMemory) × IsSilent (stream (E.told err.old) (E.told err.new) (E.faults err.old) (E.faults err.new))) }
{
    match refusal_line(alloc, &refusal) {
        Ok(line) => say(err, &line, Status::Refused(refusal)),
        Err(_) => Status::NoMemory,
    }
}
