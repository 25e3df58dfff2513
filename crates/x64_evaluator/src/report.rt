// What is told of a run.

ghost use Rattle.std.specs.Prelude.{◌≡◌, ◌++◌, map, codes, decimal, OnOk, IfOk};
ghost use Rattle.x64_evaluator.specs.StateFile.{block_text};
ghost use Rattle.x64_evaluator.specs.Evaluated.{way, halt_at};
ghost use Rattle.x64_evaluator.specs.Report.{end_text, mark, reg_line, xmm_line, flag_line, direction, seen_text, text_of, state_text, report_text};

use crate::end::{End, RunEnd};
use crate::settings::{push_range, push_value};
use crate::trace::Trace;
use std::alloc::{AllocError as NoMemory, Global};
use x64_blocks::Blocks;
use x64_meaning::{Fault, Flag, Machine, Obs};
use x64_syntax::{FlagName, MachinePlace, Reg, Xmm, push, push_number};

fn push_counted(out: &mut Vec<u8>, word: &str, n: u64) -> Result<(), NoMemory>
    ensures { OnOk result (out.new.items ≡ out.old.items ++ (word.now ++ decimal n)) }
{
    push(out, word)?;
    push_number(out, n)
}

fn push_end(out: &mut Vec<u8>, run: RunEnd) -> Result<(), NoMemory>
    ensures { OnOk result (out.new.items ≡ out.old.items ++ end_text run.end run.steps) }
{
    match run.end {
        End::Ended => push_counted(out, "ended ", run.steps),
        End::Faulted(Fault::Outside { address }) => {
            push_counted(out, "outside ", run.steps)?;
            push_counted(out, " ", address)
        }
        End::Faulted(Fault::UndefinedFlag { flag }) => {
            push_counted(out, "undefined ", run.steps)?;
            push(out, " ")?;
            push(out, flag.name())
        }
        End::OffCode => push_counted(out, "offcode ", run.steps),
        End::Paused => push_counted(out, "paused ", run.steps),
        End::TraceFull => push_counted(out, "tracefull ", run.steps),
    }
}

#[tactic(auto, unfolding(crate::specs::Report::text_of))]
fn push_regs(out: &mut Vec<u8>, m: &Machine, regs: &[Reg]) -> Result<(), NoMemory>
    ensures { OnOk result (out.new.items ≡ out.old.items ++ text_of (map (reg_line m.now) regs.now)) }
{
    for reg in regs {
        push_value(
            out,
            MachinePlace::Reg(*reg),
            u128::from(m.regs[reg.number()]),
        )?;
        push(out, "\n")?;
    }
    Ok(())
}

#[tactic(auto, unfolding(crate::specs::Report::text_of))]
fn push_xmms(out: &mut Vec<u8>, m: &Machine, xmms: &[Xmm]) -> Result<(), NoMemory>
    ensures { OnOk result (out.new.items ≡ out.old.items ++ text_of (map (xmm_line m.now) xmms.now)) }
{
    for xmm in xmms {
        push_value(out, MachinePlace::Xmm(*xmm), m.xmms[xmm.number()])?;
        push(out, "\n")?;
    }
    Ok(())
}

fn mark(flag: Flag) -> &'static str
    ensures { result.now ≡ mark flag }
{
    match flag {
        Flag::Zero => "0",
        Flag::One => "1",
        Flag::Undefined => "-",
    }
}

#[tactic(auto, unfolding(crate::specs::Report::text_of))]
fn push_flags(out: &mut Vec<u8>, m: &Machine, flags: &[FlagName]) -> Result<(), NoMemory>
    ensures { OnOk result (out.new.items ≡ out.old.items ++ text_of (map (flag_line m.now) flags.now)) }
{
    for name in flags {
        push(out, name.name())?;
        push(out, " ")?;
        push(out, mark(m.flag(*name)))?;
        push(out, "\n")?;
    }
    Ok(())
}

#[tactic(auto, unfolding(crate::specs::Report::text_of))]
fn push_blocks(alloc: Global, out: &mut Vec<u8>, blocks: &Blocks) -> Result<(), NoMemory>
    ensures { OnOk result (out.new.items ≡ out.old.items ++ text_of (map block_text blocks.now)) }
{
    for k in 0..blocks.count() {
        push(out, "block ")?;
        push_range(alloc, out, blocks.base(k), blocks.bytes(k))?;
        push(out, "\n")?;
    }
    Ok(())
}

fn push_observation(out: &mut Vec<u8>, obs: Obs) -> Result<(), NoMemory>
    ensures { OnOk result (out.new.items ≡ out.old.items ++ seen_text obs) }
{
    match obs {
        Obs::Access {
            address,
            size,
            write,
        } => {
            push(out, if write { "write " } else { "read " })?;
            push_number(out, size)?;
            push_counted(out, " ", address)
        }
        Obs::Branch { taken: true } => push(out, "taken"),
        Obs::Branch { taken: false } => push(out, "not"),
    }
}

#[tactic(auto, unfolding(crate::specs::Report::text_of))]
fn push_trace(out: &mut Vec<u8>, trace: &[Obs]) -> Result<(), NoMemory>
    ensures { OnOk result (out.new.items ≡ out.old.items ++ text_of (map seen_text trace.now)) }
{
    for obs in trace {
        push_observation(out, *obs)?;
        push(out, "\n")?;
    }
    Ok(())
}

// Appends the lines of the machine's state.
fn push_state(alloc: Global, out: &mut Vec<u8>, m: &Machine) -> Result<(), NoMemory>
    ensures { OnOk result (out.new.items ≡ out.old.items ++ state_text m.now) }
{
    push_regs(out, m, &Reg::ALL)?;
    push_xmms(out, m, &Xmm::ALL)?;
    push_flags(out, m, &FlagName::ALL)?;
    push_blocks(alloc, out, &m.blocks)
}

/// The report of a run: its end and steps, each register, xmm register and flag, the blocks, and what was seen, a line
/// each. See docs/COMMANDS.md.
pub fn report_of(
    alloc: Global,
    run: RunEnd,
    m: &Machine,
    trace: &Trace,
) -> Result<Vec<u8>, NoMemory>
    ensures { IfOk result (λ text. text.items ≡ report_text (halt_at run.end (way m.now trace.now.seen run.steps))) }
{
    let mut out = Vec::new(alloc);
    push_end(&mut out, run)?;
    push(&mut out, "\n")?;
    push_state(alloc, &mut out, m)?;
    push_trace(&mut out, trace.list())?;
    Ok(out)
}
