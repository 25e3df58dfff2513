// A plain run of structured code, and one of flat items, to hold them side by side.

use anyhow::Result;
use std::alloc::Global;
use x64_blocks::Blocks;
use x64_meaning::{Machine, Obs, Seen, holds, open_flag, step_ins};
use x64_syntax::{AluOp, Cmp, Code, Ins, Item, Node, Opr, Reg, ins_ok};

const BLOCK: u64 = 8192;

const STACK: u64 = 4096;

const TURNS: u32 = 1000;

const STEPS: u32 = 100000;

// Two words in block 0, and a stack of four words in block 1.
fn machine(alloc: Global, rcx: u64, rdx: u64) -> Result<Machine> {
    let mut blocks = Blocks::new(alloc);
    let _ = blocks.add(BLOCK, Vec::from_slice(alloc, &[7; 16])?);
    let _ = blocks.add(STACK, Vec::from_slice(alloc, &[0; 32])?);
    let mut m = Machine::new(blocks);
    m.regs[Reg::Rcx.number()] = rcx;
    m.regs[Reg::Rdx.number()] = rdx;
    m.regs[Reg::Rsi.number()] = BLOCK;
    m.regs[Reg::Rsp.number()] = STACK + 32;
    Ok(m)
}

// What was seen of a run, and how many steps it made.
#[derive(Drop)]
struct Log {
    seen: Vec<Obs>,
    steps: u64,
}

impl Log {
    fn new(alloc: Global) -> Log {
        Log {
            seen: Vec::new(alloc),
            steps: 0,
        }
    }

    fn pass(&mut self) {
        self.steps = self.steps.wrapping_add(1);
    }

    fn branch(&mut self, taken: bool) -> Result<()> {
        self.pass();
        self.seen.push(Obs::Branch { taken })?;
        Ok(())
    }

    // Does an instruction, and tells its access; none where it can't be done.
    fn step(&mut self, m: &mut Machine, ins: &Ins) -> Result<Option<Option<Obs>>> {
        if ins_ok(ins).is_err() {
            return Ok(None);
        }
        let mut seen = Seen { last: None };
        if step_ins(m, ins, &mut seen).is_err() {
            return Ok(None);
        }
        self.pass();
        if let Some(obs) = seen.last {
            self.seen.push(obs)?;
        }
        Ok(Some(seen.last))
    }
}

fn place_of(items: &[Item], label: u32) -> Option<usize> {
    items.iter().position(|item| matches!(item, Item::Label(other) if *other == label))
}

// One item: where the run goes on, or none where it ends or can't.
fn pass_item(
    m: &mut Machine,
    items: &[Item],
    place: usize,
    log: &mut Log,
) -> Result<Option<usize>> {
    let next = Some(place.wrapping_add(1));
    match items.get(place) {
        None => Ok(None),
        Some(Item::Ins(ins)) => Ok(if log.step(m, ins)?.is_some() {
            next
        } else {
            None
        }),
        Some(Item::Label(_) | Item::Entry(_)) => {
            log.pass();
            Ok(next)
        }
        Some(Item::Jmp(label)) => {
            log.pass();
            Ok(place_of(items, *label))
        }
        Some(Item::Jcc(c, label)) => {
            if open_flag(m, *c).is_some() {
                return Ok(None);
            }
            let taken = holds(m, *c);
            log.branch(taken)?;
            Ok(if taken { place_of(items, *label) } else { next })
        }
        Some(Item::Ret) => {
            log.pass();
            Ok(None)
        }
    }
}

// Runs items from a position on, and tells whether they end.
fn run_items(m: &mut Machine, items: &[Item], entry: usize, log: &mut Log) -> Result<bool> {
    let mut place = entry;
    for _ in 0..STEPS {
        match pass_item(m, items, place, log)? {
            Some(next) => place = next,
            None => return Ok(matches!(items.get(place), Some(Item::Ret))),
        }
    }
    Ok(false)
}

fn word_of(m: &Machine, s: Opr) -> u64 {
    match s {
        Opr::R(reg) => m.regs[reg.number()],
        Opr::Imm(n) => n.cast_unsigned(),
        Opr::M(_) => 0,
    }
}

// Makes a comparison, and tells whether the test holds.
fn test(m: &mut Machine, cmp: Cmp, left: Reg, right: Opr, log: &mut Log) -> Result<Option<bool>> {
    let a = m.regs[left.number()];
    let b = word_of(m, right);
    let compare = Ins::Alu {
        op: AluOp::Cmp,
        d: left,
        s: right,
    };
    if log.step(m, &compare)?.is_none() {
        return Ok(None);
    }
    Ok(Some(match cmp {
        Cmp::Eq => a == b,
        Cmp::Ne => a != b,
        Cmp::Lt => a < b,
        Cmp::Le => a <= b,
        Cmp::Gt => a > b,
        Cmp::Ge => a >= b,
    }))
}

// Whether an access lies in the block that is named, the stack's where none is.
fn stays(seen: Option<Obs>, block: Option<u32>) -> bool {
    match (seen, block) {
        (Some(Obs::Access { address, .. }), Some(0)) => (BLOCK..BLOCK + 9).contains(&address),
        (Some(Obs::Access { address, .. }), _) => (STACK..STACK + 25).contains(&address),
        _ => true,
    }
}

// Runs structured code, and tells whether it ends without a fault.
#[cycle(run)]
fn run_code(m: &mut Machine, code: &[Node], log: &mut Log) -> Result<bool> {
    for node in code {
        if !run_node(m, node, log)? {
            return Ok(false);
        }
    }
    Ok(true)
}

#[cycle(run)]
fn run_node(m: &mut Machine, node: &Node, log: &mut Log) -> Result<bool> {
    match node {
        Node::Ins { ins, block } => match log.step(m, ins)? {
            Some(seen) => Ok(stays(seen, *block)),
            None => Ok(false),
        },
        Node::If {
            cmp,
            left,
            right,
            yes,
            no,
        } => {
            let Some(holds) = test(m, *cmp, *left, *right, log)? else {
                return Ok(false);
            };
            log.branch(!holds)?;
            let arm = if holds { yes.as_slice() } else { no.as_slice() };
            log.pass();
            let ends = run_code(m, arm, log)?;
            log.pass();
            Ok(ends)
        }
        Node::Loop {
            cmp,
            left,
            right,
            body,
        } => {
            log.pass();
            for _ in 0..TURNS {
                log.pass();
                let Some(holds) = test(m, *cmp, *left, *right, log)? else {
                    return Ok(false);
                };
                log.branch(holds)?;
                if !holds {
                    return Ok(true);
                }
                log.pass();
                if !run_code(m, body.as_slice(), log)? {
                    return Ok(false);
                }
            }
            Ok(false)
        }
    }
}

/// Whether code ends without leaving its blocks, from these counters.
pub(crate) fn ends(alloc: Global, code: &Code, counters: (u64, u64)) -> Result<bool> {
    let mut m = machine(alloc, counters.0, counters.1)?;
    run_code(&mut m, code.as_slice(), &mut Log::new(alloc))
}

// What a run leaves, and whether it ended.
#[derive(Drop)]
struct End {
    m: Machine,
    log: Log,
    is_end: bool,
}

fn end_of_items(alloc: Global, items: &[Item], entry: usize, counters: (u64, u64)) -> Result<End> {
    let mut m = machine(alloc, counters.0, counters.1)?;
    let mut log = Log::new(alloc);
    let is_end = run_items(&mut m, items, entry, &mut log)?;
    Ok(End { m, log, is_end })
}

fn end_of_code(alloc: Global, code: &Code, counters: (u64, u64)) -> Result<End> {
    let mut m = machine(alloc, counters.0, counters.1)?;
    let mut log = Log::new(alloc);
    let is_end = run_code(&mut m, code.as_slice(), &mut log)?;
    Ok(End { m, log, is_end })
}

// Whether both ended, left the same and showed the same, the first by two steps more.
fn is_alike(flat: &End, end: &End) -> bool {
    flat.is_end
        && end.is_end
        && flat.m.regs == end.m.regs
        && flat.m.flags == end.m.flags
        && flat.m.blocks.load8(BLOCK) == end.m.blocks.load8(BLOCK)
        && flat.log.seen.as_slice() == end.log.seen.as_slice()
        && flat.log.steps == end.log.steps.wrapping_add(2)
}

/// Whether the items and the code both end, from these counters, and leave the same, show the same, and the items take
/// two steps more.
pub(crate) fn are_alike(
    alloc: Global,
    code: &Code,
    items: &[Item],
    entry: usize,
    counters: (u64, u64),
) -> Result<bool> {
    let flat = end_of_items(alloc, items, entry, counters)?;
    let end = end_of_code(alloc, code, counters)?;
    Ok(is_alike(&flat, &end))
}
