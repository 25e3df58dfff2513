// Structured code and flat items by letters, for cases that no text of the program can say.

use anyhow::Result;
use sqlite_items::Items;
use std::alloc::Global;
use x64_syntax::{AluOp, Cmp, Code, Cond, Ins, Item, Mem, Node, Opr, Reg, Text};

const AT: Mem = Mem {
    base: Reg::Rsi,
    index: None,
    disp: 0,
};

fn alu(op: AluOp, d: Reg, n: i64) -> Ins {
    Ins::Alu {
        op,
        d,
        s: Opr::Imm(n),
    }
}

const LOAD: Ins = Ins::Mov {
    d: Reg::R8,
    s: Opr::M(AT),
};

const STORE: Ins = Ins::Store { m: AT, s: Reg::Rax };

const STORE_BEHIND: Ins = Ins::Store {
    m: Mem {
        base: Reg::Rsi,
        index: None,
        disp: 8,
    },
    s: Reg::Rcx,
};

// The instruction of a letter, and the block that it names.
fn step_of(letter: u8) -> (Ins, Option<u32>) {
    match letter {
        b'c' => (alu(AluOp::Add, Reg::Rcx, 1), None),
        b'-' => (alu(AluOp::Sub, Reg::Rdx, 1), None),
        b'3' => (
            Ins::Mov {
                d: Reg::Rdx,
                s: Opr::Imm(3),
            },
            None,
        ),
        b'l' => (LOAD, Some(0)),
        b's' => (STORE, Some(0)),
        b'x' => (STORE, Some(1)),
        b'm' => (LOAD, None),
        b'b' => (alu(AluOp::Add, Reg::Rax, 1), Some(7)),
        b'e' => (Ins::Lea { d: Reg::Rax, m: AT }, None),
        b'p' => (alu(AluOp::Add, Reg::Rsp, 1), None),
        b'k' => (alu(AluOp::Sub, Reg::Rcx, 1), None),
        b'w' => (STORE_BEHIND, Some(0)),
        b'u' => (Ins::Push { s: Reg::Rax }, None),
        b'o' => (Ins::Pop { d: Reg::R9 }, None),
        _ => (alu(AluOp::Add, Reg::Rax, 1), None),
    }
}

// What is open: an `if` of rcx and rdx, or a loop.
#[derive(Drop)]
struct Frame {
    letter: u8,
    first: Code,
    code: Code,
}

fn cmp_of(letter: u8) -> Cmp {
    match letter {
        b'E' => Cmp::Eq,
        b'L' => Cmp::Lt,
        b'M' => Cmp::Le,
        b'G' => Cmp::Gt,
        b'H' => Cmp::Ge,
        _ => Cmp::Ne,
    }
}

fn turn(cmp: Cmp, left: Reg, right: Opr, body: Code) -> Node {
    Node::Loop {
        cmp,
        left,
        right,
        body,
    }
}

fn closed(letter: u8, first: Code, code: Code) -> Node {
    match letter {
        b'W' => turn(Cmp::Ne, Reg::Rdx, Opr::Imm(0), code),
        b'V' => turn(Cmp::Lt, Reg::Rcx, Opr::R(Reg::Rdx), code),
        b'X' => turn(Cmp::Ne, Reg::Rax, Opr::Imm(2147483648), code),
        b'Y' => turn(Cmp::Ne, Reg::Rax, Opr::R(Reg::Rsp), code),
        b'Z' => turn(Cmp::Ne, Reg::Rsp, Opr::Imm(1), code),
        b'Q' => turn(Cmp::Ne, Reg::Rax, Opr::M(AT), code),
        b'R' => turn(Cmp::Ne, Reg::Rax, Opr::Imm(2147483647), code),
        _ => Node::If {
            cmp: cmp_of(letter),
            left: Reg::Rcx,
            right: Opr::R(Reg::Rdx),
            yes: first,
            no: code,
        },
    }
}

/// Code by letters: `E`, `N`, `L`, `M`, `G`, `H` open an `if` of rcx and rdx, `|` begins its second arm; `W` and `V` open
/// a loop while rdx isn't 0, and while rcx is below rdx, and `R`, `X`, `Y`, `Z`, `Q` loops whose tests compare rax with a
/// constant that fits and one that doesn't, with rsp, rsp itself, and memory; `.` closes. The other letters are
/// instructions: `c` and `-` count rcx and rdx, `3` sets rdx, `l` loads and `s` stores in block 0, `x` stores at the same
/// address and names block 1, `m` loads and names none, `b` adds and names one, `e` takes an address, `p` adds to rsp,
/// `k` counts rcx down, `w` stores rcx a word further, `u` pushes, `o` pops, and `a` adds to rax.
pub(crate) fn code_of(alloc: Global, letters: &[u8]) -> Result<Code> {
    let mut open = Vec::new(alloc);
    let mut code = Items::new(alloc);
    for letter in letters {
        match letter {
            b'|' => {
                if let Some(
                    Frame {
                        letter,
                        code: outer,
                        ..
                    },
                ) = open.pop()
                {
                    open.push(Frame {
                        letter,
                        first: code,
                        code: outer,
                    })?;
                    code = Items::new(alloc);
                }
            }
            b'.' => {
                if let Some(
                    Frame {
                        letter,
                        first,
                        code: mut outer,
                    },
                ) = open.pop()
                {
                    outer.push(closed(letter, first, code))?;
                    code = outer;
                }
            }
            b'A'..=b'Z' => {
                open.push(Frame {
                    letter: *letter,
                    first: Items::new(alloc),
                    code,
                })?;
                code = Items::new(alloc);
            }
            _ => {
                let (ins, block) = step_of(*letter);
                code.push(Node::Ins { ins, block })?;
            }
        }
    }
    Ok(code)
}

fn label_of(digit: u8) -> u32 {
    u32::from(digit.wrapping_sub(b'0'))
}

// The item of a word; none where the word is empty.
fn item_of(alloc: Global, word: &[u8]) -> Result<Option<Item>> {
    Ok(match word {
        [] => None,
        [b':', name @ ..] => Some(Item::Entry(Text::from_slice(alloc, name)?)),
        [b'l', digit] => Some(Item::Label(label_of(*digit))),
        [b'j', digit] => Some(Item::Jmp(label_of(*digit))),
        [b'c', digit] => Some(Item::Jcc(Cond::Ne, label_of(*digit))),
        [b'j'] => Some(Item::Jmp(u32::MAX)),
        [b'r'] => Some(Item::Ret),
        [letter, ..] => Some(Item::Ins(step_of(*letter).0)),
    })
}

/// Items by words: `:x` an entry, `l1` a label, `j1` and `c1` jumps, `j` one to the last label of all, `r` a return, and
/// letters of instructions.
pub(crate) fn items_of(alloc: Global, words: &[u8]) -> Result<Vec<Item>> {
    let mut items = Vec::new(alloc);
    for word in words.split(|byte| *byte == b' ') {
        if let Some(item) = item_of(alloc, word)? {
            items.push(item)?;
        }
    }
    Ok(items)
}

/// Items by letters: `:` an entry, `q` a comparison, `.` another instruction, `l5` a label, `j5` a jump, `e5` and its kin
/// conditional jumps, in capitals where the condition has two letters, and `r`.
pub(crate) fn outline(out: &mut String, items: &[Item]) -> Result<()> {
    for item in items {
        let (letter, label) = match item {
            Item::Entry(_) => (":", None),
            Item::Ins(Ins::Alu { op: AluOp::Cmp, .. }) => ("q", None),
            Item::Ins(_) => (".", None),
            Item::Label(label) => ("l", Some(*label)),
            Item::Jmp(label) => ("j", Some(*label)),
            Item::Jcc(Cond::E, label) => ("e", Some(*label)),
            Item::Jcc(Cond::Ne, label) => ("E", Some(*label)),
            Item::Jcc(Cond::B, label) => ("b", Some(*label)),
            Item::Jcc(Cond::Be, label) => ("B", Some(*label)),
            Item::Jcc(Cond::A, label) => ("a", Some(*label)),
            Item::Jcc(Cond::Ae, label) => ("A", Some(*label)),
            Item::Ret => ("r", None),
        };
        out.push_str(letter)?;
        if let Some(label) = label {
            write!(out, "{label}")?;
        }
    }
    Ok(())
}
