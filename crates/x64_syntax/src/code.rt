// Structured code.

ghost use Rattle.std.specs.Prelude.{◌≡◌, ◌<◌, ◌≤◌, ◌+◌, ◌^◌, ◌&&◌, option_and_then, IfSome};
ghost use Rattle.x64_syntax.specs.Code.{Prog, Done, has_block, is_step, is_test, are_forms, nodes, slots_after, slots, common_slots, none_left, code_ok};
ghost use Rattle.x64_syntax.specs.inner.Nodes.{node_tree, sequence, prog, room_left};

use crate::conditions::Cmp;
use crate::forms::{accesses, ins_ok};
use crate::instructions::{AluOp, Ins};
use crate::operands::{Mem, Opr};
use crate::places::Reg;
use crate::program::is_u32;
use sqlite_items::Items;

/// A list of nodes.
pub type Code = Items<Node>;

/// One node of structured code.
#[derive(Debug, Drop)]
pub enum Node {
    /// An instruction, with the number of the block that it loads from or stores to.
    Ins {
        ins: Ins,
        block: Option<u32>,
    },
    /// The one code where the test holds, and the other where it doesn't.
    If {
        cmp: Cmp,
        left: Reg,
        right: Opr,
        yes: Items<Node>,
        no: Items<Node>,
    },
    /// The code again and again while the test holds.
    Loop {
        cmp: Cmp,
        left: Reg,
        right: Opr,
        body: Items<Node>,
    },
}

// Whether there is a block exactly where there is an access.
fn has_block(block: Option<u32>, access: Option<Mem>) -> bool
    ensures { result ≡ has_block block access }
{
    match block {
        Some(number) => access.is_some() && is_u32(number),
        None => access.is_none(),
    }
}

fn is_step(ins: &Ins, block: Option<u32>) -> bool
    ensures { result ≡ is_step ins.now block }
{
    ins_ok(ins).is_ok() && has_block(block, accesses(ins))
}

fn is_test(left: Reg, right: Opr) -> bool
    ensures { result ≡ is_test left right }
{
    let compare = Ins::Alu {
        op: AluOp::Cmp,
        d: left,
        s: right,
    };
    ins_ok(&compare).is_ok() && accesses(&compare).is_none()
}

#[cycle(forms)]
fn is_form(node: &Node) -> bool
    ensures { (rest : Prog) → are_forms (node_tree node.now rest) ≡ (result && are_forms rest) }
{
    match node {
        Node::Ins { ins, block } => is_step(ins, *block),
        Node::If {
            left,
            right,
            yes,
            no,
            ..
        } => is_test(*left, *right) && are_forms(yes.as_slice()) && are_forms(no.as_slice()),
        Node::Loop {
            left,
            right,
            body,
            ..
        } => is_test(*left, *right) && are_forms(body.as_slice()),
    }
}

#[cycle(forms)]
fn are_forms(code: &[Node]) -> bool
    ensures { result ≡ are_forms (prog code.now) }
{
    for node in code {
        if !is_form(node) {
            return false;
        }
    }
    true
}

// How much room so many nodes leave, nested ones included.
#[cycle(room)]
fn room_behind(node: &Node, room: u32) -> Option<u32>
    ensures { (rest : Prog) → room_left (node_tree node.now rest) room ≡ option_and_then (room_left rest) result }
{
    let room = room.checked_sub(1)?;
    match node {
        Node::Ins { .. } => Some(room),
        Node::If { yes, no, .. } => room_left(no.as_slice(), room_left(yes.as_slice(), room)?),
        Node::Loop { body, .. } => room_left(body.as_slice(), room),
    }
}

#[cycle(room)]
fn room_left(code: &[Node], room: u32) -> Option<u32>
    ensures { result ≡ room_left (prog code.now) room }
{
    let mut room = room;
    for node in code {
        room = room_behind(node, room)?;
    }
    Some(room)
}

fn slots_after(ins: &Ins, pushed: u32) -> Option<u32>
    requires { pushed + 1 < 2 ^ 32 }
    ensures value { result ≡ slots_after ins.now pushed }
    ensures bound { IfSome result (λ k. k ≤ pushed + 1) }
{
    match ins {
        Ins::Push { .. } => Some(pushed + 1),
        Ins::Pop { .. } => pushed.checked_sub(1),
        _ => Some(pushed),
    }
}

// How many slots are pushed behind a node.
#[cycle(slots)]
fn slots_behind(node: &Node, pushed: u32) -> Option<u32>
    requires { pushed + nodes (node_tree node.now Done) < 2 ^ 32 }
    ensures value { (rest : Prog) → slots (node_tree node.now rest) pushed ≡ option_and_then (slots rest) result }
    ensures bound { IfSome result (λ k. k ≤ pushed + nodes (node_tree node.now Done)) }
{
    match node {
        Node::Ins { ins, .. } => slots_after(ins, pushed),
        Node::If { yes, no, .. } => {
            let left = slots_of(yes.as_slice())?;
            if slots_of(no.as_slice())? == left {
                Some(pushed + left)
            } else {
                None
            }
        }
        Node::Loop { body, .. } => match slots_of(body.as_slice()) {
            Some(0) => Some(pushed),
            _ => None,
        },
    }
}

#[cycle(slots)]
fn slots_of(code: &[Node]) -> Option<u32>
    requires { nodes (prog code.now) < 2 ^ 32 }
    ensures value { result ≡ slots (prog code.now) 0 }
    ensures bound { IfSome result (λ k. k ≤ nodes (prog code.now)) }
{
    let mut pushed = 0;
    for node in code {
        pushed = slots_behind(node, pushed)?;
    }
    Some(pushed)
}

/// Whether code is the machine's: its instructions pass `ins_ok` and have a block exactly where they load from or store
/// to a memory operand; its tests compare what `Cmp64` compares, and nothing in memory; there are fewer than 2^32 nodes;
/// and slots are popped where they were pushed: both arms leave as many, a turn leaves none, neither pops what was pushed
/// before it, and none is left at the end. See docs/MACHINE.md.
pub fn code_ok(code: &Code) -> bool
    ensures { result ≡ code_ok (prog code.now) }
{
    let code = code.as_slice();
    if !are_forms(code) || room_left(code, u32::MAX).is_none() {
        return false;
    }
    matches!(slots_of(code), Some(0))
}
