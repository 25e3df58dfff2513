// From structured code to flat items.

ghost use Rattle.std.specs.Prelude.{◌≡◌, ◌<◌, ◌≤◌, ◌+◌, ◌^◌, ◌++◌, [], ◌∷◌, length, slice_set, nat_le, option_and_then, IfOk, OnOk};
ghost use Rattle.x64_syntax.specs.declared.items.Item.TheVariants as item;
ghost use Rattle.x64_syntax.specs.Code.{Prog, Done};
ghost use Rattle.x64_syntax.specs.inner.Nodes.{node_tree, prog};
ghost use Rattle.code_lower.specs.Lowered.{when, unless, compare, labels, label_room, code_items, export_items};

use std::alloc::{AllocError as NoMemory, Global};
use x64_syntax::{AluOp, Cmp, Code, Cond, Ins, Item, Node, Opr, Reg, Text};

// What a jump asks that is taken where a test holds.
fn when(cmp: Cmp) -> Cond
    ensures { result ≡ when cmp }
{
    match cmp {
        Cmp::Eq => Cond::E,
        Cmp::Ne => Cond::Ne,
        Cmp::Lt => Cond::B,
        Cmp::Le => Cond::Be,
        Cmp::Gt => Cond::A,
        Cmp::Ge => Cond::Ae,
    }
}

// What a jump asks that is taken where a test doesn't hold.
fn unless(cmp: Cmp) -> Cond
    ensures { result ≡ unless cmp }
{
    match cmp {
        Cmp::Eq => Cond::Ne,
        Cmp::Ne => Cond::E,
        Cmp::Lt => Cond::Ae,
        Cmp::Le => Cond::A,
        Cmp::Gt => Cond::Be,
        Cmp::Ge => Cond::B,
    }
}

fn compare(left: Reg, right: Opr) -> Ins
    ensures { result ≡ compare left right }
{
    Ins::Alu {
        op: AluOp::Cmp,
        d: left,
        s: right,
    }
}

// The counter of labels is wider than they are, so that it can stand behind the last one.
fn label(number: u64) -> u32
    requires { number < 2 ^ 32 }
    ensures { result ≡ number }
{
    number as u32
}

// Puts a jump, whose label is now known, in the place that was kept for it.
fn put(items: &mut Vec<Item>, place: usize, jump: Item)
    requires { place < length items.old.items }
    ensures { items.new.items ≡ slice_set items.old.items place jump }
{
    items[place] = jump;
}

// Begins an `if`: a comparison and the jump over the first arm, whose place is told.
fn open_if(items: &mut Vec<Item>, cmp: Cmp, left: Reg, right: Opr) -> Result<usize, NoMemory>
    ensures place { IfOk result (λ place. place ≡ length items.old.items + 1) }
    ensures value { OnOk result (items.new.items ≡ items.old.items ++ item.Ins (compare left right) ∷ item.Jcc (unless cmp) 0 ∷ []) }
{
    items.push(Item::Ins(compare(left, right)))?;
    let place = items.len();
    items.push(Item::Jcc(unless(cmp), 0))?;
    Ok(place)
}

// Goes from the first arm to the second: the jump over that one, whose place is told, and the label of the second.
fn turn_over(items: &mut Vec<Item>, cmp: Cmp, place: usize, one: u32) -> Result<usize, NoMemory>
    requires { place < length items.old.items }
    ensures place { IfOk result (λ next. next ≡ length items.old.items) }
    ensures value { OnOk result (items.new.items ≡ slice_set items.old.items place (item.Jcc (unless cmp) one) ++ item.Jmp 0 ∷ item.Label one ∷ []) }
{
    put(items, place, Item::Jcc(unless(cmp), one));
    let next = items.len();
    items.push(Item::Jmp(0))?;
    items.push(Item::Label(one))?;
    Ok(next)
}

// Ends an `if` with its last label.
fn close_if(items: &mut Vec<Item>, place: usize, two: u32) -> Result<(), NoMemory>
    requires { place < length items.old.items }
    ensures { OnOk result (items.new.items ≡ slice_set items.old.items place (item.Jmp two) ++ item.Label two ∷ []) }
{
    put(items, place, Item::Jmp(two));
    items.push(Item::Label(two))?;
    Ok(())
}

// Begins a loop: the jump to its test, whose place is told, and the label of its body.
fn open_loop(items: &mut Vec<Item>, body: u32) -> Result<usize, NoMemory>
    ensures place { IfOk result (λ place. place ≡ length items.old.items) }
    ensures value { OnOk result (items.new.items ≡ items.old.items ++ item.Jmp 0 ∷ item.Label body ∷ []) }
{
    let place = items.len();
    items.push(Item::Jmp(0))?;
    items.push(Item::Label(body))?;
    Ok(place)
}

// Ends a loop with its test: a comparison and the jump back to its body.
fn close_loop(
    items: &mut Vec<Item>,
    place: usize,
    test: u32,
    comparison: Ins,
    back: Item,
) -> Result<(), NoMemory>
    requires { place < length items.old.items }
    ensures { OnOk result (items.new.items ≡ slice_set items.old.items place (item.Jmp test) ++ item.Label test ∷ item.Ins comparison ∷ back ∷ []) }
{
    put(items, place, Item::Jmp(test));
    items.push(Item::Label(test))?;
    items.push(Item::Ins(comparison))?;
    items.push(back)?;
    Ok(())
}

// Pushes the items of a node, its first label having this number, and gives the number of the next label.
#[cycle(lower)]
fn push_node(items: &mut Vec<Item>, next: u64, node: &Node) -> Result<u64, NoMemory>
    requires { next + labels (node_tree node.now Done) ≤ 2 ^ 32 }
    ensures count { IfOk result (λ after. after ≡ next + labels (node_tree node.now Done)) }
    ensures value { OnOk result (items.new.items ≡ items.old.items ++ code_items next (node_tree node.now Done)) }
{
    match node {
        Node::Ins { ins, .. } => {
            items.push(Item::Ins(*ins))?;
            Ok(next)
        }
        Node::If {
            cmp,
            left,
            right,
            yes,
            no,
        } => {
            let place = open_if(items, *cmp, *left, *right)?;
            let one = push_code(items, next, yes.as_slice())?;
            let place = turn_over(items, *cmp, place, label(one))?;
            let two = push_code(items, one + 1, no.as_slice())?;
            close_if(items, place, label(two))?;
            Ok(two + 1)
        }
        Node::Loop {
            cmp,
            left,
            right,
            body,
        } => {
            let place = open_loop(items, label(next))?;
            let test = push_code(items, next + 1, body.as_slice())?;
            let back = Item::Jcc(when(*cmp), label(next));
            close_loop(items, place, label(test), compare(*left, *right), back)?;
            Ok(test + 1)
        }
    }
}

#[cycle(lower)]
fn push_code(items: &mut Vec<Item>, next: u64, code: &[Node]) -> Result<u64, NoMemory>
    requires { next + labels (prog code.now) ≤ 2 ^ 32 }
    ensures count { IfOk result (λ after. after ≡ next + labels (prog code.now)) }
    ensures value { OnOk result (items.new.items ≡ items.old.items ++ code_items next (prog code.now)) }
{
    let mut number = next;
    for node in code {
        number = push_node(items, number, node)?;
    }
    Ok(number)
}

// How much room the labels of a node leave, nested ones included.
#[cycle(room)]
fn room_behind(node: &Node, room: u64) -> Option<u64>
    ensures { (rest : Prog) → label_room (node_tree node.now rest) room ≡ option_and_then (label_room rest) result }
{
    match node {
        Node::Ins { .. } => Some(room),
        Node::If { yes, no, .. } => {
            let room = room_left(yes.as_slice(), room.checked_sub(2)?)?;
            room_left(no.as_slice(), room)
        }
        Node::Loop { body, .. } => room_left(body.as_slice(), room.checked_sub(2)?),
    }
}

#[cycle(room)]
fn room_left(code: &[Node], room: u64) -> Option<u64>
    ensures { result ≡ label_room (prog code.now) room }
{
    let mut room = room;
    for node in code {
        room = room_behind(node, room)?;
    }
    Some(room)
}

/// Whether the labels of code, of which the first has this number, have 32 bits.
pub fn labels_fit(first: u32, code: &Code) -> bool
    ensures { result ≡ nat_le (first + labels (prog code.now)) (2 ^ 32) }
{
    let room = (1u64 << 32) - u64::from(first);
    room_left(code.as_slice(), room).is_some()
}

/// The items of an export: its entry, its code and `ret`, the first label having this number. See docs/MACHINE.md.
pub fn lower(alloc: Global, first: u32, name: &Text, code: &Code) -> Result<Vec<Item>, NoMemory>
    requires { first + labels (prog code.now) ≤ 2 ^ 32 }
    ensures { IfOk result (λ items. items.items ≡ export_items first name.now (prog code.now)) }
{
    let mut items = Vec::new(alloc);
    items.push(Item::Entry(Text::from_slice(alloc, name.as_bytes())?))?;
    push_code(&mut items, u64::from(first), code.as_slice())?;
    items.push(Item::Ret)?;
    Ok(items)
}
