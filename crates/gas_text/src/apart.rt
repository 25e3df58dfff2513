// Lines taken apart: the item that a line can be. Whether it is that item's line is told by printing it.

ghost use Rattle.std.specs.Prelude.{◌≡◌, pos, option_map};
ghost use Rattle.x64_syntax.specs.Places.{reg_of, low_of};
ghost use Rattle.asm_lines.specs.inner.Assembled.{at_most};
ghost use Rattle.gas_text.specs.inner.Apart.{sides_of, before_comma, number, register, displacement, index_of, address_of, memory, narrow_part, register_part, part_of, more_parts, parts_behind, parts_of, operation_by_operands, mnemonic_operation, ins_of, label_of, item_by_mnemonic, item_of, found_item};

use asm_lines::{Part, Parts, cond_named, instruction};
use memchr::memchr;
use x64_syntax::{
    Ins, Item, Mem, Operation, Reg, gas_named, low_named, read_number, reg_named, xmm_named,
};

/// What is before the first such byte, and what is behind it.
pub(crate) fn sides_of(text: &[u8], at: u8) -> Option<(&[u8], &[u8])>
    ensures { option_map (λ p. (p.0.now, p.1.now)) result ≡ sides_of at text.now }
{
    let place = memchr(at, text)?;
    let (front, back) = text.split_at(place);
    Some((front, back.split_at(1).1))
}

fn before_comma(text: &[u8]) -> &[u8]
    ensures { result.now ≡ before_comma text.now }
{
    match sides_of(text, b',') {
        Some((front, _)) => front,
        None => text,
    }
}

fn number(text: &[u8]) -> Option<i128>
    ensures { result ≡ number text.now }
{
    match text {
        [] => None,
        [b'-', magnitude @ ..] => Some(-i128::from(read_number(magnitude)?)),
        _ => Some(i128::from(read_number(text)?)),
    }
}

fn register(text: &[u8]) -> Option<Reg>
    ensures { result ≡ register text.now }
{
    match text {
        [b'%', name @ ..] => reg_named(name),
        _ => None,
    }
}

fn byte(n: i128) -> Option<u8>
    ensures { result ≡ at_most 255 n }
{
    u8::try_from(n).ok()
}

fn displacement(n: i128) -> Option<i32>
    ensures { result ≡ displacement n }
{
    i32::try_from(n).ok()
}

fn index_of(text: &[u8]) -> Option<(Reg, u8)>
    ensures { result ≡ index_of text.now }
{
    let (index, scale) = sides_of(text, b',')?;
    let index = register(index)?;
    Some((index, byte(number(scale)?)?))
}

// The memory operand with a displacement and what is between its parentheses.
fn address_of(disp: i32, inside: &[u8]) -> Option<Mem>
    ensures { result ≡ address_of disp inside.now (sides_of 44 inside.now) }
{
    match sides_of(inside, b',') {
        None => Some(Mem {
            base: register(inside)?,
            index: None,
            disp,
        }),
        Some((base, index)) => Some(Mem {
            base: register(base)?,
            index: Some(index_of(index)?),
            disp,
        }),
    }
}

fn memory(text: &[u8]) -> Option<Mem>
    ensures { result ≡ memory text.now }
{
    let (disp, rest) = sides_of(text, b'(')?;
    let (inside, _) = sides_of(rest, b')')?;
    address_of(displacement(number(disp)?)?, inside)
}

fn narrow_part(name: &[u8]) -> Option<Part>
    ensures { result ≡ narrow_part (low_of name.now) name.now }
{
    match low_named(name) {
        Some(reg) => Some(Part::Low(reg)),
        None => Some(Part::Wide(xmm_named(name)?)),
    }
}

fn register_part(name: &[u8]) -> Option<Part>
    ensures { result ≡ register_part (reg_of name.now) name.now }
{
    match reg_named(name) {
        Some(reg) => Some(Part::General(reg)),
        None => narrow_part(name),
    }
}

// The operand that a text begins with.
fn part(text: &[u8]) -> Option<Part>
    ensures { result ≡ part_of text.now }
{
    match text {
        [] => None,
        [b'%', rest @ ..] => register_part(before_comma(rest)),
        [b'$', rest @ ..] => Some(Part::Number(number(before_comma(rest))?)),
        _ => Some(Part::Memory(memory(text)?)),
    }
}

fn parts(text: &[u8]) -> Option<Parts>
    ensures { result ≡ parts_of text.now }
{
    let last = part(text)?;
    let Some((_, text)) = sides_of(text, b' ') else {
        return Some(Parts::One(last));
    };
    let middle = part(text)?;
    let Some((_, text)) = sides_of(text, b' ') else {
        return Some(Parts::Two(middle, last));
    };
    Some(Parts::Three(part(text)?, middle, last))
}

// Three instructions are called `movq` and two `movl`: they differ in what is written.
fn operation_by_operands(operation: Operation, parts: Parts) -> Operation
    ensures { result ≡ operation_by_operands operation parts }
{
    match (operation, parts) {
        (Operation::Mov, Parts::Two(Part::Memory(_), _)) => Operation::Store,
        (Operation::Mov, Parts::Two(Part::Wide(_), _)) => Operation::XMovq,
        (Operation::Load4, Parts::Two(Part::Memory(_), _)) => Operation::Store4,
        _ => operation,
    }
}

fn mnemonic_operation(mnemonic: &[u8]) -> Option<Operation>
    ensures { result ≡ mnemonic_operation mnemonic.now }
{
    if mnemonic == b"movabsq".as_slice() {
        return Some(Operation::Mov);
    }
    gas_named(mnemonic)
}

fn ins(mnemonic: &[u8], text: &[u8]) -> Option<Ins>
    ensures { result ≡ ins_of mnemonic.now text.now }
{
    let parts = parts(text)?;
    instruction(
        operation_by_operands(mnemonic_operation(mnemonic)?, parts),
        parts,
    )
}

fn label(text: &[u8]) -> Option<u32>
    ensures { result ≡ label_of text.now }
{
    match text {
        [b'L', rest @ ..] => u32::try_from(read_number(rest)?).ok(),
        _ => None,
    }
}

fn item(mnemonic: &[u8], text: &[u8]) -> Option<Item>
    ensures { result ≡ item_of mnemonic.now text.now }
{
    if mnemonic == b"jmp".as_slice() {
        return Some(Item::Jmp(label(text)?));
    }
    match mnemonic {
        [] => None,
        [b'j', name @ ..] => {
            let cond = cond_named(name)?;
            Some(Item::Jcc(cond, label(text)?))
        }
        _ => Some(Item::Ins(ins(mnemonic, text)?)),
    }
}

/// The item that a line can be, if it is one with a tab.
pub(crate) fn found_item(line: &[u8]) -> Option<Item>
    ensures { result ≡ found_item line.now }
{
    let [b'\t', line @ ..] = line else {
        return None;
    };
    match sides_of(line, b' ') {
        None => Some(Item::Ret),
        Some((mnemonic, text)) => item(mnemonic, text),
    }
}
