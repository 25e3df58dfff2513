// How items are listed.

ghost use Rattle.std.specs.Prelude.{◌≡◌, ◌++◌, IfOk, OnOk, decimal};
ghost use Rattle.x64_syntax.specs.declared.items.Item.TheVariants as item;
ghost use Rattle.asm_lines.specs.declared.forms.Parts.TheVariants as shape;
ghost use Rattle.asm_lines.specs.Listing.{index_text, memory_text, part_text, operands_text, ins_listing, listing};

use crate::forms::{Part, Parts, operands, operation};
use crate::lines::cond_name;
use std::alloc::{AllocError as NoMemory, Global};
use x64_syntax::{Cond, Ins, Item, Mem, Reg, Text, push, push_number};

/// An item as it is listed: `Entry NAME`, `Label n`, `Jmp n`, `Jcc CC n`, `Ret`, or an instruction as a source has it,
/// with memory as `(base, disp)` or `(base, index, scale, disp)`. The constant of `Mov64` has no sign.
pub fn list_item(alloc: Global, item: &Item) -> Result<Text, NoMemory>
    ensures { IfOk result (λ t. t ≡ listing item.now) }
{
    let mut out = Vec::new(alloc);
    match item {
        Item::Ins(ins) => push_ins(&mut out, ins)?,
        Item::Label(label) => push_numbered(&mut out, "Label ", *label)?,
        Item::Jmp(label) => push_numbered(&mut out, "Jmp ", *label)?,
        Item::Jcc(cond, label) => push_branch(&mut out, *cond, *label)?,
        Item::Ret => push(&mut out, "Ret")?,
        Item::Entry(name) => {
            push(&mut out, "Entry ")?;
            out.extend_from_slice(name.as_bytes())?;
        }
    }
    Ok(Text::from_vec(out))
}

fn push_numbered(out: &mut Vec<u8>, word: &str, label: u32) -> Result<(), NoMemory>
    ensures { OnOk result (out.new.items ≡ out.old.items ++ word.now ++ decimal label) }
{
    push(out, word)?;
    push_number(out, label)
}

fn push_branch(out: &mut Vec<u8>, cond: Cond, label: u32) -> Result<(), NoMemory>
    ensures { OnOk result (out.new.items ≡ out.old.items ++ listing (item.Jcc cond label)) }
{
    push(out, "Jcc ")?;
    push(out, cond_name(cond))?;
    push_numbered(out, " ", label)
}

fn push_index(out: &mut Vec<u8>, index: Option<(Reg, u8)>) -> Result<(), NoMemory>
    ensures { OnOk result (out.new.items ≡ out.old.items ++ index_text index) }
{
    match index {
        Some((reg, scale)) => {
            push(out, ", ")?;
            push(out, reg.name())?;
            push(out, ", ")?;
            push_number(out, scale)
        }
        None => Ok(()),
    }
}

fn push_memory(out: &mut Vec<u8>, m: Mem) -> Result<(), NoMemory>
    ensures { OnOk result (out.new.items ≡ out.old.items ++ memory_text m) }
{
    push(out, "(")?;
    push(out, m.base.name())?;
    push_index(out, m.index)?;
    push(out, ", ")?;
    push_number(out, m.disp)?;
    push(out, ")")
}

fn push_part(out: &mut Vec<u8>, part: Part) -> Result<(), NoMemory>
    ensures { OnOk result (out.new.items ≡ out.old.items ++ part_text part) }
{
    match part {
        Part::General(reg) | Part::Low(reg) => push(out, reg.name()),
        Part::Wide(xmm) => push(out, xmm.name()),
        Part::Number(n) => push_number(out, n),
        Part::Memory(m) => push_memory(out, m),
    }
}

fn push_operands(out: &mut Vec<u8>, operands: Parts) -> Result<(), NoMemory>
    ensures { OnOk result (out.new.items ≡ out.old.items ++ operands_text operands) }
{
    match operands {
        Parts::One(a) => push_part(out, a),
        Parts::Two(a, b) => push_two(out, a, b),
        Parts::Three(a, b, c) => {
            push_two(out, a, b)?;
            push(out, ", ")?;
            push_part(out, c)
        }
    }
}

fn push_two(out: &mut Vec<u8>, a: Part, b: Part) -> Result<(), NoMemory>
    ensures { OnOk result (out.new.items ≡ out.old.items ++ operands_text (shape.Two a b)) }
{
    push_part(out, a)?;
    push(out, ", ")?;
    push_part(out, b)
}

fn push_ins(out: &mut Vec<u8>, ins: &Ins) -> Result<(), NoMemory>
    ensures { OnOk result (out.new.items ≡ out.old.items ++ ins_listing ins.now) }
{
    push(out, operation(ins).name())?;
    push(out, "(")?;
    push_operands(out, operands(ins))?;
    push(out, ")")
}
