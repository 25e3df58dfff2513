// Items as text.

ghost use Rattle.std.specs.Prelude.{◌≡◌, ◌++◌, true, codes, IfOk, OnOk};
ghost use Rattle.x64_syntax.specs.declared.items.Item.TheVariants as item;
ghost use Rattle.x64_syntax.specs.Programs.{program_ok};
ghost use Rattle.asm_lines.specs.declared.forms.Parts.TheVariants as parts;
ghost use Rattle.gas_text.specs.Gas.{index_text, memory_text, part_text, operands_text, ins_line, line, lines, unlines, gas_text};

use asm_lines::{Part, Parts, Syntax, cond_name, mnemonic, operands};
use std::alloc::{AllocError as NoMemory, Global};
use x64_syntax::{Ins, Item, Mem, Reg, push, push_number};

fn push_index(out: &mut Vec<u8>, index: Option<(Reg, u8)>) -> Result<(), NoMemory>
    ensures { OnOk result (out.new.items ≡ out.old.items ++ index_text index) }
{
    match index {
        Some((reg, scale)) => {
            push(out, ",%")?;
            push(out, reg.name())?;
            push(out, ",")?;
            push_number(out, scale)
        }
        None => Ok(()),
    }
}

fn push_memory(out: &mut Vec<u8>, m: Mem) -> Result<(), NoMemory>
    ensures { OnOk result (out.new.items ≡ out.old.items ++ memory_text m) }
{
    push_number(out, m.disp)?;
    push(out, "(%")?;
    push(out, m.base.name())?;
    push_index(out, m.index)?;
    push(out, ")")
}

fn push_part(out: &mut Vec<u8>, part: Part) -> Result<(), NoMemory>
    ensures { OnOk result (out.new.items ≡ out.old.items ++ part_text part) }
{
    match part {
        Part::General(reg) => {
            push(out, "%")?;
            push(out, reg.name())
        }
        Part::Low(reg) => {
            push(out, "%")?;
            push(out, reg.low_name())
        }
        Part::Wide(xmm) => {
            push(out, "%")?;
            push(out, xmm.name())
        }
        Part::Number(n) => {
            push(out, "$")?;
            push_number(out, n)
        }
        Part::Memory(m) => push_memory(out, m),
    }
}

fn push_two(out: &mut Vec<u8>, a: Part, b: Part) -> Result<(), NoMemory>
    ensures { OnOk result (out.new.items ≡ out.old.items ++ operands_text (parts.Two a b)) }
{
    push_part(out, b)?;
    push(out, ", ")?;
    push_part(out, a)
}

fn push_operands(out: &mut Vec<u8>, operands: Parts) -> Result<(), NoMemory>
    ensures { OnOk result (out.new.items ≡ out.old.items ++ operands_text operands) }
{
    match operands {
        Parts::One(a) => push_part(out, a),
        Parts::Two(a, b) => push_two(out, a, b),
        Parts::Three(a, b, c) => {
            push_part(out, c)?;
            push(out, ", ")?;
            push_two(out, a, b)
        }
    }
}

fn push_ins(out: &mut Vec<u8>, ins: &Ins) -> Result<(), NoMemory>
    ensures { OnOk result (out.new.items ≡ out.old.items ++ ins_line ins.now) }
{
    push(out, "\t")?;
    push(out, mnemonic(Syntax::Gas, ins))?;
    push(out, " ")?;
    push_operands(out, operands(ins))
}

/// Appends the line of an item, without a newline.
pub(crate) fn push_line(out: &mut Vec<u8>, item: &Item) -> Result<(), NoMemory>
    ensures { OnOk result (out.new.items ≡ out.old.items ++ line item.now) }
{
    match item {
        Item::Ins(ins) => push_ins(out, ins),
        Item::Label(label) => {
            push(out, "L")?;
            push_number(out, *label)?;
            push(out, ":")
        }
        Item::Jmp(label) => {
            push(out, "\tjmp L")?;
            push_number(out, *label)
        }
        Item::Jcc(cond, label) => {
            push(out, "\tj")?;
            push(out, cond_name(*cond))?;
            push(out, " L")?;
            push_number(out, *label)
        }
        Item::Ret => push(out, "\tret"),
        Item::Entry(name) => {
            push(out, ".globl ")?;
            out.extend_from_slice(name.as_bytes())
        }
    }
}

fn push_lines(out: &mut Vec<u8>, item: &Item) -> Result<(), NoMemory>
    ensures { OnOk result (out.new.items ≡ out.old.items ++ unlines (lines item.now)) }
{
    push_line(out, item)?;
    push(out, "\n")?;
    if let Item::Entry(name) = item {
        out.extend_from_slice(name.as_bytes())?;
        push(out, ":\n")?;
    }
    Ok(())
}

/// The text of a program in GAS syntax, as GNU's assembler takes it; see docs/COMMANDS.md. Each program has one text,
/// and no other program has the same.
#[tactic(auto, unfolding(crate::specs::Gas::items_text))]
pub fn print(alloc: Global, items: &[Item]) -> Result<Vec<u8>, NoMemory>
    requires { program_ok items.now ≡ true }
    ensures { IfOk result (λ text. text.items ≡ gas_text items.now) }
{
    let mut out = Vec::new(alloc);
    push(&mut out, ".text\n")?;
    for item in items {
        push_lines(&mut out, item)?;
    }
    Ok(out)
}
