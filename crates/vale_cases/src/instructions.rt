// Instructions as a source has them, and what the table of forms says of each.

use anyhow::Result;
use asm_lines::{Part, Parts, instruction};
use bstr::ByteSlice;
use std::alloc::Global;
use x64_syntax::{
    FlagName, FormFault, Ins, MachinePlace, Mem, Operation, PlaceSet, Reg, Xmm, ins_ok,
    operation_named, reads_of, reg_named, writes_of, xmm_named,
};

fn number(text: &[u8]) -> Option<i128> {
    str::from_utf8(text).ok()?.parse::<i128>().ok()
}

// `(rsi, 8)`, `(rsi, rcx, 8, 0)`, without the brackets.
fn memory(inside: &[u8]) -> Option<Mem> {
    let (base, rest) = inside.split_once_str(b", ")?;
    let base = reg_named(base)?;
    match rest.split_once_str(b", ") {
        None => Some(Mem {
            base,
            index: None,
            disp: i32::try_from(number(rest)?).ok()?,
        }),
        Some((index, rest)) => {
            let (scale, disp) = rest.split_once_str(b", ")?;
            let scale = u8::try_from(number(scale)?).ok()?;
            Some(Mem {
                base,
                index: Some((reg_named(index)?, scale)),
                disp: i32::try_from(number(disp)?).ok()?,
            })
        }
    }
}

fn part(text: &[u8]) -> Option<Part> {
    if let Some(inside) = text.strip_prefix(b"(") {
        return Some(Part::Memory(memory(inside.strip_suffix(b")")?)?));
    }
    if let Some(reg) = reg_named(text) {
        return Some(Part::General(reg));
    }
    if let Some(xmm) = xmm_named(text) {
        return Some(Part::Wide(xmm));
    }
    Some(Part::Number(number(text)?))
}

// The operand at the front, and what is behind it.
fn first_operand(text: &[u8]) -> (&[u8], Option<&[u8]>) {
    if text.starts_with(b"(") {
        return match text.split_once_str(b"), ") {
            Some((inside, rest)) => (text.get(..inside.len() + 1).unwrap_or(text), Some(rest)),
            None => (text, None),
        };
    }
    match text.split_once_str(b", ") {
        Some((front, rest)) => (front, Some(rest)),
        None => (text, None),
    }
}

fn parts(text: &[u8]) -> Option<Parts> {
    let (a, rest) = first_operand(text);
    let a = part(a)?;
    let Some(rest) = rest else {
        return Some(Parts::One(a));
    };
    let (b, rest) = first_operand(rest);
    let b = part(b)?;
    match rest {
        None => Some(Parts::Two(a, b)),
        Some(c) => Some(Parts::Three(a, b, part(c)?)),
    }
}

// Moves of 32 bits take the lower half of a register.
fn narrowed(operation: Operation, parts: Parts) -> Parts {
    match (operation, parts) {
        (Operation::Load4, Parts::Two(Part::General(d), m)) => Parts::Two(Part::Low(d), m),
        (Operation::Store4, Parts::Two(m, Part::General(s))) => Parts::Two(m, Part::Low(s)),
        _ => parts,
    }
}

/// The instruction of a text such as `Add64(rax, 1)`, whether it is one of the machine's or not.
pub(crate) fn instruction_of(text: &[u8]) -> Option<Ins> {
    let (name, rest) = text.split_once_str(b"(")?;
    let operation = operation_named(name)?;
    let parts = parts(rest.strip_suffix(b")")?)?;
    instruction(operation, narrowed(operation, parts))
}

fn fault_name(fault: FormFault) -> &'static str {
    match fault {
        FormFault::Immediate => "Immediate",
        FormFault::Count => "Count",
        FormFault::Scale => "Scale",
        FormFault::Register => "Register",
        FormFault::SameHighLow => "SameHighLow",
    }
}

fn push_place(out: &mut String, set: PlaceSet, place: MachinePlace) -> Result<()> {
    if set.contains(place) {
        out.push_str(" ")?;
        out.push_str(place.name())?;
    }
    Ok(())
}

fn push_places(out: &mut String, set: PlaceSet) -> Result<()> {
    for reg in Reg::ALL {
        push_place(out, set, MachinePlace::Reg(reg))?;
    }
    for xmm in Xmm::ALL {
        push_place(out, set, MachinePlace::Xmm(xmm))?;
    }
    for flag in FlagName::ALL {
        push_place(out, set, MachinePlace::Flag(flag))?;
    }
    Ok(())
}

/// `reads rax cf; writes rax`, or why the instruction isn't one of the machine's.
pub(crate) fn form_of(alloc: Global, text: &[u8]) -> Result<String> {
    let Some(ins) = instruction_of(text) else {
        return Ok(format!(in alloc; "no instruction")?);
    };
    if let Err(fault) = ins_ok(&ins) {
        return Ok(format!(in alloc; "{}", fault_name(fault))?);
    }
    let mut out = format!(in alloc; "reads")?;
    push_places(&mut out, reads_of(&ins))?;
    out.push_str("; writes")?;
    push_places(&mut out, writes_of(&ins))?;
    Ok(out)
}
