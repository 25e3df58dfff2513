// The lines for `err`, and writing.

ghost use Rattle.std.specs.Prelude.{◌≡◌, ℕ, ◌≤◌, ◌++◌, decimal, codes, IfOk, OnOk, OnErr};
ghost use Rattle.vale_outside.specs.Outside.{Rose, Appends, AppendsFront};
ghost use Rattle.vale_driver.specs.Lines.{refusal_line, or_dash, number_or_dash};

use crate::status::Refusal;
use itoa::Buffer;
use memchr::memchr;
use std::alloc::{AllocError as NoMemory, Global};
use vale_outside::{PutFault, Sink};
use x64_syntax::Text;

/// The line of a refusal.
#[tactic(auto, unfolding(crate::specs::Lines::refusal_line))]
pub(crate) fn refusal_line(alloc: Global, refusal: &Refusal) -> Result<Vec<u8>, NoMemory>
    ensures { IfOk result (λ line. line.items ≡ refusal_line refusal.now) }
{
    let mut line = Vec::from_slice(alloc, b"E")?;
    line.extend_from_slice(Buffer::new().format(refusal.number).as_bytes())?;
    push_text(&mut line, &refusal.file)?;
    push_number(&mut line, refusal.at)?;
    push_text(&mut line, &refusal.who)?;
    push_cause(&mut line, &refusal.cause)?;
    Ok(line)
}

// Appends a space, and the text or a dash.
fn push_text(line: &mut Vec<u8>, text: &Option<Text>) -> Result<(), NoMemory>
    ensures { OnOk result (line.new.items ≡ line.old.items ++ (codes " " ++ or_dash text.now)) }
{
    line.extend_from_slice(b" ")?;
    match text {
        Some(text) => line.extend_from_slice(text.as_bytes()),
        None => line.extend_from_slice(b"-"),
    }
}

// Appends a space, and the number or a dash.
fn push_number(line: &mut Vec<u8>, number: Option<u64>) -> Result<(), NoMemory>
    ensures { OnOk result (line.new.items ≡ line.old.items ++ (codes " " ++ number_or_dash number)) }
{
    line.extend_from_slice(b" ")?;
    match number {
        Some(n) => line.extend_from_slice(Buffer::new().format(n).as_bytes()),
        None => line.extend_from_slice(b"-"),
    }
}

// Appends a space, the cause and a newline.
fn push_cause(line: &mut Vec<u8>, cause: &Text) -> Result<(), NoMemory>
    ensures { OnOk result (line.new.items ≡ line.old.items ++ (codes " " ++ (cause.now ++ codes "\n"))) }
{
    line.extend_from_slice(b" ")?;
    line.extend_from_slice(cause.as_bytes())?;
    line.extend_from_slice(b"\n")
}

/// Writes a text, each line with one call, as far as the first that fails.
pub(crate) fn write_lines<O: Sink>(out: &mut O, text: &[u8]) -> Result<(), PutFault>
    ensures ok { OnOk result (Appends (O.told out.old) (O.told out.new) text.now) }
    ensures failed { OnErr result (Rose (O.faults out.old) (O.faults out.new)) }
    ensures front { OnErr result (AppendsFront (O.told out.old) (O.told out.new) text.now) }
{
    let mut rest = text;
    while let Some(end) = memchr(b'\n', rest) {
        let (line, behind) = rest.split_at(end + 1);
        out.put(line)?;
        rest = behind;
    }
    if !rest.is_empty() {
        out.put(rest)?;
    }
    Ok(())
}
