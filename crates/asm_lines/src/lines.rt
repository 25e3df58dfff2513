// What lines are put together from.

ghost use Rattle.std.specs.Prelude.{◌≡◌};
ghost use Rattle.x64_syntax.specs.declared.conditions.Cond.TheVariants as condition;
ghost use Rattle.asm_lines.specs.Lines.{cond_name, mnemonic};
ghost use Rattle.asm_lines.specs.inner.Conditions.{cond_of};

use crate::forms::operation;
use x64_syntax::{Cond, Ins, Opr};

/// The assembler syntaxes.
#[derive(Clone, Copy, Debug, PartialEq, Eq)]
pub enum Syntax {
    Gas,
    Masm,
}

/// A condition as jumps have it behind their `j`.
pub fn cond_name(cond: Cond) -> &'static str
    ensures { result.now ≡ cond_name cond }
{
    match cond {
        Cond::E => "e",
        Cond::Ne => "ne",
        Cond::B => "b",
        Cond::Be => "be",
        Cond::A => "a",
        Cond::Ae => "ae",
    }
}

/// The condition of a name.
pub fn cond_named(name: &[u8]) -> Option<Cond>
    ensures { result ≡ cond_of name.now }
{
    match name {
        b"e" => Some(Cond::E),
        b"ne" => Some(Cond::Ne),
        b"b" => Some(Cond::B),
        b"be" => Some(Cond::Be),
        b"a" => Some(Cond::A),
        b"ae" => Some(Cond::Ae),
        _ => None,
    }
}

/// The mnemonic of an instruction.
pub fn mnemonic(syntax: Syntax, ins: &Ins) -> &'static str
    ensures { result.now ≡ mnemonic syntax ins.now }
{
    match (syntax, ins) {
        (Syntax::Gas, Ins::Mov { s: Opr::Imm(_), .. }) => "movabsq",
        (Syntax::Gas, _) => operation(ins).gas(),
        (Syntax::Masm, _) => operation(ins).masm(),
    }
}
