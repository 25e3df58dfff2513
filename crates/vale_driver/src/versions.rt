// How often the places were written so far.

ghost use Rattle.std.specs.Prelude.{◌≡◌, ◌+◌, ◌<◌, ◌^◌, ◌∷◌, [], true};
ghost use Rattle.x64_syntax.specs.declared.places.MachinePlace.{MachinePlace as APlace};
ghost use Rattle.x64_syntax.specs.declared.places.MachinePlace.TheVariants as place;
ghost use Rattle.x64_meaning.specs.Table.{writes};
ghost use Rattle.x64_meaning.specs.Condition.{first_versions, next_versions};
ghost use Rattle.vale_driver.specs.inner.ConditionTerms.{is_built, present_versions};

use x64_syntax::{AluOp, Ins, Reg};

/// The present version of each place: how often it was written. The instructions so far write all flags or none.
#[derive(Drop)]
pub(crate) struct Versions {
    registers: [u64; 16],
    flags: u64,
}

impl Versions {
    /// The versions before the first instruction.
    pub(crate) fn first() -> Self
        ensures { present_versions result ≡ first_versions }
    {
        Versions {
            registers: [0; 16],
            flags: 0,
        }
    }

    /// The version of a register.
    pub(crate) fn register(&self, reg: Reg) -> u64
        ensures { result ≡ present_versions self.now (place.Reg reg) }
    {
        self.registers[reg.number()]
    }

    /// The version of the flags.
    pub(crate) fn flags(&self) -> u64
        ensures { result ≡ self.now.flags }
    {
        self.flags
    }

    /// Goes on to the versions behind an instruction.
    pub(crate) fn pass(&mut self, ins: &Ins)
        requires fits { (p : APlace) → present_versions self.old p + 1 < 2 ^ 64 }
        requires built { is_built ins.now ≡ true }
        ensures { present_versions self.new ≡ next_versions (present_versions self.old) (writes ins.now) }
    {
        match ins {
            Ins::Mov { d, .. } => self.write(*d),
            Ins::Alu {
                op: AluOp::Add,
                d,
                ..
            } => {
                self.write(*d);
                self.flags += 1;
            }
            _ => {}
        }
    }

    fn write(&mut self, reg: Reg)
        requires { present_versions self.old (place.Reg reg) + 1 < 2 ^ 64 }
        ensures { present_versions self.new ≡ next_versions (present_versions self.old) (place.Reg reg ∷ []) }
    {
        self.registers[reg.number()] += 1;
    }
}
