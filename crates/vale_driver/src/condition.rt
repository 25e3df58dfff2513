// The condition of a procedure: the equations of its instructions, over numbered versions of places, and what is to follow.

ghost use Rattle.std.specs.Prelude.{◌≡◌, ◌<◌, ◌+◌, ◌^◌, ◌++◌, pos, true, length, map, Ok, IfOk, OnOk};
ghost use Rattle.std.specs.List.{list_all};
ghost use Rattle.x64_syntax.specs.declared.places.MachinePlace.{MachinePlace as APlace};
ghost use Rattle.x64_syntax.specs.declared.places.MachinePlace.TheVariants as place;
ghost use Rattle.term_core.specs.declared.operator.BinOp.TheVariants as bin;
ghost use Rattle.term_core.specs.Terms.{tree, trees};
ghost use Rattle.term_core.specs.Terms as tm;
ghost use Rattle.x64_meaning.specs.Exp.{Before, After};
ghost use Rattle.x64_meaning.specs.Table.{source, sum, int_of, xor_of, equations};
ghost use Rattle.x64_meaning.specs.Condition.{hypothesis, straight_hyps, first_versions, end_versions};
ghost use Rattle.vale_driver.specs.inner.ConditionTerms.{is_built, changed_bits, present_versions, term, move_term, sum_term, carry_term, zero_term, sign_term, overflow_term, addition_terms, promise_term};
ghost use Rattle.vale_driver.specs.Build.{condition_hyps, condition_goal};

use crate::versions::Versions;
use sqlite_items::{Boxed, Items};
use std::alloc::{AllocError as NoMemory, Global};
use straight_line::{Promise, StraightLine};
use term_core::{BinOp, Sequent, Term, UnOp};
use x64_meaning::version;
use x64_syntax::{AluOp, FlagName, Ins, MachinePlace, Opr, Reg};

/// 2^64, from which a sum of words carries, and 2^63, from which a word is negative.
const CARRIES_FROM: i128 = 1 << 64;

const NEGATIVE_FROM: i128 = 1 << 63;

// What was made so far, and what is made next. What is handed through here need not be given back by the caller where
// memory runs out, which would make its proof dear.
fn with<A: Drop, B: Drop>(sofar: A, next: Result<B, NoMemory>) -> Result<(A, B), NoMemory>
    ensures { IfOk result (λ p. (p.0 ≡ sofar) × (next ≡ Ok p.1)) }
{
    let next = next?;
    Ok((sofar, next))
}

fn unary(alloc: Global, op: UnOp, a: Term) -> Result<Term, NoMemory>
    ensures { IfOk result (λ t. tree t ≡ tm.Un op (tree a)) }
{
    Ok(Term::Un(op, Boxed::new(alloc, a)?))
}

fn binary(alloc: Global, op: BinOp, a: Term, b: Term) -> Result<Term, NoMemory>
    ensures { IfOk result (λ t. tree t ≡ tm.Bin op (tree a) (tree b)) }
{
    let (b, a) = with(b, Boxed::new(alloc, a))?;
    let b = Boxed::new(alloc, b)?;
    Ok(Term::Bin(op, a, b))
}

// 1 where the condition holds, else 0.
fn one_if(alloc: Global, condition: Term) -> Result<Term, NoMemory>
    ensures { IfOk result (λ t. tree t ≡ tm.Ite (tree condition) (tm.Int (pos 1)) (tm.Int (pos 0))) }
{
    let condition = Boxed::new(alloc, condition)?;
    let one = Boxed::new(alloc, Term::Int(1))?;
    let zero = Boxed::new(alloc, Term::Int(0))?;
    Ok(Term::Ite(condition, one, zero))
}

// 1 where the whole number is at least so much, else 0.
fn reaches(alloc: Global, bound: i128, a: Term) -> Result<Term, NoMemory>
    ensures { IfOk result (λ t. tree t ≡ tm.Ite (tm.Bin bin.Le (tm.Int bound) (tree a)) (tm.Int (pos 1)) (tm.Int (pos 0))) }
{
    let test = binary(alloc, BinOp::Le, Term::Int(bound), a)?;
    one_if(alloc, test)
}

// A source operand's value before the instruction. What is loaded stands for 0: no instruction of the form loads.
fn source(alloc: Global, versions: &Versions, s: &Opr) -> Result<Term, NoMemory>
    ensures { IfOk result (λ t. tree t ≡ term (present_versions versions.now) (source s.now)) }
{
    match s {
        Opr::R(r) => version(alloc, MachinePlace::Reg(*r), versions.register(*r)),
        Opr::Imm(n) => Ok(Term::W64(n.cast_unsigned())),
        Opr::M(_) => Ok(Term::W64(0)),
    }
}

// A source operand's value before the instruction, as a whole number.
fn source_number(alloc: Global, versions: &Versions, s: &Opr) -> Result<Term, NoMemory>
    ensures { IfOk result (λ t. tree t ≡ term (present_versions versions.now) (int_of (source s.now))) }
{
    let source = source(alloc, versions, s)?;
    unary(alloc, UnOp::Int, source)
}

/// The versions before an instruction, and the register that it writes.
#[derive(Clone, Copy)]
struct Written<'a> {
    d: Reg,
    versions: &'a Versions,
    ghost register_fits: { present_versions versions.now (place.Reg d) + 1 < 2 ^ 64 },
    ghost flags_fit: { versions.now.flags + 1 < 2 ^ 64 },
}

impl<'a> Written<'a> {
    // The register before and after.
    fn before(&self, alloc: Global) -> Result<Term, NoMemory>
        ensures { IfOk result (λ t. tree t ≡ term (present_versions self.now.versions.now) (Before (place.Reg self.now.d))) }
    {
        version(
            alloc,
            MachinePlace::Reg(self.d),
            self.versions.register(self.d),
        )
    }

    fn after(&self, alloc: Global) -> Result<Term, NoMemory>
        ensures { IfOk result (λ t. tree t ≡ term (present_versions self.now.versions.now) (After (place.Reg self.now.d))) }
    {
        version(
            alloc,
            MachinePlace::Reg(self.d),
            self.versions.register(self.d) + 1,
        )
    }

    fn flag(&self, alloc: Global, flag: FlagName) -> Result<Term, NoMemory>
        ensures { IfOk result (λ t. tree t ≡ term (present_versions self.now.versions.now) (After (place.Flag flag))) }
    {
        version(alloc, MachinePlace::Flag(flag), self.versions.flags() + 1)
    }

    // The register afterwards is this.
    fn register_is(&self, alloc: Global, value: Term) -> Result<Term, NoMemory>
        ensures { IfOk result (λ t. tree t ≡ tm.Bin bin.Eq (term (present_versions self.now.versions.now) (After (place.Reg self.now.d))) (tree value)) }
    {
        let (value, after) = with(value, self.after(alloc))?;
        binary(alloc, BinOp::Eq, after, value)
    }

    // The flag afterwards is this.
    fn flag_is(&self, alloc: Global, flag: FlagName, value: Term) -> Result<Term, NoMemory>
        ensures { IfOk result (λ t. tree t ≡ tm.Bin bin.Eq (term (present_versions self.now.versions.now) (After (place.Flag flag))) (tree value)) }
    {
        let (value, flag) = with(value, self.flag(alloc, flag))?;
        binary(alloc, BinOp::Eq, flag, value)
    }

    // The register before and the source, added up.
    fn added(&self, alloc: Global, s: &Opr) -> Result<Term, NoMemory>
        ensures { IfOk result (λ t. tree t ≡ term (present_versions self.now.versions.now) (sum (Before (place.Reg self.now.d)) (source s.now))) }
    {
        let before = self.before(alloc)?;
        let (before, source) = with(before, source(alloc, self.versions, s))?;
        binary(alloc, BinOp::Add, before, source)
    }

    // The same, as whole numbers.
    fn added_numbers(&self, alloc: Global, s: &Opr) -> Result<Term, NoMemory>
        ensures { IfOk result (λ t. tree t ≡ term (present_versions self.now.versions.now) (sum (int_of (Before (place.Reg self.now.d))) (int_of (source s.now)))) }
    {
        let before = self.before(alloc)?;
        let number = unary(alloc, UnOp::Int, before)?;
        let (number, source) = with(number, source_number(alloc, self.versions, s))?;
        binary(alloc, BinOp::Add, number, source)
    }

    // The register is the source.
    #[tactic(auto, unfolding(crate::specs::inner::ConditionTerms::move_term))]
    fn moved(&self, alloc: Global, s: &Opr) -> Result<Term, NoMemory>
        ensures { IfOk result (λ t. tree t ≡ move_term (present_versions self.now.versions.now) self.now.d s.now) }
    {
        let source = source(alloc, self.versions, s)?;
        self.register_is(alloc, source)
    }

    // The register is the sum.
    #[tactic(auto, unfolding(crate::specs::inner::ConditionTerms::sum_term))]
    fn sum(&self, alloc: Global, s: &Opr) -> Result<Term, NoMemory>
        ensures { IfOk result (λ t. tree t ≡ sum_term (present_versions self.now.versions.now) self.now.d s.now) }
    {
        let sum = self.added(alloc, s)?;
        self.register_is(alloc, sum)
    }

    // The carry flag is whether the sum of the numbers reaches 2^64.
    #[tactic(auto, unfolding(crate::specs::inner::ConditionTerms::carry_term))]
    fn carry(&self, alloc: Global, s: &Opr) -> Result<Term, NoMemory>
        ensures { IfOk result (λ t. tree t ≡ carry_term (present_versions self.now.versions.now) self.now.d s.now) }
    {
        let sum = self.added_numbers(alloc, s)?;
        let carries = reaches(alloc, CARRIES_FROM, sum)?;
        self.flag_is(alloc, FlagName::Cf, carries)
    }

    // The zero flag is whether the register is 0.
    #[tactic(auto, unfolding(crate::specs::inner::ConditionTerms::zero_term))]
    fn zero(&self, alloc: Global) -> Result<Term, NoMemory>
        ensures { IfOk result (λ t. tree t ≡ zero_term (present_versions self.now.versions.now) self.now.d) }
    {
        let after = self.after(alloc)?;
        let test = binary(alloc, BinOp::Eq, after, Term::W64(0))?;
        let is_zero = one_if(alloc, test)?;
        self.flag_is(alloc, FlagName::Zf, is_zero)
    }

    // The sign flag is whether the register's highest bit is set.
    #[tactic(auto, unfolding(crate::specs::inner::ConditionTerms::sign_term))]
    fn sign(&self, alloc: Global) -> Result<Term, NoMemory>
        ensures { IfOk result (λ t. tree t ≡ sign_term (present_versions self.now.versions.now) self.now.d) }
    {
        let after = self.after(alloc)?;
        let number = unary(alloc, UnOp::Int, after)?;
        let is_negative = reaches(alloc, NEGATIVE_FROM, number)?;
        self.flag_is(alloc, FlagName::Sf, is_negative)
    }

    // The overflow flag is whether the sum's sign differs from both signs.
    #[tactic(auto, unfolding(crate::specs::inner::ConditionTerms::overflow_term))]
    fn overflow(&self, alloc: Global, s: &Opr) -> Result<Term, NoMemory>
        ensures { IfOk result (λ t. tree t ≡ overflow_term (present_versions self.now.versions.now) self.now.d s.now) }
    {
        let both = self.changed(alloc, s)?;
        let number = unary(alloc, UnOp::Int, both)?;
        let overflows = reaches(alloc, NEGATIVE_FROM, number)?;
        self.flag_is(alloc, FlagName::Of, overflows)
    }

    // The bits in which the register after it differs from both the register before and the source.
    fn changed(&self, alloc: Global, s: &Opr) -> Result<Term, NoMemory>
        ensures { IfOk result (λ t. tree t ≡ term (present_versions self.now.versions.now) (changed_bits self.now.d s.now)) }
    {
        let before = self.before(alloc)?;
        let left = self.changed_from(alloc, before)?;
        let (left, right) = with(left, self.changed_source(alloc, s))?;
        binary(alloc, BinOp::And, left, right)
    }

    // The bits in which the source and the register after it differ.
    fn changed_source(&self, alloc: Global, s: &Opr) -> Result<Term, NoMemory>
        ensures { IfOk result (λ t. tree t ≡ term (present_versions self.now.versions.now) (xor_of (source s.now) (After (place.Reg self.now.d)))) }
    {
        let source = source(alloc, self.versions, s)?;
        self.changed_from(alloc, source)
    }

    // The bits in which a term and the register after it differ.
    fn changed_from(&self, alloc: Global, from: Term) -> Result<Term, NoMemory>
        ensures { IfOk result (λ t. tree t ≡ tm.Bin bin.Xor (tree from) (term (present_versions self.now.versions.now) (After (place.Reg self.now.d)))) }
    {
        let (from, after) = with(from, self.after(alloc))?;
        binary(alloc, BinOp::Xor, from, after)
    }

    // Appends the equations of an addition.
    fn push_addition(&self, alloc: Global, s: &Opr, hyps: &mut Items<Term>) -> Result<(), NoMemory>
        ensures { OnOk result (trees hyps.new ≡ trees hyps.old ++ addition_terms (present_versions self.now.versions.now) self.now.d s.now) }
    {
        hyps.push(self.sum(alloc, s)?)?;
        hyps.push(self.carry(alloc, s)?)?;
        hyps.push(self.zero(alloc)?)?;
        hyps.push(self.sign(alloc)?)?;
        hyps.push(self.overflow(alloc, s)?)?;
        Ok(())
    }
}

// Appends the equations of an instruction.
fn push_instruction(
    alloc: Global,
    versions: &Versions,
    ins: &Ins,
    hyps: &mut Items<Term>,
) -> Result<(), NoMemory>
    requires fits { (p : APlace) → present_versions versions.now p + 1 < 2 ^ 64 }
    requires built { is_built ins.now ≡ true }
    ensures { OnOk result (trees hyps.new ≡ trees hyps.old ++ map (hypothesis (present_versions versions.now)) (equations ins.now)) }
{
    match ins {
        Ins::Mov { d, s } => {
            let written = Written { d: *d, versions };
            hyps.push(written.moved(alloc, s)?)?;
            Ok(())
        }
        Ins::Alu {
            op: AluOp::Add,
            d,
            s,
        } => {
            let written = Written { d: *d, versions };
            written.push_addition(alloc, s, hyps)
        }
        _ => Ok(()),
    }
}

// Appends the equations of all instructions, and gives the versions at the end.
fn push_hypotheses(
    alloc: Global,
    instructions: &[Ins],
    hyps: &mut Items<Term>,
) -> Result<Versions, NoMemory>
    requires few { length instructions.now < 2 ^ 63 }
    requires built { list_all is_built instructions.now ≡ true }
    ensures hyps { OnOk result (trees hyps.new ≡ trees hyps.old ++ straight_hyps instructions.now) }
    ensures last { IfOk result (λ v. present_versions v ≡ end_versions first_versions instructions.now) }
{
    let mut versions = Versions::first();
    for ins in instructions {
        push_instruction(alloc, &versions, ins, hyps)?;
        versions.pass(ins);
    }
    Ok(versions)
}

/// The condition of a procedure.
pub(crate) fn condition(alloc: Global, program: &StraightLine) -> Result<Sequent, NoMemory>
    requires few { length program.now.instructions < 2 ^ 63 }
    requires built { list_all is_built program.now.instructions ≡ true }
    ensures hyps { IfOk result (λ s. trees s.hyps ≡ condition_hyps program.now) }
    ensures goal { IfOk result (λ s. tree s.goal ≡ condition_goal program.now) }
{
    let mut hyps = Items::new(alloc);
    let last = push_hypotheses(alloc, program.instructions.as_slice(), &mut hyps)?;
    let goal = promise(alloc, &last, program.promise)?;
    Ok(Sequent { hyps, goal })
}

// What the register of the promise holds at the end, and what it is to hold.
#[tactic(auto, unfolding(crate::specs::inner::ConditionTerms::promise_term))]
fn promise(alloc: Global, last: &Versions, promise: Promise) -> Result<Term, NoMemory>
    ensures { IfOk result (λ t. tree t ≡ promise_term (present_versions last.now) promise) }
{
    let (reg, wanted) = match promise {
        Promise::Constant(reg, k) => (reg, Term::W64(k)),
        Promise::Old(reg, old) => (reg, version(alloc, MachinePlace::Reg(old), 0)?),
        Promise::Sum(reg, old, k) => {
            let begin = version(alloc, MachinePlace::Reg(old), 0)?;
            (reg, binary(alloc, BinOp::Add, begin, Term::W64(k))?)
        }
    };
    let (wanted, end) = with(
        wanted,
        version(alloc, MachinePlace::Reg(reg), last.register(reg)),
    )?;
    binary(alloc, BinOp::Eq, end, wanted)
}
