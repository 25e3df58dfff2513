// What instructions compute in registers and flags.

ghost use Rattle.std.specs.Prelude.{◌≡◌, ◌≤◌, ◌<◌, not, ◌==◌, bit_and, bit_xor};
ghost use Rattle.x64_meaning.specs.State.{flag};
ghost use Rattle.x64_meaning.specs.inner.Steps.{is_one, flag_if, negative, bit_at, with_result, result_state, sum_state, difference_overflows, difference_state, comparison_state, alu_effect, one_effect, rotation_state, shift_effect, product_state, wide_product, halves, carry_state};

use crate::machine::{Flag, Machine};
use word_ops::{add_carry, mul_wide, rotate_left, rotate_right, sub_borrow};
use x64_syntax::{AluOp, FlagName, OneOp, Reg, ShiftOp};

const CF: usize = FlagName::Cf as usize;

const ZF: usize = FlagName::Zf as usize;

const SF: usize = FlagName::Sf as usize;

const OF: usize = FlagName::Of as usize;

fn flag_if(holds: bool) -> Flag
    ensures { result ≡ flag_if holds }
{
    if holds { Flag::One } else { Flag::Zero }
}

fn negative(word: u64) -> bool
    ensures { result ≡ negative word }
{
    1 << 63 <= word
}

/// Whether a flag is 1.
pub(crate) fn is_set(m: &Machine, name: FlagName) -> bool
    ensures { result ≡ is_one (flag m.now name) }
{
    m.flags[name.number()] == Flag::One
}

// Sets the flags of a result.
fn set_result(m: &mut Machine, r: u64, carry: Flag, overflow: Flag)
    ensures { m.new ≡ with_result r carry overflow m.old }
{
    m.flags[CF] = carry;
    m.flags[ZF] = flag_if(r == 0);
    m.flags[SF] = flag_if(negative(r));
    m.flags[OF] = overflow;
}

// Puts a result into a register and sets its flags.
fn finish(m: &mut Machine, d: Reg, r: u64, carry: Flag, overflow: Flag)
    ensures { m.new ≡ result_state d r carry overflow m.old }
{
    m.regs[d.number()] = r;
    set_result(m, r, carry, overflow);
}

fn sum(m: &mut Machine, d: Reg, b: u64, c: bool)
    ensures { m.new ≡ sum_state m.old d b c }
{
    let a = m.regs[d.number()];
    let (r, carry) = add_carry(a, b, c);
    let overflow = negative((a ^ r) & (b ^ r));
    finish(m, d, r, flag_if(carry), flag_if(overflow));
}

fn difference_overflows(a: u64, b: u64, r: u64) -> Flag
    ensures { result ≡ difference_overflows a b r }
{
    flag_if(negative((a ^ b) & (a ^ r)))
}

fn subtract(m: &mut Machine, d: Reg, b: u64, c: bool)
    ensures { m.new ≡ difference_state m.old d b c }
{
    let a = m.regs[d.number()];
    let (r, borrow) = sub_borrow(a, b, c);
    finish(m, d, r, flag_if(borrow), difference_overflows(a, b, r));
}

fn compare(m: &mut Machine, d: Reg, b: u64)
    ensures { m.new ≡ comparison_state m.old d b }
{
    let a = m.regs[d.number()];
    let (r, borrow) = sub_borrow(a, b, false);
    set_result(m, r, flag_if(borrow), difference_overflows(a, b, r));
}

/// Combines a register with a word.
pub(crate) fn alu(m: &mut Machine, op: AluOp, d: Reg, b: u64)
    ensures { m.new ≡ alu_effect op m.old d b }
{
    let a = m.regs[d.number()];
    let c = is_set(m, FlagName::Cf);
    match op {
        AluOp::Add => sum(m, d, b, false),
        AluOp::Adc => sum(m, d, b, c),
        AluOp::Sub => subtract(m, d, b, false),
        AluOp::Sbb => subtract(m, d, b, c),
        AluOp::Cmp => compare(m, d, b),
        AluOp::And => finish(m, d, a & b, Flag::Zero, Flag::Zero),
        AluOp::Or => finish(m, d, a | b, Flag::Zero, Flag::Zero),
        AluOp::Xor => finish(m, d, a ^ b, Flag::Zero, Flag::Zero),
    }
}

/// The negative or the inverse of a register.
pub(crate) fn one(m: &mut Machine, op: OneOp, d: Reg)
    ensures { m.new ≡ one_effect op m.old d }
{
    let a = m.regs[d.number()];
    match op {
        OneOp::Neg => {
            let (r, _) = sub_borrow(0, a, false);
            finish(m, d, r, flag_if(a != 0), flag_if(a == 1 << 63));
        }
        OneOp::Not => m.regs[d.number()] = u64::MAX - a,
    }
}

// A rotation leaves carry and overflow open.
fn rotate(m: &mut Machine, d: Reg, r: u64)
    ensures { m.new ≡ rotation_state m.old d r }
{
    m.regs[d.number()] = r;
    m.flags[CF] = Flag::Undefined;
    m.flags[OF] = Flag::Undefined;
}

fn bit(a: u64, number: u8) -> Flag
    requires { number < 64 }
    ensures { result ≡ flag_if (bit_at number a) }
{
    flag_if(a >> number & 1 == 1)
}

/// Shifts or rotates a register by 1 to 63 bits.
pub(crate) fn shift(m: &mut Machine, op: ShiftOp, d: Reg, n: u8)
    requires from { 1 ≤ n }
    requires up_to { n ≤ 63 }
    ensures { m.new ≡ shift_effect op m.old d n }
{
    let a = m.regs[d.number()];
    match op {
        ShiftOp::Shl => finish(m, d, a << n, bit(a, 64 - n), Flag::Undefined),
        ShiftOp::Shr => finish(m, d, a >> n, bit(a, n - 1), Flag::Undefined),
        ShiftOp::Rol => rotate(m, d, rotate_left(a, n)),
        ShiftOp::Ror => rotate(m, d, rotate_right(a, n)),
    }
}

/// The lower half of a product; every flag is open.
pub(crate) fn multiply(m: &mut Machine, d: Reg, b: u64)
    ensures { m.new ≡ product_state m.old d b }
{
    let (_, low) = mul_wide(m.regs[d.number()], b);
    m.regs[d.number()] = low;
    m.flags[CF] = Flag::Undefined;
    m.flags[ZF] = Flag::Undefined;
    m.flags[SF] = Flag::Undefined;
    m.flags[OF] = Flag::Undefined;
}

/// The product of rax and a word in rdx and rax; carry and overflow tell whether its upper half is 0.
pub(crate) fn multiply_wide(m: &mut Machine, b: u64)
    ensures { m.new ≡ wide_product m.old b }
{
    let (high, low) = mul_wide(m.regs[Reg::Rax.number()], b);
    let over = flag_if(high != 0);
    m.regs[Reg::Rax.number()] = low;
    m.regs[Reg::Rdx.number()] = high;
    m.flags[CF] = over;
    m.flags[ZF] = Flag::Undefined;
    m.flags[SF] = Flag::Undefined;
    m.flags[OF] = over;
}

/// The product of rdx and a word in two registers.
pub(crate) fn multiply_apart(m: &mut Machine, hi: Reg, lo: Reg, b: u64)
    ensures { m.new ≡ halves m.old hi lo b }
{
    let (high, low) = mul_wide(m.regs[Reg::Rdx.number()], b);
    m.regs[hi.number()] = high;
    m.regs[lo.number()] = low;
}

/// A sum with one flag, which it sets.
pub(crate) fn add_with(m: &mut Machine, name: FlagName, d: Reg, b: u64)
    ensures { m.new ≡ carry_state name m.old d b }
{
    let (r, carry) = add_carry(m.regs[d.number()], b, is_set(m, name));
    m.regs[d.number()] = r;
    m.flags[name.number()] = flag_if(carry);
}
