// The names of instructions in sources, and their mnemonics.

ghost use Rattle.std.specs.Prelude.{◌≡◌};
ghost use Rattle.x64_syntax.specs.Operations.{operation_name, gas_mnemonic, masm_mnemonic};
ghost use Rattle.x64_syntax.specs.Words.{operation_of};
ghost use Rattle.x64_syntax.specs.inner.Mnemonics.{gas_operation_of};

use crate::conditions::Cond;
use crate::instructions::{AluOp, CarryOp, OneOp, ShiftOp, XBinOp, XShiftOp};
use crate::names::{Named, from_name};

/// What the name of an instruction says of its form. The operands tell the rest: `Movdqu` copies, loads or stores.
#[derive(Clone, Copy, Debug, PartialEq, Eq)]
pub enum Operation {
    Mov,
    Store,
    Load1,
    Load4,
    Store4,
    Lea,
    Cmov(Cond),
    Push,
    Pop,
    Alu(AluOp),
    One(OneOp),
    Shift(ShiftOp),
    Imul,
    Mul,
    Mulx,
    Carry(CarryOp),
    Movdqu,
    XBin(XBinOp),
    XShuf,
    XShift(XShiftOp),
    XIns,
    XExt,
    XMovq,
    XClmul,
}

/// How an instruction is written: its name in a source, and its mnemonics in GAS and in MASM syntax.
#[derive(Clone, Copy, Debug, PartialEq, Eq)]
pub(crate) struct Spelling {
    pub(crate) name: &'static str,
    pub(crate) gas: &'static str,
    pub(crate) masm: &'static str,
}

const fn written(name: &'static str, gas: &'static str, masm: &'static str) -> Spelling
    ensures name { result.name.now ≡ name.now }
    ensures gas { result.gas.now ≡ gas.now }
    ensures masm { result.masm.now ≡ masm.now }
{
    Spelling { name, gas, masm }
}

impl Operation {
    /// Every instruction.
    pub const ALL: [Operation; 53] = [
        Operation::Mov,
        Operation::Store,
        Operation::Load1,
        Operation::Load4,
        Operation::Store4,
        Operation::Lea,
        Operation::Cmov(Cond::E),
        Operation::Cmov(Cond::Ne),
        Operation::Cmov(Cond::B),
        Operation::Cmov(Cond::Be),
        Operation::Cmov(Cond::A),
        Operation::Cmov(Cond::Ae),
        Operation::Push,
        Operation::Pop,
        Operation::Alu(AluOp::Add),
        Operation::Alu(AluOp::Adc),
        Operation::Alu(AluOp::Sub),
        Operation::Alu(AluOp::Sbb),
        Operation::Alu(AluOp::Cmp),
        Operation::Alu(AluOp::And),
        Operation::Alu(AluOp::Or),
        Operation::Alu(AluOp::Xor),
        Operation::One(OneOp::Neg),
        Operation::One(OneOp::Not),
        Operation::Shift(ShiftOp::Shl),
        Operation::Shift(ShiftOp::Shr),
        Operation::Shift(ShiftOp::Rol),
        Operation::Shift(ShiftOp::Ror),
        Operation::Imul,
        Operation::Mul,
        Operation::Mulx,
        Operation::Carry(CarryOp::Adcx),
        Operation::Carry(CarryOp::Adox),
        Operation::Movdqu,
        Operation::XBin(XBinOp::Pxor),
        Operation::XBin(XBinOp::Pand),
        Operation::XBin(XBinOp::Por),
        Operation::XBin(XBinOp::Paddd),
        Operation::XBin(XBinOp::Pshufb),
        Operation::XBin(XBinOp::Paddq),
        Operation::XBin(XBinOp::Punpcklqdq),
        Operation::XBin(XBinOp::Punpckhqdq),
        Operation::XBin(XBinOp::Aesenc),
        Operation::XBin(XBinOp::Aesenclast),
        Operation::XShuf,
        Operation::XShift(XShiftOp::Pslld),
        Operation::XShift(XShiftOp::Psrld),
        Operation::XShift(XShiftOp::Pslldq),
        Operation::XShift(XShiftOp::Psrldq),
        Operation::XIns,
        Operation::XExt,
        Operation::XMovq,
        Operation::XClmul,
    ];

    /// How it is written. GAS has a further mnemonic for a move of a constant.
    #[tactic(auto, unfolding(crate::specs::Operations::spelling))]
    pub(crate) fn spelling(self) -> Spelling
        ensures name { result.name.now ≡ operation_name self }
        ensures gas { result.gas.now ≡ gas_mnemonic self }
        ensures masm { result.masm.now ≡ masm_mnemonic self }
    {
        match self {
            Operation::Mov => written("Mov64", "movq", "mov"),
            Operation::Store => written("Store64", "movq", "mov"),
            Operation::Load1 => written("Movzx8", "movzbq", "movzx"),
            Operation::Load4 => written("Mov32", "movl", "mov"),
            Operation::Store4 => written("Store32", "movl", "mov"),
            Operation::Lea => written("Lea64", "leaq", "lea"),
            Operation::Cmov(Cond::E) => written("Cmove", "cmove", "cmove"),
            Operation::Cmov(Cond::Ne) => written("Cmovne", "cmovne", "cmovne"),
            Operation::Cmov(Cond::B) => written("Cmovb", "cmovb", "cmovb"),
            Operation::Cmov(Cond::Be) => written("Cmovbe", "cmovbe", "cmovbe"),
            Operation::Cmov(Cond::A) => written("Cmova", "cmova", "cmova"),
            Operation::Cmov(Cond::Ae) => written("Cmovae", "cmovae", "cmovae"),
            Operation::Push => written("Push64", "pushq", "push"),
            Operation::Pop => written("Pop64", "popq", "pop"),
            Operation::Alu(AluOp::Add) => written("Add64", "addq", "add"),
            Operation::Alu(AluOp::Adc) => written("Adc64", "adcq", "adc"),
            Operation::Alu(AluOp::Sub) => written("Sub64", "subq", "sub"),
            Operation::Alu(AluOp::Sbb) => written("Sbb64", "sbbq", "sbb"),
            Operation::Alu(AluOp::Cmp) => written("Cmp64", "cmpq", "cmp"),
            Operation::Alu(AluOp::And) => written("And64", "andq", "and"),
            Operation::Alu(AluOp::Or) => written("Or64", "orq", "or"),
            Operation::Alu(AluOp::Xor) => written("Xor64", "xorq", "xor"),
            Operation::One(OneOp::Neg) => written("Neg64", "negq", "neg"),
            Operation::One(OneOp::Not) => written("Not64", "notq", "not"),
            Operation::Shift(ShiftOp::Shl) => written("Shl64", "shlq", "shl"),
            Operation::Shift(ShiftOp::Shr) => written("Shr64", "shrq", "shr"),
            Operation::Shift(ShiftOp::Rol) => written("Rol64", "rolq", "rol"),
            Operation::Shift(ShiftOp::Ror) => written("Ror64", "rorq", "ror"),
            Operation::Imul => written("Imul64", "imulq", "imul"),
            Operation::Mul => written("Mul64", "mulq", "mul"),
            Operation::Mulx => written("Mulx64", "mulxq", "mulx"),
            Operation::Carry(CarryOp::Adcx) => written("Adcx64", "adcxq", "adcx"),
            Operation::Carry(CarryOp::Adox) => written("Adox64", "adoxq", "adox"),
            Operation::Movdqu => written("Movdqu", "movdqu", "movdqu"),
            Operation::XBin(XBinOp::Pxor) => written("Pxor", "pxor", "pxor"),
            Operation::XBin(XBinOp::Pand) => written("Pand", "pand", "pand"),
            Operation::XBin(XBinOp::Por) => written("Por", "por", "por"),
            Operation::XBin(XBinOp::Paddd) => written("Paddd", "paddd", "paddd"),
            Operation::XBin(XBinOp::Pshufb) => written("Pshufb", "pshufb", "pshufb"),
            Operation::XBin(XBinOp::Paddq) => written("Paddq", "paddq", "paddq"),
            Operation::XBin(XBinOp::Punpcklqdq) => written(
                "Punpcklqdq",
                "punpcklqdq",
                "punpcklqdq",
            ),
            Operation::XBin(XBinOp::Punpckhqdq) => written(
                "Punpckhqdq",
                "punpckhqdq",
                "punpckhqdq",
            ),
            Operation::XBin(XBinOp::Aesenc) => written("Aesenc", "aesenc", "aesenc"),
            Operation::XBin(XBinOp::Aesenclast) => written(
                "Aesenclast",
                "aesenclast",
                "aesenclast",
            ),
            Operation::XShuf => written("Pshufd", "pshufd", "pshufd"),
            Operation::XShift(XShiftOp::Pslld) => written("Pslld", "pslld", "pslld"),
            Operation::XShift(XShiftOp::Psrld) => written("Psrld", "psrld", "psrld"),
            Operation::XShift(XShiftOp::Pslldq) => written("Pslldq", "pslldq", "pslldq"),
            Operation::XShift(XShiftOp::Psrldq) => written("Psrldq", "psrldq", "psrldq"),
            Operation::XIns => written("Pinsrq", "pinsrq", "pinsrq"),
            Operation::XExt => written("Pextrq", "pextrq", "pextrq"),
            Operation::XMovq => written("Movq", "movq", "movq"),
            Operation::XClmul => written("Pclmulqdq", "pclmulqdq", "pclmulqdq"),
        }
    }

    /// The name in a source, as `Add64`.
    pub fn name(self) -> &'static str
        ensures { result.now ≡ operation_name self }
    {
        self.spelling().name
    }

    /// The mnemonic in GAS syntax, as `addq`.
    pub fn gas(self) -> &'static str
        ensures { result.now ≡ gas_mnemonic self }
    {
        self.spelling().gas
    }

    /// The mnemonic in MASM syntax, as `add`.
    pub fn masm(self) -> &'static str
        ensures { result.now ≡ masm_mnemonic self }
    {
        self.spelling().masm
    }
}

impl Named for Operation {
    ghost use Rattle.x64_syntax.specs.Operations.{operations, operation_name};

    ghost name_of = { operation_name };

    ghost all = { operations };

    #[tactic(auto, unfolding(crate::specs::Operations::operations))]
    fn all() -> &'static [Operation] {
        &Operation::ALL
    }

    fn name(self) -> &'static str {
        self.name()
    }
}

/// The instruction that is written so in a source.
pub fn operation_named(name: &[u8]) -> Option<Operation>
    ensures { result ≡ operation_of name.now }
{
    from_name(name)
}

/// The first instruction of the list with this mnemonic in GAS syntax: `Mov` for `movq`, which three of them have.
pub fn gas_named(mnemonic: &[u8]) -> Option<Operation>
    ensures { result ≡ gas_operation_of mnemonic.now }
{
    Operation::all()
        .iter()
        .copied()
        .find(|operation| operation.gas().as_bytes() == mnemonic)
}
