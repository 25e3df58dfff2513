// What holds a value: general registers, xmm registers and flags.

ghost use Rattle.std.specs.Prelude.{◌≡◌};
ghost use Rattle.x64_syntax.specs.Places.{reg_name, low_name, xmm_name, flag_name, place_name, reg_number, xmm_number, flag_number};

/// A general register of 64 bits. Wherever registers go by number, it is this order.
#[derive(Clone, Copy, Debug, PartialEq, Eq)]
pub enum Reg {
    Rax,
    Rbx,
    Rcx,
    Rdx,
    Rsi,
    Rdi,
    Rbp,
    Rsp,
    R8,
    R9,
    R10,
    R11,
    R12,
    R13,
    R14,
    R15,
}

/// A register of 128 bits.
#[derive(Clone, Copy, Debug, PartialEq, Eq)]
pub enum Xmm {
    Xmm0,
    Xmm1,
    Xmm2,
    Xmm3,
    Xmm4,
    Xmm5,
    Xmm6,
    Xmm7,
    Xmm8,
    Xmm9,
    Xmm10,
    Xmm11,
    Xmm12,
    Xmm13,
    Xmm14,
    Xmm15,
}

/// The flags that are modelled: carry, zero, sign and overflow.
#[derive(Clone, Copy, Debug, PartialEq, Eq)]
pub enum FlagName {
    Cf,
    Zf,
    Sf,
    Of,
}

/// What an instruction reads or writes in the machine, memory aside.
#[derive(Clone, Copy, Debug, PartialEq, Eq)]
pub enum MachinePlace {
    Reg(Reg),
    Xmm(Xmm),
    Flag(FlagName),
}

/// What code reads or writes: a place of the machine, a block of memory, or a slot that was pushed, by their numbers.
#[derive(Clone, Copy, Debug, PartialEq, Eq)]
pub enum Place {
    Reg(Reg),
    Xmm(Xmm),
    Flag(FlagName),
    Block(u32),
    Slot(u32),
}

impl From<MachinePlace> for Place {
    ghost use Rattle.std.specs.Prelude.{◌≡◌};
    ghost use Rattle.x64_syntax.specs.Places.{of_machine};

    ghost from_gives = { λ m p. p ≡ of_machine m };

    fn from(place: MachinePlace) -> Self {
        match place {
            MachinePlace::Reg(reg) => Place::Reg(reg),
            MachinePlace::Xmm(xmm) => Place::Xmm(xmm),
            MachinePlace::Flag(flag) => Place::Flag(flag),
        }
    }
}

impl Reg {
    /// Every general register, in order.
    pub const ALL: [Reg; 16] = [
        Reg::Rax,
        Reg::Rbx,
        Reg::Rcx,
        Reg::Rdx,
        Reg::Rsi,
        Reg::Rdi,
        Reg::Rbp,
        Reg::Rsp,
        Reg::R8,
        Reg::R9,
        Reg::R10,
        Reg::R11,
        Reg::R12,
        Reg::R13,
        Reg::R14,
        Reg::R15,
    ];

    /// The name in a source, as `rax`.
    pub fn name(self) -> &'static str
        ensures { result.now ≡ reg_name self }
    {
        match self {
            Reg::Rax => "rax",
            Reg::Rbx => "rbx",
            Reg::Rcx => "rcx",
            Reg::Rdx => "rdx",
            Reg::Rsi => "rsi",
            Reg::Rdi => "rdi",
            Reg::Rbp => "rbp",
            Reg::Rsp => "rsp",
            Reg::R8 => "r8",
            Reg::R9 => "r9",
            Reg::R10 => "r10",
            Reg::R11 => "r11",
            Reg::R12 => "r12",
            Reg::R13 => "r13",
            Reg::R14 => "r14",
            Reg::R15 => "r15",
        }
    }

    /// The name of its lower half, of 32 bits, as `eax`.
    pub fn low_name(self) -> &'static str
        ensures { result.now ≡ low_name self }
    {
        match self {
            Reg::Rax => "eax",
            Reg::Rbx => "ebx",
            Reg::Rcx => "ecx",
            Reg::Rdx => "edx",
            Reg::Rsi => "esi",
            Reg::Rdi => "edi",
            Reg::Rbp => "ebp",
            Reg::Rsp => "esp",
            Reg::R8 => "r8d",
            Reg::R9 => "r9d",
            Reg::R10 => "r10d",
            Reg::R11 => "r11d",
            Reg::R12 => "r12d",
            Reg::R13 => "r13d",
            Reg::R14 => "r14d",
            Reg::R15 => "r15d",
        }
    }

    /// The number, from 0 to 15.
    pub fn number(self) -> usize
        ensures { result ≡ reg_number self }
    {
        self as usize
    }
}

impl Xmm {
    /// Every xmm register, in order.
    pub const ALL: [Xmm; 16] = [
        Xmm::Xmm0,
        Xmm::Xmm1,
        Xmm::Xmm2,
        Xmm::Xmm3,
        Xmm::Xmm4,
        Xmm::Xmm5,
        Xmm::Xmm6,
        Xmm::Xmm7,
        Xmm::Xmm8,
        Xmm::Xmm9,
        Xmm::Xmm10,
        Xmm::Xmm11,
        Xmm::Xmm12,
        Xmm::Xmm13,
        Xmm::Xmm14,
        Xmm::Xmm15,
    ];

    /// The name in a source, as `xmm0`.
    pub fn name(self) -> &'static str
        ensures { result.now ≡ xmm_name self }
    {
        match self {
            Xmm::Xmm0 => "xmm0",
            Xmm::Xmm1 => "xmm1",
            Xmm::Xmm2 => "xmm2",
            Xmm::Xmm3 => "xmm3",
            Xmm::Xmm4 => "xmm4",
            Xmm::Xmm5 => "xmm5",
            Xmm::Xmm6 => "xmm6",
            Xmm::Xmm7 => "xmm7",
            Xmm::Xmm8 => "xmm8",
            Xmm::Xmm9 => "xmm9",
            Xmm::Xmm10 => "xmm10",
            Xmm::Xmm11 => "xmm11",
            Xmm::Xmm12 => "xmm12",
            Xmm::Xmm13 => "xmm13",
            Xmm::Xmm14 => "xmm14",
            Xmm::Xmm15 => "xmm15",
        }
    }

    /// The number, from 0 to 15.
    pub fn number(self) -> usize
        ensures { result ≡ xmm_number self }
    {
        self as usize
    }
}

impl FlagName {
    /// Every flag, in order.
    pub const ALL: [FlagName; 4] = [FlagName::Cf, FlagName::Zf, FlagName::Sf, FlagName::Of];

    /// The name in a source, as `cf`.
    pub fn name(self) -> &'static str
        ensures { result.now ≡ flag_name self }
    {
        match self {
            FlagName::Cf => "cf",
            FlagName::Zf => "zf",
            FlagName::Sf => "sf",
            FlagName::Of => "of",
        }
    }

    /// The number, from 0 to 3.
    pub fn number(self) -> usize
        ensures { result ≡ flag_number self }
    {
        self as usize
    }
}

impl MachinePlace {
    /// The name in a source.
    pub fn name(self) -> &'static str
        ensures { result.now ≡ place_name self }
    {
        match self {
            MachinePlace::Reg(reg) => reg.name(),
            MachinePlace::Xmm(xmm) => xmm.name(),
            MachinePlace::Flag(flag) => flag.name(),
        }
    }
}
