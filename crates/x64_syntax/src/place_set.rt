// Sets of places.

ghost use Rattle.std.specs.Prelude.{◌≡◌, ◌<◌, ◌||◌, false};
ghost use Rattle.x64_syntax.specs.declared.places.MachinePlace.{MachinePlace as APlace};
ghost use Rattle.x64_syntax.specs.Places.{place_eq};
ghost use Rattle.x64_syntax.specs.PlaceSets.{has_bit, in_set};

use crate::places::MachinePlace;

/// A set of registers, xmm registers and flags. Bit k stands for the one of number k.
#[derive(Clone, Copy, Debug, PartialEq, Eq)]
pub struct PlaceSet {
    pub regs: u16,
    pub xmms: u16,
    pub flags: u8,
}

impl PlaceSet {
    /// The set of no places.
    pub const EMPTY: PlaceSet = PlaceSet {
        regs: 0,
        xmms: 0,
        flags: 0,
    };

    /// Whether a place is in the set.
    #[tactic(auto, using(crate::proofs::PlaceLemmas::reg_number_lt, crate::proofs::PlaceLemmas::xmm_number_lt, crate::proofs::PlaceLemmas::flag_number_lt))]
    pub fn contains(self, place: MachinePlace) -> bool
        ensures { result ≡ in_set self place }
    {
        match place {
            MachinePlace::Reg(reg) => has_bit(self.regs, reg.number()),
            MachinePlace::Xmm(xmm) => has_bit(self.xmms, xmm.number()),
            MachinePlace::Flag(flag) => has_bit(u16::from(self.flags), flag.number()),
        }
    }

    /// The set with one more place.
    #[tactic(auto, using(crate::proofs::PlaceLemmas::reg_number_lt, crate::proofs::PlaceLemmas::xmm_number_lt, crate::proofs::PlaceLemmas::flag_number_lt))]
    pub fn with(self, place: MachinePlace) -> PlaceSet
        ensures { (p : APlace) → in_set result p ≡ (place_eq p place || in_set self p) }
    {
        let mut set = self;
        match place {
            MachinePlace::Reg(reg) => set.regs |= 1 << reg.number(),
            MachinePlace::Xmm(xmm) => set.xmms |= 1 << xmm.number(),
            MachinePlace::Flag(flag) => set.flags |= 1 << flag.number(),
        }
        set
    }
}

fn has_bit(bits: u16, number: usize) -> bool
    requires { number < 16 }
    ensures { result ≡ has_bit bits number }
{
    bits >> number & 1 == 1
}
