// The values of places at versions, as terms.

ghost use Rattle.std.specs.Prelude.{◌≡◌, IfOk};
ghost use Rattle.term_core.specs.Terms.{tree};
ghost use Rattle.x64_meaning.specs.State.{place_sort};
ghost use Rattle.x64_meaning.specs.Condition.{version_name, version};

use std::alloc::{AllocError as NoMemory, Global};
use term_core::Term;
use x64_syntax::{MachinePlace, Sort, Text, push_number};

/// The sort of what a place holds. A flag is a whole number: 0, 1, or 2 where it is undefined.
pub fn place_sort(place: MachinePlace) -> Sort
    ensures { result ≡ place_sort place }
{
    match place {
        MachinePlace::Reg(_) => Sort::W64,
        MachinePlace::Xmm(_) => Sort::W128,
        MachinePlace::Flag(_) => Sort::Int,
    }
}

/// The name of a place's value at a version, as `rax.0`.
pub fn version_name(alloc: Global, place: MachinePlace, number: u64) -> Result<Text, NoMemory>
    ensures { IfOk result (λ t. t ≡ version_name place number) }
{
    let mut name = Vec::from_slice(alloc, place.name().as_bytes())?;
    name.push(b'.')?;
    push_number(&mut name, number)?;
    Ok(Text::from_vec(name))
}

/// A place's value at a version, as a term.
pub fn version(alloc: Global, place: MachinePlace, number: u64) -> Result<Term, NoMemory>
    ensures { IfOk result (λ t. tree t ≡ version place number) }
{
    let name = version_name(alloc, place, number)?;
    Ok(Term::Name(name, place_sort(place)))
}
