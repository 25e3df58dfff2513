// Numbers of terms, and lists of them.

ghost use Rattle.std.specs.Prelude.{◌≡◌, ◌<◌, ◌^◌, ◌++◌, ◌∷◌, [], IfOk, OnOk};

use std::alloc::{AllocError as NoMemory, Global};
use std::hash::{Hash, Hasher};
use std::marker::Model;

/// The number of a term: its place in a store. Contracts see it as a plain number.
#[derive(Clone, Copy, Debug, PartialEq, Eq, PartialOrd, Ord, Hash)]
pub struct TermId {
    place: u32,
}

impl Model for TermId {
    ghost use Rattle.std.specs.Prelude.{ℕ};
    ghost use Rattle.std.specs.Coded.{coded_ℕ};

    ghost Value = { ℕ };

    ghost coded = { coded_ℕ };

    ghost view = { λ id. id.place };

    ghost inverse = { λ n. record { place = n } };
}

impl TermId {
    /// The number of a place: a store has no more than 2^32 terms.
    pub(crate) fn of_place(place: usize) -> Result<TermId, NoMemory>
        ensures { IfOk result (λ id. id ≡ place) }
    {
        match u32::try_from(place) {
            Ok(place) => Ok(TermId { place }),
            Err(_) => Err(NoMemory),
        }
    }

    pub(crate) fn place(self) -> usize
        ensures same { result ≡ self }
        ensures small { result < 2 ^ 32 }
    {
        self.place as usize
    }
}

/// The numbers of a call's arguments, which contracts see as their list.
#[derive(Debug, Drop)]
pub struct Parts {
    ids: Vec<TermId>,
}

impl Model for Parts {
    ghost use Rattle.std.specs.Prelude.{List, ℕ};

    ghost Value = { List ℕ };

    ghost view = { λ parts. parts.ids.items };
}

impl Parts {
    pub fn new(alloc: Global) -> Self
        ensures { result ≡ [] }
    {
        Parts {
            ids: Vec::new(alloc),
        }
    }

    pub fn from_slice(alloc: Global, ids: &[TermId]) -> Result<Self, NoMemory>
        ensures { IfOk result (λ parts. parts ≡ ids.now) }
    {
        Ok(Parts {
            ids: Vec::from_slice(alloc, ids)?,
        })
    }

    pub fn as_slice(&self) -> &[TermId]
        ensures { result.now ≡ self.now }
    {
        &self.ids
    }

    pub fn push(&mut self, id: TermId) -> Result<(), NoMemory>
        ensures { OnOk result (self.new ≡ self.old ++ id ∷ []) }
    {
        self.ids.push(id)?;
        Ok(())
    }
}

impl PartialEq for Parts {
    ghost use Rattle.std.proofs.Common.{rules};
    ghost use Rattle.std.specs.Str.{bytes_eq};
    ghost use Rattle.std.specs.Cmp.Rules.{comparing};

    ghost eq = { λ a b. bytes_eq a b };

    ghost laws = { Prim.search (comparing, rules) };

    fn eq(&self, other: &Parts) -> bool {
        self.as_slice() == other.as_slice()
    }
}

impl Eq for Parts {
    ghost use Rattle.std.proofs.Common.{rules};
    ghost use Rattle.std.specs.Cmp.Rules.{comparing};

    ghost laws = { Prim.search (comparing, rules) };
}

impl Hash for Parts {
    ghost use Rattle.std.proofs.Common.{rules};
    ghost use Rattle.std.specs.Cmp.Rules.{hashing};
    ghost use Rattle.std.specs.Hash as fed;

    ghost hash_input = { λ parts. fed.slice fed.u32 parts };

    ghost respects_eq = { Prim.search (hashing, rules) };

    fn hash<H: Hasher>(&self, state: &mut H) {
        self.as_slice().hash(state);
    }
}
