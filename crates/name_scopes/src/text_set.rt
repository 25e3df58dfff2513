// Sets of names, which are borrowed from the declarations.

ghost use Rattle.std.specs.Prelude.{◌≡◌, ◌==◌, ◌++◌, ◌∷◌, [], length, take, false, OnOk};
ghost use Rattle.name_scopes.specs.Names.{has};

use indexmap::IndexSet;
use std::alloc::{AllocError as NoMemory, Global};
use std::marker::Model;

/// Names in the order in which they came, each once. Contracts see the list of their texts.
#[derive(Debug, Drop)]
pub(crate) struct TextSet<'a> {
    names: IndexSet<&'a [u8]>,
}

impl<'a> Model for TextSet<'a> {
    ghost use Rattle.std.specs.Prelude.{map};
    ghost use Rattle.name_scopes.specs.Names.{Texts};

    ghost Value = { Texts };

    ghost view = { λ s. map (λ name. name.now) s.names.keys };
}

impl<'a> TextSet<'a> {
    pub(crate) fn new(alloc: Global) -> Self
        ensures { result ≡ [] }
    {
        TextSet {
            names: IndexSet::new(alloc),
        }
    }

    pub(crate) fn has(&self, name: &[u8]) -> bool
        ensures { result ≡ has self.now name.now }
    {
        self.names.contains(name)
    }

    pub(crate) fn len(&self) -> usize
        ensures { result ≡ length self.now }
    {
        self.names.len()
    }

    /// Adds a new name.
    pub(crate) fn add(&mut self, name: &'a [u8]) -> Result<(), NoMemory>
        requires { has self.old name.now ≡ false }
        ensures { OnOk result (self.new ≡ self.old ++ name.now ∷ []) }
    {
        self.names.insert(name)?;
        Ok(())
    }

    /// Keeps the first so many names.
    pub(crate) fn cut(&mut self, count: usize)
        ensures { self.new ≡ take count self.old }
    {
        self.names.truncate(count);
    }
}
