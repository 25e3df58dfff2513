// The names of a declaration's own.

ghost use Rattle.std.specs.Prelude.{◌≡◌, ◌++◌, ◌∷◌, [], length, take, false, OnOk};
ghost use Rattle.name_scopes.specs.Names.{has, no_names, with_name};
ghost use Rattle.name_scopes.specs.inner.Walks.{names};

use crate::text_set::TextSet;
use std::alloc::{AllocError as NoMemory, Global};

/// The parameters and `ghost` variables so far, and those names that are known here, in the order in which they came.
#[derive(Debug, Drop)]
pub(crate) struct Locals<'a> {
    declared: TextSet<'a>,
    known: TextSet<'a>,
}

impl<'a> Locals<'a> {
    pub(crate) fn new(alloc: Global) -> Self
        ensures { names result ≡ no_names }
    {
        Locals {
            declared: TextSet::new(alloc),
            known: TextSet::new(alloc),
        }
    }

    pub(crate) fn is_declared(&self, name: &[u8]) -> bool
        ensures { result ≡ has (names self.now).declared name.now }
    {
        self.declared.has(name)
    }

    pub(crate) fn is_known(&self, name: &[u8]) -> bool
        ensures { result ≡ has (names self.now).known name.now }
    {
        self.known.has(name)
    }

    /// How many names are known.
    pub(crate) fn count(&self) -> usize
        ensures { result ≡ length (names self.now).known }
    {
        self.known.len()
    }

    /// Makes a new name known.
    pub(crate) fn bind(&mut self, name: &'a [u8]) -> Result<(), NoMemory>
        requires { has (names self.old).known name.now ≡ false }
        ensures { OnOk result (names self.new ≡ record { declared = (names self.old).declared; known = (names self.old).known ++ name.now ∷ [] }) }
    {
        self.known.add(name)?;
        Ok(())
    }

    /// Declares a new name, which is known from now on.
    pub(crate) fn declare(&mut self, name: &'a [u8]) -> Result<(), NoMemory>
        requires declared { has (names self.old).declared name.now ≡ false }
        requires known { has (names self.old).known name.now ≡ false }
        ensures { OnOk result (names self.new ≡ with_name (names self.old) name.now) }
    {
        self.declared.add(name)?;
        self.known.add(name)?;
        Ok(())
    }

    /// Knows only the first so many names from now on.
    pub(crate) fn cut(&mut self, count: usize)
        ensures { names self.new ≡ record { declared = (names self.old).declared; known = take count (names self.old).known } }
    {
        self.known.cut(count);
    }
}
