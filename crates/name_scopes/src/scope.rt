// What is known of names where one stands.

ghost use Rattle.std.specs.Prelude.{◌≡◌};
ghost use Rattle.name_scopes.specs.Names.{is_place_name, own_name, bound_name, binding, new_name};
ghost use Rattle.name_scopes.specs.inner.Walks.{names, table_of};

use crate::binding::Binding;
use crate::fault::ScopeFault;
use crate::globals::Globals;
use crate::home::Home;
use crate::locals::Locals;
use x64_syntax::{flag_named, is_reserved, reg_named, xmm_named};

/// The names of all files, and the declaration that one is in.
#[derive(Debug, Drop)]
pub(crate) struct Scope<'s, 'a> {
    pub(crate) globals: &'s Globals<'a>,
    pub(crate) home: Home,
}

fn is_place(name: &[u8]) -> bool
    ensures { result ≡ is_place_name name.now }
{
    reg_named(name).is_some() || (xmm_named(name).is_some() || flag_named(name).is_some())
}

/// What is wrong with a new name, where it is taken already or not.
pub(crate) fn new_name(is_taken: bool, name: &[u8]) -> Option<ScopeFault>
    ensures { result ≡ new_name is_taken name.now }
{
    if is_reserved(name) {
        return Some(ScopeFault::Reserved);
    }
    if is_taken {
        Some(ScopeFault::Twice)
    } else {
        None
    }
}

impl<'s, 'a> Scope<'s, 'a> {
    /// What a name is bound to.
    pub(crate) fn binding(&self, locals: &Locals<'_>, name: &[u8]) -> Binding
        ensures { result ≡ binding (table_of self.now.globals.now) (names locals.now).known name.now }
    {
        if is_place(name) {
            return Binding::Place;
        }
        if name == b"flags".as_slice() {
            return Binding::AllFlags;
        }
        if locals.is_known(name) {
            return Binding::Local;
        }
        match self.globals.get(name) {
            Some(global) => Binding::Global(global),
            None => Binding::Nothing,
        }
    }

    /// What is wrong with the name of a parameter or a `ghost` variable.
    pub(crate) fn own_name(&self, locals: &Locals<'_>, name: &[u8]) -> Option<ScopeFault>
        ensures { result ≡ own_name (table_of self.now.globals.now) (names locals.now) name.now }
    {
        let is_taken = locals.is_declared(name)
            || (locals.is_known(name) || self.globals.get(name).is_some());
        new_name(is_taken, name)
    }

    /// What is wrong with a name that `forall` binds.
    pub(crate) fn bound_name(&self, locals: &Locals<'_>, name: &[u8]) -> Option<ScopeFault>
        ensures { result ≡ bound_name (table_of self.now.globals.now) (names locals.now).known name.now }
    {
        new_name(
            locals.is_known(name) || self.globals.get(name).is_some(),
            name,
        )
    }
}
