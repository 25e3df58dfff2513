// What each kind of declaration may name, and where.

ghost use Rattle.std.specs.Prelude.{◌≡◌};
ghost use Rattle.name_scopes.specs.Uses.{knows_places, may_name, is_called, before, alone, called, called_by_procedure, listed, accessed};

use crate::binding::Binding;
use crate::fault::ScopeFault;
use crate::globals::GlobalKind;
use crate::home::Home;

fn knows_places(home: Home) -> bool
    ensures { result ≡ knows_places home }
{
    match home {
        Home::Procedure | Home::Export => true,
        Home::Lemma(_) | Home::Function(_) => false,
    }
}

fn may_name(home: Home, kind: GlobalKind, number: usize) -> bool
    ensures { result ≡ may_name home kind number }
{
    match (home, kind) {
        (Home::Procedure, GlobalKind::Function) => true,
        (Home::Lemma(_), GlobalKind::Function) => true,
        (Home::Lemma(here), GlobalKind::Lemma) => number <= here,
        (Home::Function(here), GlobalKind::Function) => number < here,
        (Home::Export, GlobalKind::Procedure) => true,
        _ => false,
    }
}

fn is_called(kind: GlobalKind) -> bool
    ensures { result ≡ is_called kind }
{
    match kind {
        GlobalKind::Procedure | GlobalKind::Lemma => true,
        GlobalKind::Function => false,
    }
}

fn before(is_allowed: bool) -> Option<ScopeFault>
    ensures { result ≡ before is_allowed }
{
    if is_allowed {
        None
    } else {
        Some(ScopeFault::NotBefore)
    }
}

/// What is wrong with a name that stands alone in an expression.
pub(crate) fn alone(home: Home, binding: Binding) -> Option<ScopeFault>
    ensures { result ≡ alone home binding }
{
    match binding {
        Binding::Place => {
            if knows_places(home) {
                None
            } else {
                Some(ScopeFault::Unknown)
            }
        }
        Binding::Local => None,
        Binding::Global(global) => before(may_name(home, global.kind, global.number)),
        Binding::AllFlags | Binding::Nothing => Some(ScopeFault::Unknown),
    }
}

/// What is wrong with a name before a round bracket, or behind an export's `=`.
pub(crate) fn called(home: Home, binding: Binding) -> Option<ScopeFault>
    ensures { result ≡ called home binding }
{
    match binding {
        Binding::Global(global) => before(may_name(home, global.kind, global.number)),
        _ => Some(ScopeFault::Unknown),
    }
}

/// What is wrong with a name before the round bracket of a procedure's statement.
pub(crate) fn called_by_procedure(binding: Binding) -> Option<ScopeFault>
    ensures { result ≡ called_by_procedure binding }
{
    match binding {
        Binding::Global(global) => before(is_called(global.kind)),
        _ => Some(ScopeFault::Unknown),
    }
}

/// What is wrong with a name in `reads` or `modifies`.
pub(crate) fn listed(binding: Binding) -> Option<ScopeFault>
    ensures { result ≡ listed binding }
{
    match binding {
        Binding::Global(_) => Some(ScopeFault::NotBefore),
        Binding::Nothing => Some(ScopeFault::Unknown),
        Binding::Place | Binding::AllFlags | Binding::Local => None,
    }
}

/// What is wrong with a name before `[ ] @` or before `:=`.
pub(crate) fn accessed(binding: Binding) -> Option<ScopeFault>
    ensures { result ≡ accessed binding }
{
    match binding {
        Binding::AllFlags => Some(ScopeFault::Unknown),
        _ => listed(binding),
    }
}
