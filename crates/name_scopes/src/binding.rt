// What a name is bound to.

use crate::globals::GlobalDecl;

/// What a name is bound to, where it stands.
#[derive(Clone, Copy, Debug, PartialEq, Eq)]
pub(crate) enum Binding {
    /// A register, an xmm register or a flag.
    Place,
    /// `flags`
    AllFlags,
    /// A parameter, a `ghost` variable or a name that `forall` binds.
    Local,
    Global(GlobalDecl),
    Nothing,
}
