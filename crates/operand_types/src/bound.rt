// The names that `forall` binds around a place.

ghost use Rattle.std.specs.Prelude.{◌≡◌};
ghost use Rattle.name_scopes.specs.Names.{has};
ghost use Rattle.operand_types.specs.inner.Walks.{texts};

/// The names, the innermost first.
#[derive(Drop)]
pub(crate) enum Bound<'a> {
    Nothing,
    Name(&'a [u8], &'a Bound<'a>),
}

impl<'a> Bound<'a> {
    /// Whether a name is one of them.
    #[tactic(auto, using(crate::proofs::Binding::texts_name))]
    pub(crate) fn has(&self, name: &[u8]) -> bool
        ensures { result ≡ has (texts self.now) name.now }
    {
        match self {
            Bound::Nothing => false,
            Bound::Name(inner, outer) => name == *inner || outer.has(name),
        }
    }
}
