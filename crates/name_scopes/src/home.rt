// The declaration that a name stands in.

/// A kind of declaration, with its number where it counts which others stand before it.
#[derive(Clone, Copy, Debug, PartialEq, Eq)]
pub(crate) enum Home {
    Procedure,
    Lemma(usize),
    Function(usize),
    /// An export's procedure and its arguments.
    Export,
}
