// Why a term isn't valued.

/// Why a term isn't valued.
#[derive(Clone, Copy, Debug, PartialEq, Eq, Drop)]
pub enum ValueFault {
    /// A free name has no entry. This is looked at first.
    Unbound,
    /// More than 1,000,000 nodes would be evaluated. Each instance of a quantifier and each turn of a recursion counts
    /// its nodes again.
    Long,
    /// A whole number would have more than 128 bits.
    TooWide,
    /// Memory ran out.
    NoMemory,
}
