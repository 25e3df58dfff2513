// Places in sources.

/// A place in a source.
#[derive(Clone, Copy, Debug, PartialEq, Eq)]
pub struct Spot {
    /// The file's number in the order of the command's words, from 0.
    pub file: u32,
    /// The offset in bytes.
    pub at: u32,
}
