// Flat code.

use crate::conditions::Cond;
use crate::instructions::Ins;
use crate::text::Text;

/// One item of flat code.
#[derive(Debug, Drop, PartialEq, Eq)]
pub enum Item {
    Ins(Ins),
    Label(u32),
    Jmp(u32),
    Jcc(Cond, u32),
    Ret,
    /// The beginning of an exported piece, under its name.
    Entry(Text),
}
