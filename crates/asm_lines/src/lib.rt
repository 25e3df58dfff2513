//! Lines of code as text: the operands of each instruction, and how items are listed.
//!
//! `operands`, `operation`, `instruction` and `mnemonic` are exact (`specs/Operands.antt`, `Lines.antt`): `instruction`
//! gives an instruction exactly where it has that operation and these operands. `list_item` writes exactly the listing
//! (`specs/Listing.antt`).
#![tactic(auto)]

mod forms;
mod lines;
mod listing;

pub use forms::{Part, Parts, instruction, operands, operation};
pub use lines::{Syntax, cond_name, cond_named, mnemonic};
pub use listing::list_item;
