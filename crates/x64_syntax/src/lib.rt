//! The machine's registers, operands, instructions and items, and the names that a source may not give to its own
//! things. Everything above speaks of code in these types.
//!
//! Each table is text in `specs/` (`Operations`, `Places`, `Tables`), and the code's is proved equal to it. Looking a
//! name up is exact: `reg_named`, `low_named`, `xmm_named`, `keyword_named`, `type_word_named`, `built_in_named`, `operation_named`,
//! `gas_named`; so are `is_name`, `is_reserved`, `is_export_name`, `PlaceSet::contains` and `with`. `ins_ok`,
//! `reads_of` and `writes_of` are exactly the columns of the table of forms, for every form
//! (`specs/Instructions.antt`). `program_ok` is exactly its five points (`specs/Programs.antt`), `code_ok` its four
//! (`specs/Code.antt`). `stray_jump` gives the first jump that leaves its piece. `read_number` reads exactly the
//! decimal numbers below 2^64 that are printed.
#![tactic(auto)]

mod built_in;
mod code;
mod conditions;
mod forms;
mod instructions;
mod items;
mod keywords;
mod laws;
mod names;
mod operands;
mod operations;
mod place_set;
mod places;
mod program;
mod text;
mod type_words;
mod words;

pub use built_in::{BuiltIn, built_in_named};
pub use code::{Code, Node, code_ok};
pub use conditions::{Cmp, Cond};
pub use forms::{FormFault, ins_ok, reads_of, writes_of};
pub use instructions::{AluOp, CarryOp, Ins, OneOp, ShiftOp, XBinOp, XShiftOp};
pub use items::Item;
pub use keywords::{KEYWORDS, Keyword, keyword_named};
pub use laws::{lists_are_whole, names_are_told_apart};
pub use names::{Named, flag_named, from_name, low_named, reg_named, xmm_named};
pub use operands::{Mem, Opr};
pub use operations::{Operation, gas_named, operation_named};
pub use place_set::PlaceSet;
pub use places::{FlagName, MachinePlace, Place, Reg, Xmm};
pub use program::{is_item, program_ok, stray_jump};
pub use text::{Text, push, push_number, read_number};
pub use type_words::{Abi, Kind, Sort, TypeWord, type_word_named};
pub use words::{is_digit, is_export_name, is_name, is_name_part, is_reserved};
