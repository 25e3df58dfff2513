//! Assembler text in GAS syntax: printing and reading it.
//!
//! [`print`] writes the one text of a program (`specs/Gas.antt`). [`read`] is exact: the program whose text it is, or
//! the first bad line, or the line of the first jump that strays (`specs/Text.antt`). [`printed_is_read`]: what is
//! printed reads as that program and as nothing else. [`one_text`]: no program has two texts, and no text two programs.
//! [`one_fault`]: a text has one fault at most. [`line_of`] is exactly the line of an item.
#![tactic(auto)]

mod apart;
mod fault;
mod laws;
mod printer;
mod reader;
mod text;

pub use fault::AsmFault;
pub use laws::{one_fault, one_text, printed_is_read};
pub use printer::print;
pub use text::{line_of, read};
