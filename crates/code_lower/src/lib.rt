//! Structured code: its runs in which each access stays in the block that its operand names, and its lowering to flat
//! items, which keeps those runs. The program lowers code without branches so far.
//!
//! `lower` gives exactly the items of its code (`specs/Lowered.antt`), and `labels_fit` tells whether its labels have
//! 32 bits. `lowering_keeps`: the items end as a guarded run of their code ends, and, where none faults, only where one
//! ends (`specs/Guarded.antt`, `Keeps.antt`). `more_turns`: a greater bound changes no run that ended. `named_blocks`:
//! of blocks that lie apart, one holds an access. `lowered_is_a_program`: exports one after another are a program.
#![tactic(auto)]

mod laws;
mod lowering;

pub use laws::{lowered_is_a_program, lowering_keeps, more_turns, named_blocks};
pub use lowering::{labels_fit, lower};
