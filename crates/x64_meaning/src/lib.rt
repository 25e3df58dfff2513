//! What instructions do: the states of the machine, the table of instructions, runs of flat code, and what it means
//! that code meets a contract.
//!
//! `step_ins` does exactly what the table gives (`does`, in `specs/Run.antt`), with what an observer sees, for every
//! form; after a fault the machine is as before. `straight_code`: code without
//! branches ends, and an assignment makes all its equations true and names its end; where its promises follow from its
//! equations it meets its contract, and any two of its runs look alike to an observer. `forms_as_in_the_table`: what
//! each instruction, xmm forms too, reads and writes by its form is what its equations take and give. `foresee`:
//! exactly what a step would show, or its fault. `is_a_state`: every machine is a state. `open_flag`, `holds`: exactly
//! the flag that a condition lacks, and whether it holds. `version` is exactly the term of a place's value.
#![tactic(auto)]

mod arithmetic;
mod laws;
mod machine;
mod memory;
mod step;
mod versions;
mod wide;

pub use laws::{forms_as_in_the_table, names_are_read, straight_code};
pub use machine::{Fault, Flag, Machine, Obs, Seen};
pub use step::{foresee, holds, open_flag, step_ins};
pub use versions::{place_sort, version, version_name};
