//! The sources that are built so far: procedures without branches.
//!
//! `straight_line` is exact: the registers, instructions, promise and names of the form (`specs/Form.antt`), or that
//! the trees aren't of it; and what holds of each such procedure (`IsStraight`).
#![tactic(auto)]

mod clauses;
mod form;
mod sources;
mod statements;

pub use form::{Promise, StraightLine};
pub use sources::straight_line;
