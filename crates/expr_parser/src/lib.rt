//! Expressions from tokens: exactly those that the grammar spells.
//!
//! `read_expr` is exact: a tree that the tokens spell with a depth of at most 200, or that there is none.
#![tactic(auto)]

mod lists;
mod nodes;
mod parser;

pub use lists::{after, name_of, spot_of};
pub use parser::{read_expr, read_front};
