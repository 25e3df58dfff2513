//! What terms are worth where their free names have values.
//!
//! `value` is exact (`specs/Evaluation.antt`): it evaluates all parts from left to right, within a million nodes and whole
//! numbers of 128 bits. What it gives is what the term means (`evaluation_is_value`).
#![tactic(auto)]

mod arrays;
mod evaluation;
mod fault;
mod known;
mod laws;
mod literals;
mod operators;
mod parts;

pub use evaluation::value;
pub use fault::ValueFault;
pub use laws::evaluation_is_value;
