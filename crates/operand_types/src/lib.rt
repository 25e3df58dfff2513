//! Types: what the expressions of sources and certificates are as terms.
//!
//! `term_in` is exact: it gives the term that `specs/TermIn.antt` finds an expression to be, over names with their sorts
//! and over functions, and refuses exactly the expressions that are no such term.
#![tactic(auto)]

mod bound;
mod fault;
mod few;
mod functions;
mod names;
mod operations;
mod parts;
mod terms;

pub use fault::TermFault;
pub use names::Names;
pub use terms::term_in;
