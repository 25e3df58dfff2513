//! Declarations from tokens: exactly those that the grammar spells.
//!
//! `read_decls` is exact: the declarations that the tokens spell, all of them, or the place behind those so far where
//! no declaration stands. `declared_once`: no declaration's spelling is a front of another's, and no tokens spell two
//! lists of declarations, stop at two places, or do both.
#![tactic(auto)]

mod arguments;
mod clauses;
mod declarations;
mod front;
mod lemma_statements;
mod parameters;
mod part;
mod sources;
mod statements;
mod words;

pub use sources::{ParseFault, declared_once, read_decls};
