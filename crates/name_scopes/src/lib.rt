//! Scopes: each name of a source is bound by the rules, or the first fault is told.
//!
//! `resolve` is exact: it gives the declarations with what the names of all files stand for, where `first_fault`
//! (`specs/Sources.antt`) finds no fault, and else exactly the fault that this definition finds: the first in the order of
//! the tokens, with the declaration that it lies in. `names_are_bound` is the law that the layers above stand on: each
//! declaration is without a fault, and what names stand for.
#![tactic(auto)]

mod binding;
mod clauses;
mod declarations;
mod expressions;
mod fault;
mod globals;
mod home;
mod laws;
mod lemma_statements;
mod locals;
mod parameters;
mod scope;
mod sources;
mod statements;
mod text_set;
mod uses;

pub use fault::ScopeFault;
pub use globals::{GlobalDecl, GlobalKind};
pub use laws::names_are_bound;
pub use sources::{Scoped, resolve};
