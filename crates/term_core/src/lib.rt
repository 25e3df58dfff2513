//! Terms: the formulas that hypotheses and goals are made of, and what they are worth.
//!
//! `same`, `sort_of`, `operator_of` and the sorts of operators (`result`, `specs/Operators.antt`) are exact;
//! `specs/Value.antt` says what a term is worth and when a sequent is true, `specs/Meaning.antt` what functions mean.
//! `print_term` writes exactly the text of `specs/Printed.antt`, which tells terms apart (`printing_tells_terms_apart`).
#![tactic(auto)]

mod fitting;
mod functions;
mod laws;
mod literal;
mod operator;
mod printing;
mod rules;
mod scope;
mod sorted;
mod term;

pub use fitting::fits;
pub use functions::{AddFunFault, BrokenRule, Fun, Funs, Variable};
pub use laws::printing_tells_terms_apart;
pub use literal::{Entry, Literal, value_of};
pub use operator::{BinOp, CountedOp, Operator, UnOp, operator_of};
pub use printing::print_term;
pub use rules::broken_rule;
pub use scope::{Scope, knows_free};
pub use term::{Sequent, Term, same, sort_of};
