//! Terms by number: a store in which equal terms have one number, and share their parts.
//!
//! Contracts say what a call gives over the trees that numbers stand for (`specs/Numbers.antt`): `make`, `put`, `tree`,
//! `size`, `depth` (`specs/Depths.antt`), `sort`, `is_free`, `has_free_names` (`specs/Free.antt`), `replace`, `substitute`
//! (`specs/Changes.antt`). Equal terms have equal numbers, and only they (`distinct`). Earlier numbers keep their terms,
//! after NoMemory too (`Grows`). A store has at most 2^32 terms; one more is NoMemory.
//!
//! Only `put` and `tree` recurse, as boxed terms do where they are dropped; the others keep a list of what is left to do,
//! and no depth of a term fills the stack. One change of a term goes to each shared node at most once.
//!
//! A node is found by a table over SipHash-1-3 whose keys are fixed, since no call is handed a source of seeds. No
//! arithmetic is known that finds nodes which collide there, only trial: whoever makes n nodes stand in one place of a
//! table that tells places apart by k bits (those of its index and tag) has to try about 2^k hashes for each. A look-up
//! among them compares up to n nodes, so at worst to make n nodes is quadratic in n. Nodes that differ in operators or
//! sorts alone have one hash: at most 23. What a walk remembers is found by the usual hash, since its keys are the store's
//! own small numbers.
#![tactic(auto)]

mod boxes;
mod change;
mod changed_node;
mod facts;
mod free;
mod free_names;
mod node;
mod number;
mod parts;
mod replacing;
mod sorts;
mod store;

pub use node::Node;
pub use number::{Parts, TermId};
pub use store::TermStore;
