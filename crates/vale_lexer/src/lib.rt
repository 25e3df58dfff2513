//! The source language's tokens: one scan over the bytes.
//!
//! [`tokens`] is exact: the tokens of the definition, or the first place without one and its kind.
#![tactic(auto)]

mod class;
mod front;
mod number;
mod scan;

pub use scan::{LexFault, tokens};
