//! Terms put for the free variables of terms, free names, sizes, and calls of functions unfolded.
//!
//! `copy`, `size`, `free_names`, `substitute` and `unfold` are exact (`specs/Sizes.antt`, `Free.antt`,
//! `Substituted.antt`, `Unfolded.antt`). `values_agree`: a term's value depends on its free variables alone.
//! `substitution_keeps_values` and `unfolding_keeps_values`: where no free name of what is put becomes bound, values stay.
//! `substitution_keeps_sorts` and `unfolding_keeps_sorts`: so do sorts.
#![tactic(auto)]

mod copies;
mod free;
mod images;
mod laws;
mod parts;
mod sizes;
mod substitution;
mod unfolding;

pub use copies::copy;
pub use free::free_names;
pub use laws::{
    functions_mean, substitution_keeps_sorts, substitution_keeps_values, unfolding_keeps_sorts,
    unfolding_keeps_values, values_agree,
};
pub use sizes::size;
pub use substitution::substitute;
pub use unfolding::unfold;
