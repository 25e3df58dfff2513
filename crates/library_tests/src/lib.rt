//! Tests of what the libraries answer where neither a clause nor a case says it: one happy path for calls that take
//! memory and that no case makes, edges of words and blocks, an enciphered block, files and streams of the system,
//! places in trees, and deep and large terms by number.
#![tactic(auto)]

#[cfg(test)]
mod aes;
#[cfg(test)]
mod blocks;
#[cfg(test)]
mod listings;
#[cfg(test)]
mod names;
#[cfg(test)]
mod outside;
#[cfg(test)]
mod places_in_trees;
#[cfg(test)]
mod printing;
#[cfg(test)]
mod shared_terms;
#[cfg(test)]
mod terms;
#[cfg(test)]
mod words;
