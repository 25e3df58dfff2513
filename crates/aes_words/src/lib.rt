//! Rounds of AES and products without carries, on words.
//!
//! `sub_byte`, `aes_round`, `aes_last` and `clmul64` are exactly what FIPS 197 and Intel's manual define
//! (`specs/Polynomials.antt`, `specs/Rounds.antt`). The definition of the S-box speaks of an inverse in GF(2^8); the
//! code has a table, which is proved equal to it for all 256 bytes. `inverses` says that every byte but 0 has exactly
//! one inverse.
#![tactic(auto)]

ghost use Rattle.std.specs.Prelude.{◌≡◌, ◌<◌, ℕ};
ghost use Rattle.aes_words.specs.Polynomials.{times, inverse};

mod products;
mod rounds;
mod s_box;

pub use products::clmul64;
pub use rounds::{aes_last, aes_round};
pub use s_box::sub_byte;

/// Every byte but 0 has an inverse, and no other one.
pub fn inverses()
    ensures are_inverse { (y : ℕ) → 0 < y → y < 256 → times y (inverse y) ≡ 1 }
    ensures alone { (y z : ℕ) → y < 256 → z < 256 → times y z ≡ 1 → z ≡ inverse y }
{}
