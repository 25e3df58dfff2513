//! Products of polynomials modulo 2.

ghost use Rattle.std.specs.Prelude.{◌≡◌};
ghost use Rattle.aes_words.specs.Rounds.{carryless};

/// The product of two words as polynomials modulo 2.
pub fn clmul64(a: u64, b: u64) -> u128
    ensures { result ≡ carryless a b }
{
    let mut product = 0;
    for i in 0..u64::BITS {
        if (a >> i) & 1 == 1 {
            product ^= u128::from(b) << i;
        }
    }
    product
}
