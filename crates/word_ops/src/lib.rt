//! Operations on words. Of 64 bits: sums with carry, differences with borrow, products, rotations and bytes
//! (`specs/Words.antt`). Of 128 bits: halves, sums, shifts and choices of four numbers of 32 bits or of sixteen bytes
//! (`specs/Words128.antt`). Each call is its formula over whole numbers.
#![tactic(auto)]

mod wide;

ghost use Rattle.std.specs.Prelude.{◌≡◌, ◌<◌};
ghost use Rattle.word_ops.specs.Words.{sum, carries, difference, borrows, upper, lower, rol, ror, bytes_of};

pub use wide::{
    bytes_left, bytes_right, high_word, lanes32_add, lanes32_left, lanes32_right, low_word,
    pair_words, shuffle_bytes, shuffle_dwords,
};

/// `a + b + c` modulo 2^64, and the carry.
pub fn add_carry(a: u64, b: u64, c: bool) -> (u64, bool)
    ensures word { result.0 ≡ sum a b c }
    ensures carry { result.1 ≡ carries a b c }
{
    let (partial, first) = a.overflowing_add(b);
    let (word, second) = partial.overflowing_add(u64::from(c));
    (word, first || second)
}

/// `a - b - c` modulo 2^64, and the borrow.
pub fn sub_borrow(a: u64, b: u64, c: bool) -> (u64, bool)
    ensures word { result.0 ≡ difference a b c }
    ensures borrow { result.1 ≡ borrows a b c }
{
    let (partial, first) = a.overflowing_sub(b);
    let (word, second) = partial.overflowing_sub(u64::from(c));
    (word, first || second)
}

/// The upper and the lower word of the product.
pub fn mul_wide(a: u64, b: u64) -> (u64, u64)
    ensures upper { result.0 ≡ upper a b }
    ensures lower { result.1 ≡ lower a b }
{
    let product = u128::from(a) * u128::from(b);
    ((product >> 64) as u64, (product % (1 << 64)) as u64)
}

/// The word rotated to the left.
pub fn rotate_left(a: u64, n: u8) -> u64
    requires { n < 64 }
    ensures { result ≡ rol a n }
{
    a.rotate_left(u32::from(n))
}

/// The word rotated to the right.
pub fn rotate_right(a: u64, n: u8) -> u64
    requires { n < 64 }
    ensures { result ≡ ror a n }
{
    a.rotate_right(u32::from(n))
}

/// The bytes, the lowest first.
pub fn le_bytes(a: u64) -> [u8; 8]
    ensures { result ≡ bytes_of a }
{
    a.to_le_bytes()
}
