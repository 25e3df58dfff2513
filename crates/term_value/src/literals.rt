// What literals are as numbers, truths, words and arrays.

ghost use Rattle.std.specs.Prelude.{◌≡◌, ◌+◌, ◌-◌, ◌*◌, ◌%◌, pos, map, IfOk};
ghost use Rattle.x64_syntax.specs.Numbers.{word_of};
ghost use Rattle.x64_syntax.specs.declared.type_words.Sort.TheVariants as sort;
ghost use Rattle.term_core.specs.Literals.{literal_value, val_sort};
ghost use Rattle.term_core.specs.Value.{Whole, Word, Wide, Array, T, whole, truth, word, wide, array, cast};
ghost use Rattle.term_value.specs.Evaluation.{checked};
ghost use Rattle.term_value.specs.inner.Courses.{values_of};

use crate::fault::ValueFault;
use std::alloc::{AllocError, Global};
use term_core::Literal;

/// The whole number, and 0 where it is none.
pub(crate) fn whole(a: &Literal) -> i128
    ensures { result ≡ whole (literal_value a.now) }
{
    match a {
        Literal::Int(z) => *z,
        Literal::Bool(_) | Literal::W64(_) | Literal::W128(_) | Literal::Arr(_) => 0,
    }
}

/// The truth, and false where it is none.
pub(crate) fn truth(a: &Literal) -> bool
    ensures { result ≡ truth (literal_value a.now) }
{
    match a {
        Literal::Bool(b) => *b,
        Literal::Int(_) | Literal::W64(_) | Literal::W128(_) | Literal::Arr(_) => false,
    }
}

/// The word, and 0 where it is none.
pub(crate) fn word(a: &Literal) -> u64
    ensures { result ≡ word (literal_value a.now) }
{
    match a {
        Literal::W64(n) => *n,
        Literal::Int(_) | Literal::Bool(_) | Literal::W128(_) | Literal::Arr(_) => 0,
    }
}

/// The word of 128 bits, and 0 where it is none.
pub(crate) fn wide(a: &Literal) -> u128
    ensures { result ≡ wide (literal_value a.now) }
{
    match a {
        Literal::W128(n) => *n,
        Literal::Int(_) | Literal::Bool(_) | Literal::W64(_) | Literal::Arr(_) => 0,
    }
}

/// The words of the array, and none where it is none.
pub(crate) fn array(a: &Literal) -> &[u64]
    ensures { result.now ≡ array (literal_value a.now) }
{
    match a {
        Literal::Arr(words) => reduced(words.as_slice()),
        Literal::Int(_) | Literal::Bool(_) | Literal::W64(_) | Literal::W128(_) => &[],
    }
}

/// A whole number.
pub(crate) fn int(z: i128) -> Result<Literal, ValueFault>
    ensures { values_of result ≡ checked (Whole z) }
{
    Ok(Literal::Int(z))
}

/// A word.
pub(crate) fn as_word(n: u64) -> Literal
    ensures { literal_value result ≡ cast sort.W64 (Word n) }
{
    Literal::W64(n)
}

/// A word of 128 bits.
pub(crate) fn as_wide(n: u128) -> Literal
    ensures { literal_value result ≡ cast sort.W128 (Wide n) }
{
    Literal::W128(n)
}

// The words, each of which is below 2^64.
fn reduced(words: &[u64]) -> &[u64]
    ensures { result.now ≡ map (λ n. n % T) words.now }
{
    words
}

/// An array.
pub(crate) fn as_array(words: Vec<u64>) -> Literal
    ensures { literal_value result ≡ cast sort.Arr (Array words.items) }
{
    Literal::Arr(words)
}

/// A whole number modulo 2^64.
pub(crate) fn word_of(z: i128) -> u64
    ensures { result ≡ word_of z }
{
    z.rem_euclid(1 << 64) as u64
}

/// The same literal once more.
pub(crate) fn copy(alloc: Global, a: &Literal) -> Result<Literal, AllocError>
    ensures { IfOk result (λ r. literal_value r ≡ literal_value a.now) }
{
    match a {
        Literal::Int(z) => Ok(Literal::Int(*z)),
        Literal::Bool(b) => Ok(Literal::Bool(*b)),
        Literal::W64(n) => Ok(Literal::W64(*n)),
        Literal::W128(n) => Ok(Literal::W128(*n)),
        Literal::Arr(words) => Ok(Literal::Arr(words.to_vec(alloc)?)),
    }
}
