// Words, bytes and halves of words at places of arrays.

ghost use Rattle.std.specs.Prelude.{◌≡◌, ◌<◌, ◌/◌, ◌%◌, ◌^◌, slice_index, slice_set};
ghost use Rattle.term_core.specs.Literals.{literal_value};
ghost use Rattle.term_core.specs.Value.{Array, array, word_at, byte_at, dword_at, put_at, with_half, put_dword_at, put_value, put_dword_value};
ghost use Rattle.term_value.specs.inner.Courses.{natural};

use crate::literals::{as_array, whole, word};
use std::alloc::Global;
use term_core::Literal;
use word_ops::le_bytes;

// The number where it isn't negative.
fn natural(i: i128) -> Option<u128>
    ensures { result ≡ natural i }
{
    if i < 0 { None } else { Some(i as u128) }
}

// The word with that number, and 0 outside.
fn nth(words: &[u64], k: u128) -> u64
    ensures { result ≡ slice_index words.now k }
{
    if k < words.len() as u128 {
        words[k as usize]
    } else {
        0
    }
}

/// Word i, and 0 outside.
pub(crate) fn word_at(words: &[u64], i: i128) -> u64
    ensures { result ≡ word_at words.now i }
{
    match natural(i) {
        Some(i) => nth(words, i),
        None => 0,
    }
}

/// Byte j of the words, and 0 outside.
pub(crate) fn byte_at(words: &[u64], j: i128) -> u64
    ensures { result ≡ byte_at words.now j }
{
    match natural(j) {
        Some(j) => u64::from(le_bytes(nth(words, j / 8))[(j % 8) as usize]),
        None => 0,
    }
}

// The lower half of a word, or the upper one.
fn half(n: u64, which: u128) -> u64
    requires { which < 2 }
    ensures { result ≡ (n / (2 ^ 32) ^ which) % 2 ^ 32 }
{
    if which == 0 { n % (1 << 32) } else { n >> 32 }
}

/// Half j of the words, and 0 outside.
pub(crate) fn dword_at(words: &[u64], j: i128) -> u64
    ensures { result ≡ dword_at words.now j }
{
    match natural(j) {
        Some(j) => half(nth(words, j / 2), j % 2),
        None => 0,
    }
}

// The words with that one replaced, and the words themselves where it is outside.
fn with_nth(mut words: Vec<u64>, k: u128, w: u64) -> Vec<u64>
    ensures { result.items ≡ slice_set words.items k w }
{
    if k < words.len() as u128 {
        words[k as usize] = w;
    }
    words
}

// The words with word i replaced.
fn put_at(words: Vec<u64>, i: i128, w: u64) -> Vec<u64>
    ensures { result.items ≡ put_at (array (Array words.items)) i w }
{
    match natural(i) {
        Some(i) => with_nth(words, i, w),
        None => words,
    }
}

// A word with one half replaced.
fn with_half(n: u64, which: u128, half: u64) -> u64
    requires { half < 2 ^ 32 }
    ensures { result ≡ with_half n which half }
{
    if which == 0 {
        (n >> 32 << 32) + half
    } else {
        (half << 32) + n % (1 << 32)
    }
}

// The words with half j replaced by the lower half of a word.
fn put_dword_at(words: Vec<u64>, j: i128, w: u64) -> Vec<u64>
    ensures { result.items ≡ put_dword_at (array (Array words.items)) j w }
{
    match natural(j) {
        Some(j) => {
            let changed = with_half(nth(&words, j / 2), j % 2, w % (1 << 32));
            with_nth(words, j / 2, changed)
        }
        None => words,
    }
}

/// An array with a word replaced, and the array itself where the place is outside.
pub(crate) fn put_value(alloc: Global, x: Literal, i: &Literal, w: &Literal) -> Literal
    ensures { literal_value result ≡ put_value (literal_value x) (literal_value i.now) (literal_value w.now) }
{
    match x {
        Literal::Arr(words) => as_array(put_at(words, whole(i), word(w))),
        Literal::Int(_) | Literal::Bool(_) | Literal::W64(_) | Literal::W128(_) => {
            Literal::Arr(Vec::new(alloc))
        }
    }
}

/// An array with half a word replaced, and the array itself where the place is outside.
pub(crate) fn put_dword_value(alloc: Global, x: Literal, j: &Literal, w: &Literal) -> Literal
    ensures { literal_value result ≡ put_dword_value (literal_value x) (literal_value j.now) (literal_value w.now) }
{
    match x {
        Literal::Arr(words) => as_array(put_dword_at(words, whole(j), word(w))),
        Literal::Int(_) | Literal::Bool(_) | Literal::W64(_) | Literal::W128(_) => {
            Literal::Arr(Vec::new(alloc))
        }
    }
}
