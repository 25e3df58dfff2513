// Texts, as lists of bytes.

ghost use Rattle.std.specs.Prelude.{◌≡◌, ◌<◌, ◌^◌, ◌++◌, ℕ, Some, length, decimal, IfOk, OnOk, IfSome};
ghost use Rattle.std.specs.Str.{bytes_eq};
ghost use Rattle.x64_syntax.specs.inner.Digits.{digits_from, number_of};

use crate::words::is_digit;
use itoa::{Buffer, Integer};
use std::alloc::{AllocError as NoMemory, Global};
use std::hash::{Hash, Hasher};
use std::marker::Model;

/// A text, which contracts see as the list of its bytes.
#[derive(Debug, Drop)]
pub struct Text {
    bytes: Vec<u8>,
}

impl Model for Text {
    ghost use Rattle.std.specs.Prelude.{List, ℕ};

    ghost Value = { List ℕ };

    ghost view = { λ t. t.bytes.items };
}

impl Text {
    pub fn from_vec(bytes: Vec<u8>) -> Self
        ensures { result ≡ bytes.items }
    {
        Text { bytes }
    }

    pub fn from_slice(alloc: Global, bytes: &[u8]) -> Result<Self, NoMemory>
        ensures { IfOk result (λ t. t ≡ bytes.now) }
    {
        Ok(Text {
            bytes: Vec::from_slice(alloc, bytes)?,
        })
    }

    pub fn as_bytes(&self) -> &[u8]
        ensures { result.now ≡ self.now }
    {
        &self.bytes
    }
}

/// Appends a text.
pub fn push(out: &mut Vec<u8>, text: &str) -> Result<(), NoMemory>
    ensures { OnOk result (out.new.items ≡ out.old.items ++ text.now) }
{
    out.extend_from_slice(text.as_bytes())
}

/// Appends a number in decimal.
pub fn push_number<I: Integer>(out: &mut Vec<u8>, value: I) -> Result<(), NoMemory>
    ensures { OnOk result (out.new.items ≡ out.old.items ++ I.text value) }
{
    push(out, Buffer::new().format(value))
}

// The number of these digits, where it has 64 bits.
fn digits(text: &[u8]) -> Option<u64>
    ensures { result ≡ digits_from 0 text.now }
{
    let mut value = 0u64;
    for byte in text {
        if !is_digit(*byte) {
            return None;
        }
        value = value.checked_mul(10)?.checked_add(u64::from(*byte - b'0'))?;
    }
    Some(value)
}

/// The number of 64 bits that is written so in decimal, without a zero too many. The last clause is for proofs.
pub fn read_number(text: &[u8]) -> Option<u64>
    ensures written { IfSome result (λ n. decimal n ≡ text.now) }
    ensures only { (n : ℕ) → n < 2 ^ 64 → decimal n ≡ text.now → result ≡ Some n }
    ensures same { result ≡ number_of text.now }
{
    let number = digits(text)?;
    if Buffer::new().format(number).as_bytes() == text {
        Some(number)
    } else {
        None
    }
}

impl PartialEq for Text {
    ghost use Rattle.std.proofs.Common.{rules};
    ghost use Rattle.std.specs.Str.{bytes_eq};
    ghost use Rattle.std.specs.Cmp.Rules.{comparing};

    ghost eq = { λ a b. bytes_eq a b };

    ghost laws = { Prim.search (comparing, rules) };

    fn eq(&self, other: &Text) -> bool {
        self.as_bytes() == other.as_bytes()
    }
}

impl Eq for Text {
    ghost use Rattle.std.proofs.Common.{rules};
    ghost use Rattle.std.specs.Cmp.Rules.{comparing};

    ghost laws = { Prim.search (comparing, rules) };
}

impl Hash for Text {
    ghost use Rattle.std.proofs.Common.{rules};
    ghost use Rattle.std.specs.Hash as fed;
    ghost use Rattle.std.specs.Cmp.Rules.{hashing};

    ghost hash_input = { λ t. fed.slice fed.u8 t };

    ghost respects_eq = { Prim.search (hashing, rules) };

    fn hash<H: Hasher>(&self, state: &mut H) {
        self.as_bytes().hash(state);
    }
}
