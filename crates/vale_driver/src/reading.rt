// Reading from the front of a text.

ghost use Rattle.std.specs.Prelude.{◌≡◌, ◌≤◌, length};
ghost use Rattle.std.specs.List.{prefix_len};
ghost use Rattle.std.specs.Option.{option_copied, option_map};
ghost use Rattle.x64_syntax.specs.Words.{is_digit_byte};
ghost use Rattle.vale_driver.specs.inner.Fronts.{strip, span, number_at};

use x64_syntax::{is_digit, read_number};

/// The bytes after a literal text.
#[tactic(auto, unfolding(crate::specs::inner::Fronts::strip))]
pub(crate) fn after<'a>(bytes: &'a [u8], literal: &[u8]) -> Option<&'a [u8]>
    ensures { option_copied result ≡ strip literal.now bytes.now }
{
    bytes.strip_prefix(literal)
}

/// The digits at the front, and the rest.
#[tactic(auto, unfolding(crate::specs::inner::Fronts::span))]
fn digits(bytes: &[u8]) -> (&[u8], &[u8])
    ensures { (result.0.now, result.1.now) ≡ span is_digit_byte bytes.now }
{
    bytes.split_at(digits_len(bytes))
}

fn digits_len(bytes: &[u8]) -> usize
    ensures value { result ≡ prefix_len is_digit_byte bytes.now }
    ensures within { result ≤ length bytes.now }
{
    for (i, byte) in bytes.iter().enumerate() {
        if !is_digit(*byte) {
            return i;
        }
    }
    bytes.len()
}

/// A decimal number without leading zeros, and the rest.
#[tactic(auto, unfolding(crate::specs::inner::Fronts::number_at))]
pub(crate) fn number(bytes: &[u8]) -> Option<(u64, &[u8])>
    ensures { option_map (λ x. (x.0, x.1.now)) result ≡ number_at bytes.now }
{
    let (digits, rest) = digits(bytes);
    let n = read_number(digits)?;
    Some((n, rest))
}
