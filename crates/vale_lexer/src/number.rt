// Numbers.

ghost use Rattle.std.specs.Prelude.{◌≡◌, ◌≤◌, ◌<◌, ◌+◌, ◌*◌, ◌^◌, length};
ghost use Rattle.vale_syntax.specs.Tokens.{number, hex_len, number_by_suffix, number_front, digits_value, wide_number, digit, whole_limit, word_limit, wide_limit};
ghost use Rattle.vale_syntax.specs.declared.token.TokenKind.TheVariants as kind;

use crate::class::{Class, run_len};
use vale_syntax::{Front, NotAToken, TokenKind, WHOLE_LIMIT, WORD_LIMIT};
use x64_syntax::is_digit;

/// A number at the front, by its digits and its suffix.
pub(crate) fn number(bytes: &[u8]) -> Front
    ensures { result ≡ number bytes.now }
{
    match hex_len(bytes) {
        0 => {
            let len = run_len(Class::Digit, bytes);
            let (digits, rest) = bytes.split_at(len);
            suffixed(value(10, digits), len, rest)
        }
        len => {
            let (_, behind) = bytes.split_at(2);
            let (digits, rest) = behind.split_at(len);
            suffixed(value(16, digits), len + 2, rest)
        }
    }
}

// The hexadecimal digits behind `0x`.
fn hex_len(bytes: &[u8]) -> usize
    ensures value { result ≡ hex_len bytes.now }
    ensures within { 0 < result → result + 2 ≤ length bytes.now }
{
    match bytes {
        [b'0', b'x', rest @ ..] => run_len(Class::Hex, rest),
        _ => 0,
    }
}

// What digits write, where some kind of number may be so large.
fn value(radix: u8, digits: &[u8]) -> Option<u128>
    requires small { radix ≤ 16 }
    requires positive { 1 ≤ radix }
    ensures { result ≡ digits_value radix digits.now }
{
    let mut value = 0u128;
    for byte in digits {
        value = more(radix, value, *byte)?;
    }
    Some(value)
}

// One digit more.
fn more(radix: u8, value: u128, byte: u8) -> Option<u128>
    ensures { result ≡ wide_number (value * radix + digit byte) }
{
    value
        .checked_mul(u128::from(radix))?
        .checked_add(u128::from(digit(byte)))
}

fn digit(byte: u8) -> u8
    ensures { result ≡ digit byte }
{
    if is_digit(byte) {
        byte - b'0'
    } else if b'a' <= byte {
        byte - (b'a' - 10)
    } else {
        byte.saturating_sub(b'A' - 10)
    }
}

// A number of some length, by what follows.
fn suffixed(value: Option<u128>, len: usize, rest: &[u8]) -> Front
    requires { len + length rest.now < 2 ^ 64 }
    ensures { result ≡ number_by_suffix value len rest.now }
{
    match rest {
        [b'w', ..] => word(value, len + 1),
        [b'v', ..] => wide(value, len + 1),
        _ => int(value, len),
    }
}

fn int(value: Option<u128>, len: usize) -> Front
    ensures { result ≡ number_front whole_limit kind.Int len value }
{
    match value {
        Some(n) if n < WHOLE_LIMIT => Front::Taken(TokenKind::Int(n), len),
        _ => Front::Stopped(NotAToken::NumberTooLarge),
    }
}

fn word(value: Option<u128>, len: usize) -> Front
    ensures { result ≡ number_front word_limit kind.Word len value }
{
    match value {
        Some(n) if n < WORD_LIMIT => Front::Taken(TokenKind::Word(n as u64), len),
        _ => Front::Stopped(NotAToken::NumberTooLarge),
    }
}

fn wide(value: Option<u128>, len: usize) -> Front
    ensures { result ≡ number_front wide_limit kind.Wide len value }
{
    match value {
        Some(n) => Front::Taken(TokenKind::Wide(n), len),
        None => Front::Stopped(NotAToken::NumberTooLarge),
    }
}
