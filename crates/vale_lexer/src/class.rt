// Classes of bytes, and how far one runs.

ghost use Rattle.std.specs.Prelude.{◌≡◌, ◌≤◌, length};
ghost use Rattle.std.specs.List.{prefix_len};
ghost use Rattle.vale_lexer.specs.inner.Classes.{in_class};

use x64_syntax::{is_digit, is_name_part};

/// A class of bytes.
#[derive(Clone, Copy, Debug, PartialEq, Eq)]
pub(crate) enum Class {
    Name,
    Stamp,
    Digit,
    Hex,
    InLine,
}

/// How many bytes at the front are of the class.
pub(crate) fn run_len(class: Class, bytes: &[u8]) -> usize
    ensures value { result ≡ prefix_len (in_class class) bytes.now }
    ensures within { result ≤ length bytes.now }
{
    for (i, byte) in bytes.iter().enumerate() {
        if !is_in(class, *byte) {
            return i;
        }
    }
    bytes.len()
}

fn is_in(class: Class, byte: u8) -> bool
    ensures { result ≡ in_class class byte }
{
    match class {
        Class::Name => is_name_part(byte),
        Class::Stamp => is_digit(byte) || (b'a' <= byte && byte <= b'z'),
        Class::Digit => is_digit(byte),
        Class::Hex => is_hex(byte),
        Class::InLine => byte != b'\n',
    }
}

fn is_hex(byte: u8) -> bool
    ensures { result ≡ in_class Class.Hex byte }
{
    is_digit(byte) || (b'a' <= byte && byte <= b'f') || (b'A' <= byte && byte <= b'F')
}
