// What stands at the front of a text.

ghost use Rattle.std.specs.Prelude.{◌≡◌, ◌≤◌, ◌<◌, ◌+◌, ◌^◌, length, map, IfSome, IsTrue};
ghost use Rattle.vale_syntax.specs.Tokens.{front, begins, is_blank, is_in_line, comment, close_len, stamp_len, front_of_name, mark_at, mark_front, other_front};
ghost use Rattle.vale_lexer.specs.inner.Lexes.{Fits};

use crate::class::{Class, run_len};
use crate::number::number;
use vale_syntax::{Front, MARKS, Mark, NotAToken, TokenKind, table_of_marks};
use x64_syntax::{is_digit, is_name_part};

/// What stands at the front: a blank or comment, else the longest token that begins there.
pub(crate) fn front(bytes: &[u8]) -> Front
    requires { 0 < length bytes.now }
    ensures value { result ≡ front bytes.now }
    ensures fits { Fits (length bytes.now) result }
{
    front_of(bytes)
}

fn front_of(bytes: &[u8]) -> Front
    ensures { result ≡ front bytes.now }
{
    let Some(first) = bytes.first() else {
        return Front::Stopped(NotAToken::BadByte);
    };
    if is_blank(*first) {
        return Front::Skipped(1);
    }
    if is_digit(*first) {
        return number(bytes);
    }
    if is_name_part(*first) {
        named(bytes)
    } else {
        other(bytes)
    }
}

fn is_blank(byte: u8) -> bool
    ensures { result ≡ is_blank byte }
{
    byte == b' ' || byte == b'\n' || byte == b'\r' || byte == b'\t'
}

// A name, with its stamp.
fn named(bytes: &[u8]) -> Front
    ensures { result ≡ front_of_name bytes.now }
{
    let len = run_len(Class::Name, bytes);
    match stamp_len(bytes.split_at(len).1) {
        0 => Front::Taken(TokenKind::Name, len),
        stamp => Front::Taken(TokenKind::Stamped, len + stamp),
    }
}

// The dot and the stamp behind a name: 0 where there is none.
fn stamp_len(bytes: &[u8]) -> usize
    ensures value { result ≡ stamp_len bytes.now }
    ensures within { result ≤ length bytes.now }
{
    match bytes {
        [b'.', rest @ ..] => {
            let len = run_len(Class::Stamp, rest);
            if len == 0 { 0 } else { len + 1 }
        }
        _ => 0,
    }
}

fn other(bytes: &[u8]) -> Front
    ensures { result ≡ other_front bytes.now }
{
    if begins(bytes, b"//") {
        return Front::Skipped(run_len(Class::InLine, bytes));
    }
    if begins(bytes, b"/*") {
        return comment(bytes.split_at(2).1);
    }
    table_of_marks();
    mark(&MARKS, bytes)
}

// A comment, by what stands behind its beginning.
fn comment(bytes: &[u8]) -> Front
    requires { length bytes.now + 2 < 2 ^ 64 }
    ensures { result ≡ comment (close_len bytes.now) }
{
    match close_len(bytes) {
        Some(len) => Front::Skipped(len + 2),
        None => Front::Stopped(NotAToken::OpenComment),
    }
}

// As far as the end of a comment.
fn close_len(bytes: &[u8]) -> Option<usize>
    ensures value { result ≡ close_len bytes.now }
    ensures within { IfSome result (λ n. n ≤ length bytes.now) }
{
    for i in 0..bytes.len() {
        if begins(bytes.split_at(i).1, b"*/") {
            return Some(i + 2);
        }
    }
    None
}

fn mark(marks: &[(&str, Mark)], bytes: &[u8]) -> Front
    ensures { result ≡ mark_front (mark_at (map (λ m. (m.0.now, m.1)) marks.now) bytes.now) }
{
    for (text, mark) in marks {
        if begins(bytes, text.as_bytes()) {
            return Front::Taken(TokenKind::Mark(*mark), text.len());
        }
    }
    Front::Stopped(NotAToken::BadByte)
}

fn begins(bytes: &[u8], literal: &[u8]) -> bool
    ensures value { result ≡ begins literal.now bytes.now }
    ensures within { IsTrue result → length literal.now ≤ length bytes.now }
{
    bytes.starts_with(literal)
}
