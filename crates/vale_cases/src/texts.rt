// Texts of a case file: escapes, holes, named texts and repetitions.

use anyhow::Result;
use bstr::ByteSlice;
use std::alloc::Global;

/// A text under a name, as `text INC2 = ..` gives it.
#[derive(Drop)]
pub(crate) struct Named<'f> {
    pub(crate) name: &'f [u8],
    pub(crate) bytes: Vec<u8>,
}

fn hex_value(digit: u8) -> u8 {
    match digit {
        b'0'..=b'9' => digit.wrapping_sub(b'0'),
        b'a'..=b'f' => digit.wrapping_sub(b'a').wrapping_add(10),
        _ => 0,
    }
}

// What of an escape was read: nothing yet, `x`, or `x` and a digit.
#[derive(Clone, Copy)]
enum Escape {
    None,
    Begun,
    Hex,
    Digit(u8),
}

// Appends what an escaped byte stands for, or tells that digits follow.
fn push_escaped(out: &mut Vec<u8>, byte: u8) -> Result<Escape> {
    match byte {
        b'n' => out.push(b'\n')?,
        b't' => out.push(b'\t')?,
        b'r' => out.push(b'\r')?,
        b'e' => {}
        b'x' => return Ok(Escape::Hex),
        _ => out.push(byte)?,
    }
    Ok(Escape::None)
}

/// Appends a text with its escapes: `\n`, `\t`, `\r`, `\xHH`, `\e` for nothing, and any other byte as it is.
pub(crate) fn push_unescaped(out: &mut Vec<u8>, text: &[u8]) -> Result<()> {
    let mut state = Escape::None;
    for byte in text {
        state = match state {
            Escape::None if *byte == b'\\' => Escape::Begun,
            Escape::None => {
                out.push(*byte)?;
                Escape::None
            }
            Escape::Begun => push_escaped(out, *byte)?,
            Escape::Hex => Escape::Digit(hex_value(*byte)),
            Escape::Digit(high) => {
                out.push(high.wrapping_mul(16).wrapping_add(hex_value(*byte)))?;
                Escape::None
            }
        };
    }
    Ok(())
}

fn push_repeated(out: &mut Vec<u8>, hole: &[u8]) -> Result<bool> {
    let Some((count, text)) = hole.split_once_str(b":") else {
        return Ok(false);
    };
    let Ok(count) = str::from_utf8(count) else {
        return Ok(false);
    };
    let Ok(count) = count.parse::<u32>() else {
        return Ok(false);
    };
    let mut once = Vec::new(*out.allocator());
    push_unescaped(&mut once, text)?;
    for _time in 0..count {
        out.extend_from_slice(&once)?;
    }
    Ok(true)
}

// Appends what stands for a hole: a column by its number from 1, a named text, or a text so many times. False where
// nothing does.
fn push_hole(
    out: &mut Vec<u8>,
    hole: &[u8],
    columns: &[Vec<u8>],
    texts: &[Named<'_>],
) -> Result<bool> {
    if let Some(repeated) = hole.strip_prefix(b"*") {
        return push_repeated(out, repeated);
    }
    if let [digit @ b'1'..=b'9'] = hole {
        let number = usize::from(digit.wrapping_sub(b'1'));
        if let Some(column) = columns.get(number) {
            out.extend_from_slice(column)?;
            return Ok(true);
        }
    }
    for text in texts {
        if text.name == hole {
            out.extend_from_slice(&text.bytes)?;
            return Ok(true);
        }
    }
    Ok(false)
}

fn is_hole_byte(byte: u8) -> bool {
    matches!(byte, b'0'..=b'9' | b'A'..=b'Z' | b'_' | b'*')
}

fn push_braced(plain: &mut Vec<u8>, hole: &[u8]) -> Result<()> {
    plain.push(b'{')?;
    plain.extend_from_slice(hole)?;
    Ok(())
}

/// A text with what stands for its holes, `{1}`, `{INC2}` and `{*200:a}`, and with its escapes.
pub(crate) fn expanded(
    alloc: Global,
    text: &[u8],
    columns: &[Vec<u8>],
    texts: &[Named<'_>],
) -> Result<Vec<u8>> {
    let mut out = Vec::new(alloc);
    let mut plain = Vec::new(alloc);
    let mut hole = Vec::new(alloc);
    let mut is_open = false;
    for byte in text {
        if !is_open {
            if *byte == b'{' {
                is_open = true;
                hole.clear();
            } else {
                plain.push(*byte)?;
            }
        } else if *byte == b'}' {
            is_open = false;
            push_unescaped(&mut out, &plain)?;
            plain.clear();
            if !push_hole(&mut out, &hole, columns, texts)? {
                push_braced(&mut plain, &hole)?;
                plain.push(b'}')?;
            }
        } else if is_hole_byte(*byte) || hole.starts_with(b"*") {
            hole.push(*byte)?;
        } else {
            push_braced(&mut plain, &hole)?;
            hole.clear();
            is_open = *byte == b'{';
            if !is_open {
                plain.push(*byte)?;
            }
        }
    }
    if is_open {
        push_braced(&mut plain, &hole)?;
    }
    push_unescaped(&mut out, &plain)?;
    Ok(out)
}
