// The report of an evaluation, from the values that aren't 0 or undefined.

use anyhow::Result;
use bstr::ByteSlice;
use std::alloc::Global;

const NAMES: [&str; 36] = [
    "rax", "rbx", "rcx", "rdx", "rsi", "rdi", "rbp", "rsp", "r8", "r9", "r10", "r11", "r12", "r13",
    "r14", "r15", "xmm0", "xmm1", "xmm2", "xmm3", "xmm4", "xmm5", "xmm6", "xmm7", "xmm8", "xmm9",
    "xmm10", "xmm11", "xmm12", "xmm13", "xmm14", "xmm15", "cf", "zf", "sf", "of",
];

// The word behind a name, in a list of names and values.
fn value_of<'v>(values: &'v [u8], name: &str) -> Option<&'v [u8]> {
    let mut is_next = false;
    for word in values.split_str(b" ") {
        if is_next {
            return Some(word);
        }
        is_next = word == name.as_bytes();
    }
    None
}

fn push_values(out: &mut Vec<u8>, values: &[u8]) -> Result<()> {
    for (k, name) in NAMES.iter().enumerate() {
        let otherwise = if k < 32 { b"0" } else { b"-" };
        out.extend_from_slice(name.as_bytes())?;
        out.push(b' ')?;
        out.extend_from_slice(value_of(values, name).unwrap_or(otherwise))?;
        out.push(b'\n')?;
    }
    Ok(())
}

/// A report: `ended 3; rax 5 cf 0; block 0 -; not` has the end, the values that aren't 0 or undefined, and the further
/// lines.
pub(crate) fn report_text(alloc: Global, parts: &[u8]) -> Result<Vec<u8>> {
    let mut out = Vec::new(alloc);
    for (k, part) in parts.split_str(b"; ").enumerate() {
        if k == 1 {
            push_values(&mut out, part)?;
        } else if !part.is_empty() {
            out.extend_from_slice(part)?;
            out.push(b'\n')?;
        }
    }
    Ok(out)
}
