// What one line of a state file sets.

ghost use Rattle.std.specs.Prelude.{◌≡◌, ◌≢◌, ◌<◌, ◌^◌, ◌++◌, ℕ, List, nat_lt, true, codes, decimal, option_map, IfOk, OnOk, Some};
ghost use Rattle.hex.specs.Hex.{IsBytes};
ghost use Rattle.hex.specs.declared.error.FromHexError.TheVariants as hex_fault;
ghost use Rattle.x64_blocks.specs.Memory.{Range};
ghost use Rattle.x64_syntax.specs.declared.places.MachinePlace.{MachinePlace as APlace};
ghost use Rattle.x64_syntax.specs.Places.{place_name};
ghost use Rattle.x64_evaluator.specs.StateFile.{limit, value_text, bytes_text, range_text, are_bytes};
ghost use Rattle.x64_evaluator.specs.inner.Setting.{IsValue, IsRange, range_seen, Blankless};

use hex::{FromHexError, decode, encode};
use std::alloc::{AllocError as NoMemory, Global};
use x64_syntax::{MachinePlace, flag_named, push, push_number, reg_named, xmm_named};

// The place of a name.
fn place_named(name: &[u8]) -> Option<MachinePlace>
    ensures { (p : APlace) → name.now ≡ place_name p → result ≡ Some p }
{
    if let Some(reg) = reg_named(name) {
        return Some(MachinePlace::Reg(reg));
    }
    if let Some(xmm) = xmm_named(name) {
        return Some(MachinePlace::Xmm(xmm));
    }
    Some(MachinePlace::Flag(flag_named(name)?))
}

fn number(text: &str) -> Option<u128>
    ensures { (n : ℕ) → n < 2 ^ 128 → text.now ≡ decimal n → result ≡ Some n }
{
    text.parse::<u128>().ok()
}

fn fits(place: MachinePlace, n: u128) -> bool
    ensures { result ≡ nat_lt n (limit place) }
{
    match place {
        MachinePlace::Reg(_) => u64::try_from(n).is_ok(),
        MachinePlace::Xmm(_) => true,
        MachinePlace::Flag(_) => n < 2,
    }
}

/// Appends the line of a value.
pub(crate) fn push_value(out: &mut Vec<u8>, place: MachinePlace, n: u128) -> Result<(), NoMemory>
    ensures { OnOk result (out.new.items ≡ out.old.items ++ value_text place n) }
{
    push(out, place.name())?;
    push(out, " ")?;
    push_number(out, n)
}

// Appends the hexadecimal digits of bytes.
fn push_bytes(alloc: Global, out: &mut Vec<u8>, bytes: &[u8]) -> Result<(), NoMemory>
    ensures { OnOk result (out.new.items ≡ out.old.items ++ bytes_text bytes.now) }
{
    if bytes.is_empty() {
        return push(out, "-");
    }
    push(out, &encode(alloc, bytes)?)
}

/// Appends the base and the bytes of a block.
pub(crate) fn push_range(
    alloc: Global,
    out: &mut Vec<u8>,
    base: u64,
    bytes: &[u8],
) -> Result<(), NoMemory>
    ensures { OnOk result (out.new.items ≡ out.old.items ++ range_text record { base = base; bytes = bytes.now }) }
{
    push_number(out, base)?;
    push(out, " ")?;
    push_bytes(alloc, out, bytes)
}

fn not_for_want_of_memory(fault: FromHexError) -> Result<(), NoMemory>
    ensures { OnOk result (fault ≢ hex_fault.OutOfMemory) }
{
    match fault {
        FromHexError::OutOfMemory => Err(NoMemory),
        _ => Ok(()),
    }
}

// The bytes of hexadecimal digits.
fn bytes_of(alloc: Global, digits: &str) -> Result<Option<Vec<u8>>, NoMemory>
    ensures { IfOk result (λ o. (bytes : List ℕ) → IsBytes bytes → bytes_text bytes ≡ digits.now → option_map (λ v. v.items) o ≡ Some bytes) }
{
    if digits == "-" {
        return Ok(Some(Vec::new(alloc)));
    }
    match decode(alloc, digits.as_bytes()) {
        Ok(bytes) => Ok(Some(bytes)),
        Err(fault) => {
            not_for_want_of_memory(fault)?;
            Ok(None)
        }
    }
}

// The base and the bytes that a text can be.
fn range_found(alloc: Global, text: &str) -> Result<Option<(u64, Vec<u8>)>, NoMemory>
    ensures { IfOk result (λ o. (b : Range) → are_bytes b ≡ true → range_text b ≡ text.now → option_map range_seen o ≡ Some b) }
{
    let Some((base, digits)) = text.split_once(' ') else {
        return Ok(None);
    };
    let Some(base) = base_of(base) else {
        return Ok(None);
    };
    let Some(bytes) = bytes_of(alloc, digits)? else {
        return Ok(None);
    };
    Ok(Some((base, bytes)))
}

fn base_of(text: &str) -> Option<u64>
    ensures { (n : ℕ) → n < 2 ^ 64 → text.now ≡ decimal n → result ≡ Some n }
{
    u64::try_from(number(text)?).ok()
}

// A base of 64 bits and bytes are those of a block.
fn fit(base: u64, bytes: &[u8])
    ensures { are_bytes record { base = base; bytes = bytes.now } ≡ true }
{}

/// The base and the bytes of a block, where the text is exactly that of a block. The scratch space holds that text.
pub(crate) fn range_of(
    alloc: Global,
    scratch: &mut Vec<u8>,
    text: &str,
) -> Result<Option<(u64, Vec<u8>)>, NoMemory>
    ensures { IfOk result (λ o. IsRange text.now o) }
{
    let Some((base, bytes)) = range_found(alloc, text)? else {
        return Ok(None);
    };
    scratch.clear();
    push_range(alloc, scratch, base, &bytes)?;
    fit(base, &bytes);
    if scratch.as_slice() == text.as_bytes() {
        Ok(Some((base, bytes)))
    } else {
        Ok(None)
    }
}

// The place and the value that two words can be.
fn value_found(word: &str, rest: &str) -> Option<(MachinePlace, u128)>
    ensures { (p : APlace) (n : ℕ) → n < 2 ^ 128 → word.now ≡ place_name p → rest.now ≡ decimal n → result ≡ Some (p, n) }
{
    let place = place_named(word.as_bytes())?;
    Some((place, number(rest)?))
}

/// A place and its value, where the text is exactly that of a value that fits. The text is the two words with a blank
/// between them, and the scratch space holds it.
pub(crate) fn value_of(
    scratch: &mut Vec<u8>,
    text: &str,
    word: &str,
    rest: &str,
) -> Result<Option<(MachinePlace, u128)>, NoMemory>
    requires text { text.now ≡ word.now ++ (codes " " ++ rest.now) }
    requires word { Blankless word.now }
    ensures { IfOk result (λ o. IsValue text.now o) }
{
    let Some((place, n)) = value_found(word, rest) else {
        return Ok(None);
    };
    if !fits(place, n) {
        return Ok(None);
    }
    scratch.clear();
    push_value(scratch, place, n)?;
    if scratch.as_slice() == text.as_bytes() {
        Ok(Some((place, n)))
    } else {
        Ok(None)
    }
}
