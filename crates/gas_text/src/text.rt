// Whole texts.

ghost use Rattle.std.specs.Prelude.{◌≡◌, ◌≤◌, ◌<◌, ◌+◌, ◌^◌, true, length, take, IfOk, IfErr};
ghost use Rattle.std.specs.List.{list_all};
ghost use Rattle.x64_syntax.specs.Programs.{is_item, is_ordered};
ghost use Rattle.gas_text.specs.Gas.{items_text, gas_text};
ghost use Rattle.gas_text.specs.Text.{RefusedInOrder, ReadsAs, Refused, newlines};

use crate::apart::sides_of;
use crate::fault::AsmFault;
use crate::reader::Reader;
use std::alloc::Global;
use x64_syntax::{Item, stray_jump};

// The items of a text, wherever its jumps go.
fn read_in_order(alloc: Global, text: &[u8]) -> Result<Vec<Item>, AsmFault>
    ensures ok { IfOk result (λ items. (is_ordered items.items ≡ true) × (gas_text items.items ≡ text.now)) }
    ensures err { IfErr result (λ fault. RefusedInOrder text.now fault) }
{
    let mut rest = match sides_of(text, b'\n') {
        Some((first, rest)) if first == b".text".as_slice() => rest,
        _ => return Err(AsmFault::Line(1)),
    };
    let mut reader = Reader::new(alloc);
    let mut line_number = 2u64;
    while let Some((line, behind)) = sides_of(rest, b'\n') {
        if !reader.take(line)? {
            return Err(AsmFault::Line(line_number));
        }
        rest = behind;
        line_number += 1;
    }
    if rest.is_empty() && reader.is_between() {
        Ok(reader.into_items())
    } else {
        Err(AsmFault::Line(line_number))
    }
}

// How many lines items have.
#[tactic(auto, unfolding(crate::specs::Gas::items_text))]
fn line_count(items: &[Item]) -> u64
    requires { list_all is_item items.now ≡ true }
    ensures { result ≡ newlines (items_text items.now) }
{
    let mut count = 0;
    for item in items {
        count += match item {
            Item::Entry(_) => 2,
            _ => 1,
        };
    }
    count
}

/// The number of the line of an item in the text of a program, from 1: for an entry, that of its `.globl`. The text has
/// fewer than 2^63 bytes, as each text in memory has.
pub fn line_of(items: &[Item], place: usize) -> u64
    requires items { list_all is_item items.now ≡ true }
    requires within { place ≤ length items.now }
    requires short { length (gas_text items.now) < 2 ^ 63 }
    ensures { result ≡ newlines (gas_text (take place items.now)) + 1 }
{
    2 + line_count(items.split_at(place).0)
}

/// The program of a text in GAS syntax, or the first line that is none: see docs/COMMANDS.md. What [`print`] writes of
/// items reads as these items, and no other text does. The time is linear in the text.
///
/// [`print`]: crate::print
pub fn read(alloc: Global, text: &[u8]) -> Result<Vec<Item>, AsmFault>
    ensures ok { IfOk result (λ items. ReadsAs text.now items.items) }
    ensures err { IfErr result (λ fault. Refused text.now fault) }
{
    let items = read_in_order(alloc, text)?;
    match stray_jump(items.as_slice()) {
        Some(place) => Err(AsmFault::Label(line_of(items.as_slice(), place))),
        None => Ok(items),
    }
}
