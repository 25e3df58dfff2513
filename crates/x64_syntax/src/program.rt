// Whole programs of flat code.

ghost use Rattle.std.specs.Prelude.{◌≡◌, ◌≤◌, true, length};
ghost use Rattle.std.specs.List.{list_all};
ghost use Rattle.x64_syntax.specs.Programs.{begins_with_entry, has_entry, entries_differ, is_item, labels_from, piece, stray_jump, program_ok};
ghost use Rattle.x64_syntax.specs.Ranges.{is_u32};
ghost use Rattle.x64_syntax.specs.inner.LabelCount.{label_count};

use crate::forms::ins_ok;
use crate::items::Item;
use crate::words::is_export_name;

fn begins_with_entry(items: &[Item]) -> bool
    ensures { result ≡ begins_with_entry items.now }
{
    match items {
        [] | [Item::Entry(_), ..] => true,
        _ => false,
    }
}

fn has_entry(name: &[u8], items: &[Item]) -> bool
    ensures { result ≡ has_entry name.now items.now }
{
    for item in items {
        if let Item::Entry(other) = item {
            if name == other.as_bytes() {
                return true;
            }
        }
    }
    false
}

fn entries_differ(items: &[Item]) -> bool
    ensures { result ≡ entries_differ items.now }
{
    for (k, item) in items.iter().enumerate() {
        if let Item::Entry(name) = item {
            if has_entry(name.as_bytes(), items.split_at(k + 1).1) {
                return false;
            }
        }
    }
    true
}

/// Any number of a label's or a block's field is one.
pub(crate) fn is_u32(_label: u32) -> bool
    ensures { result ≡ is_u32 _label }
{
    true
}

/// Whether an item may stand in a program: an instruction is one of the machine's, and an entry's name is an export name.
pub fn is_item(item: &Item) -> bool
    ensures { result ≡ is_item item.now }
{
    match item {
        Item::Ins(ins) => ins_ok(ins).is_ok(),
        Item::Entry(name) => is_export_name(name.as_bytes()),
        Item::Label(label) | Item::Jmp(label) | Item::Jcc(_, label) => is_u32(*label),
        Item::Ret => true,
    }
}

fn are_items(items: &[Item]) -> bool
    ensures { result ≡ list_all is_item items.now }
{
    for item in items {
        if !is_item(item) {
            return false;
        }
    }
    true
}

fn are_labels_in_order(items: &[Item]) -> bool
    ensures { result ≡ labels_from 0 items.now }
{
    let mut next = 0u64;
    for item in items {
        if let Item::Label(label) = item {
            if u64::from(*label) != next {
                return false;
            }
            next += 1;
        }
    }
    true
}

// How many labels there are as far as the next entry.
fn labels_in_piece(items: &[Item]) -> u64
    ensures count { result ≡ label_count (piece items.now) }
    ensures few { result ≤ length items.now }
{
    let mut count = 0;
    for item in items {
        match item {
            Item::Entry(_) => return count,
            Item::Label(_) => count += 1,
            Item::Ins(_) | Item::Jmp(_) | Item::Jcc(_, _) | Item::Ret => {}
        }
    }
    count
}

/// The place of the first jump whose label isn't in its own piece. Labels in order make a piece's labels a range.
pub fn stray_jump(items: &[Item]) -> Option<usize>
    requires { labels_from 0 items.now ≡ true }
    ensures { result ≡ stray_jump items.now }
{
    let mut low = 0;
    let mut high = labels_in_piece(items);
    for (k, item) in items.iter().enumerate() {
        match item {
            Item::Entry(_) => {
                low = high;
                high += labels_in_piece(items.split_at(k + 1).1);
            }
            Item::Jmp(label) | Item::Jcc(_, label) => {
                if u64::from(*label) < low || high <= u64::from(*label) {
                    return Some(k);
                }
            }
            Item::Ins(_) | Item::Label(_) | Item::Ret => {}
        }
    }
    None
}

/// Whether items are a program: they are pieces that begin with an entry each; the entries' names are allowed and
/// differ; the instructions are the machine's; the labels are 0, 1, .. in the order of the code; and each jump's label
/// is in its own piece.
pub fn program_ok(items: &[Item]) -> bool
    ensures { result ≡ program_ok items.now }
{
    if !begins_with_entry(items) || !entries_differ(items) {
        return false;
    }
    if !are_items(items) || !are_labels_in_order(items) {
        return false;
    }
    stray_jump(items).is_none()
}
