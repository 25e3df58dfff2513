// Lines read one after the other.

ghost use Rattle.std.specs.Prelude.{◌≡◌, ◌∷◌, ◌++◌, [], None, Some, codes, option_map, is_none, if◌then◌else◌, IfOk, IsTrue};
ghost use Rattle.std.specs.Str.{bytes_eq};
ghost use Rattle.x64_syntax.specs.inner.LabelCount.{label_count};
ghost use Rattle.gas_text.specs.inner.Reading.{candidate, item_read, global_name, entry_read, global_read, code_read, next};
ghost use Rattle.gas_text.specs.inner.Readers.{sofar, Kept};

use crate::apart::found_item;
use crate::printer::push_line;
use indexmap::IndexSet;
use std::alloc::{AllocError as NoMemory, Global};
use x64_syntax::{Item, Text, is_export_name, is_item, push};

/// What was read so far.
#[derive(Drop)]
pub(crate) struct Reader<'a> {
    alloc: Global,
    items: Vec<Item>,
    /// The name of an entry whose own line comes next.
    awaited: Option<&'a [u8]>,
    /// The names of the entries, and the awaited one.
    names: IndexSet<&'a [u8]>,
    /// How many labels there are.
    labels: u64,
    /// The line of an item, to compare with.
    scratch: Vec<u8>,
}

// The item that a line can be behind so many labels.
fn candidate(labels: u64, line: &[u8]) -> Option<Item>
    ensures { result ≡ candidate labels line.now }
{
    match line {
        [b'L', ..] => Some(Item::Label(u32::try_from(labels).ok()?)),
        _ => found_item(line),
    }
}

fn global_name(line: &[u8]) -> Option<&[u8]>
    ensures { option_map (λ name. name.now) result ≡ global_name line.now }
{
    line.strip_prefix(b".globl ".as_slice())
}

// The item of a line, where it is exactly an item's line. The scratch space holds that line.
fn item_read(scratch: &mut Vec<u8>, labels: u64, line: &[u8]) -> Result<Option<Item>, NoMemory>
    ensures { IfOk result (λ item. item ≡ item_read labels line.now) }
{
    let Some(item) = candidate(labels, line) else {
        return Ok(None);
    };
    scratch.clear();
    push_line(scratch, &item)?;
    if is_item(&item) && scratch.as_slice() == line {
        Ok(Some(item))
    } else {
        Ok(None)
    }
}

fn label_count(item: &Item) -> u64
    ensures { result ≡ label_count (item.now ∷ []) }
{
    match item {
        Item::Label(_) => 1,
        _ => 0,
    }
}

// Whether a line is a name and a colon.
fn is_entry_line(scratch: &mut Vec<u8>, name: &[u8], line: &[u8]) -> Result<bool, NoMemory>
    ensures { IfOk result (λ yes. yes ≡ bytes_eq line.now (name.now ++ codes ":")) }
{
    scratch.clear();
    scratch.extend_from_slice(name)?;
    push(scratch, ":")?;
    Ok(line == scratch.as_slice())
}

impl<'a> Reader<'a> {
    /// A reader in front of the first line behind `.text`.
    pub(crate) fn new(alloc: Global) -> Self
        ensures start { sofar result ≡ record { items = []; awaited = None } }
        ensures kept { Kept result }
    {
        Reader {
            alloc,
            items: Vec::new(alloc),
            awaited: None,
            names: IndexSet::new(alloc),
            labels: 0,
            scratch: Vec::new(alloc),
        }
    }

    /// Takes a line: `false` where it can't come next.
    pub(crate) fn take(&mut self, line: &'a [u8]) -> Result<bool, NoMemory>
        requires { Kept self.old }
        ensures next { IfOk result (λ yes. next (sofar self.old) line.now ≡ (if yes then Some (sofar self.new) else None)) }
        ensures kept { IfOk result (λ yes. IsTrue yes → Kept self.new) }
    {
        if let Some(name) = self.awaited {
            return self.take_entry(name, line);
        }
        match global_name(line) {
            Some(name) => self.take_global(name),
            None => self.take_code(line),
        }
    }

    /// Whether no entry's own line is awaited.
    pub(crate) fn is_between(&self) -> bool
        ensures { result ≡ is_none self.now.awaited }
    {
        self.awaited.is_none()
    }

    /// The items that were read.
    pub(crate) fn into_items(self) -> Vec<Item>
        ensures { result.items ≡ self.entry.items.items }
    {
        self.items
    }

    // Takes the line of the awaited entry.
    fn take_entry(&mut self, name: &'a [u8], line: &[u8]) -> Result<bool, NoMemory>
        requires kept { Kept self.old }
        requires awaited { self.old.awaited ≡ Some name }
        ensures next { IfOk result (λ yes. entry_read self.old.items.items name.now line.now ≡ (if yes then Some (sofar self.new) else None)) }
        ensures kept { IfOk result (λ yes. IsTrue yes → Kept self.new) }
    {
        if !is_entry_line(&mut self.scratch, name, line)? {
            return Ok(false);
        }
        let name = Text::from_slice(self.alloc, name)?;
        self.items.push(Item::Entry(name))?;
        self.awaited = None;
        Ok(true)
    }

    // Takes a line that declares a name.
    fn take_global(&mut self, name: &'a [u8]) -> Result<bool, NoMemory>
        requires kept { Kept self.old }
        requires awaited { self.old.awaited ≡ None }
        ensures next { IfOk result (λ yes. global_read self.old.items.items name.now ≡ (if yes then Some (sofar self.new) else None)) }
        ensures kept { IfOk result (λ yes. IsTrue yes → Kept self.new) }
    {
        if !is_export_name(name) || !self.names.insert(name)? {
            return Ok(false);
        }
        self.awaited = Some(name);
        Ok(true)
    }

    // Takes a label, a jump, an instruction or a return.
    fn take_code(&mut self, line: &[u8]) -> Result<bool, NoMemory>
        requires kept { Kept self.old }
        requires awaited { self.old.awaited ≡ None }
        ensures next { IfOk result (λ yes. code_read self.old.items.items line.now ≡ (if yes then Some (sofar self.new) else None)) }
        ensures kept { IfOk result (λ yes. IsTrue yes → Kept self.new) }
    {
        if self.items.is_empty() {
            return Ok(false);
        }
        match item_read(&mut self.scratch, self.labels, line)? {
            Some(item) => {
                self.labels += label_count(&item);
                self.items.push(item)?;
                Ok(true)
            }
            None => Ok(false),
        }
    }
}
