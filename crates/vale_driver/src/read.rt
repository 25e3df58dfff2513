// The command `read`: assembler texts and their listings.

ghost use Rattle.std.specs.Prelude.{◌≡◌, ◌≤◌, ℕ, List, IsTrue, IfOk, IfErr};
ghost use Rattle.vale_outside.specs.Outside.{Rose};
ghost use Rattle.vale_driver.specs.Words.{Read};
ghost use Rattle.vale_driver.specs.Texts.{TextRefused, TextRead, listing_text};
ghost use Rattle.vale_driver.specs.inner.Stops.{StopsBy, FileHolds};
ghost use Rattle.vale_driver.specs.Commands.{IsRefused, WritesReading};

use crate::cause::{Cause, refusal_of};
use crate::stop::{Stop, fetch};
use asm_lines::list_item;
use gas_text::{AsmFault, read};
use std::alloc::{AllocError, Global};
use vale_outside::Store;
use x64_syntax::Item;

/// The most bytes of an assembler text.
const TEXT_LIMIT: usize = 67108864;

/// The items of a text.
pub(crate) fn read_text<S: Store>(
    alloc: Global,
    store: &mut S,
    file: &str,
) -> Result<Vec<Item>, Stop>
    requires { IsTrue (S.may_ask store.old file.now) }
    ensures found { IfOk result (λ items. FileHolds (S.tells store.old file.now) (λ t. TextRead t items.items)) }
    ensures stops { IfErr result (StopsBy (λ r. FileHolds (S.tells store.old file.now) (λ t. TextRefused file.now t r)) (Rose (S.faults store.old) (S.faults store.new))) }
    ensures count { S.faults store.old ≤ S.faults store.new }
    ensures same_names { (n : List ℕ) → S.may_ask store.new n ≡ S.may_ask store.old n }
    ensures same_files { (n : List ℕ) → S.tells store.new n ≡ S.tells store.old n }
{
    let Some(text) = fetch(alloc, store, file, TEXT_LIMIT)? else {
        let refusal = refusal_of(alloc, Cause::TooLong(file))?;
        return Err(Stop::Refused(refusal));
    };
    match read(alloc, &text) {
        Ok(items) => Ok(items),
        Err(AsmFault::Line(line)) => {
            let refusal = refusal_of(alloc, Cause::NoLine(file, line))?;
            Err(Stop::Refused(refusal))
        }
        Err(AsmFault::Label(line)) => {
            let refusal = refusal_of(alloc, Cause::NoLabel(file, line))?;
            Err(Stop::Refused(refusal))
        }
        Err(AsmFault::NoMemory) => Err(Stop::NoMemory),
    }
}

// The listing of items, a line each.
#[tactic(auto, unfolding(crate::specs::Texts::listing_text))]
fn listing(alloc: Global, items: &[Item]) -> Result<Vec<u8>, AllocError>
    ensures { IfOk result (λ out. out.items ≡ listing_text items.now) }
{
    let mut out = Vec::new(alloc);
    for item in items {
        out.extend_from_slice(list_item(alloc, item)?.as_bytes())?;
        out.extend_from_slice(b"\n")?;
    }
    Ok(out)
}

/// The listing of a text.
pub(crate) fn read_listing<S: Store>(
    alloc: Global,
    store: &mut S,
    file: &str,
) -> Result<Vec<u8>, Stop>
    requires { IsTrue (S.may_ask store.old file.now) }
    ensures listed { IfOk result (λ out. WritesReading (S.tells store.old) file.now out.items) }
    ensures stops { IfErr result (StopsBy (IsRefused (S.tells store.old) (Read file.now)) (Rose (S.faults store.old) (S.faults store.new))) }
    ensures count { S.faults store.old ≤ S.faults store.new }
{
    let items = read_text(alloc, store, file)?;
    Ok(listing(alloc, &items)?)
}
