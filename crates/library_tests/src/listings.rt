// Listings that no text shows.

use asm_lines::list_item;
use std::test::Fail;
use x64_syntax::{Cond, Item};

#[test]
fn lists_the_last_label(rt: HostRuntime) -> Result<(), Fail> {
    let label = list_item(rt.alloc(), &Item::Label(u32::MAX))?;
    assert_eq!(rt; label.as_bytes(), b"Label 4294967295".as_slice());
    let jump = list_item(rt.alloc(), &Item::Jcc(Cond::Ne, u32::MAX))?;
    assert_eq!(rt; jump.as_bytes(), b"Jcc ne 4294967295".as_slice());
    Ok(())
}
