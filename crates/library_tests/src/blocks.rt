// Blocks of memory at their edges.

use std::alloc::Global;
use std::test::Fail;
use x64_blocks::{AddFault, Blocks, Outside};

// Blocks of 16 bytes at 4096, of 8 that touch them at 4112, and of 8 at the end of memory.
fn three(alloc: Global) -> Result<Blocks, Fail> {
    let mut blocks = Blocks::new(alloc);
    for (base, bytes) in [
        (4096, b"0123456789abcdef".as_slice()),
        (4112, b"ABCDEFGH".as_slice()),
        (u64::MAX - 7, b"tuvwxyz!".as_slice()),
    ] {
        let bytes = Vec::from_slice(alloc, bytes)?;
        let _ = blocks.add(base, bytes);
    }
    Ok(blocks)
}

#[test]
fn adds_blocks_that_lie_apart(rt: HostRuntime) -> Result<(), Fail> {
    let alloc = rt.alloc();
    let mut blocks = three(alloc)?;
    assert_eq!(rt; blocks.count(), 3);
    let first = blocks.add(4111, Vec::from_slice(alloc, b"x")?);
    assert_eq!(rt; first, Err(AddFault::Overlap));
    let second = blocks.add(4095, Vec::from_slice(alloc, b"xy")?);
    assert_eq!(rt; second, Err(AddFault::Overlap));
    let third = blocks.add(u64::MAX, Vec::from_slice(alloc, b"xy")?);
    assert_eq!(rt; third, Err(AddFault::PastEnd));
    assert_eq!(rt; blocks.add(4095, Vec::from_slice(alloc, b"x")?), Ok(()));
    assert_eq!(rt; blocks.add(4100, Vec::new(alloc)), Ok(()));
    if blocks.count() == 5 {
        assert_eq!(rt; blocks.base(3), 4095);
        assert_eq!(rt; blocks.bytes(3), b"x".as_slice());
    }
    assert_eq!(rt; blocks.count(), 5);
    Ok(())
}

#[test]
fn loads_where_one_block_holds_all_bytes(rt: HostRuntime) -> Result<(), Fail> {
    let blocks = three(rt.alloc())?;
    assert_eq!(rt; blocks.load8(4096), Ok(0x3736353433323130));
    assert_eq!(rt; blocks.load8(4104), Ok(0x6665646362613938));
    assert_eq!(rt; blocks.load8(4105), Err(Outside));
    assert_eq!(rt; blocks.load8(4112), Ok(0x4847464544434241));
    assert_eq!(rt; blocks.load8(4095), Err(Outside));
    assert_eq!(rt; blocks.load16(4096), Ok(0x66656463626139383736353433323130));
    assert_eq!(rt; blocks.load16(4097), Err(Outside));
    assert_eq!(rt; blocks.load8(u64::MAX - 7), Ok(0x217a797877767574));
    assert_eq!(rt; blocks.load8(u64::MAX), Err(Outside));
    Ok(())
}

#[test]
fn loads_short_numbers_at_the_end_of_a_block(rt: HostRuntime) -> Result<(), Fail> {
    let blocks = three(rt.alloc())?;
    assert_eq!(rt; blocks.load1(4119), Ok(b'H'));
    assert_eq!(rt; blocks.load1(4120), Err(Outside));
    assert_eq!(rt; blocks.load1(u64::MAX), Ok(b'!'));
    assert_eq!(rt; blocks.load4(4116), Ok(0x48474645));
    assert_eq!(rt; blocks.load4(4117), Err(Outside));
    assert_eq!(rt; blocks.load4(4110), Err(Outside));
    assert_eq!(rt; blocks.load4(u64::MAX - 3), Ok(0x217a7978));
    Ok(())
}

#[test]
fn stores_four_bytes_alone(rt: HostRuntime) -> Result<(), Fail> {
    let mut blocks = three(rt.alloc())?;
    assert_eq!(rt; blocks.store4(4108, 0x04030201), Ok(()));
    assert_eq!(rt; blocks.load8(4104), Ok(0x0403020162613938));
    assert_eq!(rt; blocks.load8(4112), Ok(0x4847464544434241));
    assert_eq!(rt; blocks.store4(4109, 0), Err(Outside));
    assert_eq!(rt; blocks.load4(4108), Ok(0x04030201));
    Ok(())
}

#[test]
fn stores_where_one_block_holds_all_bytes(rt: HostRuntime) -> Result<(), Fail> {
    let mut blocks = three(rt.alloc())?;
    assert_eq!(rt; blocks.store8(4104, 0x0807060504030201), Ok(()));
    assert_eq!(rt; blocks.load8(4104), Ok(0x0807060504030201));
    assert_eq!(rt; blocks.load8(4096), Ok(0x3736353433323130));
    assert_eq!(rt; blocks.store8(4105, 0), Err(Outside));
    assert_eq!(rt; blocks.load8(4112), Ok(0x4847464544434241));
    assert_eq!(rt; blocks.store16(4096, 5), Ok(()));
    assert_eq!(rt; blocks.load16(4096), Ok(5));
    assert_eq!(rt; blocks.store16(4112, 5), Err(Outside));
    Ok(())
}
