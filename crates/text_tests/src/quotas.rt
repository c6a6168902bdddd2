//! Charges within a quota, and used blocks.
use apex_types::{FileNode, OutOfMemory};
use block_quota::{Blocks, Charges};
use std::alloc::Global;
use std::test::Fail;

const FIRST: FileNode = FileNode(0);

const SECOND: FileNode = FileNode(1);

/// Whether a file that was charged for 3 blocks of 5 stays so until it is settled.
fn charges_stay(alloc: Global) -> Result<bool, OutOfMemory> {
    let mut charges = Charges::new(alloc, 5, 2)?;
    if !charges.raise(FIRST, 3) {
        return Ok(false);
    }
    if !charges.raise(FIRST, 1) {
        return Ok(false);
    }
    if charges.of(FIRST) != 3 || !charges.fits(SECOND, 2) {
        return Ok(false);
    }
    if charges.raise(SECOND, 3) {
        return Ok(false);
    }
    charges.settle(FIRST, 1);
    Ok(charges.raise(SECOND, 4) && charges.total() == 5)
}

/// The blocks that are taken of 4, of which 2 is used, and then given back.
fn taken(alloc: Global) -> Result<[Option<u32>; 5], OutOfMemory> {
    let mut blocks = Blocks::new(alloc, 2)?;
    let marked = blocks.mark(2);
    let [first, second] = [blocks.take(), blocks.take()];
    if marked {
        blocks.give(2);
    }
    Ok([first, second, blocks.take(), blocks.take(), blocks.take()])
}

#[test]
fn a_charge_stays_until_it_is_settled(rt: HostRuntime) -> Result<(), Fail> {
    assert!(rt; charges_stay(rt.alloc())?);
    Ok(())
}

#[test]
fn the_least_free_block_is_taken(rt: HostRuntime) -> Result<(), Fail> {
    let expected = [Some(1), Some(3), Some(2), Some(4), None];
    assert!(rt; taken(rt.alloc())? == expected);
    Ok(())
}
