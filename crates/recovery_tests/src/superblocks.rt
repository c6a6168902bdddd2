// The superblock of an image is read.
use crate::fixture::{BYTES, SMALL, sevens, table_of};
use apex_types::{CallKind, FailList};
use recover_scan::{MountError, format, read_superblock};
use std::alloc::Global;
use std::test::Fail;
use test_fixtures::{put, rig_of};

// What is answered, as text; nothing where the superblock is the table's.
fn told(alloc: Global, answer: Result<(), MountError>) -> Result<String, Fail> {
    match answer {
        Ok(()) => Ok(String::new(alloc)),
        Err(error) => Ok(format!(in alloc; "{error}")?),
    }
}

// What is answered of the small table's empty image with another byte at a place.
fn changed(alloc: Global, at: usize, byte: u8) -> Result<String, Fail> {
    let table = table_of(alloc, SMALL)?;
    let mut rig = sevens(alloc, BYTES, 0xA5, &[])?;
    if format(alloc, &mut rig, &table).is_err() {
        return Err(Fail::from("format"));
    }
    let mut image = rig.view().to_vec(alloc)?;
    put(&mut image, at, &[byte]);
    let mut rig = rig_of(alloc, &image, FailList::new(alloc))?;
    told(alloc, read_superblock(alloc, &mut rig, &table))
}

#[test]
fn a_superblock_is_one_of_its_table_or_refused(rt: HostRuntime) -> Result<(), Fail> {
    let rows = [
        (1, 7, ""),
        (0, 0xA4, "the image is not formatted"),
        // The canonical bytes of the small table are 62, behind 4 of their length.
        (512, 63, "the image is of another table: place 0"),
        (577, 7, "the image is of another table: place 65"),
        (578, 7, ""),
    ];
    for (at, byte, text) in rows {
        assert_eq!(rt; changed(rt.alloc(), at, byte)?.as_str(), text);
    }
    Ok(())
}

// What is answered of a device of sevens behind an open gate, that fails at the listed calls.
fn of_sevens(alloc: Global, size: usize, calls: &[(CallKind, u64)]) -> Result<String, Fail> {
    let table = table_of(alloc, SMALL)?;
    let mut rig = sevens(alloc, size, 0xA5, calls)?;
    told(alloc, read_superblock(alloc, &mut rig, &table))
}

#[test]
fn a_superblock_that_cannot_be_read_is_a_fault(rt: HostRuntime) -> Result<(), Fail> {
    for number in [1, 2] {
        let text = of_sevens(rt.alloc(), BYTES, &[(CallKind::Read, number)])?;
        assert_eq!(rt; text.as_str(), "the device failed");
    }
    let small = "the device is too small: 100864 bytes are wanted";
    assert_eq!(rt; of_sevens(rt.alloc(), BYTES - 1, &[])?.as_str(), small);
    Ok(())
}
