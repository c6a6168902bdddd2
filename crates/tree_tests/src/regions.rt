// Regions of trees, by their bytes: which are mounted, and with what.
use crate::fixture::{
    BODY, DIRECTORY, NUMBERS, OTHER_BODY, OTHER_GATE, RECORDS, SECOND_FILE, disk, empty_region,
    small_row,
};
use apex_types::{CallKind, FailList, FileNode, Path, Spot};
use std::alloc::Global;
use std::test::Fail;
use test_fixtures::{failing, put};
use tree_region::{MountStop, TreeRegion, mount};

// The directory D, and in it the file A with 600 bytes in the data blocks 2 and 3. The journal makes the file B, and
// moves D/A to C.
fn built_by_hand(alloc: Global) -> Result<Vec<u8>, Fail> {
    let mut image = empty_region(alloc, 2)?;
    put(
        &mut image,
        DIRECTORY,
        &[1, 1, 0, 0, 0, 0, 0, 0, 0, 0, 0, 0, 68],
    );
    put(
        &mut image,
        SECOND_FILE,
        &[1, 1, 1, 0, 88, 2, 0, 0, 5, 0, 0, 0, 65],
    );
    put(&mut image, NUMBERS, &[2, 0, 0, 0, 3]);
    put(&mut image, RECORDS, &[0xA5]);
    put(&mut image, RECORDS + 512, &[1, 0, 0, 1, 66]);
    put(&mut image, RECORDS + 1024, &[0xA5]);
    put(&mut image, RECORDS + 1536, &[5, 1, 0, 1, 67]);
    Ok(image)
}

// The same with bytes at a place.
fn built_with(alloc: Global, at: usize, bytes: &[u8]) -> Result<Vec<u8>, Fail> {
    let mut image = built_by_hand(alloc)?;
    put(&mut image, at, bytes);
    Ok(image)
}

fn mounted(
    alloc: Global,
    image: &[u8],
    fails: FailList,
) -> Result<Result<TreeRegion, MountStop>, Fail> {
    let mut rig = disk(alloc, image, fails)?;
    Ok(mount(alloc, &mut rig, &small_row(), 0))
}

// Whether a region is mounted with so many files, and room for so many records.
fn has_files(alloc: Global, image: &[u8], files: u32, room: u32) -> Result<bool, Fail> {
    match mounted(alloc, image, FailList::new(alloc))? {
        Err(_) => Ok(false),
        Ok(region) => Ok(region.tree.files() == files && region.journal.room() == room),
    }
}

// Whether the file C has the second entry, and its blocks the numbers 2 and 3.
fn has_blocks(region: &TreeRegion) -> bool {
    let Ok(path) = Path::read(b"/NV1/FMS/C") else {
        return false;
    };
    let Ok(Spot::File { node, .. }) = region.tree.walk(&path) else {
        return false;
    };
    node.0 == 1
        && region.block(FileNode(1), 0) == 2
        && region.block(FileNode(1), 1) == 3
        && region.block(FileNode(1), 2) == 0
}

fn has_second_file(alloc: Global) -> Result<bool, Fail> {
    match mounted(alloc, &built_by_hand(alloc)?, FailList::new(alloc))? {
        Err(_) => Ok(false),
        Ok(region) => Ok(has_blocks(&region) && region.version == 2),
    }
}

#[test]
fn regions_are_mounted(rt: HostRuntime) -> Result<(), Fail> {
    let alloc = rt.alloc();
    assert!(rt; has_files(alloc, &empty_region(alloc, 2)?, 0, 32)?);
    assert!(rt; has_files(alloc, &built_by_hand(alloc)?, 2, 30)?);
    assert!(rt; has_second_file(alloc)?);
    // slot 1 is open and newer
    let mut image = built_with(alloc, OTHER_GATE, &[0xA5])?;
    put(&mut image, OTHER_BODY, &[1, 2]);
    assert!(rt; has_files(alloc, &image, 0, 32)?);
    Ok(())
}

fn is_bad(alloc: Global, image: &[u8]) -> Result<bool, Fail> {
    let region = mounted(alloc, image, FailList::new(alloc))?;
    Ok(matches!(&region, Err(MountStop::Bad)))
}

#[test]
fn one_bad_byte_is_told(rt: HostRuntime) -> Result<(), Fail> {
    let cases: [(usize, u8); 17] = [
        // the gate, the header, and the other gate
        (0, 0),
        (BODY, 3),
        (BODY + 1, 3),
        (BODY + 2, 1),
        (OTHER_GATE, 0xA5),
        // a size over the limit, and more blocks than the quota
        (SECOND_FILE + 6, 17),
        (SECOND_FILE + 5, 33),
        // a number over twice the quota, one that stands twice, one behind all blocks, and padding behind the numbers
        (NUMBERS, 31),
        (NUMBERS + 4, 2),
        (NUMBERS + 8, 1),
        (NUMBERS + 60, 1),
        // a parent that isn't there, and a directory's size
        (SECOND_FILE + 2, 2),
        (DIRECTORY + 4, 1),
        // records: a kind and a name that aren't spelled, an entry that is used, and a parent that isn't there
        (RECORDS + 512, 6),
        (RECORDS + 516, b'/'),
        (RECORDS + 513, 1),
        (RECORDS + 514, 2),
    ];
    for (at, byte) in cases {
        let image = built_with(rt.alloc(), at, &[byte])?;
        assert!(rt; is_bad(rt.alloc(), &image)?, "byte {at}");
    }
    Ok(())
}

// Whether a mount tells a fault of the device where its read of this number fails.
fn is_told(alloc: Global, number: u64) -> Result<bool, Fail> {
    let fails = failing(alloc, &[(CallKind::Read, number)])?;
    let region = mounted(alloc, &built_by_hand(alloc)?, fails)?;
    Ok(matches!(&region, Err(MountStop::Device)))
}

#[test]
fn a_failed_read_is_told(rt: HostRuntime) -> Result<(), Fail> {
    for number in 1..8u64 {
        assert!(rt; is_told(rt.alloc(), number)?, "read {number}");
    }
    Ok(())
}
