// Regions by hand, and disks with them.
ghost use Rattle.std.specs.Prelude.{◌≡◌, ◌≤◌, IfOk};
ghost use Rattle.apex_model.specs.Layout.{tree_blocks};
ghost use Rattle.rig_core.specs.Leaves.{IsAllSettled};
ghost use Rattle.rig_core.specs.MemRig.{mem_state};

use apex_types::{FailList, PartitionId, Readers, TreeRow};
use rig_core::{MemRig, Rig};
use std::alloc::Global;
use std::test::Fail;
use test_fixtures::{put, rig_of};

// Two files, one directory and a quota of 15 blocks: a slot has 66 blocks, and the region 162.
const REGION: usize = 82944;

/// Where slot 0 has its body, the entries of its two files and its directory there, and the block numbers.
pub(crate) const BODY: usize = 512;

pub(crate) const FIRST_FILE: usize = 576;

pub(crate) const SECOND_FILE: usize = 704;

pub(crate) const DIRECTORY: usize = 832;

pub(crate) const NUMBERS: usize = 960;

/// Where slot 0 has the gate of its first record.
pub(crate) const RECORDS: usize = 1024;

/// The gate and the body of slot 1.
pub(crate) const OTHER_GATE: usize = 33792;

pub(crate) const OTHER_BODY: usize = 34304;

// The first byte of data block 1.
const DATA: usize = 67584;

/// The row of the tree.
pub(crate) fn small_row() -> TreeRow
    ensures region { tree_blocks result ≡ 162 }
    ensures files { result.files ≡ 2 }
    ensures buffers { result.dirty ≡ 16 }
{
    TreeRow {
        volume: 0,
        owner: PartitionId(0),
        readers: Readers::new(),
        quota: 15,
        files: 2,
        directories: 1,
        dirty: 16,
    }
}

/// A region of a version in which nothing is stored: the gate of slot 0 is open.
pub(crate) fn empty_region(alloc: Global, version: u8) -> Result<Vec<u8>, Fail> {
    let mut image = vec![in alloc; 0u8; REGION]?;
    put(&mut image, 0, &[0xA5]);
    put(&mut image, BODY, &[0, version]);
    Ok(image)
}

/// The file A with the bytes 7, 8 and 9 in data block 1, with the bytes of its change count.
pub(crate) fn region_with_count(alloc: Global, count: [u8; 4]) -> Result<Vec<u8>, Fail> {
    let mut image = empty_region(alloc, 2)?;
    put(&mut image, FIRST_FILE, &[1, 1, 0, 0, 3, 0, 0, 0]);
    put(&mut image, FIRST_FILE + 8, &count);
    put(&mut image, FIRST_FILE + 12, &[65]);
    put(&mut image, NUMBERS, &[1]);
    put(&mut image, DATA, &[7, 8, 9]);
    Ok(image)
}

/// The same in a region of a version, where A was changed 5 times. So many records make the file B and remove it again.
pub(crate) fn region_with_file(alloc: Global, version: u8, records: u8) -> Result<Vec<u8>, Fail> {
    let mut image = region_with_count(alloc, [5, 0, 0, 0])?;
    put(&mut image, BODY + 1, &[version]);
    for k in 0..records {
        let at = RECORDS + 1024 * usize::from(k);
        put(&mut image, at, &[0xA5]);
        if k % 2 == 0 {
            put(&mut image, at + 512, &[1, 1, 0, 1, 66]);
        } else {
            put(&mut image, at + 512, &[3, 1]);
        }
    }
    Ok(image)
}

/// The file A of 1300 bytes, a block of twos, one of zeros that has no number, and threes; and the file B of 10 ones.
pub(crate) fn region_with_blocks(alloc: Global) -> Result<Vec<u8>, Fail> {
    let mut image = empty_region(alloc, 2)?;
    put(
        &mut image,
        FIRST_FILE,
        &[1, 1, 0, 0, 20, 5, 0, 0, 7, 0, 0, 0, 65],
    );
    put(
        &mut image,
        SECOND_FILE,
        &[1, 1, 0, 0, 10, 0, 0, 0, 1, 0, 0, 0, 66],
    );
    put(
        &mut image,
        NUMBERS,
        &[2, 0, 0, 0, 0, 0, 0, 0, 3, 0, 0, 0, 1],
    );
    for k in 1..4u8 {
        put(&mut image, DATA + 512 * usize::from(k - 1), &[k; 512]);
    }
    Ok(image)
}

/// A disk with the image of a region, which fails at the listed calls.
pub(crate) fn disk(alloc: Global, image: &[u8], failing: FailList) -> Result<MemRig, Fail>
    ensures fits { IfOk result (λ rig. 82944 ≤ (mem_state rig).size) }
    ensures settled { IfOk result (λ rig. IsAllSettled (mem_state rig)) }
{
    let rig = rig_of(alloc, image, failing)?;
    if rig.size() < REGION as u64 {
        return Err(Fail::from("size"));
    }
    Ok(rig)
}
