//! Regions of trees in which nothing is stored.
ghost use Rattle.std.specs.Prelude.{◌≡◌, ◌≤◌, IfOk};
ghost use Rattle.apex_model.specs.Layout.{tree_blocks};
ghost use Rattle.rig_core.specs.Leaves.{IsAllSettled};
ghost use Rattle.rig_core.specs.MemRig.{mem_state};

use apex_types::{FailList, OutOfMemory, PartitionId, Readers, TreeRow};
use rig_core::MemRig;
use std::alloc::Global;
use test_fixtures::{put, rig_of};

/// Two files, one directory, a quota of 16 blocks and 16 buffers.
pub(crate) fn small_row() -> TreeRow
    ensures region { tree_blocks result ≡ 164 }
    ensures buffers { 9 ≤ result.dirty }
{
    TreeRow {
        volume: 0,
        owner: PartitionId(0),
        readers: Readers::new(),
        quota: 16,
        files: 2,
        directories: 1,
        dirty: 16,
    }
}

/// Two files, one directory, a quota of 128 blocks and 48 buffers.
pub(crate) fn large_row() -> TreeRow
    ensures region { tree_blocks result ≡ 390 }
    ensures buffers { 9 ≤ result.dirty }
{
    TreeRow {
        volume: 0,
        owner: PartitionId(0),
        readers: Readers::new(),
        quota: 128,
        files: 2,
        directories: 1,
        dirty: 48,
    }
}

/// The bytes of the regions of either row.
pub(crate) const SMALL: usize = 83968;

pub(crate) const LARGE: usize = 199680;

/// A disk of so many bytes that fails at the listed calls, with a region that is formatted and in which nothing is stored.
pub(crate) fn empty_rig(
    alloc: Global,
    bytes: usize,
    failing: FailList,
) -> Result<MemRig, OutOfMemory>
    ensures size { IfOk result (λ rig. (mem_state rig).size ≡ bytes) }
    ensures settled { IfOk result (λ rig. IsAllSettled (mem_state rig)) }
{
    rig_of_version(alloc, bytes, 2, failing)
}

/// The same in a version of bodies: the first slot's gate is open, and its body has sequence number 0.
pub(crate) fn rig_of_version(
    alloc: Global,
    bytes: usize,
    version: u8,
    failing: FailList,
) -> Result<MemRig, OutOfMemory>
    ensures size { IfOk result (λ rig. (mem_state rig).size ≡ bytes) }
    ensures settled { IfOk result (λ rig. IsAllSettled (mem_state rig)) }
{
    let mut image = vec![in alloc; 0u8; bytes]?;
    put(&mut image, 0, &[0xA5]);
    put(&mut image, 512, &[0, version]);
    rig_of(alloc, &image, failing)
}
