//! Trees that are filled to their quota, and writes past the buffers.
ghost use Rattle.std.specs.Prelude.{◌≡◌, ◌*◌, ◌≤◌, OnOk};
ghost use Rattle.rig_core.specs.Leaves.{IsAllSettled};
ghost use Rattle.tree_store.specs.Stored.{IsStored};

use crate::flights::{Change, Run, Stop, carry_out, fly, mounted, small_store, write};
use crate::found::has_file;
use crate::regions::{LARGE, SMALL, empty_rig, large_row};
use apex_types::{CallKind, Errno, FailList};
use rig_core::{MemRig, Rig};
use std::alloc::Global;
use tree_store::TreeStore;

const A: &[u8] = b"/NV1/FMS/A";

/// 4,096 bytes of one value from a place on.
fn run(from: u32, byte: u8) -> Run {
    Run {
        from,
        count: 4096,
        byte,
    }
}

/// Fills all 16 blocks of the quota with one value, durably.
fn fill<R: Rig>(store: &mut TreeStore, rig: &mut R, byte: u8) -> Result<(), Stop>
    requires stored { IsStored R.tells_view (R.state rig.old) store.old }
    ensures stored { OnOk result (IsStored R.tells_view (R.state rig.new) store.new) }
{
    let front = Change::Write(A, run(0, byte));
    let back = Change::Write(A, run(4096, byte));
    fly(store, rig, &[front, back, Change::Sync(A)])
}

/// Makes the file, and fills all blocks of the quota seven times.
fn fill_again_and_again<R: Rig>(store: &mut TreeStore, rig: &mut R) -> Result<(), Stop>
    requires stored { IsStored R.tells_view (R.state rig.old) store.old }
    ensures stored { OnOk result (IsStored R.tells_view (R.state rig.new) store.new) }
{
    carry_out(store, rig, Change::MakeFile(A))?;
    for byte in 1..8 {
        fill(store, rig, byte)?;
    }
    Ok(())
}

/// Whether all blocks of the quota are charged for, no byte more is written, and the last ones are there.
fn is_full<R: Rig>(alloc: Global, store: &mut TreeStore, rig: &mut R) -> bool
    requires stored { IsStored R.tells_view (R.state rig.old) store.old }
{
    let beyond = Run {
        from: 8192,
        count: 1,
        byte: 9,
    };
    store.charge() == 16
        && write(store, rig, A, beyond) == Err(Stop::Refused(Errno::Enospc))
        && has_file(alloc, store, rig, A, Some(&[(7, 8192)]))
}

/// Whether a tree whose file has all blocks of the quota takes each of them anew, time after time, and no byte more.
fn moves_its_blocks<R: Rig>(alloc: Global, rig: &mut R) -> bool
    requires fits { 83968 ≤ (R.state rig.old).size }
    requires settled { IsAllSettled (R.state rig.old) }
{
    let Ok(mut store) = small_store(alloc, rig) else {
        return false;
    };
    let Ok(()) = fill_again_and_again(&mut store, rig) else {
        return false;
    };
    is_full(alloc, &mut store, rig)
}

/// Whether that is so of a disk in memory.
fn full_tree_moves_its_blocks(alloc: Global) -> bool {
    match empty_rig(alloc, SMALL, FailList::new(alloc)) {
        Ok(mut rig) => moves_its_blocks(alloc, &mut rig),
        Err(_) => false,
    }
}

#[test]
fn a_full_tree_moves_its_blocks(rt: HostRuntime) {
    assert!(rt; full_tree_moves_its_blocks(rt.alloc()));
}

/// Makes a file, and writes sixteen times 4,096 bytes, each time of another value, with no sync.
fn write_on<R: Rig>(store: &mut TreeStore, rig: &mut R) -> Result<(), Stop>
    requires stored { IsStored R.tells_view (R.state rig.old) store.old }
{
    carry_out(store, rig, Change::MakeFile(A))?;
    for k in 0..16u8 {
        write(store, rig, A, run(4096 * u32::from(k), k + 1))?;
    }
    Ok(())
}

/// Whether that is done in a tree of 48 buffers.
fn writes_past_the_buffers<R: Rig>(alloc: Global, rig: &mut R) -> bool
    requires fits { 199680 ≤ (R.state rig.old).size }
    requires settled { IsAllSettled (R.state rig.old) }
{
    match mounted(alloc, rig, &large_row()) {
        Ok(mut store) => write_on(&mut store, rig).is_ok(),
        Err(_) => false,
    }
}

/// How many blocks of an image have this byte alone.
fn blocks_of(image: &[u8], byte: u8) -> usize {
    image
        .chunks(512)
        .filter(|block| block.iter().all(|b| *b == byte))
        .count()
}

/// Of the sixteen writes, how many are on the device with all their blocks.
fn writes_on_device(rig: &MemRig) -> usize {
    (1..17u8)
        .filter(|byte| blocks_of(rig.view(), *byte) == 8)
        .count()
}

/// Whether most contents are on the device behind the writes, with no sync but the two of the file's name.
fn contents_leave_memory(alloc: Global) -> bool {
    match empty_rig(alloc, LARGE, FailList::new(alloc)) {
        Ok(mut rig) => {
            writes_past_the_buffers(alloc, &mut rig)
                && writes_on_device(&rig) >= 10
                && rig.made(CallKind::Sync) == 2
        }
        Err(_) => false,
    }
}

#[test]
fn contents_leave_memory_before_they_are_synchronised(rt: HostRuntime) {
    assert!(rt; contents_leave_memory(rt.alloc()));
}
