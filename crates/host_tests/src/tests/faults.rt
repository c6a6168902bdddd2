//! Runs over images in which calls of the device fail.
use super::images::{ABSENT, EMPTY, READ, STORED, WHOLE, rig_after};
use super::{SMALL, formatted, run_on};
use apex_host::Status;
use apex_types::{CallKind, OutOfMemory};
use rig_core::{MemRig, PendingBytes};
use std::alloc::Global;
use std::test::Fail;
use test_fixtures::{after_cut, failing, rig_of};

/// What is told where the device fails in a line of the first flight that writes.
const HALTED_IN_1: &[u8] = b"1 NOT_AVAILABLE EIO HALTED\n";

const HALTED_IN_3: &[u8] = b"1 NO_ERROR - 1\n2 NO_ERROR - 2\n3 NOT_AVAILABLE EIO HALTED\n";

/// Whether a rig, where power fails, holds the file in one of its states.
fn is_left(alloc: Global, rig: &MemRig) -> Result<bool, OutOfMemory> {
    let mut cut = after_cut(alloc, rig, rig.records(), PendingBytes::EvenBlocks)?;
    let ended = run_on(alloc, SMALL, READ, &mut cut)?;
    let texts = [ABSENT, EMPTY, WHOLE];
    Ok(ended == Status::Done && texts.iter().any(|told| cut.told() == *told))
}

/// Whether the first flight, in which a call of this kind and number fails, ends in a line and tells so.
fn halts(alloc: Global, kind: CallKind, number: u64, told: &[u8]) -> Result<bool, OutOfMemory> {
    let image = formatted(alloc, SMALL)?;
    let mut rig = rig_of(alloc, image.bytes(), failing(alloc, &[(kind, number)])?)?;
    let ended = run_on(alloc, SMALL, STORED, &mut rig)?;
    Ok(ended == Status::DeviceFault && rig.told() == told && is_left(alloc, &rig)?)
}

/// The file is made by two writes with two syncs, and synchronised by five writes with three.
#[test]
fn each_write_and_sync_of_a_run_can_fail(rt: HostRuntime) -> Result<(), Fail> {
    let alloc = rt.alloc();
    for number in 1..8u64 {
        let told = if number < 3 { HALTED_IN_1 } else { HALTED_IN_3 };
        assert!(rt; halts(alloc, CallKind::Write, number, told)?);
    }
    for number in 1..6u64 {
        let told = if number < 3 { HALTED_IN_1 } else { HALTED_IN_3 };
        assert!(rt; halts(alloc, CallKind::Sync, number, told)?);
    }
    Ok(())
}

/// A line that tells a fault of the device, and can't be told.
#[test]
fn a_fault_line_that_cannot_be_told_is_a_telling_fault(rt: HostRuntime) -> Result<(), Fail> {
    let alloc = rt.alloc();
    let calls = [(CallKind::Write, 1), (CallKind::Tell, 1)];
    let image = formatted(alloc, SMALL)?;
    let mut rig = rig_of(alloc, image.bytes(), failing(alloc, &calls)?)?;
    let ended = run_on(alloc, SMALL, STORED, &mut rig)?;
    assert!(rt; ended == Status::ReplyFault);
    assert!(rt; HALTED_IN_1.starts_with(rig.told()));
    Ok(())
}

const READ_TWICE: &[u8] =
    b"FMS OPEN_FILE /NV1/FMS/A READ_ONLY\nFMS READ_FILE 1 2\nFMS READ_FILE 1 2\n";

/// Both reads, and a first one that failed: the position stays then, and the second reads the bytes.
const READ_ONCE: &[u8] = b"1 NO_ERROR - 1\n2 NO_ERROR - 2 6869\n3 NO_ERROR - 0 .\n";

const UNREAD_ONCE: &[u8] = b"1 NO_ERROR - 1\n2 NOT_AVAILABLE EIO\n3 NO_ERROR - 2 6869\n";

/// Whether the read of this number fails in the mount, or in a line that is answered so; the first of the two is told.
fn read_fails(alloc: Global, image: &[u8], number: u64) -> Result<Option<bool>, OutOfMemory> {
    let mut rig = rig_of(alloc, image, failing(alloc, &[(CallKind::Read, number)])?)?;
    let ended = run_on(alloc, SMALL, READ_TWICE, &mut rig)?;
    match ended {
        Status::DeviceFault if rig.told() == b"device fault mount\n".as_slice() => Ok(Some(true)),
        Status::Done if rig.told() == UNREAD_ONCE => Ok(Some(false)),
        _ => Ok(None),
    }
}

/// Whether each read of the good run can fail: those of the mount end it, and the last is the file's.
fn each_read_fails(alloc: Global) -> Result<bool, OutOfMemory> {
    let Some(stored) = rig_after(alloc, SMALL, STORED)? else {
        return Ok(false);
    };
    let mut good = rig_of(alloc, stored.view(), failing(alloc, &[])?)?;
    let ended = run_on(alloc, SMALL, READ_TWICE, &mut good)?;
    let reads = good.made(CallKind::Read);
    for before in 0..reads {
        let number = before + 1;
        if read_fails(alloc, stored.view(), number)? != Some(number < reads) {
            return Ok(false);
        }
    }
    Ok(ended == Status::Done && good.told() == READ_ONCE)
}

#[test]
fn a_read_that_fails_ends_the_mount_and_not_the_run(rt: HostRuntime) -> Result<(), Fail> {
    assert!(rt; each_read_fails(rt.alloc())?);
    Ok(())
}
