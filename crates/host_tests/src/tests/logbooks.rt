//! The calls of logbooks, from the script to the told lines, and over images.
use super::file_calls::tells;
use super::images::{is_left, rig_after};
use super::{SMALL, run_on};
use apex_host::Status;
use apex_types::{CallKind, OutOfMemory};
use std::alloc::Global;
use std::test::Fail;
use test_fixtures::{failing, rig_of};

/// Five messages, each moved by a tick, and what is read of them.
const ENTRIES: &[u8] = b"FMS CREATE_LOGBOOK FAULTS
FMS WRITE_LOGBOOK 1 01
TICK 1
FMS WRITE_LOGBOOK 1 02
TICK 1
FMS WRITE_LOGBOOK 1 03
TICK 1
FMS WRITE_LOGBOOK 1 04
TICK 1
FMS WRITE_LOGBOOK 1 05
TICK 1
FMS READ_LOGBOOK 1 1
FMS READ_LOGBOOK 1 4
FMS READ_LOGBOOK 1 5
FMS GET_LOGBOOK_STATUS 1
";

const ENTRIES_TOLD: &[u8] = b"1 NO_ERROR - 1
2 NO_ERROR -
4 NO_ERROR -
6 NO_ERROR -
8 NO_ERROR -
10 NO_ERROR -
12 NO_ERROR - COMPLETE 1 05
13 NO_ERROR - COMPLETE 1 02
14 NOT_AVAILABLE -
15 NO_ERROR - 16 4 2 4 0
";

/// The same reads in a run of their own.
const READ_AGAIN: &[u8] = b"FMS CREATE_LOGBOOK FAULTS
FMS READ_LOGBOOK 1 1
FMS READ_LOGBOOK 1 4
FMS READ_LOGBOOK 1 5
FMS GET_LOGBOOK_STATUS 1
";

const READ_AGAIN_TOLD: &[u8] = b"1 NO_ERROR - 1
2 NO_ERROR - COMPLETE 1 05
3 NO_ERROR - COMPLETE 1 02
4 NOT_AVAILABLE -
5 NO_ERROR - 16 4 2 4 0
";

#[test]
fn the_last_four_of_five_moved_messages_are_read(rt: HostRuntime) -> Result<(), Fail> {
    assert!(rt; tells(rt.alloc(), SMALL, ENTRIES, ENTRIES_TOLD)?);
    Ok(())
}

/// Whether power that fails behind the run leaves all that was told as complete.
fn entries_survive(alloc: Global) -> Result<bool, OutOfMemory> {
    let Some(rig) = rig_after(alloc, SMALL, ENTRIES)? else {
        return Ok(false);
    };
    let all = rig.records();
    is_left(
        alloc,
        SMALL,
        &rig,
        all,
        READ_AGAIN,
        READ_AGAIN_TOLD,
        READ_AGAIN_TOLD,
    )
}

#[test]
fn complete_entries_are_there_after_a_cut(rt: HostRuntime) -> Result<(), Fail> {
    assert!(rt; entries_survive(rt.alloc())?);
    Ok(())
}

#[test]
fn a_full_list_refuses_or_gives_its_newest_place(rt: HostRuntime) -> Result<(), Fail> {
    let script =
        b"FMS CREATE_LOGBOOK FAULTS\nFMS WRITE_LOGBOOK 1 01\nFMS WRITE_LOGBOOK 1 02\nFMS WRITE_LOGBOOK 1 03\nFMS OVERWRITE_LOGBOOK 1 04\nFMS READ_LOGBOOK 1 1\nFMS READ_LOGBOOK 1 2\nFMS CLEAR_LOGBOOK 1\nFMS READ_LOGBOOK 1 1\n";
    let told =
        b"1 NO_ERROR - 1\n2 NO_ERROR -\n3 NO_ERROR -\n4 NOT_AVAILABLE -\n5 NO_ERROR -\n6 NO_ERROR - IN_PROGRESS 1 04\n7 NO_ERROR - IN_PROGRESS 1 01\n8 NO_ERROR -\n9 NOT_AVAILABLE -\n";
    assert!(rt; tells(rt.alloc(), SMALL, script, told)?);
    Ok(())
}

const HALTED: &[u8] = b"1 NO_ERROR - 1\n2 NOT_AVAILABLE EIO HALTED\n";

/// Whether a run ends with a fault where the last read fails, which is that of a logged entry.
fn entry_read_fails(alloc: Global) -> Result<bool, OutOfMemory> {
    let Some(stored) = rig_after(alloc, SMALL, ENTRIES)? else {
        return Ok(false);
    };
    let script = b"FMS CREATE_LOGBOOK FAULTS\nFMS READ_LOGBOOK 1 1\n";
    let mut good = rig_of(alloc, stored.view(), failing(alloc, &[])?)?;
    let ended_well = run_on(alloc, SMALL, script, &mut good)? == Status::Done;
    let last = good.made(CallKind::Read);
    let mut rig = rig_of(
        alloc,
        stored.view(),
        failing(alloc, &[(CallKind::Read, last)])?,
    )?;
    let ended = run_on(alloc, SMALL, script, &mut rig)?;
    Ok(ended_well && ended == Status::DeviceFault && rig.told() == HALTED)
}

#[test]
fn a_read_of_an_entry_that_fails_ends_the_run(rt: HostRuntime) -> Result<(), Fail> {
    assert!(rt; entry_read_fails(rt.alloc())?);
    Ok(())
}
