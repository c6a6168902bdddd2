//! Modes, contexts and restarts, from the script to the told lines.
use super::SMALL;
use super::file_calls::tells;
use std::test::Fail;

#[test]
fn an_idle_partition_is_refused_and_a_restart_closes_its_handles(
    rt: HostRuntime,
) -> Result<(), Fail> {
    let script = b"FMS OPEN_NEW_FILE /NV1/FMS/A
FMS MODE IDLE
FMS READ_FILE 1 1
FMS MODE NORMAL
FMS MODE COLD_START
FMS READ_FILE 1 1
FMS CONTEXT HANDLER
FMS OPEN_FILE /NV1/FMS/A READ_ONLY
";
    let told = b"1 NO_ERROR - 1
2 NO_ERROR -
3 INVALID_MODE EPERM
4 INVALID_MODE -
5 NO_ERROR -
6 INVALID_PARAM EBADF
7 NO_ERROR -
8 INVALID_MODE EPERM
";
    assert!(rt; tells(rt.alloc(), SMALL, script, told)?);
    Ok(())
}

/// A directive's answers in each mode and context, and what a restart forgets.
#[test]
fn modes_and_contexts_are_entered_or_refused(rt: HostRuntime) -> Result<(), Fail> {
    let script = b"FMS CREATE_LOGBOOK FAULTS
FMS CREATE_SAMPLING_PORT ALT
FMS MODE NORMAL
FMS MODE NORMAL
FMS CREATE_LOGBOOK FAULTS
FMS CONTEXT LOCKED
FMS MAKE_DIRECTORY /NV1/FMS/D
FMS WRITE_LOGBOOK 1 01
FMS WRITE_SAMPLING_MESSAGE 1 01
FMS MODE WARM_START
FMS MAKE_DIRECTORY /NV1/FMS/D
FMS WRITE_LOGBOOK 1 02
FMS WRITE_SAMPLING_MESSAGE 1 02
FMS CREATE_LOGBOOK FAULTS
FMS READ_LOGBOOK 1 1
FMS MODE IDLE
FMS CONTEXT ORDINARY
FMS MODE NORMAL
FMS GET_LOGBOOK_ID FAULTS
";
    let told = b"1 NO_ERROR - 1
2 NO_ERROR - 1
3 NO_ERROR -
4 NO_ACTION -
5 INVALID_MODE -
6 NO_ERROR -
7 INVALID_MODE EPERM
8 NO_ERROR -
9 NO_ERROR -
10 NO_ERROR -
11 NO_ERROR -
12 INVALID_PARAM -
13 INVALID_PARAM -
14 NO_ERROR - 1
15 NO_ERROR - IN_PROGRESS 1 01
16 NO_ERROR -
17 NO_ERROR -
18 INVALID_MODE -
19 INVALID_MODE -
";
    assert!(rt; tells(rt.alloc(), SMALL, script, told)?);
    Ok(())
}

#[test]
fn a_restart_leaves_those_who_read_its_file(rt: HostRuntime) -> Result<(), Fail> {
    let script = b"FMS OPEN_NEW_FILE /NV1/FMS/A
FMS WRITE_FILE 1 6869
DISP OPEN_FILE /NV1/FMS/A READ_ONLY
FMS MODE WARM_START
DISP READ_FILE 1 1
FMS READ_FILE 1 1
FMS REMOVE_FILE /NV1/FMS/A
DISP READ_FILE 1 1
FMS OPEN_NEW_FILE /NV1/FMS/B
";
    let told = b"1 NO_ERROR - 1
2 NO_ERROR - 2
3 NO_ERROR - 1
4 NO_ERROR -
5 NO_ERROR - 1 68
6 INVALID_PARAM EBADF
7 NO_ERROR -
8 NOT_AVAILABLE ESTALE
9 NO_ERROR - 1
";
    assert!(rt; tells(rt.alloc(), SMALL, script, told)?);
    Ok(())
}
