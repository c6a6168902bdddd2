//! The seven calls of logbooks: what each refuses, and what it comes to.
use crate::steps::{Act, DISP, FMS, Logbooks, Step, Told, unused_device};
use apex_types::{FailList, Mode, ReturnCode};
use std::alloc::Global;
use std::test::Fail;

const PARAM: Told<'static> = Told::Refused(ReturnCode::InvalidParam);

const CONFIG: Told<'static> = Told::Refused(ReturnCode::InvalidConfig);

const MODE: Told<'static> = Told::Refused(ReturnCode::InvalidMode);

const NONE: Told<'static> = Told::Refused(ReturnCode::NotAvailable);

const LONG: &[u8] = b"seventeen letters";

const LONGEST: &[u8] = b"sixteen letters!";

/// Steps that are taken in a mode.
type Stage<'a> = (Mode, &'a [Step<'a>]);

/// Takes stages from an unused device on, and answers the first stage and step that is replied to otherwise.
fn first_other(alloc: Global, stages: &[Stage<'_>]) -> Result<Option<(usize, usize)>, Fail> {
    let mut rig = unused_device(alloc, FailList::new(alloc))?;
    let mut logbooks = Logbooks::mount(alloc, &mut rig)?;
    for (stage, (mode, steps)) in stages.iter().enumerate() {
        if let Some(step) = logbooks.first_other(alloc, &mut rig, *mode, steps)? {
            return Ok(Some((stage, step)));
        }
    }
    Ok(None)
}

#[test]
fn a_logbook_is_created_once_and_not_in_normal(rt: HostRuntime) -> Result<(), Fail> {
    let starting: [Step<'_>; 8] = [
        (FMS, Act::GetId(b"FAULTS"), CONFIG),
        (FMS, Act::Create(b"NONE"), CONFIG),
        (FMS, Act::Create(b"EVENTS"), CONFIG),
        (FMS, Act::Create(b"FAULTS"), Told::Id(1)),
        (
            FMS,
            Act::Create(b"FAULTS"),
            Told::Refused(ReturnCode::NoAction),
        ),
        (FMS, Act::Create(b"FLIGHT"), Told::Id(2)),
        (DISP, Act::GetId(b"EVENTS"), CONFIG),
        (DISP, Act::GetId(b"FAULTS"), CONFIG),
    ];
    let normal: [Step<'_>; 5] = [
        (DISP, Act::Create(b"EVENTS"), MODE),
        (FMS, Act::Create(b"FAULTS"), MODE),
        (FMS, Act::Create(b"NONE"), MODE),
        (FMS, Act::GetId(b"FLIGHT"), Told::Id(2)),
        (FMS, Act::GetId(b"NONE"), CONFIG),
    ];
    let warm: [Step<'_>; 2] = [
        (DISP, Act::Create(b"EVENTS"), Told::Id(1)),
        (DISP, Act::GetId(b"EVENTS"), Told::Id(1)),
    ];
    let stages: [Stage<'_>; 3] = [
        (Mode::ColdStart, &starting),
        (Mode::Normal, &normal),
        (Mode::WarmStart, &warm),
    ];
    assert_eq!(rt; first_other(rt.alloc(), &stages)?, None);
    Ok(())
}

#[test]
fn an_idle_partition_is_refused_first(rt: HostRuntime) -> Result<(), Fail> {
    let idle: [Step<'_>; 7] = [
        (FMS, Act::Create(b"NONE"), MODE),
        (FMS, Act::Write(9, b""), MODE),
        (FMS, Act::Overwrite(9, b""), MODE),
        (FMS, Act::Read(9, 0), MODE),
        (FMS, Act::Clear(9), MODE),
        (FMS, Act::GetId(b"NONE"), MODE),
        (FMS, Act::Status(9), MODE),
    ];
    assert_eq!(rt; first_other(rt.alloc(), &[(Mode::Idle, &idle)])?, None);
    Ok(())
}

#[test]
fn an_id_is_of_a_created_logbook_of_the_partition(rt: HostRuntime) -> Result<(), Fail> {
    let steps: [Step<'_>; 17] = [
        (FMS, Act::Create(b"FAULTS"), Told::Id(1)),
        (DISP, Act::Create(b"EVENTS"), Told::Id(1)),
        (DISP, Act::Write(1, b"of DISP"), Told::Done),
        (FMS, Act::Write(0, b"a"), PARAM),
        (FMS, Act::Write(2, b"a"), PARAM),
        (FMS, Act::Write(3, b"a"), PARAM),
        (DISP, Act::Write(2, b"a"), PARAM),
        (FMS, Act::Overwrite(0, b"a"), PARAM),
        (FMS, Act::Overwrite(2, b"a"), PARAM),
        (FMS, Act::Read(0, 1), PARAM),
        (FMS, Act::Read(2, 1), PARAM),
        (FMS, Act::Clear(0), PARAM),
        (FMS, Act::Clear(2), PARAM),
        (FMS, Act::Status(0), PARAM),
        (FMS, Act::Status(2), PARAM),
        (FMS, Act::Status(1), Told::Status([16, 2, 2, 0, 0])),
        (DISP, Act::Status(1), Told::Status([8, 1, 1, 0, 1])),
    ];
    assert_eq!(rt;
        first_other(rt.alloc(), &[(Mode::ColdStart, &steps)])?,
        None
    );
    Ok(())
}

#[test]
fn messages_are_in_progress_until_they_move(rt: HostRuntime) -> Result<(), Fail> {
    let start: [Step<'_>; 1] = [(FMS, Act::Create(b"FAULTS"), Told::Id(1))];
    let writes: [Step<'_>; 15] = [
        (FMS, Act::Write(1, b""), PARAM),
        (FMS, Act::Overwrite(1, b""), PARAM),
        (FMS, Act::Write(1, LONG), PARAM),
        (FMS, Act::Overwrite(1, LONG), PARAM),
        (FMS, Act::Read(1, 0), PARAM),
        (FMS, Act::Read(1, 1), NONE),
        (FMS, Act::Write(1, LONGEST), Told::Done),
        (FMS, Act::Overwrite(1, b"second"), Told::Done),
        (FMS, Act::Write(1, b"third"), NONE),
        (FMS, Act::Write(1, LONG), PARAM),
        (FMS, Act::Overwrite(1, b"newer"), Told::Done),
        (FMS, Act::Read(1, 1), Told::InProgress(b"newer")),
        (FMS, Act::Read(1, 2), Told::InProgress(LONGEST)),
        (FMS, Act::Read(1, 3), NONE),
        (FMS, Act::Status(1), Told::Status([16, 2, 2, 0, 2])),
    ];
    let moves: [Step<'_>; 16] = [
        (FMS, Act::Tick, Told::Done),
        (FMS, Act::Read(1, 1), Told::InProgress(b"newer")),
        (FMS, Act::Read(1, 2), Told::Complete(LONGEST)),
        (FMS, Act::Read(1, 3), NONE),
        (FMS, Act::Status(1), Told::Status([16, 2, 2, 1, 1])),
        (FMS, Act::Tick, Told::Done),
        (FMS, Act::Write(1, b"fourth"), Told::Done),
        (FMS, Act::Tick, Told::Done),
        (FMS, Act::Tick, Told::Done),
        (FMS, Act::Status(1), Told::Status([16, 2, 2, 2, 0])),
        (FMS, Act::Read(1, 1), Told::Complete(b"fourth")),
        (FMS, Act::Read(1, 2), Told::Complete(b"newer")),
        (FMS, Act::Read(1, 3), NONE),
        (FMS, Act::Write(1, b"fifth"), Told::Done),
        (FMS, Act::Read(1, 1), Told::InProgress(b"fifth")),
        (FMS, Act::Read(1, 3), Told::Complete(b"newer")),
    ];
    let clears: [Step<'_>; 5] = [
        (FMS, Act::Clear(1), Told::Done),
        (FMS, Act::Status(1), Told::Status([16, 2, 2, 0, 0])),
        (FMS, Act::Read(1, 1), NONE),
        (FMS, Act::Overwrite(1, b"sixth"), Told::Done),
        (FMS, Act::Read(1, 1), Told::InProgress(b"sixth")),
    ];
    let stages: [Stage<'_>; 4] = [
        (Mode::ColdStart, &start),
        (Mode::Normal, &writes),
        (Mode::Normal, &moves),
        (Mode::Normal, &clears),
    ];
    assert_eq!(rt; first_other(rt.alloc(), &stages)?, None);
    Ok(())
}

#[test]
fn a_life_ends_with_the_greatest_number(rt: HostRuntime) -> Result<(), Fail> {
    let steps: [Step<'_>; 14] = [
        (FMS, Act::Create(b"FLIGHT"), Told::Id(2)),
        (FMS, Act::Status(2), Told::Status([16, 2, 2, 0, 0])),
        (FMS, Act::Write(2, b"last"), Told::Done),
        (FMS, Act::Write(2, b"late"), CONFIG),
        (FMS, Act::Overwrite(2, b"late"), CONFIG),
        (FMS, Act::Write(2, b""), PARAM),
        (FMS, Act::Overwrite(2, LONG), PARAM),
        (FMS, Act::Read(2, 1), Told::InProgress(b"last")),
        (FMS, Act::Tick, Told::Done),
        (FMS, Act::Read(2, 1), Told::Complete(b"last")),
        (FMS, Act::Write(2, b"late"), CONFIG),
        (FMS, Act::Clear(2), Told::Done),
        (FMS, Act::Overwrite(2, b"late"), CONFIG),
        (FMS, Act::Status(2), Told::Status([16, 2, 2, 0, 0])),
    ];
    assert_eq!(rt;
        first_other(rt.alloc(), &[(Mode::ColdStart, &steps)])?,
        None
    );
    Ok(())
}

#[test]
fn a_restart_forgets_marks_and_keeps_messages(rt: HostRuntime) -> Result<(), Fail> {
    let steps: [Step<'_>; 16] = [
        (FMS, Act::Create(b"FAULTS"), Told::Id(1)),
        (DISP, Act::Create(b"EVENTS"), Told::Id(1)),
        (FMS, Act::Write(1, b"logged"), Told::Done),
        (FMS, Act::Tick, Told::Done),
        (FMS, Act::Write(1, b"kept"), Told::Done),
        (FMS, Act::Restart, Told::Done),
        (FMS, Act::Write(1, b"a"), PARAM),
        (FMS, Act::Read(1, 1), PARAM),
        (FMS, Act::Clear(1), PARAM),
        (FMS, Act::Status(1), PARAM),
        (FMS, Act::GetId(b"FAULTS"), CONFIG),
        (DISP, Act::GetId(b"EVENTS"), Told::Id(1)),
        (DISP, Act::Write(1, b"of DISP"), Told::Done),
        (FMS, Act::Create(b"FAULTS"), Told::Id(1)),
        (FMS, Act::Read(1, 1), Told::InProgress(b"kept")),
        (FMS, Act::Read(1, 2), Told::Complete(b"logged")),
    ];
    assert_eq!(rt;
        first_other(rt.alloc(), &[(Mode::ColdStart, &steps)])?,
        None
    );
    Ok(())
}
