//! Faults and power cuts at each call of a clear and of a move: each logbook is mounted as before or as after, by itself.
ghost use Rattle.std.specs.Prelude.{◌≡◌, ◌<◌, IfOk, length};
ghost use Rattle.rig_core.specs.Leaves.{IsAllSettled};
ghost use Rattle.rig_core.specs.MemRig.{mem_state};
ghost use Rattle.logbook_store.specs.Logs.{AreLaidOut, sites_of};
ghost use Rattle.logbook_tests.specs.InStep.{IsInStep};

use crate::steps::{
    Act, DISP, FMS, Logbooks, SIZE, Step, Stop, Told, three_logbooks, unused_device,
};
use apex_types::{CallKind, FailList, Mode};
use logbook_store::Logs;
use rig_core::{MemRig, PendingBytes, Rig};
use std::alloc::Global;
use std::test::Fail;
use test_fixtures::{CUTS, after_cut, failing, put, rig_of};

/// How many messages a logbook ever moved, how many are logged, and the first byte of the newest of these, 0 where there
/// is none.
type Found = (u32, u32, u8);

/// The first logbook's oldest message stands where its next goes, and in each logbook a message is in progress.
const BEFORE: [Found; 3] = [(3, 2, b'c'), (0, 0, 0), (4_294_967_294, 0, 0)];

const CLEARED: [Found; 3] = [(3, 0, 0), (0, 0, 0), (4_294_967_294, 0, 0)];

const MOVED: [Found; 3] = [(4, 2, b'd'), (1, 1, b'e'), (4_294_967_295, 1, b'f')];

fn found_in<R: Rig>(logs: &Logs, rig: &mut R, logbook: u32) -> Result<Found, Fail>
    requires logbook { logbook < length logs.now }
    requires laid_out { AreLaidOut (sites_of logs.now) (R.state rig.old).size }
    ensures { (R.state rig.new).size ≡ (R.state rig.old).size }
{
    let counts = logs.counts(logbook);
    if counts.logged == 0 {
        return Ok((counts.life, 0, 0));
    }
    match logs.entry(rig, logbook, 1) {
        Ok((_, bytes)) => Ok((
            counts.life,
            counts.logged,
            bytes.bytes().first().copied().unwrap_or(0),
        )),
        Err(_) => Err(Fail::from("device")),
    }
}

/// What is mounted from a device.
fn found_on<R: Rig>(alloc: Global, rig: &mut R) -> Result<[Found; 3], Fail> {
    let table = three_logbooks(alloc)?;
    if rig.size() < SIZE as u64 {
        return Err(Fail::from("size"));
    }
    let logs = match Logs::mount(alloc, rig, &table) {
        Ok(logs) => logs,
        Err(_) => return Err(Fail::from("mount")),
    };
    let faults = found_in(&logs, rig, 0)?;
    let events = found_in(&logs, rig, 1)?;
    let flight = found_in(&logs, rig, 2)?;
    Ok([faults, events, flight])
}

/// Logbooks that a device with nothing logged is filled with: both headers of the first were written.
fn filled<R: Rig>(alloc: Global, rig: &mut R) -> Result<Logbooks, Fail>
    requires { IsAllSettled (R.state rig.old) }
    ensures { IfOk result (λ new. IsInStep R.tells_view (R.state rig.new)
        new.table new.logs new.made) }
{
    let steps: [Step<'_>; 14] = [
        (FMS, Act::Create(b"FAULTS"), Told::Id(1)),
        (DISP, Act::Create(b"EVENTS"), Told::Id(1)),
        (FMS, Act::Create(b"FLIGHT"), Told::Id(2)),
        (FMS, Act::Clear(1), Told::Done),
        (FMS, Act::Write(1, b"a"), Told::Done),
        (FMS, Act::Tick, Told::Done),
        (FMS, Act::Write(1, b"b"), Told::Done),
        (FMS, Act::Tick, Told::Done),
        (FMS, Act::Write(1, b"c"), Told::Done),
        (FMS, Act::Tick, Told::Done),
        (FMS, Act::Tick, Told::Done),
        (FMS, Act::Write(1, b"d"), Told::Done),
        (DISP, Act::Write(1, b"e"), Told::Done),
        (FMS, Act::Write(2, b"f"), Told::Done),
    ];
    let mut logbooks = Logbooks::mount(alloc, rig)?;
    match logbooks.first_other(alloc, rig, Mode::ColdStart, &steps)? {
        None => Ok(logbooks),
        Some(_) => Err(Fail::from("filled")),
    }
}

/// Fills the logbooks of a device and makes a change, a clear of the first or a move: how many calls were recorded before
/// it, and whether the device served it.
fn run(alloc: Global, rig: &mut MemRig, act: Act<'_>) -> Result<(u32, bool), Fail>
    requires { IsAllSettled (mem_state rig.old) }
{
    let mut logbooks = filled(alloc, rig)?;
    let before = rig.records();
    match logbooks.carry_out(alloc, rig, FMS, Mode::Normal, act) {
        Ok(_) => Ok((before, true)),
        Err(Stop::Device) => Ok((before, false)),
        Err(Stop::Memory) => Err(Fail::from("memory")),
    }
}

fn is_each_either(found: &[Found; 3], after: &[Found; 3]) -> bool {
    for k in 0..3 {
        if found[k] != BEFORE[k] && found[k] != after[k] {
            return false;
        }
    }
    true
}

/// Whether each cut after so many calls leaves each logbook as before or as after.
fn leaves_either(
    alloc: Global,
    rig: &MemRig,
    calls: u32,
    after: &[Found; 3],
) -> Result<bool, Fail> {
    for left in CUTS {
        let mut cut = after_cut(alloc, rig, calls, left)?;
        if !is_each_either(&found_on(alloc, &mut cut)?, after) {
            return Ok(false);
        }
    }
    Ok(true)
}

/// Whether this is so behind each call of a change from so many calls on, and at its end all is as after.
fn survives(alloc: Global, act: Act<'_>, after: &[Found; 3]) -> Result<bool, Fail> {
    let mut rig = unused_device(alloc, FailList::new(alloc))?;
    let (before, done) = run(alloc, &mut rig, act)?;
    if !done {
        return Ok(false);
    }
    for calls in before..rig.records() {
        if !leaves_either(alloc, &rig, calls, after)? {
            return Ok(false);
        }
    }
    let mut end = after_cut(alloc, &rig, rig.records(), PendingBytes::None)?;
    Ok(found_on(alloc, &mut end)? == *after)
}

#[test]
fn a_clear_survives_a_cut_behind_each_call(rt: HostRuntime) -> Result<(), Fail> {
    assert!(rt; survives(rt.alloc(), Act::Clear(1), &CLEARED)?);
    Ok(())
}

#[test]
fn a_move_survives_a_cut_behind_each_call(rt: HostRuntime) -> Result<(), Fail> {
    assert!(rt; survives(rt.alloc(), Act::Tick, &MOVED)?);
    Ok(())
}

/// How many calls of a kind are made before a change, and how many by it.
fn calls_of(alloc: Global, act: Act<'_>, kind: CallKind) -> Result<(u64, u64), Fail> {
    let mut rig = unused_device(alloc, FailList::new(alloc))?;
    let mut logbooks = filled(alloc, &mut rig)?;
    let before = rig.made(kind);
    if logbooks
        .carry_out(alloc, &mut rig, FMS, Mode::Normal, act)
        .is_err()
    {
        return Err(Fail::from("device"));
    }
    Ok((before, rig.made(kind).saturating_sub(before)))
}

/// Whether a change that meets a failing call is given up, and leaves each logbook as before or as after.
fn is_given_up(
    alloc: Global,
    act: Act<'_>,
    call: (CallKind, u64),
    after: &[Found; 3],
) -> Result<bool, Fail> {
    let mut rig = unused_device(alloc, failing(alloc, &[call])?)?;
    let (_, done) = run(alloc, &mut rig, act)?;
    if done {
        return Ok(false);
    }
    leaves_either(alloc, &rig, rig.records(), after)
}

/// Whether this is so at each of so many calls of a kind, which are all that the change makes.
fn is_given_up_at_each(
    alloc: Global,
    act: Act<'_>,
    kind: CallKind,
    calls: u64,
    after: &[Found; 3],
) -> Result<bool, Fail> {
    let (before, made) = calls_of(alloc, act, kind)?;
    if made != calls {
        return Ok(false);
    }
    for number in 1..=calls {
        let call = (kind, before.saturating_add(number));
        if !is_given_up(alloc, act, call, after)? {
            return Ok(false);
        }
    }
    Ok(true)
}

#[test]
fn a_change_is_given_up_at_each_failing_call(rt: HostRuntime) -> Result<(), Fail> {
    let rows: [(Act<'_>, CallKind, u64, &[Found; 3]); 4] = [
        (Act::Clear(1), CallKind::Write, 3, &CLEARED),
        (Act::Clear(1), CallKind::Sync, 3, &CLEARED),
        (Act::Tick, CallKind::Write, 7, &MOVED),
        (Act::Tick, CallKind::Sync, 3, &MOVED),
    ];
    for (act, kind, calls, after) in rows {
        assert!(rt; is_given_up_at_each(rt.alloc(), act, kind, calls, after)?);
    }
    Ok(())
}

/// Whether the k-th of three is among those chosen.
fn is_chosen(choice: u32, k: u32) -> bool {
    let without_lower = match k {
        0 => choice,
        1 => choice / 2,
        _ => choice / 4,
    };
    without_lower % 2 == 1
}

/// What is mounted where of the three gates, written last before a sync, the chosen ones were left.
fn found_with(alloc: Global, rig: &MemRig, choice: u32) -> Result<[Found; 3], Fail> {
    let calls = rig.records();
    if calls < 4 {
        return Err(Fail::from("calls"));
    }
    let mut image = rig.cut_image(calls - 1, PendingBytes::None)?.into_vec();
    for k in 0..3 {
        if is_chosen(choice, k) {
            let gate = rig.call_at(calls - 4 + k);
            put(&mut image, gate.at as usize, gate.bytes.bytes());
        }
    }
    found_on(alloc, &mut rig_of(alloc, &image, FailList::new(alloc))?)
}

/// Whether the chosen logbooks are as after a move, and the others as before.
fn are_moved(found: &[Found; 3], choice: u32) -> bool {
    for k in 0..3 {
        let wanted = if is_chosen(choice, k) { MOVED } else { BEFORE };
        if found[k as usize] != wanted[k as usize] {
            return false;
        }
    }
    true
}

#[test]
fn three_logbooks_move_in_any_of_eight_ways(rt: HostRuntime) -> Result<(), Fail> {
    let alloc = rt.alloc();
    let mut rig = unused_device(alloc, FailList::new(alloc))?;
    let (_, done) = run(alloc, &mut rig, Act::Tick)?;
    assert!(rt; done);
    for choice in 0..8 {
        assert!(rt;
            are_moved(&found_with(alloc, &rig, choice)?, choice),
            "{choice}"
        );
    }
    Ok(())
}
