// Gates, and two slots of which the newest counts.
ghost use Rattle.std.specs.Prelude.{◌<◌, ◌≤◌, IfOk};
ghost use Rattle.rig_core.specs.Leaves.{IsAllSettled};
ghost use Rattle.rig_core.specs.MemRig.{mem_state};

use apex_types::{CallKind, FailList};
use gate_slots::{Slots, gate_read, gate_set, gate_write};
use rig_core::{DeviceFault, MemRig, Rig};
use std::alloc::Global;
use std::test::Fail;
use test_fixtures::{CUTS, after_cut, failing, put, rig_of};

// Slots behind one block, of one block of body and one of tail: slot 0 is open with fives, and slot 1 may be.
fn two_slots(alloc: Global, older_open: bool) -> Result<MemRig, Fail>
    ensures fits { IfOk result (λ rig. 3584 ≤ (mem_state rig).size) }
    ensures settled { IfOk result (λ rig. IsAllSettled (mem_state rig)) }
{
    let mut image = [0; 3584];
    put(&mut image, 512, &[0xA5]);
    put(&mut image, 1024, &[0]);
    put(&mut image, 1025, &[5; 1023]);
    put(&mut image, 2048, &[if older_open { 0xA5 } else { 0 }]);
    put(&mut image, 2560, &[2]);
    put(&mut image, 2561, &[3; 1023]);
    Ok(rig_of(alloc, &image, FailList::new(alloc))?)
}

// The newest slot as it was found, and after a commit of sevens.
fn renewed<R: Rig>(rig: &mut R) -> Result<Option<(u8, u8)>, DeviceFault>
    requires fits { 3584 ≤ (R.state rig.old).size }
    requires settled { IsAllSettled (R.state rig.old) }
{
    let mut slots = Slots::new(512, 1, 1);
    if slots.find(rig)?.is_none() {
        return Ok(None);
    }
    let found = slots.newest();
    slots.commit(rig, &mut [7; 512], &[7; 512])?;
    Ok(Some((found, slots.newest())))
}

// Whether the newest slot has this byte throughout, behind its sequence number.
fn newest_has(rig: &mut MemRig, byte: u8) -> Result<bool, DeviceFault> {
    if rig.size() < 3584 {
        return Ok(false);
    }
    let Some(slot) = Slots::new(512, 1, 1).find(rig)? else {
        return Ok(false);
    };
    let start = if slot == 0 { 1025 } else { 2561 };
    let content = &rig.view()[start..start + 1023];
    Ok(content.iter().all(|b| *b == byte))
}

// Whether a cut after so many calls leaves fives or sevens, and after the last call sevens.
fn leaves_one(alloc: Global, rig: &MemRig, calls: u32) -> Result<bool, Fail> {
    for left in CUTS {
        let mut found = after_cut(alloc, rig, calls, left)?;
        let old = newest_has(&mut found, 5)?;
        let new = newest_has(&mut found, 7)?;
        if !new && (!old || calls == rig.records()) {
            return Ok(false);
        }
    }
    Ok(true)
}

// Whether a commit makes seven calls, and a cut after each leaves the old content or the new one.
fn commits(alloc: Global, older_open: bool) -> Result<bool, Fail> {
    let mut rig = two_slots(alloc, older_open)?;
    if renewed(&mut rig)? != Some((0, 1)) {
        return Ok(false);
    }
    for calls in 0..=rig.records() {
        if !leaves_one(alloc, &rig, calls)? {
            return Ok(false);
        }
    }
    Ok(rig.made(CallKind::Write) == 4 && rig.made(CallKind::Sync) == 3)
}

#[test]
fn a_cut_at_each_call_of_a_commit_leaves_the_old_or_the_new_content(
    rt: HostRuntime,
) -> Result<(), Fail> {
    for older_open in [false, true] {
        assert!(rt; commits(rt.alloc(), older_open)?, "{older_open}");
    }
    Ok(())
}

// The newest of two slots without tails, by their gates and numbers.
fn newest_of(alloc: Global, first: (u8, u8), second: (u8, u8)) -> Result<Option<u8>, Fail> {
    let mut image = [0; 2048];
    put(&mut image, 0, &[first.0]);
    put(&mut image, 512, &[first.1]);
    put(&mut image, 1024, &[second.0]);
    put(&mut image, 1536, &[second.1]);
    let mut rig = rig_of(alloc, &image, FailList::new(alloc))?;
    let mut slots = Slots::new(0, 1, 0);
    Ok(slots.find(&mut rig)?.map(|_| slots.newest()))
}

#[test]
fn the_newest_slot_is_told_by_gates_and_numbers(rt: HostRuntime) -> Result<(), Fail> {
    let rows = [
        ((0, 0), (0, 0), None),
        ((0xA5, 2), (0, 0), Some(0)),
        ((0, 0), (0xA5, 1), Some(1)),
        ((0xA5, 0), (0xA5, 2), Some(0)),
        ((0xA5, 1), (0xA5, 2), Some(1)),
        ((0xA5, 1), (0xA5, 1), None),
        ((0xA5, 3), (0, 0), None),
        ((0xA5, 0), (0xA5, 3), None),
    ];
    for (first, second, want) in rows {
        assert_eq!(rt;
            newest_of(rt.alloc(), first, second)?,
            want,
            "{first:?} {second:?}"
        );
    }
    Ok(())
}

// What is read of a gate that is closed, opened and closed again.
fn readings<R: Rig>(rig: &mut R) -> Result<[bool; 3], DeviceFault>
    requires { 0 < (R.state rig.old).size }
{
    let first = gate_read(rig, 0)?;
    gate_set(rig, 0, true)?;
    let second = gate_read(rig, 0)?;
    gate_write(rig, 0, false)?;
    Ok([first, second, gate_read(rig, 0)?])
}

#[test]
fn a_gate_is_opened_and_closed(rt: HostRuntime) -> Result<(), Fail> {
    let listed = [(CallKind::Read, 4), (CallKind::Sync, 2)];
    let mut rig = rig_of(rt.alloc(), &[0; 512], failing(rt.alloc(), &listed)?)?;
    assert_eq!(rt; rig.size(), 512);
    assert_eq!(rt; readings(&mut rig)?, [false, true, false]);
    assert!(rt; rig.size() == 512 && gate_read(&mut rig, 0).is_err());
    assert!(rt; rig.size() == 512 && gate_set(&mut rig, 0, true).is_err());
    Ok(())
}
