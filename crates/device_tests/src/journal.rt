// The journal of records.
ghost use Rattle.std.specs.Prelude.{◌≡◌, ◌+◌, ◌<◌, ◌≤◌, IfOk, OnOk, length};
ghost use Rattle.rig_core.specs.Leaves.{IsAllSettled};
ghost use Rattle.rig_core.specs.MemRig.{mem_state};
ghost use Rattle.rig_core.specs.Outside.{OnlyReads};
ghost use Rattle.meta_journal.specs.Journal.{first_of, held_of, room_of, Knows};

use apex_types::{CallKind, FailList};
use meta_journal::Journal;
use rig_core::{DeviceFault, MemRig, Rig};
use std::alloc::Global;
use std::test::Fail;
use test_fixtures::{CUTS, after_cut, put, rig_of};

// A journal whose first records are ones, twos and so on, with open gates. There may be another open gate.
fn journal_of(alloc: Global, records: u8, stray: Option<usize>) -> Result<MemRig, Fail>
    ensures fits { IfOk result (λ rig. 32768 ≤ (mem_state rig).size) }
    ensures settled { IfOk result (λ rig. IsAllSettled (mem_state rig)) }
{
    let mut image = [0; 32768];
    for k in 0..records {
        put(&mut image, 1024 * usize::from(k), &[0xA5]);
        put(
            &mut image,
            1024 * usize::from(k) + 512,
            &[k.saturating_add(1); 512],
        );
    }
    if let Some(at) = stray {
        put(&mut image, at, &[0xA5]);
    }
    Ok(rig_of(alloc, &image, FailList::new(alloc))?)
}

// Reads all leading records, and tells how many they are.
fn read_all<R: Rig>(rig: &mut R, journal: &mut Journal) -> Result<u32, DeviceFault>
    requires fits { first_of journal.old + 32768 ≤ (R.state rig.old).size }
    requires unread { held_of journal.old ≡ 0 }
    ensures first { first_of journal.new ≡ first_of journal.old }
    ensures reads { OnlyReads R.tells_view (R.state rig.old) (R.state rig.new) }
    ensures known { R.tells_view → OnOk result (0 < room_of journal.new → Knows journal.new (R.state rig.old).view) }
{
    let mut body = [0; 512];
    for count in 0..33 {
        if !journal.next(rig, &mut body)? {
            return Ok(count);
        }
    }
    Err(DeviceFault)
}

// Adds a record of nines behind those that are there, and tells how many those were.
fn grown<R: Rig>(rig: &mut R) -> Result<u32, DeviceFault>
    requires fits { 32768 ≤ (R.state rig.old).size }
    requires settled { IsAllSettled (R.state rig.old) }
{
    let mut journal = Journal::new(0);
    let count = read_all(rig, &mut journal)?;
    if journal.room() > 0 {
        journal.append(rig, &[9; 512])?;
    }
    Ok(count)
}

// How many leading records there are, where the first three are ones, twos and threes and a fourth may be nines.
fn count_of(rig: &mut MemRig) -> Result<Option<u32>, DeviceFault> {
    if rig.size() < 32768 {
        return Ok(None);
    }
    let mut journal = Journal::new(0);
    let mut body = [0; 512];
    for (count, want) in [(0, 1), (1, 2), (2, 3), (3, 9), (4, 0)] {
        if !journal.next(rig, &mut body)? {
            return Ok(Some(count));
        }
        if !body.iter().all(|b| *b == want) {
            return Ok(None);
        }
    }
    Ok(None)
}

// Whether a cut after so many calls leaves three records or four, and after the last call four.
fn leaves_one(alloc: Global, rig: &MemRig, calls: u32) -> Result<bool, Fail> {
    for left in CUTS {
        let count = count_of(&mut after_cut(alloc, rig, calls, left)?)?;
        if count != Some(4) && (count != Some(3) || calls == rig.records()) {
            return Ok(false);
        }
    }
    Ok(true)
}

// Whether an append makes four calls, and a cut after each leaves the old records or those with the new one.
fn appends(alloc: Global) -> Result<bool, Fail> {
    let mut rig = journal_of(alloc, 3, None)?;
    if grown(&mut rig)? != 3 {
        return Ok(false);
    }
    for calls in 0..=rig.records() {
        if !leaves_one(alloc, &rig, calls)? {
            return Ok(false);
        }
    }
    Ok(rig.made(CallKind::Write) == 2 && rig.made(CallKind::Sync) == 2)
}

#[test]
fn a_cut_at_each_call_of_an_append_leaves_the_old_records_or_one_more(
    rt: HostRuntime,
) -> Result<(), Fail> {
    assert!(rt; appends(rt.alloc())?);
    Ok(())
}

// How many leading records are read, and how many more have room.
fn read_and_room(alloc: Global, records: u8, stray: Option<usize>) -> Result<(u32, u32), Fail> {
    let mut rig = journal_of(alloc, records, stray)?;
    let mut journal = Journal::new(0);
    let count = read_all(&mut rig, &mut journal)?;
    Ok((count, journal.room()))
}

#[test]
fn a_journal_takes_32_records_and_none_before_a_stray_gate(rt: HostRuntime) -> Result<(), Fail> {
    let rows = [
        (31, None, (31, 1)),
        (32, None, (32, 0)),
        (3, Some(1024 * 20), (3, 0)),
    ];
    for (records, stray, want) in rows {
        assert_eq!(rt;
            read_and_room(rt.alloc(), records, stray)?,
            want,
            "{records}"
        );
    }
    assert_eq!(rt; (Journal::new(0).room(), Journal::fresh(0).room()), (0, 32));
    Ok(())
}
