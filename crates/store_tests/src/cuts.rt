//! Power fails at every call of a flight of changes: what is mounted then is what was durable before the change or after
//! it, and after the change is reported it is the second.
ghost use Rattle.std.specs.Prelude.{◌≡◌, ◌≤◌, OnOk, IsTrue};
ghost use Rattle.rig_core.specs.MemRig.{mem_state};
ghost use Rattle.tree_store.specs.Stored.{IsStored};

use crate::flights::{Change, Run, Stop, carry_out, fly, small_store};
use crate::found::{Files, is_left};
use crate::regions::{SMALL, rig_of_version};
use apex_types::{CallKind, FailList};
use rig_core::{MemRig, PendingBytes, Rig};
use std::alloc::Global;
use test_fixtures::CUTS;
use tree_store::TreeStore;

const A: &[u8] = b"/NV1/FMS/A";

const B: &[u8] = b"/NV1/FMS/B";

const D: &[u8] = b"/NV1/FMS/D";

const BELOW: &[u8] = b"/NV1/FMS/D/B";

/// Whether a cut after so many calls leaves the first files or the second ones.
fn is_either(alloc: Global, rig: &MemRig, calls: u32, left: PendingBytes, files: [Files; 2]) -> bool
    requires fits { 83968 ≤ (mem_state rig.now).size }
{
    is_left(alloc, rig, calls, left, files[0]) || is_left(alloc, rig, calls, left, files[1])
}

/// Whether each cut after so many calls leaves the first files or the second ones.
fn leaves_either(alloc: Global, rig: &MemRig, calls: u32, files: [Files; 2]) -> bool
    requires fits { 83968 ≤ (mem_state rig.now).size }
{
    for left in CUTS {
        if !is_either(alloc, rig, calls, left, files) {
            return false;
        }
    }
    true
}

/// Whether a recorded call is a read: what a cut after it leaves was left before it.
fn is_read(rig: &MemRig, k: u32) -> bool {
    k < rig.records() && rig.call_at(k).kind == CallKind::Read
}

/// Whether each cut at a call from the first of these on, and before the second, leaves either files; at the second it
/// leaves the second ones.
fn survives_calls(alloc: Global, rig: &MemRig, first: u32, end: u32, files: [Files; 2]) -> bool
    requires fits { 83968 ≤ (mem_state rig.now).size }
{
    for calls in first..end {
        if !is_read(rig, calls) && !leaves_either(alloc, rig, calls, files) {
            return false;
        }
    }
    leaves_either(alloc, rig, end, [files[1], files[1]])
}

/// Whether a change is carried out and survives a cut at each of its calls.
fn survives(
    alloc: Global,
    store: &mut TreeStore,
    rig: &mut MemRig,
    change: Change,
    files: [Files; 2],
) -> bool
    requires fits { 83968 ≤ (mem_state rig.old).size }
    requires stored { IsStored (Unit {0}) (mem_state rig.old) store.old }
    ensures fits { 83968 ≤ (mem_state rig.new).size }
    ensures stored { IsTrue result → IsStored (Unit {0}) (mem_state rig.new) store.new }
{
    let first = rig.records();
    match carry_out(store, rig, change) {
        Ok(()) => survives_calls(alloc, rig, first, rig.records(), files),
        Err(_) => false,
    }
}

/// Whether each of some changes, made one after another, survives a cut at each of its calls. Beside each change stand
/// the files that are durable once it is reported.
fn survive(
    alloc: Global,
    store: &mut TreeStore,
    rig: &mut MemRig,
    flight: &[(Change, Files)],
) -> bool
    requires fits { 83968 ≤ (mem_state rig.old).size }
    requires stored { IsStored (Unit {0}) (mem_state rig.old) store.old }
{
    let mut durable = NOTHING;
    for (change, files) in flight {
        if !survives(alloc, store, rig, *change, [durable, *files]) {
            return false;
        }
        durable = *files;
    }
    true
}

/// Makes and removes A so many times.
fn make_and_remove<R: Rig>(store: &mut TreeStore, rig: &mut R, times: u32) -> Result<(), Stop>
    requires stored { IsStored R.tells_view (R.state rig.old) store.old }
    ensures stored { OnOk result (IsStored R.tells_view (R.state rig.new) store.new) }
    ensures size { (R.state rig.new).size ≡ (R.state rig.old).size }
{
    for _ in 0..times {
        fly(store, rig, &[Change::MakeFile(A), Change::RemoveFile(A)])?;
    }
    Ok(())
}

/// Whether that is so in a tree in which nothing is stored, whose bodies are of this version, and in which A was made and
/// removed so many times before.
fn flight_survives(alloc: Global, version: u8, times: u32, flight: &[(Change, Files)]) -> bool {
    let Ok(mut rig) = rig_of_version(alloc, SMALL, version, FailList::new(alloc)) else {
        return false;
    };
    let Ok(mut store) = small_store(alloc, &mut rig) else {
        return false;
    };
    let Ok(()) = make_and_remove(&mut store, &mut rig, times) else {
        return false;
    };
    survive(alloc, &mut store, &mut rig, flight)
}

const NOTHING: Files = &[(A, None), (B, None), (BELOW, None)];

const EMPTY_A: Files = &[(A, Some(&[])), (B, None), (BELOW, None)];

const OLD_A: Files = &[(A, Some(&[(7, 4200)])), (B, None), (BELOW, None)];

// The nine blocks of the second write become durable together.
const NEW_A: Files = &[
    (A, Some(&[(7, 50), (8, 4096), (7, 54)])),
    (B, None),
    (BELOW, None),
];

const BOTH: Files = &[
    (A, Some(&[(7, 50), (8, 4096), (7, 54)])),
    (B, None),
    (BELOW, Some(&[])),
];

const CUT_SHORT: Files = &[
    (A, Some(&[(7, 50), (8, 10)])),
    (B, None),
    (BELOW, Some(&[])),
];

const MOVED: Files = &[
    (A, Some(&[(7, 50), (8, 10)])),
    (B, Some(&[])),
    (BELOW, None),
];

const ONLY_B: Files = &[(A, None), (B, Some(&[])), (BELOW, None)];

const FIRST: Run = Run {
    from: 0,
    count: 4096,
    byte: 7,
};

const BEHIND: Run = Run {
    from: 4096,
    count: 104,
    byte: 7,
};

const OVER_BOTH: Run = Run {
    from: 50,
    count: 4096,
    byte: 8,
};

const FLIGHT: &[(Change, Files)] = &[
    (Change::MakeFile(A), EMPTY_A),
    (Change::Write(A, FIRST), EMPTY_A),
    (Change::Write(A, BEHIND), EMPTY_A),
    (Change::Sync(A), OLD_A),
    (Change::Write(A, OVER_BOTH), OLD_A),
    (Change::Sync(A), NEW_A),
    (Change::MakeDirectory(D), NEW_A),
    (Change::MakeFile(BELOW), BOTH),
    (Change::Resize(A, 60), BOTH),
    (Change::Sync(A), CUT_SHORT),
    (Change::Rename(BELOW, B), MOVED),
    (Change::RemoveDirectory(D), MOVED),
    (Change::RemoveFile(A), ONLY_B),
];

#[test]
fn each_change_of_a_flight_survives_a_cut_at_each_call(rt: HostRuntime) {
    assert!(rt; flight_survives(rt.alloc(), 2, 0, FLIGHT));
}

const ONE_NAME: &[(Change, Files)] = &[(Change::MakeFile(A), EMPTY_A)];

#[test]
fn a_change_of_names_survives_where_it_is_a_whole_slot(rt: HostRuntime) {
    // all 32 records of the journal are used
    assert!(rt; flight_survives(rt.alloc(), 2, 16, ONE_NAME));
    // the first version has no journal
    assert!(rt; flight_survives(rt.alloc(), 1, 0, ONE_NAME));
}
