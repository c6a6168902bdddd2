//! Calls of the device that fail in turn.
ghost use Rattle.std.specs.Prelude.{◌≡◌, ◌≤◌, length, IfOk};
ghost use Rattle.rig_core.specs.Leaves.{IsAllSettled};
ghost use Rattle.rig_core.specs.MemRig.{mem_state};
ghost use Rattle.tree_store.specs.Stored.{IsStored};

use crate::flights::{Change, Run, Stop, flown, fly, small_store, write};
use crate::found::{Content, Files, has_file, has_files};
use crate::regions::{SMALL, empty_rig};
use apex_types::{ByteList, CallKind, FailList, OutOfMemory};
use rig_core::{MemRig, PendingBytes, Rig};
use std::alloc::Global;
use test_fixtures::{CUTS, after_cut, failing, rig_of};
use tree_store::TreeStore;

const A: &[u8] = b"/NV1/FMS/A";

const B: &[u8] = b"/NV1/FMS/B";

const FIRST: Run = Run {
    from: 0,
    count: 600,
    byte: 7,
};

const INSIDE: Run = Run {
    from: 100,
    count: 50,
    byte: 8,
};

const STORED: &[Change] = &[
    Change::MakeFile(A),
    Change::Write(A, FIRST),
    Change::Sync(A),
];

/// The image of a disk on which A has 600 stored bytes.
fn stored_image(alloc: Global) -> Result<ByteList, OutOfMemory>
    ensures { IfOk result (λ image. length image ≡ 83968) }
{
    let mut rig = empty_rig(alloc, SMALL, FailList::new(alloc))?;
    match flown(alloc, &mut rig, STORED) {
        Ok(()) => rig.cut_image(rig.records(), PendingBytes::None),
        Err(_) => Err(OutOfMemory),
    }
}

/// A disk with an image, which fails at one call, by its kind and number.
fn failing_rig(
    alloc: Global,
    image: &[u8],
    kind: CallKind,
    number: u64,
) -> Result<MemRig, OutOfMemory>
    ensures size { IfOk result (λ rig. (mem_state rig).size ≡ length image.now) }
    ensures settled { IfOk result (λ rig. IsAllSettled (mem_state rig)) }
{
    match failing(alloc, &[(kind, number)]) {
        Ok(calls) => rig_of(alloc, image, calls),
        Err(error) => Err(error),
    }
}

// What is done to that disk.
const FLIGHT: &[Change] = &[
    Change::Write(A, INSIDE),
    Change::Sync(A),
    Change::MakeFile(B),
    Change::Resize(A, 90),
    Change::Sync(A),
];

// What may be durable along the way.
const STAGES: [Files; 4] = [
    &[(A, Some(&[(7, 600)])), (B, None)],
    &[(A, Some(&[(7, 100), (8, 50), (7, 450)])), (B, None)],
    &[(A, Some(&[(7, 100), (8, 50), (7, 450)])), (B, Some(&[]))],
    &[(A, Some(&[(7, 90)])), (B, Some(&[]))],
];

/// Whether a tree has the files of one of the stages.
fn has_a_stage<R: Rig>(alloc: Global, store: &TreeStore, rig: &mut R) -> bool
    requires stored { IsStored R.tells_view (R.state rig.old) store.now }
{
    for files in STAGES {
        if has_files(alloc, store, rig, files) {
            return true;
        }
    }
    false
}

/// Whether a mount of a disk finds the files of one of the stages.
fn is_stage<R: Rig>(alloc: Global, rig: &mut R) -> bool
    requires fits { 83968 ≤ (R.state rig.old).size }
    requires settled { IsAllSettled (R.state rig.old) }
{
    match small_store(alloc, rig) {
        Ok(store) => has_a_stage(alloc, &store, rig),
        Err(_) => false,
    }
}

/// Whether each power cut after all calls leaves one of the stages.
fn leaves_stages(alloc: Global, rig: &MemRig) -> bool
    requires fits { 83968 ≤ (mem_state rig.now).size }
{
    for left in CUTS {
        let Ok(mut cut) = after_cut(alloc, rig, rig.records(), left) else {
            return false;
        };
        if !is_stage(alloc, &mut cut) {
            return false;
        }
    }
    true
}

/// Whether a call that fails stops the flight, and each power cut after that leaves one of the stages.
fn fault_leaves_stages(alloc: Global, image: &[u8], kind: CallKind, number: u64) -> bool
    requires fits { 83968 ≤ length image.now }
{
    match failing_rig(alloc, image, kind, number) {
        Ok(mut rig) => flown(alloc, &mut rig, FLIGHT).is_err() && leaves_stages(alloc, &rig),
        Err(_) => false,
    }
}

/// How many calls of a kind the flight makes where none fails; none if it isn't done.
fn calls_made(alloc: Global, image: &[u8], kind: CallKind) -> u64
    requires fits { 83968 ≤ length image.now }
{
    match rig_of(alloc, image, FailList::new(alloc)) {
        Ok(mut rig) => match flown(alloc, &mut rig, FLIGHT) {
            Ok(()) => rig.made(kind),
            Err(_) => 0,
        },
        Err(_) => 0,
    }
}

/// Whether it is so for each call of a kind, and there is one.
fn faults_leave_stages(alloc: Global, image: &[u8], kind: CallKind) -> bool
    requires fits { 83968 ≤ length image.now }
{
    let calls = calls_made(alloc, image, kind);
    for call in 0..calls {
        if !fault_leaves_stages(alloc, image, kind, call + 1) {
            return false;
        }
    }
    calls > 0
}

/// Whether it is so for each kind.
fn all_faults_leave_stages(alloc: Global) -> bool {
    match stored_image(alloc) {
        Ok(image) => {
            faults_leave_stages(alloc, image.bytes(), CallKind::Read)
                && faults_leave_stages(alloc, image.bytes(), CallKind::Write)
                && faults_leave_stages(alloc, image.bytes(), CallKind::Sync)
        }
        Err(_) => false,
    }
}

#[test]
fn each_failing_call_leaves_what_was_durable(rt: HostRuntime) {
    assert!(rt; all_faults_leave_stages(rt.alloc()));
}

/// Whether a write is answered so, and A has this content then.
fn write_comes_to<R: Rig>(
    alloc: Global,
    store: &mut TreeStore,
    rig: &mut R,
    run: Run,
    answer: Result<(), Stop>,
    content: Content,
) -> bool
    requires stored { IsStored R.tells_view (R.state rig.old) store.old }
    ensures stored { IsStored R.tells_view (R.state rig.new) store.new }
{
    write(store, rig, A, run) == answer && has_file(alloc, store, rig, A, Some(content))
}

/// Whether a write stops for this reason, changes nothing, and is done when asked again.
fn is_done_when_asked_again<R: Rig>(
    alloc: Global,
    store: &mut TreeStore,
    rig: &mut R,
    run: Run,
    stop: Stop,
    contents: [Content; 2],
) -> bool
    requires stored { IsStored R.tells_view (R.state rig.old) store.old }
{
    write_comes_to(alloc, store, rig, run, Err(stop), contents[0])
        && write_comes_to(alloc, store, rig, run, Ok(()), contents[1])
}

/// Whether it does behind these changes of a tree.
fn fails_once<R: Rig>(
    alloc: Global,
    rig: &mut R,
    before: &[Change],
    run: Run,
    stop: Stop,
    contents: [Content; 2],
) -> bool
    requires fits { 83968 ≤ (R.state rig.old).size }
    requires settled { IsAllSettled (R.state rig.old) }
{
    let Ok(mut store) = small_store(alloc, rig) else {
        return false;
    };
    let Ok(()) = fly(&mut store, rig, before) else {
        return false;
    };
    is_done_when_asked_again(alloc, &mut store, rig, run, stop, contents)
}

/// The number of the first read behind a mount.
fn read_behind_mount(alloc: Global, image: &[u8]) -> u64
    requires fits { 83968 ≤ length image.now }
{
    match rig_of(alloc, image, FailList::new(alloc)) {
        Ok(mut rig) => {
            let _store = small_store(alloc, &mut rig);
            rig.made(CallKind::Read).saturating_add(1)
        }
        Err(_) => 0,
    }
}

/// Whether a write into a stored block changes nothing where the block can't be read, and is done when asked again.
fn failed_read_changes_nothing(alloc: Global, image: &[u8]) -> bool
    requires fits { 83968 ≤ length image.now }
{
    let number = read_behind_mount(alloc, image);
    match failing_rig(alloc, image, CallKind::Read, number) {
        Ok(mut rig) => fails_once(
            alloc,
            &mut rig,
            &[],
            INSIDE,
            Stop::ReadFault,
            [&[(7, 600)], &[(7, 100), (8, 50), (7, 450)]],
        ),
        Err(_) => false,
    }
}

const FRONT: Run = Run {
    from: 0,
    count: 4096,
    byte: 1,
};

const BEHIND: Run = Run {
    from: 4096,
    count: 4096,
    byte: 2,
};

/// Whether a write that finds no free buffer changes nothing where a buffer can't be written back, and is done when asked
/// again: 8 of 16 buffers are free after the first, and a write wants 9.
fn failed_write_changes_nothing(alloc: Global, image: &[u8]) -> bool
    requires fits { 83968 ≤ length image.now }
{
    match failing_rig(alloc, image, CallKind::Write, 1) {
        Ok(mut rig) => fails_once(
            alloc,
            &mut rig,
            &[Change::Write(A, FRONT)],
            BEHIND,
            Stop::Device,
            [&[(1, 4096)], &[(1, 4096), (2, 4096)]],
        ),
        Err(_) => false,
    }
}

/// Whether both are so.
fn failed_calls_change_nothing(alloc: Global) -> bool {
    match stored_image(alloc) {
        Ok(image) => {
            failed_read_changes_nothing(alloc, image.bytes())
                && failed_write_changes_nothing(alloc, image.bytes())
        }
        Err(_) => false,
    }
}

#[test]
fn a_failing_read_or_write_changes_nothing(rt: HostRuntime) {
    assert!(rt; failed_calls_change_nothing(rt.alloc()));
}
