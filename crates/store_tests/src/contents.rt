//! Contents over several blocks, and changes that are refused.
ghost use Rattle.std.specs.Prelude.{◌≡◌, ◌≤◌, IsTrue};
ghost use Rattle.rig_core.specs.Leaves.{IsAllSettled};
ghost use Rattle.tree_store.specs.Stored.{IsStored};

use crate::flights::{Change, Run, Stop, fly, small_store};
use crate::found::{Files, has_files, is_left};
use crate::regions::{SMALL, empty_rig};
use apex_types::{Errno, FailList};
use rig_core::{PendingBytes, Rig};
use std::alloc::Global;
use tree_store::TreeStore;

const A: &[u8] = b"/NV1/FMS/A";

const B: &[u8] = b"/NV1/FMS/B";

const C: &[u8] = b"/NV1/FMS/C";

const D: &[u8] = b"/NV1/FMS/D";

const BELOW: &[u8] = b"/NV1/FMS/D/B";

/// Whether some changes are carried out, and these files are there then.
fn comes_to<R: Rig>(
    alloc: Global,
    store: &mut TreeStore,
    rig: &mut R,
    changes: &[Change],
    files: Files,
) -> bool
    requires stored { IsStored R.tells_view (R.state rig.old) store.old }
    ensures stored { IsTrue result → IsStored R.tells_view (R.state rig.new) store.new }
    ensures size { (R.state rig.new).size ≡ (R.state rig.old).size }
{
    match fly(store, rig, changes) {
        Ok(()) => has_files(alloc, store, rig, files),
        Err(_) => false,
    }
}

/// Whether these files are there after some changes, and after A is synchronised.
fn comes_to_twice<R: Rig>(alloc: Global, rig: &mut R, changes: &[Change], files: Files) -> bool
    requires fits { 83968 ≤ (R.state rig.old).size }
    requires settled { IsAllSettled (R.state rig.old) }
    ensures size { (R.state rig.new).size ≡ (R.state rig.old).size }
{
    match small_store(alloc, rig) {
        Ok(mut store) => {
            comes_to(alloc, &mut store, rig, changes, files)
                && comes_to(alloc, &mut store, rig, &[Change::Sync(A)], files)
        }
        Err(_) => false,
    }
}

/// Whether these files are there after some changes, after A is synchronised, and after a mount.
fn has_after(alloc: Global, changes: &[Change], files: Files) -> bool {
    match empty_rig(alloc, SMALL, FailList::new(alloc)) {
        Ok(mut rig) => {
            comes_to_twice(alloc, &mut rig, changes, files)
                && is_left(alloc, &rig, rig.records(), PendingBytes::None, files)
        }
        Err(_) => false,
    }
}

const FIRST: Run = Run {
    from: 0,
    count: 600,
    byte: 7,
};

const INSIDE: Run = Run {
    from: 500,
    count: 20,
    byte: 8,
};

const BEYOND: Run = Run {
    from: 590,
    count: 1000,
    byte: 8,
};

const WRITTEN_INSIDE: &[Change] = &[
    Change::MakeFile(A),
    Change::Write(A, FIRST),
    Change::Write(A, INSIDE),
];

const WRITTEN_BEYOND: &[Change] = &[
    Change::MakeFile(A),
    Change::Write(A, FIRST),
    Change::Write(A, BEYOND),
];

const CUT_TO_A_BLOCK: &[Change] = &[
    Change::MakeFile(A),
    Change::Write(A, FIRST),
    Change::Resize(A, 512),
];

// What was cut off is zeros when the file grows again.
const CUT_AND_GROWN: &[Change] = &[
    Change::MakeFile(A),
    Change::Write(A, FIRST),
    Change::Resize(A, 510),
    Change::Resize(A, 1200),
];

const CUT_AND_GROWN_ON_DISK: &[Change] = &[
    Change::MakeFile(A),
    Change::Write(A, FIRST),
    Change::Sync(A),
    Change::Resize(A, 5),
    Change::Sync(A),
    Change::Resize(A, 600),
];

const EMPTIED: &[Change] = &[
    Change::MakeFile(A),
    Change::Write(A, FIRST),
    Change::Resize(A, 0),
];

const CONTENTS: [(&[Change], Files); 6] = [
    (WRITTEN_INSIDE, &[(A, Some(&[(7, 500), (8, 20), (7, 80)]))]),
    (WRITTEN_BEYOND, &[(A, Some(&[(7, 590), (8, 1000)]))]),
    (CUT_TO_A_BLOCK, &[(A, Some(&[(7, 512)]))]),
    (CUT_AND_GROWN, &[(A, Some(&[(7, 510), (0, 690)]))]),
    (CUT_AND_GROWN_ON_DISK, &[(A, Some(&[(7, 5), (0, 595)]))]),
    (EMPTIED, &[(A, Some(&[]))]),
];

#[test]
fn contents_change_over_blocks(rt: HostRuntime) {
    for (changes, files) in CONTENTS {
        assert!(rt; has_after(rt.alloc(), changes, files));
    }
}

/// Whether the last of some changes is refused for this reason, and each before it is done.
fn refuses<R: Rig>(
    alloc: Global,
    rig: &mut R,
    before: &[Change],
    last: Change,
    errno: Errno,
) -> bool
    requires fits { 83968 ≤ (R.state rig.old).size }
    requires settled { IsAllSettled (R.state rig.old) }
{
    let Ok(mut store) = small_store(alloc, rig) else {
        return false;
    };
    let Ok(()) = fly(&mut store, rig, before) else {
        return false;
    };
    fly(&mut store, rig, &[last]) == Err(Stop::Refused(errno))
}

/// Whether that is so in a tree in which nothing is stored.
fn is_refused(alloc: Global, before: &[Change], last: Change, errno: Errno) -> bool {
    match empty_rig(alloc, SMALL, FailList::new(alloc)) {
        Ok(mut rig) => refuses(alloc, &mut rig, before, last, errno),
        Err(_) => false,
    }
}

const TWO_FILES: &[Change] = &[Change::MakeFile(A), Change::MakeFile(B)];

const FILE_BELOW: &[Change] = &[Change::MakeDirectory(D), Change::MakeFile(BELOW)];

const REFUSED: [(&[Change], Change, Errno); 5] = [
    (TWO_FILES, Change::Resize(A, 1_048_577), Errno::Efbig),
    (TWO_FILES, Change::Resize(A, 8193), Errno::Enospc),
    (TWO_FILES, Change::MakeFile(C), Errno::Enospc),
    (FILE_BELOW, Change::MakeDirectory(C), Errno::Enospc),
    (FILE_BELOW, Change::RemoveDirectory(D), Errno::Enotempty),
];

#[test]
fn changes_past_a_limit_are_refused(rt: HostRuntime) {
    for (before, last, errno) in REFUSED {
        assert!(rt; is_refused(rt.alloc(), before, last, errno));
    }
}
