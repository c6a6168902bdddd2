//! Runs over images: what one stored the next one finds, also where power failed between them.
use super::{SMALL, rig, run_on};
use apex_host::Status;
use apex_types::{ByteList, CallKind, FailList, OutOfMemory};
use rig_core::MemRig;
use std::alloc::Global;
use std::test::Fail;
use test_fixtures::{CUTS, after_cut, put, rig_of};

/// A file made, written and synchronised.
pub const STORED: &[u8] =
    b"FMS OPEN_NEW_FILE /NV1/FMS/A\nFMS WRITE_FILE 1 6869\nFMS SYNC_FILE 1\nFMS GET_FILE_STATUS 1\n";

pub const STORED_TOLD: &[u8] =
    b"1 NO_ERROR - 1\n2 NO_ERROR - 2\n3 NO_ERROR -\n4 NO_ERROR - 2 2 1\n";

/// The file opened and read.
pub const READ: &[u8] =
    b"FMS OPEN_FILE /NV1/FMS/A READ_ONLY\nFMS GET_FILE_STATUS 1\nFMS READ_FILE 1 8\n";

/// What is told of the file where it isn't there, where it has no bytes, and where it has its two.
pub const ABSENT: &[u8] = b"1 INVALID_PARAM ENOENT\n2 INVALID_PARAM EBADF\n3 INVALID_PARAM EBADF\n";

pub const EMPTY: &[u8] = b"1 NO_ERROR - 1\n2 NO_ERROR - 0 0 0\n3 NO_ERROR - 0 .\n";

pub const WHOLE: &[u8] = b"1 NO_ERROR - 1\n2 NO_ERROR - 2 0 1\n3 NO_ERROR - 2 6869\n";

/// A rig over the formatted image of a table on which a script was carried out; none where it didn't end well.
pub fn rig_after(
    alloc: Global,
    table: &[u8],
    script: &[u8],
) -> Result<Option<MemRig>, OutOfMemory> {
    let mut rig = rig(alloc, table, 0)?;
    match run_on(alloc, table, script, &mut rig)? {
        Status::Done => Ok(Some(rig)),
        _ => Ok(None),
    }
}

/// Whether a run over an image of these bytes ends and tells so.
pub fn run_over(
    alloc: Global,
    table: &[u8],
    image: &[u8],
    script: &[u8],
    status: Status,
    told: &[u8],
) -> Result<bool, OutOfMemory> {
    let mut rig = rig_of(alloc, image, FailList::new(alloc))?;
    let ended = run_on(alloc, table, script, &mut rig)?;
    Ok(ended == status && rig.told() == told)
}

/// Whether a script that was carried out leaves what another tells.
fn leaves(
    alloc: Global,
    table: &[u8],
    script: &[u8],
    next: &[u8],
    told: &[u8],
) -> Result<bool, OutOfMemory> {
    match rig_after(alloc, table, script)? {
        Some(rig) => run_over(alloc, table, rig.view(), next, Status::Done, told),
        None => Ok(false),
    }
}

#[test]
fn what_was_stored_is_found(rt: HostRuntime) -> Result<(), Fail> {
    assert!(rt; leaves(rt.alloc(), SMALL, STORED, READ, WHOLE)?);
    Ok(())
}

#[test]
fn scripts_that_ask_for_nothing_leave_the_image(rt: HostRuntime) -> Result<(), Fail> {
    let alloc = rt.alloc();
    let before = rig(alloc, SMALL, 0)?;
    for script in [b"".as_slice(), b"# note", b"\n"] {
        let after = rig_after(alloc, SMALL, script)?;
        assert!(rt; after.is_some_and(|rig| rig.view() == before.view()));
    }
    Ok(())
}

/// Whether what a cut after so many calls leaves is told by one of two texts, however it leaves pending bytes.
pub fn is_left(
    alloc: Global,
    table: &[u8],
    rig: &MemRig,
    calls: u32,
    script: &[u8],
    before: &[u8],
    after: &[u8],
) -> Result<bool, OutOfMemory> {
    for left in CUTS {
        let mut cut = after_cut(alloc, rig, calls, left)?;
        let ended = run_on(alloc, table, script, &mut cut)?;
        if ended != Status::Done || (cut.told() != before && cut.told() != after) {
            return Ok(false);
        }
    }
    Ok(true)
}

/// What a cut after so many calls of the first flight leaves, where the last of them is pending and where it isn't: four
/// calls make the file and one tells it, one tells the write, eight synchronise it.
fn stored_texts(calls: u32) -> (&'static [u8], &'static [u8]) {
    match calls {
        0..=2 => (ABSENT, ABSENT),
        3 => (ABSENT, EMPTY),
        4..=12 => (EMPTY, EMPTY),
        13 => (EMPTY, WHOLE),
        _ => (WHOLE, WHOLE),
    }
}

/// Whether a cut after each call of the first flight but its reads leaves what it may. There are 16 such calls.
fn stored_survives(alloc: Global) -> Result<bool, OutOfMemory> {
    let Some(rig) = rig_after(alloc, SMALL, STORED)? else {
        return Ok(false);
    };
    let mut calls = 0u32;
    for k in 0..rig.records() {
        if rig.call_at(k).kind == CallKind::Read {
            continue;
        }
        calls = calls.saturating_add(1);
        let (before, after) = stored_texts(calls);
        if !is_left(alloc, SMALL, &rig, k + 1, READ, before, after)? {
            return Ok(false);
        }
    }
    Ok(calls == 16)
}

#[test]
fn a_cut_after_each_call_leaves_what_was_synchronised(rt: HostRuntime) -> Result<(), Fail> {
    assert!(rt; stored_survives(rt.alloc())?);
    Ok(())
}

/// A longer flight: each line, and what the files are then where power fails.
const FLIGHT: [(&[u8], &[u8]); 10] = [
    (b"FMS OPEN_NEW_FILE /NV1/FMS/A\n", EMPTY_A),
    (b"FMS WRITE_FILE 1 6869\n", EMPTY_A),
    (b"FMS SYNC_FILE 1\n", TWO_IN_A),
    (b"FMS WRITE_FILE 1 21\n", TWO_IN_A),
    (b"FMS MAKE_DIRECTORY /NV1/FMS/D\n", TWO_IN_A),
    (b"FMS SYNC_FILE 1\n", THREE_IN_A),
    (b"FMS CLOSE_FILE 1\n", THREE_IN_A),
    (b"FMS RENAME_FILE /NV1/FMS/A /NV1/FMS/D/B\n", THREE_IN_B),
    (b"FMS REMOVE_FILE /NV1/FMS/D/B\n", NO_FILE),
    (b"FMS REMOVE_DIRECTORY /NV1/FMS/D\n", NO_FILE),
];

const READ_BOTH: &[u8] =
    b"FMS OPEN_FILE /NV1/FMS/A READ_ONLY\nFMS READ_FILE 1 8\nFMS CLOSE_FILE 1\nFMS OPEN_FILE /NV1/FMS/D/B READ_ONLY\nFMS READ_FILE 1 8\n";

const NO_FILE: &[u8] =
    b"1 INVALID_PARAM ENOENT\n2 INVALID_PARAM EBADF\n3 INVALID_PARAM EBADF\n4 INVALID_PARAM ENOENT\n5 INVALID_PARAM EBADF\n";

const EMPTY_A: &[u8] =
    b"1 NO_ERROR - 1\n2 NO_ERROR - 0 .\n3 NO_ERROR -\n4 INVALID_PARAM ENOENT\n5 INVALID_PARAM EBADF\n";

const TWO_IN_A: &[u8] =
    b"1 NO_ERROR - 1\n2 NO_ERROR - 2 6869\n3 NO_ERROR -\n4 INVALID_PARAM ENOENT\n5 INVALID_PARAM EBADF\n";

const THREE_IN_A: &[u8] =
    b"1 NO_ERROR - 1\n2 NO_ERROR - 3 686921\n3 NO_ERROR -\n4 INVALID_PARAM ENOENT\n5 INVALID_PARAM EBADF\n";

const THREE_IN_B: &[u8] =
    b"1 INVALID_PARAM ENOENT\n2 INVALID_PARAM EBADF\n3 INVALID_PARAM EBADF\n4 NO_ERROR - 1\n5 NO_ERROR - 3 686921\n";

/// Whether a cut after each call from one on but reads leaves one of two texts, and after the last one the second.
fn line_survives(
    alloc: Global,
    rig: &MemRig,
    from: u32,
    before: &[u8],
    after: &[u8],
) -> Result<bool, OutOfMemory> {
    for k in from..rig.records() {
        if rig.call_at(k).kind == CallKind::Read {
            continue;
        }
        if !is_left(alloc, SMALL, rig, k + 1, READ_BOTH, before, after)? {
            return Ok(false);
        }
    }
    is_left(alloc, SMALL, rig, rig.records(), READ_BOTH, after, after)
}

/// Whether a cut after each call of the longer flight leaves the files before or after the line.
fn flight_survives(alloc: Global) -> Result<bool, OutOfMemory> {
    let mut script = ByteList::new(alloc);
    let mut from = 0;
    let mut before = NO_FILE;
    for (line, after) in FLIGHT {
        script.extend(line)?;
        let Some(rig) = rig_after(alloc, SMALL, script.bytes())? else {
            return Ok(false);
        };
        if !line_survives(alloc, &rig, from, before, after)? {
            return Ok(false);
        }
        from = rig.records();
        before = after;
    }
    Ok(true)
}

#[test]
fn a_cut_in_a_longer_flight_leaves_the_files_before_or_after_its_line(
    rt: HostRuntime,
) -> Result<(), Fail> {
    assert!(rt; flight_survives(rt.alloc())?);
    Ok(())
}

/// Whether a file that is written again and not synchronised is found with its synchronised bytes or with the new ones.
fn unsynchronised_is_left(alloc: Global) -> Result<bool, OutOfMemory> {
    let mut script = ByteList::new(alloc);
    script.extend(STORED)?;
    script.extend(b"FMS WRITE_FILE 1 21\n")?;
    let Some(rig) = rig_after(alloc, SMALL, script.bytes())? else {
        return Ok(false);
    };
    let status = b"FMS OPEN_FILE /NV1/FMS/A READ_ONLY\nFMS GET_FILE_STATUS 1\n";
    let old = b"1 NO_ERROR - 1\n2 NO_ERROR - 2 0 1\n";
    let new = b"1 NO_ERROR - 1\n2 NO_ERROR - 3 0 2\n";
    is_left(alloc, SMALL, &rig, rig.records(), status, old, new)
}

#[test]
fn a_change_that_was_not_synchronised_is_left_whole_or_not_at_all(
    rt: HostRuntime,
) -> Result<(), Fail> {
    assert!(rt; unsynchronised_is_left(rt.alloc())?);
    Ok(())
}

/// A change of the formatted image of the small table: a place with its bytes.
pub type Patch = (usize, &'static [u8]);

/// The formatted image of the small table with these changes.
pub fn patched(alloc: Global, patches: &[Patch]) -> Result<ByteList, OutOfMemory> {
    let rig = rig(alloc, SMALL, 0)?;
    let mut bytes = rig.view().to_vec(alloc)?;
    for (at, new) in patches {
        put(&mut bytes, *at, new);
    }
    let mut image = ByteList::new(alloc);
    image.extend(&bytes)?;
    Ok(image)
}

/// Images that are refused: what is changed in them, and what is told. The first tree's slots have their gates in blocks 33
/// and 100, the first logbook its places from block 187 on.
const REFUSED: [(&[Patch], &[u8]); 4] = [
    (&[(0, b"\xa4")], b"image refused 2 NotFormatted\n"),
    (&[(516, b"\x02")], b"image refused 3 OtherTable 4\n"),
    (&[(16_896, b"\x00")], b"image refused 4 BadTree 1\n"),
    (
        &[(96_768, b"\xa5"), (97_280, b"\x02\x00\x00\x00\x01\x00\xaa")],
        b"image refused 5 BadLogbook 1\n",
    ),
];

#[test]
fn bad_images_are_refused(rt: HostRuntime) -> Result<(), Fail> {
    let alloc = rt.alloc();
    for (patches, told) in REFUSED {
        let image = patched(alloc, patches)?;
        assert!(rt;
            run_over(
                alloc,
                SMALL,
                image.bytes(),
                STORED,
                Status::ImageRefused,
                told
            )?
        );
    }
    let short = vec![in alloc; 0u8; 100_863]?;
    let told = b"image refused 1 TooSmall 100864\n";
    assert!(rt; run_over(alloc, SMALL, &short, STORED, Status::ImageRefused, told)?);
    Ok(())
}

#[test]
fn a_worn_out_change_count_is_refused(rt: HostRuntime) -> Result<(), Fail> {
    let alloc = rt.alloc();
    let entry = b"\x01\x01\x00\x00\x00\x00\x00\x00\xff\xff\xff\xffA";
    let image = patched(alloc, &[(17_472, entry)])?;
    let script = b"FMS OPEN_FILE /NV1/FMS/A READ_WRITE\nFMS WRITE_FILE 1 00\n";
    let told = b"1 NO_ERROR - 1\n2 INVALID_CONFIG EOVERFLOW\n";
    assert!(rt; run_over(alloc, SMALL, image.bytes(), script, Status::Done, told)?);
    Ok(())
}

/// Whether a run over the formatted image with these changes makes so many writes and syncs, and then the byte at a place is
/// this one.
fn makes(
    alloc: Global,
    patches: &[Patch],
    script: &[u8],
    writes: u64,
    syncs: u64,
    place: usize,
    byte: u8,
) -> Result<bool, OutOfMemory> {
    let image = patched(alloc, patches)?;
    let mut rig = rig_of(alloc, image.bytes(), FailList::new(alloc))?;
    let ended = run_on(alloc, SMALL, script, &mut rig)?;
    Ok(
        ended == Status::Done
            && rig.made(CallKind::Write) == writes
            && rig.made(CallKind::Sync) == syncs
            && rig.view().get(place) == Some(&byte),
    )
}

/// Names are changed 32 times by records, then by a whole slot, whose number is at byte 51,712; a refused call makes none.
#[test]
fn a_full_journal_becomes_a_slot(rt: HostRuntime) -> Result<(), Fail> {
    let alloc = rt.alloc();
    let mut script = ByteList::new(alloc);
    for _ in 0..16u32 {
        script.extend(
            b"FMS OPEN_NEW_FILE /NV1/FMS/A\nFMS CLOSE_FILE 1\nFMS REMOVE_FILE /NV1/FMS/A\n",
        )?;
    }
    script.extend(b"FMS OPEN_NEW_FILE /NV1/FMS/A\nFMS OPEN_NEW_FILE /NV1/FMS/A\n")?;
    assert!(rt; makes(alloc, &[], script.bytes(), 68, 67, 51_712, 1)?);
    Ok(())
}

/// In an image of the first version the first change of names is a whole slot, of the second version, and the next a record.
#[test]
fn an_image_of_the_first_version_gets_the_second(rt: HostRuntime) -> Result<(), Fail> {
    let alloc = rt.alloc();
    let mut script = ByteList::new(alloc);
    script.extend(b"FMS OPEN_NEW_FILE /NV1/FMS/")?;
    script.extend(&[b'A'; 56])?;
    script.extend(b"\n")?;
    assert!(rt; makes(alloc, &[(17_409, b"\x01")], script.bytes(), 4, 3, 51_713, 2)?);
    script.extend(b"FMS OPEN_NEW_FILE /NV1/FMS/B\n")?;
    assert!(rt; makes(alloc, &[(17_409, b"\x01")], script.bytes(), 6, 5, 51_713, 2)?);
    Ok(())
}
