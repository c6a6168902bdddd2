//! Loads drawn from a seed, and sweeps of cuts.
use super::images::STORED;
use super::{SMALL, formatted, is_usage, run_on, source};
use apex_host::{Status, host};
use apex_types::{ByteList, CallKind, FailList, OutOfMemory, Words};
use rig_core::FuseRig;
use std::alloc::Global;
use std::test::Fail;
use test_fixtures::{CUTS, failing, rig_of};

/// The words of a load.
fn load_words(alloc: Global, seed: &[u8], count: &[u8]) -> Result<Words, OutOfMemory> {
    let mut words = Words::new(alloc);
    words.push(b"stress")?;
    words.push(seed)?;
    words.push(count)?;
    Ok(words)
}

/// Whether a load over the formatted image of its table, where these calls of the device fail, ends and tells so.
fn loads(
    alloc: Global,
    words: &Words,
    failed: &[(CallKind, u64)],
    status: Status,
    told: &[u8],
) -> Result<bool, OutOfMemory> {
    let image = formatted(alloc, SMALL)?;
    let mut rig = rig_of(alloc, image.bytes(), failing(alloc, failed)?)?;
    let mut table = source(alloc, SMALL, 0)?;
    let mut script = source(alloc, b"", 1)?;
    let ended = host(alloc, words, &mut table, &mut script, &mut rig);
    Ok(ended == status && rig.told() == told)
}

/// What loads of no line, of four and of two hundred lines tell. The middle one's lines are `FMS CREATE_LOGBOOK FAULTS`,
/// `DISP SYNC_FILE 4`, `TICK 10` and `FMS CLOSE_FILE 2`.
const LOADS: [(&[u8], &[u8], &[u8]); 3] = [
    (
        b"5",
        b"0",
        b"stress lines 0 replies 0 NO_ERROR 0 NO_ACTION 0 NOT_AVAILABLE 0 INVALID_PARAM 0 INVALID_CONFIG 0 INVALID_MODE 0 bytes 0\n",
    ),
    (
        b"1",
        b"4",
        b"stress lines 4 replies 3 NO_ERROR 1 NO_ACTION 0 NOT_AVAILABLE 0 INVALID_PARAM 2 INVALID_CONFIG 0 INVALID_MODE 0 bytes 0\n",
    ),
    (
        b"7",
        b"200",
        b"stress lines 200 replies 144 NO_ERROR 54 NO_ACTION 11 NOT_AVAILABLE 6 INVALID_PARAM 71 INVALID_CONFIG 2 INVALID_MODE 0 bytes 0\n",
    ),
];

#[test]
fn the_replies_to_a_load_are_counted(rt: HostRuntime) -> Result<(), Fail> {
    let alloc = rt.alloc();
    for (seed, count, told) in LOADS {
        let words = load_words(alloc, seed, count)?;
        assert!(rt; loads(alloc, &words, &[], Status::Done, told)?);
    }
    Ok(())
}

/// The first read is the mount's; the first write and sync are those of a line.
#[test]
fn a_load_ends_where_the_device_fails(rt: HostRuntime) -> Result<(), Fail> {
    let alloc = rt.alloc();
    let words = load_words(alloc, b"7", b"200")?;
    let mount = b"device fault mount\n";
    assert!(rt;
        loads(
            alloc,
            &words,
            &[(CallKind::Read, 1)],
            Status::DeviceFault,
            mount
        )?
    );
    let line = b"device fault stress\n";
    assert!(rt;
        loads(
            alloc,
            &words,
            &[(CallKind::Write, 1)],
            Status::DeviceFault,
            line
        )?
    );
    assert!(rt;
        loads(
            alloc,
            &words,
            &[(CallKind::Sync, 2)],
            Status::DeviceFault,
            line
        )?
    );
    Ok(())
}

#[test]
fn a_load_has_two_numbers_and_at_most_20000_lines(rt: HostRuntime) -> Result<(), Fail> {
    let alloc = rt.alloc();
    for (seed, count) in [
        (b"1".as_slice(), b"20001".as_slice()),
        (b"01", b"4"),
        (b"4294967296", b"1"),
        (b"1", b"x"),
    ] {
        assert!(rt; is_usage(alloc, &load_words(alloc, seed, count)?)?);
    }
    Ok(())
}

/// Whether a sweep ends and tells so, and leaves its rig.
fn sweeps(
    alloc: Global,
    table: &[u8],
    script: &[u8],
    status: Status,
    told: &[u8],
) -> Result<bool, OutOfMemory> {
    let mut words = Words::new(alloc);
    words.push(b"sweep")?;
    let mut rig = rig_of(alloc, b"none", FailList::new(alloc))?;
    let mut table = source(alloc, table, 0)?;
    let mut script = source(alloc, script, 0)?;
    let ended = host(alloc, &words, &mut table, &mut script, &mut rig);
    let untouched = rig.made(CallKind::Read) == 0 && rig.made(CallKind::Write) == 0;
    Ok(ended == status && rig.told() == told && untouched)
}

/// A table whose image has 1,025 blocks.
const LARGE: &[u8] = b"partition = [{ name = \"P\" }]
volume = [{ name = \"V\", blocks = 1000 }]
tree = [{ volume = \"V\", owner = \"P\", quota = 1000, files = 1, directories = 0, dirty = 16 }]
";

#[test]
fn a_sweep_counts_calls_images_and_files(rt: HostRuntime) -> Result<(), Fail> {
    let alloc = rt.alloc();
    let none = b"sweep calls 0 images 3 mounted 3 files 0\n";
    assert!(rt; sweeps(alloc, SMALL, b"", Status::Done, none)?);
    let made = b"FMS OPEN_NEW_FILE /NV1/FMS/A\n";
    let told = b"sweep calls 4 images 15 mounted 15 files 7\n";
    assert!(rt; sweeps(alloc, SMALL, made, Status::Done, told)?);
    Ok(())
}

/// A script of so many ticks.
fn ticks(alloc: Global, count: u8) -> Result<ByteList, OutOfMemory> {
    let mut script = ByteList::new(alloc);
    for _ in 0..count {
        script.extend(b"TICK 1\n")?;
    }
    Ok(script)
}

#[test]
fn a_sweep_of_too_much_is_refused(rt: HostRuntime) -> Result<(), Fail> {
    let alloc = rt.alloc();
    let refused = b"command refused SweepTooLarge\n";
    let long = ticks(alloc, 65)?;
    assert!(rt; sweeps(alloc, SMALL, long.bytes(), Status::CommandRefused, refused)?);
    assert!(rt; sweeps(alloc, LARGE, b"", Status::CommandRefused, refused)?);
    let most = ticks(alloc, 64)?;
    let told = b"sweep calls 0 images 3 mounted 3 files 0\n";
    assert!(rt; sweeps(alloc, SMALL, most.bytes(), Status::Done, told)?);
    Ok(())
}

/// The number of files that a call tells of the tree in an image, where it has one or none.
fn files_in(alloc: Global, image: &[u8]) -> Result<Option<u64>, OutOfMemory> {
    let mut rig = rig_of(alloc, image, FailList::new(alloc))?;
    let ended = run_on(alloc, SMALL, b"FMS GET_VOLUME_STATUS /NV1/FMS\n", &mut rig)?;
    Ok(match rig.told() {
        [.., b' ', b'0', b'\n'] if ended == Status::Done => Some(0),
        [.., b' ', b'1', b'\n'] if ended == Status::Done => Some(1),
        _ => None,
    })
}

/// What is counted by hand: the calls of a run of a script whose power fails after so many, and the files in the three
/// images that are left; none where one doesn't mount.
fn cut_by_hand(
    alloc: Global,
    script: &[u8],
    calls: u64,
) -> Result<Option<(u64, u64)>, OutOfMemory> {
    let mut words = Words::new(alloc);
    words.push(b"run")?;
    let image = formatted(alloc, SMALL)?;
    let mut rig = FuseRig::new(alloc, image, calls)?;
    let mut table = source(alloc, SMALL, 0)?;
    let mut lines = source(alloc, script, 0)?;
    host(alloc, &words, &mut table, &mut lines, &mut rig);
    let mut files = 0u64;
    for left in CUTS {
        let Some(found) = files_in(alloc, rig.cut_image(left)?.bytes())? else {
            return Ok(None);
        };
        files = files.saturating_add(found);
    }
    Ok(Some((rig.made(), files)))
}

/// The calls of a script's whole run and the files that are left, counted by hand for each number of calls.
fn sweep_by_hand(alloc: Global, script: &[u8]) -> Result<Option<(u64, u64)>, OutOfMemory> {
    let Some((calls, _)) = cut_by_hand(alloc, script, u64::MAX)? else {
        return Ok(None);
    };
    let mut files = 0u64;
    for passed in 0..calls.saturating_add(1) {
        let Some((_, found)) = cut_by_hand(alloc, script, passed)? else {
            return Ok(None);
        };
        files = files.saturating_add(found);
    }
    Ok(Some((calls, files)))
}

#[test]
fn a_sweep_tells_what_is_counted_by_hand(rt: HostRuntime) -> Result<(), Fail> {
    let alloc = rt.alloc();
    assert!(rt; sweep_by_hand(alloc, STORED)? == Some((12, 31)));
    let told = b"sweep calls 12 images 39 mounted 39 files 31\n";
    assert!(rt; sweeps(alloc, SMALL, STORED, Status::Done, told)?);
    Ok(())
}
