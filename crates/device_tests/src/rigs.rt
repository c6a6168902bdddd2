// Disks and sources in memory.
ghost use Rattle.std.specs.Prelude.{◌+◌, ◌≤◌, length, IsTrue};

use apex_types::{ByteList, CallKind, FailList, NumberList};
use rig_core::{FuseRig, MemRig, MemSource, PendingBytes, PlainRig, Rig, Source};
use std::alloc::Global;
use std::test::Fail;
use test_fixtures::{CUTS, failing, list_of, rig_of};

// A call of a disk. A read has the bytes that it is to give, at most four.
#[derive(Clone, Copy)]
enum Step<'a> {
    Read(u64, &'a [u8]),
    Write(u64, &'a [u8]),
    Sync,
    Tell(&'a [u8]),
}

fn fits<R: Rig>(rig: &R, at: u64, bytes: &[u8]) -> bool
    ensures { IsTrue result → at + length bytes.now ≤ (R.state rig.now).size }
{
    at <= rig.size() && bytes.len() as u64 <= rig.size() - at
}

// Whether a read answers `Ok` and gives these bytes.
fn gives<R: Rig>(rig: &mut R, at: u64, bytes: &[u8]) -> bool {
    if bytes.len() > 4 || !fits(rig, at, bytes) {
        return false;
    }
    let mut buffer = [0; 4];
    let into = &mut buffer[..bytes.len()];
    rig.read(at, into).is_ok() && &*into == bytes
}

// Whether a write answers `Ok`.
fn writes<R: Rig>(rig: &mut R, at: u64, bytes: &[u8]) -> bool {
    fits(rig, at, bytes) && rig.write(at, bytes).is_ok()
}

fn passes<R: Rig>(rig: &mut R, step: Step<'_>) -> bool {
    match step {
        Step::Read(at, bytes) => gives(rig, at, bytes),
        Step::Write(at, bytes) => writes(rig, at, bytes),
        Step::Sync => rig.sync().is_ok(),
        Step::Tell(line) => rig.tell(line).is_ok(),
    }
}

// Whether each call passes or not, as it is listed.
fn goes<R: Rig>(rig: &mut R, steps: &[(Step<'_>, bool)]) -> bool {
    for (step, passed) in steps {
        if passes(rig, *step) != *passed {
            return false;
        }
    }
    true
}

// Whether a call is recorded so.
fn is_recorded(rig: &MemRig, k: u32, kind: CallKind, at: u64, bytes: &[u8], ok: bool) -> bool {
    if k >= rig.records() {
        return false;
    }
    let call = rig.call_at(k);
    call.kind == kind && call.at == at && call.bytes.bytes() == bytes && call.ok == ok
}

fn is_told(rig: &MemRig) -> bool {
    rig.made(CallKind::Read) == 3
        && rig.made(CallKind::Tell) == 3
        && rig.records() == 10
        && is_recorded(rig, 1, CallKind::Read, 2, b"", false)
        && is_recorded(rig, 3, CallKind::Write, 0, b"ma", false)
        && is_recorded(rig, 5, CallKind::Sync, 0, b"", false)
        && is_recorded(rig, 8, CallKind::Tell, 0, b"two\n", false)
        && !rig.starved()
}

#[test]
fn listed_calls_fail_and_change_nothing(rt: HostRuntime) -> Result<(), Fail> {
    let listed = [
        (CallKind::Read, 2),
        (CallKind::Write, 1),
        (CallKind::Sync, 1),
        (CallKind::Tell, 2),
    ];
    let steps = [
        (Step::Read(1, b"is"), true),
        (Step::Read(2, b"sk"), false),
        (Step::Read(2, b"sk"), true),
        (Step::Write(0, b"ma"), false),
        (Step::Write(0, b"ma"), true),
        (Step::Sync, false),
        (Step::Sync, true),
        (Step::Tell(b"one\n"), true),
        (Step::Tell(b"two\n"), false),
        (Step::Tell(b"three\n"), true),
    ];
    let mut rig = rig_of(rt.alloc(), b"disk", failing(rt.alloc(), &listed)?)?;
    assert!(rt; goes(&mut rig, &steps));
    assert!(rt; is_told(&rig));
    assert_eq!(rt; rig.view(), b"mask".as_slice());
    assert_eq!(rt; rig.told(), b"one\nthree\n".as_slice());
    Ok(())
}

#[test]
fn a_plain_disk_keeps_what_is_written(rt: HostRuntime) -> Result<(), Fail> {
    let steps = [
        (Step::Write(1, b"u"), true),
        (Step::Sync, true),
        (Step::Tell(b"dropped\n"), true),
        (Step::Read(1, b"us"), true),
    ];
    let mut rig = PlainRig::new(list_of(rt.alloc(), b"disk")?);
    assert!(rt; goes(&mut rig, &steps));
    assert_eq!(rt; rig.into_image().bytes(), b"dusk".as_slice());
    Ok(())
}

// Two blocks of zeros: ones are written into both and synchronised, then twos, with a sync that fails.
fn pending(alloc: Global) -> Result<MemRig, Fail> {
    let mut rig = rig_of(alloc, &[0; 1024], failing(alloc, &[(CallKind::Sync, 2)])?)?;
    let steps = [
        (Step::Write(0, &[1; 1024]), true),
        (Step::Sync, true),
        (Step::Write(0, &[2; 1024]), true),
        (Step::Sync, false),
    ];
    if !goes(&mut rig, &steps) {
        return Err(Fail::from("pending"));
    }
    Ok(rig)
}

// The first byte of each block of an image of two.
fn firsts(image: &ByteList) -> Option<(u8, u8)> {
    let bytes = image.bytes();
    if bytes.len() == 1024 {
        Some((bytes[0], bytes[512]))
    } else {
        None
    }
}

#[test]
fn a_cut_leaves_what_was_synchronised_and_some_of_what_is_pending(
    rt: HostRuntime,
) -> Result<(), Fail> {
    let rows = [
        (0, PendingBytes::All, (0, 0)),
        (1, PendingBytes::None, (0, 0)),
        (1, PendingBytes::All, (1, 1)),
        (1, PendingBytes::EvenBlocks, (1, 0)),
        (2, PendingBytes::None, (1, 1)),
        (3, PendingBytes::EvenBlocks, (2, 1)),
        (4, PendingBytes::None, (1, 1)),
        (9, PendingBytes::All, (2, 2)),
    ];
    let rig = pending(rt.alloc())?;
    for (calls, left, want) in rows {
        assert_eq!(rt;
            firsts(&rig.cut_image(calls, left)?),
            Some(want),
            "after {calls} calls"
        );
    }
    Ok(())
}

// Two blocks of zeros under a fuse: ones are written into both and synchronised, then twos.
fn fused(alloc: Global, calls: u64) -> Result<FuseRig, Fail> {
    let mut rig = FuseRig::new(alloc, list_of(alloc, &[0; 1024])?, calls)?;
    let steps = [
        (Step::Write(0, &[1; 1024]), calls > 0),
        (Step::Sync, calls > 1),
        (Step::Write(0, &[2; 1024]), calls > 2),
        (Step::Tell(b"dropped\n"), calls > 2),
        (Step::Sync, calls > 3),
        (Step::Read(511, &[2, 2]), calls > 3),
    ];
    if !goes(&mut rig, &steps) || rig.starved() {
        return Err(Fail::from("fused"));
    }
    Ok(rig)
}

#[test]
fn a_fuse_lets_so_many_calls_pass_and_none_after(rt: HostRuntime) -> Result<(), Fail> {
    for calls in 0..6 {
        assert_eq!(rt;
            fused(rt.alloc(), calls)?.made(),
            calls.min(4),
            "at most {calls} calls"
        );
    }
    Ok(())
}

#[test]
fn a_cut_of_a_fused_disk_leaves_what_it_names(rt: HostRuntime) -> Result<(), Fail> {
    let rows = [
        (PendingBytes::None, (1, 1)),
        (PendingBytes::All, (2, 2)),
        (PendingBytes::EvenBlocks, (2, 1)),
    ];
    let rig = fused(rt.alloc(), 3)?;
    for (left, want) in rows {
        assert_eq!(rt; firsts(&rig.cut_image(left)?), Some(want));
    }
    let rig = fused(rt.alloc(), 4)?;
    for left in CUTS {
        assert_eq!(rt; firsts(&rig.cut_image(left)?), Some((2, 2)));
    }
    Ok(())
}

#[test]
fn a_write_that_a_fuse_refuses_is_pending(rt: HostRuntime) -> Result<(), Fail> {
    let rig = fused(rt.alloc(), 2)?;
    assert_eq!(rt; firsts(&rig.cut_image(PendingBytes::None)?), Some((1, 1)));
    assert_eq!(rt;
        firsts(&rig.cut_image(PendingBytes::EvenBlocks)?),
        Some((2, 1))
    );
    Ok(())
}

// Whether a read gives these bytes; none where it is to fail.
fn next_is(source: &mut MemSource, want: Option<&[u8]>) -> bool {
    let mut buffer = [0; 3];
    match (source.read(&mut buffer), want) {
        (Ok(count), Some(bytes)) => buffer.get(..count) == Some(bytes),
        (Err(_), None) => true,
        _ => false,
    }
}

#[test]
fn a_source_gives_its_bytes_around_a_listed_read(rt: HostRuntime) -> Result<(), Fail> {
    let mut listed = NumberList::new(rt.alloc());
    listed.push(2)?;
    let mut source = MemSource::new(list_of(rt.alloc(), b"line")?, listed);
    assert!(rt; next_is(&mut source, Some(b"lin")));
    assert!(rt; next_is(&mut source, None));
    assert!(rt; next_is(&mut source, Some(b"e")));
    assert!(rt; next_is(&mut source, Some(b"")));
    Ok(())
}
