// A device is formatted.
use crate::fixture::{BYTES, SMALL, all_are, has, sevens, table_of};
use apex_types::CallKind;
use config_table::table_bytes;
use recover_scan::{FormatError, format};
use rig_core::MemRig;
use std::alloc::Global;
use std::test::Fail;
use test_fixtures::CUTS;

// Whether an image is the empty one of the small table, over sevens.
fn is_empty_image(image: &[u8], table: &[u8]) -> bool {
    has(image, 0, &[0xA5])
        && has(image, 512, &[62, 0, 0, 0])
        && has(image, 516, table)
        && all_are(image, 578, 16_896, 0)
        && has(image, 16_896, &[0xA5])
        && all_are(image, 16_897, 17_409, 0)
        && has(image, 17_409, &[2])
        && all_are(image, 17_410, 85_504, 0)
        && all_are(image, 85_504, 93_696, 7)
        && has(image, 93_696, &[0xA5])
        && all_are(image, 93_697, 100_864, 0)
}

// Whether an image is empty, or before the last call not formatted or as it was behind this gate.
fn is_allowed(image: &[u8], table: &[u8], gate: u8, is_last: bool) -> bool {
    let old = has(image, 0, &[gate]) && all_are(image, 1, BYTES, 7);
    let closed = !has(image, 0, &[0xA5]);
    is_empty_image(image, table) || !is_last && (old || closed)
}

// Whether each cut after so many calls leaves an image that is allowed.
fn leaves_allowed(rig: &MemRig, calls: u32, table: &[u8], gate: u8) -> Result<bool, Fail> {
    for left in CUTS {
        let image = rig.cut_image(calls, left)?;
        if !is_allowed(image.bytes(), table, gate, calls == rig.records()) {
            return Ok(false);
        }
    }
    Ok(true)
}

// Whether the format of sevens behind a gate makes so many writes and syncs, and each cut leaves an image that is allowed.
fn formats(alloc: Global, gate: u8, writes: u64, syncs: u64) -> Result<bool, Fail> {
    let table = table_of(alloc, SMALL)?;
    let bytes = table_bytes(alloc, &table)?;
    let mut rig = sevens(alloc, BYTES, gate, &[])?;
    if format(alloc, &mut rig, &table).is_err() {
        return Ok(false);
    }
    for calls in 0..=rig.records() {
        if !leaves_allowed(&rig, calls, bytes.bytes(), gate)? {
            return Ok(false);
        }
    }
    Ok(
        rig.made(CallKind::Write) == writes
            && rig.made(CallKind::Sync) == syncs
            && is_empty_image(rig.view(), bytes.bytes())
            && all_are(rig.view(), 1, 512, 7),
    )
}

#[test]
fn a_cut_at_each_call_leaves_the_old_image_an_unformatted_one_or_the_empty_one(
    rt: HostRuntime,
) -> Result<(), Fail> {
    for (gate, writes, syncs) in [(0xA5, 5, 3), (7, 4, 2)] {
        assert!(rt; formats(rt.alloc(), gate, writes, syncs)?, "{gate}");
    }
    Ok(())
}

#[test]
fn a_device_that_is_too_small_is_not_written(rt: HostRuntime) -> Result<(), Fail> {
    let table = table_of(rt.alloc(), SMALL)?;
    let mut rig = sevens(rt.alloc(), BYTES - 1, 0xA5, &[])?;
    let refused = format(rt.alloc(), &mut rig, &table);
    assert!(rt; matches!(refused, Err(FormatError::TooSmall { wanted: 100_864 })));
    assert_eq!(rt; rig.records(), 0);
    Ok(())
}

// Whether a format tells a fault of the device where a call fails.
fn tells_fault(alloc: Global, kind: CallKind, number: u64) -> Result<bool, Fail> {
    let table = table_of(alloc, SMALL)?;
    let mut rig = sevens(alloc, BYTES, 0xA5, &[(kind, number)])?;
    let answer = format(alloc, &mut rig, &table);
    Ok(matches!(answer, Err(FormatError::Device)))
}

#[test]
fn each_call_may_fail(rt: HostRuntime) -> Result<(), Fail> {
    let rows = [
        (CallKind::Read, 1),
        (CallKind::Write, 1),
        (CallKind::Write, 2),
        (CallKind::Write, 3),
        (CallKind::Write, 4),
        (CallKind::Write, 5),
        (CallKind::Sync, 1),
        (CallKind::Sync, 2),
        (CallKind::Sync, 3),
    ];
    for (kind, number) in rows {
        assert!(rt; tells_fault(rt.alloc(), kind, number)?, "{number}");
    }
    Ok(())
}

#[test]
fn errors_are_told(rt: HostRuntime) -> Result<(), Fail> {
    let small = FormatError::TooSmall {
        wanted: BYTES as u64,
    };
    let texts = [
        (small, "the device is too small: 100864 bytes are wanted"),
        (FormatError::Device, "the device failed"),
        (FormatError::Memory, "no memory is left"),
    ];
    for (error, text) in texts {
        let told = format!(in rt.alloc(); "{error}")?;
        assert_eq!(rt; told.as_str(), text);
    }
    Ok(())
}
