//! Commands other than `run`: an image is checked, and the lines of one partition's upstream are carried out.
use super::flights::TAKE_OFF;
use super::formats::FOUR_PARTITIONS;
use super::images::{Patch, patched};
use super::{FIRST_RUN, SMALL, formatted, is_usage, rig, source};
use apex_host::{Status, host};
use apex_types::{FailList, OutOfMemory, Words};
use std::alloc::Global;
use std::test::Fail;
use test_fixtures::rig_of;

/// Whether `check` over an image of these bytes ends and tells so, and leaves the image.
fn checks(alloc: Global, image: &[u8], status: Status, told: &[u8]) -> Result<bool, OutOfMemory> {
    let mut words = Words::new(alloc);
    words.push(b"check")?;
    let mut table = source(alloc, SMALL, 0)?;
    let mut script = source(alloc, b"", 0)?;
    let mut rig = rig_of(alloc, image, FailList::new(alloc))?;
    let ended = host(alloc, &words, &mut table, &mut script, &mut rig);
    Ok(ended == status && rig.told() == told && rig.view() == image)
}

/// Whether `only` for this partition, over the formatted image of its table, ends and tells so, where this read of the
/// script's source fails.
pub fn tells_only(
    alloc: Global,
    table: &[u8],
    name: &[u8],
    script: &[u8],
    script_read: u64,
    status: Status,
    told: &[u8],
) -> Result<bool, OutOfMemory> {
    let mut words = Words::new(alloc);
    words.push(b"only")?;
    words.push(name)?;
    let mut rig = rig(alloc, table, 0)?;
    let mut table = source(alloc, table, 0)?;
    let mut script = source(alloc, script, script_read)?;
    let ended = host(alloc, &words, &mut table, &mut script, &mut rig);
    Ok(ended == status && rig.told() == told)
}

#[test]
fn a_formatted_image_is_good(rt: HostRuntime) -> Result<(), Fail> {
    let alloc = rt.alloc();
    let image = formatted(alloc, SMALL)?;
    let told = b"image good trees 1 logbooks 1\n";
    assert!(rt; checks(alloc, image.bytes(), Status::Done, told)?);
    Ok(())
}

/// Images that `check` refuses: what is changed in them, and what is told.
const REFUSED: [(&[Patch], &[u8]); 2] = [
    (&[(0, b"\xa4")], b"image refused 2 NotFormatted\n"),
    (&[(18_432, b"\xa5")], b"image refused 4 BadTree 1\n"),
];

#[test]
fn changed_and_short_images_are_refused(rt: HostRuntime) -> Result<(), Fail> {
    let alloc = rt.alloc();
    for (patches, told) in REFUSED {
        let image = patched(alloc, patches)?;
        assert!(rt; checks(alloc, image.bytes(), Status::ImageRefused, told)?);
    }
    let short = vec![in alloc; 0u8; 100_863]?;
    let told = b"image refused 1 TooSmall 100864\n";
    assert!(rt; checks(alloc, &short, Status::ImageRefused, told)?);
    Ok(())
}

/// The script's source would fail at its first read.
#[test]
fn an_unknown_partition_is_refused_before_the_script_is_read(rt: HostRuntime) -> Result<(), Fail> {
    let told = b"command refused UnknownPartition\n";
    let status = Status::CommandRefused;
    assert!(rt; tells_only(rt.alloc(), SMALL, b"XYZ", FIRST_RUN, 1, status, told)?);
    Ok(())
}

#[test]
fn only_without_a_name_tells_the_usage(rt: HostRuntime) -> Result<(), Fail> {
    let mut words = Words::new(rt.alloc());
    words.push(b"only")?;
    assert!(rt; is_usage(rt.alloc(), &words)?);
    words.push(b"a/b")?;
    assert!(rt; is_usage(rt.alloc(), &words)?);
    Ok(())
}

/// The replies keep the numbers that they have in the whole script.
#[test]
fn a_partitions_own_replies_are_told(rt: HostRuntime) -> Result<(), Fail> {
    let alloc = rt.alloc();
    let status = Status::Done;
    let radio = b"7 NO_ERROR -\n11 NO_ERROR - 1\n12 NO_ERROR - 8\n";
    assert!(rt; tells_only(alloc, FOUR_PARTITIONS, b"RAD", TAKE_OFF, 0, status, radio)?);
    let display = b"2 NO_ERROR - 1\n5 NO_ERROR -\n10 NO_ERROR - 1\n";
    assert!(rt;
        tells_only(
            alloc,
            FOUR_PARTITIONS,
            b"DISP",
            TAKE_OFF,
            0,
            status,
            display
        )?
    );
    Ok(())
}
