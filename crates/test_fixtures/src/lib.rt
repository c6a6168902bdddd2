//! Fixtures of the tests: images by their bytes, disks in memory, and what power cuts leave of them.
#![tactic(auto)]

ghost use Rattle.std.specs.Prelude.{◌≡◌, length, IfOk};
ghost use Rattle.rig_core.specs.Leaves.{IsAllSettled};
ghost use Rattle.rig_core.specs.MemRig.{mem_state, Begins};

use apex_types::{ByteList, CallKind, FailList, OutOfMemory};
use rig_core::{MemRig, PendingBytes};
use std::alloc::Global;

// Room for the records of most tests.
const RECORDS: u32 = 64;

/// Each way in which a power cut leaves pending bytes.
pub const CUTS: [PendingBytes; 3] = [
    PendingBytes::None,
    PendingBytes::All,
    PendingBytes::EvenBlocks,
];

/// Puts bytes into an image from a place on. Where they would not fit, the image stays as it was.
pub fn put(image: &mut [u8], at: usize, bytes: &[u8]) {
    if at <= image.len() && bytes.len() <= image.len() - at {
        image[at..at + bytes.len()].copy_from_slice(bytes);
    }
}

/// A list of these bytes.
pub fn list_of(alloc: Global, bytes: &[u8]) -> Result<ByteList, OutOfMemory>
    ensures { IfOk result (λ list. list ≡ bytes.now) }
{
    let mut list = ByteList::new(alloc);
    list.extend(bytes)?;
    Ok(list)
}

/// A list of calls that fail, each by its kind and its number within the kind, counted from 1.
pub fn failing(alloc: Global, calls: &[(CallKind, u64)]) -> Result<FailList, OutOfMemory>
    ensures { IfOk result (λ list. list ≡ calls.now) }
{
    let mut list = FailList::new(alloc);
    for (kind, number) in calls {
        list.push(*kind, *number)?;
    }
    Ok(list)
}

/// A disk in memory with an image, all of it synchronised, that fails at the listed calls.
pub fn rig_of(alloc: Global, image: &[u8], failing: FailList) -> Result<MemRig, OutOfMemory>
    ensures begins { IfOk result (Begins image.now failing) }
    ensures size { IfOk result (λ rig. (mem_state rig).size ≡ length image.now) }
    ensures settled { IfOk result (λ rig. IsAllSettled (mem_state rig)) }
{
    let image = list_of(alloc, image)?;
    MemRig::new(alloc, image, failing, RECORDS)
}

/// The disk that is found where power failed after so many of the recorded calls. No call on it fails.
pub fn after_cut(
    alloc: Global,
    rig: &MemRig,
    calls: u32,
    left: PendingBytes,
) -> Result<MemRig, OutOfMemory>
    ensures size { IfOk result (λ cut. (mem_state cut).size ≡ (mem_state rig.now).size) }
    ensures settled { IfOk result (λ cut. IsAllSettled (mem_state cut)) }
{
    let image = rig.cut_image(calls, left)?;
    MemRig::new(alloc, image, FailList::new(alloc), RECORDS)
}
