// The places of a logbook, each behind a gate.
ghost use Rattle.std.specs.Prelude.{◌≡◌, ◌+◌, ◌*◌, ◌%◌, ◌<◌, ◌≤◌, ◌∷◌, [], List, ℕ, Some, None, length, IfOk, IfSome, OnErr, option_map, is_some};
ghost use Rattle.std.specs.List.{range_with_len};
ghost use Rattle.apex_model.specs.Image.{all_answers, greatest, message_in_place, message_numbered};
ghost use Rattle.apex_model.specs.Layout.{logbook_blocks};
ghost use Rattle.rig_core.specs.Causes.{Rose};
ghost use Rattle.rig_core.specs.Outside.{OnlyReads};
ghost use Rattle.logbook_store.specs.Regions.{PlaceEntry, region_at, places_in, entry_by_bytes, is_numbered, stored_above, HasCounts};

use apex_types::{Bytes, LogbookRow};
use gate_slots::gate_read;
use image_format::message_at;
use rig_core::{DeviceFault, Rig};

const BLOCK: u64 = 512;

/// How many places a logbook has: one more than there are logged messages.
pub(crate) fn count_of(row: &LogbookRow) -> u32
    ensures { result ≡ row.now.logged + 1 }
{
    u32::from(row.logged) + 1
}

/// The number and the message that the bytes of an open place spell, if they are those of this place.
fn entry_spelled(row: &LogbookRow, place: u32, body: &[u8]) -> Option<Option<(u32, Bytes)>>
    requires { length body.now ≡ 512 }
    ensures { result ≡ entry_by_bytes row.now place body.now }
{
    let (number, bytes) = message_at(body, u32::from(row.message_size))?;
    if number % count_of(row) != place {
        return None;
    }
    Some(Some((number, bytes)))
}

/// What a place of the logbook that begins at this byte has: nothing behind a closed gate, else a number and
/// a message. It has no answer where the gate is open and the bytes behind it aren't spelled as those of this
/// place. A fault comes only where the rig's read faults rose.
pub(crate) fn read_place<R: Rig>(
    rig: &mut R,
    row: &LogbookRow,
    start: u64,
    place: u32,
) -> Result<Option<Option<(u32, Bytes)>>, DeviceFault>
    requires place { place ≤ row.now.logged }
    requires fits { start + 512 * logbook_blocks row.now ≤ (R.state rig.old).size }
    ensures reads { OnlyReads R.tells_view (R.state rig.old) (R.state rig.new) }
    ensures place { R.tells_view → IfOk result (λ found. found ≡ message_in_place row.now (region_at row.now start (R.state rig.old).view) place) }
    ensures cause { OnErr result (Rose (R.state rig.old).read_faults (R.state rig.new).read_faults) }
{
    let gate = start + 4 * BLOCK + 2 * BLOCK * u64::from(place);
    if !gate_read(rig, gate)? {
        return Ok(Some(None));
    }
    let mut body = [0; 512];
    rig.read(gate + BLOCK, &mut body)?;
    Ok(entry_spelled(row, place, &body))
}

/// The greater of a number and that of a place, where it has one.
fn greater(number: u32, found: &Option<(u32, Bytes)>) -> u32
    ensures { result ≡ greatest number (found.now ∷ []) }
{
    match found {
        Some((other, _)) => number.max(*other),
        None => number,
    }
}

/// The greatest of the cleared number and the numbers in all places. It has no answer where a place has none.
/// A fault comes only where the rig's read faults rose.
pub(crate) fn greatest_number<R: Rig>(
    rig: &mut R,
    row: &LogbookRow,
    start: u64,
    cleared: u32,
) -> Result<Option<u32>, DeviceFault>
    requires fits { start + 512 * logbook_blocks row.now ≤ (R.state rig.old).size }
    ensures reads { OnlyReads R.tells_view (R.state rig.old) (R.state rig.new) }
    ensures greatest { R.tells_view → IfOk result (λ found. found ≡ option_map (greatest cleared) (places_in row.now (region_at row.now start (R.state rig.old).view))) }
    ensures cause { OnErr result (Rose (R.state rig.old).read_faults (R.state rig.new).read_faults) }
{
    let mut number = cleared;
    for place in 0..count_of(row) {
        let Some(found) = read_place(rig, row, start, place)? else {
            return Ok(None);
        };
        number = greater(number, &found);
    }
    Ok(Some(number))
}

/// Whether the places have a message of each of so many numbers above one. A fault comes only where the rig's
/// read faults rose.
pub(crate) fn has_all<R: Rig>(
    rig: &mut R,
    row: &LogbookRow,
    start: u64,
    below: u32,
    count: u32,
) -> Result<bool, DeviceFault>
    requires few { below + count ≤ 4294967295 }
    requires fits { start + 512 * logbook_blocks row.now ≤ (R.state rig.old).size }
    ensures reads { OnlyReads R.tells_view (R.state rig.old) (R.state rig.new) }
    ensures all { (places : List PlaceEntry) → R.tells_view → places_in row.now (region_at row.now start (R.state rig.old).view) ≡ Some places
        → IfOk result (λ all. all ≡ is_some (all_answers (λ n. message_numbered n places) (range_with_len (below + 1) count))) }
    ensures cause { OnErr result (Rose (R.state rig.old).read_faults (R.state rig.new).read_faults) }
{
    for k in 0..count {
        let number = below + 1 + k;
        let found = read_place(rig, row, start, number % count_of(row))?;
        if !has_number(&found, number) {
            return Ok(false);
        }
    }
    Ok(true)
}

/// Whether a place has a message of this number.
fn has_number(found: &Option<Option<(u32, Bytes)>>, number: u32) -> bool
    ensures { result ≡ is_numbered number found.now }
{
    match found {
        Some(Some((other, _))) => *other == number,
        _ => false,
    }
}

/// The life and the number of logged messages of a logbook with this cleared number, if its places spell
/// them. A fault comes only where the rig's read faults rose.
pub(crate) fn read_counts<R: Rig>(
    rig: &mut R,
    row: &LogbookRow,
    start: u64,
    cleared: u32,
) -> Result<Option<(u32, u32)>, DeviceFault>
    requires fits { start + 512 * logbook_blocks row.now ≤ (R.state rig.old).size }
    ensures lived { IfOk result (λ found. IfSome found (λ counts. counts.1 ≤ counts.0)) }
    ensures few { IfOk result (λ found. IfSome found (λ counts. counts.1 ≤ row.now.logged)) }
    ensures bad { R.tells_view → IfOk result (λ found. found ≡ None → stored_above row.now cleared (places_in row.now (region_at row.now start (R.state rig.old).view)) ≡ None) }
    ensures good { R.tells_view → IfOk result (λ found. IfSome found (λ counts. HasCounts row.now cleared (places_in row.now (region_at row.now start (R.state rig.old).view)) counts.0 counts.1)) }
    ensures reads { OnlyReads R.tells_view (R.state rig.old) (R.state rig.new) }
    ensures cause { OnErr result (Rose (R.state rig.old).read_faults (R.state rig.new).read_faults) }
{
    let Some(life) = greatest_number(rig, row, start, cleared)? else {
        return Ok(None);
    };
    let below = cleared.max(life.saturating_sub(u32::from(row.logged)));
    let logged = life.saturating_sub(below);
    if !has_all(rig, row, start, below, logged)? {
        return Ok(None);
    }
    Ok(Some((life, logged)))
}

/// The message of a number, as its place on the device has it. A fault comes only where the rig's read faults rose.
pub(crate) fn logged_bytes<R: Rig>(
    rig: &mut R,
    row: &LogbookRow,
    start: u64,
    number: u32,
) -> Result<Bytes, DeviceFault>
    requires fits { start + 512 * logbook_blocks row.now ≤ (R.state rig.old).size }
    ensures reads { OnlyReads R.tells_view (R.state rig.old) (R.state rig.new) }
    ensures bytes { (entry : ℕ × List ℕ) → R.tells_view
        → message_in_place row.now (region_at row.now start (R.state rig.old).view) (number % (row.now.logged + 1)) ≡ Some (Some entry)
        → IfOk result (λ bytes. bytes ≡ entry.1) }
    ensures cause { OnErr result (Rose (R.state rig.old).read_faults (R.state rig.new).read_faults) }
{
    match read_place(rig, row, start, number % count_of(row))? {
        Some(Some((_, bytes))) => Ok(bytes),
        // A mounted logbook has it.
        _ => Ok(Bytes::new()),
    }
}
