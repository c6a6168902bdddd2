// A format closes the superblock's gate, writes all else behind it, and opens the gate.
ghost use Rattle.std.specs.Prelude.{◌≡◌, ◌⊎◌, ◌+◌, ◌*◌, ◌<◌, ◌≤◌, ℕ, Some, Err, length, slice_get, OnOk, OnErr, IfErr};
ghost use Rattle.apex_types.specs.declared.rows.TreeRow.{TreeRow};
ghost use Rattle.apex_types.specs.declared.rows.LogbookRow.{LogbookRow};
ghost use Rattle.apex_model.specs.Accepted.{IsAccepted};
ghost use Rattle.apex_model.specs.Image.{wanted_superblock};
ghost use Rattle.apex_model.specs.Layout.{slot_blocks, logbook_blocks, layout_blocks};
ghost use Rattle.rig_core.specs.Causes.{Rose};
ghost use Rattle.rig_core.specs.Outside.{AllNow, Later, MakesAtMost};
ghost use Rattle.rig_core.specs.Leaves.{Leaves, IsAllSettled};
ghost use Rattle.image_format.specs.Places.{places_of};
ghost use Rattle.recover_scan.specs.Format.{KeepsRest, SparesRest, IsWholeEmpty, IsFormatted, OldOrFormatted, FailsFor};
ghost use Rattle.recover_scan.specs.declared.errors.FormatError.TheVariants.{TooSmall};

use crate::FormatError;
use crate::gates::{close_gate, open_gate};
use crate::metadata::write_metadata;
use crate::runs::{longest_run, superblock_bytes, zeros};
use apex_types::Table;
use image_format::{Layout, layout};
use rig_core::{DeviceFault, Rig};
use std::alloc::Global;

/// Writes the empty image behind a closed gate, with a buffer for the longest run.
fn write_image<R: Rig>(
    rig: &mut R,
    table: &Table,
    places: &Layout,
    superblock: &[u8],
    buffer: &mut [u8],
) -> Result<(), DeviceFault>
    requires accepted { IsAccepted table.now }
    requires places { places.now ≡ places_of table.now }
    requires superblock { superblock.now ≡ wanted_superblock table.now }
    requires room { 16384 ≤ length buffer.old }
    requires trees { (tree : ℕ) (row : TreeRow) → slice_get table.now.trees tree ≡ Some row → 1024 * slot_blocks row ≤ length buffer.old }
    requires logbooks { (logbook : ℕ) (row : LogbookRow) → slice_get table.now.logbooks logbook ≡ Some row → 512 * logbook_blocks row ≤ length buffer.old }
    requires fits { 512 * layout_blocks table.now ≤ (R.state rig.old).size }
    requires settled { IsAllSettled (R.state rig.old) }
    ensures later { Later (R.state rig.old) (R.state rig.new) }
    ensures made { MakesAtMost (3 + length table.now.trees + length table.now.logbooks) 3 0 (R.state rig.old) (R.state rig.new) }
    ensures any_moment { Leaves (OldOrFormatted table.now (R.state rig.old).view) (R.state rig.old) (R.state rig.new) }
    ensures formatted { OnOk result (AllNow (IsFormatted table.now) (R.state rig.new)) }
    ensures shown { R.tells_view → OnOk result (IsFormatted table.now (R.state rig.new).view) }
    ensures spares { SparesRest R.tells_view table.now (R.state rig.old) (R.state rig.new) }
    ensures whole { R.tells_view → OnOk result (IsWholeEmpty table.now (R.state rig.old).view (R.state rig.new).view) }
    ensures settled { OnOk result (IsAllSettled (R.state rig.new)) }
    ensures cause { OnErr result (Rose (R.state rig.old).read_faults (R.state rig.new).read_faults ⊎ Rose (R.state rig.old).write_faults (R.state rig.new).write_faults) }
{
    close_gate(rig)?;
    write_metadata(rig, table, places, superblock, buffer)?;
    open_gate(rig)?;
    Ok(())
}

/// Formats a device for a table. At every moment a cut leaves the image as it was, an image that is not formatted,
/// or the one in which nothing was ever stored, and from `Ok` on it leaves that one. Where no memory is left, or the
/// device is smaller than the table's image, nothing is written. Of the device it writes the superblock's gate and bytes, the
/// slots of each tree and the logbooks, with zeros where nothing has to be; the data blocks and all behind the image stay.
pub fn format<R: Rig>(alloc: Global, rig: &mut R, table: &Table) -> Result<(), FormatError>
    requires accepted { IsAccepted table.now }
    requires settled { IsAllSettled (R.state rig.old) }

    // At every moment the image is as it was, not formatted, or empty, and the data blocks, the bytes behind the superblock's
    // gate and those behind the table's image are as they were.
    ensures any_moment { Leaves (OldOrFormatted table.now (R.state rig.old).view) (R.state rig.old) (R.state rig.new) }
    ensures rest { Leaves (KeepsRest table.now (R.state rig.old).view) (R.state rig.old) (R.state rig.new) }
    ensures rest_shown { R.tells_view → KeepsRest table.now (R.state rig.old).view (R.state rig.new).view }
    ensures told { (R.state rig.new).told ≡ (R.state rig.old).told }

    // From `Ok` on it is empty, and each of its bytes is the one that it has to be.
    ensures formatted { OnOk result (AllNow (IsFormatted table.now) (R.state rig.new)) }
    ensures shown { R.tells_view → OnOk result (IsFormatted table.now (R.state rig.new).view) }
    ensures whole { OnOk result (AllNow (IsWholeEmpty table.now (R.state rig.old).view) (R.state rig.new)) }
    ensures whole_shown { R.tells_view → OnOk result (IsWholeEmpty table.now (R.state rig.old).view (R.state rig.new).view) }
    ensures settled { OnOk result (IsAllSettled (R.state rig.new)) }

    ensures later { Later (R.state rig.old) (R.state rig.new) }
    ensures made { MakesAtMost (3 + length table.now.trees + length table.now.logbooks) 3 0 (R.state rig.old) (R.state rig.new) }
    ensures small { (R.state rig.old).size < 512 * layout_blocks table.now → result ≡ Err (TooSmall (512 * layout_blocks table.now)) }
    ensures cause { IfErr result (FailsFor (512 * layout_blocks table.now) (R.state rig.old) (R.state rig.new) (rig.new ≡ rig.old)) }
{
    let places = layout(table);
    let wanted = 512 * u64::from(places.blocks());
    if rig.size() < wanted {
        return Err(FormatError::TooSmall { wanted });
    }
    let Ok(superblock) = superblock_bytes(alloc, table) else {
        return Err(FormatError::Memory);
    };
    let Ok(mut buffer) = zeros(alloc, longest_run(table, &places)) else {
        return Err(FormatError::Memory);
    };
    let Ok(()) = write_image(rig, table, &places, superblock.bytes(), &mut buffer) else {
        return Err(FormatError::Device);
    };
    Ok(())
}
