// All of an empty image but the superblock's gate.
ghost use Rattle.std.specs.Prelude.{◌≡◌, ◌+◌, ◌-◌, ◌*◌, ◌≤◌, ℕ, Some, length, slice_get, sum_by, OnOk, OnErr};
ghost use Rattle.apex_types.specs.declared.rows.TreeRow.{TreeRow};
ghost use Rattle.apex_types.specs.declared.rows.LogbookRow.{LogbookRow};
ghost use Rattle.apex_model.specs.Accepted.{IsAccepted};
ghost use Rattle.apex_model.specs.Image.{wanted_superblock};
ghost use Rattle.apex_model.specs.Layout.{slot_blocks, tree_blocks, logbook_blocks, logbook_start, layout_blocks};
ghost use Rattle.rig_core.specs.Causes.{Rose};
ghost use Rattle.rig_core.specs.Outside.{MakesAtMost};
ghost use Rattle.rig_core.specs.Leaves.{IsAllSettled};
ghost use Rattle.image_format.specs.Places.{places_of};
ghost use Rattle.recover_scan.specs.Format.{ChangesOnly, SparesRest, HasEmptyTrees, HasEmptyLogbooks, HasEmptyParts};

use crate::regions::{write_logbook, write_superblock, write_tree};
use crate::runs::{logbook_length, slots_length};
use apex_types::Table;
use image_format::Layout;
use image_laws::table_fits_superblock;
use rig_core::{DeviceFault, Rig};

/// Writes the slots of each tree.
fn write_trees<R: Rig>(
    rig: &mut R,
    table: &Table,
    places: &Layout,
    buffer: &mut [u8],
) -> Result<(), DeviceFault>
    requires places { places.now ≡ places_of table.now }
    requires few { length table.now.trees ≤ 32 }
    requires room { (tree : ℕ) (row : TreeRow) → slice_get table.now.trees tree ≡ Some row → 1024 * slot_blocks row ≤ length buffer.old }
    requires fits { 512 * layout_blocks table.now ≤ (R.state rig.old).size }
    ensures changes { ChangesOnly R.tells_view 16896 (512 * sum_by tree_blocks table.now.trees) (R.state rig.old) (R.state rig.new) }
    ensures spares { SparesRest R.tells_view table.now (R.state rig.old) (R.state rig.new) }
    ensures made { MakesAtMost (length table.now.trees) 0 0 (R.state rig.old) (R.state rig.new) }
    ensures written { R.tells_view → OnOk result (HasEmptyTrees table.now (R.state rig.new).view) }
    ensures cause { OnErr result (Rose (R.state rig.old).write_faults (R.state rig.new).write_faults) }
{
    for tree in 0..table.trees().len() as u32 {
        let run = &mut buffer[..slots_length(places, tree)];
        write_tree(rig, places.tree_start(tree), run)?;
    }
    Ok(())
}

/// Writes each logbook.
fn write_logbooks<R: Rig>(
    rig: &mut R,
    table: &Table,
    places: &Layout,
    buffer: &mut [u8],
) -> Result<(), DeviceFault>
    requires places { places.now ≡ places_of table.now }
    requires few { length table.now.logbooks ≤ 32 }
    requires room { (logbook : ℕ) (row : LogbookRow) → slice_get table.now.logbooks logbook ≡ Some row → 512 * logbook_blocks row ≤ length buffer.old }
    requires fits { 512 * layout_blocks table.now ≤ (R.state rig.old).size }
    ensures changes { ChangesOnly R.tells_view (512 * logbook_start table.now 0) (512 * sum_by logbook_blocks table.now.logbooks) (R.state rig.old) (R.state rig.new) }
    ensures spares { SparesRest R.tells_view table.now (R.state rig.old) (R.state rig.new) }
    ensures made { MakesAtMost (length table.now.logbooks) 0 0 (R.state rig.old) (R.state rig.new) }
    ensures written { R.tells_view → OnOk result (HasEmptyLogbooks table.now (R.state rig.new).view) }
    ensures cause { OnErr result (Rose (R.state rig.old).write_faults (R.state rig.new).write_faults) }
{
    for logbook in 0..table.logbooks().len() as u32 {
        let run = &mut buffer[..logbook_length(places, logbook)];
        write_logbook(rig, places.logbook_start(logbook), run)?;
    }
    Ok(())
}

/// Writes all of an empty image but the superblock's gate and the data blocks, and makes sure of it.
pub(crate) fn write_metadata<R: Rig>(
    rig: &mut R,
    table: &Table,
    places: &Layout,
    superblock: &[u8],
    buffer: &mut [u8],
) -> Result<(), DeviceFault>
    requires accepted { IsAccepted table.now }
    requires places { places.now ≡ places_of table.now }
    requires superblock { superblock.now ≡ wanted_superblock table.now }
    requires room { 16384 ≤ length buffer.old }
    requires trees { (tree : ℕ) (row : TreeRow) → slice_get table.now.trees tree ≡ Some row → 1024 * slot_blocks row ≤ length buffer.old }
    requires logbooks { (logbook : ℕ) (row : LogbookRow) → slice_get table.now.logbooks logbook ≡ Some row → 512 * logbook_blocks row ≤ length buffer.old }
    requires fits { 512 * layout_blocks table.now ≤ (R.state rig.old).size }
    ensures changes { ChangesOnly R.tells_view 512 (512 * (layout_blocks table.now - 1)) (R.state rig.old) (R.state rig.new) }
    ensures spares { SparesRest R.tells_view table.now (R.state rig.old) (R.state rig.new) }
    ensures made { MakesAtMost (1 + length table.now.trees + length table.now.logbooks) 1 0 (R.state rig.old) (R.state rig.new) }
    ensures written { R.tells_view → OnOk result (HasEmptyParts table.now (R.state rig.new).view) }
    ensures settled { OnOk result (IsAllSettled (R.state rig.new)) }
    ensures cause { OnErr result (Rose (R.state rig.old).write_faults (R.state rig.new).write_faults) }
{
    table_fits_superblock();
    write_superblock(rig, superblock, &mut buffer[..16384])?;
    write_trees(rig, table, places, buffer)?;
    write_logbooks(rig, table, places, buffer)?;
    rig.sync()?;
    Ok(())
}
