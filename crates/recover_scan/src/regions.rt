// Each region of an image is written as one run.
ghost use Rattle.std.specs.Prelude.{◌≡◌, ◌+◌, ◌*◌, ◌≤◌, length, OnOk, OnErr};
ghost use Rattle.apex_types.specs.declared.rows.TreeRow.{TreeRow};
ghost use Rattle.apex_types.specs.declared.rows.LogbookRow.{LogbookRow};
ghost use Rattle.apex_model.specs.Layout.{slot_blocks, logbook_blocks};
ghost use Rattle.rig_core.specs.Causes.{Rose};
ghost use Rattle.rig_core.specs.Outside.{MakesAtMost};
ghost use Rattle.recover_scan.specs.Format.{ChangesOnly, HasSuperblock, IsFreshTree, IsFreshLogbook};

use crate::runs::{logbook_run, superblock_run, tree_run};
use rig_core::{DeviceFault, Rig};

/// Writes the superblock behind its gate, with zeros up to its end.
pub(crate) fn write_superblock<R: Rig>(
    rig: &mut R,
    bytes: &[u8],
    run: &mut [u8],
) -> Result<(), DeviceFault>
    requires room { length run.old ≡ 16384 }
    requires short { length bytes.now ≤ 16384 }
    requires fits { 16896 ≤ (R.state rig.old).size }
    ensures changes { ChangesOnly R.tells_view 512 16384 (R.state rig.old) (R.state rig.new) }
    ensures made { MakesAtMost 1 0 0 (R.state rig.old) (R.state rig.new) }
    ensures written { R.tells_view → OnOk result (HasSuperblock bytes.now (R.state rig.new).view) }
    ensures cause { OnErr result (Rose (R.state rig.old).write_faults (R.state rig.new).write_faults) }
{
    superblock_run(run, bytes);
    rig.write(512, run)?;
    Ok(())
}

/// Writes the two slots of a tree: slot 0 is open and empty, and slot 1 is closed.
pub(crate) fn write_tree<R: Rig>(rig: &mut R, at: u64, run: &mut [u8]) -> Result<(), DeviceFault>
    requires room { 1024 ≤ length run.old }
    requires fits { at + length run.old ≤ (R.state rig.old).size }
    ensures changes { ChangesOnly R.tells_view at (length run.old) (R.state rig.old) (R.state rig.new) }
    ensures made { MakesAtMost 1 0 0 (R.state rig.old) (R.state rig.new) }
    ensures written { (row : TreeRow) → length run.old ≡ 1024 * slot_blocks row → R.tells_view → OnOk result (IsFreshTree row at (R.state rig.new).view) }
    ensures cause { OnErr result (Rose (R.state rig.old).write_faults (R.state rig.new).write_faults) }
{
    tree_run(run);
    rig.write(at, run)?;
    Ok(())
}

/// Writes a logbook: header 0 is open, and all else is closed.
pub(crate) fn write_logbook<R: Rig>(rig: &mut R, at: u64, run: &mut [u8]) -> Result<(), DeviceFault>
    requires room { 1024 ≤ length run.old }
    requires fits { at + length run.old ≤ (R.state rig.old).size }
    ensures changes { ChangesOnly R.tells_view at (length run.old) (R.state rig.old) (R.state rig.new) }
    ensures made { MakesAtMost 1 0 0 (R.state rig.old) (R.state rig.new) }
    ensures written { (row : LogbookRow) → length run.old ≡ 512 * logbook_blocks row → R.tells_view → OnOk result (IsFreshLogbook row at (R.state rig.new).view) }
    ensures cause { OnErr result (Rose (R.state rig.old).write_faults (R.state rig.new).write_faults) }
{
    logbook_run(run);
    rig.write(at, run)?;
    Ok(())
}
