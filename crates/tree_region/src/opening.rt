// A region is mounted on a disk where nothing is pending, and what is kept of it is in step with it.
ghost use Rattle.std.specs.Prelude.{◌≡◌, ◌+◌, ◌*◌, ◌≤◌, None, IfOk, IsErrOf};
ghost use Rattle.apex_model.specs.Image.{tree_of_region};
ghost use Rattle.apex_model.specs.Layout.{tree_blocks};
ghost use Rattle.rig_core.specs.Causes.{Rose};
ghost use Rattle.rig_core.specs.Leaves.{IsAllSettled};
ghost use Rattle.rig_core.specs.Outside.{OnlyReads};
ghost use Rattle.tree_region.specs.Region.{AreNamedMarked, AreUsedByBody, region_at};
ghost use Rattle.tree_region.specs.InStep.{InStep};

use crate::mounting::mount;
use crate::region::TreeRegion;
use crate::stop::MountStop;
use apex_types::TreeRow;
use rig_core::Rig;
use std::alloc::Global;

/// Mounts the region of a tree, which begins at a byte of a device on which nothing is pending. Only reads are made,
/// and the region is in step with what is kept of it, whose used blocks are exactly those that the newest slot's body
/// names. It is bad exactly where the region stands for no tree; a fault
/// comes only where the rig's read faults rose.
pub fn mount_settled<R: Rig>(
    alloc: Global,
    rig: &mut R,
    row: &TreeRow,
    at: u64,
) -> Result<TreeRegion, MountStop>
    requires fits { at + 512 * tree_blocks row.now ≤ (R.state rig.old).size }
    requires settled { IsAllSettled (R.state rig.old) }
    ensures in_step { IfOk result (InStep R.tells_view row.now at (R.state rig.new)) }
    ensures used { R.tells_view → IfOk result (AreUsedByBody row.now at (R.state rig.old).view) }
    ensures marked { R.tells_view → IfOk result (AreNamedMarked row.now at (R.state rig.old).view) }
    ensures bad { R.tells_view → IsErrOf result MountStop.Bad → tree_of_region row.now (region_at row.now at (R.state rig.old).view) ≡ None }
    ensures reads { OnlyReads R.tells_view (R.state rig.old) (R.state rig.new) }
    ensures cause { IsErrOf result MountStop.Device → Rose (R.state rig.old).read_faults (R.state rig.new).read_faults }
{
    match mount(alloc, rig, row, at) {
        Ok(kept) => Ok(kept),
        Err(stop) => Err(stop),
    }
}
