// The whole image is mounted.
ghost use Rattle.std.specs.Prelude.{◌≡◌, IfOk, IfErr, IsErrOf};
ghost use Rattle.apex_model.specs.Accepted.{IsAccepted};
ghost use Rattle.recover_scan.specs.Mount.{IsRefusedFor, IsSmallFor};
ghost use Rattle.rig_core.specs.Causes.{Rose};
ghost use Rattle.rig_core.specs.Leaves.{IsAllSettled};
ghost use Rattle.rig_core.specs.Outside.{OnlyReads};
ghost use Rattle.image_mount.specs.Faults.{log_error as error_of_logs};
ghost use Rattle.image_mount.specs.Mounted.{IsMounted};

use crate::store::Store;
use crate::trees::mount_trees;
use apex_types::Table;
use logbook_store::{LogError, Logs};
use recover_scan::{MountError, read_superblock};
use rig_core::Rig;
use std::alloc::Global;

/// Why the logbooks are not mounted.
fn log_error(error: LogError) -> MountError
    ensures { result ≡ error_of_logs error }
{
    match error {
        LogError::Bad { logbook } => MountError::BadLogbook { logbook },
        LogError::Device => MountError::Device,
        LogError::Memory => MountError::Memory,
    }
}

/// Mounts the image of a device, on which nothing is pending, for a table. Only reads are made. The first reason against it
/// is answered, in this order: the device is too small, or not formatted; the image is one of another table; the first
/// tree, then the first logbook, whose region stands for none, by its number from 1 on. A fault of the device comes
/// only where the rig's read faults rose, and want of memory at any place.
pub fn mount<R: Rig>(alloc: Global, table: &Table, rig: &mut R) -> Result<Store, MountError>
    requires accepted { IsAccepted table.now }
    requires settled { IsAllSettled (R.state rig.old) }
    ensures mounted { IfOk result (IsMounted R.tells_view (R.state rig.new) table.now) }
    ensures refused { R.tells_view → IfErr result (IsRefusedFor table.now (R.state rig.old).view) }
    ensures small { IfErr result (IsSmallFor table.now (R.state rig.old).size) }
    ensures reads { OnlyReads R.tells_view (R.state rig.old) (R.state rig.new) }
    ensures cause { IsErrOf result MountError.Device
        → Rose (R.state rig.old).read_faults (R.state rig.new).read_faults }
{
    match read_superblock(alloc, rig, table) {
        Ok(()) => {}
        Err(error) => return Err(error),
    }
    let trees = match mount_trees(alloc, rig, table) {
        Ok(trees) => trees,
        Err(error) => return Err(error),
    };
    match Logs::mount(alloc, rig, table) {
        Ok(logs) => Ok(Store { trees, logs }),
        Err(error) => Err(log_error(error)),
    }
}
