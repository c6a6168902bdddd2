// The directory calls.
ghost use Rattle.std.specs.Prelude.{◌≡◌, ◌<◌, false, true, length, map, OnOk};
ghost use Rattle.apex_model.specs.Accepted.{IsAccepted};
ghost use Rattle.apex_model.specs.DirectoryStep.{directory_service, directory_step};
ghost use Rattle.rig_core.specs.Windows.{AreLaidOut};
ghost use Rattle.tree_store.specs.Serving.{AreOfTable, AreServing, AreStored, sites_of, window_of};
ghost use Rattle.service_parts.specs.Serving.{AreInService, IsServed, MakesFourIfDone, ReadsFailed};
ghost use Rattle.dir_services.specs.Naming.{is_naming};

use crate::listing::{read_directory, rewind_directory, sync_directory};
use crate::making::make_directory;
use crate::opening::{close_directory, open_directory};
use crate::removing::remove_directory;
use apex_types::{DirCall, Errno, PartitionId, Reply, Table};
use open_handles::Handles;
use rig_core::{DeviceFault, Rig};
use service_parts::refusal;
use tree_store::Trees;

/// Carries out a directory call of a partition that is ready for one.
fn serve<R: Rig>(
    table: &Table,
    trees: &mut Trees,
    handles: &mut Handles,
    rig: &mut R,
    p: PartitionId,
    call: &DirCall,
) -> Result<Reply, DeviceFault>
    requires accepted { IsAccepted table.now }
    requires caller { p.0 < length handles.old }
    requires of_table { AreOfTable table.now trees.old handles.old }
    requires serving { AreInService R.tells_view (R.state rig.old) trees.old handles.old }
    ensures served { IsServed R.tells_view (λ fs. directory_service table.now fs p.0 call.now) ⊥ 52 3
        trees.old trees.new handles.old handles.new (R.state rig.old) (R.state rig.new) result }
    ensures rises { is_naming call.now ≡ true
        → MakesFourIfDone R.keeps_cuts (R.state rig.old) (R.state rig.new) result }
{
    match call {
        DirCall::OpenDirectory { path } => {
            Ok(open_directory(table, trees, handles, p, path.bytes()))
        }
        DirCall::CloseDirectory { id } => Ok(close_directory(handles, p, *id)),
        DirCall::ReadDirectory { id } => Ok(read_directory(trees, handles, p, *id)),
        DirCall::RewindDirectory { id } => Ok(rewind_directory(handles, p, *id)),
        DirCall::MakeDirectory { path } => make_directory(table, trees, rig, p, path.bytes()),
        DirCall::RemoveDirectory { path } => {
            remove_directory(table, trees, handles, rig, p, path.bytes())
        }
        DirCall::SyncDirectory { id } => Ok(sync_directory(handles, p, *id)),
    }
}

/// Carries out a directory call of a partition, or refuses it with EPERM where the partition isn't ready for one. A
/// failed write or sync is a fault of the device, after which trees and handles are of no use; no call makes a read.
pub fn dir_call<R: Rig>(
    table: &Table,
    trees: &mut Trees,
    handles: &mut Handles,
    rig: &mut R,
    p: PartitionId,
    ready: bool,
    call: &DirCall,
) -> Result<Reply, DeviceFault>
    requires accepted { IsAccepted table.now }
    requires caller { p.0 < length table.now.partitions }
    requires of_table { AreOfTable table.now trees.old handles.old }
    requires laid_out { AreLaidOut (map window_of (sites_of trees.old)) (R.state rig.old).size }
    requires stored { AreStored R.tells_view (R.state rig.old) trees.old }
    requires serving { AreServing R.tells_view (R.state rig.old) table.now trees.old handles.old }
    ensures served { IsServed R.tells_view (λ fs. directory_step table.now fs p.0 ready call.now)
        (ReadsFailed false (R.state rig.old) (R.state rig.new)) 52 3
        trees.old trees.new handles.old handles.new (R.state rig.old) (R.state rig.new) result }
    ensures serving { OnOk result
        (AreServing R.tells_view (R.state rig.new) table.now trees.new handles.new) }
    ensures of_table { AreOfTable table.now trees.new handles.new }
    ensures rises { is_naming call.now ≡ true
        → MakesFourIfDone R.keeps_cuts (R.state rig.old) (R.state rig.new) result }
{
    if !ready {
        return Ok(refusal(Errno::Eperm));
    }
    serve(table, trees, handles, rig, p, call)
}
