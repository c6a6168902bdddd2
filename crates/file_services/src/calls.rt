// The file calls.
ghost use Rattle.std.specs.Prelude.{◌≡◌, ◌<◌, length, map, true, IfOk, OnOk};
ghost use Rattle.apex_model.specs.Accepted.{IsAccepted};
ghost use Rattle.apex_model.specs.FailedReads.{reads_content};
ghost use Rattle.apex_model.specs.FileStep.{file_service, file_step};
ghost use Rattle.rig_core.specs.Windows.{AreLaidOut};
ghost use Rattle.service_parts.specs.Serving.{AreInService, EioOnlyIfRead, IsServed, MakesFourIfDone, ReadsFailed};
ghost use Rattle.file_services.specs.Naming.{is_naming};
ghost use Rattle.tree_store.specs.Serving.{AreOfTable, AreServing, AreStored, sites_of, window_of};

use crate::changing::{resize_file, sync_file, write_file};
use crate::closing::close_file;
use crate::making::open_new_file;
use crate::naming::open_file;
use crate::reading::{get_file_status, read_file};
use crate::removing::remove_file;
use crate::renaming::rename_file;
use crate::seeking::seek_file;
use crate::volumes::get_volume_status;
use apex_types::{Errno, FileCall, PartitionId, Reply, Table};
use open_handles::Handles;
use rig_core::{DeviceFault, Rig};
use service_parts::refusal;
use tree_store::Trees;

/// Carries out a file call of a partition that is ready for one.
fn serve<R: Rig>(
    table: &Table,
    trees: &mut Trees,
    handles: &mut Handles,
    rig: &mut R,
    p: PartitionId,
    call: &FileCall,
) -> Result<Reply, DeviceFault>
    requires accepted { IsAccepted table.now }
    requires caller { p.0 < length handles.old }
    requires of_table { AreOfTable table.now trees.old handles.old }
    requires serving { AreInService R.tells_view (R.state rig.old) trees.old handles.old }
    ensures served { IsServed R.tells_view (λ fs. file_service table.now fs p.0 call.now)
        (ReadsFailed (reads_content call.now) (R.state rig.old) (R.state rig.new)) 52 3
        trees.old trees.new handles.old handles.new (R.state rig.old) (R.state rig.new) result }
    ensures unread { reads_content call.now ≡ true
        → IfOk result (EioOnlyIfRead (R.state rig.old) (R.state rig.new)) }
    ensures rises { is_naming call.now ≡ true
        → MakesFourIfDone R.keeps_cuts (R.state rig.old) (R.state rig.new) result }
{
    match call {
        FileCall::OpenNewFile { path } => {
            open_new_file(table, trees, handles, rig, p, path.bytes())
        }
        FileCall::OpenFile { path, mode } => {
            Ok(open_file(table, trees, handles, p, path.bytes(), *mode))
        }
        FileCall::CloseFile { id } => Ok(close_file(handles, p, *id)),
        FileCall::ReadFile { id, length } => Ok(read_file(trees, handles, rig, p, *id, *length)),
        FileCall::WriteFile { id, bytes } => {
            write_file(trees, handles, rig, p, *id, bytes.bytes())
        }
        FileCall::SeekFile { id, offset, whence } => {
            Ok(seek_file(trees, handles, p, *id, *offset, *whence))
        }
        FileCall::ResizeFile { id, size } => resize_file(trees, handles, rig, p, *id, *size),
        FileCall::SyncFile { id } => sync_file(trees, handles, rig, p, *id),
        FileCall::RemoveFile { path } => remove_file(table, trees, handles, rig, p, path.bytes()),
        FileCall::RenameFile { from, to } => rename_file(
            table,
            trees,
            handles,
            rig,
            p,
            from.bytes(),
            to.bytes(),
        ),
        FileCall::GetFileStatus { id } => Ok(get_file_status(trees, handles, p, *id)),
        FileCall::GetVolumeStatus { path } => {
            Ok(get_volume_status(table, trees, p, path.bytes()))
        }
    }
}

/// Carries out a file call of a partition, or refuses it with EPERM where the partition isn't ready for one. A read of a
/// content that failed is told as EIO, and changes nothing; the fault of a write or sync is an error, and the trees are of
/// no use behind it.
pub fn file_call<R: Rig>(
    table: &Table,
    trees: &mut Trees,
    handles: &mut Handles,
    rig: &mut R,
    p: PartitionId,
    ready: bool,
    call: &FileCall,
) -> Result<Reply, DeviceFault>
    requires accepted { IsAccepted table.now }
    requires caller { p.0 < length table.now.partitions }
    requires of_table { AreOfTable table.now trees.old handles.old }
    requires laid_out { AreLaidOut (map window_of (sites_of trees.old)) (R.state rig.old).size }
    requires stored { AreStored R.tells_view (R.state rig.old) trees.old }
    requires serving { AreServing R.tells_view (R.state rig.old) table.now trees.old handles.old }
    ensures served { IsServed R.tells_view (λ fs. file_step table.now fs p.0 ready call.now)
        (ReadsFailed (reads_content call.now) (R.state rig.old) (R.state rig.new)) 52 3
        trees.old trees.new handles.old handles.new (R.state rig.old) (R.state rig.new) result }
    ensures serving { OnOk result
        (AreServing R.tells_view (R.state rig.new) table.now trees.new handles.new) }
    ensures of_table { AreOfTable table.now trees.new handles.new }
    ensures unread { reads_content call.now ≡ true
        → IfOk result (EioOnlyIfRead (R.state rig.old) (R.state rig.new)) }
    ensures rises { is_naming call.now ≡ true
        → MakesFourIfDone R.keeps_cuts (R.state rig.old) (R.state rig.new) result }
{
    if !ready {
        return Ok(refusal(Errno::Eperm));
    }
    serve(table, trees, handles, rig, p, call)
}
