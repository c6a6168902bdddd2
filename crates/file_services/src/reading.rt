// Reading files, and their statuses.
ghost use Rattle.std.specs.Prelude.{◌≡◌, ◌+◌, ◌-◌, ◌<◌, ◌≤◌, ◌^◌, List, length, min, Some, Ok, IfOk, OnErr, true};
ghost use Rattle.apex_model.specs.Files.{read_at};
ghost use Rattle.apex_model.specs.FileStep.{read_file as read_step, get_file_status as status_step};
ghost use Rattle.apex_model.specs.Handles.{handle_at};
ghost use Rattle.open_handles.specs.NodeHandles.{handles_of};
ghost use Rattle.rig_core.specs.Causes.{Rose};
ghost use Rattle.rig_core.specs.Outside.{OnlyReads};
ghost use Rattle.store_model.specs.Stores.{StoreValue, kept_at};
ghost use Rattle.store_model.specs.Systems.{store_at};
ghost use Rattle.service_parts.specs.Serving.{AllOutline, AreInService, AreSeen, EioOnlyIfRead, IsServed, ReadsFailed, Serves};
ghost use Rattle.tree_store.specs.Calls.{AreReady, AtTree};
ghost use Rattle.tree_store.specs.Naming.{HasFile};
ghost use Rattle.tree_store.specs.Serving.{AllHold};
ghost use Rattle.tree_store.specs.Stored.{size_at};

use apex_types::{Bytes, Errno, FileHandle, FileNode, PartitionId, Reply, Values};
use open_handles::Handles;
use rig_core::{ReadFault, Rig};
use service_parts::{bytes_of, refusal, success};
use tree_store::Trees;

/// The size, position and change count of an open file.
pub fn get_file_status(trees: &Trees, handles: &Handles, p: PartitionId, id: u32) -> Reply
    requires caller { p.0 < length handles.now }
    requires seen { AreSeen trees.now handles.now }
    ensures { (stores : List StoreValue) → AllOutline trees.now stores
        → Serves (λ fs. status_step fs p.0 id) stores handles.now stores handles.now result }
{
    let Some(handle) = handles.file(p, id) else {
        return refusal(Errno::Ebadf);
    };
    let Some(file) = handle.file else {
        return refusal(Errno::Estale);
    };
    let size = trees.size(handle.tree, file);
    let changes = trees.changes(handle.tree, file);
    success(Values::FileStatus {
        size,
        position: handle.position,
        changes,
    })
}

/// The bytes of a file from a place on, at most so many. A fault comes only where the rig's read faults rose.
fn part_of<R: Rig>(
    trees: &Trees,
    rig: &mut R,
    tree: u32,
    file: FileNode,
    from: u32,
    limit: u32,
) -> Result<Bytes, ReadFault>
    requires ready { AreReady R.tells_view (R.state rig.old) trees.now tree }
    requires in_use { AtTree trees.now tree (λ store. HasFile store file.0) }
    requires few { limit ≤ 4096 }
    requires low { from ≤ 1048576 }
    ensures count { AtTree trees.now tree (λ store.
        IfOk result (λ bytes. length bytes ≡ min limit (size_at store file.0 - from))) }
    ensures bytes { R.tells_view → (stores : List StoreValue)
        → AllHold R.tells_view (R.state rig.old) trees.now stores → IfOk result (λ bytes.
        bytes ≡ read_at (kept_at (store_at stores tree) file.0).content from limit) }
    ensures within { IfOk result (λ bytes. from + length bytes < 2 ^ 32) }
    ensures reads { OnlyReads R.tells_view (R.state rig.old) (R.state rig.new) }
    ensures cause { OnErr result (Rose (R.state rig.old).read_faults (R.state rig.new).read_faults) }
{
    let mut buffer = [0; 4096];
    let (into, _) = buffer.split_at_mut(limit as usize);
    match trees.read(rig, tree, file, from, into) {
        Ok(count) => Ok(bytes_of(&into[..count])),
        Err(fault) => Err(fault),
    }
}

/// Reads at most so many bytes of the file of a handle, and moves the handle behind them.
fn read_through<R: Rig>(
    trees: &Trees,
    handles: &mut Handles,
    rig: &mut R,
    p: PartitionId,
    id: u32,
    handle: FileHandle,
    file: FileNode,
    limit: u32,
) -> Reply
    requires caller { p.0 < length handles.old }
    requires held { handle_at (handles_of handles.old p.0).files id ≡ Some handle }
    requires has_file { handle.file ≡ Some file }
    requires some { 1 ≤ limit }
    requires few { limit ≤ 4096 }
    requires serving { AreInService R.tells_view (R.state rig.old) trees.now handles.old }
    ensures served { IsServed R.tells_view (λ fs. read_step fs p.0 id limit)
        (ReadsFailed true (R.state rig.old) (R.state rig.new)) 52 3
        trees.now trees.now handles.old handles.new (R.state rig.old) (R.state rig.new) (Ok result) }
    ensures unread { EioOnlyIfRead (R.state rig.old) (R.state rig.new) result }
{
    match part_of(trees, rig, handle.tree, file, handle.position, limit) {
        Ok(bytes) => {
            handles.set_position(p, id, handle.position + bytes.bytes().len() as u32);
            success(Values::Read(bytes))
        }
        Err(_) => refusal(Errno::Eio),
    }
}

/// Reads at most so many bytes of an open file from its position on.
pub fn read_file<R: Rig>(
    trees: &Trees,
    handles: &mut Handles,
    rig: &mut R,
    p: PartitionId,
    id: u32,
    limit: u32,
) -> Reply
    requires caller { p.0 < length handles.old }
    requires serving { AreInService R.tells_view (R.state rig.old) trees.now handles.old }
    ensures served { IsServed R.tells_view (λ fs. read_step fs p.0 id limit)
        (ReadsFailed true (R.state rig.old) (R.state rig.new)) 52 3
        trees.now trees.now handles.old handles.new (R.state rig.old) (R.state rig.new) (Ok result) }
    ensures unread { EioOnlyIfRead (R.state rig.old) (R.state rig.new) result }
{
    let Some(handle) = handles.file(p, id) else {
        return refusal(Errno::Ebadf);
    };
    let Some(file) = handle.file else {
        return refusal(Errno::Estale);
    };
    if limit == 0 {
        return refusal(Errno::Einval);
    }
    if limit > 4096 {
        return refusal(Errno::Einval);
    }
    read_through(trees, handles, rig, p, id, handle, file, limit)
}
