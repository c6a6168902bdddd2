// Changing files, and making sure of them.
ghost use Rattle.std.specs.Prelude.{◌≡◌, ◌<◌, ◌≤◌, length, true, false, Some, IfOk};
ghost use Rattle.apex_types.specs.Rows.{Rows};
ghost use Rattle.apex_model.specs.FileStep.{write_file as write_step, resize_file as resize_step, sync_file as sync_step};
ghost use Rattle.apex_model.specs.Handles.{handle_at};
ghost use Rattle.open_handles.specs.NodeHandles.{handles_of};
ghost use Rattle.service_parts.specs.Serving.{AreInService, EioOnlyIfRead, IsServed, ReadsFailed};
ghost use Rattle.tree_store.specs.Serving.{AreOfTable};

use apex_types::{Errno, FileHandle, FileNode, OpenMode, PartitionId, Reply, Values};
use open_handles::Handles;
use rig_core::{DeviceFault, Rig};
use service_parts::{refusal, success};
use tree_store::{StoreRefusal, Trees};

/// Puts bytes into the file of a handle, as one change, and moves the handle behind them.
fn write_through<R: Rig>(
    trees: &mut Trees,
    handles: &mut Handles,
    rig: &mut R,
    p: PartitionId,
    id: u32,
    handle: FileHandle,
    file: FileNode,
    bytes: &[u8],
) -> Result<Reply, DeviceFault>
    requires caller { p.0 < length handles.old }
    requires held { handle_at (handles_of handles.old p.0).files id ≡ Some handle }
    requires has_file { handle.file ≡ Some file }
    requires writes { handle.mode ≡ OpenMode.ReadWrite }
    requires some { 1 ≤ length bytes.now }
    requires few { length bytes.now ≤ 4096 }
    requires serving { AreInService R.tells_view (R.state rig.old) trees.old handles.old }
    ensures served { (table : Rows) → AreOfTable table trees.old handles.old
        → IsServed R.tells_view (λ fs. write_step table fs p.0 id bytes.now)
        (ReadsFailed true (R.state rig.old) (R.state rig.new)) 52 3
        trees.old trees.new handles.old handles.new (R.state rig.old) (R.state rig.new) result }
    ensures unread { IfOk result (EioOnlyIfRead (R.state rig.old) (R.state rig.new)) }
{
    match trees.write(rig, handle.tree, file, handle.position, bytes) {
        Ok(()) => {
            handles.set_position(p, id, handle.position + bytes.len() as u32);
            Ok(success(Values::Number(bytes.len() as u32)))
        }
        Err(StoreRefusal::Refused(errno)) => Ok(refusal(errno)),
        Err(StoreRefusal::ReadFault) => Ok(refusal(Errno::Eio)),
        Err(StoreRefusal::Device) => Err(DeviceFault),
    }
}

/// Puts bytes into an open file at its position, as one change.
pub fn write_file<R: Rig>(
    trees: &mut Trees,
    handles: &mut Handles,
    rig: &mut R,
    p: PartitionId,
    id: u32,
    bytes: &[u8],
) -> Result<Reply, DeviceFault>
    requires caller { p.0 < length handles.old }
    requires serving { AreInService R.tells_view (R.state rig.old) trees.old handles.old }
    ensures served { (table : Rows) → AreOfTable table trees.old handles.old
        → IsServed R.tells_view (λ fs. write_step table fs p.0 id bytes.now)
        (ReadsFailed true (R.state rig.old) (R.state rig.new)) 52 3
        trees.old trees.new handles.old handles.new (R.state rig.old) (R.state rig.new) result }
    ensures unread { IfOk result (EioOnlyIfRead (R.state rig.old) (R.state rig.new)) }
{
    let Some(handle) = handles.file(p, id) else {
        return Ok(refusal(Errno::Ebadf));
    };
    let OpenMode::ReadWrite = handle.mode else {
        return Ok(refusal(Errno::Eacces));
    };
    if bytes.is_empty() {
        return Ok(refusal(Errno::Einval));
    }
    if bytes.len() > 4096 {
        return Ok(refusal(Errno::Einval));
    }
    let Some(file) = handle.file else {
        return Ok(refusal(Errno::Estale));
    };
    write_through(trees, handles, rig, p, id, handle, file, bytes)
}

/// Cuts the file of a handle to a size, or fills it up with zeros, as one change; the handle stays within it.
fn resize_through<R: Rig>(
    trees: &mut Trees,
    handles: &mut Handles,
    rig: &mut R,
    p: PartitionId,
    id: u32,
    handle: FileHandle,
    file: FileNode,
    size: u32,
) -> Result<Reply, DeviceFault>
    requires caller { p.0 < length handles.old }
    requires held { handle_at (handles_of handles.old p.0).files id ≡ Some handle }
    requires has_file { handle.file ≡ Some file }
    requires writes { handle.mode ≡ OpenMode.ReadWrite }
    requires serving { AreInService R.tells_view (R.state rig.old) trees.old handles.old }
    ensures served { (table : Rows) → AreOfTable table trees.old handles.old
        → IsServed R.tells_view (λ fs. resize_step table fs p.0 id size)
        (ReadsFailed true (R.state rig.old) (R.state rig.new)) 52 3
        trees.old trees.new handles.old handles.new (R.state rig.old) (R.state rig.new) result }
    ensures unread { IfOk result (EioOnlyIfRead (R.state rig.old) (R.state rig.new)) }
{
    match trees.resize(rig, handle.tree, file, size) {
        Ok(()) => {
            handles.set_position(p, id, handle.position.min(size));
            Ok(success(Values::Empty))
        }
        Err(StoreRefusal::Refused(errno)) => Ok(refusal(errno)),
        Err(StoreRefusal::ReadFault) => Ok(refusal(Errno::Eio)),
        Err(StoreRefusal::Device) => Err(DeviceFault),
    }
}

/// Cuts an open file to a size, or fills it up with zeros, as one change.
pub fn resize_file<R: Rig>(
    trees: &mut Trees,
    handles: &mut Handles,
    rig: &mut R,
    p: PartitionId,
    id: u32,
    size: u32,
) -> Result<Reply, DeviceFault>
    requires caller { p.0 < length handles.old }
    requires serving { AreInService R.tells_view (R.state rig.old) trees.old handles.old }
    ensures served { (table : Rows) → AreOfTable table trees.old handles.old
        → IsServed R.tells_view (λ fs. resize_step table fs p.0 id size)
        (ReadsFailed true (R.state rig.old) (R.state rig.new)) 52 3
        trees.old trees.new handles.old handles.new (R.state rig.old) (R.state rig.new) result }
    ensures unread { IfOk result (EioOnlyIfRead (R.state rig.old) (R.state rig.new)) }
{
    let Some(handle) = handles.file(p, id) else {
        return Ok(refusal(Errno::Ebadf));
    };
    let OpenMode::ReadWrite = handle.mode else {
        return Ok(refusal(Errno::Eacces));
    };
    let Some(file) = handle.file else {
        return Ok(refusal(Errno::Estale));
    };
    resize_through(trees, handles, rig, p, id, handle, file, size)
}

/// Synchronises the file of a handle.
fn sync_through<R: Rig>(
    trees: &mut Trees,
    handles: &Handles,
    rig: &mut R,
    p: PartitionId,
    id: u32,
    handle: FileHandle,
    file: FileNode,
) -> Result<Reply, DeviceFault>
    requires caller { p.0 < length handles.now }
    requires held { handle_at (handles_of handles.now p.0).files id ≡ Some handle }
    requires has_file { handle.file ≡ Some file }
    requires writes { handle.mode ≡ OpenMode.ReadWrite }
    requires serving { AreInService R.tells_view (R.state rig.old) trees.old handles.now }
    ensures { IsServed R.tells_view (λ fs. sync_step fs p.0 id)
        (ReadsFailed false (R.state rig.old) (R.state rig.new)) 52 3
        trees.old trees.new handles.now handles.now (R.state rig.old) (R.state rig.new) result }
{
    match trees.sync(rig, handle.tree, file) {
        Ok(()) => Ok(success(Values::Empty)),
        Err(fault) => Err(fault),
    }
}

/// Synchronises an open file: from then on its present content is durable, and it is charged for that alone.
pub fn sync_file<R: Rig>(
    trees: &mut Trees,
    handles: &Handles,
    rig: &mut R,
    p: PartitionId,
    id: u32,
) -> Result<Reply, DeviceFault>
    requires caller { p.0 < length handles.now }
    requires serving { AreInService R.tells_view (R.state rig.old) trees.old handles.now }
    ensures { IsServed R.tells_view (λ fs. sync_step fs p.0 id)
        (ReadsFailed false (R.state rig.old) (R.state rig.new)) 52 3
        trees.old trees.new handles.now handles.now (R.state rig.old) (R.state rig.new) result }
{
    let Some(handle) = handles.file(p, id) else {
        return Ok(refusal(Errno::Ebadf));
    };
    let OpenMode::ReadWrite = handle.mode else {
        return Ok(refusal(Errno::Eacces));
    };
    let Some(file) = handle.file else {
        return Ok(refusal(Errno::Estale));
    };
    sync_through(trees, handles, rig, p, id, handle, file)
}
