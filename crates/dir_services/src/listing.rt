// Listing directories.
ghost use Rattle.std.specs.Prelude.{◌≡◌, ◌<◌, List, [], length, Some, unwrap_or};
ghost use Rattle.apex_model.specs.DirectoryStep.{read_directory as read_step, rewind_directory as rewind_step, sync_directory as sync_step};
ghost use Rattle.apex_model.specs.Handles.{handle_at};
ghost use Rattle.file_tree.specs.Entries.{IsNextSpot, way_of};
ghost use Rattle.open_handles.specs.NodeHandles.{handles_of};
ghost use Rattle.store_model.specs.Stores.{StoreValue};
ghost use Rattle.tree_store.specs.Calls.{AtTree};
ghost use Rattle.tree_store.specs.Stored.{names_of};
ghost use Rattle.service_parts.specs.Serving.{AllOutline, Serves};
ghost use Rattle.dir_services.specs.Seen.{AreSeenServing};

use apex_types::{DirHandle, DirNode, Errno, Name, PartitionId, Reply, Spot, Values};
use open_handles::Handles;
use service_parts::{refusal, success};
use tree_store::Trees;

/// The last name that was given of a directory.
fn last_of(handle: &DirHandle) -> Option<Name>
    ensures { result ≡ handle.now.last }
{
    match &handle.last {
        Some(name) => Some(name.copy()),
        None => None,
    }
}

/// Gives an entry of a handle's directory, which is the last one given from then on.
fn give(
    trees: &Trees,
    handles: &mut Handles,
    p: PartitionId,
    id: u32,
    handle: DirHandle,
    directory: DirNode,
    spot: Spot,
) -> Reply
    requires caller { p.0 < length handles.old }
    requires within { handle.tree < length trees.now }
    requires held { handle_at (handles_of handles.old p.0).directories id ≡ Some handle }
    requires has_directory { handle.directory ≡ Some directory }
    requires next { AtTree trees.now handle.tree (λ store. IsNextSpot (names_of store)
        (unwrap_or (way_of (names_of store) directory.0) []) handle.last (Some spot)) }
    ensures { (stores : List StoreValue) → AllOutline trees.now stores
        → Serves (λ fs. read_step fs p.0 id) stores handles.old stores handles.new result }
{
    match spot {
        Spot::Free { .. } => success(Values::EndOfDirectory),
        Spot::Root => success(Values::EndOfDirectory),
        Spot::Directory { name, .. } => {
            handles.set_last(p, id, Some(name.copy()));
            success(Values::DirectoryEntry { name })
        }
        Spot::File { node, name, .. } => {
            let size = trees.size(handle.tree, node);
            handles.set_last(p, id, Some(name.copy()));
            success(Values::FileEntry { name, size })
        }
    }
}

/// The entry of an open directory with the least name behind the last one given, or the end, which leaves the handle as
/// it is.
pub fn read_directory(trees: &Trees, handles: &mut Handles, p: PartitionId, id: u32) -> Reply
    requires caller { p.0 < length handles.old }
    requires seen { AreSeenServing trees.now handles.old }
    ensures { (stores : List StoreValue) → AllOutline trees.now stores
        → Serves (λ fs. read_step fs p.0 id) stores handles.old stores handles.new result }
{
    let Some(handle) = handles.directory(p, id) else {
        return refusal(Errno::Ebadf);
    };
    let Some(directory) = handle.directory else {
        return refusal(Errno::Estale);
    };
    match trees
        .tree(handle.tree)
        .next_entry(directory, last_of(&handle))
    {
        None => success(Values::EndOfDirectory),
        Some(spot) => give(trees, handles, p, id, handle, directory, spot),
    }
}

/// Starts the listing of an open directory again: no name was given of it.
pub fn rewind_directory(handles: &mut Handles, p: PartitionId, id: u32) -> Reply
    requires { p.0 < length handles.old }
    ensures { (stores : List StoreValue)
        → Serves (λ fs. rewind_step fs p.0 id) stores handles.old stores handles.new result }
{
    let Some(handle) = handles.directory(p, id) else {
        return refusal(Errno::Ebadf);
    };
    let Some(_) = handle.directory else {
        return refusal(Errno::Estale);
    };
    handles.set_last(p, id, None);
    success(Values::Empty)
}

/// Makes sure of an open directory. Nothing has to be done for that, since each change of names is durable when it is
/// made.
pub fn sync_directory(handles: &Handles, p: PartitionId, id: u32) -> Reply
    requires { p.0 < length handles.now }
    ensures { (stores : List StoreValue)
        → Serves (λ fs. sync_step fs p.0 id) stores handles.now stores handles.now result }
{
    let Some(handle) = handles.directory(p, id) else {
        return refusal(Errno::Ebadf);
    };
    let Some(_) = handle.directory else {
        return refusal(Errno::Estale);
    };
    success(Values::Empty)
}
