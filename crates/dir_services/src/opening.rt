// Opening and closing directories.
ghost use Rattle.std.specs.Prelude.{◌≡◌, ◌<◌, List, length, Some};
ghost use Rattle.apex_model.specs.Accepted.{IsAccepted};
ghost use Rattle.apex_model.specs.DirectoryStep.{open_directory_at, open_directory as open_step, close_directory as close_step};
ghost use Rattle.apex_model.specs.FileSystem.{tree_in};
ghost use Rattle.apex_model.specs.Trees.{Name, directory, standing_at};
ghost use Rattle.file_tree.specs.Entries.{IsSpotAt};
ghost use Rattle.store_model.specs.Stores.{StoreValue};
ghost use Rattle.store_model.specs.Systems.{store_at, directory_path};
ghost use Rattle.tree_store.specs.Serving.{AreOfTable};
ghost use Rattle.service_parts.specs.Serving.{AllOutline, Serves};

use apex_types::{DirNode, Errno, PartitionId, Reply, Spot, Table, Values};
use open_handles::Handles;
use service_parts::{Right, place_of, refusal, success};
use tree_store::Trees;

/// Opens a directory of a tree, before its first name.
fn open_found(handles: &mut Handles, p: PartitionId, tree: u32, found: DirNode) -> Reply
    requires { p.0 < length handles.old }
    ensures { (stores : List StoreValue) (names : List Name)
        → directory_path stores tree found ≡ Some names
        → Serves (λ fs. open_directory_at fs p.0 (record { tree = tree; names = names })
        (Some directory)) stores handles.old stores handles.new result }
{
    match handles.open_directory(p, tree, found) {
        None => refusal(Errno::Emfile),
        Some(id) => success(Values::Number(id)),
    }
}

/// Opens what stands at the end of a path of a tree, if that is a directory.
fn open_spot(handles: &mut Handles, p: PartitionId, tree: u32, spot: Spot) -> Reply
    requires { p.0 < length handles.old }
    ensures { (stores : List StoreValue) (names : List Name) → tree < length stores
        → IsSpotAt (store_at stores tree).tree names spot
        → Serves (λ fs. open_directory_at fs p.0 (record { tree = tree; names = names })
        (standing_at (tree_in fs tree) names)) stores handles.old stores handles.new result }
{
    match spot {
        Spot::Free { .. } => refusal(Errno::Enoent),
        Spot::File { .. } => refusal(Errno::Enotdir),
        Spot::Root => open_found(handles, p, tree, DirNode(0)),
        Spot::Directory { node, .. } => open_found(handles, p, tree, node),
    }
}

/// Opens the directory at a path, before its first name.
pub fn open_directory(
    table: &Table,
    trees: &Trees,
    handles: &mut Handles,
    p: PartitionId,
    path: &[u8],
) -> Reply
    requires accepted { IsAccepted table.now }
    requires caller { p.0 < length handles.old }
    requires of_table { AreOfTable table.now trees.now handles.old }
    ensures { (stores : List StoreValue) → AllOutline trees.now stores
        → Serves (λ fs. open_step table.now fs p.0 path.now)
        stores handles.old stores handles.new result }
{
    let place = match place_of(table, Right::OwnerOrReader, p, path) {
        Err(errno) => return refusal(errno),
        Ok(place) => place,
    };
    match trees.tree(place.tree).walk(&place.path) {
        Err(errno) => refusal(errno),
        Ok(spot) => open_spot(handles, p, place.tree, spot),
    }
}

/// Closes an open directory, also a stale one.
pub fn close_directory(handles: &mut Handles, p: PartitionId, id: u32) -> Reply
    requires { p.0 < length handles.old }
    ensures { (stores : List StoreValue)
        → Serves (λ fs. close_step fs p.0 id) stores handles.old stores handles.new result }
{
    if handles.close_directory(p, id) {
        success(Values::Empty)
    } else {
        refusal(Errno::Ebadf)
    }
}
