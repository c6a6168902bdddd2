// Opening files that stand at a path.
ghost use Rattle.std.specs.Prelude.{◌≡◌, ◌<◌, ◌&&◌, List, length, Some};
ghost use Rattle.apex_model.specs.Accepted.{IsAccepted};
ghost use Rattle.apex_model.specs.FileStep.{open_at, open_file as open_step, right_for as right_needed};
ghost use Rattle.apex_model.specs.FileSystem.{tree_in};
ghost use Rattle.apex_model.specs.Handles.{any_open, may_write};
ghost use Rattle.apex_model.specs.Trees.{Name, standing_at};
ghost use Rattle.file_tree.specs.Entries.{IsSpotAt};
ghost use Rattle.open_handles.specs.NodeHandles.{handles_of};
ghost use Rattle.open_handles.specs.Nodes.{writes_file};
ghost use Rattle.store_model.specs.Stores.{StoreValue};
ghost use Rattle.store_model.specs.Systems.{store_at, file_path};
ghost use Rattle.service_parts.specs.Places.{right_of};
ghost use Rattle.service_parts.specs.Serving.{AllOutline, Serves};

use apex_types::{Errno, FileNode, OpenMode, PartitionId, Reply, Spot, Table, Values};
use open_handles::Handles;
use service_parts::{Right, place_of, refusal, success};
use tree_store::Trees;

/// The right that opening a file in a mode needs.
fn right_for(mode: OpenMode) -> Right
    ensures { right_of result ≡ right_needed mode }
{
    match mode {
        OpenMode::ReadOnly => Right::OwnerOrReader,
        OpenMode::ReadWrite => Right::Owner,
    }
}

/// Whether a file can't be opened in a mode, since it has a handle already that may write to it.
fn is_busy(handles: &Handles, p: PartitionId, tree: u32, file: FileNode, mode: OpenMode) -> bool
    requires { p.0 < length handles.now }
    ensures { result
        ≡ (may_write mode && any_open (writes_file tree file) (handles_of handles.now p.0).files) }
{
    match mode {
        OpenMode::ReadOnly => false,
        OpenMode::ReadWrite => handles.writer_open(p, tree, file),
    }
}

/// Opens a file of a tree.
fn open_found(
    handles: &mut Handles,
    p: PartitionId,
    tree: u32,
    file: FileNode,
    mode: OpenMode,
) -> Reply
    requires { p.0 < length handles.old }
    ensures { (stores : List StoreValue) (names : List Name) → tree < length stores
        → file_path stores tree file ≡ Some names
        → Serves (λ fs. open_at fs p.0 mode (record { tree = tree; names = names })
        (standing_at (tree_in fs tree) names)) stores handles.old stores handles.new result }
{
    if is_busy(handles, p, tree, file, mode) {
        return refusal(Errno::Ebusy);
    }
    match handles.open_file(p, tree, file, mode) {
        None => refusal(Errno::Emfile),
        Some(id) => success(Values::Number(id)),
    }
}

/// Opens what stands at the end of a path of a tree, if that is a file.
fn open_spot(handles: &mut Handles, p: PartitionId, tree: u32, spot: Spot, mode: OpenMode) -> Reply
    requires { p.0 < length handles.old }
    ensures { (stores : List StoreValue) (names : List Name) → tree < length stores
        → IsSpotAt (store_at stores tree).tree names spot
        → Serves (λ fs. open_at fs p.0 mode (record { tree = tree; names = names })
        (standing_at (tree_in fs tree) names)) stores handles.old stores handles.new result }
{
    match spot {
        Spot::Free { .. } => refusal(Errno::Enoent),
        Spot::Root => refusal(Errno::Eisdir),
        Spot::Directory { .. } => refusal(Errno::Eisdir),
        Spot::File { node, .. } => open_found(handles, p, tree, node, mode),
    }
}

/// Opens the file at a path.
pub fn open_file(
    table: &Table,
    trees: &Trees,
    handles: &mut Handles,
    p: PartitionId,
    path: &[u8],
    mode: OpenMode,
) -> Reply
    requires accepted { IsAccepted table.now }
    requires caller { p.0 < length handles.old }
    requires long { length trees.now ≡ length table.now.trees }
    ensures { (stores : List StoreValue) → AllOutline trees.now stores
        → Serves (λ fs. open_step table.now fs p.0 path.now mode)
        stores handles.old stores handles.new result }
{
    let place = match place_of(table, right_for(mode), p, path) {
        Err(errno) => return refusal(errno),
        Ok(place) => place,
    };
    match trees.tree(place.tree).walk(&place.path) {
        Err(errno) => refusal(errno),
        Ok(spot) => open_spot(handles, p, place.tree, spot, mode),
    }
}
