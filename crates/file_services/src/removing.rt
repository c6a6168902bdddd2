// Removing files.
ghost use Rattle.std.specs.Prelude.{◌≡◌, ◌<◌, length, false, Some};
ghost use Rattle.apex_model.specs.Accepted.{IsAccepted};
ghost use Rattle.apex_model.specs.FileStep.{remove_file_at, remove_file as remove_step};
ghost use Rattle.apex_model.specs.FileSystem.{tree_in};
ghost use Rattle.apex_model.specs.Handles.{any_open};
ghost use Rattle.apex_model.specs.Trees.{standing_at};
ghost use Rattle.file_tree.specs.Entries.{IsSpotAt, slot};
ghost use Rattle.open_handles.specs.NodeHandles.{handles_of};
ghost use Rattle.open_handles.specs.Nodes.{holds_file};
ghost use Rattle.service_parts.specs.Places.{model_place};
ghost use Rattle.service_parts.specs.Serving.{AreInService, IsServed, MakesFourIfDone, ReadsFailed};
ghost use Rattle.tree_store.specs.Calls.{AtTree};
ghost use Rattle.tree_store.specs.Serving.{AreOfTable};
ghost use Rattle.tree_store.specs.Stored.{names_of};

use apex_types::{Errno, FileNode, PartitionId, Reply, Spot, Table, Values};
use open_handles::Handles;
use rig_core::{DeviceFault, Rig};
use service_parts::{Place, Right, place_of, refusal, success};
use tree_store::Trees;

/// Removes a file of which the caller has no handle. The handles of others are stale then.
fn remove_closed<R: Rig>(
    trees: &mut Trees,
    handles: &mut Handles,
    rig: &mut R,
    p: PartitionId,
    place: Place,
    file: FileNode,
) -> Result<Reply, DeviceFault>
    requires caller { p.0 < length handles.old }
    requires serving { AreInService R.tells_view (R.state rig.old) trees.old handles.old }
    requires within { place.tree < length trees.old }
    requires found { AtTree trees.old place.tree (λ store.
        slot (names_of store).files file.0 ≡ Some place.path.names) }
    requires closed { any_open (holds_file place.tree file) (handles_of handles.old p.0).files
        ≡ false }
    ensures served { IsServed R.tells_view (λ fs. remove_file_at fs p.0 (model_place place)
        (standing_at (tree_in fs place.tree) place.path.names))
        (ReadsFailed false (R.state rig.old) (R.state rig.new)) 52 3
        trees.old trees.new handles.old handles.new (R.state rig.old) (R.state rig.new) result }
    ensures rises { MakesFourIfDone R.keeps_cuts
        (R.state rig.old) (R.state rig.new) result }
{
    match trees.remove_file(rig, place.tree, file) {
        Ok(()) => {
            handles.file_gone(place.tree, file);
            Ok(success(Values::Empty))
        }
        Err(fault) => Err(fault),
    }
}

/// Removes what stands at the end of a path of a tree, if that is a file of which the caller has no handle.
fn remove_spot<R: Rig>(
    trees: &mut Trees,
    handles: &mut Handles,
    rig: &mut R,
    p: PartitionId,
    place: Place,
    spot: Spot,
) -> Result<Reply, DeviceFault>
    requires caller { p.0 < length handles.old }
    requires serving { AreInService R.tells_view (R.state rig.old) trees.old handles.old }
    requires within { place.tree < length trees.old }
    requires found { AtTree trees.old place.tree (λ store.
        IsSpotAt (names_of store) place.path.names spot) }
    ensures served { IsServed R.tells_view (λ fs. remove_file_at fs p.0 (model_place place)
        (standing_at (tree_in fs place.tree) place.path.names))
        (ReadsFailed false (R.state rig.old) (R.state rig.new)) 52 3
        trees.old trees.new handles.old handles.new (R.state rig.old) (R.state rig.new) result }
    ensures rises { MakesFourIfDone R.keeps_cuts
        (R.state rig.old) (R.state rig.new) result }
{
    let file = match spot {
        Spot::Free { .. } => return Ok(refusal(Errno::Enoent)),
        Spot::Root => return Ok(refusal(Errno::Eisdir)),
        Spot::Directory { .. } => return Ok(refusal(Errno::Eisdir)),
        Spot::File { node, .. } => node,
    };
    if handles.holds_file(p, place.tree, file) {
        return Ok(refusal(Errno::Ebusy));
    }
    remove_closed(trees, handles, rig, p, place, file)
}

/// Removes the file at a path.
pub fn remove_file<R: Rig>(
    table: &Table,
    trees: &mut Trees,
    handles: &mut Handles,
    rig: &mut R,
    p: PartitionId,
    path: &[u8],
) -> Result<Reply, DeviceFault>
    requires accepted { IsAccepted table.now }
    requires caller { p.0 < length handles.old }
    requires of_table { AreOfTable table.now trees.old handles.old }
    requires serving { AreInService R.tells_view (R.state rig.old) trees.old handles.old }
    ensures served { IsServed R.tells_view (λ fs. remove_step table.now fs p.0 path.now)
        (ReadsFailed false (R.state rig.old) (R.state rig.new)) 52 3
        trees.old trees.new handles.old handles.new (R.state rig.old) (R.state rig.new) result }
    ensures rises { MakesFourIfDone R.keeps_cuts
        (R.state rig.old) (R.state rig.new) result }
{
    let place = match place_of(table, Right::Owner, p, path) {
        Err(errno) => return Ok(refusal(errno)),
        Ok(place) => place,
    };
    match trees.tree(place.tree).walk(&place.path) {
        Err(errno) => Ok(refusal(errno)),
        Ok(spot) => remove_spot(trees, handles, rig, p, place, spot),
    }
}
