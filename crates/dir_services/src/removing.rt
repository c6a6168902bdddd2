// Removing directories.
ghost use Rattle.std.specs.Prelude.{◌≡◌, ◌≢◌, ◌<◌, length, false, Some};
ghost use Rattle.apex_model.specs.Accepted.{IsAccepted};
ghost use Rattle.apex_model.specs.DirectoryStep.{remove_directory_at, remove_directory as remove_step};
ghost use Rattle.apex_model.specs.FileSystem.{tree_in};
ghost use Rattle.apex_model.specs.Handles.{any_open};
ghost use Rattle.apex_model.specs.Trees.{directory, standing_at};
ghost use Rattle.file_tree.specs.Entries.{IsSpotAt, way_of};
ghost use Rattle.open_handles.specs.NodeHandles.{handles_of};
ghost use Rattle.open_handles.specs.Nodes.{holds_directory};
ghost use Rattle.tree_store.specs.Calls.{AtTree};
ghost use Rattle.tree_store.specs.Serving.{AreOfTable};
ghost use Rattle.tree_store.specs.Stored.{names_of};
ghost use Rattle.service_parts.specs.Places.{model_place};
ghost use Rattle.service_parts.specs.Serving.{AreInService, IsServed, MakesFourIfDone};

use apex_types::{DirNode, Errno, PartitionId, Reply, Spot, Table, Values};
use open_handles::Handles;
use rig_core::{DeviceFault, Rig};
use service_parts::{Place, Right, place_of, refusal, success};
use tree_store::{StoreRefusal, Trees};

/// Removes a directory other than the root of which the caller has no handle, if nothing stands in it. The handles of
/// others are stale then.
fn remove_closed<R: Rig>(
    trees: &mut Trees,
    handles: &mut Handles,
    rig: &mut R,
    p: PartitionId,
    place: Place,
    found: DirNode,
) -> Result<Reply, DeviceFault>
    requires caller { p.0 < length handles.old }
    requires serving { AreInService R.tells_view (R.state rig.old) trees.old handles.old }
    requires within { place.tree < length trees.old }
    requires below_root { found.0 ≢ 0 }
    requires stands { AtTree trees.old place.tree (λ store.
        way_of (names_of store) found.0 ≡ Some place.path.names) }
    requires closed { any_open (holds_directory place.tree found)
        (handles_of handles.old p.0).directories ≡ false }
    ensures served { IsServed R.tells_view
        (λ fs. remove_directory_at fs p.0 (model_place place) (Some directory)) ⊥ 52 3
        trees.old trees.new handles.old handles.new (R.state rig.old) (R.state rig.new) result }
    ensures rises { MakesFourIfDone R.keeps_cuts
        (R.state rig.old) (R.state rig.new) result }
{
    match trees.remove_dir(rig, place.tree, found) {
        Ok(()) => {
            handles.directory_gone(place.tree, found);
            Ok(success(Values::Empty))
        }
        Err(StoreRefusal::Refused(errno)) => Ok(refusal(errno)),
        Err(StoreRefusal::ReadFault) => unreachable!(),
        Err(StoreRefusal::Device) => Err(DeviceFault),
    }
}

/// Removes what stands at the end of a path of a tree, if that is an empty directory other than the root, of which the
/// caller has no handle.
fn remove_spot<R: Rig>(
    trees: &mut Trees,
    handles: &mut Handles,
    rig: &mut R,
    p: PartitionId,
    place: Place,
    spot: Spot,
) -> Result<Reply, DeviceFault>
    requires caller { p.0 < length handles.old }
    requires serving { AreInService R.tells_view (R.state rig.old) trees.old handles.old }
    requires within { place.tree < length trees.old }
    requires found { AtTree trees.old place.tree (λ store.
        IsSpotAt (names_of store) place.path.names spot) }
    ensures served { IsServed R.tells_view (λ fs. remove_directory_at fs p.0 (model_place place)
        (standing_at (tree_in fs place.tree) place.path.names)) ⊥ 52 3
        trees.old trees.new handles.old handles.new (R.state rig.old) (R.state rig.new) result }
    ensures rises { MakesFourIfDone R.keeps_cuts
        (R.state rig.old) (R.state rig.new) result }
{
    let found = match spot {
        Spot::Free { .. } => return Ok(refusal(Errno::Enoent)),
        Spot::File { .. } => return Ok(refusal(Errno::Enotdir)),
        Spot::Root => return Ok(refusal(Errno::Ebusy)),
        Spot::Directory { node, .. } => node,
    };
    if handles.holds_directory(p, place.tree, found) {
        return Ok(refusal(Errno::Ebusy));
    }
    remove_closed(trees, handles, rig, p, place, found)
}

/// Removes the directory at a path. A failed write or sync is a fault of the device, after which the trees are of no
/// use.
pub fn remove_directory<R: Rig>(
    table: &Table,
    trees: &mut Trees,
    handles: &mut Handles,
    rig: &mut R,
    p: PartitionId,
    path: &[u8],
) -> Result<Reply, DeviceFault>
    requires accepted { IsAccepted table.now }
    requires caller { p.0 < length handles.old }
    requires of_table { AreOfTable table.now trees.old handles.old }
    requires serving { AreInService R.tells_view (R.state rig.old) trees.old handles.old }
    ensures served { IsServed R.tells_view (λ fs. remove_step table.now fs p.0 path.now) ⊥ 52 3
        trees.old trees.new handles.old handles.new (R.state rig.old) (R.state rig.new) result }
    ensures rises { MakesFourIfDone R.keeps_cuts
        (R.state rig.old) (R.state rig.new) result }
{
    let place = match place_of(table, Right::Owner, p, path) {
        Err(errno) => return Ok(refusal(errno)),
        Ok(place) => place,
    };
    match trees.tree(place.tree).walk(&place.path) {
        Err(errno) => Ok(refusal(errno)),
        Ok(spot) => remove_spot(trees, handles, rig, p, place, spot),
    }
}
