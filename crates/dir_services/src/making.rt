// Making directories.
ghost use Rattle.std.specs.Prelude.{◌<◌, length};
ghost use Rattle.apex_types.specs.Rows.{Rows};
ghost use Rattle.apex_model.specs.Accepted.{IsAccepted};
ghost use Rattle.apex_model.specs.DirectoryStep.{make_directory as make_step};
ghost use Rattle.file_tree.specs.Entries.{IsSpotAt};
ghost use Rattle.open_handles.specs.NodeHandles.{AllHandles};
ghost use Rattle.tree_store.specs.Calls.{AtTree};
ghost use Rattle.tree_store.specs.Serving.{AreOfTable};
ghost use Rattle.tree_store.specs.Stored.{names_of};
ghost use Rattle.service_parts.specs.Places.{model_place};
ghost use Rattle.service_parts.specs.Serving.{AreInService, IsServed, MakesFourIfDone};
ghost use Rattle.dir_services.specs.Steps.{make_at};

use apex_types::{DirNode, Errno, PartitionId, Reply, Spot, Table, Values};
use rig_core::{DeviceFault, Rig};
use service_parts::{Place, Right, last_name, place_of, refusal, success};
use tree_store::{StoreRefusal, Trees};

/// Makes a directory in one that has nothing of its name, if the tree has room for it.
fn make_in<R: Rig>(
    trees: &mut Trees,
    rig: &mut R,
    place: Place,
    parent: DirNode,
) -> Result<Reply, DeviceFault>
    requires serving { (handles : AllHandles)
        × AreInService R.tells_view (R.state rig.old) trees.old handles }
    requires within { place.tree < length trees.old }
    requires free { AtTree trees.old place.tree (λ store.
        IsSpotAt (names_of store) place.path.names (Spot.Free parent)) }
    ensures served { (table : Rows) (handles : AllHandles) → AreOfTable table trees.old handles
        → AreInService R.tells_view (R.state rig.old) trees.old handles
        → IsServed R.tells_view (λ fs. make_at table fs (model_place place)) ⊥ 52 3
        trees.old trees.new handles handles (R.state rig.old) (R.state rig.new) result }
    ensures rises { MakesFourIfDone R.keeps_cuts
        (R.state rig.old) (R.state rig.new) result }
{
    let name = last_name(&place.path.names);
    match trees.make_dir(rig, place.tree, parent, name) {
        Ok(_) => Ok(success(Values::Empty)),
        Err(StoreRefusal::Refused(errno)) => Ok(refusal(errno)),
        Err(StoreRefusal::ReadFault) => unreachable!(),
        Err(StoreRefusal::Device) => Err(DeviceFault),
    }
}

/// Makes a directory at the end of a path of a tree, if nothing stands there.
fn make_spot<R: Rig>(
    trees: &mut Trees,
    rig: &mut R,
    place: Place,
    spot: Spot,
) -> Result<Reply, DeviceFault>
    requires serving { (handles : AllHandles)
        × AreInService R.tells_view (R.state rig.old) trees.old handles }
    requires within { place.tree < length trees.old }
    requires found { AtTree trees.old place.tree (λ store.
        IsSpotAt (names_of store) place.path.names spot) }
    ensures served { (table : Rows) (handles : AllHandles) → AreOfTable table trees.old handles
        → AreInService R.tells_view (R.state rig.old) trees.old handles
        → IsServed R.tells_view (λ fs. make_at table fs (model_place place)) ⊥ 52 3
        trees.old trees.new handles handles (R.state rig.old) (R.state rig.new) result }
    ensures rises { MakesFourIfDone R.keeps_cuts
        (R.state rig.old) (R.state rig.new) result }
{
    match spot {
        Spot::Free { parent } => make_in(trees, rig, place, parent),
        Spot::Root => Ok(refusal(Errno::Eexist)),
        Spot::Directory { .. } => Ok(refusal(Errno::Eexist)),
        Spot::File { .. } => Ok(refusal(Errno::Eexist)),
    }
}

/// Makes a directory at a path. A failed write or sync is a fault of the device, after which the trees are of no use.
pub fn make_directory<R: Rig>(
    table: &Table,
    trees: &mut Trees,
    rig: &mut R,
    p: PartitionId,
    path: &[u8],
) -> Result<Reply, DeviceFault>
    requires accepted { IsAccepted table.now }
    requires serving { (handles : AllHandles) × AreOfTable table.now trees.old handles
        × AreInService R.tells_view (R.state rig.old) trees.old handles }
    ensures served { (handles : AllHandles) → AreOfTable table.now trees.old handles
        → AreInService R.tells_view (R.state rig.old) trees.old handles
        → IsServed R.tells_view (λ fs. make_step table.now fs p.0 path.now) ⊥ 52 3
        trees.old trees.new handles handles (R.state rig.old) (R.state rig.new) result }
    ensures rises { MakesFourIfDone R.keeps_cuts
        (R.state rig.old) (R.state rig.new) result }
{
    let place = match place_of(table, Right::Owner, p, path) {
        Err(errno) => return Ok(refusal(errno)),
        Ok(place) => place,
    };
    match trees.tree(place.tree).walk(&place.path) {
        Err(errno) => Ok(refusal(errno)),
        Ok(spot) => make_spot(trees, rig, place, spot),
    }
}
