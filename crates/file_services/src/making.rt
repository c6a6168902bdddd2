// Opening new files.
ghost use Rattle.std.specs.Prelude.{◌≡◌, ◌<◌, length, false, IsSome};
ghost use Rattle.apex_model.specs.Accepted.{IsAccepted};
ghost use Rattle.apex_model.specs.FileStep.{open_new_at, open_new_file as open_new_step};
ghost use Rattle.apex_model.specs.FileSystem.{tree_in};
ghost use Rattle.apex_model.specs.Handles.{least_free};
ghost use Rattle.apex_model.specs.Trees.{standing_at};
ghost use Rattle.file_tree.specs.Entries.{IsSpotAt};
ghost use Rattle.open_handles.specs.NodeHandles.{handles_of};
ghost use Rattle.service_parts.specs.Places.{model_place};
ghost use Rattle.service_parts.specs.Serving.{AreInService, IsServed, MakesFourIfDone, ReadsFailed};
ghost use Rattle.tree_store.specs.Calls.{AtTree};
ghost use Rattle.tree_store.specs.Serving.{AreOfTable};
ghost use Rattle.tree_store.specs.Stored.{names_of};

use apex_types::{DirNode, Errno, OpenMode, PartitionId, Reply, Spot, Table, Values};
use open_handles::Handles;
use rig_core::{DeviceFault, Rig};
use service_parts::{Place, Right, last_name, place_of, refusal, success};
use tree_store::{StoreRefusal, Trees};

/// Makes an empty file in a directory that has nothing of its name, where there is room for one handle more, and opens it.
fn make_file<R: Rig>(
    table: &Table,
    trees: &mut Trees,
    handles: &mut Handles,
    rig: &mut R,
    p: PartitionId,
    place: Place,
    parent: DirNode,
) -> Result<Reply, DeviceFault>
    requires caller { p.0 < length handles.old }
    requires of_table { AreOfTable table.now trees.old handles.old }
    requires serving { AreInService R.tells_view (R.state rig.old) trees.old handles.old }
    requires within { place.tree < length trees.old }
    requires free { AtTree trees.old place.tree (λ store.
        IsSpotAt (names_of store) place.path.names (Spot.Free parent)) }
    requires number { IsSome (least_free (handles_of handles.old p.0).files) }
    ensures served { IsServed R.tells_view (λ fs. open_new_at table.now fs p.0 (model_place place)
        (standing_at (tree_in fs place.tree) place.path.names))
        (ReadsFailed false (R.state rig.old) (R.state rig.new)) 52 3
        trees.old trees.new handles.old handles.new (R.state rig.old) (R.state rig.new) result }
    ensures rises { MakesFourIfDone R.keeps_cuts
        (R.state rig.old) (R.state rig.new) result }
{
    let name = last_name(&place.path.names);
    trees.tree(place.tree).stand();
    match trees.make_file(rig, place.tree, parent, name) {
        Ok(file) => match handles.open_file(p, place.tree, file, OpenMode::ReadWrite) {
            Some(id) => Ok(success(Values::Number(id))),
            None => unreachable!(),
        },
        Err(StoreRefusal::Refused(errno)) => Ok(refusal(errno)),
        Err(StoreRefusal::ReadFault) => unreachable!(),
        Err(StoreRefusal::Device) => Err(DeviceFault),
    }
}

/// Makes an empty file in a directory that has nothing of its name, and opens it.
fn make_in<R: Rig>(
    table: &Table,
    trees: &mut Trees,
    handles: &mut Handles,
    rig: &mut R,
    p: PartitionId,
    place: Place,
    parent: DirNode,
) -> Result<Reply, DeviceFault>
    requires caller { p.0 < length handles.old }
    requires of_table { AreOfTable table.now trees.old handles.old }
    requires serving { AreInService R.tells_view (R.state rig.old) trees.old handles.old }
    requires within { place.tree < length trees.old }
    requires free { AtTree trees.old place.tree (λ store.
        IsSpotAt (names_of store) place.path.names (Spot.Free parent)) }
    ensures served { IsServed R.tells_view (λ fs. open_new_at table.now fs p.0 (model_place place)
        (standing_at (tree_in fs place.tree) place.path.names))
        (ReadsFailed false (R.state rig.old) (R.state rig.new)) 52 3
        trees.old trees.new handles.old handles.new (R.state rig.old) (R.state rig.new) result }
    ensures rises { MakesFourIfDone R.keeps_cuts
        (R.state rig.old) (R.state rig.new) result }
{
    let limit = table.trees()[place.tree as usize].files as u32;
    if limit <= trees.tree(place.tree).files() {
        return Ok(refusal(Errno::Enospc));
    }
    if handles.free_file(p).is_none() {
        return Ok(refusal(Errno::Emfile));
    }
    make_file(table, trees, handles, rig, p, place, parent)
}

/// Makes an empty file at the end of a path of a tree, if nothing stands there, and opens it.
fn make_spot<R: Rig>(
    table: &Table,
    trees: &mut Trees,
    handles: &mut Handles,
    rig: &mut R,
    p: PartitionId,
    place: Place,
    spot: Spot,
) -> Result<Reply, DeviceFault>
    requires caller { p.0 < length handles.old }
    requires of_table { AreOfTable table.now trees.old handles.old }
    requires serving { AreInService R.tells_view (R.state rig.old) trees.old handles.old }
    requires within { place.tree < length trees.old }
    requires found { AtTree trees.old place.tree (λ store.
        IsSpotAt (names_of store) place.path.names spot) }
    ensures served { IsServed R.tells_view (λ fs. open_new_at table.now fs p.0 (model_place place)
        (standing_at (tree_in fs place.tree) place.path.names))
        (ReadsFailed false (R.state rig.old) (R.state rig.new)) 52 3
        trees.old trees.new handles.old handles.new (R.state rig.old) (R.state rig.new) result }
    ensures rises { MakesFourIfDone R.keeps_cuts
        (R.state rig.old) (R.state rig.new) result }
{
    match spot {
        Spot::Free { parent } => make_in(table, trees, handles, rig, p, place, parent),
        Spot::Root => Ok(refusal(Errno::Eisdir)),
        Spot::Directory { .. } => Ok(refusal(Errno::Eisdir)),
        Spot::File { .. } => Ok(refusal(Errno::Eexist)),
    }
}

/// Makes an empty file at a path, and opens it.
pub fn open_new_file<R: Rig>(
    table: &Table,
    trees: &mut Trees,
    handles: &mut Handles,
    rig: &mut R,
    p: PartitionId,
    path: &[u8],
) -> Result<Reply, DeviceFault>
    requires accepted { IsAccepted table.now }
    requires caller { p.0 < length handles.old }
    requires of_table { AreOfTable table.now trees.old handles.old }
    requires serving { AreInService R.tells_view (R.state rig.old) trees.old handles.old }
    ensures served { IsServed R.tells_view (λ fs. open_new_step table.now fs p.0 path.now)
        (ReadsFailed false (R.state rig.old) (R.state rig.new)) 52 3
        trees.old trees.new handles.old handles.new (R.state rig.old) (R.state rig.new) result }
    ensures rises { MakesFourIfDone R.keeps_cuts
        (R.state rig.old) (R.state rig.new) result }
{
    let place = match place_of(table, Right::Owner, p, path) {
        Err(errno) => return Ok(refusal(errno)),
        Ok(place) => place,
    };
    match trees.tree(place.tree).walk(&place.path) {
        Err(errno) => Ok(refusal(errno)),
        Ok(spot) => make_spot(table, trees, handles, rig, p, place, spot),
    }
}
