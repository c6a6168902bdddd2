// Renaming files within their trees.
ghost use Rattle.std.specs.Prelude.{◌≡◌, ◌<◌, List, length, false, None, Some};
ghost use Rattle.apex_model.specs.Accepted.{IsAccepted};
ghost use Rattle.apex_model.specs.FileStep.{rename_at, rename_file as rename_step};
ghost use Rattle.apex_model.specs.FileSystem.{tree_in};
ghost use Rattle.apex_model.specs.Handles.{any_open};
ghost use Rattle.apex_model.specs.Trees.{Name, standing_at, walk};
ghost use Rattle.file_tree.specs.Entries.{IsSpotAt, slot};
ghost use Rattle.open_handles.specs.NodeHandles.{handles_of};
ghost use Rattle.open_handles.specs.Nodes.{holds_file};
ghost use Rattle.service_parts.specs.Serving.{AreInService, IsServed, MakesFourIfDone, ReadsFailed};
ghost use Rattle.tree_store.specs.Calls.{AtTree};
ghost use Rattle.tree_store.specs.Serving.{AreOfTable};
ghost use Rattle.tree_store.specs.Stored.{names_of};

use apex_types::{DirNode, Errno, FileNode, PartitionId, PathNames, Reply, Spot, Table, Values};
use open_handles::Handles;
use rig_core::{DeviceFault, Rig};
use service_parts::{Place, Right, last_name, place_of, refusal, success};
use tree_store::Trees;

/// Gives a file of which the caller has no handle another path, at which nothing stands.
fn rename_closed<R: Rig>(
    trees: &mut Trees,
    handles: &Handles,
    rig: &mut R,
    p: PartitionId,
    from: &PathNames,
    target: Place,
    file: FileNode,
    parent: DirNode,
) -> Result<Reply, DeviceFault>
    requires caller { p.0 < length handles.now }
    requires serving { AreInService R.tells_view (R.state rig.old) trees.old handles.now }
    requires within { target.tree < length trees.old }
    requires way { AtTree trees.old target.tree (λ store.
        walk (names_of store).nodes target.path.names ≡ None) }
    requires free { AtTree trees.old target.tree (λ store.
        IsSpotAt (names_of store) target.path.names (Spot.Free parent)) }
    requires closed { any_open (holds_file target.tree file) (handles_of handles.now p.0).files
        ≡ false }
    requires found { AtTree trees.old target.tree (λ store.
        slot (names_of store).files file.0 ≡ Some from.now) }
    ensures served { IsServed R.tells_view (λ fs. rename_at fs p.0 target.tree from.now
        target.path.names (standing_at (tree_in fs target.tree) from.now))
        (ReadsFailed false (R.state rig.old) (R.state rig.new)) 52 3
        trees.old trees.new handles.now handles.now (R.state rig.old) (R.state rig.new) result }
    ensures rises { MakesFourIfDone R.keeps_cuts
        (R.state rig.old) (R.state rig.new) result }
{
    let name = last_name(&target.path.names);
    match trees.rename(rig, target.tree, file, parent, name) {
        Ok(()) => Ok(success(Values::Empty)),
        Err(fault) => Err(fault),
    }
}

/// Gives a file the path that ends at a spot, if nothing stands there and the caller has no handle of the file.
fn rename_to<R: Rig>(
    trees: &mut Trees,
    handles: &Handles,
    rig: &mut R,
    p: PartitionId,
    from: &PathNames,
    target: Place,
    file: FileNode,
    spot: Spot,
) -> Result<Reply, DeviceFault>
    requires caller { p.0 < length handles.now }
    requires serving { AreInService R.tells_view (R.state rig.old) trees.old handles.now }
    requires within { target.tree < length trees.old }
    requires way { AtTree trees.old target.tree (λ store.
        walk (names_of store).nodes target.path.names ≡ None) }
    requires reached { AtTree trees.old target.tree (λ store.
        IsSpotAt (names_of store) target.path.names spot) }
    requires found { AtTree trees.old target.tree (λ store.
        slot (names_of store).files file.0 ≡ Some from.now) }
    ensures served { IsServed R.tells_view (λ fs. rename_at fs p.0 target.tree from.now
        target.path.names (standing_at (tree_in fs target.tree) from.now))
        (ReadsFailed false (R.state rig.old) (R.state rig.new)) 52 3
        trees.old trees.new handles.now handles.now (R.state rig.old) (R.state rig.new) result }
    ensures rises { MakesFourIfDone R.keeps_cuts
        (R.state rig.old) (R.state rig.new) result }
{
    if handles.holds_file(p, target.tree, file) {
        return Ok(refusal(Errno::Ebusy));
    }
    match spot {
        Spot::Free { parent } => rename_closed(trees, handles, rig, p, from, target, file, parent),
        Spot::Root => Ok(refusal(Errno::Eexist)),
        Spot::Directory { .. } => Ok(refusal(Errno::Eexist)),
        Spot::File { .. } => Ok(refusal(Errno::Eexist)),
    }
}

/// Gives what stands at the end of a path of a tree another path, if it is a file.
fn rename_spot<R: Rig>(
    trees: &mut Trees,
    handles: &Handles,
    rig: &mut R,
    p: PartitionId,
    from: &PathNames,
    target: Place,
    spot: Spot,
) -> Result<Reply, DeviceFault>
    requires caller { p.0 < length handles.now }
    requires serving { AreInService R.tells_view (R.state rig.old) trees.old handles.now }
    requires within { target.tree < length trees.old }
    requires found { AtTree trees.old target.tree (λ store.
        IsSpotAt (names_of store) from.now spot) }
    ensures served { IsServed R.tells_view (λ fs. rename_at fs p.0 target.tree from.now
        target.path.names (standing_at (tree_in fs target.tree) from.now))
        (ReadsFailed false (R.state rig.old) (R.state rig.new)) 52 3
        trees.old trees.new handles.now handles.now (R.state rig.old) (R.state rig.new) result }
    ensures rises { MakesFourIfDone R.keeps_cuts
        (R.state rig.old) (R.state rig.new) result }
{
    let file = match spot {
        Spot::Free { .. } => return Ok(refusal(Errno::Enoent)),
        Spot::Root => return Ok(refusal(Errno::Eisdir)),
        Spot::Directory { .. } => return Ok(refusal(Errno::Eisdir)),
        Spot::File { node, .. } => node,
    };
    match trees.tree(target.tree).walk(&target.path) {
        Err(errno) => Ok(refusal(errno)),
        Ok(spot) => rename_to(trees, handles, rig, p, from, target, file, spot),
    }
}

/// Gives the file at a path another path in its tree.
pub fn rename_file<R: Rig>(
    table: &Table,
    trees: &mut Trees,
    handles: &Handles,
    rig: &mut R,
    p: PartitionId,
    from: &[u8],
    to: &[u8],
) -> Result<Reply, DeviceFault>
    requires accepted { IsAccepted table.now }
    requires caller { p.0 < length handles.now }
    requires of_table { AreOfTable table.now trees.old handles.now }
    requires serving { AreInService R.tells_view (R.state rig.old) trees.old handles.now }
    ensures served { IsServed R.tells_view (λ fs. rename_step table.now fs p.0 from.now to.now)
        (ReadsFailed false (R.state rig.old) (R.state rig.new)) 52 3
        trees.old trees.new handles.now handles.now (R.state rig.old) (R.state rig.new) result }
    ensures rises { MakesFourIfDone R.keeps_cuts
        (R.state rig.old) (R.state rig.new) result }
{
    let source = match place_of(table, Right::Owner, p, from) {
        Err(errno) => return Ok(refusal(errno)),
        Ok(place) => place,
    };
    let target = match place_of(table, Right::Owner, p, to) {
        Err(errno) => return Ok(refusal(errno)),
        Ok(place) => place,
    };
    if source.tree != target.tree {
        return Ok(refusal(Errno::Einval));
    }
    match trees.tree(source.tree).walk(&source.path) {
        Err(errno) => Ok(refusal(errno)),
        Ok(spot) => rename_spot(trees, handles, rig, p, &source.path.names, target, spot),
    }
}
