// The trees of a table are mounted.
ghost use Rattle.std.specs.Prelude.{◌≡◌, ◌*◌, ◌<◌, ◌≤◌, length, IfOk, IfErr};
ghost use Rattle.apex_model.specs.Accepted.{IsAccepted};
ghost use Rattle.apex_model.specs.Layout.{layout_blocks};
ghost use Rattle.image_format.specs.Places.{places_of};
ghost use Rattle.rig_core.specs.Leaves.{IsAllSettled};
ghost use Rattle.rig_core.specs.Outside.{OnlyReads};
ghost use Rattle.image_mount.specs.Faults.{tree_error as error_of_tree, AreNoTrees, IsNoTree};
ghost use Rattle.image_mount.specs.Mounted.{AreMounted, IsTreeMounted};

use apex_types::Table;
use image_format::{Layout, layout};
use recover_scan::MountError;
use rig_core::Rig;
use std::alloc::Global;
use tree_region::MountStop;
use tree_store::{TreeStore, Trees};

/// Why the tree of a number, counted from 1, is not mounted.
fn tree_error(tree: u32, stop: MountStop) -> MountError
    ensures { result ≡ error_of_tree tree stop }
{
    match stop {
        MountStop::Bad => MountError::BadTree { tree },
        MountStop::Device => MountError::Device,
        MountStop::Memory => MountError::Memory,
    }
}

/// Mounts the tree of a number, counted from 0.
fn mount_tree<R: Rig>(
    alloc: Global,
    rig: &mut R,
    table: &Table,
    places: &Layout,
    tree: u32,
) -> Result<TreeStore, MountError>
    requires accepted { IsAccepted table.now }
    requires places { places.now ≡ places_of table.now }
    requires number { tree < length table.now.trees }
    requires fits { 512 * layout_blocks table.now ≤ (R.state rig.old).size }
    requires settled { IsAllSettled (R.state rig.old) }
    ensures mounted { IfOk result (IsTreeMounted R.tells_view (R.state rig.new) table.now tree) }
    ensures refused { IfErr result (IsNoTree R.tells_view table.now tree
        (R.state rig.old) (R.state rig.new)) }
    ensures reads { OnlyReads R.tells_view (R.state rig.old) (R.state rig.new) }
{
    let rows = table.trees();
    match TreeStore::mount(alloc, rig, &rows[tree as usize], places.tree_start(tree)) {
        Ok(store) => Ok(store),
        Err(stop) => Err(tree_error(tree + 1, stop)),
    }
}

/// Mounts the trees of a table, one after the other, up to the first that isn't good.
pub(crate) fn mount_trees<R: Rig>(
    alloc: Global,
    rig: &mut R,
    table: &Table,
) -> Result<Trees, MountError>
    requires accepted { IsAccepted table.now }
    requires fits { 512 * layout_blocks table.now ≤ (R.state rig.old).size }
    requires settled { IsAllSettled (R.state rig.old) }
    ensures mounted { IfOk result (AreMounted R.tells_view (R.state rig.new) table.now table.now.trees) }
    ensures refused { IfErr result (AreNoTrees R.tells_view table.now
        (R.state rig.old) (R.state rig.new)) }
    ensures reads { OnlyReads R.tells_view (R.state rig.old) (R.state rig.new) }
{
    let places = layout(table);
    let rows = table.trees();
    let Ok(mut stores) = Vec::with_capacity(alloc, rows.len()) else {
        return Err(MountError::Memory);
    };
    for tree in 0..rows.len() as u32 {
        let store = match mount_tree(alloc, rig, table, &places, tree) {
            Ok(store) => store,
            Err(error) => return Err(error),
        };
        let Ok(()) = stores.push(store) else {
            return Err(MountError::Memory);
        };
    }
    Ok(Trees::of(stores))
}
