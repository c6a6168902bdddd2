// A stored tree is mounted.
ghost use Rattle.std.specs.Prelude.{◌≡◌, ◌+◌, ◌*◌, ◌≤◌, None, IfOk, IsErrOf, length, take};
ghost use Rattle.apex_model.specs.Durable.{StoredFile};
ghost use Rattle.apex_model.specs.Image.{tree_of_region};
ghost use Rattle.apex_model.specs.Layout.{tree_blocks};
ghost use Rattle.apex_model.specs.Trees.{Tree};
ghost use Rattle.rig_core.specs.Causes.{Rose};
ghost use Rattle.rig_core.specs.Leaves.{IsAllSettled};
ghost use Rattle.rig_core.specs.Outside.{OnlyReads};
ghost use Rattle.tree_region.specs.Region.{region_at};

use crate::store::TreeStore;
use apex_types::{Readers, TreeRow};
use rig_core::Rig;
use std::alloc::Global;
use tree_region::MountStop;
use tree_state::mount_state;

/// The same readers once more.
fn readers_of(row: &TreeRow) -> Readers
    ensures { result ≡ row.now.readers }
{
    let mut readers = Readers::new();
    for k in 0..row.readers.len() {
        readers.push(*row.readers.at(k));
    }
    readers
}

/// An equal row.
fn copy_of(row: &TreeRow) -> TreeRow
    ensures { result ≡ row.now }
{
    TreeRow {
        volume: row.volume,
        owner: row.owner,
        readers: readers_of(row),
        quota: row.quota,
        files: row.files,
        directories: row.directories,
        dirty: row.dirty,
    }
}

impl TreeStore {
    ghost use Rattle.tree_store.specs.Stored.{site_of, IsStored, IsLoaded};

    /// Mounts the tree of a region, which begins at a byte of a device on which nothing is pending. Only reads are made.
    /// It holds the value that a run starts from. It is bad exactly where the region stands for no tree; a fault of the
    /// device comes only where the rig's read faults rose.
    pub fn mount<R: Rig>(
        alloc: Global,
        rig: &mut R,
        row: &TreeRow,
        start: u64,
    ) -> Result<TreeStore, MountStop>
        requires fits { start + 512 * tree_blocks row.now ≤ (R.state rig.old).size }
        requires buffers { 9 ≤ row.now.dirty }
        requires settled { IsAllSettled (R.state rig.old) }
        ensures site { IfOk result (λ store. site_of store ≡ (row.now, start)) }
        ensures stored { IfOk result (IsStored R.tells_view (R.state rig.new)) }
        ensures loaded { IfOk result (λ store. (stored : Tree StoredFile)
            × IsLoaded R.tells_view (R.state rig.new) store stored) }
        ensures bad { R.tells_view → IsErrOf result MountStop.Bad
            → tree_of_region row.now (region_at row.now start (R.state rig.old).view) ≡ None }
        ensures reads { OnlyReads R.tells_view (R.state rig.old) (R.state rig.new) }
        ensures cause { IsErrOf result MountStop.Device
            → Rose (R.state rig.old).read_faults (R.state rig.new).read_faults }
    {
        let row = copy_of(row);
        match mount_state(alloc, rig, &row, start) {
            Err(stop) => Err(stop),
            Ok(state) => {
                state.kept.tree.stand();
                Ok(TreeStore { row, start, state })
            }
        }
    }
}
