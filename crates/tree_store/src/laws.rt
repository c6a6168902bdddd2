// What holds of every stored tree; the body makes no change.
ghost use Rattle.std.specs.Prelude.{◌≤◌};
ghost use Rattle.apex_model.specs.Files.{File};
ghost use Rattle.apex_model.specs.Trees.{Tree};
ghost use Rattle.apex_model.specs.Unwritten.{unwritten};
ghost use Rattle.tree_region.specs.Region.{region_at};
ghost use Rattle.store_model.specs.Standing.{IsTree};
ghost use Rattle.store_model.specs.Stores.{StoreValue};

use crate::store::TreeStore;
use present_files::stand;
use rig_core::Rig;

impl TreeStore {
    ghost use Rattle.tree_store.specs.Stored.{row_of, start_of, IsStored, Holds};

    /// Of a tree in step no more blocks are in memory alone than its row allows. This is a law, which no program calls.
    pub fn few_unwritten<R: Rig>(&self, rig: &R)
        requires stored { IsStored R.tells_view (R.state rig.now) self.now }
        ensures { R.tells_view → (v : StoreValue) → Holds R.tells_view (R.state rig.now) self.now v
            → (tree : Tree File) → IsTree v tree
            → unwritten (row_of self.now)
            (region_at (row_of self.now) (start_of self.now) (R.state rig.now).view) tree
            ≤ (row_of self.now).dirty }
    {
        stand(&self.state.present.pool);
    }
}
