// A file is synchronised.
ghost use Rattle.std.specs.Prelude.{◌≡◌, ◌+◌, ◌≤◌, IsSome, OnOk};
ghost use Rattle.file_tree.specs.Entries.{slot};
ghost use Rattle.rig_core.specs.Leaves.{IsAllSettled};
ghost use Rattle.store_model.specs.Stores.{StoreValue, synchronised_store};
ghost use Rattle.tree_store.specs.Answers.{IsDone, Acts, PassesAll};

use crate::store::TreeStore;
use apex_types::FileNode;
use rig_core::{DeviceFault, Rig};
use tree_state::sync_file;

impl TreeStore {
    ghost use Rattle.tree_store.specs.Stored.{row_of, names_of, IsStored, Holds};

    /// Synchronises a file: from then on its present content is durable, and it is charged for that alone. A fault
    /// comes only where the write faults rose; what is kept is of no use then.
    pub fn sync<R: Rig>(&mut self, rig: &mut R, file: FileNode) -> Result<(), DeviceFault>
        requires stored { IsStored R.tells_view (R.state rig.old) self.old }
        requires in_use { IsSome (slot (names_of self.old).files file.0) }
        ensures done { (v : StoreValue) → Holds R.tells_view (R.state rig.old) self.old v
            → IsDone R.tells_view (synchronised_store v file.0)
            (R.state rig.old) (R.state rig.new) self.new result }
        ensures moments { PassesAll R.tells_view self.old (λ v. synchronised_store v file.0)
            (R.state rig.old) (R.state rig.new) }
        ensures stored { OnOk result (IsStored R.tells_view (R.state rig.new) self.new) }
        ensures settled { OnOk result (IsAllSettled (R.state rig.new)) }
        ensures acts { Acts R.tells_view ((row_of self.old).dirty + 4) 3
            (R.state rig.old) (R.state rig.new) self.old self.new }
    {
        sync_file(&mut self.state, rig, &self.row, self.start, file)?;
        self.state.kept.tree.stand();
        Ok(())
    }
}
