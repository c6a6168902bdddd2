// The bytes of a file are read.
ghost use Rattle.std.specs.Prelude.{◌≡◌, ◌-◌, ◌≤◌, ◌++◌, length, drop, min, IsSome, IfOk, OnErr};
ghost use Rattle.apex_model.specs.Files.{read_at};
ghost use Rattle.file_tree.specs.Entries.{slot};
ghost use Rattle.rig_core.specs.Causes.{Rose};
ghost use Rattle.rig_core.specs.Outside.{OnlyReads};
ghost use Rattle.store_model.specs.Stores.{StoreValue, kept_at};

use crate::store::TreeStore;
use apex_types::FileNode;
use rig_core::{ReadFault, Rig};

impl TreeStore {
    ghost use Rattle.tree_store.specs.Stored.{names_of, size_at, IsStored, Holds};

    /// Copies the bytes of a file from a place on, as many as there are and as there is room for, and tells how many.
    /// A fault comes only where the rig's read faults rose.
    pub fn read<R: Rig>(
        &self,
        rig: &mut R,
        file: FileNode,
        from: u32,
        into: &mut [u8],
    ) -> Result<usize, ReadFault>
        requires stored { IsStored R.tells_view (R.state rig.old) self.now }
        requires in_use { IsSome (slot (names_of self.now).files file.0) }
        ensures count { IfOk result
            (λ n. n ≡ min (length into.old) (size_at self.now file.0 - from)) }
        ensures bytes { R.tells_view → (v : StoreValue)
            → Holds R.tells_view (R.state rig.old) self.now v → IfOk result (λ n. into.new
            ≡ read_at (kept_at v file.0).content from (length into.old) ++ drop n into.old) }
        ensures long { length into.new ≡ length into.old }
        ensures reads { OnlyReads R.tells_view (R.state rig.old) (R.state rig.new) }
        ensures cause { OnErr result
            (Rose (R.state rig.old).read_faults (R.state rig.new).read_faults) }
    {
        let present = &self.state.present;
        match present_files::read(present, rig, &self.row, self.start, file, from, into) {
            Ok(count) => Ok(count),
            Err(_) => Err(ReadFault),
        }
    }
}
