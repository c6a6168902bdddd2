// A change of a file's present content.
ghost use Rattle.std.specs.Prelude.{◌≡◌, ◌≤◌, length, IsSome};
ghost use Rattle.file_tree.specs.Entries.{slot};
ghost use Rattle.tree_store.specs.Answers.{write_refusal, written_store, ComesTo, Acts, PassesAll};

use crate::refusal::StoreRefusal;
use crate::store::TreeStore;
use apex_types::FileNode;
use rig_core::Rig;
use tree_state::StateRefusal;

impl TreeStore {
    ghost use Rattle.tree_store.specs.Stored.{row_of, names_of, size_at, IsStored};

    /// Writes bytes over those of a file from a place in it on and beyond its end, as one change of its present
    /// content; what is durable stays. A refusal changes nothing and makes no call. After a read fault, which comes only
    /// where the read faults rose, all contents are as before; a device fault comes only where the write faults rose.
    pub fn write<R: Rig>(
        &mut self,
        rig: &mut R,
        file: FileNode,
        from: u32,
        bytes: &[u8],
    ) -> Result<(), StoreRefusal>
        requires stored { IsStored R.tells_view (R.state rig.old) self.old }
        requires in_use { IsSome (slot (names_of self.old).files file.0) }
        requires within { from ≤ size_at self.old file.0 }
        requires some { 1 ≤ length bytes.now }
        requires few { length bytes.now ≤ 4096 }
        ensures answer { ComesTo R.tells_view (write_refusal file.0 from bytes.now)
            (written_store file.0 from bytes.now) (rig.new ≡ rig.old)
            (R.state rig.old) (R.state rig.new) self.old self.new result }
        ensures moments { PassesAll R.tells_view self.old (λ v. v)
            (R.state rig.old) (R.state rig.new) }
        ensures stored { IsStored R.tells_view (R.state rig.new) self.new }
        ensures acts { Acts R.tells_view (row_of self.old).dirty 0
            (R.state rig.old) (R.state rig.new) self.old self.new }
    {
        match tree_state::write(
            &mut self.state,
            rig,
            &self.row,
            self.start,
            file,
            from,
            bytes,
        ) {
            Ok(()) => Ok(()),
            Err(StateRefusal::Refused(errno)) => Err(StoreRefusal::Refused(errno)),
            Err(StateRefusal::ReadFault) => Err(StoreRefusal::ReadFault),
            Err(StateRefusal::Device) => Err(StoreRefusal::Device),
        }
    }
}
