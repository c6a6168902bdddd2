// A file is cut or filled up.
ghost use Rattle.std.specs.Prelude.{◌≡◌, IsSome};
ghost use Rattle.file_tree.specs.Entries.{slot};
ghost use Rattle.store_model.specs.Stores.{StoreValue};
ghost use Rattle.tree_store.specs.Answers.{resize_refusal, resized_store, ComesTo, Acts, PassesAll};

use crate::refusal::StoreRefusal;
use crate::store::TreeStore;
use apex_types::FileNode;
use rig_core::Rig;
use tree_state::StateRefusal;

impl TreeStore {
    ghost use Rattle.tree_store.specs.Stored.{row_of, names_of, IsStored};

    /// Cuts a file to a size, or fills it up with zeros, as one change of its present content; what is durable stays.
    /// A refusal changes nothing and makes no call. After a read fault, which comes only where the read faults rose,
    /// all contents are as before; a device fault comes only where the write faults rose.
    pub fn resize<R: Rig>(
        &mut self,
        rig: &mut R,
        file: FileNode,
        size: u32,
    ) -> Result<(), StoreRefusal>
        requires stored { IsStored R.tells_view (R.state rig.old) self.old }
        requires in_use { IsSome (slot (names_of self.old).files file.0) }
        ensures answer { ComesTo R.tells_view (resize_refusal file.0 size)
            (resized_store file.0 size) (rig.new ≡ rig.old)
            (R.state rig.old) (R.state rig.new) self.old self.new result }
        ensures moments { PassesAll R.tells_view self.old (λ v. v)
            (R.state rig.old) (R.state rig.new) }
        ensures stored { IsStored R.tells_view (R.state rig.new) self.new }
        ensures acts { Acts R.tells_view (row_of self.old).dirty 0
            (R.state rig.old) (R.state rig.new) self.old self.new }
    {
        match tree_state::resize(&mut self.state, rig, &self.row, self.start, file, size) {
            Ok(()) => Ok(()),
            Err(StateRefusal::Refused(errno)) => Err(StoreRefusal::Refused(errno)),
            Err(StateRefusal::ReadFault) => Err(StoreRefusal::ReadFault),
            Err(StateRefusal::Device) => Err(StoreRefusal::Device),
        }
    }
}
