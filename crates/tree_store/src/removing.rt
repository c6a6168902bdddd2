// Files and directories are removed.
ghost use Rattle.std.specs.Prelude.{◌≡◌, ◌≢◌, OnOk};
ghost use Rattle.tree_store.specs.Answers.{removed_file, removed_directory, removal_refusal, UnlessDevice, Acts, PassesAll};
ghost use Rattle.tree_store.specs.Naming.{DoneTo, HasDirectory, HasFile, NamesTo, RisesBy};

use crate::refusal::StoreRefusal;
use crate::store::TreeStore;
use apex_types::{DirNode, FileNode};
use rig_core::{DeviceFault, Rig};
use tree_state::StateRefusal;

impl TreeStore {
    ghost use Rattle.tree_store.specs.Stored.{IsStored};

    /// Removes a directory other than the root, durably; its entry is unused from then on. ENOTEMPTY comes where
    /// something stands in it, and nothing changes then. After a fault of the device the store is of no use.
    pub fn remove_dir<R: Rig>(
        &mut self,
        rig: &mut R,
        directory: DirNode,
    ) -> Result<(), StoreRefusal>
        requires stored { IsStored R.tells_view (R.state rig.old) self.old }
        requires below_root { directory.0 ≢ 0 }
        requires in_use { HasDirectory self.old directory.0 }
        ensures answer { NamesTo R.tells_view (λ v. removal_refusal v directory.0)
            (λ v. removed_directory v directory.0) (rig.new ≡ rig.old)
            (R.state rig.old) (R.state rig.new) self.old self.new result }
        ensures moments { PassesAll R.tells_view self.old (λ v. removed_directory v directory.0)
            (R.state rig.old) (R.state rig.new) }
        ensures stored { UnlessDevice result (IsStored R.tells_view (R.state rig.new) self.new) }
        ensures acts { Acts R.tells_view 4 3 (R.state rig.old) (R.state rig.new) self.old self.new }
        ensures rises { RisesBy R.keeps_cuts (R.state rig.old) (R.state rig.new) self.old result }
    {
        match tree_state::remove_dir(&mut self.state, rig, &self.row, self.start, directory) {
            Ok(()) => {
                self.state.kept.tree.stand();
                Ok(())
            }
            Err(StateRefusal::Refused(errno)) => Err(StoreRefusal::Refused(errno)),
            Err(StateRefusal::ReadFault) => unreachable!(),
            Err(StateRefusal::Device) => Err(StoreRefusal::Device),
        }
    }

    /// Removes a file, durably, with all that is kept of it; its entry is unused from then on. After a fault the store
    /// is of no use.
    pub fn remove_file<R: Rig>(&mut self, rig: &mut R, file: FileNode) -> Result<(), DeviceFault>
        requires stored { IsStored R.tells_view (R.state rig.old) self.old }
        requires in_use { HasFile self.old file.0 }
        ensures done { DoneTo R.tells_view (λ v. removed_file v file.0)
            (R.state rig.old) (R.state rig.new) self.old self.new result }
        ensures moments { PassesAll R.tells_view self.old (λ v. removed_file v file.0)
            (R.state rig.old) (R.state rig.new) }
        ensures stored { OnOk result (IsStored R.tells_view (R.state rig.new) self.new) }
        ensures acts { Acts R.tells_view 4 3 (R.state rig.old) (R.state rig.new) self.old self.new }
        ensures rises { RisesBy R.keeps_cuts (R.state rig.old) (R.state rig.new) self.old result }
    {
        tree_state::remove_file(&mut self.state, rig, &self.row, self.start, file)?;
        self.state.kept.tree.stand();
        Ok(())
    }
}
