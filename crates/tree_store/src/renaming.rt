// A file gets another name.
ghost use Rattle.std.specs.Prelude.{◌≡◌, OnOk};
ghost use Rattle.tree_store.specs.Answers.{renamed_file, Acts, PassesAll};
ghost use Rattle.tree_store.specs.Naming.{DoneTo, HasDirectory, HasFile, IsFree, IsShallow, RisesBy};

use crate::store::TreeStore;
use apex_types::{DirNode, FileNode, Name};
use rig_core::{DeviceFault, Rig};

impl TreeStore {
    ghost use Rattle.tree_store.specs.Stored.{IsStored};

    /// Gives a file another name, in this or another directory, durably. After a fault the store is of no use.
    pub fn rename<R: Rig>(
        &mut self,
        rig: &mut R,
        file: FileNode,
        parent: DirNode,
        name: Name,
    ) -> Result<(), DeviceFault>
        requires stored { IsStored R.tells_view (R.state rig.old) self.old }
        requires file { HasFile self.old file.0 }
        requires in_use { HasDirectory self.old parent.0 }
        requires few { IsShallow self.old parent.0 name }
        requires free { IsFree self.old parent.0 name }
        ensures done { DoneTo R.tells_view (λ v. renamed_file v file.0 parent.0 name)
            (R.state rig.old) (R.state rig.new) self.old self.new result }
        ensures moments { PassesAll R.tells_view self.old (λ v. renamed_file v file.0 parent.0 name)
            (R.state rig.old) (R.state rig.new) }
        ensures stored { OnOk result (IsStored R.tells_view (R.state rig.new) self.new) }
        ensures acts { Acts R.tells_view 4 3 (R.state rig.old) (R.state rig.new) self.old self.new }
        ensures rises { RisesBy R.keeps_cuts (R.state rig.old) (R.state rig.new) self.old result }
    {
        tree_state::rename(
            &mut self.state,
            rig,
            &self.row,
            self.start,
            file,
            parent,
            name,
        )?;
        self.state.kept.tree.stand();
        Ok(())
    }
}
