// Files and directories are made.
ghost use Rattle.std.specs.Prelude.{◌≡◌, Some, IfOk};
ghost use Rattle.apex_model.specs.Handles.{free_from};
ghost use Rattle.tree_store.specs.Answers.{made_file, made_directory, file_refusal, directory_refusal, UnlessDevice, Acts, PassesAll};
ghost use Rattle.tree_store.specs.Naming.{HasDirectory, IsFree, IsShallow, NamesTo, RisesBy};

use crate::refusal::StoreRefusal;
use crate::store::TreeStore;
use apex_types::{DirNode, FileNode, Name};
use rig_core::Rig;
use tree_state::StateRefusal;

impl TreeStore {
    ghost use Rattle.tree_store.specs.Stored.{names_of, IsStored};

    /// Makes an empty file of this name at the least unused entry, durably. ENOSPC comes where all entries for files
    /// are used, and nothing changes then. After a fault of the device the store is of no use.
    pub fn make_file<R: Rig>(
        &mut self,
        rig: &mut R,
        parent: DirNode,
        name: Name,
    ) -> Result<FileNode, StoreRefusal>
        requires stored { IsStored R.tells_view (R.state rig.old) self.old }
        requires in_use { HasDirectory self.old parent.0 }
        requires few { IsShallow self.old parent.0 name }
        requires free { IsFree self.old parent.0 name }
        ensures node { IfOk result (λ file. free_from 0 (names_of self.old).files ≡ Some file.0) }
        ensures answer { NamesTo R.tells_view file_refusal (λ v. made_file v parent.0 name)
            (rig.new ≡ rig.old) (R.state rig.old) (R.state rig.new) self.old self.new result }
        ensures moments { PassesAll R.tells_view self.old (λ v. made_file v parent.0 name)
            (R.state rig.old) (R.state rig.new) }
        ensures stored { UnlessDevice result (IsStored R.tells_view (R.state rig.new) self.new) }
        ensures acts { Acts R.tells_view 4 3 (R.state rig.old) (R.state rig.new) self.old self.new }
        ensures rises { RisesBy R.keeps_cuts (R.state rig.old) (R.state rig.new) self.old result }
    {
        match tree_state::make_file(&mut self.state, rig, &self.row, self.start, parent, name) {
            Ok(file) => {
                self.state.kept.tree.stand();
                Ok(file)
            }
            Err(StateRefusal::Refused(errno)) => Err(StoreRefusal::Refused(errno)),
            Err(StateRefusal::ReadFault) => unreachable!(),
            Err(StateRefusal::Device) => Err(StoreRefusal::Device),
        }
    }

    /// Makes a directory of this name at the least unused entry, durably. ENOSPC comes where all entries for
    /// directories are used, and nothing changes then. After a fault of the device the store is of no use.
    pub fn make_dir<R: Rig>(
        &mut self,
        rig: &mut R,
        parent: DirNode,
        name: Name,
    ) -> Result<DirNode, StoreRefusal>
        requires stored { IsStored R.tells_view (R.state rig.old) self.old }
        requires in_use { HasDirectory self.old parent.0 }
        requires few { IsShallow self.old parent.0 name }
        requires free { IsFree self.old parent.0 name }
        ensures node { IfOk result (λ directory.
            free_from 1 (names_of self.old).directories ≡ Some directory.0) }
        ensures answer { NamesTo R.tells_view directory_refusal
            (λ v. made_directory v parent.0 name) (rig.new ≡ rig.old)
            (R.state rig.old) (R.state rig.new) self.old self.new result }
        ensures moments { PassesAll R.tells_view self.old (λ v. made_directory v parent.0 name)
            (R.state rig.old) (R.state rig.new) }
        ensures stored { UnlessDevice result (IsStored R.tells_view (R.state rig.new) self.new) }
        ensures acts { Acts R.tells_view 4 3 (R.state rig.old) (R.state rig.new) self.old self.new }
        ensures rises { RisesBy R.keeps_cuts (R.state rig.old) (R.state rig.new) self.old result }
    {
        match tree_state::make_dir(&mut self.state, rig, &self.row, self.start, parent, name) {
            Ok(directory) => {
                self.state.kept.tree.stand();
                Ok(directory)
            }
            Err(StateRefusal::Refused(errno)) => Err(StoreRefusal::Refused(errno)),
            Err(StateRefusal::ReadFault) => unreachable!(),
            Err(StateRefusal::Device) => Err(StoreRefusal::Device),
        }
    }
}
