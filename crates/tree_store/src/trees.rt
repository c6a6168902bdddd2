// The stored trees of a table.
ghost use Rattle.std.specs.Prelude.{◌≡◌, ◌≢◌, ◌+◌, ◌-◌, ◌<◌, ◌≤◌, ◌++◌, List, Some, length, min, drop, slice_get, IfOk, OnOk, OnErr};
ghost use Rattle.apex_model.specs.Files.{read_at};
ghost use Rattle.apex_model.specs.Handles.{free_from};
ghost use Rattle.rig_core.specs.Causes.{Rose};
ghost use Rattle.rig_core.specs.Leaves.{IsAllSettled};
ghost use Rattle.rig_core.specs.Outside.{OnlyReads};
ghost use Rattle.store_model.specs.Stores.{StoreValue, kept_at, total, synchronised_store};
ghost use Rattle.store_model.specs.Systems.{store_at};
ghost use Rattle.tree_store.specs.Answers.{write_refusal, written_store, resize_refusal, resized_store, file_refusal, directory_refusal, removal_refusal, made_file, made_directory, removed_file, removed_directory, renamed_file, UnlessDevice};
ghost use Rattle.tree_store.specs.Calls.{ActsAt, AreReady, AtTree, ComesToAt, DoneToAt, MakesFour, NamesToAt, PassesAt, StayHeld};
ghost use Rattle.tree_store.specs.Naming.{HasDirectory, HasFile, IsFree, IsShallow};
ghost use Rattle.tree_store.specs.Serving.{AllHold, AreStored};
ghost use Rattle.tree_store.specs.Stored.{row_of, names_of, size_at, changes_at, charges_of, buffers_of};

use crate::refusal::StoreRefusal;
use crate::store::TreeStore;
use apex_types::{DirNode, FileNode, Name};
use file_tree::Tree;
use rig_core::{DeviceFault, ReadFault, Rig};
use std::marker::Model;

/// A stored tree for each tree of a table, in the table's order. A call names its tree by the number in that order;
/// the other trees hold what they held, at every moment.
#[derive(Drop)]
pub struct Trees {
    stores: Vec<TreeStore>,
}

impl Model for Trees {
    ghost use Rattle.std.specs.Prelude.{List};
    ghost use Rattle.tree_store.specs.declared.store.TreeStore.{TreeStore};

    ghost Value = { List TreeStore };

    ghost view = { λ t. t.stores.items };
}

impl Trees {
    /// These trees, by their places.
    pub fn of(stores: Vec<TreeStore>) -> Trees
        ensures { result ≡ stores.items }
    {
        Trees { stores }
    }

    /// The tree of a number.
    fn get(&self, tree: u32) -> &TreeStore
        requires { tree < length self.now }
        ensures { slice_get self.now tree ≡ Some result.now }
    {
        &self.stores[tree as usize]
    }

    /// The names of a tree.
    pub fn tree(&self, tree: u32) -> &Tree
        requires { tree < length self.now }
        ensures { AtTree self.now tree (λ store. result.now ≡ names_of store) }
    {
        self.get(tree).tree()
    }

    /// How many bytes a file of a tree has at present.
    pub fn size(&self, tree: u32, file: FileNode) -> u32
        requires { tree < length self.now }
        ensures { AtTree self.now tree (λ store. result ≡ size_at store file.0) }
    {
        self.get(tree).size(file)
    }

    /// How often a file of a tree was changed.
    pub fn changes(&self, tree: u32, file: FileNode) -> u32
        requires { tree < length self.now }
        ensures { AtTree self.now tree (λ store. result ≡ changes_at store file.0) }
    {
        self.get(tree).changes(file)
    }

    /// The blocks that all files of a tree together are charged for.
    pub fn charge(&self, tree: u32) -> u32
        requires { tree < length self.now }
        ensures { AtTree self.now tree (λ store. result ≡ total (charges_of store)) }
    {
        self.get(tree).charge()
    }

    /// How many blocks of a tree may be unwritten.
    pub fn buffers(&self, tree: u32) -> u32
        requires { tree < length self.now }
        ensures { AtTree self.now tree (λ store. result ≡ buffers_of store) }
    {
        self.get(tree).buffers()
    }

    /// Copies the bytes of a file of a tree from a place on, as many as there are and as there is room for, and tells
    /// how many. A fault comes only where the rig's read faults rose.
    pub fn read<R: Rig>(
        &self,
        rig: &mut R,
        tree: u32,
        file: FileNode,
        from: u32,
        into: &mut [u8],
    ) -> Result<usize, ReadFault>
        requires ready { AreReady R.tells_view (R.state rig.old) self.now tree }
        requires in_use { AtTree self.now tree (λ store. HasFile store file.0) }
        ensures count { AtTree self.now tree (λ store.
            IfOk result (λ n. n ≡ min (length into.old) (size_at store file.0 - from))) }
        ensures bytes { R.tells_view → (stores : List StoreValue)
            → AllHold R.tells_view (R.state rig.old) self.now stores → IfOk result (λ n. into.new
            ≡ read_at (kept_at (store_at stores tree) file.0).content from (length into.old)
            ++ drop n into.old) }
        ensures long { length into.new ≡ length into.old }
        ensures stored { AreStored R.tells_view (R.state rig.new) self.now }
        ensures held { StayHeld R.tells_view (R.state rig.old) (R.state rig.new) self.now self.now }
        ensures reads { OnlyReads R.tells_view (R.state rig.old) (R.state rig.new) }
        ensures cause { OnErr result
            (Rose (R.state rig.old).read_faults (R.state rig.new).read_faults) }
    {
        self.get(tree).read(rig, file, from, into)
    }

    /// Writes bytes at a place of a file of a tree, as one change of its present content. A refusal changes nothing and
    /// makes no call. After a read fault all contents are as before; after a fault of the device the trees are of no use.
    pub fn write<R: Rig>(
        &mut self,
        rig: &mut R,
        tree: u32,
        file: FileNode,
        from: u32,
        bytes: &[u8],
    ) -> Result<(), StoreRefusal>
        requires ready { AreReady R.tells_view (R.state rig.old) self.old tree }
        requires in_use { AtTree self.old tree (λ store. HasFile store file.0) }
        requires within { AtTree self.old tree (λ store. from ≤ size_at store file.0) }
        requires some { 1 ≤ length bytes.now }
        requires few { length bytes.now ≤ 4096 }
        ensures answer { ComesToAt R.tells_view tree (write_refusal file.0 from bytes.now)
            (written_store file.0 from bytes.now) (rig.new ≡ rig.old)
            (R.state rig.old) (R.state rig.new) self.old self.new result }
        ensures moments { PassesAt R.tells_view tree self.old (λ v. v)
            (R.state rig.old) (R.state rig.new) }
        ensures stored { AreStored R.tells_view (R.state rig.new) self.new }
        ensures acts { AtTree self.old tree (λ store. ActsAt R.tells_view (row_of store).dirty 0
            (R.state rig.old) (R.state rig.new) self.old self.new) }
    {
        self.stores[tree as usize].write(rig, file, from, bytes)
    }

    /// Cuts a file of a tree to a size, or fills it up with zeros, as one change of its present content. A refusal
    /// changes nothing and makes no call. After a read fault all contents are as before; after a fault of the device
    /// the trees are of no use.
    pub fn resize<R: Rig>(
        &mut self,
        rig: &mut R,
        tree: u32,
        file: FileNode,
        size: u32,
    ) -> Result<(), StoreRefusal>
        requires ready { AreReady R.tells_view (R.state rig.old) self.old tree }
        requires in_use { AtTree self.old tree (λ store. HasFile store file.0) }
        ensures answer { ComesToAt R.tells_view tree (resize_refusal file.0 size)
            (resized_store file.0 size) (rig.new ≡ rig.old)
            (R.state rig.old) (R.state rig.new) self.old self.new result }
        ensures moments { PassesAt R.tells_view tree self.old (λ v. v)
            (R.state rig.old) (R.state rig.new) }
        ensures stored { AreStored R.tells_view (R.state rig.new) self.new }
        ensures acts { AtTree self.old tree (λ store. ActsAt R.tells_view (row_of store).dirty 0
            (R.state rig.old) (R.state rig.new) self.old self.new) }
    {
        self.stores[tree as usize].resize(rig, file, size)
    }

    /// Synchronises a file of a tree: from then on its present content is durable, and it is charged for that alone.
    /// After a fault the trees are of no use.
    pub fn sync<R: Rig>(
        &mut self,
        rig: &mut R,
        tree: u32,
        file: FileNode,
    ) -> Result<(), DeviceFault>
        requires ready { AreReady R.tells_view (R.state rig.old) self.old tree }
        requires in_use { AtTree self.old tree (λ store. HasFile store file.0) }
        ensures done { DoneToAt R.tells_view tree (λ v. synchronised_store v file.0)
            (R.state rig.old) (R.state rig.new) self.old self.new result }
        ensures moments { PassesAt R.tells_view tree self.old (λ v. synchronised_store v file.0)
            (R.state rig.old) (R.state rig.new) }
        ensures stored { OnOk result (AreStored R.tells_view (R.state rig.new) self.new) }
        ensures settled { OnOk result (IsAllSettled (R.state rig.new)) }
        ensures acts { AtTree self.old tree (λ store.
            ActsAt R.tells_view ((row_of store).dirty + 4) 3
            (R.state rig.old) (R.state rig.new) self.old self.new) }
    {
        self.stores[tree as usize].sync(rig, file)
    }

    /// Makes an empty file of this name in a directory of a tree, durably. ENOSPC comes where all its entries for files
    /// are used, and nothing changes then. After a fault of the device the trees are of no use.
    pub fn make_file<R: Rig>(
        &mut self,
        rig: &mut R,
        tree: u32,
        parent: DirNode,
        name: Name,
    ) -> Result<FileNode, StoreRefusal>
        requires ready { AreReady R.tells_view (R.state rig.old) self.old tree }
        requires in_use { AtTree self.old tree (λ store. HasDirectory store parent.0) }
        requires few { AtTree self.old tree (λ store. IsShallow store parent.0 name) }
        requires free { AtTree self.old tree (λ store. IsFree store parent.0 name) }
        ensures node { AtTree self.old tree (λ store. IfOk result (λ file.
            free_from 0 (names_of store).files ≡ Some file.0)) }
        ensures answer { NamesToAt R.tells_view tree file_refusal (λ v. made_file v parent.0 name)
            (rig.new ≡ rig.old) (R.state rig.old) (R.state rig.new) self.old self.new result }
        ensures moments { PassesAt R.tells_view tree self.old (λ v. made_file v parent.0 name)
            (R.state rig.old) (R.state rig.new) }
        ensures stored { UnlessDevice result (AreStored R.tells_view (R.state rig.new) self.new) }
        ensures acts { ActsAt R.tells_view 4 3 (R.state rig.old) (R.state rig.new)
            self.old self.new }
        ensures rises { MakesFour R.keeps_cuts (R.state rig.old) (R.state rig.new) result }
    {
        self.stores[tree as usize].make_file(rig, parent, name)
    }

    /// Makes a directory of this name in a directory of a tree, durably. ENOSPC comes where all its entries for
    /// directories are used, and nothing changes then. After a fault of the device the trees are of no use.
    pub fn make_dir<R: Rig>(
        &mut self,
        rig: &mut R,
        tree: u32,
        parent: DirNode,
        name: Name,
    ) -> Result<DirNode, StoreRefusal>
        requires ready { AreReady R.tells_view (R.state rig.old) self.old tree }
        requires in_use { AtTree self.old tree (λ store. HasDirectory store parent.0) }
        requires few { AtTree self.old tree (λ store. IsShallow store parent.0 name) }
        requires free { AtTree self.old tree (λ store. IsFree store parent.0 name) }
        ensures node { AtTree self.old tree (λ store. IfOk result (λ directory.
            free_from 1 (names_of store).directories ≡ Some directory.0)) }
        ensures answer { NamesToAt R.tells_view tree directory_refusal
            (λ v. made_directory v parent.0 name) (rig.new ≡ rig.old)
            (R.state rig.old) (R.state rig.new) self.old self.new result }
        ensures moments { PassesAt R.tells_view tree self.old (λ v. made_directory v parent.0 name)
            (R.state rig.old) (R.state rig.new) }
        ensures stored { UnlessDevice result (AreStored R.tells_view (R.state rig.new) self.new) }
        ensures acts { ActsAt R.tells_view 4 3 (R.state rig.old) (R.state rig.new)
            self.old self.new }
        ensures rises { MakesFour R.keeps_cuts (R.state rig.old) (R.state rig.new) result }
    {
        self.stores[tree as usize].make_dir(rig, parent, name)
    }

    /// Removes a directory of a tree other than its root, durably. ENOTEMPTY comes where something stands in it, and
    /// nothing changes then. After a fault of the device the trees are of no use.
    pub fn remove_dir<R: Rig>(
        &mut self,
        rig: &mut R,
        tree: u32,
        directory: DirNode,
    ) -> Result<(), StoreRefusal>
        requires ready { AreReady R.tells_view (R.state rig.old) self.old tree }
        requires below_root { directory.0 ≢ 0 }
        requires in_use { AtTree self.old tree (λ store. HasDirectory store directory.0) }
        ensures answer { NamesToAt R.tells_view tree (λ v. removal_refusal v directory.0)
            (λ v. removed_directory v directory.0) (rig.new ≡ rig.old)
            (R.state rig.old) (R.state rig.new) self.old self.new result }
        ensures moments { PassesAt R.tells_view tree self.old (λ v. removed_directory v directory.0)
            (R.state rig.old) (R.state rig.new) }
        ensures stored { UnlessDevice result (AreStored R.tells_view (R.state rig.new) self.new) }
        ensures acts { ActsAt R.tells_view 4 3 (R.state rig.old) (R.state rig.new)
            self.old self.new }
        ensures rises { MakesFour R.keeps_cuts (R.state rig.old) (R.state rig.new) result }
    {
        self.stores[tree as usize].remove_dir(rig, directory)
    }

    /// Removes a file of a tree, durably, with all that is kept of it. After a fault the trees are of no use.
    pub fn remove_file<R: Rig>(
        &mut self,
        rig: &mut R,
        tree: u32,
        file: FileNode,
    ) -> Result<(), DeviceFault>
        requires ready { AreReady R.tells_view (R.state rig.old) self.old tree }
        requires in_use { AtTree self.old tree (λ store. HasFile store file.0) }
        ensures done { DoneToAt R.tells_view tree (λ v. removed_file v file.0)
            (R.state rig.old) (R.state rig.new) self.old self.new result }
        ensures moments { PassesAt R.tells_view tree self.old (λ v. removed_file v file.0)
            (R.state rig.old) (R.state rig.new) }
        ensures stored { OnOk result (AreStored R.tells_view (R.state rig.new) self.new) }
        ensures acts { ActsAt R.tells_view 4 3 (R.state rig.old) (R.state rig.new)
            self.old self.new }
        ensures rises { MakesFour R.keeps_cuts (R.state rig.old) (R.state rig.new) result }
    {
        self.stores[tree as usize].remove_file(rig, file)
    }

    /// Gives a file of a tree another name, in this or another of its directories, durably. After a fault the trees are
    /// of no use.
    pub fn rename<R: Rig>(
        &mut self,
        rig: &mut R,
        tree: u32,
        file: FileNode,
        parent: DirNode,
        name: Name,
    ) -> Result<(), DeviceFault>
        requires ready { AreReady R.tells_view (R.state rig.old) self.old tree }
        requires file { AtTree self.old tree (λ store. HasFile store file.0) }
        requires in_use { AtTree self.old tree (λ store. HasDirectory store parent.0) }
        requires few { AtTree self.old tree (λ store. IsShallow store parent.0 name) }
        requires free { AtTree self.old tree (λ store. IsFree store parent.0 name) }
        ensures done { DoneToAt R.tells_view tree (λ v. renamed_file v file.0 parent.0 name)
            (R.state rig.old) (R.state rig.new) self.old self.new result }
        ensures moments { PassesAt R.tells_view tree self.old
            (λ v. renamed_file v file.0 parent.0 name) (R.state rig.old) (R.state rig.new) }
        ensures stored { OnOk result (AreStored R.tells_view (R.state rig.new) self.new) }
        ensures acts { ActsAt R.tells_view 4 3 (R.state rig.old) (R.state rig.new)
            self.old self.new }
        ensures rises { MakesFour R.keeps_cuts (R.state rig.old) (R.state rig.new) result }
    {
        self.stores[tree as usize].rename(rig, file, parent, name)
    }
}
