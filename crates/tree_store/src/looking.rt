// What is in memory of a stored tree.
ghost use Rattle.std.specs.Prelude.{◌≡◌};
ghost use Rattle.store_model.specs.Stores.{total};

use crate::store::TreeStore;
use apex_types::{FileNode, TreeRow};
use file_tree::Tree;

impl TreeStore {
    ghost use Rattle.tree_store.specs.Stored.{row_of, names_of, size_at, changes_at, charges_of, buffers_of};

    /// The tree's row of the table.
    pub fn row(&self) -> &TreeRow
        ensures { result.now ≡ row_of self.now }
    {
        &self.row
    }

    /// The names, with the durable size and change count of each file.
    pub fn tree(&self) -> &Tree
        ensures { result.now ≡ names_of self.now }
    {
        &self.state.kept.tree
    }

    /// How many bytes a file has at present; where the entry isn't used, or there is none, 0.
    pub fn size(&self, file: FileNode) -> u32
        ensures { result ≡ size_at self.now file.0 }
    {
        match self.state.present.sizes.get(file.0 as usize) {
            Some(present) => present.size,
            None => 0,
        }
    }

    /// How often a file was changed; where the entry isn't used, or there is none, 0.
    pub fn changes(&self, file: FileNode) -> u32
        ensures { result ≡ changes_at self.now file.0 }
    {
        match self.state.present.sizes.get(file.0 as usize) {
            Some(present) => present.changes,
            None => 0,
        }
    }

    /// The blocks that all files together are charged for.
    pub fn charge(&self) -> u32
        ensures { result ≡ total (charges_of self.now) }
    {
        self.state.charges.total()
    }

    /// How many blocks may be unwritten: there are as many buffers.
    pub fn buffers(&self) -> u32
        ensures { result ≡ buffers_of self.now }
    {
        u32::from(self.row.dirty)
    }
}
