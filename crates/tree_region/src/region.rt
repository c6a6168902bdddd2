// A tree's region as it is kept in memory.
ghost use Rattle.std.specs.Prelude.{◌≡◌, slice_index_or, []};

use crate::table::BlockTable;
use apex_types::FileNode;
use file_tree::Tree;
use gate_slots::Slots;
use meta_journal::Journal;

/// What is kept of a tree's region: which of its slots is newest, that one's version and journal, the names with
/// sizes and change counts, and the data blocks of each file.
#[derive(Drop)]
pub struct TreeRegion {
    pub slots: Slots,
    pub version: u8,
    pub journal: Journal,
    pub tree: Tree,
    pub table: BlockTable,
}

impl TreeRegion {
    /// The number of a file's block, by its place in the file: 0 for a block of zeros, and behind the last one.
    pub fn block(&self, file: FileNode, k: usize) -> u32
        ensures { result ≡ slice_index_or (slice_index_or self.now.table.files.items file.0 []) k 0 }
    {
        match self.table.files.get(file.0 as usize) {
            None => 0,
            Some(numbers) => numbers.at(k),
        }
    }
}
