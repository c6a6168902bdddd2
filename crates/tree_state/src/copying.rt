// What is durable of each file becomes what is present.
ghost use Rattle.std.specs.Prelude.{◌≡◌, IfOk};
ghost use Rattle.tree_state.specs.Mounted.{AreStoredSizes};

use apex_types::{FileNode, OutOfMemory};
use file_tree::Tree;
use present_files::PresentSize;
use std::alloc::Global;
use tree_region::BlockNumbers;

/// The durable sizes and change counts of so many files.
pub(crate) fn stored_sizes(
    alloc: Global,
    tree: &Tree,
    files: u8,
) -> Result<Vec<PresentSize>, OutOfMemory>
    ensures { IfOk result (λ sizes. AreStoredSizes tree.now files sizes.items) }
{
    let mut sizes = Vec::with_capacity(alloc, files as usize)?;
    for place in 0..files {
        let (size, changes) = tree.stored(FileNode(place));
        sizes.push(PresentSize { size, changes })?;
    }
    Ok(sizes)
}

/// The same numbers once more.
fn copy_of(alloc: Global, numbers: &BlockNumbers) -> Result<BlockNumbers, OutOfMemory>
    ensures { IfOk result (λ copy. copy ≡ numbers.now) }
{
    let mut copy = BlockNumbers::with_room(alloc, &[], numbers.len())?;
    copy.copy_from(numbers);
    Ok(copy)
}

/// The same rows of numbers once more.
pub(crate) fn copy_rows(
    alloc: Global,
    rows: &[BlockNumbers],
) -> Result<Vec<BlockNumbers>, OutOfMemory>
    ensures { IfOk result (λ copies. copies.items ≡ rows.now) }
{
    let mut copies = Vec::with_capacity(alloc, rows.len())?;
    for row in rows {
        copies.push(copy_of(alloc, row)?)?;
    }
    Ok(copies)
}
