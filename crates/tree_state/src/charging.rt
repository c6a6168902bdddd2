// Each file is charged for the blocks of its durable content.
ghost use Rattle.std.specs.Prelude.{◌≡◌, length, IfOk};
ghost use Rattle.tree_region.specs.GoodNumbers.{HasGoodNumbers};
ghost use Rattle.tree_state.specs.Mounted.{AreStoredCharges};

use apex_types::{FileNode, OutOfMemory, TreeRow};
use block_quota::Charges;
use std::alloc::Global;
use tree_region::TreeRegion;

/// The charges of files that are charged for their durable contents alone, which the quota has room for.
pub(crate) fn stored_charges(
    alloc: Global,
    row: &TreeRow,
    kept: &TreeRegion,
) -> Result<Charges, OutOfMemory>
    requires good { HasGoodNumbers row.now kept.now.tree kept.now.table.files.items }
    requires table { length kept.now.table.files.items ≡ row.now.files }
    ensures { IfOk result (AreStoredCharges row.now kept.now.tree row.now.files) }
{
    let mut charges = Charges::new(alloc, row.quota, row.files)?;
    for place in 0..row.files {
        let file = FileNode(place);
        let (size, _changes) = kept.tree.stored(file);
        if !charges.raise(file, size.div_ceil(512)) {
            unreachable!();
        }
    }
    Ok(charges)
}
