// The durable content of a file is replaced.
ghost use Rattle.std.specs.Prelude.{◌≡◌, ◌⊎◌, ◌+◌, ◌*◌, ◌≤◌, length, replicate, slice_set, IsSome, OnOk, OnErr};
ghost use Rattle.apex_model.specs.Layout.{body_blocks, tree_blocks};
ghost use Rattle.rig_core.specs.Bytes.{SameElsewhere};
ghost use Rattle.rig_core.specs.Causes.{Rose};
ghost use Rattle.rig_core.specs.Leaves.{Leaves, LeavesElsewhere, IsAllSettled};
ghost use Rattle.rig_core.specs.Outside.{Later, MakesAtMost};
ghost use Rattle.meta_journal.specs.Journal.{room_of};
ghost use Rattle.file_tree.specs.Entries.{slot, with_stored};
ghost use Rattle.tree_region.specs.GoodNumbers.{HasGoodNumbers};
ghost use Rattle.tree_region.specs.InStep.{InStep, IsTree, data_at, slots_long};
ghost use Rattle.tree_region.specs.Rows.{NameUsed};

use crate::committing::commit_slot;
use crate::numbers::BlockNumbers;
use crate::region::TreeRegion;
use apex_types::{FileNode, TreeRow};
use rig_core::{DeviceFault, Rig};

/// The size in bytes of a file's durable content, and its change count.
#[derive(Clone, Copy)]
pub struct SizeAndChanges {
    pub size: u32,
    pub changes: u32,
}

/// Makes a size of at most 1,048,576 bytes, a change count and the numbers of data blocks those of a file's durable
/// content, by a whole slot with an empty journal. At every moment a cut leaves the region standing for the tree before
/// or for the tree with the new content, and nothing changes outside the two slots. What was written to data blocks
/// before is made sure of first. At `Ok` the region is in step with what is kept. `numbers` has room for as many blocks
/// as the rows that are kept, `body` is room for a slot's body, and `tail` has the zeros of a journal. It makes 7 calls
/// of write and sync. A fault comes only where the rig's write faults rose; what is kept is of no use for more changes
/// then.
pub fn store_file<R: Rig>(
    kept: &mut TreeRegion,
    rig: &mut R,
    row: &TreeRow,
    at: u64,
    body: &mut [u8],
    tail: &[u8],
    file: FileNode,
    stored: SizeAndChanges,
    numbers: &BlockNumbers,
) -> Result<(), DeviceFault>
    requires fits { at + 512 * tree_blocks row.now ≤ (R.state rig.old).size }
    requires body { length body.old ≡ 512 * body_blocks row.now }
    requires tail { tail.now ≡ replicate 32768 0 }
    requires in_step { InStep R.tells_view row.now at (R.state rig.old) kept.old }
    requires file { IsSome (slot kept.old.tree.files file.0) }
    requires size { stored.size ≤ 1048576 }
    requires named { NameUsed row.now kept.old.table.used numbers.now }
    requires good { HasGoodNumbers row.now (with_stored kept.old.tree file.0 stored.size stored.changes) (slice_set kept.old.table.files.items file.0 numbers.now) }

    // At every moment the region stands for the tree before or for the tree with the new content.
    ensures any_moment { R.tells_view → Leaves
        (λ image. IsTree row.now at (data_at row.now at (R.state rig.old).view) kept.old.table.files.items kept.old.tree image
        ⊎ IsTree row.now at (data_at row.now at (R.state rig.old).view) (slice_set kept.old.table.files.items file.0 numbers.now) (with_stored kept.old.tree file.0 stored.size stored.changes) image)
        (R.state rig.old) (R.state rig.new) }
    ensures shown { R.tells_view →
        IsTree row.now at (data_at row.now at (R.state rig.old).view) kept.old.table.files.items kept.old.tree (R.state rig.new).view
        ⊎ IsTree row.now at (data_at row.now at (R.state rig.old).view) (slice_set kept.old.table.files.items file.0 numbers.now) (with_stored kept.old.tree file.0 stored.size stored.changes) (R.state rig.new).view }
    ensures outside { LeavesElsewhere at (slots_long row.now) (R.state rig.old) (R.state rig.new) }
    ensures outside_view { R.tells_view → SameElsewhere at (slots_long row.now) (R.state rig.old).view (R.state rig.new).view }
    ensures long { length body.new ≡ length body.old }

    // From `Ok` on it stands for the tree that is kept.
    ensures in_step { OnOk result (InStep R.tells_view row.now at (R.state rig.new) kept.new) }
    ensures tree { kept.new.tree ≡ with_stored kept.old.tree file.0 stored.size stored.changes }
    ensures files { kept.new.table.files.items ≡ slice_set kept.old.table.files.items file.0 numbers.now }
    ensures used { kept.new.table.used ≡ kept.old.table.used }
    ensures room { OnOk result ((kept.new.version ≡ 2) × (room_of kept.new.journal ≡ 32)) }
    ensures settled { OnOk result (IsAllSettled (R.state rig.new)) }

    ensures later { Later (R.state rig.old) (R.state rig.new) }
    ensures made { MakesAtMost 4 3 0 (R.state rig.old) (R.state rig.new) }
    ensures rises { R.keeps_cuts → OnOk result ((R.state rig.new).clock ≡ (R.state rig.old).clock + 7) }
    ensures cause { OnErr result (Rose (R.state rig.old).write_faults (R.state rig.new).write_faults) }
{
    kept.tree.set_stored(file, stored.size, stored.changes);
    kept.table.files[file.0 as usize].copy_from(numbers);
    commit_slot(kept, rig, row, at, body, tail)
}
