// The bytes of a present block go to a data block that no durable content has.
ghost use Rattle.std.specs.Prelude.{◌≡◌, ◌≢◌, ℕ, ◌+◌, ◌*◌, ◌<◌, ◌≤◌, false, [], length, slice_index_or, OnOk, OnErr};
ghost use Rattle.apex_model.specs.Image.{data_block, tree_of_region};
ghost use Rattle.apex_model.specs.Layout.{tree_blocks};
ghost use Rattle.tree_region.specs.OwnedRows.{AreApart, AreNamedUsed, AreOthers, named_count, fresh_count, is_fresh, number_at, with_number};
ghost use Rattle.rig_core.specs.Bytes.{SameElsewhere};
ghost use Rattle.rig_core.specs.Causes.{Rose};
ghost use Rattle.rig_core.specs.Leaves.{LeavesElsewhere};
ghost use Rattle.rig_core.specs.Outside.{Later, MakesAtMost};
ghost use Rattle.tree_region.specs.InStep.{InStep, block_place, data_at};
ghost use Rattle.tree_region.specs.Region.{region_at};
ghost use Rattle.present_files.specs.Durable.{KeepsDurable, KeepsTree};

use apex_types::{FileNode, TreeRow};
use rig_core::{DeviceFault, Rig};
use tree_region::{BlockNumbers, TreeRegion, own_block, write_block};

/// Writes the bytes of a present block of a file, by its place in the file, to a data block of its own: a fresh place
/// keeps its number, and another place gets that of a free block. Room is wanted only where the place isn't fresh. All
/// that is durable stays, so at every moment the region stands for the same tree, and no sync is made. No data block
/// changes but the one that is written, which no durable content has, and no other place of the present one. A fault
/// comes only where the rig's write faults rose; the place has its number then, and the bytes of that block are any.
pub fn write_present<R: Rig>(
    kept: &mut TreeRegion,
    present: &mut [BlockNumbers],
    rig: &mut R,
    row: &TreeRow,
    at: u64,
    file: FileNode,
    k: usize,
    bytes: &[u8],
) -> Result<(), DeviceFault>
    requires fits { at + 512 * tree_blocks row.now ≤ (R.state rig.old).size }
    requires in_step { InStep R.tells_view row.now at (R.state rig.old) kept.old }
    requires used { AreNamedUsed kept.old.table.used present.old }
    requires apart { AreApart kept.old.table.files.items present.old }
    requires room { is_fresh kept.old.table.files.items present.old file.0 k ≡ false
        → named_count kept.old.table.files.items + fresh_count kept.old.table.files.items present.old < 2 * row.now.quota }
    requires file { file.0 < length present.old }
    requires durable_file { file.0 < row.now.files }
    requires place { k < length (slice_index_or present.old file.0 []) }
    requires long { length bytes.now ≡ 512 }
    ensures any_moment { KeepsTree row.now at (R.state rig.old) (R.state rig.new) }
    ensures tree { R.tells_view → tree_of_region row.now (region_at row.now at (R.state rig.new).view) ≡ tree_of_region row.now (region_at row.now at (R.state rig.old).view) }
    ensures in_step { InStep R.tells_view row.now at (R.state rig.new) kept.new }
    ensures durable { KeepsDurable kept.old kept.new }
    ensures placed { present.new ≡ with_number present.old file.0 k (number_at present.new file.0 k) }
    ensures first { 1 ≤ number_at present.new file.0 k }
    ensures last { number_at present.new file.0 k ≤ 2 * row.now.quota }
    ensures not_durable { AreOthers (number_at present.new file.0 k) kept.old.table.files.items }
    ensures once { (g j : ℕ) → number_at present.new g j ≡ number_at present.new file.0 k → (g ≡ file.0) × (j ≡ k) }
    ensures apart { AreApart kept.old.table.files.items present.new }
    ensures used { AreNamedUsed kept.new.table.used present.new }
    ensures written { R.tells_view → OnOk result (data_block (data_at row.now at (R.state rig.new).view) (number_at present.new file.0 k) ≡ bytes.now) }
    ensures others { R.tells_view → (n : ℕ) → n ≢ number_at present.new file.0 k
        → data_block (data_at row.now at (R.state rig.new).view) n ≡ data_block (data_at row.now at (R.state rig.old).view) n }
    ensures outside { LeavesElsewhere (block_place row.now at (number_at present.new file.0 k)) 512 (R.state rig.old) (R.state rig.new) }
    ensures outside_view { R.tells_view → SameElsewhere (block_place row.now at (number_at present.new file.0 k)) 512 (R.state rig.old).view (R.state rig.new).view }
    ensures later { Later (R.state rig.old) (R.state rig.new) }
    ensures made { MakesAtMost 1 0 0 (R.state rig.old) (R.state rig.new) }
    ensures cause { OnErr result (Rose (R.state rig.old).write_faults (R.state rig.new).write_faults) }
{
    let number = own_block(&mut kept.table, present, file, k);
    write_block(kept, rig, row, at, number, bytes)
}
