// The name of a file is removed, and its block numbers with it.
ghost use Rattle.std.specs.Prelude.{◌≡◌, ◌≢◌, ◌⊎◌, ◌+◌, ◌*◌, ◌≤◌, ℕ, List, length, replicate, Some, IfOk, OnOk, OnErr, MatchBool, if◌then◌else◌};
ghost use Rattle.apex_model.specs.Layout.{body_blocks, tree_blocks};
ghost use Rattle.apex_model.specs.Trees.{Name as NameOf};
ghost use Rattle.rig_core.specs.Bytes.{SameElsewhere};
ghost use Rattle.rig_core.specs.Causes.{Rose};
ghost use Rattle.rig_core.specs.Leaves.{Leaves, LeavesElsewhere, IsAllSettled};
ghost use Rattle.rig_core.specs.Outside.{Later, MakesAtMost};
ghost use Rattle.file_tree.specs.Entries.{slot, without_file};
ghost use Rattle.file_tree.specs.Records.{gone_file, IsMade};
ghost use Rattle.tree_region.specs.InStep.{InStep, HasRoom, IsTree, data_at, slots_long};
ghost use Rattle.tree_region.specs.Rows.{number_at, row_of};

use crate::changing::change_names;
use crate::forgetting::forget_row;
use crate::region::TreeRegion;
use apex_types::{DirNode, FileNode, RecordField, TreeRow};
use rig_core::{DeviceFault, Rig};

/// Removes the file of an entry from the names in the region, as `change_names` makes a change, and from what is kept
/// its block numbers too. Which blocks are used stays as it is. False comes exactly where the entry has no file, and
/// then nothing is written and nothing changes. At every moment a cut leaves the region standing for the tree before
/// or for the tree without the file, and nothing changes outside the two slots. At `Ok` the region is in step with what
/// is kept, and at true the rig's clock has risen by 4 with a record, and by 7 with a slot. `body` is room for a slot's
/// body, and `tail` has the zeros of a journal. A fault comes only where the rig's write faults rose; what is kept is
/// of no use for more changes then.
pub fn remove_file_name<R: Rig>(
    kept: &mut TreeRegion,
    rig: &mut R,
    row: &TreeRow,
    at: u64,
    body: &mut [u8],
    tail: &[u8],
    file: FileNode,
) -> Result<bool, DeviceFault>
    requires fits { at + 512 * tree_blocks row.now ≤ (R.state rig.old).size }
    requires body { length body.old ≡ 512 * body_blocks row.now }
    requires tail { tail.now ≡ replicate 32768 0 }
    requires in_step { InStep R.tells_view row.now at (R.state rig.old) kept.old }

    // At every moment the region stands for the tree before or for the tree without the file.
    ensures any_moment { (path : List NameOf) → slot kept.old.tree.files file.0 ≡ Some path → R.tells_view → Leaves
        (λ image. IsTree row.now at (data_at row.now at (R.state rig.old).view) kept.old.table.files.items kept.old.tree image
        ⊎ IsTree row.now at (data_at row.now at (R.state rig.old).view) kept.old.table.files.items (without_file kept.old.tree file.0 path) image)
        (R.state rig.old) (R.state rig.new) }
    ensures shown { (path : List NameOf) → slot kept.old.tree.files file.0 ≡ Some path → R.tells_view →
        IsTree row.now at (data_at row.now at (R.state rig.old).view) kept.old.table.files.items kept.old.tree (R.state rig.new).view
        ⊎ IsTree row.now at (data_at row.now at (R.state rig.old).view) kept.old.table.files.items (without_file kept.old.tree file.0 path) (R.state rig.new).view }
    ensures outside { LeavesElsewhere at (slots_long row.now) (R.state rig.old) (R.state rig.new) }
    ensures outside_view { R.tells_view → SameElsewhere at (slots_long row.now) (R.state rig.old).view (R.state rig.new).view }
    ensures long { length body.new ≡ length body.old }

    // From `Ok` on it stands for the tree that is kept, and the file has no block numbers.
    ensures in_step { OnOk result (InStep R.tells_view row.now at (R.state rig.new) kept.new) }
    ensures removed { IfOk result (IsMade (gone_file kept.old.tree file.0) kept.old.tree kept.new.tree) }
    ensures settled { IfOk result (λ made. MatchBool made (IsAllSettled (R.state rig.new)) (Unit {0})) }
    ensures row { IfOk result (λ made. MatchBool made ((k : ℕ) → number_at kept.new file.0 k ≡ 0) (kept.new.table ≡ kept.old.table)) }
    ensures others { (f : ℕ) → f ≢ file.0 → row_of kept.new f ≡ row_of kept.old f }
    ensures used { kept.new.table.used ≡ kept.old.table.used }

    ensures later { Later (R.state rig.old) (R.state rig.new) }
    ensures made { MakesAtMost 4 3 0 (R.state rig.old) (R.state rig.new) }
    ensures recorded { HasRoom kept.old → R.keeps_cuts → IfOk result (λ made. (R.state rig.new).clock ≡ (R.state rig.old).clock + (if made then 4 else 0)) }
    ensures committed { (HasRoom kept.old → ⊥) → R.keeps_cuts → IfOk result (λ made. (R.state rig.new).clock ≡ (R.state rig.old).clock + (if made then 7 else 0)) }
    ensures cause { OnErr result (Rose (R.state rig.old).write_faults (R.state rig.new).write_faults) }
{
    let change = RecordField {
        kind: 3,
        index: file.0,
        parent: DirNode(0),
        name: None,
    };
    match change_names(kept, rig, row, at, body, tail, &change) {
        Err(fault) => Err(fault),
        Ok(false) => Ok(false),
        Ok(true) => {
            forget_row(kept, file);
            Ok(true)
        }
    }
}
