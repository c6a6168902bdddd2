// A change of names is made in the region: as one record where it has room, and by a whole slot elsewhere.
ghost use Rattle.std.specs.Prelude.{◌≡◌, ◌⊎◌, ◌+◌, ◌*◌, ◌≤◌, length, replicate, Some, IsTrue, IfOk, OnOk, OnErr, MatchBool, if◌then◌else◌};
ghost use Rattle.apex_model.specs.Layout.{body_blocks, tree_blocks};
ghost use Rattle.rig_core.specs.Bytes.{SameElsewhere};
ghost use Rattle.rig_core.specs.Causes.{Rose};
ghost use Rattle.rig_core.specs.Leaves.{Leaves, LeavesElsewhere, IsAllSettled};
ghost use Rattle.rig_core.specs.Outside.{Later, MakesAtMost};
ghost use Rattle.meta_journal.specs.Journal.{room_of};
ghost use Rattle.file_tree.specs.Entries.{TreeValue};
ghost use Rattle.file_tree.specs.Records.{applied, IsMade};
ghost use Rattle.image_format.specs.Records.{is_record};
ghost use Rattle.tree_region.specs.InStep.{InStep, HasRoom, IsTree, data_at, slots_long};

use crate::committing::commit_slot;
use crate::recording::{has_room, record_change};
use crate::region::TreeRegion;
use apex_types::{RecordField, TreeRow};
use rig_core::{DeviceFault, Rig};

/// Makes a change of names in the names that are kept, and these the content of the region, by a whole slot with an
/// empty journal. False comes exactly where the change doesn't apply, and then nothing is written and nothing changes.
/// At every moment a cut leaves the region standing for the tree before or for the tree after the change, and nothing
/// changes outside the two slots. At `Ok` the region is in step with what is kept, and at true the rig's clock has
/// risen by 7. `body` is room for a slot's body, and `tail` has the zeros of a journal. A fault comes only where the
/// rig's write faults rose; what is kept is of no use for more changes then.
pub fn commit_change<R: Rig>(
    kept: &mut TreeRegion,
    rig: &mut R,
    row: &TreeRow,
    at: u64,
    body: &mut [u8],
    tail: &[u8],
    change: &RecordField,
) -> Result<bool, DeviceFault>
    requires fits { at + 512 * tree_blocks row.now ≤ (R.state rig.old).size }
    requires body { length body.old ≡ 512 * body_blocks row.now }
    requires tail { tail.now ≡ replicate 32768 0 }
    requires in_step { InStep R.tells_view row.now at (R.state rig.old) kept.old }

    // At every moment the region stands for the tree before or for the tree after the change.
    ensures any_moment { (after : TreeValue) → applied kept.old.tree change.now ≡ Some after → R.tells_view → Leaves
        (λ image. IsTree row.now at (data_at row.now at (R.state rig.old).view) kept.old.table.files.items kept.old.tree image
        ⊎ IsTree row.now at (data_at row.now at (R.state rig.old).view) kept.old.table.files.items after image)
        (R.state rig.old) (R.state rig.new) }
    ensures shown { (after : TreeValue) → applied kept.old.tree change.now ≡ Some after → R.tells_view →
        IsTree row.now at (data_at row.now at (R.state rig.old).view) kept.old.table.files.items kept.old.tree (R.state rig.new).view
        ⊎ IsTree row.now at (data_at row.now at (R.state rig.old).view) kept.old.table.files.items after (R.state rig.new).view }
    ensures outside { LeavesElsewhere at (slots_long row.now) (R.state rig.old) (R.state rig.new) }
    ensures outside_view { R.tells_view → SameElsewhere at (slots_long row.now) (R.state rig.old).view (R.state rig.new).view }
    ensures long { length body.new ≡ length body.old }

    // From `Ok` on it stands for the tree that is kept.
    ensures in_step { OnOk result (InStep R.tells_view row.now at (R.state rig.new) kept.new) }
    ensures applied { IfOk result (IsMade (applied kept.old.tree change.now) kept.old.tree kept.new.tree) }
    ensures settled { IfOk result (λ made. MatchBool made (IsAllSettled (R.state rig.new)) (Unit {0})) }
    ensures table { kept.new.table ≡ kept.old.table }
    ensures room { IfOk result (λ made. MatchBool made ((kept.new.version ≡ 2) × (room_of kept.new.journal ≡ 32)) (kept.new.journal ≡ kept.old.journal)) }

    ensures later { Later (R.state rig.old) (R.state rig.new) }
    ensures made { MakesAtMost 4 3 0 (R.state rig.old) (R.state rig.new) }
    ensures rises { R.keeps_cuts → IfOk result (λ made. (R.state rig.new).clock ≡ (R.state rig.old).clock + (if made then 7 else 0)) }
    ensures cause { OnErr result (Rose (R.state rig.old).write_faults (R.state rig.new).write_faults) }
{
    if !kept.tree.apply(change) {
        return Ok(false);
    }
    commit_slot(kept, rig, row, at, body, tail)?;
    Ok(true)
}

/// Makes a change of names in the region: as one record of the newest slot's journal where that has room, and by a
/// whole slot elsewhere. False comes exactly where the change doesn't apply, and then nothing is written and nothing
/// changes. At every moment a cut leaves the region standing for the tree before or for the tree after the change, and
/// nothing changes outside the two slots. At `Ok` the region is in step with what is kept, and at true the rig's clock
/// has risen by 4 with a record, and by 7 with a slot. `body` is room for a slot's body, and `tail` has the zeros of a
/// journal. A fault comes only where the rig's write faults rose; what is kept is of no use for more changes then.
pub fn change_names<R: Rig>(
    kept: &mut TreeRegion,
    rig: &mut R,
    row: &TreeRow,
    at: u64,
    body: &mut [u8],
    tail: &[u8],
    change: &RecordField,
) -> Result<bool, DeviceFault>
    requires fits { at + 512 * tree_blocks row.now ≤ (R.state rig.old).size }
    requires body { length body.old ≡ 512 * body_blocks row.now }
    requires tail { tail.now ≡ replicate 32768 0 }
    requires in_step { InStep R.tells_view row.now at (R.state rig.old) kept.old }
    requires spelled { IsTrue (is_record change.now) }

    // At every moment the region stands for the tree before or for the tree after the change.
    ensures any_moment { (after : TreeValue) → applied kept.old.tree change.now ≡ Some after → R.tells_view → Leaves
        (λ image. IsTree row.now at (data_at row.now at (R.state rig.old).view) kept.old.table.files.items kept.old.tree image
        ⊎ IsTree row.now at (data_at row.now at (R.state rig.old).view) kept.old.table.files.items after image)
        (R.state rig.old) (R.state rig.new) }
    ensures shown { (after : TreeValue) → applied kept.old.tree change.now ≡ Some after → R.tells_view →
        IsTree row.now at (data_at row.now at (R.state rig.old).view) kept.old.table.files.items kept.old.tree (R.state rig.new).view
        ⊎ IsTree row.now at (data_at row.now at (R.state rig.old).view) kept.old.table.files.items after (R.state rig.new).view }
    ensures outside { LeavesElsewhere at (slots_long row.now) (R.state rig.old) (R.state rig.new) }
    ensures outside_view { R.tells_view → SameElsewhere at (slots_long row.now) (R.state rig.old).view (R.state rig.new).view }
    ensures long { length body.new ≡ length body.old }

    // From `Ok` on it stands for the tree that is kept.
    ensures in_step { OnOk result (InStep R.tells_view row.now at (R.state rig.new) kept.new) }
    ensures applied { IfOk result (IsMade (applied kept.old.tree change.now) kept.old.tree kept.new.tree) }
    ensures settled { IfOk result (λ made. MatchBool made (IsAllSettled (R.state rig.new)) (Unit {0})) }
    ensures table { kept.new.table ≡ kept.old.table }

    ensures later { Later (R.state rig.old) (R.state rig.new) }
    ensures made { MakesAtMost 4 3 0 (R.state rig.old) (R.state rig.new) }
    ensures recorded { HasRoom kept.old → R.keeps_cuts → IfOk result (λ made. (R.state rig.new).clock ≡ (R.state rig.old).clock + (if made then 4 else 0)) }
    ensures committed { (HasRoom kept.old → ⊥) → R.keeps_cuts → IfOk result (λ made. (R.state rig.new).clock ≡ (R.state rig.old).clock + (if made then 7 else 0)) }
    ensures cause { OnErr result (Rose (R.state rig.old).write_faults (R.state rig.new).write_faults) }
{
    if has_room(kept) {
        record_change(kept, rig, row, at, change)
    } else {
        commit_change(kept, rig, row, at, body, tail, change)
    }
}
