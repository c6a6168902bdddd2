// A change of names becomes a record in the journal of the newest slot.
ghost use Rattle.std.specs.Prelude.{◌≡◌, ◌⊎◌, ◌↔◌, ◌+◌, ◌*◌, ◌≤◌, Some, IsTrue, IfOk, OnOk, OnErr, MatchBool, if◌then◌else◌};
ghost use Rattle.apex_model.specs.Layout.{tree_blocks};
ghost use Rattle.rig_core.specs.Bytes.{SameElsewhere};
ghost use Rattle.rig_core.specs.Causes.{Rose};
ghost use Rattle.rig_core.specs.Leaves.{Leaves, LeavesElsewhere, IsAllSettled};
ghost use Rattle.rig_core.specs.Outside.{Later, MakesAtMost};
ghost use Rattle.meta_journal.specs.Journal.{first_of, held_of, room_of};
ghost use Rattle.meta_journal.specs.Leading.{gate_of};
ghost use Rattle.file_tree.specs.Entries.{TreeValue};
ghost use Rattle.file_tree.specs.Records.{applied, IsMade};
ghost use Rattle.image_format.specs.Records.{is_record};
ghost use Rattle.tree_region.specs.InStep.{InStep, HasRoom, IsTree, data_at};

use crate::region::TreeRegion;
use apex_types::{RecordField, TreeRow};
use image_format::put_record;
use rig_core::{DeviceFault, Rig};

/// Whether a change of names can become one more record: the newest slot has the version that is written, and its
/// journal has room.
pub fn has_room(kept: &TreeRegion) -> bool
    ensures { IsTrue result ↔ HasRoom kept.now }
{
    kept.version == 2 && kept.journal.room() > 0
}

/// Makes a change of names in the names that are kept, and adds it to the newest slot's journal as one record. False
/// comes exactly where the change doesn't apply, and then nothing is written and nothing changes. At every moment a
/// cut leaves the region standing for the tree before or for the tree after the change, and nothing changes outside
/// the record's two blocks. At `Ok` the region is in step with what is kept, and at true the rig's clock has risen
/// by 4. A fault comes only where the rig's write faults rose; what is kept is of no use for more changes then.
pub fn record_change<R: Rig>(
    kept: &mut TreeRegion,
    rig: &mut R,
    row: &TreeRow,
    at: u64,
    change: &RecordField,
) -> Result<bool, DeviceFault>
    requires fits { at + 512 * tree_blocks row.now ≤ (R.state rig.old).size }
    requires in_step { InStep R.tells_view row.now at (R.state rig.old) kept.old }
    requires room { HasRoom kept.old }
    requires spelled { IsTrue (is_record change.now) }

    // At every moment the region stands for the tree before or for the tree after the change.
    ensures any_moment { (after : TreeValue) → applied kept.old.tree change.now ≡ Some after → R.tells_view → Leaves
        (λ image. IsTree row.now at (data_at row.now at (R.state rig.old).view) kept.old.table.files.items kept.old.tree image
        ⊎ IsTree row.now at (data_at row.now at (R.state rig.old).view) kept.old.table.files.items after image)
        (R.state rig.old) (R.state rig.new) }
    ensures shown { (after : TreeValue) → applied kept.old.tree change.now ≡ Some after → R.tells_view →
        IsTree row.now at (data_at row.now at (R.state rig.old).view) kept.old.table.files.items kept.old.tree (R.state rig.new).view
        ⊎ IsTree row.now at (data_at row.now at (R.state rig.old).view) kept.old.table.files.items after (R.state rig.new).view }
    ensures outside { LeavesElsewhere (gate_of (first_of kept.old.journal) (held_of kept.old.journal)) 1024 (R.state rig.old) (R.state rig.new) }
    ensures outside_view { R.tells_view → SameElsewhere (gate_of (first_of kept.old.journal) (held_of kept.old.journal)) 1024 (R.state rig.old).view (R.state rig.new).view }

    // From `Ok` on it stands for the tree that is kept.
    ensures in_step { OnOk result (InStep R.tells_view row.now at (R.state rig.new) kept.new) }
    ensures applied { IfOk result (IsMade (applied kept.old.tree change.now) kept.old.tree kept.new.tree) }
    ensures settled { IfOk result (λ made. MatchBool made (IsAllSettled (R.state rig.new)) (Unit {0})) }
    ensures table { kept.new.table ≡ kept.old.table }
    ensures room { IfOk result (λ made. room_of kept.new.journal + (if made then 1 else 0) ≡ room_of kept.old.journal) }

    ensures later { Later (R.state rig.old) (R.state rig.new) }
    ensures made { MakesAtMost 2 2 0 (R.state rig.old) (R.state rig.new) }
    ensures rises { R.keeps_cuts → IfOk result (λ made. (R.state rig.new).clock ≡ (R.state rig.old).clock + (if made then 4 else 0)) }
    ensures cause { OnErr result (Rose (R.state rig.old).write_faults (R.state rig.new).write_faults) }
{
    if !kept.tree.apply(change) {
        return Ok(false);
    }
    let mut bytes = [0; 512];
    put_record(&mut bytes, change);
    kept.journal.append(rig, &bytes)?;
    Ok(true)
}
