// The names that are kept become the content of their region, by a whole slot.
ghost use Rattle.std.specs.Prelude.{◌≡◌, ◌⊎◌, ◌+◌, ◌*◌, ◌^◌, ◌<◌, ◌≤◌, length, replicate, Some, OnOk, OnErr};
ghost use Rattle.apex_model.specs.Durable.{StoredFile};
ghost use Rattle.apex_model.specs.Image.{tree_of_region};
ghost use Rattle.apex_model.specs.Layout.{body_blocks, tree_blocks};
ghost use Rattle.apex_model.specs.Trees.{Tree as TreeOf};
ghost use Rattle.rig_core.specs.Bytes.{SameElsewhere};
ghost use Rattle.rig_core.specs.Causes.{Rose};
ghost use Rattle.rig_core.specs.Leaves.{Leaves, LeavesElsewhere, IsAllSettled};
ghost use Rattle.rig_core.specs.Outside.{Later, MakesAtMost};
ghost use Rattle.meta_journal.specs.Journal.{room_of};
ghost use Rattle.tree_region.specs.Region.{region_at, journal_of};
ghost use Rattle.tree_region.specs.InStep.{InStep, IsTree, data_at, slots_long};
ghost use Rattle.tree_region.specs.Ready.{IsReady};

use crate::region::TreeRegion;
use crate::spelling::put_slot_body;
use apex_types::TreeRow;
use meta_journal::Journal;
use rig_core::{DeviceFault, Rig};

/// The first byte of the journal of a slot.
fn journal_start(row: &TreeRow, at: u64, slot: u8) -> u64
    requires { at + 512 * tree_blocks row.now < 2 ^ 64 }
    ensures { result ≡ journal_of row.now at slot }
{
    let entries = u64::from(row.files) + u64::from(row.directories);
    let body = (64 + 128 * entries + 4 * u64::from(row.quota)).div_ceil(512);
    let first = at + 512 * (1 + body);
    if slot == 0 {
        first
    } else {
        first + 512 * (65 + body)
    }
}

/// Makes the names, sizes, change counts and block numbers that are kept the content of the region, by a whole slot
/// with an empty journal. At every moment a cut leaves the region standing for the tree before or for this one, and
/// nothing changes outside the two slots. What was written to data blocks before is made sure of first. `body` is room
/// for a slot's body, and `tail` has the zeros of a journal. It makes 7 calls of write and sync. A fault comes only
/// where the rig's write faults rose; what is kept is of no use for more changes then.
pub fn commit_slot<R: Rig>(
    kept: &mut TreeRegion,
    rig: &mut R,
    row: &TreeRow,
    at: u64,
    body: &mut [u8],
    tail: &[u8],
) -> Result<(), DeviceFault>
    requires fits { at + 512 * tree_blocks row.now ≤ (R.state rig.old).size }
    requires body { length body.old ≡ 512 * body_blocks row.now }
    requires tail { tail.now ≡ replicate 32768 0 }
    requires ready { IsReady R.tells_view row.now at (R.state rig.old) kept.old }

    // At every moment the region stands for the tree before or for the one that is kept.
    ensures any_moment { (before : TreeOf StoredFile) → R.tells_view → tree_of_region row.now (region_at row.now at (R.state rig.old).view) ≡ Some before → Leaves
        (λ image. (tree_of_region row.now (region_at row.now at image) ≡ Some before)
        ⊎ IsTree row.now at (data_at row.now at (R.state rig.old).view) kept.old.table.files.items kept.old.tree image)
        (R.state rig.old) (R.state rig.new) }
    ensures shown { (before : TreeOf StoredFile) → R.tells_view → tree_of_region row.now (region_at row.now at (R.state rig.old).view) ≡ Some before →
        (tree_of_region row.now (region_at row.now at (R.state rig.new).view) ≡ Some before)
        ⊎ IsTree row.now at (data_at row.now at (R.state rig.old).view) kept.old.table.files.items kept.old.tree (R.state rig.new).view }
    ensures outside { LeavesElsewhere at (slots_long row.now) (R.state rig.old) (R.state rig.new) }
    ensures outside_view { R.tells_view → SameElsewhere at (slots_long row.now) (R.state rig.old).view (R.state rig.new).view }
    ensures long { length body.new ≡ length body.old }

    // From `Ok` on the region is in step with what is kept.
    ensures in_step { OnOk result (InStep R.tells_view row.now at (R.state rig.new) kept.new) }
    ensures tree { kept.new.tree ≡ kept.old.tree }
    ensures table { kept.new.table ≡ kept.old.table }
    ensures room { OnOk result ((kept.new.version ≡ 2) × (room_of kept.new.journal ≡ 32)) }
    ensures settled { OnOk result (IsAllSettled (R.state rig.new)) }

    ensures later { Later (R.state rig.old) (R.state rig.new) }
    ensures made { MakesAtMost 4 3 0 (R.state rig.old) (R.state rig.new) }
    ensures rises { R.keeps_cuts → OnOk result ((R.state rig.new).clock ≡ (R.state rig.old).clock + 7) }
    ensures cause { OnErr result (Rose (R.state rig.old).write_faults (R.state rig.new).write_faults) }
{
    put_slot_body(row, &kept.tree, &kept.table, body);
    kept.slots.commit(rig, body, tail)?;
    kept.version = 2;
    kept.journal = Journal::fresh(journal_start(row, at, kept.slots.newest()));
    Ok(())
}
