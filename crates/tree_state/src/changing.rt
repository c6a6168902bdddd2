// A change of names that leaves the contents of files alone.
ghost use Rattle.std.specs.Prelude.{◌≡◌, ◌+◌, ◌*◌, ◌≤◌, Some, IsTrue, IsSome, OnOk, OnErr};
ghost use Rattle.apex_model.specs.Layout.{tree_blocks};
ghost use Rattle.rig_core.specs.Causes.{Rose};
ghost use Rattle.file_tree.specs.Entries.{TreeValue};
ghost use Rattle.file_tree.specs.Records.{applied};
ghost use Rattle.image_format.specs.Records.{is_record};
ghost use Rattle.tree_region.specs.InStep.{HasRoom, data_at};
ghost use Rattle.tree_region.specs.Region.{tree_over};
ghost use Rattle.tree_state.specs.State.{IsState};
ghost use Rattle.tree_state.specs.Stored.{durable_tree};
ghost use Rattle.tree_state.specs.Entries.{KeepsEntries};
ghost use Rattle.tree_state.specs.Names.{ChangesTree};

use crate::state::TreeState;
use apex_types::{RecordField, TreeRow};
use rig_core::{DeviceFault, Rig};
use tree_region::change_names;

/// Makes a change of names that applies, and that leaves of each file's entry what is stored of it. At every moment a
/// cut leaves the region standing for the tree before or for the tree after the change. A fault comes only where the
/// rig's write faults rose; what is kept is of no use for more changes then.
pub(crate) fn change_tree<R: Rig>(
    state: &mut TreeState,
    rig: &mut R,
    row: &TreeRow,
    at: u64,
    change: &RecordField,
) -> Result<(), DeviceFault>
    requires fits { at + 512 * tree_blocks row.now ≤ (R.state rig.old).size }
    requires state { IsState R.tells_view row.now at (R.state rig.old) state.old }
    requires spelled { IsTrue (is_record change.now) }
    requires applies { IsSome (applied state.old.kept.tree change.now) }
    requires keeps { (after : TreeValue) → applied state.old.kept.tree change.now ≡ Some after → KeepsEntries state.old.kept.tree after }
    ensures applied { OnOk result (applied state.old.kept.tree change.now ≡ Some state.new.kept.tree) }
    ensures state { OnOk result (IsState R.tells_view row.now at (R.state rig.new) state.new) }
    ensures step { (after : TreeValue) → applied state.old.kept.tree change.now ≡ Some after → ChangesTree R.tells_view row.now at
        (durable_tree row.now at (R.state rig.old).view state.old)
        (tree_over (data_at row.now at (R.state rig.old).view) after state.old.kept.table.files.items)
        (R.state rig.old) (R.state rig.new) }
    ensures blocks { R.tells_view → data_at row.now at (R.state rig.new).view ≡ data_at row.now at (R.state rig.old).view }
    ensures table { state.new.kept.table ≡ state.old.kept.table }
    ensures present { state.new.present ≡ state.old.present }
    ensures charges { state.new.charges ≡ state.old.charges }
    ensures recorded { HasRoom state.old.kept → R.keeps_cuts → OnOk result ((R.state rig.new).clock ≡ (R.state rig.old).clock + 4) }
    ensures committed { (HasRoom state.old.kept → ⊥) → R.keeps_cuts → OnOk result ((R.state rig.new).clock ≡ (R.state rig.old).clock + 7) }
    ensures cause { OnErr result (Rose (R.state rig.old).write_faults (R.state rig.new).write_faults) }
{
    match change_names(
        &mut state.kept,
        rig,
        row,
        at,
        &mut state.body,
        &state.tail,
        change,
    ) {
        Err(fault) => Err(fault),
        Ok(true) => Ok(()),
        Ok(false) => unreachable!(),
    }
}
