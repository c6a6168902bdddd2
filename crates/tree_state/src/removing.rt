// Files and directories are removed.
ghost use Rattle.std.specs.Prelude.{◌≡◌, ◌≢◌, ◌+◌, ◌-◌, ◌*◌, ◌≤◌, List, [], length, unwrap_or, slice_set, Some, IsSome, IfErr, IfSome, OnOk, OnErr};
ghost use Rattle.apex_model.specs.Layout.{tree_blocks};
ghost use Rattle.apex_model.specs.Trees.{Name as NameOf, entries_within, without_node};
ghost use Rattle.block_quota.specs.Quota.{with_charge};
ghost use Rattle.rig_core.specs.Causes.{Rose};
ghost use Rattle.file_tree.specs.Entries.{slot, way_of, without_directory, without_file};
ghost use Rattle.present_files.specs.Present.{content_of, never_changed};
ghost use Rattle.tree_region.specs.InStep.{HasRoom, data_at};
ghost use Rattle.tree_state.specs.State.{IsState};
ghost use Rattle.tree_state.specs.Stored.{durable_tree, SameContents};
ghost use Rattle.tree_state.specs.Names.{ChangesTree};
ghost use Rattle.tree_state.specs.NameRefusals.{IsRefusal, UnlessFault};

use crate::changing::change_tree;
use crate::refusal::StateRefusal;
use crate::releasing::give_up;
use crate::state::TreeState;
use apex_types::{DirNode, Errno, FileNode, RecordField, TreeRow};
use rig_core::{DeviceFault, Rig};
use tree_region::remove_file_name;

/// Removes a directory other than the root, durably; its entry is unused from then on. At every moment a cut leaves
/// the region standing for the tree before or for the tree without the directory, and nothing changes outside its two
/// slots. At `Ok` the rig's clock has risen by 4 with a record, and by 7 with a slot. ENOTEMPTY comes exactly where
/// something stands in it; nothing is written and nothing changes then. A fault of the device comes only where the
/// rig's write faults rose; what is kept is of no use for more changes then.
pub fn remove_dir<R: Rig>(
    state: &mut TreeState,
    rig: &mut R,
    row: &TreeRow,
    at: u64,
    directory: DirNode,
) -> Result<(), StateRefusal>
    requires fits { at + 512 * tree_blocks row.now ≤ (R.state rig.old).size }
    requires state { IsState R.tells_view row.now at (R.state rig.old) state.old }
    requires below_root { directory.0 ≢ 0 }
    requires in_use { IsSome (way_of state.old.kept.tree directory.0) }

    // The names, and what they are durably.
    ensures removed { OnOk result ((entries_within state.old.kept.tree.nodes (unwrap_or (way_of state.old.kept.tree directory.0) []) ≡ [])
        × (state.new.kept.tree ≡ without_directory state.old.kept.tree (directory.0 - 1) (unwrap_or (way_of state.old.kept.tree directory.0) []))) }
    ensures durable { R.tells_view → OnOk result (durable_tree row.now at (R.state rig.new).view state.new
        ≡ without_node (durable_tree row.now at (R.state rig.old).view state.old) (unwrap_or (way_of state.old.kept.tree directory.0) [])) }
    ensures step { ChangesTree R.tells_view row.now at (durable_tree row.now at (R.state rig.old).view state.old)
        (without_node (durable_tree row.now at (R.state rig.old).view state.old) (unwrap_or (way_of state.old.kept.tree directory.0) []))
        (R.state rig.old) (R.state rig.new) }
    ensures not_empty { IfErr result (IsRefusal Errno.Enotempty (1 ≤ length (entries_within state.old.kept.tree.nodes (unwrap_or (way_of state.old.kept.tree directory.0) [])))
        ((state.new ≡ state.old) × (rig.new ≡ rig.old)) (Rose (R.state rig.old).write_faults (R.state rig.new).write_faults)) }

    // What is kept is in step again, and no content changed.
    ensures state { UnlessFault result (IsState R.tells_view row.now at (R.state rig.new) state.new) }
    ensures contents { R.tells_view → SameContents row.now at (R.state rig.old).view (R.state rig.new).view state.old state.new }
    ensures present { state.new.present ≡ state.old.present }
    ensures charges { state.new.charges ≡ state.old.charges }
    ensures recorded { HasRoom state.old.kept → R.keeps_cuts → OnOk result ((R.state rig.new).clock ≡ (R.state rig.old).clock + 4) }
    ensures committed { (HasRoom state.old.kept → ⊥) → R.keeps_cuts → OnOk result ((R.state rig.new).clock ≡ (R.state rig.old).clock + 7) }
{
    if state.kept.tree.next_entry(directory, None).is_some() {
        return Err(StateRefusal::Refused(Errno::Enotempty));
    }
    let change = RecordField {
        kind: 4,
        index: directory.0 - 1,
        parent: DirNode(0),
        name: None,
    };
    match change_tree(state, rig, row, at, &change) {
        Err(_) => Err(StateRefusal::Device),
        Ok(()) => Ok(()),
    }
}

/// Removes a file, durably, with all that is present of it; its entry is unused from then on. At every moment a cut
/// leaves the region standing for the tree before or for the tree without the file, and nothing changes outside its
/// two slots. At `Ok` the rig's clock has risen by 4 with a record, and by 7 with a slot. A fault comes only where
/// the rig's write faults rose; what is kept is of no use for more changes then.
pub fn remove_file<R: Rig>(
    state: &mut TreeState,
    rig: &mut R,
    row: &TreeRow,
    at: u64,
    file: FileNode,
) -> Result<(), DeviceFault>
    requires fits { at + 512 * tree_blocks row.now ≤ (R.state rig.old).size }
    requires state { IsState R.tells_view row.now at (R.state rig.old) state.old }
    requires in_use { IsSome (slot state.old.kept.tree.files file.0) }

    // The names, and what they are durably.
    ensures removed { OnOk result (IfSome (slot state.old.kept.tree.files file.0) (λ path. state.new.kept.tree ≡ without_file state.old.kept.tree file.0 path)) }
    ensures durable { (path : List NameOf) → slot state.old.kept.tree.files file.0 ≡ Some path → R.tells_view → OnOk result (durable_tree row.now at (R.state rig.new).view state.new
        ≡ without_node (durable_tree row.now at (R.state rig.old).view state.old) path) }
    ensures step { (path : List NameOf) → slot state.old.kept.tree.files file.0 ≡ Some path → ChangesTree R.tells_view row.now at (durable_tree row.now at (R.state rig.old).view state.old)
        (without_node (durable_tree row.now at (R.state rig.old).view state.old) path)
        (R.state rig.old) (R.state rig.new) }

    // What is kept is in step again, and no other file's content changed.
    ensures state { OnOk result (IsState R.tells_view row.now at (R.state rig.new) state.new) }
    ensures contents { R.tells_view → (g : FileNode) → g.0 ≢ file.0 → content_of (data_at row.now at (R.state rig.new).view) state.new.present g ≡ content_of (data_at row.now at (R.state rig.old).view) state.old.present g }
    ensures sizes { OnOk result (state.new.present.sizes.items ≡ slice_set state.old.present.sizes.items file.0 never_changed) }
    ensures charges { OnOk result (state.new.charges ≡ with_charge state.old.charges file.0 0) }
    ensures recorded { HasRoom state.old.kept → R.keeps_cuts → OnOk result ((R.state rig.new).clock ≡ (R.state rig.old).clock + 4) }
    ensures committed { (HasRoom state.old.kept → ⊥) → R.keeps_cuts → OnOk result ((R.state rig.new).clock ≡ (R.state rig.old).clock + 7) }
    ensures cause { OnErr result (Rose (R.state rig.old).write_faults (R.state rig.new).write_faults) }
{
    state.kept.tree.stand();
    match remove_file_name(
        &mut state.kept,
        rig,
        row,
        at,
        &mut state.body,
        &state.tail,
        file,
    ) {
        Err(fault) => Err(fault),
        Ok(true) => {
            give_up(&mut state.present, row, file);
            state.charges.settle(file, 0);
            state.charges.total();
            Ok(())
        }
        Ok(false) => unreachable!(),
    }
}
