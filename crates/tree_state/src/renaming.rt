// A file gets another name.
ghost use Rattle.std.specs.Prelude.{◌≡◌, ◌+◌, ◌*◌, ◌≤◌, List, length, None, Some, IsSome, IfSome, OnOk, OnErr};
ghost use Rattle.apex_model.specs.Layout.{tree_blocks};
ghost use Rattle.apex_model.specs.Trees.{Name as NameOf, file as file_node, standing_at, with_node, without_node};
ghost use Rattle.rig_core.specs.Causes.{Rose};
ghost use Rattle.file_tree.specs.Entries.{slot, way_of, path_in, with_file_at};
ghost use Rattle.tree_region.specs.InStep.{HasRoom};
ghost use Rattle.tree_state.specs.State.{IsState};
ghost use Rattle.tree_state.specs.Stored.{durable_tree, SameContents};
ghost use Rattle.tree_state.specs.Names.{ChangesTree, durable_file};

use crate::changing::change_tree;
use crate::state::TreeState;
use apex_types::{DirNode, FileNode, Name, RecordField, TreeRow};
use rig_core::{DeviceFault, Rig};

/// Gives a file another name, in this or another directory, durably. At every moment a cut leaves the region standing
/// for the tree before or for the tree with the file under its new name, and nothing changes outside its two slots.
/// At `Ok` the rig's clock has risen by 4 with a record, and by 7 with a slot. A fault comes only where the rig's
/// write faults rose; what is kept is of no use for more changes then.
pub fn rename<R: Rig>(
    state: &mut TreeState,
    rig: &mut R,
    row: &TreeRow,
    at: u64,
    file: FileNode,
    parent: DirNode,
    name: Name,
) -> Result<(), DeviceFault>
    requires fits { at + 512 * tree_blocks row.now ≤ (R.state rig.old).size }
    requires state { IsState R.tells_view row.now at (R.state rig.old) state.old }
    requires file { IsSome (slot state.old.kept.tree.files file.0) }
    requires in_use { IsSome (way_of state.old.kept.tree parent.0) }
    requires few { length (path_in state.old.kept.tree parent.0 name) ≤ 6 }
    requires free { standing_at state.old.kept.tree.nodes (path_in state.old.kept.tree parent.0 name) ≡ None }

    // The names, and what they are durably.
    ensures renamed { OnOk result (IfSome (slot state.old.kept.tree.files file.0) (λ path. state.new.kept.tree ≡ with_file_at state.old.kept.tree file.0 path (path_in state.old.kept.tree parent.0 name))) }
    ensures durable { (from : List NameOf) → slot state.old.kept.tree.files file.0 ≡ Some from → R.tells_view → OnOk result (durable_tree row.now at (R.state rig.new).view state.new
        ≡ with_node (without_node (durable_tree row.now at (R.state rig.old).view state.old) from) (path_in state.old.kept.tree parent.0 name) (file_node (durable_file row.now at (R.state rig.old).view state.old file))) }
    ensures step { (from : List NameOf) → slot state.old.kept.tree.files file.0 ≡ Some from → ChangesTree R.tells_view row.now at (durable_tree row.now at (R.state rig.old).view state.old)
        (with_node (without_node (durable_tree row.now at (R.state rig.old).view state.old) from) (path_in state.old.kept.tree parent.0 name) (file_node (durable_file row.now at (R.state rig.old).view state.old file)))
        (R.state rig.old) (R.state rig.new) }
    // The file that gets the name is the one that stood at the old one.
    ensures stands { (from : List NameOf) → slot state.old.kept.tree.files file.0 ≡ Some from
        → standing_at (durable_tree row.now at (R.state rig.old).view state.old) from ≡ Some (file_node (durable_file row.now at (R.state rig.old).view state.old file)) }

    // What is kept is in step again, and no content changed.
    ensures state { OnOk result (IsState R.tells_view row.now at (R.state rig.new) state.new) }
    ensures contents { R.tells_view → SameContents row.now at (R.state rig.old).view (R.state rig.new).view state.old state.new }
    ensures present { state.new.present ≡ state.old.present }
    ensures charges { state.new.charges ≡ state.old.charges }
    ensures recorded { HasRoom state.old.kept → R.keeps_cuts → OnOk result ((R.state rig.new).clock ≡ (R.state rig.old).clock + 4) }
    ensures committed { (HasRoom state.old.kept → ⊥) → R.keeps_cuts → OnOk result ((R.state rig.new).clock ≡ (R.state rig.old).clock + 7) }
    ensures cause { OnErr result (Rose (R.state rig.old).write_faults (R.state rig.new).write_faults) }
{
    state.kept.tree.stand();
    let change = RecordField {
        kind: 5,
        index: file.0,
        parent,
        name: Some(name),
    };
    change_tree(state, rig, row, at, &change)
}
