// Files and directories are made.
ghost use Rattle.std.specs.Prelude.{◌≡◌, ◌+◌, ◌-◌, ◌*◌, ◌≤◌, length, None, Some, IsSome, IfOk, IfErr};
ghost use Rattle.apex_model.specs.Handles.{free_from};
ghost use Rattle.apex_model.specs.Layout.{tree_blocks};
ghost use Rattle.apex_model.specs.Trees.{directory, file, standing_at, with_node};
ghost use Rattle.rig_core.specs.Causes.{Rose};
ghost use Rattle.file_tree.specs.Entries.{way_of, path_in, with_file, with_directory};
ghost use Rattle.tree_region.specs.InStep.{HasRoom};
ghost use Rattle.tree_state.specs.State.{IsState};
ghost use Rattle.tree_state.specs.Stored.{durable_tree, SameContents};
ghost use Rattle.tree_state.specs.Entries.{empty_file};
ghost use Rattle.tree_state.specs.Names.{ChangesTree};
ghost use Rattle.tree_state.specs.NameRefusals.{IsRefusal, UnlessFault};

use crate::changing::change_tree;
use crate::refusal::StateRefusal;
use crate::state::TreeState;
use apex_types::{DirNode, Errno, FileNode, Name, RecordField, TreeRow};
use rig_core::Rig;

/// Makes an empty file of this name at the least unused entry, durably. At every moment a cut leaves the region
/// standing for the tree before or for the tree with the file, and nothing changes outside its two slots. At `Ok` the
/// rig's clock has risen by 4 with a record, and by 7 with a slot. ENOSPC comes exactly where all entries for files
/// are used; nothing is written and nothing changes then. A fault of the device comes only where the rig's write
/// faults rose; what is kept is of no use for more changes then.
pub fn make_file<R: Rig>(
    state: &mut TreeState,
    rig: &mut R,
    row: &TreeRow,
    at: u64,
    parent: DirNode,
    name: Name,
) -> Result<FileNode, StateRefusal>
    requires fits { at + 512 * tree_blocks row.now ≤ (R.state rig.old).size }
    requires state { IsState R.tells_view row.now at (R.state rig.old) state.old }
    requires in_use { IsSome (way_of state.old.kept.tree parent.0) }
    requires few { length (path_in state.old.kept.tree parent.0 name) ≤ 6 }
    requires free { standing_at state.old.kept.tree.nodes (path_in state.old.kept.tree parent.0 name) ≡ None }

    // The names, and what they are durably.
    ensures made { IfOk result (λ f. (free_from 0 state.old.kept.tree.files ≡ Some f.0) × (state.new.kept.tree ≡ with_file state.old.kept.tree f.0 (path_in state.old.kept.tree parent.0 name))) }
    ensures durable { R.tells_view → IfOk result (λ f. durable_tree row.now at (R.state rig.new).view state.new
        ≡ with_node (durable_tree row.now at (R.state rig.old).view state.old) (path_in state.old.kept.tree parent.0 name) (file empty_file)) }
    ensures step { ChangesTree R.tells_view row.now at (durable_tree row.now at (R.state rig.old).view state.old)
        (with_node (durable_tree row.now at (R.state rig.old).view state.old) (path_in state.old.kept.tree parent.0 name) (file empty_file))
        (R.state rig.old) (R.state rig.new) }
    ensures full { IfErr result (IsRefusal Errno.Enospc (free_from 0 state.old.kept.tree.files ≡ None) ((state.new ≡ state.old) × (rig.new ≡ rig.old)) (Rose (R.state rig.old).write_faults (R.state rig.new).write_faults)) }

    // What is kept is in step again, and no content changed.
    ensures state { UnlessFault result (IsState R.tells_view row.now at (R.state rig.new) state.new) }
    ensures contents { R.tells_view → SameContents row.now at (R.state rig.old).view (R.state rig.new).view state.old state.new }
    ensures present { state.new.present ≡ state.old.present }
    ensures charges { state.new.charges ≡ state.old.charges }
    ensures recorded { HasRoom state.old.kept → R.keeps_cuts → IfOk result (λ f. (R.state rig.new).clock ≡ (R.state rig.old).clock + 4) }
    ensures committed { (HasRoom state.old.kept → ⊥) → R.keeps_cuts → IfOk result (λ f. (R.state rig.new).clock ≡ (R.state rig.old).clock + 7) }
{
    let Some(node) = state.kept.tree.free_file() else {
        return Err(StateRefusal::Refused(Errno::Enospc));
    };
    // nothing is stored of an unused entry
    let _nothing = state.kept.tree.stored(node);
    let change = RecordField {
        kind: 1,
        index: node.0,
        parent,
        name: Some(name),
    };
    match change_tree(state, rig, row, at, &change) {
        Err(_) => Err(StateRefusal::Device),
        Ok(()) => Ok(node),
    }
}

/// Makes a directory of this name at the least unused entry, durably. At every moment a cut leaves the region
/// standing for the tree before or for the tree with the directory, and nothing changes outside its two slots. At
/// `Ok` the rig's clock has risen by 4 with a record, and by 7 with a slot. ENOSPC comes exactly where all entries
/// for directories are used; nothing is written and nothing changes then. A fault of the device comes only where the
/// rig's write faults rose; what is kept is of no use for more changes then.
pub fn make_dir<R: Rig>(
    state: &mut TreeState,
    rig: &mut R,
    row: &TreeRow,
    at: u64,
    parent: DirNode,
    name: Name,
) -> Result<DirNode, StateRefusal>
    requires fits { at + 512 * tree_blocks row.now ≤ (R.state rig.old).size }
    requires state { IsState R.tells_view row.now at (R.state rig.old) state.old }
    requires in_use { IsSome (way_of state.old.kept.tree parent.0) }
    requires few { length (path_in state.old.kept.tree parent.0 name) ≤ 6 }
    requires free { standing_at state.old.kept.tree.nodes (path_in state.old.kept.tree parent.0 name) ≡ None }

    // The names, and what they are durably.
    ensures made { IfOk result (λ d. (free_from 1 state.old.kept.tree.directories ≡ Some d.0) × (state.new.kept.tree ≡ with_directory state.old.kept.tree (d.0 - 1) (path_in state.old.kept.tree parent.0 name))) }
    ensures durable { R.tells_view → IfOk result (λ d. durable_tree row.now at (R.state rig.new).view state.new
        ≡ with_node (durable_tree row.now at (R.state rig.old).view state.old) (path_in state.old.kept.tree parent.0 name) directory) }
    ensures step { ChangesTree R.tells_view row.now at (durable_tree row.now at (R.state rig.old).view state.old)
        (with_node (durable_tree row.now at (R.state rig.old).view state.old) (path_in state.old.kept.tree parent.0 name) directory)
        (R.state rig.old) (R.state rig.new) }
    ensures full { IfErr result (IsRefusal Errno.Enospc (free_from 1 state.old.kept.tree.directories ≡ None) ((state.new ≡ state.old) × (rig.new ≡ rig.old)) (Rose (R.state rig.old).write_faults (R.state rig.new).write_faults)) }

    // What is kept is in step again, and no content changed.
    ensures state { UnlessFault result (IsState R.tells_view row.now at (R.state rig.new) state.new) }
    ensures contents { R.tells_view → SameContents row.now at (R.state rig.old).view (R.state rig.new).view state.old state.new }
    ensures present { state.new.present ≡ state.old.present }
    ensures charges { state.new.charges ≡ state.old.charges }
    ensures recorded { HasRoom state.old.kept → R.keeps_cuts → IfOk result (λ d. (R.state rig.new).clock ≡ (R.state rig.old).clock + 4) }
    ensures committed { (HasRoom state.old.kept → ⊥) → R.keeps_cuts → IfOk result (λ d. (R.state rig.new).clock ≡ (R.state rig.old).clock + 7) }
{
    let Some(node) = state.kept.tree.free_directory() else {
        return Err(StateRefusal::Refused(Errno::Enospc));
    };
    let change = RecordField {
        kind: 2,
        index: node.0 - 1,
        parent,
        name: Some(name),
    };
    match change_tree(state, rig, row, at, &change) {
        Err(_) => Err(StateRefusal::Device),
        Ok(()) => Ok(node),
    }
}
