// The present content of a file becomes its durable one, once none of it is in a buffer.
ghost use Rattle.std.specs.Prelude.{◌≡◌, ◌⊎◌, ℕ, ◌+◌, ◌*◌, ◌<◌, ◌≤◌, List, length, Some, None, IsSome, OnOk, OnErr};
ghost use Rattle.apex_model.specs.Files.{blocks_of};
ghost use Rattle.apex_model.specs.Layout.{tree_blocks};
ghost use Rattle.apex_model.specs.Trees.{Name};
ghost use Rattle.block_pool.specs.Buffers.{node_of};
ghost use Rattle.block_quota.specs.Quota.{with_charge};
ghost use Rattle.file_tree.specs.Entries.{slot, with_stored};
ghost use Rattle.present_files.specs.Present.{size_of, changes_of};
ghost use Rattle.rig_core.specs.Bytes.{SameElsewhere};
ghost use Rattle.rig_core.specs.Causes.{Rose};
ghost use Rattle.rig_core.specs.Leaves.{Leaves, LeavesElsewhere, IsAllSettled};
ghost use Rattle.rig_core.specs.Outside.{Later, MakesAtMost};
ghost use Rattle.tree_region.specs.InStep.{slots_long};
ghost use Rattle.tree_state.specs.State.{IsState};
ghost use Rattle.tree_state.specs.Stored.{IsTreeOf, SameContents, durable_tree, synchronised_tree};

use crate::state::TreeState;
use apex_types::{FileNode, TreeRow};
use present_files::Present;
use rig_core::{DeviceFault, Rig};
use tree_region::{SizeAndChanges, store_file};

/// The present size and change count of a file.
fn present_size(present: &Present, file: FileNode) -> SizeAndChanges
    requires { file.0 < length present.now.sizes.items }
    ensures size { result.size ≡ size_of present.now file }
    ensures changes { result.changes ≡ changes_of present.now file }
{
    let known = present.sizes[file.0 as usize];
    SizeAndChanges {
        size: known.size,
        changes: known.changes,
    }
}

/// Makes the present content of a file, none of which is in a buffer, its durable one, with its present change count,
/// and charges the file for its blocks. At every moment a cut leaves the region standing for the durable tree before or
/// for the synchronised one, and nothing changes outside the two slots. It makes 7 calls of write and sync. A fault
/// comes only where the rig's write faults rose; what is kept is of no use for more changes then.
pub fn store_present<R: Rig>(
    state: &mut TreeState,
    rig: &mut R,
    row: &TreeRow,
    at: u64,
    file: FileNode,
) -> Result<(), DeviceFault>
    requires fits { at + 512 * tree_blocks row.now ≤ (R.state rig.old).size }
    requires state { IsState R.tells_view row.now at (R.state rig.old) state.old }
    requires in_use { IsSome (slot state.old.kept.tree.files file.0) }
    requires none { (k : ℕ) → node_of state.old.present.pool file k ≡ None }

    // At every moment the region stands for the durable tree before or for the synchronised one.
    ensures any_moment { (path : List Name) → slot state.old.kept.tree.files file.0 ≡ Some path → R.tells_view → Leaves
        (λ image. IsTreeOf row.now at (durable_tree row.now at (R.state rig.old).view state.old) image
        ⊎ IsTreeOf row.now at (synchronised_tree row.now at (R.state rig.old).view state.old file path) image)
        (R.state rig.old) (R.state rig.new) }
    ensures shown { (path : List Name) → slot state.old.kept.tree.files file.0 ≡ Some path → R.tells_view →
        IsTreeOf row.now at (durable_tree row.now at (R.state rig.old).view state.old) (R.state rig.new).view
        ⊎ IsTreeOf row.now at (synchronised_tree row.now at (R.state rig.old).view state.old file path) (R.state rig.new).view }
    ensures outside { LeavesElsewhere at (slots_long row.now) (R.state rig.old) (R.state rig.new) }
    ensures outside_view { R.tells_view → SameElsewhere at (slots_long row.now) (R.state rig.old).view (R.state rig.new).view }

    // From `Ok` on it stands for the synchronised tree, and all present contents are as before.
    ensures state { OnOk result (IsState R.tells_view row.now at (R.state rig.new) state.new) }
    ensures synchronised { (path : List Name) → slot state.old.kept.tree.files file.0 ≡ Some path → R.tells_view
        → OnOk result (durable_tree row.now at (R.state rig.new).view state.new ≡ synchronised_tree row.now at (R.state rig.old).view state.old file path) }
    ensures contents { R.tells_view → OnOk result (SameContents row.now at (R.state rig.old).view (R.state rig.new).view state.old state.new) }
    ensures tree { OnOk result (state.new.kept.tree ≡ with_stored state.old.kept.tree file.0 (size_of state.old.present file) (changes_of state.old.present file)) }
    ensures sizes { state.new.present.sizes ≡ state.old.present.sizes }
    ensures charges { OnOk result (state.new.charges ≡ with_charge state.old.charges file.0 (blocks_of (size_of state.old.present file))) }
    ensures settled { OnOk result (IsAllSettled (R.state rig.new)) }

    ensures later { Later (R.state rig.old) (R.state rig.new) }
    ensures made { MakesAtMost 4 3 0 (R.state rig.old) (R.state rig.new) }
    ensures rises { R.keeps_cuts → OnOk result ((R.state rig.new).clock ≡ (R.state rig.old).clock + 7) }
    ensures cause { OnErr result (Rose (R.state rig.old).write_faults (R.state rig.new).write_faults) }
{
    state.kept.tree.stand();
    let stored = present_size(&state.present, file);
    let numbers = &state.present.numbers[file.0 as usize];
    store_file(
        &mut state.kept,
        rig,
        row,
        at,
        &mut state.body,
        &state.tail,
        file,
        stored,
        numbers,
    )?;
    state.charges.settle(file, stored.size.div_ceil(512));
    Ok(())
}
