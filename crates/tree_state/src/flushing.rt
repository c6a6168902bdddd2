// Buffers are written back, file by file.
ghost use Rattle.std.specs.Prelude.{◌≡◌, ℕ, ◌+◌, ◌*◌, ◌<◌, ◌≤◌, None, IfOk, OnOk, OnErr};
ghost use Rattle.apex_model.specs.Layout.{tree_blocks};
ghost use Rattle.block_pool.specs.Buffers.{node_of};
ghost use Rattle.present_files.specs.Present.{free_buffers};
ghost use Rattle.rig_core.specs.Bytes.{SameElsewhere};
ghost use Rattle.rig_core.specs.Causes.{Rose};
ghost use Rattle.rig_core.specs.Leaves.{LeavesElsewhere};
ghost use Rattle.rig_core.specs.Outside.{Later, MakesAtMost};
ghost use Rattle.tree_region.specs.InStep.{slots_long};
ghost use Rattle.tree_state.specs.State.{IsState};
ghost use Rattle.tree_state.specs.Stored.{KeepsFiles, SameContents, durable_tree};
ghost use Rattle.present_files.specs.Durable.{KeepsDurable, KeepsTree};
ghost use Rattle.tree_state.specs.Writes.{MakesPaid, WritesBack, held_count};

use crate::node::write_node;
use crate::state::TreeState;
use apex_types::{FileNode, TreeRow};
use rig_core::{DeviceFault, Rig};

/// Writes buffers of a file back, the one that was taken first before the others, but no more than so many, and tells
/// how many they were. A fault comes only where the rig's write faults rose.
fn write_some<R: Rig>(
    state: &mut TreeState,
    rig: &mut R,
    row: &TreeRow,
    at: u64,
    file: FileNode,
    most: u32,
) -> Result<u32, DeviceFault>
    requires fits { at + 512 * tree_blocks row.now ≤ (R.state rig.old).size }
    requires state { IsState R.tells_view row.now at (R.state rig.old) state.old }
    requires file { file.0 < row.now.files }
    ensures writes { WritesBack R.tells_view row.now at (R.state rig.old) (R.state rig.new) state.old state.new }
    ensures paid { OnOk result (MakesPaid (R.state rig.old) (R.state rig.new) state.old state.new) }
    ensures count { IfOk result (λ n. free_buffers state.new.present ≡ free_buffers state.old.present + n) }
    ensures within { IfOk result (λ n. n ≤ most) }
    ensures rest { IfOk result (λ n. n < most → held_count state.new file.0 ≡ 0) }
    ensures none { IfOk result (λ n. n < most → (k : ℕ) → node_of state.new.present.pool file k ≡ None) }
    ensures cause { OnErr result (Rose (R.state rig.old).write_faults (R.state rig.new).write_faults) }
{
    for count in 0..most {
        let Some(node) = state.present.pool.front(file) else {
            return Ok(count);
        };
        write_node(state, rig, row, at, file, node)?;
    }
    Ok(most)
}

/// Writes all buffers of a file back: each goes to a data block of its own, which no durable content has, and is free
/// then. No sync is made. All contents stay, all that is durable stays, and at every moment the region stands for the
/// same tree. A fault comes only where the rig's write faults rose; what is kept is in step with the region then too.
pub fn write_back_file<R: Rig>(
    state: &mut TreeState,
    rig: &mut R,
    row: &TreeRow,
    at: u64,
    file: FileNode,
) -> Result<(), DeviceFault>
    requires fits { at + 512 * tree_blocks row.now ≤ (R.state rig.old).size }
    requires state { IsState R.tells_view row.now at (R.state rig.old) state.old }
    requires file { file.0 < row.now.files }
    ensures any_moment { KeepsTree row.now at (R.state rig.old) (R.state rig.new) }
    ensures state { IsState R.tells_view row.now at (R.state rig.new) state.new }
    ensures durable { R.tells_view → durable_tree row.now at (R.state rig.new).view state.new ≡ durable_tree row.now at (R.state rig.old).view state.old }
    ensures rows { state.new.kept.table.files ≡ state.old.kept.table.files }
    ensures kept { KeepsDurable state.old.kept state.new.kept }
    ensures files { KeepsFiles state.old state.new }
    ensures contents { R.tells_view → SameContents row.now at (R.state rig.old).view (R.state rig.new).view state.old state.new }
    ensures none { OnOk result ((k : ℕ) → node_of state.new.present.pool file k ≡ None) }
    ensures more { free_buffers state.old.present ≤ free_buffers state.new.present }
    ensures outside { LeavesElsewhere (at + slots_long row.now) (1024 * row.now.quota) (R.state rig.old) (R.state rig.new) }
    ensures outside_view { R.tells_view → SameElsewhere (at + slots_long row.now) (1024 * row.now.quota) (R.state rig.old).view (R.state rig.new).view }
    ensures later { Later (R.state rig.old) (R.state rig.new) }
    ensures made { MakesAtMost row.now.dirty 0 0 (R.state rig.old) (R.state rig.new) }
    ensures cause { OnErr result (Rose (R.state rig.old).write_faults (R.state rig.new).write_faults) }
{
    // more than there are
    let most = u32::from(row.dirty) + 1;
    write_some(state, rig, row, at, file, most)?;
    Ok(())
}

/// Writes buffers back, file after file, until at least so many are free. Each goes to a data block of its own, which no
/// durable content has. No sync is made. All contents stay, all that is durable stays, and at every moment the region
/// stands for the same tree. A fault comes only where the rig's write faults rose; what is kept is in step with the
/// region then too.
pub fn write_back<R: Rig>(
    state: &mut TreeState,
    rig: &mut R,
    row: &TreeRow,
    at: u64,
    wanted: u32,
) -> Result<(), DeviceFault>
    requires fits { at + 512 * tree_blocks row.now ≤ (R.state rig.old).size }
    requires state { IsState R.tells_view row.now at (R.state rig.old) state.old }
    requires wanted { wanted ≤ row.now.dirty }
    ensures any_moment { KeepsTree row.now at (R.state rig.old) (R.state rig.new) }
    ensures state { IsState R.tells_view row.now at (R.state rig.new) state.new }
    ensures durable { R.tells_view → durable_tree row.now at (R.state rig.new).view state.new ≡ durable_tree row.now at (R.state rig.old).view state.old }
    ensures rows { state.new.kept.table.files ≡ state.old.kept.table.files }
    ensures kept { KeepsDurable state.old.kept state.new.kept }
    ensures files { KeepsFiles state.old state.new }
    ensures contents { R.tells_view → SameContents row.now at (R.state rig.old).view (R.state rig.new).view state.old state.new }
    ensures free { OnOk result (wanted ≤ free_buffers state.new.present) }
    ensures more { free_buffers state.old.present ≤ free_buffers state.new.present }
    ensures outside { LeavesElsewhere (at + slots_long row.now) (1024 * row.now.quota) (R.state rig.old) (R.state rig.new) }
    ensures outside_view { R.tells_view → SameElsewhere (at + slots_long row.now) (1024 * row.now.quota) (R.state rig.old).view (R.state rig.new).view }
    ensures later { Later (R.state rig.old) (R.state rig.new) }
    ensures made { MakesAtMost row.now.dirty 0 0 (R.state rig.old) (R.state rig.new) }
    ensures cause { OnErr result (Rose (R.state rig.old).write_faults (R.state rig.new).write_faults) }
{
    let mut missing = wanted.saturating_sub(state.present.pool.free_count());
    for f in 0..row.files {
        missing -= write_some(state, rig, row, at, FileNode(f), missing)?;
    }
    Ok(())
}
