// One buffer of a file is written back.
ghost use Rattle.std.specs.Prelude.{◌≡◌, ◌+◌, ◌*◌, ◌<◌, ◌≤◌, Some, OnOk, OnErr};
ghost use Rattle.apex_model.specs.Layout.{tree_blocks};
ghost use Rattle.block_pool.specs.Buffers.{AreBuffers};
ghost use Rattle.block_pool.specs.Lists.{first_of, list_at, node_count};
ghost use Rattle.present_files.specs.Present.{free_buffers};
ghost use Rattle.rig_core.specs.Causes.{Rose};
ghost use Rattle.rig_core.specs.Outside.{MakesAtMost};
ghost use Rattle.tree_state.specs.State.{IsState};
ghost use Rattle.tree_state.specs.Writes.{WritesBack};

use crate::state::TreeState;
use apex_types::{FileNode, TreeRow};
use present_files::write_present;
use rig_core::{DeviceFault, Rig};

/// Writes the first buffer of a file to a data block of its own, and makes it free. A fault comes only where the rig's
/// write faults rose; the buffer holds its block still.
pub(crate) fn write_node<R: Rig>(
    state: &mut TreeState,
    rig: &mut R,
    row: &TreeRow,
    at: u64,
    file: FileNode,
    node: u32,
) -> Result<(), DeviceFault>
    requires fits { at + 512 * tree_blocks row.now ≤ (R.state rig.old).size }
    requires state { IsState R.tells_view row.now at (R.state rig.old) state.old }
    requires file { file.0 < row.now.files }
    requires sound { AreBuffers state.old.present.pool }
    requires first { first_of (list_at state.old.present.pool.lists (file.0 + 1)) ≡ Some node }
    requires within { node < node_count state.old.present.pool.lists }
    ensures writes { WritesBack R.tells_view row.now at (R.state rig.old) (R.state rig.new) state.old state.new }
    ensures freed { OnOk result (free_buffers state.new.present ≡ free_buffers state.old.present + 1) }
    ensures made { MakesAtMost 1 0 0 (R.state rig.old) (R.state rig.new) }
    ensures cause { OnErr result (Rose (R.state rig.old).write_faults (R.state rig.new).write_faults) }
{
    let Some(k) = state.present.pool.index_of(node) else {
        unreachable!();
    };
    let bytes = state.present.pool.bytes(node);
    write_present(
        &mut state.kept,
        &mut state.present.numbers,
        rig,
        row,
        at,
        file,
        k as usize,
        bytes,
    )?;
    state.present.pool.release(node);
    Ok(())
}
