// A stored tree is mounted.
ghost use Rattle.std.specs.Prelude.{◌≡◌, ◌+◌, ◌*◌, ◌≤◌, ℕ, List, length, replicate, None, Some, IfOk, IsErrOf};
ghost use Rattle.apex_model.specs.Image.{tree_of_region};
ghost use Rattle.apex_model.specs.Layout.{body_blocks, tree_blocks};
ghost use Rattle.block_pool.specs.Buffers.{all_free};
ghost use Rattle.block_quota.specs.Quota.{total};
ghost use Rattle.rig_core.specs.Causes.{Rose};
ghost use Rattle.rig_core.specs.Leaves.{IsAllSettled};
ghost use Rattle.rig_core.specs.Outside.{OnlyReads};
ghost use Rattle.tree_region.specs.InStep.{data_at};
ghost use Rattle.tree_region.specs.GoodNumbers.{HasGoodNumbers};
ghost use Rattle.tree_region.specs.Region.{region_at, stored_file};
ghost use Rattle.tree_state.specs.State.{IsState};
ghost use Rattle.tree_state.specs.Stored.{durable_tree, present_file};
ghost use Rattle.tree_state.specs.Mounted.{AreStoredCharges, AreStoredSizes, IsFresh, IsPresentOf};

use crate::charging::stored_charges;
use crate::copying::{copy_rows, stored_sizes};
use crate::state::TreeState;
use apex_types::{FileNode, OutOfMemory, TreeRow};
use block_pool::Pool;
use present_files::Present;
use rig_core::Rig;
use std::alloc::Global;
use tree_region::{MountStop, TreeRegion, forget_rows, mount_settled};

/// What is present of files whose contents are the durable ones.
fn present_of(alloc: Global, row: &TreeRow, kept: &TreeRegion) -> Result<Present, OutOfMemory>
    ensures { IfOk result (IsPresentOf row.now kept.now) }
{
    let sizes = stored_sizes(alloc, &kept.tree, row.files)?;
    let numbers = copy_rows(alloc, &kept.table.files)?;
    let pool = Pool::new(alloc, u32::from(row.dirty), row.files)?;
    Ok(Present {
        sizes,
        numbers,
        pool,
    })
}

/// How many bytes the body of a slot has, in whole blocks.
fn body_length(row: &TreeRow) -> usize
    ensures { result ≡ 512 * body_blocks row.now }
{
    let entries = row.files as usize + row.directories as usize;
    512 * (64 + 128 * entries + 4 * row.quota as usize).div_ceil(512)
}

/// So many zeros.
fn zeros(alloc: Global, count: usize) -> Result<Vec<u8>, OutOfMemory>
    ensures { IfOk result (λ bytes. bytes.items ≡ replicate count 0) }
{
    match vec![in alloc; 0u8; count] {
        Ok(bytes) => Ok(bytes),
        Err(_) => Err(OutOfMemory),
    }
}

/// Room for the body of a slot, with the names that are kept.
fn body_of(alloc: Global, row: &TreeRow, kept: &TreeRegion) -> Result<Vec<u8>, OutOfMemory>
    requires files { length kept.now.tree.files ≡ row.now.files }
    requires directories { length kept.now.tree.directories ≡ row.now.directories }
    ensures long { IfOk result (λ body. length body.items ≡ 512 * body_blocks row.now) }
    // What holds of every tree; a caller learns it here.
    ensures stored { IfOk result (λ body. length kept.now.tree.stored ≡ length kept.now.tree.files) }
{
    let body = zeros(alloc, body_length(row))?;
    kept.tree.stand();
    Ok(body)
}

/// All that is kept of a tree whose files' contents are the durable ones.
fn state_of(alloc: Global, row: &TreeRow, kept: TreeRegion) -> Result<TreeState, OutOfMemory>
    requires good { HasGoodNumbers row.now kept.tree kept.table.files.items }
    requires table { length kept.table.files.items ≡ row.now.files }
    requires files { length kept.tree.files ≡ row.now.files }
    requires directories { length kept.tree.directories ≡ row.now.directories }
    ensures kept { IfOk result (λ state. state.kept ≡ kept) }
    ensures fresh { IfOk result (IsFresh row.now) }
{
    let present = present_of(alloc, row, &kept)?;
    let charges = stored_charges(alloc, row, &kept)?;
    charges.total();
    let body = body_of(alloc, row, &kept)?;
    let tail = zeros(alloc, 32768)?;
    Ok(TreeState {
        kept,
        present,
        charges,
        body,
        tail,
    })
}

/// Mounts the tree of a region, which begins at a byte of a device on which nothing is pending. Only reads are made.
/// What is present of each file is its durable content, for which it is charged, and all buffers are free. It is bad
/// exactly where the region stands for no tree; a fault of the device comes only where the rig's read faults rose.
pub fn mount_state<R: Rig>(
    alloc: Global,
    rig: &mut R,
    row: &TreeRow,
    at: u64,
) -> Result<TreeState, MountStop>
    requires fits { at + 512 * tree_blocks row.now ≤ (R.state rig.old).size }
    requires settled { IsAllSettled (R.state rig.old) }

    // What the region stands for, and that it is in step with what is kept.
    ensures state { IfOk result (IsState R.tells_view row.now at (R.state rig.new)) }
    ensures durable { R.tells_view → IfOk result (λ state. tree_of_region row.now (region_at row.now at (R.state rig.old).view) ≡ Some (durable_tree row.now at (R.state rig.old).view state)) }
    ensures bad { R.tells_view → IsErrOf result MountStop.Bad → tree_of_region row.now (region_at row.now at (R.state rig.old).view) ≡ None }

    // What is present of each file is what is durable.
    ensures contents { IfOk result (λ state. (view : List ℕ) (f : FileNode)
        → present_file row.now at view state f ≡ stored_file (data_at row.now at view) state.kept.tree state.kept.table.files.items f.0) }
    ensures sizes { IfOk result (λ state. AreStoredSizes state.kept.tree row.now.files state.present.sizes.items) }
    ensures charges { IfOk result (λ state. AreStoredCharges row.now state.kept.tree row.now.files state.charges) }
    ensures buffers { IfOk result (λ state. state.present.pool ≡ all_free row.now.dirty row.now.files) }

    ensures reads { OnlyReads R.tells_view (R.state rig.old) (R.state rig.new) }
    ensures cause { IsErrOf result MountStop.Device → Rose (R.state rig.old).read_faults (R.state rig.new).read_faults }
{
    let mut kept = match mount_settled(alloc, rig, row, at) {
        Err(stop) => return Err(stop),
        Ok(kept) => kept,
    };
    forget_rows(&mut kept);
    match state_of(alloc, row, kept) {
        Err(_) => Err(MountStop::Memory),
        Ok(state) => Ok(state),
    }
}
