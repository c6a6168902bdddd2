// Blocks of present files.
ghost use Rattle.std.specs.Prelude.{◌≡◌, ◌≢◌, ◌+◌, ◌*◌, ◌<◌, ◌≤◌, ℕ, List, length, None, Some, IsSome, IfOk, OnOk, OnErr};
ghost use Rattle.apex_model.specs.Files.{blocks_of};
ghost use Rattle.apex_model.specs.Layout.{tree_blocks};
ghost use Rattle.apex_types.specs.declared.numbers.FileNode.{FileNode};
ghost use Rattle.block_pool.specs.Buffers.{node_of};
ghost use Rattle.rig_core.specs.Bytes.{put};
ghost use Rattle.rig_core.specs.Causes.{Rose};
ghost use Rattle.rig_core.specs.Outside.{OnlyReads};
ghost use Rattle.tree_region.specs.InStep.{data_at};
ghost use Rattle.present_files.specs.Nodes.{AllStay, OthersStay};
ghost use Rattle.present_files.specs.Present.{IsPresent, buffer_count, free_buffers, number_of, present_block, room_bytes, size_of};

use crate::holding::{hold, hold_zeros, put_held};
use crate::present::Present;
use apex_types::{FileNode, TreeRow};
use rig_core::{DeviceFault, Rig};

/// The node of a block of a file. Where none holds it, a free one takes it with the bytes that the block has; no
/// content changes. A fault comes only where none holds it, its number isn't 0 and the rig's read faults rose; nothing
/// changes then, but for the order in which buffers are free.
pub fn buffer<R: Rig>(
    present: &mut Present,
    rig: &mut R,
    row: &TreeRow,
    at: u64,
    file: FileNode,
    k: u32,
) -> Result<u32, DeviceFault>
    requires fits { at + 512 * tree_blocks row.now ≤ (R.state rig.old).size }
    requires present { IsPresent row.now present.old }
    requires file { file.0 < row.now.files }
    requires block { k < blocks_of (size_of present.old file) }
    requires free { node_of present.old.pool file k ≡ None → 0 < free_buffers present.old }
    ensures node { IfOk result (λ node. node_of present.new.pool file k ≡ Some node) }
    ensures same { R.tells_view → OnOk result ((g : FileNode) (j : ℕ)
        → present_block (data_at row.now at (R.state rig.old).view) present.new g j ≡ present_block (data_at row.now at (R.state rig.old).view) present.old g j) }
    ensures present { IsPresent row.now present.new }
    ensures sizes { present.new.sizes ≡ present.old.sizes }
    ensures numbers { present.new.numbers ≡ present.old.numbers }
    ensures others { OthersStay file k present.old.pool present.new.pool }
    ensures free { free_buffers present.old ≤ free_buffers present.new + 1 }
    ensures buffers { buffer_count present.new ≡ buffer_count present.old }
    ensures all_stay { OnErr result (AllStay present.old.pool present.new.pool) }
    ensures absent { OnErr result (node_of present.old.pool file k ≡ None) }
    ensures stored { OnErr result (1 ≤ number_of present.old file k) }
    ensures reads { OnlyReads R.tells_view (R.state rig.old) (R.state rig.new) }
    ensures cause { OnErr result (Rose (R.state rig.old).read_faults (R.state rig.new).read_faults) }
{
    let number = present.numbers[file.0 as usize].at(k as usize);
    hold(&mut present.pool, rig, row, at, number, file, k)
}

/// Gives a block of a file a free buffer of zeros. No buffer holds it, and its number is 0; so no content changes.
pub(crate) fn zero_buffer(present: &mut Present, row: &TreeRow, file: FileNode, k: u32)
    requires present { IsPresent row.now present.old }
    requires file { file.0 < row.now.files }
    requires block { k < blocks_of (size_of present.old file) }
    requires number { number_of present.old file k ≡ 0 }
    requires absent { node_of present.old.pool file k ≡ None }
    requires free { 0 < free_buffers present.old }
    ensures held { IsSome (node_of present.new.pool file k) }
    ensures same { (blocks : List ℕ) (g : FileNode) (j : ℕ) → present_block blocks present.new g j ≡ present_block blocks present.old g j }
    ensures others { OthersStay file k present.old.pool present.new.pool }
    ensures present { IsPresent row.now present.new }
    ensures sizes { present.new.sizes ≡ present.old.sizes }
    ensures numbers { present.new.numbers ≡ present.old.numbers }
    ensures free { free_buffers present.old ≤ free_buffers present.new + 1 }
    ensures buffers { buffer_count present.new ≡ buffer_count present.old }
{
    hold_zeros(&mut present.pool, file, k);
}

/// Writes bytes over those of a block of a file that a buffer holds, from a place in it on. No other block changes.
pub(crate) fn put_in_block(
    present: &mut Present,
    row: &TreeRow,
    file: FileNode,
    k: u32,
    from: u32,
    bytes: &[u8],
)
    requires present { IsPresent row.now present.old }
    requires file { file.0 < row.now.files }
    requires held { IsSome (node_of present.old.pool file k) }
    requires long { from + length bytes.now ≤ 512 }
    // Over the data blocks of every image that has room for the region.
    ensures room { (at : ℕ) (image : List ℕ) → at + 512 * tree_blocks row.now ≤ length image → room_bytes (data_at row.now at image) present.new file
        ≡ put (512 * k + from) bytes.now (room_bytes (data_at row.now at image) present.old file) }
    ensures others { (blocks : List ℕ) (g : FileNode) → g.0 ≢ file.0 → room_bytes blocks present.new g ≡ room_bytes blocks present.old g }
    ensures nodes { present.new.pool.blocks ≡ present.old.pool.blocks }
    ensures lists { present.new.pool.lists ≡ present.old.pool.lists }
    ensures buffers { buffer_count present.new ≡ buffer_count present.old }
    ensures present { IsPresent row.now present.new }
    ensures sizes { present.new.sizes ≡ present.old.sizes }
    ensures numbers { present.new.numbers ≡ present.old.numbers }
{
    put_held(&mut present.pool, file, k, from, bytes);
}
