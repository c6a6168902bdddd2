// Buffers that hold blocks of files.
ghost use Rattle.std.specs.Prelude.{◌≡◌, ◌+◌, ◌*◌, ◌<◌, ◌≤◌, ℕ, List, length, replicate, None, Some, IsSome, IfOk, OnOk, OnErr};
ghost use Rattle.apex_model.specs.Image.{data_block};
ghost use Rattle.apex_model.specs.Layout.{tree_blocks};
ghost use Rattle.block_pool.specs.Buffers.{AreBuffers, node_of};
ghost use Rattle.block_pool.specs.Lists.{node_count};
ghost use Rattle.rig_core.specs.Bytes.{put};
ghost use Rattle.rig_core.specs.Causes.{Rose};
ghost use Rattle.rig_core.specs.Outside.{OnlyReads};
ghost use Rattle.tree_region.specs.InStep.{data_at};
ghost use Rattle.present_files.specs.Nodes.{AllStay, OthersStay, free_in, held_or};

use crate::stored::read_stored;
use apex_types::{FileNode, TreeRow};
use block_pool::Pool;
use rig_core::{DeviceFault, Rig};

/// What holds of every pool; a caller learns it here. Nothing changes.
pub fn stand(pool: &Pool)
    ensures { AreBuffers pool.now }
{
    pool.stand();
}

/// The node of a block. Where none holds it, a free one takes it with the bytes that are stored under the block's
/// number. A fault comes only where none holds it, the number isn't 0 and the rig's read faults rose; nothing changes
/// then, but for the order in which buffers are free.
pub(crate) fn hold<R: Rig>(
    pool: &mut Pool,
    rig: &mut R,
    row: &TreeRow,
    at: u64,
    number: u32,
    file: FileNode,
    k: u32,
) -> Result<u32, DeviceFault>
    requires fits { at + 512 * tree_blocks row.now ≤ (R.state rig.old).size }
    requires last { number ≤ 2 * row.now.quota }
    requires file_within { file.0 + 1 < length pool.old.lists }
    requires free { node_of pool.old file k ≡ None → 0 < free_in pool.old }
    ensures node { IfOk result (λ node. node_of pool.new file k ≡ Some node) }
    ensures within { IfOk result (λ node. node < node_count pool.new.lists) }
    ensures room { IfOk result (λ node. node < length pool.new.contents) }
    ensures bytes { R.tells_view → OnOk result
        (held_or pool.new (data_block (data_at row.now at (R.state rig.old).view) number) file k ≡ held_or pool.old (data_block (data_at row.now at (R.state rig.old).view) number) file k) }
    ensures others { OthersStay file k pool.old pool.new }
    ensures free { free_in pool.old ≤ free_in pool.new + 1 }
    ensures all_stay { OnErr result (AllStay pool.old pool.new) }
    ensures absent { OnErr result (node_of pool.old file k ≡ None) }
    ensures stored { OnErr result (1 ≤ number) }
    // What holds of every pool; a caller learns it here.
    ensures sound { AreBuffers pool.old }
    ensures reads { OnlyReads R.tells_view (R.state rig.old) (R.state rig.new) }
    ensures cause { OnErr result (Rose (R.state rig.old).read_faults (R.state rig.new).read_faults) }
{
    if let Some(node) = pool.find(file, k) {
        return Ok(node);
    }
    let Some(node) = pool.take(file, k) else {
        unreachable!();
    };
    match read_stored(rig, row, at, number, 0, pool.bytes_mut(node)) {
        Ok(()) => Ok(node),
        Err(fault) => {
            pool.release(node);
            Err(fault)
        }
    }
}

/// Takes a free buffer for a block that no buffer holds, with bytes of zero.
pub(crate) fn hold_zeros(pool: &mut Pool, file: FileNode, k: u32)
    requires file_within { file.0 + 1 < length pool.old.lists }
    requires absent { node_of pool.old file k ≡ None }
    requires free { 0 < free_in pool.old }
    ensures held { IsSome (node_of pool.new file k) }
    ensures bytes { (stored : List ℕ) → held_or pool.new stored file k ≡ replicate 512 0 }
    ensures others { OthersStay file k pool.old pool.new }
    ensures free { free_in pool.old ≤ free_in pool.new + 1 }
{
    stand(pool);
    let Some(node) = pool.take(file, k) else {
        unreachable!();
    };
    pool.bytes_mut(node).fill(0);
}

/// Writes bytes over those at a place.
fn put_over(into: &mut [u8], from: usize, bytes: &[u8])
    requires { from + length bytes.now ≤ length into.old }
    ensures value { into.new ≡ put from bytes.now into.old }
    ensures long { length into.new ≡ length into.old }
{
    into[from..from + bytes.len()].copy_from_slice(bytes);
}

/// Writes bytes into the buffer of a block, from a place in it on.
pub(crate) fn put_held(pool: &mut Pool, file: FileNode, k: u32, from: u32, bytes: &[u8])
    requires held { IsSome (node_of pool.old file k) }
    requires long { from + length bytes.now ≤ 512 }
    ensures bytes { (stored : List ℕ) → held_or pool.new stored file k ≡ put from bytes.now (held_or pool.old stored file k) }
    ensures others { OthersStay file k pool.old pool.new }
    ensures nodes { pool.new.blocks ≡ pool.old.blocks }
    ensures lists { pool.new.lists ≡ pool.old.lists }
    // What holds of every pool; a caller learns it here.
    ensures sound { AreBuffers pool.old }
{
    let Some(node) = pool.find(file, k) else {
        unreachable!();
    };
    put_over(pool.bytes_mut(node), from as usize, bytes);
}

/// Makes the buffer of a block free, if there is one.
pub(crate) fn let_go(pool: &mut Pool, file: FileNode, k: u32)
    ensures gone { node_of pool.new file k ≡ None }
    ensures others { OthersStay file k pool.old pool.new }
    ensures free { free_in pool.old ≤ free_in pool.new }
{
    if let Some(node) = pool.find(file, k) {
        pool.release(node);
    }
}
