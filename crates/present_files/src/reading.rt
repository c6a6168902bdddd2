// Reading present contents.
ghost use Rattle.std.specs.Prelude.{◌≡◌, ◌+◌, ◌-◌, ◌*◌, ◌<◌, ◌≤◌, ◌++◌, length, drop, min, IfOk, OnOk, OnErr};
ghost use Rattle.apex_model.specs.Files.{read_at};
ghost use Rattle.apex_model.specs.Layout.{tree_blocks};
ghost use Rattle.block_pool.specs.Buffers.{AreBuffers};
ghost use Rattle.rig_core.specs.Bytes.{part};
ghost use Rattle.rig_core.specs.Causes.{Rose};
ghost use Rattle.rig_core.specs.Outside.{OnlyReads};
ghost use Rattle.tree_region.specs.InStep.{data_at};
ghost use Rattle.present_files.specs.Present.{IsPresent, content_of, present_block, room_bytes, size_of};

use crate::holding::stand;
use crate::present::Present;
use crate::stored::read_stored;
use apex_types::{FileNode, TreeRow};
use rig_core::{DeviceFault, Rig};

/// Fills a slice with the bytes of a block of a file, from a place in it on.
fn read_block<R: Rig>(
    present: &Present,
    rig: &mut R,
    row: &TreeRow,
    at: u64,
    file: FileNode,
    k: u32,
    from: u32,
    into: &mut [u8],
) -> Result<(), DeviceFault>
    requires fits { at + 512 * tree_blocks row.now ≤ (R.state rig.old).size }
    requires present { IsPresent row.now present.now }
    requires file { file.0 < row.now.files }
    requires within { from + length into.old ≤ 512 }
    ensures bytes { R.tells_view → OnOk result (into.new ≡ part from (length into.old) (present_block (data_at row.now at (R.state rig.old).view) present.now file k)) }
    ensures long { length into.new ≡ length into.old }
    // What holds of every pool; a caller learns it here.
    ensures sound { AreBuffers present.now.pool }
    ensures reads { OnlyReads R.tells_view (R.state rig.old) (R.state rig.new) }
    ensures cause { OnErr result (Rose (R.state rig.old).read_faults (R.state rig.new).read_faults) }
{
    if let Some(node) = present.pool.find(file, k) {
        let from = from as usize;
        let held = present.pool.bytes(node);
        into.copy_from_slice(&held[from..from + into.len()]);
        return Ok(());
    }
    let number = present.numbers[file.0 as usize].at(k as usize);
    read_stored(rig, row, at, number, from, into)
}

/// Fills a slice with the bytes of a file's blocks, from a place on.
fn read_blocks<R: Rig>(
    present: &Present,
    rig: &mut R,
    row: &TreeRow,
    at: u64,
    file: FileNode,
    from: usize,
    into: &mut [u8],
) -> Result<(), DeviceFault>
    requires fits { at + 512 * tree_blocks row.now ≤ (R.state rig.old).size }
    requires present { IsPresent row.now present.now }
    requires file { file.0 < row.now.files }
    requires within { from + length into.old ≤ size_of present.now file }
    requires short { from + length into.old ≤ 1048576 }
    ensures bytes { R.tells_view → OnOk result (into.new ≡ part from (length into.old) (room_bytes (data_at row.now at (R.state rig.old).view) present.now file)) }
    ensures long { length into.new ≡ length into.old }
    ensures reads { OnlyReads R.tells_view (R.state rig.old) (R.state rig.new) }
    ensures cause { OnErr result (Rose (R.state rig.old).read_faults (R.state rig.new).read_faults) }
{
    stand(&present.pool);
    let end = from + into.len();
    for k in from / 512..end.div_ceil(512) {
        let start = from.max(512 * k);
        let stop = end.min(512 * k + 512);
        let piece = &mut into[start - from..stop - from];
        read_block(
            present,
            rig,
            row,
            at,
            file,
            k as u32,
            (start - 512 * k) as u32,
            piece,
        )?;
    }
    Ok(())
}

/// Copies the bytes of a file from a place on, as many as there are and as there is room for, and tells how many. A
/// fault comes only where the rig's read faults rose.
pub fn read<R: Rig>(
    present: &Present,
    rig: &mut R,
    row: &TreeRow,
    at: u64,
    file: FileNode,
    from: u32,
    into: &mut [u8],
) -> Result<usize, DeviceFault>
    requires fits { at + 512 * tree_blocks row.now ≤ (R.state rig.old).size }
    requires present { IsPresent row.now present.now }
    requires file { file.0 < row.now.files }
    ensures count { IfOk result (λ n. n ≡ min (length into.old) (size_of present.now file - from)) }
    ensures bytes { R.tells_view → IfOk result (λ n. into.new ≡ read_at (content_of (data_at row.now at (R.state rig.old).view) present.now file) from (length into.old) ++ drop n into.old) }
    ensures long { length into.new ≡ length into.old }
    ensures reads { OnlyReads R.tells_view (R.state rig.old) (R.state rig.new) }
    ensures cause { OnErr result (Rose (R.state rig.old).read_faults (R.state rig.new).read_faults) }
{
    let size = present.sizes[file.0 as usize].size;
    if from >= size {
        return Ok(0);
    }
    let count = into.len().min((size - from) as usize);
    let piece = &mut into[..count];
    read_blocks(present, rig, row, at, file, from as usize, piece)?;
    Ok(count)
}
