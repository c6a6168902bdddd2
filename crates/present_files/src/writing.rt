// Writing present contents.
ghost use Rattle.std.specs.Prelude.{◌≡◌, ◌≢◌, ◌+◌, ◌-◌, ◌*◌, ◌/◌, ◌<◌, ◌≤◌, ℕ, List, length, max, slice_set, None, OnOk, OnErr};
ghost use Rattle.apex_model.specs.Files.{blocks_of, written};
ghost use Rattle.apex_model.specs.Layout.{tree_blocks};
ghost use Rattle.block_pool.specs.Buffers.{node_of};
ghost use Rattle.rig_core.specs.Bytes.{put};
ghost use Rattle.rig_core.specs.Causes.{Rose};
ghost use Rattle.rig_core.specs.Outside.{OnlyReads};
ghost use Rattle.tree_region.specs.InStep.{data_at};
ghost use Rattle.tree_region.specs.Numbers.{most_blocks};
ghost use Rattle.present_files.specs.Kept.{KeepsContents};
ghost use Rattle.present_files.specs.Nodes.{AreHeld, HoldsMore};
ghost use Rattle.present_files.specs.Present.{IsPresent, changes_of, content_of, buffer_count, free_buffers, number_of, present_block, room_bytes, size_of};

use crate::blocks::{buffer, put_in_block, zero_buffer};
use crate::holding::stand;
use crate::present::{Present, PresentSize};
use apex_types::{FileNode, TreeRow};
use rig_core::{DeviceFault, Rig};

/// Gives a file another size, as one change. The bytes that it gains are those that stand there.
pub(crate) fn set_size(present: &mut Present, row: &TreeRow, file: FileNode, size: u32)
    requires present { IsPresent row.now present.old }
    requires file { file.0 < row.now.files }
    requires blocks { blocks_of size ≤ most_blocks row.now }
    requires short { size ≤ 1048576 }
    requires numbers { (k : ℕ) → blocks_of size ≤ k → number_of present.old file k ≡ 0 }
    requires buffers { (k : ℕ) → blocks_of size ≤ k → node_of present.old.pool file k ≡ None }
    requires counted { changes_of present.old file < 4294967295 }
    ensures sizes { present.new.sizes.items ≡ slice_set present.old.sizes.items file.0 (record { size = size; changes = changes_of present.old file + 1 }) }
    ensures numbers_stay { present.new.numbers ≡ present.old.numbers }
    ensures pool_stays { present.new.pool ≡ present.old.pool }
    ensures present { IsPresent row.now present.new }
{
    let known = &mut present.sizes[file.0 as usize];
    let changes = known.changes + 1;
    *known = PresentSize { size, changes };
}

/// Gives each block of a file from one up to another a buffer, with the bytes that the block has. No content changes,
/// also where a read fails.
fn hold_blocks<R: Rig>(
    present: &mut Present,
    rig: &mut R,
    row: &TreeRow,
    at: u64,
    file: FileNode,
    from: u32,
    to: u32,
) -> Result<(), DeviceFault>
    requires fits { at + 512 * tree_blocks row.now ≤ (R.state rig.old).size }
    requires present { IsPresent row.now present.old }
    requires file { file.0 < row.now.files }
    requires order { from ≤ to }
    requires blocks { to ≤ blocks_of (size_of present.old file) }
    requires free { to ≤ from + free_buffers present.old }
    ensures held { OnOk result (AreHeld present.new.pool file from to) }
    ensures unchanged { KeepsContents R.tells_view (data_at row.now at (R.state rig.old).view) present.old present.new }
    ensures present { IsPresent row.now present.new }
    ensures free { free_buffers present.old ≤ free_buffers present.new + (to - from) }
    ensures buffers { buffer_count present.new ≡ buffer_count present.old }
    ensures reads { OnlyReads R.tells_view (R.state rig.old) (R.state rig.new) }
    ensures cause { OnErr result (Rose (R.state rig.old).read_faults (R.state rig.new).read_faults) }
{
    for k in from..to {
        buffer(present, rig, row, at, file, k)?;
    }
    Ok(())
}

/// Gives each block of a file from one up to another a buffer of zeros. No buffer holds one of them, and their numbers
/// are 0; so no content changes.
fn zero_blocks(present: &mut Present, row: &TreeRow, file: FileNode, from: u32, to: u32)
    requires present { IsPresent row.now present.old }
    requires file { file.0 < row.now.files }
    requires order { from ≤ to }
    requires blocks { to ≤ blocks_of (size_of present.old file) }
    requires numbers { (k : ℕ) → from ≤ k → k < to → number_of present.old file k ≡ 0 }
    requires absent { (k : ℕ) → from ≤ k → k < to → node_of present.old.pool file k ≡ None }
    requires free { to ≤ from + free_buffers present.old }
    ensures held { AreHeld present.new.pool file from to }
    ensures more { HoldsMore present.old.pool present.new.pool }
    ensures same { (blocks : List ℕ) (g : FileNode) (j : ℕ) → present_block blocks present.new g j ≡ present_block blocks present.old g j }
    ensures present { IsPresent row.now present.new }
    ensures sizes { present.new.sizes ≡ present.old.sizes }
    ensures numbers_stay { present.new.numbers ≡ present.old.numbers }
    ensures free { free_buffers present.old ≤ free_buffers present.new + (to - from) }
    ensures buffers { buffer_count present.new ≡ buffer_count present.old }
{
    for k in from..to {
        zero_buffer(present, row, file, k);
    }
}

/// Writes bytes over those of a file's blocks, from a place on. A buffer holds each of these blocks.
fn put_blocks(present: &mut Present, row: &TreeRow, file: FileNode, from: usize, bytes: &[u8])
    requires present { IsPresent row.now present.old }
    requires file { file.0 < row.now.files }
    requires within { from + length bytes.now ≤ size_of present.old file }
    requires short { from + length bytes.now ≤ 1048576 }
    requires held { AreHeld present.old.pool file (from / 512) (blocks_of (from + length bytes.now)) }
    // Over the data blocks of every image that has room for the region.
    ensures room { (at : ℕ) (image : List ℕ) → at + 512 * tree_blocks row.now ≤ length image → room_bytes (data_at row.now at image) present.new file
        ≡ put from bytes.now (room_bytes (data_at row.now at image) present.old file) }
    ensures others { (blocks : List ℕ) (g : FileNode) → g.0 ≢ file.0 → room_bytes blocks present.new g ≡ room_bytes blocks present.old g }
    ensures lists { present.new.pool.lists ≡ present.old.pool.lists }
    ensures buffers { buffer_count present.new ≡ buffer_count present.old }
    ensures present { IsPresent row.now present.new }
    ensures sizes { present.new.sizes ≡ present.old.sizes }
    ensures numbers { present.new.numbers ≡ present.old.numbers }
{
    stand(&present.pool);
    let end = from + bytes.len();
    for k in from / 512..end.div_ceil(512) {
        let start = from.max(512 * k);
        let stop = end.min(512 * k + 512);
        let piece = &bytes[start - from..stop - from];
        put_in_block(
            present,
            row,
            file,
            k as u32,
            (start - 512 * k) as u32,
            piece,
        );
    }
}

/// Writes bytes over those of a file from a place on and beyond its end, as one change. No number of a data block
/// changes, and no other file. A fault comes only where the rig's read faults rose. No content, size or change count
/// changes then: the blocks that bytes are stored for are all read before one is written, and those that were read
/// keep their buffers.
pub fn write<R: Rig>(
    present: &mut Present,
    rig: &mut R,
    row: &TreeRow,
    at: u64,
    file: FileNode,
    from: u32,
    bytes: &[u8],
) -> Result<(), DeviceFault>
    requires fits { at + 512 * tree_blocks row.now ≤ (R.state rig.old).size }
    requires present { IsPresent row.now present.old }
    requires file { file.0 < row.now.files }
    requires start { from ≤ size_of present.old file }
    requires some { 1 ≤ length bytes.now }
    requires few { length bytes.now ≤ 4096 }
    requires blocks { blocks_of (from + length bytes.now) ≤ most_blocks row.now }
    requires short { from + length bytes.now ≤ 1048576 }
    requires counted { changes_of present.old file < 4294967295 }
    requires free { 9 ≤ free_buffers present.old }
    ensures content { R.tells_view → OnOk result (content_of (data_at row.now at (R.state rig.old).view) present.new file
        ≡ written (content_of (data_at row.now at (R.state rig.old).view) present.old file) from bytes.now) }
    ensures others { (g : FileNode) → g.0 ≢ file.0 → R.tells_view
        → content_of (data_at row.now at (R.state rig.old).view) present.new g ≡ content_of (data_at row.now at (R.state rig.old).view) present.old g }
    // The size and the change count of the file, and those of the others.
    ensures sizes { OnOk result (present.new.sizes.items
        ≡ slice_set present.old.sizes.items file.0 (record { size = max (size_of present.old file) (from + length bytes.now); changes = changes_of present.old file + 1 })) }
    ensures unchanged { OnErr result (KeepsContents R.tells_view (data_at row.now at (R.state rig.old).view) present.old present.new) }
    ensures numbers { present.new.numbers ≡ present.old.numbers }
    ensures present { IsPresent row.now present.new }
    ensures free { free_buffers present.old ≤ free_buffers present.new + 9 }
    ensures buffers { buffer_count present.new ≡ buffer_count present.old }
    ensures reads { OnlyReads R.tells_view (R.state rig.old) (R.state rig.new) }
    ensures cause { OnErr result (Rose (R.state rig.old).read_faults (R.state rig.new).read_faults) }
{
    stand(&present.pool);
    let old = present.sizes[file.0 as usize].size;
    let end = from + bytes.len() as u32;
    let blocks = end.div_ceil(512);
    let there = old.div_ceil(512).min(blocks);
    hold_blocks(present, rig, row, at, file, from / 512, there)?;
    let size = old.max(end);
    set_size(present, row, file, size);
    zero_blocks(present, row, file, there, blocks);
    put_blocks(present, row, file, from as usize, bytes);
    Ok(())
}
