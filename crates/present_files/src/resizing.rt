// Cutting present files and filling them up.
ghost use Rattle.std.specs.Prelude.{◌≡◌, ◌≢◌, ◌+◌, ◌-◌, ◌*◌, ◌<◌, ◌≤◌, ℕ, length, replicate, slice_set, OnOk, OnErr};
ghost use Rattle.apex_model.specs.Files.{blocks_of, resized};
ghost use Rattle.apex_model.specs.Layout.{tree_blocks};
ghost use Rattle.rig_core.specs.Bytes.{put};
ghost use Rattle.rig_core.specs.Causes.{Rose};
ghost use Rattle.rig_core.specs.Outside.{OnlyReads};
ghost use Rattle.tree_region.specs.InStep.{data_at};
ghost use Rattle.tree_region.specs.Numbers.{most_blocks};
ghost use Rattle.present_files.specs.Dropped.{DropsBlocks};
ghost use Rattle.present_files.specs.Kept.{KeepsContents};
ghost use Rattle.present_files.specs.Present.{IsPresent, changes_of, content_of, buffer_count, free_buffers, number_of, room_bytes, size_of};

use crate::blocks::{buffer, put_in_block};
use crate::holding::{let_go, stand};
use crate::present::{Present, PresentSize};
use crate::writing::set_size;
use apex_types::{FileNode, TreeRow};
use rig_core::{DeviceFault, Rig};

/// Gives up a block of a file: no buffer holds it any more, and its number is 0.
fn drop_block(present: &mut Present, row: &TreeRow, file: FileNode, k: u32)
    requires present { IsPresent row.now present.old }
    requires file { file.0 < row.now.files }
    requires within { k < most_blocks row.now }
    ensures dropped { DropsBlocks file k (k + 1) present.old present.new }
    ensures sizes { present.new.sizes ≡ present.old.sizes }
    ensures present { IsPresent row.now present.new }
    ensures free { free_buffers present.old ≤ free_buffers present.new }
    ensures buffers { buffer_count present.new ≡ buffer_count present.old }
{
    let_go(&mut present.pool, file, k);
    present.numbers[file.0 as usize].put(k as usize, 0);
}

/// Gives up the blocks of a file from one up to another.
fn drop_blocks(present: &mut Present, row: &TreeRow, file: FileNode, from: u32, to: u32)
    requires present { IsPresent row.now present.old }
    requires file { file.0 < row.now.files }
    requires order { from ≤ to }
    requires within { to ≤ most_blocks row.now }
    ensures dropped { DropsBlocks file from to present.old present.new }
    ensures sizes { present.new.sizes ≡ present.old.sizes }
    ensures present { IsPresent row.now present.new }
    ensures free { free_buffers present.old ≤ free_buffers present.new }
    ensures buffers { buffer_count present.new ≡ buffer_count present.old }
{
    for k in from..to {
        drop_block(present, row, file, k);
    }
}

/// Cuts a file to a size, as one change.
fn shrink(present: &mut Present, row: &TreeRow, file: FileNode, size: u32)
    requires present { IsPresent row.now present.old }
    requires file { file.0 < row.now.files }
    requires smaller { size ≤ size_of present.old file }
    requires counted { changes_of present.old file < 4294967295 }
    ensures dropped { DropsBlocks file (blocks_of size) (blocks_of (size_of present.old file)) present.old present.new }
    ensures sizes { present.new.sizes.items ≡ slice_set present.old.sizes.items file.0 (record { size = size; changes = changes_of present.old file + 1 }) }
    ensures present { IsPresent row.now present.new }
    ensures free { free_buffers present.old ≤ free_buffers present.new }
    ensures buffers { buffer_count present.new ≡ buffer_count present.old }
{
    let old = present.sizes[file.0 as usize].size;
    drop_blocks(present, row, file, size.div_ceil(512), old.div_ceil(512));
    set_size(present, row, file, size);
}

/// Makes the bytes behind a file's end zeros, up to the end of its last block. A fault comes only where the rig's read
/// faults rose; no content changes then.
fn clear_behind<R: Rig>(
    present: &mut Present,
    rig: &mut R,
    row: &TreeRow,
    at: u64,
    file: FileNode,
) -> Result<(), DeviceFault>
    requires fits { at + 512 * tree_blocks row.now ≤ (R.state rig.old).size }
    requires present { IsPresent row.now present.old }
    requires file { file.0 < row.now.files }
    requires free { 0 < free_buffers present.old }
    ensures room { R.tells_view → OnOk result (room_bytes (data_at row.now at (R.state rig.old).view) present.new file
        ≡ put (size_of present.old file) (replicate (512 * blocks_of (size_of present.old file) - size_of present.old file) 0) (room_bytes (data_at row.now at (R.state rig.old).view) present.old file)) }
    ensures others { (g : FileNode) → g.0 ≢ file.0 → R.tells_view
        → OnOk result (room_bytes (data_at row.now at (R.state rig.old).view) present.new g ≡ room_bytes (data_at row.now at (R.state rig.old).view) present.old g) }
    ensures unchanged { OnErr result (KeepsContents R.tells_view (data_at row.now at (R.state rig.old).view) present.old present.new) }
    ensures present { IsPresent row.now present.new }
    ensures sizes { present.new.sizes ≡ present.old.sizes }
    ensures numbers { present.new.numbers ≡ present.old.numbers }
    ensures free { free_buffers present.old ≤ free_buffers present.new + 1 }
    ensures buffers { buffer_count present.new ≡ buffer_count present.old }
    ensures reads { OnlyReads R.tells_view (R.state rig.old) (R.state rig.new) }
    ensures cause { OnErr result (Rose (R.state rig.old).read_faults (R.state rig.new).read_faults) }
{
    let size = present.sizes[file.0 as usize].size;
    let inside = size % 512;
    if inside == 0 {
        return Ok(());
    }
    buffer(present, rig, row, at, file, size / 512)?;
    let zeros = [0; 512];
    let behind = &zeros[..512 - inside as usize];
    put_in_block(present, row, file, size / 512, inside, behind);
    Ok(())
}

/// Cuts a file to a size, or fills it up with zeros, as one change. The numbers of the blocks up to the new last one
/// stay; no buffer holds a block behind it, and its number is 0. No other file changes. A fault comes only where the
/// file grows and the rig's read faults rose; no content, size or change count changes then.
pub fn resize<R: Rig>(
    present: &mut Present,
    rig: &mut R,
    row: &TreeRow,
    at: u64,
    file: FileNode,
    size: u32,
) -> Result<(), DeviceFault>
    requires fits { at + 512 * tree_blocks row.now ≤ (R.state rig.old).size }
    requires present { IsPresent row.now present.old }
    requires file { file.0 < row.now.files }
    requires blocks { blocks_of size ≤ most_blocks row.now }
    requires short { size ≤ 1048576 }
    requires counted { changes_of present.old file < 4294967295 }
    requires free { 0 < free_buffers present.old }
    ensures content { R.tells_view → OnOk result (content_of (data_at row.now at (R.state rig.old).view) present.new file
        ≡ resized (content_of (data_at row.now at (R.state rig.old).view) present.old file) size) }
    ensures others { (g : FileNode) → g.0 ≢ file.0 → R.tells_view
        → OnOk result (content_of (data_at row.now at (R.state rig.old).view) present.new g ≡ content_of (data_at row.now at (R.state rig.old).view) present.old g) }
    // The size and the change count of the file, and those of the others.
    ensures sizes { OnOk result (present.new.sizes.items ≡ slice_set present.old.sizes.items file.0 (record { size = size; changes = changes_of present.old file + 1 })) }
    ensures unchanged { OnErr result (KeepsContents R.tells_view (data_at row.now at (R.state rig.old).view) present.old present.new) }
    // Only a file that grows is read.
    ensures grows { OnErr result (size_of present.old file < size) }
    ensures kept { (k : ℕ) → k < blocks_of size → number_of present.new file k ≡ number_of present.old file k }
    ensures other_numbers { (g : FileNode) (k : ℕ) → g.0 ≢ file.0 → number_of present.new g k ≡ number_of present.old g k }
    ensures present { IsPresent row.now present.new }
    ensures free { free_buffers present.old ≤ free_buffers present.new + 1 }
    ensures buffers { buffer_count present.new ≡ buffer_count present.old }
    ensures reads { OnlyReads R.tells_view (R.state rig.old) (R.state rig.new) }
    ensures cause { OnErr result (Rose (R.state rig.old).read_faults (R.state rig.new).read_faults) }
{
    stand(&present.pool);
    if size <= present.sizes[file.0 as usize].size {
        shrink(present, row, file, size);
        return Ok(());
    }
    clear_behind(present, rig, row, at, file)?;
    set_size(present, row, file, size);
    Ok(())
}

/// Gives up all that is present of a file, as for one that is removed: it has no bytes and was never changed, no buffer
/// holds a block of it, and all its numbers are 0. No other file changes.
pub fn release_file(present: &mut Present, row: &TreeRow, file: FileNode)
    requires present { IsPresent row.now present.old }
    requires file { file.0 < row.now.files }
    ensures dropped { DropsBlocks file 0 (blocks_of (size_of present.old file)) present.old present.new }
    ensures sizes { present.new.sizes.items ≡ slice_set present.old.sizes.items file.0 (record { size = 0; changes = 0 }) }
    ensures present { IsPresent row.now present.new }
    ensures free { free_buffers present.old ≤ free_buffers present.new }
    ensures buffers { buffer_count present.new ≡ buffer_count present.old }
{
    let size = present.sizes[file.0 as usize].size;
    drop_blocks(present, row, file, 0, size.div_ceil(512));
    present.sizes[file.0 as usize] = PresentSize {
        size: 0,
        changes: 0,
    };
}
