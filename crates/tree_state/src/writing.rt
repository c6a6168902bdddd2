// Bytes are written over those of a file.
ghost use Rattle.std.specs.Prelude.{◌≡◌, ◌+◌, ◌*◌, ◌<◌, ◌≤◌, max, length, IsSome, OnOk, OnErr};
ghost use Rattle.apex_model.specs.Files.{written};
ghost use Rattle.apex_model.specs.Layout.{tree_blocks};
ghost use Rattle.file_tree.specs.Entries.{slot};
ghost use Rattle.present_files.specs.Present.{changes_of, free_buffers, size_of};
ghost use Rattle.rig_core.specs.Causes.{Rose};
ghost use Rattle.rig_core.specs.Outside.{OnlyReads};
ghost use Rattle.tree_state.specs.State.{IsState};
ghost use Rattle.tree_state.specs.Changes.{IsChanged, IsUnchanged, StaysDurable};
ghost use Rattle.tree_state.specs.ContentRefusals.{IsAnswer, MayHave, content_refusal};

use crate::flushing::write_back;
use crate::refusal::StateRefusal;
use crate::refusing::refusal;
use crate::state::TreeState;
use apex_types::{FileNode, TreeRow};
use present_files::stand;
use rig_core::{DeviceFault, Rig};

// The most buffers that a write takes: its bytes are part of no more blocks.
const WRITE_BUFFERS: u32 = 9;

/// The size of a file once bytes are written to it from a place on.
fn size_after(state: &TreeState, file: FileNode, from: u32, bytes: &[u8]) -> u32
    requires entry { file.0 < length state.now.present.sizes.items }
    requires fits { from + length bytes.now < 4294967296 }
    ensures { result ≡ max (size_of state.now.present file) (from + length bytes.now) }
{
    let old = state.present.sizes[file.0 as usize].size;
    old.max(from + bytes.len() as u32)
}

/// Writes bytes over those of a file, which gets a size by that, where nothing speaks against it and enough buffers are
/// free. Only reads are made.
fn write_held<R: Rig>(
    state: &mut TreeState,
    rig: &mut R,
    row: &TreeRow,
    at: u64,
    file: FileNode,
    from: u32,
    bytes: &[u8],
    size: u32,
) -> Result<(), DeviceFault>
    requires fits { at + 512 * tree_blocks row.now ≤ (R.state rig.old).size }
    requires state { IsState R.tells_view row.now at (R.state rig.old) state.old }
    requires in_use { IsSome (slot state.old.kept.tree.files file.0) }
    requires start { from ≤ size_of state.old.present file }
    requires some { 1 ≤ length bytes.now }
    requires few { length bytes.now ≤ 4096 }
    requires size { size ≡ max (size_of state.old.present file) (from + length bytes.now) }
    requires may { MayHave state.old.charges file.0 (changes_of state.old.present file) size }
    requires free { 9 ≤ free_buffers state.old.present }
    ensures changed { OnOk result (IsChanged R.tells_view row.now at (R.state rig.old).view (R.state rig.new).view file (λ content. written content from bytes.now) size state.old state.new) }
    ensures unchanged { OnErr result (IsUnchanged R.tells_view row.now at (R.state rig.old).view (R.state rig.new).view state.old state.new) }
    ensures state { IsState R.tells_view row.now at (R.state rig.new) state.new }
    ensures kept { state.new.kept ≡ state.old.kept }
    ensures reads { OnlyReads R.tells_view (R.state rig.old) (R.state rig.new) }
    ensures cause { OnErr result (Rose (R.state rig.old).read_faults (R.state rig.new).read_faults) }
{
    stand(&state.present.pool);
    let written = present_files::write(&mut state.present, rig, row, at, file, from, bytes);
    stand(&state.present.pool);
    written?;
    state.charges.raise(file, size.div_ceil(512));
    Ok(())
}

/// Writes bytes over those of a file from a place in it on and beyond its end, as one change of its present content; what
/// is durable stays. EFBIG comes exactly where it would have more than 1,048,576 bytes, else ENOSPC where the quota has no
/// room for its blocks, else EOVERFLOW where it was changed 4,294,967,295 times; nothing changes then, and no call is
/// made. A fault comes only where the rig's faults of that kind rose; no content, size or charge changes then, and what
/// is kept is in step with the region. It makes one write at most for each block that the tree may have unwritten.
pub fn write<R: Rig>(
    state: &mut TreeState,
    rig: &mut R,
    row: &TreeRow,
    at: u64,
    file: FileNode,
    from: u32,
    bytes: &[u8],
) -> Result<(), StateRefusal>
    requires fits { at + 512 * tree_blocks row.now ≤ (R.state rig.old).size }
    requires state { IsState R.tells_view row.now at (R.state rig.old) state.old }
    requires in_use { IsSome (slot state.old.kept.tree.files file.0) }
    requires start { from ≤ size_of state.old.present file }
    requires some { 1 ≤ length bytes.now }
    requires few { length bytes.now ≤ 4096 }
    requires buffers { 9 ≤ row.now.dirty }
    ensures answer { IsAnswer (content_refusal state.old.charges file.0 (changes_of state.old.present file) (max (size_of state.old.present file) (from + length bytes.now)))
        ((state.new ≡ state.old) × (rig.new ≡ rig.old))
        (Rose (R.state rig.old).read_faults (R.state rig.new).read_faults) (Rose (R.state rig.old).write_faults (R.state rig.new).write_faults) result }
    ensures changed { OnOk result (IsChanged R.tells_view row.now at (R.state rig.old).view (R.state rig.new).view file (λ content. written content from bytes.now)
        (max (size_of state.old.present file) (from + length bytes.now)) state.old state.new) }
    ensures unchanged { OnErr result (IsUnchanged R.tells_view row.now at (R.state rig.old).view (R.state rig.new).view state.old state.new) }
    ensures durable { StaysDurable R.tells_view row.now at (R.state rig.old) (R.state rig.new) state.old state.new }
{
    let size = size_after(state, file, from, bytes);
    if let Some(errno) = refusal(state, file, size) {
        return Err(StateRefusal::Refused(errno));
    }
    match write_back(state, rig, row, at, WRITE_BUFFERS) {
        Err(_) => return Err(StateRefusal::Device),
        Ok(()) => {}
    }
    match write_held(state, rig, row, at, file, from, bytes, size) {
        Err(_) => Err(StateRefusal::ReadFault),
        Ok(()) => Ok(()),
    }
}
