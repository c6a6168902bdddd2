// A file is cut or filled up.
ghost use Rattle.std.specs.Prelude.{◌≡◌, ◌+◌, ◌*◌, ◌<◌, ◌≤◌, IsSome, OnOk, OnErr};
ghost use Rattle.apex_model.specs.Files.{resized};
ghost use Rattle.apex_model.specs.Layout.{tree_blocks};
ghost use Rattle.file_tree.specs.Entries.{slot};
ghost use Rattle.present_files.specs.Present.{changes_of, free_buffers, size_of};
ghost use Rattle.rig_core.specs.Causes.{Rose};
ghost use Rattle.rig_core.specs.Outside.{OnlyReads};
ghost use Rattle.tree_state.specs.State.{IsState};
ghost use Rattle.tree_state.specs.Changes.{IsChanged, IsUnchanged, StaysDurable};
ghost use Rattle.tree_state.specs.ContentRefusals.{IsAnswer, MayHave, content_refusal};

use crate::flushing::write_back;
use crate::refusal::StateRefusal;
use crate::refusing::refusal;
use crate::state::TreeState;
use apex_types::{FileNode, TreeRow};
use present_files::stand;
use rig_core::{DeviceFault, Rig};

/// Cuts a file to a size or fills it up, where nothing speaks against it and a buffer is free. Only reads are made.
fn resize_held<R: Rig>(
    state: &mut TreeState,
    rig: &mut R,
    row: &TreeRow,
    at: u64,
    file: FileNode,
    size: u32,
) -> Result<(), DeviceFault>
    requires fits { at + 512 * tree_blocks row.now ≤ (R.state rig.old).size }
    requires state { IsState R.tells_view row.now at (R.state rig.old) state.old }
    requires in_use { IsSome (slot state.old.kept.tree.files file.0) }
    requires may { MayHave state.old.charges file.0 (changes_of state.old.present file) size }
    requires free { 1 ≤ free_buffers state.old.present }
    ensures changed { OnOk result (IsChanged R.tells_view row.now at (R.state rig.old).view (R.state rig.new).view file (λ content. resized content size) size state.old state.new) }
    ensures unchanged { OnErr result (IsUnchanged R.tells_view row.now at (R.state rig.old).view (R.state rig.new).view state.old state.new) }
    ensures grows { OnErr result (size_of state.old.present file < size) }
    ensures state { IsState R.tells_view row.now at (R.state rig.new) state.new }
    ensures kept { state.new.kept ≡ state.old.kept }
    ensures reads { OnlyReads R.tells_view (R.state rig.old) (R.state rig.new) }
    ensures cause { OnErr result (Rose (R.state rig.old).read_faults (R.state rig.new).read_faults) }
{
    stand(&state.present.pool);
    let resized = present_files::resize(&mut state.present, rig, row, at, file, size);
    stand(&state.present.pool);
    resized?;
    state.charges.raise(file, size.div_ceil(512));
    Ok(())
}

/// Cuts a file to a size, or fills it up with zeros, as one change of its present content; what is durable stays. EFBIG
/// comes exactly where it would have more than 1,048,576 bytes, else ENOSPC where the quota has no room for its blocks,
/// else EOVERFLOW where it was changed 4,294,967,295 times; nothing changes then, and no call is made. A fault comes only
/// where the rig's faults of that kind rose, and one of reads only where the file grows; no content, size or charge
/// changes then, and what is kept is in step with the region. It makes one write at most for each block that the tree may
/// have unwritten.
pub fn resize<R: Rig>(
    state: &mut TreeState,
    rig: &mut R,
    row: &TreeRow,
    at: u64,
    file: FileNode,
    size: u32,
) -> Result<(), StateRefusal>
    requires fits { at + 512 * tree_blocks row.now ≤ (R.state rig.old).size }
    requires state { IsState R.tells_view row.now at (R.state rig.old) state.old }
    requires in_use { IsSome (slot state.old.kept.tree.files file.0) }
    requires buffers { 1 ≤ row.now.dirty }
    ensures answer { IsAnswer (content_refusal state.old.charges file.0 (changes_of state.old.present file) size)
        ((state.new ≡ state.old) × (rig.new ≡ rig.old))
        ((size_of state.old.present file < size) × Rose (R.state rig.old).read_faults (R.state rig.new).read_faults)
        (Rose (R.state rig.old).write_faults (R.state rig.new).write_faults) result }
    ensures changed { OnOk result (IsChanged R.tells_view row.now at (R.state rig.old).view (R.state rig.new).view file (λ content. resized content size) size state.old state.new) }
    ensures unchanged { OnErr result (IsUnchanged R.tells_view row.now at (R.state rig.old).view (R.state rig.new).view state.old state.new) }
    ensures durable { StaysDurable R.tells_view row.now at (R.state rig.old) (R.state rig.new) state.old state.new }
{
    if let Some(errno) = refusal(state, file, size) {
        return Err(StateRefusal::Refused(errno));
    }
    match write_back(state, rig, row, at, 1) {
        Err(_) => return Err(StateRefusal::Device),
        Ok(()) => {}
    }
    match resize_held(state, rig, row, at, file, size) {
        Err(_) => Err(StateRefusal::ReadFault),
        Ok(()) => Ok(()),
    }
}
