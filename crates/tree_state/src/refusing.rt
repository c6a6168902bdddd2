// Why a file can't get a content of some size.
ghost use Rattle.std.specs.Prelude.{◌≡◌, ◌<◌, length, IfNone};
ghost use Rattle.present_files.specs.Present.{changes_of};
ghost use Rattle.tree_state.specs.ContentRefusals.{MayHave, content_refusal};

use crate::state::TreeState;
use apex_types::{Errno, FileNode};

/// Why a file can't get a content of this size, if it can't: it has at most 1,048,576 bytes, its tree's quota has room
/// for its blocks, and it was changed fewer than 4,294,967,295 times.
pub(crate) fn refusal(state: &TreeState, file: FileNode, size: u32) -> Option<Errno>
    requires charged { file.0 < length state.now.charges.by_file }
    requires sized { file.0 < length state.now.present.sizes.items }
    ensures reason { result ≡ content_refusal state.now.charges file.0 (changes_of state.now.present file) size }
    ensures may { IfNone result (MayHave state.now.charges file.0 (changes_of state.now.present file) size) }
{
    if size > 1_048_576 {
        return Some(Errno::Efbig);
    }
    if !state.charges.fits(file, size.div_ceil(512)) {
        return Some(Errno::Enospc);
    }
    if state.present.sizes[file.0 as usize].changes == u32::MAX {
        return Some(Errno::Eoverflow);
    }
    None
}
