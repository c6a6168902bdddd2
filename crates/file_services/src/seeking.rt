// Moving handles within files.
ghost use Rattle.std.specs.Prelude.{◌≡◌, ◌<◌, ◌+ℤ◌, List, pos, length};
ghost use Rattle.apex_model.specs.FileStep.{seek_file as seek_step, base, within_size};
ghost use Rattle.store_model.specs.Stores.{StoreValue};
ghost use Rattle.service_parts.specs.Serving.{AllOutline, AreSeen, Serves};

use apex_types::{Errno, PartitionId, Reply, Values, Whence};
use open_handles::Handles;
use service_parts::{refusal, success};
use tree_store::Trees;

/// What an offset counts from, at this position of a file of this size.
fn base_of(whence: Whence, position: u32, size: u32) -> u32
    ensures { result ≡ base whence position size }
{
    match whence {
        Whence::Set => 0,
        Whence::Cur => position,
        Whence::End => size,
    }
}

/// The position at an offset from a base, where that is a position of a file of this size.
fn target_of(size: u32, base: u32, offset: i64) -> Option<u32>
    ensures { result ≡ within_size size (offset +ℤ pos base) }
{
    // Beyond these no sum is a position, and within them none overflows.
    if offset > 4_294_967_295 {
        return None;
    }
    if offset < -4_294_967_295 {
        return None;
    }
    let target = offset + base as i64;
    if target < 0 {
        return None;
    }
    if target > size as i64 {
        return None;
    }
    Some(target as u32)
}

/// Moves an open file's position.
pub fn seek_file(
    trees: &Trees,
    handles: &mut Handles,
    p: PartitionId,
    id: u32,
    offset: i64,
    whence: Whence,
) -> Reply
    requires caller { p.0 < length handles.old }
    requires seen { AreSeen trees.now handles.old }
    ensures { (stores : List StoreValue) → AllOutline trees.now stores
        → Serves (λ fs. seek_step fs p.0 id offset whence)
        stores handles.old stores handles.new result }
{
    let Some(handle) = handles.file(p, id) else {
        return refusal(Errno::Ebadf);
    };
    let Some(file) = handle.file else {
        return refusal(Errno::Estale);
    };
    let size = trees.size(handle.tree, file);
    let Some(target) = target_of(size, base_of(whence, handle.position, size), offset) else {
        return refusal(Errno::Einval);
    };
    handles.set_position(p, id, target);
    success(Values::Number(target))
}
