// What a power cut leaves of a recorded run.
ghost use Rattle.std.specs.Prelude.{◌≡◌, ℕ, ◌<◌, length, All, IfOk, if◌then◌else◌};
ghost use Rattle.rig_core.specs.Bytes.{byte};
ghost use Rattle.rig_core.specs.Cuts.{leaves_byte, made_sure, IsCut};
ghost use Rattle.rig_core.specs.Record.{Disk, fresh_disk, after, Fits};

use crate::call::CallRecord;
use crate::image::put_bytes;
use apex_types::{ByteList, CallKind, OutOfMemory};
use std::alloc::Global;

/// Which of the bytes that no sync has made sure of a power cut leaves. The others are as they were last synchronised.
#[derive(Clone, Copy)]
pub enum PendingBytes {
    None,
    All,
    /// Those in blocks of an even number, of 512 bytes each.
    EvenBlocks,
}

impl PendingBytes {
    // Whether the byte at a place is left.
    fn leaves(self, place: usize) -> bool
        ensures { result ≡ leaves_byte self place }
    {
        match self {
            PendingBytes::None => false,
            PendingBytes::All => true,
            PendingBytes::EvenBlocks => place / 512 % 2 == 0,
        }
    }
}

// Makes a recorded call again.
fn make_again(call: &CallRecord, view: &mut Vec<u8>, synchronised: &mut [u8])
    requires fits { Fits (length view.old.items) call.now }
    requires long { length synchronised.old ≡ length view.old.items }
    ensures shown { (d : Disk) → d.view ≡ view.old.items → (after call.now d).view ≡ view.new.items }
    ensures long { length view.new.items ≡ length view.old.items }
    ensures sure { synchronised.new ≡ (if made_sure call.now.kind call.now.ok then view.new.items else synchronised.old) }
{
    if !call.ok {
        return;
    }
    match call.kind {
        CallKind::Write => put_bytes(view, call.at as usize, call.bytes.bytes()),
        CallKind::Sync => synchronised.copy_from_slice(view),
        CallKind::Read | CallKind::Tell => {}
    }
}

// Leaves pending bytes in an image that was synchronised.
fn leave(left: PendingBytes, view: &[u8], image: &mut [u8])
    requires { length image.old ≡ length view.now }
    ensures { (k : ℕ) → k < length image.old → byte image.new k ≡ (if leaves_byte left k then byte view.now k else byte image.old k) }
{
    for k in 0..view.len() {
        if left.leaves(k) {
            image[k] = view[k];
        }
    }
}

/// What a power cut after these calls leaves of an image.
pub(crate) fn image_after(
    alloc: Global,
    image: &[u8],
    calls: &[CallRecord],
    left: PendingBytes,
) -> Result<ByteList, OutOfMemory>
    requires { All (Fits (length image.now)) calls.now }
    ensures { IfOk result (IsCut left (fresh_disk (length image.now) image.now) calls.now) }
{
    let mut view = ByteList::new(alloc);
    view.extend(image)?;
    let mut view = view.into_vec();
    let mut synchronised = ByteList::new(alloc);
    synchronised.extend(image)?;
    let mut synchronised = synchronised.into_vec();
    for call in calls {
        make_again(call, &mut view, &mut synchronised);
    }
    leave(left, &view, &mut synchronised);
    Ok(ByteList::from_vec(synchronised))
}
