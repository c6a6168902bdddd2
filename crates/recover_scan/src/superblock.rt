// The superblock of an image is read: whether the image is one of a table.
ghost use Rattle.std.specs.Prelude.{◌≡◌, ◌+◌, ◌*◌, ◌<◌, ◌≤◌, length, Err, IfOk, IfErr, IfSome, OnOk, IsErrOf};
ghost use Rattle.apex_model.specs.Accepted.{IsAccepted};
ghost use Rattle.apex_model.specs.Image.{first_difference, state_of, state_of_regions};
ghost use Rattle.apex_model.specs.Layout.{layout_blocks};
ghost use Rattle.rig_core.specs.Bytes.{part};
ghost use Rattle.rig_core.specs.Causes.{Rose};
ghost use Rattle.rig_core.specs.Outside.{OnlyReads};
ghost use Rattle.recover_scan.specs.Mount.{IsImageOf, IsRefusedFor, IsSmallFor, IsFaultOrMemory};
ghost use Rattle.recover_scan.specs.declared.errors.MountError.TheVariants.{TooSmall};

use crate::MountError;
use crate::runs::{superblock_bytes, zeros};
use apex_types::Table;
use gate_slots::gate_read;
use image_format::layout;
use image_laws::table_fits_superblock;
use rig_core::Rig;
use std::alloc::Global;

/// The first place at which bytes differ from those wanted. There are at least as many.
fn first_other(wanted: &[u8], bytes: &[u8]) -> Option<usize>
    requires { length wanted.now ≤ length bytes.now }
    ensures place { result ≡ first_difference 0 wanted.now bytes.now }
    ensures within { IfSome result (λ place. place < length wanted.now) }
{
    for k in 0..wanted.len() {
        if wanted[k] != bytes[k] {
            return Some(k);
        }
    }
    None
}

/// Compares the bytes behind the superblock's gate with those wanted, and answers the first place at which they differ.
fn compare<R: Rig>(alloc: Global, rig: &mut R, wanted: &[u8]) -> Result<Option<usize>, MountError>
    requires { 512 + length wanted.now ≤ (R.state rig.old).size }
    ensures place { R.tells_view → IfOk result (λ place. place ≡ first_difference 0 wanted.now (part 512 (length wanted.now) (R.state rig.old).view)) }
    ensures within { IfOk result (λ place. IfSome place (λ k. k < length wanted.now)) }
    ensures refused { IfErr result IsFaultOrMemory }
    ensures reads { OnlyReads R.tells_view (R.state rig.old) (R.state rig.new) }
    ensures cause { IsErrOf result MountError.Device → Rose (R.state rig.old).read_faults (R.state rig.new).read_faults }
{
    let Ok(mut bytes) = zeros(alloc, wanted.len()) else {
        return Err(MountError::Memory);
    };
    match rig.read(512, &mut bytes) {
        Ok(()) => Ok(first_other(wanted, &bytes)),
        Err(_) => Err(MountError::Device),
    }
}

/// Reads whether the image of a device is one of a table: the device is large enough, the superblock's gate is open, and
/// behind it stand the table's bytes. The first reason against it is answered, in this order. Only reads are made. A fault
/// comes only where the rig's read faults rose. The form of the superblock is this project's own.
pub fn read_superblock<R: Rig>(alloc: Global, rig: &mut R, table: &Table) -> Result<(), MountError>
    requires accepted { IsAccepted table.now }
    ensures good { R.tells_view → OnOk result (IsImageOf table.now (R.state rig.old).view) }
    ensures regions { R.tells_view → OnOk result (state_of table.now (R.state rig.old).view ≡ state_of_regions table.now (R.state rig.old).view) }
    ensures room { OnOk result (512 * layout_blocks table.now ≤ (R.state rig.old).size) }
    ensures refused { R.tells_view → IfErr result (IsRefusedFor table.now (R.state rig.old).view) }
    ensures small { (R.state rig.old).size < 512 * layout_blocks table.now → result ≡ Err (TooSmall (512 * layout_blocks table.now)) }
    ensures wanted { IfErr result (IsSmallFor table.now (R.state rig.old).size) }
    ensures reads { OnlyReads R.tells_view (R.state rig.old) (R.state rig.new) }
    ensures cause { IsErrOf result MountError.Device → Rose (R.state rig.old).read_faults (R.state rig.new).read_faults }
{
    table_fits_superblock();
    let wanted = 512 * u64::from(layout(table).blocks());
    if rig.size() < wanted {
        return Err(MountError::TooSmall { wanted });
    }
    match gate_read(rig, 0) {
        Err(_) => return Err(MountError::Device),
        Ok(false) => return Err(MountError::NotFormatted),
        Ok(true) => {}
    }
    let Ok(superblock) = superblock_bytes(alloc, table) else {
        return Err(MountError::Memory);
    };
    match compare(alloc, rig, superblock.bytes()) {
        Err(error) => Err(error),
        Ok(Some(place)) => Err(MountError::OtherTable {
            place: place as u32,
        }),
        Ok(None) => Ok(()),
    }
}
