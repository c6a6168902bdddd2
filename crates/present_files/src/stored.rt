// The bytes that data blocks have on the device.
ghost use Rattle.std.specs.Prelude.{◌≡◌, ◌+◌, ◌*◌, ◌^◌, ◌<◌, ◌≤◌, length, OnOk, OnErr};
ghost use Rattle.apex_model.specs.Image.{data_block};
ghost use Rattle.apex_model.specs.Layout.{tree_blocks};
ghost use Rattle.rig_core.specs.Bytes.{part};
ghost use Rattle.rig_core.specs.Causes.{Rose};
ghost use Rattle.rig_core.specs.Outside.{OnlyReads};
ghost use Rattle.tree_region.specs.InStep.{block_place, data_at};

use apex_types::TreeRow;
use rig_core::{DeviceFault, Rig};

/// The first byte of the data block of a number from 1 on.
fn block_start(row: &TreeRow, at: u64, number: u32) -> u64
    requires fits { at + 512 * tree_blocks row.now < 2 ^ 64 }
    requires first { 1 ≤ number }
    requires last { number ≤ 2 * row.now.quota }
    ensures { result ≡ block_place row.now at number }
{
    let entries = u64::from(row.files) + u64::from(row.directories);
    let body = (64 + 128 * entries + 4 * u64::from(row.quota)).div_ceil(512);
    at + 1024 * (65 + body) + 512 * (u64::from(number) - 1)
}

/// Fills a buffer with the bytes of a data block from a place in it on, by the block's number. Those of number 0 are
/// zeros. A fault comes only where the number isn't 0 and the rig's read faults rose.
pub(crate) fn read_stored<R: Rig>(
    rig: &mut R,
    row: &TreeRow,
    at: u64,
    number: u32,
    from: u32,
    into: &mut [u8],
) -> Result<(), DeviceFault>
    requires fits { at + 512 * tree_blocks row.now ≤ (R.state rig.old).size }
    requires last { number ≤ 2 * row.now.quota }
    requires within { from + length into.old ≤ 512 }
    ensures bytes { R.tells_view → OnOk result (into.new ≡ part from (length into.old) (data_block (data_at row.now at (R.state rig.old).view) number)) }
    ensures long { length into.new ≡ length into.old }
    ensures reads { OnlyReads R.tells_view (R.state rig.old) (R.state rig.new) }
    ensures stored { OnErr result (1 ≤ number) }
    ensures cause { OnErr result (Rose (R.state rig.old).read_faults (R.state rig.new).read_faults) }
{
    if number == 0 {
        into.fill(0);
        return Ok(());
    }
    let place = block_start(row, at, number) + u64::from(from);
    rig.read(place, into)?;
    Ok(())
}
