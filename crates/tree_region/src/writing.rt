// A data block that isn't named is written, and the region stays in step.
ghost use Rattle.std.specs.Prelude.{◌≡◌, ◌+◌, ◌*◌, ◌^◌, ◌<◌, ◌≤◌, length, OnOk, OnErr};
ghost use Rattle.apex_model.specs.Image.{tree_of_region};
ghost use Rattle.apex_model.specs.Layout.{tree_blocks};
ghost use Rattle.rig_core.specs.Bytes.{part, SameElsewhere};
ghost use Rattle.rig_core.specs.Causes.{Rose};
ghost use Rattle.rig_core.specs.Leaves.{Leaves, LeavesElsewhere};
ghost use Rattle.rig_core.specs.Outside.{Later, MakesAtMost};
ghost use Rattle.tree_region.specs.Region.{region_at};
ghost use Rattle.tree_region.specs.InStep.{InStep, AreOthers, block_place, slots_long};

use crate::region::TreeRegion;
use apex_types::TreeRow;
use rig_core::{DeviceFault, Rig};

/// The first byte behind both slots of a region.
fn data_start(row: &TreeRow, at: u64) -> u64
    requires { at + 512 * tree_blocks row.now < 2 ^ 64 }
    ensures { result ≡ at + slots_long row.now }
{
    let entries = u64::from(row.files) + u64::from(row.directories);
    let body = (64 + 128 * entries + 4 * u64::from(row.quota)).div_ceil(512);
    at + 1024 * (65 + body)
}

/// Writes the 512 bytes of a data block, by its number from 1 on, which none of the files that are kept has. No sync is made, so
/// a cut may leave any bytes in the block; the region stays in step, and at every moment it stands for the same tree.
/// A fault comes only where the rig's write faults rose.
pub fn write_block<R: Rig>(
    kept: &TreeRegion,
    rig: &mut R,
    row: &TreeRow,
    at: u64,
    number: u32,
    bytes: &[u8],
) -> Result<(), DeviceFault>
    requires fits { at + 512 * tree_blocks row.now ≤ (R.state rig.old).size }
    requires first { 1 ≤ number }
    requires last { number ≤ 2 * row.now.quota }
    requires long { length bytes.now ≡ 512 }
    requires unnamed { AreOthers number kept.now.table.files.items }
    requires in_step { InStep R.tells_view row.now at (R.state rig.old) kept.now }
    ensures any_moment { Leaves (λ image. tree_of_region row.now (region_at row.now at image) ≡ tree_of_region row.now (region_at row.now at (R.state rig.old).view)) (R.state rig.old) (R.state rig.new) }
    ensures in_step { InStep R.tells_view row.now at (R.state rig.new) kept.now }
    ensures written { R.tells_view → OnOk result (part (block_place row.now at number) 512 (R.state rig.new).view ≡ bytes.now) }
    ensures outside { LeavesElsewhere (block_place row.now at number) 512 (R.state rig.old) (R.state rig.new) }
    ensures outside_view { R.tells_view → SameElsewhere (block_place row.now at number) 512 (R.state rig.old).view (R.state rig.new).view }
    ensures later { Later (R.state rig.old) (R.state rig.new) }
    ensures made { MakesAtMost 1 0 0 (R.state rig.old) (R.state rig.new) }
    ensures rises { R.keeps_cuts → OnOk result ((R.state rig.new).clock ≡ (R.state rig.old).clock + 1) }
    ensures cause { OnErr result (Rose (R.state rig.old).write_faults (R.state rig.new).write_faults) }
{
    let place = data_start(row, at) + 512 * (u64::from(number) - 1);
    rig.write(place, bytes)?;
    Ok(())
}
