// The superblock's gate is byte 0 of the image.
ghost use Rattle.std.specs.Prelude.{◌≡◌, ◌⊎◌, ◌*◌, ◌<◌, ◌≤◌, OnOk, OnErr};
ghost use Rattle.apex_types.specs.Rows.{Rows};
ghost use Rattle.apex_model.specs.Layout.{layout_blocks};
ghost use Rattle.rig_core.specs.Causes.{Rose};
ghost use Rattle.rig_core.specs.Outside.{Later, MakesAtMost};
ghost use Rattle.rig_core.specs.Leaves.{Leaves, IsAllSettled};
ghost use Rattle.image_laws.specs.EmptyImage.{IsOpenAt, IsClosedAt, IsEmptyImage};
ghost use Rattle.recover_scan.specs.Format.{ChangesOnly, HasEmptyParts};

use gate_slots::{gate_read, gate_set};
use rig_core::{DeviceFault, Rig};

/// Closes the superblock's gate where it is open, and makes sure of it. A closed gate is not written.
pub(crate) fn close_gate<R: Rig>(rig: &mut R) -> Result<(), DeviceFault>
    requires some { 0 < (R.state rig.old).size }
    requires settled { IsAllSettled (R.state rig.old) }
    ensures later { Later (R.state rig.old) (R.state rig.new) }
    ensures changes { ChangesOnly R.tells_view 0 1 (R.state rig.old) (R.state rig.new) }
    ensures made { MakesAtMost 1 1 0 (R.state rig.old) (R.state rig.new) }
    ensures closing { Leaves (λ image. (image ≡ (R.state rig.old).view) ⊎ IsClosedAt 0 image) (R.state rig.old) (R.state rig.new) }
    ensures unwritten { R.tells_view → IsClosedAt 0 (R.state rig.old).view → MakesAtMost 0 0 0 (R.state rig.old) (R.state rig.new) }
    ensures closed { R.tells_view → OnOk result (IsClosedAt 0 (R.state rig.new).view) }
    ensures settled { OnOk result (IsAllSettled (R.state rig.new)) }
    ensures cause { OnErr result (Rose (R.state rig.old).read_faults (R.state rig.new).read_faults ⊎ Rose (R.state rig.old).write_faults (R.state rig.new).write_faults) }
{
    let open = gate_read(rig, 0)?;
    if open {
        gate_set(rig, 0, false)?;
    }
    Ok(())
}

/// Opens the superblock's gate over an empty image, and makes sure of it.
pub(crate) fn open_gate<R: Rig>(rig: &mut R) -> Result<(), DeviceFault>
    requires some { 0 < (R.state rig.old).size }
    requires settled { IsAllSettled (R.state rig.old) }
    ensures later { Later (R.state rig.old) (R.state rig.new) }
    ensures changes { ChangesOnly R.tells_view 0 1 (R.state rig.old) (R.state rig.new) }
    ensures made { MakesAtMost 1 1 0 (R.state rig.old) (R.state rig.new) }
    ensures opening { (table : Rows) → 512 * layout_blocks table ≤ (R.state rig.old).size → (R.tells_view → HasEmptyParts table (R.state rig.old).view)
        → Leaves (λ image. IsClosedAt 0 image ⊎ IsEmptyImage table image) (R.state rig.old) (R.state rig.new) }
    ensures opened { (table : Rows) → 512 * layout_blocks table ≤ (R.state rig.old).size → (R.tells_view → HasEmptyParts table (R.state rig.old).view)
        → R.tells_view → OnOk result (IsEmptyImage table (R.state rig.new).view) }
    ensures whole { R.tells_view → (table : Rows) → HasEmptyParts table (R.state rig.old).view → OnOk result (IsOpenAt 0 (R.state rig.new).view × HasEmptyParts table (R.state rig.new).view) }
    ensures settled { OnOk result (IsAllSettled (R.state rig.new)) }
    ensures cause { OnErr result (Rose (R.state rig.old).write_faults (R.state rig.new).write_faults) }
{
    gate_set(rig, 0, true)?;
    Ok(())
}
