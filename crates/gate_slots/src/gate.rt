// A gate is byte 0 of a block of its own.
ghost use Rattle.std.specs.Prelude.{◌≡◌, ◌==◌, ◌+◌, ◌<◌, ◌≤◌, ◌∷◌, [], length, OnOk, OnErr, IfOk, if◌then◌else◌};
ghost use Rattle.rig_core.specs.Bytes.{byte, put, SameElsewhere};
ghost use Rattle.rig_core.specs.Causes.{Rose};
ghost use Rattle.rig_core.specs.Outside.{Later, MakesAtMost, OnlyReads, Tears, Ticks};
ghost use Rattle.rig_core.specs.Leaves.{LeavesElsewhere, IsAllSettled};

use rig_core::{DeviceFault, Rig};

const OPEN: u8 = 0xA5;

/// Writes bytes and makes sure of them. Until then a cut may leave any bytes in their place.
/// A fault comes only where the rig's write faults rose.
pub fn write_settled<R: Rig>(rig: &mut R, at: u64, bytes: &[u8]) -> Result<(), DeviceFault>
    requires { at + length bytes.now ≤ (R.state rig.old).size }
    ensures later { Later (R.state rig.old) (R.state rig.new) }
    ensures made { MakesAtMost 1 1 0 (R.state rig.old) (R.state rig.new) }
    ensures rises { R.keeps_cuts → OnOk result ((R.state rig.new).clock ≡ (R.state rig.old).clock + 2) }
    ensures cuts { LeavesElsewhere at (length bytes.now) (R.state rig.old) (R.state rig.new) }
    ensures written { R.tells_view → OnOk result ((R.state rig.new).view ≡ put at bytes.now (R.state rig.old).view) }
    ensures elsewhere { R.tells_view → SameElsewhere at (length bytes.now) (R.state rig.old).view (R.state rig.new).view }
    ensures settled { OnOk result (IsAllSettled (R.state rig.new)) }
    ensures cause { OnErr result (Rose (R.state rig.old).write_faults (R.state rig.new).write_faults) }
{
    rig.write(at, bytes)?;
    rig.sync()?;
    Ok(())
}

/// Whether the gate at this byte is open. A fault comes only where the rig's read faults rose.
pub fn gate_read<R: Rig>(rig: &mut R, at: u64) -> Result<bool, DeviceFault>
    requires { at < (R.state rig.old).size }
    ensures reads { OnlyReads R.tells_view (R.state rig.old) (R.state rig.new) }
    ensures open { R.tells_view → IfOk result (λ opened. opened ≡ (byte (R.state rig.old).view at == 165)) }
    ensures cause { OnErr result (Rose (R.state rig.old).read_faults (R.state rig.new).read_faults) }
{
    let mut gate = [0];
    rig.read(at, &mut gate)?;
    Ok(gate[0] == OPEN)
}

/// Opens or closes the gate at this byte, without a sync. Until one answers `Ok` a cut may leave any byte there.
/// A fault comes only where the rig's write faults rose.
pub fn gate_write<R: Rig>(rig: &mut R, at: u64, opened: bool) -> Result<(), DeviceFault>
    requires { at < (R.state rig.old).size }
    ensures later { Later (R.state rig.old) (R.state rig.new) }
    ensures made { MakesAtMost 1 0 0 (R.state rig.old) (R.state rig.new) }
    ensures clock { Ticks (R.state rig.old) (R.state rig.new) }
    ensures rises { R.keeps_cuts → OnOk result ((R.state rig.new).clock ≡ (R.state rig.old).clock + 1) }
    ensures told { (R.state rig.new).told ≡ (R.state rig.old).told }
    ensures cuts { Tears at 1 (R.state rig.old) (R.state rig.new) }
    ensures written { R.tells_view → OnOk result ((R.state rig.new).view ≡ put at ((if opened then 165 else 0) ∷ []) (R.state rig.old).view) }
    ensures elsewhere { R.tells_view → SameElsewhere at 1 (R.state rig.old).view (R.state rig.new).view }
    ensures cause { OnErr result (Rose (R.state rig.old).write_faults (R.state rig.new).write_faults) }
{
    let byte = if opened { OPEN } else { 0 };
    rig.write(at, &[byte])?;
    Ok(())
}

/// Opens or closes the gate at this byte and makes sure of it. Until then a cut may leave any byte there.
/// A fault comes only where the rig's write faults rose.
pub fn gate_set<R: Rig>(rig: &mut R, at: u64, opened: bool) -> Result<(), DeviceFault>
    requires { at < (R.state rig.old).size }
    ensures later { Later (R.state rig.old) (R.state rig.new) }
    ensures made { MakesAtMost 1 1 0 (R.state rig.old) (R.state rig.new) }
    ensures rises { R.keeps_cuts → OnOk result ((R.state rig.new).clock ≡ (R.state rig.old).clock + 2) }
    ensures cuts { LeavesElsewhere at 1 (R.state rig.old) (R.state rig.new) }
    ensures written { R.tells_view → OnOk result ((R.state rig.new).view ≡ put at ((if opened then 165 else 0) ∷ []) (R.state rig.old).view) }
    ensures elsewhere { R.tells_view → SameElsewhere at 1 (R.state rig.old).view (R.state rig.new).view }
    ensures settled { OnOk result (IsAllSettled (R.state rig.new)) }
    ensures cause { OnErr result (Rose (R.state rig.old).write_faults (R.state rig.new).write_faults) }
{
    let byte = if opened { OPEN } else { 0 };
    write_settled(rig, at, &[byte])
}
