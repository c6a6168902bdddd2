// A script carried out until the power fails.
ghost use Rattle.std.specs.Prelude.{◌≡◌, false, IfOk};
ghost use Rattle.std.specs.List.{AllByRecursion};
ghost use Rattle.apex_model.specs.Accepted.{IsAccepted};
ghost use Rattle.apex_model.specs.Lines.{IsLineOf};
ghost use Rattle.rig_core.specs.FuseRig.{fuse_state, is_fuse_starved};
ghost use Rattle.recover_scan.specs.Format.{IsFormatted};
ghost use Rattle.rig_core.specs.Outside.{AllNow};
ghost use Rattle.power_sweep.specs.Cuts.{IsLeftImage};
ghost use Rattle.power_sweep.specs.Whole.{IsWholeRun};

use crate::counted::CountedRig;
use apex_types::{ByteList, OutOfMemory, Table};
use call_script::Script;
use image_mount::mount;
use module_session::Session;
use rig_core::FuseRig;
use script_run::carry_out_for;
use std::alloc::Global;

/// What is there after a run whose power failed, or whose lines came to their end.
#[derive(Drop)]
pub(crate) struct FusedRun {
    /// The table, for the next run.
    pub table: Table,
    /// The device, of which a cut takes what it may leave now.
    pub rig: FuseRig,
    /// Whether as many writes and syncs were let pass as may.
    pub used_up: bool,
}

/// Mounts an empty image and carries out a script on it. The power fails after so many writes and syncs. Where fewer of
/// them were made, all lines were carried out. Where the device's record can't grow, no run is given.
pub(crate) fn fused_run(
    alloc: Global,
    table: Table,
    script: &Script,
    image: &ByteList,
    calls: u64,
) -> Result<FusedRun, OutOfMemory>
    requires accepted { IsAccepted table }
    requires of_table { AllByRecursion (IsLineOf table) script.now }
    requires empty { IsFormatted table image.now }
    ensures table { IfOk result (λ run. run.table ≡ table) }
    ensures fed { IfOk result (λ run. is_fuse_starved run.rig ≡ false) }
    ensures cuts { IfOk result (λ run. AllNow (IsLeftImage table script.now)
        (fuse_state run.rig)) }
    ensures whole { IfOk result (λ run. run.used_up ≡ false
        → IsWholeRun table script.now run.rig) }
{
    let mut rig = CountedRig::new(alloc, image.copy()?, calls)?;
    let Ok(store) = mount(alloc, &table, &mut rig) else {
        return Err(OutOfMemory);
    };
    let mut session = Session::start(alloc, table, store, &rig)?;
    // Behind the last line, or where the power failed: both are runs to be cut.
    let _ended = carry_out_for(&mut session, script, None, &mut rig);
    if rig.starved() {
        return Err(OutOfMemory);
    }
    let used_up = rig.is_used_up();
    let table = session.finish();
    let rig = rig.into_disk();
    Ok(FusedRun {
        table,
        rig,
        used_up,
    })
}
