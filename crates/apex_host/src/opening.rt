//! A device's image, opened for a table.
ghost use Rattle.std.specs.Prelude.{◌≡◌, IfOk, IfErr};
ghost use Rattle.apex_model.specs.Accepted.{IsAccepted};
ghost use Rattle.rig_core.specs.Leaves.{IsAllSettled};
ghost use Rattle.rig_core.specs.Outside.{OnlyReads};
ghost use Rattle.image_mount.specs.Mounted.{IsMounted};
ghost use Rattle.module_session.specs.Sessions.{table_of_session, IsEarly, IsReady};
ghost use Rattle.apex_host.specs.Opening.{StartsFrom};
ghost use Rattle.apex_host.specs.Stops.{StopsMount};

use crate::stops::Stop;
use apex_types::Table;
use image_mount::{Store, mount};
use module_session::Session;
use rig_core::Rig;
use std::alloc::Global;

/// The trees and logbooks of the image that the device holds, for a table. Only reads are made.
pub fn mounted<R: Rig>(alloc: Global, table: &Table, rig: &mut R) -> Result<Store, Stop>
    requires accepted { IsAccepted table.now }
    requires settled { IsAllSettled (R.state rig.old) }
    ensures mounted { IfOk result (IsMounted R.tells_view (R.state rig.new) table.now) }
    ensures stopped { IfErr result
        (StopsMount R.tells_view table.now (R.state rig.old) (R.state rig.new)) }
    ensures reads { OnlyReads R.tells_view (R.state rig.old) (R.state rig.new) }
{
    match mount(alloc, table, rig) {
        Ok(store) => Ok(store),
        Err(error) => Err(Stop::image(error)),
    }
}

/// A session of a module of this table, from the state that the device's image stands for. Only
/// reads are made. It takes all memory that the session needs.
pub fn opened_session<R: Rig>(alloc: Global, table: Table, rig: &mut R) -> Result<Session, Stop>
    requires accepted { IsAccepted table }
    requires settled { IsAllSettled (R.state rig.old) }
    ensures table { IfOk result (λ session. table_of_session session ≡ table) }
    ensures early { IfOk result (IsEarly 1) }
    ensures ready { IfOk result (IsReady R.tells_view (R.state rig.new)) }
    ensures starts { R.tells_view
        → IfOk result (StartsFrom R.tells_view table (R.state rig.old) (R.state rig.new)) }
    ensures stopped { IfErr result
        (StopsMount R.tells_view table (R.state rig.old) (R.state rig.new)) }
    ensures reads { OnlyReads R.tells_view (R.state rig.old) (R.state rig.new) }
{
    let store = match mounted(alloc, &table, rig) {
        Ok(store) => store,
        Err(stop) => return Err(stop),
    };
    match Session::start(alloc, table, store, rig) {
        Ok(session) => Ok(session),
        Err(_) => Err(Stop::memory()),
    }
}
