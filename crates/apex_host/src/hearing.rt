//! The command `only`.
ghost use Rattle.std.specs.Prelude.{◌≡◌, ◌≢◌, ◌⊎◌, ◌≤◌, Some, IfOk, IfErr};
ghost use Rattle.rig_core.specs.Leaves.{IsAllSettled};
ghost use Rattle.rig_core.specs.Outside.{Later};
ghost use Rattle.apex_host.specs.Disk.{OnlyTells, LeavesDisk};
ghost use Rattle.apex_host.specs.Endings.{seen_by, EndsSo, ReadsScript};
ghost use Rattle.apex_host.specs.Stops.{Owes};

use crate::accepting::{accepted_script, accepted_table};
use crate::command::Command;
use crate::opening::opened_session;
use crate::status::Status;
use crate::stops::Stop;
use crate::telling::told;
use apex_types::Name;
use call_script::partition_named;
use model_laws::replies_depend_on_upstream;
use rig_core::{Rig, Source};
use script_run::{LineStop, carry_out_heard, own_script};
use std::alloc::Global;

/// Reads the table, finds the partition of this name, reads the script, opens the image, carries out
/// the lines of the partition's upstream, and tells its replies. It answers the status where all that
/// is due is told or telling failed, and else why it stopped, which is still to be told.
fn hear<T: Source, S: Source, R: Rig>(
    alloc: Global,
    name: &Name,
    table: &mut T,
    script: &mut S,
    rig: &mut R,
) -> Result<Status, Stop>
    requires settled { IsAllSettled (R.state rig.old) }
    ensures ends { IfOk result (EndsSo R.tells_text R.tells_view (Some (Command.Only name.now))
        (seen_by T.left T.faults S.left S.faults R.state table.old script.old rig.old)
        (seen_by T.left T.faults S.left S.faults R.state table.new script.new rig.new)) }
    ensures stopped { IfErr result (Owes R.tells_text R.tells_view (Some (Command.Only name.now))
        (seen_by T.left T.faults S.left S.faults R.state table.old script.old rig.old)
        (seen_by T.left T.faults S.left S.faults R.state table.new script.new rig.new)) }
    ensures script_unread { (script.new ≡ script.old)
        ⊎ ReadsScript (Some (Command.Only name.now))
        (T.left table.old) (T.left table.new) (T.faults table.old) (T.faults table.new) }
    ensures disk { IfOk result (LeavesDisk R.tells_text R.tells_view (T.left table.old)
        (S.left script.old) (R.state rig.old) (R.state rig.new) (Some (Command.Only name.now))) }
    ensures unwritten { IfErr result (λ stop. (stop.status ≢ Status.Done)
        × OnlyTells R.tells_view (R.state rig.old) (R.state rig.new)) }
    ensures later { Later (R.state rig.old) (R.state rig.new) }
    ensures table_later { T.faults table.old ≤ T.faults table.new }
    ensures script_later { S.faults script.old ≤ S.faults script.new }
{
    // That a partition's replies depend on its upstream alone.
    replies_depend_on_upstream();
    let rows = match accepted_table(alloc, table) {
        Ok(rows) => rows,
        Err(stop) => return Err(stop),
    };
    let Some(p) = partition_named(&rows, name.bytes()) else {
        return Err(Stop::unknown_partition());
    };
    let lines = match accepted_script(alloc, script, &rows) {
        Ok(lines) => lines,
        Err(stop) => return Err(stop),
    };
    let lines = own_script(&rows, p, lines);
    let mut session = match opened_session(alloc, rows, rig) {
        Ok(session) => session,
        Err(stop) => return Err(stop),
    };
    match carry_out_heard(&mut session, &lines, p, rig) {
        Ok(()) => Ok(Status::Done),
        Err(LineStop::Device) => Ok(Status::DeviceFault),
        Err(LineStop::Tell) => Ok(Status::ReplyFault),
    }
}

/// Carries out those lines of the script that are of the upstream of the partition of this name, and
/// the ticks, from the state that the device's image stands for; tells that partition's replies, with
/// the numbers that their lines have in the whole script; and answers the status. A reply that tells
/// of a failed read ends it, as each other fault of the device does.
pub fn only<T: Source, S: Source, R: Rig>(
    alloc: Global,
    name: &Name,
    table: &mut T,
    script: &mut S,
    rig: &mut R,
) -> Status
    requires settled { IsAllSettled (R.state rig.old) }
    ensures ends { EndsSo R.tells_text R.tells_view (Some (Command.Only name.now))
        (seen_by T.left T.faults S.left S.faults R.state table.old script.old rig.old)
        (seen_by T.left T.faults S.left S.faults R.state table.new script.new rig.new) result }
    ensures script_unread { (script.new ≡ script.old)
        ⊎ ReadsScript (Some (Command.Only name.now))
        (T.left table.old) (T.left table.new) (T.faults table.old) (T.faults table.new) }
    ensures disk { LeavesDisk R.tells_text R.tells_view (T.left table.old) (S.left script.old)
        (R.state rig.old) (R.state rig.new) (Some (Command.Only name.now)) result }
    ensures later { Later (R.state rig.old) (R.state rig.new) }
    ensures table_later { T.faults table.old ≤ T.faults table.new }
    ensures script_later { S.faults script.old ≤ S.faults script.new }
{
    match hear(alloc, name, table, script, rig) {
        Ok(status) => status,
        Err(stop) => told(rig, stop.line.bytes(), stop.status),
    }
}
