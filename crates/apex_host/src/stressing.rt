//! The command `stress`.
ghost use Rattle.std.specs.Prelude.{◌≡◌, ◌≢◌, ◌⊎◌, ◌≤◌, ℕ, List, Some, IfOk, IfErr, OnOk, Option};
ghost use Rattle.rig_core.specs.Leaves.{IsAllSettled};
ghost use Rattle.rig_core.specs.Outside.{Later};
ghost use Rattle.apex_host.specs.Disk.{OnlyTells, BeginsLoad, CompletesLoad, LeavesDisk};
ghost use Rattle.apex_host.specs.Endings.{seen, EndsSo};
ghost use Rattle.apex_host.specs.Stops.{told_with, Owes};
ghost use Rattle.apex_host.specs.Told.{stressed_line};

use crate::accepting::accepted_table;
use crate::command::Command;
use crate::opening::opened_session;
use crate::status::Status;
use crate::stops::Stop;
use crate::telling::{put_count, told};
use call_script::ReplyText;
use rig_core::{Rig, Source};
use script_run::{Tally, carry_out_for};
use std::alloc::Global;
use stress_script::generate;

/// The line that tells how many replies a load of so many lines had, and how many had each code.
fn stressed(count: u32, tally: &Tally) -> ReplyText
    ensures { result ≡ stressed_line count tally.now }
{
    let mut text = ReplyText::new();
    text.put(b"stress");
    put_count(&mut text, b"lines", count);
    put_count(&mut text, b"replies", tally.replies);
    put_count(&mut text, b"NO_ERROR", tally.no_error);
    put_count(&mut text, b"NO_ACTION", tally.no_action);
    put_count(&mut text, b"NOT_AVAILABLE", tally.not_available);
    put_count(&mut text, b"INVALID_PARAM", tally.invalid_param);
    put_count(&mut text, b"INVALID_CONFIG", tally.invalid_config);
    put_count(&mut text, b"INVALID_MODE", tally.invalid_mode);
    put_count(&mut text, b"bytes", tally.data_bytes);
    text.put_byte(b'\n');
    text
}

/// Reads the table, draws the lines, opens the image and carries the lines out. It answers the tally of
/// their replies.
fn carried_load<T: Source, R: Rig>(
    alloc: Global,
    seed: u32,
    count: u32,
    table: &mut T,
    rig: &mut R,
) -> Result<Tally, Stop>
    requires settled { IsAllSettled (R.state rig.old) }
    requires few { count ≤ 20000 }
    ensures made { (script : Option (List ℕ)) (faults : ℕ) → IfOk result (λ tally.
        Owes R.tells_text R.tells_view (Some (Command.Stress seed count))
        (seen (T.left table.old) (T.faults table.old) script faults (R.state rig.old))
        (seen (T.left table.new) (T.faults table.new) script faults (R.state rig.new))
        (told_with Status.Done (stressed_line count tally))) }
    ensures stopped { (script : Option (List ℕ)) (faults : ℕ) → IfErr result
        (Owes R.tells_text R.tells_view (Some (Command.Stress seed count))
        (seen (T.left table.old) (T.faults table.old) script faults (R.state rig.old))
        (seen (T.left table.new) (T.faults table.new) script faults (R.state rig.new))) }
    ensures completed { OnOk result (CompletesLoad R.tells_view seed count (T.left table.old)
        (R.state rig.old) (R.state rig.new)) }
    ensures failed { IfErr result (λ stop. ((stop.status ≢ Status.Done)
        × OnlyTells R.tells_view (R.state rig.old) (R.state rig.new))
        ⊎ ((stop.status ≡ Status.DeviceFault) × BeginsLoad R.tells_view seed count
        (T.left table.old) (R.state rig.old) (R.state rig.new))) }
    ensures later { Later (R.state rig.old) (R.state rig.new) }
    ensures table_later { T.faults table.old ≤ T.faults table.new }
{
    let rows = match accepted_table(alloc, table) {
        Ok(rows) => rows,
        Err(stop) => return Err(stop),
    };
    let lines = match generate(alloc, seed, count, &rows) {
        Ok(lines) => lines,
        Err(_) => return Err(Stop::memory()),
    };
    let mut session = match opened_session(alloc, rows, rig) {
        Ok(session) => session,
        Err(stop) => return Err(stop),
    };
    match carry_out_for(&mut session, &lines, None, rig) {
        Ok(tally) => Ok(tally),
        // No reply is told, so that it was the device that failed.
        Err(_) => Err(Stop::stress_fault()),
    }
}

/// Carries out so many lines that are drawn from a seed, from the state that the device's image stands
/// for; tells how many replies there were, and how many had each code; and answers the status. A reply
/// that tells of a failed read ends it, as each other fault of the device does.
pub fn stress<T: Source, R: Rig>(
    alloc: Global,
    seed: u32,
    count: u32,
    table: &mut T,
    rig: &mut R,
) -> Status
    requires settled { IsAllSettled (R.state rig.old) }
    requires few { count ≤ 20000 }
    ensures ends { (script : Option (List ℕ)) (faults : ℕ)
        → EndsSo R.tells_text R.tells_view (Some (Command.Stress seed count))
        (seen (T.left table.old) (T.faults table.old) script faults (R.state rig.old))
        (seen (T.left table.new) (T.faults table.new) script faults (R.state rig.new)) result }
    ensures disk { (script : Option (List ℕ)) → LeavesDisk R.tells_text R.tells_view
        (T.left table.old) script (R.state rig.old) (R.state rig.new)
        (Some (Command.Stress seed count)) result }
    ensures later { Later (R.state rig.old) (R.state rig.new) }
    ensures table_later { T.faults table.old ≤ T.faults table.new }
{
    match carried_load(alloc, seed, count, table, rig) {
        Ok(tally) => told(rig, stressed(count, &tally).bytes(), Status::Done),
        Err(stop) => told(rig, stop.line.bytes(), stop.status),
    }
}
