//! The command `check`.
ghost use Rattle.std.specs.Prelude.{◌≡◌, ◌≢◌, ◌≤◌, ℕ, List, Some, IfOk, IfErr, Option};
ghost use Rattle.apex_model.specs.Accepted.{IsAccepted};
ghost use Rattle.rig_core.specs.Leaves.{IsAllSettled};
ghost use Rattle.rig_core.specs.Outside.{Later};
ghost use Rattle.apex_host.specs.Disk.{OnlyTells, LeavesDisk};
ghost use Rattle.apex_host.specs.Endings.{seen, EndsSo};
ghost use Rattle.apex_host.specs.Stops.{told_with, Owes};
ghost use Rattle.apex_host.specs.Told.{good_line};

use crate::accepting::accepted_table;
use crate::command::Command;
use crate::opening::mounted;
use crate::status::Status;
use crate::stops::Stop;
use crate::telling::told;
use apex_types::Table;
use call_script::ReplyText;
use rig_core::{Rig, Source};
use std::alloc::Global;

/// The line that tells that the image of a table is good.
fn good(table: &Table) -> ReplyText
    requires { IsAccepted table.now }
    ensures { result ≡ good_line table.now }
{
    let mut text = ReplyText::new();
    text.put(b"image");
    text.put_word(b"good");
    text.put_word(b"trees");
    text.put_number(table.trees().len() as u32);
    text.put_word(b"logbooks");
    text.put_number(table.logbooks().len() as u32);
    text.put_byte(b'\n');
    text
}

/// Reads the table and mounts the image. It answers the line that tells that the image is good.
fn checked_image<T: Source, R: Rig>(
    alloc: Global,
    table: &mut T,
    rig: &mut R,
) -> Result<ReplyText, Stop>
    requires settled { IsAllSettled (R.state rig.old) }
    ensures made { (script : Option (List ℕ)) (faults : ℕ) → IfOk result (λ line.
        Owes R.tells_text R.tells_view (Some Command.Check)
        (seen (T.left table.old) (T.faults table.old) script faults (R.state rig.old))
        (seen (T.left table.new) (T.faults table.new) script faults (R.state rig.new))
        (told_with Status.Done line)) }
    ensures stopped { (script : Option (List ℕ)) (faults : ℕ) → IfErr result
        (Owes R.tells_text R.tells_view (Some Command.Check)
        (seen (T.left table.old) (T.faults table.old) script faults (R.state rig.old))
        (seen (T.left table.new) (T.faults table.new) script faults (R.state rig.new))) }
    ensures undone { IfErr result (λ stop. stop.status ≢ Status.Done) }
    ensures disk { OnlyTells R.tells_view (R.state rig.old) (R.state rig.new) }
    ensures table_later { T.faults table.old ≤ T.faults table.new }
{
    let rows = match accepted_table(alloc, table) {
        Ok(rows) => rows,
        Err(stop) => return Err(stop),
    };
    match mounted(alloc, &rows, rig) {
        Ok(_) => {}
        Err(stop) => return Err(stop),
    }
    Ok(good(&rows))
}

/// Tells whether the device's image is good for the table that the source gives, or why it is
/// refused, and answers the status. Nothing is written. What is found good, a run starts from.
pub fn check<T: Source, R: Rig>(alloc: Global, table: &mut T, rig: &mut R) -> Status
    requires settled { IsAllSettled (R.state rig.old) }
    ensures ends { (script : Option (List ℕ)) (faults : ℕ)
        → EndsSo R.tells_text R.tells_view (Some Command.Check)
        (seen (T.left table.old) (T.faults table.old) script faults (R.state rig.old))
        (seen (T.left table.new) (T.faults table.new) script faults (R.state rig.new)) result }
    ensures disk { (script : Option (List ℕ)) → LeavesDisk R.tells_text R.tells_view
        (T.left table.old) script (R.state rig.old) (R.state rig.new)
        (Some Command.Check) result }
    ensures later { Later (R.state rig.old) (R.state rig.new) }
    ensures table_later { T.faults table.old ≤ T.faults table.new }
{
    match checked_image(alloc, table, rig) {
        Ok(line) => told(rig, line.bytes(), Status::Done),
        Err(stop) => told(rig, stop.line.bytes(), stop.status),
    }
}
