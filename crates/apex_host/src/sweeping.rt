//! The command `sweep`.
ghost use Rattle.std.specs.Prelude.{◌≡◌, ◌≢◌, ◌⊎◌, ◌≤◌, Some, IfOk, IfErr};
ghost use Rattle.std.specs.Option.{ForSome};
ghost use Rattle.apex_model.specs.Accepted.{IsAccepted};
ghost use Rattle.rig_core.specs.Leaves.{IsAllSettled};
ghost use Rattle.rig_core.specs.Outside.{Later};
ghost use Rattle.apex_host.specs.Disk.{OnlyTells, LeavesDisk};
ghost use Rattle.apex_host.specs.Endings.{seen_by, EndsSo, ReadsScript, is_too_large};
ghost use Rattle.apex_host.specs.Stops.{told_with, Owes};
ghost use Rattle.apex_host.specs.Told.{swept_line};
ghost use Rattle.power_sweep.specs.declared.sweeping.Swept.{Swept};

use crate::accepting::{accepted_script, accepted_table};
use crate::command::Command;
use crate::status::Status;
use crate::stops::Stop;
use crate::telling::{put_count, told};
use apex_types::Table;
use call_script::{ReplyText, Script};
use image_format::layout;
use power_sweep::{Swept, sweep};
use rig_core::{Rig, Source};
use std::alloc::Global;

/// The most blocks that the image of a sweep has, and the most lines of its script.
const MOST_BLOCKS: u32 = 1_024;

const MOST_LINES: u32 = 64;

/// Whether the table's image or the script is too large for a sweep.
fn is_too_large(table: &Table, script: &Script) -> bool
    requires { IsAccepted table.now }
    ensures { result ≡ is_too_large table.now script.now }
{
    layout(table).blocks() > MOST_BLOCKS || script.len() > MOST_LINES
}

/// A count that a line can tell, which is below 2^32.
fn tellable(count: u64) -> Option<u32>
    ensures { ForSome result (λ n. n ≡ count) }
{
    if count > u64::from(u32::MAX) {
        return None;
    }
    Some(count as u32)
}

/// The line that tells these counts of a sweep.
fn swept_text(calls: u32, images: u32, mounted: u32, files: u32) -> ReplyText
    ensures { (counts : Swept) → calls ≡ counts.calls → images ≡ counts.images
        → mounted ≡ counts.mounted → files ≡ counts.files → result ≡ swept_line counts }
{
    let mut text = ReplyText::new();
    text.put(b"sweep");
    put_count(&mut text, b"calls", calls);
    put_count(&mut text, b"images", images);
    put_count(&mut text, b"mounted", mounted);
    put_count(&mut text, b"files", files);
    text.put_byte(b'\n');
    text
}

/// The line that tells what a sweep counted, where each count can be told.
fn swept(counts: &Swept) -> Option<ReplyText>
    ensures { ForSome result (λ line. line ≡ swept_line counts.now) }
{
    let calls = tellable(counts.calls)?;
    let images = tellable(counts.images)?;
    let mounted = tellable(counts.mounted)?;
    let files = tellable(counts.files)?;
    Some(swept_text(calls, images, mounted, files))
}

/// Reads the table and the script, and sweeps. It answers the line that tells what was counted.
fn swept_script<T: Source, S: Source, R: Rig>(
    alloc: Global,
    table: &mut T,
    script: &mut S,
    rig: &R,
) -> Result<ReplyText, Stop>
    ensures made { IfOk result (λ line. Owes R.tells_text R.tells_view (Some Command.Sweep)
        (seen_by T.left T.faults S.left S.faults R.state table.old script.old rig.now)
        (seen_by T.left T.faults S.left S.faults R.state table.new script.new rig.now)
        (told_with Status.Done line)) }
    ensures stopped { IfErr result (Owes R.tells_text R.tells_view (Some Command.Sweep)
        (seen_by T.left T.faults S.left S.faults R.state table.old script.old rig.now)
        (seen_by T.left T.faults S.left S.faults R.state table.new script.new rig.now)) }
    ensures undone { IfErr result (λ stop. stop.status ≢ Status.Done) }
    ensures script_unread { (script.new ≡ script.old) ⊎ ReadsScript (Some Command.Sweep)
        (T.left table.old) (T.left table.new) (T.faults table.old) (T.faults table.new) }
    ensures table_later { T.faults table.old ≤ T.faults table.new }
    ensures script_later { S.faults script.old ≤ S.faults script.new }
{
    let rows = match accepted_table(alloc, table) {
        Ok(rows) => rows,
        Err(stop) => return Err(stop),
    };
    let lines = match accepted_script(alloc, script, &rows) {
        Ok(lines) => lines,
        Err(stop) => return Err(stop),
    };
    if is_too_large(&rows, &lines) {
        return Err(Stop::too_large());
    }
    let counts = match sweep(alloc, rows, &lines) {
        Ok(counts) => counts,
        Err(_) => return Err(Stop::memory()),
    };
    match swept(&counts) {
        Some(line) => Ok(line),
        // A count of 2^32 or more, for which no memory is large enough.
        None => Err(Stop::memory()),
    }
}

/// Carries out the script that the sources give on the empty image of their table, in memory, once for
/// each number of calls of the device up to all of them; cuts the power after so many, in three ways;
/// mounts each image that is left; tells what it counted; and answers the status. The rig is for telling
/// alone. A table of more than 1,024 blocks or a script of more than 64 lines is refused.
pub fn sweep_script<T: Source, S: Source, R: Rig>(
    alloc: Global,
    table: &mut T,
    script: &mut S,
    rig: &mut R,
) -> Status
    requires settled { IsAllSettled (R.state rig.old) }
    ensures ends { EndsSo R.tells_text R.tells_view (Some Command.Sweep)
        (seen_by T.left T.faults S.left S.faults R.state table.old script.old rig.old)
        (seen_by T.left T.faults S.left S.faults R.state table.new script.new rig.new) result }
    ensures script_unread { (script.new ≡ script.old) ⊎ ReadsScript (Some Command.Sweep)
        (T.left table.old) (T.left table.new) (T.faults table.old) (T.faults table.new) }
    ensures disk { LeavesDisk R.tells_text R.tells_view (T.left table.old) (S.left script.old)
        (R.state rig.old) (R.state rig.new) (Some Command.Sweep) result }
    ensures later { Later (R.state rig.old) (R.state rig.new) }
    ensures table_later { T.faults table.old ≤ T.faults table.new }
    ensures script_later { S.faults script.old ≤ S.faults script.new }
{
    match swept_script(alloc, table, script, rig) {
        Ok(line) => told(rig, line.bytes(), Status::Done),
        Err(stop) => told(rig, stop.line.bytes(), stop.status),
    }
}
