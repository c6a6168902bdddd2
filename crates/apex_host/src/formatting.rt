//! The command `format`.
ghost use Rattle.std.specs.Prelude.{◌≡◌, ◌≢◌, ◌⊎◌, ◌≤◌, ℕ, List, Some, IfOk, IfErr, OnOk, Option};
ghost use Rattle.rig_core.specs.Leaves.{IsAllSettled};
ghost use Rattle.rig_core.specs.Outside.{Later};
ghost use Rattle.apex_host.specs.Disk.{BeginsFormat, MakesEmpty, LeavesDisk};
ghost use Rattle.apex_host.specs.Endings.{seen, EndsSo};
ghost use Rattle.apex_host.specs.Stops.{told_with, Owes};
ghost use Rattle.apex_host.specs.Told.{formatted_line};

use crate::accepting::accepted_table;
use crate::command::Command;
use crate::status::Status;
use crate::stops::Stop;
use crate::telling::told;
use call_script::ReplyText;
use image_format::layout;
use recover_scan::{FormatError, format};
use rig_core::{Rig, Source};
use std::alloc::Global;

/// The line that tells that an image of so many blocks was made.
fn formatted(blocks: u32) -> ReplyText
    ensures { result ≡ formatted_line blocks }
{
    let mut text = ReplyText::new();
    text.put(b"formatted");
    text.put_number(blocks);
    text.put_word(b"blocks");
    text.put_byte(b'\n');
    text
}

/// Reads the table and formats the device. It answers the number of blocks of the table's image.
fn format_image<T: Source, R: Rig>(alloc: Global, table: &mut T, rig: &mut R) -> Result<u32, Stop>
    requires settled { IsAllSettled (R.state rig.old) }
    ensures made { (script : Option (List ℕ)) (faults : ℕ) → IfOk result (λ blocks.
        Owes R.tells_text R.tells_view (Some Command.Format)
        (seen (T.left table.old) (T.faults table.old) script faults (R.state rig.old))
        (seen (T.left table.new) (T.faults table.new) script faults (R.state rig.new))
        (told_with Status.Done (formatted_line blocks))) }
    ensures stopped { (script : Option (List ℕ)) (faults : ℕ) → IfErr result
        (Owes R.tells_text R.tells_view (Some Command.Format)
        (seen (T.left table.old) (T.faults table.old) script faults (R.state rig.old))
        (seen (T.left table.new) (T.faults table.new) script faults (R.state rig.new))) }
    ensures empty { OnOk result
        (MakesEmpty R.tells_view (T.left table.old) (R.state rig.old) (R.state rig.new)) }
    ensures failed { IfErr result (λ stop. ((stop.status ≢ Status.Done) × (rig.new ≡ rig.old))
        ⊎ ((stop.status ≡ Status.DeviceFault)
        × BeginsFormat (T.left table.old) (R.state rig.old) (R.state rig.new))) }
    ensures later { Later (R.state rig.old) (R.state rig.new) }
    ensures table_later { T.faults table.old ≤ T.faults table.new }
{
    let rows = match accepted_table(alloc, table) {
        Ok(rows) => rows,
        Err(stop) => return Err(stop),
    };
    match format(alloc, rig, &rows) {
        Ok(()) => Ok(layout(&rows).blocks()),
        Err(FormatError::TooSmall { wanted }) => Err(Stop::small(wanted as u32)),
        Err(FormatError::Device) => Err(Stop::format_fault()),
        Err(FormatError::Memory) => Err(Stop::memory()),
    }
}

/// Makes the device the empty image of the table that the source gives, tells its number of blocks,
/// and answers the status. Where a read of the source fails, that is told, whatever was read
/// before.
pub fn format_device<T: Source, R: Rig>(alloc: Global, table: &mut T, rig: &mut R) -> Status
    requires settled { IsAllSettled (R.state rig.old) }
    ensures ends { (script : Option (List ℕ)) (faults : ℕ)
        → EndsSo R.tells_text R.tells_view (Some Command.Format)
        (seen (T.left table.old) (T.faults table.old) script faults (R.state rig.old))
        (seen (T.left table.new) (T.faults table.new) script faults (R.state rig.new)) result }
    ensures disk { (script : Option (List ℕ)) → LeavesDisk R.tells_text R.tells_view
        (T.left table.old) script (R.state rig.old) (R.state rig.new)
        (Some Command.Format) result }
    ensures later { Later (R.state rig.old) (R.state rig.new) }
    ensures table_later { T.faults table.old ≤ T.faults table.new }
{
    match format_image(alloc, table, rig) {
        Ok(blocks) => told(rig, formatted(blocks).bytes(), Status::Done),
        Err(stop) => told(rig, stop.line.bytes(), stop.status),
    }
}
