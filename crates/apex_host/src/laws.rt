//! What follows from how a command ends. The functions do nothing: each contract is a law of what
//! `host` ensures, of any two moments.
ghost use Rattle.std.specs.Prelude.{◌≡◌, ◌⊎◌, ◌<◌, ◌≤◌, ℕ, true, false, List, [], Option, Some, None, Ok, Err};
ghost use Rattle.apex_types.specs.Rows.{Rows};
ghost use Rattle.apex_types.specs.declared.calls.Line.{Line};
ghost use Rattle.apex_model.specs.Durable.{Durable, start};
ghost use Rattle.apex_model.specs.Image.{Refusal as ImageRefusal, too_small, state_of};
ghost use Rattle.apex_model.specs.Layout.{layout_blocks};
ghost use Rattle.rig_core.specs.Causes.{Rose};
ghost use Rattle.table_model.specs.Table.{table_of};
ghost use Rattle.table_model.specs.declared.errors.TableError.{TableError};
ghost use Rattle.script_model.specs.Reading.{partition_at};
ghost use Rattle.script_model.specs.Script.{Refusal, script_of};
ghost use Rattle.script_model.specs.Refusals.{refusal_line};
ghost use Rattle.apex_host.specs.Disk.{LeavesDisk, FormatsDisk, IsUntouched, RunsSafely};
ghost use Rattle.apex_host.specs.Endings.{Seen, ReadsFor, IsNamed, DeviceFailed, EndsSo, image_bytes, is_too_large};
ghost use Rattle.apex_host.specs.Entries.{LeavesEntries};
ghost use Rattle.apex_host.specs.Laws.{Means, HasTold, TellsApart, TellsAllApart, ReadsTable, ReadsLines, IsGiven, IsQuiet, IsQuietRun, IsQuietFormat, EndsWith, EndsOrStarves, TellsSweep};
ghost use Rattle.apex_host.specs.Told.{run_text, own_text, load_tally, formatted_line, good_line, stressed_line, usage_line, table_refused_line, unknown_partition_line, too_large_line, image_refused_line};

use crate::command::Command;
use crate::status::Status;
use model_laws::{replies_depend_on_upstream, reply_lines_tell, step_keeps_valid};
use rig_core::Rig;

/// A status comes only of its cause.
pub fn statuses_mean<R: Rig>()
    ensures { (command : Option Command) (before after : Seen) (status : Status)
        → EndsSo R.tells_text R.tells_view command before after status
        → Means R.tells_view command before after status }
{}

/// What is no command is answered with the words that there are, unless telling fails.
pub fn tells_usage<R: Rig>()
    ensures { (before after : Seen) (status : Status) → EndsSo R.tells_text R.tells_view None before after status
        → ¬ (Rose before.tell_faults after.tell_faults)
        → EndsWith R.tells_text before after status Status.Usage usage_line }
{}

/// A table that is refused is told with the number of its error, unless memory runs out, a read of
/// the table's source fails, or telling fails.
pub fn refuses_tables<R: Rig>()
    ensures { (c : Command) (before after : Seen) (status : Status) (e : TableError)
        → EndsSo R.tells_text R.tells_view (Some c) before after status → IsQuiet before after
        → ReadsTable before (Err e) → EndsOrStarves R.tells_text before after status
        Status.TableRefused (table_refused_line e) }
{}

/// And so is a script, for a table that is accepted and a command that reads it, unless a read of its
/// source fails too.
pub fn refuses_scripts<R: Rig>()
    ensures { (c : Command) (before after : Seen) (status : Status) (rows : Rows) (r : Refusal)
        → EndsSo R.tells_text R.tells_view (Some c) before after status → IsQuietRun before after
        → ReadsTable before (Ok rows) → ReadsFor rows c → ReadsLines rows before (Err r)
        → EndsOrStarves R.tells_text before after status Status.ScriptRefused (refusal_line r) }
{}

/// A command for a partition that the table hasn't got is refused, before its script is read.
pub fn refuses_partitions<R: Rig>()
    ensures { (name : List ℕ) (before after : Seen) (status : Status) (rows : Rows)
        → EndsSo R.tells_text R.tells_view (Some (Command.Only name)) before after status
        → IsQuiet before after → ReadsTable before (Ok rows) → partition_at rows name ≡ None
        → EndsOrStarves R.tells_text before after status
        Status.CommandRefused unknown_partition_line }
{}

/// An image that stands for no state of an accepted table is refused with the first reason, by each
/// command that opens it, unless memory runs out or a call of the outside fails.
pub fn refuses_images<R: Rig>()
    ensures { R.tells_view → (c : Command) (before after : Seen) (status : Status) (rows : Rows)
        (r : ImageRefusal) → EndsSo R.tells_text R.tells_view (Some c) before after status
        → IsQuietRun before after → ReadsTable before (Ok rows) → IsGiven rows before c
        → ¬ (DeviceFailed before after) → state_of rows before.view ≡ Err r
        → EndsOrStarves R.tells_text before after status
        Status.ImageRefused (image_refused_line r) }
{}

/// An image that stands for a state is found good, unless memory runs out or a call of the outside
/// fails.
pub fn finds_good<R: Rig>()
    ensures { R.tells_view → (before after : Seen) (status : Status) (rows : Rows)
        (stored : Durable) → EndsSo R.tells_text R.tells_view (Some Command.Check) before after status
        → IsQuietRun before after → ReadsTable before (Ok rows)
        → ¬ (DeviceFailed before after) → state_of rows before.view ≡ Ok stored
        → EndsOrStarves R.tells_text before after status Status.Done (good_line rows) }
{}

/// A script that is accepted is carried out from the state of the image, and each reply told, unless
/// memory runs out or a call of the outside fails.
pub fn carries_out<R: Rig>()
    ensures { R.tells_view → (before after : Seen) (status : Status) (rows : Rows)
        (lines : List Line) (stored : Durable)
        → EndsSo R.tells_text R.tells_view (Some Command.Run) before after status
        → IsQuietRun before after → ReadsTable before (Ok rows) → ReadsLines rows before (Ok lines)
        → ¬ (DeviceFailed before after) → state_of rows before.view ≡ Ok stored
        → EndsOrStarves R.tells_text before after status
        Status.Done (run_text rows [] (start rows stored) lines) }
{}

/// A partition is told what it is told with all lines, though those of its upstream alone are carried
/// out, unless memory runs out or a call of the outside fails.
pub fn hears_own<R: Rig>()
    ensures { R.tells_view → (name : List ℕ) (p : ℕ) (before after : Seen) (status : Status)
        (rows : Rows) (lines : List Line) (stored : Durable)
        → EndsSo R.tells_text R.tells_view (Some (Command.Only name)) before after status
        → IsQuietRun before after → ReadsTable before (Ok rows) → IsNamed rows name p
        → ReadsLines rows before (Ok lines) → ¬ (DeviceFailed before after)
        → state_of rows before.view ≡ Ok stored → EndsOrStarves R.tells_text before after status
        Status.Done (own_text rows p (start rows stored) lines) }
{}

/// A load is carried out from the state of the image, and its replies counted, unless memory runs out or
/// a call of the outside fails.
pub fn counts_load<R: Rig>()
    ensures { R.tells_view → (seed count : ℕ) (before after : Seen) (status : Status) (rows : Rows)
        (stored : Durable)
        → EndsSo R.tells_text R.tells_view (Some (Command.Stress seed count)) before after status
        → IsQuietRun before after → ReadsTable before (Ok rows)
        → ¬ (DeviceFailed before after) → state_of rows before.view ≡ Ok stored
        → EndsOrStarves R.tells_text before after status
        Status.Done (stressed_line count (load_tally rows seed count stored)) }
{}

/// A sweep of an image or a script that is too large is refused.
pub fn refuses_sweeps<R: Rig>()
    ensures { (before after : Seen) (status : Status) (rows : Rows) (lines : List Line)
        → EndsSo R.tells_text R.tells_view (Some Command.Sweep) before after status
        → IsQuietRun before after → ReadsTable before (Ok rows) → ReadsLines rows before (Ok lines)
        → is_too_large rows lines ≡ true
        → EndsOrStarves R.tells_text before after status Status.CommandRefused too_large_line }
{}

/// Any other is made, and each image that a cut left mounts, unless memory runs out or telling fails.
pub fn sweeps<R: Rig>()
    ensures { (before after : Seen) (status : Status) (rows : Rows) (lines : List Line)
        → EndsSo R.tells_text R.tells_view (Some Command.Sweep) before after status
        → IsQuietRun before after → ReadsTable before (Ok rows) → ReadsLines rows before (Ok lines)
        → is_too_large rows lines ≡ false
        → TellsSweep R.tells_text rows lines before after status }
{}

/// Whatever ends a run, the replies to a partition that were told whole are the first of those that
/// it gets with the lines and the stored state of its upstream alone, whichever reads fail. Where the
/// run comes to its end, they are all of them.
pub fn keeps_partitions_apart<R: Rig>()
    ensures so_far { R.tells_text → R.tells_view → (before after : Seen) (status : Status)
        (rows : Rows) (lines : List Line) (stored : Durable)
        → EndsSo R.tells_text R.tells_view (Some Command.Run) before after status
        → ReadsTable before (Ok rows) → ReadsLines rows before (Ok lines)
        → state_of rows before.view ≡ Ok stored
        → HasTold before.told after.told (TellsApart rows lines stored) }
    ensures done { R.tells_text → R.tells_view → (before after : Seen) (rows : Rows)
        (lines : List Line) (stored : Durable)
        → EndsSo R.tells_text R.tells_view (Some Command.Run) before after Status.Done
        → ReadsTable before (Ok rows) → ReadsLines rows before (Ok lines)
        → state_of rows before.view ≡ Ok stored
        → HasTold before.told after.told (TellsAllApart rows lines stored) }
{
    replies_depend_on_upstream();
    reply_lines_tell();
    step_keeps_valid();
}

/// A device that is too small for the image of an accepted table is refused.
pub fn refuses_small<R: Rig>()
    ensures { (before after : Seen) (status : Status) (rows : Rows)
        → EndsSo R.tells_text R.tells_view (Some Command.Format) before after status → IsQuiet before after
        → ReadsTable before (Ok rows) → before.size < image_bytes rows
        → EndsOrStarves R.tells_text before after status
        Status.ImageRefused (image_refused_line (too_small (image_bytes rows))) }
{}

/// A device with room is formatted, unless memory runs out or a call of the outside fails.
pub fn formats<R: Rig>()
    ensures { (before after : Seen) (status : Status) (rows : Rows)
        → EndsSo R.tells_text R.tells_view (Some Command.Format) before after status → IsQuietFormat before after
        → ReadsTable before (Ok rows) → image_bytes rows ≤ before.size
        → EndsOrStarves R.tells_text before after status
        Status.Done (formatted_line (layout_blocks rows)) }
{}

/// At every moment of a format with an accepted table a loss of power leaves the old image, one that
/// is not formatted, or the empty one, and in each what a format doesn't write.
pub fn formats_at_every_moment<R: Rig>()
    ensures { (before after : R) (status : Status) (bytes : List ℕ) (script : Option (List ℕ))
        (rows : Rows) → table_of bytes ≡ Ok rows
        → LeavesDisk R.tells_text R.tells_view (Some bytes) script (R.state before) (R.state after)
        (Some Command.Format) status → FormatsDisk rows (R.state before) (R.state after) }
{}

/// At every moment of a run with an accepted table and script a loss of power leaves the image as it
/// was, or one that stands for a state which the text told until then allows.
pub fn cuts_of_runs<R: Rig>()
    ensures { R.tells_text → R.tells_view → (before after : R) (status : Status)
        (table script : List ℕ) (rows : Rows) (lines : List Line) (stored : Durable)
        → table_of table ≡ Ok rows → script_of rows script ≡ Ok lines
        → state_of rows (R.state before).view ≡ Ok stored
        → LeavesDisk R.tells_text R.tells_view (Some table) (Some script)
        (R.state before) (R.state after) (Some Command.Run) status
        → RunsSafely rows lines stored (R.state before) (R.state after) }
{}

/// At every moment of a run with an accepted table and script, if it touched the disk at all, a loss
/// of power leaves each entry that was logged when a told line was carried out, until its logbook is
/// cleared or newer entries drop it.
pub fn keeps_logged_entries<R: Rig>()
    ensures { R.tells_text → R.tells_view → (before after : R) (status : Status)
        (table script : List ℕ) (rows : Rows) (lines : List Line) (stored : Durable)
        → table_of table ≡ Ok rows → script_of rows script ≡ Ok lines
        → state_of rows (R.state before).view ≡ Ok stored
        → LeavesDisk R.tells_text R.tells_view (Some table) (Some script)
        (R.state before) (R.state after) (Some Command.Run) status
        → LeavesEntries rows lines stored (R.state before) (R.state after)
        ⊎ IsUntouched R.tells_view (R.state before) (R.state after) }
{
    // That every line keeps a valid state, on which the law rests.
    step_keeps_valid();
}
