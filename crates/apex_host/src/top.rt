//! The top call.
ghost use Rattle.std.specs.Prelude.{◌≡◌, ◌⊎◌, ◌≤◌, ℕ, List, Option, Some, None};
ghost use Rattle.rig_core.specs.Leaves.{IsAllSettled};
ghost use Rattle.rig_core.specs.Outside.{Later};
ghost use Rattle.apex_host.specs.Commands.{command_of_words};
ghost use Rattle.apex_host.specs.Disk.{LeavesDisk};
ghost use Rattle.apex_host.specs.Endings.{seen, seen_by, EndsSo, ReadsScript};

use crate::checking::check;
use crate::command::{Command, command_of};
use crate::formatting::format_device;
use crate::hearing::only;
use crate::running::run;
use crate::status::Status;
use crate::stressing::stress;
use crate::sweeping::sweep_script;
use crate::telling::told;
use apex_types::Words;
use rig_core::{Rig, Source};
use std::alloc::Global;

const USAGE: &[u8] = b"usage: format, run, only PARTITION, check, stress SEED LINES, sweep\n";

/// Tells the words that there are.
fn tell_usage<R: Rig>(rig: &mut R) -> Status
    requires settled { IsAllSettled (R.state rig.old) }
    ensures ends { (table script : Option (List ℕ)) (table_faults script_faults : ℕ)
        → EndsSo R.tells_text R.tells_view None
        (seen table table_faults script script_faults (R.state rig.old))
        (seen table table_faults script script_faults (R.state rig.new)) result }
    ensures disk { (table script : Option (List ℕ)) → LeavesDisk R.tells_text R.tells_view
        table script (R.state rig.old) (R.state rig.new) None result }
    ensures later { Later (R.state rig.old) (R.state rig.new) }
{
    told(rig, USAGE, Status::Usage)
}

/// Does what the words say. Each command reads the module table from its source, up to its limit of
/// 65,536 bytes.
///
/// `format` makes the device the empty image of that table, and tells its number of blocks. `run`
/// reads the script from its source, up to 1,048,576 bytes, carries it out from the state that the
/// device's image stands for, and tells a reply line for each call. What comes first counts: the
/// words, the table's source, the table, the script's source, the script, the image, the lines. All
/// memory is taken before the first line. Before the call all that was written to the device is on
/// it: a cut leaves what reads give. The commands, the told lines and the statuses are this
/// project's own.
pub fn host<T: Source, S: Source, R: Rig>(
    alloc: Global,
    words: &Words,
    table: &mut T,
    script: &mut S,
    rig: &mut R,
) -> Status
    requires settled { IsAllSettled (R.state rig.old) }

    // Why it ends, with which status, and what is told.
    ensures ends { EndsSo R.tells_text R.tells_view (command_of_words words.now)
        (seen_by T.left T.faults S.left S.faults R.state table.old script.old rig.old)
        (seen_by T.left T.faults S.left S.faults R.state table.new script.new rig.new) result }

    // For words that are no command nothing is read, and the script only where a run has its table.
    ensures table_unread { command_of_words words.now ≡ None → table.new ≡ table.old }
    ensures script_unread { (script.new ≡ script.old) ⊎ ReadsScript (command_of_words words.now)
        (T.left table.old) (T.left table.new) (T.faults table.old) (T.faults table.new) }

    // What the disk is, at every moment and at the end.
    ensures disk { LeavesDisk R.tells_text R.tells_view (T.left table.old) (S.left script.old)
        (R.state rig.old) (R.state rig.new) (command_of_words words.now) result }

    // The disk's size stays, and no count falls.
    ensures later { Later (R.state rig.old) (R.state rig.new) }
    ensures table_later { T.faults table.old ≤ T.faults table.new }
    ensures script_later { S.faults script.old ≤ S.faults script.new }
{
    match command_of(words) {
        None => tell_usage(rig),
        Some(Command::Format) => format_device(alloc, table, rig),
        Some(Command::Run) => run(alloc, table, script, rig),
        Some(Command::Only(name)) => only(alloc, &name, table, script, rig),
        Some(Command::Check) => check(alloc, table, rig),
        Some(Command::Stress { seed, count }) => stress(alloc, seed, count, table, rig),
        Some(Command::Sweep) => sweep_script(alloc, table, script, rig),
    }
}
