// The names of a tree after the records of its journal.
ghost use Rattle.std.specs.Prelude.{◌≡◌, ◌+◌, ◌<◌, ◌≤◌, length, Some, None, IfOk, OnErr, MatchBool};
ghost use Rattle.rig_core.specs.Causes.{Rose};
ghost use Rattle.rig_core.specs.Outside.{OnlyReads};
ghost use Rattle.meta_journal.specs.Journal.{first_of, held_of, room_of, Knows, FindsRoom};
ghost use Rattle.meta_journal.specs.Leading.{records};
ghost use Rattle.tree_region.specs.Replay.{replayed, IsReplayed, KeepsStored};

use file_tree::Tree;
use image_format::record_at;
use meta_journal::Journal;
use rig_core::{DeviceFault, Rig};

/// Changes the names of a tree by the leading records of a journal, of which none has been read, one after
/// the other. False comes exactly where one of them isn't spelled in a slot of this version or doesn't apply
/// in its turn; what the tree holds then is of no use. A fault comes only where the rig's read faults rose.
pub fn replay<R: Rig>(
    rig: &mut R,
    journal: &mut Journal,
    tree: &mut Tree,
    version: u8,
) -> Result<bool, DeviceFault>
    requires unread { held_of journal.old ≡ 0 }
    requires fits { first_of journal.old + 32768 ≤ (R.state rig.old).size }
    ensures replayed { R.tells_view → IfOk result (λ all. IsReplayed (replayed version (Some tree.old) (records (first_of journal.old) (R.state rig.old).view)) tree.new all) }
    // The tree keeps an entry for each that it had.
    ensures files { length tree.new.files ≡ length tree.old.files }
    ensures directories { length tree.new.directories ≡ length tree.old.directories }
    // What is stored of a file stays, or goes with the file.
    ensures stored { KeepsStored tree.old tree.new }
    ensures first { first_of journal.new ≡ first_of journal.old }
    // After true the journal knows its records and its room.
    ensures held { R.tells_view → IfOk result (λ all. MatchBool all (held_of journal.new ≡ length (records (first_of journal.old) (R.state rig.old).view)) (Unit {0})) }
    ensures room { R.tells_view → IfOk result (λ all. MatchBool all (FindsRoom journal.new (R.state rig.old).view) (Unit {0})) }
    ensures known { R.tells_view → IfOk result (λ all. MatchBool all (0 < room_of journal.new → Knows journal.new (R.state rig.old).view) (Unit {0})) }
    ensures reads { OnlyReads R.tells_view (R.state rig.old) (R.state rig.new) }
    ensures cause { OnErr result (Rose (R.state rig.old).read_faults (R.state rig.new).read_faults) }
{
    let mut body = [0; 512];
    for _ in 0..33u8 {
        if !journal.next(rig, &mut body)? {
            return Ok(true);
        }
        let Some(change) = record_at(&body, version) else {
            return Ok(false);
        };
        if !tree.apply(&change) {
            return Ok(false);
        }
    }
    Ok(true)
}
