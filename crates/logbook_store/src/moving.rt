// The three phases of a move of the oldest messages in progress, of all logbooks together.
ghost use Rattle.std.specs.Prelude.{List, ◌≡◌, ◌⊎◌, ◌+◌, ◌*◌, ◌<◌, ◌≤◌, length, nat_lt, if◌then◌else◌, OnOk, OnErr};
ghost use Rattle.apex_model.specs.Layout.{logbook_blocks};
ghost use Rattle.rig_core.specs.Bytes.{byte};
ghost use Rattle.rig_core.specs.Causes.{Rose};
ghost use Rattle.rig_core.specs.Outside.{Later, MakesAtMost};
ghost use Rattle.rig_core.specs.Leaves.{Leaves, IsAllSettled};
ghost use Rattle.apex_model.specs.Logbooks.{Logbook};
ghost use Rattle.logbook_store.specs.Books.{row_of, start_of, progress_of};
ghost use Rattle.logbook_store.specs.Logs.{AreBeforeOrAfter, AreLaidOut, AreSettled, ShowsEither, StandFor, sites_of};
ghost use Rattle.logbook_store.specs.Moves.{AllBefore, AreMovedIn, moved_all, NextPlace, IsClosed, IsOpened, IsWritten, LeavesBut, NextBody, NextGate, OfOne, OpenGate, SameBut, moving_count};

use crate::book::Book;
use gate_slots::{gate_read, gate_write};
use rig_core::{DeviceFault, Rig};

/// Closes the gate of the place that takes a logbook's next message, where a message is in progress and the gate is
/// open. One that is closed already is not written, since a pending byte may read as an open gate over another body.
fn close_next<R: Rig>(rig: &mut R, book: &Book) -> Result<(), DeviceFault>
    requires fits { start_of book.now + 512 * logbook_blocks (row_of book.now) ≤ (R.state rig.old).size }
    ensures later { Later (R.state rig.old) (R.state rig.new) }
    ensures made { MakesAtMost (if nat_lt 0 (length (progress_of book.now)) then 1 else 0) 0 0 (R.state rig.old) (R.state rig.new) }
    ensures cuts { LeavesBut (OpenGate (R.state rig.old).view book.now) (R.state rig.old) (R.state rig.new) }
    ensures view { R.tells_view → SameBut (OpenGate (R.state rig.old).view book.now) (R.state rig.old).view (R.state rig.new).view }
    ensures closed { R.tells_view → OnOk result (IsClosed (R.state rig.new).view book.now) }
    ensures cause { OnErr result (Rose (R.state rig.old).read_faults (R.state rig.new).read_faults ⊎ Rose (R.state rig.old).write_faults (R.state rig.new).write_faults) }
{
    if !book.is_moving() {
        return Ok(());
    }
    if gate_read(rig, book.next_gate())? {
        gate_write(rig, book.next_gate(), false)?;
    }
    Ok(())
}

/// Writes the next number with the oldest message in progress into its place, where there is one.
fn write_next<R: Rig>(rig: &mut R, book: &Book) -> Result<(), DeviceFault>
    requires fits { start_of book.now + 512 * logbook_blocks (row_of book.now) ≤ (R.state rig.old).size }
    ensures later { Later (R.state rig.old) (R.state rig.new) }
    ensures made { MakesAtMost (if nat_lt 0 (length (progress_of book.now)) then 1 else 0) 0 0 (R.state rig.old) (R.state rig.new) }
    ensures cuts { LeavesBut (NextBody book.now) (R.state rig.old) (R.state rig.new) }
    ensures view { R.tells_view → SameBut (NextBody book.now) (R.state rig.old).view (R.state rig.new).view }
    ensures written { R.tells_view → OnOk result (IsWritten (R.state rig.new).view book.now) }
    ensures cause { OnErr result (Rose (R.state rig.old).write_faults (R.state rig.new).write_faults) }
{
    if !book.is_moving() {
        return Ok(());
    }
    let mut body = [0; 512];
    book.put_next(&mut body);
    rig.write(book.next_gate() + 512, &body)?;
    Ok(())
}

/// Opens the gate of the place that takes a logbook's next message, where a message is in progress.
fn open_next<R: Rig>(rig: &mut R, book: &Book) -> Result<(), DeviceFault>
    requires fits { start_of book.now + 512 * logbook_blocks (row_of book.now) ≤ (R.state rig.old).size }
    ensures later { Later (R.state rig.old) (R.state rig.new) }
    ensures made { MakesAtMost (if nat_lt 0 (length (progress_of book.now)) then 1 else 0) 0 0 (R.state rig.old) (R.state rig.new) }
    ensures cuts { LeavesBut (NextGate book.now) (R.state rig.old) (R.state rig.new) }
    ensures view { R.tells_view → SameBut (NextGate book.now) (R.state rig.old).view (R.state rig.new).view }
    ensures opened { R.tells_view → OnOk result (IsOpened (R.state rig.new).view book.now) }
    ensures cause { OnErr result (Rose (R.state rig.old).write_faults (R.state rig.new).write_faults) }
{
    if !book.is_moving() {
        return Ok(());
    }
    gate_write(rig, book.next_gate(), true)?;
    Ok(())
}

/// Closes the gates of the places that take the next messages, where they are open, and makes sure of it.
pub(crate) fn close_gates<R: Rig>(rig: &mut R, books: &[Book]) -> Result<(), DeviceFault>
    requires laid_out { AreLaidOut (sites_of books.now) (R.state rig.old).size }
    ensures later { Later (R.state rig.old) (R.state rig.new) }
    ensures made { MakesAtMost (moving_count books.now) 1 0 (R.state rig.old) (R.state rig.new) }
    ensures cuts { LeavesBut (OfOne (OpenGate (R.state rig.old).view) books.now) (R.state rig.old) (R.state rig.new) }
    ensures view { R.tells_view → SameBut (OfOne (OpenGate (R.state rig.old).view) books.now) (R.state rig.old).view (R.state rig.new).view }
    ensures closed { R.tells_view → OnOk result (AllBefore (IsClosed (R.state rig.new).view) (length books.now) books.now) }
    ensures settled { OnOk result (IsAllSettled (R.state rig.new)) }
    ensures cause { OnErr result (Rose (R.state rig.old).read_faults (R.state rig.new).read_faults ⊎ Rose (R.state rig.old).write_faults (R.state rig.new).write_faults) }
{
    for k in 0..books.len() {
        close_next(rig, &books[k])?;
    }
    rig.sync()?;
    Ok(())
}

/// Writes the next numbers with the oldest messages in progress into their places, and makes sure of it.
pub(crate) fn write_bodies<R: Rig>(rig: &mut R, books: &[Book]) -> Result<(), DeviceFault>
    requires laid_out { AreLaidOut (sites_of books.now) (R.state rig.old).size }
    ensures later { Later (R.state rig.old) (R.state rig.new) }
    ensures made { MakesAtMost (moving_count books.now) 1 0 (R.state rig.old) (R.state rig.new) }
    ensures cuts { LeavesBut (OfOne (NextBody) books.now) (R.state rig.old) (R.state rig.new) }
    ensures view { R.tells_view → SameBut (OfOne (NextBody) books.now) (R.state rig.old).view (R.state rig.new).view }
    ensures written { R.tells_view → OnOk result (AllBefore (IsWritten (R.state rig.new).view) (length books.now) books.now) }
    ensures settled { OnOk result (IsAllSettled (R.state rig.new)) }
    ensures cause { OnErr result (Rose (R.state rig.old).write_faults (R.state rig.new).write_faults) }
{
    for k in 0..books.len() {
        write_next(rig, &books[k])?;
    }
    rig.sync()?;
    Ok(())
}

/// Opens the gates of the places that were written, and makes sure of it.
pub(crate) fn open_gates<R: Rig>(rig: &mut R, books: &[Book]) -> Result<(), DeviceFault>
    requires laid_out { AreLaidOut (sites_of books.now) (R.state rig.old).size }
    ensures later { Later (R.state rig.old) (R.state rig.new) }
    ensures made { MakesAtMost (moving_count books.now) 1 0 (R.state rig.old) (R.state rig.new) }
    ensures cuts { LeavesBut (OfOne (NextGate) books.now) (R.state rig.old) (R.state rig.new) }
    ensures view { R.tells_view → SameBut (OfOne (NextGate) books.now) (R.state rig.old).view (R.state rig.new).view }
    ensures opened { R.tells_view → OnOk result (AllBefore (IsOpened (R.state rig.new).view) (length books.now) books.now) }
    ensures settled { OnOk result (IsAllSettled (R.state rig.new)) }
    ensures cause { OnErr result (Rose (R.state rig.old).write_faults (R.state rig.new).write_faults) }
{
    for k in 0..books.len() {
        open_next(rig, &books[k])?;
    }
    rig.sync()?;
    Ok(())
}

/// Moves the oldest message in progress of each logbook that has one on the device, all together: closes the gates of
/// the next places, writes behind them, and opens them. At every moment a cut leaves each logbook as before or as
/// after, each by itself, and nothing changes outside the regions.
pub fn move_on_device<R: Rig>(rig: &mut R, books: &[Book]) -> Result<(), DeviceFault>
    requires laid_out { AreLaidOut (sites_of books.now) (R.state rig.old).size }
    requires settled { AreSettled (sites_of books.now) (R.state rig.old) }
    ensures later { Later (R.state rig.old) (R.state rig.new) }
    ensures made { MakesAtMost (3 * moving_count books.now) 3 0 (R.state rig.old) (R.state rig.new) }
    ensures any_moment { (logbooks : List Logbook) → R.tells_view → StandFor books.now (R.state rig.old).view logbooks
        → Leaves (AreBeforeOrAfter (sites_of books.now) logbooks (moved_all (sites_of books.now) logbooks)) (R.state rig.old) (R.state rig.new) }
    ensures shown { ShowsEither R.tells_view books.now (moved_all (sites_of books.now))
        (R.state rig.old).view (R.state rig.new).view }
    ensures outside { LeavesBut (OfOne NextPlace books.now) (R.state rig.old) (R.state rig.new) }
    ensures outside_view { R.tells_view → SameBut (OfOne NextPlace books.now) (R.state rig.old).view (R.state rig.new).view }
    ensures moved { (logbooks : List Logbook) → R.tells_view → StandFor books.now (R.state rig.old).view logbooks → OnOk result (AreMovedIn books.now (R.state rig.new).view logbooks) }
    ensures settled { OnOk result (IsAllSettled (R.state rig.new)) }
    ensures cause { OnErr result (Rose (R.state rig.old).read_faults (R.state rig.new).read_faults ⊎ Rose (R.state rig.old).write_faults (R.state rig.new).write_faults) }
{
    close_gates(rig, books)?;
    write_bodies(rig, books)?;
    open_gates(rig, books)?;
    Ok(())
}
