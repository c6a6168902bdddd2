// All logbooks of a table.
ghost use Rattle.std.specs.Prelude.{◌≡◌, ◌⊎◌, ◌+◌, ◌-◌, ◌*◌, ◌<◌, ◌≤◌, ◌==◌, List, ℕ, Some, Ok, map, length, nat_lt, if◌then◌else◌, slice_get, slice_set, slice_index_or, IfOk, IfErr, IfSome, OnOk, OnErr};
ghost use Rattle.std.specs.List.{AllZip};
ghost use Rattle.apex_types.specs.declared.replies.Values.TheVariants.{Entry};
ghost use Rattle.apex_model.specs.Accepted.{IsAccepted};
ghost use Rattle.apex_model.specs.Durable.{StoredLogbook, loaded_book};
ghost use Rattle.apex_model.specs.Layout.{layout_blocks};
ghost use Rattle.apex_model.specs.Logbooks.{Logbook, appended, overwritten, cleared, empty_book, entry_of};
ghost use Rattle.rig_core.specs.Causes.{Rose};
ghost use Rattle.rig_core.specs.Outside.{Later, MakesAtMost, OnlyReads};
ghost use Rattle.rig_core.specs.Bytes.{SameElsewhere};
ghost use Rattle.rig_core.specs.Leaves.{Leaves, LeavesElsewhere, IsAllSettled};
ghost use Rattle.logbook_store.specs.Books.{row_of, life_of, logged_of, progress_of, counts_of, counts_in};
ghost use Rattle.logbook_store.specs.Moves.{HasMoved, moved_all, moving_count};
ghost use Rattle.logbook_store.specs.Logs.{AreBeforeOrAfter, AreLaidOut, AreSettled, AreWithin, StandFor, ShowsEither, IsMountFault, sites_of, sites_from, stored_in, with_cleared};

use crate::book::Book;
use crate::errors::LogError;
use crate::moving::move_on_device;
use apex_types::{Bytes, EntryState, LogCounts, Table};
use image_format::layout;
use rig_core::{DeviceFault, Rig};
use std::alloc::Global;
use std::marker::Model;

/// The logbooks of a table, in the table's order.
#[derive(Drop)]
pub struct Logs {
    books: Vec<Book>,
}

impl Model for Logs {
    ghost use Rattle.std.specs.Prelude.{List};
    ghost use Rattle.logbook_store.specs.declared.book.Book.{Book};

    ghost Value = { List Book };

    ghost view = { λ t. t.books.items };
}

/// Whether a message is in progress in one of the logbooks.
fn is_any_moving(books: &[Book]) -> bool
    ensures { result ≡ nat_lt 0 (moving_count books.now) }
{
    books.iter().any(|book| book.is_moving())
}

/// Takes the oldest message in progress of each logbook that has one for one that was moved.
fn take_all_moved(books: &mut [Book])
    ensures sites { sites_of books.new ≡ sites_of books.old }
    ensures moved { AllZip HasMoved books.old books.new }
{
    for k in 0..books.len() {
        books[k].take_moved();
    }
}

impl Logs {
    /// The logbooks that the regions of a device spell, with nothing in progress. It makes no write, and takes
    /// all memory that the logbooks need.
    pub fn mount<R: Rig>(alloc: Global, rig: &mut R, table: &Table) -> Result<Logs, LogError>
        requires accepted { IsAccepted table.now }
        requires fits { 512 * layout_blocks table.now ≤ (R.state rig.old).size }
        ensures sites { IfOk result (λ logs. sites_of logs ≡ sites_from table.now 0 table.now.logbooks) }
        ensures laid_out { IfOk result (λ logs. AreLaidOut (sites_of logs) (R.state rig.old).size) }
        ensures stands { R.tells_view → IfOk result (λ logs. (stored : List StoredLogbook) × (stored_in table.now (R.state rig.old).view ≡ Ok stored) × StandFor logs (R.state rig.old).view (map loaded_book stored)) }
        ensures fault { IfErr result (IsMountFault table.now (R.state rig.old).view (R.state rig.old).read_faults (R.state rig.new).read_faults R.tells_view) }
        ensures reads { OnlyReads R.tells_view (R.state rig.old) (R.state rig.new) }
    {
        let places = layout(table);
        let rows = table.logbooks();
        let Ok(mut books) = Vec::with_capacity(alloc, rows.len()) else {
            return Err(LogError::Memory);
        };
        for logbook in 0..rows.len() as u32 {
            let Ok(found) = Book::mount(rig, &rows[logbook as usize], places.logbook_start(logbook))
            else {
                return Err(LogError::Device);
            };
            let Some(book) = found else {
                return Err(LogError::Bad {
                    logbook: logbook + 1,
                });
            };
            let Ok(()) = books.push(book) else {
                return Err(LogError::Memory);
            };
        }
        Ok(Logs { books })
    }

    /// Appends a message to those in progress of a logbook. The public standard's services refuse one without a
    /// byte or with too many, one more than there is room for, and one that could not be moved in its life.
    pub fn add(&mut self, logbook: u32, bytes: &[u8])
        requires logbook { logbook < length self.old }
        requires some { 1 ≤ length bytes.now }
        requires size { IfSome (slice_get self.old logbook) (λ book. length bytes.now ≤ (row_of book).message_size) }
        requires room { IfSome (slice_get self.old logbook) (λ book. length (progress_of book) < (row_of book).in_progress) }
        requires life { IfSome (slice_get self.old logbook) (λ book. life_of book + length (progress_of book) < 4294967295) }
        ensures sites { sites_of self.new ≡ sites_of self.old }
        ensures appended { (image : List ℕ) (logbooks : List Logbook) → StandFor self.old image logbooks
            → StandFor self.new image (slice_set logbooks logbook (appended (slice_index_or logbooks logbook empty_book) bytes.now)) }
    {
        self.books[logbook as usize].add(bytes);
    }

    /// Puts a message in place of the newest in progress of a logbook.
    pub fn replace_newest(&mut self, logbook: u32, bytes: &[u8])
        requires logbook { logbook < length self.old }
        requires some { 1 ≤ length bytes.now }
        requires size { IfSome (slice_get self.old logbook) (λ book. length bytes.now ≤ (row_of book).message_size) }
        requires progress { IfSome (slice_get self.old logbook) (λ book. 0 < length (progress_of book)) }
        ensures sites { sites_of self.new ≡ sites_of self.old }
        ensures overwritten { (image : List ℕ) (logbooks : List Logbook) → StandFor self.old image logbooks
            → StandFor self.new image (slice_set logbooks logbook (overwritten (slice_index_or logbooks logbook empty_book) bytes.now)) }
    {
        self.books[logbook as usize].replace_newest(bytes);
    }

    /// How many messages a logbook ever moved, and how many are logged and in progress. The life and those in progress
    /// are at most 4,294,967,295 together.
    pub fn counts(&self, logbook: u32) -> LogCounts
        requires { logbook < length self.now }
        ensures told { (image : List ℕ) (logbooks : List Logbook) → StandFor self.now image logbooks → result ≡ counts_of (slice_index_or logbooks logbook empty_book) }
        ensures kept { IfSome (slice_get self.now logbook) (λ book. result ≡ counts_in book) }
        ensures whole { result.life + result.progress ≤ 4294967295 }
    {
        self.books[logbook as usize].counts()
    }

    /// The entry of a logbook by its number, counted from the newest on, from 1. Those in progress come before the
    /// logged, and the logged are read from the device. A fault comes only where the rig's read faults rose.
    pub fn entry<R: Rig>(
        &self,
        rig: &mut R,
        logbook: u32,
        number: u32,
    ) -> Result<(EntryState, Bytes), DeviceFault>
        requires logbook { logbook < length self.now }
        requires first { 1 ≤ number }
        requires last { IfSome (slice_get self.now logbook) (λ book. number ≤ length (progress_of book) + logged_of book) }
        requires fits { AreLaidOut (sites_of self.now) (R.state rig.old).size }
        ensures entry { (logbooks : List Logbook) → R.tells_view → StandFor self.now (R.state rig.old).view logbooks
            → IfOk result (λ entry. entry_of (slice_index_or logbooks logbook empty_book) number ≡ Some (Entry entry.0 entry.1)) }
        ensures reads { OnlyReads R.tells_view (R.state rig.old) (R.state rig.new) }
        ensures cause { OnErr result (Rose (R.state rig.old).read_faults (R.state rig.new).read_faults) }
    {
        self.books[logbook as usize].entry(rig, number)
    }

    /// Forgets the messages in progress of a logbook, and clears those that are logged. At every moment a cut leaves
    /// this logbook as before or as after and the others as they were, and nothing changes outside the regions of
    /// the logbooks. A fault comes only where the rig's write faults rose.
    pub fn clear<R: Rig>(&mut self, rig: &mut R, logbook: u32) -> Result<(), DeviceFault>
        requires logbook { logbook < length self.old }
        requires laid_out { AreLaidOut (sites_of self.old) (R.state rig.old).size }
        requires settled { AreSettled (sites_of self.old) (R.state rig.old) }
        requires stand { R.tells_view → (logbooks : List Logbook) × StandFor self.old (R.state rig.old).view logbooks }
        ensures sites { sites_of self.new ≡ sites_of self.old }
        ensures any_moment { (logbooks : List Logbook) → R.tells_view → StandFor self.old (R.state rig.old).view logbooks
            → Leaves (AreBeforeOrAfter (sites_of self.old) logbooks (slice_set logbooks logbook (cleared (slice_index_or logbooks logbook empty_book)))) (R.state rig.old) (R.state rig.new) }
        ensures shown { ShowsEither R.tells_view self.old (with_cleared logbook)
            (R.state rig.old).view (R.state rig.new).view }
        ensures outside { (at n : ℕ) → AreWithin at n (sites_of self.old) → LeavesElsewhere at n (R.state rig.old) (R.state rig.new) }
        ensures outside_view { (at n : ℕ) → AreWithin at n (sites_of self.old) → R.tells_view → SameElsewhere at n (R.state rig.old).view (R.state rig.new).view }
        ensures cleared { (logbooks : List Logbook) → R.tells_view → StandFor self.old (R.state rig.old).view logbooks
            → OnOk result (StandFor self.new (R.state rig.new).view (slice_set logbooks logbook (cleared (slice_index_or logbooks logbook empty_book)))) }
        ensures settled { OnOk result (IsAllSettled (R.state rig.new)) }
        ensures later { Later (R.state rig.old) (R.state rig.new) }
        ensures made { MakesAtMost 3 3 0 (R.state rig.old) (R.state rig.new) }
        ensures cause { OnErr result (Rose (R.state rig.old).write_faults (R.state rig.new).write_faults) }
    {
        self.books[logbook as usize].clear(rig)
    }

    /// Moves the oldest message in progress of each logbook that has one, all together. At every moment a cut leaves
    /// each logbook as before or as after, each by itself, and nothing changes outside the regions of the logbooks.
    /// Where no message is in progress no call is made. It makes at most 3 writes for each logbook that moves, and
    /// 3 syncs. A fault comes only where the rig's read or write faults rose; the logbooks are of no use for more
    /// calls then.
    pub fn move_all<R: Rig>(&mut self, rig: &mut R) -> Result<(), DeviceFault>
        requires laid_out { AreLaidOut (sites_of self.old) (R.state rig.old).size }
        requires settled { AreSettled (sites_of self.old) (R.state rig.old) }
        ensures sites { sites_of self.new ≡ sites_of self.old }
        ensures any_moment { (logbooks : List Logbook) → R.tells_view → StandFor self.old (R.state rig.old).view logbooks
            → Leaves (AreBeforeOrAfter (sites_of self.old) logbooks (moved_all (sites_of self.old) logbooks)) (R.state rig.old) (R.state rig.new) }
        ensures shown { ShowsEither R.tells_view self.old (moved_all (sites_of self.old))
            (R.state rig.old).view (R.state rig.new).view }
        ensures outside { (at n : ℕ) → AreWithin at n (sites_of self.old) → LeavesElsewhere at n (R.state rig.old) (R.state rig.new) }
        ensures outside_view { (at n : ℕ) → AreWithin at n (sites_of self.old) → R.tells_view → SameElsewhere at n (R.state rig.old).view (R.state rig.new).view }
        ensures moved { (logbooks : List Logbook) → R.tells_view → StandFor self.old (R.state rig.old).view logbooks
            → OnOk result (StandFor self.new (R.state rig.new).view (moved_all (sites_of self.old) logbooks)) }
        ensures settled { OnOk result (AreSettled (sites_of self.new) (R.state rig.new)) }
        ensures later { Later (R.state rig.old) (R.state rig.new) }
        ensures made { MakesAtMost (3 * moving_count self.old) (if moving_count self.old == 0 then 0 else 3) 0 (R.state rig.old) (R.state rig.new) }
        ensures cause { OnErr result (Rose (R.state rig.old).read_faults (R.state rig.new).read_faults ⊎ Rose (R.state rig.old).write_faults (R.state rig.new).write_faults) }
    {
        if !is_any_moving(&self.books) {
            return Ok(());
        }
        move_on_device(rig, &self.books)?;
        take_all_moved(&mut self.books);
        Ok(())
    }
}
