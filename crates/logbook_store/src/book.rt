// One logbook: its life and its counts in memory, and its region on the device.
ghost use Rattle.std.specs.Prelude.{◌≡◌, ◌⊎◌, ◌+◌, ◌-◌, ◌*◌, ◌^◌, ◌<◌, ◌≤◌, List, ℕ, [], ◌∷◌, Some, None, length, nat_lt, IfOk, IfSome, OnOk, OnErr, IsSome};
ghost use Rattle.apex_model.specs.Image.{logbook_of_region};
ghost use Rattle.apex_model.specs.Layout.{logbook_blocks};
ghost use Rattle.apex_model.specs.Logbooks.{Logbook, Message, appended, cleared, overwritten, entry_of};
ghost use Rattle.apex_types.specs.declared.replies.Values.TheVariants.{Entry};
ghost use Rattle.rig_core.specs.Causes.{Rose};
ghost use Rattle.rig_core.specs.Outside.{Later, MakesAtMost, OnlyReads};
ghost use Rattle.rig_core.specs.Leaves.{Leaves, LeavesElsewhere, IsSettled, IsAllSettled};
ghost use Rattle.rig_core.specs.Bytes.{SameElsewhere};
ghost use Rattle.gate_slots.specs.Slots.{Knows, gate_of, place_of};
ghost use Rattle.apex_model.specs.Fields.{log_entry_of};
ghost use Rattle.logbook_store.specs.Sizes.{AreSized};
ghost use Rattle.logbook_store.specs.Regions.{region_at, headers_at, cleared_in};
ghost use Rattle.apex_types.specs.declared.rows.LogbookRow.{LogbookRow};

use crate::pending::Pending;
use crate::places::{count_of, logged_bytes, read_counts};
use apex_types::{Bytes, EntryState, LogCounts, LogbookRow};
use gate_slots::Slots;
use image_format::{header_at, put_header, put_message};
use rig_core::{DeviceFault, Rig};

/// A logbook of a device. What was logged stays there, and the messages in progress are in memory.
#[derive(Drop)]
pub struct Book {
    row: LogbookRow,
    start: u64,
    headers: Slots,
    life: u32,
    logged: u32,
    in_progress: Pending,
    ghost small: { row.message_size ≤ 480 },
    ghost room: { row.in_progress ≤ 16 },
    ghost some: { 1 ≤ row.logged },
    ghost lived: { logged ≤ life },
    ghost few: { logged ≤ row.logged },
    ghost whole: { life + length in_progress ≤ 4294967295 },
    ghost placed: { place_of headers ≡ headers_at start },
    ghost sized: { AreSized row.message_size in_progress },
}

/// An equal row.
fn copy_of(row: &LogbookRow) -> LogbookRow
    ensures { result ≡ row.now }
{
    LogbookRow {
        name: row.name.copy(),
        partition: row.partition,
        message_size: row.message_size,
        logged: row.logged,
        in_progress: row.in_progress,
    }
}

/// The first byte of a header's body, by its slot.
fn header_place(start: u64, slot: u8) -> u64
    requires { start + 2048 < 2 ^ 64 }
    ensures { result ≡ gate_of (headers_at start) slot + 512 }
{
    if slot == 0 { start + 512 } else { start + 1536 }
}

/// The cleared number of the newest header of the logbook that begins at this byte, if one is newest and
/// spelled as a header. A fault comes only where the rig's read faults rose.
fn find_cleared<R: Rig>(
    rig: &mut R,
    headers: &mut Slots,
    start: u64,
) -> Result<Option<u32>, DeviceFault>
    requires place { place_of headers.old ≡ headers_at start }
    requires fits { start + 2048 ≤ (R.state rig.old).size }
    ensures place { place_of headers.new ≡ headers_at start }
    ensures cleared { (row : LogbookRow) → R.tells_view → IfOk result (λ cleared. cleared ≡ cleared_in (region_at row start (R.state rig.old).view)) }
    ensures known { R.tells_view → IfOk result (λ cleared. IsSome cleared → Knows headers.new (R.state rig.old).view) }
    ensures reads { OnlyReads R.tells_view (R.state rig.old) (R.state rig.new) }
    ensures cause { OnErr result (Rose (R.state rig.old).read_faults (R.state rig.new).read_faults) }
{
    let Some(slot) = headers.find(rig)? else {
        return Ok(None);
    };
    let mut body = [0; 512];
    rig.read(header_place(start, slot), &mut body)?;
    match header_at(&body) {
        Some((_, cleared)) => Ok(Some(cleared)),
        None => Ok(None),
    }
}

impl Book {
    ghost use Rattle.logbook_store.specs.Books.{row_of, start_of, life_of, logged_of, progress_of, counts_in, IsStored, Stands};
    ghost use Rattle.logbook_store.specs.Moves.{IsMoving, HasMoved, next_gate_of};

    /// The logbook of a row whose region begins at this byte, if the region is a good one. Nothing is in
    /// progress. A fault comes only where the rig's read faults rose.
    pub fn mount<R: Rig>(
        rig: &mut R,
        row: &LogbookRow,
        start: u64,
    ) -> Result<Option<Book>, DeviceFault>
        requires small { row.now.message_size ≤ 480 }
        requires room { row.now.in_progress ≤ 16 }
        requires logged { 1 ≤ row.now.logged }
        requires fits { start + 512 * logbook_blocks row.now ≤ (R.state rig.old).size }
        ensures place { IfOk result (λ found. IfSome found (λ book. (row_of book ≡ row.now) × (start_of book ≡ start))) }
        ensures bad { R.tells_view → IfOk result (λ found. found ≡ None → logbook_of_region row.now (region_at row.now start (R.state rig.old).view) ≡ None) }
        ensures stands { R.tells_view → IfOk result (λ found. IfSome found (λ book. (logged : List Message) × Stands book (R.state rig.old).view (record { life = life_of book; logged = logged; in_progress = [] }))) }
        ensures reads { OnlyReads R.tells_view (R.state rig.old) (R.state rig.new) }
        ensures cause { OnErr result (Rose (R.state rig.old).read_faults (R.state rig.new).read_faults) }
    {
        let mut headers = Slots::new(start, 1, 0);
        let Some(cleared) = find_cleared(rig, &mut headers, start)? else {
            return Ok(None);
        };
        let Some(counts) = read_counts(rig, row, start, cleared)? else {
            return Ok(None);
        };
        Ok(Some(Book {
            row: copy_of(row),
            start,
            headers,
            life: counts.0,
            logged: counts.1,
            in_progress: Pending::new(),
        }))
    }

    /// Appends a message to those in progress. The public standard's services refuse one without a byte or
    /// with too many, one more than there is room for, and one that could not be moved in the logbook's life.
    pub fn add(&mut self, bytes: &[u8])
        requires some { 1 ≤ length bytes.now }
        requires size { length bytes.now ≤ (row_of self.old).message_size }
        requires room { length (progress_of self.old) < (row_of self.old).in_progress }
        requires life { life_of self.old + length (progress_of self.old) < 4294967295 }
        ensures place { (row_of self.new ≡ row_of self.old) × (start_of self.new ≡ start_of self.old) }
        ensures appended { (image : List ℕ) (b : Logbook) → Stands self.old image b → Stands self.new image (appended b bytes.now) }
    {
        self.in_progress.push(bytes);
    }

    /// Puts a message in place of the newest in progress.
    pub fn replace_newest(&mut self, bytes: &[u8])
        requires some { 1 ≤ length bytes.now }
        requires size { length bytes.now ≤ (row_of self.old).message_size }
        requires progress { 0 < length (progress_of self.old) }
        ensures place { (row_of self.new ≡ row_of self.old) × (start_of self.new ≡ start_of self.old) }
        ensures overwritten { (image : List ℕ) (b : Logbook) → Stands self.old image b → Stands self.new image (overwritten b bytes.now) }
    {
        self.in_progress.replace_newest(bytes);
    }

    /// How many messages were ever moved, and how many are logged and in progress.
    pub fn counts(&self) -> LogCounts
        ensures value { result ≡ counts_in self.now }
        ensures whole { result.life + result.progress ≤ 4294967295 }
    {
        LogCounts {
            life: self.life,
            logged: self.logged,
            progress: self.in_progress.count(),
        }
    }

    /// The entry of a number, counted from the newest on, from 1. Those in progress come before the logged, and
    /// the logged are read from the device. A fault comes only where the rig's read faults rose.
    pub fn entry<R: Rig>(
        &self,
        rig: &mut R,
        number: u32,
    ) -> Result<(EntryState, Bytes), DeviceFault>
        requires first { 1 ≤ number }
        requires last { number ≤ length (progress_of self.now) + logged_of self.now }
        requires fits { start_of self.now + 512 * logbook_blocks (row_of self.now) ≤ (R.state rig.old).size }
        ensures entry { (b : Logbook) → R.tells_view → Stands self.now (R.state rig.old).view b → IfOk result (λ entry. entry_of b number ≡ Some (Entry entry.0 entry.1)) }
        ensures reads { OnlyReads R.tells_view (R.state rig.old) (R.state rig.new) }
        ensures cause { OnErr result (Rose (R.state rig.old).read_faults (R.state rig.new).read_faults) }
    {
        let pending = self.in_progress.count();
        if number <= pending {
            return Ok((
                EntryState::InProgress,
                self.in_progress.at(pending - number),
            ));
        }
        let newer = number - pending - 1;
        let bytes = logged_bytes(rig, &self.row, self.start, self.life - newer)?;
        Ok((EntryState::Complete, bytes))
    }

    /// Forgets the messages in progress, and clears those that are logged: the next header's cleared number is
    /// the life. At every moment a cut leaves the logbook as before or as after, and nothing changes outside the
    /// two headers. A fault comes only where the rig's write faults rose.
    pub fn clear<R: Rig>(&mut self, rig: &mut R) -> Result<(), DeviceFault>
        requires fits { start_of self.old + 512 * logbook_blocks (row_of self.old) ≤ (R.state rig.old).size }
        requires settled { IsSettled (start_of self.old) (512 * logbook_blocks (row_of self.old)) (R.state rig.old) }
        requires stands { R.tells_view → (b : Logbook) × Stands self.old (R.state rig.old).view b }
        ensures place { (row_of self.new ≡ row_of self.old) × (start_of self.new ≡ start_of self.old) }
        ensures any_moment { (b : Logbook) → R.tells_view → Stands self.old (R.state rig.old).view b
            → Leaves (λ image. IsStored (row_of self.old) (start_of self.old) b image ⊎ IsStored (row_of self.old) (start_of self.old) (cleared b) image) (R.state rig.old) (R.state rig.new) }
        ensures shown { (b : Logbook) → R.tells_view → Stands self.old (R.state rig.old).view b
            → IsStored (row_of self.old) (start_of self.old) b (R.state rig.new).view ⊎ IsStored (row_of self.old) (start_of self.old) (cleared b) (R.state rig.new).view }
        ensures outside { LeavesElsewhere (start_of self.old) 2048 (R.state rig.old) (R.state rig.new) }
        ensures outside_view { R.tells_view → SameElsewhere (start_of self.old) 2048 (R.state rig.old).view (R.state rig.new).view }
        ensures cleared { (b : Logbook) → R.tells_view → Stands self.old (R.state rig.old).view b → OnOk result (Stands self.new (R.state rig.new).view (cleared b)) }
        ensures settled { OnOk result (IsAllSettled (R.state rig.new)) }
        ensures later { Later (R.state rig.old) (R.state rig.new) }
        ensures made { MakesAtMost 3 3 0 (R.state rig.old) (R.state rig.new) }
        ensures cause { OnErr result (Rose (R.state rig.old).write_faults (R.state rig.new).write_faults) }
    {
        let mut body = [0; 512];
        put_header(&mut body, 0, self.life);
        self.headers.commit(rig, &mut body, &[])?;
        self.logged = 0;
        self.in_progress = Pending::new();
        Ok(())
    }

    /// Whether a message is in progress.
    pub(crate) fn is_moving(&self) -> bool
        ensures { result ≡ nat_lt 0 (length (progress_of self.now)) }
    {
        self.in_progress.count() > 0
    }

    /// The first byte of the gate of the place that takes the next message.
    pub(crate) fn next_gate(&self) -> u64
        requires some { IsMoving self.now }
        requires fits { start_of self.now + 512 * logbook_blocks (row_of self.now) < 2 ^ 64 }
        ensures { result ≡ next_gate_of self.now }
    {
        let place = (self.life + 1) % count_of(&self.row);
        self.start + 2048 + 1024 * u64::from(place)
    }

    /// Writes the next number with the oldest message in progress into the 512 bytes of a place.
    pub(crate) fn put_next(&self, body: &mut [u8])
        requires long { length body.old ≡ 512 }
        requires some { IsMoving self.now }
        ensures { (message : Message) (rest : List Message) → progress_of self.now ≡ message ∷ rest → log_entry_of (row_of self.now).message_size body.new ≡ Some (life_of self.now + 1, message) }
    {
        let message = self.in_progress.at(0);
        put_message(body, self.life + 1, message.bytes());
    }

    /// Takes the oldest message in progress for one that was moved, where there is one.
    pub fn take_moved(&mut self)
        ensures place { (row_of self.new ≡ row_of self.old) × (start_of self.new ≡ start_of self.old) }
        ensures moved { HasMoved self.old self.new }
    {
        if self.in_progress.count() == 0 {
            return;
        }
        self.life += 1;
        self.logged = (self.logged + 1).min(u32::from(self.row.logged));
        self.in_progress.remove_oldest();
    }
}
