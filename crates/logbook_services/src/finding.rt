// Which logbook an id or a name leads to.
ghost use Rattle.std.specs.Prelude.{◌≡◌, ◌<◌, ◌==◌, length, IfNone, IfSome};
ghost use Rattle.apex_model.specs.Accepted.{IsAccepted};
ghost use Rattle.logbook_services.specs.Places.{numbered_in, named_in};
ghost use Rattle.logbook_services.specs.Steps.{LeadsTo, LeadsToNone, IsNamed, IsNamedNowhere};

use crate::made::MadeMarks;
use apex_types::{LogbookRow, PartitionId, Table};

/// Whether a logbook is a partition's.
fn is_of(row: &LogbookRow, p: PartitionId) -> bool
    ensures { result ≡ row.now.partition.0 == p.0 }
{
    row.partition == p
}

/// The number in the table of the logbook at a place among a partition's, which are counted from 0 on.
fn number_of(rows: &[LogbookRow], p: PartitionId, place: usize) -> Option<usize>
    ensures value { result ≡ numbered_in rows.now p.0 place }
    ensures within { IfSome result (λ k. k < length rows.now) }
{
    let mut before = place;
    for (k, row) in rows.iter().enumerate() {
        if is_of(row, p) {
            if before == 0 {
                return Some(k);
            }
            before -= 1;
        }
    }
    None
}

/// The place among a partition's logbooks of the first with this name.
fn place_named(rows: &[LogbookRow], p: PartitionId, name: &[u8]) -> Option<usize>
    ensures value { result ≡ named_in rows.now p.0 name.now }
    ensures within { IfSome result (λ place. place < length rows.now) }
{
    let mut place = 0;
    for row in rows {
        if is_of(row, p) {
            if row.name.bytes() == name {
                return Some(place);
            }
            place += 1;
        }
    }
    None
}

/// The number in the table and the row of a partition's created logbook of this id.
pub(crate) fn on_book<'t>(
    table: &'t Table,
    made: &MadeMarks,
    p: PartitionId,
    id: u32,
) -> Option<(u32, &'t LogbookRow)>
    requires accepted { IsAccepted table.now }
    requires long { length made.now ≡ length table.now.logbooks }
    ensures none { IfNone result (LeadsToNone table.now made.now p.0 id) }
    ensures some { IfSome result (λ found. LeadsTo table.now made.now p.0 id found.0 found.1.now) }
{
    if id == 0 {
        return None;
    }
    let k = number_of(table.logbooks(), p, id as usize - 1)?;
    if !made.is_made(k) {
        return None;
    }
    let row = table.logbooks().get(k)?;
    Some((k as u32, row))
}

/// The place among a partition's logbooks, counted from 0 on, and the number in the table of the one with this name.
pub(crate) fn named(table: &Table, p: PartitionId, name: &[u8]) -> Option<(usize, usize)>
    ensures none { IfNone result (IsNamedNowhere table.now p.0 name.now) }
    ensures some { IfSome result (λ found. IsNamed table.now p.0 name.now found.0 found.1) }
    ensures place { IfSome result (λ found. found.0 < length table.now.logbooks) }
    ensures number { IfSome result (λ found. found.1 < length table.now.logbooks) }
{
    let place = place_named(table.logbooks(), p, name)?;
    let k = number_of(table.logbooks(), p, place)?;
    Some((place, k))
}
