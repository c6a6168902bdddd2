// The calls of logbooks.
ghost use Rattle.std.specs.Prelude.{◌≡◌, ◌⊎◌, ℕ, List, length, IfOk, OnOk, OnErr, MatchResult};
ghost use Rattle.apex_model.specs.Accepted.{IsAccepted};
ghost use Rattle.apex_model.specs.Logbooks as logbooks;
ghost use Rattle.apex_model.specs.Logbooks.{LogbookSystem, logbook_service, logbook_step};
ghost use Rattle.apex_model.specs.Outcomes.{reply_of, state_after};
ghost use Rattle.rig_core.specs.Bytes.{SameElsewhere};
ghost use Rattle.rig_core.specs.Causes.{Rose};
ghost use Rattle.rig_core.specs.Leaves.{Leaves, LeavesElsewhere};
ghost use Rattle.rig_core.specs.Outside.{Later, MakesAtMost};
ghost use Rattle.logbook_store.specs.Logs.{AreBeforeOrAfter, AreLaidOut, AreSettled, AreWithin, sites_of};
ghost use Rattle.logbook_store.specs.declared.book.Book.{Book};
ghost use Rattle.service_parts.specs.Told.{IsTellable};
ghost use Rattle.logbook_services.specs.Standing.{Stands, IsOfTable, IsServing};
ghost use Rattle.logbook_services.specs.Steps.{IsAnswered, IsServed, Takes, TakesNone, most_writes};

use crate::finding::{named, on_book};
use crate::made::MadeMarks;
use apex_types::{LogbookCall, Mode, PartitionId, Reply, ReturnCode, Table, Values};
use logbook_store::Logs;
use rig_core::{DeviceFault, Rig};
use service_parts::{is_idle, is_normal, refused, success};

/// CREATE_LOGBOOK: the logbook's id.
fn create_logbook(
    table: &Table,
    made: &mut MadeMarks,
    p: PartitionId,
    mode: Mode,
    name: &[u8],
) -> Reply
    requires accepted { IsAccepted table.now }
    requires long { length made.old ≡ length table.now.logbooks }
    ensures { (logs : List Book) → IsAnswered table.now (λ system. logbooks.create_logbook table.now system p.0 mode name.now) logs made.old logs made.new result }
{
    if is_normal(mode) {
        return refused(ReturnCode::InvalidMode);
    }
    let Some((place, k)) = named(table, p, name) else {
        return refused(ReturnCode::InvalidConfig);
    };
    if made.is_made(k) {
        return refused(ReturnCode::NoAction);
    }
    made.make(k);
    success(Values::Number(place as u32 + 1))
}

/// The number of a logbook that takes a message, and whether it has room for one more in progress, or the reason why
/// there is none.
fn on_message(
    table: &Table,
    logs: &Logs,
    made: &MadeMarks,
    p: PartitionId,
    id: u32,
    bytes: &[u8],
) -> Result<(u32, bool), ReturnCode>
    requires accepted { IsAccepted table.now }
    requires of_table { IsOfTable table.now logs.now made.now }
    ensures { MatchResult result (λ found. Takes table.now logs.now made.now p.0 id bytes.now found.0 found.1) (λ code. TakesNone table.now logs.now made.now p.0 id bytes.now code) }
{
    let Some((k, row)) = on_book(table, made, p, id) else {
        return Err(ReturnCode::InvalidParam);
    };
    if bytes.is_empty() {
        return Err(ReturnCode::InvalidParam);
    }
    if bytes.len() > usize::from(row.message_size) {
        return Err(ReturnCode::InvalidParam);
    }
    let counts = logs.counts(k);
    if counts.life + counts.progress == u32::MAX {
        return Err(ReturnCode::InvalidConfig);
    }
    let limit = u32::from(row.in_progress);
    Ok((k, counts.progress < limit))
}

/// WRITE_LOGBOOK: a message more in progress.
fn write_logbook(
    table: &Table,
    logs: &mut Logs,
    made: &MadeMarks,
    p: PartitionId,
    id: u32,
    bytes: &[u8],
) -> Reply
    requires accepted { IsAccepted table.now }
    requires of_table { IsOfTable table.now logs.old made.now }
    ensures { IsAnswered table.now (λ system. logbooks.write_logbook table.now system p.0 id bytes.now) logs.old made.now logs.new made.now result }
{
    let (k, has_room) = match on_message(table, logs, made, p, id, bytes) {
        Err(code) => return refused(code),
        Ok(found) => found,
    };
    if !has_room {
        return refused(ReturnCode::NotAvailable);
    }
    logs.add(k, bytes);
    success(Values::Empty)
}

/// OVERWRITE_LOGBOOK: a message more in progress, or in place of the newest where there is no room.
fn overwrite_logbook(
    table: &Table,
    logs: &mut Logs,
    made: &MadeMarks,
    p: PartitionId,
    id: u32,
    bytes: &[u8],
) -> Reply
    requires accepted { IsAccepted table.now }
    requires of_table { IsOfTable table.now logs.old made.now }
    ensures { IsAnswered table.now (λ system. logbooks.overwrite_logbook table.now system p.0 id bytes.now) logs.old made.now logs.new made.now result }
{
    let (k, has_room) = match on_message(table, logs, made, p, id, bytes) {
        Err(code) => return refused(code),
        Ok(found) => found,
    };
    if has_room {
        logs.add(k, bytes);
        return success(Values::Empty);
    }
    logs.replace_newest(k, bytes);
    success(Values::Empty)
}

/// READ_LOGBOOK: the entry of a number, counted from the newest on.
fn read_logbook<R: Rig>(
    table: &Table,
    logs: &Logs,
    made: &MadeMarks,
    rig: &mut R,
    p: PartitionId,
    id: u32,
    number: u32,
) -> Result<Reply, DeviceFault>
    requires accepted { IsAccepted table.now }
    requires of_table { IsOfTable table.now logs.now made.now }
    requires laid_out { AreLaidOut (sites_of logs.now) (R.state rig.old).size }
    requires settled { AreSettled (sites_of logs.now) (R.state rig.old) }
    ensures { IsServed R.tells_view 0 table.now (λ system. logbooks.read_logbook table.now system p.0 id number) logs.now made.now logs.now made.now (R.state rig.old) (R.state rig.new) result }
{
    let Some((k, _row)) = on_book(table, made, p, id) else {
        return Ok(refused(ReturnCode::InvalidParam));
    };
    if number == 0 {
        return Ok(refused(ReturnCode::InvalidParam));
    }
    let counts = logs.counts(k);
    if u64::from(number) > u64::from(counts.progress) + u64::from(counts.logged) {
        return Ok(refused(ReturnCode::NotAvailable));
    }
    match logs.entry(rig, k, number) {
        Err(fault) => Err(fault),
        Ok((state, bytes)) => Ok(success(Values::Entry { state, bytes })),
    }
}

/// CLEAR_LOGBOOK: no message is logged or in progress.
fn clear_logbook<R: Rig>(
    table: &Table,
    logs: &mut Logs,
    made: &MadeMarks,
    rig: &mut R,
    p: PartitionId,
    id: u32,
) -> Result<Reply, DeviceFault>
    requires accepted { IsAccepted table.now }
    requires of_table { IsOfTable table.now logs.old made.now }
    requires laid_out { AreLaidOut (sites_of logs.old) (R.state rig.old).size }
    requires settled { AreSettled (sites_of logs.old) (R.state rig.old) }
    requires stand { R.tells_view → (system : LogbookSystem) × Stands table.now logs.old made.now (R.state rig.old).view system }
    ensures { IsServed R.tells_view 3 table.now (λ system. logbooks.clear_logbook table.now system p.0 id) logs.old made.now logs.new made.now (R.state rig.old) (R.state rig.new) result }
{
    let Some((k, _row)) = on_book(table, made, p, id) else {
        return Ok(refused(ReturnCode::InvalidParam));
    };
    match logs.clear(rig, k) {
        Err(fault) => Err(fault),
        Ok(()) => Ok(success(Values::Empty)),
    }
}

/// GET_LOGBOOK_ID.
fn get_logbook_id(table: &Table, made: &MadeMarks, p: PartitionId, name: &[u8]) -> Reply
    requires accepted { IsAccepted table.now }
    requires long { length made.now ≡ length table.now.logbooks }
    ensures { (logs : List Book) → IsAnswered table.now (λ system. logbooks.get_logbook_id table.now system p.0 name.now) logs made.now logs made.now result }
{
    let Some((place, k)) = named(table, p, name) else {
        return refused(ReturnCode::InvalidConfig);
    };
    if !made.is_made(k) {
        return refused(ReturnCode::InvalidConfig);
    }
    success(Values::Number(place as u32 + 1))
}

/// GET_LOGBOOK_STATUS.
fn get_logbook_status(
    table: &Table,
    logs: &Logs,
    made: &MadeMarks,
    p: PartitionId,
    id: u32,
) -> Reply
    requires accepted { IsAccepted table.now }
    requires of_table { IsOfTable table.now logs.now made.now }
    ensures { IsAnswered table.now (λ system. logbooks.get_logbook_status table.now system p.0 id) logs.now made.now logs.now made.now result }
{
    let Some((k, row)) = on_book(table, made, p, id) else {
        return refused(ReturnCode::InvalidParam);
    };
    let counts = logs.counts(k);
    success(Values::LogbookStatus {
        message_size: u32::from(row.message_size),
        logged_limit: u32::from(row.logged),
        progress_limit: u32::from(row.in_progress),
        logged: counts.logged,
        progress: counts.progress,
    })
}

/// Carries out a call of a partition that isn't idle.
fn serve<R: Rig>(
    table: &Table,
    logs: &mut Logs,
    made: &mut MadeMarks,
    rig: &mut R,
    p: PartitionId,
    mode: Mode,
    call: &LogbookCall,
) -> Result<Reply, DeviceFault>
    requires accepted { IsAccepted table.now }
    requires of_table { IsOfTable table.now logs.old made.old }
    requires laid_out { AreLaidOut (sites_of logs.old) (R.state rig.old).size }
    requires settled { AreSettled (sites_of logs.old) (R.state rig.old) }
    requires stand { R.tells_view → (system : LogbookSystem) × Stands table.now logs.old made.old (R.state rig.old).view system }
    ensures { IsServed R.tells_view (most_writes call.now) table.now (λ system. logbook_service table.now system p.0 mode call.now) logs.old made.old logs.new made.new (R.state rig.old) (R.state rig.new) result }
{
    match call {
        LogbookCall::Create { name } => Ok(create_logbook(table, made, p, mode, name.bytes())),
        LogbookCall::Write { id, bytes } => {
            Ok(write_logbook(table, logs, made, p, *id, bytes.bytes()))
        }
        LogbookCall::Overwrite { id, bytes } => {
            Ok(overwrite_logbook(table, logs, made, p, *id, bytes.bytes()))
        }
        LogbookCall::Read { id, number } => {
            read_logbook(table, logs, made, rig, p, *id, *number)
        }
        LogbookCall::Clear { id } => clear_logbook(table, logs, made, rig, p, *id),
        LogbookCall::GetId { name } => Ok(get_logbook_id(table, made, p, name.bytes())),
        LogbookCall::GetStatus { id } => Ok(get_logbook_status(table, logs, made, p, *id)),
    }
}

/// Carries out a call, or refuses it where the partition is idle.
fn step<R: Rig>(
    table: &Table,
    logs: &mut Logs,
    made: &mut MadeMarks,
    rig: &mut R,
    p: PartitionId,
    mode: Mode,
    call: &LogbookCall,
) -> Result<Reply, DeviceFault>
    requires accepted { IsAccepted table.now }
    requires of_table { IsOfTable table.now logs.old made.old }
    requires laid_out { AreLaidOut (sites_of logs.old) (R.state rig.old).size }
    requires settled { AreSettled (sites_of logs.old) (R.state rig.old) }
    requires stand { R.tells_view → (system : LogbookSystem) × Stands table.now logs.old made.old (R.state rig.old).view system }
    ensures { IsServed R.tells_view (most_writes call.now) table.now (λ system. logbook_step table.now system p.0 mode call.now) logs.old made.old logs.new made.new (R.state rig.old) (R.state rig.new) result }
{
    if is_idle(mode) {
        return Ok(refused(ReturnCode::InvalidMode));
    }
    serve(table, logs, made, rig, p, mode, call)
}

/// Carries out a logbook call of a partition in a mode, or refuses it. In IDLE every call is refused with INVALID_MODE. A
/// refusal changes nothing, and has a return code and no errno. The names of the calls and the return codes are the
/// public standard's; ids by number, the values and the order of refusals are this project's own. At every moment a cut
/// leaves each logbook as before or as after the call, and reads behind the call show each so, also at a fault. Nothing
/// changes outside the regions of the logbooks. A clear makes at most 3 writes and 3 syncs, and no other call makes any.
/// A fault comes only where the rig's read or write faults rose; the logbooks are of no use for more calls then. No memory
/// is taken.
pub fn logbook_call<R: Rig>(
    table: &Table,
    logs: &mut Logs,
    made: &mut MadeMarks,
    rig: &mut R,
    p: PartitionId,
    mode: Mode,
    call: &LogbookCall,
) -> Result<Reply, DeviceFault>
    requires accepted { IsAccepted table.now }
    requires of_table { IsOfTable table.now logs.old made.old }
    requires laid_out { AreLaidOut (sites_of logs.old) (R.state rig.old).size }
    requires settled { AreSettled (sites_of logs.old) (R.state rig.old) }
    requires valid { R.tells_view → IsServing table.now logs.old made.old (R.state rig.old).view }
    ensures of_table { IsOfTable table.now logs.new made.new }
    ensures sites { sites_of logs.new ≡ sites_of logs.old }
    ensures reply { (system : LogbookSystem) → R.tells_view → Stands table.now logs.old made.old (R.state rig.old).view system → IfOk result (λ reply. reply ≡ reply_of (logbook_step table.now system p.0 mode call.now)) }
    ensures state { (system : LogbookSystem) → R.tells_view → Stands table.now logs.old made.old (R.state rig.old).view system
        → OnOk result (Stands table.now logs.new made.new (R.state rig.new).view (state_after system (logbook_step table.now system p.0 mode call.now))) }
    ensures valid { R.tells_view → OnOk result (IsServing table.now logs.new made.new (R.state rig.new).view) }
    ensures any_moment { (system : LogbookSystem) → R.tells_view → Stands table.now logs.old made.old (R.state rig.old).view system
        → Leaves (AreBeforeOrAfter (sites_of logs.old) system.books (state_after system (logbook_step table.now system p.0 mode call.now)).books) (R.state rig.old) (R.state rig.new) }
    ensures shown { (system : LogbookSystem) → R.tells_view
        → Stands table.now logs.old made.old (R.state rig.old).view system
        → AreBeforeOrAfter (sites_of logs.old) system.books
        (state_after system (logbook_step table.now system p.0 mode call.now)).books
        (R.state rig.new).view }
    ensures outside { (at n : ℕ) → AreWithin at n (sites_of logs.old) → LeavesElsewhere at n (R.state rig.old) (R.state rig.new) }
    ensures outside_view { (at n : ℕ) → AreWithin at n (sites_of logs.old) → R.tells_view → SameElsewhere at n (R.state rig.old).view (R.state rig.new).view }
    ensures settled { OnOk result (AreSettled (sites_of logs.new) (R.state rig.new)) }
    ensures tellable { IfOk result IsTellable }
    ensures later { Later (R.state rig.old) (R.state rig.new) }
    ensures made { MakesAtMost (most_writes call.now) (most_writes call.now) 0
        (R.state rig.old) (R.state rig.new) }
    ensures cause { OnErr result (Rose (R.state rig.old).read_faults (R.state rig.new).read_faults ⊎ Rose (R.state rig.old).write_faults (R.state rig.new).write_faults) }
{
    step(table, logs, made, rig, p, mode, call)
}
