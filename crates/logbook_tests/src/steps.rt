//! Three logbooks of two partitions, and steps of them as data: calls, ticks and restarts, each with its reply.
ghost use Rattle.std.specs.Prelude.{◌≡◌, ◌≤◌, ℕ, IfOk, OnOk, IsTrue, Some, length, slice_get};
ghost use Rattle.apex_model.specs.Accepted.{IsAccepted};
ghost use Rattle.apex_model.specs.Layout.{layout_blocks};
ghost use Rattle.rig_core.specs.Leaves.{IsAllSettled};
ghost use Rattle.rig_core.specs.MemRig.{mem_state};
ghost use Rattle.logbook_store.specs.Books.{logged_of};
ghost use Rattle.logbook_store.specs.declared.book.Book.{Book};
ghost use Rattle.logbook_tests.specs.InStep.{IsInStep};

use apex_types::{
    EntryState, FailList, LogbookCall, LogbookRow, Mode, Name, OutOfMemory, PartitionId,
    PartitionRow, Reply, ReturnCode, Table, Token, Values,
};
use logbook_services::{MadeMarks, logbook_call};
use logbook_store::Logs;
use rig_core::{MemRig, Rig};
use std::alloc::Global;
use std::test::Fail;
use test_fixtures::{put, rig_of};

pub(crate) const FMS: PartitionId = PartitionId(0);

pub(crate) const DISP: PartitionId = PartitionId(1);

// Behind the table's 33 blocks, each logbook has two headers and one place more than it logs, of two blocks each.
const FAULTS_AT: usize = 16_896;

const EVENTS_AT: usize = 22_016;

const FLIGHT_AT: usize = 26_112;

pub(crate) const SIZE: usize = 31_232;

/// Logbooks over a device, and which of them are created.
#[derive(Drop)]
pub(crate) struct Logbooks {
    pub table: Table,
    pub logs: Logs,
    pub made: MadeMarks,
}

/// What is done, before its memory is taken.
#[derive(Clone, Copy)]
pub(crate) enum Act<'a> {
    Create(&'a [u8]),
    Write(u32, &'a [u8]),
    Overwrite(u32, &'a [u8]),
    Read(u32, u32),
    Clear(u32),
    GetId(&'a [u8]),
    Status(u32),
    /// The oldest messages in progress move.
    Tick,
    /// The partition restarts.
    Restart,
}

/// Why nothing is replied.
#[derive(Clone, Copy, PartialEq, Eq)]
pub(crate) enum Stop {
    Device,
    Memory,
}

impl From<OutOfMemory> for Stop {
    fn from(_memory: OutOfMemory) -> Stop {
        Stop::Memory
    }
}

/// What is replied.
#[derive(Clone, Copy)]
pub(crate) enum Told<'a> {
    Refused(ReturnCode),
    Done,
    Id(u32),
    InProgress(&'a [u8]),
    Complete(&'a [u8]),
    /// The size of messages, the limits of those logged and in progress, and how many are.
    Status([u32; 5]),
}

/// What a partition does, and what is replied.
pub(crate) type Step<'a> = (PartitionId, Act<'a>, Told<'a>);

/// A name of the table. One that isn't spelled so is taken for want of memory.
fn name(bytes: &[u8]) -> Result<Name, OutOfMemory>
    ensures { IfOk result (λ name. name ≡ bytes.now) }
{
    match Name::read_in_table(bytes) {
        Some(name) => Ok(name),
        None => Err(OutOfMemory),
    }
}

fn row(bytes: &[u8], partition: PartitionId, size: u16, few: u8) -> Result<LogbookRow, OutOfMemory>
    ensures { IfOk result (λ row. row ≡ record { name = bytes.now; partition = partition; message_size = size; logged = few; in_progress = few }) }
{
    let name = name(bytes)?;
    Ok(LogbookRow {
        name,
        partition,
        message_size: size,
        logged: u16::from(few),
        in_progress: few,
    })
}

pub(crate) fn three_logbooks(alloc: Global) -> Result<Table, OutOfMemory>
    ensures accepted { IfOk result IsAccepted }
    ensures blocks { IfOk result (λ table. layout_blocks table ≡ 61) }
    ensures three { IfOk result (λ table. length table.logbooks ≡ 3) }
{
    let mut table = Table::new(alloc);
    table.push_partition(PartitionRow {
        name: name(b"FMS")?,
    })?;
    table.push_partition(PartitionRow {
        name: name(b"DISP")?,
    })?;
    table.push_logbook(row(b"FAULTS", FMS, 16, 2)?)?;
    table.push_logbook(row(b"EVENTS", DISP, 8, 1)?)?;
    table.push_logbook(row(b"FLIGHT", FMS, 16, 2)?)?;
    Ok(table)
}

/// A device on which nothing is logged, and the third logbook has one message left in its life.
pub(crate) fn unused_device(alloc: Global, failing: FailList) -> Result<MemRig, OutOfMemory>
    ensures { IfOk result (λ rig. IsAllSettled (mem_state rig)) }
{
    let mut image = [0; SIZE];
    put(&mut image, FAULTS_AT, &[0xA5]);
    put(&mut image, EVENTS_AT, &[0xA5]);
    put(&mut image, FLIGHT_AT, &[0xA5]);
    put(&mut image, FLIGHT_AT + 516, &[0xFE, 0xFF, 0xFF, 0xFF]);
    rig_of(alloc, &image, failing)
}

impl Told<'_> {
    fn code(self) -> ReturnCode {
        match self {
            Told::Refused(code) => code,
            _ => ReturnCode::NoError,
        }
    }

    fn is_empty(self) -> bool {
        match self {
            Told::Refused(_) | Told::Done => true,
            _ => false,
        }
    }

    fn is_id(self, number: u32) -> bool {
        match self {
            Told::Id(id) => id == number,
            _ => false,
        }
    }

    fn is_entry(self, state: EntryState, bytes: &[u8]) -> bool {
        match self {
            Told::InProgress(message) => state == EntryState::InProgress && bytes == message,
            Told::Complete(message) => state == EntryState::Complete && bytes == message,
            _ => false,
        }
    }

    fn is_status(self, found: [u32; 5]) -> bool {
        match self {
            Told::Status(status) => found == status,
            _ => false,
        }
    }

    fn has_values(self, values: &Values) -> bool {
        match values {
            Values::Empty => self.is_empty(),
            Values::Number(number) => self.is_id(*number),
            Values::Entry { state, bytes } => self.is_entry(*state, bytes.bytes()),
            Values::LogbookStatus {
                message_size,
                logged_limit,
                progress_limit,
                logged,
                progress,
            } => self.is_status([
                *message_size,
                *logged_limit,
                *progress_limit,
                *logged,
                *progress,
            ]),
            _ => false,
        }
    }

    fn is_told_by(self, reply: &Reply) -> bool {
        if reply.errno.is_some() || reply.code != self.code() {
            return false;
        }
        self.has_values(&reply.values)
    }
}

/// The call of an act that is one.
fn call_of(alloc: Global, act: Act<'_>) -> Result<Option<LogbookCall>, OutOfMemory> {
    let call = match act {
        Act::Create(name) => LogbookCall::Create {
            name: Token::read(alloc, name)?,
        },
        Act::Write(id, bytes) => LogbookCall::Write {
            id,
            bytes: Token::read(alloc, bytes)?,
        },
        Act::Overwrite(id, bytes) => LogbookCall::Overwrite {
            id,
            bytes: Token::read(alloc, bytes)?,
        },
        Act::Read(id, number) => LogbookCall::Read { id, number },
        Act::Clear(id) => LogbookCall::Clear { id },
        Act::GetId(name) => LogbookCall::GetId {
            name: Token::read(alloc, name)?,
        },
        Act::Status(id) => LogbookCall::GetStatus { id },
        Act::Tick | Act::Restart => return Ok(None),
    };
    Ok(Some(call))
}

const DONE: Reply = Reply {
    code: ReturnCode::NoError,
    errno: None,
    values: Values::Empty,
};

/// Whether nothing is logged in any of three logbooks.
fn is_unused(logs: &Logs) -> bool
    requires { length logs.now ≡ 3 }
    ensures { IsTrue result → (k : ℕ) (book : Book) → slice_get logs.now k ≡ Some book
        → logged_of book ≡ 0 }
{
    if logs.counts(0).logged != 0 {
        return false;
    }
    if logs.counts(1).logged != 0 {
        return false;
    }
    logs.counts(2).logged == 0
}

impl Logbooks {
    /// The logbooks of a device on which nothing is logged.
    pub(crate) fn mount<R: Rig>(alloc: Global, rig: &mut R) -> Result<Logbooks, Fail>
        requires { IsAllSettled (R.state rig.old) }
        ensures { IfOk result (λ new. IsInStep R.tells_view (R.state rig.new)
            new.table new.logs new.made) }
    {
        let table = three_logbooks(alloc)?;
        if rig.size() < SIZE as u64 {
            return Err(Fail::from("size"));
        }
        let logs = match Logs::mount(alloc, rig, &table) {
            Ok(logs) => logs,
            Err(_) => return Err(Fail::from("mount")),
        };
        if !is_unused(&logs) {
            return Err(Fail::from("unused"));
        }
        let made = MadeMarks::new(alloc, &table)?;
        Ok(Logbooks { table, logs, made })
    }

    fn tick<R: Rig>(&mut self, rig: &mut R) -> Result<Reply, Stop>
        requires { IsInStep R.tells_view (R.state rig.old) self.old.table self.old.logs self.old.made }
        ensures { OnOk result (IsInStep R.tells_view (R.state rig.new)
            self.new.table self.new.logs self.new.made) }
    {
        match self.logs.move_all(rig) {
            Ok(()) => Ok(DONE),
            Err(_) => Err(Stop::Device),
        }
    }

    fn restart<R: Rig>(&mut self, rig: &R, p: PartitionId) -> Reply
        requires { IsInStep R.tells_view (R.state rig.now) self.old.table self.old.logs self.old.made }
        ensures { IsInStep R.tells_view (R.state rig.now) self.new.table self.new.logs self.new.made }
    {
        self.made.restart(&self.table, p);
        DONE
    }

    fn call<R: Rig>(
        &mut self,
        rig: &mut R,
        p: PartitionId,
        mode: Mode,
        call: &LogbookCall,
    ) -> Result<Reply, Stop>
        requires { IsInStep R.tells_view (R.state rig.old) self.old.table self.old.logs self.old.made }
        ensures { OnOk result (IsInStep R.tells_view (R.state rig.new)
            self.new.table self.new.logs self.new.made) }
    {
        match logbook_call(
            &self.table,
            &mut self.logs,
            &mut self.made,
            rig,
            p,
            mode,
            call,
        ) {
            Ok(reply) => Ok(reply),
            Err(_) => Err(Stop::Device),
        }
    }

    /// Does this, as a partition in a mode.
    pub(crate) fn carry_out<R: Rig>(
        &mut self,
        alloc: Global,
        rig: &mut R,
        p: PartitionId,
        mode: Mode,
        act: Act<'_>,
    ) -> Result<Reply, Stop>
        requires { IsInStep R.tells_view (R.state rig.old) self.old.table self.old.logs self.old.made }
        ensures { OnOk result (IsInStep R.tells_view (R.state rig.new)
            self.new.table self.new.logs self.new.made) }
    {
        if let Some(call) = call_of(alloc, act)? {
            return self.call(rig, p, mode, &call);
        }
        match act {
            Act::Restart => Ok(self.restart(rig, p)),
            _ => self.tick(rig),
        }
    }

    /// Takes steps in a mode, and answers the first that is replied to otherwise.
    pub(crate) fn first_other<R: Rig>(
        &mut self,
        alloc: Global,
        rig: &mut R,
        mode: Mode,
        steps: &[Step<'_>],
    ) -> Result<Option<usize>, Fail>
        requires { IsInStep R.tells_view (R.state rig.old) self.old.table self.old.logs self.old.made }
        ensures { OnOk result (IsInStep R.tells_view (R.state rig.new)
            self.new.table self.new.logs self.new.made) }
    {
        for (k, (p, act, told)) in steps.iter().enumerate() {
            let reply = match self.carry_out(alloc, rig, *p, mode, *act) {
                Ok(reply) => reply,
                Err(_) => return Err(Fail::from("step")),
            };
            if !told.is_told_by(&reply) {
                return Ok(Some(k));
            }
        }
        Ok(None)
    }
}
