ghost use Rattle.std.specs.Prelude.{◌≡◌, IfOk, length};
ghost use Rattle.std.specs.List.{AllByRecursion};
ghost use Rattle.apex_model.specs.Accepted.{IsAccepted};
ghost use Rattle.apex_model.specs.Layout.{layout_blocks};

use apex_types::{
    EntryState, FailList, LogCounts, LogbookRow, Name, PartitionId, PartitionRow, Table,
};
use logbook_store::Logs;
use rig_core::{MemRig, Rig};
use std::alloc::Global;
use std::marker::Model;
use std::test::Fail;
use test_fixtures::{put, rig_of};

// Behind the table's 33 blocks, two logbooks of two headers and five places of two blocks each.
const FIRST: usize = 16_896;

const SECOND: usize = 24_064;

const SIZE: usize = 31_232;

/// Two logbooks of at most four messages logged and two in progress, of at most 16 bytes, and their device.
#[derive(Drop)]
struct Device {
    logs: Logs,
    rig: MemRig,
}

impl Model for Device {
    ghost use Rattle.std.specs.Prelude.{◌≡◌, List, length};
    ghost use Rattle.std.specs.List.{AllByRecursion};
    ghost use Rattle.apex_model.specs.Logbooks.{Logbook};
    ghost use Rattle.rig_core.specs.Leaves.{IsAllSettled};
    ghost use Rattle.rig_core.specs.MemRig.{mem_state};
    ghost use Rattle.logbook_store.specs.Logs.{AreLaidOut, AreSettled, StandFor, sites_of};
    ghost use Rattle.logbook_store.specs.declared.book.Book.{Book};

    ghost Value = { List Book };

    ghost view = { λ d. d.logs };

    ghost invariant = { λ d. (length d.logs ≡ 2) × AllByRecursion (λ site. (site.0.message_size ≡ 16) × (site.0.in_progress ≡ 2)) (sites_of d.logs)
        × AreLaidOut (sites_of d.logs) (mem_state d.rig).size × AreSettled (sites_of d.logs) (mem_state d.rig)
        × (logbooks : List Logbook) × StandFor d.logs (mem_state d.rig).view logbooks };
}

fn name(bytes: &[u8]) -> Result<Name, Fail>
    ensures { IfOk result (λ name. name ≡ bytes.now) }
{
    match Name::read_in_table(bytes) {
        Some(name) => Ok(name),
        None => Err(Fail::from("name")),
    }
}

fn row(bytes: &[u8]) -> Result<LogbookRow, Fail>
    ensures { IfOk result (λ row. row ≡ record { name = bytes.now; partition = record { 0 = 0 }; message_size = 16; logged = 4; in_progress = 2 }) }
{
    let name = name(bytes)?;
    Ok(LogbookRow {
        name,
        partition: PartitionId(0),
        message_size: 16,
        logged: 4,
        in_progress: 2,
    })
}

fn two_logbooks(alloc: Global) -> Result<Table, Fail>
    ensures accepted { IfOk result IsAccepted }
    ensures blocks { IfOk result (λ table. layout_blocks table ≡ 61) }
    ensures two { IfOk result (λ table. length table.logbooks ≡ 2) }
    ensures small { IfOk result (λ table. AllByRecursion (λ row. (row.message_size ≡ 16) × (row.in_progress ≡ 2)) table.logbooks) }
{
    let mut table = Table::new(alloc);
    table.push_partition(PartitionRow {
        name: name(b"FMS")?,
    })?;
    table.push_logbook(row(b"FAULTS")?)?;
    table.push_logbook(row(b"EVENTS")?)?;
    Ok(table)
}

impl Device {
    fn mount(alloc: Global, image: &[u8]) -> Result<Device, Fail> {
        let table = two_logbooks(alloc)?;
        let mut rig = rig_of(alloc, image, FailList::new(alloc))?;
        if rig.size() < SIZE as u64 {
            return Err(Fail::from("size"));
        }
        match Logs::mount(alloc, &mut rig, &table) {
            Ok(logs) => Ok(Device { logs, rig }),
            Err(_) => Err(Fail::from("mount")),
        }
    }

    fn counts(&self, logbook: u32) -> Option<LogCounts> {
        if logbook >= 2 {
            return None;
        }
        Some(self.logs.counts(logbook))
    }

    fn add(&mut self, logbook: u32, bytes: &[u8]) -> bool {
        if logbook >= 2 || bytes.is_empty() || bytes.len() > 16 {
            return false;
        }
        let counts = self.logs.counts(logbook);
        if counts.progress >= 2 || counts.life > 1000 {
            return false;
        }
        self.logs.add(logbook, bytes);
        true
    }

    fn replace_newest(&mut self, logbook: u32, bytes: &[u8]) -> bool {
        if logbook >= 2 || bytes.is_empty() || bytes.len() > 16 {
            return false;
        }
        if self.logs.counts(logbook).progress == 0 {
            return false;
        }
        self.logs.replace_newest(logbook, bytes);
        true
    }

    // The state and the first byte of an entry.
    fn entry(mut self, logbook: u32, number: u32) -> Result<(EntryState, u8), Fail> {
        if logbook >= 2 || number < 1 {
            return Err(Fail::from("number"));
        }
        let counts = self.logs.counts(logbook);
        if counts.progress > 16 || counts.logged > 300 || number > counts.progress + counts.logged {
            return Err(Fail::from("number"));
        }
        match self.logs.entry(&mut self.rig, logbook, number) {
            Ok((state, bytes)) => Ok((state, bytes.bytes().first().copied().unwrap_or(0))),
            Err(_) => Err(Fail::from("device")),
        }
    }

    fn move_all(mut self) -> Result<Device, Fail> {
        match self.logs.move_all(&mut self.rig) {
            Ok(()) => Ok(self),
            Err(_) => Err(Fail::from("device")),
        }
    }
}

// The first logbook has entries 3 to 7, the oldest in the place of the next, and the second has none.
fn mounted(alloc: Global) -> Result<Device, Fail> {
    let mut image = [0; SIZE];
    put(&mut image, FIRST, &[0xA5]);
    put(&mut image, SECOND, &[0xA5]);
    let places = [
        (18_944, 19_456, 5),
        (19_968, 20_480, 6),
        (20_992, 21_504, 7),
        (22_016, 22_528, 3),
        (23_040, 23_552, 4),
    ];
    for (gate, body, number) in places {
        put(&mut image, gate, &[0xA5]);
        put(&mut image, body, &[number, 0, 0, 0, 1, 0, b'a']);
    }
    Device::mount(alloc, &image)
}

// With a message in progress in the first logbook, and two in the second.
fn filled(alloc: Global) -> Result<Device, Fail> {
    let mut device = mounted(alloc)?;
    if !device.add(0, b"one") {
        return Err(Fail::from("one"));
    }
    if !device.add(1, b"two") {
        return Err(Fail::from("two"));
    }
    if !device.add(1, b"more") {
        return Err(Fail::from("more"));
    }
    Ok(device)
}

fn counts(life: u32, logged: u32, progress: u32) -> Option<LogCounts> {
    Some(LogCounts {
        life,
        logged,
        progress,
    })
}

fn all_counts(device: &Device) -> [Option<LogCounts>; 2] {
    [device.counts(0), device.counts(1)]
}

fn moved_counts(alloc: Global) -> Result<[Option<LogCounts>; 2], Fail> {
    let device = filled(alloc)?.move_all()?;
    Ok(all_counts(&device))
}

// Whether these are entries of the two logbooks once the oldest messages have moved.
fn are_moved(alloc: Global, entries: &[(u32, u32, (EntryState, u8))]) -> Result<bool, Fail> {
    for (logbook, number, entry) in entries {
        let found = filled(alloc)?.move_all()?.entry(*logbook, *number)?;
        if found != *entry {
            return Ok(false);
        }
    }
    Ok(true)
}

#[test]
fn the_oldest_messages_of_all_logbooks_move(rt: HostRuntime) -> Result<(), Fail> {
    let entries = [
        (1, 1, (EntryState::InProgress, b'm')),
        (1, 2, (EntryState::Complete, b't')),
        (0, 1, (EntryState::Complete, b'o')),
    ];
    assert!(rt; moved_counts(rt.alloc())? == [counts(8, 4, 0), counts(1, 1, 1)]);
    assert!(rt; are_moved(rt.alloc(), &entries)?);
    Ok(())
}

// The messages in progress move, and so does one that replaces the newest of the second logbook.
fn replaced(alloc: Global) -> Result<Device, Fail> {
    let mut device = filled(alloc)?.move_all()?;
    if !device.replace_newest(1, b"new") {
        return Err(Fail::from("new"));
    }
    device.move_all()
}

#[test]
fn a_replaced_message_moves(rt: HostRuntime) -> Result<(), Fail> {
    let device = replaced(rt.alloc())?;
    assert!(rt; all_counts(&device) == [counts(8, 4, 0), counts(2, 2, 0)]);
    assert!(rt; device.entry(1, 1)? == (EntryState::Complete, b'n'));
    Ok(())
}
