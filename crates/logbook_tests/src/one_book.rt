ghost use Rattle.std.specs.Prelude.{◌≡◌, IfOk, IfSome};
ghost use Rattle.logbook_store.specs.Books.{row_of, start_of};

use apex_types::{EntryState, FailList, LogCounts, LogbookRow, Name, PartitionId};
use logbook_store::{Book, LogError};
use rig_core::{MemRig, Rig};
use std::alloc::Global;
use std::test::Fail;
use test_fixtures::{put, rig_of};

// Two headers and five places of two blocks each.
const SIZE: u64 = 7168;

// At most four messages logged and two in progress, of at most 16 bytes.
fn row() -> Result<LogbookRow, Fail>
    ensures size { IfOk result (λ row. row.message_size ≡ 16) }
    ensures logged { IfOk result (λ row. row.logged ≡ 4) }
    ensures in_progress { IfOk result (λ row. row.in_progress ≡ 2) }
{
    match Name::read(b"FAULTS") {
        Some(name) => Ok(LogbookRow {
            name,
            partition: PartitionId(0),
            message_size: 16,
            logged: 4,
            in_progress: 2,
        }),
        None => Err(Fail::from("name")),
    }
}

// Entries 4 to 7 in their places, of which those up to 4 are cleared, with another byte at a place.
fn device(alloc: Global, at: usize, byte: u8) -> Result<MemRig, Fail> {
    let mut image = [0; 7168];
    put(&mut image, 0, &[0xA5]);
    put(&mut image, 512, &[0, 0, 0, 0, 4]);
    let places = [
        (2048, 2560, 5, b'e'),
        (3072, 3584, 6, b'f'),
        (4096, 4608, 7, b'g'),
        (6144, 6656, 4, b'd'),
    ];
    for (gate, body, number, byte) in places {
        put(&mut image, gate, &[0xA5]);
        put(&mut image, body, &[number, 0, 0, 0, 2, 0, byte, byte]);
    }
    put(&mut image, at, &[byte]);
    Ok(rig_of(alloc, &image, FailList::new(alloc))?)
}

fn mount(rig: &mut MemRig) -> Result<Option<Book>, Fail>
    ensures start { IfOk result (λ found. IfSome found (λ book. start_of book ≡ 0)) }
    ensures logged { IfOk result (λ found. IfSome found (λ book. (row_of book).logged ≡ 4)) }
{
    let row = row()?;
    if rig.size() < SIZE {
        return Err(Fail::from("size"));
    }
    match Book::mount(rig, &row, 0) {
        Ok(book) => Ok(book),
        Err(_) => Err(Fail::from("device")),
    }
}

fn entry(book: &Book, rig: &mut MemRig, number: u32) -> Result<(EntryState, u8, usize), Fail>
    requires start { start_of book.now ≡ 0 }
    requires logged { (row_of book.now).logged ≡ 4 }
{
    let counts = book.counts();
    if counts.logged > 300 || counts.progress > 16 || rig.size() < SIZE {
        return Err(Fail::from("counts"));
    }
    if number < 1 || number > counts.logged + counts.progress {
        return Err(Fail::from("number"));
    }
    match book.entry(rig, number) {
        Ok((state, bytes)) => Ok((
            state,
            bytes.bytes().first().copied().unwrap_or(0),
            bytes.bytes().len(),
        )),
        Err(_) => Err(Fail::from("device")),
    }
}

// Whether the image by hand is mounted to these counts and entries.
fn is_mounted_to(alloc: Global, wanted: LogCounts, entries: &[(u32, u8)]) -> Result<bool, Fail> {
    let mut rig = device(alloc, 0, 0xA5)?;
    let Some(book) = mount(&mut rig)? else {
        return Ok(false);
    };
    for (number, byte) in entries {
        if entry(&book, &mut rig, *number)? != (EntryState::Complete, *byte, 2) {
            return Ok(false);
        }
    }
    Ok(book.counts() == wanted)
}

#[test]
fn an_image_by_hand_is_mounted_to_its_lists(rt: HostRuntime) -> Result<(), Fail> {
    let counts = LogCounts {
        life: 7,
        logged: 3,
        progress: 0,
    };
    let entries = [(1, b'g'), (2, b'f'), (3, b'e')];
    assert!(rt; is_mounted_to(rt.alloc(), counts, &entries)?);
    Ok(())
}

fn is_good(alloc: Global, at: usize, byte: u8) -> Result<bool, Fail> {
    Ok(mount(&mut device(alloc, at, byte)?)?.is_some())
}

#[test]
fn a_region_is_bad_by_one_byte(rt: HostRuntime) -> Result<(), Fail> {
    let rows = [
        // No header is newest, or it is spelled wrong.
        (0, 0, false),
        (512, 3, false),
        (513, 1, false),
        // A logged number is missing.
        (3072, 0, false),
        // A number stands in another's place, and a message is too long or none.
        (3584, 7, false),
        (3588, 17, false),
        (3588, 0, false),
        // A closed place and a cleared entry may hold anything.
        (5632, 9, true),
        (6144, 0, true),
    ];
    for (at, byte, good) in rows {
        assert!(rt; is_good(rt.alloc(), at, byte)? == good, "{byte} at {at}");
    }
    Ok(())
}

#[test]
fn errors_are_told(rt: HostRuntime) -> Result<(), Fail> {
    let texts = [
        (LogError::Bad { logbook: 2 }, "logbook 2 is bad"),
        (LogError::Device, "the device failed"),
        (LogError::Memory, "no memory is left"),
    ];
    for (error, text) in texts {
        let told = format!(in rt.alloc(); "{error}")?;
        assert_eq!(rt; told.as_str(), text);
    }
    Ok(())
}
