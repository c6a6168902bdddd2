// Tables, and devices before their format.
ghost use Rattle.std.specs.Prelude.{IfOk};
ghost use Rattle.apex_model.specs.Accepted.{IsAccepted};
ghost use Rattle.rig_core.specs.Leaves.{IsAllSettled};
ghost use Rattle.rig_core.specs.MemRig.{mem_state};

use apex_types::{CallKind, Table};
use config_table::read_table;
use rig_core::MemRig;
use std::alloc::Global;
use std::test::Fail;
use test_fixtures::{failing, put, rig_of};

/// A flight management partition and a display with one tree, one logbook and one channel: 197 blocks.
pub(crate) const SMALL: &[u8] = b"partition = [{ name = \"FMS\" }, { name = \"DISP\" }]
volume = [{ name = \"NV1\", blocks = 8 }]
tree = [{ volume = \"NV1\", owner = \"FMS\", readers = [\"DISP\"], quota = 8, files = 4, directories = 2, dirty = 16 }]
logbook = [{ name = \"FAULTS\", partition = \"FMS\", message_size = 16, logged = 4, in_progress = 2 }]
channel = [{ source = \"FMS:ALT\", destinations = [\"DISP:ALT\"], size = 4, refresh = 10 }]
";

/// The bytes of its image.
pub(crate) const BYTES: usize = 100_864;

pub(crate) fn table_of(alloc: Global, text: &[u8]) -> Result<Table, Fail>
    ensures { IfOk result IsAccepted }
{
    match read_table(alloc, text) {
        Ok(table) => Ok(table),
        Err(_) => Err(Fail::from("table")),
    }
}

/// A device of sevens behind a gate, that fails at the listed calls.
pub(crate) fn sevens(
    alloc: Global,
    size: usize,
    gate: u8,
    calls: &[(CallKind, u64)],
) -> Result<MemRig, Fail>
    ensures { IfOk result (λ rig. IsAllSettled (mem_state rig)) }
{
    let mut image = vec![in alloc; 7u8; size]?;
    put(&mut image, 0, &[gate]);
    Ok(rig_of(alloc, &image, failing(alloc, calls)?)?)
}

/// Whether an image has these bytes from a place on.
pub(crate) fn has(image: &[u8], at: usize, bytes: &[u8]) -> bool {
    match image.get(at..) {
        Some(rest) => rest.starts_with(bytes),
        None => false,
    }
}

/// Whether each byte of a range is this one.
pub(crate) fn all_are(image: &[u8], from: usize, to: usize, byte: u8) -> bool {
    match image.get(from..to) {
        Some(bytes) => bytes.iter().all(|b| *b == byte),
        None => false,
    }
}
