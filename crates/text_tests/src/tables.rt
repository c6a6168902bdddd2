//! Texts of tables with their refusals, and the bytes of a table.
use config_table::{read_table, table_bytes};
use std::alloc::Global;

/// A display and a flight management partition with one tree, one logbook and one channel.
pub const SMALL: &str = "partition = [{ name = \"FMS\" }, { name = \"DISP\" }]
volume = [{ name = \"NV1\", blocks = 8 }]
tree = [{ volume = \"NV1\", owner = \"FMS\", readers = [\"DISP\"], quota = 8, files = 4, directories = 2, dirty = 16 }]
logbook = [{ name = \"FAULTS\", partition = \"FMS\", message_size = 16, logged = 4, in_progress = 2 }]
channel = [{ source = \"FMS:ALT\", destinations = [\"DISP:ALT\"], size = 4, refresh = 10 }]
";

/// The bytes of the small table, as its format says: each list with its length, each name with its own, and numbers with
/// their least byte first.
const SMALL_BYTES: &[u8] =
    b"\x01\x02\x03FMS\x04DISP\x01\x03NV1\x08\0\0\0\x01\0\0\x01\x01\x08\0\x04\x02\x10\x01\x06FAULTS\0\x10\0\x04\0\x02\x01\0\x03ALT\x01\x01\x03ALT\x04\0\x0a\0\0\0";

/// The name of a refusal, and below it a text that is refused so. The cases stand with a line of two dashes between them.
const REFUSED: &str = "NotToml
\0
--
NotToml
partition = [
--
NotToml
partition = [{ name = \"A\0\" }]
--
BadName
partition = [{ name = \"é\" }]
--
UnknownKey
colour = 1
--
UnknownKey
partition = [{ name = 1, colour = 1 }]
--
MissingKey

--
MissingKey
partition = [{}]
--
MissingKey
partition = [{ name = 1 }]
volume = [{ name = \"V\" }]
--
WrongKind
partition = 1
--
WrongKind
partition = [1]
--
WrongKind
partition = [[{ name = \"A\" }]]
--
WrongKind
partition = { name = \"A\" }
--
WrongKind
[partition]
name = \"A\"
--
WrongKind
partition.name = \"A\"
--
WrongKind
partition = [{ name.first = \"A\" }]
--
WrongKind
partition = [{ name = 1979-05-27 }]
--
WrongKind
partition = [{ name = \"A B\" }]
volume = [{ name = \"V\", blocks = 1.0 }]
--
BadName
partition = [{ name = \"TICK\" }]
volume = [{ name = \"V\", blocks = 0 }]
--
BadName
partition = [{ name = \"ABCDEFGHIJKLMNOPQRSTUVWXY\" }]
--
BadName
partition = [{ name = \"\" }]
--
BadName
partition = [{ name = \"A\" }]
channel = [{ source = \"A\", destinations = [\"A:Q\"], size = 1, refresh = 1 }]
--
BadName
partition = [{ name = \"A\" }]
channel = [{ source = \"A:P:Q\", destinations = [\"A:Q\"], size = 1, refresh = 1 }]
--
OutOfRange
partition = []
--
OutOfRange
partition = [{ name = \"A\" }]
volume = [{ name = \"V\", blocks = 0 }]
--
OutOfRange
partition = [{ name = \"A\" }]
volume = [{ name = \"V\", blocks = 131073 }]
--
OutOfRange
partition = [{ name = \"A\" }]
volume = [{ name = \"V\", blocks = -1 }]
--
OutOfRange
partition = [{ name = \"A\" }]
channel = [{ source = \"A:P\", destinations = [], size = 1, refresh = 1 }]
--
OutOfRange
partition = [{ name = \"A\" }]
channel = [{ source = \"A:P\", destinations = [\"A:Q\"], size = 1, refresh = 4294967296 }]
--
Repeated
partition = [{ name = \"A\" }, { name = \"B\" }, { name = \"A\" }]
logbook = [{ name = \"L\", partition = \"C\", message_size = 480, logged = 256, in_progress = 16 }]
--
Repeated
partition = [{ name = \"A\" }]
channel = [{ source = \"A:P\", destinations = [\"A:P\"], size = 1, refresh = 1 }]
--
Repeated
partition = [{ name = \"A\" }]
volume = [{ name = \"V\", blocks = 1 }]
tree = [{ volume = \"V\", owner = \"A\", readers = [\"B\", \"B\"], quota = 2, files = 1, directories = 0, dirty = 16 }]
--
UnknownName
partition = [{ name = \"A\" }]
volume = [{ name = \"V\", blocks = 1 }]
tree = [{ volume = \"V\", owner = \"B\", quota = 2, files = 1, directories = 0, dirty = 16 }]";

/// A piece of the small table, what takes its place, and the refusal that this brings.
const CHANGES: &str = "quota = 8 -> quota = 4097 -> OutOfRange
quota = 8 -> quota = 0 -> OutOfRange
blocks = 8 -> blocks = 7 -> VolumeOverfull
dirty = 16 -> dirty = 16, colour = 1 -> UnknownKey
dirty = 16 -> dirty = 15 -> OutOfRange
dirty = 16 -> dirty = 49 -> OutOfRange
files = 4 -> files = 65 -> OutOfRange
directories = 2 -> directories = 33 -> OutOfRange
message_size = 16 -> message_size = 481 -> OutOfRange
size = 4 -> size = 1025 -> OutOfRange
refresh = 10 -> refresh = 0 -> OutOfRange
[\"DISP\"] -> [\"FMS\"] -> Repeated
[\"DISP\"] -> \"DISP\" -> WrongKind
\"NV1\", owner -> \"NV2\", owner -> UnknownName
";

/// Sixteen trees of the largest size.
const SIXTEEN_LARGE_TREES: &str = "partition = [{ name = \"A\" }, { name = \"B\" }]
volume = [
  { name = \"V1\", blocks = 8192 }, { name = \"V2\", blocks = 8192 }, { name = \"V3\", blocks = 8192 }, { name = \"V4\", blocks = 8192 },
  { name = \"V5\", blocks = 8192 }, { name = \"V6\", blocks = 8192 }, { name = \"V7\", blocks = 8192 }, { name = \"V8\", blocks = 8192 },
]
tree = [
  { volume = \"V1\", owner = \"A\", quota = 4096, files = 64, directories = 32, dirty = 48 },
  { volume = \"V1\", owner = \"B\", quota = 4096, files = 64, directories = 32, dirty = 48 },
  { volume = \"V2\", owner = \"A\", quota = 4096, files = 64, directories = 32, dirty = 48 },
  { volume = \"V2\", owner = \"B\", quota = 4096, files = 64, directories = 32, dirty = 48 },
  { volume = \"V3\", owner = \"A\", quota = 4096, files = 64, directories = 32, dirty = 48 },
  { volume = \"V3\", owner = \"B\", quota = 4096, files = 64, directories = 32, dirty = 48 },
  { volume = \"V4\", owner = \"A\", quota = 4096, files = 64, directories = 32, dirty = 48 },
  { volume = \"V4\", owner = \"B\", quota = 4096, files = 64, directories = 32, dirty = 48 },
  { volume = \"V5\", owner = \"A\", quota = 4096, files = 64, directories = 32, dirty = 48 },
  { volume = \"V5\", owner = \"B\", quota = 4096, files = 64, directories = 32, dirty = 48 },
  { volume = \"V6\", owner = \"A\", quota = 4096, files = 64, directories = 32, dirty = 48 },
  { volume = \"V6\", owner = \"B\", quota = 4096, files = 64, directories = 32, dirty = 48 },
  { volume = \"V7\", owner = \"A\", quota = 4096, files = 64, directories = 32, dirty = 48 },
  { volume = \"V7\", owner = \"B\", quota = 4096, files = 64, directories = 32, dirty = 48 },
  { volume = \"V8\", owner = \"A\", quota = 4096, files = 64, directories = 32, dirty = 48 },
  { volume = \"V8\", owner = \"B\", quota = 4096, files = 64, directories = 32, dirty = 48 },
]
";

/// Whether a text is refused by this name.
fn is_refused(alloc: Global, text: &[u8], name: &str) -> bool {
    match read_table(alloc, text) {
        Ok(_) => false,
        Err(error) => error.name() == name.as_bytes(),
    }
}

/// Whether a case is refused as its first line says.
fn case_holds(alloc: Global, case: &str) -> bool {
    match case.split_once('\n') {
        Some((name, text)) => is_refused(alloc, text.as_bytes(), name),
        None => false,
    }
}

/// Whether a change of the small table is refused as it says.
fn change_holds(alloc: Global, change: &str) -> bool {
    let Some((old, rest)) = change.split_once(" -> ") else {
        return false;
    };
    let Some((new, name)) = rest.split_once(" -> ") else {
        return false;
    };
    match SMALL.replacen(alloc, old, new, 1) {
        Ok(text) => is_refused(alloc, text.as_bytes(), name),
        Err(_) => false,
    }
}

/// Whether so many spaces are refused by this name.
fn spaces_refused(alloc: Global, count: usize, name: &str) -> bool {
    match vec![in alloc; b' '; count] {
        Ok(text) => is_refused(alloc, &text, name),
        Err(_) => false,
    }
}

/// Whether the small table has its bytes.
fn small_has_its_bytes(alloc: Global) -> bool {
    let Ok(table) = read_table(alloc, SMALL.as_bytes()) else {
        return false;
    };
    match table_bytes(alloc, &table) {
        Ok(bytes) => bytes.bytes() == SMALL_BYTES,
        Err(_) => false,
    }
}

#[test]
fn texts_are_refused_by_their_first_condition(rt: HostRuntime) {
    let alloc = rt.alloc();
    for case in REFUSED.split("\n--\n") {
        assert!(rt; case_holds(alloc, case), "{case}");
    }
    assert!(rt; is_refused(alloc, b"\xff", "NotToml"));
}

#[test]
fn changed_tables_are_refused(rt: HostRuntime) {
    for change in CHANGES.lines() {
        assert!(rt; change_holds(rt.alloc(), change), "{change}");
    }
}

#[test]
fn texts_and_images_have_limits(rt: HostRuntime) {
    assert!(rt; spaces_refused(rt.alloc(), 65_536, "MissingKey"));
    assert!(rt; spaces_refused(rt.alloc(), 65_537, "TooLong"));
    assert!(rt; is_refused(rt.alloc(), SIXTEEN_LARGE_TREES.as_bytes(), "ImageTooLarge"));
}

#[test]
fn the_small_table_has_its_bytes(rt: HostRuntime) {
    assert!(rt; small_has_its_bytes(rt.alloc()));
}
