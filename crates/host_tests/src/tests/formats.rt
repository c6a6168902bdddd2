ghost use Rattle.std.specs.Prelude.{IfOk};
ghost use Rattle.rig_core.specs.Leaves.{IsAllSettled};
ghost use Rattle.rig_core.specs.MemRig.{mem_state};

use super::{FIRST_RUN, KEY_ADDED, SMALL, USAGE, source};
use apex_host::{Status, host};
use apex_types::{ByteList, CallKind, FailList, OutOfMemory, Words};
use rig_core::MemRig;
use std::alloc::Global;
use std::test::Fail;

/// One tree with every limit at its greatest.
const LARGE: &[u8] = b"partition = [{ name = \"FMS\" }]
volume = [{ name = \"NV1\", blocks = 4096 }]
tree = [{ volume = \"NV1\", owner = \"FMS\", readers = [], quota = 4096, files = 64, directories = 32, dirty = 48 }]
logbook = []
channel = []
";

/// Four partitions with five trees on two volumes, six logbooks and four channels.
pub const FOUR_PARTITIONS: &[u8] =
    b"partition = [{ name = \"FMS\" }, { name = \"DISP\" }, { name = \"MNT\" }, { name = \"RAD\" }]
volume = [{ name = \"NV1\", blocks = 4096 }, { name = \"NV2\", blocks = 2560 }]
tree = [
  { volume = \"NV1\", owner = \"FMS\", readers = [\"DISP\"], quota = 2048, files = 32, directories = 8, dirty = 32 },
  { volume = \"NV1\", owner = \"DISP\", readers = [], quota = 512, files = 32, directories = 8, dirty = 32 },
  { volume = \"NV1\", owner = \"MNT\", readers = [\"FMS\"], quota = 1024, files = 32, directories = 8, dirty = 32 },
  { volume = \"NV2\", owner = \"FMS\", readers = [], quota = 1024, files = 32, directories = 8, dirty = 32 },
  { volume = \"NV2\", owner = \"RAD\", readers = [], quota = 512, files = 32, directories = 8, dirty = 32 },
]
logbook = [
  { name = \"FLIGHT\", partition = \"FMS\", message_size = 64, logged = 64, in_progress = 8 },
  { name = \"FAULTS\", partition = \"FMS\", message_size = 64, logged = 64, in_progress = 8 },
  { name = \"EVENTS\", partition = \"DISP\", message_size = 64, logged = 64, in_progress = 8 },
  { name = \"ACTIONS\", partition = \"MNT\", message_size = 64, logged = 64, in_progress = 8 },
  { name = \"FAULTS\", partition = \"MNT\", message_size = 64, logged = 64, in_progress = 8 },
  { name = \"EVENTS\", partition = \"RAD\", message_size = 64, logged = 64, in_progress = 8 },
]
channel = [
  { source = \"FMS:ALT\", destinations = [\"DISP:ALT\"], size = 64, refresh = 200 },
  { source = \"FMS:SPD\", destinations = [\"DISP:SPD\", \"MNT:SPD\"], size = 64, refresh = 200 },
  { source = \"RAD:FREQ\", destinations = [\"FMS:FREQ\"], size = 64, refresh = 200 },
  { source = \"MNT:STATE\", destinations = [\"DISP:STATE\", \"FMS:STATE\"], size = 64, refresh = 200 },
]
";

/// The number of bytes of the small table's image.
const BYTES: usize = 100_864;

/// An open gate, as an image has it where a format was done before, and sevens behind it.
fn used_image(alloc: Global, size: usize) -> Result<ByteList, OutOfMemory> {
    let Ok(mut bytes) = vec![in alloc; 7u8; size] else {
        return Err(OutOfMemory);
    };
    if size > 0 {
        bytes[0] = 0xA5;
    }
    let mut image = ByteList::new(alloc);
    image.extend(&bytes)?;
    Ok(image)
}

/// A rig over a used image of this size, of which the listed calls fail.
fn used_rig(alloc: Global, size: usize, failing: FailList) -> Result<MemRig, OutOfMemory>
    ensures { IfOk result (λ rig. IsAllSettled (mem_state rig)) }
{
    MemRig::new(alloc, used_image(alloc, size)?, failing, 64)
}

/// The status of `format` with this table, on this rig.
fn formats(alloc: Global, table: &[u8], rig: &mut MemRig) -> Result<Status, OutOfMemory>
    requires { IsAllSettled (mem_state rig.old) }
{
    let mut words = Words::new(alloc);
    words.push(b"format")?;
    let mut table = source(alloc, table, 0)?;
    let mut script = source(alloc, FIRST_RUN, 1)?;
    Ok(host(alloc, &words, &mut table, &mut script, rig))
}

/// Whether `format` with this table, on a device of so many bytes, makes an image and tells so.
fn makes(alloc: Global, table: &[u8], size: usize, told: &[u8]) -> Result<bool, OutOfMemory> {
    let mut rig = used_rig(alloc, size, FailList::new(alloc))?;
    let ended = formats(alloc, table, &mut rig)?;
    Ok(ended == Status::Done && rig.told() == told && rig.view().starts_with(&[0xA5]))
}

#[test]
fn an_image_has_the_blocks_of_its_table(rt: HostRuntime) -> Result<(), Fail> {
    let alloc = rt.alloc();
    assert!(rt; makes(alloc, SMALL, BYTES, b"formatted 197 blocks\n")?);
    assert!(rt; makes(alloc, SMALL, BYTES + 700, b"formatted 197 blocks\n")?);
    assert!(rt; makes(alloc, LARGE, 512 * 8_469, b"formatted 8469 blocks\n")?);
    assert!(rt;
        makes(
            alloc,
            FOUR_PARTITIONS,
            512 * 11_917,
            b"formatted 11917 blocks\n"
        )?
    );
    Ok(())
}

/// Whether `format` ends and tells so, and writes nothing.
fn writes_nothing(
    alloc: Global,
    table: &[u8],
    size: usize,
    status: Status,
    told: &[u8],
) -> Result<bool, OutOfMemory> {
    let mut rig = used_rig(alloc, size, FailList::new(alloc))?;
    let ended = formats(alloc, table, &mut rig)?;
    let unwritten = rig.made(CallKind::Write) == 0 && rig.made(CallKind::Sync) == 0;
    Ok(ended == status && rig.told() == told && unwritten)
}

#[test]
fn a_refused_format_writes_nothing(rt: HostRuntime) -> Result<(), Fail> {
    let alloc = rt.alloc();
    let small = b"image refused 1 TooSmall 100864\n";
    let large = b"image refused 1 TooSmall 6101504\n";
    let refused = Status::ImageRefused;
    assert!(rt; writes_nothing(alloc, SMALL, BYTES - 1, refused, small)?);
    assert!(rt; writes_nothing(alloc, SMALL, 0, refused, small)?);
    assert!(rt; writes_nothing(alloc, FOUR_PARTITIONS, BYTES, refused, large)?);
    let key = b"table refused 3 UnknownKey\n";
    assert!(rt; writes_nothing(alloc, KEY_ADDED, 0, Status::TableRefused, key)?);
    Ok(())
}

/// Whether `format` of the small table ends and tells so, where the call of this kind and number fails.
fn fails(
    alloc: Global,
    kind: CallKind,
    number: u64,
    status: Status,
    told: &[u8],
) -> Result<bool, OutOfMemory> {
    let mut failing = FailList::new(alloc);
    failing.push(kind, number)?;
    let mut rig = used_rig(alloc, BYTES, failing)?;
    let ended = formats(alloc, SMALL, &mut rig)?;
    Ok(ended == status && rig.told() == told)
}

#[test]
fn each_call_of_the_device_can_fail(rt: HostRuntime) -> Result<(), Fail> {
    let alloc = rt.alloc();
    let rows = [
        (CallKind::Read, 1),
        (CallKind::Write, 5),
        (CallKind::Sync, 3),
    ];
    for (kind, last) in rows {
        for number in 1..last + 1 {
            assert!(rt;
                fails(
                    alloc,
                    kind,
                    number,
                    Status::DeviceFault,
                    b"device fault format\n"
                )?,
                "{kind:?} {number}"
            );
        }
        assert!(rt;
            fails(
                alloc,
                kind,
                last + 1,
                Status::Done,
                b"formatted 197 blocks\n"
            )?
        );
    }
    assert!(rt; fails(alloc, CallKind::Tell, 1, Status::ReplyFault, b"")?);
    Ok(())
}

#[test]
fn a_device_fault_that_cannot_be_told_is_a_telling_fault(rt: HostRuntime) -> Result<(), Fail> {
    let alloc = rt.alloc();
    let mut failing = FailList::new(alloc);
    failing.push(CallKind::Write, 2)?;
    failing.push(CallKind::Tell, 1)?;
    let mut rig = used_rig(alloc, BYTES, failing)?;
    assert_eq!(rt; formats(alloc, SMALL, &mut rig)?, Status::ReplyFault);
    assert!(rt; rig.told().is_empty());
    Ok(())
}

#[test]
fn a_format_asks_for_its_table_alone(rt: HostRuntime) -> Result<(), Fail> {
    let alloc = rt.alloc();
    let mut words = Words::new(alloc);
    words.push(b"format")?;
    let mut table = source(alloc, SMALL, 1)?;
    let mut script = source(alloc, FIRST_RUN, 1)?;
    let mut rig = used_rig(alloc, BYTES, FailList::new(alloc))?;
    let ended = host(alloc, &words, &mut table, &mut script, &mut rig);
    assert_eq!(rt; ended, Status::SourceFault);
    assert!(rt; rig.told() == b"source fault table\n".as_slice());
    words.push(b"now")?;
    let mut rig = used_rig(alloc, BYTES, FailList::new(alloc))?;
    let ended = host(alloc, &words, &mut table, &mut script, &mut rig);
    assert_eq!(rt; ended, Status::Usage);
    assert!(rt; rig.told() == USAGE);
    Ok(())
}

/// Whether a format ends well, or for want of memory with nothing written: of the host's, or of the rig's, whose
/// record of a call can't grow then.
fn ends_or_wants_memory(alloc: Global) -> Result<bool, OutOfMemory> {
    let mut rig = used_rig(alloc, BYTES, FailList::new(alloc))?;
    Ok(match formats(alloc, SMALL, &mut rig)? {
        Status::Done => rig.told() == b"formatted 197 blocks\n".as_slice(),
        Status::OutOfMemory => rig.told().is_empty() && rig.made(CallKind::Write) == 0,
        Status::DeviceFault => rig.starved() && rig.told() == b"device fault format\n".as_slice(),
        Status::ReplyFault => rig.starved() && rig.told().is_empty(),
        _ => false,
    })
}

/// Meant for runs in which an allocation fails.
#[test]
fn want_of_memory_in_a_format_has_a_status(rt: HostRuntime) {
    if let Ok(ended) = ends_or_wants_memory(rt.alloc()) {
        assert!(rt; ended);
    }
}
