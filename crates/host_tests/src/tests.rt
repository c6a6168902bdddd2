ghost use Rattle.std.specs.Prelude.{IfOk};
ghost use Rattle.rig_core.specs.Leaves.{IsAllSettled};
ghost use Rattle.rig_core.specs.MemRig.{mem_state};

mod commands;
mod directory_calls;
mod faults;
mod file_calls;
mod flights;
mod formats;
mod images;
mod isolation;
mod loads;
mod logbooks;
mod modes;
mod ports;
mod refusals;

use apex_host::{Status, host};
use apex_types::{ByteList, CallKind, FailList, NumberList, OutOfMemory, Words};
use config_table::read_table;
use image_format::layout;
use recover_scan::format;
use rig_core::{MemRig, MemSource};
use std::alloc::Global;
use std::test::Fail;
use test_fixtures::{failing, list_of, rig_of};

/// A display and a flight management partition with one tree, one logbook and one channel.
const SMALL: &[u8] = b"partition = [{ name = \"FMS\" }, { name = \"DISP\" }]
volume = [{ name = \"NV1\", blocks = 8 }]
tree = [{ volume = \"NV1\", owner = \"FMS\", readers = [\"DISP\"], quota = 8, files = 4, directories = 2, dirty = 16 }]
logbook = [{ name = \"FAULTS\", partition = \"FMS\", message_size = 16, logged = 4, in_progress = 2 }]
channel = [{ source = \"FMS:ALT\", destinations = [\"DISP:ALT\"], size = 4, refresh = 10 }]
";

/// The same with a quota of one block more than a tree can have.
const QUOTA_TOO_LARGE: &[u8] = b"partition = [{ name = \"FMS\" }, { name = \"DISP\" }]
volume = [{ name = \"NV1\", blocks = 8 }]
tree = [{ volume = \"NV1\", owner = \"FMS\", readers = [\"DISP\"], quota = 4097, files = 4, directories = 2, dirty = 16 }]
logbook = [{ name = \"FAULTS\", partition = \"FMS\", message_size = 16, logged = 4, in_progress = 2 }]
channel = [{ source = \"FMS:ALT\", destinations = [\"DISP:ALT\"], size = 4, refresh = 10 }]
";

/// The same with a volume of one block less than its tree.
const VOLUME_TOO_SMALL: &[u8] = b"partition = [{ name = \"FMS\" }, { name = \"DISP\" }]
volume = [{ name = \"NV1\", blocks = 7 }]
tree = [{ volume = \"NV1\", owner = \"FMS\", readers = [\"DISP\"], quota = 8, files = 4, directories = 2, dirty = 16 }]
logbook = [{ name = \"FAULTS\", partition = \"FMS\", message_size = 16, logged = 4, in_progress = 2 }]
channel = [{ source = \"FMS:ALT\", destinations = [\"DISP:ALT\"], size = 4, refresh = 10 }]
";

/// The same with a key in the tree that there is not.
const KEY_ADDED: &[u8] = b"partition = [{ name = \"FMS\" }, { name = \"DISP\" }]
volume = [{ name = \"NV1\", blocks = 8 }]
tree = [{ volume = \"NV1\", owner = \"FMS\", readers = [\"DISP\"], quota = 8, files = 4, directories = 2, dirty = 16, colour = 1 }]
logbook = [{ name = \"FAULTS\", partition = \"FMS\", message_size = 16, logged = 4, in_progress = 2 }]
channel = [{ source = \"FMS:ALT\", destinations = [\"DISP:ALT\"], size = 4, refresh = 10 }]
";

const USAGE: &[u8] = b"usage: format, run, only PARTITION, check, stress SEED LINES, sweep\n";

/// A file made, written and asked for its status.
const FIRST_RUN: &[u8] =
    b"FMS OPEN_NEW_FILE /NV1/FMS/A\nFMS WRITE_FILE 1 4142\nFMS GET_FILE_STATUS 1\n";

const FIRST_RUN_TOLD: &[u8] = b"1 NO_ERROR - 1\n2 NO_ERROR - 2\n3 NO_ERROR - 2 2 1\n";

/// A source in memory of these bytes, of which the read of this number fails, counted from 1; none at 0.
fn source(alloc: Global, bytes: &[u8], failing: u64) -> Result<MemSource, OutOfMemory> {
    let mut list = ByteList::new(alloc);
    list.extend(bytes)?;
    let mut reads = NumberList::new(alloc);
    reads.push(failing)?;
    Ok(MemSource::new(list, reads))
}

/// The bytes of a table's image after a format; none where the table is refused.
pub fn formatted(alloc: Global, table: &[u8]) -> Result<ByteList, OutOfMemory> {
    let Ok(table) = read_table(alloc, table) else {
        return Ok(ByteList::new(alloc));
    };
    let zeros = vec![in alloc; 0u8; 512 * layout(&table).blocks() as usize]?;
    let mut rig = rig_of(alloc, &zeros, FailList::new(alloc))?;
    match format(alloc, &mut rig, &table) {
        Ok(()) => list_of(alloc, rig.view()),
        Err(_) => Err(OutOfMemory),
    }
}

/// A rig in memory over the formatted image of a table, of which the telling of this number fails, counted from 1; none
/// at 0.
fn rig(alloc: Global, table: &[u8], telling: u64) -> Result<MemRig, OutOfMemory>
    ensures { IfOk result (λ rig. IsAllSettled (mem_state rig)) }
{
    let image = formatted(alloc, table)?;
    rig_of(
        alloc,
        image.bytes(),
        failing(alloc, &[(CallKind::Tell, telling)])?,
    )
}

/// The status of `run` with this table and this script, on this rig.
fn run_on(
    alloc: Global,
    table: &[u8],
    script: &[u8],
    rig: &mut MemRig,
) -> Result<Status, OutOfMemory>
    requires { IsAllSettled (mem_state rig.old) }
{
    let mut words = Words::new(alloc);
    words.push(b"run")?;
    let mut table = source(alloc, table, 0)?;
    let mut script = source(alloc, script, 0)?;
    Ok(host(alloc, &words, &mut table, &mut script, rig))
}

/// Whether `run`, over the formatted image of its table, ends and tells so.
fn runs(
    alloc: Global,
    table: &[u8],
    script: &[u8],
    status: Status,
    told: &[u8],
) -> Result<bool, OutOfMemory> {
    let mut rig = rig(alloc, table, 0)?;
    let ended = run_on(alloc, table, script, &mut rig)?;
    Ok(ended == status && rig.told() == told)
}

/// Whether these words are answered by the usage line, and nothing else is done.
fn is_usage(alloc: Global, words: &Words) -> Result<bool, OutOfMemory> {
    let mut table = source(alloc, SMALL, 0)?;
    let mut script = source(alloc, FIRST_RUN, 0)?;
    let mut rig = rig(alloc, SMALL, 0)?;
    let ended = host(alloc, words, &mut table, &mut script, &mut rig);
    Ok(ended == Status::Usage && rig.told() == USAGE)
}

#[test]
fn a_file_is_made_written_and_asked_for(rt: HostRuntime) -> Result<(), Fail> {
    assert!(rt; runs(rt.alloc(), SMALL, FIRST_RUN, Status::Done, FIRST_RUN_TOLD)?);
    Ok(())
}

#[test]
fn a_taken_name_and_a_free_handle_are_refused(rt: HostRuntime) -> Result<(), Fail> {
    let script =
        b"FMS OPEN_NEW_FILE /NV1/FMS/A\nFMS OPEN_NEW_FILE /NV1/FMS/A\nFMS WRITE_FILE 7 00\nFMS GET_FILE_STATUS 1\n";
    let told =
        b"1 NO_ERROR - 1\n2 INVALID_PARAM EEXIST\n3 INVALID_PARAM EBADF\n4 NO_ERROR - 0 0 0\n";
    assert!(rt; runs(rt.alloc(), SMALL, script, Status::Done, told)?);
    Ok(())
}

#[test]
fn scripts_without_calls_tell_nothing(rt: HostRuntime) -> Result<(), Fail> {
    assert!(rt; runs(rt.alloc(), SMALL, b"", Status::Done, b"")?);
    assert!(rt;
        runs(
            rt.alloc(),
            SMALL,
            b"# no call\n\nTICK 5\n",
            Status::Done,
            b""
        )?
    );
    Ok(())
}

#[test]
fn partitions_have_handles_of_their_own(rt: HostRuntime) -> Result<(), Fail> {
    let script =
        b"FMS OPEN_NEW_FILE /NV1/FMS/A\nDISP GET_FILE_STATUS 1\nDISP OPEN_NEW_FILE /NV1/FMS/B\n";
    let told = b"1 NO_ERROR - 1\n2 INVALID_PARAM EBADF\n3 INVALID_CONFIG EACCES\n";
    assert!(rt; runs(rt.alloc(), SMALL, script, Status::Done, told)?);
    Ok(())
}

#[test]
fn refused_scripts_carry_nothing_out(rt: HostRuntime) -> Result<(), Fail> {
    let unknown = b"FMS OPEN_NEW_FILE /NV1/FMS/A\nTICK 1\nABC GET_FILE_STATUS 1\n";
    assert!(rt;
        runs(
            rt.alloc(),
            SMALL,
            unknown,
            Status::ScriptRefused,
            b"script refused 3 UnknownPartition line 3\n"
        )?
    );
    let other = b"FMS CREATE_BUFFER FAULTS\n";
    assert!(rt;
        runs(
            rt.alloc(),
            SMALL,
            other,
            Status::ScriptRefused,
            b"script refused 4 UnknownCall line 1\n"
        )?
    );
    Ok(())
}

#[test]
fn refused_tables_carry_nothing_out(rt: HostRuntime) -> Result<(), Fail> {
    let large = b"table refused 7 OutOfRange\n";
    assert!(rt;
        runs(
            rt.alloc(),
            QUOTA_TOO_LARGE,
            FIRST_RUN,
            Status::TableRefused,
            large
        )?
    );
    let full = b"table refused 10 VolumeOverfull\n";
    assert!(rt;
        runs(
            rt.alloc(),
            VOLUME_TOO_SMALL,
            FIRST_RUN,
            Status::TableRefused,
            full
        )?
    );
    let key = b"table refused 3 UnknownKey\n";
    assert!(rt; runs(rt.alloc(), KEY_ADDED, FIRST_RUN, Status::TableRefused, key)?);
    Ok(())
}

#[test]
fn other_words_and_none_tell_the_usage(rt: HostRuntime) -> Result<(), Fail> {
    let mut words = Words::new(rt.alloc());
    assert!(rt; is_usage(rt.alloc(), &words)?);
    words.push(b"run")?;
    words.push(b"now")?;
    assert!(rt; is_usage(rt.alloc(), &words)?);
    Ok(())
}

/// The first so many lines of the first run's reply lines.
fn told_until(lines: u64) -> &'static [u8] {
    match lines {
        0 => b"",
        1 => b"1 NO_ERROR - 1\n",
        2 => b"1 NO_ERROR - 1\n2 NO_ERROR - 2\n",
        _ => FIRST_RUN_TOLD,
    }
}

/// Whether the first run ends and tells so, where these reads and this telling fail.
fn first_run_ends(
    alloc: Global,
    table_read: u64,
    script_read: u64,
    telling: u64,
    status: Status,
    told: &[u8],
) -> Result<bool, OutOfMemory> {
    let mut words = Words::new(alloc);
    words.push(b"run")?;
    let mut table = source(alloc, SMALL, table_read)?;
    let mut script = source(alloc, FIRST_RUN, script_read)?;
    let mut rig = rig(alloc, SMALL, telling)?;
    let ended = host(alloc, &words, &mut table, &mut script, &mut rig);
    Ok(ended == status && rig.told() == told)
}

#[test]
fn each_read_of_a_source_can_fail(rt: HostRuntime) -> Result<(), Fail> {
    let alloc = rt.alloc();
    for k in 1..3 {
        assert!(rt; first_run_ends(alloc, k, 0, 0, Status::SourceFault, b"source fault table\n")?);
        assert!(rt;
            first_run_ends(
                alloc,
                0,
                k,
                0,
                Status::SourceFault,
                b"source fault script\n"
            )?
        );
        assert!(rt; first_run_ends(alloc, k, k, 0, Status::SourceFault, b"source fault table\n")?);
    }
    assert!(rt; first_run_ends(alloc, 3, 3, 0, Status::Done, FIRST_RUN_TOLD)?);
    Ok(())
}

/// Whether a command ends at a source that failed, and tells so, where these reads fail.
fn ends_at_a_source(
    alloc: Global,
    word: &[u8],
    table: &[u8],
    table_read: u64,
    script: &[u8],
    script_read: u64,
    told: &[u8],
) -> Result<bool, OutOfMemory> {
    let mut words = Words::new(alloc);
    words.push(word)?;
    let mut table = source(alloc, table, table_read)?;
    let mut script = source(alloc, script, script_read)?;
    let mut rig = rig(alloc, SMALL, 0)?;
    let ended = host(alloc, &words, &mut table, &mut script, &mut rig);
    Ok(ended == Status::SourceFault && rig.told() == told)
}

/// The first read gives bytes that are refused where the second finds the end; here the second fails.
#[test]
fn a_read_that_fails_comes_before_bytes_that_are_refused(rt: HostRuntime) -> Result<(), Fail> {
    let alloc = rt.alloc();
    let table = b"source fault table\n";
    assert!(rt; ends_at_a_source(alloc, b"run", KEY_ADDED, 2, FIRST_RUN, 0, table)?);
    assert!(rt; ends_at_a_source(alloc, b"format", KEY_ADDED, 2, FIRST_RUN, 0, table)?);
    let call = b"FMS NO_SUCH_CALL\n";
    let script = b"source fault script\n";
    assert!(rt; ends_at_a_source(alloc, b"run", SMALL, 0, call, 2, script)?);
    Ok(())
}

#[test]
fn each_telling_can_fail(rt: HostRuntime) -> Result<(), Fail> {
    let alloc = rt.alloc();
    for k in 1..4 {
        assert!(rt; first_run_ends(alloc, 0, 0, k, Status::ReplyFault, told_until(k - 1))?);
    }
    assert!(rt; first_run_ends(alloc, 0, 0, 4, Status::Done, FIRST_RUN_TOLD)?);
    assert!(rt; first_run_ends(alloc, 1, 0, 1, Status::ReplyFault, b"")?);
    Ok(())
}

/// Whether the first run ends well, or for want of memory with whole lines told: of the host's, or of the rig's, whose
/// record of a telling can't grow then.
fn ends_or_wants_memory(alloc: Global) -> Result<bool, OutOfMemory> {
    let mut words = Words::new(alloc);
    words.push(b"run")?;
    let mut table = source(alloc, SMALL, 0)?;
    let mut script = source(alloc, FIRST_RUN, 0)?;
    let mut rig = rig(alloc, SMALL, 0)?;
    Ok(
        match host(alloc, &words, &mut table, &mut script, &mut rig) {
            Status::Done => rig.told() == FIRST_RUN_TOLD,
            Status::OutOfMemory => (0..4).any(|lines| rig.told() == told_until(lines)),
            Status::ReplyFault => {
                rig.starved() && (0..4).any(|lines| rig.told() == told_until(lines))
            }
            _ => false,
        },
    )
}

/// Meant for runs in which an allocation fails.
#[test]
fn want_of_memory_has_a_status(rt: HostRuntime) {
    if let Ok(ended) = ends_or_wants_memory(rt.alloc()) {
        assert!(rt; ended);
    }
}
