//! Texts of scripts: what their lines ask for, and why they are refused.
ghost use Rattle.std.specs.Prelude.{◌<◌, ◌^◌, IfOk};
ghost use Rattle.script_model.specs.Spelling.{IsReady};

use apex_types::{Call, Deed, FileCall, Line, Table, Whence};
use call_script::{Script, parse_script};
use config_table::{TableError, read_table};
use std::alloc::Global;
use std::test::Fail;

/// The partitions of the scripts, with the numbers 0 and 1.
const TABLE: &[u8] = b"partition = [{ name = \"FMS\" }, { name = \"DISP\" }]";

/// Lines, each with the condition by which a script of this line alone is refused.
const REFUSED: &str = "FMS -> UnknownCall
FMS READ -> UnknownCall
FMS read_logbook 1 1 -> UnknownCall
FMS MODES IDLE -> UnknownCall
fms GET_FILE_STATUS 1 -> UnknownPartition
 FMS -> UnknownPartition
FMS GET_FILE_STATUS -> WrongArguments
FMS WRITE_FILE 1  00 -> WrongArguments
FMS READ_FILE 1 -> WrongArguments
FMS SEEK_FILE x 0 SEEK_IN -> WrongArguments
FMS OPEN_FILE /NV1/FMS/A read_only -> WrongArguments
FMS GET_FILE_STATUS 01 -> BadNumber
FMS READ_FILE 01 1 -> BadNumber
FMS READ_FILE 4294967296 1 -> BadNumber
FMS GET_FILE_STATUS 1111111111111111111111111 -> BadNumber
FMS SEEK_FILE 1 -0 SEEK_SET -> BadNumber
FMS WRITE_FILE x 0g -> BadNumber
FMS WRITE_FILE 1 0g -> BadData
FMS WRITE_FILE 1 000 -> BadData
TICK 0 -> BadNumber
TICK 100001 -> BadNumber
TICK 4294967296 -> BadNumber
TICK 1 2 -> WrongArguments
TICK  -> WrongArguments
TICK\t1 -> NotAscii
TICK\r1 -> NotAscii
TICK 1\r\r -> NotAscii
\0 -> NotAscii
";

/// Lines of logbooks, sampling ports, modes and contexts, each with the condition by which it is refused.
const REFUSED_BESIDE_FILES: &str = "FMS CREATE_LOGBOOK é -> NotAscii
fms CREATE_LOGBOOK  -> UnknownPartition
FMS CREATE_LOGBOOK -> WrongArguments
FMS CREATE_LOGBOOK  -> WrongArguments
FMS CREATE_LOGBOOK FAULTS 1 -> WrongArguments
FMS WRITE_LOGBOOK 01  -> WrongArguments
FMS WRITE_LOGBOOK 01 0g -> BadNumber
FMS WRITE_LOGBOOK 1 0g -> BadData
FMS OVERWRITE_LOGBOOK x -> WrongArguments
FMS OVERWRITE_LOGBOOK 4294967296 000 -> BadNumber
FMS OVERWRITE_LOGBOOK 1 .. -> BadData
FMS READ_LOGBOOK 1 -> WrongArguments
FMS READ_LOGBOOK 1 -1 -> BadNumber
FMS CLEAR_LOGBOOK FAULTS 1 -> WrongArguments
FMS CLEAR_LOGBOOK FAULTS -> BadNumber
FMS GET_LOGBOOK_ID FAULTS FAULTS -> WrongArguments
FMS GET_LOGBOOK_STATUS 00 -> BadNumber
FMS CREATE_SAMPLING_PORT  ALT -> WrongArguments
FMS WRITE_SAMPLING_MESSAGE ALT  -> WrongArguments
FMS WRITE_SAMPLING_MESSAGE ALT 5 -> BadNumber
FMS WRITE_SAMPLING_MESSAGE 1 5 -> BadData
FMS READ_UPDATED_SAMPLING_MESSAGE -1 -> BadNumber
FMS GET_SAMPLING_PORT_CURRENT_STATUS 1 1 -> WrongArguments
FMS GET_SAMPLING_PORT_CURRENT_STATUS ALT -> BadNumber
FMS READ_SAMPLING_MESSAGE_CONDITIONAL x -> WrongArguments
FMS READ_SAMPLING_MESSAGE_CONDITIONAL 1 4294967296 -> BadNumber
FMS MODE -> WrongArguments
FMS MODE idle -> WrongArguments
FMS MODE HANDLER -> WrongArguments
FMS MODE IDLE IDLE -> WrongArguments
FMS CONTEXT  -> WrongArguments
FMS CONTEXT Locked -> WrongArguments
FMS CONTEXT NORMAL -> WrongArguments
";

/// A comment, a tick, a blank line and four calls, with both ends that a line may have, and none.
const LINES: &[u8] =
    b"# a comment\r\nTICK 100000\r\n\nDISP GET_FILE_STATUS 4294967295\nFMS WRITE_FILE 7 0aFf\nFMS SEEK_FILE 1 -4294967295 SEEK_END\nFMS WRITE_FILE 0 .\r";

/// Scripts that ask for nothing.
const EMPTY: [&[u8]; 5] = [b"", b"# note", b"\n", b"\r", b"\n\r\n#"];

/// The table of the two partitions.
#[tactic(auto, using(script_model::proofs::Accepted::accepted_ready))]
pub fn two_partitions(alloc: Global) -> Result<Table, TableError>
    ensures { IfOk result (λ table. IsReady table) }
{
    let table = read_table(alloc, TABLE)?;
    Ok(table)
}

/// Whether a script is refused by this name, at this line if at one.
fn is_refused(alloc: Global, table: &Table, script: &[u8], name: &[u8], line: Option<u32>) -> bool
    requires { IsReady table.now }
{
    match parse_script(alloc, script, table) {
        Ok(_) => false,
        Err(error) => error.name() == name && error.line() == line,
    }
}

/// Whether a line is refused as is said behind it.
fn case_holds(alloc: Global, table: &Table, case: &str) -> bool
    requires { IsReady table.now }
{
    match case.split_once(" -> ") {
        Some((line, name)) => is_refused(alloc, table, line.as_bytes(), name.as_bytes(), Some(1)),
        None => false,
    }
}

/// Whether a script asks for nothing.
fn is_empty(alloc: Global, table: &Table, script: &[u8]) -> bool
    requires { IsReady table.now }
{
    match parse_script(alloc, script, table) {
        Ok(script) => script.len() == 0,
        Err(_) => false,
    }
}

/// Whether a script of so many of a byte asks for nothing, and one with one more is too long.
fn is_limit(alloc: Global, table: &Table, byte: u8, count: usize) -> bool
    requires ready { IsReady table.now }
    requires within { count < 2 ^ 32 }
{
    match vec![in alloc; byte; count + 1] {
        Ok(script) => {
            is_empty(alloc, table, &script[1..])
                && is_refused(alloc, table, &script, b"TooLong", None)
        }
        Err(_) => false,
    }
}

pub fn is_tick(line: &Line, number: u32, ticks: u32) -> bool {
    match line.deed {
        Deed::Tick(found) => line.number == number && found == ticks,
        Deed::Partition { .. } => false,
    }
}

/// The file call of a line with this number, if it is one of this partition.
pub fn file_call(line: &Line, number: u32, partition: u8) -> Option<&FileCall> {
    match &line.deed {
        Deed::Partition {
            p,
            call: Call::File(call),
        } => {
            if line.number == number && p.0 == partition {
                Some(call)
            } else {
                None
            }
        }
        _ => None,
    }
}

fn is_status(call: Option<&FileCall>, handle: u32) -> bool {
    match call {
        Some(FileCall::GetFileStatus { id }) => *id == handle,
        _ => false,
    }
}

fn is_write(call: Option<&FileCall>, handle: u32, wanted: &[u8]) -> bool {
    match call {
        Some(FileCall::WriteFile { id, bytes }) => *id == handle && bytes.bytes() == wanted,
        _ => false,
    }
}

fn is_seek(call: Option<&FileCall>, handle: u32, wanted: i64) -> bool {
    match call {
        Some(FileCall::SeekFile { id, offset, whence }) => *id == handle
            && *offset == wanted
            && *whence == Whence::End,
        _ => false,
    }
}

/// Whether a script asks for what stands in `LINES`.
fn asks_for_lines(script: &Script) -> bool {
    script.len() == 5
        && is_tick(script.line(0), 2, 100_000)
        && is_status(file_call(script.line(1), 4, 1), 4_294_967_295)
        && is_write(file_call(script.line(2), 5, 0), 7, &[10, 255])
        && is_seek(file_call(script.line(3), 6, 0), 1, -4_294_967_295)
        && is_write(file_call(script.line(4), 7, 0), 0, &[])
}

#[test]
fn lines_are_refused_for_their_first_condition(rt: HostRuntime) -> Result<(), Fail> {
    let table = two_partitions(rt.alloc())?;
    for case in REFUSED.lines() {
        assert!(rt; case_holds(rt.alloc(), &table, case), "{case}");
    }
    Ok(())
}

#[test]
fn arguments_are_refused_for_their_first_condition(rt: HostRuntime) -> Result<(), Fail> {
    let table = two_partitions(rt.alloc())?;
    for case in REFUSED_BESIDE_FILES.lines() {
        assert!(rt; case_holds(rt.alloc(), &table, case), "{case}");
    }
    Ok(())
}

#[test]
fn the_first_line_at_fault_is_told(rt: HostRuntime) -> Result<(), Fail> {
    let alloc = rt.alloc();
    let table = two_partitions(alloc)?;
    assert!(rt; is_refused(alloc, &table, b"\xc8", b"NotAscii", Some(1)));
    assert!(rt; is_refused(alloc, &table, b"#\xc8\n\r\nTICK 0", b"BadNumber", Some(3)));
    let script = b"FMS GET_FILE_STATUS 1\nTICK 1\nABC CLOSE_FILE 1\n";
    assert!(rt; is_refused(alloc, &table, script, b"UnknownPartition", Some(3)));
    Ok(())
}

#[test]
fn scripts_have_a_longest_text(rt: HostRuntime) -> Result<(), Fail> {
    let table = two_partitions(rt.alloc())?;
    assert!(rt; is_limit(rt.alloc(), &table, b'#', 1_048_576));
    assert!(rt; is_limit(rt.alloc(), &table, b'\n', 20_000));
    Ok(())
}

#[test]
fn comments_and_blank_lines_ask_for_nothing(rt: HostRuntime) -> Result<(), Fail> {
    let table = two_partitions(rt.alloc())?;
    for script in EMPTY {
        assert!(rt; is_empty(rt.alloc(), &table, script));
    }
    Ok(())
}

#[test]
fn lines_keep_their_numbers(rt: HostRuntime) -> Result<(), Fail> {
    let table = two_partitions(rt.alloc())?;
    let script = parse_script(rt.alloc(), LINES, &table)?;
    assert!(rt; asks_for_lines(&script));
    Ok(())
}
