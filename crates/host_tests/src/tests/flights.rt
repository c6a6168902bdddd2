//! A flight of 300 lines: four partitions with files, a logbook and a sampling channel.
ghost use Rattle.std.specs.Prelude.{◌≤◌};

use super::file_calls::tells;
use super::formats::FOUR_PARTITIONS;
use apex_types::{ByteList, OutOfMemory};
use std::alloc::Global;
use std::test::Fail;

/// What stands before the first tick.
pub const TAKE_OFF: &[u8] = b"FMS CREATE_SAMPLING_PORT ALT
DISP CREATE_SAMPLING_PORT ALT
FMS CREATE_LOGBOOK FLIGHT
FMS MODE NORMAL
DISP MODE NORMAL
MNT MODE NORMAL
RAD MODE NORMAL
FMS MAKE_DIRECTORY /NV1/FMS/LOGS
FMS OPEN_NEW_FILE /NV1/FMS/LOGS/F0001.DAT
DISP OPEN_FILE /NV1/FMS/LOGS/F0001.DAT READ_ONLY
RAD OPEN_NEW_FILE /NV2/RAD/FREQ
RAD WRITE_FILE 1 0102030405060708
";

const TAKE_OFF_TOLD: &[u8] = b"1 NO_ERROR - 1
2 NO_ERROR - 1
3 NO_ERROR - 1
4 NO_ERROR -
5 NO_ERROR -
6 NO_ERROR -
7 NO_ERROR -
8 NO_ERROR -
9 NO_ERROR - 1
10 NO_ERROR - 1
11 NO_ERROR - 1
12 NO_ERROR - 8
";

const DIGITS: [&[u8]; 16] = [
    b"0", b"1", b"2", b"3", b"4", b"5", b"6", b"7", b"8", b"9", b"a", b"b", b"c", b"d", b"e", b"f",
];

/// Puts a byte's two hexadecimal digits, so many times.
fn put_hex(text: &mut ByteList, byte: u8, times: u32) -> Result<(), OutOfMemory> {
    for _ in 0..times {
        text.extend(DIGITS[usize::from(byte / 16)])?;
        text.extend(DIGITS[usize::from(byte % 16)])?;
    }
    Ok(())
}

/// Puts a line's number, of three decimal digits at most.
fn put_number(text: &mut ByteList, number: u16) -> Result<(), OutOfMemory> {
    if number >= 100 {
        text.extend(DIGITS[usize::from(number / 100 % 10)])?;
    }
    text.extend(DIGITS[usize::from(number / 10 % 10)])?;
    text.extend(DIGITS[usize::from(number % 10)])
}

/// Puts the front of a good reply line, and its values or their front.
fn put_reply(text: &mut ByteList, number: u16, values: &[u8]) -> Result<(), OutOfMemory> {
    put_number(text, number)?;
    text.extend(b" NO_ERROR -")?;
    text.extend(values)
}

/// The six lines of one turn: the time goes on, flight management writes its file, its logbook and its port, the display
/// reads the port, and the file is synchronised.
fn put_turn(script: &mut ByteList, byte: u8) -> Result<(), OutOfMemory> {
    script.extend(b"TICK 100\nFMS WRITE_FILE 1 ")?;
    put_hex(script, byte, 32)?;
    script.extend(b"\nFMS WRITE_LOGBOOK 1 ")?;
    put_hex(script, byte, 8)?;
    script.extend(b"\nFMS WRITE_SAMPLING_MESSAGE 1 ")?;
    put_hex(script, byte, 4)?;
    script.extend(b"\nDISP READ_UPDATED_SAMPLING_MESSAGE 1\nFMS SYNC_FILE 1\n")
}

/// What a turn tells, whose tick is this line.
fn put_told(told: &mut ByteList, byte: u8, tick: u16) -> Result<(), OutOfMemory>
    requires { tick ≤ 1000 }
{
    put_reply(told, tick + 1, b" 32\n")?;
    put_reply(told, tick + 2, b"\n")?;
    put_reply(told, tick + 3, b"\n")?;
    put_reply(told, tick + 4, b" NEW_MESSAGE VALID 4 ")?;
    put_hex(told, byte, 4)?;
    told.extend(b"\n")?;
    put_reply(told, tick + 5, b"\n")
}

/// The script of a flight of 48 turns, and what is told of it.
pub fn flight(alloc: Global) -> Result<(ByteList, ByteList), OutOfMemory> {
    let mut script = ByteList::new(alloc);
    let mut told = ByteList::new(alloc);
    script.extend(TAKE_OFF)?;
    told.extend(TAKE_OFF_TOLD)?;
    for turn in 0..48u8 {
        put_turn(&mut script, turn + 1)?;
        put_told(&mut told, turn + 1, 13 + 6 * u16::from(turn))?;
    }
    Ok((script, told))
}

#[test]
fn a_flight_of_300_lines_is_told(rt: HostRuntime) -> Result<(), Fail> {
    let alloc = rt.alloc();
    let (script, told) = flight(alloc)?;
    assert!(rt; tells(alloc, FOUR_PARTITIONS, script.bytes(), told.bytes())?);
    Ok(())
}
