//! Isolation: what `only` carries out for a partition, and what it tells, against a run of all lines.
use super::commands::tells_only;
use super::flights::flight;
use super::formats::FOUR_PARTITIONS;
use super::{formatted, source};
use apex_host::{Status, host};
use apex_types::{ByteList, FailList, OutOfMemory, Words};
use rig_core::MemRig;
use std::alloc::Global;
use std::test::Fail;
use test_fixtures::rig_of;

/// Six partitions. Trees are read along the chain A, B, C, F and from A by D and on by E; channels go from B to E, which
/// closes a diamond, and from F back to C, which closes a loop.
const LINKED: &[u8] =
    b"partition = [{ name = \"A\" }, { name = \"B\" }, { name = \"C\" }, { name = \"D\" }, { name = \"E\" }, { name = \"F\" }]
volume = [{ name = \"V\", blocks = 4 }]
tree = [
  { volume = \"V\", owner = \"A\", readers = [\"B\", \"D\"], quota = 1, files = 1, directories = 0, dirty = 16 },
  { volume = \"V\", owner = \"B\", readers = [\"C\"], quota = 1, files = 1, directories = 0, dirty = 16 },
  { volume = \"V\", owner = \"C\", readers = [\"F\"], quota = 1, files = 1, directories = 0, dirty = 16 },
  { volume = \"V\", owner = \"D\", readers = [\"E\"], quota = 1, files = 1, directories = 0, dirty = 16 },
]
logbook = [
  { name = \"LOG\", partition = \"E\", message_size = 8, logged = 2, in_progress = 1 },
  { name = \"LOG\", partition = \"F\", message_size = 8, logged = 2, in_progress = 1 },
]
channel = [
  { source = \"B:OUT\", destinations = [\"E:IN\"], size = 4, refresh = 1 },
  { source = \"F:OUT\", destinations = [\"C:IN\"], size = 4, refresh = 1 },
]
";

/// Each partition with its upstream.
const UPSTREAMS: [(&str, &str); 6] = [
    ("A", "A"),
    ("B", "AB"),
    ("C", "ABCF"),
    ("D", "AD"),
    ("E", "ABDE"),
    ("F", "ABCF"),
];

/// Something goes along each link. B and D have a handle for what they write only where they could open what A made.
const SCRIPT: &str = "A OPEN_NEW_FILE /V/A/X
B OPEN_FILE /V/A/X READ_ONLY
D OPEN_FILE /V/A/X READ_ONLY
B OPEN_NEW_FILE /V/B/X
B WRITE_FILE 2 0b
D OPEN_NEW_FILE /V/D/X
D WRITE_FILE 2 0d
C OPEN_FILE /V/B/X READ_ONLY
C READ_FILE 1 8
C OPEN_NEW_FILE /V/C/X
C WRITE_FILE 2 0c
F OPEN_FILE /V/C/X READ_ONLY
F READ_FILE 1 8
E OPEN_FILE /V/D/X READ_ONLY
E READ_FILE 1 8
B CREATE_SAMPLING_PORT OUT
E CREATE_SAMPLING_PORT IN
F CREATE_SAMPLING_PORT OUT
C CREATE_SAMPLING_PORT IN
B WRITE_SAMPLING_MESSAGE 1 1b
F WRITE_SAMPLING_MESSAGE 1 1f
E CREATE_LOGBOOK LOG
E WRITE_LOGBOOK 1 2e
F CREATE_LOGBOOK LOG
F WRITE_LOGBOOK 1 2f
TICK 2
E READ_UPDATED_SAMPLING_MESSAGE 1
C READ_UPDATED_SAMPLING_MESSAGE 1
F READ_LOGBOOK 1 1
A GET_VOLUME_STATUS /V/A
";

const TOLD: &[u8] = b"1 NO_ERROR - 1
2 NO_ERROR - 1
3 NO_ERROR - 1
4 NO_ERROR - 2
5 NO_ERROR - 1
6 NO_ERROR - 2
7 NO_ERROR - 1
8 NO_ERROR - 1
9 NO_ERROR - 1 0b
10 NO_ERROR - 2
11 NO_ERROR - 1
12 NO_ERROR - 1
13 NO_ERROR - 1 0c
14 NO_ERROR - 1
15 NO_ERROR - 1 0d
16 NO_ERROR - 1
17 NO_ERROR - 1
18 NO_ERROR - 1
19 NO_ERROR - 1
20 NO_ERROR -
21 NO_ERROR -
22 NO_ERROR - 1
23 NO_ERROR -
24 NO_ERROR - 1
25 NO_ERROR -
27 NO_ERROR - NEW_MESSAGE INVALID 1 1b
28 NO_ERROR - NEW_MESSAGE INVALID 1 1f
29 NO_ERROR - COMPLETE 1 2f
30 NO_ERROR - 1 0 1
";

/// Whether a reply is to this partition: its number is that of a line that begins with the name.
fn is_to(partition: &str, script: &str, reply: &str) -> bool {
    let Some((number, _)) = reply.split_once(' ') else {
        return false;
    };
    let Ok(number) = number.parse::<usize>() else {
        return false;
    };
    let Some(line) = script.lines().nth(number.wrapping_sub(1)) else {
        return false;
    };
    match line.split_once(' ') {
        Some((name, _)) => name == partition,
        None => false,
    }
}

/// Those of the told lines that are replies to this partition; none where the bytes are no UTF-8.
fn told_to(
    alloc: Global,
    partition: &str,
    script: &[u8],
    told: &[u8],
) -> Result<ByteList, OutOfMemory> {
    let mut own = ByteList::new(alloc);
    let Ok(script) = str::from_utf8(script) else {
        return Ok(own);
    };
    let Ok(told) = str::from_utf8(told) else {
        return Ok(own);
    };
    for reply in told.lines() {
        if is_to(partition, script, reply) {
            own.extend(reply.as_bytes())?;
            own.extend(b"\n")?;
        }
    }
    Ok(own)
}

/// The number of lines of a text.
fn line_count(text: &[u8]) -> usize {
    text.iter().filter(|byte| **byte == b'\n').count()
}

#[test]
fn the_display_is_told_its_51_lines_of_a_flight(rt: HostRuntime) -> Result<(), Fail> {
    let alloc = rt.alloc();
    let (script, told) = flight(alloc)?;
    let script = script.bytes();
    let own = told_to(alloc, "DISP", script, told.bytes())?;
    let status = Status::Done;
    assert_eq!(rt; line_count(own.bytes()), 51);
    assert!(rt;
        tells_only(
            alloc,
            FOUR_PARTITIONS,
            b"DISP",
            script,
            0,
            status,
            own.bytes()
        )?
    );
    Ok(())
}

/// Whether a line is of one of these partitions, whose names are single letters.
fn is_of(members: &str, line: &str) -> bool {
    match line.as_bytes() {
        [name, b' ', ..] => members.as_bytes().contains(name),
        _ => false,
    }
}

/// The ticks, and the lines of these partitions or of all others.
fn lines_of(alloc: Global, members: &str, inside: bool) -> Result<ByteList, OutOfMemory> {
    let mut lines = ByteList::new(alloc);
    for line in SCRIPT.lines() {
        if line.starts_with("TICK") || is_of(members, line) == inside {
            lines.extend(line.as_bytes())?;
            lines.extend(b"\n")?;
        }
    }
    Ok(lines)
}

/// The rig on which a command was carried out over an image of these bytes; none where it didn't end well.
fn carried_out(
    alloc: Global,
    words: &[&[u8]],
    image: &[u8],
    script: &[u8],
) -> Result<Option<MemRig>, OutOfMemory> {
    let mut list = Words::new(alloc);
    for word in words {
        list.push(word)?;
    }
    let mut table = source(alloc, LINKED, 0)?;
    let mut script = source(alloc, script, 0)?;
    let mut rig = rig_of(alloc, image, FailList::new(alloc))?;
    match host(alloc, &list, &mut table, &mut script, &mut rig) {
        Status::Done => Ok(Some(rig)),
        _ => Ok(None),
    }
}

/// Whether over an image the partition is told this by a run and by `only`, which leaves what a run of its upstream's lines
/// leaves, and not what a run of all lines does.
fn hears_alone(
    alloc: Global,
    image: &[u8],
    partition: &str,
    upstream: &str,
    told: &[u8],
) -> Result<bool, OutOfMemory> {
    let script = SCRIPT.as_bytes();
    let own_lines = lines_of(alloc, upstream, true)?;
    let Some(all) = carried_out(alloc, &[b"run"], image, script)? else {
        return Ok(false);
    };
    let Some(own) = carried_out(alloc, &[b"run"], image, own_lines.bytes())? else {
        return Ok(false);
    };
    let words = [b"only".as_slice(), partition.as_bytes()];
    let Some(only) = carried_out(alloc, &words, image, script)? else {
        return Ok(false);
    };
    let heard = told_to(alloc, partition, script, all.told())?;
    Ok(
        heard.bytes() == told
            && only.told() == told
            && only.view() == own.view()
            && only.view() != all.view(),
    )
}

/// Whether a partition hears alone over an empty image, and over one on which others' lines were carried out before.
fn is_isolated(alloc: Global, partition: &str, upstream: &str) -> Result<bool, OutOfMemory> {
    let told = told_to(alloc, partition, SCRIPT.as_bytes(), TOLD)?;
    let empty = formatted(alloc, LINKED)?;
    let others = lines_of(alloc, upstream, false)?;
    let Some(used) = carried_out(alloc, &[b"run"], empty.bytes(), others.bytes())? else {
        return Ok(false);
    };
    if used.view() == empty.bytes() {
        return Ok(false);
    }
    if !hears_alone(alloc, empty.bytes(), partition, upstream, told.bytes())? {
        return Ok(false);
    }
    hears_alone(alloc, used.view(), partition, upstream, told.bytes())
}

#[test]
fn what_is_outside_the_upstream_changes_nothing_that_is_told(rt: HostRuntime) -> Result<(), Fail> {
    for (partition, upstream) in UPSTREAMS {
        assert!(rt;
            is_isolated(rt.alloc(), partition, upstream)?,
            "{partition}"
        );
    }
    Ok(())
}
