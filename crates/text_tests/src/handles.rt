//! Handles of partitions: their numbers, and what a removal leaves of them.
ghost use Rattle.std.specs.Prelude.{◌≡◌, ◌<◌, length};

use apex_types::{DirHandle, DirNode, FileNode, Name, OpenMode, OutOfMemory, PartitionId};
use open_handles::Handles;
use std::alloc::Global;
use std::test::Fail;

const FMS: PartitionId = PartitionId(0);

const DISP: PartitionId = PartitionId(1);

const FILE: FileNode = FileNode(3);

const DIRECTORY: DirNode = DirNode(2);

/// The number of a handle that is opened on the file of a tree, to be read.
fn opened(handles: &mut Handles, p: PartitionId, tree: u32) -> Option<u32>
    requires { p.0 < length handles.old }
    ensures { length handles.new ≡ length handles.old }
{
    handles.open_file(p, tree, FILE, OpenMode::ReadOnly)
}

/// The numbers that two partitions get, the last one after the first handle was closed.
fn numbers(alloc: Global) -> Result<[Option<u32>; 4], OutOfMemory> {
    let mut handles = Handles::new(alloc, 2)?;
    let first = opened(&mut handles, FMS, 0);
    let second = opened(&mut handles, FMS, 0);
    let other = opened(&mut handles, DISP, 0);
    if !handles.close_file(FMS, 1) {
        return Ok([None; 4]);
    }
    Ok([first, second, other, opened(&mut handles, FMS, 0)])
}

/// How many more file handles a partition may open, which get the numbers from 1 on.
fn count_opened(handles: &mut Handles) -> u32
    requires { 0 < length handles.old }
    ensures { 0 < length handles.new }
{
    for number in 1..31 {
        if opened(handles, FMS, 0) != Some(number) {
            return number - 1;
        }
    }
    30
}

/// How many file handles a partition may open, and again after all were closed.
fn most_handles(alloc: Global) -> Result<[u32; 2], OutOfMemory> {
    let mut handles = Handles::new(alloc, 1)?;
    let first = count_opened(&mut handles);
    handles.close_all(FMS);
    Ok([first, count_opened(&mut handles)])
}

/// The file and the position of an open handle.
fn file_of(handles: &Handles, id: u32) -> Option<(Option<FileNode>, u32)>
    requires { 0 < length handles.now }
{
    let handle = handles.file(FMS, id)?;
    Some((handle.file, handle.position))
}

/// Whether a removed file leaves the handle on it stale, and the one on a file of another tree as it was.
fn a_stale_file_handle_stays(alloc: Global) -> Result<bool, OutOfMemory> {
    let mut handles = Handles::new(alloc, 1)?;
    let _first = opened(&mut handles, FMS, 0);
    let _second = opened(&mut handles, FMS, 1);
    if handles.file(FMS, 2).is_none() {
        return Ok(false);
    }
    handles.set_position(FMS, 2, 40);
    handles.file_gone(0, FILE);
    Ok(
        file_of(&handles, 1) == Some((None, 0))
            && file_of(&handles, 2) == Some((Some(FILE), 40))
            && !handles.holds_file(FMS, 0, FILE)
            && handles.close_file(FMS, 1),
    )
}

/// Whether a handle is stale, and its last name is this one.
fn is_stale_after(handle: Option<DirHandle>, name: &[u8]) -> bool {
    match handle {
        Some(
            DirHandle {
                directory: None,
                last: Some(last),
                ..
            },
        ) => last.bytes() == name,
        _ => false,
    }
}

/// Whether a removed directory leaves the handle on it stale, with the last name that it gave.
fn a_stale_directory_handle_stays(alloc: Global) -> Result<bool, OutOfMemory> {
    let mut handles = Handles::new(alloc, 1)?;
    let _number = handles.open_directory(FMS, 0, DIRECTORY);
    if handles.directory(FMS, 1).is_none() {
        return Ok(false);
    }
    handles.set_last(FMS, 1, Name::read(b"LOGS"));
    handles.directory_gone(0, DIRECTORY);
    Ok(is_stale_after(handles.directory(FMS, 1), b"LOGS") && handles.close_directory(FMS, 1))
}

/// Whether only a handle that may write keeps a writer open, until all are closed.
fn a_writer_is_open(alloc: Global) -> Result<bool, OutOfMemory> {
    let mut handles = Handles::new(alloc, 1)?;
    let _number = opened(&mut handles, FMS, 0);
    let reader = handles.writer_open(FMS, 0, FILE);
    let _other = handles.open_file(FMS, 0, FILE, OpenMode::ReadWrite);
    Ok(!reader && handles.writer_open(FMS, 0, FILE) && !handles.writer_open(FMS, 1, FILE))
}

#[test]
fn the_least_number_is_taken_again(rt: HostRuntime) -> Result<(), Fail> {
    let expected = [Some(1), Some(2), Some(1), Some(1)];
    assert!(rt; numbers(rt.alloc())? == expected);
    Ok(())
}

#[test]
fn a_partition_has_24_file_handles(rt: HostRuntime) -> Result<(), Fail> {
    assert!(rt; most_handles(rt.alloc())? == [24, 24]);
    Ok(())
}

#[test]
fn a_removal_leaves_stale_handles(rt: HostRuntime) -> Result<(), Fail> {
    assert!(rt; a_stale_file_handle_stays(rt.alloc())?);
    assert!(rt; a_stale_directory_handle_stays(rt.alloc())?);
    Ok(())
}

#[test]
fn a_writer_is_one_that_may_write(rt: HostRuntime) -> Result<(), Fail> {
    assert!(rt; a_writer_is_open(rt.alloc())?);
    Ok(())
}
