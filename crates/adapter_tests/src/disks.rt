//! Files of the system as disks.
ghost use Rattle.std.specs.Prelude.{◌≤◌, ◌+◌, length};

use crate::guarded::Guarded;
use crate::paths::temporary_path;
use rig_core::Rig;
use std::cell::Cell;
use std::fs::OpenFile;
use std::io::{Cursor, ErrorKind, Write};
use std::os::unix::fs::FileExt;
use std::rt::Files;
use std::test::Fail;
use std::{fs, io};
use system_adapters::{FileRig, read_padded};

/// An output without room, for rigs that tell nothing.
fn no_output() -> Cursor<[u8; 0]> {
    Cursor::new([0; 0])
}

/// Whether a rig gives these bytes from a place on.
fn gives<R, F, W>(rig: &mut FileRig<R, F, W>, at: u64, bytes: &[u8; 4]) -> bool
where
    R: Files<File = F>,
    F: FileExt + OpenFile + Drop,
    W: Write,
    requires { at + 4 ≤ 67108864 }
{
    let mut into = [b'.'; 4];
    rig.read(at, &mut into).is_ok() && into == *bytes
}

/// Whether three blocks, two bytes in them and the last byte of the disk are written and flushed.
fn is_filled<R, F, W>(rig: &mut FileRig<R, F, W>) -> bool
where
    R: Files<File = F>,
    F: FileExt + OpenFile + Drop,
    W: Write,
{
    let mut blocks = [b'a'; 1536];
    blocks[0] = b'f';
    blocks[1535] = b'l';
    rig.write(1024, &blocks).is_ok()
        && rig.write(1025, b"bc").is_ok()
        && rig.write(67_108_863, b"z").is_ok()
        && rig.sync().is_ok()
}

/// Whether a rig gives what `is_filled` wrote, and zeros elsewhere.
fn gives_the_filled<R, F, W>(rig: &mut FileRig<R, F, W>) -> bool
where
    R: Files<File = F>,
    F: FileExt + OpenFile + Drop,
    W: Write,
{
    gives(rig, 1022, b"\0\0fb")
        && gives(rig, 1025, b"bcaa")
        && gives(rig, 2558, b"al\0\0")
        && gives(rig, 67_108_860, b"\0\0\0z")
}

/// Whether a disk without a file has its size, gives zeros, and has nothing to flush.
fn is_empty_disk<R, F, W>(rig: &mut FileRig<R, F, W>) -> bool
where
    R: Files<File = F>,
    F: FileExt + OpenFile + Drop,
    W: Write,
{
    rig.size() == 67_108_864 && gives(rig, 512, b"\0\0\0\0") && rig.sync().is_ok()
}

/// Whether a disk that begins with `disk` is read, and not written before and behind a read.
fn is_only_read<R, F, W>(rig: &mut FileRig<R, F, W>) -> bool
where
    R: Files<File = F>,
    F: FileExt + OpenFile + Drop,
    W: Write,
{
    rig.write(0, b"x").is_err()
        && gives(rig, 2, b"sk\0\0")
        && rig.write(0, b"x").is_err()
        && gives(rig, 0, b"disk")
}

/// Whether a write is flushed at the second of three syncs, and the third one goes well.
fn is_flushed<R, F, W>(rig: &mut FileRig<R, F, W>) -> bool
where
    R: Files<File = F>,
    F: FileExt + OpenFile + Drop,
    W: Write,
{
    rig.write(0, b"x").is_ok() && rig.sync().is_err() && rig.sync().is_ok() && rig.sync().is_ok()
}

/// Whether each call of the disk fails.
fn fails<R, F, W>(rig: &mut FileRig<R, F, W>) -> bool
where
    R: Files<File = F>,
    F: FileExt + OpenFile + Drop,
    W: Write,
{
    rig.read(0, &mut [0; 2]).is_err()
        && rig.write(0, b"ab").is_err()
        && rig.sync().is_err()
        && rig.read(0, &mut [0; 2]).is_err()
}

#[test]
fn an_absent_file_is_made_by_the_first_write(rt: HostRuntime) -> Result<(), Fail> {
    let path = temporary_path(&rt, "absent")?;
    let mut rig = FileRig::new(&rt, path.as_str(), no_output());
    assert!(rt; is_empty_disk(&mut rig) && !fs::exists(&rt, path.as_str())?);
    assert!(rt; rig.write(1, b"x").is_ok() && gives(&mut rig, 0, b"\0x\0\0"));
    fs::remove_file(&rt, path.as_str())?;
    Ok(())
}

#[test]
fn what_is_written_is_read_by_the_next_rig(rt: HostRuntime) -> Result<(), Fail> {
    let path = temporary_path(&rt, "kept")?;
    let mut rig = FileRig::new(&rt, path.as_str(), no_output());
    assert!(rt; is_filled(&mut rig));
    drop(rig);
    let mut next = FileRig::new(&rt, path.as_str(), no_output());
    assert!(rt; gives_the_filled(&mut next));
    fs::remove_file(&rt, path.as_str())?;
    Ok(())
}

#[test]
fn a_file_that_may_only_be_read_refuses_each_write(rt: HostRuntime) -> Result<(), Fail> {
    let path = temporary_path(&rt, "locked")?;
    fs::write(&rt, path.as_str(), "disk")?;
    let files = Guarded::new(&rt, false);
    assert!(rt; is_only_read(&mut FileRig::new(&files, path.as_str(), no_output())));
    fs::remove_file(&rt, path.as_str())?;
    Ok(())
}

#[test]
fn the_folder_of_the_file_is_flushed_once(rt: HostRuntime) -> Result<(), Fail> {
    let path = temporary_path(&rt, "named")?;
    let files = Guarded::new(&rt, true);
    assert!(rt; is_flushed(&mut FileRig::new(&files, path.as_str(), no_output())));
    assert!(rt; files.folders_opened() == 2);
    fs::remove_file(&rt, path.as_str())?;
    Ok(())
}

#[test]
fn a_short_file_is_as_if_filled_with_zeros(rt: HostRuntime) -> Result<(), Fail> {
    let path = temporary_path(&rt, "short")?;
    fs::write(&rt, path.as_str(), "disk")?;
    let mut rig = FileRig::new(&rt, path.as_str(), no_output());
    assert!(rt; gives(&mut rig, 2, b"sk\0\0") && gives(&mut rig, 4, b"\0\0\0\0"));
    assert!(rt; rig.write(7, b"s").is_ok());
    assert!(rt; fs::read(&rt, path.as_str())?.as_slice() == b"disk\0\0\0s".as_slice());
    fs::remove_file(&rt, path.as_str())?;
    Ok(())
}

#[test]
fn each_call_with_a_folder_in_the_files_place_fails_until_it_is_gone(
    rt: HostRuntime,
) -> Result<(), Fail> {
    let path = temporary_path(&rt, "folder")?;
    fs::create_dir(&rt, path.as_str())?;
    let mut rig = FileRig::new(&rt, path.as_str(), no_output());
    assert!(rt; fails(&mut rig));
    fs::remove_dir(&rt, path.as_str())?;
    assert!(rt; rig.write(0, b"ab").is_ok() && gives(&mut rig, 0, b"ab\0\0"));
    fs::remove_file(&rt, path.as_str())?;
    Ok(())
}

/// A file of three bytes that gives one byte a read, fails the second read by a signal, and each read from a place
/// past its end for good.
#[derive(Drop)]
struct Slow {
    reads: Cell<u64>,
}

impl FileExt for Slow {
    fn read_at(&self, buf: &mut [u8], offset: u64) -> io::Result<usize> {
        self.reads.set(self.reads.get().saturating_add(1));
        if self.reads.get() == 2 {
            return Err(io::Error::from(ErrorKind::Interrupted));
        }
        if offset > 3 {
            return Err(io::Error::from(ErrorKind::Other));
        }
        if offset == 3 || buf.is_empty() {
            return Ok(0);
        }
        buf[0] = b'a' + offset as u8;
        Ok(1)
    }

    fn write_at(&self, _buf: &[u8], _offset: u64) -> io::Result<usize> {
        Err(io::Error::from(ErrorKind::Unsupported))
    }
}

/// Whether a slow file is read on to its end by five reads, and fails where it does.
fn slow_reads_go_on(file: &Slow) -> bool {
    let mut into = [b'.'; 5];
    let count = read_padded(file, 0, &mut into).ok();
    let to_end = count == Some(3) && into == *b"abc\0\0" && file.reads.get() == 5;
    to_end && read_padded(file, 4, &mut into).is_err()
}

#[test]
fn short_and_interrupted_reads_go_on_to_the_end(rt: HostRuntime) {
    let file = Slow {
        reads: Cell::new(0),
    };
    assert!(rt; slow_reads_go_on(&file));
}
