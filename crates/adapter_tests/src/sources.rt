//! Files and a faked standard input as sources.
use crate::paths::temporary_path;
use rig_core::Source;
use std::alloc::Allocator;
use std::io::{BufRead, ErrorKind, Lines, Read};
use std::test::Fail;
use std::{fs, io};
use system_adapters::{FileSource, InputSource};

/// A runtime whose input is interrupted at its first read, has two bytes, and fails at its third read.
struct Broken;

#[derive(Drop)]
struct BrokenReader {
    reads: u64,
}

impl Input for Broken {
    type Reader = BrokenReader;

    fn read_line<A: Allocator + Clone>(&self, buf: &mut String<A>) -> io::Result<usize> {
        self.reader().read_line(buf)
    }

    fn lines<A: Allocator>(&self, alloc: A) -> Lines<BrokenReader, A> {
        self.reader().lines(alloc)
    }

    fn reader(&self) -> BrokenReader {
        BrokenReader { reads: 0 }
    }
}

impl Read for BrokenReader {
    fn read(&mut self, buf: &mut [u8]) -> io::Result<usize> {
        self.reads = self.reads.saturating_add(1);
        if self.reads == 1 {
            return Err(io::Error::from(ErrorKind::Interrupted));
        }
        if self.reads == 3 || buf.len() < 2 {
            return Err(io::Error::from(ErrorKind::Other));
        }
        if self.reads > 3 {
            return Ok(0);
        }
        buf[0] = b'h';
        buf[1] = b'i';
        Ok(2)
    }
}

impl BufRead for BrokenReader {
    fn fill_buf(&mut self) -> io::Result<&[u8]> {
        Err(io::Error::from(ErrorKind::Unsupported))
    }

    fn consume(&mut self, _amount: usize) {}
}

/// How many bytes the next read gives, where the room is then this.
fn read_into<S: Source>(source: &mut S, room: &[u8; 4]) -> Option<usize> {
    let mut into = [b'.'; 4];
    let count = source.read(&mut into).ok()?;
    if into == *room { Some(count) } else { None }
}

fn fails<S: Source>(source: &mut S) -> bool {
    source.read(&mut [0; 4]).is_err()
}

/// Whether a source gives `hello` and then its end.
fn gives_hello<S: Source>(source: &mut S) -> bool {
    read_into(source, b"hell") == Some(4)
        && read_into(source, b"o...") == Some(1)
        && read_into(source, b"....") == Some(0)
}

/// Whether the broken input gives its two bytes, fails once and goes on to its end.
fn gives_hi_and_fails(source: &mut InputSource<BrokenReader>) -> bool {
    read_into(source, b"hi..") == Some(2) && fails(source) && read_into(source, b"....") == Some(0)
}

#[test]
fn a_file_gives_its_bytes_and_then_its_end(rt: HostRuntime) -> Result<(), Fail> {
    let path = temporary_path(&rt, "source")?;
    fs::write(&rt, path.as_str(), "hello")?;
    let mut source = FileSource::open(&rt, path.as_str());
    fs::remove_file(&rt, path.as_str())?;
    assert!(rt; gives_hello(&mut source));
    Ok(())
}

#[test]
fn each_read_of_an_absent_file_or_a_folder_fails(rt: HostRuntime) {
    for path in ["/absent/module.toml", "/"] {
        let mut source = FileSource::open(&rt, path);
        assert!(rt; fails(&mut source) && fails(&mut source), "{path}");
    }
}

#[test]
fn an_interrupted_read_is_made_again(rt: HostRuntime) {
    assert!(rt; gives_hi_and_fails(&mut InputSource::new(&Broken)));
}
