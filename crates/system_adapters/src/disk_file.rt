// The file that holds a disk.
ghost use Rattle.std.specs.Prelude.{◌≡◌, ◌+◌, ◌-◌, ◌^◌, ◌≤◌, IsTrue, IfOk, false, drop, length, replicate};
ghost use Rattle.std.specs.Fs.{asks_read, asks_write, asks_create, asks_truncate, asks_append, asks_create_new};
ghost use Rattle.std.specs.Io.{ReadsAtMost};
ghost use Rattle.std.specs.Path.{path_bytes};
ghost use Rattle.system_adapters.specs.Folders.{folder_of};

use std::fs::{OpenFile, OpenOptions};
use std::io::ErrorKind;
use std::os::unix::fs::FileExt;
use std::path::Path;
use std::rt::Files;
use std::{fs, io};

/// A file as the bytes of a disk. It is opened at the first call that finds it, and stays open. Where it is absent, reads
/// give zeros, and nothing is made before the first write. A file that may only be read is opened for that, and each
/// write fails. A call that can't open the file fails, and the next one tries again.
#[derive(Drop)]
pub struct DiskFile<'a, R, F> {
    files: R,
    path: &'a str,
    file: Option<F>,
    is_name_flushed: bool,
}

impl<'a, R: Files<File = F>, F: FileExt + OpenFile + Drop> DiskFile<'a, R, F> {
    ghost use Rattle.system_adapters.specs.DiskFile.{IsClosed};

    /// The file of this path, not opened yet.
    pub fn new(files: R, path: &'a str) -> DiskFile<'a, R, F>
        ensures { IsClosed result }
    {
        DiskFile {
            files,
            path,
            file: None,
            is_name_flushed: false,
        }
    }

    /// Fills a buffer with the bytes from a place on. Bytes past the file's end are zeros, and so are all bytes of a file
    /// that is absent.
    pub fn read(&mut self, at: u64, into: &mut [u8]) -> io::Result<()>
        requires { at + length into.old ≤ 2 ^ 63 - 1 }
    {
        match self.found()? {
            Some(file) => {
                read_padded(file, at, into)?;
            }
            None => into.fill(0),
        }
        Ok(())
    }

    /// Writes bytes at a place, in one call of the system where it takes them all at once, into a file that is made where
    /// it is absent. A gap before the place reads as zeros.
    pub fn write(&mut self, at: u64, bytes: &[u8]) -> io::Result<()> {
        self.made()?.write_all_at(bytes, at)
    }

    /// Asks for the strongest flush of the file: of its bytes, of all that is known of it, and once of its name in its
    /// folder. A file that is absent has nothing to flush.
    pub fn sync(&mut self) -> io::Result<()> {
        let Some(file) = self.found()? else {
            return Ok(());
        };
        file.sync_all()?;
        if !self.is_name_flushed {
            fs::open(&self.files, folder_of(self.path))?.sync_all()?;
            self.is_name_flushed = true;
        }
        Ok(())
    }

    /// The file, opened now where it isn't yet. There is none where it is absent.
    fn found(&mut self) -> io::Result<Option<&F>> {
        if self.file.is_none() {
            self.file = open_present(&self.files, self.path)?;
        }
        Ok(self.file.as_ref())
    }

    /// The file, opened now where it isn't yet, and made where it is absent.
    fn made(&mut self) -> io::Result<&F> {
        let file = match self.file.take() {
            Some(file) => file,
            None => options_to_make().open(&self.files, self.path)?,
        };
        Ok(self.file.insert(file))
    }
}

/// The file of a path, to read and to write, or to read alone where no more is allowed. There is none where it is absent.
fn open_present<R: Files>(files: &R, path: &str) -> io::Result<Option<R::File>> {
    match options_to_change().open(files, path) {
        Ok(file) => Ok(Some(file)),
        Err(error) => match error.kind() {
            ErrorKind::NotFound => Ok(None),
            ErrorKind::PermissionDenied | ErrorKind::ReadOnlyFilesystem => {
                Ok(Some(fs::open(files, path)?))
            }
            _ => Err(error),
        },
    }
}

/// The folder in which a path's last name stands: the present one where the path is a name alone.
fn folder_of(path: &str) -> Path<'_>
    ensures { path_bytes result ≡ folder_of path.now }
{
    match Path::new(path).parent() {
        Some(folder) if !folder.to_string_lossy().is_empty() => folder,
        _ => Path::new("."),
    }
}

/// To read and to write what is there, and never to make it or to cut it short.
fn options_to_change() -> OpenOptions
    ensures read { IsTrue (asks_read result) }
    ensures write { IsTrue (asks_write result) }
    ensures found { asks_create result ≡ false }
    ensures kept { asks_truncate result ≡ false }
    ensures placed { asks_append result ≡ false }
    ensures old { asks_create_new result ≡ false }
{
    let mut options = OpenOptions::new();
    options.read(true).write(true);
    options
}

/// The same, and made where absent.
fn options_to_make() -> OpenOptions
    ensures read { IsTrue (asks_read result) }
    ensures write { IsTrue (asks_write result) }
    ensures made { IsTrue (asks_create result) }
    ensures kept { asks_truncate result ≡ false }
    ensures placed { asks_append result ≡ false }
    ensures found { asks_create_new result ≡ false }
{
    let mut options = options_to_change();
    options.create(true);
    options
}

/// Fills a buffer with the bytes from a place on, and with zeros past the file's end. It tells how many bytes are the
/// file's.
pub fn read_padded<F: FileExt>(file: &F, at: u64, into: &mut [u8]) -> io::Result<usize>
    requires { at + length into.old ≤ 2 ^ 63 - 1 }
    ensures bound { ReadsAtMost result into.new }
    ensures zeros { IfOk result (λ count. drop count into.new ≡ replicate (length into.new - count) 0) }
{
    let count = read_up_to_end(file, at, into)?;
    into[count..].fill(0);
    Ok(count)
}

/// Reads from a place on until the buffer is full or the file ends, and tells how many bytes. A read that a signal
/// interrupts is made again.
fn read_up_to_end<F: FileExt>(file: &F, at: u64, into: &mut [u8]) -> io::Result<usize>
    requires { at + length into.old ≤ 2 ^ 63 - 1 }
    ensures { ReadsAtMost result into.new }
{
    let mut count = 0;
    for _ in 0..u64::MAX {
        if count >= into.len() {
            return Ok(count);
        }
        match file.read_at(&mut into[count..], at + count as u64) {
            Ok(0) => return Ok(count),
            Ok(more) => count += more,
            Err(error) => {
                if error.kind() != ErrorKind::Interrupted {
                    return Err(error);
                }
            }
        }
    }
    Err(io::Error::from(ErrorKind::TimedOut))
}
