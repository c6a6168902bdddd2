// A file as a source.
ghost use Rattle.std.specs.Prelude.{◌≡◌, ◌<◌, length, is_ok, OnOk, IsErr, if◌then◌else◌};
ghost use Rattle.std.specs.Io.{ReadsAtMost};
ghost use Rattle.std.specs.Io.KnownBytes.{ReadConsumes};
ghost use Rattle.rig_core.specs.Causes.{HasCause, one_more};

use crate::reading::read_once;
use rig_core::{Failed, Source};
use std::fs;
use std::io::Read;
use std::rt::Files;

/// The bytes of a file. Each read of a file that can't be opened fails. It tells the bytes left where the file's
/// reader tells them, and a file of the system tells none.
#[derive(Drop)]
pub struct FileSource<F> {
    file: Option<F>,
    faults: u64,
}

impl<F: Read> FileSource<F> {
    ghost use Rattle.system_adapters.specs.FileSource.{faults_of};

    /// The file of this path, opened now.
    pub fn open<R: Files<File = F>>(rt: &R, path: &str) -> FileSource<F>
        ensures { faults_of result ≡ 0 }
    {
        FileSource {
            file: fs::open(rt, path).ok(),
            faults: 0,
        }
    }
}

impl<F: Read> Source for FileSource<F> {
    ghost use Rattle.system_adapters.specs.FileSource.{left_of, faults_of, IsAbsent};

    ghost left = { left_of F.remaining };

    ghost faults = { faults_of };

    fn read(&mut self, into: &mut [u8]) -> Result<usize, Failed>
        requires { 0 < length into.old }
        ensures bound { ReadsAtMost result into.new }
        ensures bytes { ReadConsumes (left_of F.remaining self.old) (left_of F.remaining self.new) result into.new }
        ensures cause { HasCause (faults_of self.old) (faults_of self.new) result }
        ensures good { OnOk result (faults_of self.new ≡ faults_of self.old) }
        ensures counted { faults_of self.new ≡ (if is_ok result then faults_of self.old else one_more (faults_of self.old)) }
        ensures absent { IsAbsent self.old → IsErr result }
    {
        let Some(file) = &mut self.file else {
            self.faults = self.faults.saturating_add(1);
            return Err(Failed);
        };
        match read_once(file, into) {
            Ok(count) => Ok(count),
            Err(_) => {
                self.faults = self.faults.saturating_add(1);
                Err(Failed)
            }
        }
    }
}
