// Standard input as a source.
ghost use Rattle.std.specs.Prelude.{◌≡◌, ◌<◌, length, is_ok, OnOk, if◌then◌else◌};
ghost use Rattle.std.specs.Io.{ReadsAtMost};
ghost use Rattle.std.specs.Io.KnownBytes.{ReadConsumes};
ghost use Rattle.rig_core.specs.Causes.{HasCause, one_more};

use crate::reading::read_once;
use rig_core::{Failed, Source};
use std::io::Read;

/// The bytes of standard input. It tells the bytes left where its reader tells them, and standard input tells none.
#[derive(Drop)]
pub struct InputSource<F> {
    reader: F,
    faults: u64,
}

impl<F: Read> InputSource<F> {
    ghost use Rattle.system_adapters.specs.InputSource.{faults_of};

    /// The input of the runtime.
    pub fn new<R: Input<Reader = F>>(rt: &R) -> InputSource<F>
        ensures { faults_of result ≡ 0 }
    {
        InputSource {
            reader: rt.reader(),
            faults: 0,
        }
    }
}

impl<F: Read> Source for InputSource<F> {
    ghost use Rattle.system_adapters.specs.InputSource.{left_of, faults_of};

    ghost left = { left_of F.remaining };

    ghost faults = { faults_of };

    fn read(&mut self, into: &mut [u8]) -> Result<usize, Failed>
        requires { 0 < length into.old }
        ensures bound { ReadsAtMost result into.new }
        ensures bytes { ReadConsumes (left_of F.remaining self.old) (left_of F.remaining self.new) result into.new }
        ensures cause { HasCause (faults_of self.old) (faults_of self.new) result }
        ensures good { OnOk result (faults_of self.new ≡ faults_of self.old) }
        ensures counted { faults_of self.new ≡ (if is_ok result then faults_of self.old else one_more (faults_of self.old)) }
    {
        match read_once(&mut self.reader, into) {
            Ok(count) => Ok(count),
            Err(_) => {
                self.faults = self.faults.saturating_add(1);
                Err(Failed)
            }
        }
    }
}
