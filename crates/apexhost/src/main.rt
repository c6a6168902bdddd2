//! The program: files, standard input and standard output as the outside of the host.
#![tactic(auto)]

use apex_host::{Status, host};
use std::fs::OpenFile;
use std::io;
use std::io::Read;
use std::os::unix::fs::FileExt;
use std::process::ExitCode;
use std::rt::{Env, Files};
use system_adapters::{FileRig, FileSource, InputSource, StreamHolders, command_words};

/// The module table's file, in the present folder.
const TABLE_FILE: &str = "module.toml";

/// The disk's file, in the present folder.
const DISK_FILE: &str = "disk.img";

fn main(rt: HostRuntime) -> ExitCode {
    ExitCode::from(run(&rt).code())
}

/// Carries out the command line. Where no memory is found for its words nothing is told.
fn run<F, R>(rt: &R) -> Status
where
    F: FileExt + OpenFile + Read + Drop,
    R: Env + Files<File = F> + Input + Print + AllocGlobal,
{
    let _holders = StreamHolders::open(rt);
    let Ok(words) = command_words(rt) else {
        return Status::OutOfMemory;
    };
    let mut table = FileSource::open(rt, TABLE_FILE);
    let mut script = InputSource::new(rt);
    let mut rig = FileRig::new(rt, DISK_FILE, io::writer(rt));
    host(rt.alloc(), &words, &mut table, &mut script, &mut rig)
}
