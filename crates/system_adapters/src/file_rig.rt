// A file and standard output as a rig.
ghost use Rattle.std.specs.Prelude.{◌≡◌, ◌+◌, ◌-◌, ◌^◌, ◌≤◌, ◌++◌, min, length, OnOk, is_ok};
ghost use Rattle.std.specs.Io.KnownBytes.{Appends};
ghost use Rattle.rig_core.specs.Causes.{HasCause};
ghost use Rattle.system_adapters.specs.Faults.{counted};

use crate::disk_file::DiskFile;
use rig_core::{Failed, Rig};
use std::fs::OpenFile;
use std::io;
use std::io::Write;
use std::os::unix::fs::FileExt;
use std::rt::Files;

/// The disk's size in bytes: 131,072 blocks of 512.
const DISK_SIZE: u64 = 67_108_864;

/// A file as the disk, and the output that lines are told on. The file is opened at the first read, write or sync that
/// finds it, and made by the first write where it is absent; a call that can't open it fails, and the next one tries
/// again. A file that may only be read serves reads and syncs, and each write of it fails. The disk has its whole size
/// from the start: bytes past the file's end are zeros, and so are all bytes where there is no file. The rig tells
/// neither its view nor its text, and keeps nothing of cuts. The size and the form of the file are this project's own.
#[derive(Drop)]
pub struct FileRig<'a, R, F, W> {
    disk: DiskFile<'a, R, F>,
    out: W,
    writes: u64,
    syncs: u64,
    tells: u64,
    clock: u64,
    read_faults: u64,
    write_faults: u64,
    tell_faults: u64,
    ghost counted: { clock ≡ min (writes + syncs + tells) (2 ^ 64 - 1) },
}

impl<'a, R: Files<File = F>, F: FileExt + OpenFile + Drop, W: Write> FileRig<'a, R, F, W> {
    ghost use Rattle.system_adapters.specs.DiskFile.{IsClosed};
    ghost use Rattle.system_adapters.specs.FileRig.{file_state, disk_of, out_of, IsUnused};

    /// A rig over the file of this path, which tells on this output.
    pub fn new(files: R, path: &'a str, out: W) -> FileRig<'a, R, F, W>
        ensures unused { IsUnused (file_state result) }
        ensures closed { IsClosed (disk_of result) }
        ensures output { out_of result ≡ out }
    {
        FileRig {
            disk: DiskFile::new(files, path),
            out,
            writes: 0,
            syncs: 0,
            tells: 0,
            clock: 0,
            read_faults: 0,
            write_faults: 0,
            tell_faults: 0,
        }
    }
}

/// What a call answers that came to this outcome: its count of faults is one higher where it failed.
fn count_fault(outcome: io::Result<()>, faults: &mut u64) -> Result<(), Failed>
    ensures counted { faults.new ≡ counted faults.old result }
    ensures cause { HasCause faults.old faults.new result }
    ensures outcome { is_ok result ≡ is_ok outcome }
{
    match outcome {
        Ok(()) => Ok(()),
        Err(_) => {
            *faults = faults.saturating_add(1);
            Err(Failed)
        }
    }
}

/// Writes the whole line, and flushes.
fn write_line<W: Write>(out: &mut W, line: &[u8]) -> io::Result<()>
    ensures { OnOk result (Appends (W.contents out.old) (W.contents out.new) line.now) }
{
    out.write_all(line)?;
    out.flush()?;
    Ok(())
}

impl<'a, R: Files<File = F>, F: FileExt + OpenFile + Drop, W: Write> Rig for FileRig<'a, R, F, W> {
    ghost use Rattle.rig_core.specs.Outside.{AllNow, Later, MakesAtMost, Ticks, AddsNone, Tears, IsToldPart, Speaks, Stops};
    ghost use Rattle.rig_core.specs.Bytes.{part, put, SameElsewhere};
    ghost use Rattle.system_adapters.specs.FileRig.{file_state, file_sound, disk_of, out_of};

    ghost tells_view = { ⊥ };

    ghost tells_text = { ⊥ };

    ghost keeps_cuts = { ⊥ };

    ghost state = { file_state };

    ghost sound = { file_sound };

    /// 67,108,864 bytes, however long the file is.
    fn size(&self) -> u64 {
        DISK_SIZE
    }

    /// Reads from the file, and gives zeros past its end and where there is no file; it makes none. It fails where the
    /// file can't be opened or read, and the buffer may then hold anything.
    fn read(&mut self, at: u64, into: &mut [u8]) -> Result<(), Failed>
        requires { at + length into.old ≤ (file_state self.old).size }
        ensures later { Later (file_state self.old) (file_state self.new) }
        ensures made { MakesAtMost 0 0 0 (file_state self.old) (file_state self.new) }
        ensures clock { (file_state self.new).clock ≡ (file_state self.old).clock }
        ensures told { (file_state self.new).told ≡ (file_state self.old).told }
        ensures view { ⊥ → (file_state self.new).view ≡ (file_state self.old).view }
        ensures bytes { ⊥ → OnOk result (into.new ≡ part at (length into.old) (file_state self.old).view) }
        ensures cuts { AddsNone (file_state self.old) (file_state self.new) }
        ensures cause { HasCause (file_state self.old).read_faults (file_state self.new).read_faults result }
        ensures counted { (file_state self.new).read_faults ≡ counted (file_state self.old).read_faults result }
        ensures write_faults { (file_state self.new).write_faults ≡ (file_state self.old).write_faults }
        ensures tell_faults { (file_state self.new).tell_faults ≡ (file_state self.old).tell_faults }
        ensures output { out_of self.new ≡ out_of self.old }
    {
        let read = self.disk.read(at, into);
        count_fault(read, &mut self.read_faults)
    }

    /// Writes to the file, all bytes by one call of the system where it takes them at once, and makes it where there is
    /// none. It fails where the file can't be made, opened or written, and any part of the bytes may then stand there.
    fn write(&mut self, at: u64, bytes: &[u8]) -> Result<(), Failed>
        requires { at + length bytes.now ≤ (file_state self.old).size }
        ensures later { Later (file_state self.old) (file_state self.new) }
        ensures made { MakesAtMost 1 0 0 (file_state self.old) (file_state self.new) }
        ensures clock { Ticks (file_state self.old) (file_state self.new) }
        ensures told { (file_state self.new).told ≡ (file_state self.old).told }
        ensures written { ⊥ → OnOk result ((file_state self.new).view ≡ put at bytes.now (file_state self.old).view) }
        ensures elsewhere { ⊥ → SameElsewhere at (length bytes.now) (file_state self.old).view (file_state self.new).view }
        ensures cuts { Tears at (length bytes.now) (file_state self.old) (file_state self.new) }
        ensures rises { ⊥ → OnOk result ((file_state self.new).clock ≡ (file_state self.old).clock + 1) }
        ensures stops { ⊥ → Stops (file_state self.old) (file_state self.new) }
        ensures cause { HasCause (file_state self.old).write_faults (file_state self.new).write_faults result }
        ensures counted { (file_state self.new).write_faults ≡ counted (file_state self.old).write_faults result }
        ensures read_faults { (file_state self.new).read_faults ≡ (file_state self.old).read_faults }
        ensures tell_faults { (file_state self.new).tell_faults ≡ (file_state self.old).tell_faults }
        ensures output { out_of self.new ≡ out_of self.old }
    {
        self.writes = self.writes.saturating_add(1);
        self.clock = self.clock.saturating_add(1);
        let written = self.disk.write(at, bytes);
        count_fault(written, &mut self.write_faults)
    }

    /// Asks for the strongest flush of the file, and once of its name in its folder. It opens the file for it where it
    /// isn't open yet, since an earlier run may have left bytes of it, or its name, unwritten; where there is no file
    /// nothing is asked. It fails where the file or its folder can't be opened or flushed. After a failure nothing is
    /// known of what reached the disk, and no later sync makes it known.
    fn sync(&mut self) -> Result<(), Failed>
        ensures later { Later (file_state self.old) (file_state self.new) }
        ensures made { MakesAtMost 0 1 0 (file_state self.old) (file_state self.new) }
        ensures clock { Ticks (file_state self.old) (file_state self.new) }
        ensures told { (file_state self.new).told ≡ (file_state self.old).told }
        ensures view { ⊥ → (file_state self.new).view ≡ (file_state self.old).view }
        ensures cuts { AddsNone (file_state self.old) (file_state self.new) }
        ensures durable { OnOk result (AllNow (λ image. image ≡ (file_state self.new).view) (file_state self.new)) }
        ensures rises { ⊥ → OnOk result ((file_state self.new).clock ≡ (file_state self.old).clock + 1) }
        ensures stops { ⊥ → Stops (file_state self.old) (file_state self.new) }
        ensures cause { HasCause (file_state self.old).write_faults (file_state self.new).write_faults result }
        ensures counted { (file_state self.new).write_faults ≡ counted (file_state self.old).write_faults result }
        ensures read_faults { (file_state self.new).read_faults ≡ (file_state self.old).read_faults }
        ensures tell_faults { (file_state self.new).tell_faults ≡ (file_state self.old).tell_faults }
        ensures output { out_of self.new ≡ out_of self.old }
    {
        self.syncs = self.syncs.saturating_add(1);
        self.clock = self.clock.saturating_add(1);
        let synced = self.disk.sync();
        count_fault(synced, &mut self.write_faults)
    }

    /// Writes the line on the output, and flushes. Where one of these fails, a prefix of the line may stand there.
    fn tell(&mut self, line: &[u8]) -> Result<(), Failed>
        ensures later { Later (file_state self.old) (file_state self.new) }
        ensures made { MakesAtMost 0 0 1 (file_state self.old) (file_state self.new) }
        ensures clock { Ticks (file_state self.old) (file_state self.new) }
        ensures told { (file_state self.new).told ≡ (file_state self.old).told }
        ensures all_told { ⊥ → OnOk result ((file_state self.new).told ≡ (file_state self.old).told ++ line.now) }
        ensures part { ⊥ → IsToldPart line.now (file_state self.old).told (file_state self.new).told }
        ensures view { ⊥ → (file_state self.new).view ≡ (file_state self.old).view }
        ensures cuts { Speaks line.now (file_state self.old) (file_state self.new) }
        ensures rises { ⊥ → OnOk result ((file_state self.new).clock ≡ (file_state self.old).clock + 1) }
        ensures stops { ⊥ → Stops (file_state self.old) (file_state self.new) }
        ensures cause { HasCause (file_state self.old).tell_faults (file_state self.new).tell_faults result }
        ensures counted { (file_state self.new).tell_faults ≡ counted (file_state self.old).tell_faults result }
        ensures read_faults { (file_state self.new).read_faults ≡ (file_state self.old).read_faults }
        ensures write_faults { (file_state self.new).write_faults ≡ (file_state self.old).write_faults }
        ensures written { OnOk result (Appends (W.contents (out_of self.old)) (W.contents (out_of self.new)) line.now) }
        ensures disk { disk_of self.new ≡ disk_of self.old }
    {
        self.tells = self.tells.saturating_add(1);
        self.clock = self.clock.saturating_add(1);
        let told = write_line(&mut self.out, line);
        count_fault(told, &mut self.tell_faults)
    }
}
