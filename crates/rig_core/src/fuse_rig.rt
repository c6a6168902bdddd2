// A disk in memory whose power fails after some of its calls.
ghost use Rattle.std.specs.Prelude.{◌≡◌, ◌+◌, ◌≤◌, [], IsTrue, true, is_ok, length, IfOk, OnOk, OnErr};
ghost use Rattle.rig_core.specs.MemRig.{fails_of};

use crate::cut::PendingBytes;
use crate::{Failed, MemRig, Rig};
use apex_types::{ByteList, CallKind, FailList, OutOfMemory};
use std::alloc::Global;

/// A disk in memory under a fuse. It lets so many writes and syncs pass; the next one fails, and every call after it.
/// It tells its view, drops told lines, and keeps what a cut may leave. A write that the fuse refuses is pending.
/// A write, a sync or a tell whose record can't grow fails and changes nothing but counts.
#[derive(Drop)]
pub struct FuseRig {
    disk: MemRig,
    calls: u64,
    passed: u64,
    spent: bool,
    read_faults: u64,
    write_faults: u64,
    tell_faults: u64,
    ghost unlisted: { fails_of disk ≡ [] },
    ghost within: { passed ≤ calls },
    ghost used_up: { IsTrue spent → passed ≡ calls },
}

impl FuseRig {
    ghost use Rattle.rig_core.specs.FuseRig.{fuse_state, BeginsFused, IsCutNow, passed_of, is_fuse_starved};

    /// A rig with this image, all of it on the disk, that lets so many writes and syncs pass.
    pub fn new(alloc: Global, image: ByteList, calls: u64) -> Result<FuseRig, OutOfMemory>
        ensures begins { IfOk result (BeginsFused image calls) }
    {
        let disk = MemRig::new(alloc, image, FailList::new(alloc), 0)?;
        Ok(FuseRig {
            disk,
            calls,
            passed: 0,
            spent: false,
            read_faults: 0,
            write_faults: 0,
            tell_faults: 0,
        })
    }

    /// How many writes and syncs were let pass.
    pub fn made(&self) -> u64
        ensures { result ≡ passed_of self.now }
    {
        self.passed
    }

    /// Whether a record could not grow.
    pub fn starved(&self) -> bool
        ensures { result ≡ is_fuse_starved self.now }
    {
        self.disk.starved()
    }

    /// The image that a power cut now leaves, with these of the bytes that no sync has made sure of.
    pub fn cut_image(&self, left: PendingBytes) -> Result<ByteList, OutOfMemory>
        ensures size { IfOk result (λ image. length image ≡ (fuse_state self.now).size) }
        ensures cut { IfOk result (IsCutNow left self.now) }
    {
        self.disk.cut_image(u32::MAX, left)
    }
}

impl Rig for FuseRig {
    ghost use Rattle.rig_core.specs.FuseRig.{fuse_state, fuse_sound, Burns, SparesFuse, IsGuarded, IsGivenRead, PutsPending, IsUnwritten};
    ghost use Rattle.rig_core.specs.Causes.{HasCause};
    ghost use Rattle.rig_core.specs.Outside.{AllNow, Later, MakesAtMost, Ticks, AddsNone, Tears, Speaks, Stops, KeepsNow, KeepsPast};
    ghost use Rattle.rig_core.specs.Bytes.{part, put, SameElsewhere};

    ghost tells_view = { Unit {0} };

    ghost tells_text = { ⊥ };

    ghost keeps_cuts = { Unit {0} };

    ghost state = { fuse_state };

    ghost sound = { fuse_sound };

    fn size(&self) -> u64 {
        self.disk.size()
    }

    fn read(&mut self, at: u64, into: &mut [u8]) -> Result<(), Failed>
        requires { at + length into.old ≤ (fuse_state self.old).size }
        ensures later { Later (fuse_state self.old) (fuse_state self.new) }
        ensures made { MakesAtMost 0 0 0 (fuse_state self.old) (fuse_state self.new) }
        ensures clock { (fuse_state self.new).clock ≡ (fuse_state self.old).clock }
        ensures told { (fuse_state self.new).told ≡ (fuse_state self.old).told }
        ensures view { (fuse_state self.new).view ≡ (fuse_state self.old).view }
        ensures bytes { OnOk result (into.new ≡ part at (length into.old) (fuse_state self.old).view) }
        ensures cuts { AddsNone (fuse_state self.old) (fuse_state self.new) }
        ensures cause { HasCause (fuse_state self.old).read_faults (fuse_state self.new).read_faults result }
        ensures past { KeepsPast (fuse_state self.old) (fuse_state self.new) }
        ensures kept { KeepsNow (fuse_state self.old) (fuse_state self.new) }
        ensures fuse { SparesFuse self.old self.new }
        ensures given { IsGivenRead (is_ok result) self.old self.new }
    {
        if self.spent {
            self.read_faults = self.read_faults.saturating_add(1);
            return Err(Failed);
        }
        let start = at as usize;
        into.copy_from_slice(&self.disk.view()[start..start + into.len()]);
        Ok(())
    }

    fn write(&mut self, at: u64, bytes: &[u8]) -> Result<(), Failed>
        requires { at + length bytes.now ≤ (fuse_state self.old).size }
        ensures later { Later (fuse_state self.old) (fuse_state self.new) }
        ensures made { MakesAtMost 1 0 0 (fuse_state self.old) (fuse_state self.new) }
        ensures clock { Ticks (fuse_state self.old) (fuse_state self.new) }
        ensures told { (fuse_state self.new).told ≡ (fuse_state self.old).told }
        ensures written { OnOk result ((fuse_state self.new).view ≡ put at bytes.now (fuse_state self.old).view) }
        ensures elsewhere { SameElsewhere at (length bytes.now) (fuse_state self.old).view (fuse_state self.new).view }
        ensures cuts { Tears at (length bytes.now) (fuse_state self.old) (fuse_state self.new) }
        ensures rises { OnOk result ((fuse_state self.new).clock ≡ (fuse_state self.old).clock + 1) }
        ensures stops { Stops (fuse_state self.old) (fuse_state self.new) }
        ensures cause { HasCause (fuse_state self.old).write_faults (fuse_state self.new).write_faults result }
        ensures past { KeepsPast (fuse_state self.old) (fuse_state self.new) }
        ensures fuse { Burns (is_ok result) self.old self.new }
        ensures guarded { IsGuarded CallKind.Write at bytes.now true (is_ok result) self.old self.new }
        ensures pending { PutsPending at bytes.now self.old self.new }
        ensures unwritten { IsUnwritten self.old self.new }
    {
        self.spent = self.passed == self.calls;
        let Ok(()) = self.disk.write(at, bytes) else {
            self.write_faults = self.write_faults.saturating_add(1);
            return Err(Failed);
        };
        if self.spent {
            self.write_faults = self.write_faults.saturating_add(1);
            return Err(Failed);
        }
        self.passed += 1;
        Ok(())
    }

    fn sync(&mut self) -> Result<(), Failed>
        ensures later { Later (fuse_state self.old) (fuse_state self.new) }
        ensures made { MakesAtMost 0 1 0 (fuse_state self.old) (fuse_state self.new) }
        ensures clock { Ticks (fuse_state self.old) (fuse_state self.new) }
        ensures told { (fuse_state self.new).told ≡ (fuse_state self.old).told }
        ensures view { (fuse_state self.new).view ≡ (fuse_state self.old).view }
        ensures cuts { AddsNone (fuse_state self.old) (fuse_state self.new) }
        ensures durable { OnOk result (AllNow (λ image. image ≡ (fuse_state self.new).view) (fuse_state self.new)) }
        ensures rises { OnOk result ((fuse_state self.new).clock ≡ (fuse_state self.old).clock + 1) }
        ensures stops { Stops (fuse_state self.old) (fuse_state self.new) }
        ensures cause { HasCause (fuse_state self.old).write_faults (fuse_state self.new).write_faults result }
        ensures past { KeepsPast (fuse_state self.old) (fuse_state self.new) }
        ensures kept { OnErr result (KeepsNow (fuse_state self.old) (fuse_state self.new)) }
        ensures fuse { Burns (is_ok result) self.old self.new }
        ensures guarded { IsGuarded CallKind.Sync 0 [] (is_ok result) (is_ok result) self.old self.new }
    {
        self.spent = self.passed == self.calls;
        let Ok(()) = self.disk.sync_as(!self.spent) else {
            self.write_faults = self.write_faults.saturating_add(1);
            return Err(Failed);
        };
        self.passed += 1;
        Ok(())
    }

    fn tell(&mut self, _line: &[u8]) -> Result<(), Failed>
        ensures later { Later (fuse_state self.old) (fuse_state self.new) }
        ensures made { MakesAtMost 0 0 1 (fuse_state self.old) (fuse_state self.new) }
        ensures clock { Ticks (fuse_state self.old) (fuse_state self.new) }
        ensures told { (fuse_state self.new).told ≡ (fuse_state self.old).told }
        ensures view { (fuse_state self.new).view ≡ (fuse_state self.old).view }
        ensures cuts { Speaks _line.now (fuse_state self.old) (fuse_state self.new) }
        ensures rises { OnOk result ((fuse_state self.new).clock ≡ (fuse_state self.old).clock + 1) }
        ensures stops { Stops (fuse_state self.old) (fuse_state self.new) }
        ensures cause { HasCause (fuse_state self.old).tell_faults (fuse_state self.new).tell_faults result }
        ensures past { KeepsPast (fuse_state self.old) (fuse_state self.new) }
        ensures kept { KeepsNow (fuse_state self.old) (fuse_state self.new) }
        ensures fuse { SparesFuse self.old self.new }
        ensures guarded { IsGuarded CallKind.Tell 0 [] true (is_ok result) self.old self.new }
    {
        let Ok(()) = self.disk.tell(&[]) else {
            self.tell_faults = self.tell_faults.saturating_add(1);
            return Err(Failed);
        };
        if self.spent {
            self.tell_faults = self.tell_faults.saturating_add(1);
            return Err(Failed);
        }
        Ok(())
    }
}
