// A disk under a fuse, with its faults counted.
ghost use Rattle.std.specs.Prelude.{◌≡◌, ◌<◌, false, IfOk};
ghost use Rattle.rig_core.specs.FuseRig.{is_fuse_starved, limit_of, passed_of};
ghost use Rattle.power_sweep.specs.Counted.{AreCounted};

use apex_types::{ByteList, OutOfMemory};
use rig_core::{Failed, FuseRig, Rig};
use std::alloc::Global;

/// A disk in memory under a fuse, of which it is known why a call fails: the fuse let pass all that it may, or a record
/// could not grow.
#[derive(Drop)]
pub(crate) struct CountedRig {
    disk: FuseRig,
    calls: u64,
    read_faults: u64,
    write_faults: u64,
    ghost limit: { limit_of disk ≡ calls },
    ghost counted: { AreCounted disk read_faults write_faults },
}

impl CountedRig {
    ghost use Rattle.rig_core.specs.Outside.{IsFresh};
    ghost use Rattle.power_sweep.specs.CountedRig.{counted_state, disk_of};

    /// A disk with this image, all of it on the disk, that lets so many writes and syncs pass.
    pub(crate) fn new(alloc: Global, image: ByteList, calls: u64) -> Result<CountedRig, OutOfMemory>
        ensures { IfOk result (λ rig. IsFresh image (counted_state rig)) }
    {
        let disk = FuseRig::new(alloc, image, calls)?;
        Ok(CountedRig {
            disk,
            calls,
            read_faults: 0,
            write_faults: 0,
        })
    }

    /// Whether a record could not grow.
    pub(crate) fn starved(&self) -> bool
        ensures { result ≡ is_fuse_starved (disk_of self.now) }
    {
        self.disk.starved()
    }

    /// Whether as many writes and syncs were let pass as may.
    pub(crate) fn is_used_up(&self) -> bool
        ensures { result ≡ false
            → passed_of (disk_of self.now) < limit_of (disk_of self.now) }
    {
        self.calls <= self.disk.made()
    }

    /// The disk under its fuse.
    pub(crate) fn into_disk(self) -> FuseRig
        ensures disk { result ≡ disk_of self }
        ensures counted { AreCounted result
            (counted_state self).read_faults (counted_state self).write_faults }
    {
        self.disk
    }
}

impl Rig for CountedRig {
    ghost use Rattle.power_sweep.specs.CountedRig.{counted_state, counted_sound};

    ghost tells_view = { Unit {0} };

    ghost tells_text = { ⊥ };

    ghost keeps_cuts = { Unit {0} };

    ghost state = { counted_state };

    ghost sound = { counted_sound };

    fn size(&self) -> u64 {
        self.disk.size()
    }

    fn read(&mut self, at: u64, into: &mut [u8]) -> Result<(), Failed> {
        let Ok(()) = self.disk.read(at, into) else {
            self.read_faults = self.read_faults.saturating_add(1);
            return Err(Failed);
        };
        Ok(())
    }

    fn write(&mut self, at: u64, bytes: &[u8]) -> Result<(), Failed> {
        let Ok(()) = self.disk.write(at, bytes) else {
            self.write_faults = self.write_faults.saturating_add(1);
            return Err(Failed);
        };
        Ok(())
    }

    fn sync(&mut self) -> Result<(), Failed> {
        let Ok(()) = self.disk.sync() else {
            self.write_faults = self.write_faults.saturating_add(1);
            return Err(Failed);
        };
        Ok(())
    }

    fn tell(&mut self, line: &[u8]) -> Result<(), Failed> {
        self.disk.tell(line)
    }
}
