// The power cut at every call.
ghost use Rattle.std.specs.Prelude.{◌≡◌, ◌+◌, ◌-◌, ◌*◌, ◌^◌, ◌≤◌, ℕ, List, Some, IfOk, OnOk};
ghost use Rattle.std.specs.List.{AllByRecursion};
ghost use Rattle.std.specs.Option.{ForSome};
ghost use Rattle.apex_types.specs.declared.calls.Line.{Line};
ghost use Rattle.apex_model.specs.Accepted.{IsAccepted};
ghost use Rattle.apex_model.specs.Lines.{IsLineOf};
ghost use Rattle.rig_core.specs.FuseRig.{fuse_state};
ghost use Rattle.rig_core.specs.Outside.{AllNow};
ghost use Rattle.recover_scan.specs.Format.{IsFormatted};
ghost use Rattle.power_sweep.specs.Counts.{AreMounted, HasRoom};
ghost use Rattle.power_sweep.specs.Cuts.{IsLeftImage};
ghost use Rattle.power_sweep.specs.Whole.{first_world, last_files, HasFiles};
ghost use Rattle.script_run.specs.Names.{name_changes};

use crate::empty::empty_image;
use crate::fused::fused_run;
use crate::mounted::mounted_files;
use apex_types::{ByteList, OutOfMemory, Table};
use call_script::Script;
use rig_core::{FuseRig, PendingBytes};
use std::alloc::Global;

/// What a sweep counted.
#[derive(Drop)]
pub struct Swept {
    /// The writes and syncs of the run that no cut ended.
    pub calls: u64,
    /// The images that cuts left.
    pub images: u64,
    /// Those of them that mounted.
    pub mounted: u64,
    /// The files in all trees of all images that mounted.
    pub files: u64,
}

impl Swept {
    /// Counts an image, and where it mounted the files in it.
    fn add(&mut self, found: Option<u64>)
        requires room { HasRoom 1 self.old }
        requires few { ForSome found (λ files. files ≤ 2048) }
        ensures calls { self.new.calls ≡ self.old.calls }
        ensures images { self.new.images ≡ self.old.images + 1 }
        ensures mounted { (files : ℕ) → found ≡ Some files
            → self.new.mounted ≡ self.old.mounted + 1 }
        ensures files { (files : ℕ) → found ≡ Some files
            → self.new.files ≡ self.old.files + files }
        ensures grows { self.old.files ≤ self.new.files }
        ensures room { (more : ℕ) → HasRoom (more + 1) self.old → HasRoom more self.new }
    {
        self.images += 1;
        if let Some(files) = found {
            self.mounted += 1;
            self.files += files;
        }
    }

    /// Cuts the power of a device, with these of its pending bytes written, and mounts what is left.
    fn cut(
        &mut self,
        alloc: Global,
        table: &Table,
        rig: &FuseRig,
        left: PendingBytes,
    ) -> Result<(), OutOfMemory>
        requires accepted { IsAccepted table.now }
        requires room { HasRoom 1 self.old }
        ensures calls { self.new.calls ≡ self.old.calls }
        ensures mounts { (lines : List Line) (images : ℕ)
            → AllNow (IsLeftImage table.now lines) (fuse_state rig.now)
            → AreMounted table.now lines images self.old
            → OnOk result (AreMounted table.now lines (images + 1) self.new) }
        ensures files { (files : ℕ) → AllNow (HasFiles table.now files) (fuse_state rig.now)
            → OnOk result (self.new.files ≡ self.old.files + files) }
        ensures grows { OnOk result (self.old.files ≤ self.new.files) }
        ensures room { (more : ℕ) → HasRoom (more + 1) self.old
            → OnOk result (HasRoom more self.new) }
    {
        let image = rig.cut_image(left)?;
        let found = mounted_files(alloc, table, image)?;
        self.add(found);
        Ok(())
    }

    /// Cuts the power of a device in each of the three ways.
    fn cut_each_way(
        &mut self,
        alloc: Global,
        table: &Table,
        rig: &FuseRig,
    ) -> Result<(), OutOfMemory>
        requires accepted { IsAccepted table.now }
        requires room { HasRoom 3 self.old }
        ensures calls { OnOk result (self.new.calls ≡ self.old.calls) }
        ensures mounts { (lines : List Line) (images : ℕ)
            → AllNow (IsLeftImage table.now lines) (fuse_state rig.now)
            → AreMounted table.now lines images self.old
            → OnOk result (AreMounted table.now lines (images + 3) self.new) }
        ensures files { (files : ℕ) → AllNow (HasFiles table.now files) (fuse_state rig.now)
            → OnOk result (self.new.files ≡ self.old.files + 3 * files) }
        ensures grows { OnOk result (self.old.files ≤ self.new.files) }
        ensures room { (more : ℕ) → HasRoom (more + 3) self.old
            → OnOk result (HasRoom more self.new) }
    {
        self.cut(alloc, table, rig, PendingBytes::All)?;
        self.cut(alloc, table, rig, PendingBytes::None)?;
        self.cut(alloc, table, rig, PendingBytes::EvenBlocks)
    }
}

/// What the whole run left: the table, for the next run, and what was counted at its end.
#[derive(Drop)]
struct Begun {
    table: Table,
    swept: Swept,
}

/// Carries out a whole script on an empty image, counts the writes and syncs, and cuts the power after the last line
/// in each of the three ways.
fn sweep_end(
    alloc: Global,
    table: Table,
    script: &Script,
    image: &ByteList,
) -> Result<Begun, OutOfMemory>
    requires accepted { IsAccepted table }
    requires of_table { AllByRecursion (IsLineOf table) script.now }
    requires empty { IsFormatted table image.now }
    ensures table { IfOk result (λ begun. begun.table ≡ table) }
    ensures few { IfOk result (λ begun. begun.swept.calls ≤ 2 ^ 32 - 1) }
    ensures mounted { IfOk result (λ begun. AreMounted table script.now 3 begun.swept) }
    ensures room { IfOk result (λ begun. HasRoom 0 begun.swept) }
    ensures names { IfOk result (λ begun. 4 * name_changes table (first_world table) script.now
        ≤ begun.swept.calls) }
    ensures files { IfOk result (λ begun. 3 * last_files table script.now
        ≤ begun.swept.files) }
{
    let run = fused_run(alloc, table, script, image, u64::MAX)?;
    // No run makes as many calls as this fuse lets pass, and no record holds more than these.
    if run.used_up {
        return Err(OutOfMemory);
    }
    let calls = run.rig.made();
    if calls > u64::from(u32::MAX) {
        return Err(OutOfMemory);
    }
    let mut swept = Swept {
        calls,
        images: 0,
        mounted: 0,
        files: 0,
    };
    swept.cut_each_way(alloc, &run.table, &run.rig)?;
    Ok(Begun {
        table: run.table,
        swept,
    })
}

/// Carries out a script on the empty image of its table, in memory, counts the writes and syncs of the device, and cuts
/// the power after the last line. Then it carries the script out again for each smaller number of calls, and cuts the
/// power after so many. Each cut is made in the three ways in which it leaves pending bytes, and each image that is left
/// mounts. Each change of names takes four calls at least, and the images at the end have all files of the last world.
/// Without memory for all that, nothing is counted. The report is this project's own.
pub fn sweep(alloc: Global, table: Table, script: &Script) -> Result<Swept, OutOfMemory>
    requires accepted { IsAccepted table }
    requires of_table { AllByRecursion (IsLineOf table) script.now }
    ensures images { IfOk result (λ swept. swept.images ≡ 3 * (swept.calls + 1)) }
    ensures mounted { IfOk result (λ swept. swept.mounted ≡ swept.images) }
    ensures left { IfOk result (λ swept. AreMounted table script.now swept.images swept) }
    ensures names { IfOk result (λ swept. 4 * name_changes table (first_world table) script.now
        ≤ swept.calls) }
    ensures files { IfOk result (λ swept. 3 * last_files table script.now ≤ swept.files) }
{
    let image = empty_image(alloc, &table)?;
    let begun = sweep_end(alloc, table, script, &image)?;
    let calls = begun.swept.calls;
    let mut table = begun.table;
    let mut swept = begun.swept;
    for passed in 0..calls {
        let run = fused_run(alloc, table, script, &image, passed)?;
        swept.cut_each_way(alloc, &run.table, &run.rig)?;
        table = run.table;
    }
    Ok(swept)
}
