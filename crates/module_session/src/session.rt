// A run of the services over what is stored on a device.
ghost use Rattle.std.specs.Prelude.{◌≡◌, ◌⊎◌, ◌<◌, ◌≤◌, ◌+◌, ◌*◌, length, is_err, true, Ok, IfOk, OnOk, OnErr};
ghost use Rattle.std.specs.Option.{ForSome};
ghost use Rattle.apex_types.specs.declared.calls.Call.TheVariants as calls;
ghost use Rattle.apex_model.specs.Accepted.{IsAccepted};
ghost use Rattle.apex_model.specs.Durable.{Durable, IsCutDuring, start};
ghost use Rattle.apex_model.specs.FailedReads.{reads_content, reads_file};
ghost use Rattle.apex_model.specs.Image.{state_of};
ghost use Rattle.apex_model.specs.Layout.{layout_blocks};
ghost use Rattle.apex_model.specs.Lines.{IsLineOf, IsDeedOf};
ghost use Rattle.apex_model.specs.World.{World};
ghost use Rattle.rig_core.specs.Causes.{Rose};
ghost use Rattle.rig_core.specs.Runs.{Runs, Shows};
ghost use Rattle.image_layout.specs.Ready.{Stores};
ghost use Rattle.image_mount.specs.Mounted.{IsMounted};
ghost use Rattle.service_parts.specs.Serving.{EioOnlyIfRead, MakesFourIfDone};
ghost use Rattle.service_parts.specs.Told.{IsTellable};
ghost use Rattle.file_services.specs.Naming as files;
ghost use Rattle.dir_services.specs.Naming as directories;

use crate::partitions::Partitions;
use apex_types::{
    Call, Context, Deed, DirCall, FileCall, Line, LogbookCall, Mode, OutOfMemory, PartitionId,
    Reply, ReturnCode, SamplingCall, Table, Values,
};
use dir_services::dir_call;
use file_services::file_call;
use image_mount::Store;
use logbook_services::{MadeMarks, logbook_call};
use logbook_store::Logs;
use open_handles::Handles;
use rig_core::{DeviceFault, Rig};
use sampling_ext::{Ports, sampling_call};
use service_parts::{is_normal, refused, success};
use std::alloc::Global;
use tree_store::Trees;

/// The services' state while a script is carried out: it stands for a world of the definitions. Trees and logbooks
/// are those of a device, which each call names.
#[derive(Drop)]
pub struct Session {
    table: Table,
    trees: Trees,
    handles: Handles,
    logs: Logs,
    made: MadeMarks,
    ports: Ports,
    partitions: Partitions,
    time: u32,
    failed: bool,
}

impl Session {
    ghost use Rattle.module_session.specs.Calls.{IsCallTaken, IsRestarted};
    ghost use Rattle.module_session.specs.Naming.{is_naming, name_change};
    ghost use Rattle.module_session.specs.Sessions.{table_of_session, has_failed, reads_in, IsCarriedOut, IsEarly, IsOfLogbooks, IsReady, StandsFor};
    ghost use Rattle.module_session.specs.Steps.{IsTaken, MovesFew};

    /// The state of a module of this table after power on, with what was mounted from a device: no handle is open, no
    /// logbook or port is created, no channel holds a message, and each partition is in COLD_START. It takes all memory
    /// that the session needs. The rig is named by the contract alone.
    pub fn start<R: Rig>(
        alloc: Global,
        table: Table,
        store: Store,
        rig: &R,
    ) -> Result<Session, OutOfMemory>
        requires accepted { IsAccepted table }
        requires mounted { IsMounted R.tells_view (R.state rig.now) table store }
        ensures table { IfOk result (λ session. table_of_session session ≡ table) }
        ensures early { IfOk result (IsEarly 1) }
        ensures ready { IfOk result (IsReady R.tells_view (R.state rig.now)) }
        ensures world { R.tells_view → (stored : Durable)
            → state_of table (R.state rig.now).view ≡ Ok stored
            → IfOk result (λ session. StandsFor R.tells_view (R.state rig.now) session (start table stored)) }
    {
        let partitions = table.partitions().len();
        let handles = Handles::new(alloc, partitions as u32)?;
        let made = MadeMarks::new(alloc, &table)?;
        let ports = Ports::new(alloc, &table)?;
        let partitions = Partitions::started(alloc, partitions)?;
        let Store { trees, logs } = store;
        Ok(Session {
            table,
            trees,
            handles,
            logs,
            made,
            ports,
            partitions,
            time: 0,
            failed: false,
        })
    }

    /// Whether a step was not carried out. Then the session isn't used again.
    pub fn failed(&self) -> bool
        ensures { result ≡ has_failed self.now }
    {
        self.failed
    }

    /// The table that the session was started with, also after a fault. What it holds else is dropped, and nothing is written.
    pub fn finish(self) -> Table
        ensures { result ≡ table_of_session self }
    {
        self.table
    }

    /// Carries out a call of files, in a partition that is ready for one or not.
    fn file<R: Rig>(
        &mut self,
        p: PartitionId,
        call: &FileCall,
        rig: &mut R,
    ) -> Result<Reply, DeviceFault>
        requires ready { IsReady R.tells_view (R.state rig.old) self.old }
        requires partition { p.0 < length (table_of_session self.old).partitions }
        ensures taken { IsCallTaken R.tells_view p (calls.File call.now) self.old self.new
            (R.state rig.old) (R.state rig.new) result }
        ensures unread { reads_content call.now ≡ true
            → IfOk result (EioOnlyIfRead (R.state rig.old) (R.state rig.new)) }
        ensures names { files.is_naming call.now ≡ true
            → MakesFourIfDone R.keeps_cuts (R.state rig.old) (R.state rig.new) result }
    {
        let ready = self.partitions.is_ready(p);
        let Session {
            table,
            trees,
            handles,
            ..
        } = self;
        file_call(table, trees, handles, rig, p, ready, call)
    }

    /// Carries out a call of directories, in a partition that is ready for one or not.
    fn directory<R: Rig>(
        &mut self,
        p: PartitionId,
        call: &DirCall,
        rig: &mut R,
    ) -> Result<Reply, DeviceFault>
        requires ready { IsReady R.tells_view (R.state rig.old) self.old }
        requires partition { p.0 < length (table_of_session self.old).partitions }
        ensures taken { IsCallTaken R.tells_view p (calls.Directory call.now) self.old self.new
            (R.state rig.old) (R.state rig.new) result }
        ensures names { directories.is_naming call.now ≡ true
            → MakesFourIfDone R.keeps_cuts (R.state rig.old) (R.state rig.new) result }
    {
        let ready = self.partitions.is_ready(p);
        let Session {
            table,
            trees,
            handles,
            ..
        } = self;
        dir_call(table, trees, handles, rig, p, ready, call)
    }

    /// Carries out a call of logbooks, in the partition's mode.
    fn logbook<R: Rig>(
        &mut self,
        p: PartitionId,
        call: &LogbookCall,
        rig: &mut R,
    ) -> Result<Reply, DeviceFault>
        requires ready { IsReady R.tells_view (R.state rig.old) self.old }
        requires partition { p.0 < length (table_of_session self.old).partitions }
        ensures { IsCallTaken R.tells_view p (calls.Logbook call.now) self.old self.new
            (R.state rig.old) (R.state rig.new) result }
    {
        let mode = self.partitions.mode(p);
        logbook_call(
            &self.table,
            &mut self.logs,
            &mut self.made,
            rig,
            p,
            mode,
            call,
        )
    }

    /// Carries out a call of sampling ports, in the partition's mode and at the module's time.
    fn sampling<R: Rig>(&mut self, p: PartitionId, call: &SamplingCall, rig: &R) -> Reply
        requires ready { IsReady R.tells_view (R.state rig.now) self.old }
        requires partition { p.0 < length (table_of_session self.old).partitions }
        ensures { IsCallTaken R.tells_view p (calls.Sampling call.now) self.old self.new
            (R.state rig.now) (R.state rig.now) (Ok result) }
    {
        let mode = self.partitions.mode(p);
        sampling_call(&self.table, &mut self.ports, self.time, p, mode, call)
    }

    /// A partition starts again in a mode: its handles are closed, what it created is forgotten, and its calls come from
    /// ordinary processes. What is stored, all messages and the other partitions stay as they are.
    fn restart<R: Rig>(&mut self, p: PartitionId, mode: Mode, rig: &R)
        requires ready { IsReady R.tells_view (R.state rig.now) self.old }
        requires partition { p.0 < length (table_of_session self.old).partitions }
        ensures { IsRestarted R.tells_view p.0 mode self.old self.new (R.state rig.now) }
    {
        self.handles.close_all(p);
        self.made.restart(&self.table, p);
        self.ports.restart(p);
        self.partitions.set(p, mode, Context::Ordinary);
    }

    /// MODE: NORMAL is entered from COLD_START and WARM_START alone; each other mode is a restart.
    fn set_mode<R: Rig>(&mut self, p: PartitionId, mode: Mode, rig: &R) -> Reply
        requires ready { IsReady R.tells_view (R.state rig.now) self.old }
        requires partition { p.0 < length (table_of_session self.old).partitions }
        ensures { IsCallTaken R.tells_view p (calls.SetMode mode) self.old self.new
            (R.state rig.now) (R.state rig.now) (Ok result) }
    {
        if !is_normal(mode) {
            self.restart(p, mode, rig);
            return success(Values::Empty);
        }
        match self.partitions.mode(p) {
            Mode::Normal => refused(ReturnCode::NoAction),
            Mode::Idle => refused(ReturnCode::InvalidMode),
            Mode::ColdStart | Mode::WarmStart => {
                let context = self.partitions.context(p);
                self.partitions.set(p, Mode::Normal, context);
                success(Values::Empty)
            }
        }
    }

    /// CONTEXT: where a partition's next calls come from.
    fn set_context<R: Rig>(&mut self, p: PartitionId, context: Context, rig: &R) -> Reply
        requires ready { IsReady R.tells_view (R.state rig.now) self.old }
        requires partition { p.0 < length (table_of_session self.old).partitions }
        ensures { IsCallTaken R.tells_view p (calls.SetContext context) self.old self.new
            (R.state rig.now) (R.state rig.now) (Ok result) }
    {
        let mode = self.partitions.mode(p);
        self.partitions.set(p, mode, context);
        success(Values::Empty)
    }

    /// Carries out a call or a directive of a partition. A fault comes only where the rig's write faults rose, or in a
    /// call of logbooks its read faults.
    fn call<R: Rig>(
        &mut self,
        p: PartitionId,
        call: &Call,
        rig: &mut R,
    ) -> Result<Reply, DeviceFault>
        requires ready { IsReady R.tells_view (R.state rig.old) self.old }
        requires partition { p.0 < length (table_of_session self.old).partitions }
        ensures taken { IsCallTaken R.tells_view p call.now self.old self.new
            (R.state rig.old) (R.state rig.new) result }
        ensures unread { reads_file call.now ≡ true
            → IfOk result (EioOnlyIfRead (R.state rig.old) (R.state rig.new)) }
        ensures names { is_naming call.now ≡ true
            → MakesFourIfDone R.keeps_cuts (R.state rig.old) (R.state rig.new) result }
    {
        match call {
            Call::File(call) => self.file(p, call, rig),
            Call::Directory(call) => self.directory(p, call, rig),
            Call::Logbook(call) => self.logbook(p, call, rig),
            Call::Sampling(call) => Ok(self.sampling(p, call, rig)),
            Call::SetMode(mode) => Ok(self.set_mode(p, *mode, rig)),
            Call::SetContext(context) => Ok(self.set_context(p, *context, rig)),
        }
    }

    /// Takes up a line: a call gives its reply, a tick none.
    fn take<R: Rig>(&mut self, line: &Line, rig: &mut R) -> Result<Option<Reply>, DeviceFault>
        requires ready { IsReady R.tells_view (R.state rig.old) self.old }
        requires of_table { IsLineOf (table_of_session self.old) line.now }
        requires early { IsEarly line.now.number self.old }
        ensures taken { IsTaken R.tells_view line.now self.old self.new
            (R.state rig.old) (R.state rig.new) result }
        ensures unread { reads_in line.now.deed ≡ true → IfOk result (λ reply.
            ForSome reply (EioOnlyIfRead (R.state rig.old) (R.state rig.new))) }
        ensures names { R.keeps_cuts → IfOk result (λ reply.
            (R.state rig.old).clock + 4 * name_change line.now.deed reply ≤ (R.state rig.new).clock) }
    {
        match &line.deed {
            Deed::Tick(ticks) => {
                self.logs.move_all(rig)?;
                self.time += *ticks;
                Ok(None)
            }
            Deed::Partition { p, call } => {
                let reply = self.call(*p, call, rig)?;
                Ok(Some(reply))
            }
        }
    }

    /// Carries out a line: a call gives its reply, a tick none. Where the read that a call of files needs fails, the
    /// reply tells so, and the world is as it was. After a fault the session has failed; it comes only where the rig's
    /// write faults rose, or in a tick or a call of logbooks its read faults. At every moment a cut leaves each tree and
    /// each logbook as before the line or as after it, each by itself, and nothing changes behind the table's layout.
    /// A reply of EIO to a call that may need to read a content comes only where a read failed. A change of names that is
    /// done takes four calls of the device at least, where cuts are kept.
    /// A line that is early is still so for the next: the time, in ticks, stays below 2 ^ 32.
    pub fn step<R: Rig>(&mut self, line: &Line, rig: &mut R) -> Result<Option<Reply>, DeviceFault>
        requires ready { IsReady R.tells_view (R.state rig.old) self.old }
        requires of_table { IsLineOf (table_of_session self.old) line.now }
        requires early { IsEarly line.now.number self.old }
        ensures table { table_of_session self.new ≡ table_of_session self.old }
        ensures failed { has_failed self.new ≡ is_err result }
        ensures early { OnOk result (IsEarly (line.now.number + 1) self.new) }
        ensures ready { OnOk result (IsReady R.tells_view (R.state rig.new) self.new) }
        ensures carried_out { IfOk result (IsCarriedOut R.tells_view
            (Rose (R.state rig.old).read_faults (R.state rig.new).read_faults) (table_of_session self.old) line.now
            self.old self.new (R.state rig.old) (R.state rig.new)) }
        ensures moments { (w : World) → StandsFor R.tells_view (R.state rig.old) self.old w → Shows R.tells_view
            (Stores (table_of_session self.old) (IsCutDuring (table_of_session self.old) w line.now.deed))
            (R.state rig.old) (R.state rig.new) }
        ensures runs { Runs R.tells_view 0 (512 * layout_blocks (table_of_session self.old)) 96 3
            (R.state rig.old) (R.state rig.new) }
        ensures moves { MovesFew line.now.deed self.old (R.state rig.old) (R.state rig.new) }
        ensures cause { OnErr result (Rose (R.state rig.old).write_faults (R.state rig.new).write_faults
            ⊎ (IsOfLogbooks line.now.deed × Rose (R.state rig.old).read_faults (R.state rig.new).read_faults)) }
        ensures tellable { IfOk result (λ reply. ForSome reply IsTellable) }
        ensures unread { reads_in line.now.deed ≡ true → IfOk result (λ reply.
            ForSome reply (EioOnlyIfRead (R.state rig.old) (R.state rig.new))) }
        ensures names { R.keeps_cuts → IfOk result (λ reply.
            (R.state rig.old).clock + 4 * name_change line.now.deed reply ≤ (R.state rig.new).clock) }
    {
        match self.take(line, rig) {
            Ok(reply) => Ok(reply),
            Err(fault) => {
                self.failed = true;
                Err(fault)
            }
        }
    }
}
