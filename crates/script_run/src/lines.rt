// A script's lines carried out in order, each with its reply told.
ghost use Rattle.std.specs.Prelude.{◌≡◌, ◌≢◌, ◌++◌, ◌≤◌, [], length, OnOk, OnErr, Ok, Err};
ghost use Rattle.std.specs.List.{AllByRecursion};
ghost use Rattle.std.specs.Option.{ForSome};
ghost use Rattle.apex_model.specs.Lines.{IsLineOf};
ghost use Rattle.apex_model.specs.Run.{fault_line};
ghost use Rattle.module_session.specs.Sessions.{table_of_session, IsEarly, IsReady};
ghost use Rattle.rig_core.specs.Causes.{Rose};
ghost use Rattle.rig_core.specs.Outside.{Later};
ghost use Rattle.script_run.specs.Reached.{LeavesRunPairs, Reached, Halts, StopsTelling};
ghost use Rattle.script_run.specs.Told.{told_line, TellsText};
ghost use Rattle.service_parts.specs.Told.{IsTellable};

use apex_types::Reply;
use call_script::{Script, fault_line, reply_line};
use model_laws::{reply_lines_tell, step_keeps_valid};
use module_session::Session;
use rig_core::{Failed, Rig};

/// Why a script was not carried out to its end.
pub enum LineStop {
    /// The device failed in a line, and that was told.
    Device,
    /// Telling a reply, or that the device failed, did not come to its end.
    Tell,
}

// Tells the reply of a line of this number. A tick has none.
pub(crate) fn tell_reply<R: Rig>(
    number: u32,
    reply: &Option<Reply>,
    rig: &mut R,
) -> Result<(), Failed>
    requires few { number ≤ 20000 }
    requires tellable { ForSome reply.now IsTellable }
    ensures tells { TellsText R.tells_text R.tells_view (told_line number reply.now)
        (R.state rig.old) (R.state rig.new) }
    ensures told { R.tells_text → OnOk result ((R.state rig.new).told
        ≡ (R.state rig.old).told ++ told_line number reply.now) }
    ensures something { OnErr result (told_line number reply.now ≢ []) }
    ensures cause { OnErr result
        (Rose (R.state rig.old).tell_faults (R.state rig.new).tell_faults) }
{
    match reply {
        None => Ok(()),
        Some(reply) => rig.tell(reply_line(number, reply).bytes()),
    }
}

// Tells that the device failed in a line of this number.
pub(crate) fn tell_fault<R: Rig>(number: u32, rig: &mut R) -> LineStop
    requires few { number ≤ 20000 }
    ensures tells { TellsText R.tells_text R.tells_view (fault_line number)
        (R.state rig.old) (R.state rig.new) }
    ensures told { R.tells_text → result ≡ LineStop.Device → (R.state rig.new).told
        ≡ (R.state rig.old).told ++ fault_line number }
    ensures cause { result ≡ LineStop.Tell
        → Rose (R.state rig.old).tell_faults (R.state rig.new).tell_faults }
{
    match rig.tell(fault_line(number).bytes()) {
        Ok(()) => LineStop::Device,
        Err(_) => LineStop::Tell,
    }
}

/// Carries out the lines of a script in order, and tells each reply. Where the device fails in a
/// line, that is told and the run ends; it ends too where telling fails.
pub fn carry_out<R: Rig>(
    session: &mut Session,
    script: &Script,
    rig: &mut R,
) -> Result<(), LineStop>
    requires ready { IsReady R.tells_view (R.state rig.old) session.old }
    requires of_table { AllByRecursion (IsLineOf (table_of_session session.old)) script.now }
    requires early { IsEarly 1 session.old }
    ensures ran { OnOk result (Reached R.tells_text R.tells_view (table_of_session session.old)
        script.now (length script.now) session.old (R.state rig.old)
        session.new (R.state rig.new)) }
    ensures halted { result ≡ Err LineStop.Device
        → Halts R.tells_text R.tells_view (table_of_session session.old) script.now session.old
        (R.state rig.old) (R.state rig.new) }
    ensures stopped { result ≡ Err LineStop.Tell
        → StopsTelling R.tells_text R.tells_view (table_of_session session.old) script.now
        session.old (R.state rig.old) (R.state rig.new) }
    ensures pairs { LeavesRunPairs R.tells_text R.tells_view (table_of_session session.old) script.now
        session.old (R.state rig.old) (R.state rig.new) }
    ensures later { Later (R.state rig.old) (R.state rig.new) }
{
    // Laws of the definitions, on which what a cut leaves beside the text rests.
    step_keeps_valid();
    reply_lines_tell();
    'lines: for k in 0..script.len() {
        let line = script.line(k);
        match session.step(line, rig) {
            Err(_) => return Err(tell_fault(line.number, rig)),
            Ok(reply) => match tell_reply(line.number, &reply, rig) {
                Err(_) => return Err(LineStop::Tell),
                Ok(()) => {}
            },
        }
    }
    Ok(())
}
