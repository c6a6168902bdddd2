// A script's lines carried out in order up to the first that the device fails in, with the replies counted, and those
// to one partition told.
ghost use Rattle.std.specs.Prelude.{◌≡◌, ◌≢◌, ◌⊎◌, ◌+◌, ◌*◌, ◌≤◌, ℕ, [], ◌∷◌, ◌++◌, List, Option, Some, None, IfOk, OnOk, OnErr, Ok, Err, length};
ghost use Rattle.std.specs.List.{AllByRecursion};
ghost use Rattle.std.specs.Option.{ForSome};
ghost use Rattle.apex_model.specs.Durable.{IsCutDuring};
ghost use Rattle.apex_model.specs.Lines.{IsLineOf};
ghost use Rattle.apex_model.specs.Moments.{is_told};
ghost use Rattle.apex_model.specs.Run.{Told};
ghost use Rattle.apex_model.specs.World.{World};
ghost use Rattle.image_layout.specs.Ready.{Stores};
ghost use Rattle.module_session.specs.Sessions.{reads_in, table_of_session, IsEarly, IsReady, StandsFor};
ghost use Rattle.module_session.specs.Naming.{name_change};
ghost use Rattle.rig_core.specs.Causes.{Rose};
ghost use Rattle.rig_core.specs.Outside.{Later};
ghost use Rattle.rig_core.specs.Runs.{Shows};
ghost use Rattle.script_run.specs.Chosen.{is_hearer, HaltsAt, HaltsHeard, LeavesOwnPairs, Served, StopsAt, StopsHearing};
ghost use Rattle.script_run.specs.Heard.{heard_text, is_unread, IsPlainlyDone};
ghost use Rattle.script_run.specs.Names.{CountsNames};
ghost use Rattle.script_run.specs.Tally.{tally_of, IsTallyOf, IsWithin};
ghost use Rattle.script_run.specs.Told.{TellsText};
ghost use Rattle.service_parts.specs.Told.{IsTellable};

use crate::lines::{LineStop, tell_fault, tell_reply};
use crate::tally::Tally;
use apex_types::{Call, Deed, Errno, FileCall, Line, PartitionId, Reply};
use call_script::Script;
use model_laws::{reply_lines_tell, step_keeps_valid};
use module_session::Session;
use rig_core::{DeviceFault, Failed, Rig};

/// Why lines were not carried out to their end.
#[derive(Clone, Copy)]
pub enum Halt {
    /// The device failed in the line of this number, and that was not told.
    Device { number: u32 },
    /// Telling a reply did not come to its end.
    Tell,
}

// Whether a line is a call that may need to read a file's content.
fn reads_content(line: &Line) -> bool
    ensures { result ≡ reads_in line.now.deed }
{
    let Deed::Partition { call, .. } = &line.deed else {
        return false;
    };
    match call {
        Call::File(
            FileCall::ReadFile { .. } | FileCall::WriteFile { .. } | FileCall::ResizeFile { .. },
        ) => true,
        _ => false,
    }
}

// Whether this is the reply to a line whose read failed.
fn is_unread(line: &Line, reply: &Option<Reply>) -> bool
    ensures { result ≡ is_unread line.now reply.now }
{
    if !reads_content(line) {
        return false;
    }
    match reply {
        None => false,
        Some(reply) => matches!(reply.errno, Some(Errno::Eio)),
    }
}

// Carries out a line. A read that failed is a fault of the device also where it is a reply.
fn step_whole<R: Rig>(
    session: &mut Session,
    line: &Line,
    rig: &mut R,
) -> Result<Option<Reply>, DeviceFault>
    requires ready { IsReady R.tells_view (R.state rig.old) session.old }
    requires of_table { IsLineOf (table_of_session session.old) line.now }
    requires early { IsEarly line.now.number session.old }
    ensures later { Later (R.state rig.old) (R.state rig.new) }
    ensures quiet { (R.state rig.new).told ≡ (R.state rig.old).told }
    ensures moments { (w : World) → StandsFor R.tells_view (R.state rig.old) session.old w
        → Shows R.tells_view (Stores (table_of_session session.old)
        (IsCutDuring (table_of_session session.old) w line.now.deed))
        (R.state rig.old) (R.state rig.new) }
    ensures table { table_of_session session.new ≡ table_of_session session.old }
    ensures early { OnOk result (IsEarly (line.now.number + 1) session.new) }
    ensures ready { OnOk result (IsReady R.tells_view (R.state rig.new) session.new) }
    ensures done { IfOk result (IsPlainlyDone R.tells_view (table_of_session session.old) line.now
        session.old session.new (R.state rig.old) (R.state rig.new)) }
    ensures tellable { IfOk result (λ reply. ForSome reply IsTellable) }
    ensures cause { OnErr result (Rose (R.state rig.old).write_faults (R.state rig.new).write_faults
        ⊎ Rose (R.state rig.old).read_faults (R.state rig.new).read_faults) }
    ensures untold { (R.state rig.new).tells ≤ (R.state rig.old).tells }
    ensures names { R.keeps_cuts → IfOk result (λ reply.
        (R.state rig.old).clock + 4 * name_change line.now.deed reply ≤ (R.state rig.new).clock) }
{
    match session.step(line, rig) {
        Err(fault) => Err(fault),
        Ok(reply) => {
            if is_unread(line, &reply) {
                return Err(DeviceFault);
            }
            Ok(reply)
        }
    }
}

// Whether the reply to a line is told, where those to a partition are or nobody's.
fn is_heard(line: &Line, hearer: Option<PartitionId>) -> bool
    ensures { result ≡ is_told (is_hearer hearer) line.now }
{
    let Some(hearer) = hearer else {
        return false;
    };
    match &line.deed {
        Deed::Tick(_) => false,
        Deed::Partition { p, .. } => p.0 == hearer.0,
    }
}

// Tells the reply to a line, where those to its partition are told.
fn tell_heard<R: Rig>(
    line: &Line,
    reply: &Option<Reply>,
    hearer: Option<PartitionId>,
    rig: &mut R,
) -> Result<(), Failed>
    requires few { line.now.number ≤ 20000 }
    requires tellable { ForSome reply.now IsTellable }
    ensures tells { TellsText R.tells_text R.tells_view
        (heard_text (is_hearer hearer) line.now reply.now) (R.state rig.old) (R.state rig.new) }
    ensures told { R.tells_text → OnOk result ((R.state rig.new).told
        ≡ (R.state rig.old).told ++ heard_text (is_hearer hearer) line.now reply.now) }
    ensures something { OnErr result
        (heard_text (is_hearer hearer) line.now reply.now ≢ []) }
    ensures cause { OnErr result
        (Rose (R.state rig.old).tell_faults (R.state rig.new).tell_faults) }
    ensures silent { hearer ≡ None → (R.state rig.new).told ≡ (R.state rig.old).told }
    ensures untold { hearer ≡ None → (R.state rig.new).tells ≡ (R.state rig.old).tells }
{
    if !is_heard(line, hearer) {
        return Ok(());
    }
    tell_reply(line.number, reply, rig)
}

// Counts the reply to a line. A tick has none.
fn count_reply(tally: &mut Tally, reply: &Option<Reply>)
    requires few { IsWithin 19999 tally.old }
    ensures none { reply.now ≡ None → tally.new ≡ tally.old }
    ensures some { (replies : List Told) (told : Told) → reply.now ≡ Some told.reply
        → tally.old ≡ tally_of replies → tally.new ≡ tally_of (replies ++ told ∷ []) }
    ensures within { (n : ℕ) → IsWithin n tally.old → IsWithin (n + 1) tally.new }
{
    match reply {
        None => {}
        Some(reply) => tally.add(reply),
    }
}

/// Carries out the lines of a script in order up to the first in which the device fails, also where that is a read of a
/// call. Of the replies it tells those to a partition, or none, and ends where telling fails. It gives the tally of all
/// replies. Where cuts are kept, each change of names takes four calls of the device at least.
pub fn carry_out_for<R: Rig>(
    session: &mut Session,
    script: &Script,
    hearer: Option<PartitionId>,
    rig: &mut R,
) -> Result<Tally, Halt>
    requires ready { IsReady R.tells_view (R.state rig.old) session.old }
    requires of_table { AllByRecursion (IsLineOf (table_of_session session.old)) script.now }
    requires early { IsEarly 1 session.old }
    ensures table { table_of_session session.new ≡ table_of_session session.old }
    ensures ran { OnOk result (Served R.tells_text R.tells_view (table_of_session session.old)
        script.now (is_hearer hearer) session.old (R.state rig.old)
        session.new (R.state rig.new)) }
    ensures tallied { IfOk result (IsTallyOf R.tells_view (table_of_session session.old)
        script.now session.old (R.state rig.old)) }
    ensures within { IfOk result (IsWithin 20000) }
    ensures halted { (number : ℕ) → result ≡ Err (Halt.Device number)
        → HaltsAt R.tells_text R.tells_view (table_of_session session.old) script.now
        (is_hearer hearer) session.old (R.state rig.old) (R.state rig.new) number }
    ensures stopped { result ≡ Err Halt.Tell
        → StopsAt R.tells_text R.tells_view (table_of_session session.old) script.now
        (is_hearer hearer) session.old (R.state rig.old) (R.state rig.new) }
    ensures pairs { LeavesOwnPairs R.tells_text R.tells_view (table_of_session session.old)
        script.now (is_hearer hearer) session.old (R.state rig.old) (R.state rig.new) }
    ensures later { Later (R.state rig.old) (R.state rig.new) }
    ensures silent { hearer ≡ None → (R.state rig.new).told ≡ (R.state rig.old).told }
    ensures untold { hearer ≡ None → result ≢ Err Halt.Tell }
    ensures tells { hearer ≡ None → (R.state rig.new).tells ≤ (R.state rig.old).tells }
    ensures names { OnOk result (CountsNames R.keeps_cuts R.tells_view
        (table_of_session session.old) script.now session.old (R.state rig.old) (R.state rig.new)) }
{
    // Laws of the definitions, on which what a cut leaves beside the text rests.
    step_keeps_valid();
    reply_lines_tell();
    let mut tally = Tally::new();
    'lines: for k in 0..script.len() {
        let line = script.line(k);
        match step_whole(session, line, rig) {
            Err(_) => {
                return Err(Halt::Device {
                    number: line.number,
                });
            }
            Ok(reply) => match tell_heard(line, &reply, hearer, rig) {
                Err(_) => return Err(Halt::Tell),
                Ok(()) => count_reply(&mut tally, &reply),
            },
        }
    }
    Ok(tally)
}

/// Carries out the lines of a script in order, and tells the replies to a partition. Where the device fails in a line,
/// that is told and the run ends; it ends too where telling fails.
pub fn carry_out_heard<R: Rig>(
    session: &mut Session,
    script: &Script,
    p: PartitionId,
    rig: &mut R,
) -> Result<(), LineStop>
    requires ready { IsReady R.tells_view (R.state rig.old) session.old }
    requires of_table { AllByRecursion (IsLineOf (table_of_session session.old)) script.now }
    requires early { IsEarly 1 session.old }
    ensures ran { OnOk result (Served R.tells_text R.tells_view (table_of_session session.old)
        script.now (is_hearer (Some p)) session.old (R.state rig.old)
        session.new (R.state rig.new)) }
    ensures halted { result ≡ Err LineStop.Device
        → HaltsHeard R.tells_text R.tells_view (table_of_session session.old) script.now
        (is_hearer (Some p)) session.old (R.state rig.old) (R.state rig.new) }
    ensures stopped { result ≡ Err LineStop.Tell
        → StopsHearing R.tells_text R.tells_view (table_of_session session.old) script.now
        (is_hearer (Some p)) session.old (R.state rig.old) (R.state rig.new) }
    ensures pairs { LeavesOwnPairs R.tells_text R.tells_view (table_of_session session.old)
        script.now (is_hearer (Some p)) session.old (R.state rig.old) (R.state rig.new) }
    ensures later { Later (R.state rig.old) (R.state rig.new) }
{
    // A law of the definitions, on which what a cut leaves beside the text rests.
    reply_lines_tell();
    match carry_out_for(session, script, Some(p), rig) {
        Ok(_) => Ok(()),
        Err(Halt::Tell) => Err(LineStop::Tell),
        Err(Halt::Device { number }) => Err(tell_fault(number, rig)),
    }
}
