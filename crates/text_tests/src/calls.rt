//! Lines that ask for logbooks, sampling ports, modes and contexts.
use crate::scripts::two_partitions;
use apex_types::{Call, Context, Deed, Line, LogbookCall, Mode, SamplingCall};
use call_script::{Script, parse_script};
use std::test::Fail;

/// Each call of logbooks.
const LOGBOOK_LINES: &[u8] = b"FMS CREATE_LOGBOOK FAULTS
FMS WRITE_LOGBOOK 1 0aFf
FMS OVERWRITE_LOGBOOK 2 .
FMS READ_LOGBOOK 3 4294967295
FMS CLEAR_LOGBOOK 4
FMS GET_LOGBOOK_ID CREATE_LOGBOOK
FMS GET_LOGBOOK_STATUS 0
";

/// Each call of sampling ports.
const SAMPLING_LINES: &[u8] = b"FMS CREATE_SAMPLING_PORT ALT
FMS WRITE_SAMPLING_MESSAGE 1 C0
FMS READ_UPDATED_SAMPLING_MESSAGE 2
FMS GET_SAMPLING_PORT_CURRENT_STATUS 3
FMS READ_SAMPLING_MESSAGE_CONDITIONAL 4 10
";

/// Each mode and each context.
const DIRECTIVE_LINES: &[u8] = b"FMS MODE IDLE
FMS MODE COLD_START
FMS MODE WARM_START
FMS MODE NORMAL
FMS CONTEXT ORDINARY
FMS CONTEXT HANDLER
FMS CONTEXT LOCKED
";

/// The call that a line asks for, if it is one of the first partition.
fn call_of(line: &Line) -> Option<&Call> {
    match &line.deed {
        Deed::Partition { p, call } => if p.0 == 0 { Some(call) } else { None },
        Deed::Tick(_) => None,
    }
}

pub fn logbook_call(line: &Line) -> Option<&LogbookCall> {
    match call_of(line) {
        Some(Call::Logbook(call)) => Some(call),
        _ => None,
    }
}

fn sampling_call(line: &Line) -> Option<&SamplingCall> {
    match call_of(line) {
        Some(Call::Sampling(call)) => Some(call),
        _ => None,
    }
}

fn sets_mode(line: &Line, wanted: Mode) -> bool {
    match call_of(line) {
        Some(Call::SetMode(mode)) => *mode == wanted,
        _ => false,
    }
}

fn sets_context(line: &Line, wanted: Context) -> bool {
    match call_of(line) {
        Some(Call::SetContext(context)) => *context == wanted,
        _ => false,
    }
}

pub fn creates_logbook(call: Option<&LogbookCall>, wanted: &[u8]) -> bool {
    match call {
        Some(LogbookCall::Create { name }) => name.bytes() == wanted,
        _ => false,
    }
}

fn writes_logbook(call: Option<&LogbookCall>, number: u32, wanted: &[u8]) -> bool {
    match call {
        Some(LogbookCall::Write { id, bytes }) => *id == number && bytes.bytes() == wanted,
        _ => false,
    }
}

fn overwrites_logbook(call: Option<&LogbookCall>, number: u32, wanted: &[u8]) -> bool {
    match call {
        Some(LogbookCall::Overwrite { id, bytes }) => *id == number && bytes.bytes() == wanted,
        _ => false,
    }
}

fn finds_logbook(call: Option<&LogbookCall>, wanted: &[u8]) -> bool {
    match call {
        Some(LogbookCall::GetId { name }) => name.bytes() == wanted,
        _ => false,
    }
}

/// Whether a script asks for what stands in `LOGBOOK_LINES`.
fn asks_for_logbooks(script: &Script) -> bool {
    script.len() == 7
        && creates_logbook(logbook_call(script.line(0)), b"FAULTS")
        && writes_logbook(logbook_call(script.line(1)), 1, &[10, 255])
        && overwrites_logbook(logbook_call(script.line(2)), 2, &[])
        && matches!(
            logbook_call(script.line(3)),
            Some(LogbookCall::Read {
                id: 3,
                number: 4_294_967_295
            })
        )
        && matches!(
            logbook_call(script.line(4)),
            Some(LogbookCall::Clear { id: 4 })
        )
        && finds_logbook(logbook_call(script.line(5)), b"CREATE_LOGBOOK")
        && matches!(
            logbook_call(script.line(6)),
            Some(LogbookCall::GetStatus { id: 0 })
        )
}

fn creates_port(call: Option<&SamplingCall>, wanted: &[u8]) -> bool {
    match call {
        Some(SamplingCall::Create { name }) => name.bytes() == wanted,
        _ => false,
    }
}

fn writes_message(call: Option<&SamplingCall>, number: u32, wanted: &[u8]) -> bool {
    match call {
        Some(SamplingCall::Write { id, bytes }) => *id == number && bytes.bytes() == wanted,
        _ => false,
    }
}

/// Whether a script asks for what stands in `SAMPLING_LINES`.
fn asks_for_ports(script: &Script) -> bool {
    script.len() == 5
        && creates_port(sampling_call(script.line(0)), b"ALT")
        && writes_message(sampling_call(script.line(1)), 1, &[192])
        && matches!(
            sampling_call(script.line(2)),
            Some(SamplingCall::ReadUpdated { id: 2 })
        )
        && matches!(
            sampling_call(script.line(3)),
            Some(SamplingCall::CurrentStatus { id: 3 })
        )
        && matches!(
            sampling_call(script.line(4)),
            Some(SamplingCall::ReadConditional { id: 4, time: 10 })
        )
}

/// Whether a script asks for what stands in `DIRECTIVE_LINES`.
fn asks_for_modes(script: &Script) -> bool {
    script.len() == 7
        && sets_mode(script.line(0), Mode::Idle)
        && sets_mode(script.line(1), Mode::ColdStart)
        && sets_mode(script.line(2), Mode::WarmStart)
        && sets_mode(script.line(3), Mode::Normal)
        && sets_context(script.line(4), Context::Ordinary)
        && sets_context(script.line(5), Context::Handler)
        && sets_context(script.line(6), Context::Locked)
}

#[test]
fn calls_of_logbooks_are_read(rt: HostRuntime) -> Result<(), Fail> {
    let table = two_partitions(rt.alloc())?;
    let script = parse_script(rt.alloc(), LOGBOOK_LINES, &table)?;
    assert!(rt; asks_for_logbooks(&script));
    Ok(())
}

#[test]
fn calls_of_sampling_ports_are_read(rt: HostRuntime) -> Result<(), Fail> {
    let table = two_partitions(rt.alloc())?;
    let script = parse_script(rt.alloc(), SAMPLING_LINES, &table)?;
    assert!(rt; asks_for_ports(&script));
    Ok(())
}

#[test]
fn modes_and_contexts_are_read(rt: HostRuntime) -> Result<(), Fail> {
    let table = two_partitions(rt.alloc())?;
    let script = parse_script(rt.alloc(), DIRECTIVE_LINES, &table)?;
    assert!(rt; asks_for_modes(&script));
    Ok(())
}
