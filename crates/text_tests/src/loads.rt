//! Loads of lines that a seed makes.
ghost use Rattle.std.specs.Prelude.{◌<◌, IfOk, IfSome};
ghost use Rattle.apex_model.specs.Accepted.{IsAccepted};

use crate::calls::{creates_logbook, logbook_call};
use crate::scripts::{file_call, is_tick};
use crate::tables::SMALL;
use apex_types::{Call, Deed, FileCall, LogbookCall, Table};
use call_script::Script;
use config_table::{TableError, read_table};
use std::alloc::Global;
use std::test::Fail;
use stress_script::generate;

/// The small table.
fn small_table(alloc: Global) -> Result<Table, TableError>
    ensures { IfOk result (λ table. IsAccepted table) }
{
    let table = read_table(alloc, SMALL.as_bytes())?;
    Ok(table)
}

/// Whether these are the first four lines of seed 1.
fn are_first_of_one(script: &Script) -> bool {
    script.len() == 4
        && script.line(0).number == 1
        && creates_logbook(logbook_call(script.line(0)), b"FAULTS")
        && matches!(
            file_call(script.line(1), 2, 1),
            Some(FileCall::SyncFile { id: 4 })
        )
        && is_tick(script.line(2), 3, 10)
        && matches!(
            file_call(script.line(3), 4, 0),
            Some(FileCall::CloseFile { id: 2 })
        )
}

/// The kind of a file call that is drawn.
fn file_kind(call: &FileCall) -> Option<usize>
    ensures { IfSome result (λ kind. kind < 10) }
{
    match call {
        FileCall::OpenNewFile { .. } => Some(1),
        FileCall::OpenFile { .. } => Some(2),
        FileCall::WriteFile { .. } => Some(3),
        FileCall::ReadFile { .. } => Some(4),
        FileCall::SyncFile { .. } => Some(5),
        FileCall::CloseFile { .. } => Some(6),
        FileCall::RemoveFile { .. } => Some(7),
        _ => None,
    }
}

/// The kind of a line that is drawn, by what it asks for.
fn kind_of(deed: &Deed) -> Option<usize>
    ensures { IfSome result (λ kind. kind < 10) }
{
    match deed {
        Deed::Tick(_) => Some(0),
        Deed::Partition { call, .. } => match call {
            Call::File(call) => file_kind(call),
            Call::Logbook(LogbookCall::Create { .. }) => Some(8),
            Call::Logbook(LogbookCall::Write { .. }) => Some(9),
            _ => None,
        },
    }
}

/// Which of the ten kinds a script has.
fn kinds_found(script: &Script) -> [bool; 10] {
    let mut found = [false; 10];
    for k in 0..script.len() {
        if let Some(kind) = kind_of(&script.line(k).deed) {
            found[kind] = true;
        }
    }
    found
}

#[test]
fn seed_1_begins_with_these_lines(rt: HostRuntime) -> Result<(), Fail> {
    let table = small_table(rt.alloc())?;
    let script = generate(rt.alloc(), 1, 4, &table)?;
    assert!(rt; are_first_of_one(&script));
    Ok(())
}

#[test]
fn a_long_load_has_lines_of_each_kind(rt: HostRuntime) -> Result<(), Fail> {
    let table = small_table(rt.alloc())?;
    let script = generate(rt.alloc(), 7, 20_000, &table)?;
    assert!(rt; script.len() == 20_000);
    assert!(rt; kinds_found(&script) == [true; 10]);
    Ok(())
}
