//! The module table and the script of their sources.
ghost use Rattle.std.specs.Prelude.{◌≡◌, ◌≤◌, [], Some, Ok, IfOk, IfErr, OnOk};
ghost use Rattle.std.specs.List.{AllByRecursion};
ghost use Rattle.apex_model.specs.Accepted.{IsAccepted};
ghost use Rattle.apex_model.specs.Lines.{IsLineOf};
ghost use Rattle.apex_host.specs.Endings.{GaveTable, GaveScript};
ghost use Rattle.apex_host.specs.Stops.{StopsTable, StopsScript};

use crate::reading::{ReadStop, read_source};
use crate::stops::Stop;
use apex_types::Table;
use call_script::{Script, parse_script};
use config_table::read_table;
use rig_core::Source;
use std::alloc::Global;

/// The module table of a source. Where a read of it fails, that is why no table is given, whatever
/// was read before.
pub fn accepted_table<T: Source>(alloc: Global, source: &mut T) -> Result<Table, Stop>
    ensures gave { IfOk result (GaveTable (T.left source.old) (T.left source.new)) }
    ensures stopped { IfErr result
        (StopsTable (T.left source.old) (T.faults source.old) (T.faults source.new)) }
    ensures good { OnOk result (T.faults source.new ≡ T.faults source.old) }
    ensures later { T.faults source.old ≤ T.faults source.new }
{
    let text = match read_source(alloc, source, 65_536) {
        Ok(text) => text,
        Err(ReadStop::Fault) => return Err(Stop::table_fault()),
        Err(ReadStop::Memory) => return Err(Stop::memory()),
    };
    match read_table(alloc, text.bytes()) {
        Ok(table) => Ok(table),
        Err(error) => Err(Stop::table(error)),
    }
}

/// The script of a source, for a table. Where a read of it fails, that is why no script is given,
/// whatever was read before.
pub fn accepted_script<S: Source>(
    alloc: Global,
    source: &mut S,
    table: &Table,
) -> Result<Script, Stop>
    requires { IsAccepted table.now }
    ensures gave { IfOk result (GaveScript (S.left source.old) (S.left source.new) table.now) }
    ensures of_table { IfOk result (λ lines. AllByRecursion (IsLineOf table.now) lines) }
    ensures stopped { IfErr result
        (StopsScript table.now (S.left source.old) (S.faults source.old) (S.faults source.new)) }
    ensures good { OnOk result (S.faults source.new ≡ S.faults source.old) }
    ensures later { S.faults source.old ≤ S.faults source.new }
{
    let text = match read_source(alloc, source, 1_048_576) {
        Ok(text) => text,
        Err(ReadStop::Fault) => return Err(Stop::script_fault()),
        Err(ReadStop::Memory) => return Err(Stop::memory()),
    };
    match parse_script(alloc, text.bytes(), table) {
        Ok(lines) => Ok(lines),
        Err(error) => Err(Stop::script(error)),
    }
}
